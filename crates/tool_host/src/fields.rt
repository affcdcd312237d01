//! The fields of a frame's body, one after the other. Numbers are big endian.
ghost use Rattle.std.specs.Prelude.{◌≡◌, ◌++◌, ◌<◌, IfOk, IfErr, length};

use crate::FrameFault;
use byteorder::{BigEndian, ByteOrder};

/// What is left of a body.
#[derive(Drop)]
pub struct Fields<'a> {
    rest: &'a [u8],
}

impl<'a> Fields<'a> {
    /// All of a body is left.
    pub fn new(octets: &'a [u8]) -> Fields<'a>
        ensures { result.rest.now ≡ octets.now }
    {
        Fields { rest: octets }
    }

    /// The next octets, so many. [`FrameFault::Short`] where fewer are left, and then nothing is taken.
    pub fn take(&mut self, count: usize) -> Result<&'a [u8], FrameFault>
        ensures taken { IfOk result (λ taken. (length taken.now ≡ count)
            × (self.old.rest.now ≡ taken.now ++ self.new.rest.now)) }
        ensures short { IfErr result (λ _. (length self.old.rest.now < count) × (self.new.rest.now ≡ self.old.rest.now)) }
    {
        let Some((taken, rest)) = self.rest.split_at_checked(count) else {
            return Err(FrameFault::Short);
        };
        self.rest = rest;
        Ok(taken)
    }

    /// All octets that are left.
    pub fn rest(self) -> &'a [u8]
        ensures { result.now ≡ self.entry.rest.now }
    {
        self.rest
    }

    /// Whether octets are left.
    pub fn is_empty(&self) -> bool {
        self.rest.is_empty()
    }

    /// Nothing may be left: [`FrameFault::Left`].
    pub fn end(self) -> Result<(), FrameFault> {
        if self.rest.is_empty() {
            Ok(())
        } else {
            Err(FrameFault::Left)
        }
    }

    /// The next octets, as many as the array has.
    pub fn array<const N: usize>(&mut self) -> Result<[u8; N], FrameFault> {
        let mut array = [0; N];
        array.copy_from_slice(self.take(N)?);
        Ok(array)
    }

    pub fn octet(&mut self) -> Result<u8, FrameFault> {
        let [octet] = self.array::<1>()?;
        Ok(octet)
    }

    pub fn u16(&mut self) -> Result<u16, FrameFault> {
        Ok(BigEndian::read_u16(self.take(2)?))
    }

    pub fn u32(&mut self) -> Result<u32, FrameFault> {
        Ok(BigEndian::read_u32(self.take(4)?))
    }

    pub fn u64(&mut self) -> Result<u64, FrameFault> {
        Ok(BigEndian::read_u64(self.take(8)?))
    }

    pub fn u128(&mut self) -> Result<u128, FrameFault> {
        Ok(BigEndian::read_u128(self.take(16)?))
    }

    /// A length of 2 octets, and so many octets behind it.
    pub fn block(&mut self) -> Result<&'a [u8], FrameFault> {
        let length = self.u16()?;
        self.take(usize::from(length))
    }
}

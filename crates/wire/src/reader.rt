//! Reading octets from left to right.
ghost use Rattle.std.specs.Prelude.{◌≡◌, ◌-◌, ◌≤◌, ◌==◌, length, IfErr};
ghost use Rattle.wire.specs.Reading.{Reads, octet_at, number_at, octets_at, part_at, piece_of, refusal_of};
ghost use Rattle.wire.specs.declared.reader.Unread.TheVariants.{Memory};

use crate::fault::WireFault;
use byteorder::{BigEndian, ByteOrder};
use std::alloc::{AllocError, AllocFailed};

// Why octets give no value.
#[derive(Clone, Copy, Debug)]
pub(crate) enum Unread {
    // They are not in the grammar.
    Malformed,
    // A growth was refused.
    Memory,
}

impl Unread {
    // The refusal, which is this fault where the octets are not in the grammar.
    pub(crate) fn or(self, fault: WireFault) -> WireFault
        ensures { result ≡ refusal_of self fault }
    {
        match self {
            Unread::Malformed => fault,
            Unread::Memory => WireFault::Memory,
        }
    }
}

impl From<AllocError> for Unread {
    ghost from_gives = { λ _ e. e ≡ Memory };

    fn from(_refused: AllocError) -> Unread {
        Unread::Memory
    }
}

impl<T: Drop> From<AllocFailed<T>> for Unread {
    ghost from_gives = { λ _ e. e ≡ Memory };

    fn from(_refused: AllocFailed<T>) -> Unread {
        Unread::Memory
    }
}

// What is left to read of some octets. Where a value does not fit in, the octets are malformed; reading
// takes no memory.
#[derive(Clone, Copy)]
pub(crate) struct Reader<'a> {
    pub(crate) rest: &'a [u8],
    // the offset behind the last octet
    pub(crate) end: usize,
    ghost within: { length rest.now ≤ end },
}

// A header of four octets and what it heads (RFC 7296 section 3.2): its first two octets, and what stands
// behind it, of the length that the other two give.
#[derive(Clone, Copy)]
pub(crate) struct Part<'a> {
    pub(crate) first: u8,
    pub(crate) second: u8,
    pub(crate) inside: Reader<'a>,
}

impl<'a> Reader<'a> {
    pub(crate) fn new(octets: &'a [u8]) -> Self
        ensures rest { result.rest.now ≡ octets.entry.now }
        ensures end { result.end ≡ length octets.entry.now }
    {
        Reader {
            rest: octets,
            end: octets.len(),
        }
    }

    // The offset of the next octet.
    pub(crate) fn offset(&self) -> usize
        ensures { result ≡ self.now.end - length self.now.rest.now }
    {
        self.end - self.rest.len()
    }

    pub(crate) fn is_empty(&self) -> bool
        ensures { result ≡ (length self.now.rest.now == 0) }
    {
        self.rest.is_empty()
    }

    // The next octets, so many.
    pub(crate) fn octets(&mut self, count: usize) -> Result<&'a [u8], Unread>
        ensures read { Reads (λ x. x.now) self.new.rest.now result (octets_at count self.old.rest.now) }
        ensures end { self.new.end ≡ self.old.end }
        ensures free { IfErr result (λ e. e ≡ Unread.Malformed) }
    {
        if self.rest.len() < count {
            return Err(Unread::Malformed);
        }
        let (front, rest) = self.rest.split_at(count);
        self.rest = rest;
        Ok(front)
    }

    pub(crate) fn u8(&mut self) -> Result<u8, Unread>
        ensures read { Reads (λ x. x) self.new.rest.now result (octet_at self.old.rest.now) }
        ensures end { self.new.end ≡ self.old.end }
        ensures free { IfErr result (λ e. e ≡ Unread.Malformed) }
    {
        let octets = self.octets(1)?;
        Ok(octets[0])
    }

    pub(crate) fn u16(&mut self) -> Result<u16, Unread>
        ensures read { Reads (λ x. x) self.new.rest.now result (number_at 2 self.old.rest.now) }
        ensures end { self.new.end ≡ self.old.end }
        ensures free { IfErr result (λ e. e ≡ Unread.Malformed) }
    {
        let octets = self.octets(2)?;
        Ok(BigEndian::read_u16(octets))
    }

    pub(crate) fn u32(&mut self) -> Result<u32, Unread>
        ensures read { Reads (λ x. x) self.new.rest.now result (number_at 4 self.old.rest.now) }
        ensures end { self.new.end ≡ self.old.end }
        ensures free { IfErr result (λ e. e ≡ Unread.Malformed) }
    {
        let octets = self.octets(4)?;
        Ok(BigEndian::read_u32(octets))
    }

    pub(crate) fn u64(&mut self) -> Result<u64, Unread>
        ensures read { Reads (λ x. x) self.new.rest.now result (number_at 8 self.old.rest.now) }
        ensures end { self.new.end ≡ self.old.end }
        ensures free { IfErr result (λ e. e ≡ Unread.Malformed) }
    {
        let octets = self.octets(8)?;
        Ok(BigEndian::read_u64(octets))
    }

    pub(crate) fn u128(&mut self) -> Result<u128, Unread>
        ensures read { Reads (λ x. x) self.new.rest.now result (number_at 16 self.old.rest.now) }
        ensures end { self.new.end ≡ self.old.end }
        ensures free { IfErr result (λ e. e ≡ Unread.Malformed) }
    {
        let octets = self.octets(16)?;
        Ok(BigEndian::read_u128(octets))
    }

    // The next part.
    #[tactic(auto, unfolding(crate::specs::Reading::part_at))]
    pub(crate) fn part(&mut self) -> Result<Part<'a>, Unread>
        ensures read { Reads (λ p. piece_of p.first p.second p.inside.rest.now) self.new.rest.now result
            (part_at self.old.rest.now) }
        ensures end { self.new.end ≡ self.old.end }
        ensures free { IfErr result (λ e. e ≡ Unread.Malformed) }
    {
        let first = self.u8()?;
        let second = self.u8()?;
        let length = usize::from(self.u16()?);
        if length < 4 {
            return Err(Unread::Malformed);
        }
        let inside = self.octets(length - 4)?;
        Ok(Part {
            first,
            second,
            inside: Reader::new(inside),
        })
    }
}

//! The words of a line.
ghost use Rattle.std.specs.Prelude.{◌≤◌, IfOk};

use crate::LineFault;
use base::{Address, Range};
use gw_console::read_address;
use hex::{FromHex, FromHexError};
use std::alloc::Global;
use std::str;

/// The words of a line that were not read yet. They are parted by one space each.
#[derive(Drop)]
pub struct Words<'a> {
    rest: Option<&'a [u8]>,
}

impl<'a> Words<'a> {
    /// All words of a line.
    pub fn of(line: &'a [u8]) -> Words<'a> {
        Words { rest: Some(line) }
    }

    /// The next word, which is empty beside a space too many.
    pub fn word(&mut self) -> Result<&'a [u8], LineFault> {
        let rest = self.rest.ok_or(LineFault::Refused)?;
        match rest.iter().position(|octet| *octet == b' ') {
            Some(end) => {
                self.rest = Some(&rest[end + 1..]);
                Ok(&rest[..end])
            }
            None => {
                self.rest = None;
                Ok(rest)
            }
        }
    }

    /// The next word as a decimal number up to `most`: digits alone, the first of which may be zeros.
    pub fn number(&mut self, most: u64) -> Result<u64, LineFault>
        ensures { IfOk result (λ n. n ≤ most) }
    {
        let word = self.word()?;
        let number = decimal(word).ok_or(LineFault::Refused)?;
        if number > most {
            return Err(LineFault::Refused);
        }
        Ok(number)
    }

    /// The next word as a decimal number of 32 bits.
    pub fn small_number(&mut self) -> Result<u32, LineFault> {
        Ok(self.number(u64::from(u32::MAX))? as u32)
    }

    /// The next word as octets in hexadecimal, `-` for none.
    pub fn octets(&mut self, alloc: Global) -> Result<Vec<u8>, LineFault> {
        match self.word()? {
            b"" => Err(LineFault::Refused),
            b"-" => Ok(Vec::new(alloc)),
            word => hex::decode(alloc, word).map_err(|fault| match fault {
                FromHexError::OutOfMemory => LineFault::Memory,
                _ => LineFault::Refused,
            }),
        }
    }

    /// The next word as so many octets in hexadecimal.
    pub fn array<const N: usize>(&mut self) -> Result<[u8; N], LineFault> {
        <[u8; N]>::from_hex(self.word()?).map_err(|_| LineFault::Refused)
    }

    /// The next word as one octet in hexadecimal.
    pub fn octet(&mut self) -> Result<u8, LineFault> {
        let [octet] = self.array::<1>()?;
        Ok(octet)
    }

    /// The next word as `yes` or `no`.
    pub fn yes_or_no(&mut self) -> Result<bool, LineFault> {
        match self.word()? {
            b"yes" => Ok(true),
            b"no" => Ok(false),
            _ => Err(LineFault::Refused),
        }
    }

    /// The next word as two addresses of one family, parted by a hyphen. Their order is not judged.
    pub fn addresses(&mut self) -> Result<Range, LineFault> {
        let (start, end) = parts(self.word()?)?;
        match (address(start)?, address(end)?) {
            (Address::V4(start), Address::V4(end)) => Ok(Range::V4(start, end)),
            (Address::V6(start), Address::V6(end)) => Ok(Range::V6(start, end)),
            _ => Err(LineFault::Refused),
        }
    }

    /// The next word as two ports, parted by a hyphen. Their order is not judged.
    pub fn ports(&mut self) -> Result<(u16, u16), LineFault> {
        let (start, end) = parts(self.word()?)?;
        Ok((port(start)?, port(end)?))
    }

    /// Refused unless all words were read.
    pub fn end(&self) -> Result<(), LineFault> {
        match self.rest {
            Some(_) => Err(LineFault::Refused),
            None => Ok(()),
        }
    }
}

// The parts of a word before its first hyphen and behind it.
fn parts(word: &[u8]) -> Result<(&[u8], &[u8]), LineFault> {
    let hyphen = word
        .iter()
        .position(|octet| *octet == b'-')
        .ok_or(LineFault::Refused)?;
    Ok((&word[..hyphen], &word[hyphen + 1..]))
}

fn address(word: &[u8]) -> Result<Address, LineFault> {
    let text = str::from_utf8(word).map_err(|_| LineFault::Refused)?;
    read_address(text).ok_or(LineFault::Refused)
}

fn port(digits: &[u8]) -> Result<u16, LineFault> {
    let number = decimal(digits).ok_or(LineFault::Refused)?;
    u16::try_from(number).map_err(|_| LineFault::Refused)
}

// The number that the digits spell, if it has 64 bits.
fn decimal(digits: &[u8]) -> Option<u64> {
    if digits.is_empty() {
        return None;
    }
    let mut number = 0u64;
    for digit in digits {
        if !digit.is_ascii_digit() {
            return None;
        }
        number = number
            .checked_mul(10)?
            .checked_add(u64::from(digit - b'0'))?;
    }
    Some(number)
}

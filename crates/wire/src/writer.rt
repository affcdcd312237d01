//! Writing octets at the end of a vector.
ghost use Rattle.std.specs.Prelude.{◌≡◌, ◌+◌, ◌≤◌, ◌<◌, ◌++◌, ◌==◌, if◌then◌else◌, length, take, drop};
ghost use Rattle.byteorder.specs.Endian.{big_bytes};
ghost use Rattle.wire.specs.Writing.{Writes, octets_onto, number_onto, open_onto, close_onto};
ghost use Rattle.wire.specs.declared.writer.Unwritten.TheVariants.{Memory};

use crate::fault::WireFault;
use byteorder::{BigEndian, ByteOrder};
use std::alloc::AllocError;

// Why a value is not written.
#[derive(Clone, Copy, Debug)]
pub(crate) enum Unwritten {
    // No octets spell it.
    Unspelled,
    // A growth was refused.
    Memory,
}

impl Unwritten {
    // The refusal, which is this fault where no octets spell the value.
    pub(crate) fn or(self, fault: WireFault) -> WireFault
        ensures spelled { self ≡ Unwritten.Unspelled → result ≡ fault }
        ensures memory { self ≡ Unwritten.Memory → result ≡ WireFault.Memory }
    {
        match self {
            Unwritten::Unspelled => fault,
            Unwritten::Memory => WireFault::Memory,
        }
    }
}

impl From<AllocError> for Unwritten {
    ghost from_gives = { λ _ e. e ≡ Memory };

    fn from(_refused: AllocError) -> Unwritten {
        Unwritten::Memory
    }
}

pub(crate) fn push_octets(out: &mut Vec<u8>, octets: &[u8]) -> Result<(), Unwritten>
    ensures { Writes out.new.items result (octets_onto octets.now out.old.items) }
{
    out.extend_from_slice(octets)?;
    Ok(())
}

pub(crate) fn push_u16(out: &mut Vec<u8>, number: u16) -> Result<(), Unwritten>
    ensures { Writes out.new.items result (number_onto 2 number out.old.items) }
{
    let mut octets = [0; 2];
    BigEndian::write_u16(&mut octets, number);
    push_octets(out, &octets)
}

pub(crate) fn push_u32(out: &mut Vec<u8>, number: u32) -> Result<(), Unwritten>
    ensures { Writes out.new.items result (number_onto 4 number out.old.items) }
{
    let mut octets = [0; 4];
    BigEndian::write_u32(&mut octets, number);
    push_octets(out, &octets)
}

pub(crate) fn push_u64(out: &mut Vec<u8>, number: u64) -> Result<(), Unwritten>
    ensures { Writes out.new.items result (number_onto 8 number out.old.items) }
{
    let mut octets = [0; 8];
    BigEndian::write_u64(&mut octets, number);
    push_octets(out, &octets)
}

pub(crate) fn push_u128(out: &mut Vec<u8>, number: u128) -> Result<(), Unwritten>
    ensures { Writes out.new.items result (number_onto 16 number out.old.items) }
{
    let mut octets = [0; 16];
    BigEndian::write_u128(&mut octets, number);
    push_octets(out, &octets)
}

// Sets the two octets at a place.
fn set_u16(octets: &mut [u8], place: usize, number: u16)
    requires { place + 2 ≤ length octets.old }
    ensures { octets.new ≡ take place octets.old ++ big_bytes 2 number ++ drop (place + 2) octets.old }
{
    BigEndian::write_u16(&mut octets[place..place + 2], number);
}

// Sets the four octets at a place.
pub(crate) fn set_u32(octets: &mut [u8], place: usize, number: u32)
    requires { place + 4 ≤ length octets.old }
    ensures { octets.new ≡ take place octets.old ++ big_bytes 4 number ++ drop (place + 4) octets.old }
{
    BigEndian::write_u32(&mut octets[place..place + 4], number);
}

// The mark of the part at this place of so many: 0 of the last, and else what marks one with another behind
// it.
pub(crate) fn mark_at(place: usize, count: usize, more: u8) -> u8
    requires { place < count }
    ensures { result ≡ (if place + 1 == count then 0 else more) }
{
    if place + 1 == count { 0 } else { more }
}

// Begins a part (RFC 7296 section 3.2), whose length [`close_part`] fills in.
pub(crate) fn open_part(out: &mut Vec<u8>, first: u8, second: u8) -> Result<(), Unwritten>
    ensures { Writes out.new.items result (open_onto first second out.old.items) }
{
    push_octets(out, &[first, second, 0, 0])
}

// Ends the part that begins at `start`.
pub(crate) fn close_part(out: &mut Vec<u8>, start: usize) -> Result<(), Unwritten>
    requires { start + 4 ≤ length out.old.items }
    ensures { Writes out.new.items result (close_onto start out.old.items) }
{
    let length = out.len() - start;
    if length > 0xffff {
        return Err(Unwritten::Unspelled);
    }
    set_u16(out.as_mut_slice(), start + 2, length as u16);
    Ok(())
}

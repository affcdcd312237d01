//! Packets of one SA of SPI 256: sealed, opened, refused (RFC 4303, sections 2 and 3).
ghost use Rattle.std.specs.Prelude.{◌≡◌, ◌≤◌, ◌↔◌, IsTrue, length, take};
ghost use Rattle.byteorder.specs.Endian.{big_bytes};

use esp::{EspFault, Inbound, Outbound};
use replay::BlockWindow;
use std::alloc::{AllocError, Global};

const SPI: u32 = 256;

const KEY: [u8; 32] = [0x0b; 32];

// The next header of an IPv4 packet.
const IPV4: u8 = 4;

// An IPv4 packet from 10.0.0.1 to 10.1.0.1 that is a header alone.
const INNER: [u8; 20] = [
    0x45, 0, 0, 20, 0, 0, 0, 0, 0x40, 1, 0, 0, 10, 0, 0, 1, 10, 1, 0, 1,
];

// As far as the ICV, the packet of number 1 that carries it: SPI, number, packet, padding, its
// length, next header.
const SEALED: [u8; 32] = [
    0, 0, 1, 0, 0, 0, 0, 1, 0x45, 0, 0, 20, 0, 0, 0, 0, 0x40, 1, 0, 0, 10, 0, 0, 1, 10, 1, 0, 1, 1,
    2, 2, 4,
];

// The octets of a payload, those of its padding, and those of its packet.
const SIZES: [(usize, u8, usize); 6] = [
    (0, 2, 28),
    (22, 0, 48),
    (23, 3, 52),
    (24, 2, 52),
    (25, 1, 52),
    (16_384, 2, 16_412),
];

pub fn holds(alloc: Global, row: usize) -> Result<bool, AllocError> {
    match row {
        0 => carries_a_packet(alloc),
        1..=6 => has_size(alloc, row - 1),
        7 => is_too_large(alloc),
        8 => opens_once(alloc),
        9 => is_damaged(alloc),
        10 => has_bad_padding(alloc),
        11 => has_number_zero(alloc),
        12 => is_exhausted(alloc),
        13 => is_not_recovered(alloc),
        14 => is_recovered(alloc),
        _ => Ok(false),
    }
}

// The packet in which a payload goes by a sender that sealed its last one with this number.
fn sealed(
    alloc: Global,
    payload: &[u8],
    extended: bool,
    last: u64,
) -> Result<Result<Vec<u8>, EspFault>, AllocError> {
    let mut packet = Vec::new(alloc);
    match Outbound::new(SPI, &KEY, extended, last).seal(IPV4, payload, &mut packet) {
        Ok(_) => Ok(Ok(packet)),
        Err(EspFault::Memory) => Err(AllocError),
        Err(fault) => Ok(Err(fault)),
    }
}

// A receiver that was given packets of its SPI alone.
#[derive(Drop)]
struct Receiver {
    inbound: Inbound<BlockWindow>,
    ghost spi: { inbound.association.spi ≡ 256 },
}

// What comes of a packet that is opened.
#[derive(Clone, Copy, PartialEq, Eq)]
enum Opening {
    // It carries [`INNER`], with this number.
    Up(u64),
    // It is refused.
    Refused(EspFault),
    // It carries something else, or is for another SA.
    Other,
}

impl Receiver {
    fn new(alloc: Global, extended: bool) -> Result<Receiver, AllocError> {
        let Ok(window) = BlockWindow::new(alloc, 2) else {
            return Err(AllocError);
        };
        Ok(Receiver {
            inbound: Inbound::new(SPI, &KEY, extended, window),
        })
    }

    fn open(&mut self, packet: &[u8]) -> Opening {
        if !is_ours(packet) {
            return Opening::Other;
        }
        match self.inbound.open(packet) {
            Ok(opened) if opened.next == IPV4 && opened.payload == INNER.as_slice() => {
                Opening::Up(opened.number)
            }
            Ok(_) => Opening::Other,
            Err(fault) => Opening::Refused(fault),
        }
    }
}

// Whether the packet begins with the SPI, if it has room for one.
fn is_ours(packet: &[u8]) -> bool
    ensures { IsTrue result ↔ (4 ≤ length packet.now → take 4 packet.now ≡ big_bytes 4 256) }
{
    packet.len() < 4 || packet[..4] == [0, 0, 1, 0]
}

fn carries_a_packet(alloc: Global) -> Result<bool, AllocError> {
    match sealed(alloc, &INNER, false, 0)? {
        Ok(packet) => Ok(packet.len() == 48 && packet.starts_with(&SEALED)),
        Err(_) => Ok(false),
    }
}

fn has_size(alloc: Global, row: usize) -> Result<bool, AllocError> {
    let Some((octets, pad, size)) = SIZES.get(row) else {
        return Ok(false);
    };
    let payload = vec![in alloc; 0x5a; *octets]?;
    match sealed(alloc, &payload, false, 0)? {
        // Before the ICV stand the padding's length and the next header.
        Ok(packet) => Ok(packet.len() == *size && packet.get(size.saturating_sub(18)) == Some(pad)),
        Err(_) => Ok(false),
    }
}

fn is_too_large(alloc: Global) -> Result<bool, AllocError> {
    let payload = vec![in alloc; 0; 16_385]?;
    Ok(sealed(alloc, &payload, false, 0)? == Err(EspFault::PayloadSize))
}

// The seventh packet comes, and comes again.
fn opens_once(alloc: Global) -> Result<bool, AllocError> {
    let mut receiver = Receiver::new(alloc, false)?;
    let Ok(packet) = sealed(alloc, &INNER, false, 6)? else {
        return Ok(false);
    };
    Ok(
        receiver.open(&packet) == Opening::Up(7)
            && receiver.open(&packet) == Opening::Refused(EspFault::Replayed),
    )
}

// The ninth packet comes damaged, and then as it is.
fn is_damaged(alloc: Global) -> Result<bool, AllocError> {
    let mut receiver = Receiver::new(alloc, false)?;
    let Ok(packet) = sealed(alloc, &INNER, false, 8)? else {
        return Ok(false);
    };
    let mut damaged = packet.clone()?;
    if let Some(octet) = damaged.last_mut() {
        *octet ^= 1;
    }
    Ok(
        receiver.open(&damaged) == Opening::Refused(EspFault::BadIcv)
            && receiver.open(&packet) == Opening::Up(9),
    )
}

// A packet of this low half, with these octets up to the next header and a right ICV over them.
fn signed(alloc: Global, low: u32, contents: &[u8]) -> Result<Vec<u8>, AllocError> {
    let mut packet = Vec::with_capacity(alloc, contents.len().saturating_add(24))?;
    packet.extend_from_slice(&SPI.to_be_bytes())?;
    packet.extend_from_slice(&low.to_be_bytes())?;
    packet.extend_from_slice(contents)?;
    let check = mac::icv(&KEY, &[&packet]);
    packet.extend_from_slice(&check)?;
    Ok(packet)
}

// The padding is 0, 0 where it should be 1, 2: the number stays taken.
fn has_bad_padding(alloc: Global) -> Result<bool, AllocError> {
    let mut receiver = Receiver::new(alloc, false)?;
    let packet = signed(alloc, 1, &[0, 0, 2, IPV4])?;
    Ok(
        receiver.open(&packet) == Opening::Refused(EspFault::BadPadding)
            && receiver.open(&packet) == Opening::Refused(EspFault::Replayed),
    )
}

fn has_number_zero(alloc: Global) -> Result<bool, AllocError> {
    let mut receiver = Receiver::new(alloc, false)?;
    let packet = signed(alloc, 0, &[1, 2, 2, IPV4])?;
    Ok(receiver.open(&packet) == Opening::Refused(EspFault::BadNumber))
}

fn is_exhausted(alloc: Global) -> Result<bool, AllocError> {
    Ok(sealed(alloc, &INNER, false, 0xffff_ffff)? == Err(EspFault::Exhausted))
}

// With ESN a new receiver recovers none from the low half 0 of 2^32.
fn is_not_recovered(alloc: Global) -> Result<bool, AllocError> {
    let mut receiver = Receiver::new(alloc, true)?;
    let Ok(packet) = sealed(alloc, &INNER, true, 0xffff_ffff)? else {
        return Ok(false);
    };
    Ok(receiver.open(&packet) == Opening::Refused(EspFault::BadNumber))
}

// It does once a number came that is near.
fn is_recovered(alloc: Global) -> Result<bool, AllocError> {
    let mut receiver = Receiver::new(alloc, true)?;
    let Ok(near) = sealed(alloc, &INNER, true, 0xffff_ffbf)? else {
        return Ok(false);
    };
    let Ok(packet) = sealed(alloc, &INNER, true, 0xffff_ffff)? else {
        return Ok(false);
    };
    Ok(
        receiver.open(&near) == Opening::Up(0xffff_ffc0)
            && receiver.open(&packet) == Opening::Up(0x1_0000_0000),
    )
}

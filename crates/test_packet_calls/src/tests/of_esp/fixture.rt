//! What the tests share: one SA of SPI 256 under a key of 32 octets 0b.
ghost use Rattle.std.specs.Prelude.{◌≡◌, ◌≤◌, IsTrue, ◌↔◌, All, length, take};
ghost use Rattle.byteorder.specs.Endian.{big_bytes};

use crate::tests::asserts::same;
use esp::{EspFault, Inbound, ListFault, ListStop, Opened, Outbound};
use replay::PlainWindow;
use std::alloc::{AllocError, Global};
use std::process::Abort;

pub const SPI: u32 = 256;

pub const KEY: [u8; 32] = [0x0b; 32];

/// An IPv4 packet from 10.0.0.1 to 10.1.0.1 that is a header alone.
pub fn inner() -> [u8; 20] {
    [
        0x45, 0x00, 0x00, 0x14, 0x00, 0x00, 0x00, 0x00, 0x40, 0x01, 0x00, 0x00, 0x0a, 0x00, 0x00,
        0x01, 0x0a, 0x01, 0x00, 0x01,
    ]
}

/// The next header of an IPv4 packet.
pub const IPV4: u8 = 4;

/// The packet with number 1 that carries [`inner`], without extended numbers.
pub fn first() -> [u8; 48] {
    [
        0x00, 0x00, 0x01, 0x00, 0x00, 0x00, 0x00, 0x01, 0x45, 0x00, 0x00, 0x14, 0x00, 0x00, 0x00,
        0x00, 0x40, 0x01, 0x00, 0x00, 0x0a, 0x00, 0x00, 0x01, 0x0a, 0x01, 0x00, 0x01, 0x01, 0x02,
        0x02, 0x04, 0x8c, 0x57, 0x5e, 0xcd, 0x82, 0xb0, 0x4c, 0x86, 0xd2, 0xe6, 0xc1, 0x81, 0x15,
        0xf2, 0xb5, 0x2d,
    ]
}

/// A sender without extended numbers that sealed its last packet with this number.
pub fn sender(last: u64) -> Outbound {
    Outbound::new(SPI, &KEY, false, last)
}

/// A sender with extended numbers that sealed its last packet with this number.
pub fn extended_sender(last: u64) -> Outbound {
    Outbound::new(SPI, &KEY, true, last)
}

/// The packet in which a sender carries [`inner`], which is to have this number.
pub fn sealed(rt: &impl Abort, alloc: Global, mut sender: Outbound, number: u64) -> Vec<u8> {
    let mut packet = Vec::new(alloc);
    same(rt, sender.seal(IPV4, &inner(), &mut packet), Ok(number));
    packet
}

/// A receiver with a window of 64 numbers, which is handed only packets of its SPI.
#[derive(Drop)]
pub struct Receiver {
    inbound: Inbound<PlainWindow>,
    ghost spi: { inbound.association.spi ≡ 256 },
}

impl Receiver {
    pub fn new(alloc: Global, extended: bool) -> Receiver {
        Receiver {
            inbound: Inbound::new(SPI, &KEY, extended, PlainWindow::new(alloc, 2)),
        }
    }

    pub fn open<'a>(&mut self, rt: &impl Abort, packet: &'a [u8]) -> Result<Opened<'a>, EspFault> {
        assert!(rt; is_ours(packet));
        self.inbound.open(packet)
    }

    /// Finds that a packet is refused so.
    pub fn refuses(&mut self, rt: &impl Abort, packet: &[u8], fault: EspFault) {
        same(rt, self.open(rt, packet).err(), Some(fault));
    }

    /// Finds what a packet carries.
    pub fn opens(&mut self, rt: &impl Abort, packet: &[u8], number: u64, next: u8, payload: &[u8]) {
        let wanted = Opened {
            number,
            next,
            payload,
        };
        same(rt, self.open(rt, packet), Ok(wanted));
    }

    /// Finds that a packet carries [`inner`] under this number.
    pub fn opens_inner(&mut self, rt: &impl Abort, packet: &[u8], number: u64) {
        self.opens(rt, packet, number, IPV4, &inner());
    }

    pub fn open_all<'a>(
        &mut self,
        rt: &impl Abort,
        packets: &[&'a [u8]],
        out: &mut Vec<Result<Opened<'a>, EspFault>>,
    ) -> Result<(), ListStop<ListFault>> {
        assert!(rt; are_ours(packets));
        self.inbound.open_all(packets, out)
    }
}

/// Whether the packet begins with the SPI, if it has room for one.
fn is_ours(packet: &[u8]) -> bool
    ensures { IsTrue result ↔ (4 ≤ length packet.now → take 4 packet.now ≡ big_bytes 4 256) }
{
    packet.len() < 4 || packet[..4] == [0, 0, 1, 0]
}

/// Whether each of the packets does.
fn are_ours(packets: &[&[u8]]) -> bool
    ensures { IsTrue result → All (λ p. 4 ≤ length p.now → take 4 p.now ≡ big_bytes 4 256) packets.now }
{
    packets.iter().all(|packet| is_ours(packet))
}

/// The octets of each packet.
pub fn slices(alloc: Global, packets: &[Vec<u8>]) -> Result<Vec<&[u8]>, AllocError> {
    let mut slices = Vec::with_capacity(alloc, packets.len())?;
    for packet in packets {
        slices.push(packet.as_slice())?;
    }
    Ok(slices)
}

/// A packet of the SPI with this low half and these octets up to the next header. Its ICV is right over them
/// and the half of the number that is not sent.
pub fn packet(
    alloc: Global,
    low: u32,
    contents: &[u8],
    unsent: &[u8],
) -> Result<Vec<u8>, AllocError> {
    let mut packet = Vec::with_capacity(alloc, contents.len() + 24)?;
    packet.extend_from_slice(&SPI.to_be_bytes())?;
    packet.extend_from_slice(&low.to_be_bytes())?;
    packet.extend_from_slice(contents)?;
    let check = mac::icv(&KEY, &[&packet, unsent]);
    packet.extend_from_slice(&check)?;
    Ok(packet)
}

/// A copy of the packet in which one bit of the octet at this place is changed, if it has that place.
pub fn damaged(alloc: Global, packet: &[u8], place: usize) -> Result<Vec<u8>, AllocError> {
    let mut copy = packet.to_vec(alloc)?;
    if let Some(octet) = copy.get_mut(place) {
        *octet ^= 1;
    }
    Ok(copy)
}

//! A receiver that is given packets of its SPI alone.
ghost use Rattle.std.specs.Prelude.{◌≡◌, ◌≤◌, IsTrue, ◌↔◌, All, length, take};
ghost use Rattle.byteorder.specs.Endian.{big_bytes};

use esp::{EspFault, Inbound, Opened};
use replay::BlockWindow;
use std::alloc::Global;

/// The SPI of all packets here.
pub const SPI: u32 = 256;

/// The key of their check values.
pub const KEY: [u8; 32] = [0x0b; 32];

/// The receiving end, with extended numbers.
#[derive(Drop)]
pub struct Receiver {
    inbound: Inbound<BlockWindow>,
    ghost spi: { inbound.association.spi ≡ 256 },
}

impl Receiver {
    /// One that begins lanes at so many packets.
    pub fn new(alloc: Global, lanes: usize) -> Option<Receiver> {
        let window = BlockWindow::new(alloc, 2).ok()?;
        let mut inbound = Inbound::new(SPI, &KEY, true, window);
        inbound.begin_lanes_at(lanes);
        Some(Receiver { inbound })
    }

    /// The number of a packet that is opened; `None` where it is refused.
    pub fn open(&mut self, packet: &[u8]) -> Option<u64> {
        if !is_ours(packet) {
            return None;
        }
        let opened = self.inbound.open(packet).ok()?;
        Some(opened.number)
    }

    /// Opens a list of packets; `None` where there is no room for an answer.
    pub fn open_all<'a>(
        &mut self,
        packets: &[&'a [u8]],
        out: &mut Vec<Result<Opened<'a>, EspFault>>,
    ) -> Option<()> {
        if !are_ours(packets) {
            return None;
        }
        self.inbound.open_all(packets, out).ok()
    }
}

// Whether the packet begins with the SPI, if it has room for one.
fn is_ours(packet: &[u8]) -> bool
    ensures { IsTrue result ↔ (4 ≤ length packet.now → take 4 packet.now ≡ big_bytes 4 256) }
{
    packet.len() < 4 || packet[..4] == [0, 0, 1, 0]
}

// Whether each of the packets does.
fn are_ours(packets: &[&[u8]]) -> bool
    ensures { IsTrue result → All (λ p. 4 ≤ length p.now → take 4 p.now ≡ big_bytes 4 256) packets.now }
{
    packets.iter().all(|packet| is_ours(packet))
}

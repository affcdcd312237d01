//! Hashing, and packets of one SA.
ghost use Rattle.std.specs.Prelude.{◌≡◌, IsTrue, take};
ghost use Rattle.byteorder.specs.Endian.{big_bytes};

use esp::{Inbound, Outbound};
use replay::BlockWindow;
use sha2::{Digest, Sha256};
use std::alloc::Global;

const SPI: u32 = 256;

/// The keys of all SAs here.
pub const KEY: [u8; 32] = [0x0b; 32];

/// The next header of an IPv4 packet.
pub const IPV4: u8 = 4;

/// Each turn hashes what the one before made, so none can be left out.
pub fn hash(alloc: Global, count: u32, octets: u16) -> Option<u8> {
    let mut text = vec![in alloc; 0; usize::from(octets)].ok()?;
    for _ in 0..count {
        hash_on(&mut text);
    }
    text.first().copied()
}

// Puts the first octet of the text's hash in place of the text's own.
fn hash_on(text: &mut [u8]) {
    let digest = Sha256::digest(&*text);
    if let Some(first) = text.first_mut() {
        *first = digest[0];
    }
}

/// All packets go into one buffer, which the first turn makes long enough.
pub fn seal(alloc: Global, count: u32, octets: u16) -> Option<u8> {
    let payload = vec![in alloc; 0; usize::from(octets)].ok()?;
    let mut packet = Vec::new(alloc);
    seal_all(count, &payload, &mut packet)?;
    packet.last().copied()
}

fn seal_all(count: u32, payload: &[u8], packet: &mut Vec<u8>) -> Option<()> {
    let mut sender = Outbound::new(SPI, &KEY, true, 0);
    for _ in 0..count {
        packet.clear();
        sender.seal(IPV4, payload, packet).ok()?;
    }
    Some(())
}

/// Each turn opens the same packet.
pub fn open(alloc: Global, count: u32, octets: u16) -> Option<u8> {
    let packet = sealed(alloc, octets)?;
    let mut next = 0;
    for _ in 0..count {
        next = open_once(alloc, &packet)?;
    }
    Some(next)
}

// The first packet of an SA.
fn sealed(alloc: Global, octets: u16) -> Option<Vec<u8>> {
    let payload = vec![in alloc; 0; usize::from(octets)].ok()?;
    let mut packet = Vec::new(alloc);
    seal_all(1, &payload, &mut packet)?;
    Some(packet)
}

// Opens the packet by a fresh receiver, whose key and window are made for it; answers the next header.
fn open_once(alloc: Global, packet: &[u8]) -> Option<u8> {
    if !is_ours(packet) {
        return None;
    }
    let window = BlockWindow::new(alloc, 2).ok()?;
    let mut receiver = Inbound::new(SPI, &KEY, true, window);
    let opened = receiver.open(packet).ok()?;
    Some(opened.next)
}

// Whether the packet begins with the SPI.
fn is_ours(packet: &[u8]) -> bool
    ensures { IsTrue result → take 4 packet.now ≡ big_bytes 4 256 }
{
    packet.len() >= 4 && packet[..4] == [0, 0, 1, 0]
}

//! Inner packets of mixed sizes, and ESP packets that come as they were sent, late, repeated, damaged or cut.
use crate::tests::random::Random;
use base::Items;
use caller_script::ScriptCaller;
use gateway::Gateway;
use std::alloc::Global;
use std::process::Abort;
use test_samples::{OwnedInput, sent};

/// The networks of both sites, 10.0.0.0/24 and 10.1.0.0/24, and one that is neither's.
const A: u8 = 0;

const B: u8 = 1;

const OTHER: u8 = 2;

/// An IPv4 packet from one of these networks to another, with up to 1,200 octets behind its header.
fn inner(rt: &impl Abort, alloc: Global, random: &mut Random, from: u8, to: u8) -> Items<u8> {
    let more = random.small(4).saturating_mul(random.small(400)).min(1200);
    let [_, _, high, low] = more.saturating_add(20).to_be_bytes();
    let header: [u8; 20] = [
        0x45,
        0,
        high,
        low,
        random.octet(),
        random.octet(),
        0,
        0,
        64,
        1,
        0,
        0,
        10,
        from,
        0,
        random.octet(),
        10,
        to,
        0,
        1,
    ];
    let mut packet = Vec::new(alloc);
    packet.extend_from_slice(&header).expect(rt, "memory");
    for _ in 0..more {
        packet.push(7).expect(rt, "memory");
    }
    Items::from_vec(packet)
}

/// A packet on its way out from A: of the other site in most cases.
pub fn outbound(rt: &impl Abort, alloc: Global, random: &mut Random) -> OwnedInput {
    let to = if random.below(16) == 0 { OTHER } else { B };
    OwnedInput::Outward {
        packet: inner(rt, alloc, random, A, to),
    }
}

/// The ESP packet that B makes of a packet; no octets where it makes none.
pub fn sealed(
    rt: &impl Abort,
    alloc: Global,
    random: &mut Random,
    b: &mut Gateway<ScriptCaller>,
) -> Vec<u8> {
    let packet = inner(rt, alloc, random, B, A);
    sent(b, alloc, &OwnedInput::Outward { packet })
}

/// One of the packets that were sent, as it may come.
pub fn arriving(
    rt: &impl Abort,
    alloc: Global,
    random: &mut Random,
    packets: &[Vec<u8>],
) -> OwnedInput {
    let back = match random.below(10) {
        0..=6 => 1,
        _ => random.below(80),
    };
    let place = (packets.len() as u64).saturating_sub(back);
    let mut octets = match packets.get(place as usize) {
        Some(packet) => packet.clone().expect(rt, "memory"),
        None => Vec::new(alloc),
    };
    match random.below(10) {
        0 => damage(&mut octets, random),
        1 => {
            let length = random.below(octets.len() as u64);
            octets.truncate(length as usize);
        }
        _ => {}
    }
    OwnedInput::Esp {
        octets: Items::from_vec(octets),
    }
}

/// One octet is changed.
fn damage(octets: &mut [u8], random: &mut Random) {
    let place = random.below(octets.len() as u64);
    if let Some(octet) = octets.get_mut(place as usize) {
        *octet ^= random.octet() | 1;
    }
}

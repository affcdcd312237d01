//! What comes to B: ESP packets that A sent, lost, repeated, reordered and damaged, and others that are
//! made up.
use crate::tests::random::Random;
use caller_script::ScriptCaller;
use gateway::Gateway;
use std::alloc::Global;
use std::process::Abort;
use test_samples::{packet_out, sent};

/// An ESP packet that comes, and the number with which A sent it as it is.
#[derive(Drop)]
pub struct Arrival {
    pub octets: Vec<u8>,
    pub sent: Option<u64>,
}

/// A, and all packets that it sent; the first has the number 1.
#[derive(Drop)]
pub struct Sender {
    a: Gateway<ScriptCaller>,
    packets: Vec<Vec<u8>>,
}

impl Sender {
    pub fn new(alloc: Global, a: Gateway<ScriptCaller>) -> Sender {
        Sender {
            a,
            packets: Vec::new(alloc),
        }
    }

    pub fn gateway(&mut self) -> &mut Gateway<ScriptCaller> {
        &mut self.a
    }

    /// Sends the next packet.
    fn send(&mut self, rt: &impl Abort, alloc: Global) {
        let number = (self.packets.len() as u64).saturating_add(1);
        let packet = packet_out(alloc, number).expect(rt, "memory");
        let octets = sent(&mut self.a, alloc, &packet);
        self.packets.push(octets).expect(rt, "memory");
    }

    /// Some packets that are lost, or come later.
    fn send_some(&mut self, rt: &impl Abort, alloc: Global, random: &mut Random) {
        for _ in 0..random.below(3) {
            self.send(rt, alloc);
        }
    }

    /// The packet that was sent so many before the last one; no octets where there is none.
    fn before_last(&self, rt: &impl Abort, alloc: Global, back: u64) -> Arrival {
        let number = (self.packets.len() as u64).saturating_sub(back);
        match self.packets.get(number.saturating_sub(1) as usize) {
            Some(packet) => Arrival {
                octets: packet.clone().expect(rt, "memory"),
                sent: Some(number.max(1)),
            },
            None => Arrival {
                octets: Vec::new(alloc),
                sent: None,
            },
        }
    }

    /// What comes next.
    pub fn next(&mut self, rt: &impl Abort, alloc: Global, random: &mut Random) -> Arrival {
        let sent = self.packets.len() as u64;
        match random.below(100) {
            0..=49 => {
                self.send_some(rt, alloc, random);
                self.send(rt, alloc);
                self.before_last(rt, alloc, 0)
            }
            // One that is late, or comes again.
            50..=69 => self.before_last(rt, alloc, random.below(100)),
            70..=77 => self.before_last(rt, alloc, random.below(sent)),
            78..=87 => damaged(self.before_last(rt, alloc, random.below(100)), random),
            88..=92 => cut(self.before_last(rt, alloc, random.below(100)), random),
            _ => made_up(rt, alloc, random),
        }
    }
}

/// One octet is changed.
fn damaged(mut arrival: Arrival, random: &mut Random) -> Arrival {
    let place = random.below(arrival.octets.len() as u64);
    if let Some(octet) = arrival.octets.get_mut(place as usize) {
        *octet ^= random.octet() | 1;
    }
    arrival.sent = None;
    arrival
}

/// The end is missing.
fn cut(mut arrival: Arrival, random: &mut Random) -> Arrival {
    let length = random.below(arrival.octets.len() as u64);
    arrival.octets.truncate(length as usize);
    arrival.sent = None;
    arrival
}

/// Octets of nobody, under A's SPI or another.
fn made_up(rt: &impl Abort, alloc: Global, random: &mut Random) -> Arrival {
    let mut octets = Vec::new(alloc);
    let spi: [u8; 7] = [0, 0, 0x20, random.octet() / 128, 0, 0, random.octet()];
    octets.extend_from_slice(&spi).expect(rt, "memory");
    for _ in 0..random.below(60) {
        octets.push(random.octet()).expect(rt, "memory");
    }
    Arrival { octets, sent: None }
}

//! The two ends of the tests, and payloads to choose from.
ghost use Rattle.sa_init.specs.Fitting.{IsSpelled};

use crate::tests::asserts::granted;
use sa_init::Sender;
use std::alloc::Global;
use std::process::Abort;
use suite::Fresh;
use wire::{Items, Message, Payload, Proposal, Transform, decode_message};

pub const SECRET: [u8; 32] = [7; 32];

pub const NONCE: [u8; 32] = [9; 32];

pub const SENDER: Sender = Sender {
    address: [192, 0, 2, 1],
    spi_i: 1,
};

pub const FRESH: Fresh = Fresh {
    spi: 2,
    nonce: [0x0a; 32],
    secret: [0x30; 32],
    seal: [0; 16],
};

/// The group of the caller of scripts.
pub const GROUP: u16 = 65002;

pub fn decoded(rt: &impl Abort, alloc: Global, octets: &[u8]) -> Message
    ensures { IsSpelled result }
{
    decode_message(alloc, octets).expect(rt, "a message")
}

fn transform(alloc: Global, kind: u8, id: u16) -> Transform {
    Transform {
        kind,
        id,
        attributes: Items::new(alloc),
    }
}

/// A proposal with this pseudorandom function; 5 is the one that is wanted.
pub fn proposal(rt: &impl Abort, alloc: Global, number: u8, prf: u16) -> Proposal {
    let mut transforms = Items::new(alloc);
    granted(rt, transforms.push(transform(alloc, 1, 65001)));
    granted(rt, transforms.push(transform(alloc, 2, prf)));
    granted(rt, transforms.push(transform(alloc, 3, 12)));
    granted(rt, transforms.push(transform(alloc, 4, GROUP)));
    Proposal {
        number,
        protocol: 1,
        spi: Items::new(alloc),
        transforms,
    }
}

pub fn sa(rt: &impl Abort, alloc: Global) -> Payload {
    let mut proposals = Items::new(alloc);
    granted(rt, proposals.push(proposal(rt, alloc, 1, 5)));
    Payload::Sa(proposals)
}

pub fn ke(rt: &impl Abort, alloc: Global, group: u16) -> Payload {
    Payload::Ke {
        group,
        data: granted(rt, Items::from_slice(alloc, &SECRET)),
    }
}

pub fn nonce(rt: &impl Abort, alloc: Global) -> Payload {
    Payload::Nonce(granted(rt, Items::from_slice(alloc, &NONCE)))
}

/// SA, KE of this group and Nonce, behind what stands before them.
pub fn push_parts(rt: &impl Abort, alloc: Global, payloads: &mut Items<Payload>, group: u16) {
    granted(rt, payloads.push(sa(rt, alloc)));
    granted(rt, payloads.push(ke(rt, alloc, group)));
    granted(rt, payloads.push(nonce(rt, alloc)));
}

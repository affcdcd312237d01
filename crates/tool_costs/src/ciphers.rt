//! The costly calls of the caller for real peers.

use base::Items;
use caller_peer::PeerCaller;
use std::alloc::Global;
use suite::{Agreement, Keys, Sealer};

// The octets that stand before the body: the header of an IKE message, and that of its payload.
const HEAD: [u8; 32] = [0; 32];

// The keys of one direction.
const KEYS: Keys = Keys {
    encryption: [0x0b; 32],
    integrity: [0x0c; 32],
};

/// Each turn makes the same value.
pub fn public(alloc: Global, count: u32) -> Option<u8> {
    let caller = caller(alloc);
    let mut octet = 0;
    for _ in 0..count {
        octet = public_once(alloc, &caller)?;
    }
    Some(octet)
}

// The last octet of a public value.
fn public_once(alloc: Global, caller: &PeerCaller) -> Option<u8> {
    let value = caller.public(alloc, &[0x55; 32]).ok()?;
    value.as_slice().last().copied()
}

/// All bodies go into one buffer, which the first turn makes long enough.
pub fn seal(alloc: Global, count: u32, octets: u16) -> Option<u8> {
    let plain = vec![in alloc; 0; usize::from(octets)].ok()?;
    let caller = caller(alloc);
    let mut body = Vec::new(alloc);
    for _ in 0..count {
        body.clear();
        caller.seal(&KEYS, &HEAD, &plain, &[0; 16], &mut body).ok()?;
    }
    body.last().copied()
}

// A caller without secrets and without peers.
fn caller(alloc: Global) -> PeerCaller {
    PeerCaller {
        own: Items::new(alloc),
        peers: Items::new(alloc),
    }
}

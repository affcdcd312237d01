//! Datagrams that are no message of IKE (RFC 7296 section 3), and that come while all memory is refused.
use crate::link::Trouble;
use caller_script::ScriptCaller;
use gateway::{Gateway, Input, Output};
use std::alloc::Global;
use test_samples::fresh;
use wire::numbers::{IKE_SA_INIT, KE_TYPE, NO_PAYLOAD, NONCE_TYPE, SA_TYPE, TS_I_TYPE};

/// How many there are.
pub const COUNT: usize = 9;

/// A datagram, and the number of its refusal.
#[derive(Drop)]
pub struct Faulty {
    code: u8,
    octets: Vec<u8>,
}

// The octet of a header that tells version 2.0.
const VERSION: u8 = 0x20;

// How many octets a header and the nonce behind it have.
const BEGINNING: u32 = 48;

// Refusals, each with a payload of this type and so many octets that gets it: its length doesn't cover its
// header, there is no proposal, there is no selector, a nonce has one octet, and a key exchange has no data.
const PAYLOADS: [(u8, u8, u32, &[u8]); 5] = [
    (4, NONCE_TYPE, 4, &[0, 0, 0, 3]),
    (5, SA_TYPE, 4, &[0, 0, 0, 4]),
    (6, TS_I_TYPE, 8, &[0, 0, 0, 8, 0, 0, 0, 0]),
    (7, NONCE_TYPE, 5, &[0, 0, 0, 5, 1]),
    (8, KE_TYPE, 8, &[0, 0, 0, 8, 0, 14, 0, 0]),
];

// A request of IKE_SA_INIT up to the end of a nonce of 16 octets, behind which stands a payload of the type
// `next`. Its header tells this length.
fn beginning(alloc: Global, version: u8, length: u32, next: u8) -> Result<Vec<u8>, Trouble> {
    let mut octets = Vec::new(alloc);
    octets.extend_from_slice(&5u64.to_be_bytes())?;
    octets.extend_from_slice(&0u64.to_be_bytes())?;
    octets.extend_from_slice(&[NONCE_TYPE, version, IKE_SA_INIT, 0x08])?;
    octets.extend_from_slice(&0u32.to_be_bytes())?;
    octets.extend_from_slice(&length.to_be_bytes())?;
    octets.extend_from_slice(&[next, 0, 0, 20])?;
    octets.extend_from_slice(&[1; 16])?;
    Ok(octets)
}

/// One for each of the refusals E1 to E9. In all but the first a whole nonce stands before what is at fault.
pub fn datagrams(alloc: Global) -> Result<Vec<Faulty>, Trouble> {
    let mut datagrams = Vec::with_capacity(alloc, COUNT)?;
    // An octet fewer than a header has.
    let mut octets = beginning(alloc, VERSION, BEGINNING, NO_PAYLOAD)?;
    octets.truncate(27);
    datagrams.push(Faulty { code: 1, octets })?;
    // The header tells an octet more than there is.
    let octets = beginning(alloc, VERSION, BEGINNING + 1, NO_PAYLOAD)?;
    datagrams.push(Faulty { code: 2, octets })?;
    // Version 3.0.
    let octets = beginning(alloc, 0x30, BEGINNING, NO_PAYLOAD)?;
    datagrams.push(Faulty { code: 3, octets })?;
    for (code, kind, count, payload) in PAYLOADS {
        let mut octets = beginning(alloc, VERSION, BEGINNING + count, kind)?;
        octets.extend_from_slice(payload)?;
        datagrams.push(Faulty { code, octets })?;
    }
    // An octet more than a message may have.
    let mut octets = beginning(alloc, VERSION, 3001, NO_PAYLOAD)?;
    octets.resize(3001, 0)?;
    datagrams.push(Faulty { code: 9, octets })?;
    Ok(datagrams)
}

/// How many of them are dropped by their own refusals.
pub fn count_told(
    alloc: Global,
    gateway: &mut Gateway<ScriptCaller>,
    datagrams: &[Faulty],
) -> usize {
    let fresh = fresh(9);
    let mut told = 0usize;
    for Faulty { code, octets } in datagrams {
        let input = Input::Ike {
            from: [192, 0, 2, 9],
            octets: octets.as_slice(),
            fresh: &fresh,
        };
        if let Output::Dropped { reason } = gateway.step(alloc, &input) {
            if reason.code() == *code {
                told = told.saturating_add(1);
            }
        }
    }
    told
}

//! Messages under A's SPI 1 and B's 2 as the caller of scripts seals them under A's key, and what B
//! says of them.
use super::Side;
use crate::tests::asserts::add;
use base::Items;
use ike::IkeOutput;
use mac::icv;
use std::alloc::Global;
use std::panic::Expect;
use std::process::Abort;

/// The exchange CREATE_CHILD_SA.
pub const CREATE_CHILD: u8 = 36;

/// The exchange INFORMATIONAL.
pub const INFORMATIONAL: u8 = 37;

/// The flag of what the initiator of the IKE SA sends.
const INITIATOR: u8 = 0x08;

/// The flag of a response.
const RESPONSE: u8 = 0x20;

/// The type of a notice.
pub const NOTIFY: u8 = 41;

/// The payload of the notice INVALID_SYNTAX (RFC 7296, section 3.10.1).
pub const INVALID_SYNTAX: [u8; 8] = [0, 0, 0, 8, 0, 0, 0, 7];

/// The length of these payloads and so many octets more.
fn length(rt: &impl Abort, payloads: &[u8], more: u16) -> u16 {
    let length = u16::try_from(payloads.len()).expect(rt, "a length of 16 bits");
    length.checked_add(more).expect(rt, "a length of 16 bits")
}

/// A message whose payloads are these octets, the first of this type.
fn message(rt: &impl Abort, head: Vec<u8>, first: u8, payloads: &[u8], key: &[u8; 32]) -> Vec<u8> {
    let mut octets = head;
    let whole = u32::from(length(rt, payloads, 49));
    let sealed = length(rt, payloads, 21);
    add(rt, &mut octets, &whole.to_be_bytes());
    add(rt, &mut octets, &[first, 0]);
    add(rt, &mut octets, &sealed.to_be_bytes());
    add(rt, &mut octets, payloads);
    add(rt, &mut octets, &[0]);
    let check = icv(key, &[&octets]);
    add(rt, &mut octets, &check);
    octets
}

fn head(rt: &impl Abort, alloc: Global, exchange: u8, flags: u8, number: u32) -> Vec<u8> {
    let mut octets = Vec::new(alloc);
    add(
        rt,
        &mut octets,
        &[0, 0, 0, 0, 0, 0, 0, 1, 0, 0, 0, 0, 0, 0, 0, 2],
    );
    add(rt, &mut octets, &[46, 0x20, exchange, flags]);
    add(rt, &mut octets, &number.to_be_bytes());
    octets
}

/// A message of A: its exchange and number, and the type of its first payload.
#[derive(Clone, Copy, Debug)]
pub struct Sent {
    pub exchange: u8,
    pub number: u32,
    pub first: u8,
}

/// How many octets of B answer A's request with these payloads, and whether the IKE SA is closed by it.
pub fn asked(
    rt: &impl Abort,
    alloc: Global,
    b: &mut Side,
    sent: Sent,
    payloads: &[u8],
) -> Option<(usize, bool)> {
    let (octets, closed) = reply_to(rt, alloc, b, sent, payloads)?;
    Some((octets.len(), closed))
}

/// The octets of B that answer A's request with these payloads, and whether the IKE SA is closed by it.
pub fn reply_to(
    rt: &impl Abort,
    alloc: Global,
    b: &mut Side,
    sent: Sent,
    payloads: &[u8],
) -> Option<(Items<u8>, bool)> {
    let head = head(rt, alloc, sent.exchange, INITIATOR, sent.number);
    let octets = message(rt, head, sent.first, payloads, &b.key(rt));
    match b.take(rt, alloc, &octets, 40) {
        IkeOutput::Reply { octets, closed } => Some((octets, closed.is_some())),
        _ => None,
    }
}

/// The child that B makes of A's response with these payloads, where it counts it, and whether the IKE SA is
/// closed by it.
pub fn counted(
    rt: &impl Abort,
    alloc: Global,
    b: &mut Side,
    sent: Sent,
    payloads: &[u8],
) -> Option<(Option<u32>, bool)> {
    let head = head(rt, alloc, sent.exchange, INITIATOR | RESPONSE, sent.number);
    let octets = message(rt, head, sent.first, payloads, &b.key(rt));
    match b.take(rt, alloc, &octets, 42) {
        IkeOutput::Counted { child, closed, .. } => Some((child, closed.is_some())),
        _ => None,
    }
}

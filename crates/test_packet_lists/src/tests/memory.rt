//! A list that is sealed while memory is refused in its midst, at whichever allocation.
use super::asserts::{holds, same};
use super::fixture::{IPV4, Numbers, sender};
use esp::{EspFault, ListStop, Outbound};
use std::alloc::Global;
use std::process::Abort;

const PAYLOAD: &[u8] = &[7; 40];

/// How many were sealed of so many, if they were all or memory was wanted for the next one.
fn sealed(outcome: Result<(), ListStop<EspFault>>, count: usize) -> Option<usize> {
    match outcome {
        Ok(()) => Some(count),
        Err(stop) if stop.fault == EspFault::Memory => Some(stop.done),
        Err(_) => None,
    }
}

/// Seals so many payloads one by one; tells whether all were.
fn seal_each(sender: &mut Outbound, payloads: &[&[u8]], count: usize, out: &mut Vec<u8>) -> bool {
    payloads
        .iter()
        .take(count)
        .all(|payload| sender.seal(IPV4, payload, out).is_ok())
}

/// Seals a list, and finds what as many calls write.
fn seal_list(
    rt: &impl Abort,
    all: &mut Outbound,
    each: &mut Outbound,
    payloads: &[&[u8]],
    out: &mut Vec<u8>,
    wanted: &mut Vec<u8>,
) {
    let outcome = all.seal_all(IPV4, payloads, out);
    let done = sealed(outcome, payloads.len()).expect(rt, "refused for memory, if at all");
    holds(rt, seal_each(each, payloads, done, wanted));
    same(rt, out.as_slice(), wanted.as_slice());
}

/// Seals one packet more, and finds what the other sender writes.
fn seal_next(
    rt: &impl Abort,
    all: &mut Outbound,
    each: &mut Outbound,
    out: &mut Vec<u8>,
    wanted: &mut Vec<u8>,
) {
    wanted.clear();
    out.clear();
    if all.seal(IPV4, b"", out).is_ok() {
        holds(rt, each.seal(IPV4, b"", wanted).is_ok());
        same(rt, out.as_slice(), wanted.as_slice());
    }
}

/// Seals payloads by one call and by as many, with numbers of 64 bits.
fn seal_both(rt: &impl Abort, alloc: Global, payloads: &[&[u8]]) {
    // What the list is compared with, and one packet more, has its memory before: no refusal there is
    // the subject.
    let Ok(mut wanted) = Vec::with_capacity(alloc, 9 * (40 + 29)) else {
        return;
    };
    let mut out = Vec::new(alloc);
    let mut all = sender(Numbers::Extended, 6);
    let mut each = sender(Numbers::Extended, 6);
    seal_list(rt, &mut all, &mut each, payloads, &mut out, &mut wanted);
    // The end is as after as many calls: its next packet is theirs.
    seal_next(rt, &mut all, &mut each, &mut out, &mut wanted);
}

// Five payloads are sealed one by one, and eight side by side.
#[test]
fn sealing_without_memory(rt: HostRuntime) {
    seal_both(&rt, rt.alloc(), &[PAYLOAD; 5]);
    seal_both(&rt, rt.alloc(), &[PAYLOAD; 8]);
}

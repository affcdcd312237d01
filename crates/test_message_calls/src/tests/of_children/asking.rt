//! What is asked.
use super::fixture::{OWN, Suite, asked, far, message, near, proposal, request};
use crate::tests::asserts::same;
use std::alloc::Global;
use std::process::Abort;

/// Finds that an initiator proposes this, where extended numbers are allowed or not.
fn asks_for(rt: &impl Abort, alloc: Global, suite: Suite, extended: bool) {
    let proposal = proposal(rt, alloc, 1, OWN, suite);
    let wanted = message(rt, alloc, proposal, &[near()], &[far()]);
    let payloads = request(rt, alloc, &asked(OWN, extended));
    same(rt, payloads.as_slice(), wanted.as_slice());
}

// Extended numbers stand first where they are allowed.
#[test]
fn asks_for_its_numbers(rt: HostRuntime) {
    asks_for(&rt, rt.alloc(), Suite::Either, true);
    asks_for(&rt, rt.alloc(), Suite::Plain, false);
}

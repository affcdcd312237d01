//! What a refused growth leaves: these pass at either answer.
use super::narrowing::every;
use super::policies::{HERE, PROTECT, THERE};
use crate::tests::asserts::{holds, same};
use base::{Items, Range};
use policy::{NarrowFault, Policy, narrow};
use std::alloc::Global;
use std::test::Fail;

/// Whether an offer of everything is narrowed to the two networks, or refused for want of memory alone.
fn is_narrowed_or_wants_memory(alloc: Global, policy: &Policy) -> bool {
    let all = every(Range::V4(0, 0xffff_ffff));
    match narrow(alloc, &[all, all], &[all], policy) {
        Ok(narrowed) => {
            narrowed.initiator.as_slice() == [every(THERE); 2].as_slice()
                && narrowed.responder.as_slice() == [every(HERE)].as_slice()
        }
        Err(fault) => fault == NarrowFault::Memory,
    }
}

#[test]
fn want_of_memory_is_the_only_refusal_of_what_is_acceptable(rt: HostRuntime) -> Result<(), Fail> {
    let policy = Policy::new(Items::from_slice(rt.alloc(), &[PROTECT])?)?;
    for _ in 0..4 {
        holds(&rt, is_narrowed_or_wants_memory(rt.alloc(), &policy));
        // Where nothing is acceptable, want of memory is never the answer.
        let refused = narrow(
            rt.alloc(),
            &[every(Range::V4(0, 0xffff_ffff))],
            &[],
            &policy,
        );
        same(&rt, refused.err(), Some(NarrowFault::Unacceptable));
    }
    Ok(())
}

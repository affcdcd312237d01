//! Passes whether an allocation fails or not: it is to be run with each failing in turn.
use super::fixture::{Ends, Networks, ipv4};
use crate::tests::asserts::same;
use traffic::{Departure, send};

// A refusal takes no number: the packet that is sealed next has number 1.
#[test]
fn sending_without_memory(rt: HostRuntime) {
    let alloc = rt.alloc();
    let Some(mut ends) = Ends::connected(alloc, Networks::ipv4(), 0) else {
        return;
    };
    let mut last: u64 = 0;
    for _ in 0..4 {
        match send(alloc, &mut ends.near, &ends.policy, &ipv4()) {
            Ok(Departure::Sealed { number, .. }) => {
                same(&rt, Some(number), last.checked_add(1));
                last = number;
            }
            Ok(_) => panic!(rt; "not sealed"),
            Err(_) => {}
        }
    }
}

//! Lists of inputs of all kinds, of each length from 1 to 70: `run` makes of a list what `step` makes of its
//! inputs.
mod packets;
mod twins;

use std::process::Abort;
use twins::{Compared, compare_lists};

/// Finds that nothing came out otherwise, and that each kind came often.
fn are_alike(rt: &impl Abort, compared: &Compared) {
    assert_eq!(rt; compared.other, 0);
    assert_eq!(rt; compared.unlike_tables, 0);
    assert_eq!(rt; compared.same, 7455);
    let packets = [compared.sealed, compared.delivered, compared.dropped];
    assert!(rt; packets.iter().all(|count| *count > 500), "{packets:?}");
    let others = [compared.requests, compared.children, compared.ticks];
    assert!(rt; others.iter().all(|count| *count > 20), "{others:?}");
}

// 3 times 1 + 2 + .. + 70 inputs.
#[test]
fn lists_of_all_kinds(rt: HostRuntime) {
    are_alike(&rt, &compare_lists(&rt, rt.alloc()));
}

//! Each packet's output is, octet for octet, the one that a gateway gives which remembers nothing.
mod ends;
mod packets;
mod played;
mod wanted;

use played::{Played, play};
use std::process::Abort;
use std::test::Fail;

/// Finds that no output was another than was wanted, and that each kind came often.
fn are_wanted(rt: &impl Abort, played: &Played) {
    assert_eq!(rt; played.first_wrong, None);
    let each = [
        played.carried,
        played.uncarried,
        played.bypassed,
        played.discarded,
    ];
    assert!(rt; each.iter().all(|count| *count > 3000), "{each:?}");
    let changes = [played.made, played.marked, played.removed];
    assert!(rt; changes.iter().all(|count| *count > 50), "{changes:?}");
}

#[test]
fn a_hundred_thousand_packets(rt: HostRuntime) -> Result<(), Fail> {
    are_wanted(&rt, &play(rt.alloc(), 100_000)?);
    Ok(())
}

// To be run with each allocation failing in turn: without memory for what is remembered nothing comes
// out otherwise.
#[test]
fn packets_without_memory(rt: HostRuntime) -> Result<(), Fail> {
    assert_eq!(rt; play(rt.alloc(), 20)?.first_wrong, None);
    Ok(())
}

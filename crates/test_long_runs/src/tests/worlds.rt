//! Random worlds: two gateways, and what goes between them lost, late, repeated, reflected and damaged.
//! After each event both are held to what is promised of two ends together, by a plain program (RFC
//! 7296, sections 2.1 to 2.3 and 2.17).
mod book;
mod game;
mod promises;

use game::{Played, play};
use std::process::Abort;
use std::test::Fail;

/// Finds that nothing was other than is promised, and that enough went through: packets, requests, children,
/// also closed IKE SAs.
fn are_kept(rt: &impl Abort, played: &Played, outstanding: usize) {
    assert_eq!(rt; played.first_wrong, None);
    assert!(rt; played.ups > 1500, "{} packets went up", played.ups);
    assert!(rt;
        played.mirrored > 50,
        "{} pairs mirrored each other",
        played.mirrored
    );
    assert!(rt; played.records > 5, "{} records of keys", played.records);
    assert!(rt;
        played.most_outstanding >= outstanding,
        "{} at once",
        played.most_outstanding
    );
}

#[test]
fn windows_of_one(rt: HostRuntime) -> Result<(), Fail> {
    are_kept(&rt, &play(rt.alloc(), 1, 40_000)?, 1);
    Ok(())
}

#[test]
fn windows_of_four(rt: HostRuntime) -> Result<(), Fail> {
    are_kept(&rt, &play(rt.alloc(), 4, 30_000)?, 4);
    Ok(())
}

#[test]
fn windows_of_sixteen(rt: HostRuntime) -> Result<(), Fail> {
    are_kept(&rt, &play(rt.alloc(), 16, 30_000)?, 6);
    Ok(())
}

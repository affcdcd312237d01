//! Assertions whose proof is found once.
use std::fmt::Debug;
use std::process::Abort;

/// Finds what was wanted.
pub fn same<T: PartialEq + Debug + Drop>(rt: &impl Abort, found: T, wanted: T) {
    assert_eq!(rt; found, wanted);
}

/// Finds that something holds.
pub fn holds(rt: &impl Abort, fact: bool) {
    assert!(rt; fact);
}

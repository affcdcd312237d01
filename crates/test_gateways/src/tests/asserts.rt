//! Assertions whose proof is found once, and the octets that tests are made of.
use gw_console::read_hex;
use std::alloc::Global;
use std::fmt::Debug;
use std::panic::Expect;
use std::process::Abort;

/// Finds what was wanted.
pub fn same<T: PartialEq + Debug + Drop>(rt: &impl Abort, found: T, wanted: T) {
    assert_eq!(rt; found, wanted);
}

/// Finds that something holds.
pub fn holds(rt: &impl Abort, fact: bool) {
    assert!(rt; fact);
}

/// Adds octets.
pub fn add(rt: &impl Abort, octets: &mut Vec<u8>, more: &[u8]) {
    octets.extend_from_slice(more).expect(rt, "memory");
}

/// The octets that digits spell.
pub fn hex(rt: &impl Abort, alloc: Global, digits: &str) -> Vec<u8> {
    let mut octets = Vec::new(alloc);
    read_hex(digits.as_bytes(), &mut octets).expect(rt, "digits");
    octets
}

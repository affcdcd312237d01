//! What was found of all entries.
ghost use Rattle.std.specs.Prelude.{◌≡◌, ◌+◌};

use crate::entry::holds;
use std::alloc::{AllocError, Global};

/// How many entries there are.
pub const ENTRIES: u32 = 62;

/// What was found of all entries.
#[derive(Clone, Copy, Debug, PartialEq, Eq)]
pub struct Report {
    /// How many came to what they should.
    pub passed: u32,
    /// How many came to something else.
    pub failed: u32,
    /// How many were not looked at because of an allocation failure.
    pub unread: u32,
    /// The number of the first one that came to something else, counted from 1.
    pub first_failed: Option<u32>,
}

/// Computes each entry, and compares it with what it should come to.
///
/// An entry that memory was wanted for counts as unread: none is left out.
pub fn check_all(alloc: Global) -> Report
    ensures { (result.passed + result.failed) + result.unread ≡ ENTRIES }
{
    let mut report = Report {
        passed: 0,
        failed: 0,
        unread: 0,
        first_failed: None,
    };
    for place in 0..ENTRIES {
        match found(alloc, place) {
            Ok(true) => report.passed += 1,
            Ok(false) => {
                report.failed += 1;
                report.first_failed = report.first_failed.or(Some(place + 1));
            }
            Err(AllocError) => report.unread += 1,
        }
    }
    report
}

// Whether the entry at a place, counted from 0, comes to what it should.
fn found(alloc: Global, place: u32) -> Result<bool, AllocError> {
    holds(alloc, place)
}

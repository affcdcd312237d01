//! Scripts played over readers and writers in memory.
mod deleting;
mod failures;
mod further_children;
mod hostile;
mod probes;
mod refusals;
mod runs;
mod two;
mod two_faults;
mod two_refusals;

use crate::tests::asserts::{add, joined};
use gw_engine::play;
use std::ops::RangeInclusive;
use std::panic::Expect;
use std::process::Abort;

/// A key of 32 octets 0b.
const KEY: &str = "0b0b0b0b0b0b0b0b0b0b0b0b0b0b0b0b0b0b0b0b0b0b0b0b0b0b0b0b0b0b0b0b";

/// How a script begins under that key, without extended numbers and with them.
const PLAIN: &str =
    "one\nsa 256 0b0b0b0b0b0b0b0b0b0b0b0b0b0b0b0b0b0b0b0b0b0b0b0b0b0b0b0b0b0b0b0b 2 no\n";

const EXTENDED: &str =
    "one\nsa 256 0b0b0b0b0b0b0b0b0b0b0b0b0b0b0b0b0b0b0b0b0b0b0b0b0b0b0b0b0b0b0b0b 2 yes\n";

/// Plays a script that begins with `start`, and wants what it prints and its exit status.
fn expect<R: Abort + AllocGlobal>(rt: &R, start: &str, rest: &str, wanted: &str, status: u8) {
    let script = joined(rt, start, rest);
    let mut printed = Vec::new(rt.alloc());
    let ended = play(rt.alloc(), &mut script.as_bytes(), &mut printed);
    let printed = String::from_utf8(printed).expect(rt, "text");
    assert_eq!(rt; printed.as_str(), wanted, "after {rest:?}");
    assert_eq!(rt; ended, status, "after {rest:?}");
}

/// Lines of such a beginning and end, for each number.
fn lines<R: Abort + AllocGlobal>(
    rt: &R,
    beginning: &str,
    numbers: RangeInclusive<u32>,
    end: &str,
) -> String {
    let mut lines = String::new(rt.alloc());
    for number in numbers {
        let line = format!(in rt.alloc(); "{beginning}{number}{end}\n").expect(rt, "memory");
        add(rt, &mut lines, line.as_str());
    }
    lines
}

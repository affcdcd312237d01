//! Assertions whose proof is found once. An `assert_eq!` that stands in a test costs that test's proof
//! some seconds, and a call of one of these a tenth of one.
ghost use Rattle.std.specs.Prelude.{IsTrue};

use std::alloc::Global;
use std::fmt::{Debug, Display};
use std::process::Abort;

/// Finds what was wanted.
pub fn same<T: PartialEq + Debug + Drop>(rt: &impl Abort, found: T, wanted: T) {
    assert_eq!(rt; found, wanted);
}

/// Finds what was wanted at a place, which a failure names.
pub fn same_at<P: Debug + Drop, T: PartialEq + Debug + Drop>(
    rt: &impl Abort,
    place: P,
    found: T,
    wanted: T,
) {
    assert_eq!(rt; found, wanted, "at {place:?}");
}

/// Finds that something holds.
pub fn holds(rt: &impl Abort, fact: bool)
    ensures { IsTrue fact }
{
    assert!(rt; fact);
}

/// What was answered where memory was there for it; without memory the test ends. Where a later call
/// needs what a contract says of the answer, `expect` stays, which costs more.
pub fn granted<T, E: Debug>(rt: &impl Abort, answer: Result<T, E>) -> T {
    answer.expect(rt, "memory")
}

/// Finds that a fault has this number, and is printed so.
pub fn named<F: Display + Drop>(
    rt: &impl Abort,
    alloc: Global,
    code: u8,
    number: u8,
    fault: F,
    text: &str,
) {
    same(rt, code, number);
    let printed = granted(rt, format!(in alloc; "{fault}"));
    same(rt, printed.as_str(), text);
}

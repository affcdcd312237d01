//! Assertions whose proof is found once. An `assert_eq!` that stands in a test costs that test's proof
//! some seconds, and a call of one of these a tenth of one.
ghost use Rattle.std.specs.Prelude.{IsTrue};

use std::fmt::Debug;
use std::process::Abort;

/// Finds what was wanted.
pub fn same<T: PartialEq + Debug + Drop>(rt: &impl Abort, found: T, wanted: T) {
    assert_eq!(rt; found, wanted);
}

/// Finds what was wanted at a place, which a failure names.
pub fn same_at<P: Debug + Drop, T: PartialEq + Debug + Drop>(
    rt: &impl Abort,
    place: P,
    found: T,
    wanted: T,
) {
    assert_eq!(rt; found, wanted, "at {place:?}");
}

/// Finds that something holds.
pub fn holds(rt: &impl Abort, fact: bool)
    ensures { IsTrue fact }
{
    assert!(rt; fact);
}

/// Finds that something holds at a place, which a failure names.
pub fn holds_at<P: Debug + Drop>(rt: &impl Abort, place: P, fact: bool)
    ensures { IsTrue fact }
{
    assert!(rt; fact, "at {place:?}");
}

/// What was answered where memory was there for it; without memory the test ends. Where a later call
/// needs what a contract says of the answer, `expect` stays, which costs more.
pub fn granted<T, E: Debug>(rt: &impl Abort, answer: Result<T, E>) -> T {
    answer.expect(rt, "memory")
}

/// Finds that no row of a table differs; a failure prints the place of the first that does. Plain
/// values in the rows and a function without a contract that goes through them keep the proof of a test
/// short; assertions for each row and references in the rows make it long.
pub fn none_differs(rt: &impl Abort, place: Option<usize>) {
    assert_eq!(rt; place, None);
}

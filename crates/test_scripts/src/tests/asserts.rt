//! Assertions whose proof is found once, and texts that grow.
use std::fmt::Debug;
use std::panic::Expect;
use std::process::Abort;

/// Finds what was wanted.
pub fn same<T: PartialEq + Debug + Drop>(rt: &impl Abort, found: T, wanted: T) {
    assert_eq!(rt; found, wanted);
}

/// Finds what was wanted at a place, which a failure names.
pub fn same_at<P: Debug + Drop, T: PartialEq + Debug + Drop>(
    rt: &impl Abort,
    place: P,
    found: T,
    wanted: T,
) {
    assert_eq!(rt; found, wanted, "at {place:?}");
}

/// Adds a text.
pub fn add(rt: &impl Abort, text: &mut String, more: &str) {
    text.push_str(more).expect(rt, "memory");
}

/// Two texts as one.
pub fn joined<R: Abort + AllocGlobal>(rt: &R, first: &str, second: &str) -> String {
    let mut text = String::new(rt.alloc());
    add(rt, &mut text, first);
    add(rt, &mut text, second);
    text
}

/// A text so many times.
pub fn repeated<R: Abort + AllocGlobal>(rt: &R, text: &str, times: u32) -> String {
    let mut all = String::new(rt.alloc());
    for _ in 0..times {
        add(rt, &mut all, text);
    }
    all
}

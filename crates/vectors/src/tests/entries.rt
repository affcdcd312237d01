//! The entries that `check_all` counts.
use crate::tests::asserts::same;
use crate::{ENTRIES, Report, check_all};

#[test]
fn all_hold(rt: HostRuntime) {
    let wanted = Report {
        passed: ENTRIES,
        failed: 0,
        unread: 0,
        first_failed: None,
    };
    same(&rt, check_all(rt.alloc()), wanted);
}

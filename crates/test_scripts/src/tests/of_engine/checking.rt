//! Exact values.
use crate::tests::asserts::same;
use gw_engine::check;

#[test]
fn all_pass(rt: HostRuntime) {
    let mut printed = Vec::new(rt.alloc());
    same(&rt, check(rt.alloc(), &mut printed), 0);
    same(
        &rt,
        printed.as_slice(),
        b"passed 62 failed 0 unread 0\n".as_slice(),
    );
}

//! When something is due next, until which a host may sleep (RFC 7296, sections 2.1 and 2.4).
use super::asserts::same;
use caller_script::ScriptCaller;
use gateway::{End, Gateway, Input};
use std::alloc::Global;
use std::panic::Expect;
use std::process::Abort;
use test_samples::{gateway, order};

/// A, which asks for an IKE SA at a moment.
fn asking(rt: &impl Abort, alloc: Global, moment: u64) -> Gateway<ScriptCaller> {
    let mut gateway = gateway(alloc, End::A).expect(rt, "a gateway");
    gateway.step(alloc, &Input::Tick { moment });
    gateway.step(alloc, &order(1).lend());
    gateway
}

/// Finds what is due next after a moment.
fn next_after(
    rt: &impl Abort,
    alloc: Global,
    gateway: &mut Gateway<ScriptCaller>,
    moment: u64,
    wanted: Option<u64>,
) {
    gateway.step(alloc, &Input::Tick { moment });
    same(rt, gateway.next_moment(), wanted);
}

#[test]
fn a_new_gateway_waits_for_nothing(rt: HostRuntime) {
    let gateway = gateway(rt.alloc(), End::A).expect(&rt, "a gateway");
    same(&rt, gateway.next_moment(), None);
}

#[test]
fn a_request_is_due_again_after_a_second(rt: HostRuntime) {
    let mut gateway = asking(&rt, rt.alloc(), 500);
    same(&rt, gateway.next_moment(), Some(1500));
    let rows = [
        (1499, Some(1500)),
        (1500, Some(3500)),
        // However late it goes out, the next wait counts from then.
        (4000, Some(8000)),
        (8000, Some(16_000)),
        (16_000, Some(32_000)),
        (32_000, Some(48_000)),
        // The IKE SA has failed, and is held for two minutes more.
        (48_000, Some(168_000)),
        (168_000, None),
    ];
    for (moment, wanted) in rows {
        next_after(&rt, rt.alloc(), &mut gateway, moment, wanted);
    }
}

#[test]
fn nothing_is_due_past_64_bits(rt: HostRuntime) {
    let gateway = asking(&rt, rt.alloc(), u64::MAX - 999);
    same(&rt, gateway.next_moment(), None);
    let gateway = asking(&rt, rt.alloc(), u64::MAX - 1000);
    same(&rt, gateway.next_moment(), Some(u64::MAX));
}

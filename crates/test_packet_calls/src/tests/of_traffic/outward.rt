//! Packets that go out, and those that come in unprotected, by what the policy says of them.
use super::fixture::{Ends, Networks, ipv4, ipv6, policy};
use crate::tests::asserts::same;
use policy::Action;
use std::alloc::Global;
use std::process::Abort;
use traffic::{Admission, Departure, admit, send};

/// What became of a packet.
#[derive(Clone, Copy, Debug, PartialEq, Eq)]
enum Way {
    Sealed,
    Clear,
    Discarded,
    Dropped(u8),
}

fn way_out(departure: Departure<'_>) -> Way {
    match departure {
        Departure::Sealed { .. } => Way::Sealed,
        Departure::Clear(_) => Way::Clear,
        Departure::Discarded => Way::Discarded,
        Departure::Dropped(fault) => Way::Dropped(fault.code()),
    }
}

fn way_in(admission: Admission<'_>) -> Way {
    match admission {
        Admission::Clear(_) => Way::Clear,
        Admission::Discarded => Way::Discarded,
        Admission::Dropped(fault) => Way::Dropped(fault.code()),
    }
}

/// What becomes of a packet where the near end does this with what goes between the networks.
fn out_under(rt: &impl Abort, alloc: Global, action: Action, packet: &[u8]) -> Way {
    let mut ends = Ends::connected(alloc, Networks::ipv4(), 0).expect(rt, "memory");
    let policy = policy(alloc, Networks::ipv4(), action).expect(rt, "memory");
    way_out(send(alloc, &mut ends.near, &policy, packet).expect(rt, "memory"))
}

#[test]
fn goes_by_the_policy(rt: HostRuntime) {
    let alloc = rt.alloc();
    same(
        &rt,
        out_under(&rt, alloc, Action::Protect, &ipv4()),
        Way::Sealed,
    );
    same(
        &rt,
        out_under(&rt, alloc, Action::Bypass, &ipv4()),
        Way::Clear,
    );
    same(
        &rt,
        out_under(&rt, alloc, Action::Discard, &ipv4()),
        Way::Discarded,
    );
    // No entry has points of IPv6.
    same(
        &rt,
        out_under(&rt, alloc, Action::Bypass, &ipv6()),
        Way::Discarded,
    );
    same(
        &rt,
        out_under(&rt, alloc, Action::Bypass, &[]),
        Way::Dropped(21),
    );
}

/// What becomes of the packet of IPv4 at these ends.
fn out_at(rt: &impl Abort, alloc: Global, ends: Option<Ends>) -> Way {
    let mut ends = ends.expect(rt, "memory");
    way_out(send(alloc, &mut ends.near, &ends.policy, &ipv4()).expect(rt, "memory"))
}

// Without a pair, and with one whose numbers are exhausted.
#[test]
fn what_is_to_be_protected_does_not_go_in_the_clear(rt: HostRuntime) {
    let alloc = rt.alloc();
    let without = Ends::new(alloc, Networks::ipv4());
    same(&rt, out_at(&rt, alloc, without), Way::Dropped(28));
    let exhausted = Ends::connected(alloc, Networks::ipv4(), u64::from(u32::MAX));
    same(&rt, out_at(&rt, alloc, exhausted), Way::Dropped(12));
}

/// A packet of IPv4 to the near end from the far one, by exchanging its addresses.
fn inward() -> [u8; 20] {
    let mut packet = ipv4();
    packet[13] = 1;
    packet[17] = 0;
    packet
}

/// What becomes of such a packet that comes in where the near end does this with what goes between the
/// networks.
fn in_under(rt: &impl Abort, alloc: Global, action: Action, packet: &[u8]) -> Way {
    let policy = policy(alloc, Networks::ipv4(), action).expect(rt, "memory");
    way_in(admit(&policy, packet))
}

#[test]
fn comes_in_by_the_policy(rt: HostRuntime) {
    let alloc = rt.alloc();
    same(
        &rt,
        in_under(&rt, alloc, Action::Bypass, &inward()),
        Way::Clear,
    );
    same(
        &rt,
        in_under(&rt, alloc, Action::Protect, &inward()),
        Way::Discarded,
    );
    same(
        &rt,
        in_under(&rt, alloc, Action::Discard, &inward()),
        Way::Discarded,
    );
    same(
        &rt,
        in_under(&rt, alloc, Action::Bypass, &ipv4()),
        Way::Discarded,
    );
}

//! Policies and their decisions.
use super::packets::{ICMP, ICMP_FLOW};
use crate::tests::asserts::{granted, holds, same};
use base::{Items, Range, Selector};
use policy::{Action, Decision, Direction, Entry, Flow, Policy, PolicyFault, Ports, covers, inner};
use std::alloc::Global;
use std::process::Abort;

pub const ALL_PORTS: (u16, u16) = (0, 65535);

/// 10.0.0.0 to 10.0.0.255 and 10.1.0.0 to 10.1.0.255.
pub const HERE: Range = Range::V4(0x0a00_0000, 0x0a00_00ff);

pub const THERE: Range = Range::V4(0x0a01_0000, 0x0a01_00ff);

/// Protects everything between the two networks.
pub const PROTECT: Entry = Entry {
    protocol: 0,
    local: HERE,
    remote: THERE,
    local_ports: ALL_PORTS,
    remote_ports: ALL_PORTS,
    action: Action::Protect,
};

/// A policy of these entries, of which none is at fault.
pub fn policy(rt: &impl Abort, alloc: Global, entries: &[Entry]) -> Policy {
    Policy::new(granted(rt, Items::from_slice(alloc, entries))).expect(rt, "a policy")
}

/// What a policy of these entries decides of a flow.
pub fn decision(
    rt: &impl Abort,
    alloc: Global,
    entries: &[Entry],
    flow: &Flow,
    direction: Direction,
) -> Decision {
    policy(rt, alloc, entries).decide(flow, direction)
}

/// An entry for ICMP alone.
const DISCARD_ICMP: Entry = Entry {
    protocol: 1,
    action: Action::Discard,
    ..PROTECT
};

#[test]
fn the_first_entry_decides(rt: HostRuntime) {
    let flow = inner(&ICMP).expect(&rt, "a flow");
    let rows: [(&[Entry], Decision); 4] = [
        (&[DISCARD_ICMP, PROTECT], Decision::Discard),
        (&[PROTECT, DISCARD_ICMP], Decision::Protect),
        // no entry holds it
        (&[], Decision::Discard),
        (&[TCP], Decision::Discard),
    ];
    for (entries, wanted) in rows {
        let answer = decision(&rt, rt.alloc(), entries, &flow, Direction::Outward);
        same(&rt, answer, wanted);
    }
}

#[test]
fn keeps_the_order_of_entries(rt: HostRuntime) {
    let kept = policy(&rt, rt.alloc(), &[PROTECT, DISCARD_ICMP]);
    same(&rt, kept.entries(), [PROTECT, DISCARD_ICMP].as_slice());
}

/// An entry for TCP alone.
const TCP: Entry = Entry {
    protocol: 6,
    ..PROTECT
};

#[test]
fn exchanges_the_sides_inward(rt: HostRuntime) {
    let bypass = Entry {
        action: Action::Bypass,
        ..PROTECT
    };
    let answer = Flow {
        source: ICMP_FLOW.target,
        target: ICMP_FLOW.source,
        ..ICMP_FLOW
    };
    for (flow, direction, wanted) in [
        (ICMP_FLOW, Direction::Outward, Decision::Bypass),
        (ICMP_FLOW, Direction::Inward, Decision::Discard),
        (answer, Direction::Inward, Decision::Bypass),
        (answer, Direction::Outward, Decision::Discard),
    ] {
        let answer = decision(&rt, rt.alloc(), &[bypass], &flow, direction);
        same(&rt, answer, wanted);
    }
}

/// What the entry for web servers on the remote side decides of a flow outward between these ports, and
/// of its answer.
fn decisions_of_web(rt: &impl Abort, alloc: Global, source: u16, target: u16) -> [Decision; 2] {
    let web = Entry {
        remote_ports: (443, 443),
        ..TCP
    };
    let flow = Flow {
        protocol: 6,
        ports: Some(Ports { source, target }),
        ..ICMP_FLOW
    };
    let answer = Flow {
        protocol: 6,
        source: ICMP_FLOW.target,
        target: ICMP_FLOW.source,
        ports: Some(Ports {
            source: target,
            target: source,
        }),
    };
    let policy = policy(rt, alloc, &[web]);
    [
        policy.decide(&flow, Direction::Outward),
        policy.decide(&answer, Direction::Inward),
    ]
}

#[test]
fn compares_the_ports_of_each_side(rt: HostRuntime) {
    for (source, target, wanted) in [
        (50_000, 443, Decision::Protect),
        (50_000, 442, Decision::Discard),
        (50_000, 444, Decision::Discard),
        (443, 50_000, Decision::Discard),
    ] {
        same(
            &rt,
            decisions_of_web(&rt, rt.alloc(), source, target),
            [wanted, wanted],
        );
    }
}

/// All points of IPv4.
const ALL: Selector = Selector {
    protocol: 0,
    start_port: 0,
    end_port: 65535,
    addresses: Range::V4(0, 0xffff_ffff),
};

/// Whether two lists of selectors cover a flow of ICMP.
fn covers_icmp(from: &[Selector], to: &[Selector]) -> bool {
    covers(from, to, &ICMP_FLOW)
}

#[test]
fn a_flow_without_ports_wants_the_range_of_all_ports(rt: HostRuntime) {
    for (start_port, end_port) in [(1, 65535), (0, 65534), (0, 0), (65535, 0)] {
        let some = Selector {
            start_port,
            end_port,
            ..ALL
        };
        holds(&rt, !covers_icmp(&[some], &[ALL]));
        holds(&rt, !covers_icmp(&[ALL], &[some]));
        holds(&rt, covers_icmp(&[some, ALL], &[ALL, some]));
    }
}

#[test]
fn an_empty_list_covers_nothing(rt: HostRuntime) {
    holds(&rt, covers_icmp(&[ALL], &[ALL]));
    holds(&rt, !covers_icmp(&[], &[ALL]));
    holds(&rt, !covers_icmp(&[ALL], &[]));
}

/// How many entries a policy of so many has, or why there is none.
fn length_of_policy(rt: &impl Abort, alloc: Global, count: usize) -> Result<usize, PolicyFault> {
    let entries = Items::from_vec(granted(rt, vec![in alloc; PROTECT; count]));
    match Policy::new(entries) {
        Ok(policy) => Ok(policy.entries().len()),
        Err(fault) => Err(fault),
    }
}

#[test]
fn a_policy_has_256_entries_at_most(rt: HostRuntime) {
    let refused = Err(PolicyFault::BadEntry { index: 256 });
    for (count, wanted) in [
        (255, Ok(255)),
        (256, Ok(256)),
        (257, refused),
        (300, refused),
    ] {
        same(&rt, length_of_policy(&rt, rt.alloc(), count), wanted);
    }
}

/// The entry at fault in a list, if one is.
pub fn fault_of(rt: &impl Abort, alloc: Global, entries: &[Entry]) -> Option<PolicyFault> {
    Policy::new(granted(rt, Items::from_slice(alloc, entries))).err()
}

/// Entries of which each has one range whose start lies above its end.
const REVERSED: [Entry; 4] = [
    Entry {
        local: Range::V4(2, 1),
        ..PROTECT
    },
    Entry {
        remote: Range::V4(2, 1),
        ..PROTECT
    },
    Entry {
        local_ports: (2, 1),
        ..PROTECT
    },
    Entry {
        remote_ports: (65535, 0),
        ..PROTECT
    },
];

#[test]
fn names_the_first_entry_at_fault(rt: HostRuntime) {
    for bad in REVERSED {
        for (entries, index) in [
            ([bad, PROTECT, PROTECT], 0),
            ([PROTECT, bad, bad], 1),
            ([PROTECT, PROTECT, bad], 2),
        ] {
            let fault = fault_of(&rt, rt.alloc(), &entries);
            same(&rt, fault, Some(PolicyFault::BadEntry { index }));
        }
    }
}

#[test]
fn ranges_of_one_are_in_order(rt: HostRuntime) {
    let narrow = Entry {
        local: Range::V4(1, 1),
        remote_ports: (7, 7),
        ..PROTECT
    };
    let narrow = policy(&rt, rt.alloc(), &[narrow]);
    same(&rt, narrow.entries().len(), 1);
}

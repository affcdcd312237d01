//! Offers and what they are narrowed to.
use super::policies::{HERE, PROTECT, THERE, policy};
use crate::tests::asserts::holds;
use base::{Range, Selector};
use policy::{Action, Entry, NarrowFault, narrow};
use std::alloc::Global;
use std::process::Abort;

/// All ports of every protocol between these addresses.
pub fn every(addresses: Range) -> Selector {
    Selector {
        protocol: 0,
        start_port: 0,
        end_port: 65535,
        addresses,
    }
}

/// 10.0.0.0 alone.
const FIRST_HERE: Range = Range::V4(0x0a00_0000, 0x0a00_0000);

/// 10.9.0.0 to 10.9.0.255, which is on no side of an entry here.
const ELSEWHERE: Selector = Selector {
    protocol: 0,
    start_port: 0,
    end_port: 65535,
    addresses: Range::V4(0x0a09_0000, 0x0a09_00ff),
};

/// The selectors of the initiator and those of the responder.
type Sides<'a> = (&'a [Selector], &'a [Selector]);

/// Whether a policy of these entries narrows an offer to this answer, or refuses it where there is none.
pub fn narrows(
    rt: &impl Abort,
    alloc: Global,
    entries: &[Entry],
    (initiator, responder): Sides,
    wanted: Option<Sides>,
) -> bool {
    let policy = policy(rt, alloc, entries);
    match (narrow(alloc, initiator, responder, &policy), wanted) {
        (Ok(narrowed), Some(wanted)) => {
            narrowed.initiator.as_slice() == wanted.0 && narrowed.responder.as_slice() == wanted.1
        }
        (Err(fault), None) => fault == NarrowFault::Unacceptable,
        _ => false,
    }
}

#[test]
fn narrows_to_the_local_side(rt: HostRuntime) {
    let entry = Entry {
        local: Range::V4(0x0a00_0080, 0x0a00_01ff),
        ..PROTECT
    };
    let there = [every(THERE)];
    let common = [every(Range::V4(0x0a00_0080, 0x0a00_00ff))];
    holds(
        &rt,
        narrows(
            &rt,
            rt.alloc(),
            &[entry],
            (&there, &[every(HERE)]),
            Some((&there, &common)),
        ),
    );
}

#[test]
fn entries_that_do_not_protect_are_not_chosen(rt: HostRuntime) {
    let protect = Entry {
        local: FIRST_HERE,
        ..PROTECT
    };
    let there = [every(THERE)];
    let here = [every(HERE)];
    for action in [Action::Bypass, Action::Discard] {
        let other = Entry { action, ..PROTECT };
        let wanted: Sides = (&there, &[every(FIRST_HERE)]);
        holds(
            &rt,
            narrows(
                &rt,
                rt.alloc(),
                &[other, protect],
                (&there, &here),
                Some(wanted),
            ),
        );
        holds(
            &rt,
            narrows(&rt, rt.alloc(), &[other], (&there, &here), None),
        );
    }
}

#[test]
fn the_entry_that_holds_the_first_selectors_comes_first(rt: HostRuntime) {
    let half = Entry {
        local: Range::V4(0x0a00_0000, 0x0a00_007f),
        ..PROTECT
    };
    let whole = Entry {
        local: Range::V4(0x0a00_0000, 0x0a00_01ff),
        ..PROTECT
    };
    let there = [every(THERE)];
    let rows: [&[Selector]; 2] = [&[every(HERE)], &[every(HERE), ELSEWHERE]];
    for offered in rows {
        let wanted: Sides = (&there, &[every(HERE)]);
        holds(
            &rt,
            narrows(
                &rt,
                rt.alloc(),
                &[half, whole],
                (&there, offered),
                Some(wanted),
            ),
        );
    }
}

#[test]
fn narrows_protocol_and_ports(rt: HostRuntime) {
    let web = Entry {
        protocol: 6,
        local_ports: (443, 443),
        ..PROTECT
    };
    let tcp = Selector {
        protocol: 6,
        ..every(THERE)
    };
    let https = Selector {
        protocol: 6,
        start_port: 443,
        end_port: 443,
        ..every(HERE)
    };
    let rows: [&[Selector]; 2] = [&[every(HERE)], &[every(HERE), ELSEWHERE]];
    for offered in rows {
        let wanted: Sides = (&[tcp], &[https]);
        holds(
            &rt,
            narrows(
                &rt,
                rt.alloc(),
                &[web],
                (&[every(THERE)], offered),
                Some(wanted),
            ),
        );
    }
}

/// A selector of ICMP with some of its ports alone, which no flow of it has.
const POINTLESS: Selector = Selector {
    protocol: 1,
    start_port: 5,
    end_port: 9,
    addresses: HERE,
};

#[test]
fn leaves_out_what_has_no_points(rt: HostRuntime) {
    let there = [every(THERE)];
    let here = [every(HERE)];
    let wanted: Sides = (&there, &here);
    let rows: [(Sides, Option<Sides>); 3] = [
        (
            (
                &[every(THERE), ELSEWHERE],
                &[every(HERE), ELSEWHERE, POINTLESS],
            ),
            Some(wanted),
        ),
        ((&there, &[POINTLESS]), None),
        // As the first selector it fits no entry whole, and the others still count.
        ((&there, &[POINTLESS, every(HERE)]), Some(wanted)),
    ];
    for (offered, wanted) in rows {
        holds(&rt, narrows(&rt, rt.alloc(), &[PROTECT], offered, wanted));
    }
}

#[test]
fn an_empty_list_is_not_acceptable(rt: HostRuntime) {
    let rows: [Sides; 3] = [(&[], &[]), (&[every(THERE)], &[]), (&[], &[every(HERE)])];
    for offered in rows {
        holds(&rt, narrows(&rt, rt.alloc(), &[PROTECT], offered, None));
    }
}

#[test]
fn keeps_the_offered_order(rt: HostRuntime) {
    let there = [every(THERE)];
    let last = every(Range::V4(0x0a00_00ff, 0x0a00_0100));
    let first = every(Range::V4(0x0a00_0000, 0x0a00_0001));
    let cut = every(Range::V4(0x0a00_00ff, 0x0a00_00ff));
    let wanted: Sides = (&there, &[cut, first, cut]);
    holds(
        &rt,
        narrows(
            &rt,
            rt.alloc(),
            &[PROTECT],
            (&there, &[last, first, last]),
            Some(wanted),
        ),
    );
}

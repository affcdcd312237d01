//! `covers` and `narrow` against a plain search over points.
use super::plain::{
    ADDRESSES, PORTS, PROTOCOLS, SELECTORS, any_holds, holds, selector_of, some_point,
};
use super::policies::policy;
use crate::tests::asserts::{holds_at, same_at};
use base::{Address, Range, Selector};
use policy::{Action, Entry, Flow, NarrowFault, Point, Ports, covers, narrow};
use std::alloc::Global;
use std::process::Abort;

/// All points of the family of an address.
fn all(address: Address) -> Selector {
    Selector {
        protocol: 0,
        start_port: 0,
        end_port: 65535,
        addresses: match address {
            Address::V4(_) => Range::V4(0, u32::MAX),
            Address::V6(_) => Range::V6(0, u128::MAX),
        },
    }
}

#[test]
fn covers_what_the_points_say(rt: HostRuntime) {
    for number in 0..SELECTORS {
        for protocol in PROTOCOLS {
            for address in ADDRESSES {
                for port in PORTS {
                    let point = Point {
                        protocol,
                        address,
                        port,
                    };
                    covers_a_point(&rt, &selector_of(number), point);
                }
            }
        }
    }
}

/// Asks about a flow from the point, and about one to it, which may have ports that don't fit their protocol.
fn covers_a_point(rt: &impl Abort, selector: &Selector, point: Point) {
    let flow = Flow {
        protocol: point.protocol,
        source: point.address,
        target: point.address,
        ports: point.port.map(|port| Ports {
            source: port,
            target: port,
        }),
    };
    let held = holds(selector, &point);
    same_at(
        rt,
        (selector, point),
        covers(&[*selector], &[all(point.address)], &flow),
        held,
    );
    same_at(
        rt,
        (selector, point),
        covers(&[all(point.address)], &[*selector], &flow),
        held,
    );
}

/// An entry between two of the tiny selectors, with the first one's protocol and family, and each range
/// in order.
fn entry_of(local: &Selector, remote: &Selector, action: Action) -> Entry {
    Entry {
        protocol: local.protocol,
        local: in_order(local.addresses, local.addresses),
        remote: in_order(remote.addresses, local.addresses),
        local_ports: ports_in_order(local),
        remote_ports: ports_in_order(remote),
        action,
    }
}

/// The range with its ends in order, as one of the other's family.
fn in_order(range: Range, other: Range) -> Range {
    let (start, end) = match range {
        Range::V4(start, end) => (u128::from(start), u128::from(end)),
        Range::V6(start, end) => (start, end),
    };
    let (least, greatest) = (start.min(end), start.max(end));
    match (other, u32::try_from(least), u32::try_from(greatest)) {
        (Range::V4(_, _), Ok(least), Ok(greatest)) => Range::V4(least, greatest),
        _ => Range::V6(least, greatest),
    }
}

fn ports_in_order(selector: &Selector) -> (u16, u16) {
    let (one, other) = (selector.start_port, selector.end_port);
    (one.min(other), one.max(other))
}

/// Whether the first of the selectors has a point and each of its points lies in the side.
fn holds_first(side: &Selector, offered: &[Selector]) -> bool {
    match offered.first() {
        Some(first) => {
            some_point(&|point: &Point| holds(first, point))
                && !some_point(&|point: &Point| holds(first, point) && !holds(side, point))
        }
        None => false,
    }
}

fn meets(side: &Selector, offered: &[Selector]) -> bool {
    some_point(&|point: &Point| any_holds(offered, point) && holds(side, point))
}

/// The entry that is chosen.
fn chosen<'a>(
    entries: &'a [Entry],
    initiator: &[Selector],
    responder: &[Selector],
) -> Option<&'a Entry> {
    for entry in entries {
        if entry.action == Action::Protect
            && holds_first(&entry.remote_side(), initiator)
            && holds_first(&entry.local_side(), responder)
        {
            return Some(entry);
        }
    }
    for entry in entries {
        if entry.action == Action::Protect
            && meets(&entry.remote_side(), initiator)
            && meets(&entry.local_side(), responder)
        {
            return Some(entry);
        }
    }
    None
}

/// Whether an answered selector has exactly the common points of a side and the offered one that it
/// stands for.
fn is_common(side: &Selector, offered: &Selector, answer: &Selector) -> bool {
    !some_point(&|point: &Point| {
        holds(answer, point) != (holds(offered, point) && holds(side, point))
    })
}

/// Whether each answered selector stands for one that was offered and has a point in the side, all of
/// them in their order.
fn is_narrowed(side: &Selector, offered: &[Selector], answer: &[Selector]) -> bool {
    let mut rest = answer;
    for selector in offered {
        if !some_point(&|point: &Point| holds(selector, point) && holds(side, point)) {
            continue;
        }
        match rest {
            [part, others @ ..] if is_common(side, selector, part) => rest = others,
            _ => return false,
        }
    }
    rest.is_empty()
}

/// The selectors of a case, mixed from its number.
fn mixed(number: u32, salt: u32) -> Selector {
    selector_of(
        number
            .wrapping_mul(2_654_435_761)
            .wrapping_add(salt.wrapping_mul(40_503_047))
            / 4096,
    )
}

/// What becomes of a case.
#[derive(Clone, Copy, Debug, PartialEq, Eq)]
enum Outcome {
    Accepted,
    Refused,
    /// The answer is not the one of the plain search.
    Wrong,
}

/// Narrows an offer, and compares the answer with that of the plain search.
fn judge(
    rt: &impl Abort,
    alloc: Global,
    entries: &[Entry],
    initiator: &[Selector],
    responder: &[Selector],
) -> Outcome {
    let policy = policy(rt, alloc, entries);
    match (
        narrow(alloc, initiator, responder, &policy),
        chosen(entries, initiator, responder),
    ) {
        (Ok(narrowed), Some(entry)) => {
            if is_narrowed(
                &entry.remote_side(),
                initiator,
                narrowed.initiator.as_slice(),
            ) && is_narrowed(
                &entry.local_side(),
                responder,
                narrowed.responder.as_slice(),
            ) {
                Outcome::Accepted
            } else {
                Outcome::Wrong
            }
        }
        (Err(NarrowFault::Unacceptable), None) => Outcome::Refused,
        _ => Outcome::Wrong,
    }
}

/// The case of a number: three entries, and an offer of two selectors on each side.
fn outcome_of(rt: &impl Abort, alloc: Global, number: u32) -> Outcome {
    let entries = [
        entry_of(&mixed(number, 1), &mixed(number, 2), Action::Protect),
        entry_of(&mixed(number, 3), &mixed(number, 4), Action::Bypass),
        entry_of(&mixed(number, 5), &mixed(number, 6), Action::Protect),
    ];
    let initiator = [mixed(number, 7), mixed(number, 8)];
    let responder = [mixed(number, 9), mixed(number, 10)];
    judge(rt, alloc, &entries, &initiator, &responder)
}

#[test]
fn narrows_to_what_the_points_say(rt: HostRuntime) {
    let mut accepted = 0u32;
    for number in 0..2000 {
        let outcome = outcome_of(&rt, rt.alloc(), number);
        holds_at(&rt, number, outcome != Outcome::Wrong);
        if outcome == Outcome::Accepted {
            accepted = accepted.saturating_add(1);
        }
    }
    holds_at(&rt, accepted, accepted > 100);
}

//! Large policies and offers: with ample memory every answer is wanted.
use super::narrowing::every;
use super::policies::{HERE, PROTECT, THERE};
use crate::tests::asserts::{granted, holds, holds_at};
use base::{Items, Range, Selector};
use policy::{Entry, Policy, narrow};
use std::alloc::Global;
use std::process::Abort;

/// 256 entries, of which only the last has anything to do with the two networks.
fn full(rt: &impl Abort, alloc: Global, last: Entry) -> Policy {
    let mut entries = Items::new(alloc);
    for place in 0..255 {
        granted(
            rt,
            entries.push(Entry {
                local: Range::V4(place, place),
                ..PROTECT
            }),
        );
    }
    granted(rt, entries.push(last));
    Policy::new(entries).expect(rt, "a policy")
}

/// Where the two networks begin.
const HERE_START: u32 = 0x0a00_0000;

const THERE_START: u32 = 0x0a01_0000;

/// A selector of every protocol and all ports, of one address.
fn one(address: u32) -> Selector {
    every(Range::V4(address, address))
}

/// Selectors of one address each from this one on; each third lies elsewhere, and has no part in the answer.
fn offer(rt: &impl Abort, alloc: Global, first: u32, count: u32) -> Items<Selector> {
    let mut offered = Items::new(alloc);
    for place in 0..count {
        let address = if place % 3 == 2 {
            0x0a09_0000 + place % 256
        } else {
            first.wrapping_add(place)
        };
        granted(rt, offered.push(one(address)));
    }
    offered
}

/// Whether an answer has each selector of the offer but each third, in its order.
fn is_answer(first: u32, count: u32, answer: &[Selector]) -> bool {
    let mut rest = answer;
    for place in 0..count {
        if place % 3 == 2 {
            continue;
        }
        match rest {
            [part, others @ ..] if *part == one(first.wrapping_add(place)) => rest = others,
            _ => return false,
        }
    }
    rest.is_empty()
}

/// Whether the policy narrows offers of so many selectors to those that lie in the networks.
fn narrows_offers(rt: &impl Abort, alloc: Global, policy: &Policy, count: u32) -> bool {
    let initiator = offer(rt, alloc, THERE_START, count);
    let responder = offer(rt, alloc, HERE_START, count);
    let narrowed = narrow(alloc, initiator.as_slice(), responder.as_slice(), policy).expect(
        rt,
        "an answer",
    );
    is_answer(THERE_START, count, narrowed.initiator.as_slice())
        && is_answer(HERE_START, count, narrowed.responder.as_slice())
}

#[test]
fn narrows_long_offers_to_the_last_of_256_entries(rt: HostRuntime) {
    let policy = full(&rt, rt.alloc(), PROTECT);
    for count in 1..=256 {
        holds_at(&rt, count, narrows_offers(&rt, rt.alloc(), &policy, count));
    }
}

/// Whether the policy narrows an offer to the whole remote network and one address of the local one.
fn narrows_to_one(
    rt: &impl Abort,
    alloc: Global,
    policy: &Policy,
    initiator: Selector,
    responder: &[Selector],
    address: u32,
) -> bool {
    let narrowed = narrow(alloc, &[initiator], responder, policy).expect(rt, "an answer");
    narrowed.initiator.as_slice() == [every(THERE)].as_slice()
        && narrowed.responder.as_slice() == [one(address)].as_slice()
}

/// So many selectors that lie elsewhere, and behind them the local network.
fn here_behind(rt: &impl Abort, alloc: Global, count: usize) -> Items<Selector> {
    let elsewhere = every(Range::V4(0x0a09_0000, 0x0a09_00ff));
    let mut offered = Items::from_vec(granted(rt, vec![in alloc; elsewhere; count]));
    granted(rt, offered.push(every(HERE)));
    offered
}

#[test]
fn meets_long_offers_at_the_last_of_256_entries(rt: HostRuntime) {
    // The first selector is held whole by no entry, and a part of the last one by the last entry alone.
    let last = Entry {
        local: Range::V4(HERE_START, HERE_START),
        ..PROTECT
    };
    let policy = full(&rt, rt.alloc(), last);
    let all = every(Range::V4(0, 0xffff_ffff));
    for count in [1, 16, 255] {
        let offered = here_behind(&rt, rt.alloc(), count);
        holds(
            &rt,
            narrows_to_one(
                &rt,
                rt.alloc(),
                &policy,
                all,
                offered.as_slice(),
                HERE_START,
            ),
        );
    }
}

#[test]
fn narrows_to_each_of_200_entries(rt: HostRuntime) {
    let mut entries = Items::new(rt.alloc());
    for place in 0..200 {
        granted(
            &rt,
            entries.push(Entry {
                local: Range::V4(place, place),
                ..PROTECT
            }),
        );
    }
    let policy = Policy::new(entries).expect(&rt, "a policy");
    for place in 0..200 {
        let there = every(THERE);
        holds_at(
            &rt,
            place,
            narrows_to_one(&rt, rt.alloc(), &policy, there, &[one(place)], place),
        );
    }
}

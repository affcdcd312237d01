//! The own requests beside a plain set and a plain map.
use super::draws::Draws;
use super::fixture::{count, issue, replace, update, withdraw};
use super::plain::PlainOutgoing;
use crate::tests::asserts::{holds, same, same_at};
use requests::{Outgoing, RequestFault};
use std::alloc::Global;
use std::process::Abort;

/// Issues a request of both, and compares the answers.
fn issue_both(
    rt: &impl Abort,
    outgoing: &mut Outgoing<u32>,
    plain: &mut PlainOutgoing,
    request: u32,
) {
    match outgoing.may_issue() {
        Ok(number) => same(rt, u64::from(number), plain.next),
        Err(fault) => same(rt, Some(fault), plain.refusal()),
    }
    match issue(outgoing, request) {
        Ok(number) => {
            same(rt, u64::from(number), plain.next);
            holds(rt, plain.refusal().is_none());
            plain.issue(rt, number, request);
        }
        Err(fault) => same(rt, Some(fault), plain.refusal()),
    }
}

/// Compares the outstanding requests, by number and in their order.
fn same_outstanding(rt: &impl Abort, outgoing: &Outgoing<u32>, plain: &PlainOutgoing) {
    let mut last: Option<u32> = None;
    for (number, request) in &plain.outstanding {
        let found = outgoing.after(last).map(|next| (next.0, *next.1));
        same(rt, found, Some((*number, *request)));
        same(rt, outgoing.get(*number).copied(), Some(*request));
        last = Some(*number);
    }
    holds(rt, outgoing.after(last).is_none());
    same(rt, outgoing.len(), plain.outstanding.len());
    let mut all = outgoing.iter();
    for (number, request) in &plain.outstanding {
        let found = all.next().map(|next| (next.0, *next.1));
        same(rt, found, Some((*number, *request)));
    }
    holds(rt, all.next().is_none());
    same(
        rt,
        outgoing.any(|request| *request % 3 == 0),
        plain.outstanding.values().any(|request| *request % 3 == 0),
    );
}

/// Puts another request in the place of one of both, if it is outstanding, and compares the answers.
fn replace_both(
    rt: &impl Abort,
    outgoing: &mut Outgoing<u32>,
    plain: &mut PlainOutgoing,
    number: u32,
    request: u32,
) {
    let was = plain.outstanding.get(&number).copied();
    same_at(rt, number, replace(outgoing, number, request), was);
    if was.is_some() {
        let replaced: Result<_, _> = plain.outstanding.insert(number, request);
        replaced.expect(rt, "memory");
    }
}

/// Changes some bits of one of both in its place, if it is outstanding.
fn update_both(
    rt: &impl Abort,
    outgoing: &mut Outgoing<u32>,
    plain: &mut PlainOutgoing,
    number: u32,
    bits: u32,
) {
    let was = plain.outstanding.get(&number).copied();
    same_at(rt, number, update(outgoing, number, bits), was.is_some());
    if let Some(was) = was {
        let replaced: Result<_, _> = plain.outstanding.insert(number, was ^ bits);
        replaced.expect(rt, "memory");
    }
}

/// Does one of the four things to both, as the draws have it.
fn change_both(
    rt: &impl Abort,
    outgoing: &mut Outgoing<u32>,
    plain: &mut PlainOutgoing,
    draws: &mut Draws,
    round: u32,
) {
    let near = u32::try_from(plain.next)
        .expect(rt, "a number of 32 bits")
        .saturating_sub(18);
    let number = near.saturating_add(draws.below(20));
    match draws.below(5) {
        0 | 1 => issue_both(rt, outgoing, plain, round),
        2 => {
            let wanted = plain.count(rt, number);
            same_at(rt, number, count(outgoing, number), wanted);
        }
        3 => replace_both(rt, outgoing, plain, number, round),
        _ => update_both(rt, outgoing, plain, number, round),
    }
}

/// A long mixed list at one window.
fn agree_at(rt: &impl Abort, alloc: Global, window: u8) {
    let mut outgoing: Outgoing<u32> = Outgoing::new(alloc);
    let mut plain = PlainOutgoing::new(alloc);
    if 1 <= window && window <= 16 {
        outgoing.set_window(window);
        plain.window = u32::from(window);
    }
    let mut draws = Draws::new(u64::from(window));
    for round in 0..400 {
        change_both(rt, &mut outgoing, &mut plain, &mut draws, round);
        same_outstanding(rt, &outgoing, &plain);
    }
}

#[test]
fn agrees_at_each_window(rt: HostRuntime) {
    agree_at(&rt, rt.alloc(), 1);
    agree_at(&rt, rt.alloc(), 4);
    agree_at(&rt, rt.alloc(), 16);
}

#[test]
fn the_peers_window_is_the_one_that_counts(rt: HostRuntime) {
    let mut outgoing: Outgoing<u32> = Outgoing::after_initial(rt.alloc());
    same(&rt, issue(&mut outgoing, 10), Ok(1));
    same(&rt, issue(&mut outgoing, 20), Err(RequestFault::Busy));
    outgoing.invariants_hold();
    outgoing.set_window(16);
    for number in 2..17 {
        same(&rt, issue(&mut outgoing, 20), Ok(number));
    }
    same(&rt, issue(&mut outgoing, 30), Err(RequestFault::Busy));
    // The window begins at the least unanswered number.
    same(&rt, count(&mut outgoing, 3), Some(20));
    same(&rt, outgoing.may_issue(), Err(RequestFault::Busy));
    same(&rt, count(&mut outgoing, 1), Some(10));
    same(&rt, issue(&mut outgoing, 30), Ok(17));
}

#[test]
fn one_of_two_is_withdrawn(rt: HostRuntime) {
    let mut outgoing: Outgoing<u32> = Outgoing::new(rt.alloc());
    outgoing.set_window(2);
    same(&rt, issue(&mut outgoing, 10), Ok(0));
    same(&rt, issue(&mut outgoing, 20), Ok(1));
    same(&rt, withdraw(&mut outgoing, 0), Some(10));
    same(&rt, withdraw(&mut outgoing, 0), None);
    same(&rt, count(&mut outgoing, 0), None);
    same(&rt, count(&mut outgoing, 1), Some(20));
    // Number 0 was never answered, so the window doesn't move.
    same(&rt, outgoing.may_issue(), Err(RequestFault::Busy));
}

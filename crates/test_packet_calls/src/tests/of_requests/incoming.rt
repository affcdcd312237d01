//! The peer's requests beside a plain set and a plain map.
use super::draws::Draws;
use super::fixture::accept;
use super::plain::{PlainIncoming, Said};
use crate::tests::asserts::{holds_at, same_at};
use requests::{Incoming, Judgement};
use std::alloc::Global;
use std::process::Abort;

/// What is said of a number, with the reply as the number that its octets spell.
fn said(incoming: &Incoming, number: u32) -> Said {
    match incoming.judge(number) {
        Judgement::Fresh => Said::Fresh,
        Judgement::Repeat([a, b, c, d]) => Said::Repeat(u32::from_be_bytes([*a, *b, *c, *d])),
        Judgement::Repeat(_) => Said::Repeat(u32::MAX),
        Judgement::Forgotten => Said::Forgotten,
        Judgement::Outside => Said::Outside,
    }
}

/// Offers a number to both, and compares what they say of it before and after.
fn offer(
    rt: &impl Abort,
    alloc: Global,
    incoming: &mut Incoming,
    plain: &mut PlainIncoming,
    number: u32,
    reply: u32,
) {
    let judged = plain.judge(number);
    same_at(rt, number, said(incoming, number), judged);
    let taken = accept(incoming, alloc, number, &reply.to_be_bytes()).expect(rt, "memory");
    same_at(rt, number, taken, judged == Said::Fresh);
    if taken {
        plain.take(rt, number, reply);
    }
    same_at(rt, number, said(incoming, number), plain.judge(number));
}

/// Compares what both say of the numbers from this one on.
fn same_near(rt: &impl Abort, incoming: &Incoming, plain: &PlainIncoming, near: u32) {
    for step in 0..40 {
        let number = near.saturating_add(step);
        same_at(rt, number, said(incoming, number), plain.judge(number));
    }
}

/// Offers numbers round the gap, and at the end of a round compares all near it.
fn agree(
    rt: &impl Abort,
    alloc: Global,
    incoming: &mut Incoming,
    plain: &mut PlainIncoming,
    draws: &mut Draws,
    rounds: u32,
) {
    for round in 0..rounds {
        let near = u32::try_from(plain.gap())
            .expect(rt, "a number of 32 bits")
            .saturating_sub(18);
        let number = near.saturating_add(draws.below(40));
        offer(rt, alloc, incoming, plain, number, round);
        if round % 16 == 0 {
            same_near(rt, incoming, plain, near);
        }
    }
}

/// A long mixed list at one size.
fn agree_at(rt: &impl Abort, alloc: Global, size: u8) {
    let mut incoming = Incoming::new(alloc);
    let mut plain = PlainIncoming::new(alloc);
    if 1 <= size && size <= 16 {
        incoming.set_size(size);
        plain.size = u32::from(size);
    }
    let mut draws = Draws::new(u64::from(size));
    agree(rt, alloc, &mut incoming, &mut plain, &mut draws, 600);
}

#[test]
fn agrees_at_each_size(rt: HostRuntime) {
    agree_at(&rt, rt.alloc(), 1);
    agree_at(&rt, rt.alloc(), 4);
    agree_at(&rt, rt.alloc(), 16);
}

#[test]
fn grows_in_mid_life(rt: HostRuntime) {
    let mut incoming = Incoming::new(rt.alloc());
    let mut plain = PlainIncoming::new(rt.alloc());
    let mut draws = Draws::new(7);
    agree(&rt, rt.alloc(), &mut incoming, &mut plain, &mut draws, 200);
    incoming.invariants_hold();
    incoming.set_size(16);
    plain.size = 16;
    agree(&rt, rt.alloc(), &mut incoming, &mut plain, &mut draws, 400);
}

/// Takes these numbers one after the other, each of which is to be fresh.
fn take_all(rt: &impl Abort, alloc: Global, incoming: &mut Incoming, numbers: &[u32]) {
    for number in numbers {
        holds_at(
            rt,
            number,
            accept(incoming, alloc, *number, &number.to_be_bytes()).expect(rt, "memory"),
        );
    }
}

/// Compares what is said of some numbers.
fn all_said(rt: &impl Abort, incoming: &Incoming, rows: &[(u32, Said)]) {
    for (number, expected) in rows {
        same_at(rt, number, said(incoming, *number), *expected);
    }
}

#[test]
fn a_window_of_four_at_gap_two(rt: HostRuntime) {
    let mut incoming = Incoming::new(rt.alloc());
    incoming.set_size(4);
    take_all(&rt, rt.alloc(), &mut incoming, &[0, 1]);
    all_said(&rt, &incoming, &[(6, Said::Outside), (5, Said::Fresh)]);
    take_all(&rt, rt.alloc(), &mut incoming, &[5]);
    all_said(
        &rt,
        &incoming,
        &[
            (0, Said::Forgotten),
            (1, Said::Forgotten),
            (5, Said::Repeat(5)),
            (6, Said::Outside),
        ],
    );
    take_all(&rt, rt.alloc(), &mut incoming, &[2, 3]);
    // The gap is 4 now.
    all_said(
        &rt,
        &incoming,
        &[(5, Said::Repeat(5)), (7, Said::Fresh), (8, Said::Outside)],
    );
}

#[test]
fn a_reply_is_given_up_one_window_behind(rt: HostRuntime) {
    let mut incoming = Incoming::new(rt.alloc());
    incoming.set_size(4);
    take_all(&rt, rt.alloc(), &mut incoming, &[0, 1, 2, 3]);
    all_said(
        &rt,
        &incoming,
        &[(0, Said::Repeat(0)), (3, Said::Repeat(3))],
    );
    take_all(&rt, rt.alloc(), &mut incoming, &[4]);
    all_said(
        &rt,
        &incoming,
        &[
            (0, Said::Forgotten),
            (1, Said::Repeat(1)),
            (4, Said::Repeat(4)),
        ],
    );
    take_all(&rt, rt.alloc(), &mut incoming, &[8]);
    all_said(
        &rt,
        &incoming,
        &[(4, Said::Forgotten), (8, Said::Repeat(8))],
    );
}

#[test]
fn the_initial_request_has_no_reply(rt: HostRuntime) {
    let incoming = Incoming::after_initial(rt.alloc());
    all_said(
        &rt,
        &incoming,
        &[(0, Said::Forgotten), (1, Said::Fresh), (2, Said::Outside)],
    );
}

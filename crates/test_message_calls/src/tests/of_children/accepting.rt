//! Which answers are acceptable, and the pair by one.
use super::fixture::{
    OWN, START, Suite, asked, elsewhere, far, is_pair, lower_half, message, near, proposal, setting,
};
use crate::tests::asserts::{granted, holds, same};
use base::{Items, Selector};
use children::accept;
use sadb::Pair;
use std::alloc::Global;
use std::process::Abort;
use wire::Payload;

/// The pair by an answer, where extended numbers were offered or not.
fn pair_by(rt: &impl Abort, alloc: Global, answer: &[Payload], extended: bool) -> Option<Pair> {
    accept(alloc, answer, &asked(OWN, extended), &setting()).expect(rt, "memory")
}

/// Whether an answer with this proposal is accepted.
fn is_accepted(
    rt: &impl Abort,
    alloc: Global,
    extended: bool,
    number: u8,
    spi: u32,
    suite: Suite,
) -> bool {
    let proposal = proposal(rt, alloc, number, spi, suite);
    let answer = message(rt, alloc, proposal, &[near()], &[far()]);
    pair_by(rt, alloc, answer.as_slice(), extended).is_some()
}

/// Whether an answer with these selectors is accepted.
fn are_accepted(rt: &impl Abort, alloc: Global, ts_i: &[Selector], ts_r: &[Selector]) -> bool {
    let proposal = proposal(rt, alloc, 1, START, Suite::Plain);
    let answer = message(rt, alloc, proposal, ts_i, ts_r);
    pair_by(rt, alloc, answer.as_slice(), true).is_some()
}

/// The place of the first answer of these that is not judged as it is to be: with extended numbers
/// offered or not, a proposal's number, its SPI and its suite.
fn each_accepted(
    rt: &impl Abort,
    alloc: Global,
    rows: &[(bool, u8, u32, Suite)],
    wanted: bool,
) -> Option<usize> {
    for ((extended, number, spi, suite), place) in rows.iter().zip(0..) {
        if is_accepted(rt, alloc, *extended, *number, *spi, *suite) != wanted {
            return Some(place);
        }
    }
    None
}

#[test]
fn accepts_what_was_offered(rt: HostRuntime) {
    let offered = [
        (true, 1, START, Suite::Plain),
        (true, 1, START, Suite::Extended),
        (false, 1, START, Suite::Plain),
    ];
    same(&rt, each_accepted(&rt, rt.alloc(), &offered, true), None);
    // The number is another, or the SPI one of those that are reserved (RFC 4303, section 2.1). Then
    // transforms that were not offered.
    let others = [
        (true, 2, START, Suite::Plain),
        (true, 1, 255, Suite::Plain),
        (true, 1, START, Suite::Sha1),
        (false, 1, START, Suite::Extended),
    ];
    same(&rt, each_accepted(&rt, rt.alloc(), &others, false), None);
}

#[test]
fn makes_the_pair_of_the_answer(rt: HostRuntime) {
    let proposal = proposal(&rt, rt.alloc(), 1, START, Suite::Extended);
    let answer = message(&rt, rt.alloc(), proposal, &[lower_half()], &[far()]);
    let pair = pair_by(&rt, rt.alloc(), answer.as_slice(), true).expect(&rt, "an accepted answer");
    is_pair(&rt, &pair, (OWN, START), lower_half(), far());
}

/// Whether any answer with such selectors is accepted that differ from what was offered.
fn others_accepted(rt: &impl Abort, alloc: Global) -> [bool; 3] {
    [
        are_accepted(rt, alloc, &[near()], &[]),
        are_accepted(rt, alloc, &[near(), elsewhere()], &[far()]),
        are_accepted(rt, alloc, &[far()], &[near()]),
    ]
}

#[test]
fn declines_other_selectors(rt: HostRuntime) {
    same(&rt, others_accepted(&rt, rt.alloc()), [false; 3]);
}

/// The payloads of an answer, and an SA payload without a proposal.
fn with_another(rt: &impl Abort, alloc: Global) -> Items<Payload> {
    let proposal = proposal(rt, alloc, 1, START, Suite::Plain);
    let mut answer = message(rt, alloc, proposal, &[near()], &[far()]);
    granted(rt, answer.push(Payload::Sa(Items::new(alloc))));
    answer
}

// An answer has one SA payload (RFC 7296, section 1.3.1).
#[test]
fn declines_two_sa_payloads(rt: HostRuntime) {
    let answer = with_another(&rt, rt.alloc());
    holds(
        &rt,
        pair_by(&rt, rt.alloc(), answer.as_slice(), true).is_none(),
    );
}

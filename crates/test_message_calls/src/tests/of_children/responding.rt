//! What is answered, and the pair that is made and added.
use super::fixture::{
    START, Suite, elsewhere, far, has_pair, lower_half, message, near, one, proposal, reply, table,
};
use crate::tests::asserts::{granted, same};
use base::{Items, Selector};
use exchange::{ChildOffer, Notice};
use sadb::Table;
use std::alloc::Global;
use std::process::Abort;
use wire::{Payload, Proposal};

/// What is answered to an offer for the initiator's side and this other one.
fn answered(
    rt: &impl Abort,
    alloc: Global,
    proposals: &[Proposal],
    ts_r: Selector,
    extended: bool,
    table: &mut Table,
) -> Items<Payload> {
    let offer = ChildOffer {
        proposals,
        ts_i: &[near()],
        ts_r: &[ts_r],
    };
    reply(rt, alloc, &offer, extended, table)
}

/// What is answered to one proposal, by an end that doesn't allow extended numbers.
fn plain(
    rt: &impl Abort,
    alloc: Global,
    suite: Suite,
    ts_r: Selector,
    table: &mut Table,
) -> Items<Payload> {
    let proposals = one(rt, alloc, proposal(rt, alloc, 1, 0x300, suite));
    answered(rt, alloc, proposals.as_slice(), ts_r, false, table)
}

/// Adds as many pairs as a table may hold.
fn fill(rt: &impl Abort, alloc: Global, table: &mut Table) {
    for _ in 0..1024 {
        plain(rt, alloc, Suite::Plain, far(), table);
    }
}

/// Finds that all that is answered is a notice.
fn refuse(
    rt: &impl Abort,
    alloc: Global,
    suite: Suite,
    ts_r: Selector,
    table: &mut Table,
    notice: Notice,
) {
    let payloads = plain(rt, alloc, suite, ts_r, table);
    let wanted = granted(rt, notice.payload(alloc));
    same(rt, payloads.as_slice(), [wanted].as_slice());
}

// Each is told before those that follow, which apply as well.
#[test]
fn refuses_in_order(rt: HostRuntime) {
    let alloc = rt.alloc();
    let mut table = table(alloc);
    fill(&rt, alloc, &mut table);
    let first = Notice::NoProposalChosen;
    refuse(&rt, alloc, Suite::Extended, elsewhere(), &mut table, first);
    let second = Notice::TsUnacceptable;
    refuse(&rt, alloc, Suite::Plain, elsewhere(), &mut table, second);
    refuse(
        &rt,
        alloc,
        Suite::Plain,
        far(),
        &mut table,
        Notice::NoAdditionalSas,
    );
}

/// What is answered to a proposal that isn't acceptable and another.
fn chosen(
    rt: &impl Abort,
    alloc: Global,
    suite: Suite,
    extended: bool,
    table: &mut Table,
) -> Items<Payload> {
    let mut proposals = one(rt, alloc, proposal(rt, alloc, 1, 0x300, Suite::Sha1));
    granted(rt, proposals.push(proposal(rt, alloc, 2, 0x301, suite)));
    answered(rt, alloc, proposals.as_slice(), far(), extended, table)
}

/// An answer to the second proposal, with the selectors narrowed.
fn narrowed(rt: &impl Abort, alloc: Global, spi: u32, suite: Suite) -> Items<Payload> {
    message(
        rt,
        alloc,
        proposal(rt, alloc, 2, spi, suite),
        &[lower_half()],
        &[far()],
    )
}

#[test]
fn answers_the_last_of_two(rt: HostRuntime) {
    let mut table = table(rt.alloc());
    let payloads = chosen(&rt, rt.alloc(), Suite::Either, true, &mut table);
    let wanted = narrowed(&rt, rt.alloc(), START, Suite::Extended);
    same(&rt, payloads.as_slice(), wanted.as_slice());
    has_pair(&rt, &table, (START, 0x301), far(), lower_half());
}

// The next SPI is the second.
#[test]
fn answers_with_plain_numbers(rt: HostRuntime) {
    let mut table = table(rt.alloc());
    plain(&rt, rt.alloc(), Suite::Plain, far(), &mut table);
    let payloads = chosen(&rt, rt.alloc(), Suite::Either, false, &mut table);
    let wanted = narrowed(&rt, rt.alloc(), START + 1, Suite::Plain);
    same(&rt, payloads.as_slice(), wanted.as_slice());
    has_pair(&rt, &table, (START + 1, 0x301), far(), lower_half());
}

//! What comes with time: requests go out again, and IKE SAs end (RFC 7296, sections 2.1 and 2.4).
ghost use Rattle.std.specs.Prelude.{All};
ghost use Rattle.std.specs.Bool.{OnTrue};
ghost use Rattle.association.specs.Closing.{HoldsNoSpi};

use super::asserts::same;
use association::{Association, HalfOpen, Phase, Purpose, Request};
use base::Items;
use exchange::Role;
use moments::{Ticked, next_due, tick};
use requests::{Incoming, Outgoing, Timer};
use sadb::Table;
use std::alloc::Global;
use std::panic::Expect;
use std::process::Abort;
use suite::{KeyRecord, Nonce};

fn keys() -> KeyRecord {
    KeyRecord {
        spi_i: 1,
        spi_r: 2,
        nonce_i: Nonce::new(&[3; 16]),
        nonce_r: Nonce::new(&[4; 16]),
        sk_d: [5; 32],
        sk_ai: [6; 32],
        sk_ar: [7; 32],
        sk_ei: [8; 32],
        sk_er: [9; 32],
        sk_pi: [10; 32],
        sk_pr: [11; 32],
    }
}

fn half_open(alloc: Global, made: u64) -> Phase {
    Phase::HalfOpen(HalfOpen {
        keys: keys(),
        request: Items::new(alloc),
        reply: Items::new(alloc),
        made,
    })
}

fn timer(sent: u64, repeats: u8) -> Timer {
    Timer { sent, repeats }
}

/// An IKE SA in a phase, which waits for no answer.
fn association(alloc: Global, serial: u32, phase: Phase) -> Association {
    let mut outgoing = Outgoing::new(alloc);
    outgoing.set_window(16);
    Association {
        serial,
        role: Role::Initiator,
        spi_i: 1,
        spi_r: 2,
        incoming: Incoming::new(alloc),
        outgoing,
        phase,
    }
}

/// A request is under way from now on, with what it asks for and the timer that it has.
fn issue(
    rt: &impl Abort,
    alloc: Global,
    association: &mut Association,
    purpose: Purpose,
    timer: Timer,
) {
    association.outgoing.prepare().expect(rt, "room");
    association.outgoing.issue(Request {
        octets: Items::from_slice(alloc, &[purpose.exchange(), 8, 9]).expect(rt, "memory"),
        purpose,
        timer,
    });
}

/// Established IKE SAs, the first with these requests under way.
fn established(rt: &impl Abort, alloc: Global, timers: &[Timer]) -> Vec<Association> {
    let mut first = association(alloc, 1, Phase::Established(keys()));
    for timer in timers {
        issue(rt, alloc, &mut first, Purpose::Probe, *timer);
    }
    let mut all = Vec::new(alloc);
    all.push(first).expect(rt, "memory");
    all
}

/// Whether none holds an SPI for a child, as none does in these tests.
fn none_waits_for_child(associations: &[Association]) -> bool
    ensures { OnTrue result (All HoldsNoSpi associations.now) }
{
    for association in associations {
        if association.holds_spi() {
            return false;
        }
    }
    true
}

/// What a moment brings to IKE SAs without SPIs for a child.
fn told(
    rt: &impl Abort,
    alloc: Global,
    associations: &mut Vec<Association>,
    now: u64,
) -> Option<Ticked> {
    if !none_waits_for_child(associations.as_slice()) {
        return None;
    }
    let mut table = Table::new(alloc, 256);
    Some(tick(alloc, associations, &mut table, now).expect(rt, "memory"))
}

/// How many requests go out again, how many IKE SAs are closed, and how many are held then.
fn counted(
    rt: &impl Abort,
    alloc: Global,
    associations: &mut Vec<Association>,
    now: u64,
) -> Option<(usize, usize, usize)> {
    let ticked = told(rt, alloc, associations, now)?;
    Some((
        ticked.requests.len(),
        ticked.closed.len(),
        associations.len(),
    ))
}

/// The moment of the first row that is not so, one after the other.
fn first_other(
    rt: &impl Abort,
    alloc: Global,
    associations: &mut Vec<Association>,
    rows: &[(u64, (usize, usize, usize))],
) -> Option<u64> {
    for (now, expected) in rows {
        if counted(rt, alloc, associations, *now) != Some(*expected) {
            return Some(*now);
        }
    }
    None
}

#[test]
fn a_request_goes_out_five_times_more(rt: HostRuntime) {
    let rows = [
        (999, (0, 0, 1)),
        (1000, (1, 0, 1)),
        (2999, (0, 0, 1)),
        (3000, (1, 0, 1)),
        (7000, (1, 0, 1)),
        (15_000, (1, 0, 1)),
        (30_999, (0, 0, 1)),
        (31_000, (1, 0, 1)),
        (46_999, (0, 0, 1)),
        (47_000, (0, 1, 1)),
        (47_001, (0, 0, 1)),
        (166_999, (0, 0, 1)),
        (167_000, (0, 0, 0)),
    ];
    let mut associations = established(&rt, rt.alloc(), &[timer(0, 0)]);
    same(
        &rt,
        first_other(&rt, rt.alloc(), &mut associations, &rows),
        None,
    );
}

#[test]
fn one_that_fails_sends_nothing(rt: HostRuntime) {
    let timers = [timer(0, 0), timer(31_000, 5), timer(40_000, 1)];
    let rows = [(47_000, (0, 1, 1)), (60_000, (0, 0, 1))];
    let mut associations = established(&rt, rt.alloc(), &timers);
    same(
        &rt,
        first_other(&rt, rt.alloc(), &mut associations, &rows),
        None,
    );
}

/// As many IKE SAs as can be held, each with so many requests under way, of this timer.
fn most(rt: &impl Abort, alloc: Global, count: usize, timer: Timer) -> Vec<Association> {
    let mut all = Vec::new(alloc);
    for serial in 0..128u32 {
        let mut other = association(alloc, serial, Phase::Established(keys()));
        for _ in 0..count {
            issue(rt, alloc, &mut other, Purpose::Probe, timer);
        }
        all.push(other).expect(rt, "memory");
    }
    all
}

#[test]
fn as_many_as_can_be_held_fail_at_once(rt: HostRuntime) {
    let rows = [
        (46_999, (0, 0, 128)),
        (47_000, (0, 128, 128)),
        (47_001, (0, 0, 128)),
        (167_000, (0, 0, 0)),
    ];
    let mut associations = most(&rt, rt.alloc(), 1, timer(31_000, 5));
    same(
        &rt,
        first_other(&rt, rt.alloc(), &mut associations, &rows),
        None,
    );
}

#[test]
fn as_many_as_can_be_under_way_go_out_at_once(rt: HostRuntime) {
    let rows = [
        (999, (0, 0, 128)),
        (1000, (2048, 0, 128)),
        (1001, (0, 0, 128)),
    ];
    let mut associations = most(&rt, rt.alloc(), 16, timer(0, 0));
    same(
        &rt,
        first_other(&rt, rt.alloc(), &mut associations, &rows),
        None,
    );
}

/// One IKE SA in a phase.
fn alone(rt: &impl Abort, alloc: Global, phase: Phase) -> Vec<Association> {
    let mut all = Vec::new(alloc);
    all.push(association(alloc, 1, phase)).expect(rt, "memory");
    all
}

#[test]
fn a_half_open_one_is_held_for_a_while(rt: HostRuntime) {
    let mut associations = alone(&rt, rt.alloc(), half_open(rt.alloc(), 0));
    let rows = [(29_999, (0, 0, 1)), (30_000, (0, 0, 0))];
    same(
        &rt,
        first_other(&rt, rt.alloc(), &mut associations, &rows),
        None,
    );
}

#[test]
fn a_closed_one_is_held_for_a_while(rt: HostRuntime) {
    let closed = Phase::Closed {
        keys: None,
        at: 1000,
    };
    let mut associations = alone(&rt, rt.alloc(), closed);
    let rows = [(120_999, (0, 0, 1)), (121_000, (0, 0, 0))];
    same(
        &rt,
        first_other(&rt, rt.alloc(), &mut associations, &rows),
        None,
    );
}

#[test]
fn a_late_moment_sends_once(rt: HostRuntime) {
    let rows = [
        (1_000_000, (1, 0, 1)),
        (1_000_000, (0, 0, 1)),
        (1_001_999, (0, 0, 1)),
        (1_002_000, (1, 0, 1)),
    ];
    let mut associations = established(&rt, rt.alloc(), &[timer(0, 0)]);
    same(
        &rt,
        first_other(&rt, rt.alloc(), &mut associations, &rows),
        None,
    );
}

/// What goes out again: its serial and number, whether it is encrypted, and its first octet.
type Again = (u32, u32, bool, Option<u8>);

fn sent(rt: &impl Abort, alloc: Global, ticked: &Ticked) -> Vec<Again> {
    let mut sent = Vec::new(alloc);
    for again in ticked.requests.as_slice() {
        let first = again.octets.as_slice().first().copied();
        sent.push((again.ike, again.number, again.encrypted, first))
            .expect(rt, "memory");
    }
    sent
}

/// Two IKE SAs, the first with three requests under way, of which two are due, the second with its first
/// message.
fn both(rt: &impl Abort, alloc: Global) -> Vec<Association> {
    let mut all = established(rt, alloc, &[timer(0, 0), timer(500, 0), timer(0, 0)]);
    let mut other = association(alloc, 2, Phase::Established(keys()));
    issue(rt, alloc, &mut other, Purpose::Begin, timer(0, 0));
    all.push(other).expect(rt, "memory");
    all
}

#[test]
fn the_same_octets_go_out_in_order(rt: HostRuntime) {
    let mut associations = both(&rt, rt.alloc());
    let ticked = told(&rt, rt.alloc(), &mut associations, 1000).expect(
        &rt,
        "no child is waited for",
    );
    let expected = [
        (1, 0, true, Some(37)),
        (1, 2, true, Some(37)),
        (2, 0, false, Some(34)),
    ];
    same(
        &rt,
        sent(&rt, rt.alloc(), &ticked).as_slice(),
        expected.as_slice(),
    );
}

#[test]
fn what_is_due_next_is_the_least(rt: HostRuntime) {
    let timers = [timer(500, 1), timer(0, 0), timer(31_000, 5)];
    let closed = Phase::Closed {
        keys: None,
        at: 1000,
    };
    let rows = [
        (established(&rt, rt.alloc(), &timers), Some(1000)),
        (established(&rt, rt.alloc(), &[]), None),
        (
            alone(&rt, rt.alloc(), half_open(rt.alloc(), 0)),
            Some(30_000),
        ),
        (alone(&rt, rt.alloc(), closed), Some(121_000)),
    ];
    for (associations, wanted) in &rows {
        same(&rt, next_due(associations.as_slice()), *wanted);
    }
}

//! The timer at the moments of its schedule.
use crate::tests::asserts::same_at;
use requests::{Due, Timer};
use std::process::Abort;

/// Sends again where that is due.
fn told(timer: &mut Timer, now: u64) -> Due {
    let due = timer.due(now);
    if let Due::Again = due {
        *timer = timer.sent_again(now);
    }
    due
}

fn follows(rt: &impl Abort, rows: &[(u64, Due)], started: u64) {
    let mut timer = Timer::started(started);
    for (now, due) in rows {
        same_at(rt, now, told(&mut timer, *now), *due);
    }
}

#[test]
fn sends_at_its_moments(rt: HostRuntime) {
    let rows = [
        (999, Due::Nothing),
        (1000, Due::Again),
        (1000, Due::Nothing),
        (2999, Due::Nothing),
        (3000, Due::Again),
        (7000, Due::Again),
        (15_000, Due::Again),
        (30_999, Due::Nothing),
        (31_000, Due::Again),
        (46_999, Due::Nothing),
        (47_000, Due::Over),
        (47_001, Due::Over),
    ];
    follows(&rt, &rows, 0);
}

#[test]
fn one_late_moment_sends_once(rt: HostRuntime) {
    let rows = [
        (1_000_000, Due::Again),
        (1_000_000, Due::Nothing),
        (1_001_999, Due::Nothing),
        (1_002_000, Due::Again),
    ];
    follows(&rt, &rows, 0);
}

#[test]
fn moments_near_the_last(rt: HostRuntime) {
    follows(&rt, &[(u64::MAX, Due::Nothing)], u64::MAX - 999);
    follows(
        &rt,
        &[(u64::MAX, Due::Again), (u64::MAX, Due::Nothing)],
        u64::MAX - 1000,
    );
    follows(
        &rt,
        &[(0, Due::Nothing), (u64::MAX, Due::Nothing)],
        u64::MAX,
    );
}

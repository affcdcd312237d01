use super::fixture::{accept, judges, offer};
use crate::tests::asserts::{holds, same};
use replay::Judgement::{Fresh, Old, Taken, Zero};
use replay::{PlainWindow, ReplayFault, Window};
use std::process::Abort;

/// Finds that a new window's span moves with the numbers that it takes.
fn moves(rt: &impl Abort, window: &mut PlainWindow) {
    same(rt, (window.size(), window.top()), (64, 0));
    offer(rt, window, 64, Fresh);
    judges(rt, window, &[(1, Fresh)]);
    offer(rt, window, 65, Fresh);
    let rows = [(2, Fresh), (1, Old), (65, Taken), (0, Zero), (66, Fresh)];
    judges(rt, window, &rows);
    same(rt, window.top(), 65);
}

#[test]
fn moves_its_span(rt: HostRuntime) {
    moves(&rt, &mut PlainWindow::new(rt.alloc(), 2));
}

/// How many numbers up to 300 were taken, as far as the window knows.
fn taken(window: &PlainWindow) -> u32 {
    let mut count: u32 = 0;
    for n in 0..=300 {
        if window.judge(n) == Taken {
            count = count.saturating_add(1);
        }
    }
    count
}

#[test]
fn knows_no_more_numbers_than_it_spans(rt: HostRuntime) {
    let mut window = PlainWindow::new(rt.alloc(), 2);
    for n in 1..=200 {
        offer(&rt, &mut window, n, Fresh);
        offer(&rt, &mut window, n, Taken);
        holds(&rt, taken(&window) <= 64);
    }
    same(&rt, taken(&window), 64);
}

#[test]
fn a_refusal_leaves_the_window(rt: HostRuntime) {
    let mut window = PlainWindow::new(rt.alloc(), 2);
    for n in 1..=100 {
        let top = window.top();
        match accept(&mut window, n) {
            Ok(judgement) => {
                same(&rt, judgement, Fresh);
                same(&rt, window.judge(n), Taken);
            }
            Err(ReplayFault::Memory) => {
                same(&rt, window.judge(n), Fresh);
                same(&rt, window.top(), top);
            }
        }
    }
}

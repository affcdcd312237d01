use super::fixture::{accept, judges, offer};
use crate::tests::asserts::{same, same_at};
use replay::Judgement::{Fresh, Old, Taken, Zero};
use replay::{BlockWindow, Judgement, PlainWindow, ReplayFault, Window, is_block_count};
use std::alloc::Global;
use std::process::Abort;

#[test]
fn seven_counts_of_blocks(rt: HostRuntime) {
    let counts = [2, 4, 8, 16, 32, 64, 128];
    for m in 0..=300 {
        same_at(&rt, m, is_block_count(m), counts.contains(&m));
    }
}

/// A window of so many blocks, if that is a count of blocks.
fn window_of(rt: &impl Abort, alloc: Global, blocks: u32) -> BlockWindow {
    assert!(rt; is_block_count(blocks), "no count of blocks");
    BlockWindow::new(alloc, blocks).expect(rt, "memory")
}

/// Finds how windows of so many blocks that take some numbers judge others.
fn judges_behind(rt: &impl Abort, alloc: Global, rows: &[(u32, &[u64], &[(u64, Judgement)])]) {
    for (blocks, taken, judged) in rows {
        let mut window = window_of(rt, alloc, *blocks);
        for n in *taken {
            offer(rt, &mut window, *n, Fresh);
        }
        judges(rt, &window, judged);
    }
}

#[test]
fn judges_the_worked_numbers(rt: HostRuntime) {
    let near_the_end = u64::MAX - 8127;
    let rows: [(u32, &[u64], &[(u64, Judgement)]); 8] = [
        (2, &[64], &[(1, Fresh)]),
        (
            2,
            &[64, 65],
            &[(2, Fresh), (1, Old), (65, Taken), (0, Zero)],
        ),
        (
            2,
            &[3, 64, 131],
            &[(131, Taken), (128, Fresh), (68, Fresh), (67, Old)],
        ),
        (4, &[1, 193], &[(2, Fresh), (1, Old)]),
        (4, &[1, 193, 256], &[(193, Taken), (65, Fresh), (64, Old)]),
        (
            4,
            &[1, 65, 129, 193, 500],
            &[
                (321, Fresh),
                (385, Fresh),
                (449, Fresh),
                (309, Fresh),
                (308, Old),
            ],
        ),
        (2, &[5, 64_005], &[(63_942, Fresh), (63_941, Old)]),
        (
            128,
            &[near_the_end, u64::MAX],
            &[
                (u64::MAX, Taken),
                (u64::MAX - 1, Fresh),
                (near_the_end, Taken),
                (near_the_end - 1, Old),
            ],
        ),
    ];
    judges_behind(&rt, rt.alloc(), &rows);
}

// To be run with its one allocation failing, too.
#[test]
fn is_made_whole_or_refused(rt: HostRuntime) {
    match BlockWindow::new(rt.alloc(), 128) {
        Ok(window) => {
            same(&rt, window.size(), 8128);
            same(&rt, window.top(), 0);
            same(&rt, window.judge(1), Fresh);
        }
        Err(fault) => same(&rt, fault, ReplayFault::Memory),
    }
}

/// Finds that a window of so many blocks spans so many numbers and forgets none of them.
fn remembers(rt: &impl Abort, alloc: Global, blocks: u32, size: u64) {
    let mut window = window_of(rt, alloc, blocks);
    same(rt, window.size(), size);
    let next = size.wrapping_add(1);
    offer(rt, &mut window, 1, Fresh);
    offer(rt, &mut window, size, Fresh);
    judges(rt, &window, &[(1, Taken)]);
    offer(rt, &mut window, next, Fresh);
    judges(rt, &window, &[(1, Old)]);
    offer(rt, &mut window, 2, Fresh);
    judges(rt, &window, &[(2, Taken), (size, Taken), (next, Taken)]);
}

#[test]
fn larger_windows_remember_their_whole_span(rt: HostRuntime) {
    remembers(&rt, rt.alloc(), 16, 960);
    remembers(&rt, rt.alloc(), 32, 1984);
    remembers(&rt, rt.alloc(), 64, 4032);
}

/// Offers one number to both windows.
fn agree_at<A: Window, B: Window>(rt: &impl Abort, first: &mut A, second: &mut B, n: u64) {
    let judgement = accept(first, n).expect(rt, "memory");
    same_at(rt, n, accept(second, n).expect(rt, "memory"), judgement);
    same_at(rt, n, first.top(), second.top());
}

/// Goes up by these steps, round and round, and at each stop offers the numbers at both edges of the span.
fn agree_over(rt: &impl Abort, alloc: Global, blocks: u32, steps: &[u64], rounds: u32) {
    assert!(rt; is_block_count(blocks), "no count of blocks");
    let mut ring = BlockWindow::new(alloc, blocks).expect(rt, "memory");
    let mut plain = PlainWindow::new(alloc, blocks);
    same(rt, ring.size(), plain.size());
    let mut stop: u64 = 0;
    for _ in 0..rounds {
        for step in steps {
            stop = stop.saturating_add(*step);
            for n in around(stop, plain.size()) {
                agree_at(rt, &mut ring, &mut plain, n);
            }
        }
    }
}

/// Numbers at both edges of the span that ends at `stop`, and again.
fn around(stop: u64, size: u64) -> [u64; 9] {
    let edge = stop.saturating_sub(size);
    [
        stop,
        stop,
        edge,
        edge.saturating_add(1),
        edge.saturating_add(2),
        stop.saturating_sub(1),
        stop.saturating_sub(64),
        stop.saturating_add(1),
        edge.saturating_add(1),
    ]
}

/// Compares windows of so many blocks on several ways up.
fn agree_on_each(rt: &impl Abort, alloc: Global, blocks: u32) {
    let round = 64 * u64::from(blocks);
    let near = [64, round.saturating_sub(64), round, round + 64];
    let far = [round.saturating_sub(1), 1, round + 1, 63, 65, 10 * round, 1];
    let end = [u64::MAX - 3 * round, round, 7, round, 60, 61];
    agree_over(rt, alloc, blocks, &[1], 600);
    agree_over(rt, alloc, blocks, &[3, 61, 2, 5], 60);
    agree_over(rt, alloc, blocks, &near, 8);
    agree_over(rt, alloc, blocks, &far, 8);
    agree_over(rt, alloc, blocks, &end, 2);
}

#[test]
fn answers_as_the_plain_window(rt: HostRuntime) {
    agree_on_each(&rt, rt.alloc(), 2);
    agree_on_each(&rt, rt.alloc(), 4);
    agree_on_each(&rt, rt.alloc(), 8);
}

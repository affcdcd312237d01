//! Any number of messages: eight that have as many blocks at once, the others as a queue, and alone those
//! that make lanes wait.
ghost use Rattle.std.specs.Prelude.{◌≡◌, ℕ, ◌<◌, ◌≤◌, [], IsTrue, Some, length, map, slice_get, slice_index, slice_index_or};
ghost use Rattle.lanes.specs.Lane.{IsLane};
ghost use Rattle.lanes.specs.Task.{AreWritten, FitsALane, icv_of};
ghost use Rattle.lanes.specs.declared.task.Task.{Task};

use crate::eight::{icv_behind, icv_eight};
use crate::order::{BATCH, blocks_at, next_eight, places_by_blocks};
use crate::stream::inner_digests;
use crate::task::Task;

/// From how many messages of one length on eight lanes take less time than one lane alone, in a build for
/// x86-64-v2: that gains 1.7 times by full lanes, so eight lanes take the time of 4.7 messages.
pub const MESSAGES_LEAST: usize = 5;

// Writes the ICVs of the messages at these places, each computed alone.
fn write_one_by_one(tasks: &[Task<'_>], values: &mut [[u8; 16]], places: &[usize])
    requires same { length values.old ≡ length tasks.now }
    requires within { (k : ℕ) → k < length places.now → slice_index places.now k < length tasks.now }
    ensures { AreWritten tasks.now values.old values.new places.now (length places.now) }
{
    for k in 0..places.len() {
        let place = places[k];
        values[place] = tasks[place].icv();
    }
}

// Writes eight ICVs to the places of their messages.
fn write_eight(
    tasks: &[Task<'_>],
    values: &mut [[u8; 16]],
    places: &[usize; 8],
    eight: &[[u8; 16]; 8],
)
    requires same { length values.old ≡ length tasks.now }
    requires fit { (j : ℕ) → IsLane j → FitsALane tasks.now (slice_index places.now j) }
    requires right { (j : ℕ) → IsLane j → (task : Task)
        → slice_get tasks.now (slice_index places.now j) ≡ Some task
        → slice_index_or eight.now j [] ≡ icv_of task }
    ensures { AreWritten tasks.now values.old values.new places.now 8 }
{
    for j in 0..8 {
        values[places[j]] = eight[j];
    }
}

// Whether each message can go into a lane.
fn fit_lanes(tasks: &[Task<'_>]) -> bool
    ensures { IsTrue result → (place : ℕ) → place < length tasks.now → FitsALane tasks.now place }
{
    for task in tasks {
        if !task.fits_a_lane() {
            return false;
        }
    }
    true
}

// Whether the next eight messages have as many blocks, so that no lane waits for another.
fn are_even(tasks: &[Task<'_>], places: &[usize], start: usize) -> bool
    requires { start < length places.now }
{
    places.len() - start >= 8
        && blocks_at(tasks, places[start]) == blocks_at(tasks, places[start + 7])
}

// How many of the first messages keep the other lanes waiting for longer than the lanes gain, so that they
// go faster alone.
fn count_alone(tasks: &[Task<'_>], queue: &[usize], least: usize) -> usize
    ensures { result ≤ length queue.now }
{
    let mut all: usize = 0;
    for place in queue {
        all = all.saturating_add(blocks_at(tasks, *place));
    }
    for k in 0..queue.len() {
        let blocks = blocks_at(tasks, queue[k]);
        if all >= blocks.saturating_mul(least) {
            return k;
        }
        all = all.saturating_sub(blocks);
    }
    queue.len()
}

// Writes the ICVs of messages that follow one another in lanes.
fn write_stream(tasks: &[Task<'_>], values: &mut [[u8; 16]], queue: &[usize])
    requires same { length values.old ≡ length tasks.now }
    requires few { length tasks.now ≤ BATCH }
    requires some { 0 < length queue.now }
    requires fit { (k : ℕ) → k < length queue.now → FitsALane tasks.now (slice_index queue.now k) }
    ensures { AreWritten tasks.now values.old values.new queue.now (length queue.now) }
{
    let digests = inner_digests(tasks, queue);
    for group in 0..queue.len().div_ceil(8) {
        let places = next_eight(queue, 8 * group);
        write_eight(
            tasks,
            values,
            &places,
            &icv_behind(tasks, &places, &digests),
        );
    }
}

// Writes the ICVs of a queue, in one go where each message has a lane of its own.
fn write_queue(tasks: &[Task<'_>], values: &mut [[u8; 16]], queue: &[usize])
    requires same { length values.old ≡ length tasks.now }
    requires few { length tasks.now ≤ BATCH }
    requires some { 0 < length queue.now }
    requires fit { (k : ℕ) → k < length queue.now → FitsALane tasks.now (slice_index queue.now k) }
    ensures { AreWritten tasks.now values.old values.new queue.now (length queue.now) }
{
    if queue.len() <= 8 {
        let eight = next_eight(queue, 0);
        write_eight(tasks, values, &eight, &icv_eight(tasks, &eight));
    } else {
        write_stream(tasks, values, queue);
    }
}

// Writes the ICVs of messages that have different counts of blocks, the longest first.
fn write_uneven(tasks: &[Task<'_>], values: &mut [[u8; 16]], queue: &[usize], least: usize)
    requires same { length values.old ≡ length tasks.now }
    requires few { length tasks.now ≤ BATCH }
    requires fit { (k : ℕ) → k < length queue.now → FitsALane tasks.now (slice_index queue.now k) }
    ensures { AreWritten tasks.now values.old values.new queue.now (length queue.now) }
{
    let alone = count_alone(tasks, queue, least);
    write_one_by_one(tasks, values, &queue[..alone]);
    if alone < queue.len() {
        write_queue(tasks, values, &queue[alone..]);
    }
}

// Writes the ICVs of messages in lanes: eight that have as many blocks side by side, and the others as a
// queue.
fn write_in_lanes(tasks: &[Task<'_>], values: &mut [[u8; 16]], places: &[usize], least: usize)
    requires same { length values.old ≡ length tasks.now }
    requires few { length tasks.now ≤ BATCH }
    requires as_few { length places.now ≤ BATCH }
    requires fit { (k : ℕ) → k < length places.now → FitsALane tasks.now (slice_index places.now k) }
    ensures { AreWritten tasks.now values.old values.new places.now (length places.now) }
{
    let mut queue = [0; BATCH];
    let mut queued = 0;
    let mut start = 0;
    for at in 0..places.len() {
        if start <= at {
            if are_even(tasks, places, at) {
                let eight = next_eight(places, at);
                write_eight(tasks, values, &eight, &icv_eight(tasks, &eight));
                start = at + 8;
            } else {
                queue[queued] = places[at];
                queued += 1;
            }
        }
    }
    write_uneven(tasks, values, &queue[..queued], least);
}

// Writes the ICV of each message, at most 64 of them.
fn write_batch(tasks: &[Task<'_>], values: &mut [[u8; 16]], least: usize)
    requires same { length values.old ≡ length tasks.now }
    requires few { length tasks.now ≤ BATCH }
    ensures { values.new ≡ map icv_of tasks.now }
{
    let places = places_by_blocks(tasks);
    if fit_lanes(tasks) {
        write_in_lanes(tasks, values, &places[..tasks.len()], least);
    } else {
        write_one_by_one(tasks, values, &places[..tasks.len()]);
    }
}

/// Writes the integrity check value of each message (RFC 4868, section 2.3) into its place of `values`.
///
/// The messages may have any lengths and come in any order. `least` says from how many messages of one
/// length on eight lanes take less time than one lane alone: [`MESSAGES_LEAST`] in a build for x86-64-v2,
/// 2 in one for x86-64-v3, where AVX2 gains 4 times by full lanes. No value depends on it.
pub fn icv_all(tasks: &[Task<'_>], values: &mut [[u8; 16]], least: usize)
    requires { length values.old ≡ length tasks.now }
    ensures { values.new ≡ map icv_of tasks.now }
{
    for batch in 0..tasks.len().div_ceil(BATCH) {
        let start = BATCH * batch;
        let end = start + (tasks.len() - start).min(BATCH);
        write_batch(&tasks[start..end], &mut values[start..end], least);
    }
}

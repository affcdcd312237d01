//! Messages that follow one another in lanes: where one ends, the next takes its lane, so that no lane
//! waits while there are more.
ghost use Rattle.std.specs.Prelude.{◌≡◌, ◌≢◌, ℕ, ◌+◌, ◌-◌, ◌^◌, ◌<◌, ◌≤◌, List, [], Some, length, slice_get, slice_index, slice_index_or, slice_set};
ghost use Rattle.mac.specs.Hmac.{hmac_block, pad_with};
ghost use Rattle.lanes.specs.Key.{state_behind};
ghost use Rattle.lanes.specs.Lane.{IsLane, lane};
ghost use Rattle.lanes.specs.Message.{HasBlocks};
ghost use Rattle.lanes.specs.Padding.{after_a_block};
ghost use Rattle.lanes.specs.Stream.{DigestsWritten, HasDigest, inner_digest};
ghost use Rattle.lanes.specs.Task.{FitsALane, message_of};
ghost use Rattle.lanes.specs.declared.message.Message.{Message};
ghost use Rattle.lanes.specs.declared.task.Task.{Task};

use crate::absorbing::{absorb_common, absorb_rest};
use crate::blocks::{state_of_lane, with_lane};
use crate::eight::{inner_state, inner_states, message, messages_at};
use crate::message::Message;
use crate::order::{BATCH, next_eight};
use crate::task::Task;
use std::simd::prelude::*;

// The blocks that the message of lane `j` has yet.
fn left(messages: &[Message<'_>], taken: &[usize; 8], j: usize) -> usize
    requires there { j < length messages.now }
    requires lane { IsLane j }
    ensures { (m : Message) → slice_get messages.now j ≡ Some m → result ≡ m.count - slice_index taken.now j }
{
    messages[j].count.saturating_sub(taken[j])
}

// The blocks that each message has yet.
fn all_left(messages: &[Message<'_>], taken: &[usize; 8]) -> [usize; 8]
    requires { length messages.now ≡ 8 }
    ensures { (j : ℕ) → IsLane j → (m : Message) → slice_get messages.now j ≡ Some m
        → slice_index result j ≡ m.count - slice_index taken.now j }
{
    [
        left(messages, taken, 0),
        left(messages, taken, 1),
        left(messages, taken, 2),
        left(messages, taken, 3),
        left(messages, taken, 4),
        left(messages, taken, 5),
        left(messages, taken, 6),
        left(messages, taken, 7),
    ]
}

// The lane that has the fewest blocks yet.
fn first_to_end(left: &[usize; 8]) -> usize
    ensures lane { IsLane result }
    ensures least { (j : ℕ) → IsLane j → slice_index left.now result ≤ slice_index left.now j }
{
    let mut first = 0;
    for j in 1..8 {
        if left[j] < left[first] {
            first = j;
        }
    }
    first
}

// What each lane has taken after `count` blocks more.
fn all_taken(taken: &[usize; 8], count: usize) -> [usize; 8]
    requires { (j : ℕ) → IsLane j → slice_index taken.now j + count < 2 ^ 64 }
    ensures { (j : ℕ) → IsLane j → slice_index result j ≡ slice_index taken.now j + count }
{
    let mut sums = *taken;
    for j in 0..8 {
        sums[j] += count;
    }
    sums
}

// Writes each lane's digest to the place of its message.
fn write_digests(digests: &mut [[u32; 8]; BATCH], places: &[usize; 8], state: &[u32x8; 8])
    requires { (j : ℕ) → IsLane j → slice_index places.now j < 64 }
    ensures { (tasks : List Task) → ((j : ℕ) → IsLane j → (task : Task)
        → slice_get tasks (slice_index places.now j) ≡ Some task → lane j state.now ≡ inner_digest task)
        → DigestsWritten tasks digests.old digests.new places.now 8 }
{
    for j in 0..8 {
        digests[places[j]] = state_of_lane(state, j);
    }
}

// The inner digest of each message of a queue, at the message's place.
pub(crate) fn inner_digests(tasks: &[Task<'_>], queue: &[usize]) -> [[u32; 8]; BATCH]
    requires some { 0 < length queue.now }
    requires few { length tasks.now ≤ BATCH }
    requires fit { (k : ℕ) → k < length queue.now → FitsALane tasks.now (slice_index queue.now k) }
    ensures { (k : ℕ) → k < length queue.now → HasDigest tasks.now result (slice_index queue.now k) }
{
    let mut digests = [[0; 8]; BATCH];
    let mut places = next_eight(queue, 0);
    let mut state = inner_states(tasks, &places);
    let mut messages = messages_at(tasks, &places);
    let mut taken = [0; 8];
    for next in 8..queue.len() {
        let left = all_left(&messages, &taken);
        let j = first_to_end(&left);
        let ended = absorb_common(state, &messages, &taken, left[j]);
        digests[places[j]] = state_of_lane(&ended, j);
        taken = all_taken(&taken, left[j]);
        taken[j] = 0;
        places[j] = queue[next];
        messages[j] = message(tasks, queue[next]);
        let begun = with_lane(&ended, j, &inner_state(tasks, queue[next]));
        state = begun;
    }
    let ended = absorb_rest(state, &messages, &taken);
    write_digests(&mut digests, &places, &ended);
    digests
}

//! Messages side by side, one in each lane.
ghost use Rattle.std.specs.Prelude.{◌≡◌, ℕ, ◌+◌, ◌*◌, ◌-◌, ◌<◌, ◌≤◌, List, Some, length, take, drop, min, nat_eq, if◌then◌else◌, slice_get, slice_index};
ghost use Rattle.sha2.specs.Sha256.{first_words, hash_after};
ghost use Rattle.lanes.specs.Absorbing.{Advances};
ghost use Rattle.lanes.specs.Lane.{IsLane, IsLive, lane};
ghost use Rattle.lanes.specs.Message.{HasBlocks, whole_blocks};
ghost use Rattle.lanes.specs.declared.message.Message.{Message};

use crate::blocks::words_in_lanes;
use crate::message::Message;
use crate::rounds::compress;
use crate::words::choose;
use std::simd::prelude::*;

// The block of message `j` that stands `ahead` of those that were taken.
#[inline(always)]
fn block<'a>(messages: &'a [Message<'_>], taken: &[usize; 8], j: usize, ahead: usize) -> &'a [u8]
    requires there { j < length messages.now }
    requires lane { IsLane j }
    ensures long { length result.now ≡ 64 }
    ensures block { (m : Message) (octets : List ℕ) → slice_get messages.now j ≡ Some m → HasBlocks m octets
        → slice_index taken.now j + ahead < m.count
        → result.now ≡ take 64 (drop ((slice_index taken.now j + ahead) * 64) octets) }
{
    // A lane that has ended takes any block.
    messages[j].block(taken[j].wrapping_add(ahead))
}

// The block at `index` of message `j`, which has it whole.
#[inline(always)]
fn whole_block<'a>(messages: &'a [Message<'_>], j: usize, index: usize) -> &'a [u8]
    requires there { j < length messages.now }
    requires whole { (m : Message) → slice_get messages.now j ≡ Some m → index < whole_blocks m }
    ensures long { length result.now ≡ 64 }
    ensures block { (m : Message) (octets : List ℕ) → slice_get messages.now j ≡ Some m → HasBlocks m octets
        → result.now ≡ take 64 (drop (index * 64) octets) }
{
    messages[j].whole_block(index)
}

// The words of each message's block at `index`, which every message has whole.
#[inline(always)]
fn whole_words_at(messages: &[Message<'_>], index: usize) -> [u32x8; 16]
    requires long { length messages.now ≡ 8 }
    requires whole { (j : ℕ) (m : Message) → slice_get messages.now j ≡ Some m → index < whole_blocks m }
    ensures { (j : ℕ) → IsLane j → (m : Message) (octets : List ℕ) → slice_get messages.now j ≡ Some m
        → HasBlocks m octets
        → lane j result ≡ first_words (take 64 (drop (index * 64) octets)) 16 }
{
    words_in_lanes([
        whole_block(messages, 0, index),
        whole_block(messages, 1, index),
        whole_block(messages, 2, index),
        whole_block(messages, 3, index),
        whole_block(messages, 4, index),
        whole_block(messages, 5, index),
        whole_block(messages, 6, index),
        whole_block(messages, 7, index),
    ])
}

// The words of each message's block that stands `ahead` of those that were taken.
#[inline(always)]
fn words_at(messages: &[Message<'_>], taken: &[usize; 8], ahead: usize) -> [u32x8; 16]
    requires { length messages.now ≡ 8 }
    ensures { (j : ℕ) → IsLane j → (m : Message) (octets : List ℕ) → slice_get messages.now j ≡ Some m
        → HasBlocks m octets → slice_index taken.now j + ahead < m.count
        → lane j result ≡ first_words (take 64 (drop ((slice_index taken.now j + ahead) * 64) octets)) 16 }
{
    words_in_lanes([
        block(messages, taken, 0, ahead),
        block(messages, taken, 1, ahead),
        block(messages, taken, 2, ahead),
        block(messages, taken, 3, ahead),
        block(messages, taken, 4, ahead),
        block(messages, taken, 5, ahead),
        block(messages, taken, 6, ahead),
        block(messages, taken, 7, ahead),
    ])
}

// 1 where message `j` has a block `ahead` of those that were taken, and else 0.
#[inline(always)]
fn is_live(messages: &[Message<'_>], taken: &[usize; 8], j: usize, ahead: usize) -> u32
    requires there { j < length messages.now }
    requires lane { IsLane j }
    ensures { (m : Message) → slice_get messages.now j ≡ Some m
        → IsLive (slice_index taken.now j + ahead) m.count result }
{
    u32::from(ahead < messages[j].count.saturating_sub(taken[j]))
}

// 1 in each lane whose message has a block `ahead` of those that were taken, and 0 in the others.
#[inline(always)]
fn live(messages: &[Message<'_>], taken: &[usize; 8], ahead: usize) -> u32x8
    requires { length messages.now ≡ 8 }
    ensures { (j : ℕ) → IsLane j → (m : Message) → slice_get messages.now j ≡ Some m
        → IsLive (slice_index taken.now j + ahead) m.count (slice_index result j) }
{
    u32x8::from_array([
        is_live(messages, taken, 0, ahead),
        is_live(messages, taken, 1, ahead),
        is_live(messages, taken, 2, ahead),
        is_live(messages, taken, 3, ahead),
        is_live(messages, taken, 4, ahead),
        is_live(messages, taken, 5, ahead),
        is_live(messages, taken, 6, ahead),
        is_live(messages, taken, 7, ahead),
    ])
}

// In each lane `other` where that of `test` is 0, and else `state`.
#[inline(always)]
fn choose_state(test: u32x8, state: &[u32x8; 8], other: &[u32x8; 8]) -> [u32x8; 8]
    ensures { (j : ℕ) → IsLane j
        → lane j result ≡ (if nat_eq (slice_index test j) 0 then lane j other.now else lane j state.now) }
{
    [
        choose(test, state[0], other[0]),
        choose(test, state[1], other[1]),
        choose(test, state[2], other[2]),
        choose(test, state[3], other[3]),
        choose(test, state[4], other[4]),
        choose(test, state[5], other[5]),
        choose(test, state[6], other[6]),
        choose(test, state[7], other[7]),
    ]
}

// Each lane's state after the block at `index`, which every message has whole.
fn whole_step(state: [u32x8; 8], messages: &[Message<'_>], index: usize) -> [u32x8; 8]
    requires long { length messages.now ≡ 8 }
    requires whole { (j : ℕ) (m : Message) → slice_get messages.now j ≡ Some m → index < whole_blocks m }
    requires common { (j : ℕ) (m : Message) → slice_get messages.now j ≡ Some m → index < m.count }
    ensures { (j : ℕ) → IsLane j → (m : Message) (octets start : List ℕ) → slice_get messages.now j ≡ Some m
        → HasBlocks m octets
        → lane j state ≡ hash_after start octets (min index m.count)
        → lane j result ≡ hash_after start octets (min (index + 1) m.count) }
{
    compress(state, whole_words_at(messages, index))
}

// Each lane's state after one block more, which every message has.
fn common_step(
    state: [u32x8; 8],
    messages: &[Message<'_>],
    taken: &[usize; 8],
    ahead: usize,
) -> [u32x8; 8]
    requires long { length messages.now ≡ 8 }
    requires common { (j : ℕ) (m : Message) → slice_get messages.now j ≡ Some m
        → slice_index taken.now j + ahead < m.count }
    ensures { Advances messages.now taken.now state ahead result (ahead + 1) }
{
    compress(state, words_at(messages, taken, ahead))
}

// Each lane's state after one block more, if its message has one.
fn step(state: [u32x8; 8], messages: &[Message<'_>], taken: &[usize; 8], ahead: usize) -> [u32x8; 8]
    requires { length messages.now ≡ 8 }
    ensures { Advances messages.now taken.now state ahead result (ahead + 1) }
{
    let next = compress(state, words_at(messages, taken, ahead));
    choose_state(live(messages, taken, ahead), &next, &state)
}

// Each lane's state after `count` blocks more, which every message has.
pub(crate) fn absorb_common(
    start: [u32x8; 8],
    messages: &[Message<'_>],
    taken: &[usize; 8],
    count: usize,
) -> [u32x8; 8]
    requires long { length messages.now ≡ 8 }
    requires common { (j : ℕ) (m : Message) → slice_get messages.now j ≡ Some m
        → slice_index taken.now j + count ≤ m.count }
    ensures { Advances messages.now taken.now start 0 result count }
{
    let mut state = start;
    for ahead in 0..count {
        let next = common_step(state, messages, taken, ahead);
        state = next;
    }
    state
}

// The blocks that the message has yet which ends last.
fn most_left(messages: &[Message<'_>], taken: &[usize; 8]) -> usize
    requires { length messages.now ≡ 8 }
    ensures { (j : ℕ) → IsLane j → (m : Message) → slice_get messages.now j ≡ Some m
        → m.count ≤ slice_index taken.now j + result }
{
    let mut most = 0;
    for j in 0..8 {
        most = most.max(messages[j].count.saturating_sub(taken[j]));
    }
    most
}

// Each lane's state after the blocks that its message has yet.
pub(crate) fn absorb_rest(
    start: [u32x8; 8],
    messages: &[Message<'_>],
    taken: &[usize; 8],
) -> [u32x8; 8]
    requires { length messages.now ≡ 8 }
    ensures { (j : ℕ) → IsLane j → (m : Message) (octets start_of_lane : List ℕ)
        → slice_get messages.now j ≡ Some m → HasBlocks m octets
        → lane j start ≡ hash_after start_of_lane octets (min (slice_index taken.now j) m.count)
        → lane j result ≡ hash_after start_of_lane octets m.count }
{
    let mut state = start;
    for ahead in 0..most_left(messages, taken) {
        let next = step(state, messages, taken, ahead);
        state = next;
    }
    state
}

// How many whole blocks every message has.
fn least_whole(messages: &[Message<'_>]) -> usize
    ensures whole { (j : ℕ) (m : Message) → slice_get messages.now j ≡ Some m → result ≤ whole_blocks m }
    ensures common { (j : ℕ) (m : Message) → slice_get messages.now j ≡ Some m → result ≤ m.count }
{
    let mut least = usize::MAX;
    for message in messages {
        least = least.min(message.whole());
    }
    least
}

// The blocks of the shortest message.
fn least_blocks(messages: &[Message<'_>]) -> usize
    ensures { (j : ℕ) (m : Message) → slice_get messages.now j ≡ Some m → result ≤ m.count }
{
    let mut least = usize::MAX;
    for message in messages {
        least = least.min(message.count);
    }
    least
}

// Each lane's state after the blocks of its message.
pub(crate) fn absorb(start: [u32x8; 8], messages: &[Message<'_>]) -> [u32x8; 8]
    requires { length messages.now ≡ 8 }
    ensures { (j : ℕ) → IsLane j → (m : Message) (octets : List ℕ) → slice_get messages.now j ≡ Some m
        → HasBlocks m octets
        → lane j result ≡ hash_after (lane j start) octets m.count }
{
    let mut state = start;
    let whole = least_whole(messages);
    for index in 0..whole {
        let next = whole_step(state, messages, index);
        state = next;
    }
    let common = least_blocks(messages).max(whole);
    let all = absorb_common(state, messages, &[whole; 8], common - whole);
    absorb_rest(all, messages, &[common; 8])
}

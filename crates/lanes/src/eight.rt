//! Eight messages at once, each with its key in a lane.
ghost use Rattle.std.specs.Prelude.{◌≡◌, ℕ, ◌<◌, ◌≤◌, List, [], Some, length, slice_get, slice_index, slice_index_or, take};
ghost use Rattle.sha2.specs.Sha256.{digest_bytes};
ghost use Rattle.mac.specs.Hmac.{hmac_block, pad_with};
ghost use Rattle.lanes.specs.Key.{state_behind};
ghost use Rattle.lanes.specs.Lane.{IsLane, lane};
ghost use Rattle.lanes.specs.Message.{HasBlocks};
ghost use Rattle.lanes.specs.Padding.{after_a_block};
ghost use Rattle.lanes.specs.Stream.{HasDigest};
ghost use Rattle.lanes.specs.Task.{FitsALane, icv_of, message_of};
ghost use Rattle.lanes.specs.declared.task.Task.{Task};

use crate::blocks::{state_of_lane, states_in_lanes};
use crate::message::Message;
use crate::order::BATCH;
use crate::tagging::{first_octets, outer_tags, tags};
use crate::task::Task;
use std::simd::prelude::*;

// The state behind the inner pad of the key at a place.
pub(crate) fn inner_state(tasks: &[Task<'_>], place: usize) -> [u32; 8]
    requires { FitsALane tasks.now place }
    ensures { (task : Task) → slice_get tasks.now place ≡ Some task
        → result ≡ state_behind (pad_with 0x36 (hmac_block task.key.now)) }
{
    tasks[place].key.inner_state()
}

// The state behind the outer pad of the key at a place.
fn outer_state(tasks: &[Task<'_>], place: usize) -> [u32; 8]
    requires { FitsALane tasks.now place }
    ensures { (task : Task) → slice_get tasks.now place ≡ Some task
        → result ≡ state_behind (pad_with 0x5c (hmac_block task.key.now)) }
{
    tasks[place].key.outer_state()
}

// The blocks of the message at a place.
pub(crate) fn message<'a>(tasks: &[Task<'a>], place: usize) -> Message<'a>
    requires { FitsALane tasks.now place }
    ensures { (task : Task) → slice_get tasks.now place ≡ Some task
        → HasBlocks result (after_a_block (message_of task)) }
{
    tasks[place].message()
}

// Each lane's state behind the inner pad of its key.
pub(crate) fn inner_states(tasks: &[Task<'_>], places: &[usize; 8]) -> [u32x8; 8]
    requires { (j : ℕ) → IsLane j → FitsALane tasks.now (slice_index places.now j) }
    ensures { (j : ℕ) → IsLane j → (task : Task) → slice_get tasks.now (slice_index places.now j) ≡ Some task
        → lane j result ≡ state_behind (pad_with 0x36 (hmac_block task.key.now)) }
{
    states_in_lanes([
        inner_state(tasks, places[0]),
        inner_state(tasks, places[1]),
        inner_state(tasks, places[2]),
        inner_state(tasks, places[3]),
        inner_state(tasks, places[4]),
        inner_state(tasks, places[5]),
        inner_state(tasks, places[6]),
        inner_state(tasks, places[7]),
    ])
}

// Each lane's state behind the outer pad of its key.
fn outer_states(tasks: &[Task<'_>], places: &[usize; 8]) -> [u32x8; 8]
    requires { (j : ℕ) → IsLane j → FitsALane tasks.now (slice_index places.now j) }
    ensures { (j : ℕ) → IsLane j → (task : Task) → slice_get tasks.now (slice_index places.now j) ≡ Some task
        → lane j result ≡ state_behind (pad_with 0x5c (hmac_block task.key.now)) }
{
    states_in_lanes([
        outer_state(tasks, places[0]),
        outer_state(tasks, places[1]),
        outer_state(tasks, places[2]),
        outer_state(tasks, places[3]),
        outer_state(tasks, places[4]),
        outer_state(tasks, places[5]),
        outer_state(tasks, places[6]),
        outer_state(tasks, places[7]),
    ])
}

// The blocks of the messages at eight places.
pub(crate) fn messages_at<'a>(tasks: &[Task<'a>], places: &[usize; 8]) -> [Message<'a>; 8]
    requires { (j : ℕ) → IsLane j → FitsALane tasks.now (slice_index places.now j) }
    ensures { (j : ℕ) → IsLane j → (m : Message) → slice_get result j ≡ Some m
        → (task : Task) → slice_get tasks.now (slice_index places.now j) ≡ Some task
        → HasBlocks m (after_a_block (message_of task)) }
{
    [
        message(tasks, places[0]),
        message(tasks, places[1]),
        message(tasks, places[2]),
        message(tasks, places[3]),
        message(tasks, places[4]),
        message(tasks, places[5]),
        message(tasks, places[6]),
        message(tasks, places[7]),
    ]
}

// Each lane's tag, as words.
fn tags_at(tasks: &[Task<'_>], places: &[usize; 8]) -> [u32x8; 8]
    requires { (j : ℕ) → IsLane j → FitsALane tasks.now (slice_index places.now j) }
    ensures { (j : ℕ) → IsLane j → (task : Task) → slice_get tasks.now (slice_index places.now j) ≡ Some task
        → take 16 (digest_bytes (lane j result) 8) ≡ icv_of task }
{
    let messages = [
        message(tasks, places[0]),
        message(tasks, places[1]),
        message(tasks, places[2]),
        message(tasks, places[3]),
        message(tasks, places[4]),
        message(tasks, places[5]),
        message(tasks, places[6]),
        message(tasks, places[7]),
    ];
    tags(
        inner_states(tasks, places),
        outer_states(tasks, places),
        &messages,
    )
}

// The ICV of lane `j`: the first half of its tag.
fn value(tags: &[u32x8; 8], j: usize) -> [u8; 16]
    requires { IsLane j }
    ensures { result ≡ take 16 (digest_bytes (lane j tags.now) 8) }
{
    first_octets(&state_of_lane(tags, j))
}

// The ICV in each lane.
fn values(tags: &[u32x8; 8]) -> [[u8; 16]; 8]
    ensures { (j : ℕ) → IsLane j → slice_index_or result j [] ≡ take 16 (digest_bytes (lane j tags.now) 8) }
{
    [
        value(tags, 0),
        value(tags, 1),
        value(tags, 2),
        value(tags, 3),
        value(tags, 4),
        value(tags, 5),
        value(tags, 6),
        value(tags, 7),
    ]
}

// The ICVs of the messages at eight places.
pub(crate) fn icv_eight(tasks: &[Task<'_>], places: &[usize; 8]) -> [[u8; 16]; 8]
    requires { (j : ℕ) → IsLane j → FitsALane tasks.now (slice_index places.now j) }
    ensures { (j : ℕ) → IsLane j → (task : Task) → slice_get tasks.now (slice_index places.now j) ≡ Some task
        → slice_index_or result j [] ≡ icv_of task }
{
    values(&tags_at(tasks, places))
}

// The ICVs of the messages at eight places, from their inner digests.
pub(crate) fn icv_behind(
    tasks: &[Task<'_>],
    places: &[usize; 8],
    digests: &[[u32; 8]; BATCH],
) -> [[u8; 16]; 8]
    requires few { length tasks.now ≤ BATCH }
    requires fit { (j : ℕ) → IsLane j → FitsALane tasks.now (slice_index places.now j) }
    requires digests { (j : ℕ) → IsLane j → HasDigest tasks.now digests.now (slice_index places.now j) }
    ensures { (j : ℕ) → IsLane j → (task : Task) → slice_get tasks.now (slice_index places.now j) ≡ Some task
        → slice_index_or result j [] ≡ icv_of task }
{
    let inner = states_in_lanes([
        digests[places[0]],
        digests[places[1]],
        digests[places[2]],
        digests[places[3]],
        digests[places[4]],
        digests[places[5]],
        digests[places[6]],
        digests[places[7]],
    ]);
    values(&outer_tags(outer_states(tasks, places), &inner))
}

//! The order in which messages go into lanes: those with as many blocks side by side.
ghost use Rattle.std.specs.Prelude.{◌≡◌, ℕ, ◌+◌, ◌<◌, ◌≤◌, length, slice_index, take};
ghost use Rattle.std.specs.List.{range_with_len};
ghost use Rattle.std.specs.List.Sorted.{IsPermutation};
ghost use Rattle.lanes.specs.Lane.{IsLane};

use crate::task::Task;
use std::cmp::Reverse;

// The most messages that are put in order at once.
pub(crate) const BATCH: usize = 64;

// The blocks of the message at a place.
pub(crate) fn blocks_at(tasks: &[Task<'_>], place: usize) -> usize {
    match tasks.get(place) {
        Some(task) => task.block_count(),
        None => 0,
    }
}

// Each place in turn.
fn all_places() -> [usize; BATCH]
    ensures { result ≡ range_with_len 0 64 }
{
    let mut places = [0; BATCH];
    for place in 0..BATCH {
        places[place] = place;
    }
    places
}

// The places of the messages, those of messages with as many blocks side by side, and those of the longest
// first.
pub(crate) fn places_by_blocks(tasks: &[Task<'_>]) -> [usize; BATCH]
    requires { length tasks.now ≤ BATCH }
    ensures { IsPermutation (range_with_len 0 (length tasks.now)) (take (length tasks.now) result) }
{
    let mut places = all_places();
    places[..tasks.len()].sort_unstable_by_key(|place| Reverse(blocks_at(tasks, *place)));
    places
}

// The place whose message goes into lane `j`.
fn place_for(places: &[usize], start: usize, j: usize) -> usize
    requires start { start < length places.now }
    requires lane { IsLane j }
    ensures next { start + j < length places.now → result ≡ slice_index places.now (start + j) }
    ensures left { length places.now ≤ start + j → result ≡ slice_index places.now start }
{
    if j < places.len() - start {
        places[start + j]
    } else {
        places[start]
    }
}

// The next eight places. Where fewer are left, the first of them stands in each lane that is left over.
pub(crate) fn next_eight(places: &[usize], start: usize) -> [usize; 8]
    requires { start < length places.now }
    ensures next { (j : ℕ) → IsLane j → start + j < length places.now
        → slice_index result j ≡ slice_index places.now (start + j) }
    ensures left { (j : ℕ) → IsLane j → length places.now ≤ start + j
        → slice_index result j ≡ slice_index places.now start }
{
    [
        place_for(places, start, 0),
        place_for(places, start, 1),
        place_for(places, start, 2),
        place_for(places, start, 3),
        place_for(places, start, 4),
        place_for(places, start, 5),
        place_for(places, start, 6),
        place_for(places, start, 7),
    ]
}

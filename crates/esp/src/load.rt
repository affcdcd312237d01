//! Whether ICVs are computed side by side: where that takes less time than one by one.
ghost use Rattle.std.specs.Prelude.{◌≡◌, ◌<◌, ◌≤◌, IsTrue, length};

use lanes::MESSAGES_LEAST;
use std::convert::AsSlice;

/// From how many packets of one length on ICVs are computed side by side, where nothing else is said: right
/// for x86-64-v2.
///
/// One more than in `lanes`, whose own limit of 5 counts the hashing alone. Here the arrays of a list, as
/// long for six packets as for eight, are counted in, and of a list that is opened that each packet's sequence
/// number is judged once more.
pub const PACKETS_LEAST: usize = 6;

/// From how many messages on lanes are fuller than one alone, where lists are computed side by side from
/// `packets` packets on.
pub fn messages_least(packets: usize) -> usize {
    packets.min(MESSAGES_LEAST)
}

// How many messages may be so unequal that no eight of them gain.
const UNEQUAL_LIMIT: usize = 16;

/// Whether ICVs of these packets, or of packets with these payloads, are computed side by side, where that
/// gains from `least` packets of one length on. Among a few none may wait long for another; of many some are
/// alike.
pub fn gain_by_lanes<T: AsSlice<u8>>(packets: &[T], least: usize) -> bool
    ensures many { UNEQUAL_LIMIT < length packets.now → IsTrue result }
    ensures few { length packets.now ≤ UNEQUAL_LIMIT → length packets.now < least → ¬ (IsTrue result) }
    ensures none { length packets.now ≡ 0 → ¬ (IsTrue result) }
{
    packets.len() > UNEQUAL_LIMIT || packets.len() >= least.max(1) && are_alike(packets, least)
}

// Whether lanes are full enough for so long as the longest message takes.
fn are_alike<T: AsSlice<u8>>(packets: &[T], least: usize) -> bool {
    let mut all: usize = 0;
    let mut most = 0;
    for packet in packets {
        let blocks = packet.as_slice().len() / 64 + 2;
        all = all.saturating_add(blocks);
        most = blocks.max(most);
    }
    all >= most.saturating_mul(least)
}

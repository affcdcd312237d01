//! Lists that are opened by one call, beside as many calls for one packet.
use super::asserts::same;
use super::fixture::{Numbers, Outcome, Pair, ROUND, numbered, packets, payloads, sender, text};
use std::alloc::{AllocError, Global};
use std::ops::Range;
use std::test::Fail;

/// A copy of the packet in which one bit of the octet at this place is changed, if it has that place.
fn damaged(alloc: Global, packet: &[u8], place: usize) -> Result<Vec<u8>, AllocError> {
    let mut copy = packet.to_vec(alloc)?;
    if let Some(octet) = copy.get_mut(place) {
        *octet ^= 1;
    }
    Ok(copy)
}

/// The first octets of the packet, at most so many.
fn cut(alloc: Global, packet: &[u8], octets: usize) -> Result<Vec<u8>, AllocError> {
    packet.split_at(packet.len().min(octets)).0.to_vec(alloc)
}

/// Adds what is delivered of a packet: in four turns of six itself, in some of these beside one that is
/// refused.
fn deliver(
    alloc: Global,
    list: &mut Vec<Vec<u8>>,
    turn: usize,
    packet: &[u8],
) -> Result<(), AllocError> {
    if let Some(before) = before(alloc, turn, packet)? {
        list.push(before)?;
    }
    list.push(last(alloc, turn, packet)?)?;
    Ok(())
}

/// What is delivered first, in half of the turns.
fn before(alloc: Global, turn: usize, packet: &[u8]) -> Result<Option<Vec<u8>>, AllocError> {
    let before = match turn % 6 {
        0 => damaged(alloc, packet, 8 + turn % 20),
        1 => packet.to_vec(alloc),
        2 => cut(alloc, packet, 28),
        _ => return Ok(None),
    };
    Ok(Some(before?))
}

/// What is delivered last.
fn last(alloc: Global, turn: usize, packet: &[u8]) -> Result<Vec<u8>, AllocError> {
    match turn % 6 {
        3 => cut(alloc, packet, 3),
        4 => damaged(alloc, packet, 7),
        _ => packet.to_vec(alloc),
    }
}

/// The packets out of order, some of them repeated, damaged or cut.
fn muddled(alloc: Global, packets: &[Vec<u8>], stride: usize) -> Result<Vec<Vec<u8>>, AllocError> {
    let mut list = Vec::new(alloc);
    let mut place: usize = 0;
    for turn in 0..packets.len() {
        if let Some(packet) = packets.get(place) {
            deliver(alloc, &mut list, turn, packet)?;
        }
        place = place
            .saturating_add(stride)
            .checked_rem(packets.len())
            .unwrap_or(0);
    }
    Ok(list)
}

/// So many packets after a number, of several lengths in turn, muddled.
fn deliveries(
    alloc: Global,
    numbers: Numbers,
    last: u64,
    count: usize,
    stride: usize,
) -> Result<Vec<Vec<u8>>, Fail> {
    let packets = packets_after(alloc, numbers, last, &[64, 0, 33, 340, 18], count)?;
    Ok(muddled(alloc, &packets, stride)?)
}

/// So many packets after a number, of these lengths in turn.
fn packets_after(
    alloc: Global,
    numbers: Numbers,
    last: u64,
    lengths: &[usize],
    count: usize,
) -> Result<Vec<Vec<u8>>, Fail> {
    let text = text(alloc)?;
    let list = payloads(alloc, &text, lengths, count)?;
    packets(alloc, sender(numbers, last), &list)
}

/// The first count of packets at which a list is opened otherwise than one by one, or not all of it is
/// handed up.
fn first_count_that_differs(alloc: Global, counts: Range<usize>) -> Result<Option<usize>, Fail> {
    let mut pair = Pair::new(alloc, Numbers::Extended)?;
    let mut last = 6;
    for count in counts {
        if outcome_after(alloc, &mut pair, last, count)? != (Outcome::Same { up: count }) {
            return Ok(Some(count));
        }
        last = last.saturating_add(count as u64);
    }
    Ok(None)
}

/// What comes of so many packets after a number.
fn outcome_after(alloc: Global, pair: &mut Pair, last: u64, count: usize) -> Result<Outcome, Fail> {
    let packets = packets_after(alloc, Numbers::Extended, last, &[0, 41], count)?;
    pair.open(alloc, &packets)
}

#[test]
fn opens_each_count_up_to_70(rt: HostRuntime) -> Result<(), Fail> {
    same(&rt, first_count_that_differs(rt.alloc(), 0..71)?, None);
    Ok(())
}

#[test]
fn opens_each_count_from_71(rt: HostRuntime) -> Result<(), Fail> {
    same(&rt, first_count_that_differs(rt.alloc(), 71..101)?, None);
    Ok(())
}

/// What comes of 60 packets out of order.
fn outcome_of_muddled(alloc: Global, numbers: Numbers) -> Result<Outcome, Fail> {
    let list = deliveries(alloc, numbers, 6, 60, 7)?;
    Pair::new(alloc, numbers)?.open(alloc, &list)
}

// Of 60 packets four in six are handed up: none of them is out of reach.
#[test]
fn opens_muddled_lists(rt: HostRuntime) -> Result<(), Fail> {
    let short = outcome_of_muddled(rt.alloc(), Numbers::Short)?;
    let extended = outcome_of_muddled(rt.alloc(), Numbers::Extended)?;
    let wanted = Outcome::Same { up: 40 };
    same(&rt, (short, extended), (wanted, wanted));
    Ok(())
}

/// What comes of two lists that a pair is handed one after the other.
fn outcomes(
    alloc: Global,
    numbers: Numbers,
    first: &[Vec<u8>],
    second: &[Vec<u8>],
) -> Result<(Outcome, Outcome), Fail> {
    let mut pair = Pair::new(alloc, numbers)?;
    let of_first = pair.open(alloc, first)?;
    let of_second = pair.open(alloc, second)?;
    Ok((of_first, of_second))
}

// Of so many packets out of order some are older than the window.
#[test]
fn opens_lists_with_old_packets(rt: HostRuntime) -> Result<(), Fail> {
    let list = deliveries(rt.alloc(), Numbers::Short, 6, 130, 77)?;
    let (outcome, again) = outcomes(rt.alloc(), Numbers::Short, &list, &list)?;
    same(&rt, matches!(outcome, Outcome::Same { .. }), true);
    // What one end took the other took.
    same(&rt, again, Outcome::Same { up: 0 });
    Ok(())
}

/// What comes of the packet 2^32 - 100, and then of 60 packets out of order from 2^32 - 29 on.
fn outcomes_across_a_round(alloc: Global) -> Result<(Outcome, Outcome), Fail> {
    let first = numbered(alloc, Numbers::Extended, &[ROUND - 100])?;
    let list = deliveries(alloc, Numbers::Extended, ROUND - 30, 60, 7)?;
    outcomes(alloc, Numbers::Extended, &first, &list)
}

#[test]
fn opens_lists_across_a_round(rt: HostRuntime) -> Result<(), Fail> {
    let found = outcomes_across_a_round(rt.alloc())?;
    same(
        &rt,
        found,
        (Outcome::Same { up: 1 }, Outcome::Same { up: 40 }),
    );
    Ok(())
}

/// What comes of packet 100, and then of packets with these numbers.
fn outcomes_behind_100(
    alloc: Global,
    numbers: Numbers,
    list: &[u64],
) -> Result<(Outcome, Outcome), Fail> {
    let first = numbered(alloc, numbers, &[100])?;
    let list = numbered(alloc, numbers, list)?;
    outcomes(alloc, numbers, &first, &list)
}

// The sixth packet moves the window so far that from then on the low half 50 stands for 2^32 + 50, and
// no more for 50 as at the list's head. So what was sealed under 60 and 99 has another number at its
// turn, for which its check value is wrong.
#[test]
fn recovers_another_number_at_its_turn(rt: HostRuntime) -> Result<(), Fail> {
    let list = [
        101,
        102,
        103,
        104,
        105,
        ROUND - 10,
        ROUND + 50,
        60,
        ROUND,
        99,
    ];
    let found = outcomes_behind_100(rt.alloc(), Numbers::Extended, &list)?;
    same(
        &rt,
        found,
        (Outcome::Same { up: 1 }, Outcome::Same { up: 8 }),
    );
    Ok(())
}

// The numbers 90 and 91 lie inside the window when the list begins, and below it at their turn.
#[test]
fn finds_packets_old_at_their_turn(rt: HostRuntime) -> Result<(), Fail> {
    let list = [101, 102, 103, 92, 300, 90, 91, 299];
    let found = outcomes_behind_100(rt.alloc(), Numbers::Short, &list)?;
    same(
        &rt,
        found,
        (Outcome::Same { up: 1 }, Outcome::Same { up: 6 }),
    );
    Ok(())
}

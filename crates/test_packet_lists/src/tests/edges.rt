//! Payloads of every length at which one block more is hashed, sealed at once and one by one, and their
//! packets opened so.
use super::asserts::same;
use super::fixture::{IPV4, MOST, Numbers, Receiver, joined, packets, payloads, sender, text};
use std::alloc::Global;
use std::ops::Range;
use std::test::Fail;

/// Lengths about the edges of these blocks. Check values cover ten octets beside a payload and its
/// padding, fourteen with extended numbers, and nine end the message: so 42 octets fill a block and 43
/// don't fit into it, or 38 and 39.
fn lengths(alloc: Global, numbers: Numbers, blocks: Range<usize>) -> Result<Vec<usize>, Fail> {
    let full = match numbers {
        Numbers::Extended => 38,
        Numbers::Short => 42,
    };
    let mut lengths = Vec::new(alloc);
    for block in blocks {
        let length = block.saturating_mul(64).min(MOST) + full;
        lengths.push(length.min(MOST))?;
        lengths.push((length + 1).min(MOST))?;
    }
    Ok(lengths)
}

/// How many packets of such lengths are handed up, opened at once; `None` where those that are sealed
/// at once are others than those that are sealed one by one.
fn opened(alloc: Global, numbers: Numbers, blocks: Range<usize>) -> Result<Option<usize>, Fail> {
    let text = text(alloc)?;
    let lengths = lengths(alloc, numbers, blocks)?;
    let list = payloads(alloc, &text, &lengths, lengths.len())?;
    opened_of(alloc, numbers, &list)
}

/// The same of a list of payloads.
fn opened_of(alloc: Global, numbers: Numbers, list: &[&[u8]]) -> Result<Option<usize>, Fail> {
    let packets = packets(alloc, sender(numbers, 6), list)?;
    if are_sealed_at_once(alloc, numbers, list, &packets)? {
        Ok(Some(handed_up(alloc, numbers, &packets)?))
    } else {
        Ok(None)
    }
}

/// Whether a list sealed at once comes to these packets.
fn are_sealed_at_once(
    alloc: Global,
    numbers: Numbers,
    list: &[&[u8]],
    packets: &[Vec<u8>],
) -> Result<bool, Fail> {
    let mut at_once = Vec::new(alloc);
    sender(numbers, 6).seal_all(IPV4, list, &mut at_once)?;
    Ok(at_once == joined(alloc, packets)?)
}

/// How many packets a new receiver hands up.
fn handed_up(alloc: Global, numbers: Numbers, packets: &[Vec<u8>]) -> Result<usize, Fail> {
    Receiver::new(alloc, numbers)?.count_up(alloc, packets)
}

#[test]
fn first_blocks(rt: HostRuntime) -> Result<(), Fail> {
    let extended = opened(rt.alloc(), Numbers::Extended, 0..64)?;
    let short = opened(rt.alloc(), Numbers::Short, 0..64)?;
    same(&rt, (extended, short), (Some(128), Some(128)));
    Ok(())
}

#[test]
fn blocks_from_64(rt: HostRuntime) -> Result<(), Fail> {
    let up = opened(rt.alloc(), Numbers::Extended, 64..112)?;
    same(&rt, up, Some(96));
    Ok(())
}

#[test]
fn blocks_from_112(rt: HostRuntime) -> Result<(), Fail> {
    let up = opened(rt.alloc(), Numbers::Short, 112..148)?;
    same(&rt, up, Some(72));
    Ok(())
}

#[test]
fn blocks_from_148(rt: HostRuntime) -> Result<(), Fail> {
    let up = opened(rt.alloc(), Numbers::Extended, 148..178)?;
    same(&rt, up, Some(60));
    Ok(())
}

#[test]
fn blocks_from_178(rt: HostRuntime) -> Result<(), Fail> {
    let up = opened(rt.alloc(), Numbers::Short, 178..204)?;
    same(&rt, up, Some(52));
    Ok(())
}

#[test]
fn blocks_from_204(rt: HostRuntime) -> Result<(), Fail> {
    let up = opened(rt.alloc(), Numbers::Extended, 204..228)?;
    same(&rt, up, Some(48));
    Ok(())
}

#[test]
fn blocks_from_228(rt: HostRuntime) -> Result<(), Fail> {
    let up = opened(rt.alloc(), Numbers::Short, 228..243)?;
    same(&rt, up, Some(30));
    Ok(())
}

#[test]
fn blocks_from_243(rt: HostRuntime) -> Result<(), Fail> {
    let up = opened(rt.alloc(), Numbers::Extended, 243..257)?;
    same(&rt, up, Some(28));
    Ok(())
}

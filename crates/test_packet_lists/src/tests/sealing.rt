//! Lists that are sealed by one call, beside as many calls for one payload.
use super::asserts::same;
use super::fixture::{MOST, Numbers, ROUND, Sealed, at_once, one_by_one, payloads, sender, text};
use esp::EspFault;
use std::alloc::{AllocError, Global};
use std::ops::Range;
use std::test::Fail;

/// Whether a list sealed at once is another than the same sealed one by one.
fn differs(alloc: Global, numbers: Numbers, last: u64, list: &[&[u8]]) -> bool {
    one_by_one(alloc, sender(numbers, last), list) != at_once(alloc, sender(numbers, last), list)
}

/// The first count of payloads, of these lengths in turn, at which a list is another.
fn first_count_that_differs(
    alloc: Global,
    numbers: Numbers,
    lengths: &[usize],
    counts: Range<usize>,
) -> Result<Option<usize>, AllocError> {
    let text = text(alloc)?;
    for count in counts {
        let list = payloads(alloc, &text, lengths, count)?;
        if differs(alloc, numbers, 6, &list) {
            return Ok(Some(count));
        }
    }
    Ok(None)
}

#[test]
fn seals_each_count_up_to_70(rt: HostRuntime) -> Result<(), Fail> {
    let mixed = first_count_that_differs(rt.alloc(), Numbers::Extended, &[0, 33, 41], 0..71)?;
    same(&rt, mixed, None);
    Ok(())
}

#[test]
fn seals_each_count_from_71(rt: HostRuntime) -> Result<(), Fail> {
    let mixed = first_count_that_differs(rt.alloc(), Numbers::Short, &[60, 0, 11], 71..101)?;
    same(&rt, mixed, None);
    Ok(())
}

/// The first place at which lists of 70 payloads are not stopped as one by one, if numbers are
/// exhausted there.
fn first_exhaustion_that_differs(
    alloc: Global,
    numbers: Numbers,
    greatest: u64,
) -> Result<Option<u64>, AllocError> {
    let text = text(alloc)?;
    let list = payloads(alloc, &text, &[3, 40], 70)?;
    for left in &[0, 1, 5, 7, 8, 9, 63, 64, 65, 69, 70, 71] {
        if differs(alloc, numbers, greatest.saturating_sub(*left), &list) {
            return Ok(Some(*left));
        }
    }
    Ok(None)
}

#[test]
fn stops_where_numbers_are_exhausted(rt: HostRuntime) -> Result<(), Fail> {
    let short = first_exhaustion_that_differs(rt.alloc(), Numbers::Short, ROUND - 1)?;
    let extended = first_exhaustion_that_differs(rt.alloc(), Numbers::Extended, u64::MAX)?;
    same(&rt, (short, extended), (None, None));
    let crossing = first_exhaustion_that_differs(rt.alloc(), Numbers::Extended, ROUND)?;
    same(&rt, crossing, None);
    Ok(())
}

/// The first place at which lists of 70 payloads are not stopped as one by one, if the payload there is
/// too long.
fn first_long_payload_that_differs(alloc: Global) -> Result<Option<usize>, AllocError> {
    let text = text(alloc)?;
    for place in &[0, 1, 5, 7, 8, 9, 63, 64, 65, 69] {
        if differs_where_one_is_long(alloc, &text, *place)? {
            return Ok(Some(*place));
        }
    }
    Ok(None)
}

/// Whether a list is another whose payload at this place is too long.
fn differs_where_one_is_long(alloc: Global, text: &[u8], place: usize) -> Result<bool, AllocError> {
    let mut list = payloads(alloc, text, &[10, 50], 70)?;
    if let Some(payload) = list.get_mut(place) {
        *payload = text.split_at(text.len().min(MOST + 1)).0;
    }
    Ok(differs(alloc, Numbers::Extended, 6, &list))
}

#[test]
fn stops_at_a_payload_that_is_too_long(rt: HostRuntime) -> Result<(), Fail> {
    same(&rt, first_long_payload_that_differs(rt.alloc())?, None);
    Ok(())
}

// What both ways are compared by tells a stop from none, and how far they came.
#[test]
fn tells_where_it_stopped(rt: HostRuntime) -> Result<(), Fail> {
    let sealed = stopped(rt.alloc())?;
    same(&rt, sealed.stop, Some((40, EspFault::Exhausted)));
    same(&rt, (sealed.next, sealed.octets.len()), (None, 40 * 32));
    Ok(())
}

/// What comes of 70 payloads where 40 numbers are left.
fn stopped(alloc: Global) -> Result<Sealed, AllocError> {
    let text = text(alloc)?;
    let list = payloads(alloc, &text, &[3], 70)?;
    Ok(at_once(alloc, sender(Numbers::Short, ROUND - 41), &list))
}

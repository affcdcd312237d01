//! Traffic selectors (RFC 7296 section 3.13.1).

ghost use Rattle.std.specs.Prelude.{◌≡◌, length, IfErr};
ghost use Rattle.wire.specs.Reading.{Gives, Reads, each_of, is_counted, is_in_order, range_of, selector_at, selectors_of};
ghost use Rattle.wire.specs.Selectors.{selector_type};
ghost use Rattle.wire.specs.Writing.{Writes, each_onto, inside_onto, range_onto, selector_onto, selectors_onto};

use crate::numbers::{
    IPV4_RANGE_LENGTH, IPV4_RANGE_TYPE, IPV6_RANGE_LENGTH, IPV6_RANGE_TYPE, SELECTOR_LIMIT,
};
use crate::reader::{Reader, Unread};
use crate::writer::{Unwritten, close_part, open_part, push_octets, push_u16, push_u32, push_u128};
use base::{Items, Range, Selector};
use std::alloc::Global;

// The range that a selector of this type has: both its ends, and nothing behind them.
#[tactic(auto, unfolding(crate::specs::Reading::range_of, crate::specs::Reading::range_at))]
fn read_range(kind: u8, mut ends: Reader) -> Result<Range, Unread>
    ensures read { Gives (λ x. x) result (range_of kind ends.entry.rest.now) }
    ensures free { IfErr result (λ e. e ≡ Unread.Malformed) }
{
    let range = match kind {
        IPV4_RANGE_TYPE => Range::V4(ends.u32()?, ends.u32()?),
        IPV6_RANGE_TYPE => Range::V6(ends.u128()?, ends.u128()?),
        _ => return Err(Unread::Malformed),
    };
    if ends.is_empty() {
        Ok(range)
    } else {
        Err(Unread::Malformed)
    }
}

// Whether no start is above its end.
fn is_in_order(selector: &Selector) -> bool
    ensures { result ≡ is_in_order selector.now }
{
    selector.start_port <= selector.end_port && selector.addresses.is_ordered()
}

#[tactic(auto, unfolding(crate::specs::Reading::selector_at))]
pub(crate) fn read_selector(list: &mut Reader) -> Result<Selector, Unread>
    ensures read { Reads (λ x. x) list.new.rest.now result (selector_at list.old.rest.now) }
    ensures end { list.new.end ≡ list.old.end }
    ensures free { IfErr result (λ e. e ≡ Unread.Malformed) }
{
    let part = list.part()?;
    let mut inside = part.inside;
    let start_port = inside.u16()?;
    let end_port = inside.u16()?;
    let addresses = read_range(part.first, inside)?;
    let selector = Selector {
        protocol: part.second,
        start_port,
        end_port,
        addresses,
    };
    if is_in_order(&selector) {
        Ok(selector)
    } else {
        Err(Unread::Malformed)
    }
}

fn read_list(alloc: Global, mut list: Reader) -> Result<Items<Selector>, Unread>
    ensures { Gives (λ x. x) result (each_of selector_at (length list.entry.rest.now) list.entry.rest.now) }
{
    let mut selectors = Items::new(alloc);
    while !list.is_empty() {
        selectors.push(read_selector(&mut list)?)?;
    }
    Ok(selectors)
}

// Whether so many selectors of either family can have so many octets.
pub(crate) fn is_counted(count: u8, length: usize) -> bool
    ensures { result ≡ is_counted count length }
{
    let count = usize::from(count);
    count >= 1
        && count <= SELECTOR_LIMIT
        && IPV4_RANGE_LENGTH * count <= length
        && length <= IPV6_RANGE_LENGTH * count
}

// The inside of a payload of traffic selectors. What its count rules out is not read.
#[tactic(auto, unfolding(crate::specs::Reading::selectors_of))]
pub(crate) fn read_selectors(alloc: Global, mut body: Reader) -> Result<Items<Selector>, Unread>
    ensures { Gives (λ x. x) result (selectors_of body.entry.rest.now) }
{
    let count = body.u8()?;
    body.octets(3)?;
    if !is_counted(count, body.rest.len()) {
        return Err(Unread::Malformed);
    }
    let selectors = read_list(alloc, body)?;
    if selectors.len() == usize::from(count) {
        Ok(selectors)
    } else {
        Err(Unread::Malformed)
    }
}

// The type of a selector with this range.
fn selector_type(range: Range) -> u8
    ensures { result ≡ selector_type range }
{
    match range {
        Range::V4(_, _) => IPV4_RANGE_TYPE,
        Range::V6(_, _) => IPV6_RANGE_TYPE,
    }
}

#[tactic(auto, unfolding(crate::specs::Writing::range_onto))]
fn write_range(range: Range, out: &mut Vec<u8>) -> Result<(), Unwritten>
    ensures { Writes out.new.items result (range_onto range out.old.items) }
{
    match range {
        Range::V4(start, end) => {
            push_u32(out, start)?;
            push_u32(out, end)
        }
        Range::V6(start, end) => {
            push_u128(out, start)?;
            push_u128(out, end)
        }
    }
}

#[tactic(auto, unfolding(crate::specs::Writing::inside_onto))]
fn write_inside(selector: &Selector, out: &mut Vec<u8>) -> Result<(), Unwritten>
    ensures { Writes out.new.items result (inside_onto selector.now out.old.items) }
{
    push_u16(out, selector.start_port)?;
    push_u16(out, selector.end_port)?;
    write_range(selector.addresses, out)
}

#[tactic(auto, unfolding(crate::specs::Writing::selector_onto))]
fn write_selector(selector: &Selector, out: &mut Vec<u8>) -> Result<(), Unwritten>
    ensures { Writes out.new.items result (selector_onto selector.now out.old.items) }
{
    if !is_in_order(selector) {
        return Err(Unwritten::Unspelled);
    }
    let start = out.len();
    open_part(out, selector_type(selector.addresses), selector.protocol)?;
    write_inside(selector, out)?;
    close_part(out, start)
}

fn write_list(selectors: &[Selector], out: &mut Vec<u8>) -> Result<(), Unwritten>
    ensures { Writes out.new.items result (each_onto selector_onto selectors.now out.old.items) }
{
    for selector in selectors {
        write_selector(selector, out)?;
    }
    Ok(())
}

// The inside of a payload of traffic selectors.
#[tactic(auto, unfolding(crate::specs::Writing::selectors_onto))]
pub(crate) fn write_selectors(selectors: &[Selector], out: &mut Vec<u8>) -> Result<(), Unwritten>
    ensures { Writes out.new.items result (selectors_onto selectors.now out.old.items) }
{
    if selectors.is_empty() || selectors.len() > SELECTOR_LIMIT {
        return Err(Unwritten::Unspelled);
    }
    push_octets(out, &[selectors.len() as u8, 0, 0, 0])?;
    write_list(selectors, out)
}

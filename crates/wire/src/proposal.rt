//! Proposals of an SA payload (RFC 7296 section 3.3).
ghost use Rattle.std.specs.Prelude.{◌≡◌, ◌==◌, length, true, IfErr};
ghost use Rattle.wire.specs.Numbers.{MORE_PROPOSALS, MORE_TRANSFORMS};
ghost use Rattle.wire.specs.Reading.{Gives, Reads, each_of, marked_of, attribute_at, goes_on, transform_of, proposal_of, proposals_of, are_numbered, numbered_from};
ghost use Rattle.wire.specs.Writing.{Writes, each_onto, marked_from, marked_onto, attribute_onto, transform_onto, proposal_onto, proposals_onto};

use crate::numbers::{MORE_PROPOSALS, MORE_TRANSFORMS};
use crate::reader::{Reader, Unread};
use crate::writer::{Unwritten, close_part, mark_at, open_part, push_octets, push_u16};
use base::Items;
use std::alloc::Global;

/// A proposal (section 3.3.1): its number, the protocol, the sender's SPI of up to 255 octets, and 1 to 255
/// transforms.
#[derive(Clone, Debug, PartialEq, Eq, Drop)]
pub struct Proposal {
    pub number: u8,
    pub protocol: u8,
    pub spi: Items<u8>,
    pub transforms: Items<Transform>,
}

/// A transform (section 3.3.2): its type, its ID under that type, and its attributes.
#[derive(Clone, Debug, PartialEq, Eq, Drop)]
pub struct Transform {
    pub kind: u8,
    pub id: u16,
    pub attributes: Items<Attribute>,
}

/// An attribute of a transform (section 3.3.5). Its type is below 2^15.
#[derive(Clone, Debug, PartialEq, Eq, Drop)]
pub enum Attribute {
    /// The short form: a value of two octets.
    Short { kind: u16, value: u16 },
    /// The long form: a value of up to 65,535 octets.
    Long { kind: u16, value: Items<u8> },
}

// The top bit of an attribute's type, which tells the short form (section 3.3.5).
pub(crate) const SHORT_FORM: u16 = 0x8000;

#[tactic(auto, unfolding(crate::specs::Reading::attribute_at))]
fn read_attribute(alloc: Global, list: &mut Reader) -> Result<Attribute, Unread>
    ensures read { Reads (λ x. x) list.new.rest.now result (attribute_at list.old.rest.now) }
    ensures end { list.new.end ≡ list.old.end }
{
    let kind = list.u16()?;
    let value = list.u16()?;
    if kind >= SHORT_FORM {
        return Ok(Attribute::Short {
            kind: kind - SHORT_FORM,
            value,
        });
    }
    let value = Items::from_slice(alloc, list.octets(usize::from(value))?)?;
    Ok(Attribute::Long { kind, value })
}

fn read_attributes(alloc: Global, mut list: Reader) -> Result<Items<Attribute>, Unread>
    ensures { Gives (λ x. x) result (each_of attribute_at (length list.entry.rest.now) list.entry.rest.now) }
{
    let mut attributes = Items::new(alloc);
    while !list.is_empty() {
        attributes.push(read_attribute(alloc, &mut list)?)?;
    }
    Ok(attributes)
}

#[tactic(auto, unfolding(crate::specs::Reading::transform_of))]
fn read_transform(alloc: Global, mut inside: Reader) -> Result<Transform, Unread>
    ensures { Gives (λ x. x) result (transform_of inside.entry.rest.now) }
{
    let kind = inside.u8()?;
    inside.u8()?;
    let id = inside.u16()?;
    let attributes = read_attributes(alloc, inside)?;
    Ok(Transform {
        kind,
        id,
        attributes,
    })
}

// Whether another part follows one with this mark.
pub(crate) fn goes_on(more: u8, mark: u8) -> Result<bool, Unread>
    ensures read { Gives (λ x. x) result (goes_on more mark) }
    ensures free { IfErr result (λ e. e ≡ Unread.Malformed) }
{
    if mark == 0 {
        Ok(false)
    } else if mark == more {
        Ok(true)
    } else {
        Err(Unread::Malformed)
    }
}

fn read_transforms(alloc: Global, mut list: Reader) -> Result<Items<Transform>, Unread>
    ensures { Gives (λ x. x) result
        (marked_of MORE_TRANSFORMS transform_of (length list.entry.rest.now) true list.entry.rest.now) }
{
    let mut transforms = Items::new(alloc);
    let mut another = true;
    while another {
        let part = list.part()?;
        another = goes_on(MORE_TRANSFORMS, part.first)?;
        transforms.push(read_transform(alloc, part.inside)?)?;
    }
    if list.is_empty() {
        Ok(transforms)
    } else {
        Err(Unread::Malformed)
    }
}

#[tactic(auto, unfolding(crate::specs::Reading::proposal_of))]
fn read_proposal(alloc: Global, mut inside: Reader) -> Result<Proposal, Unread>
    ensures { Gives (λ x. x) result (proposal_of inside.entry.rest.now) }
{
    let number = inside.u8()?;
    let protocol = inside.u8()?;
    let size = inside.u8()?;
    let count = inside.u8()?;
    let spi = Items::from_slice(alloc, inside.octets(usize::from(size))?)?;
    let transforms = read_transforms(alloc, inside)?;
    if transforms.len() == usize::from(count) {
        Ok(Proposal {
            number,
            protocol,
            spi,
            transforms,
        })
    } else {
        Err(Unread::Malformed)
    }
}

fn read_list(alloc: Global, mut list: Reader) -> Result<Items<Proposal>, Unread>
    ensures { Gives (λ x. x) result
        (marked_of MORE_PROPOSALS proposal_of (length list.entry.rest.now) true list.entry.rest.now) }
{
    let mut proposals = Items::new(alloc);
    let mut another = true;
    while another {
        let part = list.part()?;
        another = goes_on(MORE_PROPOSALS, part.first)?;
        proposals.push(read_proposal(alloc, part.inside)?)?;
    }
    if list.is_empty() {
        Ok(proposals)
    } else {
        Err(Unread::Malformed)
    }
}

// Whether the numbers are 1, 2, 3, ..
fn count_from_one(proposals: &[Proposal]) -> bool
    ensures { result ≡ numbered_from 1 proposals.now }
{
    for (place, proposal) in proposals.iter().enumerate() {
        if usize::from(proposal.number) != place + 1 {
            return false;
        }
    }
    true
}

// Whether a lone proposal has a number from 1, and more have 1, 2, 3, ..
fn are_numbered(proposals: &[Proposal]) -> bool
    ensures { result ≡ are_numbered proposals.now }
{
    match proposals {
        [] => false,
        [lone] => lone.number >= 1,
        _ => count_from_one(proposals),
    }
}

// The inside of an SA payload.
#[tactic(auto, unfolding(crate::specs::Reading::proposals_of))]
pub(crate) fn read_proposals(alloc: Global, body: Reader) -> Result<Items<Proposal>, Unread>
    ensures { Gives (λ x. x) result (proposals_of body.entry.rest.now) }
{
    let proposals = read_list(alloc, body)?;
    if are_numbered(proposals.as_slice()) {
        Ok(proposals)
    } else {
        Err(Unread::Malformed)
    }
}

#[tactic(auto, unfolding(crate::specs::Writing::attribute_onto))]
fn write_attribute(attribute: &Attribute, out: &mut Vec<u8>) -> Result<(), Unwritten>
    ensures { Writes out.new.items result (attribute_onto attribute.now out.old.items) }
{
    match attribute {
        Attribute::Short { kind, value } => {
            if *kind >= SHORT_FORM {
                return Err(Unwritten::Unspelled);
            }
            push_u16(out, SHORT_FORM + *kind)?;
            push_u16(out, *value)
        }
        Attribute::Long { kind, value } => {
            if *kind >= SHORT_FORM || value.len() > 0xffff {
                return Err(Unwritten::Unspelled);
            }
            push_u16(out, *kind)?;
            push_u16(out, value.len() as u16)?;
            push_octets(out, value.as_slice())
        }
    }
}

fn write_attributes(attributes: &[Attribute], out: &mut Vec<u8>) -> Result<(), Unwritten>
    ensures { Writes out.new.items result (each_onto attribute_onto attributes.now out.old.items) }
{
    for attribute in attributes {
        write_attribute(attribute, out)?;
    }
    Ok(())
}

#[tactic(auto, unfolding(crate::specs::Writing::transform_onto))]
fn write_transform(transform: &Transform, out: &mut Vec<u8>) -> Result<(), Unwritten>
    ensures { Writes out.new.items result (transform_onto transform.now out.old.items) }
{
    push_octets(out, &[transform.kind, 0])?;
    push_u16(out, transform.id)?;
    write_attributes(transform.attributes.as_slice(), out)
}

fn write_transforms(transforms: &[Transform], out: &mut Vec<u8>) -> Result<(), Unwritten>
    ensures { Writes out.new.items result
        (marked_from MORE_TRANSFORMS transform_onto transforms.now out.old.items) }
{
    for (place, transform) in transforms.iter().enumerate() {
        let start = out.len();
        let mark = mark_at(place, transforms.len(), MORE_TRANSFORMS);
        open_part(out, mark, 0)?;
        write_transform(transform, out)?;
        close_part(out, start)?;
    }
    Ok(())
}

#[tactic(auto, unfolding(crate::specs::Writing::proposal_onto))]
fn write_proposal(proposal: &Proposal, out: &mut Vec<u8>) -> Result<(), Unwritten>
    ensures { Writes out.new.items result (proposal_onto proposal.now out.old.items) }
{
    let spi = proposal.spi.as_slice();
    let transforms = proposal.transforms.as_slice();
    if spi.len() > 255 || transforms.len() > 255 || transforms.is_empty() {
        return Err(Unwritten::Unspelled);
    }
    push_octets(
        out,
        &[
            proposal.number,
            proposal.protocol,
            spi.len() as u8,
            transforms.len() as u8,
        ],
    )?;
    push_octets(out, spi)?;
    write_transforms(transforms, out)
}

fn write_list(proposals: &[Proposal], out: &mut Vec<u8>) -> Result<(), Unwritten>
    ensures { Writes out.new.items result
        (marked_from MORE_PROPOSALS proposal_onto proposals.now out.old.items) }
{
    for (place, proposal) in proposals.iter().enumerate() {
        let start = out.len();
        let mark = mark_at(place, proposals.len(), MORE_PROPOSALS);
        open_part(out, mark, 0)?;
        write_proposal(proposal, out)?;
        close_part(out, start)?;
    }
    Ok(())
}

// The inside of an SA payload.
#[tactic(auto, unfolding(crate::specs::Writing::proposals_onto))]
pub(crate) fn write_proposals(proposals: &[Proposal], out: &mut Vec<u8>) -> Result<(), Unwritten>
    ensures { Writes out.new.items result (proposals_onto proposals.now out.old.items) }
{
    if proposals.is_empty() || !are_numbered(proposals) {
        return Err(Unwritten::Unspelled);
    }
    write_list(proposals, out)
}

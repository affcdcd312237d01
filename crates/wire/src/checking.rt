//! Whether octets are in the grammar of RFC 7296 section 3, found before anything is read into memory. So what
//! is not in the grammar has its own refusal, whatever memory there is.
ghost use Rattle.std.specs.Prelude.{◌≡◌, ◌+◌, ◌<◌, ◌^◌, ◌++◌, ◌∷◌, [], List, length, true, ℕ};
ghost use Rattle.wire.specs.declared.proposal.Proposal.{Proposal};
ghost use Rattle.wire.specs.Numbers.{MORE_PROPOSALS, MORE_TRANSFORMS};
ghost use Rattle.wire.specs.Reading.{Allows, Checks, Finds, Leaves, Passes, are_numbered, attribute_at, body_of, chain_at, delete_of, each_of, marked_of, numbers_of, payload_at, proposal_of, proposals_of, selector_at, selectors_of, transform_of};

use crate::deletions::is_sized;
use crate::fault::WireFault;
use crate::fields::{key_exchange, nonce, typed};
use crate::form::Form;
use crate::notices::notify;
use crate::numbers::{
    AUTHENTICATION_LIMIT, IDENTITY_LIMIT, MORE_PROPOSALS, MORE_TRANSFORMS, NO_PAYLOAD, SPI_LENGTH,
};
use crate::proposal::{SHORT_FORM, goes_on};
use crate::reader::{Part, Reader, Unread};
use crate::selector::{is_counted, read_selector};

#[tactic(auto, unfolding(crate::specs::Reading::attribute_at))]
fn pass_attribute(list: &mut Reader) -> Result<(), Unread>
    ensures { Leaves list.new.rest.now result (attribute_at list.old.rest.now) }
{
    let kind = list.u16()?;
    let value = list.u16()?;
    if kind < SHORT_FORM {
        list.octets(usize::from(value))?;
    }
    Ok(())
}

fn check_attributes(mut list: Reader) -> Result<(), Unread>
    ensures { Checks result (each_of attribute_at (length list.entry.rest.now) list.entry.rest.now) }
{
    while !list.is_empty() {
        pass_attribute(&mut list)?;
    }
    Ok(())
}

#[tactic(auto, unfolding(crate::specs::Reading::transform_of))]
fn check_transform(mut inside: Reader) -> Result<(), Unread>
    ensures { Checks result (transform_of inside.entry.rest.now) }
{
    inside.u8()?;
    inside.u8()?;
    inside.u16()?;
    check_attributes(inside)
}

// How many transforms there are.
fn count_transforms(mut list: Reader) -> Result<usize, Unread>
    ensures { Finds (λ transforms. length transforms) result
        (marked_of MORE_TRANSFORMS transform_of (length list.entry.rest.now) true list.entry.rest.now) }
{
    let mut count = 0;
    let mut another = true;
    while another {
        let part = list.part()?;
        another = goes_on(MORE_TRANSFORMS, part.first)?;
        check_transform(part.inside)?;
        count += 1;
    }
    if list.is_empty() {
        Ok(count)
    } else {
        Err(Unread::Malformed)
    }
}

// The number of a proposal.
#[tactic(auto, unfolding(crate::specs::Reading::proposal_of))]
fn check_proposal(mut inside: Reader) -> Result<u8, Unread>
    ensures { Finds (λ proposal. proposal.number) result (proposal_of inside.entry.rest.now) }
{
    let number = inside.u8()?;
    inside.u8()?;
    let size = inside.u8()?;
    let count = inside.u8()?;
    inside.octets(usize::from(size))?;
    if count_transforms(inside)? == usize::from(count) {
        Ok(number)
    } else {
        Err(Unread::Malformed)
    }
}

// What is asked of the numbers of some proposals: how many there are, the last one, and whether they are
// 1, 2, 3 and so on.
#[derive(Clone, Copy)]
struct Numbers {
    count: usize,
    last: u8,
    in_order: bool,
}

// The numbers with one more behind them.
fn with_number(numbers: Numbers, number: u8) -> Numbers
    requires { numbers.count < 2 ^ 63 }
    ensures more { result.count ≡ numbers.count + 1 }
    ensures sees { (before : List Proposal) (proposal : Proposal) → numbers_of before ≡ numbers → proposal.number ≡ number
        → numbers_of (before ++ proposal ∷ []) ≡ result }
{
    let count = numbers.count + 1;
    Numbers {
        count,
        last: number,
        in_order: numbers.in_order && usize::from(number) == count,
    }
}

// Whether a lone proposal has a number above 0, and several have the numbers 1, 2, 3 and so on.
fn are_numbered(numbers: Numbers) -> bool
    ensures { (proposals : List Proposal) → numbers_of proposals ≡ numbers → result ≡ are_numbered proposals }
{
    match numbers.count {
        0 => false,
        1 => numbers.last >= 1,
        _ => numbers.in_order,
    }
}

fn list_numbers(mut list: Reader) -> Result<Numbers, Unread>
    ensures { Finds numbers_of result
        (marked_of MORE_PROPOSALS proposal_of (length list.entry.rest.now) true list.entry.rest.now) }
{
    let mut numbers = Numbers {
        count: 0,
        last: 0,
        in_order: true,
    };
    let mut another = true;
    while another {
        let part = list.part()?;
        another = goes_on(MORE_PROPOSALS, part.first)?;
        let number = check_proposal(part.inside)?;
        numbers = with_number(numbers, number);
    }
    if list.is_empty() {
        Ok(numbers)
    } else {
        Err(Unread::Malformed)
    }
}

// The inside of an SA payload.
#[tactic(auto, unfolding(crate::specs::Reading::proposals_of))]
fn check_proposals(body: Reader) -> Result<(), Unread>
    ensures { Checks result (proposals_of body.entry.rest.now) }
{
    if are_numbered(list_numbers(body)?) {
        Ok(())
    } else {
        Err(Unread::Malformed)
    }
}

fn count_selectors(mut list: Reader) -> Result<usize, Unread>
    ensures { Finds (λ selectors. length selectors) result
        (each_of selector_at (length list.entry.rest.now) list.entry.rest.now) }
{
    let mut count = 0;
    while !list.is_empty() {
        read_selector(&mut list)?;
        count += 1;
    }
    Ok(count)
}

// The inside of a payload of traffic selectors.
#[tactic(auto, unfolding(crate::specs::Reading::selectors_of))]
fn check_selectors(mut body: Reader) -> Result<(), Unread>
    ensures { Checks result (selectors_of body.entry.rest.now) }
{
    let count = body.u8()?;
    body.octets(3)?;
    if is_counted(count, body.rest.len()) && count_selectors(body)? == usize::from(count) {
        Ok(())
    } else {
        Err(Unread::Malformed)
    }
}

// Any octets are SPIs, if there are as many as the count asks.
#[tactic(auto, unfolding(crate::specs::Reading::delete_of))]
fn check_delete(mut body: Reader) -> Result<(), Unread>
    ensures { Checks result (delete_of body.entry.rest.now) }
{
    let protocol = body.u8()?;
    let size = body.u8()?;
    let count = body.u16()?;
    if is_sized(protocol, size, count) && body.rest.len() == usize::from(count) * SPI_LENGTH {
        Ok(())
    } else {
        Err(Unread::Malformed)
    }
}

// The inside of a payload that is not encrypted. A skipped or an unknown one may hold any octets.
#[tactic(auto, unfolding(crate::specs::Reading::body_of))]
fn check_body(form: Form, part: Part) -> Result<(), Unread>
    ensures { (kind : ℕ) → Checks result (body_of form kind part.entry.second part.entry.inside.rest.now) }
{
    let body = part.inside;
    match form {
        Form::Sa => check_proposals(body),
        Form::Ke => {
            key_exchange(body)?;
            Ok(())
        }
        Form::IdI | Form::IdR => {
            typed(IDENTITY_LIMIT, body)?;
            Ok(())
        }
        Form::Auth => {
            typed(AUTHENTICATION_LIMIT, body)?;
            Ok(())
        }
        Form::Nonce => {
            nonce(body)?;
            Ok(())
        }
        Form::Notify => {
            notify(body)?;
            Ok(())
        }
        Form::Delete => check_delete(body),
        Form::TsI | Form::TsR => check_selectors(body),
        Form::Sealed => Err(Unread::Malformed),
        Form::Skipped(_) | Form::Unknown => Ok(()),
    }
}

// Passes over the next payload, which has the type `kind`. The answer is the type of the payload behind it.
#[tactic(auto, unfolding(crate::specs::Reading::payload_at))]
fn pass_payload(kind: u8, encrypted: bool, reader: &mut Reader) -> Result<u8, WireFault>
    ensures passed { Passes reader.new.rest.now result
        (payload_at encrypted reader.old.end kind reader.old.rest.now) }
    ensures end { reader.new.end ≡ reader.old.end }
{
    let offset = reader.offset();
    let Ok(part) = reader.part() else {
        return Err(WireFault::BadChain { offset });
    };
    let fault = WireFault::of_type(kind, offset);
    let form = Form::of(kind);
    if let Form::Sealed = form {
        if !encrypted || !reader.is_empty() {
            return Err(fault);
        }
        return Ok(NO_PAYLOAD);
    }
    match check_body(form, part) {
        Ok(()) => Ok(part.first),
        Err(_) => Err(fault),
    }
}

// The fault of a chain of payloads of which the first has the type `first`, if there is one. An encrypted
// payload may end it where `encrypted` says so.
pub(crate) fn check_chain(first: u8, encrypted: bool, mut reader: Reader) -> Result<(), WireFault>
    ensures { Allows result (chain_at encrypted reader.entry.end (length reader.entry.rest.now) first reader.entry.rest.now) }
{
    let mut next = first;
    while next != NO_PAYLOAD {
        next = pass_payload(next, encrypted, &mut reader)?;
    }
    if reader.is_empty() {
        Ok(())
    } else {
        Err(WireFault::BadChain {
            offset: reader.offset(),
        })
    }
}

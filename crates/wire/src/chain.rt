//! Chains of payloads (RFC 7296 section 3.2).
ghost use Rattle.std.specs.Prelude.{◌≡◌, ◌≢◌, List, IfOk, IfErr, IsOk, false, length, Ok, Err};
ghost use Rattle.wire.specs.Numbers.{NO_PAYLOAD};
ghost use Rattle.wire.specs.Payloads.{SpellsChain};
ghost use Rattle.wire.specs.Reading.{Answers, chain_at};
ghost use Rattle.wire.specs.Writing.{Makes, first_type, link_onto, payloads_onto};
ghost use Rattle.wire.specs.Refusals.{IsChainFault, IsUnlessMemory};
ghost use Rattle.wire.specs.declared.payload.Payload.{Payload};
ghost use Rattle.wire.specs.declared.fault.WireFault.{WireFault};

use crate::checking::check_chain;
use crate::fault::WireFault;
use crate::numbers::{NO_PAYLOAD, SEALED_TYPE};
use crate::payload::{Payload, read_payload, write_payload};
use crate::reader::Reader;
use base::Items;
use std::alloc::Global;

// The payloads that are left to read, of which the first has the type `first`. An encrypted one may end
// them where `encrypted` says so.
pub(crate) fn read_chain(
    alloc: Global,
    first: u8,
    encrypted: bool,
    mut reader: Reader,
) -> Result<Items<Payload>, WireFault>
    ensures read { Answers (λ x. x) result
        (chain_at encrypted reader.entry.end (length reader.entry.rest.now) first reader.entry.rest.now) }
    // Memory is wanted only where a payload is named.
    ensures reached { result ≡ Err WireFault.Memory → first ≢ NO_PAYLOAD }
    // And only where the grammar allows all of them.
    ensures allowed { result ≡ Err WireFault.Memory → IsOk
        (chain_at encrypted reader.entry.end (length reader.entry.rest.now) first reader.entry.rest.now) }
{
    check_chain(first, encrypted, reader)?;
    let mut payloads = Items::new(alloc);
    let mut next = first;
    while next != NO_PAYLOAD {
        let (payload, behind) = read_payload(alloc, next, encrypted, &mut reader)?;
        payloads.push(payload)?;
        next = behind;
    }
    if reader.is_empty() {
        Ok(payloads)
    } else {
        Err(WireFault::BadChain {
            offset: reader.offset(),
        })
    }
}

fn read_all(alloc: Global, first: u8, octets: &[u8]) -> Result<Items<Payload>, WireFault>
    ensures read { Answers (λ x. x) result
        (chain_at false (length octets.now) (length octets.now) first octets.now) }
    ensures reached { result ≡ Err WireFault.Memory → first ≢ NO_PAYLOAD }
    ensures allowed { result ≡ Err WireFault.Memory → IsOk
        (chain_at false (length octets.now) (length octets.now) first octets.now) }
{
    read_chain(alloc, first, false, Reader::new(octets))
}

/// The payloads that the octets spell (RFC 7296 section 3.2), all of them, of which the first has the type
/// `first` (0 for none). There is no encrypted payload among them. The octets may be of any number, so
/// [`WireFault::TooLong`] never comes.
///
/// The first payload that the grammar does not allow decides: [`WireFault::BadChain`] to
/// [`WireFault::BadField`] with its offset from the first octet. An encrypted payload is
/// [`WireFault::BadChain`] at its offset. A fault is told however little memory there is:
/// [`WireFault::Memory`] comes only where the octets spell payloads.
pub fn decode_chain(alloc: Global, first: u8, octets: &[u8]) -> Result<Items<Payload>, WireFault>
    // What is read is spelled by the octets.
    ensures found { IfOk result (λ ps. SpellsChain first ps octets.now) }
    // What they spell is read, and nothing else.
    ensures only { (ps : List Payload) → SpellsChain first ps octets.now → IsUnlessMemory result (Ok ps) }
    // What is refused is spelled by none, and the fault is the first one.
    ensures refused { IfErr result (λ f. f ≢ WireFault.Memory → IsChainFault false 0 first octets.now f) }
    ensures first_fault { (f : WireFault) → IsChainFault false 0 first octets.now f → result ≡ Err f }
    // Memory is wanted for what they spell, and for nothing else.
    ensures wanted { result ≡ Err WireFault.Memory → (ps : List Payload) × SpellsChain first ps octets.now }
    // Where no payload is named, none is wanted.
    ensures idle { first ≡ NO_PAYLOAD → result ≢ Err WireFault.Memory }
{
    read_all(alloc, first, octets)
}

// The type of the first payload, 0 for none.
pub(crate) fn first_type(payloads: &[Payload]) -> u8
    ensures { result ≡ first_type payloads.now }
{
    match payloads.first() {
        Some(payload) => payload.number(),
        None => NO_PAYLOAD,
    }
}

// Appends a payload in front of the others. An encrypted one has to be the last.
fn write_link(payload: &Payload, others: &[Payload], out: &mut Vec<u8>) -> Result<(), WireFault>
    ensures { Makes out.new.items result (link_onto payload.now others.now out.old.items) }
{
    let fault = payload.fault(out.len());
    if payload.number() == SEALED_TYPE && !others.is_empty() {
        return Err(fault);
    }
    match write_payload(payload, first_type(others), out) {
        Ok(()) => Ok(()),
        Err(unwritten) => Err(unwritten.or(fault)),
    }
}

// Appends payloads behind the octets that are there.
pub(crate) fn write_payloads(payloads: &[Payload], out: &mut Vec<u8>) -> Result<(), WireFault>
    ensures { Makes out.new.items result (payloads_onto payloads.now out.old.items) }
{
    for (place, payload) in payloads.iter().enumerate() {
        write_link(payload, &payloads[place + 1..], out)?;
    }
    Ok(())
}

//! Messages and their header (RFC 7296 section 3.1).
ghost use Rattle.std.specs.Prelude.{◌≡◌, ◌≢◌, ◌++◌, ◌<◌, ◌≤◌, List, length, slice_index, ℕ, IfOk, IfErr, IsOk, OnOk, OnErr};
ghost use Rattle.base.specs.Octets.{Appends};
ghost use Rattle.wire.specs.Numbers.{HEADER_LENGTH, MESSAGE_LIMIT, NO_PAYLOAD};
ghost use Rattle.wire.specs.Messages.{Spells, SpellsPlainly};
ghost use Rattle.wire.specs.Reading.{Answers, Reads, flags_of, head_at, message_of};
ghost use Rattle.wire.specs.Writing.{Writes, FitsHeader, flags_octet, header_onto, with_length, encoding_of};
ghost use Rattle.wire.specs.Refusals.{IsFaultOf, IsEncodingFaultOf, IsUnlessMemory};
ghost use Rattle.wire.specs.declared.message.Message.{Message};
ghost use Rattle.wire.specs.declared.fault.WireFault.{WireFault};

use crate::chain::{first_type, read_chain, write_payloads};
use crate::fault::WireFault;
use crate::numbers::{HEADER_LENGTH, MAJOR_VERSION, MESSAGE_LIMIT};
use crate::payload::Payload;
use crate::reader::{Reader, Unread};
use crate::writer::{Unwritten, push_octets, push_u32, push_u64, set_u32};
use base::Items;
use std::alloc::Global;

/// An IKE message. The version's major number is 2, and the lengths and types that its octets name follow
/// from the payloads.
#[derive(Clone, Debug, PartialEq, Eq, Drop)]
pub struct Message {
    pub header: Header,
    pub payloads: Items<Payload>,
}

/// The header without what follows from the payloads.
#[derive(Clone, Copy, Debug, PartialEq, Eq)]
pub struct Header {
    /// The SPI of the IKE SA's original initiator.
    pub spi_i: u64,
    /// The SPI of the responder, 0 while it is not known.
    pub spi_r: u64,
    /// The minor version, below 16.
    pub minor: u8,
    /// The exchange type.
    pub exchange: u8,
    pub flags: Flags,
    /// The message ID.
    pub id: u32,
}

/// The flags of a header. The other bits are sent clear and ignored.
#[derive(Clone, Copy, Debug, PartialEq, Eq)]
pub struct Flags {
    /// I, 0x08: sent by the IKE SA's original initiator.
    pub initiator: bool,
    /// V, 0x10: a higher major version is spoken.
    pub version: bool,
    /// R, 0x20: a response.
    pub response: bool,
}

// A header with what it says of the rest.
#[derive(Clone, Copy)]
struct Head {
    header: Header,
    major: u8,
    // the type of the first payload
    first: u8,
    // the length of the whole message
    length: u32,
}

// Where the length stands in a header, which is its last field.
const LENGTH_PLACE: usize = 24;

// The bits of the flags (section 3.1).
const INITIATOR: u8 = 0x08;

const VERSION: u8 = 0x10;

const RESPONSE: u8 = 0x20;

fn read_flags(octet: u8) -> Flags
    ensures { result ≡ flags_of octet }
{
    Flags {
        initiator: octet & INITIATOR != 0,
        version: octet & VERSION != 0,
        response: octet & RESPONSE != 0,
    }
}

#[tactic(auto, unfolding(crate::specs::Reading::head_at))]
fn read_head(reader: &mut Reader) -> Result<Head, Unread>
    ensures read { Reads (λ x. x) reader.new.rest.now result (head_at reader.old.rest.now) }
    ensures end { reader.new.end ≡ reader.old.end }
    ensures free { IfErr result (λ e. e ≡ Unread.Malformed) }
{
    let spi_i = reader.u64()?;
    let spi_r = reader.u64()?;
    let first = reader.u8()?;
    let version = reader.u8()?;
    let exchange = reader.u8()?;
    let flags = reader.u8()?;
    let id = reader.u32()?;
    let length = reader.u32()?;
    let header = Header {
        spi_i,
        spi_r,
        minor: version % 16,
        exchange,
        flags: read_flags(flags),
        id,
    };
    Ok(Head {
        header,
        major: version / 16,
        first,
        length,
    })
}

#[tactic(auto, unfolding(crate::specs::Reading::message_of, crate::specs::Reading::headed_of))]
fn read_message(alloc: Global, octets: &[u8]) -> Result<Message, WireFault>
    ensures read { Answers (λ x. x) result (message_of octets.now) }
    // Memory is wanted only where the octets are in the grammar.
    ensures allowed { result ≡ Err WireFault.Memory → IsOk (message_of octets.now) }
    ensures idle { slice_index octets.now 16 ≡ NO_PAYLOAD → result ≢ Err WireFault.Memory }
{
    if octets.len() < HEADER_LENGTH {
        return Err(WireFault::Short);
    }
    if octets.len() > MESSAGE_LIMIT {
        return Err(WireFault::TooLong);
    }
    let mut reader = Reader::new(octets);
    let head = match read_head(&mut reader) {
        Ok(head) => head,
        Err(unread) => return Err(unread.or(WireFault::Short)),
    };
    if head.length as usize != octets.len() {
        return Err(WireFault::BadLength);
    }
    if head.major != MAJOR_VERSION {
        return Err(WireFault::BadVersion);
    }
    let payloads = read_chain(alloc, head.first, true, reader)?;
    Ok(Message {
        header: head.header,
        payloads,
    })
}

/// The message that a datagram spells (RFC 7296 sections 3.1 and 3.2).
///
/// Refused in this order: fewer than 28 octets [`WireFault::Short`], more than 3000 [`WireFault::TooLong`],
/// a length field that is not the datagram's length [`WireFault::BadLength`], a major version that is not 2
/// [`WireFault::BadVersion`]. Then the first payload that the grammar does not allow decides:
/// [`WireFault::BadChain`] to [`WireFault::BadField`] with its offset. An encrypted payload has to be the
/// last. A fault is told however little memory there is: [`WireFault::Memory`] comes only where the octets
/// spell a message.
pub fn decode_message(alloc: Global, octets: &[u8]) -> Result<Message, WireFault>
    // What is read is spelled by the octets.
    ensures found { IfOk result (λ m. Spells m octets.now) }
    // What they spell is read, and nothing else.
    ensures only { (m : Message) → Spells m octets.now → IsUnlessMemory result (Ok m) }
    // What is refused is spelled by none, and the fault is the first one.
    ensures refused { IfErr result (λ f. f ≢ WireFault.Memory → IsFaultOf octets.now f) }
    ensures first_fault { (f : WireFault) → IsFaultOf octets.now f → result ≡ Err f }
    // Memory is wanted for what they spell, and for nothing else.
    ensures wanted { result ≡ Err WireFault.Memory → (m : Message) × Spells m octets.now }
    // Where the header names no payload, none is wanted.
    ensures idle { slice_index octets.now 16 ≡ NO_PAYLOAD → result ≢ Err WireFault.Memory }
{
    read_message(alloc, octets)
}

fn flags_octet(flags: Flags) -> u8
    ensures { result ≡ flags_octet flags }
{
    let initiator = if flags.initiator { INITIATOR } else { 0 };
    let version = if flags.version { VERSION } else { 0 };
    let response = if flags.response { RESPONSE } else { 0 };
    initiator + version + response
}

// Appends a header with 0 for the length, which is not known yet.
#[tactic(auto, unfolding(crate::specs::Writing::header_onto))]
fn write_header(header: Header, first: u8, out: &mut Vec<u8>) -> Result<(), Unwritten>
    requires { header.minor < 16 }
    ensures write { Writes out.new.items result (header_onto header first out.old.items) }
    ensures fits { FitsHeader header }
{
    push_u64(out, header.spi_i)?;
    push_u64(out, header.spi_r)?;
    let version = MAJOR_VERSION * 16 + header.minor;
    let flags = flags_octet(header.flags);
    push_octets(out, &[first, version, header.exchange, flags])?;
    push_u32(out, header.id)?;
    push_octets(out, &[0, 0, 0, 0])
}

// Sets the length of a message that is whole.
fn set_length(octets: &mut Vec<u8>)
    requires header { HEADER_LENGTH ≤ length octets.old.items }
    requires short { length octets.old.items ≤ MESSAGE_LIMIT }
    ensures { octets.new.items ≡ with_length octets.old.items }
{
    let length = octets.len() as u32;
    set_u32(octets.as_mut_slice(), LENGTH_PLACE, length);
}

// The octets of a message.
fn octets_of(alloc: Global, message: &Message) -> Result<Vec<u8>, WireFault>
    ensures read { Answers (λ v. v.items) result (encoding_of message.now) }
    ensures fits { message.now.header.minor < 16 → FitsHeader message.now.header }
    ensures version { 16 ≤ message.now.header.minor → result ≡ Err WireFault.BadVersion }
{
    if message.header.minor >= 16 {
        return Err(WireFault::BadVersion);
    }
    let payloads = message.payloads.as_slice();
    let mut octets = Vec::new(alloc);
    match write_header(message.header, first_type(payloads), &mut octets) {
        Ok(()) => {}
        Err(unwritten) => return Err(unwritten.or(WireFault::BadVersion)),
    }
    write_payloads(payloads, &mut octets)?;
    if octets.len() > MESSAGE_LIMIT {
        return Err(WireFault::TooLong);
    }
    set_length(&mut octets);
    Ok(octets)
}

/// Appends the octets of a message, with zeros in reserved octets and bits, so that they are read as the
/// same message again.
///
/// Refused in this order: a minor version above 15 [`WireFault::BadVersion`], the first payload that has no
/// spelling ([`WireFault::BadChain`] to [`WireFault::BadField`] at the offset where it would begin), more
/// than 3000 octets [`WireFault::TooLong`]. After a refusal, for an allocation failure too, `out` is as it
/// was.
pub fn encode_message(message: &Message, out: &mut Vec<u8>) -> Result<(), WireFault>
    ensures ok { OnOk result (Appends (λ b. SpellsPlainly message.now b × Spells message.now b)
        out.old.items out.new.items) }
    // Only what has no spelling is refused, with its first fault.
    ensures refused { IfErr result (λ f. f ≢ WireFault.Memory → IsEncodingFaultOf message.now f) }
    ensures unspelled { IfErr result (λ f. f ≢ WireFault.Memory → (b : List ℕ) → Spells message.now b → ⊥) }
    ensures first_fault { (f : WireFault) → IsEncodingFaultOf message.now f → IsUnlessMemory result (Err f) }
    ensures version { 16 ≤ message.now.header.minor → result ≡ Err WireFault.BadVersion }
    ensures err { OnErr result (out.new.items ≡ out.old.items) }
{
    let octets = octets_of(*out.allocator(), message)?;
    out.extend_from_slice(&octets)?;
    Ok(())
}

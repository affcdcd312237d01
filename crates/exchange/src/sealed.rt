//! Messages whose payloads are encrypted (RFC 7296, section 3.14).
ghost use Rattle.std.specs.Prelude.{◌≡◌, ◌≢◌, ◌<◌, ◌≤◌, ◌+◌, ◌-◌, ◌++◌, ◌∷◌, [], List, ℕ, Ok, None, Some, length, OnOk, OnErr, IfErr, IfOk, IsOk};
ghost use Rattle.base.specs.Octets.{Appends};
ghost use Rattle.wire.specs.Messages.{Spells};
ghost use Rattle.wire.specs.Numbers.{HEADER_LENGTH, MESSAGE_LIMIT};
ghost use Rattle.wire.specs.Payloads.{SpellsChain};
ghost use Rattle.wire.specs.declared.message.Message.{Message};
ghost use Rattle.wire.specs.declared.payload.Payload.{Payload};
ghost use Rattle.suite.specs.declared.keys.Keys.{Keys};
ghost use Rattle.exchange.specs.Sealed.{HEAD_LENGTH, plain_of_message, lone_body, sealed_head, sealed_octets, IsSealed, IsSealingFaultOf, CanBeSealed};

use byteorder::{BigEndian, ByteOrder};
use std::alloc::{AllocError, Global};
use suite::{Keys, Sealer};
use wire::laws::{plain_spellings_are_spellings, spellings_have_their_size};
use wire::numbers::{HEADER_LENGTH, MESSAGE_LIMIT, SEALED_TYPE};
use wire::{Items, Message, Payload, WireFault, encode_message};

// The octets before a body: the header, and that of the encrypted payload (section 3.2).
const HEAD_LENGTH: usize = 32;

/// What an encrypted payload holds: payloads in octets, and the type of the first of them, 0 for none.
#[derive(Clone, Debug, PartialEq, Eq, Drop)]
pub struct Plain {
    pub first: u8,
    pub octets: Items<u8>,
}

/// Appends a message with its payloads encrypted under the sender's keys: its header, and one payload,
/// whose body the cipher makes of them with 16 fresh octets (RFC 7296, section 3.14).
///
/// Refused as [`encode_message`] refuses the message in clear, with offsets as there; and
/// [`WireFault::TooLong`] where it has more than 3000 octets once it is sealed. A message that has at most
/// 2868 octets in clear is refused for memory alone. After a refusal `out` is as it was. A payload that is
/// encrypted itself is sealed as it stands, but no end reads it there.
pub fn seal_message<S: Sealer>(
    sealer: &S,
    keys: &Keys,
    message: &Message,
    fresh: &[u8; 16],
    out: &mut Vec<u8>,
) -> Result<(), WireFault>
    ensures sealed { OnOk result
        (Appends (IsSealed S.body_of keys.now fresh.now message.now) out.old.items out.new.items) }
    ensures fault { IfErr result (λ f. f ≢ WireFault.Memory → IsSealingFaultOf S.sealed_size message.now f) }
    ensures memory { CanBeSealed message.now → IfErr result (λ f. f ≡ WireFault.Memory) }
    ensures refused { OnErr result (out.new.items ≡ out.old.items) }
{
    // Brings that both keys have 32 octets, which the laws of a sealer ask for, and what the laws of the
    // format say of lengths.
    let _ = keys.as_slices();
    plain_spellings_are_spellings();
    spellings_have_their_size();
    let alloc = *out.allocator();
    let mut clear = Vec::new(alloc);
    encode_message(message, &mut clear)?;
    let whole = sealed_octets(alloc, sealer, keys, &clear, fresh)?;
    out.extend_from_slice(&whole)?;
    Ok(())
}

// A message in clear, with its payloads as the body of an encrypted one.
fn sealed_octets<S: Sealer>(
    alloc: Global,
    sealer: &S,
    keys: &Keys,
    clear: &[u8],
    fresh: &[u8; 16],
) -> Result<Vec<u8>, WireFault>
    requires { HEADER_LENGTH ≤ length clear.now }
    ensures made { IfOk result
        (λ whole. whole.items ≡ sealed_octets S.body_of S.sealed_size keys.now fresh.now clear.now) }
    ensures short { IsOk result
        → HEAD_LENGTH + S.sealed_size (length clear.now - HEADER_LENGTH) ≤ MESSAGE_LIMIT }
    ensures refused { IfErr result (λ f. f ≢ WireFault.Memory → (f ≡ WireFault.TooLong)
        × (MESSAGE_LIMIT < HEAD_LENGTH + S.sealed_size (length clear.now - HEADER_LENGTH))) }
{
    let length = sealer.sealed_len(clear.len() - HEADER_LENGTH);
    if length > MESSAGE_LIMIT - HEAD_LENGTH {
        return Err(WireFault::TooLong);
    }
    let mut whole = sealed_head(alloc, clear, length)?;
    let mut body = Vec::new(alloc);
    sealer.seal(keys, &whole, &clear[HEADER_LENGTH..], fresh, &mut body)?;
    whole.extend_from_slice(&body)?;
    Ok(whole)
}

// What stands before a body of so many octets: the header of the message in clear, with another type of the
// first payload and another length, and the header of the encrypted payload.
fn sealed_head(alloc: Global, clear: &[u8], body: usize) -> Result<Vec<u8>, AllocError>
    requires header { HEADER_LENGTH ≤ length clear.now }
    requires short { HEAD_LENGTH + body ≤ MESSAGE_LIMIT }
    ensures { IfOk result (λ head. head.items ≡ sealed_head clear.now body) }
{
    let mut length = [0; 4];
    BigEndian::write_u32(&mut length, (HEAD_LENGTH + body) as u32);
    let mut payload_length = [0; 2];
    BigEndian::write_u16(&mut payload_length, (4 + body) as u16);
    let mut head = Vec::with_capacity(alloc, HEAD_LENGTH)?;
    head.extend_from_slice(&clear[..16])?;
    head.push(SEALED_TYPE)?;
    head.extend_from_slice(&clear[17..24])?;
    head.extend_from_slice(&length)?;
    head.push(clear[16])?;
    head.push(0)?;
    head.extend_from_slice(&payload_length)?;
    Ok(head)
}

/// What a datagram's encrypted payload opens to under the sender's keys, where it is the message's only
/// payload and its body opens (RFC 7296, section 3.14); `None` otherwise. The only error is an allocation
/// failure. `message` is what the datagram spells.
pub fn open_message<S: Sealer>(
    alloc: Global,
    sealer: &S,
    keys: &Keys,
    octets: &[u8],
    message: &Message,
) -> Result<Option<Plain>, AllocError>
    requires { Spells message.now octets.now }
    ensures opened { IfOk result
        (λ plain. plain ≡ plain_of_message S.plain_of keys.now octets.now message.now.payloads) }
    // Where nothing can be opened, no memory is taken.
    ensures idle { lone_body message.now.payloads ≡ None → result ≡ Ok None }
{
    let [Payload::Sealed { first, body }] = message.payloads.as_slice() else {
        return Ok(None);
    };
    let mut plain = Vec::new(alloc);
    let opens = sealer.open(keys, &octets[..HEAD_LENGTH], body.as_slice(), &mut plain)?;
    Ok(opens.then_some(Plain {
        first: *first,
        octets: Items::from_vec(plain),
    }))
}

//! The payloads of a few fields: key exchange, identification, authentication, nonce (RFC 7296 sections
//! 3.4, 3.5, 3.8 and 3.9).
ghost use Rattle.std.specs.Prelude.{◌≡◌, IfErr};
ghost use Rattle.wire.specs.Writing.{Writes, data_onto, ke_onto, typed_onto, nonce_onto};
ghost use Rattle.wire.specs.Reading.{Gives, data_of, ke_of, typed_of, nonce_of};

use crate::numbers::{KEY_EXCHANGE_LIMIT, NONCE_LEAST, NONCE_LIMIT};
use crate::reader::{Reader, Unread};
use crate::writer::{Unwritten, push_octets, push_u16};
use base::Items;
use std::alloc::Global;

// Data of an octet or more, up to a limit.
fn data(limit: usize, rest: Reader<'_>) -> Result<&[u8], Unread>
    ensures read { Gives (λ x. x.now) result (data_of limit rest.entry.rest.now) }
    ensures free { IfErr result (λ e. e ≡ Unread.Malformed) }
{
    if rest.is_empty() || rest.rest.len() > limit {
        return Err(Unread::Malformed);
    }
    Ok(rest.rest)
}

// The Diffie-Hellman group and the data.
#[tactic(auto, unfolding(crate::specs::Reading::ke_of))]
pub(crate) fn key_exchange(mut body: Reader<'_>) -> Result<(u16, &[u8]), Unread>
    ensures read { Gives (λ x. (x.0, x.1.now)) result (ke_of body.entry.rest.now) }
    ensures free { IfErr result (λ e. e ≡ Unread.Malformed) }
{
    let group = body.u16()?;
    body.octets(2)?;
    let data = data(KEY_EXCHANGE_LIMIT, body)?;
    Ok((group, data))
}

// The same, with a copy of the data.
pub(crate) fn read_key_exchange(alloc: Global, body: Reader) -> Result<(u16, Items<u8>), Unread>
    ensures { Gives (λ x. x) result (ke_of body.entry.rest.now) }
{
    let (group, data) = key_exchange(body)?;
    Ok((group, Items::from_slice(alloc, data)?))
}

// The type of an identity, or the method of an authentication, and the data.
#[tactic(auto, unfolding(crate::specs::Reading::typed_of))]
pub(crate) fn typed(limit: usize, mut body: Reader<'_>) -> Result<(u8, &[u8]), Unread>
    ensures read { Gives (λ x. (x.0, x.1.now)) result (typed_of limit body.entry.rest.now) }
    ensures free { IfErr result (λ e. e ≡ Unread.Malformed) }
{
    let kind = body.u8()?;
    body.octets(3)?;
    let data = data(limit, body)?;
    Ok((kind, data))
}

// The same, with a copy of the data.
pub(crate) fn read_typed(
    alloc: Global,
    limit: usize,
    body: Reader,
) -> Result<(u8, Items<u8>), Unread>
    ensures { Gives (λ x. x) result (typed_of limit body.entry.rest.now) }
{
    let (kind, data) = typed(limit, body)?;
    Ok((kind, Items::from_slice(alloc, data)?))
}

#[tactic(auto, unfolding(crate::specs::Reading::nonce_of))]
pub(crate) fn nonce(body: Reader<'_>) -> Result<&[u8], Unread>
    ensures read { Gives (λ x. x.now) result (nonce_of body.entry.rest.now) }
    ensures free { IfErr result (λ e. e ≡ Unread.Malformed) }
{
    if body.rest.len() >= NONCE_LEAST && body.rest.len() <= NONCE_LIMIT {
        Ok(body.rest)
    } else {
        Err(Unread::Malformed)
    }
}

pub(crate) fn read_nonce(alloc: Global, body: Reader) -> Result<Items<u8>, Unread>
    ensures { Gives (λ x. x) result (nonce_of body.entry.rest.now) }
{
    Ok(Items::from_slice(alloc, nonce(body)?)?)
}

fn write_data(limit: usize, content: &[u8], out: &mut Vec<u8>) -> Result<(), Unwritten>
    ensures { Writes out.new.items result (data_onto limit content.now out.old.items) }
{
    if content.is_empty() || content.len() > limit {
        return Err(Unwritten::Unspelled);
    }
    push_octets(out, content)
}

#[tactic(auto, unfolding(crate::specs::Writing::ke_onto))]
pub(crate) fn write_key_exchange(
    group: u16,
    content: &[u8],
    out: &mut Vec<u8>,
) -> Result<(), Unwritten>
    ensures { Writes out.new.items result (ke_onto group content.now out.old.items) }
{
    push_u16(out, group)?;
    push_octets(out, &[0, 0])?;
    write_data(KEY_EXCHANGE_LIMIT, content, out)
}

// An identity or an authentication.
#[tactic(auto, unfolding(crate::specs::Writing::typed_onto))]
pub(crate) fn write_typed(
    limit: usize,
    kind: u8,
    content: &[u8],
    out: &mut Vec<u8>,
) -> Result<(), Unwritten>
    ensures { Writes out.new.items result (typed_onto limit kind content.now out.old.items) }
{
    push_octets(out, &[kind, 0, 0, 0])?;
    write_data(limit, content, out)
}

#[tactic(auto, unfolding(crate::specs::Writing::nonce_onto))]
pub(crate) fn write_nonce(nonce: &[u8], out: &mut Vec<u8>) -> Result<(), Unwritten>
    ensures { Writes out.new.items result (nonce_onto nonce.now out.old.items) }
{
    if nonce.len() >= NONCE_LEAST && nonce.len() <= NONCE_LIMIT {
        push_octets(out, nonce)
    } else {
        Err(Unwritten::Unspelled)
    }
}

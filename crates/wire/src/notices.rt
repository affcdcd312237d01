//! Notifications (RFC 7296 section 3.10).
ghost use Rattle.std.specs.Prelude.{◌≡◌, IfErr};
ghost use Rattle.wire.specs.declared.payload.Payload.TheVariants.{Notify};
ghost use Rattle.wire.specs.Reading.{Gives, notify_of};
ghost use Rattle.wire.specs.Writing.{Writes, notify_onto};

use crate::payload::Payload;
use crate::reader::{Reader, Unread};
use crate::writer::{Unwritten, push_octets, push_u16};
use base::Items;
use std::alloc::Global;

// A notification whose octets are not copied.
#[derive(Clone, Copy)]
pub(crate) struct Notified<'a> {
    pub(crate) protocol: u8,
    pub(crate) spi: &'a [u8],
    pub(crate) kind: u16,
    pub(crate) data: &'a [u8],
}

#[tactic(auto, unfolding(crate::specs::Reading::notify_of))]
pub(crate) fn notify(mut body: Reader<'_>) -> Result<Notified<'_>, Unread>
    ensures read { Gives (λ x. Notify x.protocol x.spi.now x.kind x.data.now) result (notify_of body.entry.rest.now) }
    ensures free { IfErr result (λ e. e ≡ Unread.Malformed) }
{
    let protocol = body.u8()?;
    let size = body.u8()?;
    let kind = body.u16()?;
    let spi = body.octets(usize::from(size))?;
    let data = body.rest;
    Ok(Notified {
        protocol,
        spi,
        kind,
        data,
    })
}

pub(crate) fn read_notify(alloc: Global, body: Reader) -> Result<Payload, Unread>
    ensures { Gives (λ x. x) result (notify_of body.entry.rest.now) }
{
    let Notified {
        protocol,
        spi,
        kind,
        data,
    } = notify(body)?;
    let spi = Items::from_slice(alloc, spi)?;
    let data = Items::from_slice(alloc, data)?;
    Ok(Payload::Notify {
        protocol,
        spi,
        kind,
        data,
    })
}

#[tactic(auto, unfolding(crate::specs::Writing::notify_onto))]
pub(crate) fn write_notify(
    protocol: u8,
    spi: &[u8],
    kind: u16,
    content: &[u8],
    out: &mut Vec<u8>,
) -> Result<(), Unwritten>
    ensures { Writes out.new.items result (notify_onto protocol spi.now kind content.now out.old.items) }
{
    if spi.len() > 255 {
        return Err(Unwritten::Unspelled);
    }
    push_octets(out, &[protocol, spi.len() as u8])?;
    push_u16(out, kind)?;
    push_octets(out, spi)?;
    push_octets(out, content)
}

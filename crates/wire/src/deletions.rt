//! Deletions (RFC 7296 section 3.11).
ghost use Rattle.std.specs.Prelude.{◌≡◌, length};
ghost use Rattle.wire.specs.Reading.{Gives, delete_of, each_of, is_sized, number_at};
ghost use Rattle.wire.specs.Writing.{Writes, delete_onto, each_onto, number_onto, spi_size};

use crate::numbers::{AH_PROTOCOL, ESP_PROTOCOL, IKE_PROTOCOL, SPI_LENGTH};
use crate::payload::Payload;
use crate::reader::{Reader, Unread};
use crate::writer::{Unwritten, push_octets, push_u16, push_u32};
use base::Items;
use std::alloc::Global;

// Whether SPIs of this protocol have this size and can be so many.
pub(crate) fn is_sized(protocol: u8, size: u8, count: u16) -> bool
    ensures { result ≡ is_sized protocol size count }
{
    match protocol {
        IKE_PROTOCOL => size == 0 && count == 0,
        AH_PROTOCOL | ESP_PROTOCOL => usize::from(size) == SPI_LENGTH,
        _ => false,
    }
}

fn read_spis(alloc: Global, mut list: Reader) -> Result<Items<u32>, Unread>
    ensures { Gives (λ x. x) result (each_of (number_at 4) (length list.entry.rest.now) list.entry.rest.now) }
{
    let mut spis = Items::new(alloc);
    while !list.is_empty() {
        spis.push(list.u32()?)?;
    }
    Ok(spis)
}

#[tactic(auto, unfolding(crate::specs::Reading::delete_of))]
pub(crate) fn read_delete(alloc: Global, mut body: Reader) -> Result<Payload, Unread>
    ensures { Gives (λ x. x) result (delete_of body.entry.rest.now) }
{
    let protocol = body.u8()?;
    let size = body.u8()?;
    let count = body.u16()?;
    let length = usize::from(count) * SPI_LENGTH;
    if is_sized(protocol, size, count) && body.rest.len() == length {
        let spis = read_spis(alloc, body)?;
        Ok(Payload::Delete { protocol, spis })
    } else {
        Err(Unread::Malformed)
    }
}

// The size of each of so many SPIs of this protocol.
fn spi_size(protocol: u8, count: usize) -> Option<u8>
    ensures { result ≡ spi_size protocol count }
{
    match protocol {
        IKE_PROTOCOL if count == 0 => Some(0),
        AH_PROTOCOL | ESP_PROTOCOL => Some(SPI_LENGTH as u8),
        _ => None,
    }
}

fn write_spis(spis: &[u32], out: &mut Vec<u8>) -> Result<(), Unwritten>
    ensures { Writes out.new.items result (each_onto (number_onto 4) spis.now out.old.items) }
{
    for spi in spis {
        push_u32(out, *spi)?;
    }
    Ok(())
}

#[tactic(auto, unfolding(crate::specs::Writing::delete_onto))]
pub(crate) fn write_delete(protocol: u8, spis: &[u32], out: &mut Vec<u8>) -> Result<(), Unwritten>
    ensures { Writes out.new.items result (delete_onto protocol spis.now out.old.items) }
{
    let Some(size) = spi_size(protocol, spis.len()) else {
        return Err(Unwritten::Unspelled);
    };
    if spis.len() > 0xffff {
        return Err(Unwritten::Unspelled);
    }
    push_octets(out, &[protocol, size])?;
    push_u16(out, spis.len() as u16)?;
    write_spis(spis, out)
}

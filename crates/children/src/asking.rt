//! What a request asks for.
ghost use Rattle.std.specs.Prelude.{◌≡◌, ◌∷◌, [], IfOk};
ghost use Rattle.children.specs.Asking.{child_request};

use crate::making::spi_octets;
use base::{Items, Selector};
use exchange::ChildPayloads;
use std::alloc::{AllocError, Global};
use suite::{Wanted, offer};

/// What an initiator asks for, by [`ask`], and what it takes the answer by ([`accept`](crate::accept)).
#[derive(Clone, Copy, Debug, PartialEq, Eq)]
pub struct Asked {
    /// The SPI of its inbound SA, which its table reserved.
    pub spi: u32,
    /// The selector of its own side.
    pub local: Selector,
    /// The selector of the peer's side.
    pub remote: Selector,
    /// Whether it allows extended sequence numbers (RFC 4303, section 2.2.1).
    pub extended: bool,
}

/// What an initiator asks for (RFC 7296, sections 1.2 and 1.3.1): one proposal, of number 1, with the SPI of
/// its inbound SA and with extended sequence numbers before others where they are allowed, and one selector
/// of each side, its own being TSi. The only error is an allocation failure.
pub fn ask(alloc: Global, asked: &Asked) -> Result<ChildPayloads, AllocError>
    ensures { IfOk result (λ payloads. payloads ≡ child_request asked.now) }
{
    let wanted = Wanted::Esp {
        extended: asked.extended,
    };
    let proposal = offer(alloc, &wanted, &spi_octets(asked.spi))?;
    Ok(ChildPayloads {
        proposals: lone(alloc, proposal)?,
        ts_i: lone(alloc, asked.local)?,
        ts_r: lone(alloc, asked.remote)?,
    })
}

// A list of one item.
pub(crate) fn lone<T: Drop>(alloc: Global, item: T) -> Result<Items<T>, AllocError>
    ensures { IfOk result (λ items. items ≡ item ∷ []) }
{
    let mut items = Items::new(alloc);
    items.push(item)?;
    Ok(items)
}

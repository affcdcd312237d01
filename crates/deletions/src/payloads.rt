//! Payloads that are sent.
ghost use Rattle.std.specs.Prelude.{◌≡◌, ◌≤◌, ◌<◌, ◌^◌, [], ◌∷◌, All, IfOk, length};
ghost use Rattle.deletions.specs.Asking.{esp_deletion, CanBeSent};
ghost use Rattle.deletions.specs.Naming.{named_limit};

use base::Items;
use std::alloc::{AllocError, Global};
use wire::Payload;
use wire::numbers::ESP_PROTOCOL;

// One Delete of ESP that names these SPIs (RFC 7296, section 3.11).
pub(crate) fn esp_deletion(alloc: Global, spis: &[u32]) -> Result<Items<Payload>, AllocError>
    ensures payloads { IfOk result (λ payloads. payloads ≡ esp_deletion spis.now) }
    ensures fits { IfOk result (λ payloads. length spis.now ≤ named_limit → CanBeSent payloads) }
{
    spis_fit(spis);
    let spis = Items::from_slice(alloc, spis)?;
    lone(
        alloc,
        Payload::Delete {
            protocol: ESP_PROTOCOL,
            spis,
        },
    )
}

// A list of one payload.
pub(crate) fn lone(alloc: Global, payload: Payload) -> Result<Items<Payload>, AllocError>
    ensures { IfOk result (λ payloads. payloads ≡ payload ∷ []) }
{
    let mut payloads = Items::new(alloc);
    payloads.push(payload)?;
    Ok(payloads)
}

// What the type of SPIs says. Does nothing.
fn spis_fit(spis: &[u32])
    ensures { All (λ spi. spi < 2 ^ 32) spis.now }
{}

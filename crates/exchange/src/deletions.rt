//! Deletions (RFC 7296, sections 1.4.1 and 3.11).
ghost use Rattle.std.specs.Prelude.{◌≡◌, ◌<◌, IfOk, IsTrue, ◌↔◌};
ghost use Rattle.exchange.specs.Deletions.{is_deletion, spis_in, deletes_association, count_of_spis, esp_spis};

use base::Items;
use std::alloc::{AllocError, Global};
use wire::Payload;
use wire::numbers::{ESP_PROTOCOL, IKE_PROTOCOL};

/// Whether the IKE SA under which the payloads come is to be deleted itself (RFC 7296, section 1.4.1).
pub fn deletes_association(payloads: &[Payload]) -> bool
    ensures { result ≡ deletes_association payloads.now }
{
    for payload in payloads {
        if is_deletion(payload, IKE_PROTOCOL) {
            return true;
        }
    }
    false
}

/// Whether the payloads name more SPIs than this to be deleted, each counted as often as it is named,
/// whatever its protocol.
pub fn names_more_than(payloads: &[Payload], limit: usize) -> bool
    ensures { IsTrue result ↔ (limit < count_of_spis payloads.now) }
{
    let mut left = limit;
    for payload in payloads {
        let named = spis_in(payload).len();
        if named > left {
            return true;
        }
        left -= named;
    }
    false
}

/// The SPIs of ESP that are to be deleted, in the order in which they are named.
pub fn esp_spis(alloc: Global, payloads: &[Payload]) -> Result<Items<u32>, AllocError>
    ensures { IfOk result (λ spis. spis ≡ esp_spis payloads.now) }
{
    let mut spis = Vec::new(alloc);
    for payload in payloads {
        if is_deletion(payload, ESP_PROTOCOL) {
            spis.extend_from_slice(spis_in(payload))?;
        }
    }
    Ok(Items::from_vec(spis))
}

fn is_deletion(payload: &Payload, wanted: u8) -> bool
    ensures { result ≡ is_deletion wanted payload.now }
{
    match payload {
        Payload::Delete { protocol, .. } => *protocol == wanted,
        _ => false,
    }
}

fn spis_in(payload: &Payload) -> &[u32]
    ensures { result.now ≡ spis_in payload.now }
{
    match payload {
        Payload::Delete { spis, .. } => spis.as_slice(),
        _ => &[],
    }
}

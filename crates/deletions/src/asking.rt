//! What is sent to delete.
ghost use Rattle.std.specs.Prelude.{◌≡◌, IfOk};
ghost use Rattle.deletions.specs.Asking.{association_deletion, child_deletion, CanBeSent};

use crate::payloads::{esp_deletion, lone};
use base::Items;
use std::alloc::{AllocError, Global};
use wire::Payload;
use wire::numbers::IKE_PROTOCOL;

/// The payloads of a request that deletes a Child SA: one Delete of ESP, which names the child by the SPI
/// under which this end receives (RFC 7296, sections 1.4.1 and 3.11). The caller marks the SA pair as
/// Deleting, and takes it out with the response. They fit a message that is sealed. The only error is an
/// allocation failure.
pub fn delete_child(alloc: Global, spi: u32) -> Result<Items<Payload>, AllocError>
    ensures payloads { IfOk result (λ payloads. payloads ≡ child_deletion spi) }
    ensures fits { IfOk result CanBeSent }
{
    esp_deletion(alloc, &[spi])
}

/// The payloads of a request that deletes the IKE SA under which it is sent, with its Child SAs: one Delete
/// of IKE, which names no SPI (RFC 7296, sections 1.4.1 and 3.11). They fit a message that is sealed. The
/// only error is an allocation failure.
pub fn delete_association(alloc: Global) -> Result<Items<Payload>, AllocError>
    ensures payloads { IfOk result (λ payloads. payloads ≡ association_deletion) }
    ensures fits { IfOk result CanBeSent }
{
    lone(
        alloc,
        Payload::Delete {
            protocol: IKE_PROTOCOL,
            spis: Items::new(alloc),
        },
    )
}

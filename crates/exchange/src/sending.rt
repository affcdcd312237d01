//! Messages as an end sends them, under the keys of an IKE SA.
ghost use Rattle.std.specs.Prelude.{◌≡◌, IfOk};
ghost use Rattle.exchange.specs.Headers.{keys_of};
ghost use Rattle.exchange.specs.Sealed.{CanBeSealed, IsSealed};

use crate::{Role, seal_message};
use base::Items;
use std::alloc::{AllocError, Global};
use suite::{KeyRecord, Sealer};
use wire::{Message, WireFault};

/// The octets of a message that the end of this role seals. The only error is an allocation failure.
pub fn sealed_message<S: Sealer>(
    alloc: Global,
    sealer: &S,
    role: Role,
    keys: &KeyRecord,
    message: &Message,
    fresh: &[u8; 16],
) -> Result<Items<u8>, AllocError>
    requires { CanBeSealed message.now }
    ensures { IfOk result (IsSealed S.body_of (keys_of role keys.now) fresh.now message.now) }
{
    let mut octets = Vec::new(alloc);
    match seal_message(sealer, &role.keys(keys), message, fresh, &mut octets) {
        Ok(()) => Ok(Items::from_vec(octets)),
        // The message can be sealed, so no other fault is left.
        Err(fault) => match fault {
            WireFault::Memory => Err(AllocError),
            _ => unreachable!(),
        },
    }
}

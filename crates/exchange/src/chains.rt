//! The payloads that a message holds.
ghost use Rattle.std.specs.Prelude.{◌≡◌, ◌≢◌, IfErr, IfOk, IsErr, Err, List, None, Ok, Some};
ghost use Rattle.exchange.specs.Chains.{IsRead};
ghost use Rattle.wire.specs.Payloads.{SpellsChain};
ghost use Rattle.wire.specs.declared.fault.WireFault.{WireFault};
ghost use Rattle.wire.specs.declared.payload.Payload.{Payload};

use crate::Plain;
use base::Items;
use std::alloc::{AllocError, Global};
use wire::{Payload, WireFault, decode_chain};

/// The payloads that octets spell, if they spell any (RFC 7296, section 3.2). The only error is an allocation
/// failure, and only where they do.
pub fn read_chain(alloc: Global, plain: &Plain) -> Result<Option<Items<Payload>>, AllocError>
    ensures read { IfOk result (IsRead plain.now) }
    ensures wanted { IsErr result → (payloads : List Payload) × SpellsChain plain.now.first payloads plain.now.octets }
{
    unless_memory(decode_chain(alloc, plain.first, plain.octets.as_slice()))
}

// What was read of a chain. Where the grammar refused it there are no payloads. Only want of memory is an
// error, and no other fault is answered as that.
fn unless_memory(
    read: Result<Items<Payload>, WireFault>,
) -> Result<Option<Items<Payload>>, AllocError>
    ensures read { IfOk read (λ payloads. result ≡ Ok (Some payloads)) }
    ensures refused { IfErr read (λ fault. fault ≢ WireFault.Memory → result ≡ Ok None) }
    ensures memory { read ≡ Err WireFault.Memory → IsErr result }
{
    match read {
        Ok(payloads) => Ok(Some(payloads)),
        Err(WireFault::Memory) => Err(AllocError),
        Err(_) => Ok(None),
    }
}

//! Messages that always have a spelling, and their octets.
ghost use Rattle.std.specs.Prelude.{IfOk};
ghost use Rattle.base.specs.Octets.{AreOctets};
ghost use Rattle.suite.specs.Nonces.{IsNonce};
ghost use Rattle.wire.specs.Messages.{SpellsPlainly};
ghost use Rattle.sa_init.specs.Fitting.{FitsMessage, FitsNonce};

use base::Items;
use std::alloc::{AllocError, Global};
use wire::laws::{messages_that_fit_are_spelled, plain_spellings_are_spellings};
use wire::{Message, WireFault, encode_message};

/// The octets of a message that fits. The only error is an allocation failure.
pub fn octets_of(alloc: Global, message: &Message) -> Result<Items<u8>, AllocError>
    requires { FitsMessage message.now }
    ensures { IfOk result (SpellsPlainly message.now) }
{
    plain_spellings_are_spellings();
    messages_that_fit_are_spelled();
    let mut octets = Vec::new(alloc);
    match encode_message(message, &mut octets) {
        Ok(()) => Ok(Items::from_vec(octets)),
        // The message has a spelling, so no other fault is left.
        Err(fault) => match fault {
            WireFault::Memory => Err(AllocError),
            _ => unreachable!(),
        },
    }
}

/// Brings what the type of octets says. Does nothing.
pub fn octets_fit(octets: &[u8])
    ensures { AreOctets octets.now }
{}

/// Brings that 32 octets are a nonce (RFC 7296, section 3.9). Does nothing.
pub fn nonce_fits(nonce: &[u8; 32])
    ensures fits { FitsNonce nonce.now }
    ensures nonce { IsNonce nonce.now }
{
    octets_fit(nonce);
}

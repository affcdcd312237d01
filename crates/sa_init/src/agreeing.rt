//! The payloads that request and answer both have (RFC 7296, section 1.2).
ghost use Rattle.std.specs.Prelude.{◌≡◌, ◌++◌, OnOk, IfOk};
ghost use Rattle.sa_init.specs.Fitting.{FitsNonce, FitsPublic, FitsTransforms};
ghost use Rattle.sa_init.specs.Messages.{agreeing_payloads, ike_wanted};

use crate::encoding::{nonce_fits, octets_fit};
use base::Items;
use std::alloc::{AllocError, Global};
use suite::{Agreement, Sealer, Wanted};
use wire::{Payload, Proposal};

/// What an IKE SA is to have, by numbers of 16 bits.
pub fn wanted_by<C: Sealer + Agreement>(caller: &C) -> Wanted
    ensures same { result ≡ ike_wanted C.cipher C.group_number }
    ensures fits { FitsTransforms C.cipher C.group_number }
{
    Wanted::ike(caller)
}

/// SA, KE and Nonce, behind the payloads before them. The only error is an allocation failure.
pub fn push_agreeing<C: Agreement>(
    alloc: Global,
    caller: &C,
    proposal: Proposal,
    secret: &[u8; 32],
    nonce: &[u8; 32],
    payloads: &mut Items<Payload>,
) -> Result<(), AllocError>
    ensures pushed { OnOk result (payloads.new
        ≡ payloads.old ++ agreeing_payloads proposal C.group_number (C.public_value secret.now) nonce.now) }
    ensures public { OnOk result (FitsPublic (C.public_value secret.now)) }
    ensures nonce { FitsNonce nonce.now }
{
    nonce_fits(nonce);
    let mut proposals = Items::new(alloc);
    proposals.push(proposal)?;
    let public = public_of(alloc, caller, secret)?;
    let nonce = Items::from_slice(alloc, nonce)?;
    payloads.push(Payload::Sa(proposals))?;
    payloads.push(Payload::Ke {
        group: caller.group(),
        data: public,
    })?;
    payloads.push(Payload::Nonce(nonce))?;
    Ok(())
}

fn public_of<C: Agreement>(
    alloc: Global,
    caller: &C,
    secret: &[u8; 32],
) -> Result<Items<u8>, AllocError>
    ensures same { IfOk result (λ public. public ≡ C.public_value secret.now) }
    ensures fits { IfOk result FitsPublic }
{
    let public = caller.public(alloc, secret)?;
    octets_fit(public.as_slice());
    Ok(public)
}

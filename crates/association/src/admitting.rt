//! A responder's IKE SA as it begins, half open.
ghost use Rattle.std.specs.Prelude.{◌≡◌, None, IfOk, MatchOption};
ghost use Rattle.association.specs.Admitting.{Admits};
ghost use Rattle.sa_init.specs.Fitting.{FitsOffer};
ghost use Rattle.sa_init.specs.Judging.{offer_view};

use crate::phase::{Association, HalfOpen, Phase};
use base::Items;
use exchange::Role;
use requests::{Incoming, Outgoing};
use sa_init::{Agreed, Offer, answer};
use std::alloc::{AllocError, Global};
use suite::{Agreement, Fresh, Sealer};

/// A responder's IKE SA, and what it answers.
#[derive(Drop)]
pub struct Admitted {
    pub association: Association,
    /// The answer to IKE_SA_INIT.
    pub octets: Items<u8>,
}

/// Answers an offer that was accepted ([`sa_init::judge`]), with the SPI, the secret and the nonce that are
/// fresh: the IKE SA of this serial is half-open from then on, since `moment`. `request` is the very datagram
/// that brought the offer, over which the initiator's AUTH is computed. That the fresh SPI is not zero and no
/// SPI of this end in use is the caller's to see to. `None` (E32) exactly where the agreement refuses the
/// initiator's public value. The only error is an allocation failure.
pub fn admit<C: Sealer + Agreement>(
    alloc: Global,
    caller: &C,
    fresh: &Fresh,
    moment: u64,
    serial: u32,
    offer: &Offer<'_>,
    spi_i: u64,
    request: &[u8],
) -> Result<Option<Admitted>, AllocError>
    requires { FitsOffer (offer_view offer.now) }
    ensures { IfOk result (λ admitted. MatchOption admitted
        (C.shared_secret fresh.now.secret offer.now.public.now ≡ None)
        (Admits C.cipher C.group_number C.public_value C.shared_secret fresh.now moment serial
        (offer_view offer.now) spi_i request.now)) }
{
    let Some(agreed) = answer(alloc, caller, offer, spi_i, fresh)? else {
        return Ok(None);
    };
    let Agreed { record, octets } = agreed;
    let half_open = HalfOpen {
        keys: record,
        request: Items::from_slice(alloc, request)?,
        reply: Items::from_slice(alloc, octets.as_slice())?,
        made: moment,
    };
    let association = Association {
        serial,
        role: Role::Responder,
        spi_i,
        spi_r: fresh.spi,
        incoming: Incoming::after_initial(alloc),
        outgoing: Outgoing::new(alloc),
        phase: Phase::HalfOpen(half_open),
    };
    Ok(Some(Admitted {
        association,
        octets,
    }))
}

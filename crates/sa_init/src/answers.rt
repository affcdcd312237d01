//! What a responder sends (RFC 7296, sections 1.2, 2.6, 2.7 and 2.14).
ghost use Rattle.std.specs.Prelude.{◌≡◌, None, MatchOption, IfOk};
ghost use Rattle.wire.specs.Messages.{SpellsPlainly};
ghost use Rattle.sa_init.specs.Agreement.{IsAnswer};
ghost use Rattle.sa_init.specs.Fitting.{FitsMessage, FitsOffer};
ghost use Rattle.sa_init.specs.Judging.{offer_view};
ghost use Rattle.sa_init.specs.Messages.{answer_message, notice_message};

use crate::agreeing::{push_agreeing, wanted_by};
use crate::encoding::{nonce_fits, octets_of};
use crate::judging::Offer;
use base::Items;
use exchange::laws::notices_fit;
use exchange::{Notice, Role, sent_header};
use std::alloc::{AllocError, Global};
use suite::{Agreement, Fresh, KeyRecord, Sealer, ike_keys};
use wire::Message;
use wire::numbers::IKE_SA_INIT;

/// An answer that accepts an offer, and the keys of the IKE SA that it makes.
#[derive(Debug, Drop)]
pub struct Agreed {
    pub record: KeyRecord,
    /// The octets of the answer.
    pub octets: Items<u8>,
}

/// The answer to an offer that was accepted, and the keys that follow: SA with the chosen proposal, KE and
/// Nonce, with the SPI, the secret and the nonce that are fresh. `None` (E32) exactly where the agreement
/// refuses the public value. The only error is an allocation failure.
///
/// What is accepted of a message that was decoded fits (`accepted_offers_fit` in [`laws`](crate::laws)).
pub fn answer<C: Sealer + Agreement>(
    alloc: Global,
    caller: &C,
    offer: &Offer<'_>,
    spi_i: u64,
    fresh: &Fresh,
) -> Result<Option<Agreed>, AllocError>
    requires { FitsOffer (offer_view offer.now) }
    ensures { IfOk result (λ agreed. MatchOption agreed
        (C.shared_secret fresh.now.secret offer.now.public.now ≡ None)
        (IsAnswer C.cipher C.group_number C.public_value C.shared_secret
        (offer_view offer.now) spi_i fresh.now)) }
{
    nonce_fits(&fresh.nonce);
    let Some(shared) = caller.shared(alloc, &fresh.secret, offer.public)? else {
        return Ok(None);
    };
    let message = answer_message(alloc, caller, offer, spi_i, fresh)?;
    Ok(Some(Agreed {
        record: ike_keys(
            shared.as_slice(),
            offer.nonce,
            &fresh.nonce,
            spi_i,
            fresh.spi,
        ),
        octets: octets_of(alloc, &message)?,
    }))
}

fn answer_message<C: Sealer + Agreement>(
    alloc: Global,
    caller: &C,
    offer: &Offer<'_>,
    spi_i: u64,
    fresh: &Fresh,
) -> Result<Message, AllocError>
    requires { FitsOffer (offer_view offer.now) }
    ensures same { IfOk result (λ message. message ≡ answer_message C.cipher C.group_number
        (C.public_value fresh.now.secret) offer.now.chosen fresh.now.nonce spi_i fresh.now.spi) }
    ensures fits { IfOk result FitsMessage }
{
    let mut payloads = Items::new(alloc);
    let proposal = suite::answer(alloc, &wanted_by(caller), &offer.chosen, &[])?;
    push_agreeing(
        alloc,
        caller,
        proposal,
        &fresh.secret,
        &fresh.nonce,
        &mut payloads,
    )?;
    Ok(Message {
        header: sent_header(spi_i, fresh.spi, IKE_SA_INIT, Role::Responder, true, 0),
        payloads,
    })
}

/// The answer of a responder that keeps nothing of the request: a notification alone, with no SPI of its own.
/// The only error is an allocation failure.
pub fn refuse(alloc: Global, spi_i: u64, notice: &Notice) -> Result<Items<u8>, AllocError>
    ensures { IfOk result (SpellsPlainly (notice_message spi_i notice.now)) }
{
    notice.fits();
    notices_fit();
    let mut payloads = Items::new(alloc);
    payloads.push(notice.payload(alloc)?)?;
    let message = Message {
        header: sent_header(spi_i, 0, IKE_SA_INIT, Role::Responder, true, 0),
        payloads,
    };
    octets_of(alloc, &message)
}

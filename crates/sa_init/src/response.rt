//! What an initiator makes of a response (RFC 7296, sections 1.2, 2.6 and 2.14).
ghost use Rattle.std.specs.Prelude.{◌≡◌, ◌≢◌, ◌↔◌, Some, IfOk, IsOk, IsTrue, MatchOption};
ghost use Rattle.base.specs.Octets.{Octets};
ghost use Rattle.sa_init.specs.Fitting.{IsSpelled};
ghost use Rattle.sa_init.specs.Parts.{parts_view, PartsView};
ghost use Rattle.sa_init.specs.Reading.{waiting_view, AcceptsNothing, AsksCookie, IsAcceptance, IsResponse};

use crate::encoding::nonce_fits;
use crate::laws::spelled_parts_fit;
use crate::parts::{Parts, parts_of};
use exchange::asked_cookie;
use std::alloc::{AllocError, Global};
use suite::{Agreement, KeyRecord, Sealer, Wanted, accept, ike_keys};
use wire::Message;

/// So many cookies an initiator brings back at most, one after the other.
pub const COOKIES_TAKEN_LIMIT: u8 = 4;

/// What an initiator remembers of its request.
#[derive(Clone, Copy)]
pub struct Waiting<'a> {
    pub spi_i: u64,
    /// The secret of the key agreement.
    pub secret: &'a [u8; 32],
    pub nonce: &'a [u8; 32],
    /// The cookie that the request carried.
    pub cookie: Option<&'a [u8]>,
    /// How many cookies it has taken so far, this one counted.
    pub cookies_taken: u8,
}

/// What a response means.
#[derive(Debug, Drop)]
pub enum Response<'a> {
    /// The request is to be sent again with this cookie (RFC 7296, section 2.6).
    Cookie(&'a [u8]),
    /// The responder accepts the offer, and these are the keys.
    Keys(KeyRecord),
    /// E32: neither.
    Unfit,
}

/// What an initiator makes of a response to its request. The only error is an allocation failure, and none
/// comes where the agreement isn't asked: for a response that asks for a cookie, or doesn't accept what was
/// offered.
///
/// [`Response::Cookie`] where a cookie is the only payload, the responder's SPI is zero, the request did
/// not carry the same cookie, and fewer than [`COOKIES_TAKEN_LIMIT`] were taken. [`Response::Keys`] where
/// there is one SA, one KE and one Nonce, the SA accepts what was offered, the group is the caller's, the
/// responder's SPI is not zero, and the agreement takes the public value. [`Response::Unfit`] otherwise. A
/// payload that is not known is passed over, also where it is marked as critical: a rule of this
/// implementation against RFC 7296 section 2.5, which has the initiator ignore such a response.
///
/// The message is what some octets spell, so its nonce has 16 to 256 octets.
pub fn read<'a, C: Sealer + Agreement>(
    alloc: Global,
    caller: &C,
    message: &'a Message,
    sent: &Waiting<'_>,
) -> Result<Response<'a>, AllocError>
    requires { IsSpelled message.now }
    ensures read { IfOk result
        (IsResponse C.cipher C.group_number C.shared_secret (waiting_view sent.now) message.now) }
    ensures early { AcceptsNothing C.cipher C.group_number message.now → IsOk result }
{
    let own_nonce = sent.nonce;
    let secret = sent.secret;
    spelled_parts_fit();
    nonce_fits(own_nonce);
    if let Some(octets) = cookie_to_bring(message, sent) {
        return Ok(Response::Cookie(octets));
    }
    let Some(parts) = accepted_parts(caller, message) else {
        return Ok(Response::Unfit);
    };
    let Some(shared) = caller.shared(alloc, secret, parts.public)? else {
        return Ok(Response::Unfit);
    };
    Ok(Response::Keys(ike_keys(
        shared.as_slice(),
        own_nonce,
        parts.nonce,
        sent.spi_i,
        message.header.spi_r,
    )))
}

// The cookie with which the request is to be sent again.
fn cookie_to_bring<'a>(message: &'a Message, sent: &Waiting<'_>) -> Option<&'a [u8]>
    ensures { MatchOption result
        ((octets : Octets) → ¬ AsksCookie (waiting_view sent.now) message.now octets)
        (λ octets. AsksCookie (waiting_view sent.now) message.now octets.now) }
{
    let octets = asked_cookie(message.payloads.as_slice())?;
    if message.header.spi_r == 0
        && sent.cookies_taken < COOKIES_TAKEN_LIMIT
        && is_another(sent, octets)
    {
        Some(octets)
    } else {
        None
    }
}

// Whether the request did not carry this cookie.
fn is_another(sent: &Waiting<'_>, octets: &[u8]) -> bool
    ensures { IsTrue result ↔ ((waiting_view sent.now).cookie ≢ Some octets.now) }
{
    match sent.cookie {
        Some(carried) => carried != octets,
        None => true,
    }
}

// The parts of a response that accepts what was offered.
#[tactic(auto, using(crate::proofs::PartLemmas::refused_by_group))]
fn accepted_parts<'a, C: Sealer + Agreement>(caller: &C, message: &'a Message) -> Option<Parts<'a>>
    ensures { MatchOption result
        ((parts : PartsView) → ¬ IsAcceptance C.cipher C.group_number message.now parts)
        (λ parts. IsAcceptance C.cipher C.group_number message.now (parts_view parts)) }
{
    let parts = parts_of(message.payloads.as_slice())?;
    if message.header.spi_r == 0 {
        return None;
    }
    if parts.group != caller.group() {
        return None;
    }
    let Some(_) = accept(parts.proposals, &Wanted::ike(caller)) else {
        return None;
    };
    Some(parts)
}

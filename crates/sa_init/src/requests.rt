//! The initiator's request (RFC 7296, sections 1.2 and 2.6).
ghost use Rattle.std.specs.Prelude.{◌≡◌, ◌≤◌, length, IfOk};
ghost use Rattle.std.specs.Option.{option_copied, ForSome};
ghost use Rattle.wire.specs.Messages.{SpellsPlainly};
ghost use Rattle.sa_init.specs.Fitting.{FitsCookie, FitsMessage};
ghost use Rattle.sa_init.specs.Messages.{cookie_payloads, request_message};

use crate::agreeing::{push_agreeing, wanted_by};
use crate::encoding::{octets_fit, octets_of};
use base::Items;
use exchange::{Role, returned_cookie, sent_header};
use std::alloc::{AllocError, Global};
use suite::{Agreement, Sealer, offer};
use wire::numbers::IKE_SA_INIT;
use wire::{Message, Payload};

/// The request of an initiator of this SPI: SA, KE and Nonce, with the public value of a secret and a nonce,
/// both fresh for the IKE SA. A cookie that a responder asked for, of at most 64 octets, stands before them,
/// and nothing else changes (RFC 7296, section 2.6). The only error is an allocation failure.
pub fn request<C: Sealer + Agreement>(
    alloc: Global,
    caller: &C,
    spi_i: u64,
    cookie: Option<&[u8]>,
    secret: &[u8; 32],
    nonce: &[u8; 32],
) -> Result<Items<u8>, AllocError>
    requires { ForSome cookie (λ octets. length octets.now ≤ 64) }
    ensures { IfOk result (SpellsPlainly (request_message C.cipher C.group_number
        (C.public_value secret.now) spi_i (option_copied cookie.entry) nonce.now)) }
{
    let message = request_message(alloc, caller, spi_i, cookie, secret, nonce)?;
    octets_of(alloc, &message)
}

fn request_message<C: Sealer + Agreement>(
    alloc: Global,
    caller: &C,
    spi_i: u64,
    cookie: Option<&[u8]>,
    secret: &[u8; 32],
    nonce: &[u8; 32],
) -> Result<Message, AllocError>
    requires { ForSome cookie (λ octets. length octets.now ≤ 64) }
    ensures same { IfOk result (λ message. message ≡ request_message C.cipher C.group_number
        (C.public_value secret.now) spi_i (option_copied cookie.entry) nonce.now) }
    ensures fits { IfOk result FitsMessage }
{
    let mut payloads = cookie_payloads(alloc, cookie)?;
    let proposal = offer(alloc, &wanted_by(caller), &[])?;
    push_agreeing(alloc, caller, proposal, secret, nonce, &mut payloads)?;
    Ok(Message {
        header: sent_header(spi_i, 0, IKE_SA_INIT, Role::Initiator, false, 0),
        payloads,
    })
}

// A cookie stands before all other payloads (RFC 7296, section 2.6).
fn cookie_payloads(alloc: Global, cookie: Option<&[u8]>) -> Result<Items<Payload>, AllocError>
    requires { ForSome cookie (λ octets. length octets.now ≤ 64) }
    ensures same { IfOk result (λ payloads. payloads ≡ cookie_payloads (option_copied cookie.entry)) }
    ensures fits { FitsCookie (option_copied cookie.entry) }
{
    let mut payloads = Items::new(alloc);
    if let Some(octets) = cookie {
        octets_fit(octets);
        payloads.push(returned_cookie(alloc, octets)?)?;
    }
    Ok(payloads)
}

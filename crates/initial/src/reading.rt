//! The response to IKE_SA_INIT.
ghost use Rattle.std.specs.Prelude.{◌≡◌, ◌≤◌, ◌<◌, IfOk, IfErr, IsOk, length};
ghost use Rattle.wire.specs.Messages.{Spells, SpellsPlainly};
ghost use Rattle.exchange.specs.Headers.{keys_of};
ghost use Rattle.exchange.specs.Sealed.{PAYLOADS_LIMIT, IsSealed};
ghost use Rattle.requests.specs.Outgoing.{IsOutstanding};
ghost use Rattle.sa_init.specs.Reading.{waiting_view};
ghost use Rattle.setup.specs.Configs.{setup_of};
ghost use Rattle.initial.specs.Reading.{asker_by, carrying, identity_message, telling, waiting_of, IsUnfitAtOnce, ReadsWhereWaiting, TakesFew};
ghost use Rattle.std.specs.Prelude.{Some};
ghost use Rattle.sa_init.specs.Messages.{request_message};
ghost use Rattle.association.specs.AskedChildren.{asked_of};
ghost use Rattle.auth.specs.Fitting.{FitWithin};
ghost use Rattle.auth.specs.Proofs.{proving_of};
ghost use Rattle.auth.specs.Requests.{auth_request};
ghost use Rattle.children.specs.Asking.{child_request};
ghost use Rattle.exchange.specs.declared.headers.Role.TheVariants.{Initiator};

use association::{
    AskedChild, Association, AuthSent, InitSent, Phase, Purpose, issued, new_request,
};
use auth::laws::what_is_sent_fits;
use auth::{Proving, request};
use base::Items;
use children::ask;
use children::laws::payloads_fit;
use exchange::laws::{cookies_are_short, short_messages_can_be_sent};
use exchange::{Role, sealed_message, sent_header};
use requests::Outgoing;
use sa_init::{Response, Waiting, read};
use setup::Setup;
use std::alloc::{AllocError, Global};
use std::mem;
use suite::{Agreement, KeyRecord, Proof, Sealer};
use wire::numbers::IKE_AUTH;
use wire::{Message, Payload};

/// What an initiator does about the response to IKE_SA_INIT.
#[derive(Debug, Drop)]
pub enum Continued {
    /// IKE_SA_INIT goes out again with a cookie.
    Again(Items<u8>),
    /// The IKE SA has its keys, and IKE_AUTH goes out.
    AsksAuth(Items<u8>),
    /// E32: the response doesn't fit, or none is waited for, and nothing is changed.
    Unfit,
}

/// Goes on by the response to IKE_SA_INIT (RFC 7296, sections 1.2 and 2.6), as [`sa_init::read`] reads it.
/// Where it asks for a cookie, the request goes out again with it, and its timer runs anew. Where it gives
/// keys, the IKE SA has them and the responder's SPI from now on, and IKE_AUTH goes out as the request with
/// Message ID 1. That has this end's identity and its proof, what it asks for its first Child SA, and its
/// window where that is above 1. Where this end doesn't wait for the response, it is [`Continued::Unfit`].
///
/// The caller asks only where a request with this Message ID is outstanding, and the octets are those that
/// the message was decoded from. The only error is an allocation failure, and it changes nothing. None comes
/// where this end doesn't wait for the response, nor for one that asks for no cookie that is to be brought and
/// doesn't accept what was offered.
pub fn read_response<C: Sealer + Agreement + Proof>(
    alloc: Global,
    setup: &Setup<'_, C>,
    association: &mut Association,
    number: u32,
    octets: &[u8],
    message: &Message,
) -> Result<Continued, AllocError>
    requires spelled { Spells message.now octets.now }
    requires outstanding { IsOutstanding association.old.outgoing number }
    ensures read { IfOk result (λ continued. ReadsWhereWaiting
        (asker_by C.Sealer C.Agreement C.Proof setup.now.caller.now)
        (setup_of setup.now) association.old number octets.now message.now continued association.new) }
    ensures refused { IfErr result (λ _. association.new ≡ association.old) }
    ensures early { IsUnfitAtOnce C.cipher C.group_number association.old message.now → IsOk result }
{
    cookies_are_short();
    let Phase::InitSent(sent) = &association.phase else {
        return Ok(Continued::Unfit);
    };
    let waiting = waiting(association.spi_i, sent);
    match read(alloc, setup.caller, message, &waiting) {
        Ok(Response::Cookie(cookie)) => {
            let again = request_again(alloc, setup, association.spi_i, sent, cookie)?;
            // From here on nothing can be refused.
            let request = new_request(again.kept, Purpose::Begin, setup.moment);
            let _ = association.outgoing.replace(number, request);
            carry(association, again.cookie);
            Ok(Continued::Again(again.octets))
        }
        Ok(Response::Keys(keys)) => {
            let first = association.outgoing.get(number).unwrap();
            let next = identity_request(
                alloc,
                setup,
                association,
                sent,
                message.header.spi_r,
                &keys,
                first.octets.as_slice(),
            )?;
            let kept = Items::from_slice(alloc, next.as_slice())?;
            let response = Items::from_slice(alloc, octets)?;
            let outgoing = issued(
                Outgoing::after_initial(alloc),
                new_request(kept, Purpose::Identify, setup.moment),
            )?;
            // From here on nothing can be refused.
            association.spi_r = message.header.spi_r;
            association.outgoing = outgoing;
            tell(association, keys, response);
            Ok(Continued::AsksAuth(next))
        }
        Ok(Response::Unfit) => Ok(Continued::Unfit),
        Err(fault) => Err(fault),
    }
}

// IKE_SA_INIT with a cookie.
#[derive(Drop)]
struct Again {
    octets: Items<u8>,
    kept: Items<u8>,
    cookie: Items<u8>,
}

fn request_again<C: Sealer + Agreement>(
    alloc: Global,
    setup: &Setup<'_, C>,
    spi_i: u64,
    sent: &InitSent,
    cookie: &[u8],
) -> Result<Again, AllocError>
    requires { length cookie.now ≤ 64 }
    ensures spelled { IfOk result (λ again. SpellsPlainly (request_message C.cipher C.group_number
        (C.public_value sent.now.secret) spi_i (Some cookie.now) sent.now.nonce) again.octets) }
    ensures kept { IfOk result (λ again. again.kept ≡ again.octets) }
    ensures cookie { IfOk result (λ again. again.cookie ≡ cookie.now) }
{
    let octets = sa_init::request(
        alloc,
        setup.caller,
        spi_i,
        Some(cookie),
        &sent.secret,
        &sent.nonce,
    )?;
    Ok(Again {
        kept: Items::from_slice(alloc, octets.as_slice())?,
        cookie: Items::from_slice(alloc, cookie)?,
        octets,
    })
}

// The request carries this cookie from now on.
fn carry(association: &mut Association, cookie: Items<u8>)
    requires { TakesFew association.old.phase }
    ensures { association.new ≡ record association.old { phase = carrying cookie association.old.phase } }
{
    if let Phase::InitSent(sent) = &mut association.phase {
        sent.cookie = Some(cookie);
        sent.cookies_taken += 1;
    }
}

fn identity_request<C: Sealer + Proof>(
    alloc: Global,
    setup: &Setup<'_, C>,
    association: &Association,
    sent: &InitSent,
    spi_r: u64,
    keys: &KeyRecord,
    first: &[u8],
) -> Result<Items<u8>, AllocError>
    ensures { IfOk result (IsSealed C.body_of (keys_of association.now.role keys.now) setup.now.fresh.now.seal
        (identity_message (C.own_method setup.now.caller.now) (C.proof_of setup.now.caller.now)
        (setup_of setup.now)
        association.now sent.now spi_r keys.now first.now)) }
{
    short_messages_can_be_sent();
    let payloads = identity_payloads(alloc, setup, &sent.child, keys, first)?;
    let role = association.role;
    let message = Message {
        header: sent_header(association.spi_i, spi_r, IKE_AUTH, role, false, 1),
        payloads,
    };
    sealed_message(alloc, setup.caller, role, keys, &message, &setup.fresh.seal)
}

fn identity_payloads<C: Proof>(
    alloc: Global,
    setup: &Setup<'_, C>,
    child: &AskedChild,
    keys: &KeyRecord,
    first: &[u8],
) -> Result<Items<Payload>, AllocError>
    ensures payloads { IfOk result (λ payloads. payloads ≡ auth_request
        (C.own_method setup.now.caller.now)
        (C.proof_of setup.now.caller.now) setup.now.config.now.own.identity
        (proving_of Initiator keys.now first.now)
        (child_request (asked_of child.now)) setup.now.config.now.window) }
    ensures fits { IfOk result (FitWithin PAYLOADS_LIMIT) }
{
    payloads_fit();
    what_is_sent_fits();
    let asked = child.asked();
    let proving = Proving::of(Role::Initiator, keys, first);
    request(
        alloc,
        setup.caller,
        &setup.config.own().identity,
        &proving,
        ask(alloc, &asked)?,
        setup.config.window(),
    )
}

// The keys are there, and the peer's identity is asked for.
fn tell(association: &mut Association, keys: KeyRecord, first: Items<u8>)
    ensures { association.new ≡ record association.old { phase = telling keys first association.old.phase } }
{
    let phase = mem::replace(&mut association.phase, Phase::Closed { keys: None, at: 0 });
    association.phase = telling(phase, keys, first);
}

fn telling(phase: Phase, keys: KeyRecord, first: Items<u8>) -> Phase
    ensures { result ≡ telling keys first phase }
{
    match phase {
        Phase::InitSent(sent) => Phase::AuthSent(AuthSent {
            keys,
            first,
            child: sent.child,
        }),
        other => other,
    }
}

fn waiting(spi_i: u64, sent: &InitSent) -> Waiting<'_>
    ensures { waiting_view result ≡ waiting_of spi_i sent.now }
{
    Waiting {
        spi_i,
        secret: &sent.secret,
        nonce: &sent.nonce,
        cookie: match &sent.cookie {
            Some(cookie) => Some(cookie.as_slice()),
            None => None,
        },
        cookies_taken: sent.cookies_taken,
    }
}

//! What a message is allowed to be.
ghost use Rattle.std.specs.Prelude.{◌≡◌, ◌≢◌, true, false, None, IfErr, IfOk};
ghost use Rattle.exchange.specs.Sealed.{lone_body};
ghost use Rattle.wire.specs.Messages.{Spells};
ghost use Rattle.association.specs.Phases.{keys_in};
ghost use Rattle.association.specs.Receiving.{admits, fresh_reception, is_closed, opened_by, received_view, reception_of_response, IsReceived, IsReceivedRequest, IsUndecided, IsUndecidedRequest, TellsSought, is_undecided_response};

use crate::{Association, MessageFault, Phase, Sought};
use base::Items;
use exchange::{Plain, open_message};
use requests::Judgement;
use std::alloc::{AllocError, Global};
use suite::Sealer;
use wire::Message;
use wire::numbers::{CREATE_CHILD_SA, IKE_AUTH, INFORMATIONAL};

/// What a message is to the IKE SA that it is for.
#[derive(Debug, Drop)]
pub enum Received {
    /// It is dropped.
    Refused(MessageFault),
    /// A request that was processed before. These octets answered it, and answer it again (RFC 7296, section
    /// 2.1).
    Repeat(Items<u8>),
    /// A request that is to be processed, with its payloads.
    Request(Plain),
    /// The response to the outstanding request with its Message ID.
    Response {
        /// What that request asked for.
        sought: Sought,
        /// The payloads of the response.
        plain: Plain,
    },
    /// The response to IKE_SA_INIT, whose payloads are not encrypted.
    InitialResponse,
}

/// What a message is to the IKE SA that [`find`](crate::find) found for it (RFC 7296, sections 2.1 to 2.3 and
/// 3.14). The octets are those that the message was decoded from.
///
/// A response, in this order: [`MessageFault::WrongPhase`] where the IKE SA is closed,
/// [`MessageFault::OutsideWindow`] where no request with its Message ID is outstanding,
/// [`MessageFault::WrongPhase`] where that has another exchange, and, but for IKE_SA_INIT,
/// [`MessageFault::NotOpened`].
///
/// A request: [`MessageFault::Forgotten`] or [`MessageFault::OutsideWindow`] by its Message ID,
/// [`MessageFault::WrongPhase`] where it is fresh and the IKE SA closed, [`MessageFault::NotOpened`]. Then
/// one that was processed is a retransmission. A fresh one is refused by [`MessageFault::WrongPhase`] where
/// its exchange doesn't belong to the phase: IKE_AUTH to a half-open IKE SA, CREATE_CHILD_SA and
/// INFORMATIONAL to an established one.
///
/// The only error is an allocation failure. Memory is taken only for a message that is opened, and for a
/// cached response that is sent again.
pub fn receive<S: Sealer>(
    alloc: Global,
    sealer: &S,
    association: &Association,
    octets: &[u8],
    message: &Message,
) -> Result<Received, AllocError>
    requires { Spells message.now octets.now }
    ensures received { IfOk result (λ received.
        IsReceived S.plain_of association.now octets.now message.now (received_view received)) }
    ensures sought { IfOk result (TellsSought association.now.outgoing message.now.header.id) }
    ensures memory { IfErr result (λ _. IsUndecided association.now message.now) }
{
    if message.header.flags.response {
        receive_response(alloc, sealer, association, octets, message)
    } else {
        receive_request(alloc, sealer, association, octets, message)
    }
}

fn receive_response<S: Sealer>(
    alloc: Global,
    sealer: &S,
    association: &Association,
    octets: &[u8],
    message: &Message,
) -> Result<Received, AllocError>
    requires { Spells message.now octets.now }
    ensures received { IfOk result (λ received. received_view received
        ≡ reception_of_response S.plain_of association.now octets.now message.now) }
    ensures sought { IfOk result (TellsSought association.now.outgoing message.now.header.id) }
    ensures memory { IfErr result (λ _. (is_undecided_response association.now message.now.header ≡ true)
        × (lone_body message.now.payloads ≢ None) × (keys_in association.now.phase ≢ None)) }
{
    if let Phase::Closed { .. } = &association.phase {
        return Ok(Received::Refused(MessageFault::WrongPhase));
    }
    let Some(request) = association.outgoing.get(message.header.id) else {
        return Ok(Received::Refused(MessageFault::OutsideWindow));
    };
    if request.purpose.exchange() != message.header.exchange {
        return Ok(Received::Refused(MessageFault::WrongPhase));
    }
    if let Phase::InitSent(_) = &association.phase {
        return Ok(Received::InitialResponse);
    }
    match opened(alloc, sealer, association, octets, message)? {
        Some(plain) => Ok(Received::Response {
            sought: request.purpose.sought(),
            plain,
        }),
        None => Ok(Received::Refused(MessageFault::NotOpened)),
    }
}

fn receive_request<S: Sealer>(
    alloc: Global,
    sealer: &S,
    association: &Association,
    octets: &[u8],
    message: &Message,
) -> Result<Received, AllocError>
    requires { Spells message.now octets.now }
    ensures received { IfOk result (λ received.
        IsReceivedRequest S.plain_of association.now octets.now message.now (received_view received)) }
    ensures sought { IfOk result (TellsSought association.now.outgoing message.now.header.id) }
    ensures memory { IfErr result (λ _. IsUndecidedRequest association.now message.now.header
        × (lone_body message.now.payloads ≢ None) × (keys_in association.now.phase ≢ None)) }
{
    match association.incoming.judge(message.header.id) {
        Judgement::Forgotten => Ok(Received::Refused(MessageFault::Forgotten)),
        Judgement::Outside => Ok(Received::Refused(MessageFault::OutsideWindow)),
        Judgement::Repeat(reply) => {
            match opened(alloc, sealer, association, octets, message)? {
                Some(_) => Ok(Received::Repeat(Items::from_slice(alloc, reply)?)),
                None => Ok(Received::Refused(MessageFault::NotOpened)),
            }
        }
        Judgement::Fresh => receive_fresh(alloc, sealer, association, octets, message),
    }
}

// A request that was not processed yet, and lies in the window.
fn receive_fresh<S: Sealer>(
    alloc: Global,
    sealer: &S,
    association: &Association,
    octets: &[u8],
    message: &Message,
) -> Result<Received, AllocError>
    requires { Spells message.now octets.now }
    ensures received { IfOk result (λ received. received_view received
        ≡ fresh_reception association.now.phase message.now.header.exchange
        (opened_by S.plain_of association.now octets.now message.now.payloads)) }
    ensures sought { IfOk result (TellsSought association.now.outgoing message.now.header.id) }
    ensures memory { IfErr result (λ _. (is_closed association.now.phase ≡ false)
        × (lone_body message.now.payloads ≢ None) × (keys_in association.now.phase ≢ None)) }
{
    if let Phase::Closed { .. } = &association.phase {
        return Ok(Received::Refused(MessageFault::WrongPhase));
    }
    match opened(alloc, sealer, association, octets, message)? {
        None => Ok(Received::Refused(MessageFault::NotOpened)),
        Some(plain) if admits(&association.phase, message.header.exchange) => Ok(Received::Request(
            plain,
        )),
        Some(_) => Ok(Received::Refused(MessageFault::WrongPhase)),
    }
}

// Whether requests of this exchange belong to the phase.
fn admits(phase: &Phase, exchange: u8) -> bool
    ensures { result ≡ admits phase.now exchange }
{
    match phase {
        Phase::HalfOpen(_) => exchange == IKE_AUTH,
        Phase::Established(_) => exchange == CREATE_CHILD_SA || exchange == INFORMATIONAL,
        _ => false,
    }
}

// What the message opens to under the peer's keys, where there are any.
fn opened<S: Sealer>(
    alloc: Global,
    sealer: &S,
    association: &Association,
    octets: &[u8],
    message: &Message,
) -> Result<Option<Plain>, AllocError>
    requires { Spells message.now octets.now }
    ensures opened { IfOk result
        (λ plain. plain ≡ opened_by S.plain_of association.now octets.now message.now.payloads) }
    ensures memory { IfErr result (λ _. (lone_body message.now.payloads ≢ None)
        × (keys_in association.now.phase ≢ None)) }
{
    let Some(keys) = association.keys() else {
        return Ok(None);
    };
    let keys = association.role.other().keys(keys);
    open_message(alloc, sealer, &keys, octets, message)
}

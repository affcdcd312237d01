//! The answer to IKE_AUTH.
ghost use Rattle.std.specs.Prelude.{◌≡◌, ◌≤◌, IfOk, IfErr};
ghost use Rattle.exchange.specs.Headers.{keys_of};
ghost use Rattle.exchange.specs.Sealed.{PAYLOADS_LIMIT, CanBeSealed, IsSealed};
ghost use Rattle.requests.specs.Incoming.{IsFreshRequest};
ghost use Rattle.sadb.specs.Database.{IsAsBefore};
ghost use Rattle.association.specs.Closing.{HoldsReserved};
ghost use Rattle.auth.specs.Fitting.{FitWithin};
ghost use Rattle.auth.specs.Answers.{auth_answer};
ghost use Rattle.exchange.specs.Children.{answering_payloads};
ghost use Rattle.initial.specs.Answering.{child_answer, outcome_of, pair_of, prover_by, reply_payloads, AnswersWhereHalfOpen};
ghost use Rattle.association.specs.Sending.{reply_message};
ghost use Rattle.children.specs.Faults.{CanBeWanted};
ghost use Rattle.setup.specs.Configs.{setup_of};
ghost use Rattle.initial.specs.Deciding.{own_proving, FitsDecision, FitsResponse};
ghost use Rattle.wire.specs.Numbers.{IKE_AUTH};

use crate::concluding::{Outcome, conclude};
use crate::deciding::{Decision, decide};
use association::laws::spis_stay_held;
use association::{Answered, Association, HalfOpen, Phase};
use auth::laws::what_is_sent_fits;
use auth::{Proving, answer};
use base::Items;
use children::{MemoryFault, Response};
use exchange::laws::{notices_fit, short_messages_can_be_sent};
use exchange::{ChildAnswer, Plain, Role, sealed_message, sent_header};
use sadb::{Pair, Table};
use setup::Setup;
use std::alloc::{AllocError, Global};
use suite::{Proof, Sealer};
use wire::numbers::IKE_AUTH;
use wire::{Message, Payload};

/// Answers a request of IKE_AUTH at a half-open IKE SA (RFC 7296, section 1.2), by the payloads that it
/// opened to.
///
/// The IKE SA is closed, and the reply is one Notify payload, where the payloads are not in the grammar
/// (INVALID_SYNTAX), or the peer is refused by [`auth::judge`]. Otherwise it is established: the reply has
/// this end's identity and its proof, what [`children::respond`] answers for the Child SA, and the window of
/// this end where it is above 1. From then on both windows apply (section 2.3): this end's as configured, the
/// peer's as it told, 1 where it told none. It is `None`, and nothing is changed, where the IKE SA is not
/// half-open.
///
/// The caller asks only where the request is fresh and the SPIs that the IKE SA holds are reserved in the
/// table. The only error is an allocation failure, for a place in the table as [`children::respond`] says:
/// IKE SA and table are as they were then, but for the table's spare capacity.
pub fn answer_auth<C: Sealer + Proof>(
    alloc: Global,
    setup: &Setup<'_, C>,
    association: &mut Association,
    table: &mut Table,
    number: u32,
    plain: &Plain,
) -> Result<Option<Answered>, MemoryFault>
    requires fresh { IsFreshRequest association.old.incoming number }
    requires reserved { HoldsReserved association.old table.old }
    ensures answered { IfOk result (λ answered. AnswersWhereHalfOpen
        (prover_by C.Sealer C.Proof setup.now.caller.now)
        (setup_of setup.now) association.old table.old number plain.now
        answered association.new table.new) }
    ensures refused { IfErr result
        (λ _. (association.new ≡ association.old) × IsAsBefore table.old table.new) }
    ensures wanted { IfErr result (CanBeWanted table.old) }
{
    let Phase::HalfOpen(half_open) = &association.phase else {
        return Ok(None);
    };
    spis_stay_held();
    let decision = decide(alloc, setup, table, association.serial, half_open, plain)?;
    let reply = make_reply(alloc, setup, association, half_open, number, decision)?;
    let kept = Items::from_slice(alloc, reply.octets.as_slice())?;
    association.incoming.prepare()?;
    // From here on nothing can be refused.
    association.incoming.take(number, kept);
    let fate = conclude(setup, association, table, reply.outcome);
    Ok(Some(Answered {
        octets: reply.octets,
        fate,
    }))
}

// A reply, and what it brings the IKE SA to.
#[derive(Drop)]
struct Reply {
    octets: Items<u8>,
    outcome: Outcome,
}

fn make_reply<C: Sealer + Proof>(
    alloc: Global,
    setup: &Setup<'_, C>,
    association: &Association,
    half_open: &HalfOpen,
    number: u32,
    decision: Decision,
) -> Result<Reply, AllocError>
    requires fits { FitsDecision decision }
    ensures sealed { IfOk result
        (λ reply. IsSealed C.body_of (keys_of association.now.role half_open.now.keys)
        setup.now.fresh.now.seal (reply_message association.now IKE_AUTH number (reply_payloads
        (C.own_method setup.now.caller.now) (C.proof_of setup.now.caller.now)
        (setup_of setup.now) half_open.now decision)) reply.octets) }
    ensures outcome { IfOk result (λ reply. reply.outcome ≡ outcome_of decision) }
{
    short_messages_can_be_sent();
    let Content { payloads, outcome } = make_content(alloc, setup, half_open, decision)?;
    let role = association.role;
    let message = Message {
        header: sent_header(
            association.spi_i,
            association.spi_r,
            IKE_AUTH,
            role,
            true,
            number,
        ),
        payloads,
    };
    let octets = sealed_message(
        alloc,
        setup.caller,
        role,
        &half_open.keys,
        &message,
        &setup.fresh.seal,
    )?;
    Ok(Reply { octets, outcome })
}

// What a reply says, and what it brings the IKE SA to.
#[derive(Drop)]
struct Content {
    payloads: Items<Payload>,
    outcome: Outcome,
}

fn make_content<C: Proof>(
    alloc: Global,
    setup: &Setup<'_, C>,
    half_open: &HalfOpen,
    decision: Decision,
) -> Result<Content, AllocError>
    requires fits { FitsDecision decision }
    ensures payloads { IfOk result (λ content. content.payloads ≡ reply_payloads
        (C.own_method setup.now.caller.now) (C.proof_of setup.now.caller.now)
        (setup_of setup.now) half_open.now decision) }
    ensures outcome { IfOk result (λ content. content.outcome ≡ outcome_of decision) }
    ensures fits { IfOk result (λ content. FitWithin PAYLOADS_LIMIT content.payloads) }
{
    match decision {
        Decision::Refused(notice) => {
            notices_fit();
            let mut payloads = Items::new(alloc);
            payloads.push(notice.payload(alloc)?)?;
            Ok(Content {
                payloads,
                outcome: Outcome::Closes,
            })
        }
        Decision::Accepted { response, window } => {
            let (child, pair) = parts_of(response);
            Ok(Content {
                payloads: accepting(alloc, setup, half_open, child)?,
                outcome: Outcome::Establishes { pair, window },
            })
        }
    }
}

// The payloads of a reply to a peer that proved its identity.
fn accepting<C: Proof>(
    alloc: Global,
    setup: &Setup<'_, C>,
    half_open: &HalfOpen,
    child: ChildAnswer,
) -> Result<Items<Payload>, AllocError>
    requires fits { FitWithin 1400 (answering_payloads child) }
    ensures payloads { IfOk result (λ payloads. payloads ≡ auth_answer
        (C.own_method setup.now.caller.now) (C.proof_of setup.now.caller.now)
        setup.now.config.now.own.identity (own_proving half_open.now) child setup.now.config.now.window) }
    ensures fits { IfOk result (FitWithin PAYLOADS_LIMIT) }
{
    what_is_sent_fits();
    let proving = Proving::of(Role::Responder, &half_open.keys, half_open.reply.as_slice());
    answer(
        alloc,
        setup.caller,
        &setup.config.own().identity,
        &proving,
        child,
        setup.config.window(),
    )
}

// What the reply says of the Child SA, and the SA pair that this end has of it.
fn parts_of(response: Response) -> (ChildAnswer, Option<Pair>)
    requires { FitsResponse response }
    ensures answer { result.0 ≡ child_answer response }
    ensures pair { result.1 ≡ pair_of response }
    ensures fits { FitWithin 1400 (answering_payloads result.0) }
{
    notices_fit();
    match response {
        Response::Made(made) => (ChildAnswer::Payloads(made.payloads), Some(made.pair)),
        Response::Refused(notice) => (ChildAnswer::Notice(notice), None),
    }
}

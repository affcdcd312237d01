//! What a responder decides about a request for an additional Child SA.
ghost use Rattle.std.specs.Prelude.{◌≡◌, IfErr, IfOk, Some};
ghost use Rattle.std.specs.List.{AllByRecursion};
ghost use Rattle.wire.specs.Sizes.{FitsFields};
ghost use Rattle.exchange.specs.Children.{offered, CanBeAnswered};
ghost use Rattle.sadb.specs.Database.{IsAsBefore};
ghost use Rattle.children.specs.Faults.{CanBeWanted};
ghost use Rattle.setup.specs.Configs.{setup_of};
ghost use Rattle.further.specs.Answering.{answer_to_further, further_pair, FitsAnswer};
ghost use Rattle.further.specs.Deciding.{further_setting, is_closing_decision, DecidesFurther, DecidesFurtherBy, DecidesFurtherOn, FitsFurtherDecision, IsFurtherRefusedAtOnce, IsRefusedFurther, LeavesRoomForFurther};
ghost use Rattle.further.specs.Judging.{further_request_view, Admitted};

use crate::{FurtherRequest, Judgement, judge};
use children::laws::payloads_fit;
use children::{Made, MemoryFault, Response, Setting, respond};
use exchange::laws::what_counts_fits;
use exchange::{ChildAnswer, Notice, Plain, read_chain};
use sadb::{Pair, Table};
use setup::Setup;
use std::alloc::Global;
use suite::{KeyRecord, child_keys};
use wire::Payload;
use wire::laws::{octets_spell_one_message, what_is_read_fits};

/// What is decided.
#[derive(Drop)]
pub enum Decision {
    /// No Child SA is made, for what the notification says.
    Refused(Notice),
    /// A Child SA is made.
    Made(Made),
}

impl Decision {
    /// Whether it ends the IKE SA: so does INVALID_SYNTAX alone (RFC 7296, section 2.21.3).
    pub fn is_closing(&self) -> bool
        ensures { result ≡ is_closing_decision self.now }
    {
        match self {
            Decision::Refused(Notice::InvalidSyntax) => true,
            Decision::Refused(_) | Decision::Made(_) => false,
        }
    }

    /// What the answer says, for [`answer_payloads`](crate::answer_payloads), and the responder's SA pair,
    /// for [`children::install`].
    pub fn into_parts(self) -> (ChildAnswer, Option<Pair>)
        ensures answer { result.0 ≡ answer_to_further self }
        ensures pair { result.1 ≡ further_pair self }
        ensures fits { FitsFurtherDecision self → FitsAnswer result.0 }
    {
        match self {
            Decision::Refused(notice) => (ChildAnswer::Notice(notice), None),
            Decision::Made(made) => (ChildAnswer::Payloads(made.payloads), Some(made.pair)),
        }
    }
}

/// What is decided about a request for an additional Child SA (RFC 7296, sections 1.3 and 1.3.1), by the
/// payloads that it opened to, under the IKE SA of this serial and these keys. `deleting` tells whether a
/// request of this end to delete it is outstanding.
///
/// Refused, in this order:
///
/// 1. INVALID_SYNTAX where the payloads are not in the grammar (section 2.21.3).
/// 2. UNSUPPORTED_CRITICAL_PAYLOAD (section 2.5), NO_ADDITIONAL_SAS (section 1.3) and INVALID_SYNTAX
///    (section 3.10.1), as [`judge`] tells.
/// 3. NO_PROPOSAL_CHOSEN (section 2.7), TS_UNACCEPTABLE (section 2.9) and NO_ADDITIONAL_SAS, the table
///    being full or its SPIs spent, as [`children::respond`] tells.
///
/// Otherwise a child is made, under the keys that come of the request's nonce and of this end's, the step's
/// fresh one (section 2.17). What is decided can be sent.
///
/// Of the table its spare capacity alone changes, also after an error, and not even that where 1 or 2
/// applies; where a child is made, the table can take its SA pair, as [`children::install`] wants it. The
/// only error is an allocation failure.
pub fn decide<C>(
    alloc: Global,
    setup: &Setup<'_, C>,
    table: &mut Table,
    ike: u32,
    keys: &KeyRecord,
    deleting: bool,
    plain: &Plain,
) -> Result<Decision, MemoryFault>
    ensures decided { IfOk result
        (DecidesFurther (setup_of setup.now) ike keys.now table.old deleting plain.now) }
    ensures table { IsAsBefore table.old table.new }
    ensures wanted { IfErr result (CanBeWanted table.old) }
    ensures early { IsFurtherRefusedAtOnce deleting plain.now → table.new ≡ table.old }
    ensures room { IfOk result (λ decision. LeavesRoomForFurther decision table.new) }
    ensures fits { IfOk result FitsFurtherDecision }
{
    what_is_read_fits();
    octets_spell_one_message();
    match read_chain(alloc, plain)? {
        None => Ok(Decision::Refused(Notice::InvalidSyntax)),
        Some(payloads) => decide_on(
            alloc,
            setup,
            table,
            ike,
            keys,
            deleting,
            payloads.as_slice(),
        ),
    }
}

// What is decided about these payloads.
fn decide_on<C>(
    alloc: Global,
    setup: &Setup<'_, C>,
    table: &mut Table,
    ike: u32,
    keys: &KeyRecord,
    deleting: bool,
    payloads: &[Payload],
) -> Result<Decision, MemoryFault>
    requires fits { AllByRecursion FitsFields payloads.now }
    ensures decided { IfOk result
        (DecidesFurtherOn (setup_of setup.now) ike keys.now table.old deleting payloads.now) }
    ensures table { IsAsBefore table.old table.new }
    ensures wanted { IfErr result (CanBeWanted table.old) }
    ensures early { IsRefusedFurther deleting (Some payloads.now) → table.new ≡ table.old }
    ensures room { IfOk result (λ decision. LeavesRoomForFurther decision table.new) }
    ensures fits { IfOk result FitsFurtherDecision }
{
    what_counts_fits();
    match judge(payloads, deleting) {
        Judgement::Refused(notice) => {
            notice.fits();
            Ok(Decision::Refused(notice))
        }
        Judgement::Asked(request) => respond_to(alloc, setup, table, ike, keys, &request),
    }
}

// What answers the Child SA that is asked for.
fn respond_to<C>(
    alloc: Global,
    setup: &Setup<'_, C>,
    table: &mut Table,
    ike: u32,
    keys: &KeyRecord,
    request: &FurtherRequest<'_>,
) -> Result<Decision, MemoryFault>
    requires fits { CanBeAnswered (offered request.now.offer) }
    ensures decided { IfOk result
        (DecidesFurtherBy (setup_of setup.now) ike keys.now table.old
        (Admitted (further_request_view request.now))) }
    ensures table { IsAsBefore table.old table.new }
    ensures wanted { IfErr result (CanBeWanted table.old) }
    ensures room { IfOk result (λ decision. LeavesRoomForFurther decision table.new) }
    ensures fits { IfOk result FitsFurtherDecision }
{
    payloads_fit();
    let setting = further_setting(
        setup.config.blocks(),
        ike,
        keys,
        request.nonce,
        &setup.fresh.nonce,
    );
    match respond(
        alloc,
        &request.offer,
        setup.config.extended(),
        &setting,
        setup.policy,
        table,
    )? {
        Response::Made(made) => Ok(Decision::Made(made)),
        Response::Refused(notice) => {
            notice.fits();
            Ok(Decision::Refused(notice))
        }
    }
}

// What an additional Child SA is made on, by the nonces of the exchange's initiator and of its responder.
fn further_setting(blocks: u32, ike: u32, keys: &KeyRecord, ni: &[u8], nr: &[u8]) -> Setting
    ensures { result ≡ further_setting blocks ike keys.now ni.now nr.now }
{
    Setting {
        ike,
        keys: child_keys(&keys.sk_d, ni, nr),
        blocks,
    }
}

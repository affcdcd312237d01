//! What a responder decides about IKE_AUTH.
ghost use Rattle.std.specs.Prelude.{◌≡◌, Some, IfErr, IfOk};
ghost use Rattle.std.specs.List.{AllByRecursion};
ghost use Rattle.wire.specs.Sizes.{FitsFields};
ghost use Rattle.exchange.specs.Children.{offered, CanBeAnswered};
ghost use Rattle.sadb.specs.Database.{IsAsBefore};
ghost use Rattle.children.specs.Faults.{CanBeWanted};
ghost use Rattle.setup.specs.Configs.{setup_of, first_setting};
ghost use Rattle.initial.specs.Deciding.{AcceptsAuth, Decides, FitsDecision, FitsResponse, IsDecision, LeavesRoomFor};
ghost use Rattle.exchange.specs.Chains.{IsRead};
ghost use Rattle.children.specs.Responding.{IsChildResponse, LeavesRoom};

use association::HalfOpen;
use auth::laws::windows_are_read_again;
use auth::{Judgement, Proving, judge};
use children::laws::payloads_fit;
use children::{MemoryFault, Response, Setting, respond};
use exchange::laws::what_counts_fits;
use exchange::{ChildOffer, Notice, Plain, Role, read_chain};
use sadb::Table;
use setup::Setup;
use std::alloc::Global;
use suite::{KeyRecord, Proof};
use wire::Payload;
use wire::laws::what_is_read_fits;

/// What is decided.
#[derive(Drop)]
pub enum Decision {
    /// The IKE SA is over, for what the notification says.
    Refused(Notice),
    /// The peer proved its identity.
    Accepted {
        /// Its first Child SA is made, or not.
        response: Response,
        /// The window that it told (RFC 7296, section 2.3).
        window: u8,
    },
}

/// What is decided about a request of IKE_AUTH (RFC 7296, section 1.2). Of the table its spare capacity alone
/// changes.
pub fn decide<C: Proof>(
    alloc: Global,
    setup: &Setup<'_, C>,
    table: &mut Table,
    ike: u32,
    half_open: &HalfOpen,
    plain: &Plain,
) -> Result<Decision, MemoryFault>
    ensures decided { IfOk result (Decides (C.accepts setup.now.caller.now) (setup_of setup.now)
        ike half_open.now table.old plain.now) }
    ensures table { IsAsBefore table.old table.new }
    ensures wanted { IfErr result (CanBeWanted table.old) }
    ensures room { IfOk result (λ decision. LeavesRoomFor decision table.new) }
    ensures fits { IfOk result FitsDecision }
{
    what_is_read_fits();
    match read_chain(alloc, plain)? {
        None => Ok(Decision::Refused(Notice::InvalidSyntax)),
        Some(payloads) => decide_on(alloc, setup, table, ike, half_open, payloads.as_slice()),
    }
}

// What is decided about these payloads.
fn decide_on<C: Proof>(
    alloc: Global,
    setup: &Setup<'_, C>,
    table: &mut Table,
    ike: u32,
    half_open: &HalfOpen,
    payloads: &[Payload],
) -> Result<Decision, MemoryFault>
    requires fits { AllByRecursion FitsFields payloads.now }
    ensures decided { IfOk result (IsDecision (C.accepts setup.now.caller.now) (setup_of setup.now)
        ike half_open.now table.old (Some payloads.now)) }
    ensures table { IsAsBefore table.old table.new }
    ensures wanted { IfErr result (CanBeWanted table.old) }
    ensures room { IfOk result (λ decision. LeavesRoomFor decision table.new) }
    ensures fits { IfOk result FitsDecision }
{
    what_counts_fits();
    windows_are_read_again();
    let proving = Proving::of(
        Role::Initiator,
        &half_open.keys,
        half_open.request.as_slice(),
    );
    match judge(
        alloc,
        setup.caller,
        &setup.config.peer().identity,
        &proving,
        payloads,
    )? {
        Judgement::Refused(notice) => {
            notice.fits();
            Ok(Decision::Refused(notice))
        }
        Judgement::Accepted(asked) => Ok(Decision::Accepted {
            response: respond_to(alloc, setup, table, ike, &half_open.keys, &asked.offer)?,
            window: asked.window,
        }),
    }
}

// What answers the first Child SA of an IKE SA.
fn respond_to<C>(
    alloc: Global,
    setup: &Setup<'_, C>,
    table: &mut Table,
    ike: u32,
    keys: &KeyRecord,
    offer: &ChildOffer<'_>,
) -> Result<Response, MemoryFault>
    requires fits { CanBeAnswered (offered offer.now) }
    ensures response { IfOk result (IsChildResponse (first_setting setup.now.config.now ike keys.now)
        setup.now.config.now.extended setup.now.policy.now table.old (offered offer.now)) }
    ensures table { IsAsBefore table.old table.new }
    ensures wanted { IfErr result (CanBeWanted table.old) }
    ensures room { IfOk result (λ response. LeavesRoom response table.new) }
    ensures fits { IfOk result FitsResponse }
{
    payloads_fit();
    let setting = Setting {
        ike,
        keys: keys.first_child_keys(),
        blocks: setup.config.blocks(),
    };
    let response = respond(
        alloc,
        offer,
        setup.config.extended(),
        &setting,
        setup.policy,
        table,
    )?;
    if let Response::Refused(notice) = &response {
        notice.fits();
    }
    Ok(response)
}

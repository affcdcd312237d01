//! What a responder answers, and the SA pair that it has of the Child SA.
ghost use Rattle.std.specs.Prelude.{◌≡◌, ◌≢◌, IfErr, IfOk, IsOk};
ghost use Rattle.replay.specs.Window.{IsBlockCount};
ghost use Rattle.sadb.specs.Database.{IsAsBefore, IsReady};
ghost use Rattle.exchange.specs.Children.{offered};
ghost use Rattle.children.specs.Faults.{CanBeWanted};
ghost use Rattle.children.specs.declared.fault.MemoryFault.TheVariants as child;
ghost use Rattle.children.specs.Responding.{answered_proposals, made_of, next_spi, AddsNext, IsChildResponse, IsRefusedAtOnce, LeavesRoom};

use crate::asking::lone;
use crate::making::{AgreedTerms, make_pair, spi_octets, spi_of};
use crate::{MemoryFault, Setting};
use base::Items;
use exchange::{ChildOffer, ChildPayloads, Notice, Role};
use policy::{NarrowFault, Narrowed, Policy, narrow};
use sadb::{Pair, Table, TableFault};
use std::alloc::{AllocError, Global};
use suite::{Chosen, Wanted, answer, choose};
use wire::Proposal;

/// The answer to an offer.
#[derive(Drop)]
pub enum Response {
    /// A Child SA is made.
    Made(Made),
    /// None is made, and the notification says why.
    Refused(Notice),
}

/// What is made of an offer.
#[derive(Drop)]
pub struct Made {
    /// What the answer says.
    pub payloads: ChildPayloads,
    /// The responder's SA pair, to be given to [`install`].
    pub pair: Pair,
}

/// Answers an offer (RFC 7296, sections 1.3, 2.7 and 2.9); `extended` tells whether this end allows extended
/// sequence numbers (RFC 4303, section 2.2.1). Refused, in this order: [`Notice::NoProposalChosen`] where no
/// proposal is acceptable, [`Notice::TsUnacceptable`] where the policy protects nothing of the flows that are
/// offered, [`Notice::NoAdditionalSas`] where the table is full or its SPIs are spent. Otherwise the answer
/// has the chosen proposal's number, the next SPI of the table and the selectors narrowed to the policy; the
/// SA pair receives under that SPI with the initiator's key, and sends under the chosen proposal's with its
/// own.
///
/// Of the table its room alone changes, also after an error; where a pair is made, it can take it, as
/// [`install`] wants it. The only error is an allocation failure, for a place in the table only where that
/// takes more pairs and has no room, and none comes for an offer that is refused for its proposals or its
/// selectors.
pub fn respond(
    alloc: Global,
    offer: &ChildOffer<'_>,
    extended: bool,
    setting: &Setting,
    policy: &Policy,
    table: &mut Table,
) -> Result<Response, MemoryFault>
    requires { IsBlockCount setting.now.blocks }
    ensures response { IfOk result
        (IsChildResponse setting.now extended policy.now table.old (offered offer.now)) }
    ensures table { IsAsBefore table.old table.new }
    ensures ready { IfOk result (λ response. LeavesRoom response table.new) }
    ensures wanted { IfErr result (CanBeWanted table.old) }
    ensures early { IsRefusedAtOnce extended policy.now (offered offer.now) → IsOk result }
{
    let wanted = Wanted::Esp { extended };
    let Some(chosen) = choose(offer.proposals, &wanted) else {
        return Ok(Response::Refused(Notice::NoProposalChosen));
    };
    let narrowed = match narrow(alloc, offer.ts_i, offer.ts_r, policy) {
        Ok(narrowed) => narrowed,
        Err(NarrowFault::Unacceptable) => return Ok(Response::Refused(Notice::TsUnacceptable)),
        Err(NarrowFault::Memory) => return Err(MemoryFault::Narrowing),
    };
    table.invariants_hold();
    let own = match table.prepare() {
        Ok(own) => own,
        Err(TableFault::Memory) => return Err(MemoryFault::Table),
        Err(_) => return Ok(Response::Refused(Notice::NoAdditionalSas)),
    };
    let peer = spi_of(&offer.proposals[chosen.place]);
    let made = make(alloc, setting, &wanted, &chosen, peer, own, narrowed)?;
    Ok(Response::Made(made))
}

// The answer's payloads and the responder's SA pair, on these SPIs and selectors.
fn make(
    alloc: Global,
    setting: &Setting,
    wanted: &Wanted,
    chosen: &Chosen,
    peer: u32,
    own: u32,
    narrowed: Narrowed,
) -> Result<Made, MemoryFault>
    requires { IsBlockCount setting.now.blocks }
    ensures wanted { IfErr result (λ fault. fault ≢ child.Table) }
    ensures made { IfOk result (λ made. made ≡ made_of setting.now wanted.now chosen.now (record {
      spi_i = peer;
      spi_r = own;
      extended = chosen.now.extended;
      ts_i = narrowed.initiator;
      ts_r = narrowed.responder;
    })) }
{
    let agreed = AgreedTerms {
        spi_i: peer,
        spi_r: own,
        extended: chosen.extended,
        ts_i: narrowed.initiator.as_slice(),
        ts_r: narrowed.responder.as_slice(),
    };
    let pair = make_pair(alloc, Role::Responder, setting, &agreed)?;
    let Ok(proposals) = answered_proposals(alloc, wanted, chosen, own) else {
        return Err(MemoryFault::Message);
    };
    let payloads = ChildPayloads {
        proposals,
        ts_i: narrowed.initiator,
        ts_r: narrowed.responder,
    };
    Ok(Made { payloads, pair })
}

// The one proposal of the answer, with this end's SPI (RFC 7296, section 3.3.1).
fn answered_proposals(
    alloc: Global,
    wanted: &Wanted,
    chosen: &Chosen,
    own: u32,
) -> Result<Items<Proposal>, AllocError>
    ensures { IfOk result (λ proposals. proposals ≡ answered_proposals wanted.now chosen.now own) }
{
    lone(alloc, answer(alloc, wanted, chosen, &spi_octets(own))?)
}

/// Adds the SA pair that was made of an offer, and answers its serial. The caller asks only for a table that
/// is ready, with a pair whose inbound SPI is the next that the table gives; so it is after [`respond`].
/// Takes no memory.
pub fn install(table: &mut Table, pair: Pair) -> u32
    requires ready { IsReady table.old }
    requires next { pair.inbound.association.spi ≡ next_spi table.old }
    ensures { AddsNext table.old pair result table.new }
{
    let spi = table.reserve().unwrap();
    table.install(spi, pair)
}

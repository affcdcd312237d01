//! A request of this end for an additional Child SA.
ghost use Rattle.std.specs.Prelude.{◌≡◌, ◌+◌, IfOk, IfErr};
ghost use Rattle.wire.specs.Numbers.{CREATE_CHILD_SA};
ghost use Rattle.exchange.specs.Headers.{keys_of};
ghost use Rattle.exchange.specs.Sealed.{IsSealed};
ghost use Rattle.policy.specs.Narrowing.{IsSendableSelector};
ghost use Rattle.requests.specs.Outgoing.{MayIssue};
ghost use Rattle.sadb.specs.Database.{IsAsBefore, IsFull, IsReady, IsSpent, Reserves};
ghost use Rattle.children.specs.Asking.{child_request};
ghost use Rattle.setup.specs.Configs.{setup_of};
ghost use Rattle.association.specs.Sending.{request_message};
ghost use Rattle.association.specs.Phases.{IsEstablished};
ghost use Rattle.further.specs.Payloads.{further_payloads};
ghost use Rattle.create_child.specs.Asking.{AsksForFurther, MayAsk, RefusesFurther};
ghost use Rattle.create_child.specs.Readying.{kept_child, GivesNoSpi, IssuesFurther, RefusesRoom};

use association::{
    AskedChild, Association, FurtherChild, Issued, OrderFault, Phase, Purpose, new_request,
};
use base::{Items, Selector};
use children::Asked;
use exchange::laws::short_messages_can_be_sent;
use exchange::{sealed_message, sent_header};
use requests::RequestFault;
use sadb::{Spi, Table};
use setup::Setup;
use std::alloc::{AllocError, Global};
use suite::{KeyRecord, Sealer};
use wire::Message;
use wire::numbers::CREATE_CHILD_SA;

/// Asks for an additional Child SA with these selectors of this end's side and of the peer's (RFC 7296,
/// section 1.3.1), with ESN where the configuration allows it, and the step's fresh nonce. The request waits
/// for its answer from then on, and holds the SPI that the table reserved for the child.
///
/// Refused, in this order: [`OrderFault::WrongPhase`] where the IKE SA is not established,
/// [`OrderFault::Busy`] where a request to delete it waits for its answer or the peer takes no more requests
/// at once, [`OrderFault::NumbersSpent`] where no Message ID is left. Then come [`OrderFault::TableFull`],
/// [`OrderFault::SpisSpent`] and [`OrderFault::TableMemory`] where the table gives no SPI, and
/// [`OrderFault::Memory`]. What is refused changes nothing but the table's spare capacity.
///
/// The caller gives selectors that a message can carry.
pub fn ask<C: Sealer>(
    alloc: Global,
    setup: &Setup<'_, C>,
    association: &mut Association,
    table: &mut Table,
    local: &Selector,
    remote: &Selector,
) -> Result<Issued, OrderFault>
    requires local { IsSendableSelector local.now }
    requires remote { IsSendableSelector remote.now }
    ensures asked { IfOk result (λ issued. AsksForFurther C.body_of (setup_of setup.now) local.now remote.now
        association.old table.old issued.octets association.new table.new) }
    ensures number { IfOk result (λ issued. issued.number ≡ association.old.outgoing.next) }
    ensures refused { IfErr result (λ fault. RefusesFurther association.old table.old fault
        × (association.new ≡ association.old) × IsAsBefore table.old table.new) }
{
    let Phase::Established(keys) = &association.phase else {
        return Err(OrderFault::WrongPhase);
    };
    let number = may_ask(association)?;
    let spi = prepare(table)?;
    let asked = Asked {
        spi,
        local: *local,
        remote: *remote,
        extended: setup.config.extended(),
    };
    let octets = make_request(alloc, setup, association, keys, number, &asked)?;
    let kept = Items::from_slice(alloc, octets.as_slice())?;
    issue(
        association,
        table,
        kept,
        &asked,
        &setup.fresh.nonce,
        setup.moment,
    )?;
    Ok(Issued { number, octets })
}

// The Message ID that the next request is to have.
fn may_ask(association: &Association) -> Result<u32, OrderFault>
    requires { IsEstablished association.now.phase }
    ensures number { IfOk result (λ number. number ≡ association.now.outgoing.next) }
    ensures allowed { IfOk result (λ _. MayAsk association.now) }
    ensures refused { IfErr result (RefusesRoom association.now) }
{
    if association.is_deleting() {
        return Err(OrderFault::Busy);
    }
    match association.outgoing.may_issue() {
        Ok(number) => Ok(number),
        Err(RequestFault::Busy) => Err(OrderFault::Busy),
        Err(RequestFault::NumbersSpent) => Err(OrderFault::NumbersSpent),
        // It takes no memory.
        Err(RequestFault::Memory) => unreachable!(),
    }
}

// Makes room for the Child SA in the table, and tells its SPI.
#[tactic(auto, using(crate::proofs::TableLemmas::withheld))]
fn prepare(table: &mut Table) -> Result<u32, OrderFault>
    ensures next { IfOk result (λ spi. spi ≡ table.old.start + table.old.given) }
    ensures ready { IfOk result (λ _. IsReady table.new) }
    ensures left { IfOk result (λ _. (¬ IsFull table.old) × (¬ IsSpent table.old)) }
    ensures refused { IfErr result (GivesNoSpi table.old) }
    ensures content { IsAsBefore table.old table.new }
{
    match table.prepare() {
        Ok(spi) => Ok(spi),
        Err(fault) => Err(OrderFault::from(fault)),
    }
}

// The request, sealed.
fn make_request<C: Sealer>(
    alloc: Global,
    setup: &Setup<'_, C>,
    association: &Association,
    keys: &KeyRecord,
    number: u32,
    asked: &Asked,
) -> Result<Items<u8>, AllocError>
    requires local { IsSendableSelector asked.now.local }
    requires remote { IsSendableSelector asked.now.remote }
    ensures { IfOk result (IsSealed C.body_of (keys_of association.now.role keys.now) setup.now.fresh.now.seal
        (request_message association.now CREATE_CHILD_SA number
        (further_payloads (child_request asked.now) setup.now.fresh.now.nonce))) }
{
    short_messages_can_be_sent();
    let payloads = further::ask(alloc, asked, &setup.fresh.nonce)?;
    let role = association.role;
    let message = Message {
        header: sent_header(
            association.spi_i,
            association.spi_r,
            CREATE_CHILD_SA,
            role,
            false,
            number,
        ),
        payloads,
    };
    sealed_message(alloc, setup.caller, role, keys, &message, &setup.fresh.seal)
}

// Reserves the Child SA's SPI, and one more request waits for its answer, under the next Message ID.
fn issue(
    association: &mut Association,
    table: &mut Table,
    octets: Items<u8>,
    asked: &Asked,
    nonce: &[u8; 32],
    moment: u64,
) -> Result<(), AllocError>
    requires allowed { MayIssue association.old.outgoing }
    requires ready { IsReady table.old }
    requires local { IsSendableSelector asked.now.local }
    requires remote { IsSendableSelector asked.now.remote }
    ensures issued { IfOk result
        (λ _. IssuesFurther asked.now nonce.now octets moment association.old table.old association.new
        table.new) }
    ensures refused { IfErr result (λ _. (association.new ≡ association.old) × (table.new ≡ table.old)) }
{
    match association.outgoing.prepare() {
        Ok(_) => {
            let purpose = Purpose::CreateChild(further_child(reserve(table), asked, nonce));
            association
                .outgoing
                .issue(new_request(octets, purpose, moment));
            Ok(())
        }
        // The Message ID may be issued, so the fault is an allocation failure.
        Err(_) => Err(AllocError),
    }
}

fn reserve(table: &mut Table) -> Spi
    requires { IsReady table.old }
    ensures { Reserves table.old result table.new }
{
    table.reserve().unwrap()
}

// What is kept of the Child SA, under this SPI.
fn further_child(spi: Spi, asked: &Asked, nonce: &[u8; 32]) -> FurtherChild
    requires local { IsSendableSelector asked.now.local }
    requires remote { IsSendableSelector asked.now.remote }
    ensures { result ≡ kept_child spi asked.now nonce.now }
{
    FurtherChild {
        child: AskedChild::new(spi, asked.local, asked.remote, asked.extended),
        nonce: *nonce,
    }
}

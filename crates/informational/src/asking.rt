//! A request of this end.
ghost use Rattle.std.specs.Prelude.{◌≡◌, IfOk, IfErr};
ghost use Rattle.wire.specs.Numbers.{INFORMATIONAL};
ghost use Rattle.requests.specs.Outgoing.{MayIssue};
ghost use Rattle.association.specs.Purposes.{AwaitsDeletion};
ghost use Rattle.informational.specs.Asking.{Asks};
ghost use Rattle.association.specs.Sending.{request_message};
ghost use Rattle.informational.specs.Ordering.{IsOfLive, MarksFor};
ghost use Rattle.association.specs.Phases.{IsEstablished};
ghost use Rattle.association.specs.Ordering.{RefusesOrder};
ghost use Rattle.association.specs.Issuing.{with_outgoing, new_request, IssuesNext};
ghost use Rattle.setup.specs.Configs.{setup_of};

use crate::Order;
use crate::ordering::payloads_of;
use association::{Association, Issued, OrderFault, Phase, Purpose, new_request};
use base::Items;
use exchange::laws::short_messages_can_be_sent;
use exchange::{sealed_message, sent_header};
use requests::RequestFault;
use sadb::Table;
use setup::Setup;
use std::alloc::{AllocError, Global};
use suite::Sealer;
use wire::Message;
use wire::numbers::INFORMATIONAL;

/// Makes a request of INFORMATIONAL (RFC 7296, sections 1.4, 1.4.1 and 2.4), which waits for its answer from
/// then on. The SA pair of a Child SA that is to be deleted is Deleting from then on, and goes with the
/// answer.
///
/// Refused, in this order: [`OrderFault::WrongPhase`] where the IKE SA is not established,
/// [`OrderFault::Busy`] where a request to delete it waits for its answer or the peer takes no more requests
/// at once, [`OrderFault::NumbersSpent`] where no Message ID is left, [`OrderFault::Memory`]. What is refused
/// changes nothing.
///
/// The caller asks to delete a child only where its pair is there, and Live.
pub fn ask<C: Sealer>(
    alloc: Global,
    setup: &Setup<'_, C>,
    association: &mut Association,
    table: &mut Table,
    order: Order,
) -> Result<Issued, OrderFault>
    requires live { IsOfLive order table.old.pairs }
    ensures asked { IfOk result (λ issued.
        Asks C.body_of (setup_of setup.now) order association.old issued.octets association.new) }
    ensures number { IfOk result (λ issued. issued.number ≡ association.old.outgoing.next) }
    ensures marked { IfOk result (λ _. MarksFor order table.old table.new) }
    ensures refused { IfErr result (λ fault.
        RefusesOrder association.old fault × (association.new ≡ association.old) × (table.new ≡ table.old)) }
{
    let Phase::Established(keys) = &association.phase else {
        return Err(OrderFault::WrongPhase);
    };
    short_messages_can_be_sent();
    let number = may_issue(association)?;
    let payloads = payloads_of(alloc, order)?;
    let role = association.role;
    let message = Message {
        header: sent_header(
            association.spi_i,
            association.spi_r,
            INFORMATIONAL,
            role,
            false,
            number,
        ),
        payloads,
    };
    let octets = sealed_message(alloc, setup.caller, role, keys, &message, &setup.fresh.seal)?;
    let kept = Items::from_slice(alloc, octets.as_slice())?;
    issue(association, kept, order.purpose(), setup.moment)?;
    mark(table, order);
    Ok(Issued { number, octets })
}

// The Message ID that the next request is to have.
fn may_issue(association: &Association) -> Result<u32, OrderFault>
    requires { IsEstablished association.now.phase }
    ensures number { IfOk result (λ number. number ≡ association.now.outgoing.next) }
    ensures allowed { IfOk result (λ _. MayIssue association.now.outgoing) }
    ensures not_deleting { IfOk result (λ _. ¬ AwaitsDeletion association.now.outgoing) }
    ensures refused { IfErr result (RefusesOrder association.now) }
{
    if association.is_deleting() {
        return Err(OrderFault::Busy);
    }
    match association.outgoing.may_issue() {
        Ok(number) => Ok(number),
        Err(RequestFault::Busy) => Err(OrderFault::Busy),
        Err(RequestFault::NumbersSpent) => Err(OrderFault::NumbersSpent),
        // It takes no memory.
        Err(RequestFault::Memory) => unreachable!(),
    }
}

// One more request waits for its answer, under the next Message ID.
fn issue(
    association: &mut Association,
    octets: Items<u8>,
    purpose: Purpose,
    moment: u64,
) -> Result<(), AllocError>
    requires { MayIssue association.old.outgoing }
    ensures issued { IfOk result (λ _.
        IssuesNext association.old.outgoing (new_request octets purpose moment) association.new.outgoing) }
    ensures content { IfOk result
        (λ _. association.new ≡ with_outgoing association.old association.new.outgoing) }
    ensures refused { IfErr result (λ _. association.new ≡ association.old) }
{
    match association.outgoing.prepare() {
        Ok(_) => {
            association
                .outgoing
                .issue(new_request(octets, purpose, moment));
            Ok(())
        }
        // The Message ID may be issued, so the fault is an allocation failure.
        Err(_) => Err(AllocError),
    }
}

// The SA pair of a Child SA that is to be deleted carries nothing outward any more.
fn mark(table: &mut Table, order: Order)
    requires { IsOfLive order table.old.pairs }
    ensures { MarksFor order table.old table.new }
{
    match order {
        Order::Probe => {}
        Order::DeleteChild { child, .. } => table.mark(child),
        Order::DeleteAssociation => {}
    }
}

//! The commands that ask the peer something under an established IKE SA.
ghost use Rattle.std.specs.Prelude.{◌≡◌, ◌<◌, Some, IfOk, IfErr, length};
ghost use Rattle.std.specs.List.{position};
ghost use Rattle.policy.specs.Narrowing.{IsSendableSelector};
ghost use Rattle.sadb.specs.Database.{IsAsBefore};
ghost use Rattle.setup.specs.Configs.{setup_of};
ghost use Rattle.informational.specs.Ordering.{IsOfLive};
ghost use Rattle.ike.specs.Asking.{AsksFor, AsksFurther, AsksFurtherThere, AsksThat, AsksThere, RefusesAsking, RefusesAskingAt, RefusesFurtherAt, RefusesFurtherThere, RefusesThere};
ghost use Rattle.ike.specs.Machines.{association_of, has_serial};
ghost use Rattle.ike.specs.Orders.{DeleteChild};
ghost use Rattle.ike.specs.Outputs.{asking_step};

use crate::held::Held;
use crate::{IkeFault, IkeOutput, Mark, Stepped, Trace};
use association::{Association, Issued, MessageFault, OrderFault};
use base::{Items, Selector};
use effects::laws::orders_send_requests;
use informational::Order;
use sadb::{State, Table};
use setup::Setup;
use std::alloc::Global;
use suite::Sealer;

// Asks the peer to delete a Child SA. Its pair stops sending at once, and is removed when the peer answers
// (RFC 7296, section 1.4.1).
pub(crate) fn delete_child<C: Sealer>(
    alloc: Global,
    setup: &Setup<'_, C>,
    held: &mut Held,
    table: &mut Table,
    child: u32,
) -> Result<Stepped, IkeFault>
    ensures asked { IfOk result (λ stepped.
        AsksFor C.body_of (setup_of setup.now)
        (DeleteChild child) held.old table.old stepped held.new table.new) }
    ensures refused { IfErr result
        (λ reason. RefusesAsking (DeleteChild child) held.old table.old reason
        × (held.new ≡ held.old) × (table.new ≡ table.old)) }
{
    let Some(pair) = table.get(child) else {
        return Err(IkeFault::Message(MessageFault::UnknownAssociation));
    };
    let ike = pair.ike;
    let spi = pair.inbound.spi();
    match pair.state {
        State::Live => {
            let order = Order::DeleteChild { child, spi };
            ask_by(alloc, setup, held, table, ike, order)
        }
        State::Deleting => Err(IkeFault::Message(MessageFault::WrongPhase)),
    }
}

// Sends the peer of the IKE SA with this serial the request of a command.
pub(crate) fn ask_by<C: Sealer>(
    alloc: Global,
    setup: &Setup<'_, C>,
    held: &mut Held,
    table: &mut Table,
    ike: u32,
    order: Order,
) -> Result<Stepped, IkeFault>
    requires live { IsOfLive order table.old.pairs }
    ensures asked { IfOk result (λ stepped.
        AsksThat C.body_of (setup_of setup.now) ike order held.old table.old stepped held.new table.new) }
    ensures refused { IfErr result
        (λ reason. RefusesAskingAt (association_of ike held.old.associations) reason
        × (held.new ≡ held.old) × (table.new ≡ table.old)) }
{
    orders_send_requests();
    let Some(place) = place_of(ike, held.associations()) else {
        return Err(IkeFault::Message(MessageFault::UnknownAssociation));
    };
    let Issued { number, octets } = ask_at(alloc, setup, held, table, place, order)?;
    Ok(asking(ike, number, octets))
}

fn ask_at<C: Sealer>(
    alloc: Global,
    setup: &Setup<'_, C>,
    held: &mut Held,
    table: &mut Table,
    place: usize,
    order: Order,
) -> Result<Issued, OrderFault>
    requires within { place < length held.old.associations }
    requires live { IsOfLive order table.old.pairs }
    ensures asked { IfOk result (λ issued.
        AsksThere C.body_of (setup_of setup.now) place order held.old table.old issued held.new table.new) }
    ensures refused { IfErr result (λ fault.
        RefusesThere place held.old fault × (held.new ≡ held.old) × (table.new ≡ table.old)) }
{
    let association = &mut held.associations[place];
    let issued = informational::ask(alloc, setup, association, table, order)?;
    Ok(issued)
}

// Asks the peer of the IKE SA with this serial for an additional Child SA, with these selectors of this end's
// side and of the peer's.
pub(crate) fn ask_further<C: Sealer>(
    alloc: Global,
    setup: &Setup<'_, C>,
    held: &mut Held,
    table: &mut Table,
    ike: u32,
    local: &Selector,
    remote: &Selector,
) -> Result<Stepped, IkeFault>
    requires local { IsSendableSelector local.now }
    requires remote { IsSendableSelector remote.now }
    ensures asked { IfOk result
        (λ stepped. AsksFurther C.body_of (setup_of setup.now) ike local.now remote.now
        held.old table.old stepped held.new table.new) }
    ensures refused { IfErr result
        (λ reason. RefusesFurtherAt (association_of ike held.old.associations) table.old reason
        × (held.new ≡ held.old) × IsAsBefore table.old table.new) }
{
    orders_send_requests();
    let Some(place) = place_of(ike, held.associations()) else {
        return Err(IkeFault::Message(MessageFault::UnknownAssociation));
    };
    let Issued { number, octets } = ask_further_at(
        alloc, setup, held, table, place, local, remote,
    )?;
    Ok(asking(ike, number, octets))
}

fn ask_further_at<C: Sealer>(
    alloc: Global,
    setup: &Setup<'_, C>,
    held: &mut Held,
    table: &mut Table,
    place: usize,
    local: &Selector,
    remote: &Selector,
) -> Result<Issued, OrderFault>
    requires within { place < length held.old.associations }
    requires local { IsSendableSelector local.now }
    requires remote { IsSendableSelector remote.now }
    ensures asked { IfOk result
        (λ issued. AsksFurtherThere C.body_of (setup_of setup.now) place local.now remote.now
        held.old table.old issued held.new table.new) }
    ensures refused { IfErr result (λ fault. RefusesFurtherThere place held.old table.old fault
        × (held.new ≡ held.old) × IsAsBefore table.old table.new) }
{
    let association = &mut held.associations[place];
    let issued = create_child::ask(alloc, setup, association, table, local, remote)?;
    Ok(issued)
}

// The place of the IKE SA with this serial.
fn place_of(serial: u32, associations: &[Association]) -> Option<usize>
    ensures { result ≡ position (has_serial serial) associations.now }
{
    associations.iter().position(|a| a.serial == serial)
}

fn asking(ike: u32, number: u32, octets: Items<u8>) -> Stepped
    ensures { result ≡ asking_step ike number octets }
{
    Stepped {
        output: IkeOutput::Request { ike, octets },
        trace: Trace {
            sent: Some(Mark {
                ike,
                response: false,
                number,
            }),
            ..Trace::NONE
        },
    }
}

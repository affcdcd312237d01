//! What a datagram does.
ghost use Rattle.std.specs.Prelude.{◌≡◌, ◌<◌, true, Some, Ok, IfOk, IfErr, length};
ghost use Rattle.std.specs.List.{position};
ghost use Rattle.sadb.specs.Database.{Database, IsAsBefore};
ghost use Rattle.sa_init.specs.Fitting.{FitsOffer};
ghost use Rattle.sa_init.specs.Judging.{offer_view};
ghost use Rattle.association.specs.Finding.{place_meant};
ghost use Rattle.setup.specs.Configs.{setup_of};
ghost use Rattle.ike.specs.Machines.{SERIAL_END};
ghost use Rattle.ike.specs.Outputs.{half_open_step};
ghost use Rattle.ike.specs.Receiving.{is_answered, is_initial_request, is_sound_initial, with_next, CannotMake, RefusesDatagram, RefusesNew, Repeats, SaysNotice, TakesAt, TakesDatagram, TakesFound, TakesNew, TakesOffer, TakesSound, WantsFound};
ghost use Rattle.ike.specs.Soundness.{AreSound};
ghost use Rattle.effects.specs.Taking.{meaning_of};

use crate::datagram::Datagram;
use crate::held::{Held, answered_place, half_open_count, is_bad_spi};
use crate::{IkeFault, IkeOutput, Stepped, Trace};
use association::{Admitted, Association, MessageFault, Phase, admit, find};
use base::Items;
use children::MemoryFault;
use effects::take_message;
use exchange::Notice;
use sa_init::laws::accepted_offers_fit;
use sa_init::{Cookies, Judgement, Offer, judge, refuse};
use sadb::Table;
use setup::Setup;
use std::alloc::{AllocError, Global};
use suite::{Agreement, Proof, Sealer};
use wire::{WireFault, decode_message};

// Takes a datagram from an IPv4 address.
pub(crate) fn take_datagram<C: Sealer + Agreement + Proof>(
    alloc: Global,
    setup: &Setup<'_, C>,
    cookies: &Cookies,
    held: &mut Held,
    table: &mut Table,
    from: &[u8; 4],
    octets: &[u8],
) -> Result<Stepped, IkeFault>
    requires sound { AreSound held.old table.old }
    ensures taken { IfOk result (λ stepped. TakesDatagram
        (meaning_of C.Sealer C.Agreement C.Proof setup.now.caller.now)
        (setup_of setup.now) cookies.now from.now octets.now held.old table.old stepped held.new table.new) }
    ensures refused { IfErr result (λ reason. RefusesDatagram
        (meaning_of C.Sealer C.Agreement C.Proof setup.now.caller.now)
        (setup_of setup.now) cookies.now from.now octets.now held.old table.old reason
        × (held.new ≡ held.old) × IsAsBefore table.old table.new) }
{
    let message = match decode_message(alloc, octets) {
        Ok(message) => message,
        Err(WireFault::Memory) => return Err(IkeFault::Memory(MemoryFault::Message)),
        Err(fault) => return Ok(Stepped::dropped(IkeFault::Unread(fault))),
    };
    let datagram = Datagram {
        from: *from,
        octets,
        message,
    };
    if datagram.is_initial_request() {
        take_initial(alloc, setup, cookies, held, &datagram)
    } else {
        datagram.is_whole();
        Ok(take_found(alloc, setup, held, table, &datagram)?)
    }
}

// The message is for an IKE SA that is held, or for none.
fn take_found<C: Sealer + Agreement + Proof>(
    alloc: Global,
    setup: &Setup<'_, C>,
    held: &mut Held,
    table: &mut Table,
    datagram: &Datagram<'_>,
) -> Result<Stepped, MemoryFault>
    requires sound { AreSound held.old table.old }
    ensures taken { IfOk result (λ stepped. TakesFound (place_meant datagram.now.message.header held.old.associations)
        (meaning_of C.Sealer C.Agreement C.Proof setup.now.caller.now)
        (setup_of setup.now) datagram.now.octets datagram.now.message held.old table.old stepped held.new table.new) }
    ensures refused { IfErr result (λ _. (held.new ≡ held.old) × IsAsBefore table.old table.new) }
    ensures wanted { IfErr result
        (WantsFound C.plain_of
        (place_meant datagram.now.message.header held.old.associations) datagram.now.octets datagram.now.message held.old table.old) }
{
    match find(held.associations(), datagram.header()) {
        Ok(place) => take_at(alloc, setup, held, place, table, datagram),
        Err(fault) => Ok(Stepped::dropped(IkeFault::Message(fault))),
    }
}

fn take_at<C: Sealer + Agreement + Proof>(
    alloc: Global,
    setup: &Setup<'_, C>,
    held: &mut Held,
    place: usize,
    table: &mut Table,
    datagram: &Datagram<'_>,
) -> Result<Stepped, MemoryFault>
    requires there { place < length held.old.associations }
    requires sound { AreSound held.old table.old }
    ensures taken { IfOk result (λ stepped. TakesAt place
        (meaning_of C.Sealer C.Agreement C.Proof setup.now.caller.now)
        (setup_of setup.now) datagram.now.octets datagram.now.message held.old table.old stepped held.new table.new) }
    ensures refused { IfErr result (λ _. (held.new ≡ held.old) × IsAsBefore table.old table.new) }
    ensures wanted { IfErr result
        (WantsFound C.plain_of (Ok place) datagram.now.octets datagram.now.message held.old table.old) }
{
    let association = &mut held.associations[place];
    let ike = association.serial;
    let effect = take_message(
        alloc,
        setup,
        association,
        table,
        datagram.octets(),
        datagram.message(),
    )?;
    Ok(Stepped::of_effect(ike, datagram.header().id, effect))
}

// Takes a request of IKE_SA_INIT: a retransmission at the IKE SA that it made, or a new one.
fn take_initial<C: Sealer + Agreement + Proof>(
    alloc: Global,
    setup: &Setup<'_, C>,
    cookies: &Cookies,
    held: &mut Held,
    datagram: &Datagram<'_>,
) -> Result<Stepped, IkeFault>
    requires initial { is_initial_request datagram.now.message.header ≡ true }
    ensures taken { IfOk result (λ stepped. TakesSound (is_sound_initial datagram.now.message.header)
        (meaning_of C.Sealer C.Agreement C.Proof setup.now.caller.now)
        (setup_of setup.now) cookies.now datagram.now.from datagram.now.octets datagram.now.message held.old
        stepped held.new) }
    ensures refused { IfErr result (λ reason. ((table : Database) → RefusesDatagram
        (meaning_of C.Sealer C.Agreement C.Proof setup.now.caller.now)
        (setup_of setup.now) cookies.now datagram.now.from datagram.now.octets held.old table reason)
        × (held.new ≡ held.old)) }
{
    datagram.is_whole();
    if !datagram.is_sound_initial() {
        return Ok(Stepped::dropped(IkeFault::Message(MessageFault::WrongPhase)));
    }
    match answered_place(held.associations(), datagram.octets()) {
        Some(place) => Ok(repeat(alloc, datagram.octets(), held.associations(), place)?),
        None => take_new(alloc, setup, cookies, held, datagram),
    }
}

// Sends the cached response of the IKE SA at this place again.
fn repeat(
    alloc: Global,
    request: &[u8],
    associations: &[Association],
    place: usize,
) -> Result<Stepped, AllocError>
    requires first { position (is_answered request.now) associations.now ≡ Some place }
    ensures { IfOk result (λ stepped. Repeats place associations.now stepped) }
{
    match &associations[place].phase {
        Phase::HalfOpen(half_open) => {
            let reply = Items::from_slice(alloc, half_open.reply.as_slice())?;
            Ok(Stepped::plain(IkeOutput::Repeat(reply)))
        }
        _ => unreachable!(),
    }
}

// Takes a request of IKE_SA_INIT that made no IKE SA which is still half open.
fn take_new<C: Sealer + Agreement + Proof>(
    alloc: Global,
    setup: &Setup<'_, C>,
    cookies: &Cookies,
    held: &mut Held,
    datagram: &Datagram<'_>,
) -> Result<Stepped, IkeFault>
    ensures taken { IfOk result (λ stepped. TakesNew
        (meaning_of C.Sealer C.Agreement C.Proof setup.now.caller.now)
        (setup_of setup.now) cookies.now datagram.now.from datagram.now.octets datagram.now.message held.old
        stepped held.new) }
    ensures refused { IfErr result (λ reason. RefusesNew
        (meaning_of C.Sealer C.Agreement C.Proof setup.now.caller.now)
        (setup_of setup.now) cookies.now datagram.now.from datagram.now.message held.old reason
        × (held.new ≡ held.old)) }
{
    accepted_offers_fit();
    let sender = datagram.sender();
    let associations = held.associations();
    match judge(
        setup.caller,
        datagram.message().payloads.as_slice(),
        &sender,
        cookies,
        half_open_count(associations),
        associations.len(),
    ) {
        Judgement::Answered(notice) => Ok(decline(alloc, sender.spi_i, &notice)?),
        Judgement::Incomplete => Ok(Stepped::dropped(IkeFault::Message(MessageFault::WrongPhase))),
        Judgement::Full => Ok(Stepped::dropped(IkeFault::HalfOpenFull)),
        Judgement::Accepted(offer) => Ok(take_offer(alloc, setup, held, &offer, datagram)?),
    }
}

// Answers by a notification, and keeps nothing.
fn decline(alloc: Global, spi_i: u64, notice: &Notice) -> Result<Stepped, AllocError>
    ensures { IfOk result (SaysNotice spi_i notice.now) }
{
    let octets = refuse(alloc, spi_i, notice)?;
    Ok(Stepped::plain(IkeOutput::Reply {
        octets,
        closed: None,
    }))
}

// Makes an IKE SA of an accepted offer, unless the agreement refuses its public value.
fn take_offer<C: Sealer + Agreement + Proof>(
    alloc: Global,
    setup: &Setup<'_, C>,
    held: &mut Held,
    offer: &Offer<'_>,
    datagram: &Datagram<'_>,
) -> Result<Stepped, IkeFault>
    requires fits { FitsOffer (offer_view offer.now) }
    ensures taken { IfOk result (λ stepped. TakesOffer
        (meaning_of C.Sealer C.Agreement C.Proof setup.now.caller.now)
        (setup_of setup.now) (offer_view offer.now) datagram.now.message.header.spi_i datagram.now.octets held.old
        stepped held.new) }
    ensures refused { IfErr result
        (λ reason. CannotMake held.old setup.now.fresh.now.spi reason × (held.new ≡ held.old)) }
{
    let Some(serial) = held.next_serial() else {
        return Err(IkeFault::NumbersSpent);
    };
    if is_bad_spi(setup.fresh.spi, held.associations()) {
        return Err(IkeFault::BadFresh);
    }
    match admit(
        alloc,
        setup.caller,
        setup.fresh,
        setup.moment,
        serial,
        offer,
        datagram.header().spi_i,
        datagram.octets(),
    )? {
        Some(admitted) => Ok(hold_admitted(held, serial, admitted)?),
        None => Ok(Stepped::dropped(IkeFault::Message(MessageFault::WrongPhase))),
    }
}

fn hold_admitted(held: &mut Held, ike: u32, admitted: Admitted) -> Result<Stepped, AllocError>
    requires { held.old.next < SERIAL_END }
    ensures held { IfOk result (λ stepped. (stepped ≡ half_open_step ike admitted.octets)
        × (held.new ≡ with_next held.old admitted.association)) }
    ensures refused { IfErr result (λ _. held.new ≡ held.old) }
{
    let Admitted {
        association,
        octets,
    } = admitted;
    held.push(association)?;
    Ok(Stepped {
        output: IkeOutput::Reply {
            octets,
            closed: None,
        },
        trace: Trace {
            keyed: Some(ike),
            ..Trace::NONE
        },
    })
}

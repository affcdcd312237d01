//! The command to ask for a Child SA, with a new IKE SA or under one that is established.
ghost use Rattle.std.specs.Prelude.{◌≡◌, ◌<◌, Some, None, IfOk, IfErr};
ghost use Rattle.policy.specs.Decisions.{local_side, remote_side};
ghost use Rattle.policy.specs.Entries.{IsSoundEntry};
ghost use Rattle.policy.specs.Narrowing.{IsSendableSelector};
ghost use Rattle.sadb.specs.Database.{IsAsBefore, IsFull, IsReady, IsReserved, IsSpent, Reserves};
ghost use Rattle.setup.specs.Configs.{setup_of};
ghost use Rattle.ike.specs.Machines.{SERIAL_END};
ghost use Rattle.ike.specs.Starting.{if_protects, new_association_fault, beginning_fault, protecting_entry, BeginsBy, BeginsNext, FurthersBy, GivesNoSpi, IsAllowed, RefusesBeginning, RefusesFurtherBy, RefusesStart, Starts};
ghost use Rattle.effects.specs.Taking.{meaning_of};

use crate::asking::ask_further;
use crate::held::{Held, is_bad_spi};
use crate::{IkeFault, IkeOutput, Stepped};
use association::AskedChild;
use base::Selector;
use initial::{Beginning, begin};
use policy::{Action, Entry};
use sa_init::ASSOCIATION_LIMIT;
use sadb::{Spi, Table};
use setup::Setup;
use std::alloc::{AllocError, Global};
use suite::{Agreement, Proof, Sealer};

// Asks for the Child SA of an entry of the policy, by its number: with a new IKE SA, or under the one with
// this serial.
pub(crate) fn start<C: Sealer + Agreement + Proof>(
    alloc: Global,
    setup: &Setup<'_, C>,
    held: &mut Held,
    table: &mut Table,
    ike: Option<u32>,
    place: u32,
) -> Result<Stepped, IkeFault>
    ensures started { IfOk result (λ stepped. Starts
        (meaning_of C.Sealer C.Agreement C.Proof setup.now.caller.now)
        (setup_of setup.now) ike place held.old table.old stepped held.new table.new) }
    ensures refused { IfErr result
        (λ reason. RefusesStart setup.now.policy.now setup.now.fresh.now ike place held.old table.old reason
        × (held.new ≡ held.old) × IsAsBefore table.old table.new) }
{
    match ike {
        None => begin_by(alloc, setup, held, table, place),
        Some(ike) => further_by(alloc, setup, held, table, ike, place),
    }
}

// Begins an IKE SA whose first Child SA is that of an entry.
fn begin_by<C: Sealer + Agreement + Proof>(
    alloc: Global,
    setup: &Setup<'_, C>,
    held: &mut Held,
    table: &mut Table,
    place: u32,
) -> Result<Stepped, IkeFault>
    ensures started { IfOk result (λ stepped. BeginsBy
        (meaning_of C.Sealer C.Agreement C.Proof setup.now.caller.now)
        (setup_of setup.now) place held.old table.old stepped held.new table.new) }
    ensures refused { IfErr result
        (λ reason. RefusesBeginning setup.now.policy.now setup.now.fresh.now place held.old table.old reason
        × (held.new ≡ held.old) × IsAsBefore table.old table.new) }
{
    let allowed = check_beginning(setup, held, place)?;
    prepare(table)?;
    let beginning = begin(alloc, setup)?;
    Ok(begin_next(
        alloc,
        held,
        table,
        &allowed,
        setup.config.extended(),
        beginning,
    )?)
}

// Asks for the Child SA of an entry under the IKE SA with this serial.
fn further_by<C: Sealer + Agreement + Proof>(
    alloc: Global,
    setup: &Setup<'_, C>,
    held: &mut Held,
    table: &mut Table,
    ike: u32,
    place: u32,
) -> Result<Stepped, IkeFault>
    ensures asked { IfOk result (λ stepped. FurthersBy
        (meaning_of C.Sealer C.Agreement C.Proof setup.now.caller.now)
        (setup_of setup.now) ike place held.old table.old stepped held.new table.new) }
    ensures refused { IfErr result
        (λ reason. RefusesFurtherBy
        (protecting_entry setup.now.policy.now place) ike held.old table.old reason
        × (held.new ≡ held.old) × IsAsBefore table.old table.new) }
{
    let entry = sound_entry(setup, place)?;
    let (local, remote) = sides(&entry);
    ask_further(alloc, setup, held, table, ike, &local, &remote)
}

// An IKE SA that may be begun: its serial, and the entry of its first Child SA.
#[derive(Clone, Copy)]
struct Allowed {
    serial: u32,
    entry: Entry,
}

fn check_beginning<C>(setup: &Setup<'_, C>, held: &Held, place: u32) -> Result<Allowed, IkeFault>
    ensures allowed { IfOk result
        (λ a. IsAllowed setup.now.policy.now place setup.now.fresh.now held.now a.serial a.entry) }
    ensures sound { IfOk result (λ a. IsSoundEntry a.entry) }
    ensures refused { IfErr result
        (λ reason. beginning_fault setup.now.policy.now place setup.now.fresh.now held.now ≡ Some reason) }
{
    let entry = sound_entry(setup, place)?;
    let serial = new_serial(held, setup.fresh.spi)?;
    Ok(Allowed { serial, entry })
}

// The entry of this number, if it protects. It satisfies the invariant of policy entries.
fn sound_entry<C>(setup: &Setup<'_, C>, place: u32) -> Result<Entry, IkeFault>
    ensures entry { IfOk result (λ entry. protecting_entry setup.now.policy.now place ≡ Some entry) }
    ensures sound { IfOk result IsSoundEntry }
    ensures refused { IfErr result
        (λ reason. (reason ≡ IkeFault.Unprotected) × (protecting_entry setup.now.policy.now place ≡ None)) }
{
    match protecting_entry(setup.policy.entries(), place) {
        Some(entry) => Ok(entry),
        None => Err(IkeFault::Unprotected),
    }
}

// The entry of this number, where it protects.
fn protecting_entry(entries: &[Entry], place: u32) -> Option<Entry>
    ensures { result ≡ protecting_entry entries.now place }
{
    match entries.get(place as usize) {
        Some(entry) => if_protects(entry),
        None => None,
    }
}

fn if_protects(entry: &Entry) -> Option<Entry>
    ensures { result ≡ if_protects entry.now.action entry.now }
{
    match entry.action {
        Action::Protect => Some(*entry),
        Action::Bypass | Action::Discard => None,
    }
}

// The serial of an IKE SA that is begun with this SPI.
fn new_serial(held: &Held, spi: u64) -> Result<u32, IkeFault>
    ensures serial { IfOk result
        (λ serial. (new_association_fault held.now spi ≡ None) × (serial ≡ held.now.next)
        × (held.now.next < SERIAL_END)) }
    ensures refused { IfErr result (λ reason. new_association_fault held.now spi ≡ Some reason) }
{
    if held.associations().len() >= ASSOCIATION_LIMIT {
        return Err(IkeFault::Crowded);
    }
    let Some(serial) = held.next_serial() else {
        return Err(IkeFault::NumbersSpent);
    };
    if is_bad_spi(spi, held.associations()) {
        return Err(IkeFault::BadFresh);
    }
    Ok(serial)
}

// Makes room in the table for the Child SA.
#[tactic(auto, using(crate::proofs::WantLemmas::withheld))]
fn prepare(table: &mut Table) -> Result<(), IkeFault>
    ensures ready { IfOk result (λ _. IsReady table.new) }
    ensures left { IfOk result (λ _. (¬ IsFull table.old) × (¬ IsSpent table.old)) }
    ensures refused { IfErr result (GivesNoSpi table.old) }
    ensures content { IsAsBefore table.old table.new }
{
    let _ = table.prepare()?;
    Ok(())
}

// Reserves the Child SA's SPI, and stores the IKE SA. An error is an allocation failure, and changes
// nothing.
fn begin_next(
    alloc: Global,
    held: &mut Held,
    table: &mut Table,
    allowed: &Allowed,
    extended: bool,
    beginning: Beginning,
) -> Result<Stepped, AllocError>
    requires ready { IsReady table.old }
    requires serial { (allowed.now.serial ≡ held.old.next) × (held.old.next < SERIAL_END) }
    requires sound { IsSoundEntry allowed.now.entry }
    ensures begun { IfOk result
        (λ stepped. BeginsNext allowed.now.entry extended beginning held.old table.old stepped held.new
        table.new) }
    ensures refused { IfErr result (λ _. (held.new ≡ held.old) × (table.new ≡ table.old)) }
{
    let (local, remote) = sides(&allowed.entry);
    held.associations.reserve(1)?;
    // From here on nothing can be refused.
    let spi = reserve(table);
    let child = AskedChild::new(spi, local, remote, extended);
    let (association, octets) = beginning.into_association(alloc, allowed.serial, child);
    held.associations.push_reserved(association);
    held.next += 1;
    Ok(Stepped::plain(IkeOutput::Request {
        ike: allowed.serial,
        octets,
    }))
}

// Both sides of an entry, which a message can carry.
fn sides(entry: &Entry) -> (Selector, Selector)
    requires { IsSoundEntry entry.now }
    ensures local { (result.0 ≡ local_side entry.now) × IsSendableSelector result.0 }
    ensures remote { (result.1 ≡ remote_side entry.now) × IsSendableSelector result.1 }
{
    (entry.local_side(), entry.remote_side())
}

fn reserve(table: &mut Table) -> Spi
    requires { IsReady table.old }
    ensures { Reserves table.old result table.new }
{
    table.reserve().unwrap()
}

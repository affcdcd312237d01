//! The IKE machine, and one step of it.
ghost use Rattle.std.specs.Prelude.{◌≡◌, ◌+◌, ◌<◌, ◌^◌, IfOk, IfErr, IfSome};
ghost use Rattle.std.specs.Option.{option_copied};
ghost use Rattle.sadb.specs.Database.{Database, IsAsBefore};
ghost use Rattle.setup.specs.Configs.{IsConfig};
ghost use Rattle.ike.specs.Machines.{keys_of_serial, new_machine};
ghost use Rattle.ike.specs.Moments.{IsTimely};
ghost use Rattle.ike.specs.Outputs.{plain_step};
ghost use Rattle.sa_init.specs.Cookies.{changed};
ghost use Rattle.ike.specs.Soundness.{IsSoundMachine};
ghost use Rattle.ike.specs.Once.{IsRefusedAlike, IsTakenAlike};
ghost use Rattle.ike.specs.StepLaws.{StepsByLaws};
ghost use Rattle.ike.specs.Steps.{input_view, Refuses, Steps};
ghost use Rattle.effects.specs.Taking.{meaning_of};
ghost use Rattle.moments.specs.Next.{NothingIsDueBefore, SomethingIsDue};

use crate::asking::{ask_by, delete_child};
use crate::held::{Held, association_of};
use crate::laws::{
    inputs_tell_their_lengths, keys_stay_whole, soundness_stays, steps_are_determined,
    steps_keep_their_laws,
};
use crate::receiving::take_datagram;
use crate::starting::start;
use crate::ticking::take_moment;
use crate::{IkeFault, IkeInput, IkeOutput, Stepped};
use association::Association;
use informational::Order;
use moments::laws::what_is_due_next_lies_ahead;
use moments::next_due;
use policy::Policy;
use sa_init::{Cookies, SecretsSpent};
use sadb::Table;
use setup::{Config, Setup};
use std::alloc::Global;
use std::marker::Model;
use suite::{Agreement, KeyRecord, Proof, Sealer};

/// The IKE machine of one end: its IKE SAs with one peer, of which it holds at most 128.
///
/// The SPIs that an IKE SA holds for Child SAs that it asked for are reserved in the table that every step
/// gets. It must always be the same table.
#[derive(Drop)]
pub struct Ike {
    config: Config,
    cookies: Cookies,
    moment: u64,
    held: Held,
}

impl Model for Ike {
    ghost use Rattle.std.specs.Coded.{codes};
    ghost use Rattle.association.specs.contracts.phase.Association as association;
    ghost use Rattle.setup.specs.Configs.{IsConfig};
    ghost use Rattle.ike.specs.Machines.{Machine};

    ghost Value = { Machine };

    ghost coded = { Prim.hlevel (codes, association.the_row.coded) };

    ghost view = { λ i. record { config = i.config; cookies = i.cookies; moment = i.moment; held = i.held } };

    ghost invariant = { λ i. IsConfig i.config };
}

impl Ike {
    /// A machine without IKE SAs, at time 0. Takes no memory.
    pub fn new(alloc: Global, config: Config) -> Ike
        ensures content { result ≡ new_machine config }
        ensures sound { (table : Database) → IsSoundMachine result table }
    {
        config.invariants_hold();
        Ike {
            cookies: Cookies::new(config.cookie_secret()),
            config,
            moment: 0,
            held: Held::new(alloc),
        }
    }

    /// The IKE SAs that are held, by rising serial.
    pub fn associations(&self) -> &[Association]
        ensures { result.now ≡ self.now.held.associations }
    {
        self.held.associations()
    }

    /// The key record of the IKE SA with this serial. None where it is not held, or has no keys yet.
    pub fn keys_of(&self, serial: u32) -> Option<&KeyRecord>
        ensures { option_copied result ≡ keys_of_serial serial self.now.held.associations }
    {
        association_of(serial, self.held.associations())?.keys()
    }

    /// The earliest time, in milliseconds, at which [`IkeInput::Tick`] does anything: retransmits a
    /// request, gives one up, or removes an IKE SA that expires. None where no time of 64 bits does. Takes
    /// no memory.
    ///
    /// Before it a tick changes nothing
    /// ([`nothing_comes_before_the_next_moment`](crate::laws::nothing_comes_before_the_next_moment)), and
    /// this one does something, where memory doesn't run out
    /// ([`the_next_moment_brings_something`](crate::laws::the_next_moment_brings_something)). It lies after
    /// the greatest time so far, where nothing is due that this one has reached
    /// ([`what_is_due_comes_in_time`](crate::laws::what_is_due_comes_in_time)).
    pub fn next_moment(&self) -> Option<u64>
        ensures early { NothingIsDueBefore result self.now.held.associations }
        ensures due { IfSome result (λ moment. SomethingIsDue moment self.now.held.associations) }
        ensures ahead { IsTimely self.now → IfSome result (λ moment. self.now.moment < moment) }
    {
        what_is_due_next_lies_ahead();
        next_due(self.held.associations())
    }

    /// One step: takes a datagram, a command or the time, and says what to send.
    ///
    /// A datagram is dropped ([`IkeOutput::Dropped`]) by E1 to E9 where it is no well-formed message, by
    /// E28 to E33, or by E34. It is refused (`Err`) by [`IkeFault::NumbersSpent`] or [`IkeFault::BadFresh`]
    /// where it would make an IKE SA, and on allocation failure. A datagram that spells no message is never
    /// refused.
    ///
    /// A command to ask for a Child SA is refused by the first of these:
    /// - [`IkeFault::Unprotected`] (E23);
    /// - with a new IKE SA, E25 where 128 are held, E36, and E37;
    /// - for an additional child, E28 where no IKE SA has the serial, E32 where it isn't established, E35
    ///   where the peer's window is full or the IKE SA is being deleted, and E36; then E25 or E26 by the
    ///   table;
    /// - an allocation failure.
    ///
    /// The commands to probe the peer, and to delete a child or an IKE SA, are refused by the first of
    /// these: E28 where none has the serial, E32 where the IKE SA isn't established or the child is being
    /// deleted, E35 and E36 as for an additional child, and an allocation failure. A new secret is refused
    /// by E36. A tick is refused on allocation failure alone, and only where a request is due to be
    /// retransmitted or an IKE SA to be closed.
    ///
    /// What is refused changes nothing but the table's room. What each input does is in `stepped`, and what
    /// every step keeps to in `laws`: its moves, who is established, what the trace names, and what goes in
    /// clear. Also of what a child is made and what an answer may hold. One IKE SA is changed, but for a
    /// tick. Under load no datagram makes a half-open IKE SA without a right cookie.
    ///
    /// Given once more, or to another machine with its table that hold the same, an input has the same result
    /// and leaves the same, unless memory runs out (`determined`, `refused_alike`).
    pub fn step<C: Sealer + Agreement + Proof>(
        &mut self,
        alloc: Global,
        input: &IkeInput<'_>,
        table: &mut Table,
        policy: &Policy,
        caller: &C,
    ) -> Result<Stepped, IkeFault>
        requires sound { IsSoundMachine self.old table.old }
        ensures stepped { IfOk result (λ stepped. Steps
            (meaning_of C.Sealer C.Agreement C.Proof caller.now)
            policy.now (input_view input.now) self.old table.old stepped self.new table.new) }
        ensures refused { IfErr result (λ reason. Refuses
            (meaning_of C.Sealer C.Agreement C.Proof caller.now)
            policy.now (input_view input.now) self.old table.old reason
            × (self.new ≡ self.old) × IsAsBefore table.old table.new) }
        ensures laws { IfOk result (λ stepped. StepsByLaws
            (meaning_of C.Sealer C.Agreement C.Proof caller.now)
            policy.now (input_view input.now) self.old table.old stepped self.new table.new) }
        ensures determined { IfOk result (λ stepped. IsTakenAlike
            (meaning_of C.Sealer C.Agreement C.Proof caller.now)
            policy.now (input_view input.now) self.old table.old stepped self.new table.new) }
        ensures refused_alike { IfErr result (λ reason. IsRefusedAlike
            (meaning_of C.Sealer C.Agreement C.Proof caller.now)
            policy.now (input_view input.now) self.old table.old reason) }
        ensures sound { IsSoundMachine self.new table.new }
    {
        table.invariants_hold();
        soundness_stays();
        steps_keep_their_laws();
        steps_are_determined();
        keys_stay_whole();
        inputs_tell_their_lengths(caller, input);
        self.take(alloc, input, table, policy, caller)
    }

    // The step itself. That it keeps the machine's invariant is proved in `step`, which calls it.
    fn take<C: Sealer + Agreement + Proof>(
        &mut self,
        alloc: Global,
        input: &IkeInput<'_>,
        table: &mut Table,
        policy: &Policy,
        caller: &C,
    ) -> Result<Stepped, IkeFault>
        requires sound { IsSoundMachine self.old table.old }
        ensures stepped { IfOk result (λ stepped. Steps
            (meaning_of C.Sealer C.Agreement C.Proof caller.now)
            policy.now (input_view input.now) self.old table.old stepped self.new table.new) }
        ensures refused { IfErr result (λ reason. Refuses
            (meaning_of C.Sealer C.Agreement C.Proof caller.now)
            policy.now (input_view input.now) self.old table.old reason
            × (self.new ≡ self.old) × IsAsBefore table.old table.new) }
    {
        let with = |fresh| Setup {
            caller,
            config: &self.config,
            policy,
            fresh,
            moment: self.moment,
        };
        match input {
            IkeInput::Message {
                from,
                octets,
                fresh,
            } => take_datagram(
                alloc,
                &with(fresh),
                &self.cookies,
                &mut self.held,
                table,
                from,
                octets,
            ),
            IkeInput::Start { ike, entry, fresh } => {
                start(alloc, &with(fresh), &mut self.held, table, *ike, *entry)
            }
            IkeInput::Probe { ike, fresh } => {
                ask_by(
                    alloc,
                    &with(fresh),
                    &mut self.held,
                    table,
                    *ike,
                    Order::Probe,
                )
            }
            IkeInput::DeleteChild { child, fresh } => {
                delete_child(alloc, &with(fresh), &mut self.held, table, *child)
            }
            IkeInput::DeleteIke { ike, fresh } => {
                let order = Order::DeleteAssociation;
                ask_by(alloc, &with(fresh), &mut self.held, table, *ike, order)
            }
            IkeInput::Secret(secret) => change_secret(&mut self.cookies, secret),
            IkeInput::Tick(moment) => {
                let now = self.moment.max(*moment);
                let stepped = take_moment(alloc, &mut self.held, table, now)?;
                self.moment = now;
                Ok(stepped)
            }
        }
    }
}

fn change_secret(cookies: &mut Cookies, secret: &[u8; 32]) -> Result<Stepped, IkeFault>
    ensures changed { IfOk result
        (λ stepped. (stepped ≡ plain_step IkeOutput.Done) × (cookies.new ≡ changed cookies.old secret.now)
        × (cookies.old.version + 1 < 2 ^ 32)) }
    ensures refused { IfErr result (λ reason. (reason ≡ IkeFault.NumbersSpent) × (cookies.new ≡ cookies.old)
        × (¬ (cookies.old.version + 1 < 2 ^ 32))) }
{
    match cookies.change(secret) {
        Ok(()) => Ok(Stepped::plain(IkeOutput::Done)),
        Err(SecretsSpent) => Err(IkeFault::NumbersSpent),
    }
}

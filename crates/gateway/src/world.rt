//! Two gateways, and what they sent to each other.
ghost use Rattle.std.specs.Prelude.{◌≡◌, MatchOption, None, Some, IfErr, IfOk, true, false};
ghost use Rattle.base.specs.Octets.{AreOctets, Octets};
ghost use Rattle.ike.specs.Moves.{HasSeal};
ghost use Rattle.gateway.specs.Inputs.{event_view, input_view};
ghost use Rattle.gateway.specs.Outputs.{output_view};
ghost use Rattle.gateway.specs.Requests.{for_ike};
ghost use Rattle.suite.specs.declared.key_record.KeyRecord.{KeyRecord};
ghost use Rattle.association.specs.Receiving.{Opening};
ghost use Rattle.suite.specs.declared.keys.Keys.{Keys};
ghost use Rattle.gateway.specs.BothEnds.{IsWhollySound};
ghost use Rattle.gateway.specs.WorldParties.{IsSoundUnder};
ghost use Rattle.gateway.specs.WorldRuns.{sends_nothing};
ghost use Rattle.gateway.specs.Worlds.{datagram_at, gateway_at, new_world, HoldsNothing, IsFreshlyGiven, TakesEvent};
ghost use Rattle.effects.specs.Taking.{meaning_of};

mod log;
mod running;
mod stored;

use crate::laws::{every_world_stays_sound, new_worlds_are_wholly_sound};
use crate::{Gateway, Input, Output};
use log::{Log, most_again, sends_nothing, take, take_unstored};
pub use running::run_world;
use std::alloc::{AllocError, Global};
use std::marker::Model;
pub use stored::{Child, Datagram, End, Event, Keyed, Protection, Simplex};
use suite::{Agreement, Fresh, Proof, Sealer};

/// Two gateways, with every datagram that they sent, in order, every key record and every Child SA that they
/// made. Usually each is configured as the other's peer, but nothing here asks for that. An event says what
/// arrives at an end, wherever it comes from.
///
/// Nothing that is stored is ever forgotten: statements on both ends together compare with it, whatever the
/// network does. It holds keys, so a world is for tests and for proofs.
#[derive(Drop)]
pub struct World<C> {
    a: Gateway<C>,
    b: Gateway<C>,
    log: Log,
}

impl<C> Model for World<C> {
    ghost use Rattle.std.specs.Coded.{codes};
    ghost use Rattle.association.specs.contracts.phase.Association as association;
    ghost use Rattle.sadb.specs.Database.{database_code};
    ghost use Rattle.gateway.specs.States.{state_code};
    ghost use Rattle.gateway.specs.Worlds.{stored_by, world_code, WorldState};

    ghost Value = { WorldState C };

    ghost coded = { world_code (state_code (Prim.hlevel (codes, association.the_row.coded)) database_code (Prim.hlevel codes) C.code) (Prim.hlevel codes) };

    ghost view = { λ w. record { a = w.a; b = w.b; stored = stored_by w.log } };
}

impl<C> World<C> {
    /// Two gateways without SAs that have given no SPI, at time 0, with nothing sent yet. Takes no memory.
    /// Such a world satisfies the whole invariant of worlds under every key record.
    pub fn new(alloc: Global, a: Gateway<C>, b: Gateway<C>) -> World<C>
        requires a { HoldsNothing a }
        requires b { HoldsNothing b }
        ensures content { result ≡ new_world a b }
        ensures sound { (keys : KeyRecord) → IsSoundUnder keys result }
        ensures wholly { (body_of : Keys → Octets → Octets → Octets → Octets) (plain_of : Opening)
            (keys : KeyRecord) → IsWhollySound body_of plain_of keys result }
    {
        every_world_stays_sound::<C>();
        new_worlds_are_wholly_sound::<C>();
        a.invariants_hold();
        b.invariants_hold();
        World {
            a,
            b,
            log: Log::new(alloc),
        }
    }

    /// The gateway of an end.
    pub fn gateway(&self, end: End) -> &Gateway<C>
        ensures { result.now ≡ gateway_at end self.now }
    {
        match end {
            End::A => &self.a,
            End::B => &self.b,
        }
    }

    /// All datagrams that were sent, in order.
    pub fn datagrams(&self) -> &[Datagram]
        ensures { result.now ≡ self.now.stored.sent }
    {
        self.log.sent.as_slice()
    }

    /// The octets of one datagram that was sent, counted from 1 over both ends.
    pub fn datagram(&self, place: u64) -> Option<&[u8]>
        ensures { MatchOption result (datagram_at self.now.stored.sent place ≡ None)
            (λ octets. datagram_at self.now.stored.sent place ≡ Some octets.now) }
    {
        let place = place.checked_sub(1)?;
        let datagram = self.log.sent.get(place as usize)?;
        Some(datagram.octets.as_slice())
    }

    /// All key records that an end made, in order.
    pub fn key_records(&self) -> &[Keyed]
        ensures { result.now ≡ self.now.stored.keyed }
    {
        self.log.keyed.as_slice()
    }

    /// All Child SAs that an end made, in order, also those that it holds no more.
    pub fn children(&self) -> &[Child]
        ensures { result.now ≡ self.now.stored.children }
    {
        self.log.children.as_slice()
    }
}

impl<C: Sealer + Agreement + Proof> World<C> {
    // An event at one end. Refused where there is no memory for what may be stored of it; then nothing
    // happens. Where it can't send or make anything it isn't refused.
    pub(crate) fn happen<'a>(
        &mut self,
        alloc: Global,
        event: &Event<'a>,
    ) -> Result<Output<'a>, AllocError>
        ensures happened { IfOk result (λ output. TakesEvent
            (meaning_of C.Sealer C.Agreement C.Proof)
            (event_view event.now) self.old (output_view output) self.new) }
        ensures refused { IfErr result (λ _. self.new ≡ self.old) }
        ensures sends { IfErr result (λ _. sends_nothing (event_view event.now).input ≡ false) }
    {
        if sends_nothing(&event.input) {
            return Ok(self.happen_unstored(alloc, event));
        }
        input_is_fresh(&event.input);
        let again = most_again(&event.input, self.gateway(event.end));
        let spare = self.log.prepare(alloc, again)?;
        let log = &mut self.log;
        match event.end {
            End::A => {
                self.a.invariants_hold();
                Ok(take(alloc, End::A, &event.input, &mut self.a, log, spare))
            }
            End::B => {
                self.b.invariants_hold();
                Ok(take(alloc, End::B, &event.input, &mut self.b, log, spare))
            }
        }
    }

    // An event at one end of which there is nothing to store.
    fn happen_unstored<'a>(&mut self, alloc: Global, event: &Event<'a>) -> Output<'a>
        requires { sends_nothing (event_view event.now).input ≡ true }
        ensures { TakesEvent
            (meaning_of C.Sealer C.Agreement C.Proof)
            (event_view event.now) self.old (output_view result) self.new }
    {
        input_is_fresh(&event.input);
        match event.end {
            End::A => {
                self.a.invariants_hold();
                take_unstored(alloc, &event.input, &mut self.a)
            }
            End::B => {
                self.b.invariants_hold();
                take_unstored(alloc, &event.input, &mut self.b)
            }
        }
    }
}

// Shows the prover that the fresh octets for sealing are 16. Does nothing.
fn input_is_fresh(input: &Input<'_>)
    ensures { IsFreshlyGiven (for_ike (input_view input.now)) }
{
    match *input {
        Input::Ike { fresh, .. }
        | Input::Start { fresh, .. }
        | Input::Probe { fresh, .. }
        | Input::DeleteChild { fresh, .. }
        | Input::DeleteIke { fresh, .. } => seal_is_fresh(fresh),
        _ => {}
    }
}

fn seal_is_fresh(fresh: &Fresh)
    ensures { HasSeal fresh.now }
{
    octets_fit(&fresh.seal);
}

// Shows the prover that a list of `u8` is of octets. Does nothing.
fn octets_fit(octets: &[u8])
    ensures { AreOctets octets.now }
{}

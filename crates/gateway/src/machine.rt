//! A gateway, and one step of it.
ghost use Rattle.std.specs.Prelude.{◌≡◌, ◌+◌, ◌<◌, ◌≤◌, IfSome, length, map};
ghost use Rattle.std.specs.Option.{option_copied};
ghost use Rattle.sadb.specs.Database.{IsSoundTable, IsStart};
ghost use Rattle.ike.specs.Machines.{keys_of_serial};
ghost use Rattle.ike.specs.Moments.{IsTimely};
ghost use Rattle.ike.specs.Soundness.{AreReservationsHeld, IsSoundMachine};
ghost use Rattle.ike.specs.Outputs.{no_trace};
ghost use Rattle.esp.specs.Precomputed.{ArePrecomputed, IsPrecomputed};
ghost use Rattle.sadb.specs.Laying.{KeepsSenders};
ghost use Rattle.gateway.specs.Carrying.{EachPairIsOfAnEstablished};
ghost use Rattle.gateway.specs.Groups.{packet_in, packets_in};
ghost use Rattle.gateway.specs.Inputs.{Esp, Outward, input_view};
ghost use Rattle.gateway.specs.Inside.{LiesInside};
ghost use Rattle.gateway.specs.Laying.{finished_output, finished_outputs};
ghost use Rattle.gateway.specs.Lengths.{AreGiven};
ghost use Rattle.gateway.specs.Once.{HasOneResult};
ghost use Rattle.gateway.specs.Outputs.{output_view, view_of_outcome};
ghost use Rattle.gateway.specs.Staying.{RepliesAreKept, WindowsAreConfigured};
ghost use Rattle.gateway.specs.Rows.{LaysIn, finished_row, octets_of};
ghost use Rattle.gateway.specs.States.{new_gateway};
ghost use Rattle.gateway.specs.Steps.{Steps, Traces};
ghost use Rattle.effects.specs.Taking.{meaning_of};
ghost use Rattle.moments.specs.Next.{NothingIsDueBefore, SomethingIsDue};
ghost use Rattle.traffic.specs.Outcomes.{outcome_of_arrival};

use crate::ahead::{gain_ahead, set_ahead};
use crate::given::{tell_their_lengths, tells_its_lengths};
use crate::laws::{steps_are_determined, what_every_gateway_has_stays};
use crate::laying::finish_all;
use crate::row::finish_row;
use crate::stepping::{lay, lay_in, receive, take};
use crate::{Arrival, Input, Laid, Output, Span, Traced};
use association::Association;
use esp::{GROUP, PACKETS_LEAST, Precomputed};
use flows::FlowMemory;
use flows::laws::answers_stay_right;
use ike::Ike;
use ike::laws::{keys_stay_whole, no_spi_is_lost, what_is_due_comes_in_time};
use policy::Policy;
use sadb::Table;
use setup::Config;
use std::alloc::Global;
use std::marker::Model;
use suite::{Agreement, KeyRecord, Proof, Sealer};

/// A gateway: the IKE machine, the table of SA pairs (SAD), the policy (SPD), and the crypto provider. It
/// also remembers what is done with flows. No public contract speaks of that memory, since each answer is
/// the one that a look-up would give.
#[derive(Drop)]
pub struct Gateway<C> {
    ike: Ike,
    table: Table,
    flows: FlowMemory,
    policy: Policy,
    caller: C,
    // From how many packets on a list's ICVs are computed side by side.
    lanes: usize,
}

impl<C> Model for Gateway<C> {
    ghost use Rattle.std.specs.Coded.{codes};
    ghost use Rattle.association.specs.contracts.phase.Association as association;
    ghost use Rattle.flows.specs.Memory.{AllRight};
    ghost use Rattle.ike.specs.Moments.{IsTimely};
    ghost use Rattle.ike.specs.Soundness.{AreReservationsHeld, IsSoundMachine};
    ghost use Rattle.sadb.specs.Database.{database_code};
    ghost use Rattle.gateway.specs.Staying.{HasWhatStays};
    ghost use Rattle.gateway.specs.States.{State, state_code};

    ghost Value = { State C };

    ghost coded = { state_code (Prim.hlevel (codes, association.the_row.coded)) database_code (Prim.hlevel codes) C.code };

    ghost view = { λ g. record { machine = g.ike; table = g.table; entries = g.policy; caller = g.caller } };

    ghost invariant = { λ g. IsSoundMachine g.ike g.table × IsTimely g.ike × AreReservationsHeld g.ike.held g.table
        × AllRight g.policy g.table.pairs g.flows
        × HasWhatStays (record { machine = g.ike; table = g.table; entries = g.policy; caller = g.caller }) };
}

impl<C> Gateway<C> {
    /// A gateway without SAs, at time 0. Takes no memory. `start` is the first inbound SPI for ESP, from
    /// 256 to 2^32 - 65,536 ([`first_spi`](crate::first_spi)).
    pub fn new(alloc: Global, config: Config, policy: Policy, start: u32, caller: C) -> Gateway<C>
        requires start { IsStart start }
        ensures { result ≡ new_gateway config policy start caller }
    {
        what_is_due_comes_in_time();
        no_spi_is_lost();
        answers_stay_right();
        Gateway {
            ike: Ike::new(alloc, config),
            table: Table::new(alloc, start),
            flows: FlowMemory::new(alloc),
            policy,
            caller,
            lanes: PACKETS_LEAST,
        }
    }

    /// Has lists of so many packets or more have their ICVs computed side by side, where they are alike. Of
    /// two to five packets that is so only where they are long enough to gain. 2 is right in a build for
    /// x86-64-v3. Without it lists begin at [`PACKETS_LEAST`](esp::PACKETS_LEAST), which is right for
    /// x86-64-v2. Time alone depends on it.
    pub fn begin_lanes_at(&mut self, packets: usize)
        ensures { self.new ≡ self.old }
    {
        self.lanes = packets;
    }

    /// How often it has looked up what is done with an outbound packet's flow, a count that begins anew at
    /// 2^64. For all other packets it remembered that.
    pub fn look_ups(&self) -> u64 {
        self.flows.look_ups()
    }

    // From how many packets on lists have their ICVs computed side by side.
    pub(crate) fn lanes(&self) -> usize {
        self.lanes
    }

    /// The table of SA pairs for ESP.
    pub fn table(&self) -> &Table
        ensures { result.now ≡ self.now.table }
    {
        &self.table
    }

    /// The IKE SAs, by rising serial.
    pub fn associations(&self) -> &[Association]
        ensures { result.now ≡ self.now.machine.held.associations }
    {
        self.ike.associations()
    }

    /// The key record of the IKE SA with this serial. None where the IKE SA is not held, or has no keys
    /// yet.
    pub fn keys_of(&self, serial: u32) -> Option<&KeyRecord>
        ensures { option_copied result ≡ keys_of_serial serial self.now.machine.held.associations }
    {
        self.ike.keys_of(serial)
    }

    /// The earliest time, in milliseconds, at which [`Input::Tick`] does anything: retransmits a request,
    /// gives a request up, or removes a half-open or closed IKE SA (RFC 7296, sections 2.1 and 2.4). None
    /// where no time of 64 bits does. A host that has nothing else to do may sleep until then. Takes no
    /// memory.
    ///
    /// It lies after the greatest time so far. A step may bring it nearer or put it off, so it is asked for
    /// anew after each. Before it a tick changes nothing else
    /// ([`nothing_comes_before_the_next_moment`](crate::laws::nothing_comes_before_the_next_moment)), and
    /// this one does something, where memory doesn't run out
    /// ([`the_next_moment_brings_something`](crate::laws::the_next_moment_brings_something)).
    pub fn next_moment(&self) -> Option<u64>
        ensures early { NothingIsDueBefore result self.now.machine.held.associations }
        ensures due { IfSome result (λ moment. SomethingIsDue moment self.now.machine.held.associations) }
        ensures ahead { IfSome result (λ moment. self.now.machine.moment < moment) }
    {
        self.ike.next_moment()
    }

    /// The invariant of every gateway, as a function that does nothing.
    ///
    /// - Machine and table satisfy theirs. Nothing is overdue at the greatest time so far.
    /// - Each SPI that is reserved in the table is held by an IKE SA, for a Child SA that it asked for.
    /// - Each SA pair is of an IKE SA that is held and established.
    /// - The selectors of each SA pair, and of each Child SA that is asked for, lie inside one entry that
    ///   protects.
    /// - Of each IKE SA with keys the responses are kept that the peer may still ask for.
    /// - The window of an established IKE SA is the configuration's.
    pub fn invariants_hold(&self)
        ensures machine { IsSoundMachine self.now.machine self.now.table }
        ensures table { IsSoundTable self.now.table }
        ensures timely { IsTimely self.now.machine }
        ensures reservations { AreReservationsHeld self.now.machine.held self.now.table }
        ensures standing { EachPairIsOfAnEstablished self.now }
        ensures inside { LiesInside self.now }
        ensures replies { RepliesAreKept self.now.machine.held }
        ensures windows { WindowsAreConfigured self.now.machine }
    {
        self.table.invariants_hold();
    }
}

impl<C: Sealer + Agreement + Proof> Gateway<C> {
    /// One step: takes an input, and returns its output.
    ///
    /// Datagrams of IKE and commands are refused or dropped as [`Ike::step`] says, packets as
    /// [`traffic::receive`], [`traffic::send`] and [`traffic::admit`] say. An outbound packet is refused
    /// ([`Reason::Memory`](crate::Reason), E20) where there is no memory for its ESP packet; an ESP packet
    /// that came takes none. A `Tick` at which nothing is due is never refused. What is done with outbound
    /// flows is remembered as far as there is memory.
    ///
    /// A refused input changes nothing but the table's spare capacity and what is remembered of flows. Given
    /// once more, or to another gateway that holds the same, an input has the same output and leaves the same,
    /// unless memory runs out.
    pub fn step<'a>(&mut self, alloc: Global, input: &Input<'a>) -> Output<'a>
        ensures stepped { Steps
            (meaning_of C.Sealer C.Agreement C.Proof self.old.caller)
            (input_view input.now) self.old (output_view result) self.new }
        ensures determined { HasOneResult
            (meaning_of C.Sealer C.Agreement C.Proof self.old.caller)
            (input_view input.now) self.old (output_view result) self.new }
    {
        steps_are_determined::<C>();
        keys_stay_whole();
        self.invariants_hold();
        tells_its_lengths(&self.caller, input);
        self.traced_step(alloc, input).output
    }

    // Shows the prover what the types of inputs say of them. Does nothing.
    pub(crate) fn tell_their_lengths(&self, inputs: &[Input<'_>])
        ensures { AreGiven (meaning_of C.Sealer C.Agreement C.Proof self.now.caller) (map input_view inputs.now) }
    {
        tell_their_lengths(&self.caller, inputs);
    }

    /// One step as [`step`](Gateway::step), that also returns the trace: which message was sent under which
    /// IKE keys, and which keys and which Child SA were made.
    pub fn traced_step<'a>(&mut self, alloc: Global, input: &Input<'a>) -> Traced<'a>
        ensures { Traces
            (meaning_of C.Sealer C.Agreement C.Proof self.old.caller)
            (input_view input.now) self.old (output_view result.output) result.trace self.new }
    {
        self.traced_step_ahead(alloc, input, None)
    }

    /// Sets the ICVs of the ESP packets among up to 64 inputs, each at its input's place. They are computed
    /// side by side where that is faster, from the table as it is now. A packet has one only where its SA
    /// pair is there and its sequence number is not taken. For
    /// [`traced_step_ahead`](Gateway::traced_step_ahead). The places begin as [`no_values`](esp::no_values).
    /// Takes no memory.
    pub fn compute_ahead(&self, inputs: &[Input<'_>], values: &mut [Option<Precomputed>])
        requires few { length inputs.now ≤ GROUP }
        requires room { length inputs.now ≤ length values.old }
        ensures right { ArePrecomputed (packets_in (map input_view inputs.now)) values.old
            → ArePrecomputed (packets_in (map input_view inputs.now)) values.new }
        ensures long { length values.new ≡ length values.old }
    {
        if gain_ahead(inputs, self.lanes) {
            self.set_ahead(inputs, values);
        }
    }

    // The same, where the caller has found that they gain (`gain_ahead`).
    pub(crate) fn set_ahead(&self, inputs: &[Input<'_>], values: &mut [Option<Precomputed>])
        requires few { length inputs.now ≤ GROUP }
        requires room { length inputs.now ≤ length values.old }
        ensures right { ArePrecomputed (packets_in (map input_view inputs.now)) values.old
            → ArePrecomputed (packets_in (map input_view inputs.now)) values.new }
        ensures long { length values.new ≡ length values.old }
    {
        set_ahead(&self.table, inputs, values, self.lanes);
    }

    /// One step as [`traced_step`](Gateway::traced_step), with an ESP packet's ICV where that was computed
    /// ahead. The packet is verified with the table as it is by now: an ICV that was computed under another
    /// key or for another sequence number is not used.
    pub fn traced_step_ahead<'a>(
        &mut self,
        alloc: Global,
        input: &Input<'a>,
        ahead: Option<Precomputed>,
    ) -> Traced<'a>
        requires { IfSome ahead (IsPrecomputed (packet_in (input_view input.now))) }
        ensures { Traces
            (meaning_of C.Sealer C.Agreement C.Proof self.old.caller)
            (input_view input.now) self.old (output_view result.output) result.trace self.new }
    {
        what_every_gateway_has_stays::<C>();
        self.invariants_hold();
        take(
            alloc,
            input,
            ahead,
            &mut self.ike,
            &mut self.table,
            &mut self.flows,
            &self.policy,
            &self.caller,
        )
    }

    /// Takes an ESP packet as [`traced_step_ahead`](Gateway::traced_step_ahead) takes [`Input::Esp`], and
    /// returns what came of it by itself, which is shorter than an output with its trace. Takes no memory.
    pub fn receive_ahead<'a>(&mut self, packet: &'a [u8], ahead: Option<Precomputed>) -> Arrival<'a>
        requires { IfSome ahead (IsPrecomputed packet.now) }
        ensures { Traces
            (meaning_of C.Sealer C.Agreement C.Proof self.old.caller)
            (Esp packet.now) self.old (view_of_outcome (outcome_of_arrival result)) no_trace self.new }
    {
        what_every_gateway_has_stays::<C>();
        self.invariants_hold();
        receive(
            packet,
            ahead,
            &self.ike,
            &mut self.table,
            &self.flows,
            &self.policy,
        )
    }

    /// Takes an outbound packet as [`step`](Gateway::step) takes [`Input::Outward`], but an ESP packet that
    /// goes out has zeros in the place of its ICV. [`finish`](Gateway::finish) writes that: so the ICVs of
    /// packets that are laid one after the other are computed side by side.
    pub fn lay<'a>(&mut self, alloc: Global, packet: &'a [u8]) -> Output<'a>
        ensures traced { Traces
            (meaning_of C.Sealer C.Agreement C.Proof self.old.caller)
            (Outward packet.now) self.old (output_view (finished_output self.new.table.pairs result))
            no_trace self.new }
        ensures senders { KeepsSenders self.old.table.pairs self.new.table.pairs }
    {
        what_every_gateway_has_stays::<C>();
        self.invariants_hold();
        lay(
            alloc,
            packet,
            &self.ike,
            &mut self.table,
            &mut self.flows,
            &self.policy,
        )
    }

    /// Writes the ICV into each ESP packet of up to 64 outputs of [`lay`](Gateway::lay), computed side by
    /// side where that is faster. Takes no memory. Whatever was laid meanwhile, and whichever packets came,
    /// the outputs are those of as many steps; a packet whose SA pair was removed stays as it is.
    pub fn finish(&self, laid: &mut [Output<'_>])
        requires { length laid.old ≤ GROUP }
        ensures { laid.new ≡ finished_outputs self.now.table.pairs laid.old }
    {
        finish_all(&self.table, laid, self.lanes);
    }

    /// Takes an outbound packet as [`lay`](Gateway::lay) does, but writes the ESP packet at the beginning of a
    /// room of the caller's, which has 29 octets more than the packet. So those of a list stand one behind the
    /// other. [`finish_behind`](Gateway::finish_behind) writes their ICVs. Takes no memory but for the places of
    /// the flows.
    ///
    /// Of how many octets the ESP packet is tells [`esp::packet_size`]; what stands behind it stays. Where the
    /// packet doesn't go protected, nothing is written.
    pub fn lay_in<'a>(&mut self, packet: &'a [u8], room: &mut [u8]) -> Laid<'a>
        requires { length packet.now + 29 ≤ length room.old }
        ensures traced { LaysIn
            (λ said. Traces
            (meaning_of C.Sealer C.Agreement C.Proof self.old.caller)
            (Outward packet.now) self.old said no_trace self.new)
            (length packet.now) room.old result self.new.table.pairs room.new }
        ensures senders { KeepsSenders self.old.table.pairs self.new.table.pairs }
    {
        what_every_gateway_has_stays::<C>();
        self.invariants_hold();
        lay_in(
            packet,
            &self.ike,
            &mut self.table,
            &mut self.flows,
            &self.policy,
            room,
        )
    }

    /// Writes the ICV into each of up to 64 ESP packets that [`lay_in`](Gateway::lay_in) wrote one behind the
    /// other, from the first octet here on; what stands behind them stays. Else as
    /// [`finish`](Gateway::finish).
    pub fn finish_behind(&self, spans: &[Span], packets: &mut [u8])
        requires few { length spans.now ≤ GROUP }
        requires whole { octets_of spans.now ≤ length packets.old }
        ensures { packets.new ≡ finished_row self.now.table.pairs spans.now packets.old }
    {
        finish_row(&self.table, spans, packets, self.lanes);
    }
}

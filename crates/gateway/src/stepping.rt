//! One input of each kind.
ghost use Rattle.std.specs.Prelude.{◌≡◌, ◌+◌, ◌≤◌, IfSome, MatchOption, length};
ghost use Rattle.esp.specs.Precomputed.{IsPrecomputed};
ghost use Rattle.flows.specs.Memory.{AllRight, HoldsNone};
ghost use Rattle.flows.specs.Staying.{NoneComes};
ghost use Rattle.ike.specs.Moments.{IsTimely};
ghost use Rattle.ike.specs.Soundness.{AreReservationsHeld, IsSoundMachine};
ghost use Rattle.ike.specs.Steps as ike_steps;
ghost use Rattle.gateway.specs.Groups.{packet_in};
ghost use Rattle.gateway.specs.Inputs.{input_view};
ghost use Rattle.gateway.specs.Laying.{finished_output};
ghost use Rattle.gateway.specs.Outputs.{output_view, view_of_outcome};
ghost use Rattle.gateway.specs.Remembering.{ForgetsWith, RemembersAt};
ghost use Rattle.gateway.specs.Rows.{LaysIn};
ghost use Rattle.sadb.specs.Laying.{KeepsSenders};
ghost use Rattle.gateway.specs.Steps.{AdmitsPacket, DoesInput, ReceivesPacket, SendsPacket, StepsIke};
ghost use Rattle.effects.specs.Taking.{meaning_of};
ghost use Rattle.traffic.specs.Outcomes.{outcome_of_arrival};
ghost use Rattle.traffic.specs.Remembering.{RemembersItsFlow};

use crate::laying::finished;
use crate::{Input, Output, Reason, Traced};
use esp::Precomputed;
use flows::FlowMemory;
use flows::laws::answers_stay_right;
use ike::laws::{
    no_spi_is_lost, soundness_asks_for_reservations, traces_name_what_is_held,
    what_is_due_comes_in_time,
};
use ike::{Ike, IkeInput, MadeChild};
use policy::Policy;
use sadb::Table;
use std::alloc::Global;
use suite::{Agreement, Proof, Sealer};
use traffic::laws::{no_pair_comes, senders_stay};
use traffic::{Arrival, Laid, admit, receive_ahead};

// Takes an input of any kind, an ESP packet with its ICV where that was computed ahead.
pub(crate) fn take<'a, C: Sealer + Agreement + Proof>(
    alloc: Global,
    input: &Input<'a>,
    ahead: Option<Precomputed>,
    ike: &mut Ike,
    table: &mut Table,
    flows: &mut FlowMemory,
    policy: &Policy,
    caller: &C,
) -> Traced<'a>
    requires ahead { IfSome ahead (IsPrecomputed (packet_in (input_view input.now))) }
    requires sound { IsSoundMachine ike.old table.old }
    requires timely { IsTimely ike.old }
    requires reservations { AreReservationsHeld ike.old.held table.old }
    requires right { AllRight policy.now table.old.pairs flows.old }
    ensures done { DoesInput
        (meaning_of C.Sealer C.Agreement C.Proof caller.now)
        policy.now (input_view input.now) ike.old table.old (output_view result.output) result.trace ike.new table.new }
    ensures sound { IsSoundMachine ike.new table.new }
    ensures timely { IsTimely ike.new }
    ensures reservations { AreReservationsHeld ike.new.held table.new }
    ensures right { AllRight policy.now table.new.pairs flows.new }
    ensures remembered { RemembersAt policy.now table.old.pairs (input_view input.now) result.trace flows.old
        flows.new }
{
    soundness_asks_for_reservations();
    no_spi_is_lost();
    answers_stay_right();
    no_pair_comes();
    match *input {
        Input::Ike {
            from,
            octets,
            fresh,
        } => {
            let message = IkeInput::Message {
                from,
                octets,
                fresh,
            };
            step_ike(alloc, &message, ike, table, flows, policy, caller)
        }
        Input::Start {
            ike: serial,
            entry,
            fresh,
        } => {
            let order = IkeInput::Start {
                ike: serial,
                entry,
                fresh,
            };
            step_ike(alloc, &order, ike, table, flows, policy, caller)
        }
        Input::Probe { ike: asked, fresh } => {
            let order = IkeInput::Probe { ike: asked, fresh };
            step_ike(alloc, &order, ike, table, flows, policy, caller)
        }
        Input::DeleteChild { child, fresh } => {
            let order = IkeInput::DeleteChild { child, fresh };
            step_ike(alloc, &order, ike, table, flows, policy, caller)
        }
        Input::DeleteIke { ike: asked, fresh } => {
            let order = IkeInput::DeleteIke { ike: asked, fresh };
            step_ike(alloc, &order, ike, table, flows, policy, caller)
        }
        Input::Secret { secret } => {
            step_ike(
                alloc,
                &IkeInput::Secret(secret),
                ike,
                table,
                flows,
                policy,
                caller,
            )
        }
        Input::Tick { moment } => {
            step_ike(
                alloc,
                &IkeInput::Tick(moment),
                ike,
                table,
                flows,
                policy,
                caller,
            )
        }
        Input::Esp { octets } => Traced::of_arrival(receive_ahead(table, octets, ahead)),
        Input::Outward { packet } => {
            Traced::plain(send_packet(alloc, table, flows, policy, packet))
        }
        Input::Inward { packet } => Traced::plain(admit_packet(policy, packet)),
    }
}

// Has the IKE machine take a step.
fn step_ike<'a, C: Sealer + Agreement + Proof>(
    alloc: Global,
    input: &IkeInput<'_>,
    ike: &mut Ike,
    table: &mut Table,
    flows: &mut FlowMemory,
    policy: &Policy,
    caller: &C,
) -> Traced<'a>
    requires sound { IsSoundMachine ike.old table.old }
    requires timely { IsTimely ike.old }
    requires reservations { AreReservationsHeld ike.old.held table.old }
    requires right { AllRight policy.now table.old.pairs flows.old }
    ensures stepped { StepsIke
        (meaning_of C.Sealer C.Agreement C.Proof caller.now)
        policy.now (ike_steps.input_view input.now) ike.old table.old
        (output_view result.output) result.trace ike.new table.new }
    ensures sound { IsSoundMachine ike.new table.new }
    ensures timely { IsTimely ike.new }
    ensures reservations { AreReservationsHeld ike.new.held table.new }
    ensures right { AllRight policy.now table.new.pairs flows.new }
    ensures remembered { ForgetsWith result.trace flows.old flows.new }
{
    answers_stay_right();
    what_is_due_comes_in_time();
    no_spi_is_lost();
    traces_name_what_is_held();
    table.invariants_hold();
    match ike.step(alloc, input, table, policy, caller) {
        Ok(stepped) => {
            let traced = Traced::by_ike(stepped);
            forget_with(flows, traced.trace.child);
            traced
        }
        Err(fault) => Traced::plain(Output::Refused {
            reason: Reason::Ike(fault),
        }),
    }
}

// Forgets what is done with flows where a Child SA was made, since its pair may carry them from now on.
fn forget_with(flows: &mut FlowMemory, child: Option<MadeChild>)
    ensures { MatchOption child (flows.new ≡ flows.old) (λ _. HoldsNone flows.new) }
{
    if child.is_some() {
        flows.forget();
    }
}

/// Takes an ESP packet that came, with its ICV where that was computed ahead.
pub(crate) fn receive<'a>(
    packet: &'a [u8],
    ahead: Option<Precomputed>,
    ike: &Ike,
    table: &mut Table,
    flows: &FlowMemory,
    policy: &Policy,
) -> Arrival<'a>
    requires ahead { IfSome ahead (IsPrecomputed packet.now) }
    requires sound { IsSoundMachine ike.now table.old }
    requires reservations { AreReservationsHeld ike.now.held table.old }
    requires right { AllRight policy.now table.old.pairs flows.now }
    ensures received { ReceivesPacket table.old packet.now
        (view_of_outcome (outcome_of_arrival result)) table.new }
    ensures sound { IsSoundMachine ike.now table.new }
    ensures reservations { AreReservationsHeld ike.now.held table.new }
    ensures right { AllRight policy.now table.new.pairs flows.now }
{
    soundness_asks_for_reservations();
    no_spi_is_lost();
    answers_stay_right();
    no_pair_comes();
    receive_ahead(table, packet, ahead)
}

/// Lays an outbound packet.
pub(crate) fn lay<'a>(
    alloc: Global,
    packet: &'a [u8],
    ike: &Ike,
    table: &mut Table,
    flows: &mut FlowMemory,
    policy: &Policy,
) -> Output<'a>
    requires sound { IsSoundMachine ike.now table.old }
    requires reservations { AreReservationsHeld ike.now.held table.old }
    requires right { AllRight policy.now table.old.pairs flows.old }
    ensures sent { SendsPacket policy.now table.old packet.now
        (output_view (finished_output table.new.pairs result)) table.new }
    ensures sound { IsSoundMachine ike.now table.new }
    ensures reservations { AreReservationsHeld ike.now.held table.new }
    ensures right { AllRight policy.now table.new.pairs flows.new }
    ensures remembered { RemembersItsFlow policy.now table.old.pairs packet.now flows.old flows.new }
    ensures senders { KeepsSenders table.old.pairs table.new.pairs }
{
    soundness_asks_for_reservations();
    no_spi_is_lost();
    lay_packet(alloc, table, flows, policy, packet)
}

/// Lays an outbound packet, with its ESP packet at the beginning of a room.
pub(crate) fn lay_in<'a>(
    packet: &'a [u8],
    ike: &Ike,
    table: &mut Table,
    flows: &mut FlowMemory,
    policy: &Policy,
    room: &mut [u8],
) -> Laid<'a>
    requires sound { IsSoundMachine ike.now table.old }
    requires reservations { AreReservationsHeld ike.now.held table.old }
    requires right { AllRight policy.now table.old.pairs flows.old }
    requires fits { length packet.now + 29 ≤ length room.old }
    ensures sent { LaysIn (λ said. SendsPacket policy.now table.old packet.now said table.new)
        (length packet.now) room.old result table.new.pairs room.new }
    ensures sound { IsSoundMachine ike.now table.new }
    ensures reservations { AreReservationsHeld ike.now.held table.new }
    ensures right { AllRight policy.now table.new.pairs flows.new }
    ensures remembered { RemembersItsFlow policy.now table.old.pairs packet.now flows.old flows.new }
    ensures senders { KeepsSenders table.old.pairs table.new.pairs }
{
    soundness_asks_for_reservations();
    no_spi_is_lost();
    lay_packet_in(table, flows, policy, packet, room)
}

fn lay_packet_in<'a>(
    table: &mut Table,
    flows: &mut FlowMemory,
    policy: &Policy,
    packet: &'a [u8],
    room: &mut [u8],
) -> Laid<'a>
    requires right { AllRight policy.now table.old.pairs flows.old }
    requires fits { length packet.now + 29 ≤ length room.old }
    ensures sent { LaysIn (λ said. SendsPacket policy.now table.old packet.now said table.new)
        (length packet.now) room.old result table.new.pairs room.new }
    ensures reserved { table.new.reserved ≡ table.old.reserved }
    ensures right { AllRight policy.now table.new.pairs flows.new }
    ensures remembered { RemembersItsFlow policy.now table.old.pairs packet.now flows.old flows.new }
    ensures senders { KeepsSenders table.old.pairs table.new.pairs }
{
    senders_stay();
    traffic::lay_in(table, flows, policy, packet, room)
}

fn send_packet<'a>(
    alloc: Global,
    table: &mut Table,
    flows: &mut FlowMemory,
    policy: &Policy,
    packet: &'a [u8],
) -> Output<'a>
    requires { AllRight policy.now table.old.pairs flows.old }
    ensures sent { SendsPacket policy.now table.old packet.now (output_view result) table.new }
    ensures reserved { table.new.reserved ≡ table.old.reserved }
    ensures right { AllRight policy.now table.new.pairs flows.new }
    ensures remembered { RemembersItsFlow policy.now table.old.pairs packet.now flows.old flows.new }
{
    let laid = lay_packet(alloc, table, flows, policy, packet);
    finished(table, laid, None)
}

fn lay_packet<'a>(
    alloc: Global,
    table: &mut Table,
    flows: &mut FlowMemory,
    policy: &Policy,
    packet: &'a [u8],
) -> Output<'a>
    requires { AllRight policy.now table.old.pairs flows.old }
    ensures sent { SendsPacket policy.now table.old packet.now
        (output_view (finished_output table.new.pairs result)) table.new }
    ensures reserved { table.new.reserved ≡ table.old.reserved }
    ensures right { AllRight policy.now table.new.pairs flows.new }
    ensures remembered { RemembersItsFlow policy.now table.old.pairs packet.now flows.old flows.new }
    ensures senders { KeepsSenders table.old.pairs table.new.pairs }
{
    senders_stay();
    match traffic::lay(alloc, table, flows, policy, packet) {
        Ok(departure) => Output::of_departure(departure),
        Err(_) => Output::Refused {
            reason: Reason::Memory,
        },
    }
}

fn admit_packet<'a>(policy: &Policy, packet: &'a [u8]) -> Output<'a>
    ensures { AdmitsPacket policy.now packet.now (output_view result) }
{
    Output::of_admission(admit(policy, packet))
}

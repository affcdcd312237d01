//! Packets on their way out (RFC 4301, section 5.1).
ghost use Rattle.std.specs.Prelude.{◌≡◌, ◌+◌, ◌<◌, ◌≤◌, IfErr, IfOk, IsOk, length, vec_len};
ghost use Rattle.std.specs.Vec.{vec_capacity};
ghost use Rattle.flows.specs.Memory.{AllRight};
ghost use Rattle.flows.specs.Treatments.{action_of, IsCarriedSo};
ghost use Rattle.policy.specs.declared.entry.Action.TheVariants.{Protect};
ghost use Rattle.policy.specs.Packets.{IsFlowOf};
ghost use Rattle.policy.specs.declared.flow.Flow.{Flow};
ghost use Rattle.sadb.specs.Database.{IsOutbound};
ghost use Rattle.traffic.specs.Behind.{DepartsBehind, DepartsIn, ProtectsBehind, ProtectsIn, SendsBehind, SendsIn};
ghost use Rattle.traffic.specs.Laying.{finished_outcome};
ghost use Rattle.traffic.specs.Outcomes.{outcome_of_departure, outcome_of_laid};
ghost use Rattle.traffic.specs.Remembering.{RemembersItsFlow};
ghost use Rattle.traffic.specs.Sending.{HasUnspentCarrier, HasNumberAt, IsToBeSealed, Sends};

use crate::PacketFault;
use crate::next_header::next_header_of;
use base::Items;
use esp::EspFault;
use flows::laws::{answers_stay_right, no_pair_comes};
use flows::{FlowMemory, Treatment, look_up};
use policy::laws::flows_are_determined;
use policy::{Flow, Policy, inner, no_flow, read_inner};
use sadb::Table;
use std::alloc::{AllocError, Global};

/// What became of a packet on its way out. A Child SA is told by the serial of its SA pair.
#[derive(Debug, Drop)]
pub enum Departure<'a> {
    /// It goes protected.
    Sealed {
        /// The serial of the SA pair that carries it.
        child: u32,
        /// Its sequence number there.
        number: u64,
        /// The ESP packet.
        octets: Items<u8>,
    },
    /// It goes as it is.
    Clear(&'a [u8]),
    /// It doesn't go, by the policy.
    Discarded,
    /// It is dropped.
    Dropped(PacketFault),
}

/// What became of a packet on its way out whose ESP packet, if it goes protected, was appended to a buffer, or
/// written into a room.
#[derive(Clone, Copy, Debug, PartialEq, Eq)]
pub enum Laid<'a> {
    /// It goes protected: its ESP packet is what was appended or written.
    Sealed {
        /// The serial of the SA pair that carries it.
        child: u32,
        /// Its sequence number there.
        number: u64,
    },
    /// It goes as it is.
    Clear(&'a [u8]),
    /// It doesn't go, by the policy.
    Discarded,
    /// It is dropped.
    Dropped(PacketFault),
}

/// Sends a packet by the policy's decision about its flow: sealed by the SA pair that carries the flow, in
/// the clear, or not at all. What is to be protected never goes in the clear. A gateway calls [`lay`], which
/// goes the same way with a memory of flows, and computes the ICV later. This plain form stays as what that
/// one and [`send_remembering`] are measured and tested against.
///
/// Dropped, in this order and with nothing changed: the refusals of [`inner`] (E21, E22, E39); for a flow
/// that is to be protected [`PacketFault::UnknownAssociation`] (E28) where no Live pair carries it, and
/// [`EspFault::Exhausted`](esp::EspFault::Exhausted) (E12) where that pair has no sequence number left.
///
/// The only error is an allocation failure, with nothing changed. Only a packet that a pair carries takes
/// memory, where that pair has a sequence number left: once, for the ESP packet.
pub fn send<'a>(
    alloc: Global,
    table: &mut Table,
    policy: &Policy,
    packet: &'a [u8],
) -> Result<Departure<'a>, AllocError>
    ensures sent { IfOk result (λ departure.
        Sends table.old policy.now packet.now (outcome_of_departure departure) table.new) }
    ensures memory { IfErr result
        (λ _. IsToBeSealed table.old policy.now packet.now × (table.new ≡ table.old)) }
{
    let flow = match inner(packet) {
        Ok(flow) => flow,
        Err(fault) => return Ok(Departure::Dropped(PacketFault::Inner(fault))),
    };
    let treatment = look_up(table, policy, &flow);
    let mut octets = Vec::new(alloc);
    let laid = depart(table, treatment, &flow, packet, &mut octets)?;
    Ok(finish(table, departure_of(laid, octets)))
}

/// Sends a packet as [`send`] does, and asks a memory what is done with its flow: at a flow that is
/// remembered it costs the same however many entries and SA pairs there are. What is remembered is right
/// before, as it is of a memory that holds nothing, and afterwards.
///
/// Where the memory has no places yet, it may take memory for them as well, and does without where there is
/// none.
pub fn send_remembering<'a>(
    alloc: Global,
    table: &mut Table,
    flows: &mut FlowMemory,
    policy: &Policy,
    packet: &'a [u8],
) -> Result<Departure<'a>, AllocError>
    requires { AllRight policy.now table.old.pairs flows.old }
    ensures sent { IfOk result (λ departure.
        Sends table.old policy.now packet.now (outcome_of_departure departure) table.new) }
    ensures memory { IfErr result
        (λ _. IsToBeSealed table.old policy.now packet.now × (table.new ≡ table.old)) }
    ensures right { AllRight policy.now table.new.pairs flows.new }
    ensures remembered { RemembersItsFlow policy.now table.old.pairs packet.now flows.old flows.new }
{
    let laid = lay(alloc, table, flows, policy, packet)?;
    Ok(finish(table, laid))
}

/// Sends a packet as [`send_remembering`] does, but an ESP packet has zeros in the place of its ICV:
/// [`Table::finish`] writes that. So the ICVs of several packets can be computed side by side.
pub fn lay<'a>(
    alloc: Global,
    table: &mut Table,
    flows: &mut FlowMemory,
    policy: &Policy,
    packet: &'a [u8],
) -> Result<Departure<'a>, AllocError>
    requires { AllRight policy.now table.old.pairs flows.old }
    ensures sent { IfOk result (λ departure. Sends table.old policy.now packet.now
        (finished_outcome table.new.pairs (outcome_of_departure departure)) table.new) }
    ensures memory { IfErr result
        (λ _. IsToBeSealed table.old policy.now packet.now × (table.new ≡ table.old)) }
    ensures right { AllRight policy.now table.new.pairs flows.new }
    ensures remembered { RemembersItsFlow policy.now table.old.pairs packet.now flows.old flows.new }
{
    let mut octets = Vec::new(alloc);
    let laid = lay_behind(table, flows, policy, packet, &mut octets)?;
    Ok(departure_of(laid, octets))
}

/// Sends a packet as [`lay`] does, but appends its ESP packet to what stands in a buffer. So the packets of a
/// list stand one behind the other, and take memory only where the buffer has to grow, and for the places of
/// the flows. Where the packet doesn't go protected, nothing is appended.
pub fn lay_behind<'a>(
    table: &mut Table,
    flows: &mut FlowMemory,
    policy: &Policy,
    packet: &'a [u8],
    out: &mut Vec<u8>,
) -> Result<Laid<'a>, AllocError>
    requires { AllRight policy.now table.old.pairs flows.old }
    ensures sent { IfOk result
        (λ laid. SendsBehind table.old policy.now packet.now out.old.items laid table.new out.new.items) }
    ensures memory { IfErr result (λ _. IsToBeSealed table.old policy.now packet.now
        × (table.new ≡ table.old) × (out.new.items ≡ out.old.items)) }
    ensures room { vec_len out.old + (length packet.now + 29) ≤ vec_capacity out.old → IsOk result }
    ensures right { AllRight policy.now table.new.pairs flows.new }
    ensures remembered { RemembersItsFlow policy.now table.old.pairs packet.now flows.old flows.new }
{
    answers_stay_right();
    no_pair_comes();
    flows_are_determined();
    let mut flow = no_flow();
    match read_inner(packet, &mut flow) {
        Ok(()) => {
            let treatment = flows.treatment(table, policy, &flow);
            depart(table, treatment, &flow, packet, out)
        }
        Err(fault) => Ok(Laid::Dropped(PacketFault::Inner(fault))),
    }
}

/// Sends a packet as [`lay`] does, but its ESP packet is written at the beginning of a room of the caller's,
/// which has 29 octets more than the packet; what stands behind the ESP packet stays. Of how many octets that
/// is tells [`esp::packet_size`]. Where the packet doesn't go protected, nothing is written. Takes no memory
/// but for the places of the flows.
pub fn lay_in<'a>(
    table: &mut Table,
    flows: &mut FlowMemory,
    policy: &Policy,
    packet: &'a [u8],
    room: &mut [u8],
) -> Laid<'a>
    requires right { AllRight policy.now table.old.pairs flows.old }
    requires fits { length packet.now + 29 ≤ length room.old }
    ensures sent { SendsIn table.old policy.now packet.now room.old result table.new room.new }
    ensures right { AllRight policy.now table.new.pairs flows.new }
    ensures remembered { RemembersItsFlow policy.now table.old.pairs packet.now flows.old flows.new }
{
    answers_stay_right();
    no_pair_comes();
    flows_are_determined();
    let mut inner_flow = no_flow();
    match read_inner(packet, &mut inner_flow) {
        Ok(()) => {
            let treatment = flows.treatment(table, policy, &inner_flow);
            depart_in(table, treatment, &inner_flow, packet, room)
        }
        Err(fault) => Laid::Dropped(PacketFault::Inner(fault)),
    }
}

// What was laid in a buffer of its own.
fn departure_of<'a>(laid: Laid<'a>, octets: Vec<u8>) -> Departure<'a>
    ensures { outcome_of_departure result ≡ outcome_of_laid laid.entry octets.items }
{
    match laid {
        Laid::Sealed { child, number } => Departure::Sealed {
            child,
            number,
            octets: Items::from_vec(octets),
        },
        Laid::Clear(packet) => Departure::Clear(packet),
        Laid::Discarded => Departure::Discarded,
        Laid::Dropped(fault) => Departure::Dropped(fault),
    }
}

// Writes the ICV into an ESP packet that was laid.
fn finish<'a>(table: &Table, laid: Departure<'a>) -> Departure<'a>
    ensures { outcome_of_departure result
        ≡ finished_outcome table.now.pairs (outcome_of_departure laid.entry) }
{
    match laid {
        Departure::Sealed {
            child,
            number,
            octets,
        } => {
            let mut octets = octets.into_vec();
            table.finish(child, number, &mut octets, None);
            Departure::Sealed {
                child,
                number,
                octets: Items::from_vec(octets),
            }
        }
        Departure::Clear(packet) => Departure::Clear(packet),
        Departure::Discarded => Departure::Discarded,
        Departure::Dropped(fault) => Departure::Dropped(fault),
    }
}

// Lays a packet as its flow is to be treated.
fn depart<'a>(
    table: &mut Table,
    treatment: Treatment,
    flow: &Flow,
    packet: &'a [u8],
    out: &mut Vec<u8>,
) -> Result<Laid<'a>, AllocError>
    requires flow { IsFlowOf packet.now flow.now }
    requires carried { IsCarriedSo table.old.pairs flow.now treatment }
    ensures sent { IfOk result (λ laid. DepartsBehind table.old treatment flow.now packet.now
        out.old.items laid table.new out.new.items) }
    ensures memory { IfErr result (λ _. (action_of treatment ≡ Protect) × HasUnspentCarrier table.old flow.now
        × (table.new ≡ table.old) × (out.new.items ≡ out.old.items)) }
    ensures room { vec_len out.old + (length packet.now + 29) ≤ vec_capacity out.old → IsOk result }
{
    match treatment {
        Treatment::Carried(child) => lay_by(table, child, flow, packet, out),
        Treatment::Uncarried => Ok(Laid::Dropped(PacketFault::UnknownAssociation)),
        Treatment::Bypassed => Ok(Laid::Clear(packet)),
        Treatment::Discarded => Ok(Laid::Discarded),
    }
}

// Lays a packet by the SA pair that carries its flow.
fn lay_by<'a>(
    table: &mut Table,
    child: u32,
    flow: &Flow,
    packet: &'a [u8],
    out: &mut Vec<u8>,
) -> Result<Laid<'a>, AllocError>
    requires flow { IsFlowOf packet.now flow.now }
    requires carrier { IsOutbound table.old.pairs flow.now child }
    ensures sent { IfOk result (λ laid. ProtectsBehind table.old flow.now packet.now
        out.old.items laid table.new out.new.items) }
    ensures memory { IfErr result (λ _. HasNumberAt table.old.pairs child
        × (table.new ≡ table.old) × (out.new.items ≡ out.old.items)) }
    ensures room { vec_len out.old + (length packet.now + 29) ≤ vec_capacity out.old → IsOk result }
{
    match table.lay(child, next_header_of(flow.family()), packet, out) {
        Ok(number) => Ok(Laid::Sealed { child, number }),
        Err(EspFault::Memory) => Err(AllocError),
        Err(fault) => Ok(Laid::Dropped(PacketFault::Esp(fault))),
    }
}

// Lays a packet in a room, as its flow is to be treated.
fn depart_in<'a>(
    table: &mut Table,
    treatment: Treatment,
    flow: &Flow,
    packet: &'a [u8],
    room: &mut [u8],
) -> Laid<'a>
    requires flow { IsFlowOf packet.now flow.now }
    requires carried { IsCarriedSo table.old.pairs flow.now treatment }
    requires fits { length packet.now + 29 ≤ length room.old }
    ensures { DepartsIn table.old treatment flow.now packet.now room.old result table.new room.new }
{
    match treatment {
        Treatment::Carried(child) => lay_in_by(table, child, flow, packet, room),
        Treatment::Uncarried => Laid::Dropped(PacketFault::UnknownAssociation),
        Treatment::Bypassed => Laid::Clear(packet),
        Treatment::Discarded => Laid::Discarded,
    }
}

// Lays a packet in a room, by the SA pair that carries its flow.
fn lay_in_by<'a>(
    table: &mut Table,
    child: u32,
    flow: &Flow,
    packet: &'a [u8],
    room: &mut [u8],
) -> Laid<'a>
    requires flow { IsFlowOf packet.now flow.now }
    requires carrier { IsOutbound table.old.pairs flow.now child }
    requires fits { length packet.now + 29 ≤ length room.old }
    ensures { ProtectsIn table.old flow.now packet.now room.old result table.new room.new }
{
    let next = next_header_of(flow.family());
    match table.lay_in(child, next, packet, room) {
        Ok(number) => Laid::Sealed { child, number },
        Err(fault) => Laid::Dropped(PacketFault::Esp(fault)),
    }
}

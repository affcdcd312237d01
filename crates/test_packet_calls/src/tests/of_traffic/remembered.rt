//! What is remembered of flows: that it is found again where it is looked for, what takes its place, and that
//! it spares the look-up.
ghost use Rattle.std.specs.Prelude.{List};
ghost use Rattle.flows.specs.Memory.{AllRight};
ghost use Rattle.policy.specs.declared.entry.Entry as held;
ghost use Rattle.sadb.specs.Database.{PairMap};

use super::fixture::{Ends, Networks, ipv4, policy};
use crate::tests::asserts::same;
use flows::laws::answers_stay_right;
use flows::{FlowMemory, Treatment};
use policy::{Action, Policy, inner};
use sadb::Table;
use std::alloc::Global;
use std::process::Abort;
use traffic::send_remembering;

/// A packet from 10.0.0.`source` to 10.1.0.`target`.
fn packet_between(source: u8, target: u8) -> [u8; 20] {
    let mut packet = ipv4();
    packet[15] = source;
    packet[19] = target;
    packet
}

/// A memory that holds nothing.
fn no_memory(alloc: Global) -> FlowMemory
    ensures { (policy : List held.Entry) (pairs : PairMap) → AllRight policy pairs result }
{
    answers_stay_right();
    FlowMemory::new(alloc)
}

/// Has a memory forget all.
fn forget(memory: &mut FlowMemory)
    ensures { (policy : List held.Entry) (pairs : PairMap) → AllRight policy pairs memory.new }
{
    answers_stay_right();
    memory.forget();
}

/// What is remembered of a packet's flow.
fn recalled(memory: &FlowMemory, packet: &[u8]) -> Option<Treatment> {
    memory.recalled(&inner(packet).ok()?)
}

/// Sends a packet, and finds what is remembered of its flow then.
fn sends(
    rt: &impl Abort,
    alloc: Global,
    table: &mut Table,
    memory: &mut FlowMemory,
    policy: &Policy,
    packet: &[u8],
    wanted: Treatment,
)
    requires { AllRight policy.now table.old.pairs memory.old }
    ensures { AllRight policy.now table.new.pairs memory.new }
{
    send_remembering(alloc, table, memory, policy, packet).expect(rt, "memory");
    same(rt, recalled(memory, packet), Some(wanted));
}

/// Sends packets of these four flows in turn by the first pair.
fn sends_each(
    rt: &impl Abort,
    alloc: Global,
    table: &mut Table,
    memory: &mut FlowMemory,
    policy: &Policy,
    ends: [(u8, u8); 4],
)
    requires { AllRight policy.now table.old.pairs memory.old }
    ensures { AllRight policy.now table.new.pairs memory.new }
{
    for (source, target) in ends {
        let packet = packet_between(source, target);
        sends(
            rt,
            alloc,
            table,
            memory,
            policy,
            &packet,
            Treatment::Carried(1),
        );
    }
}

/// Finds what is remembered of a flow where this is done with it, and that nothing was before.
fn remembers(rt: &impl Abort, alloc: Global, action: Action, wanted: Treatment) {
    let mut table = table(rt, alloc);
    let policy = policy(alloc, Networks::ipv4(), action).expect(rt, "memory");
    let mut memory = no_memory(alloc);
    let packet = packet_between(1, 1);
    same(rt, recalled(&memory, &packet), None);
    sends(rt, alloc, &mut table, &mut memory, &policy, &packet, wanted);
}

/// The near end's table, with one pair.
fn table(rt: &impl Abort, alloc: Global) -> Table {
    Ends::connected(alloc, Networks::ipv4(), 0)
        .expect(rt, "memory")
        .near
}

#[test]
fn what_was_done_is_recalled(rt: HostRuntime) {
    let alloc = rt.alloc();
    remembers(&rt, alloc, Action::Protect, Treatment::Carried(1));
    remembers(&rt, alloc, Action::Bypass, Treatment::Bypassed);
    remembers(&rt, alloc, Action::Discard, Treatment::Discarded);
}

// The flows from 10.0.0.1 to 10.1.0.1 and from 10.0.0.39 to 10.1.0.155 have one place.
#[test]
fn the_last_flow_of_a_place_is_recalled(rt: HostRuntime) {
    let alloc = rt.alloc();
    let mut table = table(&rt, alloc);
    let policy = policy(alloc, Networks::ipv4(), Action::Protect).expect(&rt, "memory");
    let mut memory = no_memory(alloc);
    sends_each(
        &rt,
        alloc,
        &mut table,
        &mut memory,
        &policy,
        [(1, 1), (1, 2), (2, 1), (39, 155)],
    );
    let carried = Some(Treatment::Carried(1));
    same(&rt, recalled(&memory, &packet_between(1, 1)), None);
    same(&rt, recalled(&memory, &packet_between(1, 2)), carried);
    same(&rt, recalled(&memory, &packet_between(2, 1)), carried);
    same(&rt, memory.look_ups(), 4);
}

#[test]
fn what_is_remembered_is_not_looked_up(rt: HostRuntime) {
    let alloc = rt.alloc();
    let mut table = table(&rt, alloc);
    let policy = policy(alloc, Networks::ipv4(), Action::Protect).expect(&rt, "memory");
    let mut memory = no_memory(alloc);
    sends_each(
        &rt,
        alloc,
        &mut table,
        &mut memory,
        &policy,
        [(1, 1), (1, 2), (1, 1), (1, 2)],
    );
    same(&rt, memory.look_ups(), 2);
    forget(&mut memory);
    same(&rt, recalled(&memory, &packet_between(1, 1)), None);
    sends_each(
        &rt,
        alloc,
        &mut table,
        &mut memory,
        &policy,
        [(1, 1), (1, 1), (1, 2), (1, 2)],
    );
    same(&rt, memory.look_ups(), 4);
}

//! Packets of many flows in turn, each of which is remembered after the first turn.
ghost use Rattle.flows.specs.Memory.{AllRight};

use crate::remembered::{packet_to, sent};
use crate::tables::{policy_between, table_between};
use base::Range;
use flows::FlowMemory;
use flows::laws::answers_stay_right;
use policy::Policy;
use sadb::Table;
use std::alloc::Global;

// How many entries a policy has: a flow that isn't remembered is compared with each.
const ENTRIES: u16 = 256;

/// In what the flows differ.
#[derive(Clone, Copy)]
pub enum Differing {
    SourcePorts,
    TargetPorts,
    /// In the last 16 bits of an IPv4 address of the peer's side.
    Hosts,
    /// In the last 16 bits of an IPv6 address of the peer's side: all are of one /64.
    Hosts6,
}

/// One packet of each flow goes out in each turn, by one SA pair.
pub fn send(alloc: Global, count: u32, flows: u16, differing: Differing) -> Option<u8> {
    answers_stay_right();
    let (here, there) = sides(differing);
    let mut table = table_between(alloc, here, there)?;
    let policy = policy_between(alloc, ENTRIES, here, there)?;
    let mut memory = FlowMemory::new(alloc);
    turns(
        alloc,
        count,
        flows,
        differing,
        &mut table,
        &mut memory,
        &policy,
    )
}

// So many turns; answers what the last one sent.
fn turns(
    alloc: Global,
    count: u32,
    flows: u16,
    differing: Differing,
    table: &mut Table,
    memory: &mut FlowMemory,
    policy: &Policy,
) -> Option<u8>
    requires { AllRight policy.now table.old.pairs memory.old }
{
    let mut last = 0;
    for _ in 0..count {
        last = one_of_each(alloc, flows, differing, table, memory, policy)?;
    }
    Some(last)
}

// A packet of each flow.
fn one_of_each(
    alloc: Global,
    flows: u16,
    differing: Differing,
    table: &mut Table,
    memory: &mut FlowMemory,
    policy: &Policy,
) -> Option<u8>
    requires { AllRight policy.now table.old.pairs memory.old }
    ensures { AllRight policy.now table.new.pairs memory.new }
{
    let mut last = 0;
    for flow in 0..flows {
        last = sent(alloc, table, memory, policy, &packet_of(differing, flow))?;
    }
    Some(last)
}

// The addresses of both sides.
fn sides(differing: Differing) -> (Range, Range) {
    match differing {
        Differing::Hosts6 => (
            Range::V6(0xfd00 << 112, (0xfd00 << 112) + 0xffff),
            Range::V6(0xfd01 << 112, (0xfd01 << 112) + 0xffff),
        ),
        _ => (
            Range::V4(0x0a00_0000, 0x0a00_00ff),
            Range::V4(0x0a01_0000, 0x0a01_ffff),
        ),
    }
}

// A packet of 64 octets, of UDP, of the flow with this number.
fn packet_of(differing: Differing, flow: u16) -> [u8; 64] {
    let [high, low] = flow.to_be_bytes();
    let mut packet = match differing {
        Differing::Hosts6 => packet6(),
        _ => packet_to(1),
    };
    match differing {
        Differing::Hosts => {
            packet[18] = high;
            packet[19] = low;
        }
        Differing::SourcePorts => {
            packet[20] = high;
            packet[21] = low;
        }
        Differing::TargetPorts => {
            packet[22] = high;
            packet[23] = low;
        }
        Differing::Hosts6 => {
            packet[38] = high;
            packet[39] = low;
        }
    }
    packet
}

// An IPv6 packet of 64 octets, of UDP, from fd00::7 to fd01::.
fn packet6() -> [u8; 64] {
    let mut packet = [0; 64];
    packet[0] = 0x60;
    packet[5] = 24;
    packet[6] = 17;
    packet[7] = 64;
    packet[8] = 0xfd;
    packet[23] = 7;
    packet[24] = 0xfd;
    packet[25] = 1;
    packet
}

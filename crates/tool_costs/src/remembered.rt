//! Packets whose flow is remembered.
ghost use Rattle.flows.specs.Memory.{AllRight};

use crate::tables::{policy_before, table_of};
use flows::FlowMemory;
use flows::laws::answers_stay_right;
use policy::Policy;
use sadb::Table;
use std::alloc::Global;
use traffic::{Departure, send_remembering};

/// A packet is sent to the last network, again and again.
pub fn send(alloc: Global, count: u32, pairs: u16, entries: u16) -> Option<u8> {
    answers_stay_right();
    let mut table = table_of(alloc, pairs)?;
    let policy = policy_before(alloc, entries)?;
    let mut flows = FlowMemory::new(alloc);
    turns(
        alloc,
        count,
        &mut table,
        &mut flows,
        &policy,
        &packet_to(pairs),
    )
}

// So many times; answers what the last one sent.
fn turns(
    alloc: Global,
    count: u32,
    table: &mut Table,
    flows: &mut FlowMemory,
    policy: &Policy,
    packet: &[u8],
) -> Option<u8>
    requires { AllRight policy.now table.old.pairs flows.old }
{
    let mut last = 0;
    for _ in 0..count {
        last = sent(alloc, table, flows, policy, packet)?;
    }
    Some(last)
}

/// The last octet of the ESP packet that goes out.
pub fn sent(
    alloc: Global,
    table: &mut Table,
    flows: &mut FlowMemory,
    policy: &Policy,
    packet: &[u8],
) -> Option<u8>
    requires { AllRight policy.now table.old.pairs flows.old }
    ensures { AllRight policy.now table.new.pairs flows.new }
{
    match send_remembering(alloc, table, flows, policy, packet) {
        Ok(Departure::Sealed { octets, .. }) => octets.as_slice().last().copied(),
        _ => None,
    }
}

/// An IPv4 packet of 64 octets, of UDP, to the last of so many networks.
pub fn packet_to(networks: u16) -> [u8; 64] {
    let [_, second, third, _] = (0x0a00_ff00 + 256 * u32::from(networks)).to_be_bytes();
    let mut packet = [0; 64];
    packet[0] = 0x45;
    packet[3] = 64;
    packet[8] = 64;
    packet[9] = 17;
    packet[12] = 10;
    packet[15] = 7;
    packet[16] = 10;
    packet[17] = second;
    packet[18] = third;
    packet[19] = 9;
    packet
}

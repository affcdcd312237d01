//! Tables of pairs, and policies.

use crate::packets::{IPV4, KEY};
use base::{Address, Items, Range, Selector};
use esp::{Inbound, Outbound};
use policy::{Action, Direction, Entry, Flow, Policy, Ports};
use replay::BlockWindow;
use sadb::{Pair, Table};
use std::alloc::Global;

// The first SPI of a table.
const START: u32 = 4096;

// The ports from the first to the last.
const ALL_PORTS: (u16, u16) = (0, 65_535);

/// The last pair is found by its SPI, and seals.
pub fn seal(alloc: Global, count: u32, pairs: u16) -> Option<u8> {
    let mut table = table_of(alloc, pairs)?;
    let last = START + u32::from(pairs) - 1;
    let mut packet = Vec::new(alloc);
    for _ in 0..count {
        packet.clear();
        seal_under(&mut table, last, &mut packet)?;
    }
    packet.last().copied()
}

fn seal_under(table: &mut Table, spi: u32, packet: &mut Vec<u8>) -> Option<u64> {
    let serial = table.inbound(spi)?.serial;
    table.seal(serial, IPV4, &[0; 1024], packet).ok()
}

/// The last pair is found by its flow.
pub fn outbound(alloc: Global, count: u32, pairs: u16) -> Option<u8> {
    let table = table_of(alloc, pairs)?;
    let mut serial = 0;
    for turn in 0..count {
        serial = table.outbound(&flow_to_last(pairs, turn))?;
    }
    Some((serial % 256) as u8)
}

/// The last entry decides. Each decision goes into the octet, so none can be left out.
pub fn decide(alloc: Global, count: u32, entries: u16) -> Option<u8> {
    let policy = policy_of(alloc, entries)?;
    let mut protected = 0;
    for turn in 0..count {
        let decision = policy.decide(&flow_to_last(entries, turn), Direction::Outward);
        protected ^= u8::from(decision == Action::Protect);
    }
    Some(protected)
}

/// A table of so many pairs, each for the flows to a network of its own.
pub fn table_of(alloc: Global, pairs: u16) -> Option<Table> {
    let mut table = Table::new(alloc, START);
    for place in 0..pairs {
        add_pair(alloc, &mut table, place)?;
    }
    Some(table)
}

fn add_pair(alloc: Global, table: &mut Table, place: u16) -> Option<u32> {
    let local = Items::from_slice(alloc, &[selector(here())]).ok()?;
    let remote = Items::from_slice(alloc, &[selector(network(place))]).ok()?;
    let window = BlockWindow::new(alloc, 2).ok()?;
    install(table, window, local, remote)
}

// Adds a pair of these sides under the next SPI.
fn install(
    table: &mut Table,
    window: BlockWindow,
    local: Items<Selector>,
    remote: Items<Selector>,
) -> Option<u32> {
    let spi = table.reserve().ok()?;
    let inbound = Inbound::new(spi.number(), &KEY, true, window);
    let outbound = Outbound::new(spi.number(), &KEY, true, 0);
    Some(table.install(spi, Pair::new(1, inbound, outbound, local, remote)))
}

// A policy of so many entries, each of which protects the flows to a network of its own.
fn policy_of(alloc: Global, entries: u16) -> Option<Policy> {
    let mut items = Items::new(alloc);
    for place in 0..entries {
        items.push(entry(place)).ok()?;
    }
    Policy::new(items).ok()
}

/// A policy of so many entries, the last of which protects the flows to all networks, and the others
/// those to no network.
pub fn policy_before(alloc: Global, entries: u16) -> Option<Policy> {
    let mut items = Items::new(alloc);
    for place in 1..entries {
        let mut before = entry(place);
        before.remote = here();
        items.push(before).ok()?;
    }
    let mut last = entry(0);
    last.remote = Range::V4(0x0a01_0000, 0x0aff_ffff);
    items.push(last).ok()?;
    Policy::new(items).ok()
}

/// A table of one pair, for all flows between two ranges of addresses.
pub fn table_between(alloc: Global, here: Range, there: Range) -> Option<Table> {
    let mut table = Table::new(alloc, START);
    let local = Items::from_slice(alloc, &[selector(here)]).ok()?;
    let remote = Items::from_slice(alloc, &[selector(there)]).ok()?;
    let window = BlockWindow::new(alloc, 2).ok()?;
    install(&mut table, window, local, remote)?;
    Some(table)
}

/// A policy of so many entries, the last of which protects the flows between two ranges of addresses, and the
/// others those within the first.
pub fn policy_between(alloc: Global, entries: u16, here: Range, there: Range) -> Option<Policy> {
    let mut items = Items::new(alloc);
    for _ in 1..entries {
        items.push(between(here, here)).ok()?;
    }
    items.push(between(here, there)).ok()?;
    Policy::new(items).ok()
}

fn between(local: Range, remote: Range) -> Entry {
    let mut entry = entry(0);
    entry.local = local;
    entry.remote = remote;
    entry
}

fn entry(place: u16) -> Entry {
    Entry {
        protocol: 0,
        local: here(),
        remote: network(place),
        local_ports: ALL_PORTS,
        remote_ports: ALL_PORTS,
        action: Action::Protect,
    }
}

// A selector of every protocol and all ports.
fn selector(addresses: Range) -> Selector {
    Selector {
        protocol: 0,
        start_port: ALL_PORTS.0,
        end_port: ALL_PORTS.1,
        addresses,
    }
}

// 10.0.0.0 to 10.0.0.255.
fn here() -> Range {
    Range::V4(0x0a00_0000, 0x0a00_00ff)
}

// The networks of 256 addresses from 10.1.0.0 on, one after the other.
fn network(place: u16) -> Range {
    let start = 0x0a01_0000 + 256 * u32::from(place);
    Range::V4(start, start + 255)
}

// A flow to the last of so many networks, each turn from another address.
fn flow_to_last(networks: u16, turn: u32) -> Flow {
    Flow {
        protocol: 17,
        source: Address::V4(0x0a00_0000 + turn % 256),
        target: Address::V4(0x0a00_ff07 + 256 * u32::from(networks)),
        ports: Some(Ports {
            source: 500,
            target: 4500,
        }),
    }
}

//! Flows, decisions, and what offers are narrowed to (RFC 4301, sections 4.4.1 and 5.1; RFC 7296, section
//! 2.9).
use base::{Items, Range, Selector};
use policy::{Action, Decision, Direction, Entry, InnerFault, NarrowFault, Policy, inner, narrow};
use std::alloc::{AllocError, Global};

// 10.0.0.0 to 10.0.0.255 and 10.1.0.0 to 10.1.0.255.
const HERE: Range = Range::V4(0x0a00_0000, 0x0a00_00ff);

const THERE: Range = Range::V4(0x0a01_0000, 0x0a01_00ff);

// An IPv4 packet from 10.0.0.1 to 10.1.0.1 of protocol 1 that is a header alone.
const PACKET: [u8; 20] = [
    0x45, 0, 0, 20, 0, 0, 0, 0, 0x40, 1, 0, 0, 10, 0, 0, 1, 10, 1, 0, 1,
];

// An IPv6 packet from 2001:db8::a01 to 2001:db8::b01 that is a header alone.
const PACKET_V6: [u8; 40] = [
    0x60, 0, 0, 0, 0, 0, 0x3b, 0x40, 0x20, 1, 0x0d, 0xb8, 0, 0, 0, 0, 0, 0, 0, 0, 0, 0, 0x0a, 1,
    0x20, 1, 0x0d, 0xb8, 0, 0, 0, 0, 0, 0, 0, 0, 0, 0, 0x0b, 1,
];

// Protects everything between the two networks.
const PROTECT: Entry = Entry {
    protocol: 0,
    local: HERE,
    remote: THERE,
    local_ports: (0, 65535),
    remote_ports: (0, 65535),
    action: Action::Protect,
};

const DISCARD_ICMP: Entry = Entry {
    protocol: 1,
    action: Action::Discard,
    ..PROTECT
};

pub fn holds(alloc: Global, row: usize) -> Result<bool, AllocError> {
    match row {
        0 => decides(alloc, &[DISCARD_ICMP, PROTECT], Decision::Discard),
        1 => decides(alloc, &[PROTECT, DISCARD_ICMP], Decision::Protect),
        2 => narrows_to_the_side(alloc),
        3 => takes_the_entry_of_the_first(alloc),
        4 => narrows_protocol_and_ports(alloc),
        5 => leaves_out(alloc),
        6 => has_no_point(alloc),
        7 => is_flow_v6(),
        8 => Ok(has_extension_header()),
        _ => Ok(false),
    }
}

// A policy of these entries, of which none is at fault.
fn policy(alloc: Global, entries: &[Entry]) -> Result<Option<Policy>, AllocError> {
    Ok(Policy::new(Items::from_slice(alloc, entries)?).ok())
}

fn decides(alloc: Global, entries: &[Entry], wanted: Decision) -> Result<bool, AllocError> {
    match (policy(alloc, entries)?, inner(&PACKET)) {
        (Some(policy), Ok(flow)) => Ok(policy.decide(&flow, Direction::Outward) == wanted),
        _ => Ok(false),
    }
}

// All ports of every protocol between these addresses.
fn every(addresses: Range) -> Selector {
    Selector {
        protocol: 0,
        start_port: 0,
        end_port: 65535,
        addresses,
    }
}

// Whether an offer is narrowed so: the initiator's selectors, and the responder's.
fn narrows(
    alloc: Global,
    entries: &[Entry],
    offered: (&[Selector], &[Selector]),
    wanted: (&[Selector], &[Selector]),
) -> Result<bool, AllocError> {
    let Some(policy) = policy(alloc, entries)? else {
        return Ok(false);
    };
    match narrow(alloc, offered.0, offered.1, &policy) {
        Ok(narrowed) => Ok(
            narrowed.initiator.as_slice() == wanted.0 && narrowed.responder.as_slice() == wanted.1,
        ),
        Err(NarrowFault::Memory) => Err(AllocError),
        Err(NarrowFault::Unacceptable) => Ok(false),
    }
}

fn narrows_to_the_side(alloc: Global) -> Result<bool, AllocError> {
    let entry = Entry {
        local: Range::V4(0x0a00_0080, 0x0a00_01ff),
        ..PROTECT
    };
    let there = [every(THERE)];
    let common = [every(Range::V4(0x0a00_0080, 0x0a00_00ff))];
    narrows(alloc, &[entry], (&there, &[every(HERE)]), (&there, &common))
}

// The entry that holds the whole of what is offered first is taken, and not the one that stands before it.
fn takes_the_entry_of_the_first(alloc: Global) -> Result<bool, AllocError> {
    let half = Entry {
        local: Range::V4(0x0a00_0000, 0x0a00_007f),
        ..PROTECT
    };
    let whole = Entry {
        local: Range::V4(0x0a00_0000, 0x0a00_01ff),
        ..PROTECT
    };
    let offered = ([every(THERE)], [every(HERE)]);
    narrows(
        alloc,
        &[half, whole],
        (&offered.0, &offered.1),
        (&offered.0, &offered.1),
    )
}

fn narrows_protocol_and_ports(alloc: Global) -> Result<bool, AllocError> {
    let web = Entry {
        protocol: 6,
        local_ports: (443, 443),
        ..PROTECT
    };
    let initiator = [Selector {
        protocol: 6,
        ..every(THERE)
    }];
    let responder = [Selector {
        protocol: 6,
        start_port: 443,
        end_port: 443,
        ..every(HERE)
    }];
    narrows(
        alloc,
        &[web],
        (&[every(THERE)], &[every(HERE)]),
        (&initiator, &responder),
    )
}

fn leaves_out(alloc: Global) -> Result<bool, AllocError> {
    let there = [every(THERE)];
    let here = [every(HERE)];
    let elsewhere = every(Range::V4(0x0a09_0000, 0x0a09_00ff));
    narrows(
        alloc,
        &[PROTECT],
        (&there, &[every(HERE), elsewhere]),
        (&there, &here),
    )
}

// A selector of a protocol without ports that names some holds no point.
fn has_no_point(alloc: Global) -> Result<bool, AllocError> {
    let Some(policy) = policy(alloc, &[PROTECT])? else {
        return Ok(false);
    };
    let empty = Selector {
        protocol: 1,
        start_port: 5,
        end_port: 9,
        ..every(HERE)
    };
    match narrow(alloc, &[every(THERE)], &[empty], &policy) {
        Err(NarrowFault::Unacceptable) => Ok(true),
        Err(NarrowFault::Memory) => Err(AllocError),
        Ok(_) => Ok(false),
    }
}

fn is_flow_v6() -> Result<bool, AllocError> {
    match inner(&PACKET_V6) {
        Ok(flow) => Ok(flow.protocol == 59 && flow.ports.is_none()),
        Err(_) => Ok(false),
    }
}

fn has_extension_header() -> bool {
    let mut packet = PACKET_V6;
    packet[6] = 44;
    inner(&packet) == Err(InnerFault::ExtensionHeader)
}

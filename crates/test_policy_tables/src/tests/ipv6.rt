//! Packets of IPv6, policies over their addresses, and offers that have both families.
use super::narrowing::{every, narrows};
use super::policies::{ALL_PORTS, HERE, PROTECT, THERE, decision, fault_of};
use crate::tests::asserts::{holds, same};
use base::{Address, Family, Range, Selector};
use policy::{
    Action, Decision, Direction, Entry, Flow, InnerFault, PolicyFault, Ports, covers, inner,
};
use std::process::Abort;

/// 2001:db8::a01 and 2001:db8::b01, and the networks 2001:db8::a00 to ::aff and 2001:db8::b00 to ::bff
/// that they lie in.
const SOURCE: u128 = 0x2001_0db8_0000_0000_0000_0000_0000_0a01;

const TARGET: u128 = 0x2001_0db8_0000_0000_0000_0000_0000_0b01;

const HERE_6: Range = Range::V6(
    0x2001_0db8_0000_0000_0000_0000_0000_0a00,
    0x2001_0db8_0000_0000_0000_0000_0000_0aff,
);

const THERE_6: Range = Range::V6(
    0x2001_0db8_0000_0000_0000_0000_0000_0b00,
    0x2001_0db8_0000_0000_0000_0000_0000_0bff,
);

const PROTECT_6: Entry = Entry {
    protocol: 0,
    local: HERE_6,
    remote: THERE_6,
    local_ports: ALL_PORTS,
    remote_ports: ALL_PORTS,
    action: Action::Protect,
};

/// The header of a packet from the one address to the other, with this next header and this payload length.
fn header(next_header: u8, payload: u8) -> [u8; 40] {
    let mut octets = [
        0x60, 0x00, 0x00, 0x00, 0x00, 0x00, 0x3b, 0x40, 0x20, 0x01, 0x0d, 0xb8, 0x00, 0x00, 0x00,
        0x00, 0x00, 0x00, 0x00, 0x00, 0x00, 0x00, 0x0a, 0x01, 0x20, 0x01, 0x0d, 0xb8, 0x00, 0x00,
        0x00, 0x00, 0x00, 0x00, 0x00, 0x00, 0x00, 0x00, 0x0b, 0x01,
    ];
    octets[5] = payload;
    octets[6] = next_header;
    octets
}

/// The flow of a packet without ports.
fn flow(protocol: u8) -> Flow {
    Flow {
        protocol,
        source: Address::V6(SOURCE),
        target: Address::V6(TARGET),
        ports: None,
    }
}

fn refuses(rt: &impl Abort, octets: &[u8], fault: InnerFault) {
    same(rt, inner(octets), Err(fault));
}

#[test]
fn has_the_flow_of_an_ipv6_packet(rt: HostRuntime) {
    same(&rt, inner(&header(59, 0)), Ok(flow(59)));
    same(&rt, flow(59).family(), Family::V6);
    // The traffic class and the flow label, behind the version, are not looked at.
    let mut marked = header(59, 0);
    marked[0] = 0x6f;
    marked[1] = 0xff;
    same(&rt, inner(&marked), Ok(flow(59)));
}

#[test]
fn refuses_extension_headers(rt: HostRuntime) {
    for number in 0..=255 {
        let octets = header(number, 0);
        match number {
            0 | 43 | 44 | 51 | 60 => refuses(&rt, &octets, InnerFault::ExtensionHeader),
            6 | 17 => refuses(&rt, &octets, InnerFault::BadInner),
            _ => same(&rt, inner(&octets), Ok(flow(number))),
        }
    }
}

#[test]
fn wants_a_whole_ipv6_header(rt: HostRuntime) {
    let mut packet = Vec::new(rt.alloc());
    packet
        .extend_from_slice(&header(59, 0))
        .expect(&rt, "memory");
    for length in [39, 20, 1] {
        packet.truncate(length);
        refuses(&rt, packet.as_slice(), InnerFault::BadInner);
    }
}

#[test]
fn wants_the_payload_length_of_an_ipv6_packet(rt: HostRuntime) {
    refuses(&rt, &header(59, 1), InnerFault::BadInner);
    refuses(&rt, &header(44, 1), InnerFault::BadInner);
    let mut long = header(59, 0);
    long[4] = 1;
    refuses(&rt, &long, InnerFault::BadInner);
}

#[test]
fn reads_ports_behind_the_ipv6_header(rt: HostRuntime) {
    let ports = Some(Ports {
        source: 0x1234,
        target: 443,
    });
    for protocol in [6, 17] {
        let mut packet = Vec::new(rt.alloc());
        packet
            .extend_from_slice(&header(protocol, 4))
            .expect(&rt, "memory");
        packet
            .extend_from_slice(&[0x12, 0x34, 0x01, 0xbb])
            .expect(&rt, "memory");
        let wanted = Flow {
            ports,
            ..flow(protocol)
        };
        same(&rt, inner(packet.as_slice()), Ok(wanted));
        packet.truncate(43);
        let short = packet.as_mut_slice();
        short[5] = 3;
        refuses(&rt, short, InnerFault::BadInner);
    }
}

#[test]
fn reads_ipv6_packets_of_up_to_16384_octets(rt: HostRuntime) {
    for (length, payload, answer) in [
        (16_384, [0x3f, 0xd8], Ok(flow(59))),
        (16_385, [0x3f, 0xd9], Err(InnerFault::BadInner)),
    ] {
        let mut octets = header(59, 0);
        octets[4] = payload[0];
        octets[5] = payload[1];
        let mut packet = Vec::new(rt.alloc());
        packet.extend_from_slice(&octets).expect(&rt, "memory");
        packet.resize(length, 0).expect(&rt, "memory");
        same(&rt, inner(packet.as_slice()), answer);
    }
}

#[test]
fn an_entry_between_families_is_at_fault(rt: HostRuntime) {
    let mixed = Entry {
        remote: THERE_6,
        ..PROTECT
    };
    let exchanged = Entry {
        local: HERE_6,
        ..PROTECT
    };
    for (entries, index) in [
        ([mixed, PROTECT, PROTECT], 0),
        ([PROTECT, PROTECT_6, mixed], 2),
        ([PROTECT_6, exchanged, mixed], 1),
    ] {
        let fault = fault_of(&rt, rt.alloc(), &entries);
        same(&rt, fault, Some(PolicyFault::BadEntry { index }));
    }
}

#[test]
fn decides_by_the_entry_of_the_family(rt: HostRuntime) {
    let everything = Entry {
        local: Range::V4(0, u32::MAX),
        remote: Range::V4(0, u32::MAX),
        action: Action::Bypass,
        ..PROTECT
    };
    let answer = Flow {
        source: Address::V6(TARGET),
        target: Address::V6(SOURCE),
        ..flow(58)
    };
    for (flow, direction, wanted) in [
        (flow(58), Direction::Outward, Decision::Protect),
        (flow(58), Direction::Inward, Decision::Discard),
        (answer, Direction::Inward, Decision::Protect),
    ] {
        let answer = decision(&rt, rt.alloc(), &[everything, PROTECT_6], &flow, direction);
        same(&rt, answer, wanted);
    }
}

#[test]
fn covers_by_the_selectors_of_the_family(rt: HostRuntime) {
    let low = Flow {
        source: Address::V6(0x0a00_0001),
        target: Address::V6(0x0a01_0001),
        ..flow(58)
    };
    let four = every(Range::V4(0, u32::MAX));
    let six = every(Range::V6(0, u128::MAX));
    let rows: [(&[Selector], &[Selector], bool); 3] = [
        (&[four], &[four], false),
        (&[four, six], &[four], false),
        (&[four, six], &[four, six], true),
    ];
    for (from, to, wanted) in rows {
        same(&rt, covers(from, to, &low), wanted);
    }
}

#[test]
fn narrows_an_offer_of_both_families_to_the_family_of_the_entry(rt: HostRuntime) {
    let initiator = [every(THERE), every(THERE_6)];
    let responder = [every(HERE_6), every(HERE)];
    for (entry, there, here) in [(PROTECT, THERE, HERE), (PROTECT_6, THERE_6, HERE_6)] {
        let there = [every(there)];
        let here = [every(here)];
        let offered = (initiator.as_slice(), responder.as_slice());
        holds(
            &rt,
            narrows(&rt, rt.alloc(), &[entry], offered, Some((&there, &here))),
        );
        // Sides of one family each, and not the same.
        let offered = (&initiator[..1], &responder[..1]);
        holds(&rt, narrows(&rt, rt.alloc(), &[entry], offered, None));
    }
}

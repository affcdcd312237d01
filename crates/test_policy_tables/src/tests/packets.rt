//! The flow of a packet, and each refusal at its edge.
use crate::tests::asserts::{granted, holds, none_differs};
use base::Address;
use policy::{Flow, InnerFault, Ports, inner};
use std::alloc::Global;
use std::process::Abort;

/// A packet of ICMP from 10.0.0.1 to 10.1.0.1 that is a header alone.
pub const ICMP: [u8; 20] = [
    0x45, 0x00, 0x00, 0x14, 0x00, 0x00, 0x00, 0x00, 0x40, 0x01, 0x00, 0x00, 0x0a, 0x00, 0x00, 0x01,
    0x0a, 0x01, 0x00, 0x01,
];

pub const ICMP_FLOW: Flow = Flow {
    protocol: 1,
    source: Address::V4(0x0a00_0001),
    target: Address::V4(0x0a01_0001),
    ports: None,
};

/// A packet of TCP from port 4660 to port 443.
const TCP: [u8; 24] = [
    0x45, 0x00, 0x00, 0x18, 0x00, 0x00, 0x00, 0x00, 0x40, 0x06, 0x00, 0x00, 0x0a, 0x00, 0x00, 0x01,
    0x0a, 0x01, 0x00, 0x01, 0x12, 0x34, 0x01, 0xbb,
];

const TCP_FLOW: Flow = Flow {
    protocol: 6,
    ports: Some(Ports {
        source: 0x1234,
        target: 443,
    }),
    ..ICMP_FLOW
};

const REFUSED: Result<Flow, InnerFault> = Err(InnerFault::BadInner);

const FRAGMENT: Result<Flow, InnerFault> = Err(InnerFault::Fragment);

/// The length of a packet, a place, the octet that stands there in place of the packet's own, and what
/// the packet is.
type Row = (usize, usize, u8, Result<Flow, InnerFault>);

/// The packet with one octet replaced, filled up to 28 octets.
pub fn with(packet: &[u8], place: usize, octet: u8) -> [u8; 28] {
    let mut octets = [0; 28];
    for (new, old) in octets.iter_mut().zip(packet) {
        *new = *old;
    }
    if place < 28 {
        octets[place] = octet;
    }
    octets
}

/// The first row of which another packet is read, or none.
fn first_differing(packet: &[u8], rows: &[Row]) -> Option<usize> {
    for (index, (length, place, octet, wanted)) in rows.iter().enumerate() {
        let octets = with(packet, *place, *octet);
        if inner(&octets[..(*length).min(28)]) != *wanted {
            return Some(index);
        }
    }
    None
}

const HEADERS: [Row; 21] = [
    (20, 0, 0x45, Ok(ICMP_FLOW)),
    // shorter than a header, and another length of it
    (0, 0, 0x45, REFUSED),
    (19, 0, 0x45, REFUSED),
    (20, 0, 0x44, REFUSED),
    (20, 0, 0x46, REFUSED),
    (20, 0, 0x4f, REFUSED),
    // another version
    (20, 0, 0x05, REFUSED),
    (20, 0, 0x35, REFUSED),
    (20, 0, 0x55, REFUSED),
    (20, 0, 0x65, REFUSED),
    (20, 0, 0x75, REFUSED),
    (20, 0, 0xf5, REFUSED),
    // another total length
    (20, 3, 19, REFUSED),
    (20, 3, 21, REFUSED),
    (20, 2, 1, REFUSED),
    // fragments: the reserved bit and "don't fragment" tell of none
    (20, 6, 0x20, FRAGMENT),
    (20, 6, 0x10, FRAGMENT),
    (20, 7, 0x01, FRAGMENT),
    (20, 7, 0x80, FRAGMENT),
    (20, 6, 0x40, Ok(ICMP_FLOW)),
    (20, 6, 0x80, Ok(ICMP_FLOW)),
];

#[test]
fn wants_a_whole_header_and_no_fragment(rt: HostRuntime) {
    none_differs(&rt, first_differing(&ICMP, &HEADERS));
}

const PROTOCOLS: [Row; 13] = [
    (
        24,
        9,
        6,
        Ok(Flow {
            protocol: 6,
            ..TCP_FLOW
        }),
    ),
    (
        24,
        9,
        17,
        Ok(Flow {
            protocol: 17,
            ..TCP_FLOW
        }),
    ),
    (
        24,
        9,
        0,
        Ok(Flow {
            protocol: 0,
            ..ICMP_FLOW
        }),
    ),
    (
        24,
        9,
        1,
        Ok(Flow {
            protocol: 1,
            ..ICMP_FLOW
        }),
    ),
    (
        24,
        9,
        5,
        Ok(Flow {
            protocol: 5,
            ..ICMP_FLOW
        }),
    ),
    (
        24,
        9,
        7,
        Ok(Flow {
            protocol: 7,
            ..ICMP_FLOW
        }),
    ),
    (
        24,
        9,
        16,
        Ok(Flow {
            protocol: 16,
            ..ICMP_FLOW
        }),
    ),
    (
        24,
        9,
        18,
        Ok(Flow {
            protocol: 18,
            ..ICMP_FLOW
        }),
    ),
    (
        24,
        9,
        50,
        Ok(Flow {
            protocol: 50,
            ..ICMP_FLOW
        }),
    ),
    (
        24,
        9,
        132,
        Ok(Flow {
            protocol: 132,
            ..ICMP_FLOW
        }),
    ),
    (
        24,
        9,
        255,
        Ok(Flow {
            protocol: 255,
            ..ICMP_FLOW
        }),
    ),
    (23, 3, 23, REFUSED),
    (20, 3, 20, REFUSED),
];

#[test]
fn reads_four_octets_of_ports_of_tcp_and_udp(rt: HostRuntime) {
    none_differs(&rt, first_differing(&TCP, &PROTOCOLS));
    let udp = with(&TCP, 9, 17);
    none_differs(&rt, first_differing(&udp, &[(23, 3, 23, REFUSED)]));
}

// An option of four octets leaves no room for ports.
const OPTION: [Row; 2] = [(24, 9, 6, REFUSED), (24, 9, 1, Ok(ICMP_FLOW))];

/// A packet of UDP, whose ports stand behind options.
const LONG: [u8; 28] = [
    0x46, 0x00, 0x00, 0x1c, 0x00, 0x00, 0x00, 0x00, 0x40, 0x11, 0x00, 0x00, 0xc0, 0xa8, 0xff, 0xfe,
    0x00, 0x00, 0x00, 0x00, 0x07, 0x04, 0x00, 0x00, 0x00, 0x35, 0xff, 0xff,
];

const LONG_FLOW: Flow = Flow {
    protocol: 17,
    source: Address::V4(0xc0a8_fffe),
    target: Address::V4(0),
    ports: Some(Ports {
        source: 53,
        target: 65535,
    }),
};

#[test]
fn reads_ports_behind_options(rt: HostRuntime) {
    none_differs(&rt, first_differing(&LONG, &[(28, 0, 0x46, Ok(LONG_FLOW))]));
    none_differs(&rt, first_differing(&with(&TCP, 0, 0x46), &OPTION));
}

// A bad packet is no fragment, and a fragment needs no ports.
const FRAGMENTS: [Row; 2] = [(20, 3, 21, REFUSED), (20, 9, 6, FRAGMENT)];

#[test]
fn a_bad_packet_is_no_fragment_and_a_fragment_needs_no_ports(rt: HostRuntime) {
    none_differs(&rt, first_differing(&with(&ICMP, 6, 0x20), &FRAGMENTS));
}

/// What is read of the header, with this total length, before as many octets 00 as make the packet so long.
fn read_long(
    rt: &impl Abort,
    alloc: Global,
    length: usize,
    total: [u8; 2],
) -> Result<Flow, InnerFault> {
    let mut packet = granted(rt, [0x45, 0x00].to_vec(alloc));
    granted(rt, packet.extend_from_slice(&total));
    granted(rt, packet.extend_from_slice(&ICMP[4..]));
    granted(rt, packet.resize(length, 0));
    inner(packet.as_slice())
}

#[test]
fn reads_up_to_16384_octets(rt: HostRuntime) {
    let longest = read_long(&rt, rt.alloc(), 16_384, [0x40, 0x00]);
    let longer = read_long(&rt, rt.alloc(), 16_385, [0x40, 0x01]);
    holds(&rt, longest == Ok(ICMP_FLOW) && longer == REFUSED);
}

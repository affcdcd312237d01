//! ESP packets from one end to the other.
use super::fixture::{Ends, Networks, ipv4, ipv6, refusal, seal};
use crate::tests::asserts::same;
use std::alloc::Global;
use std::process::Abort;
use traffic::{Arrival, Departure, receive, send};

/// Finds that a packet goes sealed, in so many octets, comes to the other end as it was, and is refused
/// when it is repeated.
fn crosses(rt: &impl Abort, alloc: Global, networks: Networks, packet: &[u8], length: usize) {
    let mut ends = Ends::connected(alloc, networks, 0).expect(rt, "memory");
    let Departure::Sealed {
        child,
        number,
        octets,
    } = send(alloc, &mut ends.near, &ends.policy, packet).expect(rt, "memory")
    else {
        panic!(rt; "not sealed");
    };
    same(rt, (child, number, octets.len()), (1, 1, length));
    let up = Arrival::Up {
        child: 1,
        number: 1,
        packet,
    };
    same(rt, receive(&mut ends.far, octets.as_slice()), up);
    same(
        rt,
        refusal(receive(&mut ends.far, octets.as_slice())),
        Some(16),
    );
}

#[test]
fn packets_of_both_families_cross_once(rt: HostRuntime) {
    crosses(&rt, rt.alloc(), Networks::ipv4(), &ipv4(), 48);
    crosses(&rt, rt.alloc(), Networks::ipv6(), &ipv6(), 68);
}

/// Finds what comes of a payload under a next header, sealed at the near end. Its number is taken,
/// whatever comes of it.
fn comes(rt: &impl Abort, alloc: Global, next: u8, payload: &[u8], code: Option<u8>) {
    let mut ends = Ends::connected(alloc, Networks::ipv4(), 0).expect(rt, "memory");
    let octets = seal(rt, alloc, &mut ends.near, next, payload);
    same(rt, refusal(receive(&mut ends.far, &octets)), code);
    same(rt, refusal(receive(&mut ends.far, &octets)), Some(16));
}

/// A copy of a packet of IPv4 with another octet at a place.
fn ipv4_with(place: usize, octet: u8) -> [u8; 20] {
    let mut packet = ipv4();
    if let Some(there) = packet.get_mut(place) {
        *there = octet;
    }
    packet
}

fn ipv6_with(place: usize, octet: u8) -> [u8; 40] {
    let mut packet = ipv6();
    if let Some(there) = packet.get_mut(place) {
        *there = octet;
    }
    packet
}

#[test]
fn judges_by_the_next_header_first(rt: HostRuntime) {
    let alloc = rt.alloc();
    comes(&rt, alloc, 4, &ipv4(), None);
    comes(&rt, alloc, 59, b"", None);
    comes(&rt, alloc, 59, &ipv4_with(12, 11), None);
    comes(&rt, alloc, 6, &ipv4(), Some(21));
    comes(&rt, alloc, 41, &ipv4(), Some(21));
    comes(&rt, alloc, 4, &ipv6(), Some(21));
    comes(&rt, alloc, 4, b"", Some(21));
    // A fragment, and one that comes as a packet of IPv6.
    comes(&rt, alloc, 4, &ipv4_with(6, 0x20), Some(22));
    comes(&rt, alloc, 41, &ipv4_with(6, 0x20), Some(21));
    // A header of a fragment of IPv6, and one that comes as a packet of IPv4.
    comes(&rt, alloc, 41, &ipv6_with(6, 44), Some(39));
    comes(&rt, alloc, 4, &ipv6_with(6, 44), Some(21));
}

#[test]
fn judges_by_the_selectors(rt: HostRuntime) {
    let alloc = rt.alloc();
    comes(&rt, alloc, 4, &ipv4_with(13, 9), Some(23));
    comes(&rt, alloc, 4, &ipv4_with(17, 9), Some(23));
    comes(&rt, alloc, 41, &ipv6(), Some(23));
}

#[test]
fn a_dummy_says_nothing(rt: HostRuntime) {
    let alloc = rt.alloc();
    let mut ends = Ends::connected(alloc, Networks::ipv4(), 0).expect(&rt, "memory");
    let octets = seal(&rt, alloc, &mut ends.near, 59, b"abc");
    let dummy = Arrival::Dummy {
        child: 1,
        number: 1,
    };
    same(&rt, receive(&mut ends.far, &octets), dummy);
}

#[test]
fn what_reaches_no_pair_is_dropped(rt: HostRuntime) {
    let mut ends = Ends::connected(rt.alloc(), Networks::ipv4(), 0).expect(&rt, "memory");
    for (packet, code) in [
        (b"".as_slice(), 14),
        (&[0, 0, 32], 14),
        (&[0, 0, 32, 0], 14),
        (&[0, 0, 16, 0], 28),
        (&[0, 0, 32, 1, 0, 0], 28),
    ] {
        same(&rt, refusal(receive(&mut ends.far, packet)), Some(code));
    }
}

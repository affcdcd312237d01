//! What is sealed. The expected ICVs are those that Python's module `hmac` computes.
use super::fixture::{IPV4, extended_sender, first, inner, sealed, sender};
use crate::tests::asserts::{granted, holds, holds_at, same, same_at};
use esp::{EspFault, Outbound, packet_size};
use std::alloc::Global;
use std::process::Abort;

/// The packet with number 2 that carries [`inner`].
fn second() -> [u8; 48] {
    [
        0x00, 0x00, 0x01, 0x00, 0x00, 0x00, 0x00, 0x02, 0x45, 0x00, 0x00, 0x14, 0x00, 0x00, 0x00,
        0x00, 0x40, 0x01, 0x00, 0x00, 0x0a, 0x00, 0x00, 0x01, 0x0a, 0x01, 0x00, 0x01, 0x01, 0x02,
        0x02, 0x04, 0x39, 0x73, 0x87, 0x4d, 0xd1, 0x1d, 0x94, 0xc2, 0x4f, 0x14, 0x60, 0x80, 0x0c,
        0x95, 0xd2, 0x85,
    ]
}

// A packet is appended, and covers none of the octets before it.
#[test]
fn seals_and_appends(rt: HostRuntime) {
    let mut sender = sender(0);
    let mut out = Vec::new(rt.alloc());
    same(&rt, sender.seal(IPV4, &inner(), &mut out), Ok(1));
    same(&rt, out.as_slice(), first().as_slice());
    same(&rt, sender.seal(IPV4, &inner(), &mut out), Ok(2));
    let (one, other) = out.as_slice().split_at_checked(48).expect(&rt, "48 octets");
    same(&rt, one, first().as_slice());
    same(&rt, other, second().as_slice());
}

/// Finds that a packet with so many octets 5a is this one too where it is laid in a room, and that what
/// stands behind it in the room stays.
fn lays_the_same(rt: &impl Abort, alloc: Global, octets: usize, wanted: &[u8]) {
    let payload = granted(rt, vec![in alloc; 0x5a; octets]);
    let mut room = granted(rt, vec![in alloc; 0xa5; 16_413]);
    holds(rt, payload.len() + 29 <= room.len());
    let mut sender = sender(0);
    same_at(rt, octets, sender.lay_in(IPV4, &payload, &mut room), Ok(1));
    let size = packet_size(payload.len());
    holds(rt, size <= room.len());
    sender.finish(1, &mut room[..size], None);
    let (packet, behind) = room
        .as_slice()
        .split_at_checked(size)
        .expect(rt, "a packet");
    same_at(rt, octets, packet, wanted);
    holds_at(rt, octets, behind.iter().all(|octet| *octet == 0xa5));
}

/// Finds how long a packet with so many octets 5a is, that they stand in it behind number 1, and what
/// stands behind them.
fn pads(rt: &impl Abort, alloc: Global, rows: &[(usize, usize, &[u8])]) {
    for (octets, length, end) in rows {
        let payload = granted(rt, vec![in alloc; 0x5a; *octets]);
        let mut out = Vec::new(alloc);
        same(rt, sender(0).seal(IPV4, &payload, &mut out), Ok(1));
        same_at(rt, *octets, out.len(), *length);
        let mut wanted = granted(rt, b"\0\0\x01\0\0\0\0\x01".to_vec(alloc));
        granted(rt, wanted.extend_from_slice(&payload));
        granted(rt, wanted.extend_from_slice(end));
        same_at(rt, *octets, out.as_slice(), wanted.as_slice());
        lays_the_same(rt, alloc, *octets, &wanted);
    }
}

// Payloads of octets 5a under every remainder by four, and the longest: their trailer and ICV.
#[test]
fn pads_with_the_least_padding(rt: HostRuntime) {
    let cases: [(usize, usize, &[u8]); 6] = [
        (
            0,
            28,
            b"\x01\x02\x02\x04\x1a\xa6\x7f\x24\xc6\x7b\x83\x86\x59\x35\xe3\x6a\x62\x33\x23\x06",
        ),
        (
            22,
            48,
            b"\x00\x04\x1f\x8f\xc3\xee\x8b\xe6\xb1\xfd\x9a\x08\x18\x52\x91\xbb\xc6\x4e",
        ),
        (
            23,
            52,
            b"\x01\x02\x03\x03\x04\xcf\xd7\xad\x32\xe1\x90\x5d\x13\xda\x43\x70\x34\x57\x94\x14\xc4",
        ),
        (
            24,
            52,
            b"\x01\x02\x02\x04\xd8\xf5\xde\x9c\xde\x65\xdb\xe7\xe5\x96\x71\xe6\xaa\x47\x98\x97",
        ),
        (
            25,
            52,
            b"\x01\x01\x04\x4f\xcd\x62\x19\x68\x30\x22\xa3\xc5\x49\x66\x58\x98\xc6\x86\xeb",
        ),
        (
            16_384,
            16_412,
            b"\x01\x02\x02\x04\xff\x1c\xdc\x0d\xac\x5b\x1d\xf6\xea\x33\x73\xcc\x75\xd8\x50\xad",
        ),
    ];
    pads(&rt, rt.alloc(), &cases);
}

#[test]
fn refuses_a_longer_payload(rt: HostRuntime) {
    let mut sender = sender(0);
    let payload = granted(&rt, vec![in rt.alloc(); 0x5a; 16_385]);
    let mut out = granted(&rt, vec![in rt.alloc(); 1, 2, 3]);
    let refused = sender.seal(IPV4, &payload, &mut out);
    same(&rt, refused, Err(EspFault::PayloadSize));
    same(&rt, out.as_slice(), &[1, 2, 3]);
    let mut room = granted(&rt, vec![in rt.alloc(); 9; 16_414]);
    holds(&rt, payload.len() + 29 <= room.len());
    let refused = sender.lay_in(IPV4, &payload, &mut room);
    same(&rt, refused, Err(EspFault::PayloadSize));
    holds(&rt, room.iter().all(|octet| *octet == 9));
    out.clear();
    same(&rt, sender.seal(IPV4, &inner(), &mut out), Ok(1));
    same(&rt, out.as_slice(), first().as_slice());
}

/// Finds that a sender's next number is its last, after which every payload is refused, however long.
fn ends_with(rt: &impl Abort, alloc: Global, mut sender: Outbound, most: u64) {
    let long = granted(rt, vec![in alloc; 0x5a; 16_385]);
    let mut out = Vec::new(alloc);
    same(rt, sender.seal(IPV4, &inner(), &mut out), Ok(most));
    same(rt, out.len(), 48);
    let refused = sender.seal(IPV4, &inner(), &mut out);
    same_at(rt, most, refused, Err(EspFault::Exhausted));
    let refused = sender.seal(IPV4, &long, &mut out);
    same_at(rt, most, refused, Err(EspFault::Exhausted));
    same(rt, out.len(), 48);
}

#[test]
fn uses_up_the_numbers(rt: HostRuntime) {
    ends_with(&rt, rt.alloc(), sender(4_294_967_294), 4_294_967_295);
    ends_with(&rt, rt.alloc(), extended_sender(u64::MAX - 1), u64::MAX);
}

#[test]
fn goes_on_above_32_bits_if_extended(rt: HostRuntime) {
    let mut out = Vec::new(rt.alloc());
    let refused = sender(4_294_967_295).seal(IPV4, &inner(), &mut out);
    same(&rt, refused, Err(EspFault::Exhausted));
    holds(&rt, out.is_empty());
    let sealed = sealed(
        &rt,
        rt.alloc(),
        extended_sender(4_294_967_295),
        4_294_967_296,
    );
    same(&rt, sealed.len(), 48);
}

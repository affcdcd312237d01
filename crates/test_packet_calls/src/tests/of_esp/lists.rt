use super::fixture::{Receiver, damaged, inner, packet, sealed, sender, slices};
use crate::tests::asserts::{granted, holds, same};
use esp::{EspFault, Opened};
use std::alloc::Global;
use std::process::Abort;

/// A packet of no octet of payload, with number 100.
fn hundredth(rt: &impl Abort, alloc: Global) -> Vec<u8> {
    let mut packet = Vec::new(alloc);
    same(rt, sender(99).seal(59, b"", &mut packet), Ok(100));
    packet
}

/// Adds packets with these low halves and these octets up to the next header.
fn push_packets(rt: &impl Abort, alloc: Global, packets: &mut Vec<Vec<u8>>, rows: &[(u32, &[u8])]) {
    for (low, contents) in rows {
        let packet = granted(rt, packet(alloc, *low, contents, b""));
        granted(rt, packets.push(packet));
    }
}

/// Adds a copy of a packet.
fn push_copy(rt: &impl Abort, alloc: Global, packets: &mut Vec<Vec<u8>>, packet: &[u8]) {
    let copy = granted(rt, packet.to_vec(alloc));
    granted(rt, packets.push(copy));
}

/// Nine packets, of which three are repeated or damaged, and the others differ in their faults.
fn packets(rt: &impl Abort, alloc: Global) -> Vec<Vec<u8>> {
    let seventh = sealed(rt, alloc, sender(6), 7);
    let hundredth = hundredth(rt, alloc);
    let damaged = granted(rt, damaged(alloc, &hundredth, 27));
    let mut packets = Vec::new(alloc);
    push_copy(rt, alloc, &mut packets, &seventh);
    push_copy(rt, alloc, &mut packets, &seventh);
    push_copy(rt, alloc, &mut packets, &damaged);
    push_copy(rt, alloc, &mut packets, &hundredth);
    let rows: [(u32, &[u8]); 2] = [(37, b"\0\0\x02\x04"), (0, b"\x01\x02\x02\x04")];
    push_packets(rt, alloc, &mut packets, &rows);
    push_copy(rt, alloc, &mut packets, &seventh);
    push_copy(rt, alloc, &mut packets, &[0, 0, 1]);
    push_packets(rt, alloc, &mut packets, &[(38, b"abcdef\x00\x29")]);
    packets
}

/// The answer to a packet that carries a payload.
fn up(number: u64, next: u8, payload: &[u8]) -> Result<Opened<'_>, EspFault> {
    Ok(Opened {
        number,
        next,
        payload,
    })
}

#[test]
fn answers_each_packet_in_order(rt: HostRuntime) {
    let alloc = rt.alloc();
    let mut receiver = Receiver::new(alloc, false);
    let packets = packets(&rt, alloc);
    let slices = granted(&rt, slices(alloc, &packets));
    let mut out = granted(&rt, vec![in alloc; Err(EspFault::Memory)]);
    receiver
        .open_all(&rt, &slices, &mut out)
        .expect(&rt, "answers");
    same(
        &rt,
        out.as_slice(),
        [
            Err(EspFault::Memory),
            up(7, 4, &inner()),
            Err(EspFault::Replayed),
            Err(EspFault::BadIcv),
            up(100, 59, b""),
            Err(EspFault::BadPadding),
            Err(EspFault::BadNumber),
            Err(EspFault::Old),
            Err(EspFault::BadLength),
            up(38, 41, b"abcdef"),
        ]
        .as_slice(),
    );
}

#[test]
fn answers_no_packet(rt: HostRuntime) {
    let mut receiver = Receiver::new(rt.alloc(), false);
    let mut out = Vec::new(rt.alloc());
    receiver.open_all(&rt, &[], &mut out).expect(&rt, "answers");
    holds(&rt, out.is_empty());
}

// A list is opened where the one before it left the SA.
#[test]
fn goes_on_with_the_next_list(rt: HostRuntime) {
    let alloc = rt.alloc();
    let mut receiver = Receiver::new(alloc, false);
    let packet = sealed(&rt, alloc, sender(6), 7);
    let packets = [packet.as_slice()];
    let mut out = Vec::new(alloc);
    receiver
        .open_all(&rt, &packets, &mut out)
        .expect(&rt, "answers");
    receiver
        .open_all(&rt, &packets, &mut out)
        .expect(&rt, "answers");
    same(
        &rt,
        out.as_slice(),
        [up(7, 4, &inner()), Err(EspFault::Replayed)].as_slice(),
    );
}

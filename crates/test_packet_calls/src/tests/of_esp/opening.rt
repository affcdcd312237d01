use super::fixture::{IPV4, Receiver, damaged, first, packet, sealed, sender};
use crate::tests::asserts::{granted, same, same_at};
use esp::{EspFault, Opened};
use std::alloc::Global;
use std::process::Abort;

#[test]
fn opens_a_packet_once(rt: HostRuntime) {
    let mut receiver = Receiver::new(rt.alloc(), false);
    let packet = sealed(&rt, rt.alloc(), sender(6), 7);
    receiver.opens_inner(&rt, &packet, 7);
    receiver.refuses(&rt, &packet, EspFault::Replayed);
    // And what another program sealed.
    let mut receiver = Receiver::new(rt.alloc(), false);
    receiver.opens_inner(&rt, &first(), 1);
}

/// Finds that packets of so many octets, which are 0 behind the SPI, are refused so.
fn refuses_lengths(
    rt: &impl Abort,
    alloc: Global,
    receiver: &mut Receiver,
    lengths: &[usize],
    fault: EspFault,
) {
    for octets in lengths {
        let mut packet = granted(rt, b"\0\0\x01\0".to_vec(alloc));
        granted(rt, packet.resize(*octets, 0));
        same(rt, packet.len(), *octets);
        same_at(rt, *octets, receiver.open(rt, &packet).err(), Some(fault));
    }
}

// Below the shortest packet, off the words of four octets, and above the longest packet no number is
// looked at.
#[test]
fn refuses_other_lengths(rt: HostRuntime) {
    let mut receiver = Receiver::new(rt.alloc(), false);
    let bad = [
        0, 1, 3, 4, 8, 24, 26, 27, 29, 30, 31, 16_665, 16_666, 16_667, 16_668, 20_000,
    ];
    refuses_lengths(&rt, rt.alloc(), &mut receiver, &bad, EspFault::BadLength);
    let good = [28, 32, 16_664];
    refuses_lengths(&rt, rt.alloc(), &mut receiver, &good, EspFault::BadNumber);
}

/// So many octets of payload under so many of padding, up to the next header.
fn padded(rt: &impl Abort, alloc: Global, payload: usize, pad: u8) -> Vec<u8> {
    let mut contents = granted(rt, vec![in alloc; 0x5a; payload]);
    for octet in 1..=pad {
        granted(rt, contents.push(octet));
    }
    granted(rt, contents.push(pad));
    granted(rt, contents.push(IPV4));
    contents
}

/// Finds that packets under these numbers, of so many octets of payload and of padding, have so many
/// octets and open.
fn opens_padded(
    rt: &impl Abort,
    alloc: Global,
    receiver: &mut Receiver,
    rows: &[(u32, usize, u8, usize)],
) {
    for (number, payload, pad, octets) in rows {
        let packet = packet(alloc, *number, &padded(rt, alloc, *payload, *pad), &[]).expect(
            rt, "memory",
        );
        same(rt, packet.len(), *octets);
        let wanted = granted(rt, vec![in alloc; 0x5a; *payload]);
        receiver.opens(rt, &packet, u64::from(*number), IPV4, &wanted);
    }
}

#[test]
fn opens_every_padding_that_aligns(rt: HostRuntime) {
    let mut receiver = Receiver::new(rt.alloc(), false);
    let rows = [
        (1, 0, 2, 28),
        (2, 2, 0, 28),
        (3, 20, 6, 52),
        (4, 0, 254, 280),
        (5, 3, 255, 284),
        (6, 16_384, 2, 16_412),
        (7, 16_384, 254, 16_664),
        (8, 16_638, 0, 16_664),
    ];
    opens_padded(&rt, rt.alloc(), &mut receiver, &rows);
    let long = packet(rt.alloc(), 9, &padded(&rt, rt.alloc(), 16_388, 254), &[]).expect(
        &rt, "memory",
    );
    same(&rt, long.len(), 16_668);
    receiver.refuses(&rt, &long, EspFault::BadLength);
}

/// Finds that packets of these contents, numbered from 1 on, are refused for their padding, and then as
/// repeated.
fn refuses_padding(rt: &impl Abort, alloc: Global, receiver: &mut Receiver, cases: &[&[u8]]) {
    for (contents, number) in cases.iter().zip(1..) {
        let packet = granted(rt, packet(alloc, number, contents, &[]));
        same_at(
            rt,
            number,
            receiver.open(rt, &packet).err(),
            Some(EspFault::BadPadding),
        );
        same_at(
            rt,
            number,
            receiver.open(rt, &packet).err(),
            Some(EspFault::Replayed),
        );
    }
}

// Each stands under a right ICV, so its number stays taken.
#[test]
fn refuses_bad_padding_and_keeps_the_number(rt: HostRuntime) {
    let mut receiver = Receiver::new(rt.alloc(), false);
    let cases: [&[u8]; 12] = [
        &[0, 0, 2, 4],
        &[9, 9, 9, 9, 0, 0, 2, 4],
        &[0, 1, 2, 4],
        &[1, 1, 2, 4],
        &[2, 1, 2, 4],
        &[1, 3, 2, 4],
        &[2, 3, 2, 4],
        &[9, 0, 1, 4],
        &[9, 2, 1, 4],
        &[1, 2, 3, 4],
        &[1, 2, 255, 4],
        &[9, 1, 2, 3, 5, 5, 5, 4],
    ];
    refuses_padding(&rt, rt.alloc(), &mut receiver, &cases);
}

/// Finds that packets of these contents, numbered from 1 on, hand up this next header and this payload.
fn hands_up(rt: &impl Abort, alloc: Global, receiver: &mut Receiver, cases: &[(&[u8], u8, &[u8])]) {
    for ((contents, next, payload), number) in cases.iter().zip(1..) {
        let packet = granted(rt, packet(alloc, number, contents, &[]));
        let wanted = Opened {
            number: u64::from(number),
            next: *next,
            payload,
        };
        same(rt, receiver.open(rt, &packet), Ok(wanted));
    }
}

#[test]
fn hands_up_what_stands_before_the_padding(rt: HostRuntime) {
    let mut receiver = Receiver::new(rt.alloc(), false);
    let cases: [(&[u8], u8, &[u8]); 5] = [
        (&[1, 2, 2, 4], 4, &[]),
        (&[9, 1, 1, 59], 59, &[9]),
        (&[9, 8, 0, 0], 0, &[9, 8]),
        (&[1, 2, 0, 255], 255, &[1, 2]),
        (&[9, 8, 7, 6, 1, 2, 3, 4, 5, 6, 6, 41], 41, &[9, 8, 7, 6]),
    ];
    hands_up(&rt, rt.alloc(), &mut receiver, &cases);
}

/// Finds that a packet with a damaged octet at any of these places is refused.
fn refuses_damaged(
    rt: &impl Abort,
    alloc: Global,
    receiver: &mut Receiver,
    packet: &[u8],
    places: &[usize],
) {
    for place in places {
        let wrong = granted(rt, damaged(alloc, packet, *place));
        same_at(
            rt,
            *place,
            receiver.open(rt, &wrong).err(),
            Some(EspFault::BadIcv),
        );
    }
}

// Octets of the number, the payload, the padding, its length, the next header and the ICV. Number 8 becomes
// 9.
#[test]
fn refuses_each_damaged_octet(rt: HostRuntime) {
    let mut receiver = Receiver::new(rt.alloc(), false);
    let packet = sealed(&rt, rt.alloc(), sender(7), 8);
    let places = [4, 7, 8, 27, 28, 29, 30, 31, 32, 40, 47];
    refuses_damaged(&rt, rt.alloc(), &mut receiver, &packet, &places);
    receiver.opens_inner(&rt, &packet, 8);
    receiver.refuses(&rt, &packet, EspFault::Replayed);
}

/// The contents of a packet whose padding is wrong.
const BAD: [u8; 4] = [0, 0, 2, 4];

/// Finds how such packets are refused where their ICV is wrong, too, and that an octet more makes their
/// length wrong.
fn refuses_wrong(
    rt: &impl Abort,
    alloc: Global,
    receiver: &mut Receiver,
    rows: &[(u32, EspFault)],
) {
    for (number, fault) in rows {
        let right = granted(rt, packet(alloc, *number, &BAD, &[]));
        let mut wrong = granted(rt, damaged(alloc, &right, 27));
        same_at(rt, *number, receiver.open(rt, &wrong).err(), Some(*fault));
        granted(rt, wrong.push(0));
        same_at(
            rt,
            *number,
            receiver.open(rt, &wrong).err(),
            Some(EspFault::BadLength),
        );
    }
}

/// Finds how such packets are refused where their ICV is right.
fn refuses_right(
    rt: &impl Abort,
    alloc: Global,
    receiver: &mut Receiver,
    rows: &[(u32, EspFault)],
) {
    for (number, fault) in rows {
        let right = granted(rt, packet(alloc, *number, &BAD, &[]));
        same_at(rt, *number, receiver.open(rt, &right).err(), Some(*fault));
    }
}

// A packet with several faults gets the first. Only the last of them takes its number.
#[test]
fn refuses_in_order(rt: HostRuntime) {
    let mut receiver = Receiver::new(rt.alloc(), false);
    let top = sealed(&rt, rt.alloc(), sender(99), 100);
    receiver.opens_inner(&rt, &top, 100);
    let wrong = [
        (0, EspFault::BadNumber),
        (1, EspFault::Old),
        (36, EspFault::Old),
        (37, EspFault::BadIcv),
        (100, EspFault::Replayed),
        (101, EspFault::BadIcv),
        (u32::MAX, EspFault::BadIcv),
    ];
    refuses_wrong(&rt, rt.alloc(), &mut receiver, &wrong);
    let right = [
        (0, EspFault::BadNumber),
        (36, EspFault::Old),
        (37, EspFault::BadPadding),
        (37, EspFault::Replayed),
        (100, EspFault::Replayed),
        (101, EspFault::BadPadding),
        (37, EspFault::Old),
    ];
    refuses_right(&rt, rt.alloc(), &mut receiver, &right);
}

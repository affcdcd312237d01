//! Numbers of 64 bits. The expected ICVs are those that Python's module `hmac` computes.
use super::fixture::{Receiver, extended_sender, first, packet, sealed};
use crate::tests::asserts::{granted, same, same_at};
use esp::EspFault;
use std::alloc::Global;
use std::process::Abort;

/// Finds that the packets under these numbers send this low half and have this ICV.
fn covers(rt: &impl Abort, alloc: Global, rows: &[(u64, [u8; 4], [u8; 16])]) {
    for (number, low, check) in rows {
        let sender = extended_sender(number.wrapping_sub(1));
        let sealed = sealed(rt, alloc, sender, *number);
        let mut wanted = granted(rt, vec![in alloc; 0, 0, 1, 0]);
        granted(rt, wanted.extend_from_slice(low));
        granted(rt, wanted.extend_from_slice(&first()[8..32]));
        granted(rt, wanted.extend_from_slice(check));
        same_at(rt, *number, sealed.as_slice(), wanted.as_slice());
    }
}

/// The numbers of packets, and their low halves and ICVs.
fn covered() -> [(u64, [u8; 4], [u8; 16]); 5] {
    [
        (
            1,
            [0, 0, 0, 1],
            [
                0x57, 0xad, 0xd2, 0x04, 0x8a, 0xc6, 0x17, 0x49, 0x68, 0x41, 0x70, 0x5a, 0x3b, 0xbe,
                0xca, 0x5e,
            ],
        ),
        (
            4_294_967_232,
            [255, 255, 255, 192],
            [
                0xf1, 0x12, 0x7e, 0x5a, 0x66, 0x6d, 0x56, 0x17, 0xfc, 0x10, 0x01, 0x54, 0xb8, 0x0b,
                0x66, 0x45,
            ],
        ),
        (
            4_294_967_296,
            [0, 0, 0, 0],
            [
                0x9f, 0xba, 0x55, 0x12, 0xa0, 0xd6, 0x03, 0x0e, 0x4f, 0xda, 0x01, 0xd6, 0x63, 0x37,
                0x44, 0x05,
            ],
        ),
        (
            4_294_967_297,
            [0, 0, 0, 1],
            [
                0x57, 0x75, 0xf8, 0x84, 0xd7, 0x6e, 0x4d, 0xc6, 0x9f, 0x87, 0x40, 0x46, 0x5b, 0x1b,
                0x71, 0x1c,
            ],
        ),
        (
            u64::MAX,
            [255, 255, 255, 255],
            [
                0xb6, 0x1d, 0x1b, 0xd5, 0x87, 0xa9, 0x9b, 0xf6, 0xf9, 0x16, 0xf0, 0xb8, 0x5c, 0x80,
                0x4c, 0x96,
            ],
        ),
    ]
}

// The high half is covered and not sent, so packets whose low halves agree differ in their ICV alone.
#[test]
fn covers_the_high_half(rt: HostRuntime) {
    covers(&rt, rt.alloc(), &covered());
}

// From a window at 0 the low half 0 stands for no number.
#[test]
fn finds_no_number_too_far_ahead(rt: HostRuntime) {
    let mut receiver = Receiver::new(rt.alloc(), true);
    let sealed = sealed(
        &rt,
        rt.alloc(),
        extended_sender(4_294_967_295),
        4_294_967_296,
    );
    same(&rt, sealed.len(), 48);
    receiver.refuses(&rt, &sealed, EspFault::BadNumber);
}

/// A receiver that opened the packet with the number 2^32 - 64, and that packet.
fn near_32_bits(rt: &impl Abort, alloc: Global) -> (Receiver, Vec<u8>) {
    let mut receiver = Receiver::new(alloc, true);
    let below = sealed(rt, alloc, extended_sender(4_294_967_231), 4_294_967_232);
    receiver.opens_inner(rt, &below, 4_294_967_232);
    (receiver, below)
}

#[test]
fn crosses_32_bits(rt: HostRuntime) {
    let (mut receiver, below) = near_32_bits(&rt, rt.alloc());
    let above = sealed(
        &rt,
        rt.alloc(),
        extended_sender(4_294_967_295),
        4_294_967_296,
    );
    receiver.opens_inner(&rt, &above, 4_294_967_296);
    receiver.refuses(&rt, &above, EspFault::Replayed);
    // Below the window a low half stands for the number a cycle later.
    receiver.refuses(&rt, &below, EspFault::BadIcv);
}

/// Finds that an ICV over a high half is wrong under the low half 1.
fn is_wrong(rt: &impl Abort, alloc: Global, receiver: &mut Receiver, half: &[u8]) {
    let wrong = granted(rt, packet(alloc, 1, &[1, 2, 2, 4], half));
    receiver.refuses(rt, &wrong, EspFault::BadIcv);
}

// The low half 1 stands for 2^32 + 1 there, so an ICV for the number 1 is wrong.
#[test]
fn checks_the_recovered_number(rt: HostRuntime) {
    let alloc = rt.alloc();
    let (mut receiver, _) = near_32_bits(&rt, alloc);
    is_wrong(&rt, alloc, &mut receiver, &[0, 0, 0, 0]);
    is_wrong(&rt, alloc, &mut receiver, &[0, 0, 0, 2]);
    is_wrong(&rt, alloc, &mut receiver, &[]);
    let right = granted(&rt, packet(alloc, 1, &[1, 2, 2, 4], &[0, 0, 0, 1]));
    let opened = receiver.open(&rt, &right);
    same(&rt, opened.map(|opened| opened.number), Ok(4_294_967_297));
}

//! Traffic selectors of both families, read and written. The octets come from a program of another language.
use super::*;
use crate::tests::asserts::{granted, holds, same, same_at};
use wire::numbers::{SELECTOR_LIMIT, TS_I_TYPE, TS_R_TYPE};

const BOTH_FAMILIES: [u8; 104] = [
    0x00, 0x00, 0x00, 0x68, 0x03, 0x00, 0x00, 0x00, 0x07, 0x06, 0x00, 0x10, 0x01, 0xbb, 0x01, 0xbc,
    0x0a, 0x00, 0x00, 0x00, 0x0a, 0x00, 0x00, 0xff, 0x08, 0x11, 0x00, 0x28, 0x00, 0x35, 0x00, 0x35,
    0x20, 0x01, 0x0d, 0xb8, 0x00, 0x00, 0x00, 0x00, 0x00, 0x00, 0x00, 0x00, 0x00, 0x00, 0x0a, 0x00,
    0x20, 0x01, 0x0d, 0xb8, 0x00, 0x00, 0x00, 0x00, 0x00, 0x00, 0x00, 0x00, 0x00, 0x00, 0x0a, 0xff,
    0x08, 0x00, 0x00, 0x28, 0x00, 0x00, 0xff, 0xff, 0x00, 0x00, 0x00, 0x00, 0x00, 0x00, 0x00, 0x00,
    0x00, 0x00, 0x00, 0x00, 0x00, 0x00, 0x00, 0x00, 0xff, 0xff, 0xff, 0xff, 0xff, 0xff, 0xff, 0xff,
    0xff, 0xff, 0xff, 0xff, 0xff, 0xff, 0xff, 0xff,
];

const IPV4_RANGE: [u8; 20] = [
    0x01, 0x00, 0x00, 0x00, 0x07, 0x00, 0x00, 0x10, 0x00, 0x0a, 0x00, 0x14, 0x0a, 0x00, 0x00, 0x00,
    0x0a, 0x00, 0x00, 0xff,
];

const IPV6_RANGE: [u8; 44] = [
    0x01, 0x00, 0x00, 0x00, 0x08, 0x00, 0x00, 0x28, 0x00, 0x0a, 0x00, 0x14, 0x20, 0x01, 0x0d, 0xb8,
    0x00, 0x00, 0x00, 0x00, 0x00, 0x00, 0x00, 0x00, 0x00, 0x00, 0x0a, 0x00, 0x20, 0x01, 0x0d, 0xb8,
    0x00, 0x00, 0x00, 0x00, 0x00, 0x00, 0x00, 0x00, 0x00, 0x00, 0x0a, 0xff,
];

fn selector(protocol: u8, start_port: u16, end_port: u16, addresses: Range) -> Selector {
    Selector {
        protocol,
        start_port,
        end_port,
        addresses,
    }
}

fn both_families() -> [Selector; 3] {
    let documentation = 0x2001_0db8_0000_0000_0000_0000_0000_0000;
    [
        selector(6, 443, 444, Range::V4(0x0a00_0000, 0x0a00_00ff)),
        selector(
            17,
            53,
            53,
            Range::V6(documentation + 0xa00, documentation + 0xaff),
        ),
        selector(
            0,
            0,
            65535,
            Range::V6(0, 0xffff_ffff_ffff_ffff_ffff_ffff_ffff_ffff),
        ),
    ]
}

#[test]
fn families_are_read(rt: HostRuntime) {
    let read = decode_chain(rt.alloc(), TS_R_TYPE, &BOTH_FAMILIES)
        .ok()
        .expect(&rt, "selectors");
    let [Payload::TsR(selectors)] = read.as_slice() else {
        panic!(rt; "another payload is read");
    };
    same(&rt, selectors.as_slice(), both_families().as_slice());
}

/// A message of these selectors of the initiator.
fn message_of(rt: &impl Abort, alloc: Global, selectors: &[Selector]) -> Message {
    let mut payloads = Items::new(alloc);
    granted(
        rt,
        payloads.push(Payload::TsI(granted(rt, Items::from_slice(alloc, selectors)))),
    );
    Message {
        header: header(),
        payloads,
    }
}

#[test]
fn families_are_written(rt: HostRuntime) {
    let message = message_of(&rt, rt.alloc(), &both_families());
    let mut out = Vec::new(rt.alloc());
    encode_message(&message, &mut out).expect(&rt, "a spelling");
    same(&rt, out.len(), 132);
    holds(&rt, out.as_slice().ends_with(&BOTH_FAMILIES));
}

const IPV4_CHANGES: [Change; 10] = [
    (1, 255, 0, None),
    // no selector, too many of them, another count than there are
    (0, 0, 6, Some(4)),
    (0, 2, 6, Some(4)),
    (0, 17, 6, Some(4)),
    // another type, and the type and the length of the other family
    (4, 9, 6, Some(4)),
    (4, 8, 6, Some(4)),
    (7, 40, 6, Some(4)),
    (7, 15, 6, Some(4)),
    // a start above its end
    (9, 21, 6, Some(4)),
    (12, 11, 6, Some(4)),
];

const IPV6_CHANGES: [Change; 7] = [
    (1, 255, 0, None),
    (0, 2, 6, Some(4)),
    (4, 7, 6, Some(4)),
    (7, 16, 6, Some(4)),
    (9, 21, 6, Some(4)),
    (12, 0x21, 6, Some(4)),
    (27, 1, 0, None),
];

#[test]
fn malformed_selectors(rt: HostRuntime) {
    let alloc = rt.alloc();
    let reading = Reading::Body(TS_I_TYPE);
    none_differs(
        &rt,
        first_change_differing(&rt, alloc, reading, &IPV4_RANGE, &IPV4_CHANGES),
    );
    let reading = Reading::Body(TS_R_TYPE);
    none_differs(
        &rt,
        first_change_differing(&rt, alloc, reading, &IPV6_RANGE, &IPV6_CHANGES),
    );
}

/// The body of a payload of so many selectors.
fn repeated(rt: &impl Abort, alloc: Global, count: u8) -> Vec<u8> {
    let mut body = granted(rt, [count, 0, 0, 0].to_vec(alloc));
    for _ in 0..count {
        granted(rt, body.extend_from_slice(&IPV4_RANGE[4..]));
    }
    body
}

#[test]
fn numbers_of_selectors(rt: HostRuntime) {
    for (count, wanted) in [
        (0, (6, Some(4))),
        (1, (0, None)),
        (16, (0, None)),
        (17, (6, Some(4))),
    ] {
        let body = repeated(&rt, rt.alloc(), count);
        let answer = refusal_of_body(&rt, rt.alloc(), TS_I_TYPE, &body);
        same_at(&rt, count, answer, wanted);
    }
    same(&rt, SELECTOR_LIMIT, 16);
}

/// Why a message of one selector is not written.
fn refusal_of_one(rt: &impl Abort, alloc: Global, selector: Selector) -> Refusal {
    let message = message_of(rt, alloc, &[selector]);
    let mut out = Vec::new(alloc);
    refusal(encode_message(&message, &mut out))
}

#[test]
fn starts_above_ends_are_not_written(rt: HostRuntime) {
    for (unordered, wanted) in [
        (selector(0, 10, 10, Range::V4(5, 5)), (0, None)),
        (selector(0, 11, 10, Range::V4(5, 5)), (6, Some(28))),
        (selector(0, 10, 10, Range::V4(6, 5)), (6, Some(28))),
        (selector(0, 10, 10, Range::V6(5, 5)), (0, None)),
        (selector(0, 10, 10, Range::V6(6, 5)), (6, Some(28))),
    ] {
        let answer = refusal_of_one(&rt, rt.alloc(), unordered);
        same_at(&rt, unordered, answer, wanted);
    }
}

//! The worked rows, every payload type and every fault. The octets come from a program of another language.
use crate::tests::asserts::{granted, holds, holds_at, none_differs, same, same_at};
use base::{Items, Range, Selector};
use std::alloc::Global;
use std::process::Abort;
use wire::numbers::{HEADER_LENGTH, VENDOR_ID_TYPE};
use wire::{
    Attribute, Flags, Header, Message, Payload, Proposal, SkippedKind, Transform, WireFault,
    decode_chain, decode_message, encode_message,
};

mod encoding;
mod refusals;
mod selectors;

const COOKIE_ANSWER: [u8; 38] = [
    0x01, 0x02, 0x03, 0x04, 0x05, 0x06, 0x07, 0x08, 0x00, 0x00, 0x00, 0x00, 0x00, 0x00, 0x00, 0x00,
    0x29, 0x20, 0x22, 0x20, 0x00, 0x00, 0x00, 0x00, 0x00, 0x00, 0x00, 0x26, 0x00, 0x00, 0x00, 0x0a,
    0x00, 0x00, 0x40, 0x06, 0xaa, 0xbb,
];

const SEALED_REQUEST: [u8; 49] = [
    0x00, 0x00, 0x00, 0x00, 0x00, 0x00, 0x00, 0x01, 0x00, 0x00, 0x00, 0x00, 0x00, 0x00, 0x00, 0x02,
    0x2e, 0x20, 0x25, 0x08, 0x00, 0x00, 0x00, 0x02, 0x00, 0x00, 0x00, 0x31, 0x00, 0x00, 0x00, 0x15,
    0x00, 0x01, 0x02, 0x03, 0x04, 0x05, 0x06, 0x07, 0x08, 0x09, 0x0a, 0x0b, 0x0c, 0x0d, 0x0e, 0x0f,
    0x10,
];

const ESP_PROPOSAL: [u8; 40] = [
    0x00, 0x00, 0x00, 0x28, 0x00, 0x00, 0x00, 0x24, 0x01, 0x03, 0x04, 0x03, 0x00, 0x00, 0x01, 0x00,
    0x03, 0x00, 0x00, 0x08, 0x01, 0x00, 0x00, 0x0b, 0x03, 0x00, 0x00, 0x08, 0x03, 0x00, 0x00, 0x0c,
    0x00, 0x00, 0x00, 0x08, 0x05, 0x00, 0x00, 0x00,
];

const IKE_PROPOSAL: [u8; 44] = [
    0x22, 0x00, 0x00, 0x2c, 0x00, 0x00, 0x00, 0x28, 0x01, 0x01, 0x00, 0x04, 0x03, 0x00, 0x00, 0x08,
    0x01, 0x00, 0xfd, 0xe9, 0x03, 0x00, 0x00, 0x08, 0x02, 0x00, 0x00, 0x05, 0x03, 0x00, 0x00, 0x08,
    0x03, 0x00, 0x00, 0x0c, 0x00, 0x00, 0x00, 0x08, 0x04, 0x00, 0xfd, 0xea,
];

const EVERY_TYPE: [u8; 259] = [
    0x01, 0x02, 0x03, 0x04, 0x05, 0x06, 0x07, 0x08, 0x00, 0x00, 0x00, 0x00, 0x00, 0x00, 0x00, 0x09,
    0x21, 0x21, 0x24, 0x28, 0x00, 0x00, 0x00, 0x07, 0x00, 0x00, 0x01, 0x03, 0x22, 0x00, 0x00, 0x3b,
    0x02, 0x00, 0x00, 0x27, 0x01, 0x03, 0x04, 0x02, 0x00, 0x00, 0x01, 0x00, 0x03, 0x00, 0x00, 0x0c,
    0x01, 0x00, 0x00, 0x0b, 0x80, 0x0e, 0x00, 0x80, 0x00, 0x00, 0x00, 0x0f, 0x05, 0x00, 0x00, 0x00,
    0x00, 0x0f, 0x00, 0x03, 0x07, 0x08, 0x09, 0x00, 0x00, 0x00, 0x10, 0x02, 0x01, 0x00, 0x01, 0x00,
    0x00, 0x00, 0x08, 0x02, 0x00, 0x00, 0x05, 0x23, 0x00, 0x00, 0x0a, 0xfd, 0xea, 0x00, 0x00, 0x01,
    0x02, 0x24, 0x00, 0x00, 0x09, 0x02, 0x00, 0x00, 0x00, 0x61, 0x25, 0x00, 0x00, 0x09, 0x02, 0x00,
    0x00, 0x00, 0x62, 0x27, 0x00, 0x00, 0x06, 0x04, 0x05, 0x28, 0x00, 0x00, 0x09, 0x02, 0x00, 0x00,
    0x00, 0x09, 0x29, 0x00, 0x00, 0x14, 0x00, 0x01, 0x02, 0x03, 0x04, 0x05, 0x06, 0x07, 0x08, 0x09,
    0x0a, 0x0b, 0x0c, 0x0d, 0x0e, 0x0f, 0x2a, 0x00, 0x00, 0x0d, 0x03, 0x04, 0x40, 0x06, 0x00, 0x00,
    0x10, 0x00, 0xaa, 0x2c, 0x00, 0x00, 0x10, 0x03, 0x04, 0x00, 0x02, 0x00, 0x00, 0x10, 0x00, 0x00,
    0x00, 0x10, 0x01, 0x2d, 0x00, 0x00, 0x18, 0x01, 0x00, 0x00, 0x00, 0x07, 0x06, 0x00, 0x10, 0x01,
    0xbb, 0x01, 0xbc, 0x0a, 0x00, 0x00, 0x00, 0x0a, 0x00, 0x00, 0xff, 0xc8, 0x00, 0x00, 0x28, 0x02,
    0x00, 0x00, 0x00, 0x07, 0x06, 0x00, 0x10, 0x01, 0xbb, 0x01, 0xbc, 0x0a, 0x00, 0x00, 0x00, 0x0a,
    0x00, 0x00, 0xff, 0x07, 0x06, 0x00, 0x10, 0x01, 0xbb, 0x01, 0xbc, 0x0a, 0x00, 0x00, 0x00, 0x0a,
    0x00, 0x00, 0xff, 0x31, 0x80, 0x00, 0x05, 0xaa, 0x2e, 0x00, 0x00, 0x04, 0x23, 0x00, 0x00, 0x07,
    0x01, 0x02, 0x03,
];

const EVERY_TYPE_FREE: [u8; 259] = [
    0x01, 0x02, 0x03, 0x04, 0x05, 0x06, 0x07, 0x08, 0x00, 0x00, 0x00, 0x00, 0x00, 0x00, 0x00, 0x09,
    0x21, 0x21, 0x24, 0xef, 0x00, 0x00, 0x00, 0x07, 0x00, 0x00, 0x01, 0x03, 0x22, 0xff, 0x00, 0x3b,
    0x02, 0xff, 0x00, 0x27, 0x01, 0x03, 0x04, 0x02, 0x00, 0x00, 0x01, 0x00, 0x03, 0xfe, 0x00, 0x0c,
    0x01, 0xfd, 0x00, 0x0b, 0x80, 0x0e, 0x00, 0x80, 0x00, 0xfe, 0x00, 0x0f, 0x05, 0xfd, 0x00, 0x00,
    0x00, 0x0f, 0x00, 0x03, 0x07, 0x08, 0x09, 0x00, 0xff, 0x00, 0x10, 0x02, 0x01, 0x00, 0x01, 0x00,
    0xfe, 0x00, 0x08, 0x02, 0xfd, 0x00, 0x05, 0x23, 0xff, 0x00, 0x0a, 0xfd, 0xea, 0x01, 0x02, 0x01,
    0x02, 0x24, 0xff, 0x00, 0x09, 0x02, 0x01, 0x02, 0x03, 0x61, 0x25, 0xff, 0x00, 0x09, 0x02, 0x01,
    0x02, 0x03, 0x62, 0x27, 0xff, 0x00, 0x06, 0x04, 0x05, 0x28, 0xff, 0x00, 0x09, 0x02, 0x01, 0x02,
    0x03, 0x09, 0x29, 0xff, 0x00, 0x14, 0x00, 0x01, 0x02, 0x03, 0x04, 0x05, 0x06, 0x07, 0x08, 0x09,
    0x0a, 0x0b, 0x0c, 0x0d, 0x0e, 0x0f, 0x2a, 0xff, 0x00, 0x0d, 0x03, 0x04, 0x40, 0x06, 0x00, 0x00,
    0x10, 0x00, 0xaa, 0x2c, 0xff, 0x00, 0x10, 0x03, 0x04, 0x00, 0x02, 0x00, 0x00, 0x10, 0x00, 0x00,
    0x00, 0x10, 0x01, 0x2d, 0xff, 0x00, 0x18, 0x01, 0x01, 0x02, 0x03, 0x07, 0x06, 0x00, 0x10, 0x01,
    0xbb, 0x01, 0xbc, 0x0a, 0x00, 0x00, 0x00, 0x0a, 0x00, 0x00, 0xff, 0xc8, 0xff, 0x00, 0x28, 0x02,
    0x01, 0x02, 0x03, 0x07, 0x06, 0x00, 0x10, 0x01, 0xbb, 0x01, 0xbc, 0x0a, 0x00, 0x00, 0x00, 0x0a,
    0x00, 0x00, 0xff, 0x07, 0x06, 0x00, 0x10, 0x01, 0xbb, 0x01, 0xbc, 0x0a, 0x00, 0x00, 0x00, 0x0a,
    0x00, 0x00, 0xff, 0x31, 0xff, 0x00, 0x05, 0xaa, 0x2e, 0x7f, 0x00, 0x04, 0x23, 0xff, 0x00, 0x07,
    0x01, 0x02, 0x03,
];

/// The number of a refusal and its offset, 0 for none.
type Refusal = (u8, Option<usize>);

fn refusal<T: Drop>(answer: Result<T, WireFault>) -> Refusal {
    match answer {
        Ok(_) => (0, None),
        Err(fault) => (fault.code(), fault.offset()),
    }
}

/// What is said of a body with the header of a payload of this type, behind an empty vendor ID of four
/// octets.
fn refusal_of_body(rt: &impl Abort, alloc: Global, kind: u8, body: &[u8]) -> Refusal {
    let length = body.len() + 4;
    let mut octets = granted(rt, [kind, 0, 0, 4, 0, 0].to_vec(alloc));
    granted(
        rt,
        octets.extend_from_slice(&[(length / 256 % 256) as u8, (length % 256) as u8]),
    );
    granted(rt, octets.extend_from_slice(body));
    refusal(decode_chain(alloc, VENDOR_ID_TYPE, &octets))
}

fn set(octets: &mut [u8], place: usize, value: u8) {
    if let Some(octet) = octets.get_mut(place) {
        *octet = value;
    }
}

fn header() -> Header {
    Header {
        spi_i: 0x0102030405060708,
        spi_r: 9,
        minor: 1,
        exchange: 36,
        flags: Flags {
            initiator: true,
            version: false,
            response: true,
        },
        id: 7,
    }
}

/// A header alone, which names this payload as the first and has this version.
fn header_alone(first: u8, version: u8) -> [u8; 28] {
    let mut octets = [0u8; 28];
    octets[16] = first;
    octets[17] = version;
    octets[27] = 28;
    octets
}

#[test]
fn datagrams(rt: HostRuntime) {
    let alloc = rt.alloc();
    let long = granted(&rt, vec![in alloc; 0u8; 3001]);
    let rows: [(&[u8], Refusal); 6] = [
        (&COOKIE_ANSWER[..27], (1, None)),
        (&COOKIE_ANSWER[..28], (2, None)),
        (&long, (9, None)),
        (&header_alone(0, 0x20), (0, None)),
        (&header_alone(33, 0x20), (4, Some(28))),
        (&header_alone(33, 0x30), (3, None)),
    ];
    for (octets, wanted) in rows {
        same(&rt, refusal(decode_message(alloc, octets)), wanted);
    }
}

#[test]
fn a_message_without_payloads(rt: HostRuntime) {
    let read = decode_message(rt.alloc(), &header_alone(0, 0x20)).expect(&rt, "a message");
    holds(&rt, read.payloads.is_empty());
}

#[test]
fn chains(rt: HostRuntime) {
    let selectors = [
        0, 0, 0, 24, 1, 0, 0, 0, 7, 0, 0, 16, 0, 0, 255, 255, 10, 0, 0, 255, 10, 0, 0, 0,
    ];
    let nonce = [
        0, 0, 0, 19, 1, 2, 3, 4, 5, 6, 7, 8, 9, 10, 11, 12, 13, 14, 15,
    ];
    let rows: [(u8, &[u8], Refusal); 10] = [
        (44, &selectors, (6, Some(0))),
        (42, &DELETION, (0, None)),
        (42, &[0, 0, 0, 12, 3, 4, 0, 2, 0, 0, 16, 0], (8, Some(0))),
        (40, &nonce, (7, Some(0))),
        (200, &[0, 0x80, 0, 6, 0xaa], (4, Some(0))),
        (200, &UNKNOWN, (0, None)),
        (46, &[0, 0, 0, 4], (4, Some(0))),
        (43, &[0, 0, 0, 4, 9], (4, Some(4))),
        (0, &[9], (4, Some(0))),
        (0, &[], (0, None)),
    ];
    for (first, octets, wanted) in rows {
        same_at(
            &rt,
            first,
            refusal(decode_chain(rt.alloc(), first, octets)),
            wanted,
        );
    }
}

const DELETION: [u8; 12] = [0, 0, 0, 12, 3, 4, 0, 1, 0, 0, 16, 0];

#[test]
fn a_deletion_is_read(rt: HostRuntime) {
    let read = decode_chain(rt.alloc(), 42, &DELETION).expect(&rt, "payloads");
    let [Payload::Delete { protocol, spis }] = read.as_slice() else {
        panic!(rt; "another payload is read");
    };
    same(&rt, *protocol, 3);
    same(&rt, spis.as_slice(), [0x1000].as_slice());
}

const UNKNOWN: [u8; 5] = [0, 0x80, 0, 5, 0xaa];

#[test]
fn an_unknown_payload_is_read(rt: HostRuntime) {
    let read = decode_chain(rt.alloc(), 200, &UNKNOWN).expect(&rt, "payloads");
    let [
        Payload::Unknown {
            kind,
            critical,
            data,
        },
    ] = read.as_slice()
    else {
        panic!(rt; "another payload is read");
    };
    same(&rt, (*kind, *critical), (200, true));
    same(&rt, data.as_slice(), [0xaa].as_slice());
}

/// How octets are read: as a chain that begins with this type, as the body of a payload of this type,
/// or as a datagram.
#[derive(Clone, Copy)]
enum Reading {
    Chain(u8),
    Body(u8),
    Datagram,
}

fn refusal_of_reading(rt: &impl Abort, alloc: Global, reading: Reading, octets: &[u8]) -> Refusal {
    match reading {
        Reading::Chain(first) => refusal(decode_chain(alloc, first, octets)),
        Reading::Body(kind) => refusal_of_body(rt, alloc, kind, octets),
        Reading::Datagram => refusal(decode_message(alloc, octets)),
    }
}

/// A place, the octet that comes to stand there, and what is said then.
type Change = (usize, u8, u8, Option<usize>);

/// The first change after which the octets are refused otherwise than it says.
fn first_change_differing(
    rt: &impl Abort,
    alloc: Global,
    reading: Reading,
    octets: &[u8],
    changes: &[Change],
) -> Option<usize> {
    for (index, (place, value, code, offset)) in changes.iter().enumerate() {
        let mut changed = granted(rt, octets.to_vec(alloc));
        set(changed.as_mut_slice(), *place, *value);
        if refusal_of_reading(rt, alloc, reading, changed.as_slice()) != (*code, *offset) {
            return Some(index);
        }
    }
    None
}

const PROPOSALS: [Change; 24] = [
    // the number of a lone proposal, which is any but 0
    (8, 1, 0, None),
    (8, 2, 0, None),
    (8, 255, 0, None),
    (8, 0, 5, Some(0)),
    // marks, counts, lengths and the type of the second octets
    (4, 2, 5, Some(0)),
    (4, 3, 5, Some(0)),
    (7, 35, 5, Some(0)),
    (7, 37, 5, Some(0)),
    (11, 2, 5, Some(0)),
    (11, 4, 5, Some(0)),
    (16, 0, 5, Some(0)),
    (16, 2, 5, Some(0)),
    (24, 0, 5, Some(0)),
    (32, 3, 5, Some(0)),
    (35, 9, 5, Some(0)),
    (10, 5, 5, Some(0)),
    // reserved octets
    (1, 0xff, 0, None),
    (5, 0xff, 0, None),
    (17, 0xff, 0, None),
    (21, 0xff, 0, None),
    (25, 0xff, 0, None),
    (29, 0xff, 0, None),
    (33, 0xff, 0, None),
    (37, 0xff, 0, None),
];

#[test]
fn proposals(rt: HostRuntime) {
    let alloc = rt.alloc();
    let place = first_change_differing(&rt, alloc, Reading::Chain(33), &ESP_PROPOSAL, &PROPOSALS);
    none_differs(&rt, place);
}

// The payload that the header names behind it is missing, and a number 0 behind a vendor ID of no octets.
#[test]
fn proposals_among_other_payloads(rt: HostRuntime) {
    let alloc = rt.alloc();
    same(
        &rt,
        refusal(decode_chain(alloc, 33, &IKE_PROPOSAL)),
        (4, Some(44)),
    );
    let mut behind = granted(&rt, [33, 0, 0, 4].to_vec(alloc));
    let mut proposal = ESP_PROPOSAL;
    proposal[8] = 0;
    granted(&rt, behind.extend_from_slice(&proposal));
    same(&rt, refusal(decode_chain(alloc, 43, &behind)), (5, Some(4)));
}

#[test]
fn a_proposal_is_read(rt: HostRuntime) {
    let read = decode_chain(rt.alloc(), 33, &ESP_PROPOSAL).expect(&rt, "payloads");
    let [Payload::Sa(proposals)] = read.as_slice() else {
        panic!(rt; "another payload is read");
    };
    let [proposal] = proposals.as_slice() else {
        panic!(rt; "more proposals are read");
    };
    same(&rt, proposal.spi.as_slice(), [0, 0, 1, 0].as_slice());
    same(&rt, proposal.transforms.len(), 3);
}

/// Whether a message is read and written again as it was, behind octets that stay.
fn goes_round(rt: &impl Abort, alloc: Global, octets: &[u8]) -> bool {
    let read = decode_message(alloc, octets).expect(rt, "a message");
    let mut out = granted(rt, [1, 2].to_vec(alloc));
    encode_message(&read, &mut out).expect(rt, "a spelling");
    out.as_slice().strip_prefix(&[1, 2]) == Some(octets)
}

#[test]
fn exact_pieces(rt: HostRuntime) {
    let rows: [&[u8]; 3] = [&COOKIE_ANSWER, &SEALED_REQUEST, &EVERY_TYPE];
    for octets in rows {
        holds_at(&rt, octets, goes_round(&rt, rt.alloc(), octets));
    }
}

#[test]
fn sizes_of_every_type(rt: HostRuntime) {
    let read = decode_message(rt.alloc(), &EVERY_TYPE).expect(&rt, "a message");
    same(&rt, read.header, header());
    same(&rt, read.payloads.len(), 14);
    let mut length = HEADER_LENGTH;
    for payload in read.payloads.as_slice() {
        length = length.saturating_add(payload.size());
    }
    same(&rt, length, EVERY_TYPE.len());
}

#[test]
fn reserved_octets_are_passed_over(rt: HostRuntime) {
    let plain = decode_message(rt.alloc(), &EVERY_TYPE).expect(&rt, "a message");
    let free = decode_message(rt.alloc(), &EVERY_TYPE_FREE).expect(&rt, "a message");
    holds(&rt, plain == free);
    holds(&rt, granted(&rt, plain.clone()) == free);
}

// A length octet that is wrong, of the payload at each offset.
const LENGTHS: [Change; 12] = [
    (32, 3, 5, Some(28)),
    (170, 3, 8, Some(163)),
    (187, 8, 6, Some(179)),
    (207, 3, 6, Some(203)),
    (155, 6, 8, Some(150)),
    (133, 19, 7, Some(130)),
    (255, 6, 4, Some(252)),
    (255, 8, 4, Some(252)),
    (100, 3, 4, Some(97)),
    (90, 8, 8, Some(87)),
    // the length of a long attribute: past its transform, and short of its end
    (67, 4, 5, Some(28)),
    (67, 2, 5, Some(28)),
];

#[test]
fn offsets(rt: HostRuntime) {
    let place = first_change_differing(&rt, rt.alloc(), Reading::Datagram, &EVERY_TYPE, &LENGTHS);
    none_differs(&rt, place);
}

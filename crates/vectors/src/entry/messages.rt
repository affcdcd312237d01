//! Messages and payloads of IKEv2, read and refused (RFC 7296, section 3).
use base::{Range, Selector};
use std::alloc::{AllocError, Global};
use wire::{
    Flags, Message, Payload, Proposal, Transform, WireFault, decode_chain, decode_message,
    encode_message,
};

// A header of an IKE_SA_INIT request without payloads.
const EMPTY: [u8; 28] = [
    1, 2, 3, 4, 5, 6, 7, 8, 0, 0, 0, 0, 0, 0, 0, 0, 0, 0x20, 0x22, 8, 0, 0, 0, 0, 0, 0, 0, 28,
];

// An SA payload that offers SPI 256 of ESP without ESN.
const ESP_OFFER: [u8; 40] = [
    0, 0, 0, 0x28, 0, 0, 0, 0x24, 1, 3, 4, 3, 0, 0, 1, 0, 3, 0, 0, 8, 1, 0, 0, 11, 3, 0, 0, 8, 3,
    0, 0, 12, 0, 0, 0, 8, 5, 0, 0, 0,
];

// The SA payload of IKE_SA_INIT in scripts, and a key exchange behind it.
const IKE_OFFER: [u8; 53] = [
    0x22, 0, 0, 0x2c, 0, 0, 0, 0x28, 1, 1, 0, 4, 3, 0, 0, 8, 1, 0, 0xfd, 0xe9, 3, 0, 0, 8, 2, 0, 0,
    5, 3, 0, 0, 8, 3, 0, 0, 12, 0, 0, 0, 8, 4, 0, 0xfd, 0xea, 0, 0, 0, 9, 0xfd, 0xea, 0, 0, 7,
];

// An answer of IKE_SA_INIT that asks for the cookie aabb.
const COOKIE: [u8; 38] = [
    1, 2, 3, 4, 5, 6, 7, 8, 0, 0, 0, 0, 0, 0, 0, 0, 0x29, 0x20, 0x22, 0x20, 0, 0, 0, 0, 0, 0, 0,
    38, 0, 0, 0, 10, 0, 0, 0x40, 6, 0xaa, 0xbb,
];

// The headers of an empty INFORMATIONAL request of number 2, whose body has 17 octets.
const SEALED: [u8; 32] = [
    0, 0, 0, 0, 0, 0, 0, 1, 0, 0, 0, 0, 0, 0, 0, 2, 0x2e, 0x20, 0x25, 8, 0, 0, 0, 2, 0, 0, 0, 0x31,
    0, 0, 0, 0x15,
];

// A payload of selectors: one of IPv6, for all protocols and ports between two addresses.
const SELECTORS_V6: [u8; 48] = [
    0, 0, 0, 48, 1, 0, 0, 0, 8, 0, 0, 40, 0, 0, 0xff, 0xff, 0x20, 1, 0x0d, 0xb8, 0, 0, 0, 0, 0, 0,
    0, 0, 0, 0, 0x0a, 0, 0x20, 1, 0x0d, 0xb8, 0, 0, 0, 0, 0, 0, 0, 0, 0, 0, 0x0a, 0xff,
];

pub fn holds(alloc: Global, row: usize) -> Result<bool, AllocError> {
    match row {
        0 => is_refused(alloc, &EMPTY[..27], WireFault::Short),
        1 => is_refused(alloc, &with_octet(27, 29), WireFault::BadLength),
        2 => is_refused(alloc, &vec![in alloc; 0; 3001]?, WireFault::TooLong),
        3 => is_empty(alloc),
        4 => has_number(alloc, 2),
        5 => is_refused_chain(
            alloc,
            33,
            &numbered(0),
            WireFault::BadProposal { offset: 0 },
        ),
        // The chain names an SA payload, and no octet is left.
        6 => is_refused(
            alloc,
            &with_octet(16, 33),
            WireFault::BadChain { offset: 28 },
        ),
        7 => is_refused(alloc, &with_octet(17, 0x30), WireFault::BadVersion),
        8..=13 => holds_chain(alloc, row),
        14 => is_unknown(alloc),
        15 => is_esp_offer(alloc),
        16 => is_ike_offer(alloc),
        17 => asks_for_cookie(alloc),
        18 => is_sealed(alloc),
        19 => is_selector_v6(alloc),
        _ => Ok(false),
    }
}

// Payloads that are read alone, and faults of theirs.
fn holds_chain(alloc: Global, row: usize) -> Result<bool, AllocError> {
    match row {
        // A selector whose start is above its end.
        8 => {
            let octets = [
                0, 0, 0, 24, 1, 0, 0, 0, 7, 0, 0, 16, 0, 0, 0xff, 0xff, 10, 0, 0, 0xff, 10, 0, 0, 0,
            ];
            is_refused_chain(alloc, 44, &octets, WireFault::BadSelector { offset: 0 })
        }
        9 => deletes_one(alloc),
        // Two SPIs are told, and one is there.
        10 => {
            let octets = [0, 0, 0, 12, 3, 4, 0, 2, 0, 0, 0x10, 0];
            is_refused_chain(alloc, 42, &octets, WireFault::BadField { offset: 0 })
        }
        11 => {
            let mut octets = [0; 19];
            octets[3] = 19;
            is_refused_chain(alloc, 40, &octets, WireFault::BadNonce { offset: 0 })
        }
        12 => is_refused_chain(
            alloc,
            200,
            &[0, 0x80, 0, 6, 0xaa],
            WireFault::BadChain { offset: 0 },
        ),
        // An encrypted payload inside of one.
        _ => is_refused_chain(alloc, 46, &[0, 0, 0, 4], WireFault::BadChain { offset: 0 }),
    }
}

// [`EMPTY`] with another octet at a place.
fn with_octet(place: usize, octet: u8) -> [u8; 28] {
    let mut octets = EMPTY;
    if let Some(found) = octets.get_mut(place) {
        *found = octet;
    }
    octets
}

// [`ESP_OFFER`] with another number of its proposal.
fn numbered(number: u8) -> [u8; 40] {
    let mut octets = ESP_OFFER;
    octets[8] = number;
    octets
}

// What was read, or why not; allocation failures apart.
fn read<T>(read: Result<T, WireFault>) -> Result<Result<T, WireFault>, AllocError> {
    match read {
        Err(WireFault::Memory) => Err(AllocError),
        read => Ok(read),
    }
}

fn is_refused(alloc: Global, octets: &[u8], wanted: WireFault) -> Result<bool, AllocError> {
    match read(decode_message(alloc, octets))? {
        Ok(_) => Ok(false),
        Err(fault) => Ok(fault == wanted),
    }
}

fn is_refused_chain(
    alloc: Global,
    first: u8,
    octets: &[u8],
    wanted: WireFault,
) -> Result<bool, AllocError> {
    match read(decode_chain(alloc, first, octets))? {
        Ok(_) => Ok(false),
        Err(fault) => Ok(fault == wanted),
    }
}

// Reads a message, and writes it again: the same octets.
fn message(alloc: Global, octets: &[u8]) -> Result<Option<Message>, AllocError> {
    let Ok(message) = read(decode_message(alloc, octets))? else {
        return Ok(None);
    };
    let mut written = Vec::new(alloc);
    if read(encode_message(&message, &mut written))?.is_err() || written.as_slice() != octets {
        return Ok(None);
    }
    Ok(Some(message))
}

fn is_empty(alloc: Global) -> Result<bool, AllocError> {
    match message(alloc, &EMPTY)? {
        Some(message) => Ok(
            message.payloads.as_slice().is_empty() && message.header.exchange == 34,
        ),
        None => Ok(false),
    }
}

// The only proposal of a chain that begins with an SA payload.
fn only_proposal(payloads: &[Payload]) -> Option<&Proposal> {
    match payloads.first() {
        Some(Payload::Sa(proposals)) => match proposals.as_slice() {
            [proposal] => Some(proposal),
            _ => None,
        },
        _ => None,
    }
}

// Whether a transform is this one, without attributes.
fn is_transform(transform: &Transform, kind: u8, id: u16) -> bool {
    transform.kind == kind && transform.id == id && transform.attributes.as_slice().is_empty()
}

fn has_number(alloc: Global, number: u8) -> Result<bool, AllocError> {
    let Ok(payloads) = read(decode_chain(alloc, 33, &numbered(number)))? else {
        return Ok(false);
    };
    match only_proposal(payloads.as_slice()) {
        Some(proposal) => Ok(proposal.number == number),
        None => Ok(false),
    }
}

fn is_esp_offer(alloc: Global) -> Result<bool, AllocError> {
    let Ok(payloads) = read(decode_chain(alloc, 33, &ESP_OFFER))? else {
        return Ok(false);
    };
    let Some(proposal) = only_proposal(payloads.as_slice()) else {
        return Ok(false);
    };
    let [cipher, check, numbers] = proposal.transforms.as_slice() else {
        return Ok(false);
    };
    Ok(
        proposal.protocol == 3
            && proposal.spi.as_slice() == [0, 0, 1, 0].as_slice()
            && is_transform(cipher, 1, 11)
            && is_transform(check, 3, 12)
            && is_transform(numbers, 5, 0),
    )
}

fn is_ike_offer(alloc: Global) -> Result<bool, AllocError> {
    let Ok(payloads) = read(decode_chain(alloc, 33, &IKE_OFFER))? else {
        return Ok(false);
    };
    let Some(proposal) = only_proposal(payloads.as_slice()) else {
        return Ok(false);
    };
    let [cipher, prf, check, group] = proposal.transforms.as_slice() else {
        return Ok(false);
    };
    Ok(
        proposal.protocol == 1
            && proposal.spi.as_slice().is_empty()
            && is_transform(cipher, 1, 65_001)
            && is_transform(prf, 2, 5)
            && is_transform(check, 3, 12)
            && is_transform(group, 4, 65_002),
    )
}

fn asks_for_cookie(alloc: Global) -> Result<bool, AllocError> {
    let Some(message) = message(alloc, &COOKIE)? else {
        return Ok(false);
    };
    match message.payloads.as_slice() {
        [
            Payload::Notify {
                protocol: 0,
                spi,
                kind: 16_390,
                data,
            },
        ] => Ok(
            spi.as_slice().is_empty()
                && data.as_slice() == [0xaa, 0xbb].as_slice()
                && message.header.flags.response,
        ),
        _ => Ok(false),
    }
}

fn is_sealed(alloc: Global) -> Result<bool, AllocError> {
    let mut octets = [7; 49];
    octets[..32].copy_from_slice(&SEALED);
    let Some(message) = message(alloc, &octets)? else {
        return Ok(false);
    };
    let flags = Flags {
        initiator: true,
        version: false,
        response: false,
    };
    match message.payloads.as_slice() {
        [Payload::Sealed { first: 0, body }] => Ok(
            body.as_slice() == [7; 17].as_slice()
                && message.header.flags == flags
                && message.header.id == 2,
        ),
        _ => Ok(false),
    }
}

fn deletes_one(alloc: Global) -> Result<bool, AllocError> {
    let octets = [0, 0, 0, 12, 3, 4, 0, 1, 0, 0, 0x10, 0];
    let Ok(payloads) = read(decode_chain(alloc, 42, &octets))? else {
        return Ok(false);
    };
    match payloads.as_slice() {
        [Payload::Delete { protocol: 3, spis }] => Ok(spis.as_slice() == [4096].as_slice()),
        _ => Ok(false),
    }
}

// A payload of type 200, critical, with one octet.
fn is_unknown(alloc: Global) -> Result<bool, AllocError> {
    let Ok(payloads) = read(decode_chain(alloc, 200, &[0, 0x80, 0, 5, 0xaa]))? else {
        return Ok(false);
    };
    match payloads.as_slice() {
        [
            Payload::Unknown {
                kind: 200,
                critical: true,
                data,
            },
        ] => Ok(data.as_slice() == [0xaa].as_slice()),
        _ => Ok(false),
    }
}

fn is_selector_v6(alloc: Global) -> Result<bool, AllocError> {
    let Ok(payloads) = read(decode_chain(alloc, 44, &SELECTORS_V6))? else {
        return Ok(false);
    };
    let start: u128 = 0x2001_0db8_0000_0000_0000_0000_0000_0a00;
    let wanted = Selector {
        protocol: 0,
        start_port: 0,
        end_port: 65535,
        addresses: Range::V6(start, start + 0xff),
    };
    match payloads.as_slice() {
        [Payload::TsI(selectors)] => Ok(selectors.as_slice() == [wanted].as_slice()),
        _ => Ok(false),
    }
}

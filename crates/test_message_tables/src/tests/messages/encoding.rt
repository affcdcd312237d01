//! What is encoded, and what has no spelling.
use super::*;
use crate::tests::asserts::{granted, same};

fn octets(rt: &impl Abort, alloc: Global, value: u8, count: usize) -> Items<u8> {
    Items::from_vec(granted(rt, vec![in alloc; value; count]))
}

fn message(rt: &impl Abort, alloc: Global, payload: Payload) -> Message {
    let mut payloads = Items::new(alloc);
    granted(rt, payloads.push(payload));
    Message {
        header: header(),
        payloads,
    }
}

/// Why the payload alone is not encoded, or not read again as it was.
fn trip(rt: &impl Abort, alloc: Global, payload: Payload) -> Refusal {
    trip_of(rt, alloc, &message(rt, alloc, payload))
}

/// Why the message is not encoded, or not read again as it was.
fn trip_of(rt: &impl Abort, alloc: Global, message: &Message) -> Refusal {
    let mut out = Vec::new(alloc);
    if let Err(fault) = encode_message(message, &mut out) {
        return (fault.code(), fault.offset());
    }
    match decode_message(alloc, &out) {
        Ok(read) if read == *message => (0, None),
        Ok(_) => panic!(rt; "another message is read"),
        Err(fault) => (fault.code(), fault.offset()),
    }
}

/// A type of payload with octets of any number.
#[derive(Clone, Copy)]
enum Kind {
    Ke,
    Auth,
    IdI,
    IdR,
    Nonce,
    Sealed,
    VendorId,
    Unknown,
}

/// A payload, as a table names it.
#[derive(Clone, Copy)]
enum Sample {
    /// So many octets.
    Octets(Kind, usize),
    /// So many selectors.
    TsI(usize),
    TsR(usize),
    /// An unknown one of this type.
    Unknown(u8),
    /// A notice about an SPI of so many octets, with so many octets of data.
    Notify(usize, usize),
    /// A deletion of so many SPIs of a protocol.
    Deletion(u8, usize),
    /// A proposal with an SPI of so many octets and so many transforms.
    Proposal(usize, usize),
    /// A proposal whose transform has an attribute of this type, in the short form, or in the long one
    /// with so many octets.
    Short(u16),
    Long(u16, usize),
    /// Two proposals of these numbers.
    Numbered(u8, u8),
    /// No proposal.
    Empty,
}

fn with_octets(kind: Kind, data: Items<u8>) -> Payload {
    match kind {
        Kind::Ke => Payload::Ke { group: 14, data },
        Kind::Auth => Payload::Auth { method: 2, data },
        Kind::IdI => Payload::IdI { kind: 1, data },
        Kind::IdR => Payload::IdR { kind: 1, data },
        Kind::Nonce => Payload::Nonce(data),
        Kind::Sealed => Payload::Sealed {
            first: 35,
            body: data,
        },
        Kind::VendorId => Payload::Skipped {
            kind: SkippedKind::VendorId,
            data,
        },
        Kind::Unknown => Payload::Unknown {
            kind: 200,
            critical: true,
            data,
        },
    }
}

/// A selector of every protocol and all ports, of one address.
const SELECTOR: Selector = Selector {
    protocol: 0,
    start_port: 0,
    end_port: 65535,
    addresses: Range::V4(1, 1),
};

fn selectors(rt: &impl Abort, alloc: Global, count: usize) -> Items<Selector> {
    Items::from_vec(granted(rt, vec![in alloc; SELECTOR; count]))
}

fn deletion(rt: &impl Abort, alloc: Global, protocol: u8, count: usize) -> Payload {
    let spis = Items::from_vec(granted(rt, vec![in alloc; 256u32; count]));
    Payload::Delete { protocol, spis }
}

fn payload(rt: &impl Abort, alloc: Global, sample: Sample) -> Payload {
    match sample {
        Sample::Octets(kind, count) => with_octets(kind, octets(rt, alloc, 5, count)),
        Sample::TsI(count) => Payload::TsI(selectors(rt, alloc, count)),
        Sample::TsR(count) => Payload::TsR(selectors(rt, alloc, count)),
        Sample::Unknown(kind) => Payload::Unknown {
            kind,
            critical: true,
            data: octets(rt, alloc, 5, 3),
        },
        Sample::Notify(size, count) => Payload::Notify {
            protocol: 0,
            spi: octets(rt, alloc, 5, size),
            kind: 1,
            data: octets(rt, alloc, 5, count),
        },
        Sample::Deletion(protocol, count) => deletion(rt, alloc, protocol, count),
        _ => association(rt, alloc, sample),
    }
}

fn association(rt: &impl Abort, alloc: Global, sample: Sample) -> Payload {
    match sample {
        Sample::Proposal(size, count) => {
            alone(
                rt,
                alloc,
                proposal(rt, alloc, 1, size, transforms(rt, alloc, count)),
            )
        }
        Sample::Short(kind) => {
            let attribute = Attribute::Short { kind, value: 128 };
            alone(rt, alloc, attributed(rt, alloc, attribute))
        }
        Sample::Long(kind, count) => {
            let value = octets(rt, alloc, 5, count);
            alone(
                rt,
                alloc,
                attributed(rt, alloc, Attribute::Long { kind, value }),
            )
        }
        Sample::Numbered(one, other) => numbered(rt, alloc, &[one, other]),
        _ => numbered(rt, alloc, &[]),
    }
}

/// A security association of this proposal.
fn alone(rt: &impl Abort, alloc: Global, proposal: Proposal) -> Payload {
    let mut proposals = Items::new(alloc);
    granted(rt, proposals.push(proposal));
    Payload::Sa(proposals)
}

/// A security association of proposals with these numbers.
fn numbered(rt: &impl Abort, alloc: Global, numbers: &[u8]) -> Payload {
    let mut proposals = Items::new(alloc);
    for number in numbers {
        let proposal = proposal(rt, alloc, *number, 4, transforms(rt, alloc, 20));
        granted(rt, proposals.push(proposal));
    }
    Payload::Sa(proposals)
}

/// A proposal of this number, with an SPI of so many octets.
fn proposal(
    rt: &impl Abort,
    alloc: Global,
    number: u8,
    size: usize,
    transforms: Items<Transform>,
) -> Proposal {
    let spi = octets(rt, alloc, 5, size);
    Proposal {
        number,
        protocol: 3,
        spi,
        transforms,
    }
}

fn transforms(rt: &impl Abort, alloc: Global, count: usize) -> Items<Transform> {
    let mut transforms = Items::new(alloc);
    for _ in 0..count {
        granted(
            rt,
            transforms.push(Transform {
                kind: 1,
                id: 11,
                attributes: Items::new(alloc),
            }),
        );
    }
    transforms
}

/// A proposal with one transform, which has this attribute.
fn attributed(rt: &impl Abort, alloc: Global, attribute: Attribute) -> Proposal {
    let mut attributes = Items::new(alloc);
    granted(rt, attributes.push(attribute));
    let mut transforms = Items::new(alloc);
    granted(
        rt,
        transforms.push(Transform {
            kind: 1,
            id: 11,
            attributes,
        }),
    );
    proposal(rt, alloc, 1, 0, transforms)
}

/// A payload, and the number and the offset of its refusal.
type Row = (Sample, u8, Option<usize>);

/// The first row whose payload alone, encoded and read again, is refused otherwise than it says.
fn first_differing(rt: &impl Abort, alloc: Global, rows: &[Row]) -> Option<usize> {
    for (place, (sample, code, offset)) in rows.iter().enumerate() {
        if trip(rt, alloc, payload(rt, alloc, *sample)) != (*code, *offset) {
            return Some(place);
        }
    }
    None
}

// For each type the most that has too few, the least, the most, and the least that has too many.
const LIMITS: [Row; 26] = [
    (Sample::Octets(Kind::Ke, 0), 8, Some(28)),
    (Sample::Octets(Kind::Ke, 1), 0, None),
    (Sample::Octets(Kind::Ke, 1024), 0, None),
    (Sample::Octets(Kind::Ke, 1025), 8, Some(28)),
    (Sample::Octets(Kind::Auth, 0), 8, Some(28)),
    (Sample::Octets(Kind::Auth, 1), 0, None),
    (Sample::Octets(Kind::Auth, 1024), 0, None),
    (Sample::Octets(Kind::Auth, 1025), 8, Some(28)),
    (Sample::Octets(Kind::IdI, 0), 8, Some(28)),
    (Sample::Octets(Kind::IdI, 1), 0, None),
    (Sample::Octets(Kind::IdI, 256), 0, None),
    (Sample::Octets(Kind::IdI, 257), 8, Some(28)),
    (Sample::Octets(Kind::IdR, 0), 8, Some(28)),
    (Sample::Octets(Kind::IdR, 1), 0, None),
    (Sample::Octets(Kind::IdR, 256), 0, None),
    (Sample::Octets(Kind::IdR, 257), 8, Some(28)),
    (Sample::Octets(Kind::Nonce, 15), 7, Some(28)),
    (Sample::Octets(Kind::Nonce, 16), 0, None),
    (Sample::Octets(Kind::Nonce, 256), 0, None),
    (Sample::Octets(Kind::Nonce, 257), 7, Some(28)),
    (Sample::TsR(0), 6, Some(28)),
    (Sample::TsR(1), 0, None),
    (Sample::TsR(16), 0, None),
    (Sample::TsR(17), 6, Some(28)),
    // the longest message: a header of 28 octets, one of the payload of 4, and the body
    (Sample::Octets(Kind::Sealed, 2968), 0, None),
    (Sample::Octets(Kind::Sealed, 2969), 9, None),
];

#[test]
fn limits(rt: HostRuntime) {
    none_differs(&rt, first_differing(&rt, rt.alloc(), &LIMITS));
}

const SPELLINGS: [Row; 16] = [
    // unknown payloads under the numbers of known ones
    (Sample::Unknown(0), 4, Some(28)),
    (Sample::Unknown(1), 0, None),
    (Sample::Unknown(32), 0, None),
    (Sample::Unknown(33), 4, Some(28)),
    (Sample::Unknown(46), 4, Some(28)),
    (Sample::Unknown(48), 4, Some(28)),
    (Sample::Unknown(49), 0, None),
    (Sample::Unknown(255), 0, None),
    // data and SPIs that are too long
    (Sample::Octets(Kind::VendorId, 65532), 4, Some(28)),
    (Sample::Notify(256, 0), 8, Some(28)),
    // deletions
    (Sample::Deletion(1, 0), 0, None),
    (Sample::Deletion(1, 1), 8, Some(28)),
    (Sample::Deletion(0, 0), 8, Some(28)),
    (Sample::Deletion(4, 1), 8, Some(28)),
    (Sample::Deletion(2, 1), 0, None),
    (Sample::Deletion(3, 0), 0, None),
];

#[test]
fn payloads_without_a_spelling(rt: HostRuntime) {
    none_differs(&rt, first_differing(&rt, rt.alloc(), &SPELLINGS));
}

const PROPOSALS: [Row; 14] = [
    // both counts have one octet
    (Sample::Proposal(0, 0), 5, Some(28)),
    (Sample::Proposal(0, 255), 0, None),
    (Sample::Proposal(0, 256), 5, Some(28)),
    (Sample::Proposal(255, 1), 0, None),
    (Sample::Proposal(256, 1), 5, Some(28)),
    // the type of an attribute has 15 bits
    (Sample::Short(0x7fff), 0, None),
    (Sample::Long(0x7fff, 3), 0, None),
    (Sample::Short(0x8000), 5, Some(28)),
    (Sample::Long(0x8000, 3), 5, Some(28)),
    // they are numbered from 1 on
    (Sample::Numbered(1, 2), 0, None),
    (Sample::Numbered(0, 1), 5, Some(28)),
    (Sample::Numbered(1, 1), 5, Some(28)),
    (Sample::Numbered(2, 3), 5, Some(28)),
    (Sample::Empty, 5, Some(28)),
];

#[test]
fn limits_and_numbers_of_proposals(rt: HostRuntime) {
    none_differs(&rt, first_differing(&rt, rt.alloc(), &PROPOSALS));
}

// A payload's length field has two octets and counts the payload's header of 4 (RFC 7296, section 3.2),
// so at most 65531 octets are behind it. For each form the most that has a spelling, where only the
// message is too long, and the least that has none.
const LONGEST: [Row; 13] = [
    (Sample::Octets(Kind::Sealed, 65531), 9, None),
    (Sample::Octets(Kind::Sealed, 65532), 4, Some(28)),
    (Sample::Octets(Kind::Unknown, 65531), 9, None),
    (Sample::Octets(Kind::Unknown, 65532), 4, Some(28)),
    (Sample::Octets(Kind::VendorId, 65531), 9, None),
    // 4 octets stand before a notice's SPI, and its data behind that (section 3.10)
    (Sample::Notify(0, 65527), 9, None),
    (Sample::Notify(0, 65528), 8, Some(28)),
    (Sample::Notify(255, 65272), 9, None),
    (Sample::Notify(255, 65273), 8, Some(28)),
    // 4 before a deletion's SPIs of 4 octets each (section 3.11): 65532 octets are its most, 65536 are
    // too many
    (Sample::Deletion(3, 16381), 9, None),
    (Sample::Deletion(3, 16382), 8, Some(28)),
    // 65536 octets of SPIs, and as many SPIs as their count can't say
    (Sample::Deletion(2, 16384), 8, Some(28)),
    (Sample::Deletion(3, 65536), 8, Some(28)),
];

#[test]
fn the_longest_payloads(rt: HostRuntime) {
    none_differs(&rt, first_differing(&rt, rt.alloc(), &LONGEST));
}

// A long attribute's length field counts its value alone (RFC 7296, section 3.3.5), before which 4
// octets stand. Those of the transform, the proposal and the payload count their headers too, of 8, 8
// and 4 octets (sections 3.3.2, 3.3.1 and 3.2).
const LONG_ATTRIBUTES: [Row; 8] = [
    // the most that fits everywhere: only the message is too long
    (Sample::Long(1, 65511), 9, None),
    // too long for the payload, at most as long as the proposal takes
    (Sample::Long(1, 65512), 5, Some(28)),
    (Sample::Long(1, 65515), 5, Some(28)),
    // too long for the proposal, at most as long as the transform takes
    (Sample::Long(1, 65516), 5, Some(28)),
    (Sample::Long(1, 65523), 5, Some(28)),
    // too long for the transform, at most as long as the attribute takes
    (Sample::Long(1, 65524), 5, Some(28)),
    (Sample::Long(1, 65535), 5, Some(28)),
    // too long for the attribute
    (Sample::Long(1, 65536), 5, Some(28)),
];

#[test]
fn the_longest_attributes(rt: HostRuntime) {
    none_differs(&rt, first_differing(&rt, rt.alloc(), &LONG_ATTRIBUTES));
}

// Messages of 3000 octets, and the next longer ones. A message's header has 28, a payload's 4.
const FULL: [Row; 10] = [
    (Sample::Octets(Kind::VendorId, 2968), 0, None),
    (Sample::Octets(Kind::VendorId, 2969), 9, None),
    // 4 octets stand before a notice's SPI, and its data behind that
    (Sample::Notify(0, 2964), 0, None),
    (Sample::Notify(255, 2709), 0, None),
    (Sample::Notify(0, 2965), 9, None),
    // 4 before a deletion's SPIs of 4 octets each
    (Sample::Deletion(3, 741), 0, None),
    (Sample::Deletion(3, 742), 9, None),
    // 20 before an attribute's value: of the proposal 8, of the transform 8, of the attribute 4
    (Sample::Long(1, 2948), 0, None),
    (Sample::Long(1, 2949), 9, None),
    (Sample::Octets(Kind::Unknown, 2968), 0, None),
];

#[test]
fn the_longest_messages(rt: HostRuntime) {
    none_differs(&rt, first_differing(&rt, rt.alloc(), &FULL));
}

/// Why a message of so many empty vendor IDs is not encoded and read.
fn refusal_of_payloads(rt: &impl Abort, alloc: Global, count: usize) -> Refusal {
    let mut payloads = Items::new(alloc);
    for _ in 0..count {
        let none = octets(rt, alloc, 0, 0);
        granted(rt, payloads.push(with_octets(Kind::VendorId, none)));
    }
    let message = Message {
        header: header(),
        payloads,
    };
    trip_of(rt, alloc, &message)
}

/// Why so many proposals, numbered from 1 on, are not encoded and read. Each has an SPI of 4 octets and a
/// transform.
fn refusal_of_proposals(rt: &impl Abort, alloc: Global, count: u8) -> Refusal {
    let mut proposals = Items::new(alloc);
    for before in 0..count {
        let number = before.wrapping_add(1);
        let proposal = proposal(rt, alloc, number, 4, transforms(rt, alloc, 1));
        granted(rt, proposals.push(proposal));
    }
    trip(rt, alloc, Payload::Sa(proposals))
}

/// Why a transform with so many attributes in the short form is not encoded and read.
fn refusal_of_attributes(rt: &impl Abort, alloc: Global, count: usize) -> Refusal {
    let mut attributes = Items::new(alloc);
    for _ in 0..count {
        let attribute = Attribute::Short {
            kind: 14,
            value: 128,
        };
        granted(rt, attributes.push(attribute));
    }
    let transform = Transform {
        kind: 1,
        id: 11,
        attributes,
    };
    let mut transforms = Items::new(alloc);
    granted(rt, transforms.push(transform));
    let proposal = proposal(rt, alloc, 1, 0, transforms);
    trip(rt, alloc, alone(rt, alloc, proposal))
}

// Of 3000 octets the message's header has 28, and the first payload's 4. An empty payload has 4, an
// attribute in the short form 4 behind 16 of its proposal and transform, and each of the proposals 20.
#[test]
fn the_most_of_each_list(rt: HostRuntime) {
    let alloc = rt.alloc();
    same(&rt, refusal_of_payloads(&rt, alloc, 743), (0, None));
    same(&rt, refusal_of_payloads(&rt, alloc, 744), (9, None));
    same(&rt, refusal_of_attributes(&rt, alloc, 738), (0, None));
    same(&rt, refusal_of_attributes(&rt, alloc, 739), (9, None));
    same(&rt, refusal_of_proposals(&rt, alloc, 148), (0, None));
    same(&rt, refusal_of_proposals(&rt, alloc, 149), (9, None));
}

/// Why a message is not encoded. What stood in the output has to stay.
fn refusal_of(rt: &impl Abort, alloc: Global, message: &Message) -> Refusal {
    let mut out = granted(rt, [1, 2].to_vec(alloc));
    let answer = refusal(encode_message(message, &mut out));
    same(rt, out.as_slice(), [1, 2].as_slice());
    answer
}

/// The payload behind a nonce of 20 octets with its header.
fn behind(rt: &impl Abort, alloc: Global, payload: Payload) -> Message {
    let nonce = octets(rt, alloc, 5, 16);
    let mut behind = message(rt, alloc, Payload::Nonce(nonce));
    granted(rt, behind.payloads.push(payload));
    behind
}

fn refusal_behind(rt: &impl Abort, alloc: Global, sample: Sample) -> Refusal {
    let message = behind(rt, alloc, payload(rt, alloc, sample));
    refusal_of(rt, alloc, &message)
}

fn first_differing_behind(rt: &impl Abort, alloc: Global, rows: &[Row]) -> Option<usize> {
    for (place, (sample, code, offset)) in rows.iter().enumerate() {
        if refusal_behind(rt, alloc, *sample) != (*code, *offset) {
            return Some(place);
        }
    }
    None
}

const BEHIND: [Row; 5] = [
    (Sample::Proposal(0, 256), 5, Some(48)),
    (Sample::TsI(0), 6, Some(48)),
    (Sample::Octets(Kind::Nonce, 257), 7, Some(48)),
    (Sample::Deletion(4, 0), 8, Some(48)),
    // 28, 20, and 2953 with its header: one octet too many
    (Sample::Octets(Kind::VendorId, 2949), 9, None),
];

#[test]
fn unspelled_behind_others(rt: HostRuntime) {
    none_differs(&rt, first_differing_behind(&rt, rt.alloc(), &BEHIND));
}

/// An encrypted payload that is not the last, behind 20 octets.
fn late(rt: &impl Abort, alloc: Global) -> Message {
    let mut late = message(rt, alloc, Payload::Nonce(octets(rt, alloc, 5, 16)));
    granted(
        rt,
        late.payloads.push(Payload::Sealed {
            first: 0,
            body: Items::new(alloc),
        }),
    );
    granted(
        rt,
        late.payloads.push(Payload::Nonce(octets(rt, alloc, 5, 16))),
    );
    late
}

/// A payload without a spelling behind octet 3000.
fn far(rt: &impl Abort, alloc: Global) -> Message {
    let mut far = message(
        rt,
        alloc,
        Payload::Skipped {
            kind: SkippedKind::Eap,
            data: octets(rt, alloc, 5, 4000),
        },
    );
    granted(
        rt,
        far.payloads.push(Payload::Nonce(octets(rt, alloc, 5, 15))),
    );
    far
}

#[test]
fn failed_encoding(rt: HostRuntime) {
    same(
        &rt,
        refusal_of(&rt, rt.alloc(), &late(&rt, rt.alloc())),
        (4, Some(48)),
    );
    let mut far = far(&rt, rt.alloc());
    same(&rt, refusal_of(&rt, rt.alloc(), &far), (7, Some(4032)));
    far.header.minor = 16;
    same(&rt, refusal_of(&rt, rt.alloc(), &far), (3, None));
}

use crate::tests::asserts::{granted, holds, same, same_at};
use base::{Items, Range, Selector};
use exchange::{
    deletes_association, esp_spis, has_ke, names_more_than, offers_ike, only, only_auth, only_id_i,
    only_id_r, only_ke, only_nonce, only_sa, only_ts_i, only_ts_r, unknown_critical,
};
use std::alloc::Global;
use std::process::Abort;
use wire::{Payload, Proposal};

const SIDE: Selector = Selector {
    protocol: 0,
    start_port: 0,
    end_port: 65535,
    addresses: Range::V4(1, 2),
};

/// A payload, as a table names it.
#[derive(Clone, Copy)]
enum Sample {
    /// An unknown one of this type, which is critical or not.
    Unknown(u8, bool),
    /// A nonce of 16 octets that are all this one.
    Nonce(u8),
    /// A deletion of SPIs of a protocol.
    Deletion(u8, &'static [u32]),
    /// An association of one empty proposal.
    Sa,
    /// A public key of one octet, behind the number of its group.
    Ke(u16, u8),
    /// An identity of one octet, behind its kind.
    IdI(u8, u8),
    IdR(u8, u8),
    /// A proof of one octet, behind its method.
    Auth(u8, u8),
    TsI(&'static [Selector]),
    TsR(&'static [Selector]),
}

fn payload(rt: &impl Abort, alloc: Global, sample: Sample) -> Payload {
    match sample {
        Sample::Unknown(kind, critical) => Payload::Unknown {
            kind,
            critical,
            data: Items::new(alloc),
        },
        Sample::Nonce(octet) => Payload::Nonce(Items::from_slice(alloc, &[octet; 16]).expect(
            rt, "memory",
        )),
        Sample::Deletion(protocol, spis) => Payload::Delete {
            protocol,
            spis: granted(rt, Items::from_slice(alloc, spis)),
        },
        Sample::Sa => Payload::Sa(proposals(rt, alloc)),
        Sample::Ke(group, octet) => Payload::Ke {
            group,
            data: granted(rt, Items::from_slice(alloc, &[octet])),
        },
        Sample::IdI(kind, octet) => Payload::IdI {
            kind,
            data: granted(rt, Items::from_slice(alloc, &[octet])),
        },
        Sample::IdR(kind, octet) => Payload::IdR {
            kind,
            data: granted(rt, Items::from_slice(alloc, &[octet])),
        },
        Sample::Auth(method, octet) => Payload::Auth {
            method,
            data: granted(rt, Items::from_slice(alloc, &[octet])),
        },
        Sample::TsI(selectors) => Payload::TsI(Items::from_slice(alloc, selectors).expect(
            rt, "memory",
        )),
        Sample::TsR(selectors) => Payload::TsR(Items::from_slice(alloc, selectors).expect(
            rt, "memory",
        )),
    }
}

/// One empty proposal.
fn proposals(rt: &impl Abort, alloc: Global) -> Items<Proposal> {
    let mut proposals = Items::new(alloc);
    granted(
        rt,
        proposals.push(Proposal {
            number: 7,
            protocol: 3,
            spi: Items::new(alloc),
            transforms: Items::new(alloc),
        }),
    );
    proposals
}

fn payloads(rt: &impl Abort, alloc: Global, samples: &[Sample]) -> Items<Payload> {
    let mut payloads = Items::new(alloc);
    for sample in samples {
        granted(rt, payloads.push(payload(rt, alloc, *sample)));
    }
    payloads
}

// RFC 7296, section 2.5: the first unknown payload that is marked decides.
#[test]
fn the_first_unknown_critical(rt: HostRuntime) {
    let rows: [(&[Sample], Option<u8>); 4] = [
        (&[Sample::Unknown(200, false), Sample::Nonce(1)], None),
        (
            &[
                Sample::Unknown(200, false),
                Sample::Nonce(1),
                Sample::Unknown(201, true),
                Sample::Unknown(32, true),
            ],
            Some(201),
        ),
        // under the number of a key exchange it is unknown all the same
        (&[Sample::Unknown(34, true)], Some(34)),
        (&[], None),
    ];
    for (samples, wanted) in rows {
        let payloads = payloads(&rt, rt.alloc(), samples);
        same(&rt, unknown_critical(payloads.as_slice()), wanted);
    }
}

#[test]
fn only_where_alone_of_its_type(rt: HostRuntime) {
    let rows: [(u8, bool); 3] = [(40, true), (200, true), (41, false)];
    let payloads = payloads(
        &rt,
        rt.alloc(),
        &[Sample::Unknown(200, true), Sample::Nonce(1)],
    );
    for (kind, is_found) in rows {
        same_at(
            &rt,
            kind,
            only(payloads.as_slice(), kind).is_some(),
            is_found,
        );
    }
}

#[test]
fn a_nonce_where_alone_of_its_type(rt: HostRuntime) {
    let rows: [(&[Sample], Option<&[u8]>); 4] = [
        (
            &[Sample::Unknown(200, true), Sample::Nonce(1)],
            Some(&[1; 16]),
        ),
        (
            &[
                Sample::Nonce(1),
                Sample::Unknown(200, true),
                Sample::Nonce(1),
            ],
            None,
        ),
        (&[], None),
        // An unknown payload under the number of a nonce is none.
        (&[Sample::Unknown(40, false)], None),
    ];
    for (samples, wanted) in rows {
        let payloads = payloads(&rt, rt.alloc(), samples);
        same(&rt, only_nonce(payloads.as_slice()), wanted);
    }
}

/// One payload of each of these types, told apart by what it holds.
const ONE_OF_EACH: [Sample; 7] = [
    Sample::Sa,
    Sample::Ke(14, 1),
    Sample::IdI(2, 2),
    Sample::IdR(3, 3),
    Sample::Auth(4, 4),
    Sample::TsI(&[SIDE]),
    Sample::TsR(&[SIDE, SIDE]),
];

/// Whether what was found is this octet under this number.
fn has(found: Option<(u8, &[u8])>, octet: u8) -> bool {
    match found {
        Some((number, octets)) => number == octet && octets == [octet].as_slice(),
        None => false,
    }
}

/// How many items are found, none where nothing is.
fn count<T>(found: Option<&[T]>) -> usize {
    match found {
        Some(items) => items.len(),
        None => 0,
    }
}

/// Whether each type that stands once is found by itself, with what it holds, and no other type is.
fn has_each(payloads: &[Payload]) -> bool {
    has(only_id_i(payloads), 2)
        && has(only_id_r(payloads), 3)
        && has(only_auth(payloads), 4)
        && matches!(only_ke(payloads), Some((14, [1])))
        && has_ke(payloads)
        && !offers_ike(payloads)
}

#[test]
fn each_type_by_itself(rt: HostRuntime) {
    let payloads = payloads(&rt, rt.alloc(), &ONE_OF_EACH);
    holds(&rt, has_each(payloads.as_slice()));
    let nonce = [payload(&rt, rt.alloc(), Sample::Nonce(1))];
    holds(&rt, !has_ke(&nonce));
}

/// Unknown payloads under the numbers of known ones, which no decoding gives.
const UNKNOWN: [Sample; 8] = [
    Sample::Unknown(33, false),
    Sample::Unknown(34, false),
    Sample::Unknown(35, false),
    Sample::Unknown(36, false),
    Sample::Unknown(39, false),
    Sample::Unknown(42, false),
    Sample::Unknown(44, false),
    Sample::Unknown(45, false),
];

/// Whether no proposals, no selectors and no deletion of the association are found.
fn has_no_list(payloads: &[Payload]) -> bool {
    only_sa(payloads).is_none()
        && only_ts_i(payloads).is_none()
        && only_ts_r(payloads).is_none()
        && !offers_ike(payloads)
        && !deletes_association(payloads)
}

/// Whether no known payload is found.
fn has_nothing(payloads: &[Payload]) -> bool {
    only_id_i(payloads).is_none()
        && only_id_r(payloads).is_none()
        && only_auth(payloads).is_none()
        && only_ke(payloads).is_none()
        && !has_ke(payloads)
        && has_no_list(payloads)
}

// What is kept as unknown is none of the known payloads, whatever its number.
#[test]
fn unknown_payloads_under_known_numbers(rt: HostRuntime) {
    let payloads = payloads(&rt, rt.alloc(), &UNKNOWN);
    holds(&rt, has_nothing(payloads.as_slice()));
}

/// How many proposals and selectors of each side are found.
fn counts(payloads: &[Payload]) -> [usize; 3] {
    [
        count(only_sa(payloads)),
        count(only_ts_i(payloads)),
        count(only_ts_r(payloads)),
    ]
}

#[test]
fn lists_by_themselves(rt: HostRuntime) {
    let payloads = payloads(&rt, rt.alloc(), &ONE_OF_EACH);
    holds(&rt, counts(payloads.as_slice()) == [1, 1, 2]);
}

const CHILDREN: [Sample; 4] = [
    Sample::Deletion(3, &[5, 6]),
    Sample::Nonce(1),
    Sample::Deletion(2, &[7]),
    Sample::Deletion(3, &[5]),
];

// RFC 7296, section 1.4.1.
#[test]
fn what_is_deleted(rt: HostRuntime) {
    let all = [Sample::Deletion(3, &[5]), Sample::Deletion(1, &[])];
    let rows: [(&[Sample], bool); 2] = [(&CHILDREN, false), (&all, true)];
    for (samples, wanted) in rows {
        let payloads = payloads(&rt, rt.alloc(), samples);
        same(&rt, deletes_association(payloads.as_slice()), wanted);
    }
}

#[test]
fn which_spis_are_deleted(rt: HostRuntime) {
    let payloads = payloads(&rt, rt.alloc(), &CHILDREN);
    let spis = esp_spis(rt.alloc(), payloads.as_slice()).expect(&rt, "memory");
    same(&rt, spis.as_slice(), [5, 6, 5].as_slice());
    // Those of AH count too.
    holds(&rt, names_more_than(payloads.as_slice(), 3));
    holds(&rt, !names_more_than(payloads.as_slice(), 4));
}

#[test]
fn many_spis(rt: HostRuntime) {
    let alloc = rt.alloc();
    let mut spis = Items::new(alloc);
    for spi in 0..740 {
        granted(&rt, spis.push(spi));
    }
    let wanted = granted(&rt, spis.clone());
    let many = [Payload::Delete { protocol: 3, spis }];
    same(&rt, esp_spis(alloc, &many).expect(&rt, "memory"), wanted);
    same(&rt, names_more_than(&many, 739), true);
    same(&rt, names_more_than(&many, 740), false);
}

use crate::tests::asserts::{granted, holds, none_differs};
use std::alloc::Global;
use std::process::Abort;
use suite::{Chosen, Wanted, choose};
use wire::{Attribute, Items, Payload, Proposal, Transform, decode_chain};

// A payload that offers SPI 256 without extension.
const OFFERED_ESP: [u8; 40] = [
    0x00, 0x00, 0x00, 0x28, 0x00, 0x00, 0x00, 0x24, 0x01, 0x03, 0x04, 0x03, 0x00, 0x00, 0x01, 0x00,
    0x03, 0x00, 0x00, 0x08, 0x01, 0x00, 0x00, 0x0b, 0x03, 0x00, 0x00, 0x08, 0x03, 0x00, 0x00, 0x0c,
    0x00, 0x00, 0x00, 0x08, 0x05, 0x00, 0x00, 0x00,
];

// A payload of IKE_SA_INIT with the cipher 65001 and the group 65002, the last of its chain.
const OFFERED_IKE: [u8; 44] = [
    0x00, 0x00, 0x00, 0x2c, 0x00, 0x00, 0x00, 0x28, 0x01, 0x01, 0x00, 0x04, 0x03, 0x00, 0x00, 0x08,
    0x01, 0x00, 0xfd, 0xe9, 0x03, 0x00, 0x00, 0x08, 0x02, 0x00, 0x00, 0x05, 0x03, 0x00, 0x00, 0x08,
    0x03, 0x00, 0x00, 0x0c, 0x00, 0x00, 0x00, 0x08, 0x04, 0x00, 0xfd, 0xea,
];

const IKE: Wanted = Wanted::Ike {
    encr: 65001,
    key_length: None,
    group: 65002,
};

const IKE_WITH_KEY_LENGTH: Wanted = Wanted::Ike {
    encr: 65001,
    key_length: Some(256),
    group: 65002,
};

const ESP: Wanted = Wanted::Esp { extended: false };

const ESP_EXTENDED: Wanted = Wanted::Esp { extended: true };

// What is chosen of the first proposal, of number 1, without ESN and with it.
const FIRST: Option<Chosen> = Some(Chosen {
    place: 0,
    number: 1,
    extended: false,
});

const FIRST_EXTENDED: Option<Chosen> = Some(Chosen {
    place: 0,
    number: 1,
    extended: true,
});

/// What is chosen of the payload's proposals.
fn of_payload(rt: &impl Abort, alloc: Global, octets: &[u8], wanted: &Wanted) -> Option<Chosen> {
    let payloads = decode_chain(alloc, 33, octets).expect(rt, "payloads");
    match payloads.as_slice() {
        [Payload::Sa(proposals)] => choose(proposals.as_slice(), wanted),
        _ => None,
    }
}

fn first_payload_differing(
    rt: &impl Abort,
    alloc: Global,
    octets: &[u8],
    rows: &[(Wanted, Option<Chosen>)],
) -> Option<usize> {
    for (place, (wanted, answer)) in rows.iter().enumerate() {
        if of_payload(rt, alloc, octets, wanted) != *answer {
            return Some(place);
        }
    }
    None
}

const OF_ESP: [(Wanted, Option<Chosen>); 3] = [(ESP, FIRST), (ESP_EXTENDED, FIRST), (IKE, None)];

const OF_IKE: [(Wanted, Option<Chosen>); 3] = [
    (IKE, FIRST),
    (IKE_WITH_KEY_LENGTH, None),
    (ESP, None),
];

#[test]
fn payloads_of_both_kinds(rt: HostRuntime) {
    let of_esp = first_payload_differing(&rt, rt.alloc(), &OFFERED_ESP, &OF_ESP);
    none_differs(&rt, of_esp);
    let of_ike = first_payload_differing(&rt, rt.alloc(), &OFFERED_IKE, &OF_IKE);
    none_differs(&rt, of_ike);
}

/// A transform by its type and its ID.
type Part = (u8, u16);

const PARTS_OF_IKE: [Part; 5] = [(1, 65001), (2, 5), (3, 12), (4, 65002), (5, 0)];

const PARTS_OF_ESP: [Part; 4] = [(1, 11), (3, 12), (5, 0), (4, 65002)];

const MIXED_PARTS: [Part; 6] = [(4, 14), (1, 20), (4, 65002), (3, 12), (1, 65001), (2, 5)];

const ANOTHER_PRF: [Part; 4] = [(1, 65001), (2, 2), (3, 12), (4, 65002)];

/// Transforms without attributes, but for these at the one of a place.
fn transforms(
    rt: &impl Abort,
    alloc: Global,
    parts: &[Part],
    place: usize,
    values: &[(u16, u16)],
) -> Items<Transform> {
    let mut transforms = Items::new(alloc);
    for (at, (kind, id)) in parts.iter().enumerate() {
        let attributes = attributes(rt, alloc, if at == place { values } else { &[] });
        granted(
            rt,
            transforms.push(Transform {
                kind: *kind,
                id: *id,
                attributes,
            }),
        );
    }
    transforms
}

fn attributes(rt: &impl Abort, alloc: Global, values: &[(u16, u16)]) -> Items<Attribute> {
    let mut attributes = Items::new(alloc);
    for (kind, value) in values {
        granted(
            rt,
            attributes.push(Attribute::Short {
                kind: *kind,
                value: *value,
            }),
        );
    }
    attributes
}

/// The transforms of a proposal, as a table names them.
#[derive(Clone, Copy)]
enum Offer {
    /// Those of IKE; the one at this place has one attribute or two.
    Ike(usize, (u16, u16)),
    IkeWithTwo(usize, [(u16, u16); 2]),
    /// The first of those of IKE and one of ESN, so many.
    FirstOfIke(usize),
    AnotherPrf,
    /// Several of some types, of which the second has a key of 256 bits.
    Mixed,
    /// Those of ESP; the one at this place has a key of 128 bits.
    Esp(usize),
    /// The first of those of ESP and one of a group, so many.
    FirstOfEsp(usize),
    /// Those of ESP, with these for the extension.
    Extension(u16),
    Extensions(u16, u16),
}

/// All transforms of IKE, and those of ESP without extension, without attributes.
const RIGHT_IKE: Offer = Offer::FirstOfIke(4);

const RIGHT_ESP: Offer = Offer::FirstOfEsp(3);

fn offered(rt: &impl Abort, alloc: Global, offer: Offer) -> Items<Transform> {
    match offer {
        Offer::Ike(place, value) => transforms(rt, alloc, &PARTS_OF_IKE[..4], place, &[value]),
        Offer::IkeWithTwo(place, values) => {
            transforms(rt, alloc, &PARTS_OF_IKE[..4], place, &values)
        }
        Offer::FirstOfIke(count) => transforms(rt, alloc, &PARTS_OF_IKE[..count.min(5)], 0, &[]),
        Offer::AnotherPrf => transforms(rt, alloc, &ANOTHER_PRF, 0, &[]),
        Offer::Mixed => transforms(rt, alloc, &MIXED_PARTS, 1, &[(14, 256)]),
        Offer::Esp(place) => transforms(rt, alloc, &PARTS_OF_ESP[..3], place, &[(14, 128)]),
        Offer::FirstOfEsp(count) => transforms(rt, alloc, &PARTS_OF_ESP[..count.min(4)], 0, &[]),
        Offer::Extension(id) => transforms(rt, alloc, &[(1, 11), (3, 12), (5, id)], 0, &[]),
        Offer::Extensions(one, other) => {
            transforms(rt, alloc, &[(1, 11), (3, 12), (5, one), (5, other)], 0, &[])
        }
    }
}

fn proposal(
    rt: &impl Abort,
    alloc: Global,
    number: u8,
    protocol: u8,
    spi: &[u8],
    offer: Offer,
) -> Proposal {
    let transforms = offered(rt, alloc, offer);
    let spi = granted(rt, Items::from_slice(alloc, spi));
    Proposal {
        number,
        protocol,
        spi,
        transforms,
    }
}

/// What is offered in one proposal of number 1, what is wanted, and what is chosen.
type Row = (Offer, Wanted, Option<Chosen>);

/// The first row of which another proposal is chosen, where they have this protocol and this SPI.
fn first_differing(
    rt: &impl Abort,
    alloc: Global,
    protocol: u8,
    spi: &[u8],
    rows: &[Row],
) -> Option<usize> {
    for (place, (offer, wanted, answer)) in rows.iter().enumerate() {
        let proposals = [proposal(rt, alloc, 1, protocol, spi, *offer)];
        if choose(&proposals, wanted) != *answer {
            return Some(place);
        }
    }
    None
}

const ROWS_OF_IKE: [Row; 20] = [
    // the first of a type that is acceptable
    (Offer::Mixed, IKE, FIRST),
    // exactly the wanted key length
    (RIGHT_IKE, IKE, FIRST),
    (RIGHT_IKE, IKE_WITH_KEY_LENGTH, None),
    (Offer::Ike(0, (14, 256)), IKE, None),
    (Offer::Ike(0, (14, 256)), IKE_WITH_KEY_LENGTH, FIRST),
    (Offer::Ike(0, (14, 128)), IKE, None),
    (Offer::Ike(0, (14, 128)), IKE_WITH_KEY_LENGTH, None),
    (Offer::IkeWithTwo(0, [(14, 256), (14, 256)]), IKE, None),
    (
        Offer::IkeWithTwo(0, [(14, 256), (14, 256)]),
        IKE_WITH_KEY_LENGTH,
        None,
    ),
    (Offer::IkeWithTwo(0, [(14, 256), (15, 256)]), IKE, None),
    (
        Offer::IkeWithTwo(0, [(14, 256), (15, 256)]),
        IKE_WITH_KEY_LENGTH,
        None,
    ),
    (Offer::Ike(0, (15, 256)), IKE, None),
    (Offer::Ike(0, (15, 256)), IKE_WITH_KEY_LENGTH, None),
    // no attribute elsewhere
    (Offer::Ike(0, (99, 1)), IKE, None),
    (Offer::Ike(1, (99, 1)), IKE, None),
    (Offer::Ike(2, (99, 1)), IKE, None),
    (Offer::Ike(3, (99, 1)), IKE, None),
    // a type too many or too few
    (Offer::FirstOfIke(5), IKE, None),
    (Offer::FirstOfIke(4), IKE, FIRST),
    (Offer::FirstOfIke(3), IKE, None),
];

#[test]
fn one_of_each_type_and_the_key_length_for_ike(rt: HostRuntime) {
    none_differs(&rt, first_differing(&rt, rt.alloc(), 1, &[], &ROWS_OF_IKE));
}

const ROWS_OF_ESP: [Row; 13] = [
    // no attribute
    (Offer::Esp(0), ESP, None),
    (Offer::Esp(2), ESP, None),
    // a type too many or too few
    (Offer::FirstOfEsp(4), ESP, None),
    (Offer::FirstOfEsp(3), ESP, FIRST),
    (Offer::FirstOfEsp(2), ESP, None),
    // ESN
    (Offer::Extension(1), ESP, None),
    (Offer::Extension(1), ESP_EXTENDED, FIRST_EXTENDED),
    (Offer::Extension(0), ESP, FIRST),
    (Offer::Extension(0), ESP_EXTENDED, FIRST),
    (Offer::Extensions(1, 0), ESP, FIRST),
    (Offer::Extensions(1, 0), ESP_EXTENDED, FIRST_EXTENDED),
    (Offer::Extensions(0, 1), ESP, FIRST),
    (Offer::Extensions(0, 1), ESP_EXTENDED, FIRST),
];

#[test]
fn one_of_each_type_and_extended_numbers_for_esp(rt: HostRuntime) {
    none_differs(
        &rt,
        first_differing(&rt, rt.alloc(), 3, &[0, 0, 1, 0], &ROWS_OF_ESP),
    );
}

/// The first protocol and SPI, filled up to 8 octets behind its length, with which the offer is chosen
/// otherwise.
fn first_spi_differing(
    rt: &impl Abort,
    alloc: Global,
    offer: Offer,
    wanted: Wanted,
    rows: &[(u8, usize, [u8; 8], bool)],
) -> Option<usize> {
    for (place, (protocol, length, spi, right)) in rows.iter().enumerate() {
        let spi = &spi[..(*length).min(8)];
        let proposals = [proposal(rt, alloc, 1, *protocol, spi, offer)];
        if choose(&proposals, &wanted).is_some() != *right {
            return Some(place);
        }
    }
    None
}

const SPIS_OF_ESP: [(u8, usize, [u8; 8], bool); 7] = [
    (3, 4, [0, 0, 0, 255, 0, 0, 0, 0], false),
    (3, 4, [0, 0, 1, 0, 0, 0, 0, 0], true),
    (3, 4, [255, 255, 255, 255, 0, 0, 0, 0], true),
    (3, 3, [1, 0, 0, 0, 0, 0, 0, 0], false),
    (3, 5, [0, 0, 1, 0, 0, 0, 0, 0], false),
    (3, 0, [0; 8], false),
    // another protocol
    (2, 4, [0, 0, 1, 0, 0, 0, 0, 0], false),
];

// Another protocol, and an SPI where there is to be none.
const SPIS_OF_IKE: [(u8, usize, [u8; 8], bool); 2] = [(3, 0, [0; 8], false), (1, 8, [0; 8], false)];

#[test]
fn spis_and_protocols(rt: HostRuntime) {
    none_differs(
        &rt,
        first_spi_differing(&rt, rt.alloc(), RIGHT_ESP, ESP, &SPIS_OF_ESP),
    );
    none_differs(
        &rt,
        first_spi_differing(&rt, rt.alloc(), RIGHT_IKE, IKE, &SPIS_OF_IKE),
    );
}

/// What is chosen of proposals of these numbers.
fn of_several(rt: &impl Abort, alloc: Global, offers: &[(u8, Offer)]) -> Option<Chosen> {
    let mut proposals = Items::new(alloc);
    for (number, offer) in offers {
        granted(
            rt,
            proposals.push(proposal(rt, alloc, *number, 1, &[], *offer)),
        );
    }
    choose(proposals.as_slice(), &IKE)
}

fn chosen(place: usize, number: u8) -> Option<Chosen> {
    Some(Chosen {
        place,
        number,
        extended: false,
    })
}

const THREE: [(u8, Offer); 3] = [(1, Offer::AnotherPrf), (2, RIGHT_IKE), (3, RIGHT_IKE)];

#[test]
fn the_first_that_is_acceptable(rt: HostRuntime) {
    let of_three = of_several(&rt, rt.alloc(), &THREE);
    let of_none = of_several(&rt, rt.alloc(), &[]);
    let of_one = of_several(&rt, rt.alloc(), &[(7, RIGHT_IKE)]);
    holds(
        &rt,
        of_three == chosen(1, 2) && of_none == None && of_one == chosen(0, 7),
    );
}

// A proposal like the right one, whose key length of 256 bits has the long form.
fn of_the_long_form(rt: &impl Abort, alloc: Global) -> Proposal {
    let mut transforms = Items::new(alloc);
    granted(rt, transforms.push(long_transform(rt, alloc)));
    for (kind, id) in [(2, 5), (3, 12), (4, 65002)] {
        let attributes = Items::new(alloc);
        granted(
            rt,
            transforms.push(Transform {
                kind,
                id,
                attributes,
            }),
        );
    }
    Proposal {
        number: 1,
        protocol: 1,
        spi: Items::new(alloc),
        transforms,
    }
}

fn long_transform(rt: &impl Abort, alloc: Global) -> Transform {
    let mut attributes = Items::new(alloc);
    granted(
        rt,
        attributes.push(Attribute::Long {
            kind: 14,
            value: granted(rt, Items::from_slice(alloc, &[1, 0])),
        }),
    );
    Transform {
        kind: 1,
        id: 65001,
        attributes,
    }
}

#[test]
fn no_attribute_of_the_long_form(rt: HostRuntime) {
    let proposals = [of_the_long_form(&rt, rt.alloc())];
    holds(&rt, choose(&proposals, &IKE_WITH_KEY_LENGTH).is_none());
}

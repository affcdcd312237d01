// The octets are those of RFC 7296, section 3.3, written out.
use crate::tests::asserts::{granted, holds, none_differs, same};
use exchange::offers_ike;
use std::alloc::Global;
use std::process::Abort;
use suite::laws::{ends_agree, offers_are_answered};
use suite::{Chosen, Wanted, accept, answer, choose, offer};
use wire::{Flags, Header, Items, Message, Payload, Proposal, encode_message};

const IKE: Wanted = Wanted::Ike {
    encr: 65001,
    key_length: None,
    group: 65002,
};

const ESP: Wanted = Wanted::Esp { extended: false };

const ESP_EXTENDED: Wanted = Wanted::Esp { extended: true };

const OFFERED_IKE: [u8; 44] = [
    0, 0, 0, 44, 0, 0, 0, 40, 1, 1, 0, 4, 3, 0, 0, 8, 1, 0, 0xfd, 0xe9, 3, 0, 0, 8, 2, 0, 0, 5, 3,
    0, 0, 8, 3, 0, 0, 12, 0, 0, 0, 8, 4, 0, 0xfd, 0xea,
];

const OFFERED_ESP: [u8; 40] = [
    0, 0, 0, 40, 0, 0, 0, 36, 1, 3, 4, 3, 0, 0, 1, 0, 3, 0, 0, 8, 1, 0, 0, 11, 3, 0, 0, 8, 3, 0, 0,
    12, 0, 0, 0, 8, 5, 0, 0, 0,
];

const OFFERED_EXTENDED: [u8; 48] = [
    0, 0, 0, 48, 0, 0, 0, 44, 1, 3, 4, 4, 0, 0, 1, 0, 3, 0, 0, 8, 1, 0, 0, 11, 3, 0, 0, 8, 3, 0, 0,
    12, 3, 0, 0, 8, 5, 0, 0, 1, 0, 0, 0, 8, 5, 0, 0, 0,
];

fn association(rt: &impl Abort, alloc: Global, proposal: Proposal) -> Payload {
    let mut proposals = Items::new(alloc);
    granted(rt, proposals.push(proposal));
    Payload::Sa(proposals)
}

// The octets of the payload that has this proposal alone.
fn payload_of(rt: &impl Abort, alloc: Global, proposal: Proposal) -> Vec<u8> {
    let mut payloads = Items::new(alloc);
    granted(rt, payloads.push(association(rt, alloc, proposal)));
    let header = Header {
        spi_i: 1,
        spi_r: 2,
        minor: 0,
        exchange: 34,
        flags: Flags {
            initiator: true,
            version: false,
            response: false,
        },
        id: 0,
    };
    let mut octets = Vec::new(alloc);
    encode_message(&Message { header, payloads }, &mut octets).expect(rt, "a spelling");
    granted(rt, Vec::from_slice(alloc, &octets[28..]))
}

/// Whether the payload of an offer has these octets.
fn is_offered(rt: &impl Abort, alloc: Global, wanted: Wanted, spi: &[u8], octets: &[u8]) -> bool {
    let sent = payload_of(rt, alloc, offer(alloc, &wanted, spi).expect(rt, "memory"));
    sent.as_slice() == octets
}

#[test]
fn offers(rt: HostRuntime) {
    let alloc = rt.alloc();
    let ike = is_offered(&rt, alloc, IKE, &[], &OFFERED_IKE);
    let esp = is_offered(&rt, alloc, ESP, &[0, 0, 1, 0], &OFFERED_ESP);
    let extended = is_offered(&rt, alloc, ESP_EXTENDED, &[0, 0, 1, 0], &OFFERED_EXTENDED);
    same(&rt, [ike, esp, extended], [true; 3]);
}

#[test]
fn an_offer_with_a_key_length(rt: HostRuntime) {
    let long_key = Wanted::Ike {
        encr: 12,
        key_length: Some(256),
        group: 14,
    };
    let octets = payload_of(
        &rt,
        rt.alloc(),
        offer(rt.alloc(), &long_key, &[]).expect(&rt, "memory"),
    );
    // the first transform, of 12 octets: AES-CBC with a key of 256 bits
    let first = octets.get(12..24).expect(&rt, "octets enough");
    same(
        &rt,
        first,
        [3, 0, 0, 12, 1, 0, 0, 12, 0x80, 14, 1, 0].as_slice(),
    );
}

#[test]
fn laws_can_be_called() {
    offers_are_answered();
    ends_agree();
}

const WISHES: [(Wanted, Wanted, bool); 3] = [
    (ESP_EXTENDED, ESP_EXTENDED, true),
    (ESP_EXTENDED, ESP, false),
    (ESP, ESP_EXTENDED, false),
];

// What is chosen of an offer for the one, where the other is wanted.
fn choice(rt: &impl Abort, alloc: Global, ours: &Wanted, theirs: &Wanted) -> Option<Chosen> {
    choose(
        &[offer(alloc, ours, &[0, 0, 1, 0]).expect(rt, "memory")],
        theirs,
    )
}

// Whether what one end offered and the other answers is accepted, with this use of extended numbers and
// the SPI of the answer.
fn is_agreed(
    rt: &impl Abort,
    alloc: Global,
    ours: &Wanted,
    theirs: &Wanted,
    chosen: &Chosen,
) -> bool {
    let back = [answer(alloc, theirs, chosen, &[0, 0, 2, 0]).expect(rt, "memory")];
    match accept(&back, ours) {
        Some(accepted) => {
            accepted.extended == chosen.extended
                && back[0].spi.as_slice() == [0, 0, 2, 0].as_slice()
        }
        None => false,
    }
}

// What one end offers and the other answers, both see alike.
fn first_wish_differing(
    rt: &impl Abort,
    alloc: Global,
    rows: &[(Wanted, Wanted, bool)],
) -> Option<usize> {
    for (index, (ours, theirs, extended)) in rows.iter().enumerate() {
        let wanted = Chosen {
            place: 0,
            number: 1,
            extended: *extended,
        };
        let is_chosen = choice(rt, alloc, ours, theirs) == Some(wanted);
        if !is_chosen || !is_agreed(rt, alloc, ours, theirs, &wanted) {
            return Some(index);
        }
    }
    None
}

#[test]
fn choices_and_answers(rt: HostRuntime) {
    none_differs(&rt, first_wish_differing(&rt, rt.alloc(), &WISHES));
}

// An answer with this number and this SPI to an offer with extended numbers.
fn answer_of(rt: &impl Abort, alloc: Global, number: u8, spi: &[u8]) -> Proposal {
    let chosen = Chosen {
        place: 0,
        number,
        extended: true,
    };
    answer(alloc, &ESP_EXTENDED, &chosen, spi).expect(rt, "memory")
}

/// The number and the SPI of such an answer, what was offered, and whether the answer is accepted.
type Row = (u8, [u8; 4], Wanted, bool);

fn first_answer_differing(rt: &impl Abort, alloc: Global, rows: &[Row]) -> Option<usize> {
    for (index, (number, spi, offered, wanted)) in rows.iter().enumerate() {
        let back = [answer_of(rt, alloc, *number, spi)];
        if accept(&back, offered).is_some() != *wanted {
            return Some(index);
        }
    }
    None
}

const ANSWERS: [Row; 5] = [
    (1, [0, 0, 2, 0], ESP_EXTENDED, true),
    (2, [0, 0, 2, 0], ESP_EXTENDED, false),
    // not offered
    (1, [0, 0, 2, 0], ESP, false),
    // a reserved SPI, and another protocol
    (1, [0, 0, 0, 255], ESP_EXTENDED, false),
    (1, [0, 0, 2, 0], IKE, false),
];

// An answer is one proposal of number 1, with one transform of each type.
#[test]
fn answers_that_are_accepted(rt: HostRuntime) {
    none_differs(&rt, first_answer_differing(&rt, rt.alloc(), &ANSWERS));
}

// Whether an answer with both sequence numbers is accepted, or one of two proposals.
fn accepts_more_than_one(rt: &impl Abort, alloc: Global) -> bool {
    let spi = [0, 0, 2, 0];
    let both = [offer(alloc, &ESP_EXTENDED, &spi).expect(rt, "memory")];
    let two = [answer_of(rt, alloc, 1, &spi), answer_of(rt, alloc, 2, &spi)];
    accept(&both, &ESP_EXTENDED).is_some() || accept(&two, &ESP_EXTENDED).is_some()
}

#[test]
fn no_answers(rt: HostRuntime) {
    holds(&rt, accept(&[], &ESP_EXTENDED).is_none());
    holds(&rt, !accepts_more_than_one(&rt, rt.alloc()));
}

#[test]
fn an_offer_for_ike(rt: HostRuntime) {
    let payload = association(
        &rt,
        rt.alloc(),
        offer(rt.alloc(), &IKE, &[]).expect(&rt, "memory"),
    );
    holds(&rt, offers_ike(&[payload]));
}

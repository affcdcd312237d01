//! Additional Child SAs that no script asks for (RFC 7296, sections 1.3.1, 2.5, 2.21.3 and 3.10.1).
use super::sealing::{CREATE_CHILD, INVALID_SYNTAX, NOTIFY, Sent, asked, counted};
use super::{Side, established, established_with, sent};
use crate::tests::asserts::{add, holds, same};
use base::Items;
use ike::{IkeFault, IkeInput};
use sadb::Table;
use std::alloc::Global;
use std::process::Abort;
use test_samples::fresh;

/// Types of payloads: what is offered, a key exchange, a nonce, what the initiator of the exchange protects.
const SA: u8 = 33;

const KE: u8 = 34;

const NONCE: u8 = 40;

const TS_I: u8 = 44;

/// The protocols that a proposal may be of.
const IKE: u8 = 1;

const ESP: u8 = 3;

/// A key exchange of the caller's group, before a nonce.
const KEY_EXCHANGE: [u8; 9] = [NONCE, 0, 0, 9, 0xfd, 0xea, 0, 0, 1];

/// Selectors of 10.0.0.0/24 at the initiator of the exchange, and of 10.1.0.0/24 at the other end.
const SELECTORS: [u8; 48] = [
    45, 0, 0, 24, 1, 0, 0, 0, 7, 0, 0, 16, 0, 0, 0xff, 0xff, 10, 0, 0, 0, 10, 0, 0, 255, //
    0, 0, 0, 24, 1, 0, 0, 0, 7, 0, 0, 16, 0, 0, 0xff, 0xff, 10, 1, 0, 0, 10, 1, 0, 255,
];

/// Adds what offers ENCR_NULL and AUTH_HMAC_SHA2_256_128 with numbers of either size, before a payload
/// of this type.
fn add_offer(rt: &impl Abort, octets: &mut Vec<u8>, next: u8, protocol: u8) {
    add(
        rt,
        octets,
        &[next, 0, 0, 48, 0, 0, 0, 44, 1, protocol, 4, 4],
    );
    add(rt, octets, &[0, 0, 0x10, 1]);
    add(
        rt,
        octets,
        &[3, 0, 0, 8, 1, 0, 0, 11, 3, 0, 0, 8, 3, 0, 0, 12],
    );
    add(
        rt,
        octets,
        &[3, 0, 0, 8, 5, 0, 0, 1, 0, 0, 0, 8, 5, 0, 0, 0],
    );
}

/// Adds a nonce, before the selectors.
fn add_nonce(rt: &impl Abort, octets: &mut Vec<u8>) {
    add(rt, octets, &[TS_I, 0, 0, 36]);
    add(rt, octets, &[5; 32]);
}

/// What a request for an additional Child SA has to say, with an offer of this protocol.
fn request(rt: &impl Abort, alloc: Global, protocol: u8) -> Vec<u8> {
    let mut octets = Vec::new(alloc);
    add_offer(rt, &mut octets, NONCE, protocol);
    add_nonce(rt, &mut octets);
    add(rt, &mut octets, &SELECTORS);
    octets
}

/// The same without its nonce.
fn without_nonce(rt: &impl Abort, alloc: Global) -> Vec<u8> {
    let mut octets = Vec::new(alloc);
    add_offer(rt, &mut octets, TS_I, ESP);
    add(rt, &mut octets, &SELECTORS);
    octets
}

/// The same with a key exchange.
fn with_key_exchange(rt: &impl Abort, alloc: Global) -> Vec<u8> {
    let mut octets = Vec::new(alloc);
    add_offer(rt, &mut octets, KE, ESP);
    add(rt, &mut octets, &KEY_EXCHANGE);
    add_nonce(rt, &mut octets);
    add(rt, &mut octets, &SELECTORS);
    octets
}

/// A's message of CREATE_CHILD_SA of this number, whose first payload is an offer.
fn offer(number: u32) -> Sent {
    Sent {
        exchange: CREATE_CHILD,
        number,
        first: SA,
    }
}

/// What becomes of a request of these payloads: how many octets answer and whether B closes, whether
/// its first child stays, and under which SPI it sends by a further one.
type Outcome = (Option<(usize, bool)>, bool, Option<u32>);

fn outcome(rt: &impl Abort, alloc: Global, payloads: &[u8]) -> Outcome {
    let mut b = established(rt, alloc);
    let said = asked(rt, alloc, &mut b, offer(2), payloads);
    let stays = b.table.after(0).is_some();
    let further = b.table.after(1).map(|pair| pair.outbound.spi());
    (said, stays, further)
}

#[test]
fn a_request(rt: HostRuntime) {
    let payloads = request(&rt, rt.alloc(), ESP);
    let outcome = outcome(&rt, rt.alloc(), &payloads);
    same(&rt, outcome, (Some((173, false)), true, Some(0x1001)));
}

/// A key exchange is declined.
#[test]
fn a_request_with_a_key_exchange(rt: HostRuntime) {
    let payloads = with_key_exchange(&rt, rt.alloc());
    let outcome = outcome(&rt, rt.alloc(), &payloads);
    same(&rt, outcome, (Some((57, false)), true, None));
}

/// An IKE SA in the place of this one is declined.
#[test]
fn a_request_for_an_association(rt: HostRuntime) {
    let payloads = request(&rt, rt.alloc(), IKE);
    let outcome = outcome(&rt, rt.alloc(), &payloads);
    same(&rt, outcome, (Some((57, false)), true, None));
}

/// A request without its nonce is none: INVALID_SYNTAX, which closes.
#[test]
fn a_request_without_its_nonce(rt: HostRuntime) {
    let payloads = without_nonce(&rt, rt.alloc());
    let outcome = outcome(&rt, rt.alloc(), &payloads);
    same(&rt, outcome, (Some((57, true)), false, None));
}

/// B asks for an additional Child SA under its first IKE SA, as its first request.
fn ask(rt: &impl Abort, alloc: Global, b: &mut Side) -> Items<u8> {
    let fresh = fresh(50);
    let order = IkeInput::Start {
        ike: Some(1),
        entry: 0,
        fresh: &fresh,
    };
    sent(rt, b.step(rt, alloc, &order))
}

/// Why B refuses to ask for an additional Child SA.
fn refusal(alloc: Global, b: &mut Side) -> Option<IkeFault> {
    let fresh = fresh(50);
    let order = IkeInput::Start {
        ike: Some(1),
        entry: 0,
        fresh: &fresh,
    };
    b.refusal(alloc, &order)
}

/// What becomes of a response to it: the child that B makes of it and whether B closes, and whether its
/// first child stays.
type Conclusion = (Option<(Option<u32>, bool)>, bool);

fn conclusion(rt: &impl Abort, alloc: Global, first: u8, payloads: &[u8]) -> Conclusion {
    let mut b = established(rt, alloc);
    ask(rt, alloc, &mut b);
    let response = Sent { first, ..offer(0) };
    let counted = counted(rt, alloc, &mut b, response, payloads);
    let stays = b.table.after(0).is_some();
    (counted, stays)
}

#[test]
fn an_answer(rt: HostRuntime) {
    let payloads = answer(&rt, rt.alloc(), &ANSWERED);
    let conclusion = conclusion(&rt, rt.alloc(), SA, &payloads);
    same(&rt, conclusion, (Some((Some(2), false)), true));
}

/// Selectors that B did not ask for make no child.
#[test]
fn an_answer_with_other_selectors(rt: HostRuntime) {
    let payloads = answer(&rt, rt.alloc(), &SELECTORS);
    let conclusion = conclusion(&rt, rt.alloc(), SA, &payloads);
    same(&rt, conclusion, (Some((None, false)), true));
}

/// An answer that is not in the grammar makes no child.
#[test]
fn an_answer_out_of_the_grammar(rt: HostRuntime) {
    let conclusion = conclusion(&rt, rt.alloc(), SA, &[0, 0, 0]);
    same(&rt, conclusion, (Some((None, false)), true));
}

/// INVALID_SYNTAX in the answer closes.
#[test]
fn told_bad_syntax(rt: HostRuntime) {
    let conclusion = conclusion(&rt, rt.alloc(), NOTIFY, &INVALID_SYNTAX);
    same(&rt, conclusion, (Some((None, true)), false));
}

/// The selectors that B asks for.
const ANSWERED: [u8; 48] = [
    45, 0, 0, 24, 1, 0, 0, 0, 7, 0, 0, 16, 0, 0, 0xff, 0xff, 10, 1, 0, 0, 10, 1, 0, 255, //
    0, 0, 0, 24, 1, 0, 0, 0, 7, 0, 0, 16, 0, 0, 0xff, 0xff, 10, 0, 0, 0, 10, 0, 0, 255,
];

/// An answer that takes the offer with extended numbers, and has these selectors.
fn answer(rt: &impl Abort, alloc: Global, selectors: &[u8]) -> Vec<u8> {
    let mut octets = Vec::new(alloc);
    add(
        rt,
        &mut octets,
        &[NONCE, 0, 0, 40, 0, 0, 0, 36, 1, ESP, 4, 3],
    );
    add(rt, &mut octets, &[0, 0, 0x10, 1]);
    add(
        rt,
        &mut octets,
        &[3, 0, 0, 8, 1, 0, 0, 11, 3, 0, 0, 8, 3, 0, 0, 12],
    );
    add(rt, &mut octets, &[0, 0, 0, 8, 5, 0, 0, 1]);
    add_nonce(rt, &mut octets);
    add(rt, &mut octets, selectors);
    octets
}

/// B with 1024 children, as many as a table takes, of which the first came with the IKE SA.
fn filled(rt: &impl Abort, alloc: Global) -> Side {
    let mut b = established(rt, alloc);
    let payloads = request(rt, alloc, ESP);
    for number in 2..1025 {
        let said = asked(rt, alloc, &mut b, offer(number), &payloads);
        same(rt, said, Some((173, false)));
    }
    b
}

/// Whether B declines a request of this number for an additional Child SA.
fn declines(rt: &impl Abort, alloc: Global, b: &mut Side, number: u32) -> bool {
    let payloads = request(rt, alloc, ESP);
    asked(rt, alloc, b, offer(number), &payloads) == Some((57, false))
}

#[test]
fn a_request_at_a_full_table(rt: HostRuntime) {
    let mut b = filled(&rt, rt.alloc());
    holds(&rt, declines(&rt, rt.alloc(), &mut b, 1025));
}

#[test]
fn an_order_at_a_full_table(rt: HostRuntime) {
    let mut b = filled(&rt, rt.alloc());
    same(&rt, refusal(rt.alloc(), &mut b), Some(IkeFault::TableFull));
}

/// A table that gave all SPIs but one, and has none reserved.
fn nearly_spent(alloc: Global) -> Table {
    let mut table = Table::new(alloc, 4096);
    for _ in 0..65_535 {
        if let Ok(spi) = table.reserve() {
            table.release(spi);
        }
    }
    table
}

/// B, whose table gave 65,536 SPIs, the last one to the first child.
fn spent(rt: &impl Abort, alloc: Global) -> Side {
    established_with(rt, alloc, nearly_spent(alloc))
}

#[test]
fn a_request_at_a_spent_table(rt: HostRuntime) {
    let mut b = spent(&rt, rt.alloc());
    holds(&rt, declines(&rt, rt.alloc(), &mut b, 2));
}

#[test]
fn an_order_at_a_spent_table(rt: HostRuntime) {
    let mut b = spent(&rt, rt.alloc());
    same(&rt, refusal(rt.alloc(), &mut b), Some(IkeFault::SpisSpent));
}

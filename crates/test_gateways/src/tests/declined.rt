//! By which notice a peer declines what it was asked, as the trace of a step tells it (RFC 7296,
//! sections 1.2, 1.3.1 and 3.10.1).
use super::asserts::{add, holds, same};
use caller_script::ScriptCaller;
use gateway::{End, Gateway, Output, Traced};
use mac::icv;
use std::alloc::Global;
use std::panic::Expect;
use std::process::Abort;
use test_samples::{
    Both, OwnedInput, SampleFault, config, further, gateway, message, order, policy, probe, sent,
};

/// The type of a notice as a payload, and of none.
const NOTIFY: u8 = 41;

const NONE: u8 = 0;

/// The flag of a response.
const RESPONSE: u8 = 0x20;

/// A notice of these two octets of type, before a payload of this type.
fn notice(next: u8, kind: [u8; 2]) -> [u8; 8] {
    let [high, low] = kind;
    [next, 0, 0, 8, 0, 0, high, low]
}

/// B's answer of these payloads, the first of this type, to a request of A, as the caller of scripts
/// seals it under B's key.
fn answer(
    rt: &impl Abort,
    alloc: Global,
    request: &[u8],
    first: u8,
    payloads: &[u8],
    key: &[u8; 32],
) -> Vec<u8> {
    let length = u8::try_from(payloads.len()).expect(rt, "few octets");
    let mut octets = Vec::new(alloc);
    add(rt, &mut octets, request.get(..19).unwrap_or(&[]));
    add(rt, &mut octets, &[RESPONSE]);
    add(rt, &mut octets, request.get(20..24).unwrap_or(&[]));
    add(rt, &mut octets, &[0, 0, 0, length.saturating_add(49)]);
    add(rt, &mut octets, &[first, 0, 0, length.saturating_add(21)]);
    add(rt, &mut octets, payloads);
    add(rt, &mut octets, &[0]);
    let check = icv(key, &[&octets]);
    add(rt, &mut octets, &check);
    octets
}

/// What a step of A came to: the child that it made of a response, the IKE SA that this closed, and what was
/// declined.
type Counted = (Option<u32>, Option<u32>, Option<u16>);

fn counted(traced: Traced<'_>) -> Option<Counted> {
    match traced.output {
        Output::Counted { child, closed, .. } => Some((child, closed, traced.trace.declined)),
        _ => None,
    }
}

/// What a datagram comes to at A.
fn taken(
    rt: &impl Abort,
    alloc: Global,
    a: &mut Gateway<ScriptCaller>,
    octets: &[u8],
) -> Option<Counted> {
    let input = message(alloc, octets, 20).expect(rt, "memory");
    counted(a.traced_step(alloc, &input.lend()))
}

/// Two ends that hold an IKE SA and its first child.
fn connected(rt: &impl Abort, alloc: Global) -> Both {
    Both::connected(alloc, false).expect(rt, "two ends")
}

/// What becomes of what A asks under its first IKE SA, where B answers it by these payloads.
fn answered(
    rt: &impl Abort,
    alloc: Global,
    asking: &OwnedInput,
    first: u8,
    payloads: &[u8],
) -> Option<Counted> {
    let mut both = connected(rt, alloc);
    let request = sent(&mut both.a, alloc, asking);
    let key = both.a.keys_of(1).expect(rt, "keys").sk_ar;
    let octets = answer(rt, alloc, &request, first, payloads, &key);
    taken(rt, alloc, &mut both.a, &octets)
}

/// Finds what is declined by a notice of these types, one behind the other, in the answer for an additional
/// Child SA.
fn declines(
    rt: &impl Abort,
    alloc: Global,
    kinds: [[u8; 2]; 2],
    closed: Option<u32>,
    declined: Option<u16>,
) {
    let [one, other] = kinds;
    let mut payloads = Vec::new(alloc);
    add(rt, &mut payloads, &notice(NOTIFY, one));
    add(rt, &mut payloads, &notice(NONE, other));
    let found = answered(rt, alloc, &further(1), NOTIFY, &payloads);
    same(rt, found, Some((None, closed, declined)));
}

/// A notice alone: NO_PROPOSAL_CHOSEN, NO_ADDITIONAL_SAS, TS_UNACCEPTABLE, and a type that no document has.
#[test]
fn a_further_child_is_declined(rt: HostRuntime) {
    for number in [14_u8, 35, 38, 255] {
        let payload = notice(NONE, [0, number]);
        let found = answered(&rt, rt.alloc(), &further(1), NOTIFY, &payload);
        same(&rt, found, Some((None, None, Some(u16::from(number)))));
    }
}

/// INVALID_SYNTAX closes the IKE SA.
#[test]
fn a_further_child_is_told_bad_syntax(rt: HostRuntime) {
    let payload = notice(NONE, [0, 7]);
    let found = answered(&rt, rt.alloc(), &further(1), NOTIFY, &payload);
    same(&rt, found, Some((None, Some(1), Some(7))));
}

/// The first error counts, and types from 16384 on tell none.
#[test]
fn the_first_error_counts(rt: HostRuntime) {
    let alloc = rt.alloc();
    let rows = [
        ([[0, 38], [0, 35]], None, Some(38)),
        ([[0, 35], [0, 7]], Some(1), Some(35)),
        ([[0x40, 0], [0, 38]], None, Some(38)),
        ([[0x40, 0], [0xff, 0xff]], None, None),
        ([[0x3f, 0xff], [0, 38]], None, Some(16_383)),
    ];
    for (kinds, closed, declined) in rows {
        declines(&rt, alloc, kinds, closed, declined);
    }
}

/// An answer without payloads makes no child and declines by no notice; nor does one out of the grammar.
#[test]
fn an_answer_without_a_notice(rt: HostRuntime) {
    let empty = answered(&rt, rt.alloc(), &further(1), NONE, &[]);
    same(&rt, empty, Some((None, None, None)));
    let unread = answered(&rt, rt.alloc(), &further(1), NOTIFY, &[0, 0, 0]);
    same(&rt, unread, Some((None, None, None)));
}

/// What B makes of it is a child at A, by which nothing is declined.
#[test]
fn a_further_child_is_made(rt: HostRuntime) {
    let alloc = rt.alloc();
    let mut both = connected(&rt, alloc);
    let request = sent(&mut both.a, alloc, &further(1));
    let input = message(alloc, &request, 21).expect(&rt, "memory");
    let reply = sent(&mut both.b, alloc, &input);
    let found = taken(&rt, alloc, &mut both.a, &reply);
    same(&rt, found, Some((Some(2), None, None)));
}

/// A probe is answered by an error, by which B could not read it.
#[test]
fn a_probe_is_told_bad_syntax(rt: HostRuntime) {
    let payload = notice(NONE, [0, 7]);
    let found = answered(&rt, rt.alloc(), &probe(1), NOTIFY, &payload);
    same(&rt, found, Some((None, Some(1), Some(7))));
}

/// Two errors answer a probe: the answer is counted, and the first one is told.
#[test]
fn a_probe_is_told_two_errors(rt: HostRuntime) {
    let alloc = rt.alloc();
    let mut payloads = Vec::new(alloc);
    add(&rt, &mut payloads, &notice(NOTIFY, [0, 35]));
    add(&rt, &mut payloads, &notice(NONE, [0, 38]));
    let found = answered(&rt, alloc, &probe(1), NOTIFY, &payloads);
    same(&rt, found, Some((None, None, Some(35))));
}

/// B, set to what this end is set to, with this end's policy.
fn other(alloc: Global, set_as: End, policy_of: End) -> Result<Gateway<ScriptCaller>, SampleFault> {
    let config = config(alloc, set_as, 1)?;
    let policy = policy(alloc, policy_of)?;
    Ok(Gateway::new(alloc, config, policy, 8192, ScriptCaller))
}

/// What A makes of the response to IKE_AUTH of such an end.
fn authenticated(rt: &impl Abort, alloc: Global, set_as: End, policy_of: End) -> Option<Counted> {
    let mut a = gateway(alloc, End::A).expect(rt, "a gateway");
    let mut b = other(alloc, set_as, policy_of).expect(rt, "a gateway");
    let first = sent(&mut a, alloc, &order(1));
    let reply = answers(rt, alloc, &mut b, &first);
    let second = answers(rt, alloc, &mut a, &reply);
    let last = answers(rt, alloc, &mut b, &second);
    holds(rt, !last.is_empty());
    taken(rt, alloc, &mut a, &last)
}

/// What an end sends where this datagram comes to it.
fn answers(
    rt: &impl Abort,
    alloc: Global,
    end: &mut Gateway<ScriptCaller>,
    octets: &[u8],
) -> Vec<u8> {
    let input = message(alloc, octets, 10).expect(rt, "memory");
    sent(end, alloc, &input)
}

/// B protects what A offers: the first child is made.
#[test]
fn a_first_child_is_made(rt: HostRuntime) {
    let found = authenticated(&rt, rt.alloc(), End::B, End::B);
    same(&rt, found, Some((Some(1), None, None)));
}

/// B protects nothing of it: TS_UNACCEPTABLE, and the IKE SA stands.
#[test]
fn a_first_child_is_declined(rt: HostRuntime) {
    let found = authenticated(&rt, rt.alloc(), End::B, End::A);
    same(&rt, found, Some((None, None, Some(38))));
}

/// B expects another peer than A: AUTHENTICATION_FAILED, which closes.
#[test]
fn an_association_is_declined(rt: HostRuntime) {
    let found = authenticated(&rt, rt.alloc(), End::A, End::B);
    same(&rt, found, Some((None, Some(1), Some(24))));
}

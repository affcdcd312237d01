ghost use Rattle.auth.specs.Windows.{IsWindow};

use super::parts::{
    are_of_types, auth, child, critical, has_proof, identity, request_behind, request_of, selector,
};
use crate::tests::asserts::{granted, same};
use auth::{Asked, Judgement, Proving, judge};
use base::Items;
use caller_script::ScriptCaller;
use std::alloc::Global;
use std::process::Abort;
use wire::Payload;

// prf (prf ("play", "Key Pad for IKEv2"), what "a.example" of type 2 proves), by another program.
fn proof() -> [u8; 32] {
    [
        0xa3, 0x39, 0xdb, 0x3d, 0xb4, 0x57, 0xc3, 0x7f, 0x40, 0xc4, 0x2a, 0xe9, 0x39, 0xf4, 0xb5,
        0xd8, 0xdc, 0x6c, 0x6d, 0xeb, 0x69, 0x62, 0x28, 0x0b, 0x93, 0x92, 0x8b, 0x41, 0xf5, 0x89,
        0xb6, 0xec,
    ]
}

// The same behind a first message of 1500 octets for an identity of 256.
fn proof_behind_long_message() -> [u8; 32] {
    [
        0x7d, 0xe6, 0xfb, 0x1f, 0x2c, 0x33, 0xb4, 0x8e, 0x17, 0xb1, 0xb2, 0xe8, 0x33, 0x76, 0x66,
        0x02, 0x15, 0x7f, 0xc6, 0xab, 0x46, 0xaf, 0xfe, 0xf9, 0x2e, 0x9a, 0x24, 0xed, 0x14, 0x2e,
        0x10, 0xfa,
    ]
}

// What the sender of a request proves over.
const PROVING: Proving<'static> = Proving {
    first: b"first message",
    nonce: &[9; 16],
    sk_p: &[5; 32],
};

// The number of the notice by which an end that waits for "a.example" of type 2 refuses a request, 0
// where it accepts it.
fn refusal(rt: &impl Abort, alloc: Global, payloads: &[Payload]) -> u16 {
    let peer = identity(rt, alloc, 2, b"a.example");
    match judge(alloc, &ScriptCaller, &peer, &PROVING, payloads).expect(rt, "memory") {
        Judgement::Refused(notice) => notice.number(),
        Judgement::Accepted(_) => 0,
    }
}

// Whether that end reads the window 4 and the sides of `child`.
fn is_asked(rt: &impl Abort, alloc: Global) -> bool {
    let payloads = request_of(rt, alloc, 2, b"a.example", 4);
    let peer = identity(rt, alloc, 2, b"a.example");
    match judge(alloc, &ScriptCaller, &peer, &PROVING, &payloads).expect(rt, "memory") {
        Judgement::Refused(_) => false,
        Judgement::Accepted(Asked { offer, window }) => {
            window == 4
                && offer.proposals.len() == 1
                && offer.ts_i == [selector(1)].as_slice()
                && offer.ts_r == [selector(2)].as_slice()
        }
    }
}

// What answers the request of an end of this identity.
fn refusal_of(rt: &impl Abort, alloc: Global, kind: u8, id: &[u8]) -> u16 {
    refusal(rt, alloc, &request_of(rt, alloc, kind, id, 1))
}

// A request of an identity of this type, with this AUTH payload.
fn request_with(
    rt: &impl Abort,
    alloc: Global,
    kind: u8,
    method: u8,
    octets: &[u8],
) -> Items<Payload> {
    let mut payloads = Items::new(alloc);
    granted(
        rt,
        payloads.push(Payload::IdI {
            kind,
            data: granted(rt, Items::from_slice(alloc, b"a.example")),
        }),
    );
    granted(rt, payloads.push(auth(rt, alloc, method, octets)));
    granted(rt, child(rt, alloc).append_to(&mut payloads));
    payloads
}

// What answers such a request.
fn refusal_with(rt: &impl Abort, alloc: Global, method: u8, octets: &[u8]) -> u16 {
    refusal(
        rt,
        alloc,
        request_with(rt, alloc, 2, method, octets).as_slice(),
    )
}

// What answers the request of another identity with this payload behind it.
fn refusal_behind(rt: &impl Abort, alloc: Global, payload: Payload) -> u16 {
    let mut payloads = request_with(rt, alloc, 3, 2, &proof());
    granted(rt, payloads.push(payload));
    refusal(rt, alloc, payloads.as_slice())
}

// The same without its last payload.
fn refusal_of_less(rt: &impl Abort, alloc: Global) -> u16 {
    match request_with(rt, alloc, 3, 2, &proof()).as_slice() {
        [others @ .., _] => refusal(rt, alloc, others),
        [] => 0,
    }
}

fn is_of_types(rt: &impl Abort, alloc: Global, window: u8, types: &[u8]) -> bool
    requires { IsWindow window }
{
    are_of_types(&request_of(rt, alloc, 2, b"a.example", window), types)
}

fn is_proved_by(rt: &impl Abort, alloc: Global, proof: &[u8]) -> bool {
    has_proof(&request_of(rt, alloc, 2, b"a.example", 1), proof)
}

// Octets that count up from 0, and again behind the greatest.
fn counted(rt: &impl Abort, alloc: Global, count: u32, greatest: u8) -> Vec<u8> {
    let mut octets = Vec::new(alloc);
    let mut next = 0;
    for _ in 0..count {
        granted(rt, octets.push(next));
        next = if next >= greatest { 0 } else { next + 1 };
    }
    octets
}

// Whether an identity of 256 octets is proved so behind a first message of 1500.
fn is_proved_at_length_by(rt: &impl Abort, alloc: Global, proof: &[u8]) -> bool {
    let first = counted(rt, alloc, 1500, 250);
    let own = identity(rt, alloc, 11, &counted(rt, alloc, 256, 255));
    has_proof(&request_behind(rt, alloc, &first, &own, 1), proof)
}

fn requests(rt: &impl Abort, alloc: Global) -> [bool; 5] {
    [
        is_of_types(rt, alloc, 4, &[35, 39, 33, 44, 45, 41]),
        is_of_types(rt, alloc, 1, &[35, 39, 33, 44, 45]),
        is_proved_by(rt, alloc, &proof()),
        is_proved_at_length_by(rt, alloc, &proof_behind_long_message()),
        is_asked(rt, alloc),
    ]
}

// Another identity, and another proof; a payload too few, one too many, and a critical one.
fn refusals(rt: &impl Abort, alloc: Global) -> [u16; 8] {
    [
        refusal_of(rt, alloc, 3, b"a.example"),
        refusal_of(rt, alloc, 2, b"b.example"),
        refusal_with(rt, alloc, 2, &proof()),
        refusal_with(rt, alloc, 2, &[0; 32]),
        refusal_with(rt, alloc, 1, &proof()),
        refusal_of_less(rt, alloc),
        refusal_behind(rt, alloc, auth(rt, alloc, 2, &proof())),
        refusal_behind(rt, alloc, critical(alloc)),
    ]
}

// RFC 7296, sections 1.2 and 2.15.
#[test]
fn what_is_sent_and_asked(rt: HostRuntime) {
    same(&rt, requests(&rt, rt.alloc()), [true; 5]);
}

// AUTHENTICATION_FAILED is 24 (section 2.21.2). Before the identity is looked at comes INVALID_SYNTAX,
// 7 (section 3.10.1), and before that UNSUPPORTED_CRITICAL_PAYLOAD, 1 (section 2.5).
#[test]
fn what_is_refused(rt: HostRuntime) {
    same(&rt, refusals(&rt, rt.alloc()), [24, 24, 0, 24, 24, 7, 7, 1]);
}

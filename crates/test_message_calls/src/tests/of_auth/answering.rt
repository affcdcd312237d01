ghost use Rattle.auth.specs.Windows.{IsWindow};

use super::parts::{are_of_types, auth, child, critical, has_proof, identity};
use crate::tests::asserts::{granted, same};
use auth::{Proving, answer, is_accepted};
use caller_script::ScriptCaller;
use exchange::{ChildAnswer, Notice};
use std::alloc::Global;
use std::process::Abort;
use wire::Payload;

// prf (prf ("play", "Key Pad for IKEv2"), what "b.example" of type 2 proves), by another program.
fn proof() -> [u8; 32] {
    [
        0xc7, 0xba, 0xce, 0xbf, 0xb8, 0x34, 0x09, 0xe1, 0xa1, 0xb7, 0xf5, 0x7e, 0x28, 0xd7, 0x62,
        0x57, 0x8c, 0xe5, 0x5d, 0xed, 0x55, 0x9d, 0x31, 0x64, 0x30, 0xe5, 0xe7, 0x40, 0xfe, 0xe9,
        0xa7, 0xd1,
    ]
}

// The answer of "b.example" of type 2.
fn answer_with(rt: &impl Abort, alloc: Global, answered: ChildAnswer, window: u8) -> Vec<Payload>
    requires { IsWindow window }
{
    let own = identity(rt, alloc, 2, b"b.example");
    assert!(rt; own.fits_payload());
    let what = Proving {
        first: b"answer",
        nonce: &[8; 16],
        sk_p: &[6; 32],
    };
    let payloads = answer(alloc, &ScriptCaller, &own, &what, answered, window).expect(rt, "memory");
    payloads.into_vec()
}

fn with_child(rt: &impl Abort, alloc: Global) -> Vec<Payload> {
    answer_with(rt, alloc, ChildAnswer::Payloads(child(rt, alloc)), 2)
}

fn with_notice(rt: &impl Abort, alloc: Global) -> Vec<Payload> {
    answer_with(rt, alloc, ChildAnswer::Notice(Notice::NoProposalChosen), 1)
}

// What an initiator that waits for this identity of type 2 makes of an answer.
fn established(
    rt: &impl Abort,
    alloc: Global,
    id: &[u8],
    nonce: &[u8],
    payloads: &[Payload],
) -> bool {
    let peer = identity(rt, alloc, 2, id);
    let what = Proving {
        first: b"answer",
        nonce,
        sk_p: &[6; 32],
    };
    is_accepted(alloc, &ScriptCaller, &peer, &what, payloads).expect(rt, "memory")
}

// The same of an answer that makes the child.
fn established_by(rt: &impl Abort, alloc: Global, id: &[u8], nonce: &[u8]) -> bool {
    established(rt, alloc, id, nonce, &with_child(rt, alloc))
}

// The same of an answer that refuses it, with this payload behind it.
fn established_behind(rt: &impl Abort, alloc: Global, payload: Payload) -> bool {
    let mut payloads = with_notice(rt, alloc);
    granted(rt, payloads.push(payload));
    established(rt, alloc, b"b.example", &[8; 16], &payloads)
}

fn answers(rt: &impl Abort, alloc: Global) -> [bool; 3] {
    [
        are_of_types(&with_child(rt, alloc), &[36, 39, 33, 44, 45, 41]),
        are_of_types(&with_notice(rt, alloc), &[36, 39, 41]),
        has_proof(&with_child(rt, alloc), &proof()),
    ]
}

// Another identity and another nonce; a critical payload is passed over, by the rule of this
// implementation, and of two proofs none counts.
fn established_answers(rt: &impl Abort, alloc: Global) -> [bool; 5] {
    [
        established_by(rt, alloc, b"b.example", &[8; 16]),
        established_by(rt, alloc, b"a.example", &[8; 16]),
        established_by(rt, alloc, b"b.example", &[7; 16]),
        established_behind(rt, alloc, critical(alloc)),
        established_behind(rt, alloc, auth(rt, alloc, 2, &proof())),
    ]
}

// RFC 7296, sections 1.2 and 2.15.
#[test]
fn what_is_sent_and_accepted(rt: HostRuntime) {
    same(&rt, answers(&rt, rt.alloc()), [true; 3]);
    same(
        &rt,
        established_answers(&rt, rt.alloc()),
        [true, false, false, true, false],
    );
}

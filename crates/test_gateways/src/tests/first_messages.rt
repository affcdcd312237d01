//! Messages of IKE_SA_INIT, made by hand (RFC 7296, sections 1.2, 2.7 and 3.1 to 3.9): their numbers
//! are those of the caller of scripts.
use super::asserts::{hex, same};
use caller_script::ScriptCaller;
use gateway::{End, Gateway, Output};
use std::alloc::Global;
use std::panic::Expect;
use std::process::Abort;
use test_samples::{gateway, message, order};

/// An offer of two proposals, of which the first has a pseudorandom function of another number.
const TWO_PROPOSALS: &str = "0000000000000001 0000000000000000 21202208 00000000 000000bc\
    22000054 02000028 01010004 03000008 0100fde9 03000008 02000002 03000008 0300000c 00000008 0400fdea\
    00000028 02010004 03000008 0100fde9 03000008 02000005 03000008 0300000c 00000008 0400fdea\
    28000028 fdea0000 0505050505050505050505050505050505050505050505050505050505050505\
    00000024 0808080808080808080808080808080808080808080808080808080808080808";

/// Its answer by the responder of SPI 2: the second proposal alone, under its own number, with one
/// transform of each type.
const SECOND_PROPOSAL: &str = "0000000000000001 0000000000000002 21202220 00000000 00000094\
    2200002c 00000028 02010004 03000008 0100fde9 03000008 02000005 03000008 0300000c 00000008 0400fdea\
    28000028 fdea0000 0707070707070707070707070707070707070707070707070707070707070707\
    00000024 0909090909090909090909090909090909090909090909090909090909090909";

/// A request without its SA.
const NO_PROPOSAL: &str = "0000000000000001 0000000000000000 22202208 00000000 00000068\
    28000028 fdea0000 0505050505050505050505050505050505050505050505050505050505050505\
    00000024 0808080808080808080808080808080808080808080808080808080808080808";

/// One without its key exchange.
const NO_PUBLIC_VALUE: &str = "0000000000000001 0000000000000000 21202208 00000000 0000006c\
    2800002c 00000028 01010004 03000008 0100fde9 03000008 02000005 03000008 0300000c 00000008 0400fdea\
    00000024 0808080808080808080808080808080808080808080808080808080808080808";

/// One without its nonce.
const NO_NONCE: &str = "0000000000000001 0000000000000000 21202208 00000000 00000070\
    2200002c 00000028 01010004 03000008 0100fde9 03000008 02000005 03000008 0300000c 00000008 0400fdea\
    00000028 fdea0000 0505050505050505050505050505050505050505050505050505050505050505";

/// A whole request, but for its public value of 31 octets, which the agreement refuses.
const SHORT_PUBLIC_VALUE: &str = "0000000000000001 0000000000000000 21202208 00000000 00000093\
    2200002c 00000028 01010004 03000008 0100fde9 03000008 02000005 03000008 0300000c 00000008 0400fdea\
    28000027 fdea0000 05050505050505050505050505050505050505050505050505050505050505\
    00000024 0808080808080808080808080808080808080808080808080808080808080808";

/// A response to the initiator of SPI 1 with such a public value.
const SHORT_ANSWER: &str = "0000000000000001 0000000000000002 21202220 00000000 00000093\
    2200002c 00000028 01010004 03000008 0100fde9 03000008 02000005 03000008 0300000c 00000008 0400fdea\
    28000027 fdea0000 05050505050505050505050505050505050505050505050505050505050505\
    00000024 0808080808080808080808080808080808080808080808080808080808080808";

/// One with a public value of 32 octets.
const WHOLE_ANSWER: &str = "0000000000000001 0000000000000002 21202220 00000000 00000094\
    2200002c 00000028 01010004 03000008 0100fde9 03000008 02000005 03000008 0300000c 00000008 0400fdea\
    28000028 fdea0000 0505050505050505050505050505050505050505050505050505050505050505\
    00000024 0808080808080808080808080808080808080808080808080808080808080808";

/// The octets that a datagram is answered by.
fn answered(
    rt: &impl Abort,
    alloc: Global,
    gateway: &mut Gateway<ScriptCaller>,
    digits: &str,
) -> Vec<u8> {
    let input = message(alloc, &hex(rt, alloc, digits), 2).expect(rt, "memory");
    match gateway.step(alloc, &input.lend()) {
        Output::Reply { octets, .. } | Output::Request { octets, .. } => octets.into_vec(),
        _ => panic!(rt; "nothing is sent"),
    }
}

/// The number of why a datagram is passed over; 0 where it isn't.
fn dropped(
    rt: &impl Abort,
    alloc: Global,
    gateway: &mut Gateway<ScriptCaller>,
    digits: &str,
) -> u8 {
    let input = message(alloc, &hex(rt, alloc, digits), 2).expect(rt, "memory");
    match gateway.step(alloc, &input.lend()) {
        Output::Dropped { reason } => reason.code(),
        _ => 0,
    }
}

#[test]
fn the_second_proposal_is_answered(rt: HostRuntime) {
    let mut b = gateway(rt.alloc(), End::B).expect(&rt, "a gateway");
    let answer = answered(&rt, rt.alloc(), &mut b, TWO_PROPOSALS);
    same(&rt, answer, hex(&rt, rt.alloc(), SECOND_PROPOSAL));
}

/// Nothing is kept of such a request, and a whole one under the same SPI is answered.
#[test]
fn a_part_is_missing_or_refused(rt: HostRuntime) {
    let mut b = gateway(rt.alloc(), End::B).expect(&rt, "a gateway");
    for digits in [NO_PROPOSAL, NO_PUBLIC_VALUE, NO_NONCE, SHORT_PUBLIC_VALUE] {
        same(&rt, dropped(&rt, rt.alloc(), &mut b, digits), 32);
        same(&rt, b.associations().len(), 0);
    }
    let answer = answered(&rt, rt.alloc(), &mut b, TWO_PROPOSALS);
    same(&rt, answer.len(), 148);
}

/// The initiator still waits for its response, and goes on by a whole one.
#[test]
fn a_public_value_is_refused_at_an_initiator(rt: HostRuntime) {
    let mut a = gateway(rt.alloc(), End::A).expect(&rt, "a gateway");
    a.step(rt.alloc(), &order(1).lend());
    same(&rt, dropped(&rt, rt.alloc(), &mut a, SHORT_ANSWER), 32);
    let request = answered(&rt, rt.alloc(), &mut a, WHOLE_ANSWER);
    same(&rt, request.len(), 202);
    // It takes no second one.
    same(&rt, dropped(&rt, rt.alloc(), &mut a, WHOLE_ANSWER), 31);
}

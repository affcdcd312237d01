//! Many requests of IKE_SA_INIT from senders that were made up (RFC 7296, section 2.6), and SPIs that
//! can't be used.
use super::asserts::same;
use caller_script::ScriptCaller;
use gateway::{End, Gateway, Output};
use sa_init::request;
use std::alloc::Global;
use std::panic::Expect;
use std::process::Abort;
use test_samples::{OwnedInput, gateway, message, order};

/// A request of an initiator of this SPI, with fresh octets of another one for the answer.
fn asking(rt: &impl Abort, alloc: Global, spi_i: u64, fresh: u64) -> OwnedInput {
    let request = request(alloc, &ScriptCaller, spi_i, None, &[7; 32], &[8; 32]).expect(
        rt, "memory",
    );
    message(alloc, request.as_slice(), fresh).expect(rt, "memory")
}

/// The octets of a reply; 0 where there is none.
fn reply_length(gateway: &mut Gateway<ScriptCaller>, alloc: Global, input: &OwnedInput) -> usize {
    match gateway.step(alloc, &input.lend()) {
        Output::Reply { octets, .. } => octets.len(),
        _ => 0,
    }
}

/// How many of so many senders get a reply of this length.
fn replies(
    rt: &impl Abort,
    alloc: Global,
    gateway: &mut Gateway<ScriptCaller>,
    senders: u64,
    length: usize,
) -> u32 {
    let mut replies: u32 = 0;
    for sender in 1..=senders {
        let input = asking(rt, alloc, sender, sender);
        if reply_length(gateway, alloc, &input) == length {
            replies = replies.saturating_add(1);
        }
    }
    replies
}

// Eight are answered, all others are asked for a cookie and leave nothing behind.
#[test]
fn ten_thousand_requests(rt: HostRuntime) {
    let mut gateway = gateway(rt.alloc(), End::B).expect(&rt, "a gateway");
    same(
        &rt,
        replies(&rt, rt.alloc(), &mut gateway, 10_000, 72),
        9992,
    );
    same(&rt, gateway.associations().len(), 8);
}

/// The number of a refusal; 0 where there is none.
fn refusal(gateway: &mut Gateway<ScriptCaller>, alloc: Global, input: OwnedInput) -> u8 {
    match gateway.step(alloc, &input.lend()) {
        Output::Refused { reason } => reason.code(),
        _ => 0,
    }
}

// Zero, and one that is in use: of an order, and of a request that would make an IKE SA.
#[test]
fn bad_fresh_spis(rt: HostRuntime) {
    let mut gateway = gateway(rt.alloc(), End::A).expect(&rt, "a gateway");
    same(&rt, refusal(&mut gateway, rt.alloc(), order(0)), 37);
    same(&rt, refusal(&mut gateway, rt.alloc(), order(1)), 0);
    same(&rt, refusal(&mut gateway, rt.alloc(), order(1)), 37);
}

#[test]
fn bad_fresh_spis_of_requests(rt: HostRuntime) {
    let alloc = rt.alloc();
    let mut gateway = gateway(alloc, End::B).expect(&rt, "a gateway");
    let unnamed = asking(&rt, alloc, 5, 0);
    same(&rt, refusal(&mut gateway, alloc, unnamed), 37);
    same(&rt, refusal(&mut gateway, alloc, order(6)), 0);
    let used = asking(&rt, alloc, 5, 6);
    same(&rt, refusal(&mut gateway, alloc, used), 37);
    same(&rt, gateway.associations().len(), 1);
}

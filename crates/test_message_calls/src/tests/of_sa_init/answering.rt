// An exchange from end to end. The keys are those that a Python program derives by RFC 7296, section 2.14.
ghost use Rattle.sa_init.specs.Fitting.{IsSpelled};

use super::fixture::{FRESH, NONCE, SECRET, SENDER, decoded, ke, nonce, proposal};
use crate::tests::asserts::{granted, holds, same};
use caller_script::ScriptCaller;
use mac::hmac;
use sa_init::laws::accepted_offers_fit;
use sa_init::{Agreed, Cookies, Judgement, Response, Waiting, answer, judge, read, request};
use std::alloc::Global;
use std::process::Abort;
use suite::KeyRecord;
use wire::{Items, Message, Payload};

const ANSWER: [u8; 32] = [
    0x70, 0x02, 0x06, 0x97, 0x92, 0x7c, 0xec, 0x56, 0x4c, 0x26, 0x7b, 0x50, 0x2d, 0x28, 0x93, 0xfd,
    0xa0, 0xf8, 0xd5, 0xa2, 0x48, 0xdb, 0xf4, 0xde, 0xc2, 0x6d, 0xf0, 0x75, 0xc9, 0x30, 0x53, 0x5b,
];

const KEYS: [u8; 32] = [
    0xd5, 0xe9, 0x72, 0xeb, 0x3c, 0x67, 0xec, 0x07, 0x94, 0x13, 0xac, 0x81, 0xb2, 0xa1, 0xfa, 0x90,
    0x66, 0xb0, 0xf2, 0xf7, 0xbf, 0x1a, 0xed, 0xb6, 0x2b, 0xed, 0x88, 0x15, 0x55, 0x0b, 0x54, 0xd6,
];

// The answer to a request that is accepted; `None` where its public value is refused.
fn answer_to(rt: &impl Abort, alloc: Global, message: &Message) -> Option<Agreed>
    requires { IsSpelled message.now }
{
    accepted_offers_fit();
    let cookies = Cookies::new(&[0x11; 32]);
    let payloads = message.payloads.as_slice();
    match judge(&ScriptCaller, payloads, &SENDER, &cookies, 0, 0) {
        Judgement::Accepted(offer) => {
            let agreed = answer(alloc, &ScriptCaller, &offer, SENDER.spi_i, &FRESH);
            agreed.expect(rt, "memory")
        }
        _ => panic!(rt; "not accepted"),
    }
}

fn answered(rt: &impl Abort, alloc: Global, message: &Message) -> Agreed
    requires { IsSpelled message.now }
{
    answer_to(rt, alloc, message).expect(rt, "a secret")
}

fn agreed(rt: &impl Abort, alloc: Global) -> Agreed {
    let octets = request(alloc, &ScriptCaller, 1, None, &SECRET, &NONCE).expect(rt, "memory");
    let message = decoded(rt, alloc, octets.as_slice());
    answered(rt, alloc, &message)
}

#[test]
fn answers(rt: HostRuntime) {
    let agreed = agreed(&rt, rt.alloc());
    same(&rt, agreed.octets.len(), 148);
    same(&rt, hmac(b"test", &[agreed.octets.as_slice()]), ANSWER);
    let keys = &agreed.record;
    let hash = hmac(
        b"test",
        &[
            &keys.sk_d,
            &keys.sk_ai,
            &keys.sk_ar,
            &keys.sk_ei,
            &keys.sk_er,
            &keys.sk_pi,
            &keys.sk_pr,
        ],
    );
    same(&rt, hash, KEYS);
}

// The keys that the initiator reads from an answer; `None` where that doesn't fit.
fn keys_in(
    rt: &impl Abort,
    alloc: Global,
    octets: &[u8],
    carried: Option<&[u8]>,
) -> Option<KeyRecord> {
    let message = decoded(rt, alloc, octets);
    let (secret, nonce) = (SECRET, NONCE);
    let sent = Waiting {
        spi_i: 1,
        secret: &secret,
        nonce: &nonce,
        cookie: carried,
        cookies_taken: 0,
    };
    match read(alloc, &ScriptCaller, &message, &sent) {
        Ok(Response::Keys(keys)) => Some(keys),
        Ok(Response::Unfit) => None,
        _ => panic!(rt; "neither"),
    }
}

fn keys_read(rt: &impl Abort, alloc: Global, octets: &[u8], carried: Option<&[u8]>) -> KeyRecord {
    keys_in(rt, alloc, octets, carried).expect(rt, "keys")
}

#[test]
fn both_ends_have_one_record(rt: HostRuntime) {
    let agreed = agreed(&rt, rt.alloc());
    let keys = keys_read(&rt, rt.alloc(), agreed.octets.as_slice(), None);
    holds(&rt, keys == agreed.record);
}

// A message of 148 octets without the last octet of its public value: 31 are left, which the agreement
// of the caller of scripts refuses.
fn shortened(rt: &impl Abort, alloc: Global, octets: &[u8]) -> Vec<u8> {
    let mut shortened = Vec::new(alloc);
    for (place, octet) in octets.iter().enumerate() {
        match place {
            // The last octets of the message's length and of the payload's.
            27 | 75 => granted(rt, shortened.push(octet.saturating_sub(1))),
            111 => {}
            _ => granted(rt, shortened.push(*octet)),
        }
    }
    shortened
}

#[test]
fn a_public_value_is_refused_at_a_responder(rt: HostRuntime) {
    let alloc = rt.alloc();
    let octets = request(alloc, &ScriptCaller, 1, None, &SECRET, &NONCE).expect(&rt, "memory");
    let shortened = shortened(&rt, alloc, octets.as_slice());
    let message = decoded(&rt, alloc, &shortened);
    holds(&rt, answer_to(&rt, alloc, &message).is_none());
}

#[test]
fn a_public_value_is_refused_at_an_initiator(rt: HostRuntime) {
    let alloc = rt.alloc();
    let agreed = agreed(&rt, alloc);
    let shortened = shortened(&rt, alloc, agreed.octets.as_slice());
    same(&rt, shortened.len(), 147);
    holds(&rt, keys_in(&rt, alloc, &shortened, None).is_none());
}

#[test]
fn chooses_the_second_proposal(rt: HostRuntime) {
    let alloc = rt.alloc();
    let mut proposals = Items::new(alloc);
    granted(&rt, proposals.push(proposal(&rt, alloc, 1, 2)));
    granted(&rt, proposals.push(proposal(&rt, alloc, 2, 5)));
    let mut payloads = Items::new(alloc);
    granted(&rt, payloads.push(Payload::Sa(proposals)));
    granted(&rt, payloads.push(ke(&rt, alloc, 65002)));
    granted(&rt, payloads.push(nonce(&rt, alloc)));
    let cookies = Cookies::new(&[0x11; 32]);
    let Judgement::Accepted(offer) = judge(
        &ScriptCaller,
        payloads.as_slice(),
        &SENDER,
        &cookies,
        0,
        0,
    ) else {
        panic!(rt; "not accepted");
    };
    same(&rt, (offer.chosen.place, offer.chosen.number), (1, 2));
    same(&rt, offer.public, SECRET.as_slice());
    same(&rt, offer.nonce, NONCE.as_slice());
}

// What is judged and what is read, case by case.
use super::fixture::{GROUP, NONCE, SECRET, SENDER, decoded, ke, nonce, push_parts, sa};
use crate::tests::asserts::{granted, holds, same};
use caller_script::ScriptCaller;
use exchange::{Notice, returned_cookie};
use sa_init::{Cookies, Judgement, Response, Waiting, judge, read, refuse};
use std::alloc::Global;
use std::process::Abort;
use wire::{Items, Payload, decode_message, encode_message};

const OLDEST: [u8; 32] = [0x11; 32];

const PREVIOUS: [u8; 32] = [0x22; 32];

const CURRENT: [u8; 32] = [0x33; 32];

// Three secrets, of which the first is right no longer.
fn cookies(rt: &impl Abort) -> Cookies {
    let mut cookies = Cookies::new(&OLDEST);
    cookies.change(&PREVIOUS).expect(rt, "memory");
    cookies.change(&CURRENT).expect(rt, "memory");
    cookies
}

// A request with this cookie before its other payloads.
fn with_cookie(rt: &impl Abort, alloc: Global, octets: &[u8]) -> Items<Payload> {
    let mut payloads = Items::new(alloc);
    granted(
        rt,
        payloads.push(granted(rt, returned_cookie(alloc, octets))),
    );
    push_parts(rt, alloc, &mut payloads, GROUP);
    payloads
}

fn made(cookies: &Cookies) -> [u8; 36] {
    cookies.make(&NONCE, &SENDER.address, SENDER.spi_i)
}

// What is judged, in a word.
fn judged(payloads: &[Payload], cookies: &Cookies, half_open: usize, held: usize) -> &'static str {
    match judge(&ScriptCaller, payloads, &SENDER, cookies, half_open, held) {
        Judgement::Answered(notice) => told(notice, cookies),
        Judgement::Incomplete => "incomplete",
        Judgement::Full => "full",
        Judgement::Accepted(_) => "accepted",
    }
}

fn told(notice: Notice, cookies: &Cookies) -> &'static str {
    match notice {
        Notice::Cookie { octets } if octets == made(cookies) => "cookie",
        Notice::NoProposalChosen => "declined",
        Notice::UnsupportedCriticalPayload { kind: 77 } => "critical",
        _ => "another notice",
    }
}

#[test]
fn asks_for_cookies_from_the_ninth_on(rt: HostRuntime) {
    let alloc = rt.alloc();
    let cookies = cookies(&rt);
    let mut plain = Items::new(alloc);
    push_parts(&rt, alloc, &mut plain, GROUP);
    same(&rt, judged(plain.as_slice(), &cookies, 7, 7), "accepted");
    same(&rt, judged(plain.as_slice(), &cookies, 8, 8), "cookie");
    same(&rt, judged(plain.as_slice(), &cookies, 32, 128), "cookie");
    let right = with_cookie(&rt, alloc, &made(&cookies));
    same(&rt, judged(right.as_slice(), &cookies, 8, 8), "accepted");
}

#[test]
fn cookies_of_two_secrets_are_right(rt: HostRuntime) {
    let alloc = rt.alloc();
    let mut before = Cookies::new(&OLDEST);
    let oldest = with_cookie(&rt, alloc, &made(&before));
    before.change(&PREVIOUS).expect(&rt, "memory");
    let previous = with_cookie(&rt, alloc, &made(&before));
    let cookies = cookies(&rt);
    same(
        &rt,
        judged(previous.as_slice(), &cookies, 31, 31),
        "accepted",
    );
    same(&rt, judged(oldest.as_slice(), &cookies, 8, 8), "cookie");
    // Where none is asked for, a wrong one doesn't matter.
    same(&rt, judged(oldest.as_slice(), &cookies, 7, 7), "accepted");
}

#[test]
fn turns_away_where_it_is_full(rt: HostRuntime) {
    let alloc = rt.alloc();
    let cookies = cookies(&rt);
    let right = with_cookie(&rt, alloc, &made(&cookies));
    same(&rt, judged(right.as_slice(), &cookies, 32, 32), "full");
    same(&rt, judged(right.as_slice(), &cookies, 0, 128), "full");
    same(&rt, judged(right.as_slice(), &cookies, 31, 127), "accepted");
}

#[test]
fn refuses_what_is_not_whole(rt: HostRuntime) {
    let alloc = rt.alloc();
    let cookies = cookies(&rt);
    let mut payloads = Items::new(alloc);
    granted(&rt, payloads.push(sa(&rt, alloc)));
    granted(&rt, payloads.push(nonce(&rt, alloc)));
    same(
        &rt,
        judged(payloads.as_slice(), &cookies, 0, 0),
        "incomplete",
    );
    granted(&rt, payloads.push(ke(&rt, alloc, GROUP)));
    same(&rt, judged(payloads.as_slice(), &cookies, 0, 0), "accepted");
    granted(&rt, payloads.push(nonce(&rt, alloc)));
    same(
        &rt,
        judged(payloads.as_slice(), &cookies, 0, 0),
        "incomplete",
    );
    granted(
        &rt,
        payloads.push(Payload::Unknown {
            kind: 77,
            critical: true,
            data: Items::new(alloc),
        }),
    );
    same(&rt, judged(payloads.as_slice(), &cookies, 0, 0), "critical");
}

#[test]
fn declines_another_group(rt: HostRuntime) {
    let alloc = rt.alloc();
    let cookies = cookies(&rt);
    let mut payloads = Items::new(alloc);
    push_parts(&rt, alloc, &mut payloads, 14);
    same(&rt, judged(payloads.as_slice(), &cookies, 0, 0), "declined");
}

// The answer of a responder of this SPI that asks for a cookie.
fn asking(rt: &impl Abort, alloc: Global, spi_r: u64) -> Vec<u8> {
    let answer = refuse(alloc, 1, &Notice::Cookie { octets: [5; 36] }).expect(rt, "memory");
    let mut message = decode_message(alloc, answer.as_slice()).expect(rt, "a message");
    message.header.spi_r = spi_r;
    let mut octets = Vec::new(alloc);
    encode_message(&message, &mut octets).expect(rt, "a spelling");
    octets
}

// Whether it is heeded.
fn is_heeded(
    rt: &impl Abort,
    alloc: Global,
    spi_r: u64,
    carried: Option<&[u8]>,
    cookies_taken: u8,
) -> bool {
    let octets = asking(rt, alloc, spi_r);
    let message = decoded(rt, alloc, &octets);
    let (secret, nonce) = (SECRET, NONCE);
    let sent = Waiting {
        spi_i: 1,
        secret: &secret,
        nonce: &nonce,
        cookie: carried,
        cookies_taken,
    };
    match read(alloc, &ScriptCaller, &message, &sent) {
        Ok(Response::Cookie(octets)) => octets == [5; 36].as_slice(),
        Ok(Response::Unfit) => false,
        _ => panic!(rt; "neither"),
    }
}

#[test]
fn brings_cookies_back(rt: HostRuntime) {
    let alloc = rt.alloc();
    holds(&rt, is_heeded(&rt, alloc, 0, None, 0));
    holds(&rt, is_heeded(&rt, alloc, 0, Some(&[6; 36]), 3));
    // the same as before, a fifth one, and one from a responder that names an SPI
    holds(&rt, !is_heeded(&rt, alloc, 0, Some(&[5; 36]), 1));
    holds(&rt, !is_heeded(&rt, alloc, 0, Some(&[6; 36]), 4));
    holds(&rt, !is_heeded(&rt, alloc, 2, None, 0));
}

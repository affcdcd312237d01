//! What two gateways refuse or drop, and the notices that they send. The ICVs of packets were computed with
//! Python's `hmac`, from keys by RFC 7296, sections 2.14 and 2.17.
use super::lines;
use super::two::{ESTABLISH, ESTABLISHED, OPENING, expect_two};
use crate::tests::asserts::{add, joined, repeated};
use std::ops::RangeInclusive;
use std::panic::Expect;
use std::process::Abort;

/// No messages: another length field, another version, a payload that isn't there, a proposal of number
/// 0, a selector of the ports 65535 to 0, a nonce of 15 octets, a public value of none.
const UNREAD: &str = "raw B ike 0000000000000001000000000000000000202208000000000000001d\n\
    raw B ike 0000000000000001000000000000000000302208000000000000001c\n\
    raw B ike 0000000000000001000000000000000021202208000000000000001c\n\
    raw B ike 0000000000000001000000000000000021202208000000000000004400000028000000240003040300000100030000080100000b030000080300000c0000000805000000\n\
    raw B ike 000000000000000100000000000000002c2022080000000000000034000000180100000007000010ffff00000a0000000a0000ff\n\
    raw B ike 0000000000000001000000000000000028202208000000000000002f00000013000102030405060708090a0b0c0d0e\n\
    raw B ike 0000000000000001000000000000000022202208000000000000002400000008fdea0000\n";

#[test]
fn unread_messages(rt: HostRuntime) {
    let wanted =
        "dropped E2\ndropped E3\ndropped E4\ndropped E5\ndropped E6\ndropped E7\ndropped E8\n";
    expect_two(&rt, [OPENING, UNREAD, ""], [wanted, ""]);
    let long = format!(in rt.alloc(); "raw B ike {:0>1$}\n", "", 6002).expect(&rt, "memory");
    expect_two(&rt, [OPENING, long.as_str(), ""], ["dropped E9\n", ""]);
}

/// The first exchange: another number, another cipher, a payload of type 200 that is critical, the
/// refusal at A, and the request as it is.
const FIRST: &str = "start A 0\ndamage 1 23 01\ndamage 1 47 01\n\
    raw B ike 00000000000000010000000000000000c8202208000000000000002000800004\ndeliver 2\n\
    deliver 1\ndeliver 1\ndeliver 4\n";

/// What that prints: WrongPhase, NO_PROPOSAL_CHOSEN, UNSUPPORTED_CRITICAL_PAYLOAD.
const FIRST_PRINTED: &str =
    "request 1 ike 1 length 148\ndropped E32\nreply 2 length 36\nreply 3 length 37\n\
    dropped E32\nreply 4 length 148\nrepeat 5 length 148\nrequest 6 ike 1 length 202\n";

/// The second exchange: another SPI, body, number (0 and 2) and role, and back to its sender. Then the
/// response under another exchange and number, as it is, and again.
const SECOND: &str =
    "damage 6 0 01\ndamage 6 48 01\ndamage 6 23 01\ndamage 6 23 03\ndamage 6 19 08\nreflect 6\n\
    deliver 6\ndamage 7 18 06\ndamage 7 23 03\ndeliver 7\ndeliver 7\n";

const SECOND_PRINTED: &str =
    "dropped E28\ndropped E29\ndropped E30\ndropped E31\ndropped E33\ndropped E33\n\
    reply 7 length 194\ndropped E32\ndropped E31\ncounted ike 1 child 1\ndropped E31\n";

#[test]
fn unfit_messages(rt: HostRuntime) {
    expect_two(
        &rt,
        [OPENING, FIRST, SECOND],
        [FIRST_PRINTED, SECOND_PRINTED],
    );
}

/// Packets by A's child: with wrong padding, and again; a dummy; of TCP alone; of IPv4 as of IPv6; a
/// fragment; from another source; with an extension header; and a right one.
const CARRIED: &str =
    "raw B esp 00002000000000014500001400000000400100000a0000010a01000100000204ec6550afcec208db56397cb7b49df7fc\n\
    raw B esp 00002000000000014500001400000000400100000a0000010a01000100000204ec6550afcec208db56397cb7b49df7fc\n\
    raw B esp 0000200000000002616e797468696e670102023b26e2a8f129b502926bfcbbd47ed72f94\n\
    raw B esp 00002000000000034500001400000000400100000a0000010a0100010102020682978584d23a5e4552596820666e82a2\n\
    raw B esp 00002000000000044500001400000000400100000a0000010a01000101020229c3bee3ace6d20a2af020651a27e466c1\n\
    raw B esp 00002000000000054500001400002000400100000a0000010a01000101020204b70b27019c8a25e587861b43ea42a393\n\
    raw B esp 00002000000000064500001400000000400100000a0900010a01000101020204e9fbf3bedfaa2b68d376d99889d1f339\n\
    raw B esp 0000200000000007600000000000004020010db8000000000000000000000a0120010db8000000000000000000000b0101020229f2d72a82349fd0dbcc2e9011051c7680\n\
    raw B esp 00002000000000084500001400000000400100000a0000010a01000101020204375115856b6b67eb1882cc440783cc08\n";

const CARRIED_PRINTED: &str = "dropped E19\n\
    dropped E16\n\
    dummy child 1 number 2\n\
    dropped E21\n\
    dropped E21\n\
    dropped E22\n\
    dropped E23\n\
    dropped E39\n\
    up child 1 number 8 4500001400000000400100000a0000010a010001\n";

#[test]
fn packets_that_carry_something_else(rt: HostRuntime) {
    expect_two(
        &rt,
        [OPENING, ESTABLISH, CARRIED],
        [ESTABLISHED, CARRIED_PRINTED],
    );
}

/// A fragment, and a packet with an extension header, either way.
const UNPROTECTED: &str =
    "out A 4500001400002000400100000a0000010a010001\nin A 4500001400002000400100000a0000010a010001\n\
    out A 600000000000004020010db8000000000000000000000a0120010db8000000000000000000000b01\n\
    in A 600000000000004020010db8000000000000000000000a0120010db8000000000000000000000b01\nin A 45\n";

#[test]
fn unprotected_packets(rt: HostRuntime) {
    let wanted = "dropped E22\ndropped E22\ndropped E39\ndropped E39\ndropped E21\n";
    expect_two(&rt, [OPENING, UNPROTECTED, ""], [wanted, ""]);
}

/// What 66 packets print that A seals, numbers 1 to 66 in datagrams 5 to 70.
fn sealed<R: Abort + AllocGlobal>(rt: &R) -> String {
    let mut lines = String::new(rt.alloc());
    for number in 1..=66 {
        let line = format!(in rt.alloc();
            "sealed {} child 1 number {number} length 48\n",
            number + 4
        ).expect(rt, "memory");
        add(rt, &mut lines, line.as_str());
    }
    lines
}

// Without extended numbers 66 packets are sent. Behind the last one the 64 numbers from 3 on are known of.
#[test]
fn old_numbers(rt: HostRuntime) {
    let packets = repeated(&rt, "out A 4500001400000000400100000a0000010a010001\n", 66);
    let mut script = joined(&rt, ESTABLISH, packets.as_str());
    add(&rt, &mut script, "deliver 70\ndeliver 6\ndeliver 7\n");
    let mut wanted = joined(
        &rt,
        "request 1 ike 1 length 148\nreply 2 length 148\nrequest 3 ike 1 length 194\nreply 4 length 194\ncounted ike 1 child 1\n",
        sealed(&rt).as_str(),
    );
    add(
        &rt,
        &mut wanted,
        "up child 1 number 66 4500001400000000400100000a0000010a010001\ndropped E15\nup child 1 number 3 4500001400000000400100000a0000010a010001\n",
    );
    expect_two(
        &rt,
        ["extended no\n", OPENING, script.as_str()],
        [wanted.as_str(), ""],
    );
}

/// The requests by these IKE SAs, as the datagrams of their serials and so many more.
fn requests<R: Abort + AllocGlobal>(
    rt: &R,
    serials: RangeInclusive<u32>,
    more: u32,
    length: u32,
) -> String {
    let mut lines = String::new(rt.alloc());
    for serial in serials {
        let place = serial.saturating_add(more);
        let line = format!(in rt.alloc(); "request {place} ike {serial} length {length}\n").expect(
            rt, "memory",
        );
        add(rt, &mut lines, line.as_str());
    }
    lines
}

#[test]
fn an_end_holds_128_associations(rt: HostRuntime) {
    let script = repeated(&rt, "start A 0\n", 128);
    let wanted = requests(&rt, 1..=128, 0, 148);
    expect_two(
        &rt,
        [OPENING, script.as_str(), "start A 0\n"],
        [wanted.as_str(), "refused E25\n"],
    );
}

/// 33 requests, of which 25 are asked for a cookie. All bring it.
fn begun<R: Abort + AllocGlobal>(rt: &R) -> String {
    let mut script = repeated(rt, "start A 0\n", 33);
    add(rt, &mut script, lines(rt, "deliver ", 1..=33, "").as_str());
    add(rt, &mut script, lines(rt, "deliver ", 42..=66, "").as_str());
    add(rt, &mut script, lines(rt, "deliver ", 67..=91, "").as_str());
    script
}

/// What that prints until the last one.
fn begun_printed<R: Abort + AllocGlobal>(rt: &R) -> String {
    let mut printed = requests(rt, 1..=33, 0, 148);
    add(
        rt,
        &mut printed,
        lines(rt, "reply ", 34..=41, " length 148").as_str(),
    );
    add(
        rt,
        &mut printed,
        lines(rt, "reply ", 42..=66, " length 72").as_str(),
    );
    add(rt, &mut printed, requests(rt, 9..=33, 58, 192).as_str());
    add(
        rt,
        &mut printed,
        lines(rt, "reply ", 92..=115, " length 148").as_str(),
    );
    printed
}

// The last one finds 32 IKE SAs half open.
#[test]
fn half_open_associations(rt: HostRuntime) {
    let script = begun(&rt);
    let wanted = begun_printed(&rt);
    expect_two(
        &rt,
        [OPENING, script.as_str(), ""],
        [wanted.as_str(), "dropped E34\n"],
    );
}

// An end that holds 128 IKE SAs begins no more (E25), and makes none of a request that comes (E34).
#[test]
fn associations_held(rt: HostRuntime) {
    let script = repeated(&rt, "start B 0\n", 129);
    let wanted = requests(&rt, 1..=128, 0, 148);
    expect_two(
        &rt,
        [OPENING, script.as_str(), "start A 0\ndeliver 129\n"],
        [
            wanted.as_str(),
            "refused E25\nrequest 129 ike 1 length 148\ndropped E34\n",
        ],
    );
}

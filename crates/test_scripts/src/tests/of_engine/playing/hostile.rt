//! What comes changed at each of its octets, or cut at each length: it is dropped, and what was sent is
//! taken afterwards as it is.
use super::two::{ESTABLISH, ESTABLISHED, OPENING, expect_two};
use std::panic::Expect;
use std::process::Abort;

/// A asks B whether it is there: datagram 5, of 49 octets.
const ASKS: [&str; 2] = ["probe A 1\n", "request 5 ike 1 length 49\n"];

/// A packet of A on its way to B: datagram 5, of 48 octets.
const SENDS: [&str; 2] = [
    "out A 4500001400000000400100000a0000010a010001\n",
    "sealed 5 child 1 number 1 length 48\n",
];

/// What comes of datagram 5 as it is.
const ANSWERED: &str = "reply 6 length 49\n";

const HANDED_UP: &str = "up child 1 number 1 4500001400000000400100000a0000010a010001\n";

/// Plays how datagram 5 is sent, comes so, is dropped for this refusal, and comes as it is.
fn expect_dropped<R: Abort + AllocGlobal>(
    rt: &R,
    sent: [&str; 2],
    comes: &str,
    fault: u8,
    then: &str,
) {
    let alloc = rt.alloc();
    let played = [sent[0], comes, "deliver 5\n"]
        .concat(alloc)
        .expect(rt, "memory");
    let printed = format!(in alloc; "{}dropped E{fault}\n{then}", sent[1]).expect(rt, "memory");
    expect_two(
        rt,
        [OPENING, ESTABLISH, played.as_str()],
        [ESTABLISHED, printed.as_str()],
    );
}

/// Datagram 5 comes with the octet at a place changed by these bits.
fn expect_changed<R: Abort + AllocGlobal>(
    rt: &R,
    sent: [&str; 2],
    place: u8,
    bits: &str,
    fault: u8,
    then: &str,
) {
    let comes = format!(in rt.alloc(); "damage 5 {place} {bits}\n").expect(rt, "memory");
    expect_dropped(rt, sent, comes.as_str(), fault, then);
}

/// As many of its first octets come of datagram 5.
fn expect_cut<R: Abort + AllocGlobal>(rt: &R, sent: [&str; 2], length: u8, fault: u8, then: &str) {
    let comes = format!(in rt.alloc(); "cut 5 {length}\n").expect(rt, "memory");
    expect_dropped(rt, sent, comes.as_str(), fault, then);
}

#[test]
fn a_request_changed_at_each_octet(rt: HostRuntime) {
    for place in 0..49 {
        // The SPIs, the number, the length; what says where the body begins; all else is under the ICV or in
        // its way.
        let fault = match place {
            0..=15 => 28,
            20..=23 => 31,
            24..=27 => 2,
            30 | 31 => 4,
            _ => 29,
        };
        expect_changed(&rt, ASKS, place, "01", fault, ANSWERED);
    }
    // The flags say a response, and another role.
    expect_changed(&rt, ASKS, 19, "20", 31, ANSWERED);
    expect_changed(&rt, ASKS, 19, "08", 33, ANSWERED);
}

#[test]
fn a_request_cut_at_each_length(rt: HostRuntime) {
    for length in 0..49 {
        let fault = if length < 28 { 1 } else { 2 };
        expect_cut(&rt, ASKS, length, fault, ANSWERED);
    }
}

#[test]
fn a_packet_changed_at_each_octet(rt: HostRuntime) {
    for place in 0..48 {
        let fault = match place {
            0..=3 => 28,
            7 => 17,
            _ => 18,
        };
        expect_changed(&rt, SENDS, place, "01", fault, HANDED_UP);
    }
}

#[test]
fn a_packet_cut_at_each_length(rt: HostRuntime) {
    for length in 0..48 {
        let fault = match length {
            28 | 32 | 36 | 40 | 44 => 18,
            _ => 14,
        };
        expect_cut(&rt, SENDS, length, fault, HANDED_UP);
    }
}

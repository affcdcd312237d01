//! Deletions that no script writes (RFC 7296, sections 1.4.1, 2.5, 2.21.3 and 3.11).
use super::sealing::{INFORMATIONAL, INVALID_SYNTAX, NOTIFY, Sent, asked, counted, reply_to};
use super::{Side, agreed_twice, established, sent};
use crate::tests::asserts::{add, holds, same};
use base::Items;
use gateway::End;
use ike::IkeInput;
use std::alloc::Global;
use std::panic::Expect;
use std::process::Abort;
use test_samples::fresh;

/// The type of a Delete.
const DELETE: u8 = 42;

/// The type of a payload that nobody knows.
const UNKNOWN: u8 = 200;

/// A's message of INFORMATIONAL of this number, whose first payload is a Delete.
fn delete(number: u32) -> Sent {
    Sent {
        exchange: INFORMATIONAL,
        number,
        first: DELETE,
    }
}

/// An SPI of no pair.
const NOWHERE: u32 = 263;

/// The SPI under which A receives by its first child: those of its children are counted from it.
const FIRST: u32 = 4096;

/// The length of a Delete of ESP that names so many SPIs.
fn length(rt: &impl Abort, count: u16) -> u16 {
    let named = count.checked_mul(4).expect(rt, "a length of 16 bits");
    named.checked_add(8).expect(rt, "a length of 16 bits")
}

/// A Delete of ESP that names an SPI so many times.
fn deletion(rt: &impl Abort, alloc: Global, spi: u32, count: u16) -> Vec<u8> {
    let mut octets = Vec::new(alloc);
    add(rt, &mut octets, &[0, 0]);
    add(rt, &mut octets, &length(rt, count).to_be_bytes());
    add(rt, &mut octets, &[3, 4]);
    add(rt, &mut octets, &count.to_be_bytes());
    for _ in 0..count {
        add(rt, &mut octets, &spi.to_be_bytes());
    }
    octets
}

/// As many SPIs as one message may name, and one more: INVALID_SYNTAX, which closes.
#[test]
fn how_many_are_named(rt: HostRuntime) {
    let alloc = rt.alloc();
    let mut b = established(&rt, alloc);
    let most = deletion(&rt, alloc, NOWHERE, 512);
    let said = asked(&rt, alloc, &mut b, delete(2), &most);
    same(&rt, said, Some((49, false)));
    let more = deletion(&rt, alloc, NOWHERE, 513);
    let said = asked(&rt, alloc, &mut b, delete(3), &more);
    same(&rt, said, Some((57, true)));
    holds(&rt, b.table.after(0).is_none());
}

/// Beside a payload that is not known and critical nothing is deleted.
#[test]
fn beside_a_critical_payload(rt: HostRuntime) {
    let alloc = rt.alloc();
    let mut b = established(&rt, alloc);
    let both = [UNKNOWN, 0, 0, 12, 3, 4, 0, 1, 0, 0, 0x10, 0, 0, 0x80, 0, 4];
    let said = asked(&rt, alloc, &mut b, delete(2), &both);
    same(&rt, said, Some((58, false)));
    holds(&rt, b.table.after(0).is_some());
    // Alone it is.
    let alone = deletion(&rt, alloc, FIRST, 1);
    let said = asked(&rt, alloc, &mut b, delete(3), &alone);
    same(&rt, said, Some((61, false)));
    holds(&rt, b.table.after(0).is_none());
}

/// The answer names the SPI under which B receives by that child, in a Delete of ESP (RFC 7296, section
/// 1.4.1).
#[test]
fn the_answer_names_the_other_spi(rt: HostRuntime) {
    let alloc = rt.alloc();
    let mut b = established(&rt, alloc);
    let [a, c, d, e] = inbound_spi(&rt, &b).to_be_bytes();
    let asked = deletion(&rt, alloc, FIRST, 1);
    let (reply, _) = reply_to(&rt, alloc, &mut b, delete(2), &asked).expect(&rt, "an answer");
    // Behind the header and that of SK, whose next payload stands first: the payload, the pad length,
    // the ICV.
    same(&rt, reply.as_slice().get(28).copied(), Some(DELETE));
    let named = [0, 0, 0, 12, 3, 4, 0, 1, a, c, d, e];
    same(&rt, reply.as_slice().get(32..44), Some(named.as_slice()));
}

/// The SPI under which an end receives by its first child.
fn inbound_spi(rt: &impl Abort, side: &Side) -> u32 {
    let pair = side.table.after(0).expect(rt, "a child");
    pair.inbound.spi()
}

/// A child that is named twice goes once, and is named once in the answer.
#[test]
fn named_twice(rt: HostRuntime) {
    let alloc = rt.alloc();
    let mut b = established(&rt, alloc);
    let twice = deletion(&rt, alloc, FIRST, 2);
    let said = asked(&rt, alloc, &mut b, delete(2), &twice);
    same(&rt, said, Some((61, false)));
    holds(&rt, b.table.after(0).is_none());
}

/// Under one IKE SA the child of another is not deleted.
#[test]
fn of_another_association(rt: HostRuntime) {
    let alloc = rt.alloc();
    let mut b = Side::new(&rt, alloc, End::B);
    agreed_twice(&rt, alloc, &mut b);
    let other = deletion(&rt, alloc, FIRST + 1, 1);
    let said = asked(&rt, alloc, &mut b, delete(2), &other);
    same(&rt, said, Some((49, false)));
    holds(&rt, b.table.after(0).is_some());
    holds(&rt, b.table.after(1).is_some());
}

/// B asks something, which goes out as its first request.
fn ask(rt: &impl Abort, alloc: Global, b: &mut Side, order: &IkeInput<'_>) -> Items<u8> {
    sent(rt, b.step(rt, alloc, order))
}

/// INVALID_SYNTAX in an answer closes, whatever was asked.
#[test]
fn told_bad_syntax(rt: HostRuntime) {
    let alloc = rt.alloc();
    let mut b = established(&rt, alloc);
    let fresh = fresh(41);
    let order = IkeInput::Probe {
        ike: 1,
        fresh: &fresh,
    };
    ask(&rt, alloc, &mut b, &order);
    let notice = Sent {
        exchange: INFORMATIONAL,
        number: 0,
        first: NOTIFY,
    };
    let said = counted(&rt, alloc, &mut b, notice, &INVALID_SYNTAX);
    same(&rt, said, Some((None, true)));
    holds(&rt, b.table.after(0).is_none());
}

/// An answer that is not in the grammar counts as one: the child goes.
#[test]
fn answered_out_of_the_grammar(rt: HostRuntime) {
    let alloc = rt.alloc();
    let mut b = established(&rt, alloc);
    let fresh = fresh(41);
    let order = IkeInput::DeleteChild {
        child: 1,
        fresh: &fresh,
    };
    ask(&rt, alloc, &mut b, &order);
    holds(&rt, b.table.after(0).is_some());
    let said = counted(&rt, alloc, &mut b, delete(0), &[0, 0, 0]);
    same(&rt, said, Some((None, false)));
    holds(&rt, b.table.after(0).is_none());
}

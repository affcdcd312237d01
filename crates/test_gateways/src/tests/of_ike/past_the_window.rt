//! A request that comes one number too soon at an end that takes one at a time (RFC 7296, section 2.3).
use super::{Side, agree, asked, dropped, empty, is_answered, is_repeated, request};
use crate::tests::asserts::{holds, same};
use association::MessageFault;
use base::Items;
use caller_script::ScriptCaller;
use exchange::{Role, open_message};
use gateway::End;
use ike::IkeOutput;
use sadb::{State, Table};
use std::alloc::Global;
use std::panic::Expect;
use std::process::Abort;
use wire::decode_message;

/// B, which takes one request at a time and answered those of the numbers 0 to 3.
fn after_four(rt: &impl Abort, alloc: Global) -> Side {
    let mut a = Side::of_window(rt, alloc, End::A, 1, Table::new(alloc, 4096));
    let mut b = Side::of_window(rt, alloc, End::B, 1, Table::new(alloc, 8192));
    agree(rt, alloc, &mut a, &mut b, 1);
    for number in 2..=3 {
        holds(rt, is_answered(asked(rt, alloc, &mut b, number, 20)));
    }
    b
}

/// Whether a message opens under the initiator's keys.
fn opens(rt: &impl Abort, alloc: Global, b: &Side, octets: &[u8]) -> bool {
    let keys = Role::Initiator.keys(b.ike.keys_of(1).expect(rt, "keys"));
    let message = decode_message(alloc, octets).expect(rt, "a message");
    let opened = open_message(alloc, &ScriptCaller, &keys, octets, &message);
    opened.expect(rt, "memory").is_some()
}

/// The number of why what came is passed over.
fn code(output: &IkeOutput) -> Option<u8> {
    match output {
        IkeOutput::Dropped(fault) => Some(fault.code()),
        _ => None,
    }
}

/// The octets of an answer that leaves the IKE SA open.
fn answer(rt: &impl Abort, output: IkeOutput) -> Items<u8> {
    match output {
        IkeOutput::Reply {
            octets,
            closed: None,
        } => octets,
        _ => panic!(rt; "not answered"),
    }
}

/// Finds that a request is answered by an empty message of its number, under the responder's key.
fn is_answered_so(rt: &impl Abort, alloc: Global, b: &mut Side, number: u32) {
    let key = b.ike.keys_of(1).expect(rt, "keys").sk_ar;
    let wanted = empty(rt, alloc, 0x20, number, &key);
    let found = answer(rt, asked(rt, alloc, b, number, 21));
    same(rt, found.as_slice(), wanted.as_slice());
}

/// What can be seen of an end without a message: how many IKE SAs it holds, its next moment, and its first pair
/// with the pair behind that.
fn seen(b: &Side) -> (usize, Option<u64>, [Option<(u32, State)>; 2]) {
    let first = pair_behind(b, 0);
    let second = match first {
        Some((serial, _)) => pair_behind(b, serial),
        None => None,
    };
    (
        b.ike.associations().len(),
        b.ike.next_moment(),
        [first, second],
    )
}

fn pair_behind(b: &Side, serial: u32) -> Option<(u32, State)> {
    let pair = b.table.after(serial)?;
    Some((pair.serial, pair.state))
}

/// Number 5 comes where 4 is expected: its octets open, are refused, and are answered once 4 was.
#[test]
fn one_past_a_window_of_one(rt: HostRuntime) {
    let alloc = rt.alloc();
    let mut b = after_four(&rt, alloc);
    let octets = request(&rt, alloc, 5, &b.key(&rt));
    let before = seen(&b);
    holds(&rt, opens(&rt, alloc, &b, &octets));
    let said = b.take(&rt, alloc, &octets, 22);
    same(&rt, code(&said), Some(31));
    same(&rt, dropped(said), Some(MessageFault::OutsideWindow));
    same(&rt, seen(&b), before);
    holds(&rt, is_repeated(asked(&rt, alloc, &mut b, 3, 23)));
    is_answered_so(&rt, alloc, &mut b, 4);
    is_answered_so(&rt, alloc, &mut b, 5);
}

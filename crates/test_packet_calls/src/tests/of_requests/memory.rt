//! Runs that pass whether an allocation fails or not: what was refused on allocation failure left everything
//! as it was. Each is to be run with every allocation failing in turn.
use super::fixture::{accept, issue};
use crate::tests::asserts::{holds_at, same};
use requests::{Incoming, Judgement, Outgoing, RequestFault};
use std::alloc::Global;
use std::process::Abort;

#[test]
fn taking_without_memory(rt: HostRuntime) {
    let mut incoming = Incoming::new(rt.alloc());
    for number in 0..20 {
        holds_at(
            &rt,
            number,
            matches!(incoming.judge(number), Judgement::Fresh),
        );
        while_refused(&rt, rt.alloc(), &mut incoming, number);
        holds_at(
            &rt,
            number,
            matches!(incoming.judge(number), Judgement::Repeat(_)),
        );
    }
}

/// Offers a number until it is taken; it stays fresh till then.
fn while_refused(rt: &impl Abort, alloc: Global, incoming: &mut Incoming, number: u32) {
    for _ in 0..3 {
        match accept(incoming, alloc, number, &[1, 2, 3]) {
            Ok(taken) => {
                holds_at(rt, number, taken);
                return;
            }
            Err(_) => holds_at(
                rt,
                number,
                matches!(incoming.judge(number), Judgement::Fresh),
            ),
        }
    }
}

#[test]
fn issuing_without_memory(rt: HostRuntime) {
    let mut outgoing: Outgoing<u32> = Outgoing::new(rt.alloc());
    outgoing.set_window(16);
    let mut next: u32 = 0;
    for request in 0..30 {
        match issue(&mut outgoing, request) {
            Ok(number) => {
                same(&rt, number, next);
                next = next.wrapping_add(1);
            }
            Err(RequestFault::Memory) => same(&rt, outgoing.may_issue(), Ok(next)),
            Err(fault) => {
                same(&rt, fault, RequestFault::Busy);
                same(&rt, next, 16);
            }
        }
    }
    same(&rt, next, 16);
}

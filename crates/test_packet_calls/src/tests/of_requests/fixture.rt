//! Calls that a test may make at any time, and what was asked for by them.
ghost use Rattle.std.specs.Prelude.{IsTrue, IsSome};
ghost use Rattle.requests.specs.Incoming.{IsFreshRequest};
ghost use Rattle.requests.specs.Outgoing.{IsOutstanding};

use base::Items;
use requests::{Incoming, Judgement, Outgoing, RequestFault};
use std::alloc::{AllocError, Global};

/// Whether a number is fresh.
fn is_fresh(incoming: &Incoming, number: u32) -> bool
    ensures { IsTrue result → IsFreshRequest incoming.now number }
{
    match incoming.judge(number) {
        Judgement::Fresh => true,
        Judgement::Repeat(_) | Judgement::Forgotten | Judgement::Outside => false,
    }
}

/// Makes room and takes a fresh number.
fn take(incoming: &mut Incoming, number: u32, reply: Items<u8>) -> Result<(), AllocError>
    requires { IsFreshRequest incoming.old number }
{
    incoming.prepare()?;
    incoming.take(number, reply);
    Ok(())
}

/// Takes a number with its reply, if it is fresh, and answers whether it was.
pub fn accept(
    incoming: &mut Incoming,
    alloc: Global,
    number: u32,
    reply: &[u8],
) -> Result<bool, AllocError> {
    let reply = Items::from_slice(alloc, reply)?;
    if !is_fresh(incoming, number) {
        return Ok(false);
    }
    take(incoming, number, reply)?;
    Ok(true)
}

/// Makes room and issues a request.
pub fn issue(outgoing: &mut Outgoing<u32>, request: u32) -> Result<u32, RequestFault> {
    let told = outgoing.prepare()?;
    let number = outgoing.issue(request);
    prove!(told == number);
    Ok(number)
}

/// Counts the answer to a request, if it is outstanding.
pub fn count(outgoing: &mut Outgoing<u32>, number: u32) -> Option<u32> {
    if outgoing.get(number).is_none() {
        return None;
    }
    Some(outgoing.count(number))
}

/// Takes a request back, if it is outstanding.
pub fn withdraw(outgoing: &mut Outgoing<u32>, number: u32) -> Option<u32> {
    if outgoing.get(number).is_none() {
        return None;
    }
    Some(outgoing.withdraw(number))
}

/// Puts something else in the place of a request, if it is outstanding.
pub fn replace(outgoing: &mut Outgoing<u32>, number: u32, request: u32) -> Option<u32> {
    if outgoing.get(number).is_none() {
        return None;
    }
    Some(outgoing.replace(number, request))
}

/// Changes some bits of a request in its place, if it is outstanding, and answers whether it is.
pub fn update(outgoing: &mut Outgoing<u32>, number: u32, bits: u32) -> bool {
    if outgoing.get(number).is_none() {
        return false;
    }
    outgoing.update(number, |request| request ^ bits);
    true
}

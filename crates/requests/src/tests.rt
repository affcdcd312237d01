//! The last Message IDs of 32 bits. No public call comes near them, so these two stand here; the other tests
//! stand in `test_packet_calls`.
ghost use Rattle.std.specs.Prelude.{IsTrue, IsSome};
ghost use Rattle.requests.specs.Incoming.{IsFreshRequest};

use crate::{Incoming, Judgement, Outgoing, RequestFault, incoming, outgoing};
use base::Items;
use std::alloc::{AllocError, Global};
use std::test::Fail;

/// Whether a Message ID is fresh.
fn is_fresh(incoming: &Incoming, number: u32) -> bool
    ensures { IsTrue result → IsFreshRequest incoming.now number }
{
    match incoming.judge(number) {
        Judgement::Fresh => true,
        Judgement::Repeat(_) | Judgement::Forgotten | Judgement::Outside => false,
    }
}

/// Takes a Message ID without a response, if it is fresh, and answers whether it was.
fn accept(incoming: &mut Incoming, alloc: Global, number: u32) -> Result<bool, AllocError> {
    if !is_fresh(incoming, number) {
        return Ok(false);
    }
    incoming.prepare()?;
    incoming.take(number, Items::new(alloc));
    Ok(true)
}

/// Makes room and issues a request.
fn issue(outgoing: &mut Outgoing<u32>, request: u32) -> Result<u32, RequestFault> {
    outgoing.prepare()?;
    Ok(outgoing.issue(request))
}

/// Counts the answer to a request, if it is outstanding.
fn count(outgoing: &mut Outgoing<u32>, number: u32) -> Option<u32> {
    if outgoing.get(number).is_none() {
        return None;
    }
    Some(outgoing.count(number))
}

#[test]
fn the_last_numbers_of_the_peer(rt: HostRuntime) -> Result<(), Fail> {
    let most = u32::MAX;
    let mut incoming = incoming::tests::after_all_below(rt.alloc(), most - 2);
    incoming.set_size(16);
    assert_eq!(rt; incoming.judge(most - 3), Judgement::Forgotten);
    for number in [most, most - 2, most - 1] {
        assert!(rt; accept(&mut incoming, rt.alloc(), number)?);
    }
    // The gap is 2^32 now.
    assert_eq!(rt; incoming.judge(most), Judgement::Repeat(&[]));
    assert_eq!(rt; incoming.judge(most - 2), Judgement::Repeat(&[]));
    assert!(rt; !accept(&mut incoming, rt.alloc(), most)?);
    Ok(())
}

#[test]
fn the_last_own_numbers(rt: HostRuntime) -> Result<(), Fail> {
    let most = u32::MAX;
    let mut outgoing: Outgoing<u32> = outgoing::tests::after_all_below(rt.alloc(), most - 1);
    outgoing.set_window(4);
    assert_eq!(rt; issue(&mut outgoing, 1), Ok(most - 1));
    assert_eq!(rt; issue(&mut outgoing, 2), Ok(most));
    assert_eq!(rt; issue(&mut outgoing, 3), Err(RequestFault::NumbersSpent));
    assert_eq!(rt; count(&mut outgoing, most), Some(2));
    assert_eq!(rt; count(&mut outgoing, most - 1), Some(1));
    assert_eq!(rt; outgoing.may_issue(), Err(RequestFault::NumbersSpent));
    Ok(())
}

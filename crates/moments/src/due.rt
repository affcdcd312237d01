//! What is due of one IKE SA.
ghost use Rattle.std.specs.Prelude.{◌≡◌, ◌≢◌, ◌<◌, ◌≤◌, ◌^◌, ◌++◌, [], true, IfOk, OnOk, OnErr, length};
ghost use Rattle.moments.specs.Due.{after_sending, due_of, has_failed, is_due, is_over, is_unanswered, outstanding_count, outstanding_of, resent, SendsAgain};
ghost use Rattle.moments.specs.Passing.{one_due, RestartsAt};
ghost use Rattle.requests.specs.Outgoing.{IsOutstanding};

use crate::Resent;
use association::{Association, Phase, Request};
use base::Items;
use requests::{Due, Outgoing};
use std::alloc::{AllocError, Global};
use wire::numbers::IKE_SA_INIT;

// How long an IKE SA is held that is half-open, in milliseconds.
pub(crate) const HALF_OPEN_TIME: u64 = 30_000;

// How long one is held that is closed.
pub(crate) const CLOSED_TIME: u64 = 120_000;

// Whether it is held no longer.
pub(crate) fn is_over(association: &Association, now: u64) -> bool
    ensures { result ≡ is_over now association.now.phase }
{
    match &association.phase {
        Phase::HalfOpen(opened) => now.saturating_sub(opened.made) >= HALF_OPEN_TIME,
        Phase::Closed { at, .. } => now.saturating_sub(*at) >= CLOSED_TIME,
        _ => false,
    }
}

// Whether a request was sent for the last time and not answered in time.
pub(crate) fn has_failed(association: &Association, now: u64) -> bool
    ensures { result ≡ has_failed now association.now }
{
    association
        .outgoing
        .any(|request| is_unanswered(request, now))
}

// Whether one was sent for the last time and not answered in time.
fn is_unanswered(request: &Request, now: u64) -> bool
    ensures { result ≡ is_unanswered now request.now }
{
    request.timer.due(now) == Due::Over
}

// Adds the requests that are due, by rising Message ID.
pub(crate) fn append_due(
    alloc: Global,
    requests: &mut Items<Resent>,
    association: &Association,
    now: u64,
) -> Result<(), AllocError>
    ensures ok { OnOk result (requests.new ≡ requests.old ++ due_of now association.now) }
    ensures refused { OnErr result (due_of now association.now ≢ []) }
{
    for (number, request) in association.outgoing.iter() {
        append_one(alloc, requests, association, number, request, now)?;
    }
    Ok(())
}

// Adds a request, if it is due.
fn append_one(
    alloc: Global,
    requests: &mut Items<Resent>,
    association: &Association,
    number: u32,
    request: &Request,
    now: u64,
) -> Result<(), AllocError>
    ensures ok { OnOk result (requests.new ≡ requests.old ++ one_due now association.now number request.now) }
    ensures refused { OnErr result (is_due now request.now ≡ true) }
    ensures fits { number < 2 ^ 32 }
{
    if request.timer.due(now) == Due::Again {
        requests.push(resent(alloc, association, number, request)?)?;
    }
    Ok(())
}

// A request as it goes out again.
fn resent(
    alloc: Global,
    association: &Association,
    number: u32,
    request: &Request,
) -> Result<Resent, AllocError>
    ensures { IfOk result (λ again. again ≡ resent association.now (number, request.now)) }
{
    Ok(Resent {
        ike: association.serial,
        number,
        encrypted: request.purpose.exchange() != IKE_SA_INIT,
        octets: Items::from_slice(alloc, request.octets.as_slice())?,
    })
}

// Notes of the requests that are due that they were sent at this time. Takes no memory.
pub(crate) fn send_again(association: &mut Association, now: u64)
    ensures { SendsAgain now association.old association.new }
{
    let mut number = None;
    while let Some((next, _)) = association.outgoing.after(number) {
        restart(&mut association.outgoing, next, now);
        number = Some(next);
    }
}

// Notes it of one of them, if it is due.
fn restart(outgoing: &mut Outgoing<Request>, number: u32, now: u64)
    requires { IsOutstanding outgoing.old number }
    ensures restarts { RestartsAt now outgoing.old number outgoing.new }
    ensures fits { number < 2 ^ 32 }
{
    outgoing.update(number, |request| sent_again(request, now));
}

// A request after a tick.
fn sent_again(request: Request, now: u64) -> Request
    ensures { result ≡ after_sending now request }
{
    if request.timer.due(now) == Due::Again {
        Request {
            timer: request.timer.sent_again(now),
            ..request
        }
    } else {
        request
    }
}

/// How many requests wait for an answer, of all IKE SAs. No more go out again at a tick
/// ([`no_more_go_out_than_wait`](crate::laws::no_more_go_out_than_wait)). Takes no memory.
pub fn outstanding_count(associations: &[Association]) -> usize
    ensures { result ≡ outstanding_count associations.now }
{
    let mut count = 0;
    for association in associations {
        count += count_of(association);
    }
    count
}

// How many of one IKE SA.
fn count_of(association: &Association) -> usize
    ensures count { result ≡ length (outstanding_of association.now) }
    ensures few { result ≤ 16 }
{
    association.outgoing.len()
}

//! When something is due next.
ghost use Rattle.std.specs.Prelude.{◌≡◌, ◌<◌, ◌^◌, ℕ, false, true, IfSome, Some};
ghost use Rattle.std.specs.FinMap as numbers;
ghost use Rattle.requests.specs.Timers.{due_from};
ghost use Rattle.association.specs.declared.phase.Request.{Request};
ghost use Rattle.moments.specs.Due.{is_over};
ghost use Rattle.moments.specs.Held.{HasNothingDue};
ghost use Rattle.moments.specs.Next.{earlier, HasSomethingDue, IsBefore, NothingIsDueBefore, SomeRequestIsDue, SomethingIsDue};

use crate::due::{CLOSED_TIME, HALF_OPEN_TIME};
use association::{Association, Phase};

/// The least time at which something is due of these IKE SAs, in milliseconds: a request goes out again, one
/// has failed, or an IKE SA is over. None where nothing is due at any time of 64 bits. Takes no memory.
///
/// Before that time [`tick`](crate::tick) changes nothing and sends nothing
/// ([`nothing_comes_before_the_next_moment`](crate::laws::nothing_comes_before_the_next_moment)), and at it
/// something comes ([`what_is_due_comes`](crate::laws::what_is_due_comes)).
pub fn next_due(associations: &[Association]) -> Option<u64>
    ensures early { NothingIsDueBefore result associations.now }
    ensures due { IfSome result (λ moment. SomethingIsDue moment associations.now) }
{
    let mut next = None;
    for association in associations {
        next = earlier(next, next_of(association));
    }
    next
}

// Of one IKE SA.
fn next_of(association: &Association) -> Option<u64>
    ensures early { (now : ℕ) → now < 2 ^ 64 → IsBefore now result → HasNothingDue now association.now }
    ensures due { IfSome result (λ moment. HasSomethingDue moment association.now) }
{
    earlier(end_of(association), next_request(association))
}

// The first time at which it is over.
fn end_of(association: &Association) -> Option<u64>
    ensures early { (now : ℕ) → now < 2 ^ 64 → IsBefore now result → is_over now association.now.phase ≡ false }
    ensures due { IfSome result (λ moment. is_over moment association.now.phase ≡ true) }
{
    match &association.phase {
        Phase::HalfOpen(opened) => opened.made.checked_add(HALF_OPEN_TIME),
        Phase::Closed { at, .. } => at.checked_add(CLOSED_TIME),
        _ => None,
    }
}

// The first time at which one of its requests is due.
fn next_request(association: &Association) -> Option<u64>
    ensures early { (now : ℕ) → now < 2 ^ 64 → IsBefore now result
        → (number : ℕ) (request : Request)
        → numbers.get association.now.outgoing.outstanding number ≡ Some request
        → now < due_from request.timer }
    ensures due { IfSome result (λ moment. SomeRequestIsDue moment association.now) }
{
    let mut first = None;
    for (_, request) in association.outgoing.iter() {
        first = earlier(first, request.timer.moment());
    }
    first
}

// The earlier one of two times, where None never comes.
fn earlier(one: Option<u64>, other: Option<u64>) -> Option<u64>
    ensures { result ≡ earlier one other }
{
    match (one, other) {
        (None, other) => other,
        (Some(one), None) => Some(one),
        (Some(one), Some(other)) => Some(one.min(other)),
    }
}

//! What an initiator asks of the answer to its offer.
ghost use Rattle.std.specs.Prelude.{IsTrue, ◌↔◌};
ghost use Rattle.policy.specs.Narrowing.{AnswersOffer, LiesInOffer};

use crate::selectors::{has_point, lies_in};
use base::Selector;

/// Whether an answer keeps to the offer (RFC 7296 section 2.9): it is not empty, each of its selectors has
/// a point, and all points of the selector lie in one that was offered. Takes no memory.
pub fn are_inside(answer: &[Selector], offered: &[Selector]) -> bool
    ensures { IsTrue result ↔ AnswersOffer answer.now offered.now }
{
    if answer.is_empty() {
        return false;
    }
    for selector in answer {
        if !is_inside_one(selector, offered) {
            return false;
        }
    }
    true
}

// Whether a selector has a point, and lies in one of those offered.
fn is_inside_one(selector: &Selector, offered: &[Selector]) -> bool
    ensures { IsTrue result ↔ LiesInOffer offered.now selector.now }
{
    if !has_point(selector) {
        return false;
    }
    for other in offered {
        if lies_in(selector, other) {
            return true;
        }
    }
    false
}

//! The requests of either end: which are processed, what is remembered of them, and how retransmissions are
//! answered.
ghost use Rattle.effects.specs.LawsOfRequests.{FurtherOrdersSendRequests, NewRequestsTakeEffect, NumbersTakeEffectByTheirRequestAlone, OnlyRepeatsAreAnsweredAgain, OrdersSendRequests, RepeatsAreAnswered, RequestsFollowThoseBefore, RequestsLeaveItSound, RequestsPassOrTakeEffect, TheConcludedStaysConcluded, TheForgottenIsRefused, TheHalfOpenWereSoBefore, ThePeersWindowStaysOrIsWidened, TheWindowStaysOrIsWidened, WhatBeginsIsSound, WhatIsAdmittedIsSound, WhatIsHeldStaysSound, WhatIsRepliedToTakesEffect, WhoIsEstablishedWidensBothWindows};

use association::laws::{
    receptions_are_determined, receptions_say_why, repeats_say_why, what_is_due_is_received,
};
use auth::laws::windows_are_read_again;
use requests::laws::later_incoming_follow;

/// A command at an established IKE SA sends one request to the peer: a liveness check, a deletion, or a
/// request for an additional Child SA.
pub fn orders_send_requests()
    ensures ordered { OrdersSendRequests }
    ensures further { FurtherOrdersSendRequests }
{}

/// A Message ID takes effect only by a request that bears it. The ID is not in effect and lies in the window,
/// the exchange is allowed in the phase, and the request opens under the peer's keys. It is answered, and the
/// response is cached. Each such request is processed (RFC 7296, sections 2.1 to 2.3).
pub fn requests_take_effect()
    ensures alone { NumbersTakeEffectByTheirRequestAlone }
    ensures always { NewRequestsTakeEffect }
    ensures otherwise { RequestsPassOrTakeEffect }
    ensures replied { WhatIsRepliedToTakesEffect }
{
    later_incoming_follow();
    receptions_are_determined();
    receptions_say_why();
    what_is_due_is_received();
}

/// What was processed is remembered (RFC 7296, sections 2.1 to 2.3). The peer's requests in effect only grow.
/// Their window widens once, when IKE_AUTH establishes the IKE SA, to the one that this end announces; so
/// does the window for this end's requests, to the one that the message announces. An IKE SA that is
/// half-open was so before, by the same request with the same response. What is kept satisfies its invariant
/// from the beginning on.
pub fn requests_are_remembered()
    ensures follows { RequestsFollowThoseBefore }
    ensures concluded { TheConcludedStaysConcluded }
    ensures window { TheWindowStaysOrIsWidened }
    ensures peers { ThePeersWindowStaysOrIsWidened }
    ensures widens { WhoIsEstablishedWidensBothWindows }
    ensures half_open { TheHalfOpenWereSoBefore }
    ensures sound { WhatIsHeldStaysSound }
    ensures begun { WhatBeginsIsSound }
    ensures admitted { WhatIsAdmittedIsSound }
    ensures requested { RequestsLeaveItSound }
{
    later_incoming_follow();
    receptions_say_why();
    windows_are_read_again();
}

/// A retransmitted request that opens gets the cached response. Where that is kept no more, it is dropped as
/// forgotten (E30). Nothing else gets a cached response.
pub fn repeats_are_answered()
    ensures repeated { RepeatsAreAnswered }
    ensures forgotten { TheForgottenIsRefused }
    ensures only { OnlyRepeatsAreAnsweredAgain }
{
    repeats_say_why();
}

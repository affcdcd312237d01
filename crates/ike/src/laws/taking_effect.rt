//! The peer's requests: which are processed, what is remembered of them, and how retransmissions are
//! answered.
ghost use Rattle.ike.specs.LawsOfRequests.{InitialRepeatsAreAnswered, InitialRepeatsAreRefusedForMemoryAlone, NewRequestsTakeEffect, NumbersTakeEffectByTheirDatagramAlone, OnlyRepeatsAreAnsweredAgain, OnlyWhatTakesEffectIsRepliedTo, RepeatsAreAnswered, RequestsAreRefusedForMemoryAlone, RequestsAreQuietOrNew, RequestsFollowThoseBefore, SerialsAreBelowTheNext, SerialsRise, TheConcludedStaysConcluded, TheForgottenIsDropped, TheHalfOpenWereSoBefore, TheWindowStaysOrIsWidened, WhatComesHalfOpenIsAdmitted, WhatComesHasTheNextSerial, WhatIsGoneWasGivenUp, WhatIsHeldIsSound, TheEstablishedHaveTheirWindowWidened};

use crate::laws::what_is_quiet_changes_nothing;
use effects::laws::associations_stay_themselves;
use moments::laws::{some_are_held_on, what_is_held_was_held};
use requests::laws::later_incoming_follow;
use wire::laws::{octets_spell_one_message, what_is_spelled_has_no_fault};

/// A request of the peer is processed by its own datagram alone (RFC 7296, sections 2.1 to 2.3). The
/// datagram opens as the request with that Message ID. The ID is not in effect yet and lies below the
/// lowest missing one plus the window, and the exchange is allowed in the IKE SA's phase. The request is
/// answered, and the response is kept.
///
/// Each such datagram is processed, unless it is refused on allocation failure. Any other datagram that opens
/// changes nothing. Only a request that is processed, or one of IKE_SA_INIT, gets a new response.
pub fn requests_take_effect()
    ensures alone { NumbersTakeEffectByTheirDatagramAlone }
    ensures always { NewRequestsTakeEffect }
    ensures otherwise { RequestsAreQuietOrNew }
    ensures replied { OnlyWhatTakesEffectIsRepliedTo }
{
    associations_stay_themselves();
    effects::laws::requests_take_effect();
    effects::laws::requests_are_remembered();
    effects::laws::repeats_are_answered();
    later_incoming_follow();
    octets_spell_one_message();
    some_are_held_on();
    what_is_spelled_has_no_fault();
}

/// What was processed stays in effect and is remembered, whatever a step does.
///
/// - Of an IKE SA that stays held, the requests in effect only grow. The window widens once, when IKE_AUTH
///   is done, to the one that this end announces. Whenever an IKE SA becomes established, its window is widened so.
/// - One that is half open was so before, by the same request with the same response, or has become so by
///   the request that came and the response that was sent.
/// - A new IKE SA has the next serial. It has no request in effect, or that of IKE_SA_INIT. It is held
///   until a `Tick` at which it expires.
/// - Serials rise, and what is kept of each IKE SA satisfies its invariant.
pub fn requests_are_remembered()
    ensures follows { RequestsFollowThoseBefore }
    ensures concluded { TheConcludedStaysConcluded }
    ensures window { TheWindowStaysOrIsWidened }
    ensures widens { TheEstablishedHaveTheirWindowWidened }
    ensures gone { WhatIsGoneWasGivenUp }
    ensures half_open { TheHalfOpenWereSoBefore }
    ensures admitted { WhatComesHalfOpenIsAdmitted }
    ensures begun { WhatComesHasTheNextSerial }
    ensures given { SerialsAreBelowTheNext }
    ensures soundly { WhatIsHeldIsSound }
    ensures rises { SerialsRise }
{
    associations_stay_themselves();
    effects::laws::requests_take_effect();
    effects::laws::requests_are_remembered();
    effects::laws::repeats_are_answered();
    later_incoming_follow();
    octets_spell_one_message();
    some_are_held_on();
    what_is_held_was_held();
    what_is_spelled_has_no_fault();
}

/// A retransmission gets the cached response, and changes nothing. It is a datagram that opens as a request
/// whose response is kept, or has the very octets of the IKE_SA_INIT request that made an IKE SA which is
/// still half open. A request in effect whose response is no longer kept is dropped (E30). None of these is
/// refused but on allocation failure, and nothing else gets a cached response (RFC 7296, section 2.1).
pub fn repeats_are_answered()
    ensures repeated { RepeatsAreAnswered }
    ensures forgotten { TheForgottenIsDropped }
    ensures first { InitialRepeatsAreAnswered }
    ensures only { OnlyRepeatsAreAnsweredAgain }
    ensures unrefused { RequestsAreRefusedForMemoryAlone }
    ensures unrefused_first { InitialRepeatsAreRefusedForMemoryAlone }
{
    associations_stay_themselves();
    effects::laws::requests_take_effect();
    effects::laws::requests_are_remembered();
    effects::laws::repeats_are_answered();
    later_incoming_follow();
    octets_spell_one_message();
    what_is_quiet_changes_nothing();
    what_is_spelled_has_no_fault();
}

//! What holds of two gateways: what is stored of them, and their requests.
ghost use Rattle.gateway.specs.LawsOfWorlds.{EachEndHasItsHistory, EachEndHasItsRun, EndsOfASoundWorldAgree, EveryTrailStaysSound, EveryWorldStaysSound, EveryWorldStaysSoundOverCalls, NewWorldsAreSound, WhatIsNotMadeTwiceWasNot, WhatIsStoredStays, WhatIsUnforgedByThenIsUnforged, WhatWasSentStaysSent};

use ike::laws::{steps_are_moves, traces_name_what_is_held};
use lockstep::laws::{
    each_party_stays_sound, parties_keep_in_step, parties_stay_sound,
    what_was_sent_under_keys_is_told,
};

/// At each end a run of a world is a run of its gateway alone, over its own events in order, whatever
/// happens at the other end. Its steps are those of the world at this end.
pub fn each_end_has_its_events<C>()
    ensures run { EachEndHasItsRun C }
    ensures history { EachEndHasItsHistory C }
{}

/// Nothing that is stored of a world is ever forgotten. What comes later is stored behind it.
pub fn what_is_stored_stays<C>()
    ensures { WhatIsStoredStays C }
{}

/// A world of two new gateways is sound under every key record (`begun`). Every list of events keeps a
/// world sound under each record under which no message was forged and to which neither end came twice.
/// That holds of whatever history the list has (`trail`, `run`), and over many calls in a row (`calls`).
///
/// No forgery can be assumed in two forms: what opened was sent before it came, or it is among what is
/// stored after the whole list. The first implies the second (`by_then`), so for the end of the list the
/// second is asked. Keys that are not made twice by a later time were not by an earlier one (`not_twice`),
/// and what was sent stays sent (`still_sent`). Of a step of IKE the proof uses its moves and its trace
/// alone.
pub fn every_world_stays_sound<C>()
    ensures begun { NewWorldsAreSound C }
    ensures trail { EveryTrailStaysSound C }
    ensures run { EveryWorldStaysSound C }
    ensures calls { EveryWorldStaysSoundOverCalls C }
    ensures by_then { WhatIsUnforgedByThenIsUnforged C }
    ensures not_twice { WhatIsNotMadeTwiceWasNot }
    ensures still_sent { WhatWasSentStaysSent }
{
    steps_are_moves();
    traces_name_what_is_held();
    each_party_stays_sound();
    parties_keep_in_step();
    parties_stay_sound();
    what_was_sent_under_keys_is_told();
}

/// Message IDs keep in step. Take a world that is sound under a key record, and an IKE SA that one end
/// holds under it as initiator and the other as responder. For the requests of either end:
///
/// - what was processed at the answering end was issued by the asking end, and what that counts as answered
///   was processed;
/// - both keep within the windows, as the asking end counts the other's;
/// - where it counts a window of one, the requests that were processed are the first ones, and those answered
///   are the same or all but the last.
///
/// What an end took, the other sent, also where the other holds the IKE SA no more. As each request and as
/// each response one message alone was sent (RFC 7296, sections 2.1 to 2.3).
pub fn ends_of_a_sound_world_agree<C>()
    ensures { EndsOfASoundWorldAgree C }
{
    each_party_stays_sound();
    parties_keep_in_step();
    what_was_sent_under_keys_is_told();
}

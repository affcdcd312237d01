//! What a step does to what the machine holds: one thing, by few moves, and but for a tick to one
//! IKE SA.
ghost use Rattle.ike.specs.LawsOfSteps.{FreshOctetsOpen, OneAssociationIsChanged, RefusalsAreDetermined, StepsAreDetermined, StepsAreMoves, StepsKeepTheirLaws, WhatIsDoneIsNotRefused, WhatIsQuietChangesNothing};

use crate::laws::{
    answers_keep_to_their_offers, children_are_extended_where_allowed,
    children_are_made_of_their_messages, children_have_few_selectors,
    no_association_without_a_cookie, requests_take_effect, the_established_proved_themselves,
    traces_name_what_is_held,
};
use effects::laws::{
    associations_stay_themselves, beginnings_are_determined, effects_are_determined, keys_stay,
    messages_make_moves, messages_open, orders_are_short_and_determined,
    what_goes_out_again_is_kept, what_is_passed_over_changes_nothing, what_is_sealed_opens,
};
use moments::laws::{
    ticks_are_determined, what_comes_is_due, what_goes_out_again_is_outstanding,
    what_is_held_was_held,
};
use sa_init::laws::judgements_are_determined;
use sadb::laws::later_tables_are_determined;
use suite::Sealer;
use wire::laws::{
    first_faults_are_determined, octets_spell_one_message, plain_spellings_are_determined,
    what_is_spelled_has_no_fault,
};

/// A step that is no `Tick` changes one IKE SA at most, and no other's pairs.
pub fn one_association_is_changed()
    ensures { OneAssociationIsChanged }
{
    associations_stay_themselves();
    effects::laws::pairs_stay_as_they_were();
}

/// Dropped and retransmitted datagrams leave everything unchanged.
pub fn what_is_quiet_changes_nothing()
    ensures { WhatIsQuietChangesNothing }
{
    what_is_passed_over_changes_nothing();
}

/// A step is functional. Output, trace, machine and table follow from the input and from what machine and
/// table held before, whatever spare capacity they have. A step that can be done is refused on allocation
/// failure alone, and every other refusal has one reason. A datagram has to be of octets, the cipher's
/// lengths have to follow from those of the plain text, as its law says, and keys have to have 32 octets
/// each, as they keep ([`super::keys_stay_whole`]).
pub fn steps_are_determined()
    ensures steps { StepsAreDetermined }
    ensures steps_or_refusals { WhatIsDoneIsNotRefused }
    ensures refusals { RefusalsAreDetermined }
{
    beginnings_are_determined();
    effects_are_determined();
    orders_are_short_and_determined();
    ticks_are_determined();
    first_faults_are_determined();
    judgements_are_determined();
    later_tables_are_determined();
    octets_spell_one_message();
    plain_spellings_are_determined();
    what_is_spelled_has_no_fault();
}

/// What a step does to an IKE SA with keys, seen without its payloads, is at most two *moves*. A move is
/// one of: keys are made; a request is sent first; a response is matched; a request of the peer is processed;
/// the IKE SA is closed; or it is held no more. The moves lead from the *ledger* before (keys,
/// role, Message IDs, and octets that wait or are kept) to the ledger after, so nothing else in it changes.
///
/// - The output names each move, and nothing that isn't one. What is sent under the IKE SA's keys is sent
///   by a move or is a cached response. What a `Tick` retransmits waits for its answer; beside
///   retransmissions there are no moves.
/// - A request that is processed, or a response that is matched, came as that message of the peer. Keys
///   come by a datagram of IKE_SA_INIT.
/// - Where the cipher opens what it seals ([`fresh_octets_open`]), a request or response that is sent opens
///   as this end's message with that Message ID (RFC 7296, sections 2.1 to 2.4 and 3.14).
pub fn steps_are_moves()
    ensures { StepsAreMoves }
{
    associations_stay_themselves();
    keys_stay();
    effects::laws::keys_stay_whole();
    messages_make_moves();
    messages_open();
    what_comes_is_due();
    what_goes_out_again_is_kept();
    what_goes_out_again_is_outstanding();
    what_is_held_was_held();
}

/// Every provider's cipher meets what [`steps_are_moves`] assumes: with 16 fresh octets it opens what it
/// seals, by the law of [`Sealer`].
pub fn fresh_octets_open<S: Sealer>(sealer: &S)
    ensures { FreshOctetsOpen S.body_of S.plain_of }
{
    what_is_sealed_opens(sealer);
}

/// What [`Ike::step`](crate::Ike::step) promises beside what its input does: the moves, which requests of
/// the peer come into effect, who is established, what the trace names and what goes in clear, of what a
/// Child SA is made and what an answer holds, that one IKE SA is changed but for a tick, and that no datagram
/// makes a half-open one without a right cookie under load. Each is a law of its own. Beside them no command
/// sends a request under an IKE SA that waits for the answer to its own deletion.
pub fn steps_keep_their_laws()
    ensures { StepsKeepTheirLaws }
{
    steps_are_moves();
    requests_take_effect();
    the_established_proved_themselves();
    traces_name_what_is_held();
    one_association_is_changed();
    children_have_few_selectors();
    children_are_made_of_their_messages();
    children_are_extended_where_allowed();
    answers_keep_to_their_offers();
    no_association_without_a_cookie();
}

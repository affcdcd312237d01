//! What follows from the definitions alone. No function here does anything.
ghost use Rattle.std.specs.Prelude.{◌≡◌, ℕ, List, Some, slice_get};
ghost use Rattle.base.specs.Octets.{Octets};
ghost use Rattle.policy.specs.declared.entry.Entry.{Entry};
ghost use Rattle.setup.specs.declared.config.Config.{Config};
ghost use Rattle.effects.specs.Taking.{meaning_of, Meaning};
ghost use Rattle.gateway.specs.Histories.{IsHistory, IsPassage, Passage};
ghost use Rattle.gateway.specs.Inputs.{Event, Input};
ghost use Rattle.gateway.specs.Outputs.{Sealed};
ghost use Rattle.gateway.specs.WorldHistories.{Happening, IsWorldHistory, passages_at};
ghost use Rattle.gateway.specs.Worlds.{WorldState, gateway_at};
ghost use Rattle.gateway.specs.declared.world.stored.End.{End};
ghost use Rattle.gateway.specs.States.{State, new_gateway};
ghost use Rattle.gateway.specs.declared.output.Output.{Output};
ghost use Rattle.gateway.specs.Carrying.{EachPairIsOfAnEstablished, KeepsSettings, OnlyTheKnownCarry, OnlyTheProvedCarry, SealsWhatIsProtected};
ghost use Rattle.gateway.specs.Closing.{IsOverBy, NothingIsCarriedAfter};
ghost use Rattle.gateway.specs.Inside.{LiesInside};
ghost use Rattle.laws_authenticated.specs.WorkedBeside.{LeavesARequestOut};
ghost use Rattle.laws_authenticated.specs.WorkedClosings.{CanLeaveAStrangerOut, IsClosedByItsPeer};
ghost use Rattle.laws_authenticated.specs.WorkedPartners.{IsWorkedPartner};
ghost use Rattle.laws_authenticated.specs.WorkedStrangers.{IsMetByAStranger};

use gateway::laws::each_end_has_its_events;
use ike::laws::{
    children_are_made_of_their_messages, no_spi_is_lost, requests_are_remembered, soundness_stays,
    steps_keep_their_laws, traces_name_what_is_held,
};
use moments::laws::{pairs_go_with_their_associations, some_are_held_on, what_is_held_was_held};
use traffic::laws::later_tables_follow;
use wire::laws::octets_spell_one_message;

/// Each SA pair in the table belongs to an IKE SA that is held and established (RFC 4301, section 4.4.2):
/// in a new gateway, which has no pair, and after every step of a gateway of which it held before. So where
/// an IKE SA is closed, by a message of its peer or by a tick, its pairs go. While a command to delete it
/// waits for its answer they stand.
pub fn pairs_belong_to_the_established<C>()
    ensures begun { (config : Config) (entries : List Entry) (start : ℕ) (caller : C)
        → EachPairIsOfAnEstablished (new_gateway config entries start caller) }
    ensures stepped { (meaning_of : C → Meaning) (p : Passage C) → IsPassage meaning_of p
        → EachPairIsOfAnEstablished p.before → EachPairIsOfAnEstablished p.after }
{
    steps_keep_their_laws();
    children_are_made_of_their_messages();
    requests_are_remembered();
    traces_name_what_is_held();
    what_is_held_was_held();
    pairs_go_with_their_associations();
}

/// Only the authenticated carry (RFC 7296, section 2.15; RFC 4301, sections 4.4.2 and 4.4.3). Over every
/// list of inputs, whatever comes, three things are of a Child SA whose pair stands before the step, of an
/// IKE SA that is established then: each SA pair in the table, each ESP packet that is accepted, and each
/// output that delivers or seals one or calls one a dummy.
///
/// - That IKE SA was so before the list and ever since; or at an earlier step its peer proved itself, and it
///   has been established ever since. *Proved itself* means by a datagram that opened under its keys, to what
///   the caller's check accepts of the configured identity.
/// - The Child SA was there before the list; or at an earlier step a datagram made it, of that IKE SA and
///   under the same keys of it. Ever since the IKE SA has been established.
///
/// It asks that each pair is of an established IKE SA before the list, as in every gateway, and leaves it
/// so (`known`). Of a new gateway both were steps of the list (`proved`).
/// Configuration, policy and provider are those of the beginning before each step (`settings`). A packet is
/// sealed only for one that was given to go out and that the policy protects (`sealed`).
pub fn only_the_authenticated_carry<C>()
    ensures known { (meaning_of : C → Meaning) (inputs : List Input) (outputs : List Output) (old new : State C)
        (passages : List (Passage C))
        → IsHistory meaning_of inputs outputs old new passages
        → EachPairIsOfAnEstablished old
        → OnlyTheKnownCarry meaning_of passages × EachPairIsOfAnEstablished new }
    ensures proved { (meaning_of : C → Meaning) (config : Config) (entries : List Entry) (start : ℕ) (caller : C)
        (inputs : List Input) (outputs : List Output) (new : State C) (passages : List (Passage C))
        → IsHistory meaning_of inputs outputs (new_gateway config entries start caller) new passages
        → OnlyTheProvedCarry meaning_of passages }
    ensures settings { (meaning_of : C → Meaning) (inputs : List Input) (outputs : List Output) (old new : State C)
        (passages : List (Passage C)) (place : ℕ) (p : Passage C)
        → IsHistory meaning_of inputs outputs old new passages
        → slice_get passages place ≡ Some p
        → KeepsSettings old p }
    ensures sealed { (meaning_of : C → Meaning) (p : Passage C) (child number : ℕ) (octets : Octets)
        → IsPassage meaning_of p
        → p.said ≡ Sealed child number octets
        → SealsWhatIsProtected child number octets p }
{
    steps_keep_their_laws();
    children_are_made_of_their_messages();
    requests_are_remembered();
    traces_name_what_is_held();
    what_is_held_was_held();
    pairs_go_with_their_associations();
}

/// So it is at each end of a world of two gateways, as `gateway::run_world` plays it, over every list of
/// events of either end in whatever order.
pub fn at_each_end_only_the_authenticated_carry<C>()
    ensures known { (meaning_of : C → Meaning) (end : End) (events : List Event) (outputs : List Output)
        (old new : WorldState C) (happenings : List (Happening C))
        → IsWorldHistory meaning_of events outputs old new happenings
        → EachPairIsOfAnEstablished (gateway_at end old)
        → OnlyTheKnownCarry meaning_of (passages_at end happenings)
        × EachPairIsOfAnEstablished (gateway_at end new) }
    ensures proved { (meaning_of : C → Meaning) (end : End) (config : Config) (entries : List Entry) (start : ℕ)
        (caller : C) (events : List Event) (outputs : List Output)
        (old new : WorldState C) (happenings : List (Happening C))
        → gateway_at end old ≡ new_gateway config entries start caller
        → IsWorldHistory meaning_of events outputs old new happenings
        → OnlyTheProvedCarry meaning_of (passages_at end happenings) }
{
    each_end_has_its_events::<C>();
    only_the_authenticated_carry::<C>();
}

/// Once an IKE SA is closed, or held no more, nothing is carried for it (RFC 4301, section 4.4.2; RFC 7296,
/// sections 1.4.1 and 2.4). Over every list of inputs, take a step with which an IKE SA is so that was held
/// before it, or before an earlier one. At each later step, whatever comes:
///
/// - it is so still: it isn't established again, and its serial isn't given again;
/// - no SA pair in the table names it (`held`), nor does one after the list (`left`);
/// - each ESP packet that is accepted, and each output that delivers or seals one or calls one a dummy, is of
///   a Child SA whose pair stands and names another IKE SA (`accepted`, `said`);
/// - no Child SA whose pair ever named it has a pair, a packet that is accepted, or such an output (`own`).
///
/// It asks that each pair is of an established IKE SA before the list (`closed`), as in every gateway
/// (of a new one `begun`), and after every list from one on. So it is at either end of a world, over its own steps
/// (`at_each_end`). While a command to delete an IKE SA waits for its answer, that one isn't closed yet.
pub fn a_closed_association_carries_nothing_more<C>()
    ensures closed { (meaning_of : C → Meaning) (inputs : List Input) (outputs : List Output)
        (old new : State C) (passages : List (Passage C)) (place serial : ℕ)
        → IsHistory meaning_of inputs outputs old new passages
        → EachPairIsOfAnEstablished old
        → IsOverBy passages place serial
        → NothingIsCarriedAfter passages place serial new }
    ensures begun { (meaning_of : C → Meaning) (config : Config) (entries : List Entry) (start : ℕ)
        (caller : C) (inputs : List Input) (outputs : List Output) (new : State C)
        (passages : List (Passage C)) (place serial : ℕ)
        → IsHistory meaning_of inputs outputs (new_gateway config entries start caller) new passages
        → IsOverBy passages place serial
        → NothingIsCarriedAfter passages place serial new }
    ensures at_each_end { (meaning_of : C → Meaning) (end : End) (events : List Event) (outputs : List Output)
        (old new : WorldState C) (happenings : List (Happening C)) (place serial : ℕ)
        → IsWorldHistory meaning_of events outputs old new happenings
        → EachPairIsOfAnEstablished (gateway_at end old)
        → IsOverBy (passages_at end happenings) place serial
        → NothingIsCarriedAfter (passages_at end happenings) place serial (gateway_at end new) }
{
    each_end_has_its_events::<C>();
    steps_keep_their_laws();
    children_are_made_of_their_messages();
    requests_are_remembered();
    traces_name_what_is_held();
    what_is_held_was_held();
    pairs_go_with_their_associations();
    some_are_held_on();
    later_tables_follow();
}

/// Each SA pair, and each Child SA that an IKE SA waits for, lies inside the policy (RFC 4301, section
/// 4.4.1; RFC 7296, section 2.9): what is remote to this end lies inside the remote side of an entry that
/// protects, and what is local inside the local side of the same one.
///
/// So it is in a new gateway, and after every step of one of which it held before (`begun`, `stepped`):
/// before each step of a list and after it (`kept`).
pub fn children_lie_inside_the_policy<C>()
    ensures begun { (config : Config) (entries : List Entry) (start : ℕ) (caller : C)
        → LiesInside (new_gateway config entries start caller) }
    ensures stepped { (meaning_of : C → Meaning) (p : Passage C) → IsPassage meaning_of p
        → LiesInside p.before → LiesInside p.after }
    ensures kept { (meaning_of : C → Meaning) (inputs : List Input) (outputs : List Output) (old new : State C)
        (passages : List (Passage C)) (place : ℕ) (p : Passage C)
        → IsHistory meaning_of inputs outputs old new passages
        → LiesInside old
        → slice_get passages place ≡ Some p
        → LiesInside p.before × LiesInside new }
{
    steps_keep_their_laws();
    children_are_made_of_their_messages();
    requests_are_remembered();
    traces_name_what_is_held();
    what_is_held_was_held();
    pairs_go_with_their_associations();
    effects::laws::children_are_made_of_their_messages();
    some_are_held_on();
}

/// The premises of `gateway::laws::strangers_change_nothing` are met by a gateway that holds keys, in a run
/// of two new gateways that set up an IKE SA with its first Child SA. A datagram with the SPIs of that IKE
/// SA and the Message ID that is due asks to delete it, and isn't encrypted (RFC 7296, sections 1.4 and
/// 1.4.1). It opens under no keys, and so it is strange: the gateway drops it and stays as it was. The
/// request of the peer that comes next, with the same SPIs and Message ID, would count there.
///
/// So it is for whatever values of whatever type. What the callers mean is fixed, hides nothing, and keeps
/// the laws of the traits.
pub fn a_stranger_is_met_from_new_gateways_on<C>()
    ensures { (a b : C) → IsMetByAStranger a b }
{
    no_spi_is_lost();
    octets_spell_one_message();
    soundness_stays();
}

/// The premises of [`a_closed_association_carries_nothing_more`] are met, by the same run. The deletion comes
/// in clear, which changes nothing. Then the peer is told to delete the IKE SA, and its request comes
/// encrypted. The IKE SA is closed, and the deletion answered (RFC 7296, section 1.4.1). The SA pair of its
/// Child SA stood before that step, and goes with it.
pub fn an_association_is_closed_by_its_peer_from_new_gateways_on<C>()
    ensures { (a b : C) → IsClosedByItsPeer a b }
{
    no_spi_is_lost();
    soundness_stays();
}

/// The premises of `gateway::laws::what_has_no_effect_can_be_left_out` are met, by the same run. The
/// stranger's datagram is left out, and the peer's own brings the IKE SA to its end as it does with it.
pub fn a_stranger_is_left_out_from_new_gateways_on<C>()
    ensures { (a b : C) → CanLeaveAStrangerOut a b }
{
    no_spi_is_lost();
    octets_spell_one_message();
    soundness_stays();
}

/// The premises of
/// [`an_established_initiator_has_a_partner`](gateway::laws::an_established_initiator_has_a_partner),
/// [`an_established_responder_has_a_partner`](gateway::laws::an_established_responder_has_a_partner) and
/// [`a_partner_is_the_only_one`](gateway::laws::a_partner_is_the_only_one) are met, by a run of two new gateways
/// that set up an IKE SA with its first Child SA (RFC 7296, section 1.2). Every datagram comes once, as it was
/// sent.
///
/// No proof is forged in it. Each end accepts a proof of the other one, over octets that this one had proved
/// before, so that premise asks something at either end. No nonce is drawn twice, since no end begins or makes a
/// second IKE SA, and there is one record of keys. The end that answered is established by the request of
/// IKE_AUTH, the one that began by its response, and each has its partner at the other.
///
/// So it is for whatever values of whatever type. What the callers mean is fixed, hides nothing, and keeps
/// the laws of the traits. Either check accepts whatever proof there is: that none is forged lies in what
/// came.
pub fn the_premises_of_a_partner_are_met<C>()
    ensures { (a b : C) → IsWorkedPartner a b }
{
    no_spi_is_lost();
    soundness_stays();
}

/// All that [`strangers_can_be_left_out`](gateway::laws::strangers_can_be_left_out) asks of two runs is met by two
/// of a new gateway. In the first one it answers a stranger's request for an IKE SA and drops an ESP packet. Then
/// it drops a datagram for an IKE SA that there isn't, and begins one of its own, whose serial is 2. In the second
/// one the first two don't come, and the serial is 1.
pub fn a_request_is_left_out_from_new_gateways_on<C>()
    ensures { (caller : C) → LeavesARequestOut caller }
{
    no_spi_is_lost();
    octets_spell_one_message();
    soundness_stays();
}

//! Who is established has a partner at the other end.
ghost use Rattle.std.specs.Prelude.{◌≡◌, ℕ, List, Some, slice_get};
ghost use Rattle.association.specs.declared.phase.HalfOpen.{HalfOpen};
ghost use Rattle.suite.specs.declared.key_record.KeyRecord.{KeyRecord};
ghost use Rattle.effects.specs.Taking.{meaning_of};
ghost use Rattle.gateway.specs.Agreeing.{HasAsker, HasPartner, IsEstablishedAsInitiator, IsEstablishedAsResponder};
ghost use Rattle.gateway.specs.Agreeing.{NoProofIsForged, NoTwoRecordsProveAlike};
ghost use Rattle.gateway.specs.DrawnNonces.{EachAnswerDrawsItsNonce, EachNonceIsDrawnOnce};
ghost use Rattle.gateway.specs.WorldHistories.{Happening, IsWorldTrail};
ghost use Rattle.gateway.specs.Worlds.{HoldsNothing, WorldState, gateway_at};
ghost use Rattle.gateway.specs.declared.world.stored.End.{End};

use effects::laws::associations_stay_themselves;
use ike::laws::{
    both_ends_make_one_record, children_are_made_of_their_messages, each_association_is_sound,
    each_association_was_there_or_came, first_messages_introduce_their_senders,
    first_requests_tell_what_is_held, keys_come_by_what_is_read, soundness_stays,
    the_established_proved_themselves, traces_name_what_is_held, who_asks_has_read,
    who_is_half_open_was_so, who_waits_keeps_its_offer,
};
use proved_octets::laws::what_is_proved_tells_its_parts;
use suite::{Agreement, Proof, Sealer};
use wire::laws::octets_spell_one_message;

/// An established initiator has a partner (RFC 7296, sections 1.2, 2.10 and 2.15). Take a world of two new
/// gateways, any history of it, and a step at which the response of IKE_AUTH establishes an IKE SA of one end.
///
/// The other end had made an IKE SA of the very request of IKE_SA_INIT that this end sent. This end had read the
/// very response that the other answered. The other end's IKE SA was established at an earlier step, under the
/// same keys.
///
/// Two things are assumed. No proof is forged: where an end's check accepts a proof of its peer over some octets,
/// and an IKE SA is established by it, the other end had proved these octets before (`NoProofIsForged`). And no
/// end is given one nonce twice, as fresh octets of two steps with which it begins an IKE SA
/// (`EachNonceIsDrawnOnce`). That it has no second partner, [`a_partner_is_the_only_one`] says.
pub fn an_established_initiator_has_a_partner<C: Sealer + Agreement + Proof>()
    ensures { (happenings : List (Happening C)) (old new : WorldState C)
        → IsWorldTrail
        (meaning_of C.Sealer C.Agreement C.Proof)
        old happenings new
        → ((end : End) → HoldsNothing (gateway_at end old))
        → NoProofIsForged
        (meaning_of C.Sealer C.Agreement C.Proof)
        happenings
        → EachNonceIsDrawnOnce happenings
        → (place serial : ℕ) (h : Happening C) (end : End) (keys : KeyRecord)
        → slice_get happenings place ≡ Some h
        → IsEstablishedAsInitiator h end serial keys → HasPartner happenings place end serial keys }
{
    associations_stay_themselves();
    both_ends_make_one_record::<C>();
    children_are_made_of_their_messages();
    each_association_is_sound();
    each_association_was_there_or_came();
    first_messages_introduce_their_senders();
    first_requests_tell_what_is_held();
    keys_come_by_what_is_read();
    octets_spell_one_message();
    soundness_stays();
    the_established_proved_themselves();
    traces_name_what_is_held();
    what_is_proved_tells_its_parts();
    who_asks_has_read();
    who_is_half_open_was_so();
    who_waits_keeps_its_offer();
}

/// An established responder has a partner (RFC 7296, sections 1.2, 2.10 and 2.15). Take a world of two new
/// gateways, any history of it, and a step at which the request of IKE_AUTH establishes an IKE SA of one end.
///
/// The other end had sent the very request of IKE_SA_INIT that this IKE SA was made of. At a later step it had
/// read a response and asked by IKE_AUTH, under the same keys as this IKE SA now has.
///
/// Two things are assumed. No proof is forged (`NoProofIsForged`). And no two records of keys under which the
/// ends hold IKE SAs prove alike (`NoTwoRecordsProveAlike`), since what an initiator proves names its keys by a
/// MAC of its identity alone. That the other end read the very response, isn't said: it tells that by the proof
/// that this end gives now, so [`an_established_initiator_has_a_partner`] says it of an end that took that.
pub fn an_established_responder_has_a_partner<C: Sealer + Agreement + Proof>()
    ensures { (happenings : List (Happening C)) (old new : WorldState C)
        → IsWorldTrail
        (meaning_of C.Sealer C.Agreement C.Proof)
        old happenings new
        → ((end : End) → HoldsNothing (gateway_at end old))
        → NoProofIsForged
        (meaning_of C.Sealer C.Agreement C.Proof)
        happenings
        → NoTwoRecordsProveAlike happenings
        → (place serial : ℕ) (h : Happening C) (end : End) (keys : KeyRecord)
        → slice_get happenings place ≡ Some h
        → (is : IsEstablishedAsResponder h end serial keys) → HasAsker happenings place end is.opened keys }
{
    associations_stay_themselves();
    children_are_made_of_their_messages();
    each_association_is_sound();
    each_association_was_there_or_came();
    first_messages_introduce_their_senders();
    first_requests_tell_what_is_held();
    keys_come_by_what_is_read();
    octets_spell_one_message();
    soundness_stays();
    the_established_proved_themselves();
    traces_name_what_is_held();
    what_is_proved_tells_its_parts();
    who_asks_has_read();
    who_is_half_open_was_so();
    who_waits_keeps_its_offer();
}

/// A partner is the only one (RFC 7296, section 2.10). Over every history of two new gateways, all that an end's
/// IKE SAs of one record of keys have as partners is one IKE SA of the other end.
///
/// - `initiator`: where no end answers two requests of IKE_SA_INIT with one nonce (`EachAnswerDrawsItsNonce`).
/// - `responder`: where no end begins two IKE SAs with one nonce (`EachNonceIsDrawnOnce`).
///
/// Whatever else is forged, and at whichever steps the two partners are found.
pub fn a_partner_is_the_only_one<C: Sealer + Agreement + Proof>()
    ensures initiator { (happenings : List (Happening C)) (old new : WorldState C)
        → IsWorldTrail
        (meaning_of C.Sealer C.Agreement C.Proof)
        old happenings new
        → EachAnswerDrawsItsNonce happenings
        → (place other : ℕ) (end : End) (serial another : ℕ) (keys : KeyRecord)
        → (one : HasPartner happenings place end serial keys) → (two : HasPartner happenings other end another keys)
        → one.partner ≡ two.partner }
    ensures responder { (happenings : List (Happening C)) (old new : WorldState C)
        → IsWorldTrail
        (meaning_of C.Sealer C.Agreement C.Proof)
        old happenings new
        → ((end : End) → HoldsNothing (gateway_at end old))
        → EachNonceIsDrawnOnce happenings
        → (place other : ℕ) (end : End) (opened another : HalfOpen) (keys : KeyRecord)
        → (one : HasAsker happenings place end opened keys) → (two : HasAsker happenings other end another keys)
        → one.partner ≡ two.partner }
{
    associations_stay_themselves();
    both_ends_make_one_record::<C>();
    children_are_made_of_their_messages();
    each_association_is_sound();
    each_association_was_there_or_came();
    first_messages_introduce_their_senders();
    first_requests_tell_what_is_held();
    keys_come_by_what_is_read();
    octets_spell_one_message();
    soundness_stays();
    the_established_proved_themselves();
    traces_name_what_is_held();
    what_is_proved_tells_its_parts();
    who_asks_has_read();
    who_is_half_open_was_so();
    who_waits_keeps_its_offer();
}

//! What follows from the definitions alone. No function here does anything.
ghost use Rattle.std.specs.Prelude.{◌≡◌, ◌≤◌, ◌∷◌, ℕ, Contains, List, None, Some, slice_get};
ghost use Rattle.base.specs.Octets.{Octets};
ghost use Rattle.suite.specs.declared.key_record.KeyRecord.{KeyRecord};
ghost use Rattle.association.specs.declared.phase.Association.{Association};
ghost use Rattle.sadb.specs.Database.{pair_at};
ghost use Rattle.sadb.specs.declared.pair.Pair.{Pair};
ghost use Rattle.effects.specs.Taking.{meaning_of, Meaning};
ghost use Rattle.lockstep.specs.Promises.{lacking_below};
ghost use Rattle.gateway.specs.BothEnds.{IsWhollySound};
ghost use Rattle.gateway.specs.Inputs.{Event};
ghost use Rattle.gateway.specs.Outputs.{OutputView, Sealed};
ghost use Rattle.gateway.specs.WorldHistories.{Happening, IsWorldTrail};
ghost use Rattle.gateway.specs.WorldParties.{AreBothHeld};
ghost use Rattle.gateway.specs.WorldWindows.{window_at};
ghost use Rattle.gateway.specs.Worlds.{datagram_at, datagram_of, gateway_at, other_end, simplex_of, TakesEvent, WorldState};
ghost use Rattle.gateway.specs.declared.world.stored.Datagram.{Datagram};
ghost use Rattle.gateway.specs.declared.world.stored.End.{End};
ghost use Rattle.gateway.specs.declared.world.stored.Protection.TheVariants as mark;
ghost use Rattle.laws_two_ends.specs.GoingOut.{GoesOut, IsStoredAsSent};
ghost use Rattle.ike.specs.Records.{Introduction};
ghost use Rattle.laws_two_ends.specs.WorkedRecords.{IsWorkedRecord};
ghost use Rattle.laws_two_ends.specs.WorldRecords.{CameToKeysAsInitiator, CameToKeysAsResponder};
ghost use Rattle.laws_two_ends.specs.WorkedExchanges.{IsWorkedExchange};
ghost use Rattle.laws_two_ends.specs.WorkedRuns.{IsRunFromNewGateways};

use gateway::laws::{
    ends_of_a_sound_world_agree, new_worlds_are_wholly_sound, windows_are_those_told,
};
use ike::laws::{
    both_ends_make_one_record, keys_come_by_what_is_read, no_spi_is_lost, soundness_stays,
};
use lockstep::laws::what_was_sent_under_keys_is_told;
use suite::{Agreement, Proof, Sealer};
use wire::laws::octets_spell_one_message;

/// The premises of one record are met: an initiator and a responder come to one record of keys by the two
/// messages of one IKE_SA_INIT, the initiator reading the very octets with which the responder answers the
/// very octets that it sent. The caller's cipher hides nothing, and all laws of its traits hold.
pub fn the_premises_of_one_record_are_met()
    ensures { IsWorkedRecord }
{}

/// What took place in a world, in whatever order (as `gateway::run_world` tells it by a history): where an
/// IKE SA of one step came to its keys as initiator, and one of another step as responder, each from
/// the SPI, the value of the key exchange and the nonce that the other holds of itself, both have one
/// record of keys (RFC 7296, section 2.14). It asks neither that the world is sound nor that nothing was
/// forged, and the steps may be those of whichever ends.
pub fn the_ends_of_a_world_make_one_record<C: Sealer + Agreement + Proof>()
    ensures { (old new : WorldState C) (happenings : List (Happening C))
        → IsWorldTrail
        (meaning_of C.Sealer C.Agreement C.Proof)
        old happenings new
        → (place other_place : ℕ) (h g : Happening C)
        → slice_get happenings place ≡ Some h → slice_get happenings other_place ≡ Some g
        → (initiator responder : Introduction) (one other : KeyRecord)
        → CameToKeysAsInitiator C.public_value h initiator responder one
        → CameToKeysAsResponder C.public_value g responder initiator other
        → one ≡ other }
{
    both_ends_make_one_record::<C>();
    keys_come_by_what_is_read();
}

/// In a wholly sound world, as `gateway::run_world` keeps it, no more requests of an end wait for their
/// answer than the other end is set to take at once, of each IKE SA that one of them holds as
/// initiator and the other as responder (RFC 7296, section 2.3).
pub fn no_more_waits_than_the_other_end_takes<C: Sealer + Agreement + Proof>()
    ensures { (keys : KeyRecord) (world : WorldState C) → IsWhollySound C.body_of C.plain_of keys world
        → (end : End) (asking answering : Association) → AreBothHeld keys end world asking answering
        → lacking_below asking.outgoing.answered asking.outgoing.next ≤ window_at (other_end end) world }
{
    ends_of_a_sound_world_agree::<C>();
    windows_are_those_told::<C>();
}

/// Whatever goes out at a step of a world is stored as sent by its end, a packet with the SPI and the key
/// that its pair sends under and with its number. The first that was stored is the datagram 1, and there is
/// none of the number 0.
pub fn what_goes_out_is_stored<C>()
    ensures sent { (meaning_of : C → Meaning) (event : Event) (old new : WorldState C) (said : OutputView)
        → TakesEvent meaning_of event old said new
        → (octets : Octets) → GoesOut said octets → IsStoredAsSent event.end octets new.stored }
    ensures packet { (meaning_of : C → Meaning) (event : Event) (old new : WorldState C)
        (child number : ℕ) (octets : Octets) (pair : Pair)
        → TakesEvent meaning_of event old (Sealed child number octets) new
        → pair_at (gateway_at event.end new).table.pairs child ≡ Some pair
        → Contains new.stored.sent
        (datagram_of event.end (mark.Esp (simplex_of pair.outbound.association) number) octets) }
    ensures counted { (first : Datagram) (others : List Datagram)
        → (datagram_at (first ∷ others) 0 ≡ None) × (datagram_at (first ∷ others) 1 ≡ Some first.octets) }
{}

/// The premises of what is promised of both ends of a world are met, all at once, by a run of one that
/// begins with two new gateways: an IKE SA is set up by IKE_SA_INIT and IKE_AUTH, with its first Child SA
/// (RFC 7296, section 1.2); a packet goes out at the end that asked for the child, comes to the other and
/// is delivered there; and that end asks whether the other is there (section 2.4), which answers. Every
/// datagram comes once, as it was sent, and nothing but answers goes the other way. So it is for whatever
/// values of whatever type: what the callers mean is fixed, hides nothing, and keeps the laws of the traits.
pub fn the_premises_are_met_from_new_gateways_on<C>()
    ensures { (a b : C) → IsRunFromNewGateways a b }
{
    new_worlds_are_wholly_sound::<C>();
    no_spi_is_lost();
    octets_spell_one_message();
    soundness_stays();
    what_was_sent_under_keys_is_told();
}

/// The premises of `gateway::laws::both_ends_hold_one_record` are met, by a run of two new gateways whose callers hide
/// nothing: the one in which they set up an IKE SA and its first Child SA. Every datagram
/// comes once, as it was sent.
pub fn the_premises_of_an_exchange_are_met<C>()
    ensures { (a b : C) → IsWorkedExchange a b }
{
    new_worlds_are_wholly_sound::<C>();
    no_spi_is_lost();
    octets_spell_one_message();
    soundness_stays();
    what_was_sent_under_keys_is_told();
}

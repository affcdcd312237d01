//! What two gateways agree on beside their requests: Child SAs, packets and windows.
ghost use Rattle.effects.specs.Taking.{meaning_of};
ghost use Rattle.gateway.specs.LawsOfBothEnds.{BothEndsHoldOneRecord, BothEndsKeepTheirPromises, CallsInARowKeepBothEnds, NewWorldsAreWhollySound, WindowsAccountedForFit, WindowsStayAccountedFor};
ghost use Rattle.std.specs.Prelude.{◌≡◌, ℕ, Contains, List, Some, slice_get};
ghost use Rattle.base.specs.Octets.{Octets};
ghost use Rattle.suite.specs.declared.key_record.KeyRecord.{KeyRecord};
ghost use Rattle.gateway.specs.BothEnds.{IsWhollySound};
ghost use Rattle.gateway.specs.Outputs.{Up};
ghost use Rattle.gateway.specs.States.{IsSoundState, State};
ghost use Rattle.gateway.specs.WorldHistories.{Happening, IsWorldTrail};
ghost use Rattle.gateway.specs.WorldPackets.{WasSealedByOther};
ghost use Rattle.gateway.specs.Worlds.{new_world, HoldsNothing, WorldState};
ghost use Rattle.gateway.specs.declared.world.stored.Child.{Child};
ghost use Rattle.gateway.specs.Origin.{IsUnforgedUpTo};

use crate::laws::every_world_stays_sound;
use auth::laws::windows_are_read_again;
use children::laws::children_mirror;
use deliveries::laws::{every_list_of_packets_is_judged, other_changes_leave_windows};
use effects::laws::associations_stay_themselves;
use further::laws::further_children_mirror;
use ike::laws::{
    both_ends_make_one_record, each_association_is_sound, each_association_was_there_or_came,
    first_messages_introduce_their_senders, first_requests_tell_what_is_held,
    keys_come_by_what_is_read, one_association_is_changed, soundness_stays, steps_are_moves,
    traces_name_what_is_held, what_goes_out_under_keys_is_sealed, what_is_sealed_opens_to_itself,
    what_is_told_was_taken, who_waits_keeps_its_offer,
};
use lockstep::laws::{each_party_stays_sound, what_was_sent_under_keys_is_told};
use moments::laws::some_are_held_on;
use suite::{Agreement, Proof, Sealer};
use traffic::laws::{
    a_packet_takes_one_number, no_pair_comes, what_one_end_seals_the_other_hands_up,
};
use wire::laws::octets_spell_one_message;

/// A world of two new gateways satisfies the full invariant under every key record, whatever the cipher.
pub fn new_worlds_are_wholly_sound<C>()
    ensures { NewWorldsAreWhollySound C }
{
    every_world_stays_sound::<C>();
}

/// Both ends hold one record of keys (RFC 7296, sections 1.2, 2.6 and 2.14). Over every history of a world of
/// two gateways, take an IKE SA of one end and one of the other, each by its serial. The first told its SPI,
/// the value of its key exchange and its nonce in a request of IKE_SA_INIT, and the second was made of a
/// request that tells the same. What the second told in its answer, the response told by which the first came
/// to its keys. Then, where both are held after the history, they have one record of keys.
///
/// It asks for what these messages tell, and that secrets have their 32 octets, as their type says. It asks
/// neither that one record is known to be theirs, nor that the world is sound under it, nor that nothing was
/// forged: the messages may differ in everything else. Cookies, copies and whatever else came between change
/// nothing. That both came to one record follows by the agreement's law.
pub fn both_ends_hold_one_record<C: Sealer + Agreement + Proof>()
    ensures { BothEndsHoldOneRecord C (meaning_of C.Sealer C.Agreement C.Proof) }
{
    associations_stay_themselves();
    both_ends_make_one_record::<C>();
    each_association_is_sound();
    each_association_was_there_or_came();
    first_messages_introduce_their_senders();
    first_requests_tell_what_is_held();
    keys_come_by_what_is_read();
    soundness_stays();
    traces_name_what_is_held();
    who_waits_keeps_its_offer();
}

/// Every list of events, whatever its history, keeps what is promised of both ends beside their requests.
/// The Child SAs that both ends made of one request mirror each other. Each was made of the payloads of that
/// request and of its response, which one end sealed and the other opened (RFC 7296, sections 2.9 and
/// 2.17). What such a child delivers, the other end sealed (RFC 4301, sections 5.1 and 5.2).
pub fn both_ends_keep_their_promises<C: Sealer + Agreement + Proof>()
    ensures { BothEndsKeepTheirPromises C C.body_of C.plain_of (meaning_of C.Sealer C.Agreement C.Proof) }
{
    a_packet_takes_one_number();
    both_ends_hold_one_record::<C>();
    every_list_of_packets_is_judged();
    every_world_stays_sound::<C>();
    children_mirror();
    each_association_is_sound();
    further_children_mirror();
    ike::laws::children_are_made_of_their_messages();
    ike::laws::keys_stay_whole();
    no_pair_comes();
    octets_spell_one_message();
    one_association_is_changed();
    other_changes_leave_windows();
    some_are_held_on();
    steps_are_moves();
    traces_name_what_is_held();
    traffic::laws::later_tables_follow();
    what_goes_out_under_keys_is_sealed();
    what_is_sealed_opens_to_itself::<C>();
    what_one_end_seals_the_other_hands_up();
    windows_are_those_told::<C>();
}

/// So calls in a row keep it, each from where the one before ended: as one call does over the list of all
/// their events. The lists have the events that each call took. A window that one call told is not exceeded
/// at a later one. The children of one request mirror each other, whichever calls made them. What goes up at
/// a later call had been sealed before.
pub fn calls_in_a_row_keep_both_ends<C: Sealer + Agreement + Proof>()
    ensures { CallsInARowKeepBothEnds C C.body_of C.plain_of (meaning_of C.Sealer C.Agreement C.Proof) }
{
    both_ends_keep_their_promises::<C>();
}

/// Neither end assumes a wider window than its peer is configured with. This holds over every list of
/// events in which no message under the key record was forged and neither end came to the record twice.
/// Each end announces its window in IKE_AUTH, and what one end sealed is what the other opens (RFC 7296,
/// section 2.3).
pub fn windows_are_those_told<C: Sealer + Agreement + Proof>()
    ensures stays { WindowsStayAccountedFor C C.body_of C.plain_of (meaning_of C.Sealer C.Agreement C.Proof) }
    ensures fit { WindowsAccountedForFit C C.body_of C.plain_of }
{
    each_association_is_sound();
    each_party_stays_sound();
    what_goes_out_under_keys_is_sealed();
    what_is_sealed_opens_to_itself::<C>();
    what_is_told_was_taken();
    what_was_sent_under_keys_is_told();
    effects::laws::associations_stay_themselves();
    effects::laws::requests_are_remembered();
    ike::laws::children_are_made_of_their_messages();
    ike::laws::keys_stay_whole();
    octets_spell_one_message();
    steps_are_moves();
    traces_name_what_is_held();
    windows_are_read_again();
}

/// What goes up had been sealed before it came (RFC 4301, sections 5.1 and 5.2; RFC 4303, sections 3.3 and
/// 3.4). Over every history of a world of two gateways: where a Child SA delivers a packet, the other end had
/// sent an ESP packet that carries it, octet for octet, before this step. It was sealed by the other end's
/// pair of this Child SA, and that end's policy protects it.
///
/// It asks that the world was wholly sound under the Child SA's keys before the history (`sound`), as every
/// world of two new gateways is (`begun`). And it asks of the history up to this step
/// (`IsUnforgedUpTo`): what came under these keys, and what was accepted of the Child SA, the other end had
/// sent before. Neither end came to these keys twice. No other Child SA of the other end sends under its SPI
/// and key.
pub fn what_goes_up_had_been_sealed<C: Sealer + Agreement + Proof>()
    ensures sound { (keys : KeyRecord) (child : Child) (old new : WorldState C) (happenings : List (Happening C))
        (place number : ℕ) (packet : Octets) (h : Happening C)
        → IsWorldTrail (meaning_of C.Sealer C.Agreement C.Proof) old happenings new
        → IsWhollySound C.body_of C.plain_of keys old
        → slice_get happenings place ≡ Some h
        → IsUnforgedUpTo (meaning_of C.Sealer C.Agreement C.Proof) keys child happenings place h
        → h.event.end ≡ child.end
        → h.said ≡ Up child.serial number packet
        → WasSealedByOther child number packet h h.before }
    ensures begun { (keys : KeyRecord) (child : Child) (a b : State C) (new : WorldState C)
        (happenings : List (Happening C)) (place number : ℕ) (packet : Octets) (h : Happening C)
        → IsWorldTrail (meaning_of C.Sealer C.Agreement C.Proof) (new_world a b) happenings new
        → HoldsNothing a → HoldsNothing b → IsSoundState a → IsSoundState b
        → slice_get happenings place ≡ Some h
        → IsUnforgedUpTo (meaning_of C.Sealer C.Agreement C.Proof) keys child happenings place h
        → h.event.end ≡ child.end
        → h.said ≡ Up child.serial number packet
        → WasSealedByOther child number packet h h.before }
{
    both_ends_keep_their_promises::<C>();
    new_worlds_are_wholly_sound::<C>();
}

//! What follows from the definitions alone. No function here does anything.
ghost use Rattle.std.specs.Prelude.{◌≡◌, ◌↔◌, ◌⊎◌, ◌+◌, ◌^◌, ◌<◌, ◌≤◌, ℕ, true, Contains, List, Some, slice_get};
ghost use Rattle.base.specs.Octets.{Octets};
ghost use Rattle.suite.specs.declared.key_record.KeyRecord.{KeyRecord};
ghost use Rattle.sadb.specs.declared.pair.Pair.{Pair};
ghost use Rattle.effects.specs.Taking.{Meaning, meaning_of};
ghost use Rattle.gateway.specs.BothEnds.{IsWhollySound};
ghost use Rattle.gateway.specs.Outputs.{Refused, Up};
ghost use Rattle.gateway.specs.WorldChildren.{AreEndsOfOneChild};
ghost use Rattle.gateway.specs.WorldHistories.{Happening, IsWorldTrail};
ghost use Rattle.gateway.specs.WorldParties.{IsNeverMadeTwice};
ghost use Rattle.gateway.specs.WorldPromises.{IsUnforged};
ghost use Rattle.gateway.specs.Worlds.{WorldState};
ghost use Rattle.gateway.specs.declared.fault.Reason.TheVariants.{Memory};
ghost use Rattle.gateway.specs.declared.world.stored.Child.{Child};
ghost use Rattle.laws_progress.specs.Delivering.{ComesTo, ComesToChild, IsSealedFrom, IsToGoBy, MayBeAccepted, SealsItsNext, WasSealedFor};
ghost use Rattle.laws_progress.specs.InOrder.{ComesInOrder, ComesInTime};
ghost use Rattle.laws_progress.specs.Streams.{AcceptsNothingElse, ArriveInOrder, ArrivesAs};
ghost use Rattle.laws_progress.specs.Through.{GoesThrough};
ghost use Rattle.laws_progress.specs.WorkedStreams.{IsProgressFromNewGateways, IsStreamFromNewGateways};

use gateway::laws::{
    both_ends_keep_their_promises, each_end_has_its_events, every_run_keeps_its_promises,
    every_world_stays_sound, the_protected_never_goes_in_the_clear,
};
use laws_two_ends::laws::the_premises_are_met_from_new_gateways_on;
use sadb::laws::answers_are_determined;
use suite::{Agreement, Proof, Sealer};
use traffic::laws::what_one_end_seals_the_other_hands_up;

/// What is to be protected is sealed, unless memory runs out. Where a packet is given to go out that
/// the policy protects, and the newest Live pair whose selectors hold its flow has a sequence number
/// left, the output is of that pair: octets sealed as its next number, or the refusal for memory (RFC
/// 4301, section 5.1; RFC 4303, section 3.3). That these octets carry the packet is said by the step
/// itself. Nothing says that memory was really short.
pub fn what_is_to_be_protected_is_sealed<C>()
    ensures { (meaning_of : C → Meaning) (old new : WorldState C) (happenings : List (Happening C))
        → IsWorldTrail meaning_of old happenings new
        → (place : ℕ) (packet : Octets) (pair : Pair) (h : Happening C)
        → slice_get happenings place ≡ Some h
        → IsToGoBy pair packet h
        → SealsItsNext pair packet h ⊎ (h.said ≡ Refused Memory) }
{
    the_protected_never_goes_in_the_clear::<C>();
    answers_are_determined();
}

/// What is sealed and delivered by the network goes up: whole, unchanged, and under its number. This is of
/// every history of a world of two gateways (as `gateway::run_world` tells it), whatever else happens in it.
///
/// A packet was given to go out at one step, and an SA pair sealed it there under a number. The octets of
/// that output come as an ESP packet at another step, to an end that then holds the mirror of that pair (RFC
/// 4301, section 4.1). Then the output there is the very packet that was given to go out:
///
/// - `exactly`: if and only if the window of the receiving pair may accept the number. It was not taken
///   there, it does not lie below the window, and with ESN it lies less than 2^32 above the window's lower
///   edge (RFC 4303, section 3.4.3 and appendix A2).
/// - `above`: so it is of each number above all that the window has taken, with ESN by no more than 2^32 less
///   the window's size. Fewer than that many may have been lost before it; without ESN, any number.
/// - `in_time`: the same in terms of the history alone, a matter of numbers and not of the clock. It
///   goes up if and only if its number was not accepted by that pair before, neither in the list nor
///   before the list, none was that lies a whole window above it or more, and with ESN it lies
///   *closely*: at most 2^32 less the window's size above one that was accepted, or above 0. So packets
///   may be reordered within the window.
/// - `in_order`: it goes up if all that was accepted before had lower numbers, and with ESN it lies closely
///   above one of these, or above 0.
///
/// *Accepted* means that the number was taken, also where the packet was then dropped for its content.
///
/// Nothing is assumed of the network, of peers or of cryptography. No forgery is excluded: a packet that was
/// forged and accepted may take the number of one that was sealed, or move the window past it, and is then
/// among what was accepted before. No refusal for memory is excepted, since an ESP packet takes none. It is
/// not even asked that the two ends differ, or that the octets come after they were sealed.
///
/// Not said: that the network delivers, that the pair is still held when it does, and that nothing was
/// accepted in between that makes the packet late.
pub fn what_is_sealed_and_delivered_goes_up<C>()
    ensures exactly { (meaning_of : C → Meaning) (old new : WorldState C) (happenings : List (Happening C))
        → IsWorldTrail meaning_of old happenings new
        → (place number : ℕ) (packet octets : Octets) (pair : Pair) (h : Happening C)
        → slice_get happenings place ≡ Some h
        → WasSealedFor pair number packet octets happenings
        → ComesTo pair octets h
        → (h.said ≡ Up pair.serial number packet)
        ↔ MayBeAccepted pair.inbound.association.extended pair.inbound.window number }
    ensures above { (meaning_of : C → Meaning) (old new : WorldState C) (happenings : List (Happening C))
        → IsWorldTrail meaning_of old happenings new
        → (place number : ℕ) (packet octets : Octets) (pair : Pair) (h : Happening C)
        → slice_get happenings place ≡ Some h
        → WasSealedFor pair number packet octets happenings
        → ComesTo pair octets h
        → pair.inbound.window.top < number
        → (pair.inbound.association.extended ≡ true
        → number + pair.inbound.window.size ≤ pair.inbound.window.top + 2 ^ 32)
        → h.said ≡ Up pair.serial number packet }
    ensures in_time { (meaning_of : C → Meaning) (old new : WorldState C) (happenings : List (Happening C))
        → IsWorldTrail meaning_of old happenings new
        → (place number : ℕ) (packet octets : Octets) (pair : Pair) (h : Happening C)
        → slice_get happenings place ≡ Some h
        → WasSealedFor pair number packet octets happenings
        → ComesTo pair octets h
        → (h.said ≡ Up pair.serial number packet)
        ↔ ComesInTime h.event.end old happenings place pair number }
    ensures in_order { (meaning_of : C → Meaning) (old new : WorldState C) (happenings : List (Happening C))
        → IsWorldTrail meaning_of old happenings new
        → (place number : ℕ) (packet octets : Octets) (pair : Pair) (h : Happening C)
        → slice_get happenings place ≡ Some h
        → WasSealedFor pair number packet octets happenings
        → ComesTo pair octets h
        → ComesInOrder h.event.end old happenings place pair number
        → h.said ≡ Up pair.serial number packet }
{
    what_one_end_seals_the_other_hands_up();
    every_run_keeps_its_promises::<C>();
    each_end_has_its_events::<C>();
}

/// What goes in at one end comes out at the other: both laws above in one. A packet that is to go by a
/// pair with a number left is refused because memory ran out; or it is sealed, and wherever its octets
/// come to a pair that mirrors the one which sealed it, it goes up, exactly if it comes in time.
/// Nothing says that memory was really short.
pub fn what_goes_in_comes_out<C>()
    ensures { (meaning_of : C → Meaning) (old new : WorldState C) (happenings : List (Happening C))
        → IsWorldTrail meaning_of old happenings new
        → (place : ℕ) (packet : Octets) (pair : Pair) (h : Happening C)
        → slice_get happenings place ≡ Some h
        → IsToGoBy pair packet h
        → GoesThrough old happenings pair packet h ⊎ (h.said ≡ Refused Memory) }
{
    what_is_to_be_protected_is_sealed::<C>();
    what_is_sealed_and_delivered_goes_up::<C>();
}

/// So it is of the two ends of one Child SA, where it need not be known that their pairs mirror each other.
/// The list begins with a world that is wholly sound under a record of keys, as one of two new gateways is;
/// no message under that record was forged, and neither end came to it twice. Both ends made the Child SA by
/// one request under it (RFC 7296, sections 1.2, 1.3.1 and 2.17). What the pair of one seals goes up at the
/// other, which holds its pair of the child when the octets come: as above, in terms of the window
/// (`exactly`) and of the history (`in_time`, `in_order`). Nothing is assumed of ESP packets.
pub fn what_one_end_of_a_child_seals_goes_up_at_the_other<C: Sealer + Agreement + Proof>()
    ensures exactly { (keys : KeyRecord) (old new : WorldState C) (happenings : List (Happening C))
        → IsWorldTrail (meaning_of C.Sealer C.Agreement C.Proof) old happenings new
        → IsWhollySound C.body_of C.plain_of keys old
        → IsUnforged (meaning_of C.Sealer C.Agreement C.Proof) keys happenings new.stored
        → IsNeverMadeTwice keys new.stored
        → (one other : Child)
        → Contains new.stored.children one → Contains new.stored.children other
        → one.keys ≡ keys → AreEndsOfOneChild one other
        → (sealing place number : ℕ) (packet octets : Octets) (pair : Pair) (g h : Happening C)
        → slice_get happenings sealing ≡ Some g → slice_get happenings place ≡ Some h
        → IsSealedFrom one number packet octets g
        → ComesToChild other pair octets h
        → (h.said ≡ Up other.serial number packet)
        ↔ MayBeAccepted pair.inbound.association.extended pair.inbound.window number }
    ensures in_time { (keys : KeyRecord) (old new : WorldState C) (happenings : List (Happening C))
        → IsWorldTrail (meaning_of C.Sealer C.Agreement C.Proof) old happenings new
        → IsWhollySound C.body_of C.plain_of keys old
        → IsUnforged (meaning_of C.Sealer C.Agreement C.Proof) keys happenings new.stored
        → IsNeverMadeTwice keys new.stored
        → (one other : Child)
        → Contains new.stored.children one → Contains new.stored.children other
        → one.keys ≡ keys → AreEndsOfOneChild one other
        → (sealing place number : ℕ) (packet octets : Octets) (pair : Pair) (g h : Happening C)
        → slice_get happenings sealing ≡ Some g → slice_get happenings place ≡ Some h
        → IsSealedFrom one number packet octets g
        → ComesToChild other pair octets h
        → (h.said ≡ Up other.serial number packet)
        ↔ ComesInTime h.event.end old happenings place pair number }
    ensures in_order { (keys : KeyRecord) (old new : WorldState C) (happenings : List (Happening C))
        → IsWorldTrail (meaning_of C.Sealer C.Agreement C.Proof) old happenings new
        → IsWhollySound C.body_of C.plain_of keys old
        → IsUnforged (meaning_of C.Sealer C.Agreement C.Proof) keys happenings new.stored
        → IsNeverMadeTwice keys new.stored
        → (one other : Child)
        → Contains new.stored.children one → Contains new.stored.children other
        → one.keys ≡ keys → AreEndsOfOneChild one other
        → (sealing place number : ℕ) (packet octets : Octets) (pair : Pair) (g h : Happening C)
        → slice_get happenings sealing ≡ Some g → slice_get happenings place ≡ Some h
        → IsSealedFrom one number packet octets g
        → ComesToChild other pair octets h
        → ComesInOrder h.event.end old happenings place pair number
        → h.said ≡ Up other.serial number packet }
{
    both_ends_keep_their_promises::<C>();
    what_is_sealed_and_delivered_goes_up::<C>();
}

/// Each packet of a stream that comes in order goes up. As above, both ends made a Child SA by one
/// request under a record of keys. Of what the pair of one end seals in the list the network delivers
/// to the other end, while that holds its pair, whatever it delivers in the order in which it was
/// sealed, and each once. It may lose any of it; with ESN at most 2^32 less the window's size in a row,
/// counted from the last number that was accepted. Then each packet that arrives goes up, unchanged and
/// under its number.
///
/// It assumes that nothing else is accepted of the child at that end: no forged packet, and none that
/// was sealed before the list. Whatever else comes may be anything, if it is dropped before it is
/// accepted; but no packet of the stream comes twice or late, not even to be dropped.
pub fn a_stream_in_order_goes_up_whole<C: Sealer + Agreement + Proof>()
    ensures { (keys : KeyRecord) (old new : WorldState C) (happenings : List (Happening C))
        → IsWorldTrail (meaning_of C.Sealer C.Agreement C.Proof) old happenings new
        → IsWhollySound C.body_of C.plain_of keys old
        → IsUnforged (meaning_of C.Sealer C.Agreement C.Proof) keys happenings new.stored
        → IsNeverMadeTwice keys new.stored
        → (sender receiver : Child)
        → Contains new.stored.children sender → Contains new.stored.children receiver
        → sender.keys ≡ keys → AreEndsOfOneChild sender receiver
        → AcceptsNothingElse sender receiver happenings
        → ArriveInOrder sender receiver old happenings
        → (place number : ℕ) (packet : Octets)
        → (arrival : ArrivesAs sender receiver happenings place number packet)
        → arrival.happening.said ≡ Up receiver.serial number packet }
{
    what_one_end_of_a_child_seals_goes_up_at_the_other::<C>();
    every_run_keeps_its_promises::<C>();
    each_end_has_its_events::<C>();
}

/// Non-vacuity: the premises on a packet's way, without ESN, are met by a run that begins with two new
/// gateways ([`laws_two_ends`]). A packet goes out at one end, which seals it by its pair. Its octets come to
/// the other end's pair, in time and in order, under a number that its window may accept. It is not said that
/// both pairs mirror each other. What the callers mean is fixed there: it keeps the traits' laws, hides
/// nothing and accepts every proof.
pub fn the_premises_of_progress_are_met<C>()
    ensures { (a b : C) → IsProgressFromNewGateways a b }
{
    the_premises_are_met_from_new_gateways_on::<C>();
    every_run_keeps_its_promises::<C>();
    each_end_has_its_events::<C>();
}

/// Non-vacuity: the premises on the two ends of a Child SA, and on a stream of one packet without ESN,
/// are met by a run that begins with two new gateways ([`laws_two_ends`]): the packet goes out at the
/// end that asked for the child, and is all that arrives at the other. What the callers mean is fixed
/// there: it keeps the traits' laws, hides nothing and accepts every proof.
pub fn the_premises_of_streams_are_met<C>()
    ensures { (a b : C) → IsStreamFromNewGateways a b }
{
    the_premises_are_met_from_new_gateways_on::<C>();
    every_run_keeps_its_promises::<C>();
    each_end_has_its_events::<C>();
    every_world_stays_sound::<C>();
}

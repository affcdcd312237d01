//! What follows from the definitions alone. No function here does anything.
ghost use Rattle.std.specs.Prelude.{◌≡◌, ◌≢◌, ◌⊎◌, ◌↔◌, ◌+◌, ◌<◌, ◌≤◌, ℕ, List, None, Option, false, length, true};
ghost use Rattle.base.specs.Octets.{Octets};
ghost use Rattle.wire.specs.Numbers.{IKE_SA_INIT};
ghost use Rattle.suite.specs.declared.fresh.Fresh.{Fresh};
ghost use Rattle.suite.specs.declared.key_record.KeyRecord.{KeyRecord};
ghost use Rattle.requests.specs.Incoming.{IsFreshRequest, IsLeftBehind};
ghost use Rattle.requests.specs.Timers.{IsDue, waits};
ghost use Rattle.requests.specs.declared.timer.Due.TheVariants.{Again, Nothing, Over};
ghost use Rattle.association.specs.Phases.{IsEstablished};
ghost use Rattle.association.specs.Purposes.{exchange_of};
ghost use Rattle.association.specs.declared.phase.Association.{Association};
ghost use Rattle.association.specs.declared.phase.Request.{Request};
ghost use Rattle.moments.specs.Due.{CLOSED_TIME};
ghost use Rattle.effects.specs.Taking.{meaning_of, Meaning};
ghost use Rattle.ike.specs.Moments.{IsTimely, WaitsAt};
ghost use Rattle.gateway.specs.Histories.{IsPassage, IsTrail, Passage};
ghost use Rattle.gateway.specs.Inputs as input;
ghost use Rattle.gateway.specs.Outputs as output;
ghost use Rattle.gateway.specs.Outputs.{wants_memory, Repeat};
ghost use Rattle.gateway.specs.Requests.{for_ike, AnswersBy, IsReplied, OnlySays, TakesEffect};
ghost use Rattle.gateway.specs.States.{State};
ghost use Rattle.gateway.specs.WorldHistories.{passage_at, passages_at, Happening, IsWorldTrail};
ghost use Rattle.gateway.specs.Worlds.{gateway_at, other_end, IsFreshlyGiven, TakesEvent, WorldState};
ghost use Rattle.gateway.specs.declared.world.stored.End.{End};
ghost use Rattle.laws_recovery.specs.Beginning.{BeginsAnew, IsRefused, MayBegin};
ghost use Rattle.laws_recovery.specs.Copies.{AreEndsOfOne, ArrivesAt, IsMatched, IsRepeated, WaitsUntil};
ghost use Rattle.laws_recovery.specs.Removing.{ClosedAfter, ClosedBefore, IsRemoved};
ghost use Rattle.laws_recovery.specs.Waiting.{Brings, GoesOutAgain, IsGivenUp, IsTold, WaitsAfter};
ghost use Rattle.laws_recovery.specs.WorldCopies.{CopyArrives, ResponseArrives, WasTaken};
ghost use Rattle.laws_recovery.specs.Waiting.{WaitsBefore, WaitsThroughout, sent_again, times_again};

use effects::laws::messages_open;
use ike::laws::{
    fresh_octets_open, repeats_are_answered, requests_are_remembered, requests_take_effect,
    what_is_due_comes_in_time,
};
use requests::laws::later_incoming_follow;
use suite::{Agreement, Proof, Sealer};
use wire::laws::{
    octets_spell_one_message, plain_spellings_are_spellings, what_is_spelled_has_no_fault,
};

/// A request that waits for its answer goes out again when it is due (RFC 7296, sections 2.1 and 2.4). This
/// is of every step of every history of a gateway (as `gateway::run` tells it) at which it is told a time.
///
/// - `again`: where the request is due it goes out again, the same octets, and waits on from then. Or its IKE
///   SA is closed at this step, since the peer is gone: a request of it, that one or another, went out for
///   the last time and found no answer in time.
/// - `later`: where it isn't due yet it waits on as it did, unless its IKE SA is closed so.
/// - `over`: where it went out for the last time and found no answer, its IKE SA is closed.
/// - `refused`: where there is no memory for what comes, it waits on as it did. So with the next time that is
///   told and finds memory it goes out, or its IKE SA is closed so.
///
/// How long it is waited before each time, and how often it goes out, is fixed
/// ([`requests`](requests::Timer)): six times in all.
///
/// Not said: that times are told, and that what goes out arrives.
pub fn what_waits_goes_out_again<C>()
    ensures again { (meaning_of : C → Meaning) (now serial number : ℕ) (request : Request) (p : Passage C)
        → IsPassage meaning_of p → Brings now p → WaitsBefore serial number request p
        → IsDue request.timer now Again
        → (GoesOutAgain serial number request p × WaitsAfter serial number (sent_again now request) p)
        ⊎ IsGivenUp serial now p }
    ensures later { (meaning_of : C → Meaning) (now serial number : ℕ) (request : Request) (p : Passage C)
        → IsPassage meaning_of p → Brings now p → WaitsBefore serial number request p
        → IsDue request.timer now Nothing
        → WaitsAfter serial number request p ⊎ IsGivenUp serial now p }
    ensures over { (meaning_of : C → Meaning) (now serial number : ℕ) (request : Request) (p : Passage C)
        → IsPassage meaning_of p → Brings now p → WaitsBefore serial number request p
        → IsDue request.timer now Over
        → IsGivenUp serial now p }
    ensures refused { (meaning_of : C → Meaning) (now serial number : ℕ) (request : Request) (p : Passage C)
        → IsPassage meaning_of p → IsTold now p → wants_memory p.said ≡ true
        → WaitsBefore serial number request p
        → WaitsAfter serial number request p }
{
    what_is_due_comes_in_time();
}

/// A request goes out six times before it is given up. Over every history of a gateway along which a request
/// under keys waits, from where it went out first:
///
/// - `counted`: it has the octets with which it went out first, and counts as sent again as often as it went
///   out again.
/// - `six`: where it counts as sent for the last time and no answer came in time, so that its IKE SA is
///   closed for it with the next time that is told, it went out again five times.
///
/// A request of IKE_SA_INIT is left out, since a cookie begins its count anew.
pub fn a_request_goes_out_six_times<C>()
    ensures counted { (meaning_of : C → Meaning) (old new : State C) (passages : List (Passage C))
        (serial number : ℕ) (request asked : Request)
        → IsTrail meaning_of old passages new
        → WaitsAt old.machine.held serial number request → request.timer.repeats ≡ 0
        → exchange_of request.purpose ≢ IKE_SA_INIT
        → WaitsThroughout serial number passages → WaitsAt new.machine.held serial number asked
        → (asked.octets ≡ request.octets) × (asked.timer.repeats ≡ times_again serial number passages) }
    ensures six { (meaning_of : C → Meaning) (old new : State C) (passages : List (Passage C))
        (now serial number : ℕ) (request asked : Request)
        → IsTrail meaning_of old passages new → IsTimely new.machine
        → WaitsAt old.machine.held serial number request → request.timer.repeats ≡ 0
        → exchange_of request.purpose ≢ IKE_SA_INIT
        → WaitsThroughout serial number passages → WaitsAt new.machine.held serial number asked
        → IsDue asked.timer now Over
        → times_again serial number passages ≡ length waits }
{
    what_is_due_comes_in_time();
}

/// Whatever was lost or closed before, by `Start` a new IKE SA begins (RFC 7296, section 1.2). That both ends
/// then come to keys is said in `laws_opening`, and that it is established in `laws_coming_up`. Of every step
/// of every history of a gateway with this input:
///
/// - `exactly`: an IKE SA begins, its request of IKE_SA_INIT goes out, and waits for its answer, exactly
///   where one may begin and there is memory.
/// - `either`: where none begins the input is refused, and the gateway is as it was, but for spare room.
///
/// An IKE SA may begin at a gateway that holds fewer than 128, has a serial left, and a table with a place
/// and an SPI left, by an entry that protects and a fresh SPI that is usable. What was held before, and what
/// the peer still holds, are not asked for.
pub fn start_begins_anew<C>()
    ensures exactly { (meaning_of : C → Meaning) (place : ℕ) (fresh : Fresh) (p : Passage C)
        → IsPassage meaning_of p → p.given ≡ input.Start None place fresh
        → BeginsAnew (meaning_of p.before.caller) fresh p
        ↔ ((wants_memory p.said ≡ false) × MayBegin place fresh p.before) }
    ensures either { (meaning_of : C → Meaning) (place : ℕ) (fresh : Fresh) (p : Passage C)
        → IsPassage meaning_of p → p.given ≡ input.Start None place fresh
        → BeginsAnew (meaning_of p.before.caller) fresh p ⊎ IsRefused p }
{}

/// What is said here of steps and histories of a gateway holds of each end of a world. Each event of a world
/// is a step of the gateway at its end, with fresh octets as their type has them. What takes place in a world
/// is at each end a history of its gateway, whatever happens at the other.
pub fn each_end_of_a_world_has_its_history<C>()
    ensures step { (meaning_of : C → Meaning) (h : Happening C)
        → TakesEvent meaning_of h.event h.before h.said h.after
        → IsPassage meaning_of (passage_at h.event.end h) × IsFreshlyGiven (for_ike h.event.input) }
    ensures history { (meaning_of : C → Meaning) (end : End) (old new : WorldState C)
        (happenings : List (Happening C))
        → IsWorldTrail meaning_of old happenings new
        → IsTrail meaning_of (gateway_at end old) (passages_at end happenings) (gateway_at end new) }
{}

/// A request that is lost is processed as soon as a later copy arrives. Let a request go out under an
/// established IKE SA, wait through any steps of that end, and go out again
/// ([`what_waits_goes_out_again`]). Then:
///
/// - `same`: the octets that go out again are those that went out first.
/// - `processed`: at the other end of the IKE SA they are processed exactly where that has not processed
///   the request's Message ID yet, has it in its window, and has memory (RFC 7296, sections 2.1 to 2.3).
/// - `answered`: what is processed is answered at that step, and the response is kept.
///
/// The law of the cipher makes the copy open there. Nothing is asked of what else arrives at either end.
pub fn a_lost_request_is_answered_by_a_later_copy<C: Sealer + Agreement + Proof>(caller: &C)
    ensures same { (serial number : ℕ) (a : Association) (octets : Octets)
        (asking : Passage C) (between : List (Passage C)) (repeating : Passage C)
        → IsRepeated (meaning_of C.Sealer C.Agreement C.Proof) serial number a octets asking between repeating
        → asking.said ≡ output.Request serial octets }
    ensures processed { (serial other number : ℕ) (a b : Association) (octets : Octets)
        (asking : Passage C) (between : List (Passage C)) (repeating arriving : Passage C)
        → IsRepeated (meaning_of C.Sealer C.Agreement C.Proof) serial number a octets asking between repeating
        → IsPassage (meaning_of C.Sealer C.Agreement C.Proof) arriving → ArrivesAt other b octets arriving
        → AreEndsOfOne a b → IsEstablished b.phase
        → TakesEffect other number arriving
        ↔ ((wants_memory arriving.said ≡ false) × IsFreshRequest b.incoming number) }
    ensures answered { (other number : ℕ) (arriving : Passage C)
        → IsPassage (meaning_of C.Sealer C.Agreement C.Proof) arriving → TakesEffect other number arriving
        → IsReplied other number arriving }
{
    fresh_octets_open(caller);
    later_incoming_follow();
    repeats_are_answered();
    requests_are_remembered();
    requests_take_effect();
    what_is_due_comes_in_time();
}

/// A response that is lost comes again with a later copy of its request. Let the other end have processed
/// the request at some step and answered it, and let the request go out again, as in
/// [`a_lost_request_is_answered_by_a_later_copy`].
///
/// - `again`: where the copy arrives there, that end answers by its first response, octet for octet, and
///   does nothing else, unless there is no memory. It does so while no Message ID a window above is in
///   effect (RFC 7296, sections 2.1 and 2.3).
/// - `matched`: where that response arrives at the end that asked, by whichever copy, while the request
///   waits there, it is matched, and the request waits no more, unless there is no memory.
pub fn a_lost_response_comes_again<C: Sealer + Agreement + Proof>(caller: &C)
    ensures again { (serial other number : ℕ) (a b : Association) (octets reply : Octets)
        (asking : Passage C) (between : List (Passage C)) (repeating : Passage C)
        (taking : Passage C) (since : List (Passage C)) (arriving : Passage C)
        → IsRepeated (meaning_of C.Sealer C.Agreement C.Proof) serial number a octets asking between repeating
        → IsPassage (meaning_of C.Sealer C.Agreement C.Proof) taking
        → TakesEffect other number taking → AnswersBy taking reply
        → IsTrail (meaning_of C.Sealer C.Agreement C.Proof) taking.after since arriving.before
        → IsPassage (meaning_of C.Sealer C.Agreement C.Proof) arriving → ArrivesAt other b octets arriving
        → AreEndsOfOne a b → ¬ IsLeftBehind b.incoming number
        → wants_memory arriving.said ≡ false
        → OnlySays (Repeat reply) arriving }
    ensures matched { (serial other number : ℕ) (a b d : Association) (octets reply : Octets)
        (asking : Passage C) (between : List (Passage C)) (taking matching : Passage C)
        → WaitsUntil (meaning_of C.Sealer C.Agreement C.Proof) serial number a octets asking between matching
        → IsPassage (meaning_of C.Sealer C.Agreement C.Proof) taking → IsFreshlyGiven (for_ike taking.given)
        → ArrivesAt other b octets taking → AreEndsOfOne a b → IsEstablished b.phase
        → AnswersBy taking reply
        → ArrivesAt serial d reply matching → AreEndsOfOne d b
        → wants_memory matching.said ≡ false
        → IsMatched serial number matching }
{
    fresh_octets_open(caller);
    later_incoming_follow();
    messages_open();
    octets_spell_one_message();
    plain_spellings_are_spellings();
    repeats_are_answered();
    requests_are_remembered();
    requests_take_effect();
    what_is_due_comes_in_time();
    what_is_spelled_has_no_fault();
}

/// What is lost between two ends comes through with a later copy. Over every history of a world, let a
/// request go out at one end under an established IKE SA, wait there, and go out again, and let the octets
/// that go out again arrive at the other end.
///
/// - `processed`: they are processed there exactly where the other end has not processed the request yet, has
///   its Message ID in its window, and has memory.
/// - `again`: where it has processed the request before, it answers by its first response, octet for octet,
///   while that is kept, unless there is no memory.
/// - `matched`: where the response that was made at some event arrives while the request waits, it is
///   matched, and the request waits no more, unless there is no memory.
///
/// Whatever else takes place at both ends is left open: other requests, times, and messages of anyone. It
/// asks neither that the world is sound nor that nothing was forged.
pub fn what_is_lost_comes_through<C: Sealer + Agreement + Proof>(caller: &C)
    ensures processed { (old new : WorldState C) (happenings : List (Happening C))
        (end : End) (serial other number : ℕ) (b : Association) (arriving : Happening C)
        → IsWorldTrail (meaning_of C.Sealer C.Agreement C.Proof) old happenings new
        → CopyArrives end serial other number b happenings arriving → IsEstablished b.phase
        → TakesEffect other number (passage_at (other_end end) arriving)
        ↔ ((wants_memory arriving.said ≡ false) × IsFreshRequest b.incoming number) }
    ensures again { (old new : WorldState C) (happenings : List (Happening C))
        (end : End) (serial other number : ℕ) (b : Association) (arriving : Happening C) (reply : Octets)
        → IsWorldTrail (meaning_of C.Sealer C.Agreement C.Proof) old happenings new
        → CopyArrives end serial other number b happenings arriving
        → WasTaken (other_end end) other number reply happenings arriving
        → ¬ IsLeftBehind b.incoming number
        → wants_memory arriving.said ≡ false
        → OnlySays (Repeat reply) (passage_at (other_end end) arriving) }
    ensures matched { (old new : WorldState C) (happenings : List (Happening C))
        (end : End) (serial number : ℕ) (arriving : Happening C)
        → IsWorldTrail (meaning_of C.Sealer C.Agreement C.Proof) old happenings new
        → ResponseArrives end serial number happenings arriving
        → wants_memory arriving.said ≡ false
        → IsMatched serial number (passage_at end arriving) }
{
    fresh_octets_open(caller);
    later_incoming_follow();
    messages_open();
    octets_spell_one_message();
    plain_spellings_are_spellings();
    repeats_are_answered();
    requests_are_remembered();
    requests_take_effect();
    what_is_due_comes_in_time();
    what_is_spelled_has_no_fault();
}

/// An IKE SA that was given up makes room. Of every step of every history of a gateway at which it is told a
/// time and has memory for what comes:
///
/// - `closed`: an IKE SA that is given up ([`what_waits_goes_out_again`]) is closed from that time on.
/// - `stays`: for two minutes more it stays closed, so that what the peer asked can be asked again.
/// - `removed`: with the first time that is told after these it is held no longer, and fewer IKE SAs are.
///   So its place comes free for another ([`start_begins_anew`]).
pub fn what_is_given_up_is_removed<C>()
    ensures closed { (meaning_of : C → Meaning) (now serial : ℕ) (p : Passage C)
        → IsPassage meaning_of p → Brings now p → IsGivenUp serial now p
        → (keys : Option KeyRecord) × ClosedAfter serial keys now p }
    ensures stays { (meaning_of : C → Meaning) (now serial at : ℕ) (keys : Option KeyRecord) (p : Passage C)
        → IsPassage meaning_of p → Brings now p → ClosedBefore serial keys at p
        → now < at + CLOSED_TIME
        → ClosedAfter serial keys at p }
    ensures removed { (meaning_of : C → Meaning) (now serial at : ℕ) (keys : Option KeyRecord) (p : Passage C)
        → IsPassage meaning_of p → Brings now p → ClosedBefore serial keys at p
        → at + CLOSED_TIME ≤ now
        → IsRemoved serial p }
{
    what_is_due_comes_in_time();
}

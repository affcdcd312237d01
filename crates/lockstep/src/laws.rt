//! What follows from the definitions alone. No function here does anything.
ghost use Rattle.std.specs.Prelude.{◌≡◌, ◌≤◌, ◌↔◌, ◌+◌, ◌++◌, ◌∷◌, ℕ, List, [], Contains, Some};
ghost use Rattle.base.specs.Octets.{Octets};
ghost use Rattle.suite.specs.declared.key_record.KeyRecord.{KeyRecord};
ghost use Rattle.exchange.specs.Headers.{other_role};
ghost use Rattle.requests.specs.Numbers.{HasNumber, IsGap};
ghost use Rattle.effects.specs.Moves.{Count, Ledger, Moves, TakeEffect};
ghost use Rattle.lockstep.specs.Ends.{request_of, response_of, Deed, Does, End, Entry};
ghost use Rattle.lockstep.specs.Histories.{AreGenuine, Ends, IsGenuine, IsGenuineAtOnce, IsHistory, IsRun, Step, Takes};
ghost use Rattle.lockstep.specs.Parties.{times, under, AreHeldUnder, AreSoundParties, IsGenuineTurn, IsNewParty, IsSoundParty, Marked, Parties, Party, TakesTurn, Turn};
ghost use Rattle.lockstep.specs.Promises.{AreHeld, AreInStep, AreIssuedAndInEffect, AreWithinWindows};
ghost use Rattle.lockstep.specs.Soundness.{AreNewEnds, AreSoundEnds, HasAnswered, HasAsked, IsSoundEnd, IsSoundLedger, SendsOnce};
ghost use Rattle.lockstep.specs.Worked.{answered_ledger, asked_ledger, asking_party, fresh_ends, new_party, worked_ends, worked_steps, worked_turn};

/// Two ends that never came to the keys, or came to them just now, are sound, and stay so over every
/// history, and over one step where what it takes was sent till then.
pub fn ends_stay_sound()
    ensures begun { (ends : Ends) → AreNewEnds ends → AreSoundEnds ends }
    ensures kept { (old new : Ends) (steps : List Step) → AreSoundEnds old → IsHistory old steps new
        → AreSoundEnds new }
    ensures stepped { (old new : Ends) (step : Step) → AreSoundEnds old → Takes step old new
        → IsGenuineAtOnce old.one.sent old.other.sent (step ∷ []) → new.one.made ≤ 1 → new.other.made ≤ 1
        → AreSoundEnds new }
{}

/// Each end stays sound by what it does alone, where what it takes is among what the other will have sent,
/// and it comes to the keys once. It is so too where the other will have sent more.
pub fn each_end_stays_sound()
    ensures kept { (deed : Deed) (old new : End) (others : List Entry) → IsSoundEnd old others
        → Does deed old new
        → AreGenuine others deed.moves → new.made ≤ 1 → IsSoundEnd new others }
    ensures later { (e : End) (others later : List Entry) → IsSoundEnd e others
        → ((entry : Entry) → Contains others entry → Contains later entry) → IsSoundEnd e later }
{}

/// What goes out again went out before, the same octets.
pub fn what_goes_out_again_went_out()
    ensures { (deed : Deed) (old new : End) (others : List Entry) (entry : Entry) → IsSoundEnd old others
        → Does deed old new
        → Contains deed.again entry → Contains old.sent entry }
{}

/// What the premise asks of what was sent till the list ends is so where it is so of what was sent till then.
pub fn what_was_sent_before_is_sent()
    ensures { (old new : Ends) (steps : List Step) → IsRun old steps new
        → IsGenuineAtOnce old.one.sent old.other.sent steps
        → IsGenuine new steps }
{}

/// In each direction, what is in effect at one end was issued by the other, and what is answered there is
/// in effect here.
pub fn requests_are_issued_and_in_effect()
    ensures sound { (ends : Ends) (asking answering : Ledger) → AreSoundEnds ends
        → AreHeld ends asking answering
        → AreIssuedAndInEffect asking answering }
    ensures always { (old new : Ends) (steps : List Step) (asking answering : Ledger) → AreNewEnds old
        → IsHistory old steps new
        → AreHeld new asking answering → AreIssuedAndInEffect asking answering }
{}

/// In each direction, all numbers below a gap are in effect and none from a window above it on, and no more
/// are issued and unanswered than the window that the asking end counts for its peer.
pub fn windows_hold()
    ensures sound { (ends : Ends) (asking answering : Ledger) → AreSoundEnds ends
        → AreHeld ends asking answering
        → AreWithinWindows asking answering }
    ensures always { (old new : Ends) (steps : List Step) (asking answering : Ledger) → AreNewEnds old
        → IsHistory old steps new
        → AreHeld new asking answering → AreWithinWindows asking answering }
{}

/// In each direction, where the end that asks counts one place for its peer: the requests in effect at the
/// other end are the first ones, those that it counts as answered are the same or all but the last, and
/// none is skipped. Windows only widen, so it counted one all along.
pub fn windows_of_one_keep_in_step()
    ensures sound { (ends : Ends) (asking answering : Ledger) → AreSoundEnds ends
        → AreHeld ends asking answering
        → asking.window ≡ 1 → AreInStep asking answering }
    ensures always { (old new : Ends) (steps : List Step) (asking answering : Ledger) → AreNewEnds old
        → IsHistory old steps new
        → AreHeld new asking answering → asking.window ≡ 1 → AreInStep asking answering }
{}

/// With a window of one the requests are processed in the order of their Message IDs, and so are they
/// answered: each is the least that was not yet.
pub fn windows_of_one_keep_order()
    ensures taken { (old new : Ledger) (sent others : List Entry) (number : ℕ) (reply : Octets)
        → IsSoundLedger old sent others
        → old.size ≡ 1 → Moves (TakeEffect number reply) (Some old) (Some new) → IsGap old.in_effect number }
    ensures counted { (old new : Ledger) (sent others : List Entry) (number : ℕ)
        → IsSoundLedger old sent others
        → old.window ≡ 1 → Moves (Count number) (Some old) (Some new) → IsGap old.answered number }
{}

/// What a sound end put into effect or counts as answered was sent by the other, also where that one let
/// the IKE SA go.
pub fn what_is_taken_was_sent()
    ensures in_effect { (e : End) (l : Ledger) (others : List Entry) (n : ℕ) → IsSoundEnd e others
        → e.ledger ≡ Some l
        → HasNumber l.in_effect n → HasAsked (other_role l.role) others n }
    ensures answered { (e : End) (l : Ledger) (others : List Entry) (n : ℕ) → IsSoundEnd e others
        → e.ledger ≡ Some l
        → HasNumber l.answered n → HasAnswered l.role others n }
{}

/// All requests that a sound end sent with one number are the same octets, and so are all responses.
pub fn numbers_are_sent_once()
    ensures request { (e : End) (others : List Entry) (n : ℕ) (a b : Octets) → IsSoundEnd e others
        → Contains e.sent (request_of n a) → Contains e.sent (request_of n b) → a ≡ b }
    ensures response { (e : End) (others : List Entry) (n : ℕ) (a b : Octets) → IsSoundEnd e others
        → Contains e.sent (response_of n a) → Contains e.sent (response_of n b) → a ≡ b }
    ensures always { (old new : Ends) (steps : List Step) → AreNewEnds old → IsHistory old steps new
        → SendsOnce new.one.sent × SendsOnce new.other.sent }
{}

/// What is under some keys is all that was sent under them, and what was stored later comes after it.
pub fn what_was_sent_under_keys_is_told()
    ensures there { (keys : KeyRecord) (sent : List Marked) (entry : Entry)
        → Contains (under keys sent) entry ↔ Contains sent (record { keys = keys; entry = entry }) }
    ensures later { (keys : KeyRecord) (sent more : List Marked)
        → under keys (sent ++ more) ≡ under keys sent ++ under keys more }
    ensures one { (keys k : KeyRecord) → times keys (k ∷ []) ≡ 1 ↔ (k ≡ keys) }
    ensures counted { (keys : KeyRecord) (made more : List KeyRecord)
        → times keys (made ++ more) ≡ times keys made + times keys more }
{}

/// A party that holds many IKE SAs stays sound under each key record by its turns alone, where what
/// they take under it is among what the peer will have sent under it, and the party comes to it once. It is
/// so too where the peer will have sent more.
pub fn each_party_stays_sound()
    ensures kept { (keys : KeyRecord) (turn : Turn) (old new : Party) (others : List Entry)
        → IsSoundParty keys old others
        → TakesTurn turn old new → IsGenuineTurn keys turn new others → times keys new.made ≤ 1
        → IsSoundParty keys new others }
    ensures later { (keys : KeyRecord) (p : Party) (others later : List Entry) → IsSoundParty keys p others
        → ((entry : Entry) → Contains others entry → Contains later entry) → IsSoundParty keys p later }
{}

/// Two parties that hold nothing are sound under each key record, and stay so over each turn of either,
/// where what it takes under the record was sent under it by the other till then, and it came to the record
/// once at most.
pub fn parties_stay_sound()
    ensures begun { (keys : KeyRecord) (parties : Parties) → IsNewParty parties.one → IsNewParty parties.other
        → AreSoundParties keys parties }
    ensures at_one { (keys : KeyRecord) (turn : Turn) (old new : Parties) → AreSoundParties keys old
        → TakesTurn turn old.one new.one → new.other ≡ old.other
        → IsGenuineTurn keys turn new.one (under keys old.other.sent)
        → times keys new.one.made ≤ 1 → AreSoundParties keys new }
    ensures at_other { (keys : KeyRecord) (turn : Turn) (old new : Parties) → AreSoundParties keys old
        → TakesTurn turn old.other new.other → new.one ≡ old.one
        → IsGenuineTurn keys turn new.other (under keys old.one.sent)
        → times keys new.other.made ≤ 1 → AreSoundParties keys new }
{}

/// Where two sound parties hold an IKE SA each under the same keys, it is with these as with two ends,
/// in each direction.
pub fn parties_keep_in_step()
    ensures issued { (keys : KeyRecord) (parties : Parties) (asking answering : Ledger)
        → AreSoundParties keys parties
        → AreHeldUnder keys parties asking answering → AreIssuedAndInEffect asking answering }
    ensures windows { (keys : KeyRecord) (parties : Parties) (asking answering : Ledger)
        → AreSoundParties keys parties
        → AreHeldUnder keys parties asking answering → AreWithinWindows asking answering }
    ensures steps { (keys : KeyRecord) (parties : Parties) (asking answering : Ledger)
        → AreSoundParties keys parties
        → AreHeldUnder keys parties asking answering → asking.window ≡ 1 → AreInStep asking answering }
{}

/// The premises are met by two ends that come to the same keys, of which one asks and the other answers,
/// twice with the same octets; and what is asked of a turn by a party whose first IKE SA comes to keys
/// and asks.
pub fn premises_are_met()
    ensures history { (keys : KeyRecord) (request reply : Octets)
        → IsHistory fresh_ends (worked_steps keys request reply) (worked_ends keys request reply) }
    ensures at_once { (keys : KeyRecord) (request reply : Octets)
        → IsGenuineAtOnce [] [] (worked_steps keys request reply) }
    ensures new { AreNewEnds fresh_ends }
    ensures held { (keys : KeyRecord) (request reply : Octets)
        → AreHeld (worked_ends keys request reply) (asked_ledger keys request) (answered_ledger keys reply) }
    ensures held_back { (keys : KeyRecord) (request reply : Octets)
        → AreHeld (worked_ends keys request reply) (answered_ledger keys reply) (asked_ledger keys request) }
    ensures once { (keys : KeyRecord) (request : Octets) → times keys (asking_party keys request).made ≡ 1 }
    ensures turn { (keys : KeyRecord) (request : Octets)
        → TakesTurn (worked_turn keys request) new_party (asking_party keys request) }
{}

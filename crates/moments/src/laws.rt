//! What follows from the definitions alone. No function here does anything.
ghost use Rattle.std.specs.Prelude.{◌≡◌, ◌<◌, ◌≤◌, ◌^◌, ℕ, Bool, true, List, Option, [], All, length, map};
ghost use Rattle.std.specs.List.{flat_map, AllZip};
ghost use Rattle.requests.specs.Outgoing.{SomeOutstanding};
ghost use Rattle.sadb.specs.Contents.{table_content};
ghost use Rattle.sadb.specs.Database.{Database, IsReserved};
ghost use Rattle.association.specs.Closing.{Closes};
ghost use Rattle.association.specs.Contents.{association_content};
ghost use Rattle.association.specs.declared.phase.Association.{Association};
ghost use Rattle.association.specs.declared.phase.Request.{Request};
ghost use Rattle.moments.specs.Due.{closed_of, has_failed, held_of, is_unanswered, outstanding_count, sent_of, SomethingComes};
ghost use Rattle.moments.specs.Held.{HasBegun, HasNothingDue, IsInTime, IsOutstandingOf, LeavesPairsBut, StaysItself};
ghost use Rattle.moments.specs.Holding.{HoldSome, HoldsNone, LeavesFewer};
ghost use Rattle.moments.specs.Next.{IsBefore, NothingIsDueBefore, SomethingIsDue};
ghost use Rattle.moments.specs.Ticking.{Ticks};
ghost use Rattle.moments.specs.declared.ticking.Ticked.{Ticked};

use association::laws::endings_are_determined;

/// A tick brings one thing: what is sent and what is closed, and what is held then of the IKE SAs and of the
/// table, go by what was held of both before, whatever spare capacity there is.
pub fn ticks_are_determined()
    ensures { (now : ℕ) (old other a b : List Association) (table another a_table b_table : Database)
        (one two : Ticked)
        → map association_content old ≡ map association_content other
        → table_content table ≡ table_content another
        → Ticks now old table one a a_table → Ticks now other another two b b_table
        → (one ≡ two) × (map association_content a ≡ map association_content b)
        × (table_content a_table ≡ table_content b_table) }
{
    endings_are_determined();
}

/// What is held after a tick are the IKE SAs that were held before and are not over, in their order, each
/// under the same serial, role and SPIs and with the same keys. Each is as it was but for timers, or closed
/// by this tick and told so.
pub fn what_is_held_was_held()
    ensures { (now : ℕ) (old new : List Association) (table new_table : Database) (ticked : Ticked)
        → Ticks now old table ticked new new_table
        → AllZip (StaysItself now ticked.closed) (held_of now old) new }
{}

/// Each request that goes out again waits for an answer and is due, and goes out under its Message ID with
/// the octets that it had, of an IKE SA that is held before and after. It waits still.
pub fn what_goes_out_again_is_outstanding()
    ensures { (now : ℕ) (old new : List Association) (table new_table : Database) (ticked : Ticked)
        → Ticks now old table ticked new new_table → All (IsOutstandingOf now old new) ticked.requests }
{}

/// All that is due comes, and nothing else: of each IKE SA that is held on the requests that are due, by
/// rising Message ID, and the serial of each that is closed, in the order of the IKE SAs.
pub fn what_comes_is_due()
    ensures { (now : ℕ) (old : List Association) (table : Database) (ticked : Ticked) (new : List Association)
        (new_table : Database)
        → Ticks now old table ticked new new_table
        → (ticked.requests ≡ flat_map (sent_of now) old) × (ticked.closed ≡ flat_map (closed_of now) old) }
{}

/// After a tick nothing is due that it has reached, and nothing waits from a later one on. A request that
/// went out again waits from then on, and a closed IKE SA is held from then on, whatever closed it. So what
/// is due at a later time was not at this one.
pub fn nothing_is_due_afterwards()
    ensures held { (earlier now : ℕ) (old : List Association) (table : Database) (ticked : Ticked)
        (new : List Association)
        (new_table : Database) → earlier ≤ now → All (HasBegun earlier) old
        → Ticks now old table ticked new new_table
        → All (IsInTime now) new }
    ensures closed { (now : ℕ) (old new : Association) (table new_table : Database)
        → Closes old table now new new_table
        → IsInTime now new }
{}

/// The SA pairs of the IKE SAs that a tick closes go, and no other pair is changed.
pub fn pairs_go_with_their_associations()
    ensures { (now : ℕ) (old : List Association) (table : Database) (ticked : Ticked) (new : List Association)
        (new_table : Database)
        → Ticks now old table ticked new new_table → LeavesPairsBut ticked.closed table new_table }
{}

/// Before anything is due, a tick changes nothing and sends nothing (`brings`): nothing comes of any IKE SA
/// (`comes`).
pub fn nothing_comes_before_its_time()
    ensures comes { (now : ℕ) (associations : List Association)
        → All (HasNothingDue now) associations → ¬ SomethingComes now associations }
    ensures brings { (now : ℕ) (old new : List Association) (table new_table : Database) (ticked : Ticked)
        → All (HasNothingDue now) old → Ticks now old table ticked new new_table
        → (ticked ≡ record { requests = []; closed = [] }) × (new ≡ old) × (new_table ≡ table) }
{}

/// So at no time of 64 bits before the one that [`next_due`](crate::next_due) tells anything is changed or
/// sent.
pub fn nothing_comes_before_the_next_moment()
    ensures { (moment : Option ℕ) (now : ℕ) (old new : List Association) (table new_table : Database)
        (ticked : Ticked)
        → NothingIsDueBefore moment old → now < 2 ^ 64 → IsBefore now moment
        → Ticks now old table ticked new new_table
        → (ticked ≡ record { requests = []; closed = [] }) × (new ≡ old) × (new_table ≡ table) }
{}

/// And what is due at some time lies after each time at which nothing is due.
pub fn what_is_due_next_lies_ahead()
    ensures { (now later : ℕ) (associations : List Association)
        → All (HasNothingDue now) associations → SomethingIsDue later associations → now < later }
{}

/// Where something is due something comes: a request goes out again, an IKE SA is closed, or fewer are held
/// from then on.
pub fn what_is_due_comes()
    ensures { (now : ℕ) (old new : List Association) (table new_table : Database) (ticked : Ticked)
        → SomethingIsDue now old → Ticks now old table ticked new new_table
        → ¬ ((ticked.requests ≡ []) × (ticked.closed ≡ []) × (length new ≡ length old)) }
{}

/// Where the peer is taken to be gone a request waits for an answer, which was sent for the last time.
pub fn who_is_gone_was_asked()
    ensures { (now : ℕ) (a : Association) → has_failed now a ≡ true
        → SomeOutstanding a.outgoing.outstanding (λ (r : Request) (b : Bool). is_unanswered now r ≡ b) }
{}

/// No more requests go out again than wait for an answer.
pub fn no_more_go_out_than_wait()
    ensures { (now : ℕ) (old new : List Association) (table new_table : Database) (ticked : Ticked)
        → Ticks now old table ticked new new_table → length ticked.requests ≤ outstanding_count old }
{}

/// Of the IKE SAs some are held on at a tick, in their order, and none comes. One that is held on stays
/// itself, with its keys and what it answered; it stays in its phase and asks for nothing more, or is closed.
/// SA pairs go from the table, and none comes or is changed. An SPI stays reserved that no IKE SA holds whose
/// peer is gone.
pub fn some_are_held_on()
    ensures held { (now : ℕ) (old : List Association) (table : Database) (ticked : Ticked)
        (new : List Association) (new_table : Database)
        → Ticks now old table ticked new new_table → HoldSome now old new }
    ensures pairs { (now : ℕ) (old : List Association) (table : Database) (ticked : Ticked)
        (new : List Association) (new_table : Database)
        → Ticks now old table ticked new new_table → LeavesFewer table new_table }
    ensures reserved { (now : ℕ) (old : List Association) (table : Database) (ticked : Ticked)
        (new : List Association) (new_table : Database)
        (spi : ℕ) → HoldsNone now old spi → IsReserved table spi → Ticks now old table ticked new new_table
        → IsReserved new_table spi }
{}

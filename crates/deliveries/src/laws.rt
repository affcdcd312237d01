//! What follows from the definitions alone. No function here does anything.
ghost use Rattle.std.specs.Prelude.{◌≡◌, ℕ, List, Option, false};
ghost use Rattle.std.specs.FinSet as set;
ghost use Rattle.base.specs.Octets.{Octets};
ghost use Rattle.policy.specs.declared.entry.Entry.{Entry};
ghost use Rattle.sadb.specs.Database.{Database, Installs, IsAsBefore, IsSoundTable, Marks, Releases, RemovesAllOf, Removes, Reserves, SealsAt};
ghost use Rattle.sadb.specs.declared.pair.Pair.{Pair};
ghost use Rattle.traffic.specs.Outcomes.{Outcome};
ghost use Rattle.traffic.specs.Sending.{Sends};
ghost use Rattle.deliveries.specs.Numbers.{AreNumbersOf};
ghost use Rattle.deliveries.specs.Passages.{BringsUnused, IsTrail, LeavesWindows, Passage};
ghost use Rattle.deliveries.specs.Promises.{PacketsAreJudged};

/// Of every list of steps, whatever comes: no sequence number of a Child SA is judged twice, nor one that its
/// window held when the list began. What is judged is what the rule judges at all numbers taken before, and
/// it is answered by the verdict on its contents, or refused for its padding (E19). Where no ICV was forged,
/// each packet that was sent to a child is judged exactly at its first arrival while the SA pair stands and
/// the number, if it was not taken before, lies inside or above the window and is rightly recovered, and the
/// verdict is that on the very octets sent. At every other packet no payload is delivered and the table stays
/// as it was: it is refused for the first fault that the rule finds (E14 to E18), or reaches no pair (E28, or
/// E14 where it ends before its SPI). A child keeps its SPI, key and selectors; once gone, before the list or
/// in it, it never comes back, and no packet is judged as its own.
pub fn every_list_of_packets_is_judged()
    ensures { (old new : Database) (passages : List Passage) → IsTrail old passages new
        → PacketsAreJudged passages }
{
    esp::laws::a_packet_has_one_number();
    esp::laws::windows_show_what_was_taken();
    esp::laws::every_history_judges_at_most_once();
    sadb::laws::answers_are_determined();
    traffic::laws::a_packet_takes_one_number();
}

/// Which sequence numbers of a Child SA are judged, and where, is determined: there is one such list.
pub fn numbers_are_determined()
    ensures { (child : ℕ) (passages : List Passage) (one other : List (Option ℕ))
        → AreNumbersOf child passages one → AreNumbersOf child passages other → one ≡ other }
{}

/// No change of a table but by a packet that came moves a window: none by any number of changes of room, SPIs
/// and SA pairs, where a pair that comes has a window in which no sequence number is taken, nor by a packet
/// that is sent.
pub fn other_changes_leave_windows()
    ensures transitive { (a b c : Database) → LeavesWindows a b → LeavesWindows b c → LeavesWindows a c }
    ensures unchanged { (d : Database) → IsSoundTable d → LeavesWindows d d }
    ensures bringing { (old new : Database) → IsSoundTable old → BringsUnused old new
        → LeavesWindows old new }
    ensures preparing { (old new : Database) → IsSoundTable old → IsAsBefore old new → LeavesWindows old new }
    ensures reserving { (old new : Database) (spi : ℕ) → IsSoundTable old → Reserves old spi new
        → LeavesWindows old new }
    ensures releasing { (old new : Database) (spi : ℕ) → IsSoundTable old → Releases old spi new
        → LeavesWindows old new }
    ensures installing { (old new : Database) (spi : ℕ) (pair : Pair) (serial : ℕ) → IsSoundTable old
        → ((n : ℕ) → set.contains pair.inbound.window.taken n ≡ false) → Installs old spi pair serial new
        → LeavesWindows old new }
    ensures removing { (old new : Database) (serial : ℕ) → IsSoundTable old → Removes old serial new
        → LeavesWindows old new }
    ensures emptying { (old new : Database) (ike : ℕ) → IsSoundTable old → RemovesAllOf old ike new
        → LeavesWindows old new }
    ensures marking { (old new : Database) (serial : ℕ) → IsSoundTable old → Marks old serial new
        → LeavesWindows old new }
    ensures sealing { (old new : Database) (serial next : ℕ) (payload before : List ℕ) (number : ℕ)
        (after : List ℕ)
        → IsSoundTable old → SealsAt old serial next payload before number new after → LeavesWindows old new }
    ensures sending { (old new : Database) (policy : List Entry) (packet : Octets) (outcome : Outcome)
        → IsSoundTable old → Sends old policy packet outcome new → LeavesWindows old new }
{}

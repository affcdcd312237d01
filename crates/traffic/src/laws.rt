//! What follows from the definitions alone. No function here does anything.
ghost use Rattle.std.specs.Prelude.{◌≡◌, ℕ, List, Some, true, false};
ghost use Rattle.base.specs.Octets.{Octets};
ghost use Rattle.flows.specs.Staying.{NoneComes};
ghost use Rattle.policy.specs.declared.entry.Action.{Action};
ghost use Rattle.policy.specs.declared.entry.Action.TheVariants.{Protect, Bypass};
ghost use Rattle.policy.specs.declared.entry.Entry.{Entry};
ghost use Rattle.policy.specs.declared.flow.Flow.{Flow};
ghost use Rattle.policy.specs.declared.policy.Direction.TheVariants.{Outward, Inward};
ghost use Rattle.sadb.specs.Contents.{table_content};
ghost use Rattle.sadb.specs.Database.{Database, IsReady, IsSoundTable, pair_at};
ghost use Rattle.sadb.specs.Following.{Follows};
ghost use Rattle.sadb.specs.Laying.{KeepsSenders};
ghost use Rattle.sadb.specs.Mirrors.{Mirrors};
ghost use Rattle.sadb.specs.declared.pair.Pair.{Pair};
ghost use Rattle.traffic.specs.Admitting.{Admits};
ghost use Rattle.traffic.specs.Faults.{is_after_judging};
ghost use Rattle.traffic.specs.Due.{IsDueAtPair};
ghost use Rattle.traffic.specs.Outcomes.{Outcome, Up, Dummy, Sealed, Clear, Dropped};
ghost use Rattle.traffic.specs.Receiving.{Receives, TakesNumberAt, TakesOneNumber};
ghost use Rattle.traffic.specs.Sending.{IsDecided, Protects, Sends};
ghost use Rattle.traffic.specs.declared.fault.PacketFault.{PacketFault};

use esp::laws::{a_packet_carries_one_payload, a_packet_has_one_number, sealed_packets_open};
use policy::laws::{flows_are_determined, policies_are_determined};
use sadb::laws::answers_are_determined;

/// A packet has one outcome, and leaves one table behind.
pub fn outcomes_are_determined()
    ensures received { (old new other : Database) (packet : Octets) (one another : Outcome)
        → Receives old packet one new → Receives old packet another other → (one ≡ another) × (new ≡ other) }
    ensures sent { (old new other : Database) (policy : List Entry) (packet : Octets) (one another : Outcome)
        → Sends old policy packet one new → Sends old policy packet another other
        → (one ≡ another) × (new ≡ other) }
    ensures admitted { (policy : List Entry) (packet : Octets) (one another : Outcome)
        → Admits policy packet one → Admits policy packet another → one ≡ another }
{
    a_packet_has_one_number();
    a_packet_carries_one_payload();
    flows_are_determined();
    policies_are_determined();
    answers_are_determined();
}

/// What is to be protected never goes in the clear, outward or inward, and is never discarded: outward it is
/// sealed, or dropped because an SA or a sequence number is missing. Only what the policy bypasses goes as it
/// is.
pub fn only_the_bypassed_goes_in_the_clear()
    ensures outward { (old new : Database) (policy : List Entry) (packet : Octets) (flow : Flow)
        (action : Action) (octets : Octets)
        → IsDecided policy Outward packet flow action → Sends old policy packet (Clear octets) new
        → (action ≡ Bypass) × (octets ≡ packet) }
    ensures protected { (old new : Database) (policy : List Entry) (packet : Octets) (flow : Flow)
        (outcome : Outcome)
        → IsDecided policy Outward packet flow Protect → Sends old policy packet outcome new
        → Protects old flow packet outcome new }
    ensures inward { (policy : List Entry) (packet : Octets) (flow : Flow) (action : Action) (octets : Octets)
        → IsDecided policy Inward packet flow action → Admits policy packet (Clear octets)
        → (action ≡ Bypass) × (octets ≡ packet) }
{
    flows_are_determined();
    policies_are_determined();
}

/// Each ESP packet that is opened takes exactly one sequence number, its own at the SA pair that it is
/// addressed to, and nothing else is changed: also where it is dropped for its padding (E19) or for what it
/// carried (E21, E22, E23, E39). By every other refusal nothing is changed.
pub fn a_packet_takes_one_number()
    ensures up { (old new : Database) (packet inner : Octets) (child number : ℕ)
        → Receives old packet (Up child number inner) new → TakesNumberAt old packet child number new }
    ensures dummy { (old new : Database) (packet : Octets) (child number : ℕ)
        → Receives old packet (Dummy child number) new → TakesNumberAt old packet child number new }
    ensures refused_after_judging { (old new : Database) (packet : Octets) (fault : PacketFault)
        → Receives old packet (Dropped fault) new → is_after_judging fault ≡ true
        → TakesOneNumber old packet new }
    ensures refused_before { (old new : Database) (packet : Octets) (fault : PacketFault)
        → Receives old packet (Dropped fault) new → is_after_judging fault ≡ false → new ≡ old }
{}

/// A table after a packet follows the one before: no sequence number that was taken is fresh again, no number
/// is sealed twice, and no SA pair comes, goes or gets another SPI, key or selector.
pub fn later_tables_follow()
    ensures received { (old new : Database) (packet : Octets) (outcome : Outcome)
        → IsSoundTable old → Receives old packet outcome new → Follows old new }
    ensures sent { (old new : Database) (policy : List Entry) (packet : Octets) (outcome : Outcome)
        → IsSoundTable old → Sends old policy packet outcome new → Follows old new }
{
    sadb::laws::later_tables_follow();
}

/// No SA pair comes by a packet, so what is remembered of flows stays right.
pub fn no_pair_comes()
    ensures received { (old new : Database) (packet : Octets) (outcome : Outcome)
        → Receives old packet outcome new → NoneComes old.pairs new.pairs }
    ensures sent { (old new : Database) (policy : List Entry) (packet : Octets) (outcome : Outcome)
        → Sends old policy packet outcome new → NoneComes old.pairs new.pairs }
{
    flows::laws::no_pair_comes();
}

/// By a packet no SA pair comes or goes, and none gets another outbound SA: what was laid before it is
/// finished in the same way after it.
pub fn senders_stay()
    ensures received { (old new : Database) (packet : Octets) (outcome : Outcome)
        → Receives old packet outcome new → KeepsSenders old.pairs new.pairs }
    ensures sent { (old new : Database) (policy : List Entry) (packet : Octets) (outcome : Outcome)
        → Sends old policy packet outcome new → KeepsSenders old.pairs new.pairs }
{
    sadb::laws::senders_stay();
}

/// A table that is ready to give an SPI without memory is so after a packet.
pub fn room_stays()
    ensures received { (old new : Database) (packet : Octets) (outcome : Outcome)
        → IsReady old → Receives old packet outcome new → IsReady new }
    ensures sent { (old new : Database) (policy : List Entry) (packet : Octets) (outcome : Outcome)
        → IsReady old → Sends old policy packet outcome new → IsReady new }
{
    sadb::laws::room_stays();
}

/// What one end seals by an SA pair, the end that has the mirrored pair delivers, octet for octet, where its
/// sequence number is due: not below the window and not taken yet.
pub fn what_one_end_seals_the_other_hands_up()
    ensures { (near near_new far far_new : Database) (policy : List Entry) (packet octets : Octets)
        (child number : ℕ)
        (pair mirror : Pair) (outcome : Outcome) → pair_at near.pairs child ≡ Some pair
        → Sends near policy packet (Sealed child number octets) near_new → Mirrors pair mirror
        → IsSoundTable far → IsDueAtPair far mirror octets number → Receives far octets outcome far_new
        → outcome ≡ Up mirror.serial number packet }
{
    a_packet_has_one_number();
    a_packet_carries_one_payload();
    sealed_packets_open();
    flows_are_determined();
}

/// What becomes of a packet goes by what the table holds: with other room the same does, and that room is
/// left.
pub fn outcomes_go_by_content()
    ensures received { (old other new : Database) (packet : Octets) (outcome : Outcome)
        → table_content old ≡ table_content other → Receives old packet outcome new
        → Receives other packet outcome (record new { room = other.room }) }
    ensures sent { (old other new : Database) (policy : List Entry) (packet : Octets) (outcome : Outcome)
        → table_content old ≡ table_content other → Sends old policy packet outcome new
        → Sends other policy packet outcome (record new { room = other.room }) }
{}

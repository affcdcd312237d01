//! What passes no check changes nothing, and what has no effect can be left out.
ghost use Rattle.std.specs.Prelude.{◌≡◌, ℕ, Bool, List};
ghost use Rattle.base.specs.Octets.{Octets};
ghost use Rattle.suite.specs.declared.fresh.Fresh.{Fresh};
ghost use Rattle.sadb.specs.Contents.{table_content};
ghost use Rattle.effects.specs.Taking.{Meaning};
ghost use Rattle.ike.specs.Receiving.{IsInitialRequest};
ghost use Rattle.gateway.specs.Contents.{state_content};
ghost use Rattle.gateway.specs.Histories.{IsPassage, Passage};
ghost use Rattle.gateway.specs.Inputs.{Ike};
ghost use Rattle.gateway.specs.LeavingOut.{AreAnsweredAlike, AreGivenAlike, EachLeftOut, GivesPacket, IsRightlyGiven, IsWithoutEffect, LeavesTable};
ghost use Rattle.gateway.specs.States.{State};
ghost use Rattle.gateway.specs.Strangers.{AddsAtMostAHalfOpen, ChangesAtMostOneWaiting, CountsForOne, IsAsItWas, IsStrange};

use crate::laws::{refusals_change_nothing, steps_are_determined};
use association::laws::receptions_say_why;
use effects::laws::associations_stay_themselves;
use ike::laws::{keys_stay_whole, what_is_quiet_changes_nothing};
use sadb::laws::later_tables_are_determined;
use wire::laws::octets_spell_one_message;

/// What passes no check changes nothing of a gateway, but for IKE SAs that are just beginning (RFC 7296,
/// sections 1.2, 2.1 and 2.6; RFC 4303, section 3.4).
///
/// - A datagram of IKE *counts* where it opens under the keys of the peer of the IKE SA that it is for, as
///   a new request in its window or as the response that a request waits for. One that counts for none,
///   begins no IKE SA and answers no first request of this end leaves the gateway as it was, but for the
///   table's spare capacity: a forged one, a changed one, a repeat, a reflection. So does an ESP packet
///   that no pair accepts, and what comes in unprotected (`strange`).
/// - A request of IKE_SA_INIT makes one half-open IKE SA at most, and changes nothing else (`first`).
/// - Any other datagram that counts for none changes at most the IKE SA that it is for, which waits for the
///   response to its own IKE_SA_INIT. Then that one waits for this response still, or for the one to
///   IKE_AUTH: whoever sees its request can answer it (`answer`).
pub fn strangers_change_nothing<C>()
    ensures strange { (meaning_of : C → Meaning) (p : Passage C) → IsPassage meaning_of p
        → IsStrange (meaning_of p.before.caller) p.before p.given
        → IsAsItWas p.before p.after }
    ensures first { (meaning_of : C → Meaning) (from octets : Octets) (fresh : Fresh) (p : Passage C)
        → IsPassage meaning_of p
        → p.given ≡ Ike from octets fresh
        → IsInitialRequest octets
        → AddsAtMostAHalfOpen p.before p.after }
    ensures answer { (meaning_of : C → Meaning) (from octets : Octets) (fresh : Fresh) (p : Passage C)
        → IsPassage meaning_of p
        → p.given ≡ Ike from octets fresh
        → ¬ CountsForOne (meaning_of p.before.caller).plain_of p.before.machine.held octets
        → ¬ IsInitialRequest octets
        → ChangesAtMostOneWaiting octets p.before p.after }
{
    receptions_say_why();
    what_is_quiet_changes_nothing();
    associations_stay_themselves();
    octets_spell_one_message();
}

/// What has no effect can be left out (RFC 7296, sections 2.1 and 2.6; RFC 4303, section 3.4). Take two runs
/// of gateways that hold the same, spare room apart. Both are given the same inputs, and each of them others
/// between them, or none. Each of those others
///
/// - is strange, as [`strangers_change_nothing`] has it: a datagram that counts for no IKE SA and is no
///   message of IKE_SA_INIT as below, an ESP packet that no pair accepts, or what comes in unprotected;
/// - or is answered by `Refused`, for memory or for any other reason: so the run after a refusal is the run
///   without that input;
/// - or leaves what the gateway holds as it was, as a datagram that is dropped does.
///
/// Then what both are given is answered in both runs by the same outputs, octet for octet, and both gateways
/// hold the same afterwards. What is left out may have had an answer of its own, as a retransmission has.
///
/// Both are given the same fresh octets and times, and no input of theirs is refused for memory. Datagrams
/// are of octets, and the cipher's lengths follow its law, which always holds. Strange is what fails a check,
/// and not who sends it: that nobody without keys passes one is no part of this.
///
/// Not said: the same of requests of IKE_SA_INIT, each of which may make a half-open IKE SA and take a
/// serial, and of the response to an own one.
pub fn what_has_no_effect_can_be_left_out<C>()
    ensures { (meaning_of : C → Meaning) (marks also : List Bool) (passages others : List (Passage C))
        (old other new after : State C)
        → AreGivenAlike meaning_of (IsRightlyGiven meaning_of) marks also passages others old other new after
        → state_content other ≡ state_content old
        → EachLeftOut (IsWithoutEffect meaning_of) marks passages
        → EachLeftOut (IsWithoutEffect meaning_of) also others
        → AreAnsweredAlike marks also passages others × (state_content after ≡ state_content new) }
{
    steps_are_determined::<C>();
    refusals_change_nothing::<C>();
    keys_stay_whole();
    later_tables_are_determined();
    strangers_change_nothing::<C>();
}

/// Packets are answered as they are without strangers (RFC 4301, section 4.4; RFC 4303, section 3.4). Take
/// two runs of gateways of one policy, whose tables hold the same; of IKE and of the time they may hold
/// anything. Both are given the same packets in the same order: ESP packets, packets on their way out, and
/// what comes in unprotected. Each of them is given others between them, or none, and each of those others
///
/// - counts for no IKE SA and is accepted by no pair: a request of IKE_SA_INIT, the response to an own one, a
///   forged datagram, a repeat;
/// - or leaves what the table holds as it was, as a tick does with which no IKE SA is closed.
///
/// Then each packet that both are given is answered in both runs by the same output, octet for octet, and
/// both tables hold the same afterwards. So between two changes of the table no half-open IKE SA, however
/// many there are, and no limit on them changes what becomes of a packet.
///
/// No packet that both are given is refused for memory. Not said: the same where an IKE SA's message changes
/// the table, such as IKE_AUTH by whoever made a key exchange; or of pairs that aren't made as a limit is
/// reached.
pub fn packets_go_as_without_strangers<C>()
    ensures { (meaning_of : C → Meaning) (marks also : List Bool) (passages others : List (Passage C))
        (old other new after : State C)
        → AreGivenAlike meaning_of GivesPacket marks also passages others old other new after
        → other.entries ≡ old.entries
        → table_content other.table ≡ table_content old.table
        → EachLeftOut (LeavesTable meaning_of) marks passages
        → EachLeftOut (LeavesTable meaning_of) also others
        → AreAnsweredAlike marks also passages others
        × (table_content after.table ≡ table_content new.table) }
{
    steps_are_determined::<C>();
    keys_stay_whole();
    later_tables_are_determined();
    strangers_change_nothing::<C>();
}

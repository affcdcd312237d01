//! A gateway beside one that is given what it is, without the inputs of strangers.
ghost use Rattle.std.specs.Prelude.{◌≡◌, ◌<◌, ◌≤◌, ℕ, List, Bool, false};
ghost use Rattle.effects.specs.Taking.{Meaning};
ghost use Rattle.ike.specs.Machines.{SERIAL_END};
ghost use Rattle.ike.specs.declared.output.Trace.{Trace};
ghost use Rattle.gateway.specs.Beside.{AreAnsweredBeside, AreGivenBeside, HoldsBeside, itself, none_yet};
ghost use Rattle.gateway.specs.Carrying.{EachPairIsOfAnEstablished};
ghost use Rattle.gateway.specs.Contents.{state_content};
ghost use Rattle.gateway.specs.Histories.{IsTrail, Passage};
ghost use Rattle.gateway.specs.Inputs.{Input};
ghost use Rattle.gateway.specs.LeavingOut.{IsRightlyGiven};
ghost use Rattle.gateway.specs.Others.{AreHalfOpen, HaveNoPairs, IsApart, said_without, state_without};
ghost use Rattle.gateway.specs.Outputs.{OutputView, wants_memory};
ghost use Rattle.gateway.specs.Renaming.{IsRenaming, renamed_input, renamed_said, renamed_state, renamed_trace};
ghost use Rattle.gateway.specs.States.{IsSoundState, State};
ghost use Rattle.gateway.specs.Steps.{Traces};

use crate::laws::{steps_are_determined, strangers_change_nothing};
use effects::laws::associations_stay_themselves;
use ike::laws::{
    children_are_made_of_their_messages, each_association_was_there_or_came, keys_stay_whole,
    requests_are_remembered, steps_keep_their_laws, traces_name_what_is_held,
};
use moments::laws::{pairs_go_with_their_associations, what_is_held_was_held};
use sadb::laws::later_tables_are_determined;

/// What strangers send can be left out of a run, requests for an IKE SA among it (RFC 7296, sections 1.2, 2.6
/// and 3.1). Take two runs of gateways that hold the same, spare room apart (`begun`). The first one is given
/// what strangers send: datagrams and ESP packets that pass no check under keys that are held, and requests of
/// IKE_SA_INIT. The second one is given all else, in the same order. Then each input that both are given is
/// answered alike, and both hold alike at the end (`beside`).
///
/// *Alike* is up to serials of IKE SAs. Where a stranger's request began one, that has a serial, so whatever
/// begins later has a serial more in the first run than in the second. An order that names an IKE SA names it
/// by the serial of its run. Of the strangers' IKE SAs themselves, all half open, nothing is asked but what an
/// input that stays may do, which has to have nothing to do with them:
///
/// - No datagram that stays has the SPIs of one of them, or repeats its request, and no order names one.
/// - Where a request of IKE_SA_INIT stays, fewer than 8 IKE SAs are half open in the first run; or it brings a
///   right cookie, and fewer than 32 are.
/// - Where an IKE SA is to begin, fewer than 128 are held in the first run, and its fresh SPI isn't one of
///   theirs. At each input that stays a serial is left.
/// - No input that stays is refused for want of memory, in either run.
///
/// That each SA pair is of an established IKE SA holds of every gateway
/// ([`Gateway::invariants_hold`](crate::Gateway::invariants_hold)).
///
/// Two kinds of input are neither left out nor may stay. A forged answer to this end's own IKE_SA_INIT request
/// changes the one IKE SA that waits for it ([`strangers_change_nothing`], `answer`). And whoever began an IKE SA
/// has its keys: its IKE_AUTH request opens under them, and ends that IKE SA where the proof fails. So the
/// comparison goes up to such an input. Of packets alone
/// [`packets_go_as_without_strangers`](crate::laws::packets_go_as_without_strangers) says more.
pub fn strangers_can_be_left_out<C>()
    ensures begun { (old other : State C)
        → state_content old ≡ state_content other
        → HoldsBeside itself none_yet old other }
    ensures beside { (meaning_of : C → Meaning) (marks : List Bool) (renaming : ℕ → ℕ) (strange : ℕ → Bool)
        (passages others : List (Passage C)) (old new other after : State C)
        → IsTrail meaning_of old passages new
        → IsTrail meaning_of other others after
        → HoldsBeside renaming strange old other
        → EachPairIsOfAnEstablished old
        → EachPairIsOfAnEstablished other
        → AreGivenBeside meaning_of (IsRightlyGiven meaning_of) marks renaming strange passages others
        → AreAnsweredBeside marks renaming strange passages others new after }
{
    associations_stay_themselves();
    children_are_made_of_their_messages();
    each_association_was_there_or_came();
    keys_stay_whole();
    later_tables_are_determined();
    pairs_go_with_their_associations();
    requests_are_remembered();
    steps_are_determined::<C>();
    steps_keep_their_laws();
    strangers_change_nothing::<C>();
    traces_name_what_is_held();
    what_is_held_was_held();
}

/// With other serials for its IKE SAs, in the same order, a gateway does the same: a step of it is one with
/// these in all that it holds, takes, says and traces. From the next serial on the others go on in a row, and
/// one is left in either way of counting.
pub fn steps_go_by_no_serial<C>()
    ensures { (renaming : ℕ → ℕ) (meaning : Meaning) (given : Input) (old new : State C) (said : OutputView)
        (trace : Trace)
        → IsRenaming renaming old.machine.held.next
        → old.machine.held.next < SERIAL_END
        → renaming old.machine.held.next < SERIAL_END
        → Traces meaning given old said trace new
        → Traces meaning (renamed_input renaming given) (renamed_state renaming old)
        (renamed_said renaming said) (renamed_trace renaming trace) (renamed_state renaming new) }
{}

/// Without some of its half-open IKE SAs a gateway does the same, where the input has nothing to do with them.
/// A step that isn't refused for want of memory is one of the gateway that doesn't hold them, with the same
/// messages and the same table; what a `Tick` tells of them is left out. They stay half open.
///
/// It asks that no SA pair is of one of them, and that their serials were given before.
pub fn others_step_as_without<C>()
    ensures { (strange : ℕ → Bool) (meaning : Meaning) (given : Input) (old new : State C)
        (said : OutputView) (trace : Trace)
        → IsSoundState old
        → AreHalfOpen strange old.machine.held
        → HaveNoPairs strange old.table
        → ((serial : ℕ) → old.machine.held.next ≤ serial → strange serial ≡ false)
        → IsApart strange old given
        → wants_memory said ≡ false
        → Traces meaning given old said trace new
        → Traces meaning given (state_without strange old) (said_without strange said) trace
        (state_without strange new)
        × AreHalfOpen strange new.machine.held }
{
    associations_stay_themselves();
}

//! What a step leaves as it was, and that it does one thing.
ghost use Rattle.gateway.specs.LawsOfSteps.{KeysStayWhole, NothingComesBeforeTheNextMoment, PolicyAndCallerStay, RefusalsChangeNothing, RunsAreDetermined, StepsAreDetermined, TheNextMomentBringsSomething, TracesAreDetermined, WhatIsQuietChangesNothing};

use sadb::laws::later_tables_are_determined;
use traffic::laws::{outcomes_are_determined, outcomes_go_by_content};

/// The policy and the provider never change. A refused input changes nothing but the table's spare
/// capacity.
pub fn refusals_change_nothing<C>()
    ensures kept { PolicyAndCallerStay C }
    ensures refused { RefusalsChangeNothing C }
{}

/// A datagram of IKE that is dropped changes nothing, and neither does a retransmitted request.
pub fn what_is_quiet_changes_nothing<C>()
    ensures { WhatIsQuietChangesNothing C }
{
    ike::laws::what_is_quiet_changes_nothing();
}

/// A step is functional, and so is a run: output, trace and what the gateway holds afterwards follow from
/// the input and from what it held before, whatever spare capacity it has. Inputs that are refused on
/// allocation failure are left out. A datagram has to be of octets, the cipher's lengths have to follow from
/// those of the plain text, as its law says, and the keys of the IKE SAs have to have 32 octets each, which
/// always holds.
pub fn steps_are_determined<C>()
    ensures traces { TracesAreDetermined C }
    ensures steps { StepsAreDetermined C }
    ensures runs { RunsAreDetermined C }
    ensures whole { KeysStayWhole C }
{
    ike::laws::keys_stay_whole();
    ike::laws::steps_are_determined();
    later_tables_are_determined();
    outcomes_are_determined();
    outcomes_go_by_content();
}

/// No time of 64 bits before the one that [`next_moment`](crate::Gateway::next_moment) tells sends, closes
/// or removes anything, and none is refused: the gateway is as it was but for its greatest time. The
/// premise on what is due holds of every gateway ([`invariants_hold`](crate::Gateway::invariants_hold)).
pub fn nothing_comes_before_the_next_moment<C>()
    ensures { NothingComesBeforeTheNextMoment C }
{
    ike::laws::nothing_comes_before_the_next_moment();
}

/// And the time that it tells does something, where it isn't refused on allocation failure: a request goes
/// out again, an IKE SA is closed, or not as many are held from then on. Both premises stand in the contract
/// of [`next_moment`](crate::Gateway::next_moment).
pub fn the_next_moment_brings_something<C>()
    ensures { TheNextMomentBringsSomething C }
{
    ike::laws::the_next_moment_brings_something();
    ike::laws::what_is_due_comes_in_time();
}

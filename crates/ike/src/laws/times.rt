//! What is due, and when it comes.
ghost use Rattle.ike.specs.LawsOfTimes.{MachinesStayTimely, MomentsAreRefusedForMemoryAlone, MomentsAreRefusedForWhatComes, MomentsBeforeTheNextAreNotRefused, NewMachinesAreTimely, NothingComesBeforeTheNextMoment, TheNextMomentBringsSomething, TheTimeStandsStill, WhatIsDueComes};

use effects::laws::{associations_stay_themselves, nothing_comes_due, requests_wait_on};
use moments::laws::{
    nothing_is_due_afterwards, pairs_go_with_their_associations, what_comes_is_due,
    what_is_due_comes, what_is_held_was_held,
};

/// Timers come in time (RFC 7296, sections 2.1 and 2.4).
///
/// - A machine without IKE SAs has nothing overdue (`first`), and a step leaves nothing overdue where
///   nothing was (`timely`).
/// - With a `Tick` all comes that is due then (`comes`). It is refused on allocation failure alone
///   (`unrefused`), and only where a retransmission or a closing is due (`needed`).
/// - At any other step no time passes (`stays`). A request that waits after it waited before, since the
///   same time, or is sent now. One that waited before still does, unless it is answered, sent anew, or its
///   IKE SA ends. The time of a closed or half-open IKE SA began before, or begins now.
pub fn what_is_due_comes_in_time()
    ensures first { NewMachinesAreTimely }
    ensures timely { MachinesStayTimely }
    ensures comes { WhatIsDueComes }
    ensures unrefused { MomentsAreRefusedForMemoryAlone }
    ensures needed { MomentsAreRefusedForWhatComes }
    ensures stays { TheTimeStandsStill }
{
    associations_stay_themselves();
    effects::laws::requests_are_remembered();
    requests_wait_on();
    nothing_comes_due();
    nothing_is_due_afterwards();
    pairs_go_with_their_associations();
    what_comes_is_due();
    what_is_held_was_held();
}

/// At a machine at which nothing is due that its time has reached, no time of 64 bits before the one that
/// [`next_moment`](crate::Ike::next_moment) tells sends, closes or removes anything: the machine is as it was
/// but for its greatest time, and so is the table (`nothing`). Such a tick is never refused
/// (`unrefused`).
pub fn nothing_comes_before_the_next_moment()
    ensures nothing { NothingComesBeforeTheNextMoment }
    ensures unrefused { MomentsBeforeTheNextAreNotRefused }
{
    moments::laws::nothing_comes_before_its_time();
}

/// And a time at which something is due does something, where it isn't refused on allocation failure: a
/// request goes out again, an IKE SA is closed, or not as many are held from then on.
pub fn the_next_moment_brings_something()
    ensures { TheNextMomentBringsSomething }
{
    what_is_due_comes();
}

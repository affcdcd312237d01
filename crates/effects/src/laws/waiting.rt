//! Which requests are outstanding, and since when.
ghost use Rattle.effects.specs.LawsOfWaiting.{FirstRequestsWaitFromNow, NewRequestsWaitFromNow, NothingComesDueByAMessage, NothingComesDueByARequest, NothingIsDueAsOneBegins, NothingIsDueAsOneIsAdmitted, OneRequestGoesOutUnderTheNextNumber, OtherRequestsWaitOn, WhatWaitsWaitedOrGoesOutNow, RequestsWaitUntilAnswered, TheClosedWereSoOrEndNow};

use moments::laws::nothing_is_due_afterwards;

/// A message or a command at some time leaves nothing overdue at that time that was not before, and no timer
/// that starts later. A request that is sent waits from then on, and an IKE SA that becomes half-open or
/// closed is held from then on.
pub fn nothing_comes_due()
    ensures taken { NothingComesDueByAMessage }
    ensures begun { NothingIsDueAsOneBegins }
    ensures admitted { NothingIsDueAsOneIsAdmitted }
    ensures requested { NothingComesDueByARequest }
{
    nothing_is_due_afterwards();
}

/// After a message or a command, an outstanding request was so before, since the same time and sent as
/// often. Or it is sent now, and waits from now on: for the first time, or anew with a cookie. What was
/// outstanding still is, unless it is answered, sent anew, or its IKE SA ends (RFC 7296, sections 2.1 and
/// 2.6). A command's request has the next Message ID. An IKE SA that is closed was so before, since the
/// same time, or ends now.
pub fn requests_wait_on()
    ensures taken { WhatWaitsWaitedOrGoesOutNow }
    ensures until { RequestsWaitUntilAnswered }
    ensures closed { TheClosedWereSoOrEndNow }
    ensures begun { FirstRequestsWaitFromNow }
    ensures requested { NewRequestsWaitFromNow }
    ensures beside { OtherRequestsWaitOn }
    ensures next { OneRequestGoesOutUnderTheNextNumber }
{}

//! What a message leaves unchanged.
ghost use Rattle.effects.specs.LawsOfStaying.{AssociationsStayThemselves, PairsStayAsTheyWere, PairsThatComeAreTold, RefusalsChangeNothing, RepeatsChangeNothing};

/// A message leaves an IKE SA its serial, its role and its SPIs, but that an initiator learns the
/// responder's. None becomes half-open, or waits for the response to IKE_SA_INIT, that did not before. One
/// that waits for the response to IKE_AUTH waited for one of the two responses before.
pub fn associations_stay_themselves()
    ensures { AssociationsStayThemselves }
{}

/// Each SA pair in the table is as it was, or is new: made by this message for its IKE SA, under the next
/// serial, with no sequence number sent or taken. The pairs of other IKE SAs stay.
pub fn pairs_stay_as_they_were()
    ensures { PairsStayAsTheyWere }
{}

/// An SA pair that a message makes is the Child SA that its effect names.
pub fn pairs_that_come_are_told()
    ensures { PairsThatComeAreTold }
{}

/// A dropped message and a retransmitted request change nothing.
pub fn what_is_passed_over_changes_nothing()
    ensures refused { RefusalsChangeNothing }
    ensures repeated { RepeatsChangeNothing }
{}

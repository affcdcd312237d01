//! The SPIs that an IKE SA holds for its Child SAs.
ghost use Rattle.effects.specs.LawsOfSpis.{NoSpiComes, OnlyTheNextSpiIsReserved, OtherOrdersBringNoSpi, OrdersLeaveSpisReserved, RequestsLeaveSpisHeld, SpisStayReserved, WhatOthersHoldStays, WhatStaysReservedStaysHeld, WhoBeginsHoldsOneSpi, WhoBeginsHoldsWhatIsReserved, WhoIsAdmittedHoldsNoSpi, WhoIsOverHoldsNoSpi};

use association::laws::{children_are_asked_for, spis_stay_held, who_is_closed_holds_none};
use create_child::laws::what_is_answered_is_given_back;

/// The SPIs that are reserved for an IKE SA's Child SAs stay reserved as long as it holds them.
pub fn spis_stay_reserved()
    ensures { SpisStayReserved }
{
    spis_stay_held();
    children_are_asked_for();
    who_is_closed_holds_none();
    what_is_answered_is_given_back();
}

/// An SPI that an IKE SA gives up is released. What is reserved after a message was so before, and if an IKE
/// SA held it, it still does. The same holds when a request is sent. When one more SPI is given, what is
/// reserved was so before or is that one. An IKE SA that expires at a `Tick`, half-open or closed, holds
/// none.
pub fn what_is_given_up_is_released()
    ensures message { WhatStaysReservedStaysHeld }
    ensures request { RequestsLeaveSpisHeld }
    ensures given { OnlyTheNextSpiIsReserved }
    ensures over { WhoIsOverHoldsNoSpi }
{}

/// No message gives an IKE SA an SPI: what it holds for a Child SA it held before.
pub fn no_spi_comes()
    ensures { NoSpiComes }
{
    spis_stay_held();
    children_are_asked_for();
    who_is_closed_holds_none();
}

/// An IKE SA holds an SPI from the command on that asked for the Child SA. One that this end begins holds
/// that of its first child alone, and one that it admits holds none. A liveness check or a deletion brings
/// none. Which one it holds as it asks for an additional child says
/// [`create_child::laws::a_further_spi_is_held`].
pub fn spis_come_by_orders()
    ensures begun { WhoBeginsHoldsOneSpi }
    ensures first { WhoBeginsHoldsWhatIsReserved }
    ensures admitted { WhoIsAdmittedHoldsNoSpi }
    ensures asked { OtherOrdersBringNoSpi }
    ensures asking { OrdersLeaveSpisReserved }
{
    spis_stay_held();
    children_are_asked_for();
    who_is_closed_holds_none();
}

/// A message for one IKE SA leaves the SPIs that are reserved for another one reserved.
pub fn what_others_hold_stays()
    ensures { WhatOthersHoldStays }
{
    spis_stay_held();
    children_are_asked_for();
    who_is_closed_holds_none();
}

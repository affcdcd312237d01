//! The invariant of a machine and its table.
ghost use Rattle.ike.specs.LawsOfSoundness.{KeysStayWhole, NewMachinesHoldWholeKeys, NewMachinesLoseNoSpi, NoSpiIsLost, SoundMachinesHoldWholeKeys, SoundnessAsksForReservations, SoundnessStays, WhatReservesNoneLosesNone};

use create_child::laws::a_further_spi_is_held;
use effects::laws::{
    associations_stay_themselves, no_spi_comes, orders_are_short_and_determined, requests_wait_on,
    spis_come_by_orders, spis_stay_reserved, what_is_kept_is_short, what_others_hold_stays,
};
use moments::laws::some_are_held_on;
use sa_init::laws::acceptance_is_limited;

/// Every step keeps the invariant of the machine and its table:
///
/// - at most 128 IKE SAs are held, by rising serial, and at most 32 of them are half open;
/// - each has an SPI of its own, which is not zero;
/// - one that waits for a response was begun by this end, and one that is half open by the peer;
/// - the SPIs that they hold for Child SAs are reserved in the table, each for one child alone;
/// - their keys have 32 octets each;
/// - the configuration is a valid one, and children are asked for with ESN only where it allows that.
pub fn soundness_stays()
    ensures { SoundnessStays }
{
    spis_stay_reserved();
    what_others_hold_stays();
    no_spi_comes();
    spis_come_by_orders();
    associations_stay_themselves();
    what_is_kept_is_short();
    acceptance_is_limited();
    a_further_spi_is_held();
    orders_are_short_and_determined();
    effects::laws::children_are_made_of_their_messages();
    requests_wait_on();
    effects::laws::keys_stay_whole();
    effects::laws::requests_are_remembered();
    some_are_held_on();
}

/// No SPI leaks: each that is reserved in the table is held by an IKE SA, for a Child SA that it asked for.
/// This holds of a machine without IKE SAs and a table without reservations. Every step keeps it, so an SPI
/// is released when its request is answered, refused or given up. So does any other call on the table that
/// reserves none. That a released SPI is never given again says [`sadb::laws::no_spi_is_given_twice`].
pub fn no_spi_is_lost()
    ensures begun { NewMachinesLoseNoSpi }
    ensures stepped { NoSpiIsLost }
    ensures kept { WhatReservesNoneLosesNone }
{
    effects::laws::what_is_given_up_is_released();
    a_further_spi_is_held();
}

/// The invariant of the machine still holds beside another table in which at least the same SPIs are
/// reserved.
pub fn soundness_asks_for_reservations()
    ensures { SoundnessAsksForReservations }
{}

/// The keys of all IKE SAs have 32 octets each. A new machine has none, every step keeps this, and the
/// machine's invariant implies it.
pub fn keys_stay_whole()
    ensures sound { SoundMachinesHoldWholeKeys }
    ensures begun { NewMachinesHoldWholeKeys }
    ensures stepped { KeysStayWhole }
{
    effects::laws::keys_stay_whole();
    some_are_held_on();
}

//! What is promised of runs, over however many inputs and calls.
ghost use Rattle.gateway.specs.LawsOfRuns.{CallsInARowAreOneRun, CallsInARowKeepTheirPromises, EveryRunKeepsItsPromises, HistoriesInARowAreOneHistory, RunsInARowAreOneRun, TheEstablishedOfNewGatewaysProvedThemselves};
ghost use Rattle.gateway.specs.Staying.{WhatEveryGatewayHasStays};

use crate::laws::refusals_change_nothing;
use association::laws::receptions_say_why;
use deliveries::laws::{every_list_of_packets_is_judged, other_changes_leave_windows};
use ike::laws::one_association_is_changed;
use moments::laws::{pairs_go_with_their_associations, some_are_held_on, what_is_held_was_held};
use requests::laws::later_incoming_follow;
use sadb::laws::an_spi_names_one_pair;
use traffic::laws::a_packet_takes_one_number;
use wire::laws::octets_spell_one_message;

/// Every run keeps all promises of a run, over however many inputs.
///
/// No number of a Child SA is judged at two steps. Each ESP packet that was sent to a child is judged exactly
/// at its first arrival while the child's pair stands and its number is rightly recovered and lies inside or
/// above the window, as long as no ICV is forged and the number was not taken before the run, and is
/// answered there by the verdict on what it holds. Of every other ESP packet nothing is delivered, and it
/// changes nothing. An ESP packet takes no memory, and touches the table alone (RFC 4301, section 5.2; RFC
/// 4303, section 3.4).
///
/// Each IKE SA that is established after a step was so before the run, or its peer proved itself at a
/// step of it: by a datagram that opened under its keys, to what the caller's check accepts (RFC 7296,
/// section 2.15). Each SA pair, and each ESP packet that is accepted or sealed, is of a Child SA that such an
/// IKE SA made, inside the policy; once that one is closed nothing more is carried for it. What passes no
/// check under keys changes nothing, but for IKE SAs that are just beginning.
///
/// An inbound SPI names one SA pair for ever: what has it before a later step, or after the list, is the
/// pair that had it, and none if that one has gone meanwhile (RFC 4301, section 4.4.2).
pub fn every_run_keeps_its_promises<C>()
    ensures { EveryRunKeepsItsPromises C }
{
    ike::laws::repeats_are_answered();
    ike::laws::requests_are_remembered();
    ike::laws::requests_take_effect();
    ike::laws::the_established_proved_themselves();
    ike::laws::traces_name_what_is_held();
    ike::laws::what_is_due_comes_in_time();
    ike::laws::what_is_quiet_changes_nothing();
    ike::laws::steps_keep_their_laws();
    ike::laws::children_are_made_of_their_messages();
    effects::laws::children_are_made_of_their_messages();
    effects::laws::associations_stay_themselves();
    receptions_say_why();
    octets_spell_one_message();
    pairs_go_with_their_associations();
    what_is_held_was_held();
    traffic::laws::later_tables_follow();
    later_incoming_follow();
    refusals_change_nothing::<C>();
    one_association_is_changed();
    some_are_held_on();
    every_list_of_packets_is_judged();
    other_changes_leave_windows();
    a_packet_takes_one_number();
    sadb::laws::later_tables_follow();
    an_spi_names_one_pair();
}

/// Each step leaves four things so.
///
/// - Each SA pair is of an IKE SA that is held and established.
/// - The selectors of each SA pair, and of each Child SA that is asked for, lie inside one entry that protects.
/// - Of each IKE SA with keys the responses are kept that the peer may still ask for (RFC 7296, section 2.3).
/// - The window of an established IKE SA is the configuration's.
pub fn what_every_gateway_has_stays<C>()
    ensures { WhatEveryGatewayHasStays C }
{
    every_run_keeps_its_promises::<C>();
    ike::laws::requests_are_remembered();
    ike::laws::requests_take_effect();
    ike::laws::steps_keep_their_laws();
    ike::laws::traces_name_what_is_held();
}

/// So over a list that is given to a new gateway the peer of each IKE SA that is established proved
/// itself at a step of that list.
pub fn the_established_of_new_gateways_proved_themselves<C>()
    ensures { TheEstablishedOfNewGatewaysProvedThemselves C }
{
    ike::laws::the_established_proved_themselves();
    ike::laws::traces_name_what_is_held();
}

/// A run over one list of inputs, and a run over the next list from where the first ended, are one run over
/// both, whose steps are those of the first and then those of the second. So calls in a row are one run over
/// all their lists, of which everything is promised that is promised of one list: what was judged or was
/// processed at one call is judged or is processed at no later one.
pub fn runs_in_a_row_are_one_run<C>()
    ensures both { RunsInARowAreOneRun C }
    ensures histories { HistoriesInARowAreOneHistory C }
    ensures calls { CallsInARowAreOneRun C }
    ensures promises { CallsInARowKeepTheirPromises C }
{
    every_run_keeps_its_promises::<C>();
}

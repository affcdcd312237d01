//! What follows from the definitions alone. No function here does anything.
ghost use Rattle.laws_worked.specs.ExtendedRuns.{IsRunWithExtendedNumbers};
ghost use Rattle.laws_worked.specs.FurtherChildren.{IsRunWithFurtherChild};
ghost use Rattle.laws_worked.specs.GivenUp.{IsRunGivenUp};
ghost use Rattle.laws_worked.specs.LostResponses.{IsRunWithLostResponse};
ghost use Rattle.laws_worked.specs.Recoveries.{IsRunWithRecovery};
ghost use Rattle.laws_worked.specs.Replays.{IsRunWithReplay};
ghost use Rattle.laws_worked.specs.Retransmissions.{IsRunWithRetransmission};

use gateway::laws::new_worlds_are_wholly_sound;
use ike::laws::{no_spi_is_lost, soundness_stays, what_is_due_comes_in_time};
use laws_recovery::laws::each_end_of_a_world_has_its_history;
use lockstep::laws::what_was_sent_under_keys_is_told;
use wire::laws::octets_spell_one_message;

/// The premises of `at_first` and `as_sent` of `PacketsAreDelivered` are met, by a run of two new gateways.
/// The one ESP packet of the run comes once more, and is dropped as a replay. It is accepted at its first
/// arrival, and not at its second. So it is for whatever values of whatever type: what the callers mean is
/// fixed, and hides nothing.
pub fn the_premises_of_replays_are_met_from_new_gateways_on<C>()
    ensures { (a b : C) → IsRunWithReplay a b }
{
    no_spi_is_lost();
    soundness_stays();
}

/// The premises of `remembered` and `kept` of `RepeatsAreAnswered` are met, and of `otherwise` of
/// `RequestsTakeEffect`, by a run of two new gateways. The probe of the run is processed at its first
/// arrival. Its retransmission gets the same response, and changes nothing.
pub fn the_premises_of_retransmissions_are_met_from_new_gateways_on<C>()
    ensures { (a b : C) → IsRunWithRetransmission a b }
{
    no_spi_is_lost();
    soundness_stays();
}

/// The premises of what is promised of a `Tick`, and of a request that is lost, are met, by a run of two new
/// gateways. The first is `comes` of `MomentsComeInTime`. A second probe is lost. It is retransmitted at the
/// moment that its first wait ends, in the same octets. That copy is processed and answered, and the response
/// is matched.
///
/// No response is lost: of the request's two copies one arrives.
pub fn the_premises_of_a_lost_request_are_met_from_new_gateways_on<C>()
    ensures { (a b : C) → IsRunWithRecovery a b }
{
    no_spi_is_lost();
    soundness_stays();
    what_is_due_comes_in_time();
}

/// The premises of what is promised of the Child SAs of both ends are met, by a run of two new gateways that
/// make an additional Child SA by CREATE_CHILD_SA. Each then holds a second pair, and the two mirror each
/// other. A packet is sealed by it, and delivered. All that comes under the keys, and that packet, had been
/// sent before. Nothing goes the other way by the child, so of that way its premises hold, and say nothing.
pub fn the_premises_of_an_additional_child_are_met_from_new_gateways_on<C>()
    ensures { (a b : C) → IsRunWithFurtherChild a b }
{
    new_worlds_are_wholly_sound::<C>();
    no_spi_is_lost();
    octets_spell_one_message();
    soundness_stays();
    what_is_due_comes_in_time();
    what_was_sent_under_keys_is_told();
}

/// The premises of `at_first` and `as_sent` of `PacketsAreDelivered` are met with extended sequence numbers
/// too, by a run of two new gateways that allow them. Their first Child SA has them both ways, and carries a
/// packet from one end to the other. No ICV is forged. The upper half of the packet's number is 0.
pub fn the_premises_of_extended_numbers_are_met_from_new_gateways_on<C>()
    ensures { (a b : C) → IsRunWithExtendedNumbers a b }
{
    no_spi_is_lost();
    soundness_stays();
    what_is_due_comes_in_time();
}

/// The premises of what [`laws_recovery`] promises of a request that nobody answers are met, by a run of two
/// new gateways. They are those of going out again when it is due, of six sendings, of being given up, of
/// the removal of its IKE SA, and of a new beginning.
///
/// A second probe of A goes out six times, in the same octets, and nothing comes to either end. Then A's IKE
/// SA is closed, and the SA pair of its Child SA goes. Two minutes later the IKE SA is removed, and another
/// may begin.
pub fn the_premises_of_a_request_that_is_given_up_are_met_from_new_gateways_on<C>()
    ensures { (a b : C) → IsRunGivenUp a b }
{
    no_spi_is_lost();
    soundness_stays();
    what_is_due_comes_in_time();
}

/// The premises of what is promised of a request and of a response that are lost are met, by a run of two new
/// gateways. A second probe is lost, and is retransmitted. That copy is processed and answered, and the
/// response is lost. So the request is retransmitted once more. That copy gets the first response, octet for
/// octet, and changes nothing. The response is matched.
///
/// The promises are `a_lost_request_is_answered_by_a_later_copy`, `a_lost_response_comes_again` and
/// `what_is_lost_comes_through` of [`laws_recovery`]. The first two are met at each end by itself, and the
/// third in the world of both.
pub fn the_premises_of_a_lost_response_are_met_from_new_gateways_on<C>()
    ensures { (a b : C) → IsRunWithLostResponse a b }
{
    each_end_of_a_world_has_its_history::<C>();
    no_spi_is_lost();
    soundness_stays();
    what_is_due_comes_in_time();
}

//! Worked runs that begin with two new gateways, as laws alone. The first four go on, one after the other,
//! where the run of [`laws_two_ends`] ends: after an IKE SA and its first Child SA, one packet and one probe
//! (a liveness check, RFC 7296 section 2.4).
//!
//! - [`laws::the_premises_of_replays_are_met_from_new_gateways_on`]: the packet comes once more, and is
//!   dropped. No ICV is forged.
//! - [`laws::the_premises_of_retransmissions_are_met_from_new_gateways_on`]: the probe comes once more, as a
//!   retransmission, and gets the same response.
//! - [`laws::the_premises_of_a_lost_request_are_met_from_new_gateways_on`]: a second probe is lost, is
//!   retransmitted when its first wait ends, is answered, and the response is matched.
//! - [`laws::the_premises_of_an_additional_child_are_met_from_new_gateways_on`]: both ends make a second
//!   Child SA, their pairs of it mirror each other, and it carries a packet.
//! - [`laws::the_premises_of_extended_numbers_are_met_from_new_gateways_on`]: the same beginning where both
//!   allow extended sequence numbers, up to the packet.
//! - [`laws::the_premises_of_a_request_that_is_given_up_are_met_from_new_gateways_on`]: where the second run
//!   ends, a second probe is never answered. It goes out six times, its IKE SA is closed, and is removed two
//!   minutes later, as [`laws_recovery`] promises.
//! - [`laws::the_premises_of_a_lost_response_are_met_from_new_gateways_on`]: where the second run ends, a
//!   second probe is lost, a copy of it is answered, and the response is lost. The next copy gets the same
//!   response, which is matched.
//!
//! In all seven, the callers' cipher hides nothing, one secret serves all, and every proof of an identity is
//! accepted. What else is asked of the callers, and of how both are set up, is met in the run of
//! [`laws_two_ends`] for all but the fifth, and by the fifth for itself. The fourth says of all steps of the
//! first four that what is fresh there is of its type.
//!
//! # How it is proved
//!
//! The world after each step is written down, and each step is shown by its relation. What the next step
//! asks of the gateway, that it is sound, follows by the laws of [`ike`].
//!
//! The worlds of the run that is gone on with are in `Stages` of [`laws_two_ends`], and that it takes place
//! in its `WorkedRunLemmas`.
//!
//! `ReplayLemmas` has the packet that comes again, at a table, and `ReplayRunLemmas` the run in which it
//! does. `JudgedNumberLemmas` tells as which numbers packets are accepted. `RetransmissionLemmas` has the
//! request that comes again. `RecoveryStages` and `FurtherStages` have the worlds of the next two runs;
//! `TwoPairLemmas` says what is found in a table of two pairs. `ExtendedStages` has those of the fifth run,
//! which begins anew. `GivenUpStages` has those of the sixth, and `GivenUpLemmas` what each time brings there.
//! `LostResponseStages` has those of the last, from where it leaves `RecoveryStages`.
#![tactic(auto)]

pub mod laws;

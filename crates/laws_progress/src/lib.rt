//! Progress, as laws alone, over every history of a world of two gateways: what one end seals and the network
//! delivers goes up at the other end, whole and unchanged.
//!
//! Most of what is promised of gateways is of safety, which one that refuses whatever it may would
//! keep. Here it is said what a gateway can't refuse where both ends hold their pairs: an ESP packet
//! that comes. One that refuses everything for memory makes no pair, and keeps these laws too. Nothing
//! is said of whether the network delivers, nor of how long it takes.
//!
//! - [`laws::what_is_to_be_protected_is_sealed`]: a packet that the policy protects, and that a pair with a
//!   number left carries, is sealed, or refused because memory ran out.
//! - [`laws::what_is_sealed_and_delivered_goes_up`]: its octets, where they come to an end that holds the
//!   mirrored pair, make the packet go up, exactly where the number may be accepted.
//! - [`laws::what_goes_in_comes_out`]: both in one, from where a packet is given to go out to where it goes
//!   up.
//! - [`laws::what_one_end_of_a_child_seals_goes_up_at_the_other`]: so it is between the two ends of a Child
//!   SA that they made by one request.
//! - [`laws::a_stream_in_order_goes_up_whole`]: all packets of a Child SA that come in the order in which
//!   they were sealed, each once, go up, if nothing else is accepted: whatever is lost between, but for long
//!   gaps with ESN.
//! - [`laws::the_premises_of_progress_are_met`] and [`laws::the_premises_of_streams_are_met`]: there is such a
//!   packet, and there is such a stream, in a run from two new gateways.
//!
//! `proofs/CrossingLemmas` has it for one packet at two tables, by the law of [`traffic`]. `DeliveringLemmas`
//! finds both tables in the steps of a world. `OrderLemmas` reads the window from the history, by what
//! [`gateway`] promises of runs, and `ChildLemmas` the mirrored pairs, by what it promises of both ends.
//! `StreamLemmas` goes along a stream packet by packet.
#![tactic(auto)]

pub mod laws;

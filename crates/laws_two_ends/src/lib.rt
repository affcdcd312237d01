//! What the two ends of one IKE SA have in common, and what meets the premises of it, as laws
//! alone.
//!
//! [`laws::the_ends_of_a_world_make_one_record`] says that two ends of a world have one record of keys, where
//! what each read of the other in IKE_SA_INIT is what the other's IKE SA holds of itself. Two ends can come to
//! that by one exchange ([`laws::the_premises_of_one_record_are_met`]), and so can two new gateways
//! ([`laws::the_premises_of_an_exchange_are_met`]). What holds of two ends that have one record, their
//! requests in step among it, stands in `lockstep` and `gateway`;
//! [`laws::no_more_waits_than_the_other_end_takes`] joins two of these, and
//! [`laws::what_goes_out_is_stored`] says what their worlds are judged by.
//!
//! The premises of what is promised of both ends are met by a run of two new gateways
//! ([`laws::the_premises_are_met_from_new_gateways_on`]).
#![tactic(auto)]

pub mod laws;

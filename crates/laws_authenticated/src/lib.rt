//! Only the authenticated carry, as laws alone, of each step and of either end of a world; and worked
//! gateways that strangers meet.
//!
//! - [`laws::pairs_belong_to_the_established`]: each SA pair is of an IKE SA that is held and established.
//! - [`laws::only_the_authenticated_carry`]: each ESP packet that a gateway accepts or seals is of a Child SA
//!   that was made by an IKE SA whose peer proved itself, and under its keys; so it is
//!   [at each end](laws::at_each_end_only_the_authenticated_carry) of a world.
//! - [`laws::a_closed_association_carries_nothing_more`]: once an IKE SA is closed, or held no more, no ESP
//!   packet is accepted or sealed for it, nor by a Child SA that was ever of it.
//! - [`laws::children_lie_inside_the_policy`]: of each SA pair and of each Child SA that is waited for, the
//!   selectors lie inside an entry that protects.
//! - [`laws::a_stranger_is_met_from_new_gateways_on`],
//!   [`laws::an_association_is_closed_by_its_peer_from_new_gateways_on`],
//!   [`laws::a_stranger_is_left_out_from_new_gateways_on`]: of two new gateways that set up an IKE SA with a
//!   Child SA, one stays as it was where a stranger asks to delete that IKE SA, and closes it where the peer
//!   does, with the stranger or without. The SA pair goes with it.
//! - [`laws::a_request_is_left_out_from_new_gateways_on`]: a gateway that answers a stranger's request for an IKE
//!   SA, and one that gets none, go on alike.
//! - [`laws::the_premises_of_a_partner_are_met`]: a worked run of two new gateways, where each end that is
//!   established has its partner at the other.
//!
//! What the first four say of a list `gateway::run` promises, and their lemmas stand in [`gateway`], as those
//! on strangers and on partners do.
//!
//! # How it is proved
//!
//! The run with the stranger goes on where that of [`laws_two_ends`] ends. `WorkedDeletionStages` has its
//! worlds, and `WorkedDeletionLemmas` A's request and what it does at B. `WorkedStrangerLemmas` says what the
//! stranger's datagram is, and `WorkedClosingLemmas` shows the run, and what is asked of it.
#![tactic(auto)]

pub mod laws;

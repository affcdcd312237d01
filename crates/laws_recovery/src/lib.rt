//! Recovery, as laws alone, over every history of a gateway, and of two. What it asked and nobody answered
//! goes out again. A copy that arrives does what the first would have done. What was given up makes room for
//! a new beginning.
//!
//! - [`laws::what_waits_goes_out_again`]: a request that waits for its answer goes out again whenever it is
//!   due, with the same octets, or its IKE SA is closed because the peer is gone.
//! - [`laws::a_request_goes_out_six_times`]: one that is given up for itself went out six times in all.
//! - [`laws::a_lost_request_is_answered_by_a_later_copy`]: where the first copies are lost, the one that
//!   arrives is processed and answered.
//! - [`laws::a_lost_response_comes_again`]: where the response is lost, the next copy gets the same octets,
//!   and these are matched.
//! - [`laws::what_is_given_up_is_removed`]: an IKE SA that was closed is held for two minutes, and no longer.
//! - [`laws::start_begins_anew`]: whatever was lost, `Start` leads to a new IKE SA.
//! - [`laws::what_is_lost_comes_through`]: so it is over every history of a world, whatever else takes place;
//!   by [`laws::each_end_of_a_world_has_its_history`] the other laws hold of each of its ends too.
//!
//! That the premises can be met, from two new gateways on, is said in `laws_worked`.
//!
//! # How it is proved
//!
//! `proofs/WaitingLemmas` finds a request among what a tick brings, and again among what waits afterwards, by
//! the law of [`ike`] on moments. `CountingLemmas` goes along the steps: what goes out under a Message ID is
//! the request that waits under it. `RemovingLemmas` follows an IKE SA that was closed.
//!
//! `AskingLemmas` opens at the other end what a command sealed, by the law of the cipher. `TakingLemmas` says
//! what becomes of it there, by the laws of [`ike`] on requests, and `CopyLemmas` joins both.
//! `ResponseLemmas` finds of which exchange a response is and for which IKE SA, and `MatchingLemmas` that it
//! is matched. `WorldCopyLemmas` takes these steps out of what took place in a world.
//!
//! `BeginningLemmas` takes the definition of `Start` apart.
#![tactic(auto)]

pub mod laws;

//! IKE_AUTH brings a tunnel up, and packets go through it, as laws alone (RFC 7296, sections 1.2, 2.9,
//! 2.15 and 2.21.2; RFC 4301, sections 5.1 and 5.2).
//!
//! Most of what is promised of gateways is of safety. Here it is said what two gateways can't but do where
//! their datagrams come as they were sent, and memory doesn't run out. It is of any two configurations and
//! policies, and of any caller that keeps the laws of its traits.
//!
//! Of two new gateways, as IKE_SA_INIT leaves them, with one record of keys ([`laws_opening`]):
//!
//! - [`laws::an_identity_is_accepted`]: the responder, to which the request of IKE_AUTH comes, establishes
//!   the IKE SA and answers. Where its policy meets what is asked for, it makes its pair of the Child SA.
//! - [`laws::the_response_concludes`]: the initiator, to which the response comes, establishes the IKE SA.
//!   Where the response tells the terms of the Child SA, it makes its pair.
//! - [`laws::it_comes_up`]: both in one. Where the policies meet, both ends hold pairs that mirror each
//!   other. Where they don't, both ends hold the IKE SA alone, and the response had TS_UNACCEPTABLE.
//! - [`laws::two_new_gateways_bring_a_tunnel_up`]: both exchanges in one, from two new gateways on.
//!
//! Of gateways that may hold other IKE SAs and other pairs, as after a loss. No step changes any of these:
//!
//! - [`laws::a_half_open_gateway_accepts_an_identity`] and [`laws::a_gateway_that_waits_concludes`]: the
//!   same steps of IKE_AUTH. Where the policy meets what is asked for, but the responder's table has no place
//!   or no SPI left, the response has NO_ADDITIONAL_SAS in place of the terms.
//! - [`laws::it_comes_up_beside_all_else`]: both in one.
//! - [`laws::ike_sa_init_leaves_both_waiting`]: so that these steps can follow.
//! - [`laws::two_gateways_bring_a_tunnel_up`]: both exchanges in one. Gateways that lost each other come to a
//!   new tunnel by it, where both have room for one, whatever IKE SAs of the old one they still hold.
//! - [`laws::under_load_two_gateways_bring_a_tunnel_up`]: the same where the other is under load, and asks
//!   for a cookie first. IKE_SA_INIT takes one round more then.
//! - [`laws::new_gateways_meet_these_premises`]: new gateways are a case of it, and
//!   [`laws::a_tunnel_leaves_room_for_another`]: two that brought a tunnel up have room to begin another, in
//!   the same roles.
//!
//! Of the tunnel:
//!
//! - [`laws::the_terms_cover_what_both_entries_hold`]: for which flows the Child SA is.
//! - [`laws::the_first_packet_goes_through`]: the first packet that one of its ends is given goes up at the
//!   other, and [`laws::a_tunnel_carries_packets`]: so it is between these two gateways, in both directions.
//! - [`laws::the_first_packet_goes_by_the_new_pair`] and [`laws::a_new_tunnel_carries_packets`]: the first
//!   packet that the new terms cover goes by the new pair, whatever pairs of older tunnels both ends still
//!   hold.
//! - [`laws::the_premises_of_a_tunnel_are_met`]: there are such gateways, and there is such a run. It also
//!   meets what is presumed of gateways that may hold more, but both of its gateways hold nothing else. Of
//!   load, of TS_UNACCEPTABLE, of NO_ADDITIONAL_SAS and of packets no such run is shown here.
//!
//! # How it is proved
//!
//! A step's relation has a case for each thing that could come of it. The octets that came spell one
//! message, which opens to the payloads that were sealed, by the laws of [`exchange`] and [`wire`]. So each
//! case but one is contradictory. `proofs/StepLemmas` goes from a step of a gateway to that of the one IKE
//! SA for which the message is meant: no two have one SPI, and what is not that IKE SA's stays.
//! `AcceptingLemmas` and `ConcludingLemmas` tell by the invariant what such an IKE SA has beside its phase.
//! `AnsweringLemmas` and `EndingLemmas` find what is decided there, by the laws of [`auth`] on judgements.
//! `ChildLemmas` has the terms of the Child SA, by the laws of [`suite`] on choices, and `TableLemmas` what
//! becomes of the table. `ResponderLemmas` and `InitiatorLemmas` join them, and `BesideLemmas` both
//! exchanges, under load too.
//!
//! All that is of gateways that may hold more. `NewGatewayLemmas` has new ones as a case of it, and
//! `BringingLemmas` both exchanges of these. `CarryingLemmas` has a packet at both tables, by the law of
//! [`traffic`]. `SetUpLemmas` and `RoomLemmas` find premises met by new gateways, and by those that brought a
//! tunnel up. `ToldLemmas` and `WorkedLemmas` find them met in a worked run.
#![tactic(auto)]

pub mod laws;

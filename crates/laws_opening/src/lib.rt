//! That two gateways come to keys by IKE_SA_INIT, as laws alone (RFC 7296, sections 1.2, 2.6 and 2.14).
//!
//! Most of what is promised of gateways is of safety, which one that refuses whatever it may would keep.
//! Here it is said what a gateway can't but do where a datagram comes as it was sent, and memory doesn't run
//! out. It is so of any configurations and policies, of any caller that keeps the laws of its traits, and
//! of any fresh octets in which no SPI is 0. Nothing is said of whether the network delivers.
//!
//! Of two gateways that were just made:
//!
//! - [`laws::a_new_gateway_asks`]: one that is told to begin sends its request, and reserves an SPI for
//!   its first Child SA.
//! - [`laws::a_new_gateway_answers`]: one to which that request comes chooses what is offered, answers,
//!   and holds a half-open IKE SA with keys. It asks for no cookie.
//! - [`laws::the_answer_is_taken_up`]: the first, to which that answer comes, has the same keys, and
//!   tells who it is: its request of IKE_AUTH goes out, sealed under them.
//! - [`laws::two_new_gateways_come_to_keys`]: all three in one.
//!
//! Of gateways that may hold other IKE SAs, as after a loss, where they have room for one more:
//!
//! - [`laws::a_gateway_that_can_begin_asks`], [`laws::a_gateway_with_room_answers`] and
//!   [`laws::a_gateway_that_waits_takes_the_answer_up`]: the same steps, whatever came in between.
//! - [`laws::two_gateways_come_to_keys`]: all three in one.
//!
//! Of gateways of which the other holds so many half-open IKE SAs that it asks for cookies:
//!
//! - [`laws::a_gateway_under_load_asks_for_a_cookie`]: it answers a request that brings no right cookie by
//!   a notification that asks for one, and keeps nothing of the request.
//! - [`laws::the_cookie_is_brought`]: the one, to which that comes, sends its request again with the
//!   cookie, and waits on.
//! - [`laws::a_right_cookie_is_accepted`]: the other, to which that comes from the same address, answers as
//!   it does without load, if it has room.
//! - [`laws::under_load_a_cookie_takes_one_round_more`]: all of it in one, from the first request to that
//!   of IKE_AUTH.
//!
//! [`laws::the_premises_of_opening_are_met`] has such steps, for all but load.
//!
//! # How it is proved
//!
//! A step's relation has a case for each thing that could come of it. The octets that came spell one
//! message, which is known, so each case but one is contradictory. `proofs/AskingLemmas`,
//! `AnsweringLemmas`, `CookieLemmas`, `BringingLemmas` and `ReadingLemmas` go through the cases of a step
//! each. They go by the laws of [`wire`] on spellings, of [`suite`] on offers, and of [`sa_init`] on
//! judgements, answers and keys. `OpeningLemmas` joins the steps.
#![tactic(auto)]

pub mod laws;

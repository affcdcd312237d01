//! What becomes of ESP packets over a whole list of steps, at a table of many SA pairs that come and go (RFC
//! 4301 sections 4.4.2 and 5.2, RFC 4303 section 3.4).
//!
//! A list of steps is a trail of passages: each is an ESP packet that came, or anything else that moves no
//! window. The crate has no code that runs: its [`laws`] say what holds of every trail. A Child SA is a pair
//! of the table, named by its serial.
//!
//! - Each packet sent to a child is judged at most once, exactly at its first arrival while its pair stands
//!   and its sequence number lies inside or above the window and is rightly recovered, whatever else comes,
//!   as long as no ICV is forged.
//! - It is answered by the verdict on what it holds.
//! - Of every other packet no payload is delivered, and it changes nothing.
//!
//! What a step is stands in `specs/Passages`, the numbers that a child has taken in `specs/Numbers`, the
//! arrivals of what was sent to it and the assumption that none was forged in `specs/Arrivals`, and what is
//! promised in `specs/Promises`. That the assumptions can hold is shown by a run of two new gateways
//! (`laws_worked`, `the_premises_of_replays_are_met_from_new_gateways_on`).
#![tactic(auto)]

pub mod laws;

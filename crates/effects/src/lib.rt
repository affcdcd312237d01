//! What a message does to its IKE SA and to the table of SA pairs, and what is sent back, whatever the
//! exchange (RFC 7296, sections 1.2, 1.3.1, 1.4 and 2.1 to 2.4).
//!
//! [`take_message`] asks [`association::receive`] what the message is: by its Message ID, its exchange, the
//! IKE SA's phase and what it opens to. Then [`initial`], [`informational`] or [`create_child`] does what
//! its payloads say. What that may do to the IKE SA's keys, to its children and to what it keeps stands in
//! [`laws`], without the cases of the exchanges. The code's word for an IKE SA is *association*, for a
//! Child SA *pair* or *child*; a response is *counted* where it is matched to its request.
//!
//! ```text
//! match take_message(alloc, &step, &mut association, &mut table, &datagram, &message)? {
//!     Effect::Replied(answered) => send(answered.octets),
//!     Effect::Counted(ended) => ..,
//!     ..
//! }
//! ```
//!
//! # How it is proved
//!
//! A message is taken in one of few ways: it is dropped, it is a retransmission, or it does what one call
//! of [`initial`], [`informational`] or [`create_child`] says. `proofs/WayLemmas` names these ways, and
//! what each leaves of the IKE SA. Nearly every law is by cases on them, over the laws of those crates, of
//! [`association`], [`requests`] and [`sadb`]. No law is over more than one message.
//!
//! The invariant of an IKE SA is `IsSoundlyHeld` (`specs/Requests`): what is outstanding belongs to its
//! phase, and what is kept of the peer's requests belongs to its window. `RequestLemmas` shows that a message
//! keeps it, and which requests are processed. Other files have a subject each: Child SAs (`MadeLemmas`),
//! SPIs (`HeldSpiLemmas`, `ReleasedLemmas`), time (`DueLemmas`, `WaitLemmas`), moves (`MoveLemmas`,
//! `OpeningLemmas`). The files `Determined..` show that each relation has one result.
#![tactic(auto)]

pub mod laws;
mod taking;

pub use taking::{Effect, take_message};

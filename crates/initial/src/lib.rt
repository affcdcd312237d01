//! The initial exchanges (RFC 7296, section 1.2): what the messages of IKE_SA_INIT and IKE_AUTH do to one IKE
//! SA, to the table of SA pairs, and what is sent back.
//!
//! An initiator's IKE SA is [`begin`]'s, and a responder's [`association::admit`]'s. [`read_response`] makes
//! of the response to IKE_SA_INIT the next request, and [`end_auth`] of the response to IKE_AUTH an IKE SA
//! that is established, with its first Child SA, or closed; so does [`answer_auth`] of the request, at a
//! responder. Which IKE SA a message is for, whether its Message ID is fresh and what it opens to,
//! [`association`] tells; each call here makes all that it needs before it changes anything.
//!
//! ```text
//! let beginning = begin(alloc, &step)?;
//! let child = AskedChild::new(table.reserve()?, local, remote, true);
//! let (mut association, request) = beginning.into_association(alloc, 1, child);
//! send(request);
//!
//! match read_response(alloc, &step, &mut association, 0, &datagram, &message)? {
//!     Continued::Again(next) | Continued::AsksAuth(next) => send(next),
//!     Continued::Unfit => ..,
//! }
//! ```
//!
//! # How it is proved
//!
//! There are no laws here: what holds over a message is proved in the crate `effects`. Each call is a row
//! of calls of [`sa_init`], [`auth`], [`children`] and [`association`], and its contract is their relations
//! in that order (`specs/Beginning`, `Reading`, `Deciding`, `Answering`, `Ending`). The answers in
//! `proofs/` say for each exit which part refused, and that the outcome of IKE_AUTH is one of few
//! (`ConcludingLemmas`). An initiator's first child is said in two ways, by its payloads and by the pair
//! that was made, and `ChildLemmas` goes between these.
#![tactic(auto)]

mod answering;
mod beginning;
mod concluding;
mod deciding;
mod ending;
mod reading;

pub use answering::answer_auth;
pub use beginning::{Beginning, begin};
pub use ending::end_auth;
pub use reading::{Continued, read_response};

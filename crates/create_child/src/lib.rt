//! The exchange CREATE_CHILD_SA (RFC 7296, section 1.3.1) at one IKE SA that is established: asked, answered
//! and matched. This end asks for an additional Child SA, a request of the peer is answered by one or
//! refused, and the response to one of this end is matched.
//!
//! Which IKE SA a message is for, whether its Message ID is fresh and what it opens to, [`association`]
//! tells; what a request says and what becomes of it, [`further`]; what a response does,
//! [`conclude_response`]. Each call here makes all that it needs before it changes anything, and tells where
//! the IKE SA is not established. The SPI of a child that was asked for is kept with the request
//! ([`association::Purpose::CreateChild`]), and goes back to the table with the answer, or when the IKE SA
//! ends.
//!
//! ```text
//! send(ask(alloc, &step, &mut association, &mut table, &local, &remote)?.octets);
//! if let Some(answered) = answer(alloc, &step, &mut association, &mut table, number, &plain)? {
//!     send(answered.octets);
//! }
//! let ended = count(alloc, &step, &mut association, &mut table, number, &asked, &nonce, &plain)?;
//! ```
//!
//! # How it is proved
//!
//! Each call is a row of calls of [`association`], [`further`] and [`sadb`], and its contract is their
//! relations in that order. The answers in `proofs/` bring these together, exit by exit. Two facts need a
//! proof of their own. An IKE SA holds an additional child's SPI from its request on, and no two hold one
//! (`proofs/AskingLemmas`). With the answer it gives that SPI back, and holds it no more
//! (`CountingLemmas`). The crates `effects` and `ike` make of these that no SPI is lost.
#![tactic(auto)]

mod answering;
mod asking;
mod concluding;
mod counting;
pub mod laws;

pub use answering::answer;
pub use asking::ask;
pub use concluding::{Concluded, conclude_response};
pub use counting::count;

//! Deletions (RFC 7296, sections 1.4.1 and 3.11): what a request of INFORMATIONAL with Delete payloads asks
//! for, which SA pairs go from the table for it, and what answers it.
//!
//! No Message ID and no timer is known here, and of an IKE SA its serial alone. A request is what it opened
//! to, and an answer is a list of payloads. [`delete_child`] and [`delete_association`] make the payloads of
//! a request of this end, and change nothing. A request of the peer is judged by [`decide`], which changes
//! nothing either; [`answer_payloads`] makes the reply, and [`remove_named`] takes the pairs out.
//!
//! What follows from the definitions alone is in [`laws`].
//!
//! ```text
//! let verdict = decide(alloc, &plain, ike, &table)?;
//! let payloads = answer_payloads(alloc, &verdict)?;
//! if verdict.is_closing() {
//!     table.remove_all_of(ike);
//! } else if let Verdict::Deletes(deleted) = &verdict {
//!     remove_named(&mut table, deleted.serials.as_slice());
//! }
//! ```
#![tactic(auto)]

mod answering;
mod asking;
mod deciding;
pub mod laws;
mod naming;
mod payloads;
mod removing;

pub use answering::answer_payloads;
pub use asking::{delete_association, delete_child};
pub use deciding::{Verdict, decide};
pub use naming::DeletedPairs;
pub use removing::remove_named;

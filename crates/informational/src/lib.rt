//! The exchange INFORMATIONAL (RFC 7296, sections 1.4 and 1.4.1) at one IKE SA that is established. A request
//! of the peer is answered, with the deletions that it asks for, and the response to one of this end is
//! matched. A request goes out to ask whether the peer is there, to delete a Child SA, or to delete the IKE
//! SA.
//!
//! Which IKE SA a message is for, whether its Message ID is fresh and what it opens to, [`association`]
//! tells; what Delete payloads ask for, [`deletions`]. Each call here makes all that it needs before it
//! changes anything, and tells where the IKE SA is not established.
//!
//! ```text
//! send(ask(alloc, &step, &mut association, &mut table, Order::Probe)?.octets);
//! if let Some(answered) = answer(alloc, &step, &mut association, &mut table, number, &plain)? {
//!     send(answered.octets);
//! }
//! ```
#![tactic(auto)]

mod answering;
mod asking;
mod counting;
mod ordering;

pub use answering::answer;
pub use asking::ask;
pub use counting::count;
pub use ordering::Order;

//! One IKE SA (RFC 7296, sections 1.1, 2.1 to 2.4 and 2.6): what an end holds of it in each phase, which IKE
//! SA a message is for, and what its Message ID, exchange and sealing allow it to be.
//!
//! An [`Association`] has its SPIs, its requests and the peer's ([`requests`]), and a [`Phase`] with what
//! that phase alone has. A responder's begins by [`admit`], which answers an offer of IKE_SA_INIT. [`find`]
//! tells which of a list a message is for, and [`receive`] what is to be made of it: the payloads of a
//! request or of a response, the reply that was sent before, or a [`MessageFault`]. What the payloads of
//! other messages say and do is nothing to this crate. What follows from the definitions alone is in
//! [`laws`].
//!
//! ```text
//! let message = decode_message(alloc, &datagram)?;
//! let place = find(&associations, &message.header)?;
//! match receive(alloc, &sealer, &associations[place], &datagram, &message)? {
//!     Received::Request(plain) => decode_chain(alloc, plain.first, plain.octets.as_slice()),
//!     Received::Repeat(reply) => send(reply.as_slice()),
//!     ..
//! }
//! ```
//!
//! # How it is proved
//!
//! What a message is to an IKE SA follows from its phase, from how its Message ID is judged or which request
//! it answers, and from what it opens to (`specs/Receiving`). `proofs/ReceivingLemmas` goes through the
//! cases, so it is one thing alone, and each result says what was asked. `RepeatingLemmas` does so for
//! retransmissions. An IKE SA that ends gives up its requests one after the other, with the SPIs of the Child
//! SAs that they asked for. The loop's invariant is `GivesUpSome` (`GivingUpLemmas`), and it ends since one
//! fewer is outstanding each time. `HeldLemmas` shows that reserved SPIs stay so under each change of an IKE
//! SA.
#![tactic(auto)]

mod admitting;
mod asked_child;
mod fault;
mod finding;
mod issuing;
pub mod laws;
mod outcome;
mod phase;
mod purpose;
mod receiving;

pub use admitting::{Admitted, admit};
pub use asked_child::AskedChild;
pub use fault::{MessageFault, OrderFault};
pub use finding::find;
pub use issuing::{issued, new_request};
pub use outcome::{Answered, Ended, Fate, Issued, unless_made};
pub use phase::{Association, AuthSent, HalfOpen, InitSent, Phase, Request};
pub use purpose::{FurtherChild, Purpose, Sought};
pub use receiving::{Received, receive};

//! The path of packets (RFC 4301, sections 5.1 and 5.2): what a gateway does with a packet that comes
//! protected, with one on its way out, and with one that comes in unprotected. No message of IKE is known
//! here.
//!
//! [`receive`] finds the SA pair of an ESP packet by its SPI, opens the packet, and delivers what it carried
//! where the pair's selectors hold it. [`send`] asks the policy about a packet, and seals what is to be
//! protected by the pair that carries its flow; [`send_remembering`] does the same, and remembers what is
//! done with flows. [`lay_in`] writes the ESP packet into a room of the caller's, where those of a list stand
//! one behind the other. [`admit`] asks the policy about a packet that came in the clear. Only sending takes
//! memory. A [`PacketFault`] says why a packet is dropped.
//!
//! What becomes of a packet is an `Outcome`, plain data (`specs/Outcomes`); which one it is stands in
//! `specs/Receiving`, `specs/Sending` and `specs/Admitting`, and the verdict on what was opened in
//! `specs/Verdicts`. What follows from these definitions alone is in [`laws`].
//!
//! ```text
//! match send(alloc, &mut table, &policy, packet)? {
//!     Departure::Sealed { octets, .. } => transmit(octets.as_slice()),
//!     Departure::Clear(packet) => transmit(packet),
//!     Departure::Discarded | Departure::Dropped(_) => {}
//! }
//!
//! match receive(&mut table, datagram) {
//!     Arrival::Up { packet, .. } => forward(packet),
//!     Arrival::Dummy { .. } | Arrival::Dropped(_) => {}
//! }
//! ```
//!
//! # How it is proved
//!
//! `proofs/ReceptionLemmas` and `SendingLemmas` go through the ways of a packet: it reaches no pair, is
//! refused by its pair, or is opened. They show that each relation has one result, and what each refusal
//! leaves. `VerdictLemmas` does so for the verdict on a payload. What every call on the table keeps, a
//! packet keeps (`FollowingLemmas`), so laws of [`sadb`] hold over packets. The headline,
//! `what_one_end_seals_the_other_hands_up`, is in `MirrorLemmas`: a mirrored pair has the same SPI and key,
//! so esp's law on sealed packets applies, and the mirrored selectors hold the same flow. No law is over
//! more than one packet.
#![tactic(auto)]

mod admission;
mod arrival;
mod departure;
mod fault;
pub mod laws;
mod next_header;
mod verdict;

pub use admission::{Admission, admit};
pub use arrival::{Arrival, question, receive, receive_ahead};
pub use departure::{Departure, Laid, lay, lay_behind, lay_in, send, send_remembering};
pub use fault::PacketFault;

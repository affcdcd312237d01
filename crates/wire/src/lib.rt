//! IKEv2 messages (RFC 7296 section 3), read and written exactly.
//!
//! [`decode_message`] reads a datagram, [`decode_chain`] the payloads inside an encrypted one, and
//! [`encode_message`] writes a message. What is read is what the octets spell, whatever stands in reserved
//! octets and bits; what is written has zeros there, and is read as the same message again. A refusal is a
//! [`WireFault`]: where a payload is at fault, it has the offset of the first such payload. None of the three
//! changes anything when it refuses.
//!
//! The grammar stands in `specs/`, apart from reader and writer: `Messages` (section 3.1), `Payloads` (3.2,
//! 3.14), `Proposals` (3.3), `Fields` (3.4, 3.5, 3.8 to 3.11) and `Selectors` (3.13). What is refused is in
//! `Refusals`, how long payloads are in `Sizes`, and the numbers that all of them cite in `Numbers`. What
//! follows from these alone is in [`laws`].
//!
//! ```rust
//! use base::Items;
//! use wire::{Flags, Header, Message, Payload, decode_message, encode_message};
//!
//! let mut payloads = Items::new(rt.alloc());
//! payloads.push(Payload::Nonce(Items::from_slice(rt.alloc(), &[7; 32])?))?;
//! let flags = Flags {
//!     initiator: true,
//!     version: false,
//!     response: false,
//! };
//! let header = Header {
//!     spi_i: 1,
//!     spi_r: 0,
//!     minor: 0,
//!     exchange: 34,
//!     flags,
//!     id: 0,
//! };
//! let mut datagram = Vec::new(rt.alloc());
//! encode_message(&Message { header, payloads }, &mut datagram)?;
//!
//! let message = decode_message(rt.alloc(), &datagram)?;
//! for payload in message.payloads.as_slice() {
//!     if let Payload::Nonce(nonce) = payload {
//!         assert_eq!(rt; nonce.as_slice(), [7; 32].as_slice());
//!     }
//! }
//! ```
//!
//! # How it is proved
//!
//! Octets are gone over twice: whether the grammar allows them is checked first, without memory, and then
//! they are read. So want of memory is told only where octets spell something. One reader serves all payloads, and
//! one header of four octets (`IsPart`) serves payloads, proposals, transforms and selectors. The grammar
//! is a relation by cases. `specs/Reading` and `specs/Writing` are the functions that the code follows, and
//! only private contracts cite them. `proofs/` shows that what is read so is spelled, that nothing else is,
//! and that the first fault is the one found. `encode_message` fills a buffer of its own, sets each length
//! in place, and appends it to the caller's vector at the end. So a refusal never touches that vector.
#![tactic(auto)]

mod chain;
mod checking;
mod deletions;
mod fault;
mod fields;
mod form;
pub mod laws;
mod message;
mod notices;
pub mod numbers;
mod payload;
mod proposal;
mod reader;
mod selector;
mod size;
mod writer;

pub use base::{Address, Family, Items, Range, Selector};
pub use chain::decode_chain;
pub use fault::WireFault;
pub use message::{Flags, Header, Message, decode_message, encode_message};
pub use payload::{Payload, SkippedKind};
pub use proposal::{Attribute, Proposal, Transform};

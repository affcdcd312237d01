//! The IKE machine of one end (RFC 7296): all IKE SAs with its one peer, the secrets of its cookies, and one
//! step for a datagram, a command or the time.
//!
//! A step asks, in this order: which IKE SA a message is for, what it is to that IKE SA ([`association`]),
//! and what its payloads do ([`effects`], over [`initial`], [`informational`] and [`create_child`]). A
//! command begins an IKE SA, or asks the peer something under one that is established: for an additional
//! Child SA ([`IkeInput::Start`]), for a sign of life, or to delete a child or the IKE SA. All that can be
//! refused is made before anything changes. Beside its output a step has a [`Trace`]: which message was sent
//! under which keys, and which keys and which child were made. The code's word for an IKE SA is
//! *association*, for a command *order*, for a time *moment*.
//!
//! ```text
//! let mut ike = Ike::new(alloc, config);
//! let beginning = IkeInput::Start { ike: None, entry: 0, fresh: &fresh };
//! let stepped = ike.step(alloc, &beginning, &mut table, &policy, &caller)?;
//! if let IkeOutput::Request { octets, .. } = stepped.output {
//!     send(octets);
//! }
//! ```
//!
//! # How it is proved
//!
//! The invariant of every machine is `IsSoundMachine` (`specs/Soundness`):
//!
//! - at most 128 IKE SAs are held, by rising serial, and at most 32 of them are half open;
//! - each has an SPI of this end that is not zero and no other's;
//! - each SPI that one holds for a Child SA still to come is reserved in the table, and none is held twice.
//!
//! That a step keeps it follows from what a step *is*, the relation `Steps`, and not from the code.
//! `proofs/WayLemmas` names the ways of a step: nothing changes, an IKE SA takes a message, is admitted,
//! begins or asks, or time passes. `StepLemmas`, `SoundLemmas` and `AllowedLemmas` go through them with the
//! laws of [`effects`] and [`moments`], up to `soundness_stays`, which `Ike::step` calls. The other way
//! round, `ReleasedLemmas` shows that each reserved SPI is held by an IKE SA (`no_spi_is_lost`).
//!
//! Laws of [`effects`] speak of one IKE SA, those here of a serial. No two IKE SAs have one SPI, so a
//! datagram that opens under an IKE SA is found for it, and what is said of a message there holds of the
//! step. `RequestLemmas`, `OutputLemmas` and `InitialLemmas` carry this over for requests, `MoveLemmas` and
//! `TellingLemmas` for moves, `MomentLemmas` for time.
#![tactic(auto)]

mod asking;
mod datagram;
mod fault;
mod held;
mod input;
pub mod laws;
mod machine;
mod output;
mod receiving;
mod starting;
mod ticking;

// What calls of this crate take and give, so that who uses them needs to name no other crate.
pub use association::{Association, MessageFault};
pub use auth::{Identity, IdentityFault};
pub use base::{Address, Items, PrefixFault, Range};
pub use children::MemoryFault;
pub use fault::IkeFault;
pub use input::IkeInput;
pub use machine::Ike;
pub use moments::{Resent, Ticked};
pub use output::{IkeOutput, MadeChild, Mark, Stepped, Trace};
pub use policy::{Action, Entry, Policy, PolicyFault};
pub use sadb::{SpiFault, Table, first_spi};
pub use setup::{Config, ConfigFault, EndConfig};
pub use suite::{Agreement, Cipher, Fresh, KeyRecord, Keys, Proof, Sealer};
pub use wire::WireFault;

//! ESP in tunnel mode, one SA at a time: packets are sealed and opened (RFC 4303 sections 2 and 3), with NULL
//! encryption (RFC 2410) and HMAC-SHA-256-128 (RFC 4868).
//!
//! An [`Outbound`] seals payloads into packets with rising sequence numbers. An [`Inbound`] opens packets:
//! each number is accepted at most once, and a packet only if its ICV is right. It is generic in the replay
//! window, and over a `BlockWindow` opening takes no memory.
//!
//! Lists are sealed by [`Outbound::seal_all`] and opened by [`Inbound::open_all`], with the outcome of as
//! many calls for one packet in order. Only their ICVs are computed side by side, by crate `lanes`, for at
//! most 64 packets at a time. Those of fewer than six packets are computed one by one, or of fewer than
//! [`Outbound::begin_lanes_at`] says; so are those of up to sixteen that are too unequal in length to gain by
//! it. Packets are laid out, judged and taken one after the other.
//!
//! ```text
//! let mut sender = Outbound::new(256, &key, false, 6);
//! let mut receiver = Inbound::new(256, &key, false, BlockWindow::new(alloc, 2)?);
//! let mut packet = Vec::new(alloc);
//! sender.seal(4, payload, &mut packet)?;      // 7
//! let opened = receiver.open(&packet)?;       // number 7, next header 4, the payload as a slice
//! receiver.open(&packet)                      // Err(EspFault::Replayed)
//! ```
//!
//! # How it is proved
//!
//! `Step` says what one call does to one packet, in the window's terms, and `open` is proved against it. A
//! run is a list of steps (`Run`). `proofs/Runs` goes, by induction on the packets, from a run at a window
//! to the same list at the set of all numbers taken so far. Of that set the window shows the part in its
//! span (`Shows`). `proofs/HistoryLemmas` goes from there to `AtMostOnce` and `ExactlyAtFirst`: what is
//! taken stays taken, by induction on the list. Both files know no code.
//!
//! Lists are shown to be as many calls in order: `LayingLemmas` and `GroupLemmas` for sealing,
//! `AheadLemmas` and `PrecomputedLemmas` for ICVs that were computed ahead. `WorkedLemmas` shows that the
//! assumption of no forgery can be met.
#![tactic(auto)]

mod ahead;
mod check_values;
mod fault;
mod inbound;
pub mod laws;
mod load;
mod outbound;
mod packet;
mod precomputed;
mod progress;
mod sa;

pub use check_values::{FEW, GROUP};
pub use fault::{EspFault, ListFault, ListStop};
pub use inbound::{Inbound, Opened};
pub use load::PACKETS_LEAST;
pub use outbound::Outbound;
pub use packet::packet_size;
pub use precomputed::{Precomputed, Question, no_values, precompute, value_at};

//! Sequence numbers of ESP: what number a packet has, and whether it came before (RFC 4303 sections 2.2 and
//! 3.4.3).
//!
//! A packet carries the low 32 bits of its number. [`recover`] finds the number that they stand for, which an
//! SA with ESN needs. A [`Window`] remembers the numbers that were taken: asking ([`Window::judge`]) is apart
//! from taking ([`Window::take`]), so that a packet's number is taken only after its ICV was found right.
//!
//! ```rust
//! use replay::{BlockWindow, Judgement, Window};
//!
//! let mut window = BlockWindow::new(rt.alloc(), 2)?; // spans 64 numbers
//! if let Judgement::Fresh = window.judge(65) {
//!     window.take(65)?;
//! }
//! assert_eq!(rt; window.judge(2), Judgement::Fresh);
//! assert_eq!(rt; window.judge(1), Judgement::Old);
//! assert_eq!(rt; window.judge(65), Judgement::Taken);
//! assert_eq!(rt; window.judge(0), Judgement::Zero);
//! ```
//!
//! # How it is proved
//!
//! A ring of blocks shows a set of numbers (`shown`): those in the span whose bits are set. Two facts hold
//! of every ring (`IsRing`, `specs/Blocks`): the greatest number is marked, and its own block has no bit
//! above it. Other blocks may hold bits of numbers long past, since the span is one block shorter than the
//! ring.
//!
//! A block is cleared when the span moves into it, so setting one bit, after the blocks passed over were
//! cleared, takes that number and no other (`Takes`). `proofs/BlockLemmas` has this: two numbers with one
//! place and one bit that lie less than a round apart are one number (`twin_is_same`). The only loop is the
//! one that clears, with the blocks cleared so far as its invariant. `WindowFacts` has what follows for
//! every [`Window`].
#![tactic(auto)]

mod block;
mod fault;
pub mod laws;
mod plain;
mod recovery;
mod window;

pub use block::BlockWindow;
pub use fault::ReplayFault;
pub use plain::PlainWindow;
pub use recovery::recover;
pub use window::{Judgement, Window, is_block_count};

//! What is done with a flow on its way out (RFC 4301, section 5.1), and a memory of what was.
//!
//! A [`Treatment`] is the policy's decision about a flow and, where that is to protect, the pair that
//! carries it. [`look_up`] finds it anew, which costs the more the more entries and pairs there are. A
//! [`FlowMemory`] answers it at once for a flow that it still holds an answer of, and counts its look-ups.
//!
//! What is remembered is always what a look-up would find: an answer that names a pair counts as long as
//! that pair is Live, and whoever holds the memory calls [`FlowMemory::forget`] where a pair came or the
//! policy is another, as [`FlowMemory::treatment`] asks for. RFC 4301 calls such a memory a cache of the
//! policy (section 4.4.1); with one exact flow a place the policy needs no decorrelation. What follows from
//! the definitions alone is in [`laws`].
//!
//! ```text
//! let mut memory = FlowMemory::new(alloc);
//! match memory.treatment(&table, &policy, &flow) {
//!     Treatment::Carried(child) => seal(child),
//!     Treatment::Bypassed => transmit(packet),
//!     Treatment::Uncarried | Treatment::Discarded => {}
//! }
//! ```
#![tactic(auto)]

pub mod laws;
mod memory;
mod place;
mod treatment;

pub use memory::{Answer, FlowMemory};
pub use treatment::{Treatment, look_up};

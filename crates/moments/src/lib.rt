//! What comes with time (RFC 7296, sections 2.1 and 2.4): requests that no answer came to go out again, an
//! IKE SA whose peer is gone is closed, and one that is over is held no longer.
//!
//! What follows from the definitions alone is in [`laws`].
//!
//! An unanswered request is retransmitted five times. The first wait has 1000 ms, each other one twice as
//! many as the one before, and each counts from the sending before it. 16,000 ms after the fifth
//! retransmission the IKE SA is closed ([`requests::Timer`]). A half-open IKE SA is held for 30,000 ms, a
//! closed one for 120,000 ms; both are limits of this implementation. [`tick`] does what is due at a time,
//! at all IKE SAs, and [`next_due`] tells the least time at which something is.
//!
//! ```text
//! let ticked = tick(alloc, &mut associations, &mut table, now)?;
//! for request in ticked.requests.as_slice() {
//!     send(request.octets);
//! }
//! ```
//!
//! # How it is proved
//!
//! What a time brings is first said of one IKE SA (`specs/Due`), and of a list by one after the other. The
//! loop over requests has as its invariant that those up to a Message ID are sent again and the others as
//! before (`SendsUpTo`, `proofs/DueLemmas`). The loop over IKE SAs has that those up to a place have passed
//! (`PassedTo`, `PassingLemmas`). After it nothing is due: each is in time (`IsInTime`, `TimelyLemmas`),
//! since what was sent at a time is due only later.
//!
//! [`next_due`] keeps the least time found so far, before which nothing is due and at which something is
//! (`NextLemmas`). `HeldLemmas` and `HoldLemmas` say, by induction on the list, what is left of IKE SAs, SA
//! pairs and reserved SPIs.
#![tactic(auto)]

mod due;
pub mod laws;
mod next;
mod resent;
mod ticking;

pub use due::outstanding_count;
pub use next::next_due;
pub use resent::Resent;
pub use ticking::{Ticked, tick};

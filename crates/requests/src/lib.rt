//! The Message IDs of one IKE SA (RFC 7296 sections 2.1 to 2.4): which of the peer's requests were processed
//! and what was answered to them, which requests of this end wait for an answer, and when one goes out again.
//!
//! [`Incoming`] judges the Message ID of a request that came, and keeps the responses that may be asked for
//! again. [`Outgoing`] gives this end's requests their Message IDs and holds them until they are answered. A
//! [`Timer`] tells when a request goes out again. What a request says, and by what key it is sealed, is
//! nothing to this crate. Making room may take memory; nothing else does.
//!
//! Contracts see the Message IDs as finite sets and what is kept as finite maps (`specs/Incoming`,
//! `specs/Outgoing`); how they are kept (`specs/Storage`) is in no public clause. [`laws`] has facts about
//! any number of calls.
//!
//! ```text
//! let mut incoming = Incoming::after_initial(alloc);   // number 0, that of IKE_SA_INIT, is in effect
//! incoming.judge(1)                                    // Fresh
//! incoming.prepare()?;
//! incoming.take(1, reply);
//! incoming.judge(1)                                    // Repeat, with the reply's octets
//!
//! let mut outgoing = Outgoing::new(alloc);
//! let number = outgoing.prepare()?;                    // 0
//! outgoing.issue(request);
//! let request = outgoing.count(0);                     // its answer came
//! ```
//!
//! # How it is proved
//!
//! Two views carry it: the set of Message IDs that a gap and 16 bits show (`counted`, `proofs/SetLemmas`),
//! and the finite map that a list of entries shows (`EntryLemmas`, `OrderLemmas`). Each call is proved on the
//! list and said of the views. The invariants are `AreIncoming` and `AreOutgoing` (`specs/Storage`). The one
//! loop over bits moves the gap past marked Message IDs, with the shown set as its invariant.
//!
//! Over many calls, each call leads from the Message IDs to ones that *follow* them (`specs/Following`), and
//! following is transitive (`FollowingLemmas`). So `no_number_takes_effect_twice` needs no induction over
//! calls: a caller composes as many as it has.
#![tactic(auto)]

mod by_number;
mod fault;
mod incoming;
pub mod laws;
mod numbers;
mod outgoing;
mod outstanding;
mod timer;

pub use fault::RequestFault;
pub use incoming::{Incoming, Judgement};
pub use outgoing::Outgoing;
pub use outstanding::Outstanding;
pub use timer::{Due, Timer};

#[cfg(test)]
mod tests;

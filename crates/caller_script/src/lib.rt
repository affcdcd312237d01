//! The caller of scripts and of tests: a cipher that hides nothing, the exclusive or as key agreement, and
//! a keyed hash under one known secret as proof of identity. It keeps nothing secret and is never to be
//! used on a network.
//!
//! [`ScriptCaller`] meets the traits that `suite` asks of a caller ([`Sealer`](suite::Sealer),
//! [`Agreement`](suite::Agreement), [`Proof`](suite::Proof)) with all their laws, so that all that stands
//! above them can be run. What it means is said in `specs/Meaning`: who writes another program for the same
//! scripts needs nothing else.
//!
//! ```text
//! let mut body = Vec::new(alloc);
//! ScriptCaller.seal(&keys, head, b"plain", &fresh, &mut body)?;    // 17 octets more than the plain text
//! ```
#![tactic(auto)]

mod agreement;
mod cipher;
mod proof;

/// The caller of scripts and of tests. It has no state, and draws no random octets.
#[derive(Clone, Copy, Debug, PartialEq, Eq)]
pub struct ScriptCaller;

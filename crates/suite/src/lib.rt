//! What IKE asks of its caller and of the keyed hash (RFC 7296): keys, the choice of a proposal, the octets
//! that an end proves, and the traits that a caller gives.
//!
//! [`ike_keys`] derives the seven keys of an IKE SA, [`child_keys`] those of a Child SA; [`offer`] makes the
//! one proposal that an end offers, [`choose`] takes the first acceptable one of an offer, [`answer`] makes
//! the proposal that answers it, and [`accept`] tells whether that is due to the offer; [`proof_octets`]
//! appends what an end proves of itself. Of these [`offer`], [`answer`] and [`proof_octets`] take memory. The
//! numbers of transforms stand in [`transforms`].
//!
//! Ciphers, key agreement and signatures are the caller's: a [`Sealer`], an [`Agreement`] and a [`Proof`].
//! What they mean stands in ghost members of the traits, so that what opens as what is a fact about octets,
//! and their laws are laws of the traits. Octets that are new at each step come from the caller too, as
//! [`Fresh`].
//!
//! ```rust
//! use suite::{child_keys, ike_keys};
//!
//! let record = ike_keys(&[1; 32], &[2; 16], &[3; 16], 4, 5);
//! let [first, second] = child_keys(&record.sk_d, &[2; 16], &[3; 16]);
//! assert_ne!(rt; first, second);
//! ```
#![tactic(auto)]

mod agreement;
mod choice;
mod fault;
mod fresh;
mod key_record;
mod keys;
pub mod laws;
mod nonce;
mod offers;
mod proof;
mod sealer;
mod signed_octets;
pub mod transforms;

pub use agreement::Agreement;
pub use choice::{Chosen, Wanted, choose};
pub use fault::SuiteFault;
pub use fresh::Fresh;
pub use key_record::{KeyRecord, child_keys, ike_keys};
pub use keys::Keys;
pub use nonce::Nonce;
pub use offers::{accept, answer, offer};
pub use proof::Proof;
pub use sealer::{Cipher, Sealer};
pub use signed_octets::proof_octets;

//! The caller's proof of identity (RFC 7296, section 2.15).
ghost use Rattle.std.specs.Prelude.{◌≡◌, IfOk};

use base::Items;
use std::alloc::{AllocError, Global};

/// How an end proves its identity and checks its peer's (RFC 7296, sections 2.15 and 3.8).
///
/// What is proved and what is accepted depends on the value too, which holds secrets and knows whom it
/// trusts. A proof is a function of the value and the octets, so a method that draws random numbers has to
/// derive them from these. Where the length of proofs depends on the value, a ghost field of it can say
/// that they fit.
pub trait Proof {
    ghost use Rattle.std.specs.Prelude.{ℕ, Bool, List};
    ghost use Rattle.base.specs.Octets.{AreOctets};
    ghost use Rattle.suite.specs.Callers.{FitsPayload};

    /// The number of the method by which this end proves (section 3.8).
    ghost own_method: { Self → ℕ };

    /// What this end proves octets with.
    ghost proof_of: { Self → List ℕ → List ℕ };

    /// Whether the peer with an identity, told by its type and its data, has proved octets by a method and
    /// that method's data.
    ghost accepts: { Self → ℕ → List ℕ → ℕ → List ℕ → List ℕ → Bool };

    /// The number of this end's method, which its AUTH payload names.
    fn method(&self) -> u8
        ensures { result ≡ own_method self.now };

    /// What this end proves octets with, which its AUTH payload carries. The only error is an allocation
    /// failure.
    fn prove(&self, alloc: Global, octets: &[u8]) -> Result<Items<u8>, AllocError>
        ensures { IfOk result (λ proved. proved ≡ proof_of self.now octets.now) };

    /// Whether the peer whose identity has this type and this data has proved the octets by the method that
    /// its AUTH payload names and the data in it, `proof`. The only error is an allocation failure.
    fn check(
        &self,
        alloc: Global,
        kind: u8,
        id: &[u8],
        method: u8,
        octets: &[u8],
        proof: &[u8],
    ) -> Result<bool, AllocError>
        ensures { IfOk result
            (λ accepted. accepted ≡ accepts self.now kind id.now method octets.now proof.now) };

    /// A proof has 1 to 1024 octets.
    ghost proof_fits: { (caller : Self) (octets : List ℕ) → AreOctets octets → FitsPayload (proof_of caller octets) };
}

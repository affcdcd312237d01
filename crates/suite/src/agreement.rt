//! The caller's key agreement (RFC 7296, sections 2.14 and 3.4).
ghost use Rattle.std.specs.Prelude.{◌≡◌, IfOk};

use base::Items;
use std::alloc::{AllocError, Global};

/// The agreement by which two ends come to a shared secret (RFC 7296, sections 2.14 and 3.4).
///
/// Public values and shared secrets depend on the arguments alone, never on the value. A secret has 32
/// octets. That both ends are refused is allowed, but not one alone.
pub trait Agreement {
    ghost use Rattle.std.specs.Prelude.{ℕ, List, Option};
    ghost use Rattle.suite.specs.Callers.{FitsPayload, IsSecret};

    /// The group's number (section 3.3.2).
    ghost group_number: { ℕ };

    /// The public value of a secret.
    ghost public_value: { List ℕ → List ℕ };

    /// The secret shared by the owner of this secret and the owner of that public value; none where the
    /// agreement refuses the public value.
    ghost shared_secret: { List ℕ → List ℕ → Option (List ℕ) };

    /// The number by which peers name this group.
    fn group(&self) -> u16
        ensures { result ≡ group_number };

    /// The public value of a secret, which a KE payload carries. The only error is an allocation failure.
    fn public(&self, alloc: Global, secret: &[u8; 32]) -> Result<Items<u8>, AllocError>
        ensures { IfOk result (λ value. value ≡ public_value secret.now) };

    /// The secret that is shared with the owner of a public value, `None` where the agreement refuses that
    /// value. The only error is an allocation failure.
    fn shared(
        &self,
        alloc: Global,
        secret: &[u8; 32],
        other: &[u8],
    ) -> Result<Option<Items<u8>>, AllocError>
        ensures { IfOk result (λ shared. shared ≡ shared_secret secret.now other.now) };

    /// Both ends come to the same secret, or both to none.
    ghost symmetric: { (a b : List ℕ) → IsSecret a → IsSecret b
        → shared_secret a (public_value b) ≡ shared_secret b (public_value a) };

    /// A public value has 1 to 1024 octets.
    ghost public_fits: { (a : List ℕ) → IsSecret a → FitsPayload (public_value a) };
}

//! Nonces, kept in place (RFC 7296, section 3.9).
ghost use Rattle.std.specs.Prelude.{◌≡◌};
ghost use Rattle.suite.specs.Nonces.{IsNonce};

use std::fmt;
use std::marker::Model;

// The octets of the longest nonce.
const NONCE_LIMIT: usize = 256;

/// The data of a nonce, 16 to 256 octets, kept without memory of its own (RFC 7296, section 3.9). Contracts
/// see its octets.
#[derive(Clone, Copy, PartialEq, Eq)]
pub struct Nonce {
    octets: [u8; NONCE_LIMIT],
    len: usize,
}

impl Model for Nonce {
    ghost use Rattle.std.specs.Prelude.{ℕ, List, length, take};
    ghost use Rattle.suite.specs.Nonces.{IsFilled, octets_kept};

    ghost Value = { List ℕ };

    ghost view = { λ n. take n.len n.octets };

    ghost invariant = { λ n. IsFilled n.octets n.len };

    ghost inverse = { λ nonce. record { octets = octets_kept nonce; len = length nonce } };
}

impl Nonce {
    /// A nonce of these octets, of which there are 16 to 256.
    pub fn new(octets: &[u8]) -> Nonce
        requires { IsNonce octets.now }
        ensures { result ≡ octets.now }
    {
        let mut stored = [0; NONCE_LIMIT];
        stored[..octets.len()].copy_from_slice(octets);
        Nonce {
            octets: stored,
            len: octets.len(),
        }
    }

    /// The octets.
    pub fn as_slice(&self) -> &[u8]
        ensures same { result.now ≡ self.now }
        ensures nonce { IsNonce self.now }
    {
        &self.octets[..self.len]
    }
}

impl fmt::Debug for Nonce {
    fn fmt<W: fmt::Write>(&self, f: &mut fmt::Formatter<W>) -> fmt::Result {
        f.debug_list().entries(self.as_slice()).finish()
    }
}

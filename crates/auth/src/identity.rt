//! Identities (RFC 7296, section 3.5).
ghost use Rattle.std.specs.Prelude.{◌≡◌, ◌↔◌, true};
ghost use Rattle.auth.specs.Proofs.{is_identity, IsIdentity};

use crate::proving::are_octets;
use base::Items;
use wire::numbers::IDENTITY_LIMIT;

/// The identity of an end (RFC 7296, section 3.5). In a payload it has 1 to 256 octets of data, a limit of
/// this implementation.
#[derive(Clone, Debug, PartialEq, Eq, Drop)]
pub struct Identity {
    /// The number of its type.
    pub kind: u8,
    pub data: Items<u8>,
}

impl Identity {
    /// Whether it can be sent in an ID payload: it has 1 to 256 octets of data.
    pub fn fits_payload(&self) -> bool
        ensures { result ≡ true ↔ IsIdentity self.now }
    {
        // Read, so that its range is known.
        let _kind = self.kind;
        let octets = self.data.as_slice();
        are_octets(octets);
        !octets.is_empty() && octets.len() <= IDENTITY_LIMIT
    }

    /// Whether an identity of this type and this data is this one.
    pub fn is(&self, kind: u8, octets: &[u8]) -> bool
        ensures { result ≡ is_identity self.now kind octets.now }
    {
        kind == self.kind && octets == self.data.as_slice()
    }
}

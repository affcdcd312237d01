//! The proofs of identity under shared keys (RFC 7296, sections 2.15 and 3.8).
ghost use Rattle.std.specs.Prelude.{◌≡◌, Ok};
ghost use Rattle.caller_peer.specs.OtherLaws.{proof_fits};
ghost use Rattle.caller_peer.specs.SharedKeys.{proof_under, proved_by, proves_under};

use base::Items;
use mac::hmac;
use std::alloc::{AllocError, Global};
use std::fmt;
use suite::Proof;

// Shared Key Message Integrity Code (RFC 7296, section 3.8).
const SHARED_KEY_METHOD: u8 = 2;

/// A peer that is known by a secret shared with it.
#[derive(Drop)]
pub struct Peer {
    /// The type of its identity, as on the wire: 2 for a name, 1 for an address of IPv4 (RFC 7296, section
    /// 3.5).
    pub kind: u8,
    /// The identity's data.
    pub id: Items<u8>,
    /// The secret under which it proves its identity. An empty one proves nothing, since anybody could
    /// prove by it.
    pub secret: Items<u8>,
}

/// A caller that proves its own end's identity under a secret, and accepts the proofs of peers.
#[derive(Drop)]
pub struct PeerCaller {
    /// The secret under which this end proves its identity, to whatever peer: with a stack that has one key
    /// for both ways, this key.
    pub own: Items<u8>,
    /// The peers that are known. Of two with one identity the first counts.
    pub peers: Items<Peer>,
}

impl Proof for PeerCaller {
    ghost use Rattle.caller_peer.specs.SharedKeys.{is_accepted, proof_under, shared_key_method};

    ghost own_method = { λ _. shared_key_method };

    ghost proof_of = { λ caller. proof_under caller.own };

    ghost accepts = { λ caller. is_accepted caller.peers };

    fn method(&self) -> u8 {
        SHARED_KEY_METHOD
    }

    fn prove(&self, alloc: Global, octets: &[u8]) -> Result<Items<u8>, AllocError> {
        Items::from_slice(alloc, &proof_under(self.own.as_slice(), octets))
    }

    #[tactic(auto, unfolding(crate::specs::SharedKeys::is_accepted))]
    fn check(
        &self,
        _alloc: Global,
        kind: u8,
        id: &[u8],
        method: u8,
        octets: &[u8],
        proof: &[u8],
    ) -> Result<bool, AllocError>
        ensures { result ≡ Ok (is_accepted self.now.peers kind id.now method octets.now proof.now) }
    {
        Ok(method == SHARED_KEY_METHOD && is_proved(self.peers.as_slice(), kind, id, octets, proof))
    }

    ghost proof_fits = { λ caller. proof_fits caller.own };
}

// What a secret proves octets with.
#[tactic(auto, unfolding(crate::specs::SharedKeys::proof_under))]
fn proof_under(secret: &[u8], octets: &[u8]) -> [u8; 32]
    ensures { result ≡ proof_under secret.now octets.now }
{
    hmac(&hmac(secret, &[b"Key Pad for IKEv2"]), &[octets])
}

// Whether octets were proved under a secret that is not empty.
#[tactic(auto, unfolding(crate::specs::SharedKeys::proves_under))]
fn is_proved_under(secret: &[u8], octets: &[u8], proof: &[u8]) -> bool
    ensures { result ≡ proves_under secret.now octets.now proof.now }
{
    !secret.is_empty() && proof == proof_under(secret, octets).as_slice()
}

// Whether the first peer with an identity has proved octets under its own secret.
fn is_proved(peers: &[Peer], kind: u8, id: &[u8], octets: &[u8], proof: &[u8]) -> bool
    ensures { result ≡ proved_by peers.now kind id.now octets.now proof.now }
{
    for peer in peers {
        if peer.kind == kind && peer.id.as_slice() == id {
            return is_proved_under(peer.secret.as_slice(), octets, proof);
        }
    }
    false
}

// Shows no octet of a secret.
impl fmt::Debug for Peer {
    ghost use Rattle.std.specs.Prelude.{Some, codes};

    ghost debug_output = { λ _. Some (codes "Peer { .. }") };

    fn fmt<W: fmt::Write>(&self, f: &mut fmt::Formatter<W>) -> fmt::Result {
        f.write_str("Peer { .. }")
    }
}

// Shows no octet of a secret.
impl fmt::Debug for PeerCaller {
    ghost use Rattle.std.specs.Prelude.{Some, codes};

    ghost debug_output = { λ _. Some (codes "PeerCaller { .. }") };

    fn fmt<W: fmt::Write>(&self, f: &mut fmt::Formatter<W>) -> fmt::Result {
        f.write_str("PeerCaller { .. }")
    }
}

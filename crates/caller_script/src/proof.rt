//! The proof of identity: a keyed hash under one shared secret (RFC 7296 section 2.15).
ghost use Rattle.std.specs.Prelude.{◌≡◌};
ghost use Rattle.caller_script.specs.Meaning.{keyed_proof};
ghost use Rattle.caller_script.specs.MeaningLaws.{proof_fits};

use crate::ScriptCaller;
use base::Items;
use mac::hmac;
use std::alloc::{AllocError, Global};
use suite::Proof;

// Shared Key Message Integrity Code (RFC 7296 section 3.8).
const SHARED_KEY_METHOD: u8 = 2;

impl Proof for ScriptCaller {
    ghost use Rattle.caller_script.specs.Meaning.{is_proof, keyed_proof, script_method};

    ghost own_method = { λ _. script_method };

    ghost proof_of = { λ _. keyed_proof };

    ghost accepts = { λ _ _ _. is_proof };

    fn method(&self) -> u8 {
        SHARED_KEY_METHOD
    }

    fn prove(&self, alloc: Global, octets: &[u8]) -> Result<Items<u8>, AllocError> {
        Items::from_slice(alloc, &keyed_proof(octets))
    }

    #[tactic(auto, unfolding(crate::specs::Meaning::is_proof))]
    fn check(
        &self,
        _alloc: Global,
        _kind: u8,
        _id: &[u8],
        method: u8,
        octets: &[u8],
        proof: &[u8],
    ) -> Result<bool, AllocError> {
        Ok(method == SHARED_KEY_METHOD && proof == keyed_proof(octets).as_slice())
    }

    ghost proof_fits = { λ _. proof_fits };
}

// What the shared secret proves octets with.
#[tactic(auto, unfolding(crate::specs::Meaning::keyed_proof))]
fn keyed_proof(octets: &[u8]) -> [u8; 32]
    ensures { result ≡ keyed_proof octets.now }
{
    hmac(&hmac(b"play", &[b"Key Pad for IKEv2"]), &[octets])
}

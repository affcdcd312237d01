//! A key prepared for messages alone and side by side.
ghost use Rattle.std.specs.Prelude.{◌≡◌, take};

use crate::pads::{hashers, states};
use sha2::{Digest, Sha256};
use std::alloc::AllocError;
use std::fmt;
use std::marker::Model;

/// A key of 32 octets prepared for HMAC-SHA-256-128 (RFC 4868), alone and in lanes.
///
/// A contract sees the key's octets.
///
/// It keeps SHA-256 as it stands behind each pad (RFC 2104, section 4), so a message costs no compression
/// for its key.
#[derive(Drop)]
pub struct LaneKey {
    octets: [u8; 32],
    // SHA-256 behind the inner pad and behind the outer one, for a message alone.
    begun: Sha256,
    outer_begun: Sha256,
    // The same as words, for a message in a lane.
    inner: [u32; 8],
    outer: [u32; 8],
}

impl Model for LaneKey {
    ghost use Rattle.std.specs.Prelude.{ℕ, List};
    ghost use Rattle.lanes.specs.Key.{HasHashers, HasStates};

    ghost Value = { List ℕ };

    ghost view = { λ k. k.octets };

    ghost invariant = { λ k. HasHashers k.octets k.begun k.outer_begun × HasStates k.octets k.inner k.outer };
}

impl LaneKey {
    ghost use Rattle.std.specs.Prelude.{◌≡◌, ◌++◌};
    ghost use Rattle.mac.specs.Hmac.{hmac_block, icv_sha256, pad_with};
    ghost use Rattle.lanes.specs.Key.{state_behind};

    /// Prepares a key.
    pub fn new(key: &[u8; 32]) -> LaneKey
        ensures { result ≡ key.now }
    {
        let (begun, outer_begun) = hashers(key);
        let (inner, outer) = states(key);
        LaneKey {
            octets: *key,
            begun,
            outer_begun,
            inner,
            outer,
        }
    }

    /// The key's octets.
    pub fn octets(&self) -> [u8; 32]
        ensures { result ≡ self.now }
    {
        self.octets
    }

    /// The integrity check value of a message in two parts: the first 16 octets of HMAC-SHA-256 (RFC 4868,
    /// section 2.3).
    #[tactic(auto, unfolding(mac::specs::Hmac::hmac_sha256, mac::specs::Hmac::icv_sha256))]
    pub fn icv(&self, octets: &[u8], more: &[u8]) -> [u8; 16]
        ensures { result ≡ icv_sha256 self.now (octets.now ++ more.now) }
    {
        let mut inner = copy_of(&self.begun);
        inner.update(octets);
        inner.update(more);
        let mut outer = copy_of(&self.outer_begun);
        outer.update(inner.finalize());
        truncated(&outer.finalize())
    }

    // SHA-256 as it stands behind the inner pad.
    pub(crate) fn inner_state(&self) -> [u32; 8]
        ensures { result ≡ state_behind (pad_with 0x36 (hmac_block self.now)) }
    {
        self.inner
    }

    // SHA-256 as it stands behind the outer pad.
    pub(crate) fn outer_state(&self) -> [u32; 8]
        ensures { result ≡ state_behind (pad_with 0x5c (hmac_block self.now)) }
    {
        self.outer
    }
}

impl Clone for LaneKey {
    ghost use Rattle.std.specs.Prelude.{◌≡◌, ⊤};

    ghost is_clone = { λ key copy. copy ≡ key };

    ghost is_infallible = { λ _. ⊤ };

    fn clone(&self) -> Result<LaneKey, AllocError> {
        Ok(LaneKey {
            octets: self.octets,
            begun: copy_of(&self.begun),
            outer_begun: copy_of(&self.outer_begun),
            inner: self.inner,
            outer: self.outer,
        })
    }
}

// Shows no octet of the key.
impl fmt::Debug for LaneKey {
    ghost use Rattle.std.specs.Prelude.{Some, codes};

    ghost debug_output = { λ _. Some (codes "LaneKey { .. }") };

    fn fmt<W: fmt::Write>(&self, f: &mut fmt::Formatter<W>) -> fmt::Result {
        f.write_str("LaneKey { .. }")
    }
}

// The copy of a hasher takes no memory.
fn copy_of(hasher: &Sha256) -> Sha256
    ensures { result ≡ hasher.now }
{
    match hasher.clone() {
        Ok(copy) => copy,
        Err(_) => unreachable!(),
    }
}

// The first 16 octets of a tag.
fn truncated(tag: &[u8; 32]) -> [u8; 16]
    ensures { result ≡ take 16 tag.now }
{
    let mut value = [0; 16];
    value.copy_from_slice(&tag[..16]);
    value
}

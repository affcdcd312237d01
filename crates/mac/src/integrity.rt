//! The integrity algorithm HMAC-SHA-256-128 (RFC 4868).
ghost use Rattle.std.specs.Prelude.{◌≡◌, ⊤, take};
ghost use Rattle.std.specs.List.{flat_map};
ghost use Rattle.mac.specs.Hmac.{icv_sha256};

use crate::keyed_hash::HmacKey;
use std::alloc::AllocError;
use std::fmt;
use std::marker::Model;

/// A key of 32 octets prepared for HMAC-SHA-256-128 (RFC 4868).
///
/// A contract sees the key's octets. An ICV over n octets costs ceil((n + 9) / 64) + 1 compressions of
/// SHA-256.
#[derive(Drop)]
pub struct IcvKey {
    key: HmacKey,
}

impl Model for IcvKey {
    ghost use Rattle.std.specs.Prelude.{◌≡◌, ℕ, List, length, take};
    ghost use Rattle.mac.specs.Hmac.{hmac_block};

    ghost Value = { List ℕ };

    ghost view = { λ k. take 32 k.key };

    ghost invariant = { λ k. (k.key ≡ hmac_block (take 32 k.key)) × (length (take 32 k.key) ≡ 32) };
}

impl IcvKey {
    /// Prepares a key.
    pub fn new(key: &[u8; 32]) -> IcvKey
        ensures { result ≡ key.now }
    {
        IcvKey {
            key: HmacKey::new(key),
        }
    }

    /// The key's octets.
    pub fn octets(&self) -> [u8; 32]
        ensures { result ≡ self.now }
    {
        self.key.first_octets()
    }

    /// The integrity check value of the parts, joined to one message: the first 16 octets of
    /// HMAC-SHA-256 (RFC 4868, section 2.3).
    #[tactic(auto, unfolding(crate::specs::Hmac::hmac_sha256, crate::specs::Hmac::icv_sha256))]
    pub fn icv(&self, parts: &[&[u8]]) -> [u8; 16]
        ensures { result ≡ icv_sha256 self.now (flat_map (λ part. part.now) parts.now) }
    {
        truncated(&self.key.tag(parts))
    }
}

impl Clone for IcvKey {
    ghost is_clone = { λ key copy. copy ≡ key };

    ghost is_infallible = { λ _. ⊤ };

    fn clone(&self) -> Result<IcvKey, AllocError> {
        Ok(IcvKey {
            key: self.key.clone()?,
        })
    }
}

// Shows no octet of the key.
impl fmt::Debug for IcvKey {
    ghost use Rattle.std.specs.Prelude.{Some, codes};

    ghost debug_output = { λ _. Some (codes "IcvKey { .. }") };

    fn fmt<W: fmt::Write>(&self, f: &mut fmt::Formatter<W>) -> fmt::Result {
        f.write_str("IcvKey { .. }")
    }
}

/// The integrity check value of the parts, joined to one message, under a key of 32 octets: the
/// first 16 octets of HMAC-SHA-256 (RFC 4868, section 2.3). For several messages under one key
/// prepare an [`IcvKey`].
pub fn icv(key: &[u8; 32], parts: &[&[u8]]) -> [u8; 16]
    ensures { result ≡ icv_sha256 key.now (flat_map (λ part. part.now) parts.now) }
{
    IcvKey::new(key).icv(parts)
}

fn truncated(tag: &[u8; 32]) -> [u8; 16]
    ensures { result ≡ take 16 tag.now }
{
    let mut value = [0; 16];
    value.copy_from_slice(&tag[..16]);
    value
}

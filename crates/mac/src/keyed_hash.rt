//! HMAC (RFC 2104) over SHA-256.
ghost use Rattle.std.specs.Prelude.{◌≡◌, ◌≤◌, ⊤, ℕ, List, [], ◌∷◌, ◌++◌, length, take};
ghost use Rattle.std.specs.List.{flat_map};
ghost use Rattle.sha2.specs.Hashers.{Holds256};
ghost use Rattle.sha2.specs.Sha256.{sha256};
ghost use Rattle.mac.specs.Hmac.{fill_block, hmac_block, hmac_sha256, keyed_hash, pad_with};

use sha2::{Digest, Sha256};
use std::alloc::AllocError;
use std::fmt;
use std::marker::Model;

// The octets of a block of SHA-256 (B of RFC 2104).
const BLOCK_LEN: usize = 64;

const INNER_PAD: u8 = 0x36;

const OUTER_PAD: u8 = 0x5c;

/// A key prepared for HMAC-SHA-256.
///
/// A contract sees its block: the key, or its SHA-256 digest where it has more than 64 octets, filled
/// with zeros to 64 octets (RFC 2104, section 2). Two keys with one block give every message the same
/// tag.
///
/// It keeps the hash as it stands after each pad (RFC 2104, section 4), so a message of n octets
/// costs ceil((n + 9) / 64) + 1 compressions of SHA-256.
#[derive(Drop)]
pub struct HmacKey {
    block: [u8; BLOCK_LEN],
    inner: Sha256,
    outer: Sha256,
}

impl Model for HmacKey {
    ghost use Rattle.std.specs.Prelude.{ℕ, List};
    ghost use Rattle.sha2.specs.Hashers.{Holds256};
    ghost use Rattle.mac.specs.Hmac.{pad_with};

    ghost Value = { List ℕ };

    ghost view = { λ k. k.block };

    ghost invariant = { λ k. Holds256 k.inner (pad_with 0x36 k.block) × Holds256 k.outer (pad_with 0x5c k.block) };
}

impl HmacKey {
    /// Prepares a key of any number of octets.
    pub fn new(key: &[u8]) -> HmacKey
        ensures { result ≡ hmac_block key.now }
    {
        let block = key_block(key);
        HmacKey {
            inner: Sha256::new_with_prefix(padded(&block, INNER_PAD)),
            outer: Sha256::new_with_prefix(padded(&block, OUTER_PAD)),
            block,
        }
    }

    // The first 32 octets of the block that the key fills: the whole key, where it has so many.
    pub(crate) fn first_octets(&self) -> [u8; 32]
        ensures { result ≡ take 32 self.now }
    {
        let mut octets = [0; 32];
        octets.copy_from_slice(&self.block[..32]);
        octets
    }

    /// HMAC-SHA-256 of the parts, joined to one message (RFC 2104, section 2).
    pub fn tag(&self, parts: &[&[u8]]) -> [u8; 32]
        ensures { result ≡ keyed_hash self.now (flat_map (λ part. part.now) parts.now) }
    {
        let inner = finish(copy_of(&self.inner), parts);
        finish(copy_of(&self.outer), &[inner.as_slice()])
    }

    // The tag of a message that begins with other octets than its parts, and ends with one more.
    pub(crate) fn tag_between(&self, front: &[u8], parts: &[&[u8]], end: u8) -> [u8; 32]
        ensures { result
            ≡ keyed_hash self.now (front.now ++ flat_map (λ part. part.now) parts.now ++ end ∷ []) }
    {
        let mut hasher = copy_of(&self.inner);
        hasher.update(front);
        for part in parts {
            hasher.update(*part);
        }
        let digest = finish(hasher, &[&[end]]);
        finish(copy_of(&self.outer), &[&digest])
    }
}

impl Clone for HmacKey {
    ghost is_clone = { λ key copy. copy ≡ key };

    ghost is_infallible = { λ _. ⊤ };

    fn clone(&self) -> Result<HmacKey, AllocError> {
        Ok(HmacKey {
            block: self.block,
            inner: copy_of(&self.inner),
            outer: copy_of(&self.outer),
        })
    }
}

// Shows no octet of the key.
impl fmt::Debug for HmacKey {
    ghost use Rattle.std.specs.Prelude.{Some, codes};

    ghost debug_output = { λ _. Some (codes "HmacKey { .. }") };

    fn fmt<W: fmt::Write>(&self, f: &mut fmt::Formatter<W>) -> fmt::Result {
        f.write_str("HmacKey { .. }")
    }
}

/// HMAC-SHA-256 of the parts, joined to one message, under a key of any number of octets
/// (RFC 2104). For several messages under one key prepare an [`HmacKey`].
#[tactic(auto, unfolding(crate::specs::Hmac::hmac_sha256))]
pub fn hmac(key: &[u8], parts: &[&[u8]]) -> [u8; 32]
    ensures { result ≡ hmac_sha256 key.now (flat_map (λ part. part.now) parts.now) }
{
    HmacKey::new(key).tag(parts)
}

fn key_block(key: &[u8]) -> [u8; BLOCK_LEN]
    ensures { result ≡ hmac_block key.now }
{
    if key.len() <= BLOCK_LEN {
        filled(key)
    } else {
        filled(&Sha256::digest(key))
    }
}

fn filled(key: &[u8]) -> [u8; BLOCK_LEN]
    requires { length key.now ≤ BLOCK_LEN }
    ensures { result ≡ fill_block key.now }
{
    let mut block = [0; BLOCK_LEN];
    block[..key.len()].copy_from_slice(key);
    block
}

fn padded(block: &[u8; BLOCK_LEN], pad: u8) -> [u8; BLOCK_LEN]
    ensures { result ≡ pad_with pad block.now }
{
    let mut octets = *block;
    for octet in &mut octets {
        *octet ^= pad;
    }
    octets
}

// The copy of a hasher takes no memory.
fn copy_of(hasher: &Sha256) -> Sha256
    ensures { result ≡ hasher.now }
{
    match hasher.clone() {
        Ok(copy) => copy,
        Err(_) => unreachable!(),
    }
}

// The digest of what the hasher holds and the parts after it.
fn finish(mut hasher: Sha256, parts: &[&[u8]]) -> [u8; 32]
    ensures { (held : List ℕ) → Holds256 hasher held
        → result ≡ sha256 (held ++ flat_map (λ part. part.now) parts.now) }
{
    for part in parts {
        hasher.update(*part);
    }
    hasher.finalize()
}

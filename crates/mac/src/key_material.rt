//! Key material of any length from one key and one seed (RFC 7296, section 2.13).
ghost use Rattle.std.specs.Prelude.{◌≡◌, ◌≤◌, ◌<◌, length, IsOk, Err};
ghost use Rattle.std.specs.List.{flat_map};
ghost use Rattle.mac.specs.KeyMaterial.{prf_plus};

use crate::MacFault;
use crate::keyed_hash::HmacKey;

// The octets of one block, a tag of HMAC-SHA-256.
const BLOCK: usize = 32;

// The most octets: 255 blocks, since a block's number has one octet.
const MATERIAL_LIMIT: usize = 255 * BLOCK;

/// Fills `out` with the first octets of prf+ over HMAC-SHA-256 (RFC 7296, section 2.13), under a key
/// of any number of octets. The parts of the seed are joined.
///
/// [`MacFault::TooMuch`] where `out` has more than 8160 octets; it is then as it was.
pub fn prf_plus(key: &[u8], seed_parts: &[&[u8]], out: &mut [u8]) -> Result<(), MacFault>
    ensures filled { length out.old ≤ 8160 → IsOk result
        × (out.new ≡ prf_plus key.now (flat_map (λ part. part.now) seed_parts.now) (length out.old)) }
    ensures too_much { 8160 < length out.old → (result ≡ Err MacFault.TooMuch) × (out.new ≡ out.old) }
{
    if out.len() > MATERIAL_LIMIT {
        return Err(MacFault::TooMuch);
    }
    let key = HmacKey::new(key);
    let mut number = 1;
    let mut block = key.tag_between(&[], seed_parts, number);
    let mut filled = 0;
    while out.len() - filled > BLOCK {
        out[filled..filled + BLOCK].copy_from_slice(&block);
        filled += BLOCK;
        number += 1;
        block = key.tag_between(&block, seed_parts, number);
    }
    let rest = out.len() - filled;
    out[filled..].copy_from_slice(&block[..rest]);
    Ok(())
}

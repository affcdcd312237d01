//! SHA-256 as it stands behind the pads of a key (RFC 2104, section 4).
ghost use Rattle.std.specs.Prelude.{◌≡◌, ℕ, ◌≤◌, List, length};
ghost use Rattle.sha2.specs.Sha256.{initial_hash_256};
ghost use Rattle.mac.specs.Hmac.{hmac_block, pad_with};
ghost use Rattle.lanes.specs.Key.{HasHashers, HasStates};
ghost use Rattle.lanes.specs.Lane.{IsLane, lane};

use crate::blocks::{state_of_lane, words_in_lanes};
use crate::constants::INITIAL_HASH;
use crate::rounds::compress;
use crate::words::each;
use sha2::{Digest, Sha256};
use std::simd::prelude::*;

const INNER_PAD: u8 = 0x36;

const OUTER_PAD: u8 = 0x5c;

fn key_block(key: &[u8; 32]) -> [u8; 64]
    ensures { result ≡ hmac_block key.now }
{
    let mut block = [0; 64];
    block[..32].copy_from_slice(key);
    block
}

fn padded(block: &[u8; 64], pad: u8) -> [u8; 64]
    ensures { result ≡ pad_with pad block.now }
{
    let mut octets = *block;
    for octet in &mut octets {
        *octet ^= pad;
    }
    octets
}

fn initial() -> [u32x8; 8]
    ensures { (j : ℕ) → IsLane j → lane j result ≡ initial_hash_256 }
{
    [
        each(INITIAL_HASH[0]),
        each(INITIAL_HASH[1]),
        each(INITIAL_HASH[2]),
        each(INITIAL_HASH[3]),
        each(INITIAL_HASH[4]),
        each(INITIAL_HASH[5]),
        each(INITIAL_HASH[6]),
        each(INITIAL_HASH[7]),
    ]
}

// The states behind the inner pad and behind the outer one, each from a lane.
pub(crate) fn states(key: &[u8; 32]) -> ([u32; 8], [u32; 8])
    ensures { HasStates key.now result.0 result.1 }
{
    let block = key_block(key);
    let inner: &[u8] = &padded(&block, INNER_PAD);
    let outer: &[u8] = &padded(&block, OUTER_PAD);
    let words = words_in_lanes([inner, outer, inner, inner, inner, inner, inner, inner]);
    let states = compress(initial(), words);
    (state_of_lane(&states, 0), state_of_lane(&states, 1))
}

// SHA-256 that has taken the inner pad, and SHA-256 that has taken the outer one.
pub(crate) fn hashers(key: &[u8; 32]) -> (Sha256, Sha256)
    ensures { HasHashers key.now result.0 result.1 }
{
    let block = key_block(key);
    (
        Sha256::new_with_prefix(padded(&block, INNER_PAD)),
        Sha256::new_with_prefix(padded(&block, OUTER_PAD)),
    )
}

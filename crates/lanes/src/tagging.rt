//! HMAC-SHA-256 (RFC 2104) in eight lanes.
ghost use Rattle.std.specs.Prelude.{◌≡◌, ℕ, ◌*◌, ◌<◌, ◌^◌, List, Some, ◌++◌, length, slice_get, slice_index, take};
ghost use Rattle.sha2.specs.Sha256.{digest_bytes, first_words, hash_after, padding};
ghost use Rattle.mac.specs.Hmac.{hmac_sha256};
ghost use Rattle.lanes.specs.Key.{HasStates};
ghost use Rattle.lanes.specs.Lane.{IsLane, lane};
ghost use Rattle.lanes.specs.Message.{HasBlocks};
ghost use Rattle.lanes.specs.Padding.{after_a_block};
ghost use Rattle.lanes.specs.declared.message.Message.{Message};

use crate::absorbing::absorb;
use crate::message::Message;
use crate::rounds::compress;
use crate::words::each;
use std::simd::prelude::*;

// The words of the block that follows the outer pad: the digest of the inner hash, and the padding of both.
#[inline(always)]
fn outer_words(digest: &[u32x8; 8]) -> [u32x8; 16]
    ensures { (j : ℕ) → IsLane j → ((k : ℕ) → slice_index (lane j digest.now) k < 2 ^ 32)
        → lane j result ≡ first_words (digest_bytes (lane j digest.now) 8 ++ padding 96) 16 }
{
    let zero = each(0);
    [
        digest[0],
        digest[1],
        digest[2],
        digest[3],
        digest[4],
        digest[5],
        digest[6],
        digest[7],
        each(0x8000_0000),
        zero,
        zero,
        zero,
        zero,
        zero,
        zero,
        // The bits of a block and a digest.
        each(768),
    ]
}

// Each lane's tag, as words, from its inner digest.
pub(crate) fn outer_tags(outer: [u32x8; 8], digests: &[u32x8; 8]) -> [u32x8; 8]
    ensures { (j : ℕ) → IsLane j → (key octets inner : List ℕ) (count : ℕ)
        → HasStates key inner (lane j outer)
        → lane j digests.now ≡ hash_after inner (after_a_block octets) count
        → length (after_a_block octets) ≡ count * 64
        → digest_bytes (lane j result) 8 ≡ hmac_sha256 key octets }
{
    compress(outer, outer_words(digests))
}

// Each lane's tag, as words: that of its message under the key whose states it begins with.
pub(crate) fn tags(inner: [u32x8; 8], outer: [u32x8; 8], messages: &[Message<'_>]) -> [u32x8; 8]
    requires { length messages.now ≡ 8 }
    ensures { (j : ℕ) → IsLane j → (m : Message) (key octets : List ℕ) → slice_get messages.now j ≡ Some m
        → HasBlocks m (after_a_block octets)
        → HasStates key (lane j inner) (lane j outer)
        → digest_bytes (lane j result) 8 ≡ hmac_sha256 key octets }
{
    let digests = absorb(inner, messages);
    outer_tags(outer, &digests)
}

// The first 16 octets of a tag, from its words.
pub(crate) fn first_octets(tag: &[u32; 8]) -> [u8; 16]
    ensures { result ≡ take 16 (digest_bytes tag.now 8) }
{
    let [a, b, c, d] = tag[0].to_be_bytes();
    let [e, f, g, h] = tag[1].to_be_bytes();
    let [i, j, k, l] = tag[2].to_be_bytes();
    let [m, n, o, p] = tag[3].to_be_bytes();
    [a, b, c, d, e, f, g, h, i, j, k, l, m, n, o, p]
}

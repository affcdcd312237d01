//! The functions of SHA-256 on words (FIPS 180-4, section 4.1.2), on the eight words of a vector at once.
ghost use Rattle.std.specs.Prelude.{◌≡◌, ℕ, ◌/◌, ◌^◌, ◌<◌, bit_xor, slice_index, nat_eq, if◌then◌else◌};
ghost use Rattle.std.specs.Int.{rotate_right, w32};
ghost use Rattle.sha2.specs.Sha256.{add32, big_sigma0, big_sigma1, ch, maj, small_sigma0, small_sigma1};
ghost use Rattle.lanes.specs.Lane.{IsLane};

use std::simd::prelude::*;

// One word in each lane.
#[inline(always)]
pub(crate) fn each(word: u32) -> u32x8
    ensures { (j : ℕ) → IsLane j → slice_index result j ≡ word }
{
    u32x8::splat(word)
}

#[inline(always)]
pub(crate) fn add(a: u32x8, b: u32x8) -> u32x8
    ensures { (j : ℕ) → IsLane j → slice_index result j ≡ add32 (slice_index a j) (slice_index b j) }
{
    a + b
}

// In each lane `other` where that of `test` is 0, and else `word`.
#[inline(always)]
pub(crate) fn choose(test: u32x8, word: u32x8, other: u32x8) -> u32x8
    ensures { (j : ℕ) → IsLane j → slice_index result j
        ≡ (if nat_eq (slice_index test j) 0 then slice_index other j else slice_index word j) }
{
    test.simd_eq(u32x8::splat(0)).select(other, word)
}

#[inline(always)]
pub(crate) fn ch(x: u32x8, y: u32x8, z: u32x8) -> u32x8
    ensures { (j : ℕ) → IsLane j
        → slice_index result j ≡ ch (slice_index x j) (slice_index y j) (slice_index z j) }
{
    (x & y) ^ (!x & z)
}

// `y ^ z` of a round is `x ^ y` of the round before it: where the compiler keeps that, a round takes three
// operations. The form of FIPS 180-4 takes four.
#[inline(always)]
pub(crate) fn maj(x: u32x8, y: u32x8, z: u32x8) -> u32x8
    ensures { (j : ℕ) → IsLane j
        → slice_index result j ≡ maj (slice_index x j) (slice_index y j) (slice_index z j) }
{
    y ^ ((x ^ y) & (y ^ z))
}

// Each word turned by some bits to the right.
#[inline(always)]
fn turned(x: u32x8, by: u32) -> u32x8
    requires some { 0 < by }
    requires fewer { by < 32 }
    ensures { (j : ℕ) → IsLane j → slice_index result j ≡ rotate_right w32 (slice_index x j) by }
{
    (x >> by) | (x << (32 - by))
}

// Each word moved by some bits to the right.
#[inline(always)]
fn shifted(x: u32x8, by: u32) -> u32x8
    requires { by < 32 }
    ensures { (j : ℕ) → IsLane j → slice_index result j ≡ slice_index x j / 2 ^ by }
{
    x >> by
}

#[inline(always)]
fn xor(x: u32x8, y: u32x8, z: u32x8) -> u32x8
    ensures { (j : ℕ) → IsLane j
        → slice_index result j ≡ bit_xor (bit_xor (slice_index x j) (slice_index y j)) (slice_index z j) }
{
    x ^ y ^ z
}

#[inline(always)]
pub(crate) fn big_sigma0(x: u32x8) -> u32x8
    ensures { (j : ℕ) → IsLane j → slice_index result j ≡ big_sigma0 (slice_index x j) }
{
    xor(turned(x, 2), turned(x, 13), turned(x, 22))
}

#[inline(always)]
pub(crate) fn big_sigma1(x: u32x8) -> u32x8
    ensures { (j : ℕ) → IsLane j → slice_index result j ≡ big_sigma1 (slice_index x j) }
{
    xor(turned(x, 6), turned(x, 11), turned(x, 25))
}

#[inline(always)]
pub(crate) fn small_sigma0(x: u32x8) -> u32x8
    ensures { (j : ℕ) → IsLane j → slice_index result j ≡ small_sigma0 (slice_index x j) }
{
    xor(turned(x, 7), turned(x, 18), shifted(x, 3))
}

#[inline(always)]
pub(crate) fn small_sigma1(x: u32x8) -> u32x8
    ensures { (j : ℕ) → IsLane j → slice_index result j ≡ small_sigma1 (slice_index x j) }
{
    xor(turned(x, 17), turned(x, 19), shifted(x, 10))
}

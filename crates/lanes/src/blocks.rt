//! Words into lanes and out of them.
ghost use Rattle.std.specs.Prelude.{◌≡◌, ◌≢◌, ℕ, ◌+◌, ◌*◌, ◌<◌, ◌≤◌, List, [], ◌∷◌, ◌++◌, length, take, drop, slice_index, slice_index_or};
ghost use Rattle.sha2.specs.Sha256.{first_words, word_at};
ghost use Rattle.lanes.specs.Blocks.{block_in, four_words};
ghost use Rattle.lanes.specs.Lane.{IsLane, lane};

use std::simd::prelude::*;

#[inline(always)]
fn column<const N: usize>(rows: [[u32; N]; 8], k: usize) -> u32x8
    requires { k < N }
    ensures { (j : ℕ) → IsLane j → slice_index result j ≡ slice_index (slice_index_or rows.entry j []) k }
{
    u32x8::from_array([
        rows[0][k], rows[1][k], rows[2][k], rows[3][k], rows[4][k], rows[5][k], rows[6][k],
        rows[7][k],
    ])
}

// Each of eight states in a lane of its own.
#[inline(always)]
pub(crate) fn states_in_lanes(rows: [[u32; 8]; 8]) -> [u32x8; 8]
    ensures { (j : ℕ) → IsLane j → length (slice_index_or rows j []) ≡ 8
        → lane j result ≡ slice_index_or rows j [] }
{
    [
        column(rows, 0),
        column(rows, 1),
        column(rows, 2),
        column(rows, 3),
        column(rows, 4),
        column(rows, 5),
        column(rows, 6),
        column(rows, 7),
    ]
}

// A vector with another word in lane `j`.
#[inline(always)]
fn with_word(vector: u32x8, j: usize, word: u32) -> u32x8
    requires { IsLane j }
    ensures here { slice_index result j ≡ word }
    ensures others { (k : ℕ) → k ≢ j → slice_index result k ≡ slice_index vector k }
{
    let mut words = vector.to_array();
    words[j] = word;
    u32x8::from_array(words)
}

// States with another one in lane `j`.
pub(crate) fn with_lane(state: &[u32x8; 8], j: usize, words: &[u32; 8]) -> [u32x8; 8]
    requires { IsLane j }
    ensures here { lane j result ≡ words.now }
    ensures others { (k : ℕ) → k ≢ j → lane k result ≡ lane k state.now }
{
    [
        with_word(state[0], j, words[0]),
        with_word(state[1], j, words[1]),
        with_word(state[2], j, words[2]),
        with_word(state[3], j, words[3]),
        with_word(state[4], j, words[4]),
        with_word(state[5], j, words[5]),
        with_word(state[6], j, words[6]),
        with_word(state[7], j, words[7]),
    ]
}

// The words of one lane.
#[inline(always)]
pub(crate) fn state_of_lane(state: &[u32x8; 8], j: usize) -> [u32; 8]
    requires { IsLane j }
    ensures { result ≡ lane j state.now }
{
    [
        state[0].to_array()[j],
        state[1].to_array()[j],
        state[2].to_array()[j],
        state[3].to_array()[j],
        state[4].to_array()[j],
        state[5].to_array()[j],
        state[6].to_array()[j],
        state[7].to_array()[j],
    ]
}

// Octets as words, the first octet of each word its highest.
#[inline(always)]
fn words(octets: u8x32) -> u32x8
    ensures { result ≡ four_words octets 0 ++ four_words octets 16 }
{
    u32x8::from_le_bytes(octets.swizzle([
        3, 2, 1, 0, 7, 6, 5, 4, 11, 10, 9, 8, 15, 14, 13, 12, 19, 18, 17, 16, 23, 22, 21, 20, 27,
        26, 25, 24, 31, 30, 29, 28,
    ]))
}

// Two vectors of octets as one.
#[inline(always)]
fn joined(low: u8x16, high: u8x16) -> u8x32
    ensures { result ≡ low ++ high }
{
    low.shuffle(
        high,
        [
            0, 1, 2, 3, 4, 5, 6, 7, 8, 9, 10, 11, 12, 13, 14, 15, 16, 17, 18, 19, 20, 21, 22, 23,
            24, 25, 26, 27, 28, 29, 30, 31,
        ],
    )
}

// Four words of one block in the lower lanes, and of another in the upper ones.
#[inline(always)]
fn pair(low: &[u8], high: &[u8], at: usize) -> u32x8
    requires low { at + 16 ≤ length low.now }
    requires high { at + 16 ≤ length high.now }
    ensures { result ≡ four_words low.now at ++ four_words high.now at }
{
    words(joined(
        u8x16::from_slice(&low[at..]),
        u8x16::from_slice(&high[at..]),
    ))
}

// Vectors of four words of one block and four of another: the words of each block in a lane of its own.
#[inline(always)]
fn transposed(a: u32x8, b: u32x8, c: u32x8, d: u32x8) -> [u32x8; 4]
    ensures low { (j : ℕ) → j < 4 → lane j result ≡ take 4 (slice_index_or (a ∷ b ∷ c ∷ d ∷ []) j []) }
    ensures high { (j : ℕ) → j < 4 → lane (4 + j) result ≡ drop 4 (slice_index_or (a ∷ b ∷ c ∷ d ∷ []) j []) }
{
    let ab_low: u32x8 = a.shuffle(b, [0, 8, 1, 9, 4, 12, 5, 13]);
    let ab_high: u32x8 = a.shuffle(b, [2, 10, 3, 11, 6, 14, 7, 15]);
    let cd_low: u32x8 = c.shuffle(d, [0, 8, 1, 9, 4, 12, 5, 13]);
    let cd_high: u32x8 = c.shuffle(d, [2, 10, 3, 11, 6, 14, 7, 15]);
    [
        ab_low.shuffle(cd_low, [0, 1, 8, 9, 4, 5, 12, 13]),
        ab_low.shuffle(cd_low, [2, 3, 10, 11, 6, 7, 14, 15]),
        ab_high.shuffle(cd_high, [0, 1, 8, 9, 4, 5, 12, 13]),
        ab_high.shuffle(cd_high, [2, 3, 10, 11, 6, 7, 14, 15]),
    ]
}

// Four words of each of eight blocks.
#[inline(always)]
fn four_of_each(blocks: [&[u8]; 8], at: usize) -> [u32x8; 4]
    requires { (j : ℕ) → IsLane j → at + 16 ≤ length (block_in blocks j) }
    ensures { (j : ℕ) → IsLane j → lane j result ≡ four_words (block_in blocks.entry j) at }
{
    transposed(
        pair(blocks[0], blocks[4], at),
        pair(blocks[1], blocks[5], at),
        pair(blocks[2], blocks[6], at),
        pair(blocks[3], blocks[7], at),
    )
}

// The words of eight blocks, each block in a lane of its own.
// Sixteen octets at once, since each load of one word alone costs as much as one of them.
#[inline(always)]
pub(crate) fn words_in_lanes(blocks: [&[u8]; 8]) -> [u32x8; 16]
    requires { (j : ℕ) → IsLane j → length (block_in blocks j) ≡ 64 }
    ensures { (j : ℕ) → IsLane j → lane j result ≡ first_words (block_in blocks.entry j) 16 }
{
    let [a, b, c, d] = four_of_each(blocks, 0);
    let [e, f, g, h] = four_of_each(blocks, 16);
    let [i, j, k, l] = four_of_each(blocks, 32);
    let [m, n, o, p] = four_of_each(blocks, 48);
    [a, b, c, d, e, f, g, h, i, j, k, l, m, n, o, p]
}

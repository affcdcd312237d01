//! KEYEXPANSION for a key of 256 bits (FIPS 197, section 5.2).
ghost use Rattle.std.specs.Prelude.{◌≡◌, ◌≤◌, ◌<◌, ◌+◌, ◌*◌, ◌++◌, length, replicate};
ghost use Rattle.aes.specs.KeyExpansion.{added_octet, key_expansion, next_word, round_constant, word_octet};

use crate::substitution::sub_byte;

// The rounds of the cipher.
pub(crate) const ROUNDS: usize = 14;

// The words of a key.
const KEY_WORDS: usize = 8;

// The words of a key schedule, four for each round key.
const WORDS: usize = 60;

// The octets of the round keys, one after the other.
pub(crate) type Schedule = [u8; 240];

// KEYEXPANSION of a key.
pub(crate) fn key_expansion(key: &[u8; 32]) -> Schedule
    ensures { result ≡ key_expansion key.now }
{
    let mut schedule = begun(key);
    for i in KEY_WORDS..WORDS {
        let word = next_word(&schedule[..4 * i]);
        schedule[4 * i..4 * i + 4].copy_from_slice(&word);
    }
    schedule
}

// The key's words, with zeros in place of the others.
fn begun(key: &[u8; 32]) -> Schedule
    ensures { result ≡ key.now ++ replicate 208 0 }
{
    let mut schedule = [0; 240];
    schedule[..32].copy_from_slice(key);
    schedule
}

// The word that follows the words so far.
fn next_word(words: &[u8]) -> [u8; 4]
    requires some { 32 ≤ length words.now }
    requires few { length words.now < 240 }
    ensures { result ≡ next_word words.now }
{
    let i = words.len() / 4;
    let mut word = [0; 4];
    for r in 0..4 {
        word[r] = word_octet(words, i - KEY_WORDS, r) ^ added_octet(words, i, r);
    }
    word
}

// An octet of what the word i adds to the word before it by a whole key.
fn added_octet(words: &[u8], i: usize, r: usize) -> u8
    requires some { 8 ≤ i }
    requires few { i < 60 }
    requires within { 4 * i ≤ length words.now }
    requires octet { r < 4 }
    ensures { result ≡ added_octet words.now i r }
{
    if i % 8 == 0 {
        sub_byte(word_octet(words, i - 1, (r + 1) % 4)) ^ round_constant(i / 8, r)
    } else if i % 8 == 4 {
        sub_byte(word_octet(words, i - 1, r))
    } else {
        word_octet(words, i - 1, r)
    }
}

// An octet of Rcon\[j\].
fn round_constant(j: usize, r: usize) -> u8
    requires some { 1 ≤ j }
    requires few { j ≤ 8 }
    ensures { result ≡ round_constant j r }
{
    if r == 0 { 1 << (j - 1) } else { 0 }
}

fn word_octet(words: &[u8], i: usize, r: usize) -> u8
    requires { 4 * i + r < length words.now }
    ensures { result ≡ word_octet words.now i r }
{
    words[4 * i + r]
}

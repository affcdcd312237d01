//! CIPHER and INVCIPHER (FIPS 197, sections 5.1 and 5.3).
ghost use Rattle.std.specs.Prelude.{◌≡◌};
ghost use Rattle.aes.specs.Cipher.{cipher, decrypted, encrypted, inv_cipher};

use crate::columns::{inverse_mix_columns, mix_columns};
use crate::key_schedule::{ROUNDS, Schedule, key_expansion};
use crate::state::{
    State, add_round_key, inverse_shift_rows, inverse_sub_bytes, shift_rows, sub_bytes,
};
use std::fmt;
use std::marker::Model;

/// A key of 256 bits, prepared for AES. Contracts see its 32 octets.
#[derive(Drop)]
pub struct Aes256 {
    schedule: Schedule,
}

impl Model for Aes256 {
    ghost use Rattle.std.specs.Prelude.{◌≡◌, ℕ, List, length, take};
    ghost use Rattle.aes.specs.KeyExpansion.{key_expansion};

    ghost Value = { List ℕ };

    ghost view = { λ k. take 32 k.schedule };

    ghost invariant = { λ k. (k.schedule ≡ key_expansion (take 32 k.schedule)) × (length (take 32 k.schedule) ≡ 32) };
}

impl Aes256 {
    /// Prepares a key (KEYEXPANSION, section 5.2).
    pub fn new(key: &[u8; 32]) -> Aes256
        ensures { result ≡ key.now }
    {
        Aes256 {
            schedule: key_expansion(key),
        }
    }

    /// The block that a block becomes (CIPHER, section 5.1).
    #[tactic(auto, unfolding(crate::specs::Cipher::encrypted))]
    pub fn encrypt_block(&self, block: &[u8; 16]) -> [u8; 16]
        ensures { result ≡ encrypted self.now block.now }
    {
        cipher(&self.schedule, block)
    }

    /// The block that becomes a block (INVCIPHER, section 5.3).
    #[tactic(auto, unfolding(crate::specs::Cipher::decrypted))]
    pub fn decrypt_block(&self, block: &[u8; 16]) -> [u8; 16]
        ensures { result ≡ decrypted self.now block.now }
    {
        inverse_cipher(&self.schedule, block)
    }
}

// Shows no octet of the key.
impl fmt::Debug for Aes256 {
    ghost use Rattle.std.specs.Prelude.{Some, codes};

    ghost debug_output = { λ _. Some (codes "Aes256 { .. }") };

    fn fmt<W: fmt::Write>(&self, f: &mut fmt::Formatter<W>) -> fmt::Result {
        f.write_str("Aes256 { .. }")
    }
}

fn cipher(schedule: &Schedule, block: &State) -> State
    ensures { result ≡ cipher schedule.now block.now }
{
    let mut state = add_round_key(schedule, 0, block);
    for round in 1..ROUNDS {
        state = mix_columns(&shift_rows(&sub_bytes(&state)));
        state = add_round_key(schedule, round, &state);
    }
    add_round_key(schedule, ROUNDS, &shift_rows(&sub_bytes(&state)))
}

fn inverse_cipher(schedule: &Schedule, block: &State) -> State
    ensures { result ≡ inv_cipher schedule.now block.now }
{
    let mut state = add_round_key(schedule, ROUNDS, block);
    for done in 1..ROUNDS {
        state = inverse_sub_bytes(&inverse_shift_rows(&state));
        state = inverse_mix_columns(&add_round_key(schedule, ROUNDS - done, &state));
    }
    add_round_key(schedule, 0, &inverse_sub_bytes(&inverse_shift_rows(&state)))
}

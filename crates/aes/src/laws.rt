//! What follows from the definitions alone. No function here does anything.
ghost use Rattle.std.specs.Prelude.{◌≡◌, ◌≢◌, ◌<◌, ℕ, List};
ghost use Rattle.aes.specs.Cipher.{decrypted, encrypted};
ghost use Rattle.aes.specs.Field.{inverse, times};
ghost use Rattle.aes.specs.Laws.{IsBlock, IsKey};
ghost use Rattle.aes.specs.Substitution.{inv_sub_byte, sub_byte};

/// A block that is encrypted decrypts to itself, and the other way round (FIPS 197, sections 5.1 and 5.3).
pub fn encryption_is_undone()
    ensures decrypts { (key block : List ℕ) → IsKey key → IsBlock block
        → decrypted key (encrypted key block) ≡ block }
    ensures encrypts { (key block : List ℕ) → IsKey key → IsBlock block
        → encrypted key (decrypted key block) ≡ block }
{}

/// Both make 16 octets of 16 octets.
pub fn blocks_become_blocks()
    ensures encrypted { (key block : List ℕ) → IsKey key → IsBlock block → IsBlock (encrypted key block) }
    ensures decrypted { (key block : List ℕ) → IsKey key → IsBlock block → IsBlock (decrypted key block) }
{}

/// An octet times its inverse is 1, but for 0 (FIPS 197, section 4.4), and INVSBOX undoes SBOX, as SBOX
/// undoes it (section 5.3.2).
pub fn inverses_are_inverse()
    ensures product { (b : ℕ) → b < 256 → b ≢ 0 → times b (inverse b) ≡ 1 }
    ensures there { (b : ℕ) → b < 256 → inv_sub_byte (sub_byte b) ≡ b }
    ensures back { (s : ℕ) → s < 256 → sub_byte (inv_sub_byte s) ≡ s }
{}

//! The CBC mode of AES-256 (SP 800-38A, section 6.2; RFC 3602).
ghost use Rattle.std.specs.Prelude.{◌≡◌, ◌≤◌, ◌+◌, ◌*◌, ◌/◌, ◌%◌, length, take, drop};
ghost use Rattle.caller_peer.specs.Chaining.{both, cbc_decrypted, cbc_encrypted};

use aes::Aes256;

// The octets of a block.
pub(crate) const BLOCK: usize = 16;

type Block = [u8; BLOCK];

// Encrypts whole blocks in place, behind the block before them.
pub(crate) fn encrypt(cipher: &Aes256, before: &Block, text: &mut [u8])
    requires { length text.old % 16 ≡ 0 }
    ensures { text.new ≡ cbc_encrypted cipher.now before.now (length text.old / 16) text.old }
{
    let mut previous = *before;
    for i in 0..text.len() / BLOCK {
        let part = &mut text[BLOCK * i..BLOCK * i + BLOCK];
        previous = cipher.encrypt_block(&both(&block_of(part), &previous));
        part.copy_from_slice(&previous);
    }
}

// Decrypts whole blocks in place, behind the block before them.
pub(crate) fn decrypt(cipher: &Aes256, before: &Block, text: &mut [u8])
    requires { length text.old % 16 ≡ 0 }
    ensures { text.new ≡ cbc_decrypted cipher.now before.now (length text.old / 16) text.old }
{
    let mut previous = *before;
    for i in 0..text.len() / BLOCK {
        let part = &mut text[BLOCK * i..BLOCK * i + BLOCK];
        let block = block_of(part);
        part.copy_from_slice(&both(&cipher.decrypt_block(&block), &previous));
        previous = block;
    }
}

// The block that a slice is.
pub(crate) fn block_of(octets: &[u8]) -> Block
    requires { length octets.now ≡ BLOCK }
    ensures { result ≡ octets.now }
{
    let mut block = [0; BLOCK];
    block.copy_from_slice(octets);
    block
}

// The exclusive or of two blocks.
pub(crate) fn both(one: &Block, other: &Block) -> Block
    ensures { result ≡ both one.now other.now }
{
    let mut sum = [0; BLOCK];
    for k in 0..BLOCK {
        sum[k] = one[k] ^ other[k];
    }
    sum
}

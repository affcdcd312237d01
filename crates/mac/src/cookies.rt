//! The cookie of a responder that keeps no state (RFC 7296, section 2.6).
ghost use Rattle.std.specs.Prelude.{◌≡◌};
ghost use Rattle.mac.specs.Cookie.{cookie};

use sha2::{Digest, Sha256};

// The octets of the secret's version, which tells under which secret a cookie was made.
const VERSION_LEN: usize = 4;

/// The cookie for an initiator: the secret's version in 4 octets, then SHA-256 of its nonce, its
/// address, its SPI in 8 octets and the secret (RFC 7296, section 2.6). Nonce and address may have
/// any number of octets.
#[tactic(auto, unfolding(crate::specs::Cookie::cookie))]
pub fn cookie(version: u32, secret: &[u8; 32], nonce: &[u8], address: &[u8], spi_i: u64) -> [u8; 36]
    ensures { result ≡ cookie version secret.now nonce.now address.now spi_i }
{
    let mut hasher = Sha256::new();
    hasher.update(nonce);
    hasher.update(address);
    hasher.update(spi_i.to_be_bytes());
    hasher.update(secret);

    let mut cookie = [0; 36];
    cookie[..VERSION_LEN].copy_from_slice(&version.to_be_bytes());
    cookie[VERSION_LEN..].copy_from_slice(&hasher.finalize());
    cookie
}

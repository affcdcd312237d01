//! What stands in the place of randomness: octets that follow from an input's number alone.
use sha2::{Digest, Sha256};
use std::alloc::{AllocError, Global};
use suite::Fresh;

/// The fresh octets of the input with this number, from 1.
pub fn fresh(alloc: Global, number: u64) -> Result<Fresh, AllocError> {
    let spi = words(alloc, number, "spi")?;
    let seal = words(alloc, number, "seal")?;
    let nonce = words(alloc, number, "nonce")?;
    let secret = words(alloc, number, "secret")?;
    Ok(Fresh {
        spi: u64::from_be_bytes(first(&spi)),
        nonce,
        secret,
        seal: first(&seal),
    })
}

// The SHA-256 of a text that names the input and what the octets are for.
fn words(alloc: Global, number: u64, purpose: &str) -> Result<[u8; 32], AllocError> {
    Ok(hash(&format!(in alloc; "fresh {number} {purpose}")?))
}

fn hash(text: &str) -> [u8; 32] {
    Sha256::digest(text.as_bytes())
}

// The first octets of a hash.
fn first<const N: usize>(hash: &[u8; 32]) -> [u8; N] {
    let mut octets = [0; N];
    for (octet, hashed) in octets.iter_mut().zip(hash) {
        *octet = *hashed;
    }
    octets
}

//! AES-256: the block cipher of FIPS 197 under a key of 256 bits.
//!
//! A key is prepared once, as [`Aes256`], and then encrypts and decrypts blocks of 16 octets. Nothing
//! here takes memory, and nothing is refused. What is encrypted decrypts to the same block, and the
//! other way round: [`laws`].
//!
//! Look-ups go by secret octets, so the time that a call takes may tell of them on a machine with caches.
//!
//! ```rust
//! use aes::Aes256;
//!
//! let cipher = Aes256::new(&[7; 32]);
//! let block = cipher.encrypt_block(&[1; 16]);
//! assert_eq!(rt; cipher.decrypt_block(&block), [1; 16]);
//! ```
#![tactic(auto)]

mod cipher;
mod columns;
mod key_schedule;
pub mod laws;
mod state;
mod substitution;
#[cfg(test)]
mod tests;

pub use cipher::Aes256;

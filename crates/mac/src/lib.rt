//! Keyed hashes of the gateway: HMAC-SHA-256 (RFC 2104) and its first 128 bits, the integrity check
//! value of ESP and of IKE under HMAC-SHA-256-128 (RFC 4868). Two calls serve IKE alone: prf+ makes
//! key material of any length (RFC 7296, section 2.13), and a cookie shows that an initiator can be
//! reached at its address (section 2.6).
//!
//! A message is passed in parts, which are hashed as one, so that a packet, its head and what is only
//! implied, as the high half of an extended sequence number, are never copied together. A key is
//! prepared once, and each message then costs the hash of its own octets and one block more. Nothing
//! here takes memory. [`prf_plus`] alone can be refused, above 8160 octets.
//!
//! ```rust
//! use mac::{IcvKey, icv};
//!
//! let key = IcvKey::new(&[0x0b; 32]);
//! let value: [u8; 16] = key.icv(&[b"head", b"payload"]);
//! assert_eq!(rt; value, icv(&[0x0b; 32], &[b"headpayload"]));
//! ```
#![tactic(auto)]

mod cookies;
mod fault;
mod integrity;
mod key_material;
mod keyed_hash;
pub mod laws;

pub use cookies::cookie;
pub use fault::MacFault;
pub use integrity::{IcvKey, icv};
pub use key_material::prf_plus;
pub use keyed_hash::{HmacKey, hmac};

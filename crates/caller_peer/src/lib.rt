//! A caller with what real peers of IPsec speak (strongSwan 5.9.8 was tried): AES-256 in CBC mode with
//! HMAC-SHA-256-128 (RFC 3602, RFC 4868) as cipher, the 2048-bit MODP group (RFC 3526) as key agreement,
//! and shared keys as proofs of identity (RFC 7296, section 2.15).
//!
//! [`PeerCaller`] meets the traits that `suite` asks of a caller ([`Sealer`](suite::Sealer),
//! [`Agreement`](suite::Agreement), [`Proof`](suite::Proof)) with all their laws. It has the secret of its
//! own end and the identities of its peers, each with its secret, and draws no random octets: the vector of
//! a body and the secret of an agreement come from whoever calls.
//!
//! That a body opens exactly if it is made as section 3.14 says, that what is sealed is the one such body
//! with the least padding, that a secret is shared exactly if it is the power of the public value by the
//! own secret, and that a proof is accepted exactly if it is what the first peer with that identity gives,
//! are laws: [`laws`].
//!
//! Nothing here hides how long a call takes: tables are read by secret octets, powers branch on secret
//! bits, and an ICV or a proof is compared up to its first wrong octet.
//!
//! ```rust
//! use base::Items;
//! use caller_peer::{Peer, PeerCaller};
//! use suite::Agreement;
//!
//! let peer = Peer {
//!     kind: 2,
//!     id: Items::from_slice(rt.alloc(), b"gw.example")?,
//!     secret: Items::from_slice(rt.alloc(), b"our secret")?,
//! };
//! let mut peers = Items::new(rt.alloc());
//! peers.push(peer)?;
//! let caller = PeerCaller {
//!     own: Items::from_slice(rt.alloc(), b"our secret")?,
//!     peers,
//! };
//! let public = caller.public(rt.alloc(), &[1; 32])?;
//! assert_eq!(rt; public.len(), 256); // octets, for a KE payload
//! ```
#![tactic(auto)]

mod agreement;
mod chaining;
pub mod laws;
mod sealer;
mod shared_key;
#[cfg(test)]
mod tests;

pub use shared_key::{Peer, PeerCaller};

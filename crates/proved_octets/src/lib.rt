//! What octets tell that an end proves by IKE_AUTH, as laws alone (RFC 7296, section 2.15).
//!
//! They are the end's first message, the other's nonce, and a MAC of the end's identity. Where two ends prove the
//! same octets, [`laws::what_is_proved_tells_its_parts`] says that each of these is the same.
#![tactic(auto)]

pub mod laws;

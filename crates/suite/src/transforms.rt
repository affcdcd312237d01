//! Numbers of protocols, transforms and attributes (RFC 7296, section 3.3), of those that are understood
//! here; those of the format, which [`wire::numbers`] has too, by their short names.

use wire::numbers::{
    ENCRYPTION_TRANSFORM, ESP_PROTOCOL, GROUP_TRANSFORM, IKE_PROTOCOL, INTEGRITY_TRANSFORM,
    PRF_TRANSFORM, SEQUENCE_NUMBERS_TRANSFORM,
};

/// Protocol: an IKE SA (section 3.3.1).
pub const IKE: u8 = IKE_PROTOCOL;

/// Protocol: an ESP SA.
pub const ESP: u8 = ESP_PROTOCOL;

/// The least SPI of ESP: those up to 255 are reserved (RFC 4303, section 2.1).
pub const FIRST_SPI: u32 = 256;

/// Type of transform: encryption (section 3.3.2).
pub const ENCR: u8 = ENCRYPTION_TRANSFORM;

/// Type of transform: pseudorandom function.
pub const PRF: u8 = PRF_TRANSFORM;

/// Type of transform: integrity.
pub const INTEG: u8 = INTEGRITY_TRANSFORM;

/// Type of transform: Diffie-Hellman group.
pub const GROUP: u8 = GROUP_TRANSFORM;

/// Type of transform: sequence numbers.
pub const ESN: u8 = SEQUENCE_NUMBERS_TRANSFORM;

/// Encryption: none (RFC 2410).
pub const ENCR_NULL: u16 = 11;

/// Pseudorandom function: HMAC-SHA-256 (RFC 4868).
pub const PRF_HMAC_SHA2_256: u16 = 5;

/// Integrity: HMAC-SHA-256 cut to 128 bits (RFC 4868).
pub const AUTH_HMAC_SHA2_256_128: u16 = 12;

/// Sequence numbers of 32 bits.
pub const NO_EXTENSION: u16 = 0;

/// Extended sequence numbers.
pub const EXTENSION: u16 = 1;

/// Attribute: the length of a key in bits (section 3.3.5).
pub const KEY_LENGTH: u16 = 14;

//! The numbers of RFC 7296 that messages are made of, and this implementation's limits. Contracts cite them
//! by the same names in `specs/Numbers`.

/// Names no payload: what ends a chain (section 3.2).
pub const NO_PAYLOAD: u8 = 0;

/// The type of an SA payload (section 3.3).
pub const SA_TYPE: u8 = 33;

/// The type of a key exchange payload (section 3.4).
pub const KE_TYPE: u8 = 34;

/// The type of the initiator's identification (section 3.5).
pub const ID_I_TYPE: u8 = 35;

/// The type of the responder's identification (section 3.5).
pub const ID_R_TYPE: u8 = 36;

/// The type of a certificate (section 3.6).
pub const CERTIFICATE_TYPE: u8 = 37;

/// The type of a certificate request (section 3.7).
pub const CERTIFICATE_REQUEST_TYPE: u8 = 38;

/// The type of an authentication payload (section 3.8).
pub const AUTH_TYPE: u8 = 39;

/// The type of a nonce (section 3.9).
pub const NONCE_TYPE: u8 = 40;

/// The type of a notification (section 3.10).
pub const NOTIFY_TYPE: u8 = 41;

/// The type of a deletion (section 3.11).
pub const DELETE_TYPE: u8 = 42;

/// The type of a vendor ID (section 3.12).
pub const VENDOR_ID_TYPE: u8 = 43;

/// The type of the traffic selectors of the initiator's side (section 3.13).
pub const TS_I_TYPE: u8 = 44;

/// The type of the traffic selectors of the responder's side (section 3.13).
pub const TS_R_TYPE: u8 = 45;

/// The type of an encrypted payload (section 3.14).
pub const SEALED_TYPE: u8 = 46;

/// The type of a configuration payload (section 3.15).
pub const CONFIGURATION_TYPE: u8 = 47;

/// The type of an EAP payload (section 3.16).
pub const EAP_TYPE: u8 = 48;

/// The exchange that makes keys (section 1.2).
pub const IKE_SA_INIT: u8 = 34;

/// The exchange that proves who both ends are (section 1.2).
pub const IKE_AUTH: u8 = 35;

/// The exchange that makes additional SAs (section 1.3).
pub const CREATE_CHILD_SA: u8 = 36;

/// The exchange for notifications, deletions and liveness checks (section 1.4).
pub const INFORMATIONAL: u8 = 37;

/// An unknown payload was critical (section 2.5); the data is its type.
pub const UNSUPPORTED_CRITICAL_PAYLOAD: u16 = 1;

/// A message was malformed.
pub const INVALID_SYNTAX: u16 = 7;

/// No proposal was acceptable.
pub const NO_PROPOSAL_CHOSEN: u16 = 14;

/// The other end was not authenticated.
pub const AUTHENTICATION_FAILED: u16 = 24;

/// No additional SA is made.
pub const NO_ADDITIONAL_SAS: u16 = 35;

/// No traffic selector was acceptable (section 2.9).
pub const TS_UNACCEPTABLE: u16 = 38;

/// How many requests may be outstanding (section 2.3); four octets of data.
pub const SET_WINDOW_SIZE: u16 = 16385;

/// A cookie (section 2.6); 1 to 64 octets of data.
pub const COOKIE: u16 = 16390;

/// IKE itself.
pub const IKE_PROTOCOL: u8 = 1;

/// AH.
pub const AH_PROTOCOL: u8 = 2;

/// ESP.
pub const ESP_PROTOCOL: u8 = 3;

/// An encryption algorithm.
pub const ENCRYPTION_TRANSFORM: u8 = 1;

/// A pseudorandom function.
pub const PRF_TRANSFORM: u8 = 2;

/// An integrity algorithm.
pub const INTEGRITY_TRANSFORM: u8 = 3;

/// A Diffie-Hellman group.
pub const GROUP_TRANSFORM: u8 = 4;

/// Whether sequence numbers are extended.
pub const SEQUENCE_NUMBERS_TRANSFORM: u8 = 5;

/// A range of IPv4 addresses.
pub const IPV4_RANGE_TYPE: u8 = 7;

/// A range of IPv6 addresses.
pub const IPV6_RANGE_TYPE: u8 = 8;

/// Another proposal follows (section 3.3.1).
pub const MORE_PROPOSALS: u8 = 2;

/// Another transform follows (section 3.3.2).
pub const MORE_TRANSFORMS: u8 = 3;

/// The major version of IKEv2 (section 2.5).
pub const MAJOR_VERSION: u8 = 2;

/// The length of a message's header (section 3.1), in octets.
pub const HEADER_LENGTH: usize = 28;

/// The fewest octets of a nonce (section 3.9).
pub const NONCE_LEAST: usize = 16;

/// The most octets of a nonce (section 3.9).
pub const NONCE_LIMIT: usize = 256;

/// The length of the SPI of an AH or ESP SA, in octets.
pub const SPI_LENGTH: usize = 4;

/// The length of a selector that is a range of IPv4 addresses, in octets.
pub const IPV4_RANGE_LENGTH: usize = 16;

/// The length of a selector that is a range of IPv6 addresses, in octets.
pub const IPV6_RANGE_LENGTH: usize = 40;

/// The most octets of a message, a limit of this implementation.
pub const MESSAGE_LIMIT: usize = 3000;

/// The most selectors of a payload, a limit of this implementation.
pub const SELECTOR_LIMIT: usize = 16;

/// The most octets of the data of a key exchange, a limit of this implementation.
pub const KEY_EXCHANGE_LIMIT: usize = 1024;

/// The most octets of the data of an identity, a limit of this implementation.
pub const IDENTITY_LIMIT: usize = 256;

/// The most octets of the data of an authentication, a limit of this implementation.
pub const AUTHENTICATION_LIMIT: usize = 1024;

//! Why a configuration isn't made.

use thiserror::Error;

/// Why a configuration isn't made.
#[derive(Clone, Copy, Debug, PartialEq, Eq, Error)]
pub enum ConfigFault {
    /// This end's identity doesn't fit an ID payload, where it has 1 to 256 octets (RFC 7296, section 3.5).
    #[error("this end's identity has no octets, or more than 256")]
    OwnIdentity,
    /// The peer's identity doesn't.
    #[error("the peer's identity has no octets, or more than 256")]
    PeerIdentity,
    /// No replay window has so many blocks.
    #[error("the blocks of a replay window are 2, 4, 8, 16, 32, 64 or 128")]
    Blocks,
    /// The window of requests isn't one of 1 to 16 (RFC 7296, section 2.3).
    #[error("the window of requests is not one of 1 to 16")]
    Window,
}

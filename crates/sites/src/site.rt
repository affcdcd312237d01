//! One gateway.

/// A gateway, by what tells its datagrams from those of the others.
#[derive(Clone, Copy, Debug, PartialEq, Eq)]
pub struct Site {
    /// The caller's own name of it.
    pub key: u32,
    /// The IPv4 address of its peer.
    pub peer: [u8; 4],
    /// The first of the 65,536 inbound SPIs of ESP that it gives, from 256 to 2^32 - 65,536.
    pub start: u32,
}

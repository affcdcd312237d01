//! What scripts call the two ends.
pub use gateway::End as Side;

/// The end that a word names, if any.
pub fn named(word: &[u8]) -> Option<Side> {
    match word {
        b"A" => Some(Side::A),
        b"B" => Some(Side::B),
        _ => None,
    }
}

/// An end's IPv4 address, as its four octets stand in a packet.
pub fn address(side: Side) -> [u8; 4] {
    match side {
        Side::A => [192, 0, 2, 1],
        Side::B => [192, 0, 2, 2],
    }
}

/// An end's name (RFC 7296 section 3.5, ID_FQDN).
pub fn name(side: Side) -> [u8; 9] {
    match side {
        Side::A => *b"a.example",
        Side::B => *b"b.example",
    }
}

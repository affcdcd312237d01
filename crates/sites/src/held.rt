//! IKE SAs that gateways hold.

/// An IKE SA that a gateway holds, by its SPIs (RFC 7296 section 3.1).
#[derive(Clone, Copy, Debug, PartialEq, Eq)]
pub struct Held {
    /// The caller's own name of the gateway.
    pub key: u32,
    /// The initiator's SPI.
    pub spi_i: u64,
    /// The responder's SPI.
    pub spi_r: u64,
}

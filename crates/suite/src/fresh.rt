//! Octets that the caller makes anew for a step.
use std::fmt;

/// Random numbers of the caller for one step. No other step is to have them; nothing here checks it.
#[derive(Clone, Copy)]
pub struct Fresh {
    /// The SPI of an IKE SA that the step may make; 0 names none (RFC 7296, section 3.1).
    pub spi: u64,
    /// The nonce of an exchange, 32 octets (section 2.10).
    pub nonce: [u8; 32],
    /// The secret of a key agreement (section 2.14).
    pub secret: [u8; 32],
    /// What sealing a message uses, as an initialization vector (section 3.14).
    pub seal: [u8; 16],
}

// Shows no octet, since the secret is one.
impl fmt::Debug for Fresh {
    ghost use Rattle.std.specs.Prelude.{Some, codes};

    ghost debug_output = { λ _. Some (codes "Fresh { .. }") };

    fn fmt<W: fmt::Write>(&self, f: &mut fmt::Formatter<W>) -> fmt::Result {
        f.write_str("Fresh { .. }")
    }
}

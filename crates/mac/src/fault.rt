//! The refusal of this crate.
ghost use Rattle.std.specs.Prelude.{◌≡◌};

use thiserror::Error;

/// Why a call was refused.
#[derive(Clone, Copy, Debug, PartialEq, Eq, Error)]
pub enum MacFault {
    /// More than 8160 octets were asked of prf+, which numbers its blocks of 32 octets in one octet
    /// (RFC 7296, section 2.13).
    #[error("E11: prf+ gives no more than 8160 octets")]
    TooMuch,
}

impl MacFault {
    /// The refusal's number, as programs print it behind `E`.
    pub fn code(self) -> u8
        ensures { result ≡ 11 }
    {
        match self {
            MacFault::TooMuch => 11,
        }
    }
}

//! The refusals of this crate.
ghost use Rattle.std.specs.Prelude.{◌≡◌};
ghost use Rattle.requests.specs.Faults.{code_of};

use thiserror::Error;

/// Why no request is issued.
#[derive(Clone, Copy, Debug, PartialEq, Eq, Error)]
pub enum RequestFault {
    /// There was no memory for one more request. Nothing was changed.
    #[error("E10: no memory")]
    Memory,
    /// The next Message ID lies at the end of the peer's window, which begins at the least unanswered Message
    /// ID, or above it (RFC 7296 section 2.3). What was given up stays unanswered.
    #[error("E35: the peer's window is full")]
    Busy,
    /// All Message IDs up to 2^32 - 1 were issued (RFC 7296 section 2.2).
    #[error("E36: the request numbers are spent")]
    NumbersSpent,
}

impl RequestFault {
    /// The refusal's number, as programs print it behind `E`.
    pub fn code(self) -> u8
        ensures { result ≡ code_of self }
    {
        match self {
            RequestFault::Memory => 10,
            RequestFault::Busy => 35,
            RequestFault::NumbersSpent => 36,
        }
    }
}

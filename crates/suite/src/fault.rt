//! The refusal of this crate.
ghost use Rattle.std.specs.Prelude.{◌≡◌};

use thiserror::Error;

/// Why a call was refused.
#[derive(Clone, Copy, Debug, PartialEq, Eq, Error)]
pub enum SuiteFault {
    /// There was no memory. Nothing was changed.
    #[error("E10: no memory")]
    Memory,
}

impl SuiteFault {
    /// The refusal's number, as programs print it behind `E`.
    pub fn code(self) -> u8
        ensures { result ≡ 10 }
    {
        match self {
            SuiteFault::Memory => 10,
        }
    }
}

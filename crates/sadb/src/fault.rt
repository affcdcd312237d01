//! The refusals of this crate.
ghost use Rattle.std.specs.Prelude.{◌≡◌};
ghost use Rattle.sadb.specs.Faults.{code_of_table_fault};

use thiserror::Error;

/// Why no SPI is given.
#[derive(Clone, Copy, Debug, PartialEq, Eq, Error)]
pub enum TableFault {
    /// SA pairs and reserved SPIs together are 1024, a limit of this implementation.
    #[error("E25: the table is full")]
    Full,
    /// All 65,536 SPIs were given, a limit of this implementation. None is ever given twice.
    #[error("E26: the inbound SPIs are spent")]
    Spent,
    /// There was no memory for one more SA pair. Nothing was changed.
    #[error("E27: no memory")]
    Memory,
}

impl TableFault {
    /// The refusal's number, as programs print it behind `E`.
    pub fn code(self) -> u8
        ensures { result ≡ code_of_table_fault self }
    {
        match self {
            TableFault::Full => 25,
            TableFault::Spent => 26,
            TableFault::Memory => 27,
        }
    }
}

/// Why a number can't be the first inbound SPI of a table.
#[derive(Clone, Copy, Debug, PartialEq, Eq, Error)]
pub enum SpiFault {
    /// It is one of 0 to 255, which are reserved (RFC 4303, section 2.1).
    #[error("the first SPI is below 256, where SPIs are reserved")]
    Reserved,
    /// A table gives up to 65,536 SPIs from the first on, and so many don't fit 32 bits.
    #[error("the first SPI is above 2^32 - 65,536, so that the SPIs don't fit 32 bits")]
    TooHigh,
}

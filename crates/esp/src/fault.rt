//! The refusals of this crate.
ghost use Rattle.std.specs.Prelude.{◌≡◌};
ghost use Rattle.esp.specs.Faults.{code_of_esp_fault};

use std::fmt::{Debug, Display};
use thiserror::Error;

/// Why a packet was not sealed or not opened.
#[derive(Clone, Copy, Debug, PartialEq, Eq, Error)]
pub enum EspFault {
    /// The SA's last sequence number was used; it seals no more (RFC 4303 section 3.3.3).
    #[error("E12: the sequence numbers are exhausted")]
    Exhausted,
    /// The payload has more than 16,384 octets.
    #[error("E13: the payload has more than 16384 octets")]
    PayloadSize,
    /// The packet's length is not a multiple of 4, or below 28 or above 16,664 octets.
    #[error("E14: the packet's length is not that of a packet")]
    BadLength,
    /// The packet's sequence number lies below the replay window.
    #[error("E15: the number lies below the replay window")]
    Old,
    /// The packet's sequence number was taken already.
    #[error("E16: the number was taken already")]
    Replayed,
    /// The packet has no sequence number: without ESN its low half is 0; with it nothing is recovered from it
    /// (RFC 4303 appendix A2).
    #[error("E17: the packet has no sequence number")]
    BadNumber,
    /// The ICV is not that of the octets before it.
    #[error("E18: the check value is wrong")]
    BadIcv,
    /// The padding is not 1, 2, .. or doesn't fit. The packet's sequence number stays taken.
    #[error("E19: the padding is wrong")]
    BadPadding,
    /// There was no memory for the packet to be sealed, or for the sequence number in the replay window.
    /// Nothing was changed.
    #[error("E20: no memory")]
    Memory,
}

impl EspFault {
    /// The refusal's number, as programs print it behind `E`.
    pub fn code(self) -> u8
        ensures { result ≡ code_of_esp_fault self }
    {
        match self {
            EspFault::Exhausted => 12,
            EspFault::PayloadSize => 13,
            EspFault::BadLength => 14,
            EspFault::Old => 15,
            EspFault::Replayed => 16,
            EspFault::BadNumber => 17,
            EspFault::BadIcv => 18,
            EspFault::BadPadding => 19,
            EspFault::Memory => 20,
        }
    }
}

/// Why the next packet of a list was not opened.
#[derive(Clone, Copy, Debug, PartialEq, Eq, Error)]
pub enum ListFault {
    /// There was no memory for one more answer.
    #[error("E38: no room for an answer")]
    NoRoom,
}

impl ListFault {
    /// The refusal's number, as programs print it behind `E`.
    pub fn code(self) -> u8
        ensures { result ≡ 38 }
    {
        match self {
            ListFault::NoRoom => 38,
        }
    }
}

/// How far a list came that was not sealed or opened to its end, and why it went no further. Sealing stops
/// with an [`EspFault`], opening with a [`ListFault`].
#[derive(Clone, Copy, Debug, PartialEq, Eq, Error)]
#[error_bound(F: Debug + Display)]
#[error("{fault}, after {done} packets")]
pub struct ListStop<F> {
    /// So many were sealed, or opened and answered, and none after them.
    pub done: usize,
    /// Why the next one was not.
    pub fault: F,
}

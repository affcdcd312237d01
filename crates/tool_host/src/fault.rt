//! Why a frame is refused, and why the program ends before its input does.
use gateway::{ConfigFault, PolicyFault};
use sadb::SpiFault;
use std::alloc::{AllocError, AllocFailed};
use thiserror::Error;

/// Why the body of a frame spells nothing.
#[derive(Clone, Copy, Debug, PartialEq, Eq, Error)]
pub enum FrameFault {
    /// No input has this kind.
    #[error("an unknown kind")]
    Kind,
    /// It has fewer octets than its fields.
    #[error("too few octets")]
    Short,
    /// Octets are left behind its last field.
    #[error("octets left over")]
    Left,
}

/// Why the first frame makes no gateway.
#[derive(Clone, Copy, Debug, PartialEq, Eq, Error)]
pub enum SettingsFault {
    /// It is no configuration, or its fields don't fit.
    #[error("{0}")]
    Frame(#[from] FrameFault),
    /// The action of an entry isn't 0, 1 or 2.
    #[error("an entry of no known action")]
    Action,
    /// The family of an entry isn't 4 or 6.
    #[error("an entry of no known family")]
    Family,
    /// The inbound SPIs can't begin so.
    #[error("{0}")]
    Spi(#[from] SpiFault),
    /// An identity, the window or the blocks can't be used.
    #[error("{0}")]
    Config(#[from] ConfigFault),
    /// An entry can't be used.
    #[error("{0}")]
    Policy(#[from] PolicyFault),
    /// There was no memory.
    #[error("out of memory")]
    Memory,
}

impl From<AllocError> for SettingsFault {
    fn from(_: AllocError) -> SettingsFault {
        SettingsFault::Memory
    }
}

impl<T: Drop> From<AllocFailed<T>> for SettingsFault {
    fn from(_: AllocFailed<T>) -> SettingsFault {
        SettingsFault::Memory
    }
}

/// Why the program ends before its input does.
#[derive(Clone, Copy, Debug, PartialEq, Eq, Error)]
pub enum Stop {
    /// The input ends inside a frame.
    #[error("the input ends inside a frame")]
    Cut,
    /// A frame has no kind, or more than [`FRAME_LIMIT`](crate::frames::FRAME_LIMIT) octets.
    #[error("a frame of no octets, or of more than 1,048,576")]
    Size,
    /// The first frame makes no gateway.
    #[error("the configuration is refused: {0}")]
    Settings(#[from] SettingsFault),
    /// The input can't be read.
    #[error("the input can't be read")]
    Unread,
    /// The output can't be written.
    #[error("the output can't be written")]
    Unwritten,
    /// There was no memory for a frame.
    #[error("out of memory")]
    Memory,
}

impl From<AllocError> for Stop {
    fn from(_: AllocError) -> Stop {
        Stop::Memory
    }
}

impl<T: Drop> From<AllocFailed<T>> for Stop {
    fn from(_: AllocFailed<T>) -> Stop {
        Stop::Memory
    }
}

impl Stop {
    /// The exit status: 2 where the input is at fault, 1 otherwise.
    pub fn status(self) -> u8 {
        match self {
            Stop::Cut | Stop::Size | Stop::Settings(_) => 2,
            Stop::Unread | Stop::Unwritten | Stop::Memory => 1,
        }
    }
}

//! Why this crate refuses an input.
ghost use Rattle.std.specs.Prelude.{◌≡◌};
ghost use Rattle.gateway.specs.Faults.{code_of_reason};

use ike::IkeFault;
use thiserror::Error;
use traffic::PacketFault;

/// Why an input is refused, or what came is dropped.
#[derive(Clone, Copy, Debug, PartialEq, Eq, Error)]
pub enum Reason {
    /// The IKE machine refused or dropped it, for this reason.
    #[error("{0}")]
    Ike(IkeFault),
    /// The packet path dropped it, for this reason.
    #[error("{0}")]
    Packet(PacketFault),
    /// There was no memory for the ESP packet that an outbound packet needs.
    #[error("E20: no memory for the packet")]
    Memory,
}

impl Reason {
    /// The error code: the number that programs print behind `E`.
    pub fn code(self) -> u8
        ensures { result ≡ code_of_reason self }
    {
        match self {
            Reason::Ike(fault) => fault.code(),
            Reason::Packet(fault) => fault.code(),
            Reason::Memory => 20,
        }
    }
}

/// Why a list of inputs was not taken to its end.
#[derive(Clone, Copy, Debug, PartialEq, Eq, Error)]
pub enum RunFault {
    /// There was no memory for one more output or, in a [`World`](crate::World), for what is stored of one
    /// more event.
    #[error("E38: no room after {done} inputs")]
    NoRoom {
        /// How many inputs or events were taken, each with its output. Those after them were not touched.
        done: usize,
    },
}

impl RunFault {
    /// The error code: the number that programs print behind `E`.
    pub fn code(self) -> u8
        ensures { result ≡ 38 }
    {
        match self {
            RunFault::NoRoom { .. } => 38,
        }
    }
}

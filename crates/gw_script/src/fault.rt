//! Why a line of a script stops the program.
use gateway::RunFault;
use replay::ReplayFault;
use std::alloc::AllocError;

/// Why a line is not played.
#[derive(Clone, Copy, Debug, PartialEq, Eq)]
pub enum LineFault {
    /// It is no directive, or none that can be followed here.
    Refused,
    /// There was no memory for the program's own work.
    Memory,
}

impl From<AllocError> for LineFault {
    fn from(_: AllocError) -> LineFault {
        LineFault::Memory
    }
}

impl From<ReplayFault> for LineFault {
    fn from(fault: ReplayFault) -> LineFault {
        match fault {
            ReplayFault::Memory => LineFault::Memory,
        }
    }
}

impl From<RunFault> for LineFault {
    fn from(fault: RunFault) -> LineFault {
        match fault {
            RunFault::NoRoom { .. } => LineFault::Memory,
        }
    }
}

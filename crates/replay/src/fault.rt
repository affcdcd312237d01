//! The refusals of this crate.
ghost use Rattle.std.specs.Prelude.{◌≡◌};
ghost use Rattle.replay.specs.Faults.{code_of_replay_fault};

use thiserror::Error;

/// Why a window refused.
#[derive(Clone, Copy, Debug, PartialEq, Eq, Error)]
pub enum ReplayFault {
    /// There was no memory for one more sequence number. The window is as it was.
    #[error("E20: no memory for the replay window")]
    Memory,
}

impl ReplayFault {
    /// The refusal's number, as programs print it behind `E`.
    pub fn code(self) -> u8
        ensures { result ≡ code_of_replay_fault self }
    {
        match self {
            ReplayFault::Memory => 20,
        }
    }
}

//! The refusals of this crate, each an allocation failure.
ghost use Rattle.std.specs.Prelude.{◌≡◌};
ghost use Rattle.children.specs.Faults.{code_of_memory_fault};

use std::alloc::AllocError;
use thiserror::Error;

/// For what there was no memory.
#[derive(Clone, Copy, Debug, PartialEq, Eq, Error)]
pub enum MemoryFault {
    /// There was no memory for the payloads.
    #[error("E10: no memory")]
    Message,
    /// There was no memory for the replay window.
    #[error("E20: no memory for the replay window")]
    Window,
    /// There was no memory for selectors, narrowed or kept with the SA pair.
    #[error("E24: no memory for the selectors")]
    Narrowing,
    /// There was no memory for one more SA pair in the table.
    #[error("E27: no memory for the table")]
    Table,
}

impl MemoryFault {
    /// The refusal's number, as programs print it behind `E`.
    pub fn code(self) -> u8
        ensures { result ≡ code_of_memory_fault self }
    {
        match self {
            MemoryFault::Message => 10,
            MemoryFault::Window => 20,
            MemoryFault::Narrowing => 24,
            MemoryFault::Table => 27,
        }
    }
}

impl From<AllocError> for MemoryFault {
    ghost use Rattle.std.specs.Prelude.{◌≡◌};
    ghost use Rattle.children.specs.declared.fault.MemoryFault.TheVariants.{Message};

    ghost from_gives = { λ _ e. e ≡ Message };

    fn from(_refused: AllocError) -> MemoryFault {
        MemoryFault::Message
    }
}

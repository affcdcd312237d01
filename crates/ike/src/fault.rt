//! Why a step is refused, or what came is dropped.
ghost use Rattle.std.specs.Prelude.{◌≡◌};
ghost use Rattle.ike.specs.Faults.{code_of_ike_fault};

use association::{MessageFault, OrderFault};
use children::MemoryFault;
use sadb::TableFault;
use std::alloc::AllocError;
use thiserror::Error;
use wire::WireFault;

/// Why a step is refused, or what came is dropped. Then nothing changes.
#[derive(Clone, Copy, Debug, PartialEq, Eq, Error)]
pub enum IkeFault {
    /// A datagram is no well-formed message of IKE.
    #[error("{0}")]
    Unread(WireFault),
    /// A message is for no IKE SA that is held, or isn't allowed there in its present state.
    #[error("{0}")]
    Message(MessageFault),
    /// No entry of the policy that protects has this number.
    #[error("E23: no entry that protects")]
    Unprotected,
    /// 128 IKE SAs are held, a limit of this implementation.
    #[error("E25: 128 IKE associations are held")]
    Crowded,
    /// The table of SA pairs for ESP is full.
    #[error("E25: the table is full")]
    TableFull,
    /// All inbound SPIs of that table were given.
    #[error("E26: the inbound SPIs are spent")]
    SpisSpent,
    /// 32 IKE SAs are half open, or 128 are held; limits of this implementation.
    #[error("E34: too many associations are half open or held")]
    HalfOpenFull,
    /// As many requests of the IKE SA are outstanding as the peer's window allows (RFC 7296, section 2.3),
    /// or one that deletes it.
    #[error("E35: the peer's window is full, or the association is being deleted")]
    Busy,
    /// No serial, no version of the cookies' secrets, or no Message ID of the IKE SA is left.
    #[error("E36: the numbers are spent")]
    NumbersSpent,
    /// The fresh SPI is zero, or this end uses it already.
    #[error("E37: the fresh SPI is zero or in use")]
    BadFresh,
    /// There was no memory.
    #[error("{0}")]
    Memory(MemoryFault),
}

impl IkeFault {
    /// The error code: the number that programs print behind `E`.
    pub fn code(self) -> u8
        ensures { result ≡ code_of_ike_fault self }
    {
        match self {
            IkeFault::Unread(fault) => fault.code(),
            IkeFault::Message(fault) => fault.code(),
            IkeFault::Unprotected => 23,
            IkeFault::Crowded | IkeFault::TableFull => 25,
            IkeFault::SpisSpent => 26,
            IkeFault::HalfOpenFull => 34,
            IkeFault::Busy => 35,
            IkeFault::NumbersSpent => 36,
            IkeFault::BadFresh => 37,
            IkeFault::Memory(fault) => fault.code(),
        }
    }
}

impl From<MemoryFault> for IkeFault {
    ghost use Rattle.std.specs.Prelude.{◌≡◌};
    ghost use Rattle.ike.specs.declared.fault.IkeFault.TheVariants.{Memory};

    ghost from_gives = { λ f e. e ≡ Memory f };

    fn from(fault: MemoryFault) -> IkeFault {
        IkeFault::Memory(fault)
    }
}

impl From<AllocError> for IkeFault {
    ghost use Rattle.std.specs.Prelude.{◌≡◌};
    ghost use Rattle.children.specs.declared.fault.MemoryFault.TheVariants.{Message};
    ghost use Rattle.ike.specs.declared.fault.IkeFault.TheVariants.{Memory};

    ghost from_gives = { λ _ e. e ≡ Memory Message };

    fn from(_refused: AllocError) -> IkeFault {
        IkeFault::Memory(MemoryFault::Message)
    }
}

impl From<TableFault> for IkeFault {
    ghost use Rattle.std.specs.Prelude.{◌≡◌};
    ghost use Rattle.ike.specs.Faults.{fault_of_table};

    ghost from_gives = { λ f e. e ≡ fault_of_table f };

    fn from(fault: TableFault) -> IkeFault {
        match fault {
            TableFault::Full => IkeFault::TableFull,
            TableFault::Spent => IkeFault::SpisSpent,
            TableFault::Memory => IkeFault::Memory(MemoryFault::Table),
        }
    }
}

impl From<OrderFault> for IkeFault {
    ghost use Rattle.std.specs.Prelude.{◌≡◌};
    ghost use Rattle.ike.specs.Asking.{fault_of_order};

    ghost from_gives = { λ f e. e ≡ fault_of_order f };

    fn from(fault: OrderFault) -> IkeFault {
        match fault {
            OrderFault::WrongPhase => IkeFault::Message(MessageFault::WrongPhase),
            OrderFault::Busy => IkeFault::Busy,
            OrderFault::NumbersSpent => IkeFault::NumbersSpent,
            OrderFault::TableFull => IkeFault::TableFull,
            OrderFault::SpisSpent => IkeFault::SpisSpent,
            OrderFault::TableMemory => IkeFault::Memory(MemoryFault::Table),
            OrderFault::Memory => IkeFault::Memory(MemoryFault::Message),
        }
    }
}

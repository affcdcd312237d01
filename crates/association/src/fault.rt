//! Why a message is dropped, and why a command is refused.
ghost use Rattle.std.specs.Prelude.{◌≡◌};
ghost use Rattle.association.specs.Faults.{code_of_message_fault, code_of_order_fault};

use sadb::TableFault;
use std::alloc::AllocError;
use thiserror::Error;

/// Why a message that was read is dropped, with nothing changed.
#[derive(Clone, Copy, Debug, PartialEq, Eq, Error)]
pub enum MessageFault {
    /// No IKE SA has its pair of SPIs.
    #[error("E28: no association has these SPIs")]
    UnknownAssociation,
    /// It has not one encrypted payload and no other, or that doesn't open under the peer's keys, or there
    /// are none yet (RFC 7296, section 3.14).
    #[error("E29: the message doesn't open")]
    NotOpened,
    /// A request that was processed, and whose response is cached no more (section 2.1).
    #[error("E30: the request was answered, and its reply is kept no more")]
    Forgotten,
    /// A request whose Message ID lies past the window, or a response to none that is outstanding (section
    /// 2.3).
    #[error("E31: the number lies outside the window")]
    OutsideWindow,
    /// The IKE SA is in a phase, or has a request outstanding, to which this message doesn't belong.
    #[error("E32: the association is in another phase, or this message is not due to it")]
    WrongPhase,
    /// The flag I doesn't fit the IKE SA: the message claims the role that this end has (section 3.1).
    #[error("E33: the message claims the role of this end")]
    WrongRole,
}

impl MessageFault {
    /// The number of the error code, as programs print it behind `E`.
    pub fn code(self) -> u8
        ensures { result ≡ code_of_message_fault self }
    {
        match self {
            MessageFault::UnknownAssociation => 28,
            MessageFault::NotOpened => 29,
            MessageFault::Forgotten => 30,
            MessageFault::OutsideWindow => 31,
            MessageFault::WrongPhase => 32,
            MessageFault::WrongRole => 33,
        }
    }
}

/// Why a command on an IKE SA is refused, with nothing changed but the table's spare capacity.
#[derive(Clone, Copy, Debug, PartialEq, Eq, Error)]
pub enum OrderFault {
    /// The IKE SA is not established.
    #[error("E32: the association is in another phase")]
    WrongPhase,
    /// So many requests wait for an answer as the peer takes at once (RFC 7296, section 2.3), or one to
    /// delete the IKE SA does.
    #[error("E35: the peer's window is full, or the association is being deleted")]
    Busy,
    /// All Message IDs of the IKE SA were issued (RFC 7296, section 2.2).
    #[error("E36: the numbers are spent")]
    NumbersSpent,
    /// The table holds 1024 SA pairs and reserved SPIs, so no additional Child SA is asked for.
    #[error("E25: the table is full")]
    TableFull,
    /// The table gave 65,536 SPIs, so no additional Child SA is asked for.
    #[error("E26: the SPIs are spent")]
    SpisSpent,
    /// There was no memory for one more SA pair in the table.
    #[error("E27: no memory for the table")]
    TableMemory,
    /// There was no memory for the request.
    #[error("E10: no memory")]
    Memory,
}

impl OrderFault {
    /// The number of the error code, as programs print it behind `E`.
    pub fn code(self) -> u8
        ensures { result ≡ code_of_order_fault self }
    {
        match self {
            OrderFault::WrongPhase => 32,
            OrderFault::Busy => 35,
            OrderFault::NumbersSpent => 36,
            OrderFault::TableFull => 25,
            OrderFault::SpisSpent => 26,
            OrderFault::TableMemory => 27,
            OrderFault::Memory => 10,
        }
    }
}

impl From<AllocError> for OrderFault {
    ghost use Rattle.std.specs.Prelude.{◌≡◌};
    ghost use Rattle.association.specs.declared.fault.OrderFault.TheVariants.{Memory};

    ghost from_gives = { λ _ e. e ≡ Memory };

    fn from(_refused: AllocError) -> OrderFault {
        OrderFault::Memory
    }
}

/// Why the table gives no SPI for a Child SA.
impl From<TableFault> for OrderFault {
    ghost use Rattle.std.specs.Prelude.{◌≡◌};
    ghost use Rattle.association.specs.Faults.{fault_of_table};

    ghost from_gives = { λ fault e. e ≡ fault_of_table fault };

    fn from(fault: TableFault) -> OrderFault {
        match fault {
            TableFault::Full => OrderFault::TableFull,
            TableFault::Spent => OrderFault::SpisSpent,
            TableFault::Memory => OrderFault::TableMemory,
        }
    }
}

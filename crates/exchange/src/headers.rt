//! The headers of messages that are sent (RFC 7296, section 3.1).
ghost use Rattle.std.specs.Prelude.{◌≡◌};
ghost use Rattle.exchange.specs.Headers.{is_initiator, keys_of, other_role, sent_header};

use suite::{KeyRecord, Keys};
use wire::{Flags, Header};

/// Which of the two ends one is: that which began, or that which answered. An IKE SA keeps the roles of its
/// first exchange (RFC 7296, section 2.2); each exchange under it has its own.
#[derive(Clone, Copy, Debug, PartialEq, Eq)]
pub enum Role {
    Initiator,
    Responder,
}

impl Role {
    /// Whether it is that which began.
    pub fn is_initiator(self) -> bool
        ensures { result ≡ is_initiator self }
    {
        self == Role::Initiator
    }

    /// The role of the other end.
    pub fn other(self) -> Role
        ensures { result ≡ other_role self }
    {
        match self {
            Role::Initiator => Role::Responder,
            Role::Responder => Role::Initiator,
        }
    }

    /// The keys under which the end of this role seals, of an IKE SA that has these (RFC 7296, section 2.14).
    pub fn keys(self, keys: &KeyRecord) -> Keys
        ensures { result ≡ keys_of self keys.now }
    {
        match self {
            Role::Initiator => keys.initiator_keys(),
            Role::Responder => keys.responder_keys(),
        }
    }
}

/// The header of a message that an end of this role sends: version 2.0, the flag V clear, the flag I where
/// the end is the IKE SA's original initiator, the flag R in responses alone (RFC 7296, section 3.1).
pub fn sent_header(
    spi_i: u64,
    spi_r: u64,
    exchange: u8,
    sender: Role,
    response: bool,
    id: u32,
) -> Header
    ensures { result ≡ sent_header spi_i spi_r exchange sender response id }
{
    Header {
        spi_i,
        spi_r,
        minor: 0,
        exchange,
        flags: Flags {
            initiator: sender.is_initiator(),
            version: false,
            response,
        },
        id,
    }
}

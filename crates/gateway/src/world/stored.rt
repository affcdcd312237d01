//! What is stored of two gateways.
ghost use Rattle.std.specs.Prelude.{◌≡◌};
ghost use Rattle.gateway.specs.Worlds.{other_end};

use crate::Input;
use base::{Items, Selector};
use suite::KeyRecord;

/// One of two ends.
#[derive(Clone, Copy, Debug, PartialEq, Eq)]
pub enum End {
    A,
    B,
}

impl End {
    /// The other end.
    pub fn other(self) -> End
        ensures { result ≡ other_end self }
    {
        match self {
            End::A => End::B,
            End::B => End::A,
        }
    }
}

/// An input for one of the two ends. It may be any input at any time: a datagram that the other end sent,
/// or not.
#[derive(Clone, Copy, Drop)]
pub struct Event<'a> {
    pub end: End,
    pub input: Input<'a>,
}

/// One direction of a Child SA: the SA that its packets name by their SPI (RFC 4301, section 4.1).
#[derive(Clone, Copy, PartialEq, Eq)]
pub struct Simplex {
    pub spi: u32,
    /// The key of the ICVs.
    pub key: [u8; 32],
    /// Whether it has extended sequence numbers (ESN), of 64 bits.
    pub extended: bool,
}

/// What protects a datagram.
#[derive(Drop)]
pub enum Protection {
    /// Nothing: it is a message of IKE_SA_INIT.
    Plain,
    /// The keys of an IKE SA.
    Ike {
        keys: KeyRecord,
        /// Whether it is a response.
        response: bool,
        /// The Message ID: of the request that it is or answers.
        number: u32,
    },
    /// A Child SA's outbound SA, under this sequence number.
    Esp {
        by: Simplex,
        number: u64,
    },
}

/// A datagram that was sent.
#[derive(Drop)]
pub struct Datagram {
    /// The end that sent it.
    pub end: End,
    pub mark: Protection,
    pub octets: Items<u8>,
}

/// A key record that an end made.
#[derive(Drop)]
pub struct Keyed {
    pub end: End,
    pub keys: KeyRecord,
}

/// A Child SA that an end made.
#[derive(Drop)]
pub struct Child {
    pub end: End,
    /// The serial of its pair at that end.
    pub serial: u32,
    /// The keys of the IKE SA that made it.
    pub keys: KeyRecord,
    /// Whether this end asked for it.
    pub asked: bool,
    /// The Message ID of the request that asked for it.
    pub number: u32,
    pub inbound: Simplex,
    pub outbound: Simplex,
    /// The selectors of this end's side.
    pub local: Items<Selector>,
    /// The selectors of the other end's side.
    pub remote: Items<Selector>,
}

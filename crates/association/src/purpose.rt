//! What an end's request asks for.
ghost use Rattle.std.specs.Prelude.{◌≡◌};
ghost use Rattle.association.specs.Purposes.{asks_for_child, asks_to_end, exchange_of, sought_of, spi_asked};

use crate::AskedChild;
use children::Asked;
use sadb::Spi;
use wire::numbers::{CREATE_CHILD_SA, IKE_AUTH, IKE_SA_INIT, INFORMATIONAL};

/// What a request of this end asks for (RFC 7296, section 1).
#[derive(Drop)]
pub enum Purpose {
    /// An IKE SA, by IKE_SA_INIT (section 1.2).
    Begin,
    /// To know this end, and the first Child SA, by IKE_AUTH (section 1.2).
    Identify,
    /// An additional Child SA, by CREATE_CHILD_SA (section 1.3.1).
    CreateChild(FurtherChild),
    /// Whether the peer is there, by an empty request of INFORMATIONAL (section 2.4).
    Probe,
    /// The end of a Child SA (section 1.4.1).
    DeleteChild {
        /// The serial of its SA pair in the table.
        child: u32,
    },
    /// The end of the IKE SA with all its Child SAs (section 1.4.1).
    DeleteAssociation,
}

/// A Child SA that this end asked for by an exchange of its own (RFC 7296, section 1.3.1).
#[derive(Drop)]
pub struct FurtherChild {
    /// What was asked for.
    pub child: AskedChild,
    /// The nonce of the request, for the Child SA's keys (section 2.17).
    pub nonce: [u8; 32],
}

/// What an answer is read by: what its request asked for. It is a copy, since the request stands until its
/// answer is read.
#[derive(Clone, Copy, Debug)]
pub enum Sought {
    /// To know this end, and the first Child SA, by IKE_AUTH (RFC 7296, section 1.2).
    Identity,
    /// An additional Child SA, by CREATE_CHILD_SA (section 1.3.1).
    Child {
        /// What was asked for.
        asked: Asked,
        /// The nonce of the request, for the Child SA's keys (section 2.17).
        nonce: [u8; 32],
    },
    /// Anything else. Its answer is read without it.
    Other,
}

impl Purpose {
    /// What its answer is read by.
    pub fn sought(&self) -> Sought
        ensures { result ≡ sought_of self.now }
    {
        match self {
            Purpose::Identify => Sought::Identity,
            Purpose::CreateChild(further) => Sought::Child {
                asked: further.child.asked(),
                nonce: further.nonce,
            },
            Purpose::Begin => Sought::Other,
            Purpose::Probe => Sought::Other,
            Purpose::DeleteChild { .. } => Sought::Other,
            Purpose::DeleteAssociation => Sought::Other,
        }
    }

    /// The exchange type of the request, which its answer has too (RFC 7296, section 3.1).
    pub fn exchange(&self) -> u8
        ensures { result ≡ exchange_of self.now }
    {
        match self {
            Purpose::Begin => IKE_SA_INIT,
            Purpose::Identify => IKE_AUTH,
            Purpose::CreateChild(_) => CREATE_CHILD_SA,
            Purpose::Probe => INFORMATIONAL,
            Purpose::DeleteChild { .. } => INFORMATIONAL,
            Purpose::DeleteAssociation => INFORMATIONAL,
        }
    }

    /// Whether it is the end of the IKE SA.
    pub fn asks_to_end(&self) -> bool
        ensures { result ≡ asks_to_end self.now }
    {
        match self {
            Purpose::DeleteAssociation => true,
            _ => false,
        }
    }

    /// Whether it is an additional Child SA.
    pub fn asks_for_child(&self) -> bool
        ensures { result ≡ asks_for_child self.now }
    {
        match self {
            Purpose::CreateChild(_) => true,
            _ => false,
        }
    }

    /// The SPI of the Child SA that it is, which is to be given back to the table.
    pub fn into_spi(self) -> Option<Spi>
        ensures { result ≡ spi_asked self }
    {
        match self {
            Purpose::CreateChild(further) => Some(further.child.into_spi()),
            _ => None,
        }
    }
}

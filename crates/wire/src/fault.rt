//! Why a message is not read or not written.
ghost use Rattle.std.specs.Prelude.{◌≡◌};
ghost use Rattle.wire.specs.Fault.{fault_number, fault_offset};
ghost use Rattle.wire.specs.Refusals.{fault_of_type};

use crate::numbers::{
    AUTH_TYPE, DELETE_TYPE, ID_I_TYPE, ID_R_TYPE, KE_TYPE, NONCE_TYPE, NOTIFY_TYPE, SA_TYPE,
    TS_I_TYPE, TS_R_TYPE,
};
use std::alloc::{AllocError, AllocFailed};
use thiserror::Error;

/// A refusal. An offset counts octets from the first of the message, or of the slice given to
/// [`decode_chain`](crate::decode_chain), to the first octet of the payload that is at fault.
#[derive(Clone, Copy, Debug, PartialEq, Eq, Error)]
pub enum WireFault {
    /// Fewer than 28 octets, which the header has (RFC 7296 section 3.1).
    #[error("E1: fewer octets than a header has")]
    Short,
    /// The length field is not the datagram's length.
    #[error("E2: the length field is not the length of the datagram")]
    BadLength,
    /// The major version is not 2; in encoding, the minor version is above 15.
    #[error("E3: the version is not supported")]
    BadVersion,
    /// In decoding: too few octets are left for a payload's header or for the length that it tells, or that
    /// length doesn't cover the header's own 4 octets. The octets end although a next payload is announced,
    /// or go on although none is (RFC 7296 section 3.2). Octets follow an encrypted payload (section 3.14);
    /// [`decode_chain`](crate::decode_chain) allows no encrypted payload at all. In encoding: an encrypted
    /// payload is not the last, a skipped, unknown or encrypted one is too long for its length field, or an
    /// unknown one has the type 0 or a type with a form of its own.
    #[error("E4 at {offset}: the chain of payloads is broken")]
    BadChain { offset: usize },
    /// The inside of an SA payload (RFC 7296 section 3.3): a length or a count is wrong, no proposal is there,
    /// a lone one has the number 0, or several have other numbers than 1, 2, 3 and so on.
    #[error("E5 at {offset}: a proposal is malformed")]
    BadProposal { offset: usize },
    /// The inside of a payload of traffic selectors (RFC 7296 section 3.13): a length or the count is wrong,
    /// there are none or more than 16, one is no range of IPv4 or IPv6 addresses, or a start is above its
    /// end. So the ports OPAQUE (65535 to 0) are refused.
    #[error("E6 at {offset}: a traffic selector is malformed")]
    BadSelector { offset: usize },
    /// A nonce of fewer than 16 or more than 256 octets (RFC 7296 section 3.9).
    #[error("E7 at {offset}: the nonce has a wrong length")]
    BadNonce { offset: usize },
    /// The inside of a key exchange, identification, authentication, notification or deletion (RFC 7296
    /// sections 3.4, 3.5, 3.8, 3.10 and 3.11): it is too short for its fields. Or the data of one of the
    /// first three are empty, or above 1024 octets (of an identification 256). Or the count and size of a
    /// deletion's SPIs don't suit its protocol and length.
    #[error("E8 at {offset}: a field is malformed")]
    BadField { offset: usize },
    /// More than 3000 octets.
    #[error("E9: the message is too long")]
    TooLong,
    /// A growth was refused.
    #[error("E10: no memory")]
    Memory,
}

impl WireFault {
    /// The number of the refusal, 1 to 10.
    pub fn code(&self) -> u8
        ensures { result ≡ fault_number self.now }
    {
        match self {
            WireFault::Short => 1,
            WireFault::BadLength => 2,
            WireFault::BadVersion => 3,
            WireFault::BadChain { .. } => 4,
            WireFault::BadProposal { .. } => 5,
            WireFault::BadSelector { .. } => 6,
            WireFault::BadNonce { .. } => 7,
            WireFault::BadField { .. } => 8,
            WireFault::TooLong => 9,
            WireFault::Memory => 10,
        }
    }

    // The refusal of a payload of this type, which begins at the offset, that the grammar does not allow.
    pub(crate) fn of_type(kind: u8, offset: usize) -> Self
        ensures { result ≡ fault_of_type kind offset }
    {
        match kind {
            SA_TYPE => WireFault::BadProposal { offset },
            TS_I_TYPE | TS_R_TYPE => WireFault::BadSelector { offset },
            NONCE_TYPE => WireFault::BadNonce { offset },
            KE_TYPE | ID_I_TYPE | ID_R_TYPE | AUTH_TYPE | NOTIFY_TYPE | DELETE_TYPE => {
                WireFault::BadField { offset }
            }
            _ => WireFault::BadChain { offset },
        }
    }

    /// The offset of the payload at fault, where the fault lies in one.
    pub fn offset(&self) -> Option<usize>
        ensures { result ≡ fault_offset self.now }
    {
        match self {
            WireFault::BadChain { offset }
            | WireFault::BadProposal { offset }
            | WireFault::BadSelector { offset }
            | WireFault::BadNonce { offset }
            | WireFault::BadField { offset } => Some(*offset),
            _ => None,
        }
    }
}

impl From<AllocError> for WireFault {
    ghost use Rattle.std.specs.Prelude.{◌≡◌};
    ghost use Rattle.wire.specs.declared.fault.WireFault.TheVariants.{Memory};

    ghost from_gives = { λ _ e. e ≡ Memory };

    fn from(_refused: AllocError) -> WireFault {
        WireFault::Memory
    }
}

impl<T: Drop> From<AllocFailed<T>> for WireFault {
    ghost use Rattle.std.specs.Prelude.{◌≡◌};
    ghost use Rattle.wire.specs.declared.fault.WireFault.TheVariants.{Memory};

    ghost from_gives = { λ _ e. e ≡ Memory };

    fn from(_refused: AllocFailed<T>) -> WireFault {
        WireFault::Memory
    }
}

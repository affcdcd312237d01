//! The refusals of this crate.
ghost use Rattle.std.specs.Prelude.{◌≡◌};
ghost use Rattle.policy.specs.Faults.{code_of_inner_fault, code_of_narrow_fault, code_of_policy_fault, place_of_policy_fault};

use thiserror::Error;

/// Why entries are no policy.
#[derive(Clone, Copy, Debug, PartialEq, Eq, Error)]
pub enum PolicyFault {
    /// The first entry, counted from 0, with a range that ends below its start or with sides of two
    /// families, or the one that comes after 256 others.
    #[error("E6: policy entry {index} is at fault")]
    BadEntry { index: usize },
}

impl PolicyFault {
    /// The refusal's number, as programs print it behind `E`.
    pub fn code(self) -> u8
        ensures { result ≡ code_of_policy_fault self }
    {
        match self {
            PolicyFault::BadEntry { .. } => 6,
        }
    }

    /// The place of the entry at fault, counted from 0.
    pub fn index(self) -> usize
        ensures { result ≡ place_of_policy_fault self }
    {
        match self {
            PolicyFault::BadEntry { index } => index,
        }
    }
}

/// Why octets have no flow.
#[derive(Clone, Copy, Debug, PartialEq, Eq, Error)]
pub enum InnerFault {
    /// Another version than 4 and 6, or more than 16,384 octets. Of version 4 fewer than 20 octets, a
    /// header of fewer than 20 octets or one that doesn't fit, or a total length that is not that of the
    /// octets. Of version 6 fewer than 40 octets, or a payload length that with the header's 40 is not that
    /// of the octets. Of either, for TCP and UDP, fewer than four octets behind the IP header.
    #[error("E21: not a whole IP packet")]
    BadInner,
    /// The packet of version 4 is a fragment: more follow it, or its offset is not 0.
    #[error("E22: a fragment of a packet")]
    Fragment,
    /// The packet of version 6 has an extension header behind its own: next header 0, 43, 44, 51 or 60.
    #[error("E39: a packet with an extension header")]
    ExtensionHeader,
}

impl InnerFault {
    /// The refusal's number, as programs print it behind `E`.
    pub fn code(self) -> u8
        ensures { result ≡ code_of_inner_fault self }
    {
        match self {
            InnerFault::BadInner => 21,
            InnerFault::Fragment => 22,
            InnerFault::ExtensionHeader => 39,
        }
    }
}

/// Why an offer of selectors was not narrowed.
#[derive(Clone, Copy, Debug, PartialEq, Eq, Error)]
pub enum NarrowFault {
    /// No entry that protects has points of both lists; so for an empty list.
    #[error("E23: no policy entry accepts the selectors")]
    Unacceptable,
    /// An entry was chosen, and a growth was refused.
    #[error("E24: no memory for the selectors")]
    Memory,
}

impl NarrowFault {
    /// The refusal's number, as programs print it behind `E`.
    pub fn code(self) -> u8
        ensures { result ≡ code_of_narrow_fault self }
    {
        match self {
            NarrowFault::Unacceptable => 23,
            NarrowFault::Memory => 24,
        }
    }
}

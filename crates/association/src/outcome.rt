//! What comes of an exchange at one IKE SA.
ghost use Rattle.std.specs.Prelude.{◌≡◌};
ghost use Rattle.association.specs.Outcomes.{childless, closed_by, made_by, unless_made};

use base::Items;

/// A request that goes out.
#[derive(Debug, Drop)]
pub struct Issued {
    /// Its Message ID.
    pub number: u32,
    /// The datagram.
    pub octets: Items<u8>,
}

/// What an exchange makes of the IKE SA (RFC 7296, section 1).
#[derive(Clone, Copy, Debug, PartialEq, Eq)]
pub enum Fate {
    /// The IKE SA stands, and no Child SA was made.
    Stands,
    /// The IKE SA stands, and the Child SA with this serial was made.
    Made(u32),
    /// The IKE SA is closed, with all its Child SAs.
    Closed,
}

/// A request that was processed.
#[derive(Debug, Drop)]
pub struct Answered {
    /// The reply.
    pub octets: Items<u8>,
    /// What became of the IKE SA.
    pub fate: Fate,
}

/// A response that was matched.
#[derive(Clone, Copy, Debug, PartialEq, Eq)]
pub struct Ended {
    /// What became of the IKE SA.
    pub fate: Fate,
    /// The Notify payload by which the peer declined what was asked: the type of the first error notification
    /// of its answer ([`exchange::first_error`]), where no Child SA was made of that. `None` where the answer
    /// has no such notification, or is not in the grammar.
    pub declined: Option<u16>,
}

impl Fate {
    /// The fate where no Child SA can be made: the IKE SA is closed, or it stands.
    pub fn childless(closed: bool) -> Fate
        ensures { result ≡ childless closed }
    {
        if closed { Fate::Closed } else { Fate::Stands }
    }

    /// The serial of the Child SA that was made.
    pub fn child(self) -> Option<u32>
        ensures { result ≡ made_by self }
    {
        match self {
            Fate::Made(serial) => Some(serial),
            Fate::Stands => None,
            Fate::Closed => None,
        }
    }

    /// Whether the IKE SA is closed.
    pub fn is_closed(self) -> bool
        ensures { result ≡ closed_by self }
    {
        match self {
            Fate::Closed => true,
            Fate::Stands => false,
            Fate::Made(_) => false,
        }
    }
}

/// The error that an answer tells, where no Child SA was made of that: beside a child that is made it
/// declines nothing.
pub fn unless_made(fate: Fate, error: Option<u16>) -> Option<u16>
    ensures { result ≡ unless_made fate error }
{
    match fate {
        Fate::Made(_) => None,
        Fate::Stands => error,
        Fate::Closed => error,
    }
}

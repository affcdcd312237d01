//! What this end asks of the peer.
ghost use Rattle.std.specs.Prelude.{◌≡◌, IfOk};
ghost use Rattle.deletions.specs.Asking.{CanBeSent};
ghost use Rattle.informational.specs.Ordering.{payloads_of_order, purpose_of};

use association::Purpose;
use base::Items;
use deletions::{delete_association, delete_child};
use std::alloc::{AllocError, Global};
use wire::Payload;

/// What this end asks of the peer of an IKE SA by INFORMATIONAL (RFC 7296, section 1.4).
#[derive(Clone, Copy, Debug, PartialEq, Eq)]
pub enum Order {
    /// Whether it is there (section 2.4).
    Probe,
    /// To delete a Child SA (section 1.4.1).
    DeleteChild {
        /// The serial of its SA pair in the table.
        child: u32,
        /// The SPI under which this end receives by it, which the request names.
        spi: u32,
    },
    /// To delete the IKE SA, with all its Child SAs (section 1.4.1).
    DeleteAssociation,
}

impl Order {
    /// What the request asks for, as it is kept until the answer comes.
    pub fn purpose(self) -> Purpose
        ensures { result ≡ purpose_of self }
    {
        match self {
            Order::Probe => Purpose::Probe,
            Order::DeleteChild { child, .. } => Purpose::DeleteChild { child },
            Order::DeleteAssociation => Purpose::DeleteAssociation,
        }
    }
}

// The payloads of the request: none, or one Delete (RFC 7296, section 3.11). They fit a message that is
// sealed.
pub(crate) fn payloads_of(alloc: Global, order: Order) -> Result<Items<Payload>, AllocError>
    ensures payloads { IfOk result (λ payloads. payloads ≡ payloads_of_order order) }
    ensures fits { IfOk result CanBeSent }
{
    match order {
        Order::Probe => Ok(Items::new(alloc)),
        Order::DeleteChild { spi, .. } => delete_child(alloc, spi),
        Order::DeleteAssociation => delete_association(alloc),
    }
}

//! Pairs of SAs.
ghost use Rattle.std.specs.Prelude.{◌≡◌};

use base::{Items, Selector};
use esp::{Inbound, Outbound};
use replay::BlockWindow;

/// Whether an SA pair carries packets outward.
#[derive(Clone, Copy, Debug, PartialEq, Eq)]
pub enum State {
    /// It carries packets both ways.
    Live,
    /// Its end was announced (RFC 7296 section 1.4.1): packets that come are still opened, and no flow is
    /// given to it any more ([`Table::outbound`](crate::Table::outbound) passes it over).
    Deleting,
}

/// Two one-way SAs that were made by one exchange, one for each direction (RFC 4301 section 4.1), and the
/// traffic that they carry.
#[derive(Drop)]
pub struct Pair {
    /// The number that the table gave it, from 1 on; 0 before it has one.
    pub serial: u32,
    /// The serial of the IKE SA that made it.
    pub ike: u32,
    /// Opens what the peer sends.
    pub inbound: Inbound<BlockWindow>,
    /// Seals what is sent to the peer.
    pub outbound: Outbound,
    /// The selectors of this end's side.
    pub local: Items<Selector>,
    /// The selectors of the peer's side.
    pub remote: Items<Selector>,
    /// Whether it carries packets outward.
    pub state: State,
}

impl Pair {
    /// A Live SA pair that has no serial yet.
    pub fn new(
        ike: u32,
        inbound: Inbound<BlockWindow>,
        outbound: Outbound,
        local: Items<Selector>,
        remote: Items<Selector>,
    ) -> Pair
        ensures { result ≡ record {
          serial = 0;
          ike = ike;
          inbound = inbound;
          outbound = outbound;
          local = local;
          remote = remote;
          state = State.Live;
        } }
    {
        Pair {
            serial: 0,
            ike,
            inbound,
            outbound,
            local,
            remote,
            state: State::Live,
        }
    }
}

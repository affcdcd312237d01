//! Flows: what selectors are asked about.
ghost use Rattle.std.specs.Prelude.{◌≡◌};
ghost use Rattle.base.specs.Addresses.{family_of};
ghost use Rattle.policy.specs.Decisions.{source_point, target_point};

use crate::point::Point;
use base::{Address, Family};

/// The ports of a flow.
#[derive(Clone, Copy, Debug, PartialEq, Eq)]
pub struct Ports {
    pub source: u16,
    pub target: u16,
}

/// What a packet's selectors are: its IP protocol, its source's and its target's address, and its ports,
/// which are there exactly where the protocol is TCP or UDP (6 or 17); a limit of this implementation. No
/// selector holds a flow whose ports do not fit its protocol, and no policy protects one whose addresses
/// differ in family.
#[derive(Clone, Copy, Debug, PartialEq, Eq)]
pub struct Flow {
    pub protocol: u8,
    pub source: Address,
    pub target: Address,
    pub ports: Option<Ports>,
}

impl Flow {
    /// The family of its source, which in the flow of a packet is its target's as well.
    pub fn family(&self) -> Family
        ensures { result ≡ family_of self.now.source }
    {
        self.source.family()
    }

    pub(crate) fn source_point(&self) -> Point
        ensures { result ≡ source_point self.now }
    {
        Point {
            protocol: self.protocol,
            address: self.source,
            port: self.ports.map(|ports| ports.source),
        }
    }

    pub(crate) fn target_point(&self) -> Point
        ensures { result ≡ target_point self.now }
    {
        Point {
            protocol: self.protocol,
            address: self.target,
            port: self.ports.map(|ports| ports.target),
        }
    }
}

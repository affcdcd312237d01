//! The points that selectors are sets of.
ghost use Rattle.std.specs.Prelude.{IsTrue, ◌↔◌};
ghost use Rattle.policy.specs.Points.{HasPorts};

use base::Address;

/// One end of a flow: an IP protocol, an address, and a port exactly where the protocol is TCP or UDP (6 or
/// 17).
#[derive(Clone, Copy, Debug, PartialEq, Eq)]
pub struct Point {
    pub protocol: u8,
    pub address: Address,
    pub port: Option<u16>,
}

// The protocol of selectors that hold points of every protocol.
pub(crate) const ANY_PROTOCOL: u8 = 0;

// The protocols whose ports are read.
const TCP: u8 = 6;

const UDP: u8 = 17;

// Whether the points of a protocol have ports.
pub(crate) fn has_ports(protocol: u8) -> bool
    ensures { IsTrue result ↔ HasPorts protocol }
{
    protocol == TCP || protocol == UDP
}

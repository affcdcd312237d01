//! Ranges of ports, both ends included. A range whose end is below its start is empty.
ghost use Rattle.std.specs.Prelude.{◌≡◌, ◌≤◌, IsTrue, ◌↔◌, min, max};
ghost use Rattle.policy.specs.Ends.{HasFittingPort};
ghost use Rattle.policy.specs.Points.{FitsPort, IsPortOf};

use crate::point::{ANY_PROTOCOL, has_ports};

// A range of ports.
#[derive(Clone, Copy)]
pub(crate) struct PortRange {
    pub(crate) start: u16,
    pub(crate) end: u16,
}

impl PortRange {
    pub(crate) fn new(start: u16, end: u16) -> Self
        ensures start { result.start ≡ start }
        ensures end { result.end ≡ end }
    {
        PortRange { start, end }
    }

    // Whether its end is not below its start.
    pub(crate) fn is_ordered(self) -> bool
        ensures { IsTrue result ↔ (self.start ≤ self.end) }
    {
        self.start <= self.end
    }

    // Whether these are all ports.
    pub(crate) fn is_whole(self) -> bool
        ensures { IsTrue result ↔ ((self.start ≡ 0) × (self.end ≡ 65535)) }
    {
        self.start == 0 && self.end == u16::MAX
    }

    // Whether a point of this protocol may have this port, and the port fits.
    pub(crate) fn fits(self, protocol: u8, port: Option<u16>) -> bool
        ensures { IsTrue result ↔ (IsPortOf protocol port × FitsPort self.start self.end port) }
    {
        match port {
            Some(port) => has_ports(protocol) && self.start <= port && port <= self.end,
            None => !has_ports(protocol) && self.is_whole(),
        }
    }

    // Whether points of a protocol, 0 for any, may have a port of the range, or no port if they have none.
    pub(crate) fn has_port_of(self, protocol: u8) -> bool
        ensures { IsTrue result ↔ HasFittingPort protocol self.start self.end }
    {
        if protocol == ANY_PROTOCOL || has_ports(protocol) {
            self.is_ordered()
        } else {
            self.is_whole()
        }
    }

    // Whether a range that is not empty lies in another.
    pub(crate) fn lies_in(self, other: PortRange) -> bool
        ensures { IsTrue result ↔ ((other.start ≤ self.start) × (self.end ≤ other.end)) }
    {
        other.start <= self.start && self.end <= other.end
    }

    // The ports that lie in both.
    pub(crate) fn common(self, other: PortRange) -> PortRange
        ensures start { result.start ≡ max self.start other.start }
        ensures end { result.end ≡ min self.end other.end }
    {
        PortRange {
            start: self.start.max(other.start),
            end: self.end.min(other.end),
        }
    }
}

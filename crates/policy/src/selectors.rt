//! Selectors as sets of points.
ghost use Rattle.std.specs.Prelude.{◌≡◌, IsTrue, ◌↔◌, MatchOption};
ghost use Rattle.base.specs.Addresses.{FitsRange};
ghost use Rattle.policy.specs.Points.{FitsProtocol, IsNonempty, HoldsAny, HoldsPoint, IsCommonPart, LiesIn, Meets};
ghost use Rattle.policy.specs.Decisions.{Covers};
ghost use Rattle.policy.specs.Ends.{HaveNoCommonProtocol, IsCommonProtocol};

use crate::flow::Flow;
use crate::point::{ANY_PROTOCOL, Point};
use crate::ports::PortRange;
use base::{Range, Selector};

/// Whether the sources hold the source of a flow, and the targets its target: protocol and address fit, and
/// the port lies in the range. Where the flow's protocol has no ports, only the range of all ports fits.
pub fn covers(sources: &[Selector], targets: &[Selector], flow: &Flow) -> bool
    ensures { IsTrue result ↔ Covers sources.now targets.now flow.now }
{
    any_holds(targets, flow.target_point()) && any_holds(sources, flow.source_point())
}

// Whether any of the selectors holds a point.
fn any_holds(selectors: &[Selector], point: Point) -> bool
    ensures { IsTrue result ↔ HoldsAny selectors.now point }
{
    for selector in selectors {
        if holds(selector, point) {
            return true;
        }
    }
    false
}

// Whether a selector holds a point.
pub(crate) fn holds(selector: &Selector, point: Point) -> bool
    ensures { IsTrue result ↔ HoldsPoint selector.now point }
{
    fits_protocol(selector.protocol, point.protocol)
        && selector.addresses.holds(point.address)
        && ports_of(selector).fits(point.protocol, point.port)
}

// Whether a selector holds any point at all.
pub(crate) fn has_point(selector: &Selector) -> bool
    ensures { IsTrue result ↔ IsNonempty (HoldsPoint selector.now) }
{
    let addresses = range_of(selector.addresses);
    ports_of(selector).has_port_of(selector.protocol) && addresses.is_ordered()
}

// Whether a selector that has a point lies in another.
pub(crate) fn lies_in(selector: &Selector, other: &Selector) -> bool
    requires { IsNonempty (HoldsPoint selector.now) }
    ensures { IsTrue result ↔ LiesIn (HoldsPoint selector.now) (HoldsPoint other.now) }
{
    let addresses = range_of(selector.addresses);
    let ports = ports_of(selector);
    fits_protocol(other.protocol, selector.protocol)
        && addresses.lies_in(other.addresses)
        && ports.lies_in(ports_of(other))
}

// Whether any point lies in both of two selectors.
pub(crate) fn meets(one: &Selector, other: &Selector) -> bool
    ensures { IsTrue result ↔ Meets (HoldsPoint one.now) (HoldsPoint other.now) }
{
    common_part(one, other).is_some()
}

// The points that lie in both of two selectors, where there are any.
pub(crate) fn common_part(one: &Selector, other: &Selector) -> Option<Selector>
    ensures { MatchOption result (¬ Meets (HoldsPoint one.now) (HoldsPoint other.now))
        (IsCommonPart (HoldsPoint one.now) (HoldsPoint other.now)) }
{
    let protocol = common_protocol(one.protocol, other.protocol)?;
    let addresses = one.addresses.common(other.addresses)?;
    let ports = ports_of(one).common(ports_of(other));
    let part = Selector {
        protocol,
        start_port: ports.start,
        end_port: ports.end,
        addresses,
    };
    has_point(&part).then_some(part)
}

// The protocol, or [`ANY_PROTOCOL`], that two selectors have in common.
fn common_protocol(one: u8, other: u8) -> Option<u8>
    ensures { MatchOption result (HaveNoCommonProtocol one other) (IsCommonProtocol one other) }
{
    if one == ANY_PROTOCOL {
        Some(other)
    } else if other == ANY_PROTOCOL || one == other {
        Some(one)
    } else {
        None
    }
}

// Whether a selector of the first protocol may hold points of the second.
fn fits_protocol(wanted: u8, protocol: u8) -> bool
    ensures { IsTrue result ↔ FitsProtocol wanted protocol }
{
    wanted == ANY_PROTOCOL || wanted == protocol
}

fn ports_of(selector: &Selector) -> PortRange
    ensures start { result.start ≡ selector.now.start_port }
    ensures end { result.end ≡ selector.now.end_port }
{
    PortRange::new(selector.start_port, selector.end_port)
}

// The range itself. It is taken apart and put together, so that it is known of its numbers that they fit
// their family.
fn range_of(addresses: Range) -> Range
    ensures same { result ≡ addresses }
    ensures fits { FitsRange result }
{
    match addresses {
        Range::V4(start, end) => Range::V4(start, end),
        Range::V6(start, end) => Range::V6(start, end),
    }
}

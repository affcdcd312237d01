//! The next headers of ESP packets that carry packets (RFC 4303, section 2.6).
ghost use Rattle.std.specs.Prelude.{◌≡◌};
ghost use Rattle.traffic.specs.NextHeaders.{family_under, next_header_of};

use base::Family;

/// No next header: the packet carries nothing and is a dummy.
pub const NO_NEXT_HEADER: u8 = 59;

// A packet of IPv4.
const IPV4: u8 = 4;

// A packet of IPv6.
const IPV6: u8 = 41;

/// The next header under which packets of a family are sealed.
pub fn next_header_of(family: Family) -> u8
    ensures { result ≡ next_header_of family }
{
    match family {
        Family::V4 => IPV4,
        Family::V6 => IPV6,
    }
}

/// The family of the packets that come under a next header, if it names packets.
pub fn family_under(next: u8) -> Option<Family>
    ensures { result ≡ family_under next }
{
    match next {
        IPV4 => Some(Family::V4),
        IPV6 => Some(Family::V6),
        _ => None,
    }
}

//! The sets of points once more, by plain search: tiny selectors of both families, and all points that
//! tell them apart.
use base::{Address, Range, Selector};
use policy::Point;

/// Ports, protocols and addresses that tell the tiny selectors apart.
pub const PORTS: [Option<u16>; 5] = [None, Some(0), Some(1), Some(2), Some(65535)];

pub const PROTOCOLS: [u8; 4] = [0, 1, 6, 17];

pub const ADDRESSES: [Address; 6] = [
    Address::V4(0),
    Address::V4(1),
    Address::V4(2),
    Address::V6(0),
    Address::V6(1),
    Address::V6(2),
];

/// How many tiny selectors there are.
pub const SELECTORS: u32 = 504;

/// One of the tiny selectors, those without points among them; the wide ones come more than once.
pub fn selector_of(number: u32) -> Selector {
    let protocol = match number % 6 {
        0 => 1,
        1 => 6,
        2 => 17,
        _ => 0,
    };
    let (start_port, end_port) = match number / 6 % 7 {
        0 => (0, 1),
        1 => (1, 2),
        2 => (2, 1),
        3 => (1, 65535),
        _ => (0, 65535),
    };
    let (start, end) = match number / 42 % 6 {
        0 => (0, 2),
        1 => (0, 0),
        2 => (1, 2),
        3 => (2, 2),
        4 => (2, 1),
        _ => (1, 1),
    };
    let addresses = if number / 252 % 2 == 0 {
        Range::V4(start, end)
    } else {
        Range::V6(u128::from(start), u128::from(end))
    };
    Selector {
        protocol,
        start_port,
        end_port,
        addresses,
    }
}

/// Whether a selector holds a point, as the words say.
pub fn holds(selector: &Selector, point: &Point) -> bool {
    let has_ports = matches!(point.protocol, 6 | 17);
    let fits = match point.port {
        Some(port) => has_ports && (selector.start_port..=selector.end_port).contains(&port),
        None => !has_ports && selector.start_port == 0 && selector.end_port == 65535,
    };
    fits && (selector.protocol == 0 || selector.protocol == point.protocol)
        && contains(selector.addresses, point.address)
}

fn contains(range: Range, address: Address) -> bool {
    match (range, address) {
        (Range::V4(start, end), Address::V4(number)) => (start..=end).contains(&number),
        (Range::V6(start, end), Address::V6(number)) => (start..=end).contains(&number),
        _ => false,
    }
}

/// Whether any of the selectors holds a point.
pub fn any_holds(selectors: &[Selector], point: &Point) -> bool {
    selectors.iter().any(|selector| holds(selector, point))
}

/// Whether some point has a property.
pub fn some_point<F: Fn(&Point) -> bool>(has: &F) -> bool
    requires { F.IsAlwaysCallable has.now }
{
    for protocol in PROTOCOLS {
        for address in ADDRESSES {
            for port in PORTS {
                let point = Point {
                    protocol,
                    address,
                    port,
                };
                if has(&point) {
                    return true;
                }
            }
        }
    }
    false
}

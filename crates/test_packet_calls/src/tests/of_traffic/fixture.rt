//! What the tests share: two gateways whose pairs mirror each other, and packets between their networks.
ghost use Rattle.std.specs.Prelude.{◌≡◌, IfSome};
ghost use Rattle.sadb.specs.Database.{IsReserved};

use base::{Items, Range, Selector};
use esp::{Inbound, Outbound};
use policy::{Action, Entry, Policy};
use replay::BlockWindow;
use sadb::{Pair, Spi, Table};
use std::alloc::Global;
use std::process::Abort;
use traffic::Arrival;

/// The key of what comes to the near end, and that of what comes to the far one.
const NEAR_KEY: [u8; 32] = [0x0b; 32];

const FAR_KEY: [u8; 32] = [0x0c; 32];

/// The inbound SPIs of both pairs.
pub const NEAR_SPI: u32 = 4096;

pub const FAR_SPI: u32 = 8192;

/// A packet of IPv4 from 10.0.0.1 to 10.1.0.1 that is a header alone.
pub fn ipv4() -> [u8; 20] {
    [
        0x45, 0x00, 0x00, 0x14, 0x00, 0x00, 0x00, 0x00, 0x40, 0x01, 0x00, 0x00, 0x0a, 0x00, 0x00,
        0x01, 0x0a, 0x01, 0x00, 0x01,
    ]
}

/// A packet of IPv6 from 2001:db8::a01 to 2001:db8::b01 that is a header alone.
pub fn ipv6() -> [u8; 40] {
    [
        0x60, 0x00, 0x00, 0x00, 0x00, 0x00, 0x3b, 0x40, 0x20, 0x01, 0x0d, 0xb8, 0x00, 0x00, 0x00,
        0x00, 0x00, 0x00, 0x00, 0x00, 0x00, 0x00, 0x0a, 0x01, 0x20, 0x01, 0x0d, 0xb8, 0x00, 0x00,
        0x00, 0x00, 0x00, 0x00, 0x00, 0x00, 0x00, 0x00, 0x0b, 0x01,
    ]
}

/// The networks behind the two ends.
#[derive(Clone, Copy)]
pub struct Networks {
    pub near: Range,
    pub far: Range,
}

impl Networks {
    /// 10.0.0.0 to 10.0.0.255, and 10.1.0.0 to 10.1.0.255.
    pub fn ipv4() -> Networks {
        Networks {
            near: Range::V4(0x0a00_0000, 0x0a00_00ff),
            far: Range::V4(0x0a01_0000, 0x0a01_00ff),
        }
    }

    /// 2001:db8::a00 to 2001:db8::aff, and 2001:db8::b00 to 2001:db8::bff.
    pub fn ipv6() -> Networks {
        let prefix: u128 = 0x2001_0db8 << 96;
        Networks {
            near: Range::V6(prefix | 0xa00, prefix | 0xaff),
            far: Range::V6(prefix | 0xb00, prefix | 0xbff),
        }
    }
}

/// A selector of every protocol and all ports.
fn selector(addresses: Range) -> Selector {
    Selector {
        protocol: 0,
        start_port: 0,
        end_port: 65535,
        addresses,
    }
}

/// The near end's policy of one entry, about what goes between two networks.
pub fn policy(alloc: Global, networks: Networks, action: Action) -> Option<Policy> {
    let entry = Entry {
        protocol: 0,
        local: networks.near,
        remote: networks.far,
        local_ports: (0, 65535),
        remote_ports: (0, 65535),
        action,
    };
    Policy::new(Items::from_slice(alloc, &[entry]).ok()?).ok()
}

/// The receiver's end under an SPI, with a window of 64 numbers, if there is memory for it.
fn receiver(alloc: Global, spi: u32, key: &[u8; 32]) -> Option<Inbound<BlockWindow>>
    ensures { IfSome result (λ inbound. inbound.association.spi ≡ spi) }
{
    let window = BlockWindow::new(alloc, 2).ok()?;
    Some(Inbound::new(spi, key, false, window))
}

/// A pair that carries what goes between two networks, if there is memory for it.
fn pair_of(
    alloc: Global,
    inbound: Inbound<BlockWindow>,
    outbound: Outbound,
    local: Range,
    remote: Range,
) -> Option<Pair>
    ensures { IfSome result (λ pair. pair.inbound ≡ inbound) }
{
    let local = Items::from_slice(alloc, &[selector(local)]).ok()?;
    let remote = Items::from_slice(alloc, &[selector(remote)]).ok()?;
    Some(Pair::new(1, inbound, outbound, local, remote))
}

/// The tables of two ends, and the near end's policy.
#[derive(Drop)]
pub struct Ends {
    pub near: Table,
    pub far: Table,
    pub policy: Policy,
}

/// Reserves an SPI, if there is memory for its pair.
fn reserve(table: &mut Table) -> Option<Spi>
    ensures { IfSome result (IsReserved table.new) }
{
    table.reserve().ok()
}

impl Ends {
    /// Two ends that protect what goes between two networks, without pairs, if there is memory for it.
    pub fn new(alloc: Global, networks: Networks) -> Option<Ends> {
        Some(Ends {
            near: Table::new(alloc, NEAR_SPI),
            far: Table::new(alloc, FAR_SPI),
            policy: policy(alloc, networks, Action::Protect)?,
        })
    }

    /// The same, with a pair and its mirror. The near end sealed its last packet with this number.
    pub fn connected(alloc: Global, networks: Networks, last: u64) -> Option<Ends> {
        let mut ends = Ends::new(alloc, networks)?;
        let spi = reserve(&mut ends.near)?;
        let inbound = receiver(alloc, spi.number(), &NEAR_KEY)?;
        let outbound = Outbound::new(FAR_SPI, &FAR_KEY, false, last);
        let pair = pair_of(alloc, inbound, outbound, networks.near, networks.far)?;
        ends.near.install(spi, pair);

        let spi = reserve(&mut ends.far)?;
        let inbound = receiver(alloc, spi.number(), &FAR_KEY)?;
        let outbound = Outbound::new(NEAR_SPI, &NEAR_KEY, false, 0);
        let pair = pair_of(alloc, inbound, outbound, networks.far, networks.near)?;
        ends.far.install(spi, pair);
        Some(ends)
    }
}

/// Seals any payload under any next header by a table's first pair.
pub fn seal(
    rt: &impl Abort,
    alloc: Global,
    table: &mut Table,
    next: u8,
    payload: &[u8],
) -> Vec<u8> {
    let mut octets = Vec::new(alloc);
    let child = table.after(0).expect(rt, "a pair").serial;
    table
        .seal(child, next, payload, &mut octets)
        .expect(rt, "a sealed packet");
    octets
}

/// The number of the refusal of what came, if it was dropped.
pub fn refusal(arrival: Arrival<'_>) -> Option<u8> {
    match arrival {
        Arrival::Dropped(fault) => Some(fault.code()),
        Arrival::Up { .. } | Arrival::Dummy { .. } => None,
    }
}

//! What the tests share: pairs that carry what goes to a few networks, and questions that tell what a
//! call may be asked for.
ghost use Rattle.std.specs.Prelude.{◌≡◌, ◌≢◌, ℕ, Some, IsTrue, IfOk, IfSome};
ghost use Rattle.sadb.specs.Database.{IsReserved, pair_at, IsThere, IsLive, IsForPair};

use base::{Address, Items, Range, Selector};
use esp::{Inbound, Outbound};
use policy::{Flow, Ports};
use replay::BlockWindow;
use sadb::{Pair, Spi, State, Table, TableFault};
use std::alloc::Global;

/// The first SPI of most tables here.
pub const START: u32 = 4096;

/// The key of what comes in.
pub const KEY: [u8; 32] = [0x0b; 32];

/// The key of what goes out.
pub const PEER_KEY: [u8; 32] = [0x0c; 32];

/// What a pair carries, from 10.0.0.0 to 10.0.0.255.
#[derive(Clone, Copy)]
pub enum Network {
    /// To 10.1.N.0 to 10.1.N.255.
    One(u8),
    /// To each of them.
    Every,
}

impl Network {
    /// What the pair carries to.
    pub fn remote(self) -> Selector {
        match self {
            Network::One(third) => {
                let start = u32::from_be_bytes([10, 1, third, 0]);
                addresses(start, start | 0xff)
            }
            Network::Every => addresses(0x0a01_0000, 0x0a01_ffff),
        }
    }
}

/// 10.0.0.0 to 10.0.0.255.
pub fn here() -> Selector {
    addresses(0x0a00_0000, 0x0a00_00ff)
}

/// A selector of every protocol and all ports.
fn addresses(start: u32, end: u32) -> Selector {
    Selector {
        protocol: 0,
        start_port: 0,
        end_port: 65535,
        addresses: Range::V4(start, end),
    }
}

/// A flow to an address of a network, 10.1.N.7.
pub fn flow_to(third: u8) -> Flow {
    Flow {
        protocol: 17,
        source: Address::V4(0x0a00_0001),
        target: Address::V4(u32::from_be_bytes([10, 1, third, 7])),
        ports: Some(Ports {
            source: 500,
            target: 4500,
        }),
    }
}

/// The receiver's end under an SPI, with a window of 64 numbers, if there is memory for it.
pub fn receiver(alloc: Global, spi: u32, key: &[u8; 32]) -> Option<Inbound<BlockWindow>>
    ensures { IfSome result (λ inbound. inbound.association.spi ≡ spi) }
{
    let window = BlockWindow::new(alloc, 2).ok()?;
    Some(Inbound::new(spi, key, false, window))
}

/// A pair that carries what goes from one selector to another, if there is memory for it.
pub fn pair_of(
    alloc: Global,
    inbound: Inbound<BlockWindow>,
    outbound: Outbound,
    local: Selector,
    remote: Selector,
) -> Option<Pair>
    ensures { IfSome result (λ pair. pair.inbound ≡ inbound) }
{
    let local = Items::from_slice(alloc, &[local]).ok()?;
    let remote = Items::from_slice(alloc, &[remote]).ok()?;
    Some(Pair::new(7, inbound, outbound, local, remote))
}

/// A pair with this inbound SPI, if there is memory for it.
pub fn pair(alloc: Global, spi: u32, network: Network) -> Option<Pair>
    ensures { IfSome result (λ pair. pair.inbound.association.spi ≡ spi) }
{
    let inbound = receiver(alloc, spi, &KEY)?;
    let outbound = Outbound::new(spi, &PEER_KEY, false, 0);
    pair_of(alloc, inbound, outbound, here(), network.remote())
}

/// Reserves an SPI, and tells what stays reserved.
pub fn reserve(table: &mut Table) -> Result<Spi, TableFault>
    ensures given { IfOk result (IsReserved table.new) }
    ensures kept { (other : ℕ) → IsReserved table.old other → IsReserved table.new other }
{
    table.reserve()
}

/// Puts a pair in the place that was reserved for it, and tells what stays reserved.
pub fn install(table: &mut Table, spi: Spi, pair: Pair) -> u32
    requires reserved { IsReserved table.old spi }
    requires its_own { pair.inbound.association.spi ≡ spi }
    ensures { (other : ℕ) → other ≢ spi → IsReserved table.old other → IsReserved table.new other }
{
    table.install(spi, pair)
}

/// Gives a reserved SPI up, and tells what stays reserved.
pub fn release(table: &mut Table, spi: Spi)
    requires { IsReserved table.old spi }
    ensures { (other : ℕ) → other ≢ spi → IsReserved table.old other → IsReserved table.new other }
{
    table.release(spi);
}

/// The pair with this serial, found as the next one after the serial below it.
pub fn with_serial(table: &Table, serial: u32) -> Option<&Pair>
    ensures { IfSome result (λ pair. pair_at table.now.pairs serial ≡ Some pair.now) }
{
    let pair = table.after(serial.checked_sub(1)?)?;
    if pair.serial == serial {
        Some(pair)
    } else {
        None
    }
}

/// Whether there is a pair with this serial.
pub fn is_there(table: &Table, serial: u32) -> bool
    ensures { IsTrue result → IsThere table.now.pairs serial }
{
    with_serial(table, serial).is_some()
}

/// Whether there is one that is Live.
pub fn is_live(table: &Table, serial: u32) -> bool
    ensures { IsTrue result → IsLive table.now.pairs serial }
{
    match with_serial(table, serial) {
        Some(pair) => pair.state == State::Live,
        None => false,
    }
}

/// Whether a packet may be handed to the pair with this serial: its first four octets, where it has
/// four, are the SPI.
pub fn is_for(table: &Table, serial: u32, packet: &[u8]) -> bool
    ensures { IsTrue result → IsForPair table.now.pairs serial packet.now }
{
    match with_serial(table, serial) {
        Some(pair) => packet.len() < 4
            || &packet[..4] == pair.inbound.spi().to_be_bytes().as_slice(),
        None => false,
    }
}

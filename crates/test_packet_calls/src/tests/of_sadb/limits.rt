//! How many pairs are held, and how many SPIs are given.
ghost use Rattle.std.specs.Prelude.{ℕ};
ghost use Rattle.sadb.specs.Database.{IsReserved};

use super::fixture::{Network, START, is_there, pair, reserve};
use crate::tests::asserts::{holds, same};
use sadb::{Table, TableFault};
use std::alloc::Global;
use std::process::Abort;

/// Reserves an SPI and puts a pair there; answers the serial.
fn add(rt: &impl Abort, alloc: Global, table: &mut Table) -> u32 {
    let spi = reserve(table).expect(rt, "an SPI");
    let pair = pair(alloc, spi.number(), Network::Every).expect(rt, "memory");
    table.install(spi, pair)
}

/// Finds that nothing more is given, by either call.
fn refuses(rt: &impl Abort, table: &mut Table, fault: TableFault)
    ensures { (spi : ℕ) → IsReserved table.old spi → IsReserved table.new spi }
{
    same(rt, table.prepare(), Err(fault));
    same(rt, reserve(table).err(), Some(fault));
}

#[test]
fn holds_1024_pairs(rt: HostRuntime) {
    let mut table = Table::new(rt.alloc(), START);
    for serial in 1..=1024 {
        same(&rt, add(&rt, rt.alloc(), &mut table), serial);
    }
    refuses(&rt, &mut table, TableFault::Full);
    assert!(rt; is_there(&table, 500));
    table.remove(500);
    same(&rt, table.prepare(), Ok(START + 1024));
    same(&rt, add(&rt, rt.alloc(), &mut table), 1025);
    refuses(&rt, &mut table, TableFault::Full);
}

#[test]
fn counts_reserved_spis_too(rt: HostRuntime) {
    let mut table = Table::new(rt.alloc(), START);
    for serial in 1..=1000 {
        same(&rt, add(&rt, rt.alloc(), &mut table), serial);
    }
    for place in 1000..1023 {
        same(
            &rt,
            reserve(&mut table).expect(&rt, "an SPI").number(),
            START + place,
        );
    }
    let last = reserve(&mut table).expect(&rt, "an SPI");
    same(&rt, last.number(), START + 1023);
    refuses(&rt, &mut table, TableFault::Full);
    table.release(last);
    same(
        &rt,
        reserve(&mut table).expect(&rt, "an SPI").number(),
        START + 1024,
    );
    refuses(&rt, &mut table, TableFault::Full);
}

/// Reserves SPIs one by one and gives each up. They come in order, so none is given twice.
fn use_up(rt: &impl Abort, table: &mut Table, first: u32, count: u32) {
    for place in 0..count {
        let spi = reserve(table).expect(rt, "an SPI");
        same(rt, Some(spi.number()), first.checked_add(place));
        table.release(spi);
    }
}

#[test]
fn gives_65_536_spis(rt: HostRuntime) {
    let mut table = Table::new(rt.alloc(), 256);
    use_up(&rt, &mut table, 256, 65_536);
    refuses(&rt, &mut table, TableFault::Spent);
    holds(&rt, table.after(0).is_none());
}

#[test]
fn gives_the_greatest_spi(rt: HostRuntime) {
    let mut table = Table::new(rt.alloc(), 0xffff_0000);
    use_up(&rt, &mut table, 0xffff_0000, 65_535);
    let last = reserve(&mut table).expect(&rt, "an SPI");
    assert!(rt; last.number() == u32::MAX);
    let pair = pair(rt.alloc(), u32::MAX, Network::Every).expect(&rt, "memory");
    let serial = table.install(last, pair);
    same(&rt, serial, 1);
    refuses(&rt, &mut table, TableFault::Spent);
    same(
        &rt,
        table.inbound(u32::MAX).map(|pair| pair.serial),
        Some(1),
    );
}

// Full comes before Spent.
#[test]
fn is_full_and_spent(rt: HostRuntime) {
    let mut table = Table::new(rt.alloc(), START);
    use_up(&rt, &mut table, START, 65_536 - 1024);
    same(&rt, add(&rt, rt.alloc(), &mut table), 1);
    for _ in 1..1024 {
        reserve(&mut table).expect(&rt, "an SPI");
    }
    refuses(&rt, &mut table, TableFault::Full);
    assert!(rt; is_there(&table, 1));
    table.remove(1);
    refuses(&rt, &mut table, TableFault::Spent);
}

//! Runs that pass whether an allocation fails or not: what was refused on allocation failure left everything
//! as it was. Each is to be run with every allocation failing in turn.
use super::fixture::{Network, START, is_live, is_there, pair, reserve};
use super::plain::Plain;
use crate::tests::asserts::{holds, same};
use esp::EspFault;
use sadb::{Table, TableFault};

// Nothing is asked for but by reserving, and an SPI that was refused comes next.
#[test]
fn reserving_without_memory(rt: HostRuntime) {
    let mut table = Table::new(rt.alloc(), START);
    let mut next: u32 = START;
    for _ in 0..100 {
        match table.reserve() {
            Ok(spi) => {
                same(&rt, spi.number(), next);
                next = next.wrapping_add(1);
            }
            Err(fault) => same(&rt, fault, TableFault::Memory),
        }
        holds(&rt, table.inbound(next).is_none());
        holds(&rt, table.after(0).is_none());
    }
}

// Where a pair was prepared for, it comes, and is marked and removed, without memory.
#[test]
fn installing_without_memory(rt: HostRuntime) {
    let alloc = rt.alloc();
    let mut table = Table::new(alloc, START);
    let Ok(mut plain) = Plain::with_capacity(alloc, 40) else {
        return;
    };
    for round in 0..40 {
        let wanted = plain.spi();
        let network = Network::One(round % 3);
        let Some(pair) = pair(alloc, wanted, network) else {
            plain.agrees(&rt, &table);
            continue;
        };
        if let Err(fault) = table.prepare() {
            same(&rt, fault, TableFault::Memory);
            plain.agrees(&rt, &table);
            continue;
        }
        same(&rt, table.prepare(), Ok(wanted));
        plain.agrees(&rt, &table);
        let Ok(spi) = reserve(&mut table) else {
            panic!(rt; "refused although there was room");
        };
        assert!(rt; spi.number() == wanted);
        let serial = table.install(spi, pair);
        plain.give(&rt, wanted);
        holds(&rt, plain.install(&rt, serial, wanted, network).is_ok());
        plain.agrees(&rt, &table);
        let place = usize::from(round / 2);
        if let Some(entry) = plain.get(place) {
            if round % 4 == 1 && entry.live {
                assert!(rt; is_live(&table, entry.serial));
                table.mark(entry.serial);
                plain.mark(place);
            }
            if round % 4 == 3 {
                assert!(rt; is_there(&table, entry.serial));
                table.remove(entry.serial);
                plain.remove(place);
            }
        }
        plain.agrees(&rt, &table);
    }
}

#[test]
fn sealing_without_memory(rt: HostRuntime) {
    let alloc = rt.alloc();
    let mut table = Table::new(alloc, START);
    let Some(pair) = pair(alloc, START, Network::Every) else {
        return;
    };
    let Ok(spi) = reserve(&mut table) else {
        return;
    };
    assert!(rt; spi.number() == START);
    same(&rt, table.install(spi, pair), 1);
    let mut out = Vec::new(alloc);
    let mut last: u64 = 0;
    for _ in 0..40 {
        let before = out.len();
        assert!(rt; is_there(&table, 1));
        match table.seal(1, 4, b"abcd", &mut out) {
            Ok(number) => {
                same(&rt, Some(number), last.checked_add(1));
                last = number;
                same(&rt, out.len().checked_sub(before), Some(32));
            }
            Err(fault) => {
                same(&rt, fault, EspFault::Memory);
                same(&rt, out.len(), before);
            }
        }
    }
}

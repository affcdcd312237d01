//! Changes to a table, each answer compared with that of a plain list.
use super::fixture::{
    Network, START, flow_to, install, is_live, is_there, pair, release, reserve, with_serial,
};
use super::plain::Plain;
use crate::tests::asserts::{holds, same, same_at};
use sadb::{State, Table};
use std::alloc::{AllocError, Global};
use std::process::Abort;

/// A table, and beside it the plain list of the pairs that it is to have.
#[derive(Drop)]
struct Both {
    alloc: Global,
    table: Table,
    plain: Plain,
}

impl Both {
    fn new(alloc: Global) -> Result<Both, AllocError> {
        Ok(Both {
            alloc,
            table: Table::new(alloc, START),
            plain: Plain::with_capacity(alloc, 1000)?,
        })
    }

    fn install(&mut self, rt: &impl Abort, network: Network) {
        let spi = reserve(&mut self.table).expect(rt, "an SPI");
        let number = spi.number();
        self.plain.give(rt, number);
        self.plain.agrees(rt, &self.table);
        let pair = pair(self.alloc, number, network).expect(rt, "memory");
        let serial = install(&mut self.table, spi, pair);
        self.plain
            .install(rt, serial, number, network)
            .expect(rt, "memory");
    }

    fn release(&mut self, rt: &impl Abort) {
        let spi = reserve(&mut self.table).expect(rt, "an SPI");
        self.plain.give(rt, spi.number());
        release(&mut self.table, spi);
    }

    /// Reserves four SPIs. The third's pair comes first, the second is given up, the first's pair comes
    /// last, and the fourth stays reserved.
    fn install_out_of_order(&mut self, rt: &impl Abort, network: Network) {
        let first = reserve(&mut self.table).expect(rt, "an SPI");
        let second = reserve(&mut self.table).expect(rt, "an SPI");
        let third = reserve(&mut self.table).expect(rt, "an SPI");
        let fourth = reserve(&mut self.table).expect(rt, "an SPI");
        assert_ne!(rt; first.number(), second.number());
        assert_ne!(rt; first.number(), third.number());
        assert_ne!(rt; second.number(), third.number());
        let (number, later) = (first.number(), third.number());
        self.plain.give(rt, number);
        self.plain.give(rt, second.number());
        self.plain.give(rt, later);
        self.plain.give(rt, fourth.number());
        let pair_of_third = pair(self.alloc, later, network).expect(rt, "memory");
        let pair_of_first = pair(self.alloc, number, Network::Every).expect(rt, "memory");
        let serial = install(&mut self.table, third, pair_of_third);
        self.plain
            .install(rt, serial, later, network)
            .expect(rt, "memory");
        self.plain.agrees(rt, &self.table);
        release(&mut self.table, second);
        self.plain.agrees(rt, &self.table);
        let serial = install(&mut self.table, first, pair_of_first);
        self.plain
            .install(rt, serial, number, Network::Every)
            .expect(rt, "memory");
    }

    fn remove(&mut self, rt: &impl Abort, place: usize) {
        if let Some(entry) = self.plain.remove(place) {
            assert!(rt; is_there(&self.table, entry.serial));
            self.table.remove(entry.serial);
        }
    }

    /// Marks the pair at a place, if it is Live.
    fn mark(&mut self, rt: &impl Abort, place: usize) {
        if let Some(entry) = self.plain.get(place) {
            same(rt, is_live(&self.table, entry.serial), entry.live);
            if is_live(&self.table, entry.serial) {
                self.table.mark(entry.serial);
                self.plain.mark(place);
            }
        }
    }
}

/// Numbers in a mixed order, by a linear congruence.
#[derive(Drop)]
struct Mixed {
    state: u32,
}

impl Mixed {
    fn below(&mut self, bound: usize) -> usize {
        self.state = self
            .state
            .wrapping_mul(1_664_525)
            .wrapping_add(1_013_904_223);
        (self.state >> 8) as usize % bound.max(1)
    }

    fn network(&mut self) -> Network {
        match self.below(6) {
            0 => Network::One(0),
            1 => Network::One(1),
            2 => Network::One(2),
            3 | 4 => Network::One(3),
            _ => Network::Every,
        }
    }
}

#[test]
fn a_thousand_changes(rt: HostRuntime) {
    let mut both = Both::new(rt.alloc()).expect(&rt, "memory");
    let mut mixed = Mixed { state: 1 };
    for step in 0..1100 {
        let place = mixed.below(both.plain.entries().len());
        match mixed.below(20) {
            0..=5 => both.install(&rt, mixed.network()),
            6 | 7 => both.install_out_of_order(&rt, mixed.network()),
            8 => both.release(&rt),
            9..=16 => both.remove(&rt, place),
            _ => both.mark(&rt, place),
        }
        both.plain.agrees(&rt, &both.table);
        if step % 50 == 49 {
            both.plain.agrees_from(&rt, &both.table, 0);
        }
    }
    let entries = both.plain.entries();
    // So that something was compared.
    holds(&rt, entries.len() > 50);
    holds(&rt, entries.iter().any(|entry| entry.live));
    holds(&rt, entries.iter().any(|entry| !entry.live));
}

// A pair that is Deleting is found by its SPI and by its serial, and carries nothing outward.
#[test]
fn the_last_live_pair_carries_a_flow(rt: HostRuntime) {
    let mut table = Table::new(rt.alloc(), START);
    for (network, wanted) in [
        (Network::Every, 1),
        (Network::One(1), 2),
        (Network::One(2), 3),
        (Network::One(1), 4),
    ] {
        let spi = reserve(&mut table).expect(&rt, "an SPI");
        let pair = pair(rt.alloc(), spi.number(), network).expect(&rt, "memory");
        same(&rt, table.install(spi, pair), wanted);
    }
    for (third, marked, wanted) in [
        (1, None, Some(4)),
        (2, None, Some(3)),
        (3, None, Some(1)),
        (1, Some(4), Some(2)),
        (2, Some(3), Some(1)),
        (1, Some(2), Some(1)),
        (1, Some(1), None),
    ] {
        if let Some(serial) = marked {
            assert!(rt; is_live(&table, serial));
            table.mark(serial);
            holds(&rt, !is_live(&table, serial));
            let found = with_serial(&table, serial).expect(&rt, "a pair with the serial");
            same(&rt, found.state, State::Deleting);
            let found = table
                .inbound(found.inbound.spi())
                .expect(&rt, "a pair under the SPI");
            same(&rt, found.serial, serial);
        }
        same_at(&rt, third, table.outbound(&flow_to(third)), wanted);
    }
}

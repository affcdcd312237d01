//! A table once more, as a plain list of its pairs in the order in which they came.
use super::fixture::{Network, START, flow_to};
use crate::tests::asserts::{holds, same, same_at};
use sadb::{State, Table};
use std::alloc::{AllocError, AllocFailed, Global};
use std::process::Abort;

/// What the list says of one pair.
#[derive(Clone, Copy)]
pub struct Entry {
    pub serial: u32,
    pub spi: u32,
    pub network: Network,
    pub live: bool,
}

/// The pairs, the oldest first, and the SPI and the serial that come next.
#[derive(Drop)]
pub struct Plain {
    entries: Vec<Entry>,
    spi: u32,
    serial: u32,
}

impl Plain {
    /// No pair yet, and room for so many.
    pub fn with_capacity(alloc: Global, capacity: usize) -> Result<Plain, AllocError> {
        Ok(Plain {
            entries: Vec::with_capacity(alloc, capacity)?,
            spi: START,
            serial: 1,
        })
    }

    pub fn entries(&self) -> &[Entry] {
        &self.entries
    }

    /// The SPI that comes next.
    pub fn spi(&self) -> u32 {
        self.spi
    }

    /// Notes an SPI, which is to be the next one.
    pub fn give(&mut self, rt: &impl Abort, spi: u32) {
        same(rt, spi, self.spi);
        self.spi = self.spi.wrapping_add(1);
    }

    /// Notes a pair, whose serial is to be the next one.
    pub fn install(
        &mut self,
        rt: &impl Abort,
        serial: u32,
        spi: u32,
        network: Network,
    ) -> Result<(), AllocFailed<Entry>> {
        same(rt, serial, self.serial);
        self.serial = self.serial.wrapping_add(1);
        self.entries.push(Entry {
            serial,
            spi,
            network,
            live: true,
        })
    }

    /// Takes out the pair at a place, if there is one.
    pub fn remove(&mut self, place: usize) -> Option<Entry> {
        if place < self.entries.len() {
            Some(self.entries.remove(place))
        } else {
            None
        }
    }

    /// Ends the traffic outward of the pair at a place, if there is one.
    pub fn mark(&mut self, place: usize) {
        if let Some(entry) = self.entries.get_mut(place) {
            entry.live = false;
        }
    }

    /// The pair at a place, if there is one.
    pub fn get(&self, place: usize) -> Option<Entry> {
        self.entries.get(place).copied()
    }

    /// The serial of the pair with an inbound SPI.
    pub fn inbound(&self, spi: u32) -> Option<u32> {
        let found = self.entries.iter().find(|entry| entry.spi == spi)?;
        Some(found.serial)
    }

    /// The serial of the Live pair that came last and carries what goes to a network.
    pub fn outbound(&self, third: u8) -> Option<u32> {
        let found = self
            .entries
            .iter()
            .rev()
            .find(|entry| entry.live && carries(entry.network, third))?;
        Some(found.serial)
    }

    /// Compares a table's answer for each SPI from this one to two that come next.
    pub fn agrees_from(&self, rt: &impl Abort, table: &Table, first: u32) {
        for spi in first..self.spi.saturating_add(2) {
            same_at(
                rt,
                spi,
                table.inbound(spi).map(|pair| pair.serial),
                self.inbound(spi),
            );
        }
    }

    /// Compares the answers of a table for flows, for serials, and for SPIs that are held or lie near
    /// the next one.
    pub fn agrees(&self, rt: &impl Abort, table: &Table) {
        // Reserved or gone of late, and never given.
        self.agrees_from(rt, table, self.spi.saturating_sub(8));
        for third in 0..5 {
            same_at(
                rt,
                third,
                table.outbound(&flow_to(third)),
                self.outbound(third),
            );
        }
        let mut serial = 0;
        for entry in &self.entries {
            let found = table.after(serial);
            same_at(
                rt,
                serial,
                found.map(|pair| (pair.serial, pair.inbound.spi(), pair.state == State::Live)),
                Some((entry.serial, entry.spi, entry.live)),
            );
            let held = table.inbound(entry.spi);
            same(rt, held.map(|pair| pair.serial), Some(entry.serial));
            serial = entry.serial;
        }
        holds(rt, table.after(serial).is_none());
    }
}

fn carries(network: Network, third: u8) -> bool {
    match network {
        Network::One(own) => own == third,
        Network::Every => true,
    }
}

//! The pairs of one IKE SA: found one after the other, by what they send under, and removed together.
use super::fixture::{KEY, PEER_KEY, START, here, install, receiver, reserve};
use crate::tests::asserts::{granted, same};
use base::Items;
use esp::Outbound;
use sadb::{Pair, Table};
use std::alloc::Global;
use std::process::Abort;

/// Adds a pair of an IKE SA that sends under an SPI.
fn add(rt: &impl Abort, alloc: Global, table: &mut Table, ike: u32, outbound: u32) -> u32 {
    let spi = reserve(table).expect(rt, "an SPI");
    let inbound = receiver(alloc, spi.number(), &KEY).expect(rt, "memory");
    let outbound = Outbound::new(outbound, &PEER_KEY, false, 0);
    let local = granted(rt, Items::from_slice(alloc, &[here()]));
    let remote = granted(rt, Items::from_slice(alloc, &[here()]));
    let pair = Pair::new(ike, inbound, outbound, local, remote);
    install(table, spi, pair)
}

/// A table with four pairs of two IKE SAs, and what each sends under.
fn filled(rt: &impl Abort, alloc: Global) -> Table {
    let mut table = Table::new(alloc, START);
    for (ike, outbound) in [(7, 1000), (8, 1000), (7, 2000), (7, 1000)] {
        add(rt, alloc, &mut table, ike, outbound);
    }
    table
}

#[test]
fn pairs_of_an_association(rt: HostRuntime) {
    let table = filled(&rt, rt.alloc());
    same(&rt, table.next_of(7, 0), Some(1));
    same(&rt, table.next_of(7, 1), Some(3));
    same(&rt, table.next_of(7, 3), Some(4));
    same(&rt, table.next_of(7, 4), None);
    same(&rt, table.next_of(9, 0), None);
    same(&rt, table.next_of(8, u32::MAX), None);
}

#[test]
fn pairs_removed_together(rt: HostRuntime) {
    let mut table = filled(&rt, rt.alloc());
    table.remove_all_of(7);
    same(&rt, table.next_of(7, 0), None);
    same(&rt, table.next_of(8, 0), Some(2));
    same(&rt, table.after(2).map(|pair| pair.serial), None);
}

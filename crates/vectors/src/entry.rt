//! The entries by what they are about, in the order of their Message IDs.
mod keyed;
mod messages;
mod offers;
mod packets;
mod recovery;
mod windows;

use std::alloc::{AllocError, Global};

// A table of entries: where it begins, counted from 0, and what it is about.
#[derive(Clone, Copy)]
enum Table {
    Keyed,
    Packets,
    Windows,
    Recovery,
    Messages,
    Offers,
}

// All tables, each with the place of its first entry.
const TABLES: [(u32, Table); 6] = [
    (0, Table::Keyed),
    (2, Table::Packets),
    (17, Table::Windows),
    (25, Table::Recovery),
    (33, Table::Messages),
    (53, Table::Offers),
];

/// Whether the entry at a place, counted from 0 over all tables, comes to what it should. There is none
/// past the last.
pub fn holds(alloc: Global, place: u32) -> Result<bool, AllocError> {
    for (first, table) in TABLES.iter().rev() {
        if let Some(row) = place.checked_sub(*first) {
            return table.holds(alloc, row as usize);
        }
    }
    Ok(false)
}

impl Table {
    // Whether a row of it comes to what it should.
    fn holds(self, alloc: Global, row: usize) -> Result<bool, AllocError> {
        match self {
            Table::Keyed => Ok(keyed::holds(row)),
            Table::Packets => packets::holds(alloc, row),
            Table::Windows => windows::holds(alloc, row),
            Table::Recovery => Ok(recovery::holds(row)),
            Table::Messages => messages::holds(alloc, row),
            Table::Offers => offers::holds(alloc, row),
        }
    }
}

//! Policies, flows and narrowing: rows, tables, and plain models beside the library.
mod asserts;
mod faults;
mod ipv6;
mod large;
mod laws;
mod memory;
mod narrowing;
mod offers;
mod packets;
mod plain;
mod policies;
mod ranges;

//! What every other crate speaks of: lists in memory, and the ends, ranges and selectors that traffic
//! is told apart by.
//!
//! [`Items`] is a list that contracts see as its items alone. [`Address`], [`Range`] and [`Selector`]
//! are plain data: what a message says of traffic (RFC 7296 section 3.13.1), what a policy decides
//! about, and what an association covers. `specs/` has the words that definitions share: `Octets` of
//! lists of octets, `Lists` of lists of anything, `Addresses` of ranges.
//!
//! ```rust
//! use base::{Address, Range};
//!
//! let local = Range::prefix(Address::v4([10, 0, 0, 0]), 24)?; // 10.0.0.0/24
//! assert!(rt; local.holds(Address::v4([10, 0, 0, 1])));
//! assert!(rt; !local.holds(Address::V6(0x0a00_0001))); // another family
//! ```
#![tactic(auto)]

mod address;
mod items;
mod selector;

pub use address::{Address, Family, PrefixFault, Range};
pub use items::Items;
pub use selector::Selector;

//! Traffic selectors (RFC 7296 section 3.13.1).

use crate::address::Range;

/// A traffic selector: an IP protocol (0 for any), and ranges of ports and of addresses of one family,
/// both ends included. A range whose end is below its start is empty; a message never carries one.
#[derive(Clone, Copy, Debug, PartialEq, Eq)]
pub struct Selector {
    pub protocol: u8,
    pub start_port: u16,
    pub end_port: u16,
    pub addresses: Range,
}

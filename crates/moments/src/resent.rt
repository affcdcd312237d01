//! A request that goes out again.

use base::Items;

/// A request that goes out again, the same octets (RFC 7296, section 2.1).
#[derive(Debug, Drop, PartialEq, Eq)]
pub struct Resent {
    /// The serial of its IKE SA.
    pub ike: u32,
    pub number: u32,
    /// Whether it is encrypted, as all are but IKE_SA_INIT.
    pub encrypted: bool,
    pub octets: Items<u8>,
}

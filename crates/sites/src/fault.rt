//! The refusals of this crate.
use thiserror::Error;

/// Why a gateway is not added, each where those before it don't apply.
#[derive(Clone, Copy, Debug, PartialEq, Eq, Error)]
pub enum SiteFault {
    /// Its range begins below 256, where SPIs are reserved (RFC 4303 section 2.1), or ends beyond 32 bits.
    #[error("the range of SPIs begins out of bounds")]
    Start,
    /// Another gateway has its key.
    #[error("the key is another gateway's")]
    KeyTaken,
    /// Its range has an SPI in common with that of another gateway.
    #[error("the range of SPIs meets that of another gateway")]
    Overlap,
    /// There is no memory.
    #[error("out of memory")]
    Memory,
}

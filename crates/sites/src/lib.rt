//! Gateways side by side: for which of them a datagram is.
//!
//! A gateway of this core has one peer. A caller that has many gateways lists them as [`Sites`], and asks
//! of each datagram whose it is: [`Sites::of_esp`] goes by the SPI of an ESP packet (RFC 4303 section
//! 2.1), [`Sites::of_ike`] by the address that an IKE message came from, and by its SPIs (RFC 7296
//! section 3.1). The ranges of SPIs never meet, so an SPI is of one gateway at most: [`laws`] says so.
//!
//! Ranges and refusals stand in `specs/Ranges`, the answers in `specs/Finding`. Only [`Sites::add`] takes
//! memory.
//!
//! ```rust
//! use sites::{Site, Sites};
//!
//! let mut sites = Sites::new(rt.alloc());
//! sites.add(Site {
//!     key: 7,
//!     peer: [192, 0, 2, 1],
//!     start: 0x0001_0000,
//! })?;
//! sites.add(Site {
//!     key: 8,
//!     peer: [192, 0, 2, 1],
//!     start: 0x0002_0000,
//! })?;
//! assert_eq!(rt; sites.of_esp(&[0, 1, 0, 5, 0, 0, 0, 1]), Some(7));
//! // A message that begins an association is for the newest gateway of that peer.
//! assert_eq!(rt; sites.of_ike([192, 0, 2, 1], &[], &[]), Some(8));
//! ```
#![tactic(auto)]

mod fault;
mod held;
pub mod laws;
mod list;
mod site;

pub use fault::SiteFault;
pub use held::Held;
pub use list::Sites;
pub use site::Site;

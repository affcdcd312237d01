//! The security association database of a gateway (RFC 4301 section 4.4.2): pairs of SAs, found by inbound
//! SPI, by serial and by flow.
//!
//! A [`Table`] gives inbound SPIs, holds the [`Pair`]s that come for them, and opens and seals packets by an
//! SA pair. It holds up to 1024 pairs and reserved SPIs together, and gives up to 65,536 SPIs in its life,
//! limits of this implementation; none is given twice. Making room for a pair may take memory, and so may
//! sealing; nothing else does.
//!
//! Contracts see a table as a finite map from serials to pairs, the set of reserved SPIs and how many were
//! given (`specs/Database`); how it is kept (`specs/Storage`) is in no public clause.
//!
//! ```text
//! let mut table = Table::new(alloc, 4096);
//! let spi = table.reserve()?;                            // 4096
//! let window = BlockWindow::new(alloc, 2)?;
//! let inbound = Inbound::new(spi.number(), &key, true, window);
//! let outbound = Outbound::new(peer_spi, &peer_key, true, 0);
//! let serial = table.install(spi, Pair::new(ike, inbound, outbound, local, remote));    // 1
//! table.outbound(&flow)                                  // Some(1)
//! table.seal(serial, 4, payload, &mut packet)?;
//! table.open(serial, packet_that_came)?;
//! ```
//!
//! # How it is proved
//!
//! `Places` has the SPIs in the order in which they were given, `Pairs` the slab with its index by serial.
//! Each is seen as plain data of its own: a finite map, made of a function on the numbers below a bound.
//! `proofs/NumberedLemmas` says how the map changes when one value of the function does, `PlacesLemmas` and
//! `PairsLemmas` what each part shows. What binds the two, `IsTable` (`specs/Storage`), speaks of the views
//! alone, so each part is proved without the other, and `TableLemmas` puts each call together.
//!
//! Each call leads from a table to one that follows it, and following is transitive (`FollowingLemmas`).
//! From this come the laws over any number of calls: no SPI is given twice, and an SPI names one pair for
//! ever.
#![tactic(auto)]

mod fault;
pub mod laws;
mod pair;
mod pairs;
mod places;
mod spi;
mod table;

pub use fault::{SpiFault, TableFault};
pub use pair::{Pair, State};
pub use spi::{Spi, first_spi};
pub use table::Table;

//! The Child SA of an exchange (RFC 7296, sections 1.2, 1.3.1, 2.7, 2.9 and 2.17): the pair of ESP SAs that
//! IKE_AUTH or CREATE_CHILD_SA makes, at both ends. No IKE SA, Message ID, timer or identity is known here.
//!
//! An initiator sends the three payloads of [`ask`], with an SPI that its table reserved, and takes the
//! answer by [`accept`]. A responder makes the answer and its own pair by [`respond`], which changes the
//! table's room alone, and adds the pair by [`install`] once nothing can fail any more. Where no pair comes
//! of it, the initiator's SPI goes back to its table. Each [`Setting`] brings the keys of the exchange
//! ([`suite::child_keys`]); what a pair is by a request and its reply stands in `specs/Pairs`, and that the
//! two ends' pairs mirror each other in [`laws`].
//!
//! ```text
//! let spi = table.reserve()?;
//! let asked = Asked { spi: spi.number(), local, remote, extended };
//! ask(alloc, &asked)?.append_to(&mut request)?;
//!
//! match respond(alloc, &offer, extended, &setting, &policy, &mut table)? {
//!     Response::Made(made) => {
//!         made.payloads.append_to(&mut reply)?;
//!         install(&mut table, made.pair);
//!     }
//!     Response::Refused(notice) => reply.push(notice.payload(alloc)?)?,
//! }
//!
//! match accept(alloc, &answer, &asked, &setting)? {
//!     Some(pair) => { table.install(spi, pair); }
//!     None => table.release(spi),
//! }
//! ```
//!
//! # How it is proved
//!
//! Request and response together give one list of terms (`Terms`, `specs/Terms`): SPIs, selectors, ESN.
//! Each end's pair is made of the terms as that end reads them. `proofs/ChildLemmas` shows that what the
//! code makes is such a pair, at either end. `TermLemmas` shows that both ends read the same terms, of a
//! request with one proposal. So their pairs mirror each other (`children_mirror`). `SameLemmas` shows that
//! answers are determined, `FitLemmas` that payloads fit a message.
#![tactic(auto)]

mod accepting;
mod asking;
mod fault;
pub mod laws;
mod making;
mod responding;
mod setting;

pub use accepting::accept;
pub use asking::{Asked, ask};
pub use fault::MemoryFault;
pub use responding::{Made, Response, install, respond};
pub use setting::Setting;

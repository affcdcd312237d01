//! What the messages of IKE's exchanges say (RFC 7296, sections 1 to 3): how payloads are sealed and opened,
//! and which of them count. No IKE SA and no policy is known here.
//!
//! [`seal_message`] makes a message of one encrypted payload from a message in clear, by the caller's
//! [`Sealer`](suite::Sealer), and [`open_message`] takes it apart again. Of the payloads inside,
//! [`unknown_critical`] finds what refuses a request, [`only_sa`] and its like those that count, a [`Notice`]
//! is sent and [`leading_cookie`] and its like are read, and [`esp_spis`] tells what is to be deleted.
//! [`ChildPayloads`] are what both messages say of a Child SA; their proposals are offered, chosen, answered
//! and accepted by [`suite::offer`] and the calls beside it.
//!
//! ```text
//! seal_message(&sealer, &record.initiator_keys(), &message, &fresh.seal, &mut datagram)?;
//!
//! let message = decode_message(alloc, &datagram)?;
//! if let Some(plain) = open_message(alloc, &sealer, &keys, &datagram, &message)? {
//!     let payloads = decode_chain(alloc, plain.first, plain.octets.as_slice())?;
//!     let nonce = only_nonce(&payloads);
//! }
//! ```
//!
//! # How it is proved
//!
//! `seal_message` encodes the message in clear, and puts it together anew: header, the encrypted payload's
//! header, and the body. That the result is spelled as one encrypted payload is shown from the spelling in
//! clear alone. The cipher enters by its ghost members and their laws.
#![tactic(auto)]

mod chains;
mod child;
mod deletions;
mod headers;
pub mod laws;
mod notices;
mod payloads;
mod sealed;
mod sending;

pub use chains::read_chain;
pub use child::{ChildAnswer, ChildOffer, ChildPayloads};
pub use deletions::{deletes_association, esp_spis, names_more_than};
pub use headers::{Role, sent_header};
pub use notices::{
    Notice, asked_cookie, first_error, has_invalid_syntax, leading_cookie, returned_cookie,
};
pub use payloads::{
    has_ke, offers_ike, only, only_auth, only_id_i, only_id_r, only_ke, only_nonce, only_sa,
    only_ts_i, only_ts_r, unknown_critical,
};
pub use sealed::{Plain, open_message, seal_message};
pub use sending::sealed_message;

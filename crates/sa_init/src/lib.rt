//! The exchange IKE_SA_INIT: what its two messages say and do (RFC 7296, sections 1.2, 2.6, 2.7, 2.10 and
//! 2.14). No list of IKE SAs, no Message ID and no timer is known here.
//!
//! An initiator sends what [`request`] makes, and [`read`] tells what the response to it means: keys, a
//! cookie that is to be brought back, or nothing. A responder lets [`judge`] look at a request, and sends
//! what [`answer`] makes of an [`Offer`] that is accepted, or the notification of a [`Judgement`] by
//! [`refuse`]. While many IKE SAs are half open it asks for a cookie under its [`Cookies`], so that it keeps
//! nothing for a sender that can't be reached.
//!
//! ```text
//! match judge(&caller, payloads, &sender, &cookies, half_open, held) {
//!     Judgement::Accepted(offer) => answer(alloc, &caller, &offer, sender.spi_i, &fresh)?,
//!     Judgement::Answered(notice) => refuse(alloc, sender.spi_i, &notice)?,
//!     Judgement::Incomplete | Judgement::Full => ..,
//! }
//! ```
//!
//! # How it is proved
//!
//! The headline is `both_ends_have_one_record` (`proofs/AgreementLemmas`). Both ends compute their key
//! record from the same parts: SPIs, nonces and public values. The responder spells them in its answer, and
//! octets spell one message. So the initiator reads the parts that were sent, and the law of `Agreement`
//! makes both secrets one. `JudgementLemmas` shows that a request is judged in one way, and that nothing is
//! accepted without a right cookie where one is asked for. `FittingLemmas` shows that what is accepted can
//! be answered. Proofs are by cases on what is found in a message, of which `PartLemmas` says that it is
//! determined.
#![tactic(auto)]

mod agreeing;
mod answers;
mod cookies;
mod encoding;
mod judging;
pub mod laws;
mod parts;
mod requests;
mod response;

pub use answers::{Agreed, answer, refuse};
pub use cookies::{Cookies, SecretsSpent};
pub use judging::{
    ASSOCIATION_LIMIT, COOKIE_THRESHOLD, HALF_OPEN_LIMIT, Judgement, Offer, Sender, judge,
};
pub use requests::request;
pub use response::{COOKIES_TAKEN_LIMIT, Response, Waiting, read};

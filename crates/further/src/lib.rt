//! An additional Child SA of an IKE SA that is established (RFC 7296, sections 1.3 and 1.3.1): what the
//! messages of CREATE_CHILD_SA say of it, and what either end makes of them. Initiator and responder are
//! those of this exchange: either end of the IKE SA may ask, whatever its role in the first one. Message IDs
//! and retransmission stand in the crate `requests`.
//!
//! An initiator sends the payloads of [`ask`], with an SPI that its table reserved and a fresh nonce. A
//! responder tells by [`decide`] what becomes of the request, which changes the table's spare capacity alone,
//! sends the payloads of [`answer_payloads`], and adds its SA pair by [`children::install`] once nothing can
//! fail any more. What the initiator makes of the answer is a [`Conclusion`]. The keys come from the IKE SA's
//! and the nonces of this exchange (section 2.17). No key exchange takes place in it, and no IKE SA is made
//! in place of another: a request for either is refused. A Notify payload in a request is passed over,
//! REKEY_SA among them, so no child is replaced. What a request asks for, or why it is refused before policy
//! and table are asked, [`judge`] tells alone. That the two ends' pairs mirror each other, and what else
//! follows from the definitions alone, stands in [`laws`].
//!
//! ```text
//! let payloads = ask(alloc, &asked, &fresh.nonce)?;
//!
//! let decision = decide(alloc, &step, &mut table, ike, &keys, deleting, &plain)?;
//! let closes = decision.is_closing();
//! let (answer, pair) = decision.into_parts();
//! let payloads = answer_payloads(alloc, answer, &step.fresh.nonce)?;
//! ```
//!
//! # How it is proved
//!
//! A request is judged in one way (`proofs/JudgementLemmas`), and a decision is made of that judgement,
//! policy and table (`DeterminedFurther`). The pair itself is a child as in [`children`], under keys of the
//! two nonces of this exchange. `PairLemmas` shows this for either end, and takes the mirroring from
//! `children_mirror`. For messages that come as they were sent it adds that octets spell one list of
//! payloads (`ReadingLemmas`). So pairs mirror each other by what [`ask`] and [`decide`] return alone
//! (`ends_mirrored`). `OfferLemmas` and `RefusalLemmas` say what either answer brings about at the end that
//! asked.
#![tactic(auto)]

mod answering;
mod asking;
mod concluding;
mod deciding;
mod judging;
pub mod laws;
mod payloads;

pub use answering::answer_payloads;
pub use asking::ask;
pub use concluding::Conclusion;
pub use deciding::{Decision, decide};
pub use judging::{FurtherRequest, Judgement, judge};

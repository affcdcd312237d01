//! Who the two ends of an IKE SA are (RFC 7296, sections 1.2, 2.3, 2.15, 3.5 and 3.8): what the messages of
//! IKE_AUTH say of identities, of their proofs and of windows. No IKE SA, Message ID, timer or Child SA is
//! known here.
//!
//! An initiator sends the payloads of [`request`], and a responder makes of them what [`judge`] tells: where
//! it doesn't refuse them by a notification, it sends those of [`answer`], and the initiator asks
//! [`is_accepted`] who sent them. Each end proves by [`prove`] what its [`Proving`] and its [`Identity`] say,
//! and the other looks at it by [`is_proved`]; it tells its window by [`window_notice`], and the other reads
//! it by [`peer_window`]. The content of a child comes from the caller, as
//! [`ChildPayloads`](exchange::ChildPayloads), and proofs are made and accepted by the caller's
//! [`Proof`](suite::Proof). What follows from the definitions alone is in [`laws`].
//!
//! ```text
//! let proving = Proving::of(Role::Initiator, &keys, &first_request);
//! let proving_back = Proving::of(Role::Responder, &keys, &first_answer);
//! let payloads = request(alloc, &caller, &own, &proving, child, 4)?;
//!
//! match judge(alloc, &caller, &peer, &proving, payloads.as_slice())? {
//!     Judgement::Refused(notice) => send(notice.payload(alloc)?),
//!     Judgement::Accepted(asked) => {
//!         let child = child_of(&asked.offer)?;
//!         send_all(answer(alloc, &caller, &own, &proving_back, child, 4)?)
//!     }
//! }
//!
//! let established = is_accepted(alloc, &caller, &peer, &proving_back, answered.as_slice())?;
//! ```
#![tactic(auto)]

mod answering;
mod identity;
pub mod laws;
mod naming;
mod proving;
mod requesting;
mod window;

pub use answering::{answer, is_accepted};
pub use identity::Identity;
pub use naming::IdentityFault;
pub use proving::{Proving, is_proved, prove};
pub use requesting::{Asked, Judgement, judge, request};
pub use window::{peer_window, window_notice};

//! ICVs of many messages side by side: HMAC-SHA-256-128 (RFC 4868), as crate `mac` has it, in eight lanes.
//!
//! SHA-256 takes the blocks of one message in turn, and so leaves most of a processor idle. Here eight
//! messages go through it at once, one in each lane of a vector. Each has its key, and may have any length.
//! In whatever order they come, eight that have as many blocks go side by side; the others follow one
//! another, and where one ends, the next takes its lane. Messages so long that the other lanes would wait
//! for them, and those that are too few to fill lanes, are computed alone. The values are the same in each
//! case: that of [`mac::IcvKey::icv`].
//!
//! Nothing here takes memory: the values go to places that the caller gives, and what is kept between
//! stands on the stack.
//!
//! ```rust
//! use lanes::{LaneKey, MESSAGES_LEAST, Task, icv_all};
//!
//! let first = LaneKey::new(&[0x0b; 32]);
//! let second = LaneKey::new(&[0x0c; 32]);
//! let half = 7u32.to_be_bytes();
//! let tasks = [
//!     Task { key: &first, octets: b"a packet", more: &half },
//!     Task { key: &second, octets: b"a packet without more", more: &[] },
//! ];
//! let mut values = [[0; 16]; 2];
//! icv_all(&tasks, &mut values, MESSAGES_LEAST);
//! assert_eq!(rt; values[0], mac::icv(&[0x0b; 32], &[b"a packet", &half]));
//! ```
//!
//! From the bottom: [`words`] has the functions of SHA-256 on vectors, [`rounds`] its compression,
//! [`blocks`] brings words into lanes and out of them, [`padding`] and [`message`] say which block comes
//! next, [`absorbing`] hashes, [`tagging`] makes HMAC of it, [`eight`] takes eight messages, [`stream`]
//! those that follow one another, and [`order`] and [`batch`] any number of them.
//!
//! # How it is proved
//!
//! What a lane has done is plain SHA-256: its state is that behind so many blocks of its message
//! (`AreInLanes`, `specs/Stream`). A step of the compression is proved lane by lane, since what holds of
//! each of the eight lanes holds of the vector (`proofs/LaneLemmas`). `BlockLemmas` shows that the words in
//! lanes are those of the blocks, `MessageLemmas` that the blocks are the message with its padding. The
//! loop of [`absorbing`] counts blocks. The one of [`stream`] has as its invariant that each message begun
//! has its digest or stands in a lane (`AreBegun`, `StreamLemmas`). `TaggingLemmas` makes HMAC of two
//! digests. `BatchLemmas` goes from places that were written in another order to the list of values.
#![tactic(auto)]

mod absorbing;
mod batch;
mod blocks;
mod constants;
mod eight;
mod key;
mod message;
mod order;
mod padding;
mod pads;
mod rounds;
mod stream;
mod tagging;
mod task;
mod words;

pub use batch::{MESSAGES_LEAST, icv_all};
pub use key::LaneKey;
pub use task::Task;

//! The core as a library for C: a gateway, or one ESP SA by itself under a given key.
//!
//! A handle of 16 octets lies in the caller's storage. All zeros is none. `suk_new`, `suk_sender` and
//! `suk_receiver` make it lead to an end; `suk_end` and `suk_end_association` free that, and the handle is
//! none again. Each other call answers 0, or a code that says why it did nothing: a refusal's E number, or
//! one from 101 on ([`Refusal`](refusal::Refusal)). A call for an end of another kind is refused as one for
//! none.
//!
//! ```c
//! suk_association sender = SUK_NONE;
//! suk_sealed told;
//! suk_sender(&sender, 256, key, 1, 6);                               // 0
//! suk_seal(&sender, 4, payload, 11, room, sizeof room, &told);       // 0, and number 7 in 40 octets
//! suk_end_association(&sender);
//! ```
//!
//! What a gateway makes of an input is told by a record ([`SukOutput`](output::SukOutput)). What an ESP
//! packet carried is told as a place in the packet; a packet on its way out is sealed into the caller's
//! room; messages of IKE are kept until the next input, and taken by `suk_message`.
//!
//! # What is proved
//! - `suk_new` makes the gateway of the configuration, the policy, the secrets and the first SPI that its
//!   arguments spell, with no IKE SA and no Child SA. A refused call leaves the handle, and its code tells
//!   why.
//! - `suk_sender` and `suk_receiver` make the end that their arguments spell. A refused call leaves the
//!   handle.
//! - `suk_seal` writes the packet that [`esp::Outbound::seal`] seals at the beginning of the room, tells
//!   its number and length, and leaves what stood in the room behind it. Refused, it changes neither
//!   sender, room nor what is told.
//! - `suk_open` judges a packet as [`esp::Inbound::open`] does, and tells the payload as a place in the
//!   packet. Refused, it changes nothing, but that bad padding (19) leaves the packet's number taken.
//! - Each input takes one step of the gateway ([`gateway::Gateway::traced_step`]) with the input that its
//!   arguments spell; the record tells the step's output and trace, and what is left to be taken are that
//!   output's messages.
//! - `suk_outward` puts the ESP packet of that step at the beginning of the room, and leaves what stood
//!   behind it. Where the packet doesn't go out protected it leaves the whole room, and where the room is
//!   shorter than the packet and 29 octets the gateway too. A sealed packet is never longer than that.
//! - `suk_esp_all` takes as many steps as there are places in the buffer, in their order, each with the
//!   packet at its place; each record tells its step. A packet that is refused alone leaves the gateway.
//! - `suk_outward_all` does so with packets on their way out. Their ESP packets are the octets at the
//!   beginning of the room, one behind the other; each record says where its own begins. What stood behind
//!   them stands there still. One that is refused alone leaves the gateway, and none is for want of memory.
//! - Views leave what the handle leads to as it was, and tell what it holds: the next moment, messages that
//!   are left, IKE SAs that were closed, Child SAs with their selectors, and all IKE SAs. Where they find
//!   nothing they tell nothing.
//! - `suk_keys` tells the keys of an IKE SA, and only where the gateway's terms allowed that.
//! - Every call returns, whatever the octets and the codes, and each end that is made is freed at most
//!   once.
//!
//! Not proved, of any call: that it says 20, or a record of ESP packets that came does, only where memory is
//! short.
//!
//! # What is trusted to C
//! - A handle begins as all zeros and is changed by these calls alone. It has one owner: it may be moved,
//!   and is never copied.
//! - No two pointers of one call overlap, and nothing else touches what a call was given until it returns.
//!   A handle stays on the thread that made it: nothing proves that it may move.
//! - A pointer is good for the length that is given with it, is not null, and is aligned for its type. No
//!   length is above 2^63 - 1.
//! - Fresh octets are drawn anew, so that nobody can guess them, for each input that has them, also for one
//!   that is refused.
//! - Who counts on numbers that never repeat gives a new sender the last number that the key was used with.
//!
//! This code doesn't overwrite what it frees. `tools/library.sh` links it with `bindings/c/wipe.c`,
//! which does.
#![tactic(auto)]

mod end;
mod handle;
mod held;
mod hosted;
mod inputs;
mod keys;
mod lists;
mod making;
mod output;
mod parts;
mod refusal;
mod room;
mod simplex;
mod target;
mod terms;
mod views;

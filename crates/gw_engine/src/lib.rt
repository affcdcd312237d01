//! The engine of `gw`: what its commands do, with a file's octets over any reader and any writer. It is a
//! crate of its own, so that it is checked without the program's command line.
//!
//! [`play`] plays a script (`script`). Its first line names its kind; each further line is a directive, and
//! what came of it is printed. A script of kind `one` has the two ends of one ESP SA (RFC 4303):
//! its sender seals packets, its receiver opens them.
//!
//! ```text
//! one
//! sa 256 0b0b0b0b0b0b0b0b0b0b0b0b0b0b0b0b0b0b0b0b0b0b0b0b0b0b0b0b0b0b0b0b 2 no
//! seal 4 c0ffee              sealed 1 number 1 length 32
//! deliver 1                  up number 1 next 4 c0ffee
//! deliver 1                  E16
//! ```
//!
//! A script of kind `two` has two gateways, A and B, and what goes between them. Its opening lines say what
//! each protects, and how many requests it takes at once; then one line begins an IKE SA (RFC
//! 7296), or brings a datagram or a packet to an end.
//!
//! ```text
//! two
//! entry A protect 0 10.0.0.0-10.0.0.255 0-65535 10.1.0.0-10.1.0.255 0-65535
//! entry B protect 0 10.1.0.0-10.1.0.255 0-65535 10.0.0.0-10.0.0.255 0-65535
//! start A 0                  request 1 ike 1 length 148
//! deliver 1                  reply 2 length 148
//! deliver 2                  request 3 ike 1 length 202
//! deliver 3                  reply 4 length 194
//! deliver 4                  counted ike 1 child 1
//! ```
//!
//! [`show`] prints an IKE message (RFC 7296 section 3) whose octets the file has as hexadecimal digits.
//!
//! [`check`] computes exact values that are known from elsewhere ([`vectors`]), and prints how many hold.
//!
//! Each answers the exit status, and prints why it stopped ([`Stop`]).
//!
//! # How it is proved
//!
//! The model of a message's text (`specs/Showing`) is a function from a message to its text, and each
//! function of `showing/lines.rt` is proved to give its part. A line with more than one number is written
//! by a function of its own from numbers and texts. A loop appends the text of one item at a time; its
//! invariant is that the text so far is `flat_map` of the items so far. `shown` goes from digits to text,
//! apart from reading and writing.
#![tactic(auto)]

mod checking;
mod playing;
mod showing;
mod stop;

pub use checking::check;
pub use playing::{play, play_by, play_lines};
pub use showing::show;
pub use stop::{Stop, end};

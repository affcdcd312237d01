//! Scripts of `gw`: their lines and words, and the machines that play them. [`One`] plays the two ends of
//! one ESP SA, [`Two`] two gateways and what goes between them; what a script may say is told in
//! `docs/SCRIPTS.md`.
//!
//! The first line names a script's kind ([`first_line`], [`Kind`]); a [`Player`] plays its [`directives`]
//! one after the other, and answers what each one prints.
#![tactic(auto)]

mod fault;
mod kind;
mod lines;
mod one;
mod player;
mod two;
mod words;

pub use fault::LineFault;
pub use kind::Kind;
pub use lines::{Line, directives, first_line};
pub use one::One;
pub use player::Player;
pub use two::Two;

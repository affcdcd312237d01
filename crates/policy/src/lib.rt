//! The security policy of a gateway (RFC 4301 section 4.4.1): which flows are protected, bypassed or
//! discarded, and what selectors a responder agrees to (RFC 7296 section 2.9).
//!
//! A traffic selector is a set of [`Point`]s. A point is one end of a flow: an IP protocol, an address of
//! either family, and a port where the protocol has ports: of these TCP and UDP alone count, and ICMP
//! types, mobility header types and OPAQUE ports are not understood, a limit of this implementation. A list
//! of selectors is the union of its members. No selector holds points of both families.
//!
//! [`inner`] finds the [`Flow`] of an IP packet, and [`read_inner`] writes it where its caller reads it.
//! [`family_of_packet`] finds the family that its version names, [`Policy::decide`] what is done with a flow,
//! [`covers`] whether selectors hold it, [`narrow`] what an offer becomes under a policy, and [`are_inside`]
//! whether an answer keeps to its offer. Only [`narrow`] takes memory. [`laws`] has facts about these answers.
//!
//! The sets stand in `specs/Points`, decisions in `specs/Decisions`, the responder's choice in
//! `specs/Narrowing`, and the layout of packets in `specs/Packets`.
//!
//! ```rust
//! use base::{Address, Items, Range};
//! use policy::{Decision, Direction, Entry, Policy, inner};
//!
//! let local = Range::prefix(Address::v4([10, 0, 0, 0]), 24)?;
//! let remote = Range::prefix(Address::v4([10, 1, 0, 0]), 24)?;
//! let entry = Entry::protect(local, remote);
//! let policy = Policy::new(Items::from_slice(rt.alloc(), &[entry])?)?;
//! // A header of IPv4 alone, from 10.0.0.1 to 10.1.0.1.
//! let packet = [
//!     0x45, 0, 0, 20, 0, 0, 0, 0, 64, 1, 0, 0, 10, 0, 0, 1, 10, 1, 0, 1,
//! ];
//! assert_eq!(rt;
//!     policy.decide(&inner(&packet)?, Direction::Outward),
//!     Decision::Protect
//! );
//! ```
//!
//! # How it is proved
//!
//! Contracts speak of points, and the code compares ends of ranges. `proofs/PointLemmas` goes between the
//! two:
//!
//! - a selector has a point exactly if its ranges are in order and its ports fit its protocol;
//! - one lies in another exactly if its ends do, where it has a point;
//! - two have a common point exactly if their ranges overlap and the ports of the common protocol fit.
//!
//! A narrowed list is said selector by selector (`IsNarrowed`), and beside it of the whole union
//! (`HasAllCommonPoints`).
#![tactic(auto)]

mod entry;
mod fault;
mod flow;
mod ipv4;
mod ipv6;
pub mod laws;
mod narrowing;
mod offer;
mod packet;
mod point;
mod policy;
mod ports;
mod selectors;

pub use entry::{Action, Entry};
pub use fault::{InnerFault, NarrowFault, PolicyFault};
pub use flow::{Flow, Ports};
pub use narrowing::{Narrowed, narrow};
pub use offer::are_inside;
pub use packet::{family_of_packet, inner, no_flow, read_inner};
pub use point::Point;
pub use policy::{Decision, Direction, Policy};
pub use selectors::covers;

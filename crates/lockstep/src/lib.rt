//! Two ends of one IKE SA, by their moves alone (RFC 7296 sections 2.1 to 2.3).
//!
//! The crate knows keys, numbers and octets, and no payload, gateway or datagram. It has no code that runs:
//! its [`laws`] say what holds of two ends over every list of steps of either, in any order, as long as
//! what is processed or matched at one of them was sent by the other, and neither came to keys more than
//! once. In each direction:
//!
//! - What is in effect at one end was issued by the other, and what is answered there is in effect here.
//! - All numbers below a gap are in effect, none from a window above it on, and no more are under way than
//!   the window that the asking end counts for its peer. That the peer told it is not seen here: moves know
//!   no payload.
//! - Where that window is one the requests in effect are the first ones, those answered are the same or all
//!   but the last, and none is skipped.
//! - All that an end sends with one number is one request, and one response.
//!
//! The same holds of two parties that hold many IKE SAs, for each key record under which both hold
//! one.
//!
//! What an end is and does stands in `specs/Ends`, a list of steps and its premises in `specs/Histories`,
//! what stays so in `specs/Soundness`, what is promised in `specs/Promises`, and parties in
//! `specs/Parties`. `specs/Worked` has a list for which the premises hold.
//!
//! # How it is proved
//!
//! A `Ledger` is what is seen of an IKE SA with keys without reading a payload: keys, role, whether it is
//! closed, both ends' Message IDs, cached responses, and the octets that wait. Timers are not in it, so a
//! retransmission is no move. The crate `effects` has the moves of a message, with one ledger between the
//! two moves of a step, and `ike` finds the IKE SA with a serial before and after.
//!
//! What an end waits for belongs to its phase (`MayBeOutstanding`), and one that waits for the response to
//! IKE_SA_INIT or IKE_AUTH took no request (`TookNoRequest`). So the first ledger is known, the request of
//! IKE_AUTH has Message ID 1, and a closed IKE SA is not closed again. A move's octets were sealed under
//! the keys of this end with its own header, so they open again by the cipher's law.
#![tactic(auto)]

pub mod laws;

//! `tool_host`: one gateway behind standard input and output, so that a program in any language can put
//! sockets round the core.
//!
//! It reads frames and answers each by one, in order, until the input ends. A frame is a length of 4
//! octets and so many octets behind it, at most 1,048,576 in what is read: the kind, of 1 octet, and
//! the body. All numbers are big endian. A *block* is a length of 2 octets and so many octets behind
//! it. `fresh` is 88 octets that were drawn anew for this frame: an SPI of 8, a nonce of 32, a secret
//! of 32 and 16 for sealing.
//!
//! The first frame, of kind 0, is the configuration. The cipher, key agreement and proofs are those of
//! [`caller_peer`]. Its body:
//!
//! | Octets | |
//! |---|---|
//! | 1, 1, 4 | the window, 1 to 16; 0 for no ESN; the blocks of the replay windows, 2, 4, 8 .. 128 |
//! | 4, 32 | the first inbound SPI; the first secret of cookies |
//! | 1, 4, block, block | this end: its identity's type (below), its IPv4 address, its identity, its secret |
//! | 1, 4, block, block | the peer: the same |
//! | up to the end | the entries of the policy, in their order |
//!
//! The types of identities are those of RFC 7296, section 3.5.
//!
//! An entry: the action (0 discards, 1 lets go in the clear, 2 protects), the family (4 or 6) and the
//! protocol (0 for any), of 1 octet each. Then of 2 octets each the first and the last local port, the
//! first and the last remote port. Then of 4 or 16 octets each the first and the last local address,
//! the first and the last remote address.
//!
//! | Kind | Input | Body |
//! |---|---|---|
//! | 1 | a datagram of IKE that came | the IPv4 address it came from, `fresh`, the datagram up to the end |
//! | 2 | the command to start | of 4 octets each an IKE SA (0: a new one) and an entry (from 0), `fresh` |
//! | 3 | the command to probe | an IKE SA of 4 octets, `fresh` |
//! | 4 | the command to delete a child | the child, of 4 octets, `fresh` |
//! | 5 | the command to delete an IKE SA | the IKE SA, of 4 octets, `fresh` |
//! | 6 | a new secret of cookies | 32 octets |
//! | 7 | the time | a time of 8 octets, in milliseconds |
//! | 8 | an ESP packet that came | the packet, from its SPI on |
//! | 9 | a packet on its way out | the packet |
//! | 10 | a packet that came in unprotected | the packet |
//!
//! An answer has kind 0 and no body where the configuration is taken. Of an input it has one of these:
//! 1 a reply, 2 a repeat, 3 a request, 4 counted, 5 ticked, 6 done, 7 up, 8 a dummy, 9 sealed, 10
//! clear, 11 discarded, 12 dropped, 13 refused. Its body:
//!
//! | Octets | |
//! |---|---|
//! | 1 | the E number of what is dropped or refused, else 0 |
//! | 4 | the IKE SA of what is sent or counted, 0 for none |
//! | 4 | the child that a packet is of, or that was made, 0 for none |
//! | 8 | the sequence number of an ESP packet, 0 for none |
//! | 8 | the next time at which a tick does anything, 2^64 - 1 for none |
//! | 4, then 4 each | how many IKE SAs were closed, and their serials |
//! | 4 | how many datagrams are to be sent |
//! | for each 1, 4, so many | its way (1 by UDP, 2 by IP), its length, its octets |
//! | up to the end | the packet that goes up or on |
//!
//! An answer of kind 14 has a text as its body: the frame was malformed, and the gateway is as it was.
//! Nothing else is read of that frame, and the next one is taken as ever.
//!
//! The exit status is 0 where the input ended behind a frame. It is 2 where the input ends inside one,
//! where one has no kind or more octets than it may, and where the configuration is refused. It is 1
//! where octets can't be read or written, or there is no memory for them. Why is a line on standard
//! error; what was answered until then stands.
#![tactic(auto)]

mod fault;
mod fields;
mod frames;
mod inputs;
mod outputs;
mod serving;
mod settings;

use fault::{FrameFault, SettingsFault, Stop};
use serving::serve;
use std::io;
use std::process::ExitCode;

fn main(rt: HostRuntime) -> ExitCode {
    match serve(rt.alloc(), &mut rt.reader(), &mut io::writer(&rt)) {
        Ok(()) => ExitCode::from(0),
        Err(stop) => {
            // Where standard error can't be written either, the status still tells.
            let _ = eprintln!(rt; "tool_host: {stop}");
            ExitCode::from(stop.status())
        }
    }
}

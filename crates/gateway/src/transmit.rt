//! The datagrams that an output says to send.
ghost use Rattle.std.specs.Prelude.{◌≡◌, ◌∷◌, []};
ghost use Rattle.std.specs.Iterator.{YieldsFirstBy, item_count};
ghost use Rattle.gateway.specs.Datagrams.{datagrams_left, datagrams_of, reason_of, transmit_view};
ghost use Rattle.gateway.specs.Outputs.{output_view};

use crate::{Output, Reason};
use moments::Resent;

/// A datagram that is to be sent to the peer.
#[derive(Clone, Copy, Debug, PartialEq, Eq)]
pub enum Transmit<'a> {
    /// A message of IKE, of at most 3000 octets: over UDP, from port 500 to port 500 (RFC 7296, section 2).
    Ike(&'a [u8]),
    /// An ESP packet, of at most 16,664 octets: over IP, as protocol 50 (RFC 4303, section 2).
    Esp(&'a [u8]),
}

/// The datagrams that an output says to send, in their order: what [`Output::datagrams`] gives.
#[derive(Clone, Copy, Debug, Drop)]
pub struct Datagrams<'a> {
    first: Option<Transmit<'a>>,
    again: &'a [Resent],
}

impl<'a> Iterator for Datagrams<'a> {
    type Item = Transmit<'a>;

    ghost next_gives = { YieldsFirstBy transmit_view datagrams_left };

    ghost remaining = { item_count datagrams_left };

    fn next(&mut self) -> Option<Transmit<'a>> {
        if let Some(first) = self.first.take() {
            return Some(first);
        }
        let (request, others) = self.again.split_first()?;
        self.again = others;
        Some(Transmit::Ike(request.octets.as_slice()))
    }
}

impl<'a> Output<'a> {
    /// The datagrams that are to be sent to the peer, in their order. A [`Reply`](Output::Reply), a
    /// [`Repeat`](Output::Repeat) and a [`Request`](Output::Request) have one message of IKE, and
    /// [`Ticked`](Output::Ticked) one for each request that goes out again; [`Sealed`](Output::Sealed) has
    /// one ESP packet. All others have none. Takes no memory.
    pub fn datagrams(&self) -> Datagrams<'_>
        ensures { datagrams_left result ≡ datagrams_of (output_view self.now) }
    {
        match self {
            Output::Reply { octets, .. }
            | Output::Repeat { octets }
            | Output::Request { octets, .. } => { Datagrams::one(Transmit::Ike(octets.as_slice())) }
            Output::Sealed { octets, .. } => Datagrams::one(Transmit::Esp(octets.as_slice())),
            Output::Ticked { requests, .. } => Datagrams {
                first: None,
                again: requests.as_slice(),
            },
            _ => Datagrams {
                first: None,
                again: &[],
            },
        }
    }

    /// Why the input was dropped or refused. None where it was not.
    pub fn reason(&self) -> Option<Reason>
        ensures { result ≡ reason_of (output_view self.now) }
    {
        match self {
            Output::Dropped { reason } | Output::Refused { reason } => Some(*reason),
            _ => None,
        }
    }
}

impl<'a> Datagrams<'a> {
    fn one(datagram: Transmit<'a>) -> Datagrams<'a>
        ensures { datagrams_left result ≡ transmit_view datagram.entry ∷ [] }
    {
        Datagrams {
            first: Some(datagram),
            again: &[],
        }
    }
}

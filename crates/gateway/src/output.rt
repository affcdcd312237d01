//! The outputs of a gateway.
ghost use Rattle.std.specs.Prelude.{◌≡◌};
ghost use Rattle.ike.specs.Outputs.{no_trace};
ghost use Rattle.gateway.specs.Outputs.{output_view, view_of_ike, view_of_outcome};
ghost use Rattle.traffic.specs.Outcomes.{outcome_of_admission, outcome_of_arrival, outcome_of_departure};

use crate::Reason;
use base::Items;
use ike::{IkeOutput, Stepped, Trace};
use moments::{Resent, Ticked};
use traffic::{Admission, Arrival, Departure};

/// What comes of one input. IKE SAs and Child SAs are named by their serials.
#[derive(Debug, Drop, PartialEq, Eq)]
pub enum Output<'a> {
    /// A request of the peer is answered for the first time, by these octets. It was processed, or it is one
    /// of IKE_SA_INIT that gets a notification alone, such as a cookie.
    Reply {
        octets: Items<u8>,
        /// The IKE SA that the request closed, if it did.
        closed: Option<u32>,
    },
    /// The peer retransmitted a request that was processed before; these are the octets of the first
    /// response.
    Repeat {
        octets: Items<u8>,
    },
    /// A request of this end is to be sent: for the first time, or that of IKE_SA_INIT again with a cookie.
    Request {
        ike: u32,
        octets: Items<u8>,
    },
    /// A response was matched to its request, which waits no more.
    Counted {
        ike: u32,
        /// The Child SA that it made, if one.
        child: Option<u32>,
        /// The IKE SA that it closed, if it did.
        closed: Option<u32>,
    },
    /// What a `Tick` brought.
    Ticked {
        /// The requests to retransmit, in the order of their IKE SAs and by rising Message ID.
        requests: Items<Resent>,
        /// The IKE SAs that were closed because no response came, in their order.
        closed: Items<u32>,
    },
    /// The cookies are made under the new secret from now on.
    Done,
    /// A packet is delivered: the payload of an accepted ESP packet, a part of the borrowed octets from the
    /// ninth on ([`what_goes_up_is_part_of_what_came`](crate::laws::what_goes_up_is_part_of_what_came)).
    Up {
        child: u32,
        /// The sequence number of the ESP packet.
        number: u64,
        packet: &'a [u8],
    },
    /// An accepted ESP packet was a dummy packet: it carries nothing (RFC 4303, section 2.6).
    Dummy {
        child: u32,
        number: u64,
    },
    /// An outbound packet, protected: these octets are the ESP packet to send.
    Sealed {
        child: u32,
        number: u64,
        octets: Items<u8>,
    },
    /// A packet passes unchanged, since the policy bypasses it.
    Clear {
        packet: &'a [u8],
    },
    /// A packet is discarded, since the policy says so.
    Discarded,
    /// What came, or was to be sent, is dropped for this reason.
    Dropped {
        reason: Reason,
    },
    /// The input is refused. Nothing but the table's spare capacity changed.
    Refused {
        reason: Reason,
    },
}

/// An output, and beside it what the step sent under the keys of IKE SAs, what it made, and what the
/// peer declined.
#[derive(Debug, Drop, PartialEq, Eq)]
pub struct Traced<'a> {
    pub output: Output<'a>,
    pub trace: Trace,
}

impl<'a> Traced<'a> {
    // An output with an empty trace.
    pub(crate) fn plain(output: Output<'a>) -> Traced<'a>
        ensures output { output_view result.output ≡ output_view output.entry }
        ensures trace { result.trace ≡ no_trace }
    {
        Traced {
            output,
            trace: Trace::NONE,
        }
    }

    pub(crate) fn by_ike(stepped: Stepped) -> Traced<'a>
        ensures output { output_view result.output ≡ view_of_ike stepped.output }
        ensures trace { result.trace ≡ stepped.trace }
    {
        Traced {
            output: Output::by_ike(stepped.output),
            trace: stepped.trace,
        }
    }

    pub(crate) fn of_arrival(arrival: Arrival<'a>) -> Traced<'a>
        ensures output { output_view result.output ≡ view_of_outcome (outcome_of_arrival arrival.entry) }
        ensures trace { result.trace ≡ no_trace }
    {
        Traced::plain(Output::of_arrival(arrival))
    }
}

impl<'a> Output<'a> {
    fn by_ike(output: IkeOutput) -> Output<'a>
        ensures { output_view result ≡ view_of_ike output }
    {
        match output {
            IkeOutput::Reply { octets, closed } => Output::Reply { octets, closed },
            IkeOutput::Repeat(octets) => Output::Repeat { octets },
            IkeOutput::Request { ike, octets } => Output::Request { ike, octets },
            IkeOutput::Counted { ike, child, closed } => Output::Counted { ike, child, closed },
            IkeOutput::Ticked(Ticked { requests, closed }) => Output::Ticked { requests, closed },
            IkeOutput::Done => Output::Done,
            IkeOutput::Dropped(fault) => Output::Dropped {
                reason: Reason::Ike(fault),
            },
        }
    }

    pub(crate) fn of_arrival(arrival: Arrival<'a>) -> Output<'a>
        ensures { output_view result ≡ view_of_outcome (outcome_of_arrival arrival.entry) }
    {
        match arrival {
            Arrival::Up {
                child,
                number,
                packet,
            } => Output::Up {
                child,
                number,
                packet,
            },
            Arrival::Dummy { child, number } => Output::Dummy { child, number },
            Arrival::Dropped(fault) => Output::Dropped {
                reason: Reason::Packet(fault),
            },
        }
    }

    pub(crate) fn of_departure(departure: Departure<'a>) -> Output<'a>
        ensures { output_view result ≡ view_of_outcome (outcome_of_departure departure.entry) }
    {
        match departure {
            Departure::Sealed {
                child,
                number,
                octets,
            } => Output::Sealed {
                child,
                number,
                octets,
            },
            Departure::Clear(packet) => Output::Clear { packet },
            Departure::Discarded => Output::Discarded,
            Departure::Dropped(fault) => Output::Dropped {
                reason: Reason::Packet(fault),
            },
        }
    }

    pub(crate) fn of_admission(admission: Admission<'a>) -> Output<'a>
        ensures { output_view result ≡ view_of_outcome (outcome_of_admission admission.entry) }
    {
        match admission {
            Admission::Clear(packet) => Output::Clear { packet },
            Admission::Discarded => Output::Discarded,
            Admission::Dropped(fault) => Output::Dropped {
                reason: Reason::Packet(fault),
            },
        }
    }
}

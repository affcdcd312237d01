//! What came of an input, as C reads it.
ghost use Rattle.std.specs.Prelude.{◌≡◌};
ghost use Rattle.gateway.specs.Outputs.{output_view, view_of_outcome};
ghost use Rattle.ike.specs.Outputs.{no_trace};
ghost use Rattle.sukperin.specs.Outputs.{child_in, ike_in, of_kind, refused_alone, serial_of, told_of, with_code};
ghost use Rattle.traffic.specs.Outcomes.{outcome_of_arrival};

use crate::refusal::Refusal;
use gateway::{Arrival, Output, Reason, Trace};

/// What came of an input. A serial that is 0 names nothing. What a kind doesn't tell is 0.
#[repr(C)]
#[derive(Clone, Copy)]
pub struct SukOutput {
    /// 1 a reply, 2 a repeat, 3 a request, 4 counted, 5 ticked, 6 done, 7 up, 8 a dummy, 9 sealed, 10
    /// clear, 11 discarded, 12 dropped, 13 refused.
    pub kind: u32,
    /// Why it was dropped or refused: an E number.
    pub code: u32,
    /// The IKE SA that a request or what was counted is of; of a reply and a repeat, that under
    /// whose keys it was sent.
    pub ike: u32,
    /// The Child SA that a packet is of, or that was made.
    pub child: u32,
    /// The IKE SA that was closed.
    pub closed: u32,
    /// The IKE SA whose keys were made.
    pub keyed: u32,
    /// How many messages of IKE are left to be taken.
    pub messages: u64,
    /// How many IKE SAs a tick closed.
    pub closings: u64,
    /// The sequence number of an ESP packet.
    pub number: u64,
    /// Where octets begin: of what is delivered, in the packet that came.
    pub offset: u64,
    /// How many octets there are: of what is delivered, of what was sealed, of what goes on as it is, or of
    /// one message of IKE.
    pub length: u64,
}

impl SukOutput {
    // One of a kind, which tells nothing else.
    pub fn of_kind(kind: u32) -> SukOutput
        ensures { result ≡ of_kind kind }
    {
        SukOutput {
            kind,
            code: 0,
            ike: 0,
            child: 0,
            closed: 0,
            keyed: 0,
            messages: 0,
            closings: 0,
            number: 0,
            offset: 0,
            length: 0,
        }
    }

    // What an output and the trace of its step come to.
    pub fn of(output: &Output<'_>, trace: &Trace) -> SukOutput
        ensures { result ≡ told_of (output_view output.now) trace.now }
    {
        match output {
            Output::Reply { octets, closed } => SukOutput {
                ike: ike_in(trace),
                child: child_in(trace),
                closed: serial_of(*closed),
                keyed: keyed_in(trace),
                messages: 1,
                length: octets.len() as u64,
                ..SukOutput::of_kind(1)
            },
            Output::Repeat { octets } => SukOutput {
                ike: ike_in(trace),
                messages: 1,
                length: octets.len() as u64,
                ..SukOutput::of_kind(2)
            },
            Output::Request { ike, octets } => SukOutput {
                ike: *ike,
                keyed: keyed_in(trace),
                messages: 1,
                length: octets.len() as u64,
                ..SukOutput::of_kind(3)
            },
            Output::Counted { ike, child, closed } => SukOutput {
                ike: *ike,
                child: serial_of(*child),
                closed: serial_of(*closed),
                keyed: keyed_in(trace),
                ..SukOutput::of_kind(4)
            },
            Output::Ticked { requests, closed } => SukOutput {
                messages: requests.len() as u64,
                closings: closed.len() as u64,
                ..SukOutput::of_kind(5)
            },
            Output::Done => SukOutput::of_kind(6),
            Output::Up {
                child,
                number,
                packet,
            } => SukOutput {
                child: *child,
                number: *number,
                offset: 8,
                length: packet.len() as u64,
                ..SukOutput::of_kind(7)
            },
            Output::Dummy { child, number } => SukOutput {
                child: *child,
                number: *number,
                ..SukOutput::of_kind(8)
            },
            Output::Sealed {
                child,
                number,
                octets,
            } => SukOutput {
                child: *child,
                number: *number,
                length: octets.len() as u64,
                ..SukOutput::of_kind(9)
            },
            Output::Clear { packet } => SukOutput {
                length: packet.len() as u64,
                ..SukOutput::of_kind(10)
            },
            Output::Discarded => SukOutput::of_kind(11),
            Output::Dropped { reason } => SukOutput::with_code(12, *reason),
            Output::Refused { reason } => SukOutput::with_code(13, *reason),
        }
    }

    // What an ESP packet that came, and the empty trace of its step, come to.
    pub fn of_arrival(arrival: &Arrival<'_>) -> SukOutput
        ensures { result ≡ told_of (view_of_outcome (outcome_of_arrival arrival.now)) no_trace }
    {
        match arrival {
            Arrival::Up {
                child,
                number,
                packet,
            } => SukOutput {
                child: *child,
                number: *number,
                offset: 8,
                length: packet.len() as u64,
                ..SukOutput::of_kind(7)
            },
            Arrival::Dummy { child, number } => SukOutput {
                child: *child,
                number: *number,
                ..SukOutput::of_kind(8)
            },
            Arrival::Dropped(fault) => SukOutput::with_code(12, Reason::Packet(*fault)),
        }
    }

    // What is told of a packet of a list that this library refuses by itself.
    pub fn refused(refusal: Refusal) -> SukOutput
        ensures { result ≡ refused_alone refusal }
    {
        SukOutput {
            code: refusal.code(),
            ..SukOutput::of_kind(13)
        }
    }

    // What is dropped or refused, and why.
    pub fn with_code(kind: u32, reason: Reason) -> SukOutput
        ensures { result ≡ with_code kind reason }
    {
        SukOutput {
            code: u32::from(reason.code()),
            ..SukOutput::of_kind(kind)
        }
    }
}

// A serial, 0 where there is none.
fn serial_of(serial: Option<u32>) -> u32
    ensures { result ≡ serial_of serial }
{
    match serial {
        Some(serial) => serial,
        None => 0,
    }
}

// The IKE SA under whose keys a message was sent.
fn ike_in(trace: &Trace) -> u32
    ensures { result ≡ ike_in trace.now }
{
    match trace.sent {
        Some(mark) => mark.ike,
        None => 0,
    }
}

// The IKE SA whose keys were made.
fn keyed_in(trace: &Trace) -> u32
    ensures { result ≡ serial_of trace.now.keyed }
{
    serial_of(trace.keyed)
}

// The Child SA that was made.
fn child_in(trace: &Trace) -> u32
    ensures { result ≡ child_in trace.now }
{
    match trace.child {
        Some(child) => child.serial,
        None => 0,
    }
}

//! The outputs of a step.
ghost use Rattle.std.specs.Prelude.{◌≡◌};
ghost use Rattle.ike.specs.Outputs.{child_of, closed_serial, passed_over, plain_step, stepped_of};

use crate::IkeFault;
use base::Items;
use effects::Effect;
use moments::Ticked;

/// What comes of a step. IKE SAs and Child SAs are named by their serials.
#[derive(Debug, Drop, PartialEq, Eq)]
pub enum IkeOutput {
    /// A request of the peer is answered for the first time, by these octets. It was processed, or it is one
    /// of IKE_SA_INIT that gets a notification alone, such as a cookie.
    Reply {
        octets: Items<u8>,
        /// The IKE SA that the request closed, if it did.
        closed: Option<u32>,
    },
    /// The peer retransmitted a request that was processed before; these are the octets of the first
    /// response.
    Repeat(Items<u8>),
    /// A request of this end is to be sent: for the first time, or that of IKE_SA_INIT again with a cookie.
    Request {
        ike: u32,
        octets: Items<u8>,
    },
    /// A response was matched to its request, which waits no more.
    Counted {
        ike: u32,
        /// The Child SA that it made, if one.
        child: Option<u32>,
        /// The IKE SA that it closed, if it did.
        closed: Option<u32>,
    },
    /// What a `Tick` brought.
    Ticked(Ticked),
    /// The cookies are made under the new secret from now on.
    Done,
    /// What came is dropped for this reason.
    Dropped(IkeFault),
}

/// A message that was sent encrypted, under the keys of an IKE SA.
#[derive(Clone, Copy, Debug, PartialEq, Eq)]
pub struct Mark {
    pub ike: u32,
    pub response: bool,
    /// The Message ID: of the request that it is or answers.
    pub number: u32,
}

/// A Child SA that was made.
#[derive(Clone, Copy, Debug, PartialEq, Eq)]
pub struct MadeChild {
    pub serial: u32,
    pub ike: u32,
    /// The Message ID of the request that asked for it.
    pub number: u32,
    /// Whether this end asked.
    pub asked: bool,
}

/// What a step sent and made, and what the peer declined, beside what its output says.
#[derive(Clone, Copy, Debug, PartialEq, Eq)]
pub struct Trace {
    /// The message that it sent, where that is encrypted.
    pub sent: Option<Mark>,
    /// The IKE SA whose keys it made.
    pub keyed: Option<u32>,
    pub child: Option<MadeChild>,
    /// The notification by which the peer declined what this end had asked of it: the type of the first error
    /// notification, one below 16384, in a response that was matched (RFC 7296, section 3.10.1), where no
    /// Child SA was made of that. So it is 38 for TS_UNACCEPTABLE, 35 for NO_ADDITIONAL_SAS, 14 for
    /// NO_PROPOSAL_CHOSEN, 7 for INVALID_SYNTAX, and 24 for AUTHENTICATION_FAILED. `None` where the response
    /// has no such notification or is not in the grammar, and in every other step.
    pub declined: Option<u16>,
}

/// The output of a step, and its trace.
#[derive(Debug, Drop, PartialEq, Eq)]
pub struct Stepped {
    pub output: IkeOutput,
    pub trace: Trace,
}

impl Trace {
    /// Nothing was sent under keys, nothing made, and nothing declined.
    pub const NONE: Trace = Trace {
        sent: None,
        keyed: None,
        child: None,
        declined: None,
    };
}

impl Stepped {
    pub(crate) fn dropped(fault: IkeFault) -> Stepped
        ensures { result ≡ passed_over fault }
    {
        Stepped::plain(IkeOutput::Dropped(fault))
    }

    // An output with an empty trace.
    pub(crate) fn plain(output: IkeOutput) -> Stepped
        ensures { result ≡ plain_step output }
    {
        Stepped {
            output,
            trace: Trace::NONE,
        }
    }

    // What came of a message with this Message ID, for an IKE SA that is held.
    pub(crate) fn of_effect(ike: u32, number: u32, effect: Effect) -> Stepped
        ensures { result ≡ stepped_of ike number effect }
    {
        match effect {
            Effect::Refused(fault) => Stepped::dropped(IkeFault::Message(fault)),
            Effect::Repeated(octets) => Stepped {
                output: IkeOutput::Repeat(octets),
                trace: Trace {
                    sent: Some(Mark {
                        ike,
                        response: true,
                        number,
                    }),
                    ..Trace::NONE
                },
            },
            Effect::Replied(answered) => Stepped {
                output: IkeOutput::Reply {
                    octets: answered.octets,
                    closed: closed_serial(ike, answered.fate.is_closed()),
                },
                trace: Trace {
                    sent: Some(Mark {
                        ike,
                        response: true,
                        number,
                    }),
                    child: child_of(ike, number, false, answered.fate.child()),
                    ..Trace::NONE
                },
            },
            Effect::Again(octets) => Stepped::plain(IkeOutput::Request { ike, octets }),
            Effect::AsksAuth(octets) => Stepped {
                output: IkeOutput::Request { ike, octets },
                trace: Trace {
                    sent: Some(Mark {
                        ike,
                        response: false,
                        number: 1,
                    }),
                    keyed: Some(ike),
                    ..Trace::NONE
                },
            },
            Effect::Counted(ended) => Stepped {
                output: IkeOutput::Counted {
                    ike,
                    child: ended.fate.child(),
                    closed: closed_serial(ike, ended.fate.is_closed()),
                },
                trace: Trace {
                    child: child_of(ike, number, true, ended.fate.child()),
                    declined: ended.declined,
                    ..Trace::NONE
                },
            },
        }
    }
}

fn closed_serial(ike: u32, closed: bool) -> Option<u32>
    ensures { result ≡ closed_serial ike closed }
{
    if closed { Some(ike) } else { None }
}

fn child_of(ike: u32, number: u32, asked: bool, child: Option<u32>) -> Option<MadeChild>
    ensures { result ≡ child_of ike number asked child }
{
    match child {
        Some(serial) => Some(MadeChild {
            serial,
            ike,
            number,
            asked,
        }),
        None => None,
    }
}

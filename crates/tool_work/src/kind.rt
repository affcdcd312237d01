//! What came of a step, as far as it says whether the step was the one that is meant.
use base::Items;
use gateway::{IkeFault, MessageFault, Output, Reason};
use std::alloc::Global;

/// What an output is.
#[derive(Clone, Copy, Debug, PartialEq, Eq)]
pub enum Kind {
    /// A request goes out.
    Request,
    /// A request is answered for the first time.
    Reply,
    /// One is, and its IKE SA ends with it.
    LastReply,
    /// A request that came again gets the first response again.
    Repeat,
    /// A response was matched.
    Counted,
    /// One was, and a child made of it.
    CountedChild,
    /// One was, and its IKE SA ends with it.
    CountedLast,
    /// The time brought nothing.
    Ticked,
    /// A request goes out again.
    Resent,
    /// A packet goes out protected.
    Sealed,
    /// A packet goes up.
    Up,
    /// What came was dropped, for this reason.
    Dropped(Reason),
    /// A command was refused, for this reason.
    Refused(Reason),
    /// Anything else, which no step here is to bring.
    Other,
}

impl Kind {
    /// A message was dropped.
    pub fn dropped(fault: MessageFault) -> Kind {
        Kind::Dropped(Reason::Ike(IkeFault::Message(fault)))
    }

    fn of_reply(closed: Option<u32>) -> Kind {
        match closed {
            Some(_) => Kind::LastReply,
            None => Kind::Reply,
        }
    }

    fn of_response(child: Option<u32>, closed: Option<u32>) -> Kind {
        match (child, closed) {
            (None, None) => Kind::Counted,
            (Some(_), None) => Kind::CountedChild,
            (None, Some(_)) => Kind::CountedLast,
            (Some(_), Some(_)) => Kind::Other,
        }
    }
}

/// What an output is, and the octets that it sends, of several requests the last one's.
pub fn came_of(alloc: Global, output: Output<'_>) -> (Kind, Items<u8>) {
    match output {
        Output::Request { octets, .. } => (Kind::Request, octets),
        Output::Reply { octets, closed } => (Kind::of_reply(closed), octets),
        Output::Repeat { octets } => (Kind::Repeat, octets),
        Output::Sealed { octets, .. } => (Kind::Sealed, octets),
        Output::Ticked { requests, .. } => match requests.into_vec().pop() {
            Some(request) => (Kind::Resent, request.octets),
            None => (Kind::Ticked, Items::new(alloc)),
        },
        silent => (kind_of_silent(&silent), Items::new(alloc)),
    }
}

// What an output is that sends nothing.
fn kind_of_silent(output: &Output<'_>) -> Kind {
    match output {
        Output::Counted { child, closed, .. } => Kind::of_response(*child, *closed),
        Output::Up { .. } => Kind::Up,
        Output::Dropped { reason } => Kind::Dropped(*reason),
        Output::Refused { reason } => Kind::Refused(*reason),
        _ => Kind::Other,
    }
}

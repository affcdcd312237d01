//! Inputs that own what they lend, for lists of them.
use base::Items;
use gateway::{End, Event, Input};
use std::alloc::{AllocError, Global};
use suite::Fresh;

/// An input of a gateway, and what it lends: each variant is the one of [`Input`] that has its name.
#[derive(Drop)]
pub enum OwnedInput {
    Ike {
        from: [u8; 4],
        octets: Items<u8>,
        fresh: Fresh,
    },
    Esp {
        octets: Items<u8>,
    },
    Outward {
        packet: Items<u8>,
    },
    Start {
        ike: Option<u32>,
        entry: u32,
        fresh: Fresh,
    },
    Probe {
        ike: u32,
        fresh: Fresh,
    },
    DeleteChild {
        child: u32,
        fresh: Fresh,
    },
    DeleteIke {
        ike: u32,
        fresh: Fresh,
    },
    Tick {
        moment: u64,
    },
}

impl OwnedInput {
    /// The input.
    pub fn lend(&self) -> Input<'_> {
        match self {
            OwnedInput::Ike {
                from,
                octets,
                fresh,
            } => Input::Ike {
                from: *from,
                octets: octets.as_slice(),
                fresh,
            },
            OwnedInput::Esp { octets } => Input::Esp {
                octets: octets.as_slice(),
            },
            OwnedInput::Outward { packet } => Input::Outward {
                packet: packet.as_slice(),
            },
            OwnedInput::Start { ike, entry, fresh } => Input::Start {
                ike: *ike,
                entry: *entry,
                fresh,
            },
            OwnedInput::Probe { ike, fresh } => Input::Probe { ike: *ike, fresh },
            OwnedInput::DeleteChild { child, fresh } => Input::DeleteChild {
                child: *child,
                fresh,
            },
            OwnedInput::DeleteIke { ike, fresh } => Input::DeleteIke { ike: *ike, fresh },
            OwnedInput::Tick { moment } => Input::Tick { moment: *moment },
        }
    }
}

/// What happens at an end, and what it lends.
#[derive(Drop)]
pub struct OwnedEvent {
    pub end: End,
    pub input: OwnedInput,
}

impl OwnedEvent {
    /// The event.
    pub fn lend(&self) -> Event<'_> {
        Event {
            end: self.end,
            input: self.input.lend(),
        }
    }
}

/// The inputs of a list, in order.
pub fn lend_inputs<'a>(
    alloc: Global,
    owned: &'a [OwnedInput],
) -> Result<Vec<Input<'a>>, AllocError> {
    owned.iter().map(|input| input.lend()).collect(alloc)
}

/// The events of a list, in order.
pub fn lend_events<'a>(
    alloc: Global,
    owned: &'a [OwnedEvent],
) -> Result<Vec<Event<'a>>, AllocError> {
    owned.iter().map(|event| event.lend()).collect(alloc)
}

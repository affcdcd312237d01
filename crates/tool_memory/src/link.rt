//! Two gateways, the way that they go together, and what they sent on it.
use base::Items;
use caller_script::ScriptCaller;
use gateway::{End, Gateway, Output, Reason};
use std::alloc::{AllocError, AllocFailed, Global};
use test_samples::{
    OwnedInput, SampleFault, config, fresh, further, message, order, packet_out, policy, probe,
};

/// Why the way ended before its end.
#[derive(Clone, Copy, Debug, PartialEq, Eq)]
pub enum Trouble {
    /// A step that was refused on allocation failure changed what can be seen of its gateway.
    Changed,
    /// Something else came of a step than should.
    Other,
    /// There was no memory twice in a row, or none for what the program keeps.
    Memory,
}

impl From<AllocError> for Trouble {
    fn from(_: AllocError) -> Trouble {
        Trouble::Memory
    }
}

impl<T: Drop> From<AllocFailed<T>> for Trouble {
    fn from(_: AllocFailed<T>) -> Trouble {
        Trouble::Memory
    }
}

impl From<SampleFault> for Trouble {
    fn from(fault: SampleFault) -> Trouble {
        match fault {
            SampleFault::Memory(_) => Trouble::Memory,
            SampleFault::Policy(_) | SampleFault::Config(_) => Trouble::Other,
        }
    }
}

// What is given to a gateway.
#[derive(Clone, Copy)]
enum Given {
    Start,
    Further,
    Probe,
    DeleteChild,
    Close,
    Tick(u64),
    Packet,
    // The last datagram that was sent comes, as a message of IKE.
    Message,
    // It comes as a packet of ESP.
    Sealed,
}

const WAY: &[(End, Given)] = &[
    // An IKE SA and its first child, and a packet through it.
    (End::A, Given::Start),
    (End::B, Given::Message),
    (End::A, Given::Message),
    (End::B, Given::Message),
    (End::A, Given::Message),
    (End::A, Given::Packet),
    (End::B, Given::Sealed),
    // An additional Child SA, and a packet through that.
    (End::A, Given::Further),
    (End::B, Given::Message),
    (End::A, Given::Message),
    (End::A, Given::Packet),
    (End::B, Given::Sealed),
    // B asks whether A is there.
    (End::B, Given::Probe),
    (End::A, Given::Message),
    (End::B, Given::Message),
    // A asks, and asks again after a second, and is answered.
    (End::A, Given::Probe),
    (End::A, Given::Tick(999)),
    (End::A, Given::Tick(1000)),
    (End::B, Given::Message),
    (End::A, Given::Message),
    // The first child is deleted, and a packet goes through the other.
    (End::A, Given::DeleteChild),
    (End::B, Given::Message),
    (End::A, Given::Message),
    (End::A, Given::Packet),
    (End::B, Given::Sealed),
    // A third child by B's wish, and all is closed.
    (End::B, Given::Further),
    (End::A, Given::Message),
    (End::B, Given::Message),
    (End::A, Given::Close),
    (End::B, Given::Message),
];

// What came of a step.
#[derive(Drop)]
enum Taken {
    // It sent these octets.
    Sent(Items<u8>),
    // It sent nothing.
    Nothing,
    // It was refused on allocation failure, in these words.
    Wanting(Reason),
    // It was refused or dropped for another reason.
    Refused,
}

// What can be seen of a gateway without memory.
#[derive(Clone, Copy, PartialEq, Eq)]
struct Seen {
    associations: usize,
    pairs: u32,
    last: u32,
}

/// Two gateways, and all that they sent.
#[derive(Drop)]
pub struct Link {
    a: Gateway<ScriptCaller>,
    b: Gateway<ScriptCaller>,
    sent: Vec<Items<u8>>,
}

impl Link {
    /// Two gateways to which nothing happened.
    pub fn new(alloc: Global) -> Result<Link, Trouble> {
        Ok(Link {
            a: made(alloc, End::A)?,
            b: made(alloc, End::B)?,
            sent: Vec::new(alloc),
        })
    }

    /// Goes the whole way; answers what was refused last on allocation failure, and given again.
    pub fn go(&mut self, alloc: Global) -> Result<Option<Reason>, Trouble> {
        let mut refused = None;
        for &(end, given) in WAY {
            refused = self.refused(alloc, end, given)?.or(refused);
        }
        Ok(refused)
    }

    /// Whether both have sent the same octets, all along.
    pub fn has_sent_as(&self, other: &Link) -> bool {
        self.sent == other.sent
    }

    // One step, once more where it was refused on allocation failure: in which words it was.
    fn refused(
        &mut self,
        alloc: Global,
        end: End,
        given: Given,
    ) -> Result<Option<Reason>, Trouble> {
        let input = self.given(alloc, given)?;
        let gateway = match end {
            End::A => &mut self.a,
            End::B => &mut self.b,
        };
        let (taken, refused) = take_again(gateway, alloc, &input)?;
        self.keep(taken)?;
        Ok(refused)
    }

    // Keeps what was sent.
    fn keep(&mut self, taken: Taken) -> Result<(), Trouble> {
        match taken {
            Taken::Sent(octets) => Ok(self.sent.push(octets)?),
            Taken::Nothing => Ok(()),
            Taken::Wanting(_) => Err(Trouble::Memory),
            Taken::Refused => Err(Trouble::Other),
        }
    }

    // The input, and a place for what will be sent: what was refused is asked for once more.
    fn given(&mut self, alloc: Global, given: Given) -> Result<OwnedInput, AllocError> {
        if self.sent.reserve(1).is_err() {
            self.sent.reserve(1)?;
        }
        match self.input(alloc, given) {
            Ok(input) => Ok(input),
            Err(_) => self.input(alloc, given),
        }
    }

    fn input(&self, alloc: Global, given: Given) -> Result<OwnedInput, AllocError> {
        match given {
            Given::Start => Ok(order(1)),
            Given::Further => Ok(further(1)),
            Given::Probe => Ok(probe(1)),
            Given::DeleteChild => Ok(OwnedInput::DeleteChild {
                child: 1,
                fresh: fresh(9),
            }),
            Given::Close => Ok(OwnedInput::DeleteIke {
                ike: 1,
                fresh: fresh(9),
            }),
            Given::Tick(moment) => Ok(OwnedInput::Tick { moment }),
            Given::Packet => packet_out(alloc, 7),
            Given::Message => message(alloc, self.last(), 20),
            Given::Sealed => sealed(alloc, self.last()),
        }
    }

    // The datagram that was sent last.
    fn last(&self) -> &[u8] {
        match self.sent.last() {
            Some(octets) => octets.as_slice(),
            None => &[],
        }
    }
}

// A gateway to which nothing happened; asked for once more where there was no memory.
fn made(alloc: Global, end: End) -> Result<Gateway<ScriptCaller>, Trouble> {
    match gateway(alloc, end) {
        Ok(made) => Ok(made),
        Err(_) => Ok(gateway(alloc, end)?),
    }
}

// A gateway whose replay windows are as wide as can be: of 128 blocks, so of 1024 octets, which nothing else
// asks for.
fn gateway(alloc: Global, end: End) -> Result<Gateway<ScriptCaller>, SampleFault> {
    let config = config(alloc, end, 1)?.with_blocks(128)?;
    let start = match end {
        End::A => 4096,
        End::B => 8192,
    };
    Ok(Gateway::new(alloc, config, policy(alloc, end)?, start, ScriptCaller))
}

// A datagram comes as a packet of ESP.
fn sealed(alloc: Global, octets: &[u8]) -> Result<OwnedInput, AllocError> {
    let octets = Items::from_slice(alloc, octets)?;
    Ok(OwnedInput::Esp { octets })
}

// Gives a gateway an input, once more where it is refused on allocation failure: what came of it, and in
// which words it was.
fn take_again(
    gateway: &mut Gateway<ScriptCaller>,
    alloc: Global,
    input: &OwnedInput,
) -> Result<(Taken, Option<Reason>), Trouble> {
    let before = look_at(gateway);
    match take(gateway, alloc, input) {
        Taken::Wanting(_) if look_at(gateway) != before => Err(Trouble::Changed),
        Taken::Wanting(reason) => Ok((take(gateway, alloc, input), Some(reason))),
        taken => Ok((taken, None)),
    }
}

fn look_at(gateway: &Gateway<ScriptCaller>) -> Seen {
    let mut found = Seen {
        associations: gateway.associations().len(),
        pairs: 0,
        last: 0,
    };
    for _ in 0..8 {
        if let Some(pair) = gateway.table().after(found.last) {
            found.last = pair.serial;
            found.pairs = found.pairs.saturating_add(1);
        }
    }
    found
}

// Gives a gateway an input.
fn take(gateway: &mut Gateway<ScriptCaller>, alloc: Global, input: &OwnedInput) -> Taken {
    match gateway.step(alloc, &input.lend()) {
        Output::Reply { octets, .. }
        | Output::Repeat { octets }
        | Output::Request { octets, .. }
        | Output::Sealed { octets, .. } => Taken::Sent(octets),
        Output::Ticked { requests, .. } => match requests.into_vec().pop() {
            Some(request) => Taken::Sent(request.octets),
            None => Taken::Nothing,
        },
        Output::Refused { reason } | Output::Dropped { reason } => match reason.code() {
            10 | 20 | 24 | 27 => Taken::Wanting(reason),
            _ => Taken::Refused,
        },
        _ => Taken::Nothing,
    }
}

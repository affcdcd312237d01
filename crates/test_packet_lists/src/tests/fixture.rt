//! What the tests share: two ends of one association, payloads, and how calls for a list are set beside
//! calls for one packet.
ghost use Rattle.std.specs.Prelude.{◌≡◌, ◌≤◌, IsTrue, ◌↔◌, All, length, take};
ghost use Rattle.byteorder.specs.Endian.{big_bytes};

use esp::{EspFault, Inbound, ListFault, ListStop, Opened, Outbound, PACKETS_LEAST};
use replay::BlockWindow;
use std::alloc::{AllocError, Global};
use std::test::Fail;

const SPI: u32 = 256;

const KEY: [u8; 32] = [0x0b; 32];

/// The next header of an IPv4 packet.
pub const IPV4: u8 = 4;

/// The least number that has a high half.
pub const ROUND: u64 = 1 << 32;

/// The longest payload that is sealed, in octets.
pub const MOST: usize = 16_384;

/// Whether numbers have 64 bits or 32.
#[derive(Clone, Copy)]
pub enum Numbers {
    Extended,
    Short,
}

impl Numbers {
    fn are_extended(self) -> bool {
        matches!(self, Numbers::Extended)
    }

    // From how many packets on lists begin lanes: as a build for x86-64-v3 has it, or as one for v2.
    fn lanes(self) -> usize {
        match self {
            Numbers::Extended => 2,
            Numbers::Short => PACKETS_LEAST,
        }
    }
}

/// The sender that sealed its last packet with this number.
pub fn sender(numbers: Numbers, last: u64) -> Outbound {
    let mut sender = Outbound::new(SPI, &KEY, numbers.are_extended(), last);
    sender.begin_lanes_at(numbers.lanes());
    sender
}

/// Octets that payloads are parts of.
pub fn text(alloc: Global) -> Result<Vec<u8>, AllocError> {
    let mut text = Vec::with_capacity(alloc, MOST + 128)?;
    for place in 0..MOST + 128 {
        text.push((place % 251) as u8)?;
    }
    Ok(text)
}

/// So many octets of the text. Those of one place begin elsewhere than those of the next.
fn part(text: &[u8], place: usize, length: usize) -> &[u8] {
    let (_, rest) = text.split_at(text.len().min(place % 97));
    let (part, _) = rest.split_at(rest.len().min(length));
    part
}

/// As many payloads, of these lengths in turn.
pub fn payloads<'a>(
    alloc: Global,
    text: &'a [u8],
    lengths: &[usize],
    count: usize,
) -> Result<Vec<&'a [u8]>, AllocError> {
    let mut payloads = Vec::new(alloc);
    for (place, length) in lengths.iter().cycle().take(count).enumerate() {
        payloads.push(part(text, place, *length))?;
    }
    Ok(payloads)
}

/// What came of a list of payloads.
#[derive(Debug, Drop, PartialEq)]
pub struct Sealed {
    /// All packets, one after the other.
    pub octets: Vec<u8>,
    /// How many were sealed before one was refused, and why.
    pub stop: Option<(usize, EspFault)>,
    /// The number under which the sender sealed one packet more.
    pub next: Option<u64>,
}

/// Seals payloads by as many calls.
pub fn one_by_one(alloc: Global, mut sender: Outbound, payloads: &[&[u8]]) -> Sealed {
    let mut octets = Vec::new(alloc);
    let mut stop = None;
    for (place, payload) in payloads.iter().enumerate() {
        if let Err(fault) = sender.seal(IPV4, payload, &mut octets) {
            stop = Some((place, fault));
            break;
        }
    }
    let next = sender.seal(IPV4, b"", &mut octets).ok();
    Sealed { octets, stop, next }
}

/// Seals payloads by one call.
pub fn at_once(alloc: Global, mut sender: Outbound, payloads: &[&[u8]]) -> Sealed {
    let mut octets = Vec::new(alloc);
    let outcome = sender.seal_all(IPV4, payloads, &mut octets);
    let stop = outcome.err().map(|stop| (stop.done, stop.fault));
    let next = sender.seal(IPV4, b"", &mut octets).ok();
    Sealed { octets, stop, next }
}

/// The packets of these payloads, each sealed by a call of its own.
pub fn packets(
    alloc: Global,
    mut sender: Outbound,
    payloads: &[&[u8]],
) -> Result<Vec<Vec<u8>>, Fail> {
    let mut packets = Vec::new(alloc);
    for payload in payloads {
        packets.push(packet(alloc, &mut sender, payload)?)?;
    }
    Ok(packets)
}

/// The packet of one payload.
fn packet(alloc: Global, sender: &mut Outbound, payload: &[u8]) -> Result<Vec<u8>, Fail> {
    let mut packet = Vec::new(alloc);
    sender.seal(IPV4, payload, &mut packet)?;
    Ok(packet)
}

/// The octets of packets, one after the other.
pub fn joined(alloc: Global, packets: &[Vec<u8>]) -> Result<Vec<u8>, AllocError> {
    let mut octets = Vec::new(alloc);
    for packet in packets {
        octets.extend_from_slice(packet)?;
    }
    Ok(octets)
}

/// The packets with these numbers, without payload.
pub fn numbered(alloc: Global, numbers: Numbers, list: &[u64]) -> Result<Vec<Vec<u8>>, Fail> {
    let mut packets = Vec::new(alloc);
    for number in list {
        let mut sender = sender(numbers, number.saturating_sub(1));
        packets.push(packet(alloc, &mut sender, b"")?)?;
    }
    Ok(packets)
}

/// A receiver with a window of 64 numbers, which is handed only packets of its SPI.
#[derive(Drop)]
pub struct Receiver {
    inbound: Inbound<BlockWindow>,
    ghost spi: { inbound.association.spi ≡ 256 },
}

impl Receiver {
    pub fn new(alloc: Global, numbers: Numbers) -> Result<Receiver, Fail> {
        let window = BlockWindow::new(alloc, 2)?;
        let mut inbound = Inbound::new(SPI, &KEY, numbers.are_extended(), window);
        inbound.begin_lanes_at(numbers.lanes());
        Ok(Receiver { inbound })
    }

    /// What is answered of one packet; `None` of one that the receiver may not be handed.
    fn answer<'a>(&mut self, packet: &'a [u8]) -> Option<Result<Opened<'a>, EspFault>> {
        if !is_ours(packet) {
            return None;
        }
        Some(self.inbound.open(packet))
    }

    /// Opens packets by one call; `None` where one of them may not be handed to the receiver.
    fn open_all<'a>(
        &mut self,
        packets: &[&'a [u8]],
        out: &mut Vec<Result<Opened<'a>, EspFault>>,
    ) -> Option<Result<(), ListStop<ListFault>>> {
        if !are_ours(packets) {
            return None;
        }
        Some(self.inbound.open_all(packets, out))
    }

    /// What is answered of packets that are opened by one call.
    fn answers<'a>(
        &mut self,
        alloc: Global,
        packets: &'a [Vec<u8>],
    ) -> Result<Vec<Result<Opened<'a>, EspFault>>, Fail> {
        let packets = slices(alloc, packets)?;
        let mut answers = Vec::new(alloc);
        self.open_all(&packets, &mut answers).ok_or("another SPI")??;
        Ok(answers)
    }

    /// Opens packets by one call, and answers how many were handed up.
    pub fn count_up(&mut self, alloc: Global, packets: &[Vec<u8>]) -> Result<usize, Fail> {
        Ok(count_up(&self.answers(alloc, packets)?))
    }
}

/// The octets of each packet.
fn slices(alloc: Global, packets: &[Vec<u8>]) -> Result<Vec<&[u8]>, AllocError> {
    let mut slices = Vec::new(alloc);
    for packet in packets {
        slices.push(packet.as_slice())?;
    }
    Ok(slices)
}

/// Whether the packet begins with the SPI, if it has room for one.
fn is_ours(packet: &[u8]) -> bool
    ensures { IsTrue result ↔ (4 ≤ length packet.now → take 4 packet.now ≡ big_bytes 4 256) }
{
    packet.len() < 4 || packet[..4] == [0, 0, 1, 0]
}

/// Whether each of the packets does.
fn are_ours(packets: &[&[u8]]) -> bool
    ensures { IsTrue result → All (λ p. 4 ≤ length p.now → take 4 p.now ≡ big_bytes 4 256) packets.now }
{
    packets.iter().all(|packet| is_ours(packet))
}

/// What came of a list that was opened at once, beside its packets opened one by one.
#[derive(Clone, Copy, Debug, PartialEq)]
pub enum Outcome {
    /// The answers are the same; so many packets were handed up.
    Same { up: usize },
    /// The first answer that is another is that of this place.
    Differs { place: usize },
}

/// Two receivers of one association, in the same state: one is handed packets, the other lists.
#[derive(Drop)]
pub struct Pair {
    one: Receiver,
    all: Receiver,
}

impl Pair {
    pub fn new(alloc: Global, numbers: Numbers) -> Result<Pair, Fail> {
        Ok(Pair {
            one: Receiver::new(alloc, numbers)?,
            all: Receiver::new(alloc, numbers)?,
        })
    }

    /// Hands the list to both.
    pub fn open(&mut self, alloc: Global, packets: &[Vec<u8>]) -> Result<Outcome, Fail> {
        let answers = self.all.answers(alloc, packets)?;
        Ok(self.compare(packets, &answers))
    }

    /// Hands the packets to the other receiver, and compares what it answers.
    fn compare(
        &mut self,
        packets: &[Vec<u8>],
        answers: &[Result<Opened<'_>, EspFault>],
    ) -> Outcome {
        if answers.len() != packets.len() {
            return Outcome::Differs {
                place: answers.len(),
            };
        }
        match self.first_difference(packets, answers) {
            Some(place) => Outcome::Differs { place },
            None => Outcome::Same {
                up: count_up(answers),
            },
        }
    }

    /// The place of the first packet of which the call for one packet says something else.
    fn first_difference(
        &mut self,
        packets: &[Vec<u8>],
        answers: &[Result<Opened<'_>, EspFault>],
    ) -> Option<usize> {
        let mut found = None;
        for (place, (packet, answer)) in packets.iter().zip(answers).enumerate() {
            if self.one.answer(packet) != Some(*answer) && found.is_none() {
                found = Some(place);
            }
        }
        found
    }
}

/// How many packets were handed up.
fn count_up(answers: &[Result<Opened<'_>, EspFault>]) -> usize {
    answers.iter().filter(|answer| answer.is_ok()).count()
}

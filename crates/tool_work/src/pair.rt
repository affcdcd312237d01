//! Two gateways whose providers count, and the steps that they take.
use crate::counting::Counting;
use crate::kind::{Kind, came_of};
use crate::work::{Tally, Work};
use base::Items;
use gateway::{End, Gateway};
use std::alloc::Global;
use std::fmt;
use std::rc::Rc;
use test_samples::{OwnedInput, gateway_of, message, order};

/// A step, and what it cost the end that took it.
#[derive(Clone, Copy)]
pub struct Line {
    name: &'static str,
    words: &'static str,
    end: End,
    work: Work,
}

impl fmt::Display for Line {
    fn fmt<W: fmt::Write>(&self, f: &mut fmt::Formatter<W>) -> fmt::Result {
        let Line {
            name,
            words,
            end,
            work,
        } = *self;
        write!(f, "{name} {words} at {end:?}: {work}")
    }
}

// A gateway, and where its provider counts.
#[derive(Drop)]
struct Side {
    gateway: Gateway<Counting>,
    tally: Rc<Tally>,
}

impl Side {
    // A gateway to which nothing happened.
    fn new(alloc: Global, end: End) -> Option<Side> {
        let tally = Rc::new(alloc, Tally::new()).ok()?;
        let counting = Counting::new(tally.clone().ok()?);
        let gateway = gateway_of(alloc, end, counting).ok()?;
        Some(Side { gateway, tally })
    }

    // What it sends, where what came of the input is of this kind, and what it cost.
    fn take(
        &mut self,
        alloc: Global,
        input: &OwnedInput,
        wanted: Kind,
    ) -> (Option<Items<u8>>, Work) {
        let (kind, octets) = came_of(alloc, self.gateway.step(alloc, &input.lend()));
        let octets = (kind == wanted).then_some(octets);
        (octets, self.tally.take())
    }
}

/// Two gateways, each the other's peer, with windows of one request.
#[derive(Drop)]
pub struct Pair {
    alloc: Global,
    a: Side,
    b: Side,
    // The SPI that was fresh last.
    spi: u64,
    lines: Vec<Line>,
}

impl Pair {
    /// Two gateways to which nothing happened.
    pub fn new(alloc: Global) -> Option<Pair> {
        Some(Pair {
            alloc,
            a: Side::new(alloc, End::A)?,
            b: Side::new(alloc, End::B)?,
            spi: 0,
            lines: Vec::new(alloc),
        })
    }

    /// The steps that were taken, in order, but for those that make things ready.
    pub fn lines(&self) -> &[Line] {
        &self.lines
    }

    /// An end takes an input, of which this is to come: the octets that it sends, none of them where it
    /// sends nothing. `None` where something else came of it. The step goes by the name of its exchange, or
    /// of what comes, and by words.
    pub fn step(
        &mut self,
        name: &'static str,
        words: &'static str,
        end: End,
        input: &OwnedInput,
        wanted: Kind,
    ) -> Option<Items<u8>> {
        let (octets, work) = self.take(end, input, wanted);
        let line = Line {
            name,
            words,
            end,
            work,
        };
        self.lines.push(line).ok()?;
        octets
    }

    /// A datagram of IKE comes to an end, as [`step`](Pair::step).
    pub fn deliver(
        &mut self,
        name: &'static str,
        words: &'static str,
        end: End,
        datagram: &Items<u8>,
        wanted: Kind,
    ) -> Option<Items<u8>> {
        let input = self.arrival(datagram)?;
        self.step(name, words, end, &input, wanted)
    }

    /// A asks for an IKE SA, as [`step`](Pair::step).
    pub fn begin(&mut self, name: &'static str) -> Option<Items<u8>> {
        let input = order(self.next_spi());
        self.step(name, "asked", End::A, &input, Kind::Request)
    }

    /// A asks for an IKE SA, which is half open at B from then on. No line tells of it.
    pub fn open_half(&mut self) -> Option<()> {
        let input = order(self.next_spi());
        let (request, _) = self.take(End::A, &input, Kind::Request);
        let input = self.arrival(&request?)?;
        let (reply, _) = self.take(End::B, &input, Kind::Reply);
        reply?;
        Some(())
    }

    // The octets that an end sends, where what came of the input is of this kind, and what it cost.
    fn take(&mut self, end: End, input: &OwnedInput, wanted: Kind) -> (Option<Items<u8>>, Work) {
        match end {
            End::A => self.a.take(self.alloc, input, wanted),
            End::B => self.b.take(self.alloc, input, wanted),
        }
    }

    // A datagram of IKE that comes.
    fn arrival(&mut self, datagram: &Items<u8>) -> Option<OwnedInput> {
        message(self.alloc, datagram.as_slice(), self.next_spi()).ok()
    }

    // An SPI for an IKE SA that no other step has.
    fn next_spi(&mut self) -> u64 {
        self.spi = self.spi.wrapping_add(1);
        self.spi
    }
}

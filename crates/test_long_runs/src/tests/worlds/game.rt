//! A world, and what happens in it.
ghost use Rattle.std.specs.Prelude.{IfOk};
ghost use Rattle.gateway.specs.Worlds.{HoldsNothing};

use super::book::{Book, child_of, twin_of};
use super::promises::{Standing, are_mirrored, judge_world};
use crate::tests::random::Random;
use association::Phase;
use base::Items;
use caller_script::ScriptCaller;
use gateway::{End, Gateway, Output, Protection, World, run_world};
use std::alloc::{AllocError, Global};
use std::test::Fail;
use test_samples::{OwnedEvent, OwnedInput, SampleFault, config, fresh, order, policy};

/// What is wrong after an event.
#[derive(Clone, Copy, Debug, PartialEq, Eq)]
pub enum Wrong {
    /// The requests of some IKE SA.
    Requests(Standing),
    /// The pairs of both ends' child of one request.
    Pairs,
    /// What went up: no packet that was sealed under this number, or not for the first time.
    Packet,
}

/// What took place.
#[derive(Drop)]
pub struct Played {
    /// The place of the first event after which something was wrong, and what.
    pub first_wrong: Option<(usize, Wrong)>,
    /// How many packets went up.
    pub ups: usize,
    /// How many children had their like at the other end when they were made.
    pub mirrored: usize,
    /// How many records of keys both ends made.
    pub records: usize,
    /// The most requests of one IKE SA that waited for their answer.
    pub most_outstanding: usize,
}

#[derive(Drop)]
struct Game {
    world: World<ScriptCaller>,
    book: Book,
    random: Random,
    window: u8,
    /// How many datagrams and children were looked at.
    seen: (usize, usize),
    /// The place of the first datagram that was neither delivered in its turn nor lost.
    next: usize,
    /// How many packets were to go out.
    packets: u64,
    moment: u64,
    spi: u64,
    played: Played,
}

/// A gateway that holds nothing and takes so many requests at once.
fn gateway(alloc: Global, end: End, window: u8) -> Result<Gateway<ScriptCaller>, SampleFault>
    ensures { IfOk result HoldsNothing }
{
    let policy = policy(alloc, end)?;
    let config = config(alloc, end, window)?;
    let start = match end {
        End::A => 4096,
        End::B => 8192,
    };
    Ok(Gateway::new(alloc, config, policy, start, ScriptCaller))
}

fn world(alloc: Global, window: u8) -> Result<World<ScriptCaller>, SampleFault> {
    let a = gateway(alloc, End::A, window)?;
    let b = gateway(alloc, End::B, window)?;
    Ok(World::new(alloc, a, b))
}

/// So many events in a world whose ends take so many requests at once.
pub fn play(alloc: Global, window: u8, events: usize) -> Result<Played, Fail> {
    let mut game = Game::new(alloc, window)?;
    for place in 0..events {
        game.turn(alloc, place)?;
    }
    Ok(game.into_played())
}

/// The IPv4 packet without payload that an end sends as this one, from its own network to the other's.
fn carried(end: End, packet: u64) -> [u8; 20] {
    let [_, _, _, _, high, middle, low, last] = packet.to_be_bytes();
    let (source, target) = match end {
        End::A => (0, 1),
        End::B => (1, 0),
    };
    [
        0x45, 0, 0, 20, middle, low, 0, 0, 0x40, 1, 0, high, 10, source, 0, last, 10, target, 0, 1,
    ]
}

impl Game {
    fn new(alloc: Global, window: u8) -> Result<Game, SampleFault> {
        let world = world(alloc, window)?;
        Ok(Game {
            world,
            book: Book::new(alloc),
            random: Random::from_seed(7296),
            window,
            seen: (0, 0),
            next: 0,
            packets: 0,
            moment: 0,
            spi: 0,
            played: Played {
                first_wrong: None,
                ups: 0,
                mirrored: 0,
                records: 0,
                most_outstanding: 0,
            },
        })
    }

    fn into_played(self) -> Played {
        let records = self.world.key_records().len();
        Played {
            records,
            ..self.played
        }
    }

    /// One event, and what is to be found after it.
    fn turn(&mut self, alloc: Global, place: usize) -> Result<(), Fail> {
        let event = self.event(alloc)?;
        let mut outputs = Vec::new(alloc);
        run_world(alloc, &mut self.world, &[event.lend()], &mut outputs)?;
        for output in &outputs {
            self.note(output, event.end, place)?;
        }
        self.look(place)?;
        Ok(())
    }

    fn is_wrong(&mut self, place: usize, wrong: Wrong) {
        if self.played.first_wrong.is_none() {
            self.played.first_wrong = Some((place, wrong));
        }
    }

    /// Writes down what an output says of packets.
    fn note(&mut self, output: &Output<'_>, end: End, place: usize) -> Result<(), AllocError> {
        match output {
            Output::Sealed { child, number, .. } => self.note_sealed(end, *child, *number),
            Output::Up {
                child,
                number,
                packet,
            } => {
                let sealed = self.note_up(end, *child, *number)?;
                let is_right = sealed.is_some_and(|sealed| *packet
                    == carried(end.other(), sealed).as_slice());
                if !is_right {
                    self.is_wrong(place, Wrong::Packet);
                }
                Ok(())
            }
            _ => Ok(()),
        }
    }

    fn note_sealed(&mut self, end: End, child: u32, number: u64) -> Result<(), AllocError> {
        match child_of(self.world.children(), end, child) {
            Some(child) => self.book.seal(&child.outbound, number, self.packets),
            None => Ok(()),
        }
    }

    /// Which packet was sealed as what went up; none where it went up before.
    fn note_up(&mut self, end: End, child: u32, number: u64) -> Result<Option<u64>, AllocError> {
        self.played.ups = self.played.ups.saturating_add(1);
        match child_of(self.world.children(), end, child) {
            Some(child) => self.book.hand_up(&child.inbound, number),
            None => Ok(None),
        }
    }

    /// Looks at what came with the last event.
    fn look(&mut self, place: usize) -> Result<(), AllocError> {
        self.look_at_datagrams()?;
        self.look_at_children(place);
        match judge_world(&self.world, &self.book, self.window) {
            Standing::Sound(waiting) => {
                self.played.most_outstanding = self.played.most_outstanding.max(waiting);
            }
            wrong => self.is_wrong(place, Wrong::Requests(wrong)),
        }
        Ok(())
    }

    fn look_at_datagrams(&mut self) -> Result<(), AllocError> {
        let sent = self.world.datagrams();
        for datagram in sent.iter().skip(self.seen.0) {
            self.book.send(datagram)?;
        }
        self.seen.0 = sent.len();
        Ok(())
    }

    fn look_at_children(&mut self, place: usize) {
        let children = self.world.children();
        let mut mirrored: usize = 0;
        let mut are_well = true;
        for child in children.iter().skip(self.seen.1) {
            if let Some(twin) = twin_of(children, child) {
                mirrored = mirrored.saturating_add(1);
                are_well = are_well && are_mirrored(child, twin);
            }
        }
        self.seen.1 = children.len();
        self.played.mirrored = self.played.mirrored.saturating_add(mirrored);
        if !are_well {
            self.is_wrong(place, Wrong::Pairs);
        }
    }

    /// The next event.
    fn event(&mut self, alloc: Global) -> Result<OwnedEvent, AllocError> {
        let end = if self.random.below(2) == 0 {
            End::A
        } else {
            End::B
        };
        match self.random.below(100) {
            0..=44 => self.deliver_next(alloc),
            // The next one is lost.
            45..=47 => {
                self.next = self.next.saturating_add(1);
                self.deliver_next(alloc)
            }
            48..=59 => self.deliver_late(alloc),
            60..=79 => self.send_packet(alloc, end),
            80..=84 => Ok(self.tick(end)),
            _ => Ok(self.order(end)),
        }
    }

    /// The next datagram that was sent comes to the other end; where there is none, a packet goes out.
    fn deliver_next(&mut self, alloc: Global) -> Result<OwnedEvent, AllocError> {
        let place = self.next;
        if place >= self.world.datagrams().len() {
            return self.send_packet(alloc, End::A);
        }
        self.next = place.saturating_add(1);
        let octets = self.octets(alloc, place)?;
        Ok(self.delivery(place, octets, false))
    }

    /// One of the last forty comes, for the first time or again, one in four damaged, and one in eight
    /// to its own sender.
    fn deliver_late(&mut self, alloc: Global) -> Result<OwnedEvent, AllocError> {
        let back = self.random.below(40) as usize;
        let last = self.world.datagrams().len().saturating_sub(1);
        let place = last.saturating_sub(back);
        let mut octets = self.octets(alloc, place)?;
        if self.random.below(4) == 0 {
            self.damage(&mut octets);
        }
        let is_reflected = self.random.below(8) == 0;
        Ok(self.delivery(place, octets, is_reflected))
    }

    /// The octets of a datagram; none where there is none.
    fn octets(&self, alloc: Global, place: usize) -> Result<Vec<u8>, AllocError> {
        match self.world.datagrams().get(place) {
            Some(datagram) => datagram.octets.as_slice().to_vec(alloc),
            None => Ok(Vec::new(alloc)),
        }
    }

    /// Changes one octet.
    fn damage(&mut self, octets: &mut Vec<u8>) {
        let place = self.random.below(octets.len() as u64) as usize;
        let change = self.random.octet() | 1;
        if let Some(octet) = octets.get_mut(place) {
            *octet ^= change;
        }
    }

    /// These octets come as the datagram of this place does.
    fn delivery(&mut self, place: usize, octets: Vec<u8>, is_reflected: bool) -> OwnedEvent {
        let octets = Items::from_vec(octets);
        let fresh = fresh(self.next_spi());
        match self.world.datagrams().get(place) {
            Some(datagram) => {
                let end = if is_reflected {
                    datagram.end
                } else {
                    datagram.end.other()
                };
                let input = match &datagram.mark {
                    Protection::Esp { .. } => OwnedInput::Esp { octets },
                    _ => OwnedInput::Ike {
                        from: [192, 0, 2, 9],
                        octets,
                        fresh,
                    },
                };
                OwnedEvent { end, input }
            }
            None => OwnedEvent {
                end: End::A,
                input: OwnedInput::Esp { octets },
            },
        }
    }

    fn send_packet(&mut self, alloc: Global, end: End) -> Result<OwnedEvent, AllocError> {
        self.packets = self.packets.saturating_add(1);
        let packet = Items::from_slice(alloc, &carried(end, self.packets))?;
        Ok(OwnedEvent {
            end,
            input: OwnedInput::Outward { packet },
        })
    }

    fn tick(&mut self, end: End) -> OwnedEvent {
        self.moment = self.moment.saturating_add(self.random.below(400));
        OwnedEvent {
            end,
            input: OwnedInput::Tick {
                moment: self.moment,
            },
        }
    }

    fn next_spi(&mut self) -> u64 {
        self.spi = self.spi.saturating_add(1);
        self.spi
    }

    /// An order: for an IKE SA where none stands, and now and then beside one; else mostly to ask whether the
    /// other end is there.
    fn order(&mut self, end: End) -> OwnedEvent {
        let spi = self.next_spi();
        if !self.is_connected(end) || self.random.below(300) == 0 {
            let input = order(spi);
            return OwnedEvent { end, input };
        }
        let ike = self.some_association(end);
        let fresh = fresh(spi);
        let input = match self.random.below(100) {
            0..=9 => OwnedInput::Start {
                ike: Some(ike),
                entry: 0,
                fresh,
            },
            10..=15 => OwnedInput::DeleteChild {
                child: self.some_child(end),
                fresh,
            },
            16 => OwnedInput::DeleteIke { ike, fresh },
            _ => OwnedInput::Probe { ike, fresh },
        };
        OwnedEvent { end, input }
    }

    /// Whether an end has an IKE SA that is established.
    fn is_connected(&self, end: End) -> bool {
        self.world.gateway(end).associations().iter().any(|association| matches!(
            association.phase,
            Phase::Established(_)
        ))
    }

    /// The serial of one of an end's last two IKE SAs.
    fn some_association(&mut self, end: End) -> u32 {
        let back = self.random.below(2) as usize;
        let held = self.world.gateway(end).associations();
        match held.iter().rev().nth(back) {
            Some(association) => association.serial,
            None => 1,
        }
    }

    /// The serial of one of an end's children: mostly of an older one.
    fn some_child(&mut self, end: End) -> u32 {
        let after = self.random.small(8);
        match self.world.gateway(end).table().after(after) {
            Some(pair) => pair.serial,
            None => 0,
        }
    }
}

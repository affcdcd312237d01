//! Packets on their way out, with children made, marked and removed between them, and what is wrong of
//! what came of them.
use super::ends::{Ends, PROTECTING, policy};
use super::packets::next_packet;
use super::wanted::{Wanted, wanted_of};
use crate::tests::random::Random;
use flows::{Treatment, look_up};
use gateway::{End, Input, Output};
use policy::{Policy, inner};
use std::alloc::{AllocError, Global};
use std::test::Fail;

/// How many packets go out between two changes, on average.
const PACKETS: u64 = 100;

/// How many packets were wanted to be treated so, how often a pair came, was marked and went, and the
/// place of the first packet of which something else came than a look-up finds.
#[derive(Drop)]
pub struct Played {
    pub carried: usize,
    pub uncarried: usize,
    pub bypassed: usize,
    pub discarded: usize,
    pub made: usize,
    pub marked: usize,
    pub removed: usize,
    pub first_wrong: Option<usize>,
}

/// Both ends, a request of A that is on its way, and how many packets A sealed by each child.
#[derive(Drop)]
struct Game {
    ends: Ends,
    policy: Policy,
    on_its_way: Vec<u8>,
    sealed: Vec<u64>,
    random: Random,
    played: Played,
}

/// So many packets.
pub fn play(alloc: Global, packets: usize) -> Result<Played, Fail> {
    let mut game = Game::new(alloc)?;
    game.play(alloc, packets)?;
    Ok(game.into_played())
}

impl Game {
    fn new(alloc: Global) -> Result<Game, Fail> {
        let policy = policy(alloc, End::A)?;
        let ends = Ends::new(alloc)?;
        Ok(Game {
            ends,
            policy,
            on_its_way: Vec::new(alloc),
            sealed: Vec::new(alloc),
            random: Random::from_seed(4301),
            played: Played {
                carried: 0,
                uncarried: 0,
                bypassed: 0,
                discarded: 0,
                made: 0,
                marked: 0,
                removed: 0,
                first_wrong: None,
            },
        })
    }

    fn into_played(self) -> Played {
        self.played
    }

    fn play(&mut self, alloc: Global, packets: usize) -> Result<(), AllocError> {
        self.begin(alloc)?;
        for place in 0..packets {
            self.turn(alloc, place)?;
        }
        Ok(())
    }

    /// One packet, and now and then a change before it.
    fn turn(&mut self, alloc: Global, place: usize) -> Result<(), AllocError> {
        if self.random.below(PACKETS) == 0 {
            self.change(alloc)?;
        }
        self.send(alloc, place)
    }

    /// An IKE SA, by A's order.
    fn begin(&mut self, alloc: Global) -> Result<(), AllocError> {
        let order = Input::Start {
            ike: None,
            entry: 3,
            fresh: &self.ends.fresh(),
        };
        let octets = self.ends.order(alloc, End::A, &order);
        self.ends.deliver(alloc, &octets, End::B)
    }

    /// A packet goes out, and what comes of it is what a gateway gives that looks each flow up.
    fn send(&mut self, alloc: Global, place: usize) -> Result<(), AllocError> {
        let packet = next_packet(&mut self.random);
        let wanted = self.wanted(alloc, &packet)?;
        let input = Input::Outward { packet: &packet };
        let is_wanted = wanted.is(&self.ends.a.step(alloc, &input), &packet);
        if !is_wanted && self.played.first_wrong.is_none() {
            self.played.first_wrong = Some(place);
        }
        Ok(())
    }

    /// What is to come of a packet, by a look-up.
    fn wanted(&mut self, alloc: Global, packet: &[u8]) -> Result<Wanted, AllocError> {
        let Ok(flow) = inner(packet) else {
            return Ok(Wanted::Nothing);
        };
        let treatment = look_up(self.ends.a.table(), &self.policy, &flow);
        let number = self.count(treatment)?;
        wanted_of(alloc, self.ends.a.table(), treatment, number, packet)
    }

    /// Counts a packet, and gives it its number.
    fn count(&mut self, treatment: Treatment) -> Result<u64, AllocError> {
        let kind = match treatment {
            Treatment::Carried(_) => &mut self.played.carried,
            Treatment::Uncarried => &mut self.played.uncarried,
            Treatment::Bypassed => &mut self.played.bypassed,
            Treatment::Discarded => &mut self.played.discarded,
        };
        *kind = kind.saturating_add(1);
        match treatment {
            Treatment::Carried(child) => self.number(child as usize),
            _ => Ok(0),
        }
    }

    /// The number of the next packet of a child.
    fn number(&mut self, child: usize) -> Result<u64, AllocError> {
        if self.sealed.len() <= child {
            self.sealed.resize(child.saturating_add(1), 0)?;
        }
        let Some(last) = self.sealed.get_mut(child) else {
            return Ok(0);
        };
        *last = last.saturating_add(1);
        Ok(*last)
    }

    /// Something else comes to A: most of it changes a pair.
    fn change(&mut self, alloc: Global) -> Result<(), AllocError> {
        match self.random.below(20) {
            0..=4 => self.make(alloc, End::A),
            5..=7 => self.make(alloc, End::B),
            8..=12 => self.mark(alloc),
            13..=15 => self.answer(alloc),
            16..=18 => self.remove(alloc),
            _ => self.disturb(alloc),
        }
    }

    /// An additional Child SA, by an end's order.
    fn make(&mut self, alloc: Global, end: End) -> Result<(), AllocError> {
        let order = Input::Start {
            ike: self.ends.association(end),
            entry: self.random.small(PROTECTING),
            fresh: &self.ends.fresh(),
        };
        let octets = self.ends.order(alloc, end, &order);
        self.played.made = self.played.made.saturating_add(1);
        match end {
            End::A => self.ends.deliver(alloc, &octets, End::B),
            End::B => self.ends.deliver(alloc, &octets, End::A),
        }
    }

    /// One of an end's children.
    fn some_child(&mut self, end: End) -> u32 {
        let most = self.sealed.len() as u64;
        let after = self.random.small(most.saturating_add(1));
        match self.ends.child_after(end, after) {
            Some(child) => child,
            None => self.ends.child_after(end, 0).unwrap_or(0),
        }
    }

    /// A orders that a child be deleted, once what was on its way has come: it is marked, and its
    /// request is on its way.
    fn mark(&mut self, alloc: Global) -> Result<(), AllocError> {
        self.answer(alloc)?;
        let order = Input::DeleteChild {
            child: self.some_child(End::A),
            fresh: &self.ends.fresh(),
        };
        let octets = self.ends.order(alloc, End::A, &order);
        if !octets.is_empty() {
            self.on_its_way = octets;
            self.played.marked = self.played.marked.saturating_add(1);
        }
        Ok(())
    }

    /// What is on its way comes to B, and its answer to A.
    fn answer(&mut self, alloc: Global) -> Result<(), AllocError> {
        let octets = self.on_its_way.to_vec(alloc)?;
        self.on_its_way.clear();
        self.ends.deliver(alloc, &octets, End::B)
    }

    /// B orders that a child be deleted.
    fn remove(&mut self, alloc: Global) -> Result<(), AllocError> {
        let order = Input::DeleteChild {
            child: self.some_child(End::B),
            fresh: &self.ends.fresh(),
        };
        let octets = self.ends.order(alloc, End::B, &order);
        self.played.removed = self.played.removed.saturating_add(1);
        self.ends.deliver(alloc, &octets, End::A)
    }

    /// A moment, and octets of nobody.
    fn disturb(&mut self, alloc: Global) -> Result<(), AllocError> {
        let tick = Input::Tick {
            moment: self.random.below(1000),
        };
        self.ends.a.step(alloc, &tick);
        let noise = Input::Ike {
            from: [192, 0, 2, 7],
            octets: &[self.random.octet(); 40],
            fresh: &self.ends.fresh(),
        };
        self.ends.a.step(alloc, &noise);
        Ok(())
    }
}

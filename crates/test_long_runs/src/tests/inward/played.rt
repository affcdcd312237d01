//! A hundred thousand inputs to B in lists, and what is wrong of what came of them.
use super::arrivals::Sender;
use super::plain_rule::{Judged, Wanted};
use crate::tests::random::Random;
use base::Items;
use caller_script::ScriptCaller;
use gateway::{Gateway, Output, run};
use std::alloc::Global;
use std::process::Abort;
use test_samples::{Both, OwnedInput, inner, lend_inputs, message, probe, sent};

/// How many lists there are, and how many inputs each has.
const LISTS: u64 = 400;

const INPUTS: u64 = 250;

/// What was wanted of all inputs, in order, and the place of the first of which something else came.
#[derive(Drop)]
pub struct Played {
    pub wanted: Vec<Wanted>,
    pub first_wrong: Option<usize>,
}

impl Played {
    fn new(alloc: Global) -> Played {
        Played {
            wanted: Vec::new(alloc),
            first_wrong: None,
        }
    }

    /// What was wanted of one more list, and the place in it of which something else came.
    fn add(&mut self, rt: &impl Abort, wanted: &[Wanted], wrong: Option<usize>) {
        let before = self.wanted.len();
        if let (None, Some(place)) = (self.first_wrong, wrong) {
            self.first_wrong = Some(before.saturating_add(place));
        }
        self.wanted.extend_from_slice(wanted).expect(rt, "memory");
    }

    /// Of how many inputs this was wanted.
    pub fn count(&self, wanted: Wanted) -> usize {
        let mut count: usize = 0;
        for found in &self.wanted {
            if *found == wanted {
                count = count.saturating_add(1);
            }
        }
        count
    }

    /// How many packets were to go up.
    pub fn ups(&self) -> usize {
        let mut count: usize = 0;
        for found in &self.wanted {
            if let Wanted::Up(_) = found {
                count = count.saturating_add(1);
            }
        }
        count
    }
}

/// A request of A, and B's answer to it.
#[derive(Drop)]
struct Exchange {
    request: Vec<u8>,
    reply: Vec<u8>,
}

/// What both ends and the way between them are at.
#[derive(Drop)]
struct Ends {
    sender: Sender,
    b: Gateway<ScriptCaller>,
    judged: Judged,
    /// What A asked so far; B keeps its answer to the last one.
    exchanges: Vec<Exchange>,
    random: Random,
}

/// A list of inputs to B, and what is wanted of each.
#[derive(Drop)]
struct Given {
    inputs: Vec<OwnedInput>,
    wanted: Vec<Wanted>,
}

impl Given {
    fn new(alloc: Global) -> Given {
        Given {
            inputs: Vec::new(alloc),
            wanted: Vec::new(alloc),
        }
    }

    fn add(&mut self, rt: &impl Abort, input: OwnedInput, wanted: Wanted) {
        self.inputs.push(input).expect(rt, "memory");
        self.wanted.push(wanted).expect(rt, "memory");
    }

    fn add_message(&mut self, rt: &impl Abort, alloc: Global, octets: &[u8], wanted: Wanted) {
        let input = message(alloc, octets, 20).expect(rt, "memory");
        self.add(rt, input, wanted);
    }
}

/// The last octet is changed, which is one of the ICV.
fn damaged(rt: &impl Abort, alloc: Global, octets: &[u8]) -> Vec<u8> {
    let mut damaged = octets.to_vec(alloc).expect(rt, "memory");
    if let Some(last) = damaged.last_mut() {
        *last ^= 1;
    }
    damaged
}

/// The request of IKE_AUTH, and its answer.
fn first_exchange(rt: &impl Abort, alloc: Global, both: &Both) -> Exchange {
    Exchange {
        request: both.datagram(3).to_vec(alloc).expect(rt, "memory"),
        reply: both.datagram(4).to_vec(alloc).expect(rt, "memory"),
    }
}

impl Ends {
    fn new(rt: &impl Abort, alloc: Global, extended: bool) -> Ends {
        let both = Both::connected(alloc, extended).expect(rt, "two gateways");
        let mut exchanges = Vec::new(alloc);
        exchanges
            .push(first_exchange(rt, alloc, &both))
            .expect(rt, "memory");
        Ends {
            sender: Sender::new(alloc, both.a),
            b: both.b,
            judged: Judged::new(alloc, extended),
            exchanges,
            random: Random::from_seed(4303),
        }
    }

    /// A asks B whether it is there.
    fn probe(&mut self, rt: &impl Abort, alloc: Global) {
        let request = sent(self.sender.gateway(), alloc, &probe(1));
        let asked = message(alloc, &request, 20).expect(rt, "memory");
        let reply = sent(&mut self.b, alloc, &asked);
        let answered = message(alloc, &reply, 20).expect(rt, "memory");
        self.sender.gateway().step(alloc, &answered.lend());
        self.exchanges
            .push(Exchange { request, reply })
            .expect(rt, "memory");
    }

    /// One more input: one in thirty is a datagram of IKE.
    fn add(&mut self, rt: &impl Abort, alloc: Global, given: &mut Given) {
        if self.random.below(30) == 0 {
            self.add_message(rt, alloc, given);
        } else {
            self.add_packet(rt, alloc, given);
        }
    }

    /// A request of A that came before, as it was or damaged, or B's own answer to it.
    fn add_message(&mut self, rt: &impl Abort, alloc: Global, given: &mut Given) {
        let back = self.random.below(2) as usize;
        let last = self.exchanges.len().saturating_sub(1);
        let place = last.saturating_sub(back);
        let kind = self.random.below(4);
        let Some(exchange) = self.exchanges.get(place) else {
            return;
        };
        if kind == 0 {
            given.add_message(rt, alloc, &exchange.reply, Wanted::Dropped(33));
        } else if place != last {
            // A number whose reply is kept no more is refused before the request is opened.
            given.add_message(rt, alloc, &exchange.request, Wanted::Dropped(30));
        } else if kind == 1 {
            let octets = damaged(rt, alloc, &exchange.request);
            given.add_message(rt, alloc, &octets, Wanted::Dropped(29));
        } else {
            given.add_message(rt, alloc, &exchange.request, Wanted::Repeat);
        }
    }

    fn add_packet(&mut self, rt: &impl Abort, alloc: Global, given: &mut Given) {
        let arrival = self.sender.next(rt, alloc, &mut self.random);
        let wanted = self.judged.answer(rt, &arrival.octets, arrival.sent);
        let octets = Items::from_vec(arrival.octets);
        given.add(rt, OwnedInput::Esp { octets }, wanted);
    }

    /// The next list.
    fn given(&mut self, rt: &impl Abort, alloc: Global) -> Given {
        let mut given = Given::new(alloc);
        for _ in 0..INPUTS {
            self.add(rt, alloc, &mut given);
        }
        given
    }

    /// So many ESP packets.
    fn packets(&mut self, rt: &impl Abort, alloc: Global, count: u64) -> Given {
        let mut given = Given::new(alloc);
        for _ in 0..count {
            self.add_packet(rt, alloc, &mut given);
        }
        given
    }

    /// Gives B one input after the other. The place of the first output that is another than is wanted.
    fn first_wrong_step(&mut self, alloc: Global, given: &Given) -> Option<usize> {
        for (place, (input, wanted)) in given.inputs.iter().zip(&given.wanted).enumerate() {
            if !is_wanted(&self.b.step(alloc, &input.lend()), *wanted, &[]) {
                return Some(place);
            }
        }
        None
    }

    /// Gives B a list. The place of the first output that is another than is wanted.
    fn run(&mut self, rt: &impl Abort, alloc: Global, given: &Given) -> Option<usize> {
        let lent = lend_inputs(alloc, &given.inputs).expect(rt, "memory");
        let mut outputs = Vec::new(alloc);
        run(alloc, &mut self.b, &lent, &mut outputs).expect(rt, "room for the outputs");
        first_wrong(&outputs, &given.wanted, self.last_reply())
    }

    /// The next list, and after each tenth one a request of A.
    fn play_list(&mut self, rt: &impl Abort, alloc: Global, list: u64, played: &mut Played) {
        let given = self.given(rt, alloc);
        let wrong = self.run(rt, alloc, &given);
        played.add(rt, &given.wanted, wrong);
        if list % 10 == 9 {
            self.probe(rt, alloc);
        }
    }

    /// B's answer to A's last request.
    fn last_reply(&self) -> &[u8] {
        match self.exchanges.last() {
            Some(exchange) => exchange.reply.as_slice(),
            None => &[],
        }
    }
}

/// The place of the first output that is another than is wanted.
fn first_wrong(outputs: &[Output<'_>], wanted: &[Wanted], reply: &[u8]) -> Option<usize> {
    if outputs.len() != wanted.len() {
        return Some(outputs.len());
    }
    for (place, (output, wanted)) in outputs.iter().zip(wanted).enumerate() {
        if !is_wanted(output, *wanted, reply) {
            return Some(place);
        }
    }
    None
}

fn is_wanted(output: &Output<'_>, wanted: Wanted, reply: &[u8]) -> bool {
    match (output, wanted) {
        (
            Output::Up {
                child: 1,
                number,
                packet,
            },
            Wanted::Up(sent),
        ) => { *number == sent && *packet == inner(sent).as_slice() }
        (Output::Dropped { reason }, Wanted::Dropped(code)) => reason.code() == code,
        (Output::Repeat { octets }, Wanted::Repeat) => octets.as_slice() == reply,
        _ => false,
    }
}

/// Gives B a thousand ESP packets, one by one. The place of the first output that is another than is wanted.
pub fn step_packets(rt: &impl Abort, alloc: Global) -> Option<usize> {
    let mut ends = Ends::new(rt, alloc, true);
    let given = ends.packets(rt, alloc, 1000);
    ends.first_wrong_step(alloc, &given)
}

/// All lists.
pub fn play_lists(rt: &impl Abort, alloc: Global, extended: bool) -> Played {
    let mut ends = Ends::new(rt, alloc, extended);
    let mut played = Played::new(alloc);
    for list in 0..LISTS {
        ends.play_list(rt, alloc, list, &mut played);
    }
    played
}

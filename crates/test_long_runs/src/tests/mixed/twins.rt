//! Two gateways that are A both, and B. One twin takes each list by a call of `run`, the other its inputs one
//! by one.
use super::packets::{arriving, outbound, sealed};
use crate::tests::random::Random;
use base::Items;
use caller_script::ScriptCaller;
use gateway::{Gateway, Input, Output, Pair, Table, Transmit, run};
use std::alloc::Global;
use std::process::Abort;
use test_samples::{Both, OwnedInput, fresh, further, lend_inputs, message, probe, sent};

/// The longest list.
const LONGEST: u64 = 70;

/// Both twins, and what goes between them and B.
#[derive(Drop)]
struct Twins {
    listed: Gateway<ScriptCaller>,
    stepped: Gateway<ScriptCaller>,
    b: Gateway<ScriptCaller>,
    /// The ESP packets that B sent.
    packets: Vec<Vec<u8>>,
    /// The messages of IKE that B sent, and that didn't come yet.
    messages: Vec<Vec<u8>>,
    moment: u64,
    random: Random,
}

/// What came of all lists.
#[derive(Clone, Copy, Drop)]
pub struct Compared {
    /// How many outputs were the same, and how many were not.
    pub same: usize,
    pub other: usize,
    /// After how many lists the tables of both twins were not the same.
    pub unlike_tables: usize,
    /// How many packets were sealed, delivered, and dropped.
    pub sealed: usize,
    pub delivered: usize,
    pub dropped: usize,
    /// How many requests went out, how many Child SAs were made by them, and how many ticks were taken.
    pub requests: usize,
    pub children: usize,
    pub ticks: usize,
}

impl Twins {
    fn new(rt: &impl Abort, alloc: Global) -> Twins {
        let mut both = Both::connected(alloc, true).expect(rt, "two gateways");
        let twin = Both::connected(alloc, true).expect(rt, "two gateways");
        // As a build for x86-64-v3 has it: the other lists begin lanes where a build for v2 does.
        both.a.begin_lanes_at(2);
        Twins {
            listed: both.a,
            stepped: twin.a,
            b: both.b,
            packets: Vec::new(alloc),
            messages: Vec::new(alloc),
            moment: 0,
            random: Random::from_seed(4303),
        }
    }

    /// The next input of A.
    fn input(&mut self, rt: &impl Abort, alloc: Global) -> OwnedInput {
        match self.random.below(100) {
            0..=39 => outbound(rt, alloc, &mut self.random),
            40..=79 => self.packet_of_b(rt, alloc),
            80..=89 => self.message_of_b(rt, alloc),
            90..=93 => self.tick(),
            94..=95 => probe(1),
            96..=97 => further(1),
            _ => self.deletion(),
        }
    }

    fn packet_of_b(&mut self, rt: &impl Abort, alloc: Global) -> OwnedInput {
        let packet = sealed(rt, alloc, &mut self.random, &mut self.b);
        self.packets.push(packet).expect(rt, "memory");
        arriving(rt, alloc, &mut self.random, &self.packets)
    }

    /// A message of IKE that waits to come; no octets where none does.
    fn message_of_b(&mut self, rt: &impl Abort, alloc: Global) -> OwnedInput {
        let octets = match self.messages.pop() {
            Some(octets) => octets,
            None => Vec::new(alloc),
        };
        message(alloc, &octets, 20).expect(rt, "memory")
    }

    fn tick(&mut self) -> OwnedInput {
        self.moment = self.moment.saturating_add(self.random.below(700));
        OwnedInput::Tick {
            moment: self.moment,
        }
    }

    /// The command to delete a Child SA that there may be.
    fn deletion(&mut self) -> OwnedInput {
        OwnedInput::DeleteChild {
            child: self.random.small(40),
            fresh: fresh(9),
        }
    }

    fn inputs(&mut self, rt: &impl Abort, alloc: Global, count: u64) -> Vec<OwnedInput> {
        let mut inputs = Vec::new(alloc);
        for _ in 0..count {
            let input = self.input(rt, alloc);
            inputs.push(input).expect(rt, "memory");
        }
        inputs
    }

    /// Gives the next list to both twins, and what they sent to B.
    fn compare(&mut self, rt: &impl Abort, alloc: Global, count: u64, compared: &mut Compared) {
        let owned = self.inputs(rt, alloc, count);
        let inputs = lend_inputs(alloc, &owned).expect(rt, "memory");
        let mut outputs = Vec::new(alloc);
        run(alloc, &mut self.listed, &inputs, &mut outputs).expect(rt, "room for the outputs");
        self.compare_outputs(alloc, &inputs, &outputs, compared);
        if !are_same_tables(self.listed.table(), self.stepped.table()) {
            compared.unlike_tables = compared.unlike_tables.saturating_add(1);
        }
        for output in &outputs {
            self.carry(rt, alloc, output);
        }
    }

    fn compare_outputs(
        &mut self,
        alloc: Global,
        inputs: &[Input<'_>],
        outputs: &[Output<'_>],
        compared: &mut Compared,
    ) {
        for (input, output) in inputs.iter().zip(outputs) {
            let is_same = *output == self.stepped.step(alloc, input);
            compared.count(output, is_same);
        }
    }

    /// Two of three messages of IKE come to B, and what B answers comes in a later list.
    fn carry(&mut self, rt: &impl Abort, alloc: Global, output: &Output<'_>) {
        for datagram in output.datagrams() {
            if let Transmit::Ike(octets) = datagram {
                if self.random.below(3) > 0 {
                    self.give_b(rt, alloc, octets);
                }
            }
        }
    }

    fn give_b(&mut self, rt: &impl Abort, alloc: Global, octets: &[u8]) {
        let input = message(alloc, octets, 30).expect(rt, "memory");
        let answer = sent(&mut self.b, alloc, &input);
        self.messages.push(answer).expect(rt, "memory");
    }

    /// B asks for one more Child SA.
    fn ask(&mut self, rt: &impl Abort, alloc: Global) {
        let request = sent(&mut self.b, alloc, &further(1));
        self.messages.push(request).expect(rt, "memory");
    }
}

impl Compared {
    const NONE: Compared = Compared {
        same: 0,
        other: 0,
        unlike_tables: 0,
        sealed: 0,
        delivered: 0,
        dropped: 0,
        requests: 0,
        children: 0,
        ticks: 0,
    };

    fn count(&mut self, output: &Output<'_>, is_same: bool) {
        let counter = if is_same {
            &mut self.same
        } else {
            &mut self.other
        };
        *counter = counter.saturating_add(1);
        self.count_kind(output);
    }

    fn count_kind(&mut self, output: &Output<'_>) {
        let counter = match output {
            Output::Sealed { .. } => &mut self.sealed,
            Output::Up { .. } => &mut self.delivered,
            Output::Dropped { .. } => &mut self.dropped,
            Output::Request { .. } => &mut self.requests,
            Output::Counted { child: Some(_), .. } => &mut self.children,
            Output::Ticked { .. } => &mut self.ticks,
            _ => return,
        };
        *counter = counter.saturating_add(1);
    }
}

/// Whether two tables have the same pairs, with the same numbers.
fn are_same_tables(one: &Table, other: &Table) -> bool {
    let mut serial = 0;
    for _ in 0..1024u32 {
        match (one.after(serial), other.after(serial)) {
            (None, None) => return true,
            (Some(pair), Some(twin)) if is_same_pair(pair, twin) => serial = pair.serial,
            _ => return false,
        }
    }
    true
}

fn is_same_pair(one: &Pair, other: &Pair) -> bool {
    (one.serial, one.ike) == (other.serial, other.ike)
        && one.state == other.state
        && one.inbound.spi() == other.inbound.spi()
        && one.inbound.top() == other.inbound.top()
        && one.outbound.spi() == other.outbound.spi()
        && one.outbound.last() == other.outbound.last()
}

/// All lists, three times over.
pub fn compare_lists(rt: &impl Abort, alloc: Global) -> Compared {
    let mut twins = Twins::new(rt, alloc);
    let mut compared = Compared::NONE;
    for _ in 0..3 {
        for count in 1..LONGEST + 1 {
            if count % 8 == 1 {
                twins.ask(rt, alloc);
            }
            twins.compare(rt, alloc, count, &mut compared);
        }
    }
    compared
}

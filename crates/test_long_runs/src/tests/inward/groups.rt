//! Lists of ESP packets of each length from 1 to 70, given to two gateways that are alike: one takes each by
//! a call of `run`, the other its packets one by one. A list of 6 or more may have its ICVs computed side by
//! side, one of more than 64 has a group and a rest.
use super::arrivals::Sender;
use crate::tests::random::Random;
use base::Items;
use caller_script::ScriptCaller;
use gateway::{Gateway, Output, run};
use std::alloc::Global;
use std::process::Abort;
use test_samples::{Both, OwnedInput, further, lend_inputs, message, sent};

/// The longest list.
const LONGEST: u64 = 70;

/// A, and two gateways that are B both.
#[derive(Drop)]
struct Twins {
    sender: Sender,
    listed: Gateway<ScriptCaller>,
    stepped: Gateway<ScriptCaller>,
    random: Random,
}

/// What came of all lists.
#[derive(Clone, Copy, Drop)]
pub struct Compared {
    /// How many outputs were the same.
    pub same: usize,
    /// How many were not.
    pub other: usize,
    /// How many packets went up.
    pub ups: usize,
    /// How often a packet went up right behind one of another child.
    pub changes: usize,
}

impl Twins {
    fn new(rt: &impl Abort, alloc: Global) -> Twins {
        let both = Both::connected(alloc, true).expect(rt, "two gateways");
        let twin = Both::connected(alloc, true).expect(rt, "two gateways");
        Twins {
            sender: Sender::new(alloc, both.a),
            listed: both.b,
            stepped: twin.b,
            random: Random::from_seed(4868),
        }
    }

    /// A asks for one more child. Packets that it sent by the children before come late.
    fn add_child(&mut self, rt: &impl Abort, alloc: Global) {
        let request = sent(self.sender.gateway(), alloc, &further(1));
        let asked = message(alloc, &request, 20).expect(rt, "memory");
        let reply = sent(&mut self.listed, alloc, &asked);
        sent(&mut self.stepped, alloc, &asked);
        let answered = message(alloc, &reply, 20).expect(rt, "memory");
        self.sender.gateway().step(alloc, &answered.lend());
    }

    fn inputs(&mut self, rt: &impl Abort, alloc: Global, count: u64) -> Vec<OwnedInput> {
        let mut inputs = Vec::new(alloc);
        for _ in 0..count {
            let arrival = self.sender.next(rt, alloc, &mut self.random);
            let octets = Items::from_vec(arrival.octets);
            inputs.push(OwnedInput::Esp { octets }).expect(rt, "memory");
        }
        inputs
    }

    /// Gives the next list to both.
    fn compare(&mut self, rt: &impl Abort, alloc: Global, count: u64, compared: &mut Compared) {
        let owned = self.inputs(rt, alloc, count);
        let inputs = lend_inputs(alloc, &owned).expect(rt, "memory");
        let mut outputs = Vec::new(alloc);
        run(alloc, &mut self.listed, &inputs, &mut outputs).expect(rt, "room for the outputs");
        let mut before = None;
        for (input, output) in inputs.iter().zip(&outputs) {
            compared.count(output, &self.stepped.step(alloc, input));
            if let Output::Up { child, .. } = output {
                compared.count_child(before, *child);
                before = Some(*child);
            }
        }
    }
}

impl Compared {
    fn count(&mut self, found: &Output<'_>, wanted: &Output<'_>) {
        if are_same(found, wanted) {
            self.same = self.same.saturating_add(1);
        } else {
            self.other = self.other.saturating_add(1);
        }
    }

    fn count_child(&mut self, before: Option<u32>, child: u32) {
        self.ups = self.ups.saturating_add(1);
        if before.is_some_and(|before| before != child) {
            self.changes = self.changes.saturating_add(1);
        }
    }
}

/// Whether the same came of an ESP packet.
fn are_same(found: &Output<'_>, wanted: &Output<'_>) -> bool {
    match (found, wanted) {
        (
            Output::Up {
                child: found_child,
                number: found_number,
                packet: found_packet,
            },
            Output::Up {
                child,
                number,
                packet,
            },
        ) => { found_child == child && found_number == number && found_packet == packet }
        (Output::Dropped { reason: found }, Output::Dropped { reason }) => {
            found.code() == reason.code()
        }
        _ => false,
    }
}

/// All lists, three times over, with one more child before each.
pub fn compare_lists(rt: &impl Abort, alloc: Global) -> Compared {
    let mut twins = Twins::new(rt, alloc);
    let mut compared = Compared {
        same: 0,
        other: 0,
        ups: 0,
        changes: 0,
    };
    for _ in 0..3 {
        for count in 1..LONGEST + 1 {
            if count % 8 == 1 {
                twins.add_child(rt, alloc);
            }
            twins.compare(rt, alloc, count, &mut compared);
        }
    }
    compared
}

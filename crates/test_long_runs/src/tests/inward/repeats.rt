//! A request of A that comes to B again and again.
use base::Items;
use gateway::{Output, run};
use std::alloc::Global;
use std::process::Abort;
use test_samples::{Both, OwnedInput, lend_inputs, message, probe, sent};

/// Both ends after A asked B whether it is there; the request, and its answer.
#[derive(Drop)]
pub struct Asked {
    both: Both,
    request: Vec<u8>,
    reply: Vec<u8>,
}

/// What B sends later: a packet, the answer to A's next request, and a request of its own.
#[derive(Drop)]
pub struct Later {
    packet: Vec<u8>,
    answer: Vec<u8>,
    request: Vec<u8>,
}

impl Later {
    pub fn lengths(&self) -> (usize, usize, usize) {
        (self.packet.len(), self.answer.len(), self.request.len())
    }

    /// Whether it is the same, octet for octet.
    pub fn is(&self, other: &Later) -> bool {
        self.packet == other.packet && self.answer == other.answer && self.request == other.request
    }
}

impl Asked {
    pub fn new(rt: &impl Abort, alloc: Global) -> Asked {
        let mut both = Both::connected(alloc, true).expect(rt, "two gateways");
        let request = sent(&mut both.a, alloc, &probe(1));
        let asked = message(alloc, &request, 20).expect(rt, "memory");
        let reply = sent(&mut both.b, alloc, &asked);
        Asked {
            both,
            request,
            reply,
        }
    }

    /// The request comes so many times more by one list. How many outputs are its answer again.
    pub fn repeat(&mut self, rt: &impl Abort, alloc: Global, times: u64) -> usize {
        let owned = self.repeated(rt, alloc, times);
        let inputs = lend_inputs(alloc, &owned).expect(rt, "memory");
        let mut outputs = Vec::new(alloc);
        run(alloc, &mut self.both.b, &inputs, &mut outputs).expect(rt, "room for the outputs");
        repeats(&outputs, &self.reply)
    }

    /// The request, so many times.
    fn repeated(&self, rt: &impl Abort, alloc: Global, times: u64) -> Vec<OwnedInput> {
        let mut inputs = Vec::new(alloc);
        for _ in 0..times {
            let again = message(alloc, &self.request, 20).expect(rt, "memory");
            inputs.push(again).expect(rt, "memory");
        }
        inputs
    }

    /// What B sends afterwards.
    pub fn later(&mut self, rt: &impl Abort, alloc: Global) -> Later {
        let asked = self.next_request(rt, alloc);
        let out = packet_back(rt, alloc);
        let packet = sent(&mut self.both.b, alloc, &out);
        let answer = sent(&mut self.both.b, alloc, &asked);
        let request = sent(&mut self.both.b, alloc, &probe(1));
        Later {
            packet,
            answer,
            request,
        }
    }

    /// A's next request, once its last one is answered.
    fn next_request(&mut self, rt: &impl Abort, alloc: Global) -> OwnedInput {
        let answered = message(alloc, &self.reply, 20).expect(rt, "memory");
        self.both.a.step(alloc, &answered.lend());
        let request = sent(&mut self.both.a, alloc, &probe(1));
        message(alloc, &request, 20).expect(rt, "memory")
    }
}

/// How many outputs are these octets again.
fn repeats(outputs: &[Output<'_>], reply: &[u8]) -> usize {
    let mut count: usize = 0;
    for output in outputs {
        if let Output::Repeat { octets } = output {
            if octets.as_slice() == reply {
                count = count.saturating_add(1);
            }
        }
    }
    count
}

/// A packet from 10.1.0.1 to 10.0.0.1 on its way out at B.
fn packet_back(rt: &impl Abort, alloc: Global) -> OwnedInput {
    let packet = [
        0x45, 0, 0, 20, 0, 0, 0, 0, 0x40, 1, 0, 0, 10, 1, 0, 1, 10, 0, 0, 1,
    ];
    OwnedInput::Outward {
        packet: Items::from_slice(alloc, &packet).expect(rt, "memory"),
    }
}

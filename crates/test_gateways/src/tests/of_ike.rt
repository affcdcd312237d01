//! The machine of one end by its own step: requests whose numbers and SPIs no script writes.
mod deleting;
mod further_children;
mod past_the_window;
mod sealing;

ghost use Rattle.auth.specs.Windows.{IsWindow};

use super::asserts::{add, holds, same};
use association::MessageFault;
use base::Items;
use caller_script::ScriptCaller;
use gateway::End;
use ike::{Ike, IkeFault, IkeInput, IkeOutput};
use mac::icv;
use policy::Policy;
use sadb::Table;
use std::alloc::Global;
use std::marker::Model;
use std::panic::Expect;
use std::process::Abort;
use test_samples::{config, fresh, policy};

/// One end: its machine, and the table and the policy that go with it. That the machine is sound with
/// the table is an invariant, so that no test has to say it.
#[derive(Drop)]
struct Side {
    ike: Ike,
    table: Table,
    policy: Policy,
}

impl Model for Side {
    ghost use Rattle.std.specs.Prelude.{ℕ};
    ghost use Rattle.ike.specs.Soundness.{IsSoundMachine};

    ghost Value = { ℕ };

    ghost view = { λ s. 0 };

    ghost invariant = { λ s. IsSoundMachine s.ike s.table };
}

impl Side {
    fn new(rt: &impl Abort, alloc: Global, end: End) -> Side {
        Side::with(rt, alloc, end, Table::new(alloc, 4096))
    }

    fn with(rt: &impl Abort, alloc: Global, end: End, table: Table) -> Side {
        Side::of_window(rt, alloc, end, 4, table)
    }

    /// An end that takes so many requests at once, from 1 to 16.
    fn of_window(rt: &impl Abort, alloc: Global, end: End, window: u8, table: Table) -> Side
        requires { IsWindow window }
    {
        let config = config(alloc, end, window).expect(rt, "a configuration");
        let policy = policy(alloc, end).expect(rt, "a policy");
        Side {
            ike: Ike::new(alloc, config),
            table,
            policy,
        }
    }

    /// What a step says.
    fn step(&mut self, rt: &impl Abort, alloc: Global, input: &IkeInput<'_>) -> IkeOutput {
        self.ike
            .step(alloc, input, &mut self.table, &self.policy, &ScriptCaller)
            .expect(rt, "a step")
            .output
    }

    /// Why an order is refused.
    fn refusal(&mut self, alloc: Global, input: &IkeInput<'_>) -> Option<IkeFault> {
        self.ike
            .step(alloc, input, &mut self.table, &self.policy, &ScriptCaller)
            .err()
    }

    /// What is said of a datagram.
    fn take(&mut self, rt: &impl Abort, alloc: Global, octets: &[u8], spi: u64) -> IkeOutput {
        let fresh = fresh(spi);
        let from = [192, 0, 2, 9];
        let input = IkeInput::Message {
            from,
            octets,
            fresh: &fresh,
        };
        self.step(rt, alloc, &input)
    }

    /// The datagram that answers one.
    fn answer(&mut self, rt: &impl Abort, alloc: Global, octets: &[u8], spi: u64) -> Items<u8> {
        sent(rt, self.take(rt, alloc, octets, spi))
    }

    /// The key of what the initiator of the first IKE SA sends.
    fn key(&self, rt: &impl Abort) -> [u8; 32] {
        self.ike.keys_of(1).expect(rt, "keys").sk_ai
    }
}

/// The datagram that goes out.
fn sent(rt: &impl Abort, output: IkeOutput) -> Items<u8> {
    match output {
        IkeOutput::Request { octets, .. } | IkeOutput::Reply { octets, .. } => octets,
        _ => panic!(rt; "nothing is sent"),
    }
}

/// Why what came is passed over.
fn dropped(output: IkeOutput) -> Option<MessageFault> {
    match output {
        IkeOutput::Dropped(IkeFault::Message(fault)) => Some(fault),
        _ => None,
    }
}

/// Whether a request is answered, and its IKE SA stays.
fn is_answered(output: IkeOutput) -> bool {
    matches!(output, IkeOutput::Reply { closed: None, .. })
}

/// Whether a request is answered as before.
fn is_repeated(output: IkeOutput) -> bool {
    matches!(output, IkeOutput::Repeat(_))
}

/// One more IKE SA between both ends, under this SPI of A's and the next one of B's: IKE_SA_INIT and
/// IKE_AUTH.
fn agree(rt: &impl Abort, alloc: Global, a: &mut Side, b: &mut Side, spi: u64) {
    let fresh = fresh(spi);
    let order = IkeInput::Start {
        ike: None,
        entry: 0,
        fresh: &fresh,
    };
    let first = sent(rt, a.step(rt, alloc, &order));
    let answer = b.answer(rt, alloc, first.as_slice(), spi.saturating_add(1));
    let second = a.answer(rt, alloc, answer.as_slice(), 90);
    let last = b.answer(rt, alloc, second.as_slice(), 91);
    a.take(rt, alloc, last.as_slice(), 92);
}

/// A, which has two IKE SAs with B.
fn agreed_twice(rt: &impl Abort, alloc: Global, b: &mut Side) -> Side {
    let mut a = Side::new(rt, alloc, End::A);
    agree(rt, alloc, &mut a, b, 1);
    agree(rt, alloc, &mut a, b, 3);
    a
}

/// A request of INFORMATIONAL without payloads under A's SPI 1 and B's 2, as the caller of scripts
/// seals it under A's key.
fn request(rt: &impl Abort, alloc: Global, number: u32, key: &[u8; 32]) -> Vec<u8> {
    empty(rt, alloc, 0x08, number, key)
}

/// A message of INFORMATIONAL without payloads, with these flags, as the caller of scripts seals it
/// under its sender's key.
fn empty(rt: &impl Abort, alloc: Global, flags: u8, number: u32, key: &[u8; 32]) -> Vec<u8> {
    let mut octets = Vec::new(alloc);
    add(
        rt,
        &mut octets,
        &[0, 0, 0, 0, 0, 0, 0, 1, 0, 0, 0, 0, 0, 0, 0, 2],
    );
    add(rt, &mut octets, &[46, 0x20, 37, flags]);
    add(rt, &mut octets, &number.to_be_bytes());
    add(rt, &mut octets, &[0, 0, 0, 49, 0, 0, 0, 21, 0]);
    let check = icv(key, &[&octets]);
    add(rt, &mut octets, &check);
    octets
}

/// B, established with a window of 4 and two requests in effect.
fn established(rt: &impl Abort, alloc: Global) -> Side {
    established_with(rt, alloc, Table::new(alloc, 4096))
}

/// The same, where B begins with this table.
fn established_with(rt: &impl Abort, alloc: Global, table: Table) -> Side {
    let mut a = Side::new(rt, alloc, End::A);
    let mut b = Side::with(rt, alloc, End::B, table);
    agree(rt, alloc, &mut a, &mut b, 1);
    b
}

/// What B says of a request of this number.
fn asked(rt: &impl Abort, alloc: Global, b: &mut Side, number: u32, spi: u64) -> IkeOutput {
    let octets = request(rt, alloc, number, &b.key(rt));
    b.take(rt, alloc, &octets, spi)
}

/// Whether B passes a request of this number over as outside its window.
fn is_outside(rt: &impl Abort, alloc: Global, b: &mut Side, number: u32) -> bool {
    dropped(asked(rt, alloc, b, number, 20)) == Some(MessageFault::OutsideWindow)
}

/// A window of 4 from 2 on ends below 6.
#[test]
fn numbers_of_a_window(rt: HostRuntime) {
    let alloc = rt.alloc();
    let mut b = established(&rt, alloc);
    holds(&rt, is_outside(&rt, alloc, &mut b, 6));
    holds(&rt, is_answered(asked(&rt, alloc, &mut b, 5, 21)));
    // The least number that is not in effect is still 2.
    holds(&rt, is_outside(&rt, alloc, &mut b, 6));
    holds(&rt, is_repeated(asked(&rt, alloc, &mut b, 5, 23)));
}

/// The greatest numbers that a header can have, and the one in the middle.
const GREAT: [u32; 5] = [u32::MAX, u32::MAX - 1, u32::MAX - 2, u32::MAX - 3, 1 << 31];

#[test]
fn numbers_near_the_end(rt: HostRuntime) {
    let mut b = established(&rt, rt.alloc());
    for number in GREAT {
        holds(&rt, is_outside(&rt, rt.alloc(), &mut b, number));
    }
}

/// The SPIs of IKE SA 1, written over those of another that has 3 and 4.
fn with_foreign_spis(rt: &impl Abort, alloc: Global, octets: &[u8]) -> Vec<u8> {
    let mut foreign = Vec::new(alloc);
    add(rt, &mut foreign, octets);
    for place in [7_usize, 15] {
        if let Some(octet) = foreign.get_mut(place) {
            *octet = octet.saturating_sub(2);
        }
    }
    foreign
}

/// A's probe under its second IKE SA.
fn probe(rt: &impl Abort, alloc: Global, a: &mut Side) -> Items<u8> {
    let fresh = fresh(30);
    let probe = IkeInput::Probe {
        ike: 2,
        fresh: &fresh,
    };
    sent(rt, a.step(rt, alloc, &probe))
}

/// Requests of one IKE SA, of the number that is expected, with the SPIs of another written over them.
#[test]
fn foreign_spis(rt: HostRuntime) {
    let alloc = rt.alloc();
    let mut b = Side::new(&rt, alloc, End::B);
    let mut a = agreed_twice(&rt, alloc, &mut b);
    let own = probe(&rt, alloc, &mut a);
    let foreign = with_foreign_spis(&rt, alloc, own.as_slice());
    let said = b.take(&rt, alloc, &foreign, 31);
    same(&rt, dropped(said), Some(MessageFault::NotOpened));
    holds(&rt, is_answered(b.take(&rt, alloc, own.as_slice(), 32)));
}

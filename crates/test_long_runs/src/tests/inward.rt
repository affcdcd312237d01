//! Lists of inputs by calls of `run`: what comes of each is known beforehand.
mod arrivals;
mod groups;
mod plain_rule;
mod played;
mod repeats;

use gateway::{End, Output, run};
use groups::compare_lists;
use plain_rule::Wanted;
use played::{Played, play_lists, step_packets};
use repeats::{Asked, Later};
use std::alloc::Global;
use std::process::Abort;
use test_samples::{Both, OwnedInput, gateway_with, lend_inputs, message, order, packet_out};

/// Finds that no output was another than was wanted, and that each kind came often enough.
fn are_wanted(rt: &impl Abort, played: &Played, each: &[Wanted]) {
    assert_eq!(rt; played.first_wrong, None);
    assert_eq!(rt; played.wanted.len(), 100_000);
    assert!(rt; played.ups() > 40_000, "{} went up", played.ups());
    for wanted in each {
        let count = played.count(*wanted);
        assert!(rt; count > 300, "{count} of {wanted:?}");
    }
}

// With extended numbers one below the window is read as one of the next 2^32, so its ICV is wrong.
#[test]
fn a_hundred_thousand_inputs(rt: HostRuntime) {
    let each = [
        Wanted::Dropped(14),
        Wanted::Dropped(16),
        Wanted::Dropped(18),
        Wanted::Dropped(28),
        Wanted::Dropped(29),
        Wanted::Dropped(30),
        Wanted::Dropped(33),
        Wanted::Repeat,
    ];
    are_wanted(&rt, &play_lists(&rt, rt.alloc(), true), &each);
}

#[test]
fn a_hundred_thousand_inputs_of_short_numbers(rt: HostRuntime) {
    let each = [
        Wanted::Dropped(14),
        Wanted::Dropped(15),
        Wanted::Dropped(16),
        Wanted::Dropped(18),
        Wanted::Dropped(28),
        Wanted::Dropped(29),
        Wanted::Dropped(30),
        Wanted::Dropped(33),
        Wanted::Repeat,
    ];
    are_wanted(&rt, &play_lists(&rt, rt.alloc(), false), &each);
}

/// What A is given where an IKE SA, its first child and a packet are made: its order, both answers of B, and
/// the packet.
fn inputs_of_a(rt: &impl Abort, alloc: Global, both: &Both) -> Vec<OwnedInput> {
    let mut inputs = Vec::new(alloc);
    inputs.push(order(1)).expect(rt, "memory");
    for (place, spi) in [(2, 12), (4, 14)] {
        let answer = message(alloc, both.datagram(place), spi).expect(rt, "memory");
        inputs.push(answer).expect(rt, "memory");
    }
    let packet = packet_out(alloc, 7).expect(rt, "memory");
    inputs.push(packet).expect(rt, "memory");
    inputs
}

/// The ESP packet of number 1 under SPI 8192 that carries the packet of identification 7, as far as its ICV.
const SEALED: [u8; 32] = [
    0, 0, 0x20, 0, 0, 0, 0, 1, 0x45, 0, 0, 20, 0, 7, 0, 0, 0x40, 1, 0, 0, 10, 0, 0, 0, 10, 1, 0, 1,
    1, 2, 2, 4,
];

/// Finds that a request of A's first IKE SA goes out, of so many octets, and that it is this one.
fn is_request(rt: &impl Abort, output: &Output<'_>, length: usize, octets: &[u8]) {
    match output {
        Output::Request {
            ike: 1,
            octets: sent,
        } => {
            assert_eq!(rt; sent.len(), length);
            assert_eq!(rt; sent.as_slice(), octets);
        }
        _ => panic!(rt; "{output:?}"),
    }
}

/// Finds that a packet goes out as [`SEALED`].
fn is_sealed(rt: &impl Abort, output: &Output<'_>) {
    match output {
        Output::Sealed {
            child: 1,
            number: 1,
            octets,
        } => {
            assert_eq!(rt; octets.len(), 48);
            assert_eq!(rt; octets.as_slice().get(..32), Some(SEALED.as_slice()));
        }
        _ => panic!(rt; "{output:?}"),
    }
}

/// Finds what comes of A's inputs.
fn are_outputs_of_a(rt: &impl Abort, both: &Both, outputs: &[Output<'_>]) {
    let [first, second, third, fourth] = outputs else {
        panic!(rt; "{} outputs", outputs.len());
    };
    is_request(rt, first, 148, both.datagram(1));
    is_request(rt, second, 202, both.datagram(3));
    let is_counted = matches!(
        third,
        Output::Counted {
            ike: 1,
            child: Some(1),
            closed: None
        }
    );
    assert!(rt; is_counted, "{third:?}");
    is_sealed(rt, fourth);
}

/// Gives these inputs to a new gateway, and finds what comes of them.
fn run_as_a(rt: &impl Abort, alloc: Global, both: &Both, inputs: &[OwnedInput]) {
    let mut gateway = gateway_with(alloc, End::A, true).expect(rt, "a gateway");
    let mut outputs = Vec::new(alloc);
    let lent = lend_inputs(alloc, inputs).expect(rt, "memory");
    run(alloc, &mut gateway, &lent, &mut outputs).expect(rt, "room for the outputs");
    are_outputs_of_a(rt, both, &outputs);
}

#[test]
fn all_inputs_of_one_end(rt: HostRuntime) {
    let both = Both::connected(rt.alloc(), true).expect(&rt, "two gateways");
    let inputs = inputs_of_a(&rt, rt.alloc(), &both);
    run_as_a(&rt, rt.alloc(), &both, &inputs);
}

/// Finds that what B sends afterwards is what it sends without the repeats: the same lengths, and the
/// same octets.
fn are_as_without(rt: &impl Abort, found: &Later, wanted: &Later) {
    assert_eq!(rt; found.lengths(), (48, 49, 49));
    assert!(rt; found.is(wanted));
}

/// What B sends after its answer, which is repeated a thousand times by one list.
fn after_a_thousand_repeats(rt: &impl Abort, alloc: Global) -> Later {
    let mut asked = Asked::new(rt, alloc);
    assert_eq!(rt; asked.repeat(rt, alloc, 1000), 1000);
    asked.later(rt, alloc)
}

fn after_the_answer(rt: &impl Abort, alloc: Global) -> Later {
    Asked::new(rt, alloc).later(rt, alloc)
}

// The repeats change nothing: what comes afterwards is what comes without them.
#[test]
fn a_thousand_repeats(rt: HostRuntime) {
    let found = after_a_thousand_repeats(&rt, rt.alloc());
    let wanted = after_the_answer(&rt, rt.alloc());
    are_as_without(&rt, &found, &wanted);
}

// In groups or one by one, the same comes of each packet: 3 times 1 + 2 + .. + 70 packets, of 27
// children and more that come late.
#[test]
fn lists_of_each_length(rt: HostRuntime) {
    let compared = compare_lists(&rt, rt.alloc());
    assert_eq!(rt; compared.other, 0);
    assert_eq!(rt; compared.same, 7455);
    assert!(rt; compared.ups > 3000, "{} went up", compared.ups);
    assert!(rt;
        compared.changes > 100,
        "{} of another child",
        compared.changes
    );
}

// To be run with each allocation failing in turn: what is prepared wants memory, and no answer does.
#[test]
fn packets_without_memory(rt: HostRuntime) {
    assert_eq!(rt; step_packets(&rt, rt.alloc()), None);
}

//! Outputs, compared with each other and as lines for a log.
use super::asserts::same;
use gateway::{End, Input, Output};
use std::alloc::Global;
use std::panic::Expect;
use std::process::Abort;
use test_samples::{Both, fresh, gateway, inner, order};

/// Finds the line of an output.
fn reads(rt: &impl Abort, alloc: Global, output: &Output<'_>, wanted: &str) {
    let line = output.to_string(alloc).expect(rt, "memory");
    same(rt, line.as_str() == wanted, true);
}

#[test]
fn one_order_at_two_new_gateways_comes_to_one_output(rt: HostRuntime) {
    let mut one = gateway(rt.alloc(), End::A).expect(&rt, "a gateway");
    let mut other = gateway(rt.alloc(), End::A).expect(&rt, "a gateway");
    let input = order(1);
    let output = one.step(rt.alloc(), &input.lend());
    same(&rt, output == other.step(rt.alloc(), &input.lend()), true);
    // Another IKE SA has another SPI and another serial.
    let later = order(2);
    same(&rt, output == other.step(rt.alloc(), &later.lend()), false);
}

#[test]
fn an_order_and_the_time_read_as_lines(rt: HostRuntime) {
    let mut a = gateway(rt.alloc(), End::A).expect(&rt, "a gateway");
    let input = order(1);
    let output = a.step(rt.alloc(), &input.lend());
    reads(&rt, rt.alloc(), &output, "request ike 1, 148 octets");
    let output = a.step(rt.alloc(), &Input::Tick { moment: 1000 });
    reads(
        &rt,
        rt.alloc(),
        &output,
        "ticked, 1 requests again, 0 closed",
    );
}

#[test]
fn packets_read_as_lines(rt: HostRuntime) {
    let mut both = Both::connected(rt.alloc(), true).expect(&rt, "two gateways");
    let packet = inner(7);
    let sealed = both.a.step(rt.alloc(), &Input::Outward { packet: &packet });
    // 8 octets before the payload, 20 of it, 2 of padding with 2 behind, 16 of the ICV.
    reads(
        &rt,
        rt.alloc(),
        &sealed,
        "sealed child 1 number 1, 48 octets",
    );
    if let Output::Sealed { octets, .. } = &sealed {
        let octets = octets.as_slice();
        let up = both.b.step(rt.alloc(), &Input::Esp { octets });
        reads(&rt, rt.alloc(), &up, "up child 1 number 1, 20 octets");
        let again = both.b.step(rt.alloc(), &Input::Esp { octets });
        same(&rt, again.reason().map(|reason| reason.code()), Some(16));
    }
}

#[test]
fn what_is_dropped_reads_with_its_number(rt: HostRuntime) {
    let mut a = gateway(rt.alloc(), End::A).expect(&rt, "a gateway");
    let packet = inner(7);
    let output = a.step(rt.alloc(), &Input::Outward { packet: &packet });
    reads(
        &rt,
        rt.alloc(),
        &output,
        "dropped: E28: no association is there for the packet",
    );
}

#[test]
fn what_is_refused_reads_with_its_number(rt: HostRuntime) {
    let mut a = gateway(rt.alloc(), End::A).expect(&rt, "a gateway");
    let drawn = fresh(9);
    let input = Input::Start {
        ike: None,
        entry: 7,
        fresh: &drawn,
    };
    let output = a.step(rt.alloc(), &input);
    reads(
        &rt,
        rt.alloc(),
        &output,
        "refused: E23: no entry that protects",
    );
}

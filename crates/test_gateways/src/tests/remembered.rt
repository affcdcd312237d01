//! What a gateway remembers of flows, by how often it looks up.
use super::asserts::same;
use caller_script::ScriptCaller;
use gateway::{Gateway, Input};
use std::alloc::Global;
use std::panic::Expect;
use std::process::Abort;
use test_samples::{Both, further, inner, message, sent};

/// A gateway with a child that carries what it protects, and the other end.
fn connected(rt: &impl Abort, alloc: Global) -> Both {
    Both::connected(alloc, true).expect(rt, "two gateways")
}

/// Sends a packet.
fn send(alloc: Global, gateway: &mut Gateway<ScriptCaller>, packet: &[u8]) {
    let _ = gateway.step(alloc, &Input::Outward { packet });
}

#[test]
fn each_flow_is_looked_up_once(rt: HostRuntime) {
    let mut both = connected(&rt, rt.alloc());
    for turn in 0..3 {
        // From 10.0.0.0, 10.0.0.1, 10.0.0.2 and 10.0.0.3, which have four places.
        for source in 0..4 {
            let number = source * 65_536 + turn;
            send(rt.alloc(), &mut both.a, &inner(number));
        }
    }
    same(&rt, both.a.look_ups(), 4);
}

#[test]
fn neither_packets_nor_time_make_it_forget(rt: HostRuntime) {
    let mut both = connected(&rt, rt.alloc());
    let packet = inner(7);
    let other = inner(65_536);
    send(rt.alloc(), &mut both.a, &packet);
    for input in [
        Input::Outward { packet: &[] },
        Input::Outward { packet: &other },
        Input::Esp { octets: &[0; 40] },
        Input::Inward { packet: &packet },
        Input::Secret { secret: &[9; 32] },
        Input::Tick { moment: 5 },
    ] {
        let _ = both.a.step(rt.alloc(), &input);
        send(rt.alloc(), &mut both.a, &packet);
    }
    same(&rt, both.a.look_ups(), 2);
}

#[test]
fn lists_remember_as_steps_do(rt: HostRuntime) {
    let mut both = connected(&rt, rt.alloc());
    let packet = inner(7);
    let mut room = [0; 49];
    for _ in 0..3 {
        let _ = both.a.lay_in(&packet, &mut room);
        let _ = both.a.lay(rt.alloc(), &packet);
        let _ = both.a.receive_ahead(&[0; 40], None);
        send(rt.alloc(), &mut both.a, &packet);
    }
    same(&rt, both.a.look_ups(), 1);
}

#[test]
fn a_new_child_makes_it_look_up_anew(rt: HostRuntime) {
    let mut both = connected(&rt, rt.alloc());
    send(rt.alloc(), &mut both.a, &inner(7));
    let request = sent(&mut both.a, rt.alloc(), &further(1));
    let input = message(rt.alloc(), &request, 11).expect(&rt, "memory");
    let reply = sent(&mut both.b, rt.alloc(), &input);
    same(&rt, both.a.look_ups(), 1);
    let input = message(rt.alloc(), &reply, 12).expect(&rt, "memory");
    let _ = both.a.step(rt.alloc(), &input.lend());
    send(rt.alloc(), &mut both.a, &inner(7));
    send(rt.alloc(), &mut both.a, &inner(7));
    same(&rt, both.a.look_ups(), 2);
}

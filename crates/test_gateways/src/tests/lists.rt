//! A list of events at two gateways, by one call.
use super::asserts::same;
use caller_script::ScriptCaller;
use gateway::{Child, Datagram, End, Protection, World, run_world};
use std::alloc::Global;
use std::panic::Expect;
use std::process::Abort;
use test_samples::{OwnedEvent, SampleFault, gateway, lend_events, message, order};

/// Two gateways to which nothing happened.
fn world(rt: &impl Abort, alloc: Global) -> World<ScriptCaller> {
    new_world(alloc).expect(rt, "two gateways")
}

fn new_world(alloc: Global) -> Result<World<ScriptCaller>, SampleFault> {
    let a = gateway(alloc, End::A)?;
    let b = gateway(alloc, End::B)?;
    Ok(World::new(alloc, a, b))
}

/// Datagram `place` of a world comes to the other end.
fn delivery(rt: &impl Abort, alloc: Global, world: &World<ScriptCaller>, place: u64) -> OwnedEvent {
    let octets = world.datagram(place).unwrap_or(&[]);
    let end = if place % 2 == 1 { End::B } else { End::A };
    let input = message(alloc, octets, place.saturating_add(10)).expect(rt, "memory");
    OwnedEvent { end, input }
}

/// What happens where an IKE SA is made: A's order, and so many deliveries of what was sent before.
fn events(
    rt: &impl Abort,
    alloc: Global,
    before: &World<ScriptCaller>,
    deliveries: u64,
) -> Vec<OwnedEvent> {
    let mut events = Vec::new(alloc);
    let input = order(1);
    events
        .push(OwnedEvent { end: End::A, input })
        .expect(rt, "memory");
    for place in 1..=deliveries {
        let event = delivery(rt, alloc, before, place);
        events.push(event).expect(rt, "memory");
    }
    events
}

/// All of it happens to a world by one call; answers how many outputs came.
fn happens(
    rt: &impl Abort,
    alloc: Global,
    world: &mut World<ScriptCaller>,
    events: &[OwnedEvent],
) -> usize {
    let mut outputs = Vec::new(alloc);
    let lent = lend_events(alloc, events).expect(rt, "memory");
    run_world(alloc, world, &lent, &mut outputs).expect(rt, "room");
    outputs.len()
}

/// Whether it is a response, and the number of the request, where keys of IKE protect a datagram.
fn mark(datagram: &Datagram) -> Option<(bool, u32)> {
    match &datagram.mark {
        Protection::Ike {
            response,
            number,
            ..
        } => Some((*response, *number)),
        Protection::Plain | Protection::Esp { .. } => None,
    }
}

/// Finds the four datagrams, by their ends, lengths and marks.
fn are_sent(rt: &impl Abort, datagrams: &[Datagram]) {
    let wanted = [
        (End::A, 148, None),
        (End::B, 148, None),
        (End::A, 202, Some((false, 1))),
        (End::B, 194, Some((true, 1))),
    ];
    same(rt, datagrams.len(), 4);
    for (datagram, wanted) in datagrams.iter().zip(wanted) {
        let found = (datagram.end, datagram.octets.len(), mark(datagram));
        same(rt, found, wanted);
    }
}

/// Finds the keys of both ends: B has them first.
fn are_keyed(rt: &impl Abort, world: &World<ScriptCaller>) {
    let mut end = End::B;
    same(rt, world.key_records().len(), 2);
    for keyed in world.key_records() {
        same(rt, keyed.end, end);
        same(rt, (keyed.keys.spi_i, keyed.keys.spi_r), (1, 11));
        end = end.other();
    }
}

/// Finds the children of both ends: B makes its own first, and A asked.
fn are_made(rt: &impl Abort, children: &[Child]) {
    let wanted = [(End::B, false, 8192, 4096), (End::A, true, 4096, 8192)];
    same(rt, children.len(), 2);
    for (child, wanted) in children.iter().zip(wanted) {
        let found = (
            child.end,
            child.asked,
            child.inbound.spi,
            child.outbound.spi,
        );
        same(rt, found, wanted);
        same(rt, (child.serial, child.number), (1, 1));
    }
}

/// The world to which so many deliveries happened, each of what was sent by the one before it.
fn grown(rt: &impl Abort, alloc: Global, deliveries: u64) -> World<ScriptCaller> {
    let mut before = world(rt, alloc);
    for count in 0..=deliveries {
        let events = events(rt, alloc, &before, count);
        let mut world = world(rt, alloc);
        happens(rt, alloc, &mut world, &events);
        before = world;
    }
    before
}

#[test]
fn events_by_one_call(rt: HostRuntime) {
    let before = grown(&rt, rt.alloc(), 3);
    let events = events(&rt, rt.alloc(), &before, 4);
    let mut world = world(&rt, rt.alloc());
    same(&rt, happens(&rt, rt.alloc(), &mut world, &events), 5);
    are_sent(&rt, world.datagrams());
    are_keyed(&rt, &world);
    are_made(&rt, world.children());
}

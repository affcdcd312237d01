//! Two gateways with the caller that real peers speak with: AES-256 in CBC mode, the 2048-bit group,
//! and shared keys.
ghost use Rattle.std.specs.Prelude.{IfOk};
ghost use Rattle.gateway.specs.Worlds.{HoldsNothing};

use super::asserts::{add, holds, same};
use base::Items;
use caller_peer::{Peer, PeerCaller};
use gateway::{Datagram, End, Event, Gateway, Output, World, run_world};
use std::alloc::Global;
use std::panic::Expect;
use std::process::Abort;
use test_samples::{OwnedInput, SampleFault, gateway_of, message, order, own_name};

fn items(rt: &impl Abort, alloc: Global, octets: &[u8]) -> Items<u8> {
    Items::from_slice(alloc, octets).expect(rt, "memory")
}

/// An end, as the other knows it by its secret.
fn peer(rt: &impl Abort, alloc: Global, end: End, secret: &[u8; 11]) -> Peer {
    Peer {
        kind: 2,
        id: items(rt, alloc, &own_name(end)),
        secret: items(rt, alloc, secret),
    }
}

/// The caller that proves itself by its own secret, and knows one peer.
fn caller(rt: &impl Abort, alloc: Global, own: &[u8; 11], peer: Peer) -> PeerCaller {
    let mut peers = Items::new(alloc);
    holds(rt, peers.push(peer).is_ok());
    let own = items(rt, alloc, own);
    PeerCaller { own, peers }
}

/// A gateway that holds nothing, with its own secret and the one by which it knows the other end.
fn gateway(
    rt: &impl Abort,
    alloc: Global,
    end: End,
    own: &[u8; 11],
    known: &[u8; 11],
) -> Result<Gateway<PeerCaller>, SampleFault>
    ensures { IfOk result HoldsNothing }
{
    let peer = peer(rt, alloc, end.other(), known);
    let caller = caller(rt, alloc, own, peer);
    gateway_of(alloc, end, caller)
}

/// Two gateways to which nothing happened. A knows B by B's secret, and B knows A by this one.
fn world(rt: &impl Abort, alloc: Global, known: &[u8; 11]) -> World<PeerCaller> {
    new_world(rt, alloc, known).expect(rt, "two gateways")
}

fn new_world(
    rt: &impl Abort,
    alloc: Global,
    known: &[u8; 11],
) -> Result<World<PeerCaller>, SampleFault> {
    let a = gateway(rt, alloc, End::A, b"secret of a", b"secret of b")?;
    let b = gateway(rt, alloc, End::B, b"secret of b", known)?;
    Ok(World::new(alloc, a, b))
}

/// One more thing happens; answers whether it was refused or dropped.
fn happens(
    rt: &impl Abort,
    alloc: Global,
    world: &mut World<PeerCaller>,
    end: End,
    input: OwnedInput,
) -> bool {
    let event = Event {
        end,
        input: input.lend(),
    };
    let mut outputs = Vec::new(alloc);
    run_world(alloc, world, &[event], &mut outputs).expect(rt, "room");
    outputs.iter().any(is_refusal)
}

fn is_refusal(output: &Output<'_>) -> bool {
    matches!(output, Output::Dropped { .. } | Output::Refused { .. })
}

/// Datagram `place` of a world, as a message of IKE.
fn delivery(rt: &impl Abort, alloc: Global, world: &World<PeerCaller>, place: u64) -> OwnedInput {
    let octets = world.datagram(place).unwrap_or(&[]);
    message(alloc, octets, place.saturating_add(10)).expect(rt, "memory")
}

/// Begins an IKE SA, and delivers the four datagrams that make it.
fn begin(rt: &impl Abort, alloc: Global, world: &mut World<PeerCaller>) {
    happens(rt, alloc, world, End::A, order(1));
    for (place, end) in (1..).zip([End::B, End::A, End::B, End::A]) {
        let input = delivery(rt, alloc, world, place);
        happens(rt, alloc, world, end, input);
    }
}

// The first two messages have a length that the RFC tells: a header of 28 octets, an SA of 48 with the key's
// length as an attribute, a key exchange of 8 and 256, and a nonce of 4 and 32 (RFC 7296, sections 3.1, 3.3,
// 3.4 and 3.9). An encrypted payload ends with whole blocks and an ICV: 28, 4, a vector of 16, blocks of 16,
// and 16.
fn are_sent(rt: &impl Abort, datagrams: &[Datagram]) {
    same(rt, datagrams.len(), 4);
    for datagram in datagrams.iter().take(2) {
        same(rt, datagram.octets.len(), 376);
    }
    for datagram in datagrams.iter().skip(2) {
        same(rt, datagram.octets.len() % 16, 0);
    }
}

/// Finds the four datagrams, the keys of both ends, and their children.
fn is_agreed(rt: &impl Abort, world: &World<PeerCaller>) {
    are_sent(rt, world.datagrams());
    same(rt, world.key_records().len(), 2);
    same(rt, world.children().len(), 2);
}

/// A packet of IPv4 from A's protected network to B's, or back.
fn packet(rt: &impl Abort, alloc: Global, end: End) -> OwnedInput {
    let [a, b] = [0, 1];
    let (source, destination) = match end {
        End::A => (a, b),
        End::B => (b, a),
    };
    let mut octets = Vec::new(alloc);
    add(
        rt,
        &mut octets,
        &[0x45, 0, 0, 20, 0, 0, 0, 0, 0x40, 1, 0, 0],
    );
    add(rt, &mut octets, &[10, source, 0, 1, 10, destination, 0, 1]);
    OwnedInput::Outward {
        packet: Items::from_vec(octets),
    }
}

/// Datagram `place` comes to an end as a packet of ESP; answers whether it was dropped.
fn arrives(
    rt: &impl Abort,
    alloc: Global,
    world: &mut World<PeerCaller>,
    end: End,
    place: u64,
) -> bool {
    let octets = items(rt, alloc, world.datagram(place).unwrap_or(&[]));
    happens(rt, alloc, world, end, OwnedInput::Esp { octets })
}

/// A packet goes from an end, and comes to the other once.
fn crosses(rt: &impl Abort, alloc: Global, world: &mut World<PeerCaller>, end: End, place: u64) {
    let input = packet(rt, alloc, end);
    holds(rt, !happens(rt, alloc, world, end, input));
    holds(rt, !arrives(rt, alloc, world, end.other(), place));
    holds(rt, arrives(rt, alloc, world, end.other(), place));
}

#[test]
fn packets_go_both_ways_once(rt: HostRuntime) {
    let mut world = world(&rt, rt.alloc(), b"secret of a");
    begin(&rt, rt.alloc(), &mut world);
    is_agreed(&rt, &world);
    crosses(&rt, rt.alloc(), &mut world, End::A, 5);
    crosses(&rt, rt.alloc(), &mut world, End::B, 6);
}

// B takes A for another: the IKE SA comes to keys, and to no child.
#[test]
fn another_secret_proves_nothing(rt: HostRuntime) {
    let mut world = world(&rt, rt.alloc(), b"secret of c");
    begin(&rt, rt.alloc(), &mut world);
    same(&rt, world.key_records().len(), 2);
    same(&rt, world.children().len(), 0);
}

//! Whole runs: a child is asked for, answered and accepted, and packets cross between the two ends.
ghost use Rattle.std.specs.Prelude.{IfSome};
ghost use Rattle.sadb.specs.Database.{IsForPair, IsThere};

use super::fixture::{START, asked, far, has_pair, lower_half, reply, request, setting, table};
use crate::tests::asserts::same;
use children::{Asked, accept};
use exchange::{ChildOffer, only_sa, only_ts_i, only_ts_r};
use sadb::{Pair, Table};
use std::alloc::Global;
use std::process::Abort;
use wire::Payload;

/// The first SPI of the initiator's table.
const FIRST: u32 = 256;

/// The next header of an IPv4 packet.
const IPV4: u8 = 4;

/// The tables of both ends.
#[derive(Drop)]
struct Ends {
    initiator: Table,
    responder: Table,
}

impl Ends {
    fn new(alloc: Global) -> Ends {
        Ends {
            initiator: Table::new(alloc, FIRST),
            responder: table(alloc),
        }
    }
}

/// What the payloads of a request offer.
fn offer_of(request: &[Payload]) -> Option<ChildOffer<'_>> {
    Some(ChildOffer {
        proposals: only_sa(request)?,
        ts_i: only_ts_i(request)?,
        ts_r: only_ts_r(request)?,
    })
}

/// The initiator's pair of what it asked, by the responder's answer.
fn agree(
    rt: &impl Abort,
    alloc: Global,
    asked: &Asked,
    extended: bool,
    responder: &mut Table,
) -> Pair {
    let request = request(rt, alloc, asked);
    let offer = offer_of(request.as_slice()).expect(rt, "an offer");
    let reply = reply(rt, alloc, &offer, extended, responder);
    let pair = accept(alloc, reply.as_slice(), asked, &setting()).expect(rt, "memory");
    pair.expect(rt, "an accepted answer")
}

/// Makes a child by an initiator that allows extended numbers, and answers its serial there.
fn connect(rt: &impl Abort, alloc: Global, ends: &mut Ends, extended: bool) -> u32 {
    let spi = ends.initiator.reserve().expect(rt, "an SPI");
    let pair = agree(
        rt,
        alloc,
        &asked(spi.number(), true),
        extended,
        &mut ends.responder,
    );
    assert!(rt; pair.inbound.spi() == spi.number());
    ends.initiator.install(spi, pair)
}

/// The serial of the pair under an SPI, where the packet is for it.
fn serial_for(table: &Table, spi: u32, packet: &[u8]) -> Option<u32>
    ensures { IfSome result (λ serial. IsForPair table.now.pairs serial packet.now) }
{
    let pair = table.inbound(spi)?;
    if packet.len() >= 4 && &packet[..4] == spi.to_be_bytes().as_slice() {
        Some(pair.serial)
    } else {
        None
    }
}

/// The serial of the pair under an SPI.
fn serial_under(table: &Table, spi: u32) -> Option<u32>
    ensures { IfSome result (IsThere table.now.pairs) }
{
    Some(table.inbound(spi)?.serial)
}

/// Seals a payload by the pair that receives under an SPI.
fn seal(rt: &impl Abort, table: &mut Table, spi: u32, out: &mut Vec<u8>) -> u64 {
    let serial = serial_under(table, spi).expect(rt, "a pair");
    table
        .seal(serial, IPV4, b"abc", out)
        .expect(rt, "a sealed packet")
}

/// What a packet carries to the pair under an SPI.
fn open<'a>(rt: &impl Abort, table: &mut Table, spi: u32, packet: &'a [u8]) -> &'a [u8] {
    let serial = serial_for(table, spi, packet).expect(rt, "a packet for it");
    table
        .open(serial, packet)
        .expect(rt, "an opened packet")
        .payload
}

/// Seals a payload at one end and finds that the other opens it; each is told by the SPI that it
/// receives under.
fn cross(
    rt: &impl Abort,
    alloc: Global,
    from: &mut Table,
    from_spi: u32,
    to: &mut Table,
    to_spi: u32,
) {
    let mut packet = Vec::new(alloc);
    seal(rt, from, from_spi, &mut packet);
    same(rt, open(rt, to, to_spi, &packet), b"abc".as_slice());
}

/// Makes a child with numbers extended or not, which the ICVs tell, and sends a packet each way.
fn cross_both_ways(rt: &impl Abort, alloc: Global, extended: bool) {
    let mut ends = Ends::new(alloc);
    connect(rt, alloc, &mut ends, extended);
    let Ends {
        mut initiator,
        mut responder,
    } = ends;
    cross(rt, alloc, &mut initiator, FIRST, &mut responder, START);
    cross(rt, alloc, &mut responder, START, &mut initiator, FIRST);
}

#[test]
fn packets_cross(rt: HostRuntime) {
    cross_both_ways(&rt, rt.alloc(), true);
    cross_both_ways(&rt, rt.alloc(), false);
}

// The second child of both ends.
#[test]
fn pairs_mirror_each_other(rt: HostRuntime) {
    let mut ends = Ends::new(rt.alloc());
    same(&rt, connect(&rt, rt.alloc(), &mut ends, true), 1);
    same(&rt, connect(&rt, rt.alloc(), &mut ends, true), 2);
    has_pair(
        &rt,
        &ends.initiator,
        (FIRST + 1, START + 1),
        lower_half(),
        far(),
    );
    has_pair(
        &rt,
        &ends.responder,
        (START + 1, FIRST + 1),
        far(),
        lower_half(),
    );
}

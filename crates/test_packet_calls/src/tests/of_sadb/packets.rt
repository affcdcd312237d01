//! Packets between two tables whose pairs mirror each other. The expected packet is the one that
//! Python's module `hmac` gives.
use super::fixture::{
    KEY, Network, PEER_KEY, START, here, is_for, is_live, is_there, pair_of, receiver, reserve,
};
use crate::tests::asserts::{granted, holds, same};
use esp::{EspFault, Opened, Outbound};
use sadb::Table;
use std::alloc::Global;
use std::process::Abort;

/// The next header of an IPv4 packet.
const IPV4: u8 = 4;

/// An IPv4 packet from 10.0.0.1 to 10.1.0.1 that is a header alone.
fn inner() -> [u8; 20] {
    [
        0x45, 0x00, 0x00, 0x14, 0x00, 0x00, 0x00, 0x00, 0x40, 0x01, 0x00, 0x00, 0x0a, 0x00, 0x00,
        0x01, 0x0a, 0x01, 0x00, 0x01,
    ]
}

/// The packet with number 1 that carries [`inner`] to the SPI 256, under the key of 32 octets 0b.
fn first() -> [u8; 48] {
    [
        0x00, 0x00, 0x01, 0x00, 0x00, 0x00, 0x00, 0x01, 0x45, 0x00, 0x00, 0x14, 0x00, 0x00, 0x00,
        0x00, 0x40, 0x01, 0x00, 0x00, 0x0a, 0x00, 0x00, 0x01, 0x0a, 0x01, 0x00, 0x01, 0x01, 0x02,
        0x02, 0x04, 0x8c, 0x57, 0x5e, 0xcd, 0x82, 0xb0, 0x4c, 0x86, 0xd2, 0xe6, 0xc1, 0x81, 0x15,
        0xf2, 0xb5, 0x2d,
    ]
}

/// The tables of two ends, with the same serial for a pair and its mirror.
#[derive(Drop)]
struct Ends {
    /// Its first SPI is 256.
    near: Table,
    far: Table,
}

impl Ends {
    fn new(alloc: Global) -> Ends {
        Ends {
            near: Table::new(alloc, 256),
            far: Table::new(alloc, START),
        }
    }

    /// Installs a pair at one end and its mirror at the other; answers the serial of both. The near end
    /// sealed its last packet with the number `last`.
    fn connect(&mut self, rt: &impl Abort, alloc: Global, network: Network, last: u64) -> u32 {
        let near = reserve(&mut self.near).expect(rt, "an SPI");
        let inbound = receiver(alloc, near.number(), &KEY).expect(rt, "memory");
        let far = reserve(&mut self.far).expect(rt, "an SPI");
        let outbound = Outbound::new(far.number(), &PEER_KEY, false, last);
        let to_near = Outbound::new(near.number(), &KEY, false, 0);
        let pair = pair_of(alloc, inbound, outbound, here(), network.remote()).expect(rt, "memory");
        let serial = self.near.install(near, pair);

        let inbound = receiver(alloc, far.number(), &PEER_KEY).expect(rt, "memory");
        let pair = pair_of(alloc, inbound, to_near, network.remote(), here()).expect(rt, "memory");
        same(rt, self.far.install(far, pair), serial);
        serial
    }
}

/// Seals a payload by a pair, which has to be there.
fn seal(
    rt: &impl Abort,
    table: &mut Table,
    serial: u32,
    payload: &[u8],
    out: &mut Vec<u8>,
) -> Result<u64, EspFault> {
    assert!(rt; is_there(table, serial));
    table.seal(serial, IPV4, payload, out)
}

/// Opens a packet by a pair, to which it has to be addressed.
fn open<'a>(
    rt: &impl Abort,
    table: &mut Table,
    serial: u32,
    packet: &'a [u8],
) -> Result<Opened<'a>, EspFault> {
    assert!(rt; is_for(table, serial, packet));
    table.open(serial, packet)
}

/// Finds that opening a packet by a pair is refused so.
fn is_refused(rt: &impl Abort, table: &mut Table, serial: u32, packet: &[u8], fault: EspFault) {
    same(rt, open(rt, table, serial, packet).err(), Some(fault));
}

/// Finds that opening a packet by a pair gives this number and payload, and that its repeat is refused.
fn is_opened_once(
    rt: &impl Abort,
    table: &mut Table,
    serial: u32,
    packet: &[u8],
    number: u64,
    payload: &[u8],
) {
    let wanted = Opened {
        number,
        next: IPV4,
        payload,
    };
    same(rt, open(rt, table, serial, packet), Ok(wanted));
    is_refused(rt, table, serial, packet, EspFault::Replayed);
}

/// Seals a payload by a pair of one table, and finds that the other's opens it once, under this number.
fn crosses(
    rt: &impl Abort,
    alloc: Global,
    from: &mut Table,
    to: &mut Table,
    serial: u32,
    number: u64,
    payload: &[u8],
) {
    let mut packet = Vec::new(alloc);
    same(rt, seal(rt, from, serial, payload, &mut packet), Ok(number));
    is_opened_once(rt, to, serial, &packet, number, payload);
}

/// Two tables with a pair and its mirror under the serial 1.
fn connected(rt: &impl Abort, alloc: Global) -> Ends {
    let mut ends = Ends::new(alloc);
    same(rt, ends.connect(rt, alloc, Network::Every, 0), 1);
    ends
}

#[test]
fn seals_the_packet_of_another_tool(rt: HostRuntime) {
    let mut ends = connected(&rt, rt.alloc());
    let mut packet = Vec::new(rt.alloc());
    same(
        &rt,
        seal(&rt, &mut ends.far, 1, &inner(), &mut packet),
        Ok(1),
    );
    same(&rt, packet.as_slice(), first().as_slice());
    is_opened_once(&rt, &mut ends.near, 1, &packet, 1, &inner());
}

// Numbers of each direction begin anew.
#[test]
fn packets_cross_once(rt: HostRuntime) {
    let mut ends = connected(&rt, rt.alloc());
    crosses(&rt, rt.alloc(), &mut ends.far, &mut ends.near, 1, 1, b"abc");
    crosses(&rt, rt.alloc(), &mut ends.far, &mut ends.near, 1, 2, b"");
    crosses(&rt, rt.alloc(), &mut ends.near, &mut ends.far, 1, 1, b"de");
}

// A refused packet takes no number: the whole one opens afterwards.
#[test]
fn refuses_what_was_damaged(rt: HostRuntime) {
    let mut ends = connected(&rt, rt.alloc());
    for place in 4..48 {
        let mut wrong = granted(&rt, first().to_vec(rt.alloc()));
        if let Some(octet) = wrong.get_mut(place) {
            *octet ^= 2;
        }
        is_refused(&rt, &mut ends.near, 1, &wrong, EspFault::BadIcv);
    }
    is_refused(&rt, &mut ends.near, 1, &[], EspFault::BadLength);
    is_refused(&rt, &mut ends.near, 1, &[9, 9, 9], EspFault::BadLength);
    is_refused(&rt, &mut ends.near, 1, &[0, 0, 1, 0], EspFault::BadLength);
    is_opened_once(&rt, &mut ends.near, 1, &first(), 1, &inner());
}

// Each pair has numbers and a window of its own.
#[test]
fn leaves_other_pairs_alone(rt: HostRuntime) {
    let mut ends = connected(&rt, rt.alloc());
    same(&rt, ends.connect(&rt, rt.alloc(), Network::Every, 0), 2);
    for number in 1..=3 {
        crosses(
            &rt,
            rt.alloc(),
            &mut ends.near,
            &mut ends.far,
            2,
            number,
            b"abc",
        );
    }
    crosses(&rt, rt.alloc(), &mut ends.near, &mut ends.far, 1, 1, b"abc");
    crosses(&rt, rt.alloc(), &mut ends.near, &mut ends.far, 2, 4, b"abc");
}

#[test]
fn a_deleting_pair_opens(rt: HostRuntime) {
    let mut ends = connected(&rt, rt.alloc());
    assert!(rt; is_live(&ends.near, 1));
    ends.near.mark(1);
    crosses(&rt, rt.alloc(), &mut ends.far, &mut ends.near, 1, 1, b"abc");
}

#[test]
fn refuses_to_seal(rt: HostRuntime) {
    let mut ends = connected(&rt, rt.alloc());
    let most = u64::from(u32::MAX);
    same(&rt, ends.connect(&rt, rt.alloc(), Network::Every, most), 2);
    let long = granted(&rt, vec![in rt.alloc(); 0x5a; 16_385]);
    let mut out = Vec::new(rt.alloc());
    let refused = seal(&rt, &mut ends.near, 1, &long, &mut out);
    same(&rt, refused, Err(EspFault::PayloadSize));
    let refused = seal(&rt, &mut ends.near, 2, &long, &mut out);
    same(&rt, refused, Err(EspFault::Exhausted));
    holds(&rt, out.is_empty());
    crosses(&rt, rt.alloc(), &mut ends.near, &mut ends.far, 1, 1, b"abc");
}

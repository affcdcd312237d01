//! What the tests share: an initiator for 10.0.0.0/24, a responder for 10.1.0.0/16, and the payloads
//! between them. Values come from functions without a contract, so that a test is proved without them.
ghost use Rattle.replay.specs.Window.{IsBlockCount};

use crate::tests::asserts::{granted, same};
use base::{Items, Range, Selector};
use children::{Asked, Response, Setting, ask, install, respond};
use exchange::{ChildOffer, ChildPayloads};
use policy::{Action, Entry, Policy};
use sadb::{Pair, Table};
use std::alloc::Global;
use std::process::Abort;
use wire::{Payload, Proposal, Transform};

/// The first SPI of the responder's table.
pub const START: u32 = 4096;

/// The SPI that the initiator gives where its table doesn't.
pub const OWN: u32 = 0x0102_0304;

pub fn setting() -> Setting
    ensures { IsBlockCount result.blocks }
{
    Setting {
        ike: 7,
        keys: [[0x0b; 32], [0x0c; 32]],
        blocks: 2,
    }
}

pub fn table(alloc: Global) -> Table {
    Table::new(alloc, START)
}

/// 10.0.0.0 to 10.0.0.255.
pub fn near() -> Selector {
    addresses(0x0a00_0000, 0x0a00_00ff)
}

/// 10.0.0.0 to 10.0.0.127.
pub fn lower_half() -> Selector {
    addresses(0x0a00_0000, 0x0a00_007f)
}

/// 10.1.0.0 to 10.1.0.255.
pub fn far() -> Selector {
    addresses(0x0a01_0000, 0x0a01_00ff)
}

/// 192.0.2.0 to 192.0.2.255.
pub fn elsewhere() -> Selector {
    addresses(0xc000_0200, 0xc000_02ff)
}

/// A selector of every protocol and all ports.
fn addresses(start: u32, end: u32) -> Selector {
    Selector {
        protocol: 0,
        start_port: 0,
        end_port: 65535,
        addresses: Range::V4(start, end),
    }
}

/// What the initiator asks for, with this SPI.
pub fn asked(spi: u32, extended: bool) -> Asked {
    Asked {
        spi,
        local: near(),
        remote: far(),
        extended,
    }
}

/// The transforms of a proposal, by type and ID (RFC 7296, section 3.3.2).
#[derive(Clone, Copy)]
pub enum Suite {
    /// ENCR_NULL, AUTH_HMAC_SHA2_256_128, numbers of 32 bits.
    Plain,
    /// The same, numbers of 64 bits.
    Extended,
    /// The same, rather numbers of 64 bits than others.
    Either,
    /// AUTH_HMAC_SHA1_96, which is never wanted.
    Sha1,
}

/// A proposal for ESP.
pub fn proposal(rt: &impl Abort, alloc: Global, number: u8, spi: u32, suite: Suite) -> Proposal {
    let transforms = match suite {
        Suite::Plain => transforms(rt, alloc, &[(1, 11), (3, 12), (5, 0)]),
        Suite::Extended => transforms(rt, alloc, &[(1, 11), (3, 12), (5, 1)]),
        Suite::Either => transforms(rt, alloc, &[(1, 11), (3, 12), (5, 1), (5, 0)]),
        Suite::Sha1 => transforms(rt, alloc, &[(1, 11), (3, 2), (5, 0)]),
    };
    Proposal {
        number,
        protocol: 3,
        spi: granted(rt, Items::from_slice(alloc, &spi.to_be_bytes())),
        transforms,
    }
}

fn transforms(rt: &impl Abort, alloc: Global, rows: &[(u8, u16)]) -> Items<Transform> {
    let mut transforms = Items::new(alloc);
    for (kind, id) in rows {
        granted(
            rt,
            transforms.push(Transform {
                kind: *kind,
                id: *id,
                attributes: Items::new(alloc),
            }),
        );
    }
    transforms
}

/// The proposals of an SA payload that has one.
pub fn one(rt: &impl Abort, alloc: Global, proposal: Proposal) -> Items<Proposal> {
    lone(rt, alloc, proposal)
}

/// A list of one item.
fn lone<T: Drop>(rt: &impl Abort, alloc: Global, item: T) -> Items<T> {
    let mut items = Items::new(alloc);
    granted(rt, items.push(item));
    items
}

/// The payloads of a message with one proposal.
pub fn message(
    rt: &impl Abort,
    alloc: Global,
    proposal: Proposal,
    ts_i: &[Selector],
    ts_r: &[Selector],
) -> Items<Payload> {
    let child = ChildPayloads {
        proposals: one(rt, alloc, proposal),
        ts_i: granted(rt, Items::from_slice(alloc, ts_i)),
        ts_r: granted(rt, Items::from_slice(alloc, ts_r)),
    };
    let mut payloads = Items::new(alloc);
    granted(rt, child.append_to(&mut payloads));
    payloads
}

/// What an initiator sends.
pub fn request(rt: &impl Abort, alloc: Global, asked: &Asked) -> Items<Payload> {
    let mut payloads = Items::new(alloc);
    let child = ask(alloc, asked).expect(rt, "memory");
    granted(rt, child.append_to(&mut payloads));
    payloads
}

/// The responder's: it protects what goes between 10.1.0.0/16 and the lower half of 10.0.0.0/24.
pub fn policy(rt: &impl Abort, alloc: Global) -> Policy {
    let entry = Entry {
        protocol: 0,
        local: Range::V4(0x0a01_0000, 0x0a01_ffff),
        remote: Range::V4(0x0a00_0000, 0x0a00_007f),
        local_ports: (0, 65535),
        remote_ports: (0, 65535),
        action: Action::Protect,
    };
    Policy::new(lone(rt, alloc, entry)).expect(rt, "a policy")
}

/// What a responder sends; the pair that it makes is added.
pub fn reply(
    rt: &impl Abort,
    alloc: Global,
    offer: &ChildOffer<'_>,
    extended: bool,
    table: &mut Table,
) -> Items<Payload> {
    let policy = policy(rt, alloc);
    let mut payloads = Items::new(alloc);
    match respond(alloc, offer, extended, &setting(), &policy, table).expect(rt, "memory") {
        Response::Made(made) => {
            install(table, made.pair);
            granted(rt, made.payloads.append_to(&mut payloads));
        }
        Response::Refused(notice) => {
            let payload = granted(rt, notice.payload(alloc));
            granted(rt, payloads.push(payload));
        }
    }
    payloads
}

/// Finds a pair of these SPIs, inward and outward, and of one selector of each side.
pub fn is_pair(rt: &impl Abort, pair: &Pair, spis: (u32, u32), local: Selector, remote: Selector) {
    same(rt, (pair.inbound.spi(), pair.outbound.spi()), spis);
    same(rt, pair.local.as_slice(), [local].as_slice());
    same(rt, pair.remote.as_slice(), [remote].as_slice());
}

/// Finds such a pair under the first of these SPIs.
pub fn has_pair(
    rt: &impl Abort,
    table: &Table,
    spis: (u32, u32),
    local: Selector,
    remote: Selector,
) {
    let pair = table.inbound(spis.0).expect(rt, "a pair");
    is_pair(rt, pair, spis, local, remote);
}

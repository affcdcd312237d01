//! What is sent, and the order of what is refused (RFC 7296, sections 1.3.1, 2.5, 2.21.3 and 3.10.1).
ghost use Rattle.policy.specs.Narrowing.{IsSendableSelector};
ghost use Rattle.further.specs.Deciding.{FitsFurtherDecision};

use auth::Identity;
use base::{Items, Range, Selector};
use children::{Asked, MemoryFault};
use create_child::{Concluded, conclude_response};
use exchange::{ChildAnswer, Notice, Plain, Role, sent_header};
use further::{Conclusion, Decision, Judgement, answer_payloads, ask, decide, judge};
use policy::{Action, Entry, Policy};
use sadb::{Pair, Table};
use setup::{Config, EndConfig, Setup};
use std::alloc::Global;
use std::panic::Expect;
use std::process::Abort;
use suite::{Fresh, KeyRecord, ike_keys};
use wire::{Message, Payload, Proposal, Transform, encode_message};

// 10.0.0.0 to 10.0.0.255.
fn near() -> Selector
    ensures { IsSendableSelector result }
{
    Selector {
        protocol: 0,
        start_port: 0,
        end_port: 65535,
        addresses: Range::V4(0x0a00_0000, 0x0a00_00ff),
    }
}

// 10.1.0.0 to 10.1.0.255.
fn far() -> Selector
    ensures { IsSendableSelector result }
{
    Selector {
        protocol: 0,
        start_port: 0,
        end_port: 65535,
        addresses: Range::V4(0x0a01_0000, 0x0a01_00ff),
    }
}

fn asked(extended: bool) -> Asked
    ensures local { IsSendableSelector result.local }
    ensures remote { IsSendableSelector result.remote }
{
    Asked {
        spi: 0x0102_0304,
        local: near(),
        remote: far(),
        extended,
    }
}

fn add<T: Drop>(rt: &impl Abort, items: &mut Items<T>, item: T) {
    items.push(item).expect(rt, "memory");
}

fn lone<T: Drop>(rt: &impl Abort, alloc: Global, item: T) -> Items<T> {
    let mut items = Items::new(alloc);
    add(rt, &mut items, item);
    items
}

fn octets(rt: &impl Abort, alloc: Global, octets: &[u8]) -> Items<u8> {
    Items::from_slice(alloc, octets).expect(rt, "memory")
}

// A proposal of ENCR_NULL and AUTH_HMAC_SHA2_256_128, with numbers of 32 bits (RFC 7296, section 3.3.2).
fn proposals(rt: &impl Abort, alloc: Global, protocol: u8) -> Items<Proposal> {
    let mut transforms = Items::new(alloc);
    for (kind, id) in &[(1, 11), (3, 12), (5, 0)] {
        let transform = Transform {
            kind: *kind,
            id: *id,
            attributes: Items::new(alloc),
        };
        add(rt, &mut transforms, transform);
    }
    let proposal = Proposal {
        number: 1,
        protocol,
        spi: octets(rt, alloc, &[1, 2, 3, 4]),
        transforms,
    };
    lone(rt, alloc, proposal)
}

fn nonce(rt: &impl Abort, alloc: Global) -> Payload {
    Payload::Nonce(octets(rt, alloc, &[9; 32]))
}

// The four payloads that make an additional Child SA.
fn message(rt: &impl Abort, alloc: Global, protocol: u8) -> Items<Payload> {
    message_between(rt, alloc, protocol, near(), far())
}

fn message_between(
    rt: &impl Abort,
    alloc: Global,
    protocol: u8,
    ts_i: Selector,
    ts_r: Selector,
) -> Items<Payload> {
    let mut payloads = Items::new(alloc);
    add(
        rt,
        &mut payloads,
        Payload::Sa(proposals(rt, alloc, protocol)),
    );
    add(rt, &mut payloads, nonce(rt, alloc));
    add(rt, &mut payloads, Payload::TsI(lone(rt, alloc, ts_i)));
    add(rt, &mut payloads, Payload::TsR(lone(rt, alloc, ts_r)));
    payloads
}

fn unknown(alloc: Global) -> Payload {
    Payload::Unknown {
        kind: 200,
        critical: true,
        data: Items::new(alloc),
    }
}

// A notice REKEY_SA (RFC 7296, section 1.3.3).
fn rekeying(alloc: Global) -> Payload {
    Payload::Notify {
        protocol: 3,
        spi: Items::new(alloc),
        kind: 16393,
        data: Items::new(alloc),
    }
}

fn key_exchange(rt: &impl Abort, alloc: Global) -> Payload {
    Payload::Ke {
        group: 1,
        data: octets(rt, alloc, &[1]),
    }
}

// The type of the notice that refuses these payloads with those behind them, 0 where none does.
fn refusal(
    rt: &impl Abort,
    mut payloads: Items<Payload>,
    others: Items<Payload>,
    deleting: bool,
) -> u16 {
    for payload in others.into_vec() {
        add(rt, &mut payloads, payload);
    }
    match judge(payloads.as_slice(), deleting) {
        Judgement::Refused(notice) => notice.number(),
        Judgement::Asked(_) => 0,
    }
}

fn end(rt: &impl Abort, alloc: Global, last: u8) -> EndConfig {
    let identity = Identity::address(alloc, [192, 0, 2, last]).expect(rt, "memory");
    EndConfig {
        identity,
        address: [192, 0, 2, last],
    }
}

fn config(rt: &impl Abort, alloc: Global) -> Config {
    let config = Config::new(end(rt, alloc, 2), end(rt, alloc, 1), &[0; 32]);
    config.expect(rt, "a configuration")
}

// The responder's: it protects what goes between 10.1.0.0/24 and 10.0.0.0/24.
fn policy(rt: &impl Abort, alloc: Global) -> Policy {
    let entry = Entry {
        protocol: 0,
        local: Range::V4(0x0a01_0000, 0x0a01_00ff),
        remote: Range::V4(0x0a00_0000, 0x0a00_00ff),
        local_ports: (0, 65535),
        remote_ports: (0, 65535),
        action: Action::Protect,
    };
    Policy::new(lone(rt, alloc, entry)).expect(rt, "a policy")
}

// The payloads as a message of CREATE_CHILD_SA spells them.
fn plain(rt: &impl Abort, alloc: Global, payloads: Items<Payload>) -> Plain {
    let first = match payloads.as_slice() {
        [payload, ..] => payload.number(),
        [] => 0,
    };
    let message = Message {
        header: sent_header(4, 5, 36, Role::Initiator, false, 2),
        payloads,
    };
    let mut whole = Vec::new(alloc);
    encode_message(&message, &mut whole).expect(rt, "a message");
    let behind = whole.get(28..).expect(rt, "a header");
    Plain {
        first,
        octets: octets(rt, alloc, behind),
    }
}

// What the responder decides, with a nonce of its own.
fn decided(
    rt: &impl Abort,
    alloc: Global,
    table: &mut Table,
    plain: &Plain,
    deleting: bool,
) -> Decision
    ensures { FitsFurtherDecision result }
{
    let config = config(rt, alloc);
    let policy = policy(rt, alloc);
    let fresh = Fresh {
        spi: 0,
        nonce: [7; 32],
        secret: [0; 32],
        seal: [0; 16],
    };
    let setup = Setup {
        caller: &(),
        config: &config,
        policy: &policy,
        fresh: &fresh,
        moment: 0,
    };
    decide(alloc, &setup, table, 1, &keys(), deleting, plain).expect(rt, "memory")
}

// The type of the notice, 0 where a child is made, and whether it closes.
fn told(rt: &impl Abort, alloc: Global, plain: &Plain, deleting: bool) -> (u16, bool) {
    let mut table = Table::new(alloc, 4096);
    let decision = decided(rt, alloc, &mut table, plain, deleting);
    let closes = decision.is_closing();
    match decision {
        Decision::Refused(notice) => (notice.number(), closes),
        Decision::Made(_) => (0, closes),
    }
}

// What is not in the grammar; a request while this end deletes; one for AH; one for flows that are not
// protected.
fn decisions(rt: &impl Abort, alloc: Global) -> [(u16, bool); 4] {
    let unread = Plain {
        first: 41,
        octets: octets(rt, alloc, &[0]),
    };
    let whole = plain(rt, alloc, message(rt, alloc, 3));
    let of_ah = plain(rt, alloc, message(rt, alloc, 2));
    let turned = plain(rt, alloc, message_between(rt, alloc, 3, far(), near()));
    [
        told(rt, alloc, &unread, false),
        told(rt, alloc, &whole, true),
        told(rt, alloc, &of_ah, false),
        told(rt, alloc, &turned, false),
    ]
}

// Finds a pair of these SPIs, inward and outward, and of one selector of each side.
fn is_pair(rt: &impl Abort, pair: &Pair, spis: (u32, u32), local: Selector, remote: Selector) {
    assert_eq!(rt; (pair.inbound.spi(), pair.outbound.spi()), spis);
    assert_eq!(rt; pair.local.as_slice(), [local].as_slice());
    assert_eq!(rt; pair.remote.as_slice(), [remote].as_slice());
}

// From the request to both pairs, with memory enough.
#[test]
fn a_child_at_both_ends(rt: HostRuntime) {
    let alloc = rt.alloc();
    let mut table = Table::new(alloc, 4096);
    let asking = ask(alloc, &asked(true), &[9; 32]).expect(&rt, "memory");
    let request = plain(&rt, alloc, asking);
    assert_eq!(rt; request.octets.len(), 132);
    let decision = decided(&rt, alloc, &mut table, &request, false);
    assert!(rt; !decision.is_closing());
    let (answer, responders) = decision.into_parts();
    let answering = answer_payloads(alloc, answer, &[7; 32]).expect(&rt, "memory");
    let reply = plain(&rt, alloc, answering);
    assert_eq!(rt; reply.octets.len(), 124);
    let initiators = child_of(&rt, alloc, &reply);
    is_pair(&rt, &initiators, (0x0102_0304, 4096), near(), far());
    let responders = responders.expect(&rt, "a pair");
    is_pair(&rt, &responders, (4096, 0x0102_0304), far(), near());
}

// The initiator's pair by the answer.
fn child_of(rt: &impl Abort, alloc: Global, reply: &Plain) -> Pair {
    let made = match concluded(alloc, reply, true) {
        Ok(
            Concluded {
                conclusion: Conclusion::Made(pair),
                error: None,
            },
        ) => Some(pair),
        _ => None,
    };
    made.expect(rt, "a child")
}

#[test]
fn what_is_sent(rt: HostRuntime) {
    let alloc = rt.alloc();
    let wanted = message(&rt, alloc, 3);
    let payloads = ask(alloc, &asked(false), &[9; 32]).expect(&rt, "memory");
    assert_eq!(rt; payloads.as_slice(), wanted.as_slice());
    let notice = ChildAnswer::Notice(Notice::TsUnacceptable);
    let payloads = answer_payloads(alloc, notice, &[9; 32]).expect(&rt, "memory");
    let refused = Notice::TsUnacceptable.payload(alloc).expect(&rt, "memory");
    assert_eq!(rt; payloads.as_slice(), [refused].as_slice());
}

// Each of these is a payload more, or a circumstance, for which a request is refused before those above
// it are looked at.
#[test]
fn what_is_refused_first(rt: HostRuntime) {
    let alloc = rt.alloc();
    let whole = || message(&rt, alloc, 3);
    let of_ike = || message(&rt, alloc, 1);
    let none = || Items::new(alloc);
    let one = |payload: Payload| lone(&rt, alloc, payload);
    let told = [
        refusal(&rt, whole(), none(), false),
        refusal(&rt, whole(), one(rekeying(alloc)), false),
        refusal(&rt, whole(), one(nonce(&rt, alloc)), false),
        refusal(&rt, none(), none(), false),
        refusal(&rt, none(), none(), true),
        refusal(&rt, none(), one(key_exchange(&rt, alloc)), false),
        refusal(&rt, of_ike(), none(), false),
        refusal(&rt, of_ike(), one(unknown(alloc)), true),
    ];
    assert_eq!(rt; told, [0, 0, 7, 7, 35, 35, 35, 1]);
}

#[test]
fn what_is_decided(rt: HostRuntime) {
    let wanted = [(7, true), (35, false), (14, false), (38, false)];
    assert_eq!(rt; decisions(&rt, rt.alloc()), wanted);
}

#[derive(Clone, Copy, Debug, PartialEq, Eq)]
enum Kind {
    Closes,
    Made,
    NoChild,
}

fn keys() -> KeyRecord {
    ike_keys(&[1; 32], &[2; 32], &[3; 32], 4, 5)
}

// What the initiator makes of an answer.
fn concluded(alloc: Global, plain: &Plain, extended: bool) -> Result<Concluded, MemoryFault> {
    conclude_response(alloc, plain, &asked(extended), &[9; 32], 6, &keys(), 2)
}

fn conclusion(rt: &impl Abort, alloc: Global, first: u8, body: &[u8]) -> (Kind, Option<u16>) {
    let plain = Plain {
        first,
        octets: octets(rt, alloc, body),
    };
    let Concluded { conclusion, error } = concluded(alloc, &plain, false).expect(rt, "memory");
    let kind = match conclusion {
        Conclusion::Closes => Kind::Closes,
        Conclusion::Made(_) => Kind::Made,
        Conclusion::NoChild => Kind::NoChild,
    };
    (kind, error)
}

#[test]
fn what_ends_the_association(rt: HostRuntime) {
    let alloc = rt.alloc();
    let found = |first, octets: &[u8]| conclusion(&rt, alloc, first, octets);
    // Not in the grammar; no payload; NO_ADDITIONAL_SAS; that, and INVALID_SYNTAX behind it.
    assert_eq!(rt; found(41, &[0]), (Kind::NoChild, None));
    assert_eq!(rt; found(0, &[]), (Kind::NoChild, None));
    let full = [0, 0, 0, 8, 0, 0, 0, 35];
    assert_eq!(rt; found(41, &full), (Kind::NoChild, Some(35)));
    let both = [41, 0, 0, 8, 0, 0, 0, 35, 0, 0, 0, 8, 0, 0, 0, 7];
    assert_eq!(rt; found(41, &both), (Kind::Closes, Some(35)));
}

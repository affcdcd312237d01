//! What two gateways sent and made, and one step of one of them.
ghost use Rattle.std.specs.Prelude.{◌≡◌, ◌+◌, ◌++◌, ◌≤◌, ◌<◌, ◌^◌, ◌∷◌, [], All, MatchOption, None, Some, IfErr, IfOk, length, map, true, vec_len};
ghost use Rattle.std.specs.Option.{option_to_list};
ghost use Rattle.std.specs.Vec.{vec_capacity};
ghost use Rattle.wire.specs.Numbers.{MESSAGE_LIMIT, SELECTOR_LIMIT};
ghost use Rattle.gateway.specs.Inputs.{input_view};
ghost use Rattle.gateway.specs.Outputs.{output_view, DATAGRAM_LIMIT, FitsChild, FitsDatagram};
ghost use Rattle.gateway.specs.Storing.{again_by, AreSpare, HasRoom, IsShortResent, IsSpare, IsSpareMessage, TakesAt};
ghost use Rattle.gateway.specs.WorldRuns.{sends_nothing};
ghost use Rattle.gateway.specs.Worlds.{again_as, child_by, esp_mark, ike_mark, keyed_by, mark_again, nothing_stored, requests_in, sent_once, simplex_of, stored_by, Stored};
ghost use Rattle.gateway.specs.declared.world.stored.End.{End};
ghost use Rattle.effects.specs.Taking.{meaning_of};

use super::stored::{Child, Datagram, End, Keyed, Protection, Simplex};
use crate::laws::{few_go_out_again, what_is_made_fits, what_is_sent_fits};
use crate::{Gateway, Input, Output, Traced};
use base::{Items, Selector};
use ike::MadeChild;
use moments::{Resent, outstanding_count};
use sadb::{Pair, Table};
use std::alloc::{AllocError, Global};
use suite::{Agreement, KeyRecord, Proof, Sealer};
use wire::numbers::{MESSAGE_LIMIT, SELECTOR_LIMIT};

// The longest datagram: an ESP packet has at most so many octets, a message of IKE fewer.
const DATAGRAM_LIMIT: usize = 16_664;

/// What was sent and made, in order.
#[derive(Drop)]
pub struct Log {
    pub sent: Vec<Datagram>,
    pub keyed: Vec<Keyed>,
    pub children: Vec<Child>,
}

/// Memory for what one step may send and make: the octets of one datagram, of the requests that may be
/// retransmitted, and the selectors of one Child SA.
#[derive(Drop)]
pub struct Spare {
    octets: Vec<u8>,
    again: Vec<Vec<u8>>,
    local: Vec<Selector>,
    remote: Vec<Selector>,
}

impl Spare {
    fn new(alloc: Global, again: usize) -> Result<Spare, AllocError>
        ensures { IfOk result (λ spare. IsSpare spare again) }
    {
        Ok(Spare {
            octets: Vec::with_capacity(alloc, DATAGRAM_LIMIT)?,
            again: spare_messages(alloc, again)?,
            local: Vec::with_capacity(alloc, SELECTOR_LIMIT)?,
            remote: Vec::with_capacity(alloc, SELECTOR_LIMIT)?,
        })
    }
}

// Memory for the octets of so many messages of IKE.
fn spare_messages(alloc: Global, count: usize) -> Result<Vec<Vec<u8>>, AllocError>
    ensures { IfOk result (λ spare. AreSpare spare count) }
{
    let mut spare = Vec::with_capacity(alloc, count)?;
    for _made in 0..count {
        spare.push_reserved(Vec::with_capacity(alloc, MESSAGE_LIMIT)?);
    }
    Ok(spare)
}

impl Log {
    pub fn new(alloc: Global) -> Log
        ensures { stored_by result ≡ nothing_stored }
    {
        Log {
            sent: Vec::new(alloc),
            keyed: Vec::new(alloc),
            children: Vec::new(alloc),
        }
    }

    /// Reserves what one step may send and make: one datagram, or so many retransmitted requests.
    pub fn prepare(&mut self, alloc: Global, again: usize) -> Result<Spare, AllocError>
        ensures ready { IfOk result (λ spare. IsSpare spare again × HasRoom self.new again) }
        ensures content { stored_by self.new ≡ stored_by self.old }
    {
        self.sent.reserve(again.checked_add(1).ok_or(AllocError)?)?;
        self.keyed.reserve(1)?;
        self.children.reserve(1)?;
        Spare::new(alloc, again)
    }
}

/// Has the gateway of an end take a step, and stores what it sent and made.
pub fn take<'a, C: Sealer + Agreement + Proof>(
    alloc: Global,
    end: End,
    input: &Input<'a>,
    gateway: &mut Gateway<C>,
    log: &mut Log,
    spare: Spare,
) -> Output<'a>
    requires room { HasRoom log.old (again_by (input_view input.now) gateway.old.machine) }
    requires spare { IsSpare spare (again_by (input_view input.now) gateway.old.machine) }
    ensures { TakesAt
        (meaning_of C.Sealer C.Agreement C.Proof gateway.old.caller)
        end (input_view input.now) gateway.old (stored_by log.old) (output_view result) gateway.new (stored_by log.new) }
{
    gateway.invariants_hold();
    what_is_sent_fits::<C>();
    what_is_made_fits::<C>();
    few_go_out_again::<C>();
    let Traced { output, trace } = gateway.traced_step(alloc, input);
    let Spare {
        octets,
        again,
        local,
        remote,
    } = spare;
    keep(&mut log.keyed, keyed(end, gateway, trace.keyed));
    keep(
        &mut log.children,
        child(end, gateway, trace.child, local, remote),
    );
    keep(
        &mut log.sent,
        datagram(end, gateway, trace.sent, &output, octets),
    );
    keep_all(&mut log.sent, end, gateway, requests_in(&output), again);
    output
}

/// Whether nothing is sent and no SA is made, whatever becomes of this input.
pub fn sends_nothing(input: &Input<'_>) -> bool
    ensures { result ≡ sends_nothing (input_view input.now) }
{
    match input {
        Input::Esp { .. } | Input::Inward { .. } | Input::Secret { .. } => true,
        _ => false,
    }
}

/// Has a gateway take a step of which there is nothing to store.
pub fn take_unstored<'a, C: Sealer + Agreement + Proof>(
    alloc: Global,
    input: &Input<'a>,
    gateway: &mut Gateway<C>,
) -> Output<'a>
    requires { sends_nothing (input_view input.now) ≡ true }
    ensures { (end : End) (stored : Stored) → TakesAt
        (meaning_of C.Sealer C.Agreement C.Proof gateway.old.caller)
        end (input_view input.now) gateway.old stored (output_view result) gateway.new stored }
{
    let Traced { output, .. } = gateway.traced_step(alloc, input);
    output
}

/// The most requests that this input may retransmit.
pub fn most_again<C>(input: &Input<'_>, gateway: &Gateway<C>) -> usize
    ensures { result ≡ again_by (input_view input.now) gateway.now.machine }
{
    match input {
        Input::Tick { .. } => outstanding_count(gateway.associations()),
        _ => 0,
    }
}

// The requests that were retransmitted.
fn requests_in<'b>(output: &'b Output<'_>) -> &'b [Resent]
    ensures { result.now ≡ requests_in (output_view output.now) }
{
    match output {
        Output::Ticked { requests, .. } => requests.as_slice(),
        _ => &[],
    }
}

// Stores the retransmitted requests, for which room and memory were reserved.
fn keep_all<C>(
    log: &mut Vec<Datagram>,
    end: End,
    gateway: &Gateway<C>,
    requests: &[Resent],
    mut again: Vec<Vec<u8>>,
)
    requires room { vec_len log.old + length requests.now ≤ vec_capacity log.old }
    requires spare { AreSpare again (length requests.now) }
    requires short { All IsShortResent requests.now }
    ensures { log.new.items ≡ log.old.items ++ map (again_as end gateway.now.machine) requests.now }
{
    for request in requests {
        keep_one(log, end, gateway, request, &mut again);
    }
}

fn keep_one<C>(
    log: &mut Vec<Datagram>,
    end: End,
    gateway: &Gateway<C>,
    request: &Resent,
    again: &mut Vec<Vec<u8>>,
)
    requires room { vec_len log.old < vec_capacity log.old }
    requires spare { AreSpare again.old 1 }
    requires short { IsShortResent request.now }
    ensures items { log.new.items ≡ log.old.items ++ again_as end gateway.now.machine request.now ∷ [] }
    ensures len { vec_len log.new ≡ vec_len log.old + 1 }
    ensures capacity { vec_capacity log.new ≡ vec_capacity log.old }
    ensures left { vec_len again.old ≡ vec_len again.new + 1 }
    ensures each { All IsSpareMessage again.new.items }
{
    let memory = spare_one(again);
    log.push_reserved(Datagram {
        end,
        mark: ike_mark(gateway, mark_again(request)),
        octets: filled(memory, request.octets.as_slice()),
    });
}

// Takes the reserved memory for one request.
fn spare_one(again: &mut Vec<Vec<u8>>) -> Vec<u8>
    requires { AreSpare again.old 1 }
    ensures memory { IsSpareMessage result }
    ensures left { vec_len again.old ≡ vec_len again.new + 1 }
    ensures each { All IsSpareMessage again.new.items }
{
    again.pop().unwrap()
}

// The keys under which a retransmitted request was sealed.
fn mark_again(request: &Resent) -> Option<ike::Mark>
    ensures { result ≡ mark_again request.now }
{
    if !request.encrypted {
        return None;
    }
    Some(ike::Mark {
        ike: request.ike,
        response: false,
        number: request.number,
    })
}

// Stores an item, for which room was reserved.
fn keep<T>(log: &mut Vec<T>, item: Option<T>)
    requires { vec_len log.old < vec_capacity log.old }
    ensures items { log.new.items ≡ log.old.items ++ option_to_list item }
    ensures len { vec_len log.new ≤ vec_len log.old + 1 }
    ensures capacity { vec_capacity log.new ≡ vec_capacity log.old }
{
    if let Some(item) = item {
        log.push_reserved(item);
    }
}

// The key record that was made, if one was.
fn keyed<C>(end: End, gateway: &Gateway<C>, serial: Option<u32>) -> Option<Keyed>
    ensures { result ≡ keyed_by end serial gateway.now.machine }
{
    let keys = copied(gateway.keys_of(serial?)?);
    Some(Keyed { end, keys })
}

// The Child SA that was made, if one was.
fn child<C>(
    end: End,
    gateway: &Gateway<C>,
    made: Option<MadeChild>,
    local: Vec<Selector>,
    remote: Vec<Selector>,
) -> Option<Child>
    requires fits { FitsChild made gateway.now.table.pairs }
    requires local { (local.items ≡ []) × (SELECTOR_LIMIT ≤ vec_capacity local) }
    requires remote { (remote.items ≡ []) × (SELECTOR_LIMIT ≤ vec_capacity remote) }
    ensures { result ≡ child_by end made gateway.now }
{
    let made = made?;
    let keys = copied(gateway.keys_of(made.ike)?);
    let pair = gateway.table().get(made.serial)?;
    Some(Child {
        end,
        serial: made.serial,
        keys,
        asked: made.asked,
        number: made.number,
        inbound: inbound_of(pair),
        outbound: outbound_of(pair),
        local: filled(local, pair.local.as_slice()),
        remote: filled(remote, pair.remote.as_slice()),
    })
}

// The datagram that was sent, if one was. Retransmitted requests are stored apart.
fn datagram<C>(
    end: End,
    gateway: &Gateway<C>,
    sent: Option<ike::Mark>,
    output: &Output<'_>,
    spare: Vec<u8>,
) -> Option<Datagram>
    requires fits { FitsDatagram (output_view output.now) }
    requires spare { (spare.items ≡ []) × (DATAGRAM_LIMIT ≤ vec_capacity spare) }
    ensures { option_to_list result ≡ sent_once end (output_view output.now) sent gateway.now }
{
    let (mark, octets) = match output {
        Output::Reply { octets, .. } | Output::Repeat { octets } | Output::Request { octets, .. } =>
            (ike_mark(gateway, sent), octets),
        Output::Sealed {
            child,
            number,
            octets,
        } => (esp_mark(gateway.table(), *child, *number), octets),
        _ => return None,
    };
    Some(Datagram {
        end,
        mark,
        octets: filled(spare, octets.as_slice()),
    })
}

// The keys under which a message of IKE was sealed.
fn ike_mark<C>(gateway: &Gateway<C>, sent: Option<ike::Mark>) -> Protection
    ensures { result ≡ ike_mark gateway.now.machine sent }
{
    let Some(sent) = sent else {
        return Protection::Plain;
    };
    match gateway.keys_of(sent.ike) {
        Some(keys) => Protection::Ike {
            keys: copied(keys),
            response: sent.response,
            number: sent.number,
        },
        None => Protection::Plain,
    }
}

// The outbound SA that sealed an ESP packet.
fn esp_mark(table: &Table, child: u32, number: u64) -> Protection
    ensures { result ≡ esp_mark table.now child number }
{
    match table.get(child) {
        Some(pair) => Protection::Esp {
            by: outbound_of(pair),
            number,
        },
        None => Protection::Plain,
    }
}

fn inbound_of(pair: &Pair) -> Simplex
    ensures { result ≡ simplex_of pair.now.inbound.association }
{
    Simplex {
        spi: pair.inbound.spi(),
        key: pair.inbound.key(),
        extended: pair.inbound.is_extended(),
    }
}

fn outbound_of(pair: &Pair) -> Simplex
    ensures { result ≡ simplex_of pair.now.outbound.association }
{
    Simplex {
        spi: pair.outbound.spi(),
        key: pair.outbound.key(),
        extended: pair.outbound.is_extended(),
    }
}

// The items, in memory that was reserved. What is left of that memory is given back.
fn filled<T: Copy>(mut memory: Vec<T>, items: &[T]) -> Items<T>
    requires empty { memory.items ≡ [] }
    requires room { length items.now ≤ vec_capacity memory }
    ensures { result ≡ items.now }
{
    memory.extend_from_slice(items).unwrap();
    memory.shrink_to_fit();
    Items::from_vec(memory)
}

// The copy of a key record takes no memory.
fn copied(keys: &KeyRecord) -> KeyRecord
    ensures { result ≡ keys.now }
{
    match keys.clone() {
        Ok(copy) => copy,
        Err(_) => unreachable!(),
    }
}

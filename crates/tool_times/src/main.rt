//! `tool_times`: times the calls of `esp` for a list of packets beside those for one packet.
//! `tools/speed.py` builds it for two kinds of processors, runs it and prints the ratios.
//!
//! ```text
//! speed seal LANES ROUNDS COUNT OCTETS ..      payloads sealed one by one
//! speed seal_all LANES ROUNDS COUNT OCTETS ..  by one call
//! speed open LANES ROUNDS COUNT OCTETS ..      packets opened one by one
//! speed open_all LANES ROUNDS COUNT OCTETS ..  by one call
//! speed old LANES ROUNDS COUNT OCTETS ..       packets refused one by one, since they came before
//! speed old_all LANES ROUNDS COUNT OCTETS ..   by one call
//! ```
//!
//! COUNT payloads have these sizes in turn, and lists begin lanes at LANES packets. It prints the
//! nanoseconds of the fastest of the rounds, and an octet of what was made, so that no compiler leaves the
//! work out. The exit status is 1 where the words ask for nothing, or something is refused.
#![tactic(auto)]

mod receiver;

use esp::{EspFault, Opened, Outbound};
use receiver::{KEY, Receiver, SPI};
use std::alloc::Global;
use std::env;
use std::process::ExitCode;
use std::time::Instant;

fn main(rt: HostRuntime) -> ExitCode {
    match run(&rt) {
        Some(()) => ExitCode::from(0),
        None => ExitCode::from(1),
    }
}

// Does what the words ask for.
fn run(rt: &HostRuntime) -> Option<()> {
    let words = words(rt)?;
    let payloads = payloads(rt.alloc(), &words)?;
    time_of(rt, &words, &payloads)
}

fn words(rt: &HostRuntime) -> Option<Vec<String>> {
    env::args(rt).ok()?.collect(rt.alloc()).ok()
}

// The number that a word is.
fn number_at(words: &[String], place: usize) -> Option<usize> {
    words.get(place)?.parse().ok()
}

// The payloads that the words ask for.
fn payloads(alloc: Global, words: &[String]) -> Option<Vec<Vec<u8>>> {
    let count = number_at(words, 4)?;
    let mut payloads = Vec::new(alloc);
    for place in 0..count {
        payloads.push(payload(alloc, words, place)?).ok()?;
    }
    Some(payloads)
}

// The payload at a place, which has one of the sizes that the words give in turn.
fn payload(alloc: Global, words: &[String], place: usize) -> Option<Vec<u8>> {
    let kinds = words.len().checked_sub(5)?;
    let kind = place.checked_rem(kinds)?;
    let size = number_at(words, kind.checked_add(5)?)?;
    vec![in alloc; 7; size].ok()
}

fn slices(alloc: Global, payloads: &[Vec<u8>]) -> Option<Vec<&[u8]>> {
    let mut slices = Vec::new(alloc);
    for payload in payloads {
        slices.push(payload.as_slice()).ok()?;
    }
    Some(slices)
}

// Times the call that the words name.
fn time_of(rt: &HostRuntime, words: &[String], payloads: &[Vec<u8>]) -> Option<()> {
    let lanes = number_at(words, 2)?;
    let rounds = number_at(words, 3)?;
    let parts = slices(rt.alloc(), payloads)?;
    call(rt, words.get(1)?.as_str(), lanes, rounds, &parts)
}

fn call(rt: &HostRuntime, name: &str, lanes: usize, rounds: usize, parts: &[&[u8]]) -> Option<()> {
    match name {
        "seal" => seal(rt, lanes, rounds, parts, false),
        "seal_all" => seal(rt, lanes, rounds, parts, true),
        "open" => open(rt, lanes, rounds, parts, false),
        "open_all" => open(rt, lanes, rounds, parts, true),
        "old" => old(rt, lanes, rounds, parts, false),
        "old_all" => old(rt, lanes, rounds, parts, true),
        _ => None,
    }
}

// Prints what was found.
fn report(rt: &HostRuntime, best: u128, last: Option<u8>) -> Option<()> {
    println!(rt; "{best} {}", last.unwrap_or(0)).ok()
}

fn seal(
    rt: &HostRuntime,
    lanes: usize,
    rounds: usize,
    parts: &[&[u8]],
    side_by_side: bool,
) -> Option<()> {
    let mut sender = Outbound::new(SPI, &KEY, true, 0);
    sender.begin_lanes_at(lanes);
    let mut out = Vec::new(rt.alloc());
    let mut best = u128::MAX;
    for _ in 0..rounds {
        out.clear();
        best = time_to_seal(rt, &mut sender, parts, &mut out, side_by_side)?.min(best);
    }
    report(rt, best, out.last().copied())
}

// The nanoseconds that it takes to seal the payloads once.
fn time_to_seal(
    rt: &HostRuntime,
    sender: &mut Outbound,
    parts: &[&[u8]],
    out: &mut Vec<u8>,
    side_by_side: bool,
) -> Option<u128> {
    let start = Instant::now(rt).ok()?;
    if side_by_side {
        sender.seal_all(4, parts, out).ok()?;
    } else {
        seal_each(sender, parts, out)?;
    }
    nanoseconds_since(rt, start)
}

fn nanoseconds_since(rt: &HostRuntime, start: Instant) -> Option<u128> {
    Some(start.elapsed(rt).ok()?.as_nanos())
}

fn seal_each(sender: &mut Outbound, parts: &[&[u8]], out: &mut Vec<u8>) -> Option<()> {
    for part in parts {
        sender.seal(4, part, out).ok()?;
    }
    Some(())
}

// The next packets with these payloads.
fn list(alloc: Global, sender: &mut Outbound, parts: &[&[u8]]) -> Option<Vec<Vec<u8>>> {
    let mut list = Vec::new(alloc);
    for part in parts {
        list.push(packet(alloc, sender, part)?).ok()?;
    }
    Some(list)
}

fn packet(alloc: Global, sender: &mut Outbound, payload: &[u8]) -> Option<Vec<u8>> {
    let mut packet = Vec::new(alloc);
    sender.seal(4, payload, &mut packet).ok()?;
    Some(packet)
}

fn open(
    rt: &HostRuntime,
    lanes: usize,
    rounds: usize,
    parts: &[&[u8]],
    side_by_side: bool,
) -> Option<()> {
    let best = best_opening(rt, lanes, rounds, parts, side_by_side)?;
    report(rt, best, None)
}

// The nanoseconds of the fastest round. Its packets are sealed just before, as a network card leaves them in
// the cache.
fn best_opening(
    rt: &HostRuntime,
    lanes: usize,
    rounds: usize,
    parts: &[&[u8]],
    side_by_side: bool,
) -> Option<u128> {
    let mut sender = Outbound::new(SPI, &KEY, true, 0);
    let mut receiver = Receiver::new(rt.alloc(), lanes)?;
    let mut best = u128::MAX;
    for _ in 0..rounds {
        let list = list(rt.alloc(), &mut sender, parts)?;
        best = time_of_opening(rt, &mut receiver, &list, side_by_side)?.min(best);
    }
    Some(best)
}

// The nanoseconds that it takes to open the packets of a list.
fn time_of_opening(
    rt: &HostRuntime,
    receiver: &mut Receiver,
    list: &[Vec<u8>],
    side_by_side: bool,
) -> Option<u128> {
    let packets = slices(rt.alloc(), list)?;
    let mut out = Vec::with_capacity(rt.alloc(), packets.len()).ok()?;
    time_to_open(rt, receiver, &packets, &mut out, side_by_side)
}

// The nanoseconds that it takes to open the packets.
fn time_to_open<'a>(
    rt: &HostRuntime,
    receiver: &mut Receiver,
    list: &[&'a [u8]],
    out: &mut Vec<Result<Opened<'a>, EspFault>>,
    side_by_side: bool,
) -> Option<u128> {
    let start = Instant::now(rt).ok()?;
    if side_by_side {
        receiver.open_all(list, out)?;
    } else {
        open_each(receiver, list)?;
    }
    nanoseconds_since(rt, start)
}

fn open_each(receiver: &mut Receiver, list: &[&[u8]]) -> Option<()> {
    for packet in list {
        receiver.open(packet)?;
    }
    Some(())
}

// Packets that were opened already.
fn old(
    rt: &HostRuntime,
    lanes: usize,
    rounds: usize,
    parts: &[&[u8]],
    side_by_side: bool,
) -> Option<()> {
    let list = list(rt.alloc(), &mut Outbound::new(SPI, &KEY, true, 0), parts)?;
    let packets = slices(rt.alloc(), &list)?;
    let best = best_refusal(rt, lanes, rounds, &packets, side_by_side)?;
    report(rt, best, None)
}

// The nanoseconds of the fastest round in which packets that were opened are refused.
fn best_refusal(
    rt: &HostRuntime,
    lanes: usize,
    rounds: usize,
    list: &[&[u8]],
    side_by_side: bool,
) -> Option<u128> {
    let mut receiver = Receiver::new(rt.alloc(), lanes)?;
    let mut out = Vec::new(rt.alloc());
    receiver.open_all(list, &mut out)?;
    let mut best = u128::MAX;
    for _ in 0..rounds {
        out.clear();
        best = time_to_refuse(rt, &mut receiver, list, &mut out, side_by_side)?.min(best);
    }
    Some(best)
}

// The nanoseconds that it takes to refuse the packets.
fn time_to_refuse<'a>(
    rt: &HostRuntime,
    receiver: &mut Receiver,
    list: &[&'a [u8]],
    out: &mut Vec<Result<Opened<'a>, EspFault>>,
    side_by_side: bool,
) -> Option<u128> {
    let start = Instant::now(rt).ok()?;
    if side_by_side {
        receiver.open_all(list, out)?;
    } else {
        refuse_each(receiver, list)?;
    }
    nanoseconds_since(rt, start)
}

fn refuse_each(receiver: &mut Receiver, list: &[&[u8]]) -> Option<()> {
    for packet in list {
        if receiver.open(packet).is_some() {
            return None;
        }
    }
    Some(())
}

//! `tool_runs`: times packets through a gateway, one by one and as one list. `tools/speed.py` builds it
//! for two kinds of processors, runs it and prints the ratios.
//!
//! ```text
//! tool_runs out LANES ROUNDS COUNT OCTETS        packets on their way out, by as many calls of Gateway::step
//! tool_runs out_all LANES ROUNDS COUNT OCTETS    by one call of run
//! tool_runs in LANES ROUNDS COUNT OCTETS         ESP packets that came, by as many calls of Gateway::step
//! tool_runs in_all LANES ROUNDS COUNT OCTETS     by one call of run
//! ```
//!
//! Two gateways hold a Child SA with extended numbers, and COUNT packets of so many octets go from one
//! to the other. Lists begin lanes at LANES packets. It prints the nanoseconds of the fastest of the rounds.
//! The exit status is 1 where the words ask for nothing, or a packet doesn't go through.
#![tactic(auto)]

mod packets;
mod times;

use packets::Side;
use std::env;
use std::process::ExitCode;

fn main(rt: HostRuntime) -> ExitCode {
    match run(&rt) {
        Some(()) => ExitCode::from(0),
        None => ExitCode::from(1),
    }
}

// Does what the words ask for, and prints what was found.
fn run(rt: &HostRuntime) -> Option<()> {
    let words: Vec<String> = env::args(rt).ok()?.collect(rt.alloc()).ok()?;
    let lanes = number_at(&words, 2)?;
    let rounds = number_at(&words, 3)?;
    let count = number_at(&words, 4)?;
    let octets = number_at(&words, 5)?;
    let best = match words.get(1)?.as_str() {
        "out" => times::best(rt, Side::Out, false, lanes, rounds, count, octets)?,
        "out_all" => times::best(rt, Side::Out, true, lanes, rounds, count, octets)?,
        "in" => times::best(rt, Side::In, false, lanes, rounds, count, octets)?,
        "in_all" => times::best(rt, Side::In, true, lanes, rounds, count, octets)?,
        _ => return None,
    };
    println!(rt; "{best}").ok()
}

// The number that a word is.
fn number_at(words: &[String], place: usize) -> Option<usize> {
    words.get(place)?.parse().ok()
}

//! `tool_costs`: does one piece of the work of a gateway so many times and no more, so that its cost
//! can be counted from outside. `tools/measure.py` runs it twice under a counter of instructions, with
//! two counts: the difference is the cost of the work alone.
//!
//! ```text
//! tool_costs hash COUNT OCTETS        SHA-256 of so many octets
//! tool_costs seal COUNT OCTETS        a payload of so many octets sealed into a packet with ESN
//! tool_costs open COUNT OCTETS        the packet of such a payload opened, each time by a fresh receiver
//! tool_costs table COUNT PAIRS        of so many pairs the last found by its SPI, 1,024 octets sealed by it
//! tool_costs outbound COUNT PAIRS     of so many pairs with one selector a side, the last found by its flow
//! tool_costs decide COUNT ENTRIES     a flow decided on that only the last of so many entries holds
//! tool_costs remembered COUNT PAIRS ENTRIES
//!                                     a packet of 64 octets sealed by the last of so many pairs; its flow
//!                                     is remembered, and protected by the last of so many entries
//! tool_costs source-ports COUNT FLOWS
//!                                     a packet of 64 octets sealed for each of so many flows, which differ
//!                                     in the source port; all but the first turn find the flows
//!                                     remembered, and a policy of 256 entries is passed over
//! tool_costs target-ports COUNT FLOWS
//! tool_costs hosts COUNT FLOWS
//! tool_costs hosts6 COUNT FLOWS       the same, of flows that differ in the target port, in the address, in
//!                                     the address within one IPv6 /64
//! tool_costs public COUNT             a public value of the 2048-bit group; half the secret's bits are set
//! tool_costs cipher COUNT OCTETS      so many octets sealed as the body of an IKE message by AES-256-CBC
//!                                     and HMAC-SHA-256-128
//! ```
//!
//! It prints an octet of what the last turn made, so that no compiler leaves the work out. The exit
//! status is 0 where all was done, 1 where something was refused or the octet not printed, and 2 where
//! the words ask for nothing.
#![tactic(auto)]

mod ciphers;
mod packets;
mod remembered;
mod spread;
mod tables;
mod task;

use std::alloc::Global;
use std::env;
use std::process::ExitCode;
use task::{Job, Task};

fn main(rt: HostRuntime) -> ExitCode {
    ExitCode::from(run(&rt))
}

// Does what the command line asks for, and answers the exit status.
fn run(rt: &HostRuntime) -> u8 {
    let Some(job) = asked(rt) else {
        return 2;
    };
    match work(rt.alloc(), job) {
        Some(octet) => print(rt, octet),
        None => 1,
    }
}

// The job that the command line's words ask for.
fn asked(rt: &HostRuntime) -> Option<Job> {
    let words: Vec<String> = env::args(rt).ok()?.collect(rt.alloc()).ok()?;
    task::read(&words)
}

// An octet of what the last turn made; `None` where something was refused.
fn work(alloc: Global, job: Job) -> Option<u8> {
    match job.task {
        Task::Hash { octets } => packets::hash(alloc, job.count, octets),
        Task::Seal { octets } => packets::seal(alloc, job.count, octets),
        Task::Open { octets } => packets::open(alloc, job.count, octets),
        Task::Table { pairs } => tables::seal(alloc, job.count, pairs),
        Task::Outbound { pairs } => tables::outbound(alloc, job.count, pairs),
        Task::Decide { entries } => tables::decide(alloc, job.count, entries),
        Task::Remembered { pairs, entries } => remembered::send(alloc, job.count, pairs, entries),
        Task::Spread { differing, flows } => spread::send(alloc, job.count, flows, differing),
        Task::Public => ciphers::public(alloc, job.count),
        Task::Cipher { octets } => ciphers::seal(alloc, job.count, octets),
    }
}

// Prints the octet, and answers the exit status.
fn print(rt: &HostRuntime, octet: u8) -> u8 {
    match println!(rt; "{octet}") {
        Ok(()) => 0,
        Err(_) => 1,
    }
}

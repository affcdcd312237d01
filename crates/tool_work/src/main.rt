//! `tool_work`: what the exchanges of two gateways cost each end, step by step.
//!
//! The gateways' providers count what they are asked for: bodies opened and sealed, proofs of identity made
//! and checked, public values and shared secrets computed. Each step prints a line, with the counts of the
//! end that took it:
//!
//! ```text
//! IKE_AUTH answered at B: opened 1, sealed 1, proved 1, checked 1, public values 0, shared secrets 0
//! ```
//!
//! `tools/work.py` compares each line with what the step has to cost. So it shows where work is done twice,
//! or for nothing: a message opened though its Message ID decides, a response sealed anew for a request that
//! came again, a proof made for a peer that is refused.
//!
//! The exit status is 1 where a step brings something else than it should, or memory runs out. The last line
//! is then that of the step.
#![tactic(auto)]

mod counting;
mod exchanges;
mod kind;
mod pair;
mod work;

use pair::Pair;
use std::process::ExitCode;

fn main(rt: HostRuntime) -> ExitCode {
    match run(&rt) {
        Some(()) => ExitCode::from(0),
        None => ExitCode::from(1),
    }
}

fn run(rt: &HostRuntime) -> Option<()> {
    run_live(rt)?;
    run_crowded(rt)?;
    run_in_vain(rt)
}

fn run_live(rt: &HostRuntime) -> Option<()> {
    let mut pair = Pair::new(rt.alloc())?;
    let went = exchanges::live(rt.alloc(), &mut pair);
    print(rt, &pair)?;
    went
}

fn run_crowded(rt: &HostRuntime) -> Option<()> {
    let mut pair = Pair::new(rt.alloc())?;
    let went = exchanges::bring_cookie(&mut pair);
    print(rt, &pair)?;
    went
}

fn run_in_vain(rt: &HostRuntime) -> Option<()> {
    let mut pair = Pair::new(rt.alloc())?;
    let went = exchanges::prove_in_vain(rt.alloc(), &mut pair);
    print(rt, &pair)?;
    went
}

// Prints what was done, also where it ended before its end.
fn print(rt: &HostRuntime, pair: &Pair) -> Option<()> {
    for line in pair.lines() {
        println!(rt; "{line}").ok()?;
    }
    Some(())
}

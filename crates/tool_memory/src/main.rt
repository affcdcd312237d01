//! `tool_memory`: two gateways that may be refused memory anywhere, beside two that go the same way.
//!
//! Both pairs agree on an IKE SA and its first child, carry a packet, make an additional Child SA, ask, ask
//! again once the time is over, delete a child and close. Where a step is refused on allocation failure (E10,
//! E20, E24, E27) it must have changed nothing that can be seen, and its input is given again. At the end
//! both pairs have sent the same octets: so it is as if what was refused had never come, no SPI is lost, and
//! timers are as they were. `tools/want_of_memory.py` runs this program with each of its allocations refused
//! in turn, alone and with all after it.
//!
//! It prints what was found, with the words of what was refused. The exit status is 0 where all is as
//! it should be, 1 where it isn't, and 3 where memory was wanted twice in a row, or for the program's
//! own lists.
//!
//! With any word on its command line it does this instead (`thousand`): a thousand ESP packets come to one gateway
//! while all memory is refused, then a list of them that has no room for its outputs, and then datagrams that
//! are no message of IKE (`faulty`).
#![tactic(auto)]

mod faulty;
mod link;
mod thousand;

use faulty::COUNT as DATAGRAMS;
use gateway::Reason;
use link::{Link, Trouble};
use std::alloc::Global;
use std::env;
use std::io::Error;
use std::process::ExitCode;
use thousand::{COUNT, Found};

fn main(rt: HostRuntime) -> ExitCode {
    match words(&rt) {
        Ok(words) if words.len() > 1 => without_memory(&rt),
        _ => with_and_without(&rt),
    }
}

// The words of the command line, the program's own name first.
fn words(rt: &HostRuntime) -> Result<Vec<String>, Trouble> {
    match env::args(rt) {
        Ok(words) => Ok(words.collect(rt.alloc())?),
        Err(_) => Err(Trouble::Memory),
    }
}

// What comes of a thousand packets and of those datagrams while all memory is refused.
fn without_memory(rt: &HostRuntime) -> ExitCode {
    let (said, status) = match thousand::play(rt.alloc()) {
        Ok(Found { up, stop, told }) => (
            println!(rt;
                "without memory {up} of {COUNT} packets went up; of a list of them: {stop}; {told} of {DATAGRAMS} datagrams that are no message told why"
            ),
            0,
        ),
        Err(_) => (println!(rt; "another answer than with memory"), 1),
    };
    match said {
        Ok(()) => ExitCode::from(status),
        Err(_) => ExitCode::from(1),
    }
}

fn with_and_without(rt: &HostRuntime) -> ExitCode {
    let (said, status) = match play(rt.alloc()) {
        Ok(refused) => (tell(rt, refused), 0),
        Err(Trouble::Changed) => (println!(rt; "a refusal changed something"), 1),
        Err(Trouble::Other) => (println!(rt; "another answer than with memory"), 1),
        Err(Trouble::Memory) => (println!(rt; "no memory"), 3),
    };
    match said {
        Ok(()) => ExitCode::from(status),
        Err(_) => ExitCode::from(1),
    }
}

// Says that all was as with memory, and what was refused and given again, if anything was.
fn tell(rt: &HostRuntime, refused: Option<Reason>) -> Result<(), Error> {
    match refused {
        Some(reason) => println!(rt;
            "all as with memory, one step refused and given again: {reason}"
        ),
        None => println!(rt; "all as with memory, nothing refused"),
    }
}

// Goes the way twice, and answers what was refused last on allocation failure.
fn play(alloc: Global) -> Result<Option<Reason>, Trouble> {
    let mut one = Link::new(alloc)?;
    play_beside(alloc, &mut one)
}

fn play_beside(alloc: Global, one: &mut Link) -> Result<Option<Reason>, Trouble> {
    let mut another = Link::new(alloc)?;
    go_both(alloc, one, &mut another)
}

// Both go the way, the first whole before the other, and have to send the same.
fn go_both(alloc: Global, one: &mut Link, another: &mut Link) -> Result<Option<Reason>, Trouble> {
    let refused = one.go(alloc)?;
    let refused = another.go(alloc)?.or(refused);
    if one.has_sent_as(another) {
        Ok(refused)
    } else {
        Err(Trouble::Other)
    }
}

//! `tool_examples`: plays each script of `examples/` and shows each message of it, and looks whether
//! what is printed is what stands beside it.
//!
//! It is the gate's test that the examples do as they are written, and runs in a folder with copies of
//! them, `crates/tool_examples/data`. It prints a line for each, and has the exit status 1 where one
//! prints something else.
#![tactic(auto)]

use gw_console::read_whole;
use gw_engine::{play, show};
use std::fs::File;
use std::process::ExitCode;

// The scripts, each beside what it prints: `NAME.gw` and `NAME.out`.
const SCRIPTS: [&str; 9] = [
    "children", "damage", "extended", "ipv6", "load", "loss", "one", "two", "windows",
];

// The messages, each beside how it is shown: `NAME.hex` and `NAME.shown`.
const MESSAGES: [&str; 2] = ["cookie", "init"];

fn main(rt: HostRuntime) -> ExitCode {
    let mut wrong = 0;
    for name in SCRIPTS {
        wrong |= told(&rt, name, prints(&rt, name, true));
    }
    for name in MESSAGES {
        wrong |= told(&rt, name, prints(&rt, name, false));
    }
    ExitCode::from(wrong)
}

// Says what was found of an example, and answers the exit status.
fn told(rt: &HostRuntime, name: &str, prints: Option<bool>) -> u8 {
    let (said, status) = match prints {
        Some(true) => ("as it is written", 0),
        Some(false) => ("prints something else", 1),
        None => ("could not be played", 1),
    };
    match println!(rt; "{name}: {said}") {
        Ok(()) => status,
        Err(_) => 1,
    }
}

// Whether an example prints what stands beside it; `None` where a file can't be read, and for want of memory.
fn prints(rt: &HostRuntime, name: &str, is_script: bool) -> Option<bool> {
    let (from, to) = if is_script {
        ("gw", "out")
    } else {
        ("hex", "shown")
    };
    let mut reader = opened(rt, name, from)?;
    let mut printed = Vec::new(rt.alloc());
    let status = if is_script {
        play(rt.alloc(), &mut reader, &mut printed)
    } else {
        show(rt.alloc(), &mut reader, &mut printed)
    };
    let wanted = read_whole(rt.alloc(), &mut opened(rt, name, to)?).ok()?;
    Some(status == 0 && printed == wanted)
}

fn opened(rt: &HostRuntime, name: &str, ending: &str) -> Option<File> {
    let path = format!(in rt.alloc(); "{name}.{ending}").ok()?;
    File::open(rt, path.as_str()).ok()
}

//! `gw`: the gateway's core on the command line. It works on files alone: no socket, no clock, no random
//! source.
//!
//! `gw play FILE` plays a script. Its first line names its kind; each further line is a directive, and what
//! came of it is printed. A script of kind `one` has the two ends of one ESP SA (RFC 4303): its
//! sender seals packets, its receiver opens them.
//!
//! ```text
//! $ cat once.gw
//! one
//! sa 256 0b0b0b0b0b0b0b0b0b0b0b0b0b0b0b0b0b0b0b0b0b0b0b0b0b0b0b0b0b0b0b0b 2 no
//! seal 4 c0ffee
//! deliver 1
//! deliver 1
//! $ gw play once.gw
//! sealed 1 number 1 length 32
//! up number 1 next 4 c0ffee
//! E16
//! ```
//!
//! A script of kind `two` has two gateways, A and B: they make IKE SAs (RFC 7296) and children of
//! ESP, and packets go between them. Each datagram that one sends reaches the other only where a line of
//! the script says so, whole or damaged.
//!
//! `gw show FILE` prints an IKE message (RFC 7296 section 3) whose octets the file has as hexadecimal
//! digits.
//!
//! `gw check` computes exact values that are known from elsewhere, and prints how many hold.
//!
//! A refusal in a script is printed as its number and is no fault. The exit status is 0 where all was done,
//! 1 where input was refused or output not written, and 2 where the command line's words are no command.
#![tactic(auto)]

mod command;

use command::{Command, CommandFault};
use gw_console::Status;
use gw_engine::{Stop, check, end, play, show};
use std::alloc::Global;
use std::fs::File;
use std::io;
use std::io::{Read, Write};
use std::process::ExitCode;

// The path at which the runtime's standard input is read, and no file opened: there may be no leave to open
// it.
const STANDARD_INPUT: &str = "/dev/stdin";

fn main(rt: HostRuntime) -> ExitCode {
    ExitCode::from(run(&rt))
}

// Does what the command line asks for, and answers the exit status.
fn run(rt: &HostRuntime) -> u8 {
    let words = match command::words(rt) {
        Ok(words) => words,
        Err(fault) => return refuse(rt, fault),
    };
    match command::read(rt.alloc(), words.as_slice()) {
        Ok(command) => follow(rt, command),
        Err(fault) => refuse(rt, fault),
    }
}

// Nothing is printed of words that are no command.
fn refuse(rt: &HostRuntime, fault: CommandFault) -> u8 {
    match fault {
        CommandFault::Words => Status::BadCommand.code(),
        CommandFault::Memory => end(Err(Stop::Memory), &mut io::writer(rt)).code(),
    }
}

fn follow(rt: &HostRuntime, command: Command) -> u8 {
    match command {
        Command::Play { file } => follow_with(rt, file, Use::Played),
        Command::Show { file } => follow_with(rt, file, Use::Shown),
        Command::Check => check(rt.alloc(), &mut io::writer(rt)),
    }
}

// What is done with a file.
#[derive(Clone, Copy)]
enum Use {
    Played,
    Shown,
}

// Does it with the file at a path.
fn follow_with(rt: &HostRuntime, file: &str, is: Use) -> u8 {
    let mut writer = io::writer(rt);
    if file == STANDARD_INPUT {
        return act(rt.alloc(), is, &mut rt.reader(), &mut writer);
    }
    match File::open(rt, file) {
        Ok(mut reader) => act(rt.alloc(), is, &mut reader, &mut writer),
        Err(_) => end(Err(Stop::File), &mut writer).code(),
    }
}

// Does it with what the reader has.
fn act<R: Read, W: Write>(alloc: Global, is: Use, reader: &mut R, writer: &mut W) -> u8 {
    match is {
        Use::Played => play(alloc, reader, writer),
        Use::Shown => show(alloc, reader, writer),
    }
}

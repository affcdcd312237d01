//! The command line.
use clap::error::ErrorKind;
use clap::{Arg, ArgAction};
use std::alloc::{AllocError, Global};
use std::{env, io};

#[cfg(test)]
mod tests;

/// What the program is asked to do, with what that needs.
#[derive(Clone, Copy, Debug, PartialEq, Eq)]
pub enum Command<'a> {
    /// `play`: the file at this path is played as a script.
    Play { file: &'a str },
    /// `show`: the file at this path is shown as an IKE message.
    Show { file: &'a str },
    /// `check`: exact values are computed and compared. It takes no file.
    Check,
}

/// Why the command line was not read.
#[derive(Clone, Copy, Debug, PartialEq, Eq)]
pub enum CommandFault {
    /// The words are not a command with its one file, or `check` alone. Asking for help is no command.
    Words,
    /// There was no memory.
    Memory,
}

impl From<AllocError> for CommandFault {
    fn from(_: AllocError) -> CommandFault {
        CommandFault::Memory
    }
}

impl From<io::Error> for CommandFault {
    fn from(fault: io::Error) -> CommandFault {
        match fault.kind() {
            io::ErrorKind::OutOfMemory => CommandFault::Memory,
            _ => CommandFault::Words,
        }
    }
}

impl From<clap::Error> for CommandFault {
    fn from(fault: clap::Error) -> CommandFault {
        match fault.kind() {
            ErrorKind::OutOfMemory => CommandFault::Memory,
            _ => CommandFault::Words,
        }
    }
}

/// The words of the command line, the program's own name first. Refused where one of them isn't text.
pub fn words(rt: &HostRuntime) -> Result<Vec<String>, CommandFault> {
    Ok(env::args(rt)?.collect(rt.alloc())?)
}

/// The command that the words ask for. The first word is the program's own name.
pub fn read<'a>(alloc: Global, words: &'a [String]) -> Result<Command<'a>, CommandFault> {
    let gw = clap::Command::new(alloc, "gw")
        .subcommand_required(true)
        .subcommand(with_file(alloc, "play")?)?
        .subcommand(with_file(alloc, "show")?)?
        .subcommand(clap::Command::new(alloc, "check"))?;
    let matches = gw.try_get_matches_from(words)?;
    let (name, found) = matches.subcommand().ok_or(CommandFault::Words)?;
    match name {
        "play" => Ok(Command::Play {
            file: file_of(found)?,
        }),
        "show" => Ok(Command::Show {
            file: file_of(found)?,
        }),
        "check" => Ok(Command::Check),
        _ => Err(CommandFault::Words),
    }
}

// The path of the one file that a command takes.
fn file_of<'a>(found: &clap::ArgMatches<'a>) -> Result<&'a str, CommandFault> {
    found.get_str("file").ok_or(CommandFault::Words)
}

// A command that takes one file.
fn with_file<'a>(alloc: Global, name: &'a str) -> Result<clap::Command<'a>, AllocError> {
    let file = Arg::new(alloc, "file")
        .required(true)
        .action(ArgAction::Set);
    clap::Command::new(alloc, name).arg(file)
}

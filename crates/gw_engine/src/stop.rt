//! Why the program stops, and how it ends.
ghost use Rattle.std.specs.Prelude.{◌≡◌, ◌≤◌, OnErr, OnOk};
ghost use Rattle.std.specs.Io.KnownBytes.{Appends};
ghost use Rattle.gw_console.specs.Output.{AppendsBeginning};
ghost use Rattle.gw_console.specs.Status.{exit_code};
ghost use Rattle.gw_engine.specs.Ends.{status_of, stop_line, IsQuiet, EndsWith};

use arrayvec::ArrayString;
use gw_console::{HexFault, InputFault, Status, Unwritten, write_whole};
use std::alloc::AllocError;
use std::fmt;
use std::fmt::Write as _;
use std::io::Write;
use wire::WireFault;

// No line that tells why the program stops is longer, in octets.
const LINE_LIMIT: usize = 64;

/// Why the program stops before its work is done. Its text is what the program then prints.
#[derive(Clone, Copy, Debug, PartialEq, Eq)]
pub enum Stop {
    /// The file can't be read, or is too large.
    File,
    /// The file's text is not hexadecimal.
    Hex,
    /// The octets are no message, with the refusal's number.
    Message {
        /// The refusal's number.
        number: u8,
    },
    /// A payload of the message is malformed, with the refusal's number.
    Payload {
        /// The refusal's number.
        number: u8,
        /// Where the payload begins, in octets from the message's first.
        offset: usize,
    },
    /// The script's line of this number, from 1, is no directive, or none that can be followed here.
    Line(usize),
    /// There was no memory for the program's own work.
    Memory,
    /// The output can't be written, so nothing is printed of this.
    Output,
}

impl fmt::Display for Stop {
    ghost use Rattle.std.specs.Prelude.{Some};
    ghost use Rattle.gw_engine.specs.Ends.{stop_text};

    ghost output = { λ stop. Some (stop_text stop) };

    fn fmt<W: fmt::Write>(&self, f: &mut fmt::Formatter<W>) -> fmt::Result {
        match *self {
            Stop::File => write!(f, "refused file"),
            Stop::Hex => write!(f, "refused hex"),
            Stop::Message { number } => write!(f, "refused E{number}"),
            Stop::Payload { number, offset } => write!(f, "refused E{number} at {offset}"),
            Stop::Line(number) => write!(f, "line {number} refused"),
            Stop::Memory => write!(f, "no memory"),
            Stop::Output => write!(f, "the output was not written"),
        }
    }
}

impl From<AllocError> for Stop {
    ghost use Rattle.std.specs.Prelude.{◌≡◌};
    ghost use Rattle.gw_engine.specs.declared.stop.Stop.TheVariants.{Memory};

    ghost from_gives = { λ _ stop. stop ≡ Memory };

    fn from(_: AllocError) -> Stop {
        Stop::Memory
    }
}

impl From<InputFault> for Stop {
    ghost use Rattle.std.specs.Prelude.{◌≡◌};
    ghost use Rattle.gw_engine.specs.Ends.{stop_of_input};

    ghost from_gives = { λ fault stop. stop ≡ stop_of_input fault };

    fn from(fault: InputFault) -> Stop {
        match fault {
            InputFault::File => Stop::File,
            InputFault::Memory => Stop::Memory,
        }
    }
}

impl From<Unwritten> for Stop {
    ghost use Rattle.std.specs.Prelude.{◌≡◌};
    ghost use Rattle.gw_engine.specs.declared.stop.Stop.TheVariants.{Output};

    ghost from_gives = { λ _ stop. stop ≡ Output };

    fn from(_: Unwritten) -> Stop {
        Stop::Output
    }
}

impl From<WireFault> for Stop {
    ghost use Rattle.std.specs.Prelude.{◌≡◌};
    ghost use Rattle.gw_engine.specs.Ends.{stop_of_fault};

    ghost from_gives = { λ fault stop. stop ≡ stop_of_fault fault };

    fn from(fault: WireFault) -> Stop {
        let number = fault.code();
        match (fault, fault.offset()) {
            (WireFault::Memory, _) => Stop::Memory,
            (_, None) => Stop::Message { number },
            (_, Some(offset)) => Stop::Payload { number, offset },
        }
    }
}

impl From<HexFault> for Stop {
    ghost use Rattle.std.specs.Prelude.{◌≡◌};
    ghost use Rattle.gw_engine.specs.Ends.{stop_of_digits};

    ghost from_gives = { λ fault stop. stop ≡ stop_of_digits fault };

    fn from(fault: HexFault) -> Stop {
        match fault {
            HexFault::NotHex => Stop::Hex,
            HexFault::Memory => Stop::Memory,
        }
    }
}

/// Ends a command: prints why it stopped, if it did, and answers the status. Where the work is done, or the
/// output can't be written any more, nothing is written. Where a write fails here, a beginning of that line
/// was written.
pub fn end<W: Write>(outcome: Result<(), Stop>, writer: &mut W) -> Status
    ensures status { result ≡ status_of outcome }
    ensures code { exit_code result ≤ 1 }
    ensures quiet { IsQuiet outcome → writer.new ≡ writer.old }
    ensures ends { EndsWith outcome (W.contents writer.old) (W.contents writer.new) }
{
    let Err(stop) = outcome else {
        return Status::Done;
    };
    if stop != Stop::Output {
        let _ = write_reason(stop, writer);
    }
    Status::Refused
}

// Writes the line that tells it.
fn write_reason<W: Write>(stop: Stop, writer: &mut W) -> Result<(), Unwritten>
    ensures whole { OnOk result
        (Appends (W.contents writer.old) (W.contents writer.new) (stop_line stop)) }
    ensures beginning { OnErr result
        (AppendsBeginning (W.contents writer.old) (W.contents writer.new) (stop_line stop)) }
{
    let mut line = ArrayString::<LINE_LIMIT>::new();
    match writeln!(line, "{stop}") {
        Ok(()) => write_whole(writer, line.as_bytes()),
        Err(_) => Err(Unwritten),
    }
}

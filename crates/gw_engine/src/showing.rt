//! Showing an IKE message.
ghost use Rattle.std.specs.Prelude.{◌≤◌, string_bytes, IfErr, IfOk};
ghost use Rattle.gw_engine.specs.Showing.{IsRefusedBy, IsShownBy, Shows, ShowsBy};

mod lines;

use crate::stop::{Stop, end};
use gw_console::{read_hex, read_whole, write_whole};
use std::alloc::Global;
use std::io::{Read, Write};
use wire::decode_message;

/// Prints the IKE message (RFC 7296 section 3) whose octets the reader has as hexadecimal digits, and
/// answers the exit status.
///
/// The reader is read whole first: where a read fails or there are more than 1,048,576 octets, `refused
/// file` is printed. Then `refused hex` where the text is not digits, blanks and line ends, or the digits
/// are odd in number; `refused E1`, or `refused E5 at 28` with the offset of the payload at fault, where
/// the octets are no message; `no memory` for want of it. The status is 1 after each of these and where a
/// write fails, after which nothing more is printed; else it is 0.
pub fn show<R: Read, W: Write>(alloc: Global, reader: &mut R, writer: &mut W) -> u8
    ensures shows { Shows (R.remaining reader.old) result
        (W.contents writer.old) (W.contents writer.new) }
    ensures code { result ≤ 1 }
{
    let outcome = show_message(alloc, reader, writer);
    end(outcome, writer).code()
}

fn show_message<R: Read, W: Write>(
    alloc: Global,
    reader: &mut R,
    writer: &mut W,
) -> Result<(), Stop>
    ensures { ShowsBy (R.remaining reader.old) result
        (W.contents writer.old) (W.contents writer.new) }
{
    let digits = read_whole(alloc, reader)?;
    let lines = shown(alloc, &digits)?;
    write_whole(writer, lines.as_bytes())?;
    Ok(())
}

// The lines of the message whose octets the digits spell.
fn shown(alloc: Global, digits: &[u8]) -> Result<String, Stop>
    ensures shown { IfOk result (λ text. IsShownBy digits.now (string_bytes text)) }
    ensures refused { IfErr result (λ why. IsRefusedBy digits.now why) }
{
    let mut octets = Vec::new(alloc);
    read_hex(digits, &mut octets)?;
    let message = decode_message(alloc, &octets)?;
    Ok(lines::of_message(alloc, &message, octets.len())?)
}

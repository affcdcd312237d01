//! What is printed.
ghost use Rattle.std.specs.Prelude.{OnOk, OnErr};
ghost use Rattle.std.specs.Io.KnownBytes.{Appends};
ghost use Rattle.gw_console.specs.Output.{AppendsBeginning};

use std::io::{ErrorKind, Write};

/// A write failed: a beginning of the text was written, which is not all of it, and nothing after it.
#[derive(Clone, Copy, Debug, PartialEq, Eq)]
pub struct Unwritten;

/// Writes the text to its end, or not all of it where a write fails: then [`Unwritten`].
pub fn write_whole<W: Write>(writer: &mut W, text: &[u8]) -> Result<(), Unwritten>
    ensures whole { OnOk result (Appends (W.contents writer.old) (W.contents writer.new) text.now) }
    ensures beginning { OnErr result
        (AppendsBeginning (W.contents writer.old) (W.contents writer.new) text.now) }
{
    let mut rest = text;
    for _ in 0..u64::MAX {
        if rest.is_empty() {
            return Ok(());
        }
        match writer.write(rest) {
            Ok(0) => return Err(Unwritten),
            Ok(count) => rest = &rest[count..],
            Err(fault) if fault.kind() == ErrorKind::Interrupted => {}
            Err(_) => return Err(Unwritten),
        }
    }
    if rest.is_empty() {
        Ok(())
    } else {
        Err(Unwritten)
    }
}

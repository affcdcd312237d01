//! Playing a script.
ghost use Rattle.std.specs.Prelude.{◌≡◌, ◌≤◌, IfErr, IfOk};
ghost use Rattle.gw_console.specs.Status.{exit_code};
ghost use Rattle.gw_engine.specs.Ends.{stop_of_line};
ghost use Rattle.gw_engine.specs.Printing.{IsNoScript, Plays, PlaysBy, PlaysScript, PlaysScriptBy, Prints};

use crate::stop::{Stop, end};
use gw_console::{Status, read_whole, write_whole};
use gw_script::{Kind, Line, LineFault, One, Player, Two, directives, first_line};
use std::alloc::Global;
use std::io::{Read, Write};

/// Plays the script that the reader has, prints to the writer, and answers the exit status.
///
/// The script is read whole before anything is played: where a read fails or there are more than 1,048,576
/// octets, `refused file` is printed. A line that is no directive, or can't be followed, prints `line N
/// refused`, an allocation failure `no memory`, and nothing is played after either. The status is then 1,
/// as it is where a write fails, after which nothing more is printed; else it is 0.
pub fn play<R: Read, W: Write>(alloc: Global, reader: &mut R, writer: &mut W) -> u8
    ensures plays { PlaysScript (R.remaining reader.old) result
        (W.contents writer.old) (W.contents writer.new) }
    ensures code { result ≤ 1 }
{
    let mut one = One::new(alloc);
    let mut two = Two::new(alloc);
    play_by(alloc, &mut one, &mut two, reader, writer)
}

/// Plays the script that the reader has as [`play`] does, by these two machines: the first has the scripts of
/// kind `one`, the second those of kind `two`.
///
/// Whatever the machines: what goes out, where the writer tells its octets, is what the machine of the
/// script's kind says at the script's directives, as [`play_lines`] has it. The other one stays as it is, and
/// both do where nothing is played.
pub fn play_by<A: Player, B: Player, R: Read, W: Write>(
    alloc: Global,
    one: &mut A,
    two: &mut B,
    reader: &mut R,
    writer: &mut W,
) -> u8
    ensures plays { PlaysScriptBy A.says A.refuses B.says B.refuses one.old one.new two.old two.new
        (R.remaining reader.old) result (W.contents writer.old) (W.contents writer.new) }
    ensures code { result ≤ 1 }
{
    match play_script(alloc, one, two, reader, writer) {
        Ok(status) => status.code(),
        Err(stop) => end(Err(stop), writer).code(),
    }
}

fn play_script<A: Player, B: Player, R: Read, W: Write>(
    alloc: Global,
    one: &mut A,
    two: &mut B,
    reader: &mut R,
    writer: &mut W,
) -> Result<Status, Stop>
    ensures plays { IfOk result
        (λ status. PlaysBy A.says A.refuses B.says B.refuses one.old one.new two.old two.new
        (R.remaining reader.old) (exit_code status) (W.contents writer.old) (W.contents writer.new)) }
    ensures because { IfErr result (λ why. IsNoScript (R.remaining reader.old) why) }
    ensures code { IfOk result (λ status. exit_code status ≤ 1) }
    ensures unplayed { IfErr result (λ _. (one.new ≡ one.old) × (two.new ≡ two.old)) }
    ensures unwritten { IfErr result (λ _. writer.new ≡ writer.old) }
{
    let script = read_whole(alloc, reader)?;
    let lines = directives(alloc, &script)?;
    match Kind::named(first_line(&script)) {
        Some(Kind::One) => Ok(play_lines(one, &lines, writer)),
        Some(Kind::Two) => Ok(play_lines(two, &lines, writer)),
        None => Err(Stop::Line(1)),
    }
}

/// Plays the lines, prints what the machine says at each one before the next is played, and, where a line
/// is refused, why; and answers the status.
///
/// Whatever the machine: what goes out, where the writer tells its octets, is what the machine says in
/// turn, at all lines, or up to the first that it refuses, and then the line that tells why; where a write
/// fails, a beginning of that, and nothing more.
pub fn play_lines<P: Player, W: Write>(player: &mut P, lines: &[Line], writer: &mut W) -> Status
    ensures plays { Plays P.says P.refuses player.old player.new lines.now result
        (W.contents writer.old) (W.contents writer.new) }
    ensures code { exit_code result ≤ 1 }
{
    let outcome = print_lines(player, lines, writer);
    end(outcome, writer)
}

fn print_lines<P: Player, W: Write>(
    player: &mut P,
    lines: &[Line],
    writer: &mut W,
) -> Result<(), Stop>
    ensures { Prints P.says P.refuses player.old player.new lines.now result
        (W.contents writer.old) (W.contents writer.new) }
{
    for line in lines {
        match player.play(line.text) {
            Ok(text) => write_whole(writer, text.as_bytes())?,
            Err(fault) => return Err(stop_of_line(line.number, fault)),
        }
    }
    Ok(())
}

// Why a line that is not played, with its number from 1, stops the program.
fn stop_of_line(number: usize, fault: LineFault) -> Stop
    ensures { result ≡ stop_of_line number fault }
{
    match fault {
        LineFault::Refused => Stop::Line(number),
        LineFault::Memory => Stop::Memory,
    }
}

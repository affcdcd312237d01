//! An output as a line for a log.
use crate::Output;
use base::Items;
use moments::Resent;
use std::fmt;

/// A line without its end: what came of the input, with serials, numbers and lengths, and no contents. The
/// text of a [`Reason`](crate::Reason) begins with its number where it has one; of it the contract says
/// nothing.
impl<'a> fmt::Display for Output<'a> {
    ghost use Rattle.gateway.specs.Lines.{line_of};
    ghost use Rattle.gateway.specs.Outputs.{output_view};

    ghost output = { λ output. line_of (output_view output) };

    fn fmt<W: fmt::Write>(&self, f: &mut fmt::Formatter<W>) -> fmt::Result {
        match self {
            Output::Reply { octets, closed } => {
                write!(f, "reply, {} octets{}", octets.len(), Ended(*closed))
            }
            Output::Repeat { octets } => write!(f, "repeat, {} octets", octets.len()),
            Output::Request { ike, octets } => {
                write!(f, "request ike {ike}, {} octets", octets.len())
            }
            Output::Counted { ike, child, closed } => {
                write!(f, "counted ike {ike}{}{}", Made(*child), Ended(*closed))
            }
            Output::Ticked { requests, closed } => {
                write!(f, "ticked{}{}", Again(requests), Failed(closed))
            }
            Output::Done => write!(f, "done"),
            Output::Up {
                child,
                number,
                packet,
            } => write!(
                f,
                "up child {child} number {number}, {} octets",
                packet.len()
            ),
            Output::Dummy { child, number } => write!(f, "dummy child {child} number {number}"),
            Output::Sealed {
                child,
                number,
                octets,
            } => write!(
                f,
                "sealed child {child} number {number}, {} octets",
                octets.len()
            ),
            Output::Clear { packet } => write!(f, "clear, {} octets", packet.len()),
            Output::Discarded => write!(f, "discarded"),
            Output::Dropped { reason } => write!(f, "dropped: {reason}"),
            Output::Refused { reason } => write!(f, "refused: {reason}"),
        }
    }
}

// The Child SA that was made, if one was.
#[derive(Drop)]
struct Made(Option<u32>);

impl fmt::Display for Made {
    ghost use Rattle.std.specs.Prelude.{Some};
    ghost use Rattle.gateway.specs.Lines.{made_text};

    ghost output = { λ made. Some (made_text made.0) };

    fn fmt<W: fmt::Write>(&self, f: &mut fmt::Formatter<W>) -> fmt::Result {
        match self.0 {
            Some(serial) => write!(f, ", child {serial} made"),
            None => Ok(()),
        }
    }
}

// The IKE SA that was closed, if one was.
#[derive(Drop)]
struct Ended(Option<u32>);

impl fmt::Display for Ended {
    ghost use Rattle.std.specs.Prelude.{Some};
    ghost use Rattle.gateway.specs.Lines.{closed_text};

    ghost output = { λ ended. Some (closed_text ended.0) };

    fn fmt<W: fmt::Write>(&self, f: &mut fmt::Formatter<W>) -> fmt::Result {
        match self.0 {
            Some(serial) => write!(f, ", ike {serial} closed"),
            None => Ok(()),
        }
    }
}

// How many requests go out again.
#[derive(Drop)]
struct Again<'a>(&'a Items<Resent>);

impl<'a> fmt::Display for Again<'a> {
    ghost use Rattle.std.specs.Prelude.{Some, length};
    ghost use Rattle.gateway.specs.Lines.{again_text};

    ghost output = { λ again. Some (again_text (length again.0.now)) };

    fn fmt<W: fmt::Write>(&self, f: &mut fmt::Formatter<W>) -> fmt::Result {
        write!(f, ", {} requests again", self.0.len())
    }
}

// How many IKE SAs a tick closed.
#[derive(Drop)]
struct Failed<'a>(&'a Items<u32>);

impl<'a> fmt::Display for Failed<'a> {
    ghost use Rattle.std.specs.Prelude.{Some, length};
    ghost use Rattle.gateway.specs.Lines.{count_text};

    ghost output = { λ failed. Some (count_text (length failed.0.now)) };

    fn fmt<W: fmt::Write>(&self, f: &mut fmt::Formatter<W>) -> fmt::Result {
        write!(f, ", {} closed", self.0.len())
    }
}

//! What a directive prints.
use gateway::Output;
use gw_console::hex_text;
use moments::Resent;
use sadb::{Pair, State, Table};
use std::alloc::{AllocError, Global};

/// The lines of what came of an input. The first datagram that is sent is known by this place among all,
/// from 1.
pub fn of_output(alloc: Global, output: &Output<'_>, place: usize) -> Result<String, AllocError> {
    match output {
        Output::Request { ike, octets } => {
            let length = octets.len();
            format!(in alloc; "request {place} ike {ike} length {length}\n")
        }
        Output::Reply { octets, closed } => {
            let length = octets.len();
            let closed = of_end(alloc, *closed)?;
            format!(in alloc; "reply {place} length {length}\n{closed}")
        }
        Output::Repeat { octets } => {
            let length = octets.len();
            format!(in alloc; "repeat {place} length {length}\n")
        }
        Output::Sealed {
            child,
            number,
            octets,
        } => {
            let length = octets.len();
            format!(in alloc; "sealed {place} child {child} number {number} length {length}\n")
        }
        Output::Counted { ike, child, closed } => of_counted(alloc, *ike, *child, *closed),
        Output::Ticked { requests, closed } => {
            of_moment(alloc, requests.as_slice(), closed.as_slice(), place)
        }
        Output::Up {
            child,
            number,
            packet,
        } => {
            let packet = hex_text(alloc, packet)?;
            format!(in alloc; "up child {child} number {number} {packet}\n")
        }
        Output::Dummy { child, number } => {
            format!(in alloc; "dummy child {child} number {number}\n")
        }
        Output::Clear { packet } => {
            let packet = hex_text(alloc, packet)?;
            format!(in alloc; "clear {packet}\n")
        }
        Output::Discarded => String::from_str(alloc, "discarded\n"),
        Output::Done => String::from_str(alloc, "done\n"),
        Output::Dropped { reason } => {
            let number = reason.code();
            format!(in alloc; "dropped E{number}\n")
        }
        Output::Refused { reason } => {
            let number = reason.code();
            format!(in alloc; "refused E{number}\n")
        }
    }
}

// The lines of what a tick brought; where that is nothing, a line that says so.
fn of_moment(
    alloc: Global,
    requests: &[Resent],
    closed: &[u32],
    place: usize,
) -> Result<String, AllocError> {
    if requests.is_empty() && closed.is_empty() {
        return String::from_str(alloc, "ticked\n");
    }
    let mut text = String::new(alloc);
    for (index, request) in requests.iter().enumerate() {
        let place = place.saturating_add(index);
        let ike = request.ike;
        let length = request.octets.len();
        let line = format!(in alloc; "request {place} ike {ike} length {length}\n")?;
        text.push_str(line.as_str())?;
    }
    for ike in closed {
        let line = format!(in alloc; "closed ike {ike}\n")?;
        text.push_str(line.as_str())?;
    }
    Ok(text)
}

fn of_counted(
    alloc: Global,
    ike: u32,
    child: Option<u32>,
    closed: Option<u32>,
) -> Result<String, AllocError> {
    let closed = of_end(alloc, closed)?;
    match child {
        Some(child) => format!(in alloc; "counted ike {ike} child {child}\n{closed}"),
        None => format!(in alloc; "counted ike {ike}\n{closed}"),
    }
}

// The line of an IKE SA that was closed, if one was.
fn of_end(alloc: Global, closed: Option<u32>) -> Result<String, AllocError> {
    match closed {
        Some(ike) => format!(in alloc; "closed ike {ike}\n"),
        None => Ok(String::new(alloc)),
    }
}

/// The lines of all pairs of a table, by rising serial.
pub fn of_table(alloc: Global, table: &Table) -> Result<String, AllocError> {
    let mut text = String::new(alloc);
    let mut serial = 0;
    for _ in 0..u32::MAX {
        let Some(pair) = table.after(serial) else {
            break;
        };
        serial = pair.serial;
        text.push_str(of_pair(alloc, pair)?.as_str())?;
    }
    if text.is_empty() {
        text.push_str("empty\n")?;
    }
    Ok(text)
}

fn of_pair(alloc: Global, pair: &Pair) -> Result<String, AllocError> {
    let (serial, ike) = (pair.serial, pair.ike);
    let inbound = pair.inbound.spi();
    let outbound = pair.outbound.spi();
    let state = match pair.state {
        State::Live => "live",
        State::Deleting => "deleting",
    };
    format!(in alloc; "pair {serial} ike {ike} in {inbound:08x} out {outbound:08x} {state}\n")
}

/// The line of two datagrams that were compared.
pub fn of_comparison(alloc: Global, is_same: bool) -> Result<String, AllocError> {
    if is_same {
        String::from_str(alloc, "same yes\n")
    } else {
        String::from_str(alloc, "same no\n")
    }
}

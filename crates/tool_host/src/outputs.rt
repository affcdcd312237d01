//! The frames that answer: what came of an input.
use crate::{FrameFault, Stop};
use byteorder::{BigEndian, ByteOrder};
use gateway::{Output, Traced, Transmit};
use std::alloc::Global;

// The kind of the answer to a configuration that is taken.
const READY: u8 = 0;

// The kind of the answer to a malformed frame.
const MALFORMED: u8 = 14;

// The ways of what is to be sent: by UDP, from port 500 to port 500, and by IP, as protocol 50.
const BY_UDP: u8 = 1;

const BY_IP: u8 = 2;

// What stands for no time.
const NO_MOMENT: u64 = u64::MAX;

/// The answer to a configuration that is taken: a kind alone.
pub const READY_FRAME: &[u8] = &[READY];

/// The answer to a malformed frame: its kind, and the fault's text.
pub fn malformed(alloc: Global, fault: FrameFault) -> Result<Vec<u8>, Stop> {
    let text = fault.to_string(alloc)?;
    let mut frame = Vec::new(alloc);
    frame.push(MALFORMED)?;
    frame.extend_from_slice(text.as_bytes())?;
    Ok(frame)
}

/// The answer to an input, with the least time at which a tick does anything: its kind and its fields.
pub fn answer(alloc: Global, traced: &Traced<'_>, next: Option<u64>) -> Result<Vec<u8>, Stop> {
    let mut frame = Vec::new(alloc);
    append_head(&mut frame, traced, next)?;
    append_closed(&mut frame, &traced.output)?;
    append_datagrams(&mut frame, &traced.output)?;
    frame.extend_from_slice(packet_in(&traced.output))?;
    Ok(frame)
}

// The kind and the fields of fixed size. A serial or a number that is 0 names nothing.
fn append_head(frame: &mut Vec<u8>, traced: &Traced<'_>, next: Option<u64>) -> Result<(), Stop> {
    let output = &traced.output;
    frame.extend_from_slice(&[kind_of(output), code_of(output)])?;
    append_u32(frame, ike_of(traced))?;
    append_u32(frame, child_of(traced))?;
    append_u64(frame, number_of(output))?;
    append_u64(frame, next.unwrap_or(NO_MOMENT))
}

fn append_u32(frame: &mut Vec<u8>, number: u32) -> Result<(), Stop> {
    let mut octets = [0; 4];
    BigEndian::write_u32(&mut octets, number);
    Ok(frame.extend_from_slice(&octets)?)
}

fn append_u64(frame: &mut Vec<u8>, number: u64) -> Result<(), Stop> {
    let mut octets = [0; 8];
    BigEndian::write_u64(&mut octets, number);
    Ok(frame.extend_from_slice(&octets)?)
}

fn kind_of(output: &Output<'_>) -> u8 {
    match output {
        Output::Reply { .. } => 1,
        Output::Repeat { .. } => 2,
        Output::Request { .. } => 3,
        Output::Counted { .. } => 4,
        Output::Ticked { .. } => 5,
        Output::Done => 6,
        Output::Up { .. } => 7,
        Output::Dummy { .. } => 8,
        Output::Sealed { .. } => 9,
        Output::Clear { .. } => 10,
        Output::Discarded => 11,
        Output::Dropped { .. } => 12,
        Output::Refused { .. } => 13,
    }
}

// The E number of what is dropped or refused.
fn code_of(output: &Output<'_>) -> u8 {
    match output.reason() {
        Some(reason) => reason.code(),
        None => 0,
    }
}

// The IKE SA of what is sent or counted.
fn ike_of(traced: &Traced<'_>) -> u32 {
    match &traced.output {
        Output::Reply { .. } | Output::Repeat { .. } => sent_under(traced),
        Output::Request { ike, .. } | Output::Counted { ike, .. } => *ike,
        _ => 0,
    }
}

// The child that a packet is of, or that was made.
fn child_of(traced: &Traced<'_>) -> u32 {
    match &traced.output {
        Output::Reply { .. } => made_in(traced),
        Output::Counted { child, .. } => child.unwrap_or(0),
        Output::Up { child, .. } | Output::Dummy { child, .. } | Output::Sealed { child, .. } => {
            *child
        }
        _ => 0,
    }
}

// The sequence number of an ESP packet.
fn number_of(output: &Output<'_>) -> u64 {
    match output {
        Output::Up { number, .. } | Output::Dummy { number, .. } | Output::Sealed { number, .. } =>
            *number,
        _ => 0,
    }
}

// The IKE SA under whose keys a message was sent.
fn sent_under(traced: &Traced<'_>) -> u32 {
    match traced.trace.sent {
        Some(mark) => mark.ike,
        None => 0,
    }
}

// The child that was made.
fn made_in(traced: &Traced<'_>) -> u32 {
    match traced.trace.child {
        Some(child) => child.serial,
        None => 0,
    }
}

// The IKE SAs that were closed: their count, and their serials.
fn append_closed(frame: &mut Vec<u8>, output: &Output<'_>) -> Result<(), Stop> {
    match output {
        Output::Reply {
            closed: Some(serial),
            ..
        }
        | Output::Counted {
            closed: Some(serial),
            ..
        } => append_serials(frame, &[*serial]),
        Output::Ticked { closed, .. } => append_serials(frame, closed.as_slice()),
        _ => append_serials(frame, &[]),
    }
}

fn append_serials(frame: &mut Vec<u8>, serials: &[u32]) -> Result<(), Stop> {
    append_count(frame, serials.len())?;
    for serial in serials {
        append_u32(frame, *serial)?;
    }
    Ok(())
}

// What is to be sent: its count, and then each.
fn append_datagrams(frame: &mut Vec<u8>, output: &Output<'_>) -> Result<(), Stop> {
    append_count(frame, output.datagrams().count())?;
    for datagram in output.datagrams() {
        match datagram {
            Transmit::Ike(octets) => append_datagram(frame, BY_UDP, octets)?,
            Transmit::Esp(octets) => append_datagram(frame, BY_IP, octets)?,
        }
    }
    Ok(())
}

// A way, a length and octets.
fn append_datagram(frame: &mut Vec<u8>, way: u8, octets: &[u8]) -> Result<(), Stop> {
    frame.push(way)?;
    append_count(frame, octets.len())?;
    frame.extend_from_slice(octets)?;
    Ok(())
}

// A count or a length, in 4 octets.
fn append_count(frame: &mut Vec<u8>, count: usize) -> Result<(), Stop> {
    match u32::try_from(count) {
        Ok(count) => append_u32(frame, count),
        Err(_) => Err(Stop::Size),
    }
}

// What goes up or on.
fn packet_in<'a>(output: &Output<'a>) -> &'a [u8] {
    match output {
        Output::Up { packet, .. } | Output::Clear { packet } => packet,
        _ => &[],
    }
}

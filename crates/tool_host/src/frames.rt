//! Frames: a length of 4 octets, and so many octets behind it, of which the first is the kind.

use crate::Stop;
use byteorder::{BigEndian, ByteOrder};
use gw_console::write_whole;
use std::io::{ErrorKind, Read, Write};

/// The most octets that a frame has, its kind with them.
pub const FRAME_LIMIT: u32 = 1_048_576;

/// The next frame of the input, which replaces what stood in `frame`; whether there was one.
/// [`Stop::Cut`] where the input ends inside it, [`Stop::Size`], [`Stop::Unread`], [`Stop::Memory`].
pub fn read_frame<R: Read>(reader: &mut R, frame: &mut Vec<u8>) -> Result<bool, Stop> {
    let Some(first) = first_octet(reader)? else {
        return Ok(false);
    };
    let mut others = [0; 3];
    fill(reader, &mut others)?;
    let [second, third, fourth] = others;
    let size = BigEndian::read_u32(&[first, second, third, fourth]);
    if size == 0 || size > FRAME_LIMIT {
        return Err(Stop::Size);
    }
    frame.clear();
    frame.resize(size as usize, 0)?;
    fill(reader, frame)?;
    Ok(true)
}

// The first octet of a frame; none where the input has ended.
fn first_octet<R: Read>(reader: &mut R) -> Result<Option<u8>, Stop> {
    let mut octet = [0];
    for _ in 0..u64::MAX {
        match reader.read(&mut octet) {
            Ok(0) => return Ok(None),
            Ok(_) => return Ok(Some(octet[0])),
            Err(fault) if fault.kind() == ErrorKind::Interrupted => {}
            Err(_) => return Err(Stop::Unread),
        }
    }
    Err(Stop::Unread)
}

// Reads until the octets are full.
fn fill<R: Read>(reader: &mut R, octets: &mut [u8]) -> Result<(), Stop> {
    match reader.read_exact(octets) {
        Ok(()) => Ok(()),
        Err(fault) if fault.kind() == ErrorKind::UnexpectedEof => Err(Stop::Cut),
        Err(_) => Err(Stop::Unread),
    }
}

/// Writes a frame: the length of its kind and body, and these. [`Stop::Size`] where they have 2^32
/// octets or more, then [`Stop::Unwritten`].
pub fn write_frame<W: Write>(writer: &mut W, frame: &[u8]) -> Result<(), Stop> {
    let Ok(size) = u32::try_from(frame.len()) else {
        return Err(Stop::Size);
    };
    let mut length = [0; 4];
    BigEndian::write_u32(&mut length, size);
    if write_whole(writer, &length).is_err() || write_whole(writer, frame).is_err() {
        return Err(Stop::Unwritten);
    }
    Ok(())
}

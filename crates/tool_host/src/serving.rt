//! The frames of the input, one after the other.
use crate::Stop;
use crate::frames::{read_frame, write_frame};
use crate::inputs::Given;
use crate::outputs::{READY_FRAME, answer, malformed};
use crate::settings::gateway_of;
use caller_peer::PeerCaller;
use gateway::Gateway;
use std::alloc::Global;
use std::io::{Read, Write};

/// Reads a configuration and inputs, and answers each, until the input ends.
pub fn serve<R: Read, W: Write>(alloc: Global, reader: &mut R, writer: &mut W) -> Result<(), Stop> {
    let mut frame = Vec::new(alloc);
    if !read_frame(reader, &mut frame)? {
        return Ok(());
    }
    let mut gateway = gateway_of(alloc, &frame)?;
    write_frame(writer, READY_FRAME)?;
    for _ in 0..u64::MAX {
        if !read_frame(reader, &mut frame)? {
            break;
        }
        write_frame(writer, &take(alloc, &mut gateway, &frame)?)?;
    }
    Ok(())
}

// Gives the gateway what a frame spells, and answers it.
fn take(alloc: Global, gateway: &mut Gateway<PeerCaller>, frame: &[u8]) -> Result<Vec<u8>, Stop> {
    let given = match Given::read(frame) {
        Ok(given) => given,
        Err(fault) => return malformed(alloc, fault),
    };
    let traced = gateway.traced_step(alloc, &given.input());
    answer(alloc, &traced, gateway.next_moment())
}

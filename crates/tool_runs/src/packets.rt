//! The packets that go through, and whether they did.
use caller_script::ScriptCaller;
use gateway::{Gateway, Input, Output, run};
use std::alloc::Global;

/// Which of the two gateways is timed.
#[derive(Clone, Copy)]
pub enum Side {
    /// The one that seals.
    Out,
    /// The one that opens.
    In,
}

// The header of an IPv4 packet of so many octets, from 10.0.0.1 to 10.1.0.1, with a protocol that has
// no ports.
fn header(octets: u16) -> [u8; 20] {
    let [high, low] = octets.to_be_bytes();
    [
        0x45, 0, high, low, 0, 0, 0, 0, 64, 1, 0, 0, 10, 0, 0, 1, 10, 1, 0, 1,
    ]
}

/// A packet of so many octets, 20 at least.
pub fn packet(alloc: Global, octets: usize) -> Option<Vec<u8>> {
    let length = u16::try_from(octets).ok()?;
    let mut packet = Vec::with_capacity(alloc, octets).ok()?;
    for octet in header(length) {
        packet.push(octet).ok()?;
    }
    for _ in packet.len()..octets {
        packet.push(7).ok()?;
    }
    Some(packet)
}

/// These packets on their way out.
pub fn outward<'a>(alloc: Global, packets: &'a [Vec<u8>]) -> Option<Vec<Input<'a>>> {
    let mut inputs = Vec::new(alloc);
    for packet in packets {
        inputs.push(Input::Outward { packet }).ok()?;
    }
    Some(inputs)
}

/// These ESP packets, as they come.
pub fn arriving<'a>(alloc: Global, packets: &'a [Vec<u8>]) -> Option<Vec<Input<'a>>> {
    let mut inputs = Vec::new(alloc);
    for octets in packets {
        inputs.push(Input::Esp { octets }).ok()?;
    }
    Some(inputs)
}

/// The ESP packets that a gateway makes of these inputs.
pub fn sealed(
    alloc: Global,
    gateway: &mut Gateway<ScriptCaller>,
    inputs: &[Input<'_>],
) -> Option<Vec<Vec<u8>>> {
    let mut sealed = Vec::new(alloc);
    for input in inputs {
        let Output::Sealed { octets, .. } = gateway.step(alloc, input) else {
            return None;
        };
        sealed.push(octets.into_vec()).ok()?;
    }
    Some(sealed)
}

/// Gives a gateway the inputs, one by one or as one list, and keeps the outputs.
pub fn give<'a>(
    alloc: Global,
    gateway: &mut Gateway<ScriptCaller>,
    inputs: &[Input<'a>],
    as_list: bool,
    outputs: &mut Vec<Output<'a>>,
) -> Option<()> {
    if as_list {
        return run(alloc, gateway, inputs, outputs).ok();
    }
    for input in inputs {
        outputs.push(gateway.step(alloc, input)).ok()?;
    }
    Some(())
}

/// Whether each packet went through: a sealed one out, or what one carried up.
pub fn went_through(outputs: &[Output<'_>]) -> bool {
    outputs.iter().all(|output| matches!(output, Output::Sealed { .. } | Output::Up { .. }))
}

//! A thousand ESP packets that come while all memory is refused, and datagrams that are no message of IKE.
use crate::faulty::{count_told, datagrams};
use crate::link::Trouble;
use caller_script::ScriptCaller;
use gateway::{Gateway, Input, Output, RunFault, run};
use std::alloc::Global;
use test_samples::{Both, packet_out, sent};

/// How many packets come.
pub const COUNT: usize = 1000;

// So many octets are asked for where all that is asked for afterwards is to be refused, and once more where it
// is to be given again. Nothing else asks for as many.
const MARK: usize = 7_777_777;

/// What came of it.
#[derive(Clone, Copy)]
pub struct Found {
    /// How many packets went up.
    pub up: usize,
    /// Why the list was not taken to its end.
    pub stop: RunFault,
    /// How many datagrams that are no message were dropped by their own refusals.
    pub told: usize,
}

/// Two gateways hold a Child SA, and one sends the packets; then memory is refused, and they come to the other.
pub fn play(alloc: Global) -> Result<Found, Trouble> {
    let mut both = Both::connected(alloc, true)?;
    play_between(alloc, &mut both.a, &mut both.b)
}

// A function of its own, so that what drops two gateways does nothing else.
fn play_between(
    alloc: Global,
    from: &mut Gateway<ScriptCaller>,
    to: &mut Gateway<ScriptCaller>,
) -> Result<Found, Trouble> {
    let packets = sealed(alloc, from)?;
    let inputs = lend(alloc, &packets)?;
    let faulty = datagrams(alloc)?;
    mark(alloc)?;
    let up = count_up(alloc, to, &inputs);
    let stop = stop(alloc, to, &inputs);
    let told = count_told(alloc, to, &faulty);
    mark(alloc)?;
    match stop {
        Some(stop) => Ok(Found { up, stop, told }),
        None => Err(Trouble::Other),
    }
}

// The packets that a gateway sends.
fn sealed(alloc: Global, gateway: &mut Gateway<ScriptCaller>) -> Result<Vec<Vec<u8>>, Trouble> {
    let mut packets = Vec::with_capacity(alloc, COUNT)?;
    for number in 0..COUNT as u64 {
        packets.push(sent(gateway, alloc, &packet_out(alloc, number)?))?;
    }
    Ok(packets)
}

// They come.
fn lend(alloc: Global, packets: &[Vec<u8>]) -> Result<Vec<Input<'_>>, Trouble> {
    let mut inputs = Vec::with_capacity(alloc, packets.len())?;
    for octets in packets {
        inputs.push(Input::Esp {
            octets: octets.as_slice(),
        })?;
    }
    Ok(inputs)
}

// How many of them go up, each at a step of its own.
fn count_up(alloc: Global, gateway: &mut Gateway<ScriptCaller>, inputs: &[Input<'_>]) -> usize {
    let mut up = 0usize;
    for input in inputs {
        if let Output::Up { .. } = gateway.step(alloc, input) {
            up = up.saturating_add(1);
        }
    }
    up
}

// Why a list of them is not taken to its end.
fn stop(
    alloc: Global,
    gateway: &mut Gateway<ScriptCaller>,
    inputs: &[Input<'_>],
) -> Option<RunFault> {
    let mut outputs = Vec::new(alloc);
    run(alloc, gateway, inputs, &mut outputs).err()
}

fn mark(alloc: Global) -> Result<(), Trouble> {
    let _marked = Vec::<u8>::with_capacity(alloc, MARK)?;
    Ok(())
}

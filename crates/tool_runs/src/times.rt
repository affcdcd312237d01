//! How long packets take.
use crate::packets::{Side, arriving, give, outward, packet, sealed, went_through};
use caller_script::ScriptCaller;
use gateway::{Gateway, Input, Output};
use std::time::Instant;
use test_samples::Both;

/// The nanoseconds of the fastest round, in which a gateway takes so many packets of so many octets. Lists
/// begin lanes at `lanes` packets.
pub fn best(
    rt: &HostRuntime,
    side: Side,
    as_list: bool,
    lanes: usize,
    rounds: usize,
    count: usize,
    octets: usize,
) -> Option<u128> {
    let packet = packet(rt.alloc(), octets)?;
    let packets = vec![in rt.alloc(); packet; count].ok()?;
    let mut both = Both::connected(rt.alloc(), true).ok()?;
    both.a.begin_lanes_at(lanes);
    both.b.begin_lanes_at(lanes);
    let mut best = u128::MAX;
    for _ in 0..rounds {
        best = time_of_round(rt, &mut both, side, as_list, &packets)?.min(best);
    }
    Some(best)
}

fn time_of_round(
    rt: &HostRuntime,
    both: &mut Both,
    side: Side,
    as_list: bool,
    packets: &[Vec<u8>],
) -> Option<u128> {
    let inputs = outward(rt.alloc(), packets)?;
    match side {
        Side::Out => time_to_take(rt, &mut both.a, &inputs, as_list),
        Side::In => {
            let datagrams = sealed(rt.alloc(), &mut both.a, &inputs)?;
            let arriving = arriving(rt.alloc(), &datagrams)?;
            time_to_take(rt, &mut both.b, &arriving, as_list)
        }
    }
}

// The nanoseconds that a gateway takes for the inputs. Room for the outputs is there before.
fn time_to_take<'a>(
    rt: &HostRuntime,
    gateway: &mut Gateway<ScriptCaller>,
    inputs: &[Input<'a>],
    as_list: bool,
) -> Option<u128> {
    let mut outputs: Vec<Output<'a>> = Vec::with_capacity(rt.alloc(), inputs.len()).ok()?;
    let start = Instant::now(rt).ok()?;
    give(rt.alloc(), gateway, inputs, as_list, &mut outputs)?;
    let time = start.elapsed(rt).ok()?.as_nanos();
    if went_through(&outputs) {
        Some(time)
    } else {
        None
    }
}

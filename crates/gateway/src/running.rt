//! A list of inputs.
ghost use Rattle.std.specs.Prelude.{◌≡◌, ◌+◌, ◌≤◌, OnOk, IfErr, IfSome, IsOk, length, map, vec_len};
ghost use Rattle.std.specs.Vec.{vec_capacity};
ghost use Rattle.esp.specs.Precomputed.{ArePrecomputed, IsPrecomputed};
ghost use Rattle.gateway.specs.Beside.{HasOneResultBeside};
ghost use Rattle.gateway.specs.Carrying.{EachPairIsOfAnEstablished};
ghost use Rattle.gateway.specs.Groups.{TakesFirst, packet_in, packets_in};
ghost use Rattle.gateway.specs.Inputs.{input_view};
ghost use Rattle.gateway.specs.Inside.{LiesInside};
ghost use Rattle.gateway.specs.Laying.{TakesNext, finished_from};
ghost use Rattle.gateway.specs.LeavingOut.{HasOneResultWithout};
ghost use Rattle.gateway.specs.Outputs.{output_view};
ghost use Rattle.gateway.specs.Runs.{RunsFirst, Stops};
ghost use Rattle.gateway.specs.Steps.{Steps};
ghost use Rattle.effects.specs.Taking.{meaning_of};

use crate::ahead::gain_ahead;
use crate::laws::{
    every_run_keeps_its_promises, strangers_can_be_left_out, what_has_no_effect_can_be_left_out,
};
use crate::{Gateway, Input, Output, RunFault};
use esp::{FEW, GROUP, Precomputed, no_values, value_at};
use std::alloc::Global;
use suite::{Agreement, Proof, Sealer};

/// Takes inputs in order, and appends an output for each.
///
/// Ends with [`RunFault::NoRoom`] (E38) and the number of inputs taken, where there was no memory for the
/// place of the next output. That place is reserved before the input is taken: no input is taken without
/// its output.
///
/// ICVs of up to 64 inputs at a time are computed side by side, where that is faster, from the table as it
/// is before them: for ESP packets whose pair is there and whose number is not taken. Each packet is then
/// verified in its turn, with the table as it is by then. An ICV that was computed under another key or for
/// another number is not used. The ICVs of outbound packets that come one after the other are computed side
/// by side as well, once all of these packets have their sequence numbers, and before any other input is
/// taken. Neither takes memory.
///
/// Over every list of inputs:
///
/// - Under an IKE SA each Message ID is processed at most once, exactly where such a request is delivered
///   new.
/// - Each retransmission that is still remembered gets the octets of the first response.
/// - What is due (a retransmission, an IKE SA that is closed or removed) comes with the first `Tick` that
///   reaches it, and with no other input.
/// - Each ESP packet that was sent to a Child SA is accepted at most once. Where no ICV is forged, that is at
///   its first arrival while the child's pair is installed. Its number must be rightly recovered, inside or
///   above the window, and not taken before the list. The output is the verdict on its payload.
/// - No other ESP packet delivers anything.
/// - An inbound SPI names one SA pair for ever.
/// - Each IKE SA that is established after an input was so before the list, or its peer proved itself by
///   one of these inputs, under the same keys.
/// - Each SA pair, and each ESP packet that is accepted or sealed, is of an IKE SA that is established then:
///   since before the list, or since its peer proved itself by one of these inputs. Its Child SA was made
///   under the same keys. Once that IKE SA is closed nothing more is carried for it. All this asks that
///   each pair is of an established IKE SA before the list. That holds of every gateway (`standing`).
/// - The selectors of each SA pair, and of each Child SA that is asked for, lie inside one entry that
///   protects, as before the list (`inside`).
/// - What comes in and passes no check under keys that are held changes nothing, but for IKE SAs that are
///   just beginning.
/// - An input that is refused on allocation failure counts as lost.
/// - One list has one result. What is strange, refused or without effect for another reason can be left out
///   of it: all else is answered the same, and the gateway holds the same afterwards, unless memory runs out.
/// - So can strangers' requests for an IKE SA, up to the serials of IKE SAs, as long as no limit is reached,
///   what stays has nothing to do with what they began, and they go no further (`beside`;
///   [`strangers_can_be_left_out`](crate::laws::strangers_can_be_left_out) says it whole).
pub fn run<'a, C: Sealer + Agreement + Proof>(
    alloc: Global,
    gateway: &mut Gateway<C>,
    inputs: &[Input<'a>],
    outputs: &mut Vec<Output<'a>>,
) -> Result<(), RunFault>
    ensures all { OnOk result (RunsFirst
        (meaning_of C.Sealer C.Agreement C.Proof)
        (length inputs.now) (map input_view inputs.now) gateway.old outputs.old.items gateway.new outputs.new.items) }
    ensures stopped { IfErr result (λ fault. Stops
        (meaning_of C.Sealer C.Agreement C.Proof)
        (map input_view inputs.now) gateway.old outputs.old.items fault gateway.new outputs.new.items) }
    ensures room { vec_len outputs.old + length inputs.now ≤ vec_capacity outputs.old → IsOk result }
    ensures determined { HasOneResultWithout
        (meaning_of C.Sealer C.Agreement C.Proof)
        (map input_view inputs.now) gateway.old }
    ensures beside { HasOneResultBeside
        (meaning_of C.Sealer C.Agreement C.Proof)
        (map input_view inputs.now) gateway.old }
    ensures standing { EachPairIsOfAnEstablished gateway.old }
    ensures inside { LiesInside gateway.old }
{
    every_run_keeps_its_promises::<C>();
    strangers_can_be_left_out::<C>();
    what_has_no_effect_can_be_left_out::<C>();
    gateway.tell_their_lengths(inputs);
    gateway.invariants_hold();
    for group in 0..inputs.len().div_ceil(GROUP) {
        let start = GROUP * group;
        let count = (inputs.len() - start).min(GROUP);
        let taken = run_group(alloc, gateway, &inputs[start..start + count], outputs);
        if taken < count {
            return Err(RunFault::NoRoom {
                done: start + taken,
            });
        }
    }
    Ok(())
}

// Takes a group of inputs in order, and returns how many it took. Most lists have few inputs and need no ICVs
// ahead.
fn run_group<'a, C: Sealer + Agreement + Proof>(
    alloc: Global,
    gateway: &mut Gateway<C>,
    inputs: &[Input<'a>],
    outputs: &mut Vec<Output<'a>>,
) -> usize
    requires { length inputs.now ≤ GROUP }
    ensures first { TakesFirst
        (meaning_of C.Sealer C.Agreement C.Proof)
        result (map input_view inputs.now) gateway.old outputs.old.items gateway.new outputs.new.items }
    ensures room { vec_len outputs.old + length inputs.now ≤ vec_capacity outputs.old
        → result ≡ length inputs.now }
    ensures capacity { vec_capacity outputs.old ≤ vec_capacity outputs.new }
    ensures size { vec_len outputs.new ≡ vec_len outputs.old + result }
{
    if !gain_ahead(inputs, gateway.lanes()) {
        return take_each(alloc, gateway, inputs, &[], outputs);
    }
    if inputs.len() <= FEW {
        take_by_lanes::<FEW, C>(alloc, gateway, inputs, outputs)
    } else {
        take_by_lanes::<GROUP, C>(alloc, gateway, inputs, outputs)
    }
}

// The same with ICVs ahead, and with room for `N` of them. Not inlined, so that a few inputs don't clear the
// long array.
#[inline(never)]
fn take_by_lanes<'a, const N: usize, C: Sealer + Agreement + Proof>(
    alloc: Global,
    gateway: &mut Gateway<C>,
    inputs: &[Input<'a>],
    outputs: &mut Vec<Output<'a>>,
) -> usize
    requires group { N ≤ GROUP }
    requires few { length inputs.now ≤ N }
    ensures first { TakesFirst
        (meaning_of C.Sealer C.Agreement C.Proof)
        result (map input_view inputs.now) gateway.old outputs.old.items gateway.new outputs.new.items }
    ensures room { vec_len outputs.old + length inputs.now ≤ vec_capacity outputs.old
        → result ≡ length inputs.now }
    ensures capacity { vec_capacity outputs.old ≤ vec_capacity outputs.new }
    ensures size { vec_len outputs.new ≡ vec_len outputs.old + result }
{
    let mut ahead = no_values::<N>();
    gateway.set_ahead(inputs, &mut ahead);
    take_each(alloc, gateway, inputs, &ahead, outputs)
}

// The same with those ICVs that were computed ahead. Reserves the place of an output before its input.
//
// The ESP packets that were laid for the outputs from `start` on get their ICVs together: before an input of
// another kind is taken, and where the list ends or has to stop.
fn take_each<'a, C: Sealer + Agreement + Proof>(
    alloc: Global,
    gateway: &mut Gateway<C>,
    inputs: &[Input<'a>],
    ahead: &[Option<Precomputed>],
    outputs: &mut Vec<Output<'a>>,
) -> usize
    requires few { length inputs.now ≤ GROUP }
    requires ahead { ArePrecomputed (packets_in (map input_view inputs.now)) ahead.now }
    ensures first { TakesFirst
        (meaning_of C.Sealer C.Agreement C.Proof)
        result (map input_view inputs.now) gateway.old outputs.old.items gateway.new outputs.new.items }
    ensures room { vec_len outputs.old + length inputs.now ≤ vec_capacity outputs.old
        → result ≡ length inputs.now }
    ensures capacity { vec_capacity outputs.old ≤ vec_capacity outputs.new }
    ensures size { vec_len outputs.new ≡ vec_len outputs.old + result }
{
    let mut start = outputs.len();
    for (done, input) in inputs.iter().enumerate() {
        if outputs.reserve(1).is_err() {
            gateway.finish(&mut outputs[start..]);
            return done;
        }
        let value = value_at(ahead, done);
        start = take_next(alloc, gateway, input, value, outputs, start);
    }
    if start < outputs.len() {
        gateway.finish(&mut outputs[start..]);
    }
    inputs.len()
}

// Takes an input, for whose output there is a place. Before and after it, the ESP packets of the
// outputs from `start` on, or from the place that is returned on, have no ICVs yet. An outbound packet
// is only laid. Before an input of another kind those packets get their ICVs.
fn take_next<'a, C: Sealer + Agreement + Proof>(
    alloc: Global,
    gateway: &mut Gateway<C>,
    input: &Input<'a>,
    ahead: Option<Precomputed>,
    outputs: &mut Vec<Output<'a>>,
    start: usize,
) -> usize
    requires ahead { IfSome ahead (IsPrecomputed (packet_in (input_view input.now))) }
    requires room { vec_len outputs.old + 1 ≤ vec_capacity outputs.old }
    requires within { start ≤ vec_len outputs.old }
    requires few { vec_len outputs.old ≤ start + GROUP }
    ensures next { TakesNext
        (meaning_of C.Sealer C.Agreement C.Proof)
        (input_view input.now)
        gateway.old (finished_from start gateway.old.table.pairs outputs.old.items)
        gateway.new (finished_from result gateway.new.table.pairs outputs.new.items) }
    ensures begins { start ≤ result }
    ensures ends { result ≤ vec_len outputs.new }
    ensures capacity { vec_capacity outputs.old ≤ vec_capacity outputs.new }
    ensures size { vec_len outputs.new ≡ vec_len outputs.old + 1 }
{
    gateway.invariants_hold();
    if let Input::Outward { packet } = *input {
        let laid = gateway.lay(alloc, packet);
        outputs.push_reserved(laid);
        return start;
    }
    if start < outputs.len() {
        gateway.finish(&mut outputs[start..]);
    }
    let output = output_of(alloc, gateway, input, ahead);
    outputs.push_reserved(output);
    outputs.len()
}

// Takes an input, and returns its output without the trace, which an ESP packet has none of.
fn output_of<'a, C: Sealer + Agreement + Proof>(
    alloc: Global,
    gateway: &mut Gateway<C>,
    input: &Input<'a>,
    ahead: Option<Precomputed>,
) -> Output<'a>
    requires { IfSome ahead (IsPrecomputed (packet_in (input_view input.now))) }
    ensures { Steps
        (meaning_of C.Sealer C.Agreement C.Proof gateway.old.caller)
        (input_view input.now) gateway.old (output_view result) gateway.new }
{
    if let Input::Esp { octets } = *input {
        return Output::of_arrival(gateway.receive_ahead(octets, ahead));
    }
    gateway.traced_step_ahead(alloc, input, ahead).output
}

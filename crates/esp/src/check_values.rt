//! ICVs of packets that lie one after the other, computed side by side.
ghost use Rattle.std.specs.Prelude.{◌≡◌, ℕ, ◌+◌, ◌^◌, ◌<◌, ◌≤◌, [], length, get_or, map, take};
ghost use Rattle.lanes.specs.Task.{icv_of};
ghost use Rattle.esp.specs.Laying.{AreHighHalves, covered_sizes, packets_size, values_in, with_values};
ghost use Rattle.esp.specs.Sealing.{FitsPacket, payloads_of};

use crate::load::messages_least;
use crate::packet::{CHECK, covered_size, high_half};
use crate::sa::Sa;
use lanes::{Task, icv_all};

/// How many ICVs are computed at once.
pub const GROUP: usize = 64;

/// How many packets a short list has, so many as there are lanes. Its arrays are as short: to fill longer ones
/// would take up to a tenth of its time.
pub const FEW: usize = 8;

/// Writes the ICVs of packets that lie one after the other and carry these payloads, with the sequence
/// numbers after `last`. `least` is from how many packets on that gains time.
pub fn write_check_values(
    association: &Sa,
    last: u64,
    payloads: &[&[u8]],
    packets: &mut [u8],
    least: usize,
)
    requires few { length payloads.now ≤ GROUP }
    requires fit { (i : ℕ) → i < length payloads.now → FitsPacket (get_or (payloads_of payloads.now) i []) }
    requires numbers { 1 ≤ length payloads.now → last + length payloads.now < 2 ^ 64 }
    requires size { packets_size (covered_sizes payloads.now) ≤ length packets.old }
    ensures { packets.new ≡ with_values (covered_sizes payloads.now)
        (values_in association.now last (covered_sizes payloads.now) packets.old) packets.old }
{
    if payloads.len() <= FEW {
        write_by_lanes::<FEW>(association, last, payloads, packets, least);
    } else {
        write_by_lanes::<GROUP>(association, last, payloads, packets, least);
    }
}

// The same with arrays for `N` packets. Not inlined, so that a short list doesn't clear the long ones.
#[inline(never)]
fn write_by_lanes<const N: usize>(
    association: &Sa,
    last: u64,
    payloads: &[&[u8]],
    packets: &mut [u8],
    least: usize,
)
    requires group { N ≤ GROUP }
    requires few { length payloads.now ≤ N }
    requires fit { (i : ℕ) → i < length payloads.now → FitsPacket (get_or (payloads_of payloads.now) i []) }
    requires numbers { 1 ≤ length payloads.now → last + length payloads.now < 2 ^ 64 }
    requires size { packets_size (covered_sizes payloads.now) ≤ length packets.old }
    ensures { packets.new ≡ with_values (covered_sizes payloads.now)
        (values_in association.now last (covered_sizes payloads.now) packets.old) packets.old }
{
    let count = payloads.len();
    let halves = high_halves::<N>(last, count);
    let mut values = [[0; CHECK]; N];
    compute_all(
        association,
        payloads,
        packets,
        &halves,
        &mut values[..count],
        least,
    );
    write_all(payloads, &values[..count], packets);
}

// Computes the ICV of each packet. A short list has a short array of tasks.
fn compute_all(
    association: &Sa,
    payloads: &[&[u8]],
    packets: &[u8],
    halves: &[[u8; 4]],
    values: &mut [[u8; CHECK]],
    least: usize,
)
    requires few { length payloads.now ≤ GROUP }
    requires halves { length payloads.now ≤ length halves.now }
    requires fit { (i : ℕ) → i < length payloads.now → FitsPacket (get_or (payloads_of payloads.now) i []) }
    requires size { packets_size (covered_sizes payloads.now) ≤ length packets.now }
    requires places { length values.old ≡ length payloads.now }
    ensures { (last : ℕ) → AreHighHalves last (length payloads.now) halves.now
        → values.new ≡ values_in association.now last (covered_sizes payloads.now) packets.now }
{
    if payloads.len() <= FEW {
        compute_few(association, payloads, packets, halves, values, least);
    } else {
        compute_group(association, payloads, packets, halves, values, least);
    }
}

// The same of a short list.
fn compute_few<'a>(
    association: &'a Sa,
    payloads: &[&[u8]],
    packets: &'a [u8],
    halves: &'a [[u8; 4]],
    values: &mut [[u8; CHECK]],
    least: usize,
)
    requires few { length payloads.now ≤ FEW }
    requires halves { length payloads.now ≤ length halves.now }
    requires fit { (i : ℕ) → i < length payloads.now → FitsPacket (get_or (payloads_of payloads.now) i []) }
    requires size { packets_size (covered_sizes payloads.now) ≤ length packets.now }
    requires places { length values.old ≡ length payloads.now }
    ensures { (last : ℕ) → AreHighHalves last (length payloads.now) halves.now
        → values.new ≡ values_in association.now last (covered_sizes payloads.now) packets.now }
{
    let mut tasks = [association.task(&[], &[0; 4]); FEW];
    set_tasks(&mut tasks, association, payloads, packets, halves);
    icv_all(&tasks[..payloads.len()], values, messages_least(least));
}

// The same of a longer list. Not inlined, so that a short list doesn't clear its array.
#[inline(never)]
fn compute_group<'a>(
    association: &'a Sa,
    payloads: &[&[u8]],
    packets: &'a [u8],
    halves: &'a [[u8; 4]],
    values: &mut [[u8; CHECK]],
    least: usize,
)
    requires few { length payloads.now ≤ GROUP }
    requires halves { length payloads.now ≤ length halves.now }
    requires fit { (i : ℕ) → i < length payloads.now → FitsPacket (get_or (payloads_of payloads.now) i []) }
    requires size { packets_size (covered_sizes payloads.now) ≤ length packets.now }
    requires places { length values.old ≡ length payloads.now }
    ensures { (last : ℕ) → AreHighHalves last (length payloads.now) halves.now
        → values.new ≡ values_in association.now last (covered_sizes payloads.now) packets.now }
{
    let mut tasks = [association.task(&[], &[0; 4]); GROUP];
    set_tasks(&mut tasks, association, payloads, packets, halves);
    icv_all(&tasks[..payloads.len()], values, messages_least(least));
}

// Sets the first tasks to what is asked of each packet: its covered octets, and the half of its sequence
// number that is not sent.
fn set_tasks<'a>(
    tasks: &mut [Task<'a>],
    association: &'a Sa,
    payloads: &[&[u8]],
    packets: &'a [u8],
    halves: &'a [[u8; 4]],
)
    requires halves { length payloads.now ≤ length halves.now }
    requires places { length payloads.now ≤ length tasks.old }
    requires fit { (i : ℕ) → i < length payloads.now → FitsPacket (get_or (payloads_of payloads.now) i []) }
    requires size { packets_size (covered_sizes payloads.now) ≤ length packets.now }
    ensures asked { (last : ℕ) → AreHighHalves last (length payloads.now) halves.now
        → map icv_of (take (length payloads.now) tasks.new)
        ≡ values_in association.now last (covered_sizes payloads.now) packets.now }
    ensures long { length tasks.new ≡ length tasks.old }
{
    let mut start = 0;
    for (place, payload) in payloads.iter().enumerate() {
        let end = start + covered_size(payload.len());
        tasks[place] = association.task(&packets[start..end], &halves[place]);
        start = end + CHECK;
    }
}

// The high halves of so many sequence numbers after `last`.
fn high_halves<const N: usize>(last: u64, count: usize) -> [[u8; 4]; N]
    requires few { count ≤ N }
    requires numbers { 1 ≤ count → last + count < 2 ^ 64 }
    ensures halves { AreHighHalves last count result }
    ensures long { length result ≡ N }
{
    let mut halves = [[0; 4]; N];
    for place in 0..count {
        halves[place] = high_half(last + 1 + place as u64);
    }
    halves
}

// Writes each ICV behind the octets that it covers.
fn write_all(payloads: &[&[u8]], values: &[[u8; CHECK]], packets: &mut [u8])
    requires fit { (i : ℕ) → i < length payloads.now → FitsPacket (get_or (payloads_of payloads.now) i []) }
    requires size { packets_size (covered_sizes payloads.now) ≤ length packets.old }
    requires places { length values.now ≡ length payloads.now }
    ensures { packets.new ≡ with_values (covered_sizes payloads.now) values.now packets.old }
{
    let mut start = 0;
    for (place, payload) in payloads.iter().enumerate() {
        let end = start + covered_size(payload.len());
        packets[end..end + CHECK].copy_from_slice(&values[place]);
        start = end + CHECK;
    }
}

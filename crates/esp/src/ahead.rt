//! ICVs of received packets, computed side by side before the packets are judged.
ghost use Rattle.std.specs.Prelude.{◌≡◌, ℕ, ◌-◌, ◌<◌, ◌≤◌, All, List, None, get_or, length, map, take};
ghost use Rattle.lanes.specs.Task.{icv_of};
ghost use Rattle.esp.specs.declared.sa.Sa.{Sa};
ghost use Rattle.esp.specs.Ahead.{AreAhead, HasAhead, IsAsked, value_asked};
ghost use Rattle.esp.specs.Delivery.{octets_of};

use crate::check_values::{FEW, GROUP};
use crate::load::messages_least;
use crate::packet::CHECK;
use crate::sa::Sa;
use lanes::{Task, icv_all};

/// A packet whose ICV is computed ahead.
#[derive(Clone, Copy)]
pub struct Asked {
    /// Its place in the group.
    pub place: usize,
    /// The sequence number that it has as the receiver is at the group's head.
    pub number: u64,
    /// The high half of that sequence number.
    pub half: [u8; 4],
}

/// An ICV that was computed ahead.
#[derive(Clone, Copy)]
pub struct Ahead {
    /// The sequence number that it was computed for.
    pub number: u64,
    /// The ICV of the packet with this sequence number.
    pub value: [u8; CHECK],
}

/// The ICV computed ahead for the packet at a place, if there is one.
pub fn ahead_at(ahead: &[Option<Ahead>], place: usize) -> Option<Ahead>
    ensures { result ≡ get_or ahead.now place None }
{
    match ahead.get(place) {
        Some(found) => *found,
        None => None,
    }
}

/// The ICVs of the packets that are asked for, each at its packet's place. `least` is from how many packets
/// on it gains time to compute them side by side, and the arrays have room for `N`.
pub fn values_ahead<const N: usize>(
    association: &Sa,
    packets: &[&[u8]],
    asked: &[Asked],
    least: usize,
) -> [Option<Ahead>; N]
    requires group { N ≤ GROUP }
    requires few { length asked.now ≤ N }
    requires room { length packets.now ≤ N }
    requires asked { All (IsAsked (octets_of packets.now)) asked.now }
    ensures right { AreAhead association.now (octets_of packets.now) result }
    ensures all { All (HasAhead result) asked.now }
{
    let mut values = [[0; CHECK]; N];
    let count = asked.len();
    if count <= FEW {
        compute_few(association, packets, asked, &mut values[..count], least);
    } else {
        compute_group(association, packets, asked, &mut values[..count], least);
    }
    placed::<N>(asked, &values[..count])
}

// Computes the ICVs of a few packets.
fn compute_few<'a>(
    association: &'a Sa,
    packets: &[&'a [u8]],
    asked: &'a [Asked],
    values: &mut [[u8; CHECK]],
    least: usize,
)
    requires few { length asked.now ≤ FEW }
    requires asked { All (IsAsked (octets_of packets.now)) asked.now }
    requires places { length values.old ≡ length asked.now }
    ensures { values.new ≡ map (value_asked association.now (octets_of packets.now)) asked.now }
{
    let mut tasks = [association.task(&[], &[0; 4]); FEW];
    set_tasks(&mut tasks, association, packets, asked);
    icv_all(&tasks[..asked.len()], values, messages_least(least));
}

// Computes the ICVs of the packets of a group. Not inlined, so that a few don't clear its array.
#[inline(never)]
fn compute_group<'a>(
    association: &'a Sa,
    packets: &[&'a [u8]],
    asked: &'a [Asked],
    values: &mut [[u8; CHECK]],
    least: usize,
)
    requires few { length asked.now ≤ GROUP }
    requires asked { All (IsAsked (octets_of packets.now)) asked.now }
    requires places { length values.old ≡ length asked.now }
    ensures { values.new ≡ map (value_asked association.now (octets_of packets.now)) asked.now }
{
    let mut tasks = [association.task(&[], &[0; 4]); GROUP];
    set_tasks(&mut tasks, association, packets, asked);
    icv_all(&tasks[..asked.len()], values, messages_least(least));
}

// Sets the first tasks to what is asked of each packet: its covered octets, and the half of its sequence
// number that is not sent.
fn set_tasks<'a>(
    tasks: &mut [Task<'a>],
    association: &'a Sa,
    packets: &[&'a [u8]],
    asked: &'a [Asked],
)
    requires places { length asked.now ≤ length tasks.old }
    requires asked { All (IsAsked (octets_of packets.now)) asked.now }
    ensures asked { map icv_of (take (length asked.now) tasks.new)
        ≡ map (value_asked association.now (octets_of packets.now)) asked.now }
    ensures long { length tasks.new ≡ length tasks.old }
{
    for (turn, one) in asked.iter().enumerate() {
        tasks[turn] = association.task(covered_of(packets[one.place]), &one.half);
    }
}

// The octets of a packet that its ICV covers.
fn covered_of(packet: &[u8]) -> &[u8]
    requires { CHECK ≤ length packet.now }
    ensures { result.now ≡ take (length packet.now - CHECK) packet.now }
{
    &packet[..packet.len() - CHECK]
}

// The values, each at the place of the packet that it was asked for.
fn placed<const N: usize>(asked: &[Asked], values: &[[u8; CHECK]]) -> [Option<Ahead>; N]
    requires same { length values.now ≡ length asked.now }
    requires places { All (λ one. one.place < N) asked.now }
    ensures right { (a : Sa) (packets : List (List ℕ))
        → values.now ≡ map (value_asked a packets) asked.now → AreAhead a packets result }
    ensures all { All (HasAhead result) asked.now }
{
    let mut ahead = [None; N];
    for (turn, one) in asked.iter().enumerate() {
        ahead[one.place] = Some(Ahead {
            number: one.number,
            value: values[turn],
        });
    }
    ahead
}

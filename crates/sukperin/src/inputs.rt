//! Inputs of a gateway.
ghost use Rattle.std.specs.Prelude.{◌≡◌, Some};
ghost use Rattle.gateway.specs.Inputs.{Ike, Esp, Inward, Start, Probe, DeleteChild, DeleteIke, Secret};
ghost use Rattle.gateway.specs.Inputs.{Tick, input_view};
ghost use Rattle.sukperin.specs.Inputs.{Takes, fresh_spelled, serial_named};
ghost use Rattle.sukperin.specs.Outward.{SendsBy, SendsIf};

use crate::end::End;
use crate::handle::SukHandle;
use crate::hosted::Hosted;
use crate::output::SukOutput;
use crate::refusal::Refusal;
use gateway::{Fresh, Input};
use std::alloc::Global;

/// Octets that were drawn anew for one input, which no other is to have.
#[repr(C)]
#[derive(Clone, Copy)]
pub struct SukFresh {
    /// The SPI of an IKE SA that the step may make; 0 names none.
    pub spi: u64,
    /// The nonce of an exchange.
    pub nonce: [u8; 32],
    /// The secret of a key agreement.
    pub secret: [u8; 32],
    /// What sealing a message uses.
    pub seal: [u8; 16],
}

impl SukFresh {
    // The same for the core.
    fn fresh(&self) -> Fresh
        ensures { result ≡ fresh_spelled self.now }
    {
        Fresh {
            spi: self.spi,
            nonce: self.nonce,
            secret: self.secret,
            seal: self.seal,
        }
    }
}

/// A datagram of IKE that came from an IPv4 address.
///
/// Answers 0 with what came of it, or 101 where the handle leads to no gateway. What a datagram is refused
/// for is told as an output of kind 12 or 13; then the gateway is as it was. So it is with all inputs.
#[unsafe(no_mangle)]
pub extern "C" fn suk_ike(
    alloc: Global,
    handle: &mut SukHandle,
    from: &[u8; 4],
    octets: &[u8],
    given: &SukFresh,
    out: &mut SukOutput,
) -> u32
    ensures { Takes (Ike from.now octets.now (fresh_spelled given.now)) handle.old.held.state result handle.new.held.state out.old out.new }
{
    let fresh = given.fresh();
    give(
        alloc,
        handle,
        &Input::Ike {
            from: *from,
            octets,
            fresh: &fresh,
        },
        out,
    )
}

/// The command to ask the peer for a Child SA by an entry of the policy, counted from 0: with a new IKE SA
/// where `ike` is 0, else an additional Child SA of the one with this serial.
#[unsafe(no_mangle)]
pub extern "C" fn suk_start(
    alloc: Global,
    handle: &mut SukHandle,
    ike: u32,
    entry: u32,
    given: &SukFresh,
    out: &mut SukOutput,
) -> u32
    ensures { Takes (Start (serial_named ike) entry (fresh_spelled given.now)) handle.old.held.state result handle.new.held.state out.old out.new }
{
    let fresh = given.fresh();
    give(
        alloc,
        handle,
        &Input::Start {
            ike: named(ike),
            entry,
            fresh: &fresh,
        },
        out,
    )
}

/// The command to ask the peer whether it is there, under the IKE SA with this serial.
#[unsafe(no_mangle)]
pub extern "C" fn suk_probe(
    alloc: Global,
    handle: &mut SukHandle,
    ike: u32,
    given: &SukFresh,
    out: &mut SukOutput,
) -> u32
    ensures { Takes (Probe ike (fresh_spelled given.now)) handle.old.held.state result handle.new.held.state out.old out.new }
{
    let fresh = given.fresh();
    give(alloc, handle, &Input::Probe { ike, fresh: &fresh }, out)
}

/// The command to delete the Child SA with this serial.
#[unsafe(no_mangle)]
pub extern "C" fn suk_delete_child(
    alloc: Global,
    handle: &mut SukHandle,
    child: u32,
    given: &SukFresh,
    out: &mut SukOutput,
) -> u32
    ensures { Takes (DeleteChild child (fresh_spelled given.now)) handle.old.held.state result handle.new.held.state out.old out.new }
{
    let fresh = given.fresh();
    give(
        alloc,
        handle,
        &Input::DeleteChild {
            child,
            fresh: &fresh,
        },
        out,
    )
}

/// The command to delete the IKE SA with this serial, with all its Child SAs.
#[unsafe(no_mangle)]
pub extern "C" fn suk_delete_ike(
    alloc: Global,
    handle: &mut SukHandle,
    ike: u32,
    given: &SukFresh,
    out: &mut SukOutput,
) -> u32
    ensures { Takes (DeleteIke ike (fresh_spelled given.now)) handle.old.held.state result handle.new.held.state out.old out.new }
{
    let fresh = given.fresh();
    give(alloc, handle, &Input::DeleteIke { ike, fresh: &fresh }, out)
}

/// The command to make cookies under another secret.
#[unsafe(no_mangle)]
pub extern "C" fn suk_secret(
    alloc: Global,
    handle: &mut SukHandle,
    secret: &[u8; 32],
    out: &mut SukOutput,
) -> u32
    ensures { Takes (Secret secret.now) handle.old.held.state result handle.new.held.state out.old out.new }
{
    give(alloc, handle, &Input::Secret { secret }, out)
}

/// The time, in milliseconds from any beginning. An earlier time than before counts as the one before.
#[unsafe(no_mangle)]
pub extern "C" fn suk_tick(
    alloc: Global,
    handle: &mut SukHandle,
    moment: u64,
    out: &mut SukOutput,
) -> u32
    ensures { Takes (Tick moment) handle.old.held.state result handle.new.held.state out.old out.new }
{
    give(alloc, handle, &Input::Tick { moment }, out)
}

/// An ESP packet that came. What it carries is told as a place in the packet itself.
#[unsafe(no_mangle)]
pub extern "C" fn suk_esp(
    alloc: Global,
    handle: &mut SukHandle,
    packet: &[u8],
    out: &mut SukOutput,
) -> u32
    ensures { Takes (Esp packet.now) handle.old.held.state result handle.new.held.state out.old out.new }
{
    give(alloc, handle, &Input::Esp { octets: packet }, out)
}

/// A packet that came in unprotected.
#[unsafe(no_mangle)]
pub extern "C" fn suk_inward(
    alloc: Global,
    handle: &mut SukHandle,
    packet: &[u8],
    out: &mut SukOutput,
) -> u32
    ensures { Takes (Inward packet.now) handle.old.held.state result handle.new.held.state out.old out.new }
{
    give(alloc, handle, &Input::Inward { packet }, out)
}

/// A packet on its way out. Where it goes protected its ESP packet stands at the beginning of the room, and
/// what stood behind stands there still; else the room is as it was.
///
/// 103, with nothing done, where the room is shorter than the packet and 29 octets; 101 before that.
#[unsafe(no_mangle)]
pub extern "C" fn suk_outward(
    alloc: Global,
    handle: &mut SukHandle,
    packet: &[u8],
    room: &mut [u8],
    out: &mut SukOutput,
) -> u32
    ensures { SendsIf packet.now room.old handle.old.held.state result handle.new.held.state out.old
        out.new room.new }
{
    let Some(mut boxed) = handle.take(alloc) else {
        return Refusal::NoEnd.code();
    };
    let code = outward(alloc, &mut boxed, packet, room, out);
    handle.put_back(boxed);
    code
}

// A packet goes out as itself and at most so many octets more.
pub const PACKET_MORE: usize = 29;

// A serial, where it is not 0.
fn named(serial: u32) -> Option<u32>
    ensures { result ≡ serial_named serial }
{
    if serial == 0 { None } else { Some(serial) }
}

// Gives an input to the gateway that a handle leads to.
fn give(alloc: Global, handle: &mut SukHandle, input: &Input<'_>, out: &mut SukOutput) -> u32
    ensures { Takes (input_view input.now) handle.old.held.state result handle.new.held.state out.old out.new }
{
    let Some(mut boxed) = handle.take(alloc) else {
        return Refusal::NoEnd.code();
    };
    let code = give_end(alloc, &mut boxed, input, out);
    handle.put_back(boxed);
    code
}

// Gives an input to an end, if it is a gateway.
fn give_end(alloc: Global, end: &mut End, input: &Input<'_>, out: &mut SukOutput) -> u32
    ensures { Takes (input_view input.now) (Some end.old) result (Some end.new) out.old out.new }
{
    let End::Gateway(hosted) = end else {
        return Refusal::NoEnd.code();
    };
    hosted.take(alloc, input, out);
    0
}

// Gives an end a packet on its way out, if it is a gateway.
fn outward(alloc: Global, end: &mut End, packet: &[u8], room: &mut [u8], out: &mut SukOutput) -> u32
    ensures { SendsIf packet.now room.old (Some end.old) result (Some end.new) out.old out.new room.new }
{
    let End::Gateway(hosted) = end else {
        return Refusal::NoEnd.code();
    };
    send(alloc, hosted, packet, room, out)
}

// Gives a gateway a packet on its way out, if there is room for what it may become.
fn send(
    alloc: Global,
    hosted: &mut Hosted,
    packet: &[u8],
    room: &mut [u8],
    out: &mut SukOutput,
) -> u32
    ensures { SendsBy packet.now room.old hosted.old result hosted.new out.old out.new room.new }
{
    let short = room.len() < packet.len() + PACKET_MORE;
    if short {
        return Refusal::ShortRoom.code();
    }
    hosted.take_outward(alloc, packet, room, out);
    0
}

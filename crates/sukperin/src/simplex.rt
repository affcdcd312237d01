//! One ESP SA by itself: a sender or a receiver under a given key.
ghost use Rattle.std.specs.Prelude.{◌≡◌, ◌≢◌, ◌≤◌, None, Some, length, take, OnOk, IfErr, IsTrue, ◌↔◌};
ghost use Rattle.byteorder.specs.Endian.{big_bytes};
ghost use Rattle.sukperin.specs.Associations.{OpensAt, OpensTo, SealsInto, SealsIntoRoom};
ghost use Rattle.sukperin.specs.Associations.{receiver_of, sender_of};
ghost use Rattle.sukperin.specs.Associations.{IsOpeningRefusal, IsOpeningRefusalAt, IsReceiverRefusal};
ghost use Rattle.sukperin.specs.Associations.{IsSealingRefusal, IsSealingRefusalAt, IsSenderRefusal};

use crate::end::End;
use crate::handle::SukHandle;
use crate::refusal::{Refusal, code_of};
use crate::room::write_front;
use byteorder::{BigEndian, ByteOrder};
use esp::{Inbound, Outbound};
use replay::{BlockWindow, is_block_count};
use std::alloc::Global;

/// A packet that was sealed.
#[repr(C)]
#[derive(Clone, Copy)]
pub struct SukSealed {
    /// Its sequence number.
    pub number: u64,
    /// Its octets, which stand at the beginning of the room.
    pub length: u64,
}

/// A packet that was opened.
#[repr(C)]
#[derive(Clone, Copy)]
pub struct SukOpened {
    /// Its sequence number, with the high half where numbers are extended.
    pub number: u64,
    /// Where in the packet its payload begins, in octets.
    pub offset: u64,
    /// The payload's octets.
    pub length: u64,
    /// The next header: the protocol of the payload.
    pub next: u32,
    /// 0.
    pub reserved: u32,
}

// SPIs below are reserved (RFC 4303 section 2.1).
const SPI_LEAST: u32 = 256;

// A packet is its payload and at most so many octets more.
const PACKET_MORE: usize = 29;

/// Makes a sender under a key of 32 octets, whose last packet had the number `last`, 0 where there was
/// none. Numbers have 64 bits where `extended` is not 0, else 32.
///
/// Refused, with the handle as it was, in this order: 102 where it leads to an end already; 107 where the
/// SPI is below 256 (RFC 4303 section 2.1); 20.
#[unsafe(no_mangle)]
pub extern "C" fn suk_sender(
    alloc: Global,
    handle: &mut SukHandle,
    spi: u32,
    key: &[u8; 32],
    extended: u8,
    last: u64,
) -> u32
    ensures made { result ≡ 0 → (handle.old.held.state ≡ None) × (256 ≤ spi)
        × (handle.new.held.state ≡ Some (sender_of spi key.now extended last)) }
    ensures refused { result ≢ 0 → IsSenderRefusal handle.old.held.state spi result
        × (handle.new.held.state ≡ handle.old.held.state) }
{
    if handle.is_live() {
        return Refusal::InUse.code();
    }
    if spi < SPI_LEAST {
        return Refusal::Spi.code();
    }
    let sender = Outbound::new(spi, key, extended != 0, last);
    code_of(handle.make(alloc, End::Sender(sender)))
}

/// Makes a receiver under a key of 32 octets, which has taken no number, with a replay window of `blocks`
/// blocks of 64 numbers: 2, 4, 8, 16, 32, 64 or 128. Numbers have 64 bits where `extended` is not 0, else
/// 32.
///
/// Refused, with the handle as it was, in this order: 102 where it leads to an end already; 107 where the
/// SPI is below 256 (RFC 4303 section 2.1); 104 where there can't be so many blocks; 20.
#[unsafe(no_mangle)]
pub extern "C" fn suk_receiver(
    alloc: Global,
    handle: &mut SukHandle,
    spi: u32,
    key: &[u8; 32],
    extended: u8,
    blocks: u32,
) -> u32
    ensures made { result ≡ 0 → (handle.old.held.state ≡ None) × (256 ≤ spi)
        × (handle.new.held.state ≡ Some (receiver_of spi key.now extended blocks)) }
    ensures refused { result ≢ 0 → IsReceiverRefusal handle.old.held.state spi blocks result
        × (handle.new.held.state ≡ handle.old.held.state) }
{
    if handle.is_live() {
        return Refusal::InUse.code();
    }
    if spi < SPI_LEAST {
        return Refusal::Spi.code();
    }
    if !is_block_count(blocks) {
        return Refusal::Configuration.code();
    }
    let Ok(window) = BlockWindow::new(alloc, blocks) else {
        return Refusal::Memory.code();
    };
    let receiver = Inbound::new(spi, key, extended != 0, window);
    code_of(handle.make(alloc, End::Receiver(receiver)))
}

/// Seals one packet with the payload under a next header at the beginning of the room, with the number
/// after the last, and tells number and length. What stood in the room behind the packet stands there
/// still.
///
/// Refused, with the sender, the room and what is told as they were, in this order: 101 where the handle
/// leads to no sender; 103 where the room is shorter than the payload and 29 octets; 12 where the numbers
/// are spent; 13 above 16,384 octets; 20.
#[unsafe(no_mangle)]
pub extern "C" fn suk_seal(
    alloc: Global,
    handle: &mut SukHandle,
    next: u8,
    payload: &[u8],
    room: &mut [u8],
    told: &mut SukSealed,
) -> u32
    ensures sealed { result ≡ 0
        → SealsInto handle.old.held.state next payload.now room.old handle.new.held.state told.new room.new }
    ensures refused { result ≢ 0 → IsSealingRefusal handle.old.held.state payload.now room.old result
        × (handle.new.held.state ≡ handle.old.held.state) × (room.new ≡ room.old) × (told.new ≡ told.old) }
{
    let Some(mut boxed) = handle.take(alloc) else {
        return Refusal::NoEnd.code();
    };
    let code = seal_by(alloc, &mut boxed, next, payload, room, told);
    handle.put_back(boxed);
    code
}

/// Opens one packet: judges it, takes its number, and tells the number, the next header and where in the
/// packet its payload stands.
///
/// Refused, with what is told as it was, in this order: 101 where the handle leads to no receiver; 28 where
/// the packet has four octets and does not begin with the SPI; 14 to 19 as [`Inbound::open`] says. Of 19
/// alone the number stays taken; else the receiver is as it was.
#[unsafe(no_mangle)]
pub extern "C" fn suk_open(
    alloc: Global,
    handle: &mut SukHandle,
    packet: &[u8],
    told: &mut SukOpened,
) -> u32
    ensures opened { result ≡ 0 → OpensTo handle.old.held.state packet.now handle.new.held.state told.new }
    ensures refused { result ≢ 0
        → IsOpeningRefusal handle.old.held.state packet.now result handle.new.held.state
        × (told.new ≡ told.old) }
{
    let Some(mut boxed) = handle.take(alloc) else {
        return Refusal::NoEnd.code();
    };
    let code = open_by(&mut boxed, packet, told);
    handle.put_back(boxed);
    code
}

/// Frees what the handle leads to, if it leads to an end.
#[unsafe(no_mangle)]
pub extern "C" fn suk_end_association(alloc: Global, handle: &mut SukHandle)
    ensures { handle.new.held.state ≡ None }
{
    drop(handle.take(alloc));
}

// Seals one packet by an end, if it is a sender.
fn seal_by(
    alloc: Global,
    end: &mut End,
    next: u8,
    payload: &[u8],
    room: &mut [u8],
    told: &mut SukSealed,
) -> u32
    ensures sealed { result ≡ 0
        → SealsInto (Some end.old) next payload.now room.old (Some end.new) told.new room.new }
    ensures refused { result ≢ 0 → IsSealingRefusal (Some end.old) payload.now room.old result
        × (end.new ≡ end.old) × (room.new ≡ room.old) × (told.new ≡ told.old) }
{
    let End::Sender(sender) = end else {
        return Refusal::NoEnd.code();
    };
    match seal(alloc, sender, next, payload, room, told) {
        Ok(()) => 0,
        Err(refusal) => refusal.code(),
    }
}

// Opens one packet by an end, if it is a receiver.
fn open_by(end: &mut End, packet: &[u8], told: &mut SukOpened) -> u32
    ensures opened { result ≡ 0 → OpensTo (Some end.old) packet.now (Some end.new) told.new }
    ensures refused { result ≢ 0 → IsOpeningRefusal (Some end.old) packet.now result (Some end.new)
        × (told.new ≡ told.old) }
{
    let End::Receiver(receiver) = end else {
        return Refusal::NoEnd.code();
    };
    match open(receiver, packet, told) {
        Ok(()) => 0,
        Err(refusal) => refusal.code(),
    }
}

// Seals one packet at the beginning of the room.
#[tactic(auto, using(crate::proofs::AssociationLemmas::length_sealed))]
fn seal(
    alloc: Global,
    sender: &mut Outbound,
    next: u8,
    payload: &[u8],
    room: &mut [u8],
    told: &mut SukSealed,
) -> Result<(), Refusal>
    ensures sealed { OnOk result
        (SealsIntoRoom sender.old next payload.now room.old sender.new told.new room.new) }
    ensures refused { IfErr result (λ refusal. IsSealingRefusalAt sender.old payload.now room.old refusal
        × (sender.new ≡ sender.old) × (room.new ≡ room.old) × (told.new ≡ told.old)) }
{
    if room.len() < payload.len() + PACKET_MORE {
        return Err(Refusal::ShortRoom);
    }
    let mut packet = Vec::new(alloc);
    match sender.seal(next, payload, &mut packet) {
        Ok(number) => {
            write_front(room, packet.as_slice());
            *told = SukSealed {
                number,
                length: packet.len() as u64,
            };
            Ok(())
        }
        Err(fault) => Err(Refusal::Esp(fault)),
    }
}

// Opens one packet.
fn open(
    receiver: &mut Inbound<BlockWindow>,
    packet: &[u8],
    told: &mut SukOpened,
) -> Result<(), Refusal>
    ensures opened { OnOk result (OpensAt receiver.old packet.now receiver.new told.new) }
    ensures refused { IfErr result (λ refusal. IsOpeningRefusalAt receiver.old packet.now refusal receiver.new
        × (told.new ≡ told.old)) }
{
    if !is_addressed_to(receiver.spi(), packet) {
        return Err(Refusal::OtherSpi);
    }
    match receiver.open(packet) {
        Ok(opened) => {
            *told = SukOpened {
                number: opened.number,
                offset: 8,
                length: opened.payload.len() as u64,
                next: u32::from(opened.next),
                reserved: 0,
            };
            Ok(())
        }
        Err(fault) => Err(Refusal::Esp(fault)),
    }
}

// Whether a packet begins with this SPI, or is shorter than one.
fn is_addressed_to(spi: u32, packet: &[u8]) -> bool
    ensures { IsTrue result ↔ (4 ≤ length packet.now → take 4 packet.now ≡ big_bytes 4 spi) }
{
    let mut head = [0; 4];
    BigEndian::write_u32(&mut head, spi);
    packet.len() < 4 || packet.starts_with(&head)
}

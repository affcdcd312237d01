//! What a gateway holds, told to C. Nothing here changes it.
ghost use Rattle.std.specs.Prelude.{◌≡◌, ◌≤◌, length, slice_get};
ghost use Rattle.std.specs.Option.{option_map};
ghost use Rattle.sukperin.specs.Views.{FillsFront, FillsRoom, HandsOver, IsToldAs, ListsAll};
ghost use Rattle.sukperin.specs.Views.{ListsAssociations, Tells, TellsChildAfter, TellsMessage, TellsMoment};
ghost use Rattle.sukperin.specs.Views.{TellsNext, TellsNextChild, TellsOf, child_told, closing_at, live_told};
ghost use Rattle.sukperin.specs.Views.{message_at, phase_told, role_told, selector_at, selector_between};
ghost use Rattle.sukperin.specs.Views.{selector_told, side_of, sixteen_octets};

use crate::end::End;
use crate::handle::SukHandle;
use crate::hosted::{Hosted, Left};
use crate::refusal::Refusal;
use crate::room::write_front;
use association::{Association, Phase};
use base::{Range, Selector};
use caller_peer::PeerCaller;
use exchange::Role;
use gateway::{Gateway, Pair};
use sadb::{State, Table};
use std::alloc::Global;

/// A message of IKE that is left to be taken.
#[repr(C)]
#[derive(Clone, Copy)]
pub struct SukMessage {
    /// Its octets.
    pub length: u64,
    /// The IKE SA that asks by it, 0 of an answer.
    pub ike: u32,
    /// 0.
    pub reserved: u32,
}

/// A Child SA.
#[repr(C)]
#[derive(Clone, Copy)]
pub struct SukChild {
    /// Its number at this end, from 1 on.
    pub serial: u32,
    /// The serial of the IKE SA that made it.
    pub ike: u32,
    /// The SPI of what comes.
    pub spi_in: u32,
    /// The SPI of what goes out.
    pub spi_out: u32,
    /// 1 where it carries packets outward, else 0.
    pub live: u8,
    /// 1 where its numbers have 64 bits, else 0.
    pub extended: u8,
    /// 0.
    pub reserved: u16,
    /// 0.
    pub more: u32,
    /// How many selectors the side of this end has.
    pub locals: u64,
    /// How many selectors the peer's side has.
    pub remotes: u64,
    /// The number of the last packet that was sealed, 0 before the first.
    pub sent: u64,
    /// The greatest number that was taken, 0 before the first.
    pub taken: u64,
}

/// A selector of a Child SA. An address of IPv4 is the first four octets of sixteen.
#[repr(C)]
#[derive(Clone, Copy)]
pub struct SukSelector {
    /// 4 or 6.
    pub family: u8,
    /// An IP protocol, 0 for any.
    pub protocol: u8,
    /// The first port.
    pub start_port: u16,
    /// The last port.
    pub end_port: u16,
    /// The first address.
    pub start: [u8; 16],
    /// The last address.
    pub end: [u8; 16],
}

/// An IKE SA.
#[repr(C)]
#[derive(Clone, Copy)]
pub struct SukAssociation {
    /// The original initiator's SPI.
    pub spi_i: u64,
    /// The responder's SPI, 0 while it is not known.
    pub spi_r: u64,
    /// The time, in milliseconds, at which it was made, of one half open, or closed; else 0.
    pub moment: u64,
    /// Its number at this end, from 1 on.
    pub serial: u32,
    /// 1 where this end began it, else 2.
    pub role: u8,
    /// 1 asked for, 2 told who it is, 3 half open, 4 established, 5 closed.
    pub phase: u8,
    /// 1 where a request of this end to delete it waits for its answer, else 0.
    pub deleting: u8,
    /// How many requests the peer takes at once.
    pub window: u8,
}

/// The least time at which [`suk_tick`](crate::inputs::suk_tick) does anything. 108, with the moment as it
/// was, where no time does.
#[unsafe(no_mangle)]
pub extern "C" fn suk_next(alloc: Global, handle: &mut SukHandle, moment: &mut u64) -> u32
    ensures kept { handle.new.held.state ≡ handle.old.held.state }
    ensures told { TellsNext handle.old.held.state result moment.old moment.new }
{
    let Some(boxed) = handle.take(alloc) else {
        return Refusal::NoEnd.code();
    };
    let code = next(&boxed, moment);
    handle.put_back(boxed);
    code
}

/// The message of IKE at a place, counted from 0, of those that the last input left. It is written at the
/// beginning of the room, and what stood behind stands there still. 108, with all as it was, where there is
/// none; 103, with the length told and the room as it was, where that is shorter.
#[unsafe(no_mangle)]
pub extern "C" fn suk_message(
    alloc: Global,
    handle: &mut SukHandle,
    place: u64,
    room: &mut [u8],
    told: &mut SukMessage,
) -> u32
    ensures kept { handle.new.held.state ≡ handle.old.held.state }
    ensures told { TellsMessage place handle.old.held.state room.old result told.old told.new room.new }
{
    let Some(boxed) = handle.take(alloc) else {
        return Refusal::NoEnd.code();
    };
    let code = message(&boxed, place, room, told);
    handle.put_back(boxed);
    code
}

/// The serial of the IKE SA at a place, counted from 0, of those that the last tick closed. 108, with all as
/// it was, where there is none.
#[unsafe(no_mangle)]
pub extern "C" fn suk_closing(
    alloc: Global,
    handle: &mut SukHandle,
    place: u64,
    ike: &mut u32,
) -> u32
    ensures kept { handle.new.held.state ≡ handle.old.held.state }
    ensures told { TellsOf (closing_at place) handle.old.held.state result ike.old ike.new }
{
    let Some(boxed) = handle.take(alloc) else {
        return Refusal::NoEnd.code();
    };
    let code = closing(&boxed, place, ike);
    handle.put_back(boxed);
    code
}

/// The Child SA of the least serial above this one; from 0 on, one after the other, all are found. 108, with
/// all as it was, where there is none.
#[unsafe(no_mangle)]
pub extern "C" fn suk_child_after(
    alloc: Global,
    handle: &mut SukHandle,
    serial: u32,
    told: &mut SukChild,
) -> u32
    ensures kept { handle.new.held.state ≡ handle.old.held.state }
    ensures told { TellsChildAfter serial handle.old.held.state result told.old told.new }
{
    let Some(boxed) = handle.take(alloc) else {
        return Refusal::NoEnd.code();
    };
    let code = child_after(&boxed, serial, told);
    handle.put_back(boxed);
    code
}

/// The selector at a place, counted from 0, of the Child SA with this serial: of the peer's side where
/// `remote` is not 0, else of this end's. 108, with all as it was, where there is none.
#[unsafe(no_mangle)]
pub extern "C" fn suk_selector(
    alloc: Global,
    handle: &mut SukHandle,
    child: u32,
    remote: u8,
    place: u64,
    told: &mut SukSelector,
) -> u32
    ensures kept { handle.new.held.state ≡ handle.old.held.state }
    ensures told { TellsOf (selector_at child remote place) handle.old.held.state result told.old told.new }
{
    let Some(boxed) = handle.take(alloc) else {
        return Refusal::NoEnd.code();
    };
    let code = selector(&boxed, child, remote, place, told);
    handle.put_back(boxed);
    code
}

/// The IKE SAs, by rising serial, and how many there are. 103, with their number told and the room as it
/// was, where it is shorter.
#[unsafe(no_mangle)]
pub extern "C" fn suk_associations(
    alloc: Global,
    handle: &mut SukHandle,
    room: &mut [SukAssociation],
    count: &mut u64,
) -> u32
    ensures kept { handle.new.held.state ≡ handle.old.held.state }
    ensures told { ListsAssociations handle.old.held.state room.old result count.old count.new room.new }
{
    let Some(boxed) = handle.take(alloc) else {
        return Refusal::NoEnd.code();
    };
    let code = associations(&boxed, room, count);
    handle.put_back(boxed);
    code
}

// Tells what was found.
pub fn tell<T: Copy>(found: Option<T>, told: &mut T) -> u32
    ensures { Tells found result told.old told.new }
{
    match found {
        Some(found) => {
            *told = found;
            0
        }
        None => Refusal::Nothing.code(),
    }
}

fn next(end: &End, moment: &mut u64) -> u32
    ensures { TellsNext (Some end.now) result moment.old moment.new }
{
    let End::Gateway(hosted) = end else {
        return Refusal::NoEnd.code();
    };
    next_of(&hosted.gateway, moment)
}

fn next_of(gateway: &Gateway<PeerCaller>, moment: &mut u64) -> u32
    ensures { TellsMoment gateway.now.machine result moment.old moment.new }
{
    tell(gateway.next_moment(), moment)
}

fn message(end: &End, place: u64, room: &mut [u8], told: &mut SukMessage) -> u32
    ensures { TellsMessage place (Some end.now) room.old result told.old told.new room.new }
{
    let End::Gateway(hosted) = end else {
        return Refusal::NoEnd.code();
    };
    hand_over(&hosted.left, place, room, told)
}

// Tells a message and writes it, where there is room.
fn hand_over(left: &Left, place: u64, room: &mut [u8], told: &mut SukMessage) -> u32
    ensures { HandsOver (message_at left.now place) room.old result told.old told.new room.new }
{
    match left.message(place) {
        Some((ike, octets)) => {
            *told = SukMessage {
                length: octets.len() as u64,
                ike,
                reserved: 0,
            };
            fill_front(octets, room)
        }
        None => Refusal::Nothing.code(),
    }
}

// Writes octets at the beginning of a room, where they fit.
fn fill_front(octets: &[u8], room: &mut [u8]) -> u32
    ensures { FillsFront octets.now room.old result room.new }
{
    if room.len() < octets.len() {
        return Refusal::ShortRoom.code();
    }
    write_front(room, octets);
    0
}

fn closing(end: &End, place: u64, ike: &mut u32) -> u32
    ensures { TellsOf (closing_at place) (Some end.now) result ike.old ike.new }
{
    let End::Gateway(hosted) = end else {
        return Refusal::NoEnd.code();
    };
    tell(hosted.left.closing(place), ike)
}

fn child_after(end: &End, serial: u32, told: &mut SukChild) -> u32
    ensures { TellsChildAfter serial (Some end.now) result told.old told.new }
{
    let End::Gateway(hosted) = end else {
        return Refusal::NoEnd.code();
    };
    next_child(hosted.gateway.table(), serial, told)
}

fn next_child(table: &Table, serial: u32, told: &mut SukChild) -> u32
    ensures { TellsNextChild table.now.pairs serial result told.old told.new }
{
    match table.after(serial) {
        Some(pair) => {
            *told = child_of(pair);
            0
        }
        None => Refusal::Nothing.code(),
    }
}

fn selector(end: &End, child: u32, remote: u8, place: u64, told: &mut SukSelector) -> u32
    ensures { TellsOf (selector_at child remote place) (Some end.now) result told.old told.new }
{
    let End::Gateway(hosted) = end else {
        return Refusal::NoEnd.code();
    };
    tell(selector_in(hosted, child, remote, place), told)
}

// The selector at a place, as it is told.
fn selector_in(hosted: &Hosted, child: u32, remote: u8, place: u64) -> Option<SukSelector>
    ensures { result ≡ selector_at child remote place hosted.now }
{
    match hosted.gateway.table().get(child) {
        Some(pair) => selector_on(side(pair, remote != 0), place),
        None => None,
    }
}

// The selectors of one side.
fn side(pair: &Pair, remote: bool) -> &[Selector]
    ensures { result.now ≡ side_of remote pair.now }
{
    if remote {
        pair.remote.as_slice()
    } else {
        pair.local.as_slice()
    }
}

fn selector_on(side: &[Selector], place: u64) -> Option<SukSelector>
    ensures { result ≡ option_map selector_told (slice_get side.now place) }
{
    match side.get(place as usize) {
        Some(selector) => Some(selector_of(selector)),
        None => None,
    }
}

fn associations(end: &End, room: &mut [SukAssociation], count: &mut u64) -> u32
    ensures { ListsAssociations (Some end.now) room.old result count.old count.new room.new }
{
    let End::Gateway(hosted) = end else {
        return Refusal::NoEnd.code();
    };
    list_all(hosted.gateway.associations(), room, count)
}

// Counts IKE SAs and tells them, where there is room.
fn list_all(held: &[Association], room: &mut [SukAssociation], count: &mut u64) -> u32
    ensures { ListsAll held.now room.old result count.new room.new }
{
    *count = held.len() as u64;
    if room.len() < held.len() {
        return Refusal::ShortRoom.code();
    }
    fill_room(held, room);
    0
}

#[tactic(auto, using(crate::proofs::ViewLemmas::told_more, crate::proofs::ViewLemmas::told_all))]
fn fill_room(held: &[Association], room: &mut [SukAssociation])
    requires { length held.now ≤ length room.old }
    ensures { FillsRoom held.now room.old room.new }
{
    for (place, association) in held.iter().enumerate() {
        room[place] = association_of(association);
    }
}

// A Child SA, as it is told.
fn child_of(pair: &Pair) -> SukChild
    ensures { result ≡ child_told pair.now }
{
    SukChild {
        serial: pair.serial,
        ike: pair.ike,
        spi_in: pair.inbound.spi(),
        spi_out: pair.outbound.spi(),
        live: live_of(pair.state),
        extended: u8::from(pair.inbound.is_extended()),
        reserved: 0,
        more: 0,
        locals: pair.local.len() as u64,
        remotes: pair.remote.len() as u64,
        sent: pair.outbound.last(),
        taken: pair.inbound.top(),
    }
}

fn live_of(state: State) -> u8
    ensures { result ≡ live_told state }
{
    match state {
        State::Live => 1,
        State::Deleting => 0,
    }
}

// Four octets, and zeros behind them.
fn sixteen(number: u32) -> [u8; 16]
    ensures { result ≡ sixteen_octets number }
{
    let mut octets = [0; 16];
    write_front(&mut octets, &number.to_be_bytes());
    octets
}

// A selector, as it is told.
fn selector_of(selector: &Selector) -> SukSelector
    ensures { result ≡ selector_told selector.now }
{
    match selector.addresses {
        Range::V4(start, end) => between(selector, 4, sixteen(start), sixteen(end)),
        Range::V6(start, end) => between(selector, 6, start.to_be_bytes(), end.to_be_bytes()),
    }
}

// A selector with addresses of a family, as it is told.
fn between(selector: &Selector, family: u8, start: [u8; 16], end: [u8; 16]) -> SukSelector
    ensures { result ≡ selector_between selector.now family start end }
{
    SukSelector {
        family,
        protocol: selector.protocol,
        start_port: selector.start_port,
        end_port: selector.end_port,
        start,
        end,
    }
}

// How far an IKE SA has come, and the time that goes with it.
fn phase_of(phase: &Phase) -> (u8, u64)
    ensures { result ≡ phase_told phase.now }
{
    match phase {
        Phase::InitSent(_) => (1, 0),
        Phase::AuthSent(_) => (2, 0),
        Phase::HalfOpen(open) => (3, open.made),
        Phase::Established(_) => (4, 0),
        Phase::Closed { at, .. } => (5, *at),
    }
}

fn role_of(role: Role) -> u8
    ensures { result ≡ role_told role }
{
    match role {
        Role::Initiator => 1,
        Role::Responder => 2,
    }
}

// An IKE SA, as it is told.
#[tactic(auto, using(crate::proofs::ViewLemmas::flag_of))]
fn association_of(association: &Association) -> SukAssociation
    ensures { IsToldAs association.now result }
{
    let (phase, moment) = phase_of(&association.phase);
    SukAssociation {
        spi_i: association.spi_i,
        spi_r: association.spi_r,
        moment,
        serial: association.serial,
        role: role_of(association.role),
        phase,
        deleting: u8::from(association.is_deleting()),
        window: association.outgoing.window(),
    }
}

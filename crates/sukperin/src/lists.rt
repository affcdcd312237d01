//! Lists of packets, of which up to 64 at a time have their ICVs computed side by side.
ghost use Rattle.std.specs.Prelude.{◌≡◌, ◌+◌, ◌^◌, ◌<◌, ◌≤◌, ℕ, IfErr, IfOk, IfSome, MatchOption, [], length, take};
ghost use Rattle.esp.specs.Precomputed.{IsPrecomputed};
ghost use Rattle.gateway.specs.Inputs.{Esp, input_view};
ghost use Rattle.gateway.specs.Runs.{Runs};
ghost use Rattle.traffic.specs.Behind.{laid_size};
ghost use Rattle.sukperin.specs.Lists.{AreInputsAt, AreValuesAt, IsPacketAt, IsPlaceRefusal, LaysGroup, LaysNext};
ghost use Rattle.sukperin.specs.Lists.{LiesIn, OpensAll, OpensBy, RunsOver, SealsAll, SealsBy, TakesEsp};
ghost use Rattle.sukperin.specs.Lists.{TakesEspAt, TakesOutGroup, TakesOutOver, no_span, packet_at};
ghost use Rattle.sukperin.specs.Lists.{span_of_laid, told_of_laid};
ghost use Rattle.sukperin.specs.Outward.{HasRoom};

use crate::end::End;
use crate::handle::SukHandle;
use crate::hosted::{Hosted, Left};
use crate::inputs::PACKET_MORE;
use crate::output::SukOutput;
use crate::refusal::Refusal;
use caller_peer::PeerCaller;
use esp::{FEW, GROUP, Precomputed, no_values, packet_size, value_at};
use gateway::{Gateway, Input, Laid, Reason, Span};
use std::alloc::Global;

/// A packet's place in a buffer.
#[repr(C)]
#[derive(Clone, Copy)]
pub struct SukPlace {
    /// Where it begins, in octets.
    pub offset: u64,
    /// Its octets.
    pub length: u64,
}

impl SukPlace {
    // The packet at this place, if the place lies in the buffer.
    fn packet_in<'a>(&self, octets: &'a [u8]) -> Option<&'a [u8]>
        ensures { MatchOption result (¬ LiesIn octets.now self.now) (λ packet. IsPacketAt octets.now
            self.now packet.now) }
    {
        let rest = octets.get(self.offset as usize..)?;
        rest.get(..self.length as usize)
    }
}

/// ESP packets that came, each in its place in one buffer: as so many calls of
/// [`suk_esp`](crate::inputs::suk_esp) in their order, with a record for each. Where what a packet carried
/// begins is told from that packet's beginning. Nothing is left to be taken then.
///
/// A packet whose place doesn't lie in the buffer is refused alone, by 109 in its record. 103, with nothing
/// done, where there are fewer records than places; 101 before that. Takes no memory.
#[unsafe(no_mangle)]
pub extern "C" fn suk_esp_all(
    alloc: Global,
    handle: &mut SukHandle,
    octets: &[u8],
    places: &[SukPlace],
    outs: &mut [SukOutput],
) -> u32
    ensures { OpensAll octets.now places.now handle.old.held.state result handle.new.held.state outs.old
        outs.new }
{
    let Some(mut boxed) = handle.take(alloc) else {
        return Refusal::NoEnd.code();
    };
    let code = open_all(&mut boxed, octets, places, outs);
    handle.put_back(boxed);
    code
}

/// Packets on their way out, each in its place in one buffer: as so many calls of
/// [`suk_outward`](crate::inputs::suk_outward) in their order, with a record for each. Their ESP packets
/// stand in the room one behind the other, from its beginning on; a record's offset and length say where.
/// Nothing is left to be taken then.
///
/// In the record of one packet, which is refused alone: 109 where its place doesn't lie in the buffer, 103
/// where the room that is left is shorter than the packet and 29 octets. 103, with nothing done, where there are
/// fewer records than places; 101 before that. Takes no memory, but for that of the flows at the first packet.
#[unsafe(no_mangle)]
pub extern "C" fn suk_outward_all(
    alloc: Global,
    handle: &mut SukHandle,
    octets: &[u8],
    places: &[SukPlace],
    room: &mut [u8],
    outs: &mut [SukOutput],
) -> u32
    ensures { SealsAll octets.now places.now handle.old.held.state result handle.new.held.state outs.old
        outs.new room.old room.new }
{
    let Some(mut boxed) = handle.take(alloc) else {
        return Refusal::NoEnd.code();
    };
    let code = seal_all(&mut boxed, octets, places, room, outs);
    handle.put_back(boxed);
    code
}

// Gives the packets to an end, if it is a gateway.
fn open_all(end: &mut End, octets: &[u8], places: &[SukPlace], outs: &mut [SukOutput]) -> u32
    ensures { OpensAll octets.now places.now (Some end.old) result (Some end.new) outs.old outs.new }
{
    let End::Gateway(hosted) = end else {
        return Refusal::NoEnd.code();
    };
    open_by(hosted, octets, places, outs)
}

// Gives the packets to a gateway, if there are records enough.
fn open_by(hosted: &mut Hosted, octets: &[u8], places: &[SukPlace], outs: &mut [SukOutput]) -> u32
    ensures { OpensBy octets.now places.now hosted.old result hosted.new outs.old outs.new }
{
    let few = outs.len() < places.len();
    if few {
        return Refusal::ShortRoom.code();
    }
    open_groups(&mut hosted.gateway, octets, places, outs);
    hosted.left = Left::Nothing;
    0
}

// Takes ESP packets in order, in groups of up to 64.
fn open_groups(
    gateway: &mut Gateway<PeerCaller>,
    octets: &[u8],
    places: &[SukPlace],
    outs: &mut [SukOutput],
)
    requires { length places.now ≤ length outs.old }
    ensures { RunsOver (TakesEspAt octets.now) places.now gateway.old outs.old gateway.new outs.new }
{
    for group in 0..places.len().div_ceil(GROUP) {
        let start = GROUP * group;
        let count = (places.len() - start).min(GROUP);
        open_next(
            gateway,
            octets,
            &places[start..start + count],
            &mut outs[start..start + count],
        );
    }
}

// Takes up to 64 ESP packets in order.
fn open_next(
    gateway: &mut Gateway<PeerCaller>,
    octets: &[u8],
    places: &[SukPlace],
    outs: &mut [SukOutput],
)
    requires few { length places.now ≤ GROUP }
    requires records { length outs.old ≡ length places.now }
    ensures { Runs (TakesEspAt octets.now) places.now outs.new gateway.old gateway.new }
{
    if places.len() <= FEW {
        open_few(gateway, octets, places, outs);
    } else {
        open_group(gateway, octets, places, outs);
    }
}

// The same of a few packets.
fn open_few(
    gateway: &mut Gateway<PeerCaller>,
    octets: &[u8],
    places: &[SukPlace],
    outs: &mut [SukOutput],
)
    requires few { length places.now ≤ FEW }
    requires records { length outs.old ≡ length places.now }
    ensures { Runs (TakesEspAt octets.now) places.now outs.new gateway.old gateway.new }
{
    let mut ahead = no_values::<FEW>();
    let mut inputs = [no_packet(octets); FEW];
    let inputs = &mut inputs[..places.len()];
    set_inputs(octets, places, inputs);
    gateway.compute_ahead(inputs, &mut ahead);
    open_each(gateway, octets, places, &ahead, outs);
}

// The same of more packets. Not inlined, so that a few don't clear its arrays.
#[inline(never)]
fn open_group(
    gateway: &mut Gateway<PeerCaller>,
    octets: &[u8],
    places: &[SukPlace],
    outs: &mut [SukOutput],
)
    requires few { length places.now ≤ GROUP }
    requires records { length outs.old ≡ length places.now }
    ensures { Runs (TakesEspAt octets.now) places.now outs.new gateway.old gateway.new }
{
    let mut ahead = no_values::<GROUP>();
    let mut inputs = [no_packet(octets); GROUP];
    let inputs = &mut inputs[..places.len()];
    set_inputs(octets, places, inputs);
    gateway.compute_ahead(inputs, &mut ahead);
    open_each(gateway, octets, places, &ahead, outs);
}

// Takes ESP packets in order, with those ICVs that were computed ahead.
fn open_each(
    gateway: &mut Gateway<PeerCaller>,
    octets: &[u8],
    places: &[SukPlace],
    ahead: &[Option<Precomputed>],
    outs: &mut [SukOutput],
)
    requires ahead { AreValuesAt octets.now places.now ahead.now }
    requires records { length outs.old ≡ length places.now }
    ensures { Runs (TakesEspAt octets.now) places.now outs.new gateway.old gateway.new }
{
    for (turn, place) in places.iter().enumerate() {
        open_one(
            gateway,
            octets,
            place,
            value_at(ahead, turn),
            &mut outs[turn],
        );
    }
}

// Takes the ESP packet at a place, with its ICV where that was computed ahead, and writes its record.
fn open_one(
    gateway: &mut Gateway<PeerCaller>,
    octets: &[u8],
    place: &SukPlace,
    ahead: Option<Precomputed>,
    out: &mut SukOutput,
)
    requires { LiesIn octets.now place.now → IfSome ahead (IsPrecomputed (packet_at octets.now place.now)) }
    ensures { TakesEspAt octets.now place.now gateway.old out.new gateway.new }
{
    match place.packet_in(octets) {
        Some(packet) => open_packet(gateway, packet, ahead, out),
        None => *out = SukOutput::refused(Refusal::Place),
    }
}

// Takes an ESP packet, with its ICV where that was computed ahead, and writes its record.
fn open_packet(
    gateway: &mut Gateway<PeerCaller>,
    packet: &[u8],
    ahead: Option<Precomputed>,
    out: &mut SukOutput,
)
    requires { IfSome ahead (IsPrecomputed packet.now) }
    ensures { TakesEsp packet.now gateway.old out.new gateway.new }
{
    *out = SukOutput::of_arrival(&gateway.receive_ahead(packet, ahead));
}

// Sets the input at each place, for what is computed ahead.
fn set_inputs<'a>(octets: &'a [u8], places: &[SukPlace], inputs: &mut [Input<'a>])
    requires { length inputs.old ≡ length places.now }
    ensures each { AreInputsAt octets.now places.now (length places.now) inputs.new }
    ensures long { length inputs.new ≡ length inputs.old }
{
    for (turn, place) in places.iter().enumerate() {
        inputs[turn] = input_at(octets, place);
    }
}

// An ESP packet of no octets.
fn no_packet<'a>(octets: &'a [u8]) -> Input<'a> {
    Input::Esp {
        octets: &octets[..0],
    }
}

// The input at a place; a packet of no octets where that doesn't lie in the buffer.
fn input_at<'a>(octets: &'a [u8], place: &SukPlace) -> Input<'a>
    ensures { LiesIn octets.now place.now → input_view result ≡ Esp (packet_at octets.now place.now) }
{
    match place.packet_in(octets) {
        Some(packet) => Input::Esp { octets: packet },
        None => no_packet(octets),
    }
}

// Gives the packets to an end, if it is a gateway.
fn seal_all(
    end: &mut End,
    octets: &[u8],
    places: &[SukPlace],
    room: &mut [u8],
    outs: &mut [SukOutput],
) -> u32
    ensures { SealsAll octets.now places.now (Some end.old) result (Some end.new) outs.old outs.new
        room.old room.new }
{
    let End::Gateway(hosted) = end else {
        return Refusal::NoEnd.code();
    };
    seal_by(hosted, octets, places, room, outs)
}

// Gives the packets to a gateway, if there are records enough.
fn seal_by(
    hosted: &mut Hosted,
    octets: &[u8],
    places: &[SukPlace],
    room: &mut [u8],
    outs: &mut [SukOutput],
) -> u32
    ensures { SealsBy octets.now places.now hosted.old result hosted.new outs.old outs.new room.old room.new }
{
    let few = outs.len() < places.len();
    if few {
        return Refusal::ShortRoom.code();
    }
    seal_groups(&mut hosted.gateway, octets, places, room, outs);
    hosted.left = Left::Nothing;
    0
}

// Sends packets in order, in groups of up to 64, into the room from its beginning on.
fn seal_groups(
    gateway: &mut Gateway<PeerCaller>,
    octets: &[u8],
    places: &[SukPlace],
    room: &mut [u8],
    outs: &mut [SukOutput],
)
    requires { length places.now ≤ length outs.old }
    ensures { TakesOutOver octets.now places.now gateway.old outs.old room.old gateway.new outs.new room.new }
{
    let mut used = 0;
    for group in 0..places.len().div_ceil(GROUP) {
        let start = GROUP * group;
        let count = (places.len() - start).min(GROUP);
        used = seal_group(
            gateway,
            octets,
            &places[start..start + count],
            room,
            used,
            &mut outs[start..start + count],
        );
    }
}

// Sends up to 64 packets in order, into the room behind what is used of it; answers how much is used then.
fn seal_group(
    gateway: &mut Gateway<PeerCaller>,
    octets: &[u8],
    places: &[SukPlace],
    room: &mut [u8],
    used: usize,
    outs: &mut [SukOutput],
) -> usize
    requires few { length places.now ≤ GROUP }
    requires records { length outs.old ≡ length places.now }
    requires within { used ≤ length room.old }
    ensures { TakesOutGroup octets.now places.now used gateway.old room.old result gateway.new outs.new
        room.new }
{
    if places.len() <= FEW {
        seal_with::<FEW>(gateway, octets, places, room, used, outs)
    } else {
        seal_with::<GROUP>(gateway, octets, places, room, used, outs)
    }
}

// The same with spans for `N` packets. Not inlined, so that a few packets don't clear the long array.
#[inline(never)]
fn seal_with<const N: usize>(
    gateway: &mut Gateway<PeerCaller>,
    octets: &[u8],
    places: &[SukPlace],
    room: &mut [u8],
    used: usize,
    outs: &mut [SukOutput],
) -> usize
    requires group { N ≤ GROUP }
    requires few { length places.now ≤ N }
    requires records { length outs.old ≡ length places.now }
    requires within { used ≤ length room.old }
    ensures { TakesOutGroup octets.now places.now used gateway.old room.old result gateway.new outs.new
        room.new }
{
    let mut spans = [nothing(); N];
    let end = lay_group(gateway, octets, places, room, used, outs, &mut spans);
    gateway.finish_behind(&spans[..places.len()], &mut room[used..]);
    end
}

// Takes the packets in order, but for the ICVs of their ESP packets. These stand in the room behind what is
// used of it, one behind the other; answers where the last one ends.
fn lay_group(
    gateway: &mut Gateway<PeerCaller>,
    octets: &[u8],
    places: &[SukPlace],
    room: &mut [u8],
    used: usize,
    outs: &mut [SukOutput],
    spans: &mut [Span],
) -> usize
    requires few { length places.now ≤ length spans.old }
    requires records { length outs.old ≡ length places.now }
    requires within { used ≤ length room.old }
    ensures { LaysGroup octets.now places.now used gateway.old room.old result gateway.new outs.new
        (take (length places.now) spans.new) room.new }
{
    let mut end = used;
    for (turn, place) in places.iter().enumerate() {
        let span = lay_next(gateway, octets, place, room, end, &mut outs[turn]);
        spans[turn] = span;
        end += span.length;
    }
    end
}

// Takes the packet at a place. Its ESP packet, still without its ICV, is written into the room from `begin`
// on, and its record where that is to stand. Answers which part of the room the ESP packet is: none where the
// packet is refused, or goes out without ESP.
//
// The record is written where it stands: one that was answered instead would be copied, by wide loads right
// behind narrow stores.
fn lay_next(
    gateway: &mut Gateway<PeerCaller>,
    octets: &[u8],
    place: &SukPlace,
    room: &mut [u8],
    begin: usize,
    out: &mut SukOutput,
) -> Span
    requires within { begin ≤ length room.old }
    ensures { (used : ℕ) → used ≤ begin → LaysNext octets.now place.now used begin gateway.old room.old
        out.new result gateway.new room.new }
{
    let packet = match packet_for(place, octets, room.len() - begin) {
        Ok(packet) => packet,
        Err(refusal) => {
            *out = SukOutput::refused(refusal);
            return nothing();
        }
    };
    let laid = gateway.lay_in(packet, &mut room[begin..]);
    let length = laid_length(&laid, packet.len());
    *out = told_at(&laid, begin, length);
    span_of(&laid, length)
}

// How many octets the ESP packet has of a packet of so many that was laid; none where it has no ESP packet.
fn laid_length(laid: &Laid<'_>, packet: usize) -> usize
    requires { packet + 29 < 2 ^ 64 }
    ensures { result ≡ laid_size laid.now packet }
{
    match laid {
        Laid::Sealed { .. } => packet_size(packet),
        Laid::Clear(_) | Laid::Discarded | Laid::Dropped(_) => 0,
    }
}

// No part of the room.
fn nothing() -> Span
    ensures { result ≡ no_span }
{
    Span {
        child: 0,
        number: 0,
        length: 0,
    }
}

// The packet at a place, where that lies in the buffer and there is room for what it may become.
fn packet_for<'a>(place: &SukPlace, octets: &'a [u8], room: usize) -> Result<&'a [u8], Refusal>
    ensures found { IfOk result (λ packet. IsPacketAt octets.now place.now packet.now × HasRoom packet.now
        room) }
    ensures refused { IfErr result (λ refusal. IsPlaceRefusal octets.now place.now room refusal) }
{
    let Some(packet) = place.packet_in(octets) else {
        return Err(Refusal::Place);
    };
    if room < packet.len() + PACKET_MORE {
        return Err(Refusal::ShortRoom);
    }
    Ok(packet)
}

// What is told of a packet that was laid; its ESP packet, if there is one, begins here in the room and has so
// many octets.
fn told_at(laid: &Laid<'_>, begin: usize, length: usize) -> SukOutput
    ensures { result ≡ told_of_laid begin length laid.now }
{
    match laid {
        Laid::Sealed { child, number } => SukOutput {
            child: *child,
            number: *number,
            offset: begin as u64,
            length: length as u64,
            ..SukOutput::of_kind(9)
        },
        Laid::Clear(packet) => SukOutput {
            length: packet.len() as u64,
            ..SukOutput::of_kind(10)
        },
        Laid::Discarded => SukOutput::of_kind(11),
        Laid::Dropped(fault) => SukOutput::with_code(12, Reason::Packet(*fault)),
    }
}

// The part of the room that a packet's ESP packet is, of so many octets; no part where it has none.
fn span_of(laid: &Laid<'_>, length: usize) -> Span
    ensures { result ≡ span_of_laid length laid.now }
{
    match laid {
        Laid::Sealed { child, number } => Span {
            child: *child,
            number: *number,
            length,
        },
        Laid::Clear(_) | Laid::Discarded | Laid::Dropped(_) => nothing(),
    }
}

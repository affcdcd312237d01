//! The sender's end of an SA (RFC 4303 section 3.3).
ghost use Rattle.std.specs.Prelude.{◌≡◌, ◌≢◌, ℕ, ◌+◌, ◌<◌, ◌≤◌, [], ◌++◌, drop, length, take, vec_len, replicate, IfOk, IfErr, IfSome, OnOk};
ghost use Rattle.std.specs.Vec.{vec_capacity};
ghost use Rattle.esp.specs.Packet.{head, joined_parts, trailer};
ghost use Rattle.esp.specs.Sealing.{Seals, SealsFirst, IsSealRefusal, IsSealStop, most_octets, payloads_of};
ghost use Rattle.esp.specs.Laying.{IsReady, Lays, LaysFirst, LaysIn, finished, finished_behind, packet_size};
ghost use Rattle.esp.specs.Precomputed.{IsPrecomputed, IsQuestion};
ghost use Rattle.esp.specs.Progress.{EndsRightly, UsesRoom};
ghost use Rattle.esp.specs.declared.fault.EspFault.{EspFault};

use crate::check_values::{GROUP, write_check_values};
use crate::load::{PACKETS_LEAST, gain_by_lanes};
use crate::packet::{CHECK, HEAD, PAYLOAD_LIMIT, TAIL, head_of, least_padding};
use crate::precomputed::{Precomputed, Question, own_of};
use crate::progress::Progress;
use crate::sa::Sa;
use crate::{EspFault, ListStop};
use lanes::LaneKey;
use std::marker::Model;

// The padding is a beginning of these octets (RFC 4303 section 2.4).
const PADDING: [u8; 3] = [1, 2, 3];

/// The sender's end of an SA: it seals payloads into packets.
#[derive(Drop)]
pub struct Outbound {
    association: Sa,
    last: u64,
    // From how many packets on a list's ICVs are computed side by side.
    lanes: usize,
}

impl Model for Outbound {
    ghost use Rattle.esp.specs.Views.{Sending, sending_code};

    ghost Value = { Sending };

    ghost coded = { sending_code };

    ghost view = { λ o. record { association = o.association; last = o.last } };
}

impl Outbound {
    /// The end with this SPI and key of 32 octets, which sealed its last packet with the sequence number
    /// `last` (0 where there was none). Numbers have 64 bits if `extended`, else 32.
    pub fn new(spi: u32, key: &[u8; 32], extended: bool, last: u64) -> Outbound
        ensures { result ≡ record {
          association = record { spi = spi; key = key.now; extended = extended };
          last = last;
        } }
    {
        let key = LaneKey::new(key);
        Outbound {
            association: Sa { spi, key, extended },
            last,
            lanes: PACKETS_LEAST,
        }
    }

    /// Has lists of so many packets or more have their ICVs computed side by side, where they are alike:
    /// 2 is right in a build for x86-64-v3. Without it lists begin at
    /// [`PACKETS_LEAST`](crate::PACKETS_LEAST), which is right for x86-64-v2. Time alone depends on it.
    pub fn begin_lanes_at(&mut self, packets: usize)
        ensures { self.new ≡ self.old }
    {
        self.lanes = packets;
    }

    /// The security parameters index that its packets begin with.
    pub fn spi(&self) -> u32
        ensures { result ≡ self.now.association.spi }
    {
        self.association.spi
    }

    /// The key of its ICVs.
    pub fn key(&self) -> [u8; 32]
        ensures { result ≡ self.now.association.key }
    {
        self.association.key.octets()
    }

    /// Whether its sequence numbers have 64 bits, of which 32 are sent (RFC 4303 section 2.2.1), or 32.
    pub fn is_extended(&self) -> bool
        ensures { result ≡ self.now.association.extended }
    {
        self.association.extended
    }

    /// The sequence number of the last packet that was sealed: what [`Outbound::new`] was given, before the
    /// first.
    pub fn last(&self) -> u64
        ensures { result ≡ self.now.last }
    {
        self.last
    }

    /// Appends to `out` the packet that carries `payload` under the next header `next`, with the sequence
    /// number after the last and the least padding, and answers its number (RFC 4303 section 3.3).
    ///
    /// Refused, with nothing changed, in this order: [`EspFault::Exhausted`] where the last number was 2^32 -
    /// 1 or more, or 2^64 - 1 with ESN; [`EspFault::PayloadSize`] above 16,384 octets; [`EspFault::Memory`].
    ///
    /// A packet whose ICV covers n octets costs ceil((n + 9) / 64) + 1 compressions of SHA-256.
    pub fn seal(&mut self, next: u8, payload: &[u8], out: &mut Vec<u8>) -> Result<u64, EspFault>
        ensures sealed { IfOk result (λ number.
            Seals self.old next payload.now out.old.items number self.new out.new.items) }
        ensures refused { IfErr result (λ fault. IsSealRefusal self.old payload.now fault
            × (self.new ≡ self.old) × (out.new.items ≡ out.old.items)) }
        // A packet is its payload and 26 to 29 octets more.
        ensures room { vec_len out.old + (length payload.now + 29) ≤ vec_capacity out.old
            → IfErr result (λ fault. fault ≢ EspFault.Memory) }
        // No memory is given back, and no more than such a packet is written.
        ensures capacity { vec_capacity out.old ≤ vec_capacity out.new }
        ensures growth { vec_len out.new ≤ vec_len out.old + (length payload.now + 29) }
    {
        let start = out.len();
        let number = self.lay(next, payload, out)?;
        self.finish(number, &mut out[start..], None);
        Ok(number)
    }

    /// Appends a packet as [`Outbound::seal`] does, but with zeros in the place of its ICV, and answers its
    /// sequence number. Refused as that is.
    ///
    /// [`Outbound::finish`] writes the ICV at any time later, since it depends on nothing that changes. So
    /// several packets can be laid first, and their ICVs computed side by side ([`Outbound::question`],
    /// [`precompute`](crate::precompute)).
    pub fn lay(&mut self, next: u8, payload: &[u8], out: &mut Vec<u8>) -> Result<u64, EspFault>
        ensures laid { OnOk result (Lays self.old next payload.now out.old.items self.new out.new.items) }
        ensures sealed { IfOk result (λ number. Seals self.old next payload.now out.old.items number self.new
            (finished_behind (length out.old.items) self.old.association number out.new.items)) }
        ensures refused { IfErr result (λ fault. IsSealRefusal self.old payload.now fault
            × (self.new ≡ self.old) × (out.new.items ≡ out.old.items)) }
        ensures room { vec_len out.old + (length payload.now + 29) ≤ vec_capacity out.old
            → IfErr result (λ fault. fault ≢ EspFault.Memory) }
        ensures capacity { vec_capacity out.old ≤ vec_capacity out.new }
        ensures growth { vec_len out.new ≤ vec_len out.old + (length payload.now + 29) }
    {
        let (number, pad) = self.prepare(payload, out)?;
        append_without_check_value(out, &self.association, number, next, payload, pad);
        self.last = number;
        Ok(number)
    }

    /// Lays a packet as [`Outbound::lay`] does, but at the beginning of a room of the caller's, which has 29
    /// octets more than the payload; what stands behind the packet stays. Of how many octets it is tells
    /// [`packet_size`](crate::packet_size). Refused as that is, with nothing changed, but never for memory.
    pub fn lay_in(&mut self, next: u8, payload: &[u8], room: &mut [u8]) -> Result<u64, EspFault>
        requires { length payload.now + 29 ≤ length room.old }
        ensures laid { OnOk result (LaysIn self.old next payload.now room.old self.new room.new) }
        ensures sealed { IfOk result (λ number. Seals self.old next payload.now [] number self.new
            (finished self.old.association number (take (packet_size (length payload.now)) room.new))) }
        ensures refused { IfErr result (λ fault. IsSealRefusal self.old payload.now fault
            × (self.new ≡ self.old) × (room.new ≡ room.old)) }
        ensures memory { IfErr result (λ fault. fault ≢ EspFault.Memory) }
    {
        let (number, pad) = self.next_packet(payload)?;
        write_without_check_value(room, &self.association, number, next, payload, pad);
        self.last = number;
        Ok(number)
    }

    /// What the ICV of a packet is computed from that was laid under this sequence number. For
    /// [`precompute`](crate::precompute).
    pub fn question<'a>(&'a self, number: u64, packet: &'a [u8]) -> Option<Question<'a>>
        ensures { IfSome result (IsQuestion packet.now) }
    {
        if packet.len() < CHECK {
            return None;
        }
        Some(Question::new(&self.association, number, packet))
    }

    /// Writes the ICV into a packet that was laid under this sequence number: over its last 16 octets,
    /// computed from those before them. Octets that are fewer are no packet, and stay as they are.
    ///
    /// An ICV that was computed before is used where it was computed under this key and for this sequence
    /// number; else it is computed here.
    pub fn finish(&self, number: u64, packet: &mut [u8], ahead: Option<Precomputed>)
        requires { IfSome ahead (IsPrecomputed packet.old) }
        ensures { packet.new ≡ finished self.now.association number packet.old }
    {
        let Some(covered) = packet.len().checked_sub(CHECK) else {
            return;
        };
        let own = own_of(&self.association, ahead);
        let value = self.association.value_with(number, packet, own);
        packet[covered..].copy_from_slice(&value);
    }

    /// Seals payloads in order, each as [`Outbound::seal`] does: appends their packets to `out`, one after
    /// the other, with the sequence numbers after the last.
    ///
    /// Refused where sealing one of them would be, in the same way: those before it were sealed then, and
    /// none after them.
    ///
    /// ICVs are computed side by side, for at most 64 packets at a time, where that gains time; packets are
    /// laid out one after the other. Nothing is computed that isn't sent, and no memory is taken but for
    /// `out`.
    pub fn seal_all(
        &mut self,
        next: u8,
        payloads: &[&[u8]],
        out: &mut Vec<u8>,
    ) -> Result<(), ListStop<EspFault>>
        ensures sealed { OnOk result (SealsFirst (length payloads.now) self.old next
            (payloads_of payloads.now) out.old.items self.new out.new.items) }
        ensures stopped { IfErr result (λ stop. IsSealStop self.old next (payloads_of payloads.now)
            out.old.items stop self.new out.new.items) }
        // With room for the first k packets, memory is wanted only after them; with room for all, never.
        ensures room { (k : ℕ)
            → vec_len out.old + most_octets (take k (payloads_of payloads.now)) ≤ vec_capacity out.old
            → IfErr result (λ stop. stop.fault ≡ EspFault.Memory → k ≤ stop.done) }
    {
        for group in 0..payloads.len().div_ceil(GROUP) {
            let start = GROUP * group;
            let end = start + (payloads.len() - start).min(GROUP);
            let progress = self.seal_group(next, &payloads[start..end], out);
            if let Some(fault) = progress.refusal {
                return Err(ListStop {
                    done: start + progress.done,
                    fault,
                });
            }
        }
        Ok(())
    }

    // Seals payloads, at most as many as a group has; answers how far they came.
    fn seal_group(&mut self, next: u8, payloads: &[&[u8]], out: &mut Vec<u8>) -> Progress
        requires { length payloads.now ≤ GROUP }
        ensures first { SealsFirst result.done self.old next (payloads_of payloads.now)
            out.old.items self.new out.new.items }
        ensures ended { EndsRightly (payloads_of payloads.now) result self.new }
        ensures room { UsesRoom (payloads_of payloads.now) result
            (vec_len out.old) (vec_capacity out.old) (vec_len out.new) (vec_capacity out.new) }
    {
        if gain_by_lanes(payloads, self.lanes) {
            self.seal_side_by_side(next, payloads, out)
        } else {
            self.seal_each(next, payloads, out)
        }
    }

    // Seals payloads in order by a call for each; answers how far they came.
    fn seal_each(&mut self, next: u8, payloads: &[&[u8]], out: &mut Vec<u8>) -> Progress
        ensures first { SealsFirst result.done self.old next (payloads_of payloads.now)
            out.old.items self.new out.new.items }
        ensures ended { EndsRightly (payloads_of payloads.now) result self.new }
        ensures room { UsesRoom (payloads_of payloads.now) result
            (vec_len out.old) (vec_capacity out.old) (vec_len out.new) (vec_capacity out.new) }
    {
        for (done, payload) in payloads.iter().enumerate() {
            if let Err(fault) = self.seal(next, payload, out) {
                return Progress {
                    done,
                    refusal: Some(fault),
                };
            }
        }
        Progress {
            done: payloads.len(),
            refusal: None,
        }
    }

    // Seals payloads in order, with their ICVs computed side by side; answers how far they came.
    fn seal_side_by_side(&mut self, next: u8, payloads: &[&[u8]], out: &mut Vec<u8>) -> Progress
        requires { length payloads.now ≤ GROUP }
        ensures first { SealsFirst result.done self.old next (payloads_of payloads.now)
            out.old.items self.new out.new.items }
        ensures ended { EndsRightly (payloads_of payloads.now) result self.new }
        ensures room { UsesRoom (payloads_of payloads.now) result
            (vec_len out.old) (vec_capacity out.old) (vec_len out.new) (vec_capacity out.new) }
    {
        let start = out.len();
        let last = self.last;
        let progress = self.lay_all(next, payloads, out);
        write_check_values(
            &self.association,
            last,
            &payloads[..progress.done],
            &mut out[start..],
            self.lanes,
        );
        progress
    }

    // Lays packets in order, up to the first that is refused; answers how far they came.
    fn lay_all(&mut self, next: u8, payloads: &[&[u8]], out: &mut Vec<u8>) -> Progress
        ensures first { LaysFirst result.done self.old next (payloads_of payloads.now)
            out.old.items self.new out.new.items }
        ensures ended { EndsRightly (payloads_of payloads.now) result self.new }
        ensures room { UsesRoom (payloads_of payloads.now) result
            (vec_len out.old) (vec_capacity out.old) (vec_len out.new) (vec_capacity out.new) }
    {
        for (done, payload) in payloads.iter().enumerate() {
            if let Err(fault) = self.lay(next, payload, out) {
                return Progress {
                    done,
                    refusal: Some(fault),
                };
            }
        }
        Progress {
            done: payloads.len(),
            refusal: None,
        }
    }

    // The sequence number and the padding of the next packet.
    fn next_packet(&self, payload: &[u8]) -> Result<(u64, usize), EspFault>
        ensures ready { IfOk result (λ found. IsReady self.now payload.now found.0 found.1) }
        ensures refused { IfErr result (IsSealRefusal self.now payload.now) }
        ensures memory { IfErr result (λ fault. fault ≢ EspFault.Memory) }
    {
        let Some(number) = self.association.number_after(self.last) else {
            return Err(EspFault::Exhausted);
        };
        if payload.len() > PAYLOAD_LIMIT {
            return Err(EspFault::PayloadSize);
        }
        Ok((number, least_padding(payload.len())))
    }

    // The same, with room for the packet behind what stands in a buffer.
    fn prepare(&self, payload: &[u8], out: &mut Vec<u8>) -> Result<(u64, usize), EspFault>
        ensures ready { IfOk result (λ found. IsReady self.now payload.now found.0 found.1) }
        ensures enough { IfOk result (λ found.
            vec_len out.new + (HEAD + length payload.now + found.1 + TAIL + CHECK) ≤ vec_capacity out.new) }
        ensures refused { IfErr result (IsSealRefusal self.now payload.now) }
        ensures items { out.new.items ≡ out.old.items }
        ensures size { vec_len out.new ≡ vec_len out.old }
        ensures room { vec_len out.old + (length payload.now + 29) ≤ vec_capacity out.old
            → IfErr result (λ fault. fault ≢ EspFault.Memory) }
        ensures capacity { vec_capacity out.old ≤ vec_capacity out.new }
    {
        let (number, pad) = self.next_packet(payload)?;
        if out
            .reserve(HEAD + payload.len() + pad + TAIL + CHECK)
            .is_err()
        {
            return Err(EspFault::Memory);
        }
        Ok((number, pad))
    }
}

// Appends a packet, for which there is room, with zeros in the place of its ICV.
fn append_without_check_value(
    out: &mut Vec<u8>,
    association: &Sa,
    number: u64,
    next: u8,
    payload: &[u8],
    pad: usize,
)
    requires word { pad < 4 }
    requires room { vec_len out.old + (HEAD + length payload.now + pad + TAIL + CHECK)
        ≤ vec_capacity out.old }
    ensures items { out.new.items ≡ out.old.items
        ++ ((head association.now number ++ payload.now ++ trailer pad next) ++ replicate 16 0) }
    ensures capacity { vec_capacity out.old ≤ vec_capacity out.new }
    ensures size { vec_len out.new ≡ vec_len out.old + (HEAD + length payload.now + pad + TAIL + CHECK) }
{
    let head = head_of(association.spi, number);
    append(
        out,
        &[
            &head,
            payload,
            &PADDING[..pad],
            &[pad as u8, next],
            &[0; CHECK],
        ],
    );
}

// Writes a packet at the beginning of a room that holds it, with zeros in the place of its ICV.
fn write_without_check_value(
    room: &mut [u8],
    association: &Sa,
    number: u64,
    next: u8,
    payload: &[u8],
    pad: usize,
)
    requires word { pad < 4 }
    requires fits { HEAD + length payload.now + pad + TAIL + CHECK ≤ length room.old }
    ensures { room.new ≡ ((head association.now number ++ payload.now ++ trailer pad next) ++ replicate 16 0)
        ++ drop (HEAD + length payload.now + pad + TAIL + CHECK) room.old }
{
    let padding = HEAD + payload.len();
    let tail = padding + pad;
    write_at(room, 0, &head_of(association.spi, number));
    write_at(room, HEAD, payload);
    write_at(room, padding, &PADDING[..pad]);
    write_at(room, tail, &[pad as u8, next]);
    write_at(room, tail + TAIL, &[0; CHECK]);
}

// Writes a part of a packet at its place in a room; what stands before it and behind it stays.
fn write_at(room: &mut [u8], place: usize, part: &[u8])
    requires { place + length part.now ≤ length room.old }
    ensures { room.new ≡ take place room.old ++ part.now ++ drop (place + length part.now) room.old }
{
    room[place..place + part.len()].copy_from_slice(part);
}

// Appends the parts, for which there is room, one after the other.
fn append(out: &mut Vec<u8>, parts: &[&[u8]])
    requires { vec_len out.old + length (joined_parts parts.now) ≤ vec_capacity out.old }
    ensures items { out.new.items ≡ out.old.items ++ joined_parts parts.now }
    ensures capacity { vec_capacity out.old ≤ vec_capacity out.new }
    ensures size { vec_len out.new ≡ vec_len out.old + length (joined_parts parts.now) }
{
    for part in parts {
        out.extend_from_slice(part).unwrap();
    }
}

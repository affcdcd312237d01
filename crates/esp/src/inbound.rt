//! The receiver's end of an SA (RFC 4303 section 3.4).
ghost use Rattle.std.specs.Prelude.{◌≡◌, ℕ, ◌+◌, ◌-◌, ◌≤◌, List, length, take, drop, vec_len};
ghost use Rattle.std.specs.Prelude.{All, IsTrue, ◌↔◌, OnOk, IfOk, IfErr, IfSome, IfNone, IsOk};
ghost use Rattle.std.specs.Vec.{vec_capacity};
ghost use Rattle.replay.specs.Window.{IsSoundWindow};
ghost use Rattle.esp.specs.Judging.{IsNumber};
ghost use Rattle.esp.specs.Packet.{check_value, BeginsWithItsSpi};
ghost use Rattle.esp.specs.Ahead.{AreAhead, HasFreshNumber, IsAhead, IsAsked, RunsFirst};
ghost use Rattle.esp.specs.Precomputed.{IsPrecomputed, IsQuestion};
ghost use Rattle.esp.specs.Opening.{IsOpeningRefusal, IsFreshNumber, HandsUp, Refuses, Step};
ghost use Rattle.esp.specs.Delivery.{AnswersFirst, IsStop, JudgesAtMostOnce, JudgesExactlyAtFirst, answers_since, octets_of};

use crate::ahead::{Ahead, Asked, ahead_at, values_ahead};
use crate::check_values::{FEW, GROUP};
use crate::load::{PACKETS_LEAST, gain_by_lanes};
use crate::packet::{
    CHECK, HEAD, contents, high_half, is_check_value, is_judged_length, low_half_of,
};
use crate::precomputed::{Precomputed, Question, own_of};
use crate::sa::Sa;
use crate::{EspFault, ListFault, ListStop};
use lanes::LaneKey;
use replay::{Judgement, Window, recover};
use std::marker::Model;

/// The receiver's end of an SA: it opens packets, each at most once.
#[derive(Drop)]
pub struct Inbound<W: Window> {
    association: Sa,
    window: W,
    // From how many packets on a list's ICVs are computed side by side.
    lanes: usize,
}

impl<W: Window> Model for Inbound<W> {
    ghost use Rattle.esp.specs.Views.{Receiving, receiving_code};

    ghost Value = { Receiving };

    ghost coded = { receiving_code };

    ghost view = { λ i. record { association = i.association; window = W.seen i.window } };
}

/// A packet that was opened.
#[derive(Clone, Copy, Debug, PartialEq, Eq)]
pub struct Opened<'a> {
    /// The packet's sequence number, with the high half where ESN is used.
    pub number: u64,
    /// The next header: the protocol of the payload.
    pub next: u8,
    /// The payload, which is a part of the packet.
    pub payload: &'a [u8],
}

impl<W: Window> Inbound<W> {
    /// The end with this SPI, key of 32 octets and replay window, which knows the sequence numbers taken so
    /// far. Numbers have 64 bits if `extended`, else 32.
    pub fn new(spi: u32, key: &[u8; 32], extended: bool, window: W) -> Inbound<W>
        ensures { result ≡ record {
          association = record { spi = spi; key = key.now; extended = extended };
          window = W.seen window;
        } }
    {
        let key = LaneKey::new(key);
        Inbound {
            association: Sa { spi, key, extended },
            window,
            lanes: PACKETS_LEAST,
        }
    }

    /// Has lists of so many packets or more have their ICVs computed side by side, as
    /// [`Outbound::begin_lanes_at`](crate::Outbound::begin_lanes_at) has.
    pub fn begin_lanes_at(&mut self, packets: usize)
        ensures { self.new ≡ self.old }
    {
        self.lanes = packets;
    }

    /// The security parameters index that its packets begin with.
    pub fn spi(&self) -> u32
        ensures { result ≡ self.now.association.spi }
    {
        self.association.spi
    }

    /// The key of its ICVs.
    pub fn key(&self) -> [u8; 32]
        ensures { result ≡ self.now.association.key }
    {
        self.association.key.octets()
    }

    /// Whether its sequence numbers have 64 bits, of which 32 are sent (RFC 4303 section 2.2.1), or 32.
    pub fn is_extended(&self) -> bool
        ensures { result ≡ self.now.association.extended }
    {
        self.association.extended
    }

    /// The greatest sequence number that its replay window has taken, 0 for none.
    pub fn top(&self) -> u64
        ensures { result ≡ self.now.window.top }
    {
        self.window.top()
    }

    /// What holds of the replay window at all times. Does nothing.
    pub fn window_is_sound(&self)
        ensures { IsSoundWindow self.now.window }
    {
        let _ = &self.window;
    }

    /// Opens a packet: judges it, takes its sequence number, and delivers its payload as a part of it (RFC
    /// 4303 section 3.4). The caller asks only with packets that begin with the SPI, or are shorter than one.
    ///
    /// Refused, in this order, with nothing changed:
    /// - [`EspFault::BadLength`] unless the length is a multiple of 4 from 28 to 16,664 octets;
    /// - [`EspFault::BadNumber`] where the low half of the number is 0, or, with ESN, where
    ///   [`replay::recover`] finds none;
    /// - [`EspFault::Old`] where the number lies below the window, [`EspFault::Replayed`] where it was taken;
    /// - [`EspFault::BadIcv`] where the last 16 octets are not the ICV of the rest (RFC 4303 section 3.4.4);
    /// - [`EspFault::Memory`] where the window wants memory to take the number.
    ///
    /// Then the number is taken, and [`EspFault::BadPadding`] leaves it so.
    ///
    /// No memory but the window's is taken, and nothing is copied. A packet whose ICV covers n octets costs
    /// ceil((n + 9) / 64) + 1 compressions of SHA-256.
    pub fn open<'a>(&mut self, packet: &'a [u8]) -> Result<Opened<'a>, EspFault>
        requires { BeginsWithItsSpi self.old.association packet.now }
        ensures up { IfOk result (λ o. HandsUp self.old packet.now o.number o.next o.payload.now self.new) }
        ensures refused { IfErr result (λ e. Refuses W.may_want self.old packet.now e self.new) }
    {
        self.open_with(packet, None)
    }

    /// What the ICV of a packet is computed from, where the packet has a sequence number that was not taken.
    /// For [`precompute`](crate::precompute).
    pub fn question<'a>(&'a self, packet: &'a [u8]) -> Option<Question<'a>>
        ensures { IfSome result (IsQuestion packet.now) }
    {
        match self.fresh_number(packet) {
            Ok(number) => Some(Question::new(&self.association, number, packet)),
            Err(_) => None,
        }
    }

    /// Opens a packet as [`open`](Inbound::open) does. An ICV that was computed before is used where it was
    /// computed with this key, and for the sequence number that the packet has now; else the packet's own is
    /// computed.
    pub fn open_ahead<'a>(
        &mut self,
        packet: &'a [u8],
        ahead: Option<Precomputed>,
    ) -> Result<Opened<'a>, EspFault>
        requires mine { BeginsWithItsSpi self.old.association packet.now }
        requires ahead { IfSome ahead (IsPrecomputed packet.now) }
        ensures up { IfOk result (λ o. HandsUp self.old packet.now o.number o.next o.payload.now self.new) }
        ensures refused { IfErr result (λ e. Refuses W.may_want self.old packet.now e self.new) }
    {
        let own = own_of(&self.association, ahead);
        self.open_with(packet, own)
    }

    // Opens a packet as [`Inbound::open`] does, with its ICV where it was computed ahead for its sequence
    // number.
    fn open_with<'a>(
        &mut self,
        packet: &'a [u8],
        ahead: Option<Ahead>,
    ) -> Result<Opened<'a>, EspFault>
        requires mine { BeginsWithItsSpi self.old.association packet.now }
        requires ahead { IfSome ahead (IsAhead self.old.association packet.now) }
        ensures up { IfOk result (λ o. HandsUp self.old packet.now o.number o.next o.payload.now self.new) }
        ensures refused { IfErr result (λ e. Refuses W.may_want self.old packet.now e self.new) }
    {
        let number = self.fresh_number(packet)?;
        let value = self.association.value_with(number, packet, ahead);
        if !is_check_value(&packet[packet.len() - CHECK..], &value) {
            return Err(EspFault::BadIcv);
        }
        if self.window.take(number).is_err() {
            return Err(EspFault::Memory);
        }
        let Some((next, length)) = contents(packet) else {
            return Err(EspFault::BadPadding);
        };
        Ok(Opened {
            number,
            next,
            payload: &packet[HEAD..HEAD + length],
        })
    }

    // The packet's sequence number, if it has one that was not taken.
    fn fresh_number(&self, packet: &[u8]) -> Result<u64, EspFault>
        ensures fresh { IfOk result (IsFreshNumber self.now packet.now) }
        ensures refused { IfErr result (IsOpeningRefusal self.now.association self.now.window packet.now) }
    {
        if !is_judged_length(packet.len()) {
            return Err(EspFault::BadLength);
        }
        let number = self
            .number_of(low_half_of(packet))
            .ok_or(EspFault::BadNumber)?;
        match self.window.judge(number) {
            Judgement::Zero => Err(EspFault::BadNumber),
            Judgement::Old => Err(EspFault::Old),
            Judgement::Taken => Err(EspFault::Replayed),
            Judgement::Fresh => Ok(number),
        }
    }

    // The sequence number that a low half stands for.
    fn number_of(&self, low: u32) -> Option<u64>
        ensures some { IfSome result (IsNumber self.now.association.extended self.now.window low) }
        ensures none { IfNone result
            ((n : ℕ) → ¬ IsNumber self.now.association.extended self.now.window low n) }
    {
        if self.association.extended {
            recover(self.window.top(), self.window.size(), low)
        } else {
            (low != 0).then_some(u64::from(low))
        }
    }

    /// Opens packets in order, and appends for each what [`open`](Inbound::open) answers of it. The caller
    /// asks only with packets whose first four octets, where there are four, are the SPI.
    ///
    /// Whatever was delivered, no sequence number is accepted twice. If nothing but what was sent passes the
    /// integrity check, a packet is accepted exactly at its first delivery at which its number is rightly
    /// recovered and lies inside or above the window; at every other delivery no payload is delivered and no
    /// number is taken. A packet that is refused for memory counts as not delivered.
    ///
    /// Stopped by [`ListFault::NoRoom`], after so many packets as the refusal says, where there was no
    /// memory for the next answer. The place of an answer is reserved before its packet is opened: none is
    /// opened without its answer.
    ///
    /// ICVs are computed side by side, for at most 64 packets at a time, where that gains time: those of the
    /// packets that pass length, number and window as they are at the head of the group. Packets are judged
    /// one after the other all the same, and where another number is recovered when a packet's turn comes its
    /// ICV is computed again, alone.
    ///
    /// No value is computed ahead of a packet that is refused before its ICV at the head of its group; one
    /// that an earlier packet of its group makes old or replayed costs its own. No memory is taken but for
    /// `out` and the window.
    pub fn open_all<'a>(
        &mut self,
        packets: &[&'a [u8]],
        out: &mut Vec<Result<Opened<'a>, EspFault>>,
    ) -> Result<(), ListStop<ListFault>>
        requires { All (BeginsWithItsSpi self.old.association) (octets_of packets.now) }
        ensures at_most_once { JudgesAtMostOnce self.old (octets_of packets.now)
            (answers_since out.old.items out.new.items) }
        ensures exactly_at_first { JudgesExactlyAtFirst self.old (octets_of packets.now)
            (answers_since out.old.items out.new.items) }
        ensures answers { OnOk result (AnswersFirst W.may_want (length packets.now) self.old
            (octets_of packets.now) out.old.items self.new out.new.items) }
        ensures stopped { IfErr result (λ stop. IsStop W.may_want self.old
            (octets_of packets.now) out.old.items stop self.new out.new.items) }
        ensures room { vec_len out.old + length packets.now ≤ vec_capacity out.old → IsOk result }
    {
        self.answer_each(packets, out)
    }

    // Opens packets in order, in groups.
    fn answer_each<'a>(
        &mut self,
        packets: &[&'a [u8]],
        out: &mut Vec<Result<Opened<'a>, EspFault>>,
    ) -> Result<(), ListStop<ListFault>>
        requires { All (BeginsWithItsSpi self.old.association) (octets_of packets.now) }
        ensures all { OnOk result (AnswersFirst W.may_want (length packets.now) self.old
            (octets_of packets.now) out.old.items self.new out.new.items) }
        ensures stopped { IfErr result (λ stop. IsStop W.may_want self.old
            (octets_of packets.now) out.old.items stop self.new out.new.items) }
        ensures room { vec_len out.old + length packets.now ≤ vec_capacity out.old → IsOk result }
    {
        // Every window is sound, also where no packet comes.
        let _ = &self.window;
        for group in 0..packets.len().div_ceil(GROUP) {
            let start = GROUP * group;
            let count = (packets.len() - start).min(GROUP);
            let answered = self.answer_group(&packets[start..start + count], out);
            if answered < count {
                return Err(ListStop {
                    done: start + answered,
                    fault: ListFault::NoRoom,
                });
            }
        }
        Ok(())
    }

    // Opens packets in order, at most as many as a group has; answers how many. ICVs are computed ahead where
    // that gains time: a list of one packet, as most are, needs none of the arrays.
    fn answer_group<'a>(
        &mut self,
        packets: &[&'a [u8]],
        out: &mut Vec<Result<Opened<'a>, EspFault>>,
    ) -> usize
        requires mine { All (BeginsWithItsSpi self.old.association) (octets_of packets.now) }
        requires few { length packets.now ≤ GROUP }
        ensures first { RunsFirst W.may_want result self.old (octets_of packets.now)
            out.old.items self.new out.new.items }
        ensures room { vec_len out.old + length packets.now ≤ vec_capacity out.old
            → result ≡ length packets.now }
        ensures capacity { vec_capacity out.old ≤ vec_capacity out.new }
        ensures size { vec_len out.new ≡ vec_len out.old + result }
    {
        if !gain_by_lanes(packets, self.lanes) {
            return self.answer_with(packets, &[], out);
        }
        if packets.len() <= FEW {
            self.answer_by_lanes::<FEW>(packets, out)
        } else {
            self.answer_by_lanes::<GROUP>(packets, out)
        }
    }

    // The same where that gains time, with arrays for `N` packets.
    fn answer_by_lanes<'a, const N: usize>(
        &mut self,
        packets: &[&'a [u8]],
        out: &mut Vec<Result<Opened<'a>, EspFault>>,
    ) -> usize
        requires mine { All (BeginsWithItsSpi self.old.association) (octets_of packets.now) }
        requires group { N ≤ GROUP }
        requires few { length packets.now ≤ N }
        ensures first { RunsFirst W.may_want result self.old (octets_of packets.now)
            out.old.items self.new out.new.items }
        ensures room { vec_len out.old + length packets.now ≤ vec_capacity out.old
            → result ≡ length packets.now }
        ensures capacity { vec_capacity out.old ≤ vec_capacity out.new }
        ensures size { vec_len out.new ≡ vec_len out.old + result }
    {
        let (asked, count) = self.fresh_packets::<N>(packets);
        if count < self.lanes {
            return self.answer_with(packets, &[], out);
        }
        let ahead = values_ahead::<N>(&self.association, packets, &asked[..count], self.lanes);
        self.answer_with(packets, &ahead, out)
    }

    // The packets that have a sequence number that was not taken, as the receiver is now; and how many.
    fn fresh_packets<const N: usize>(&self, packets: &[&[u8]]) -> ([Asked; N], usize)
        requires { length packets.now ≤ N }
        ensures asked { All (IsAsked (octets_of packets.now)) (take result.1 result.0) }
        ensures fresh { All (HasFreshNumber self.now (octets_of packets.now)) (take result.1 result.0) }
        ensures few { result.1 ≤ length packets.now }
    {
        let mut asked = [Asked {
            place: 0,
            number: 0,
            half: [0; 4],
        }; N];
        let mut count = 0;
        for (place, packet) in packets.iter().enumerate() {
            if let Ok(number) = self.fresh_number(packet) {
                asked[count] = Asked {
                    place,
                    number,
                    half: high_half(number),
                };
                count += 1;
            }
        }
        (asked, count)
    }

    // Opens packets in order, each after the place of its answer was reserved, with the ICVs that were
    // computed ahead; answers how many.
    fn answer_with<'a>(
        &mut self,
        packets: &[&'a [u8]],
        ahead: &[Option<Ahead>],
        out: &mut Vec<Result<Opened<'a>, EspFault>>,
    ) -> usize
        requires mine { All (BeginsWithItsSpi self.old.association) (octets_of packets.now) }
        requires ahead { AreAhead self.old.association (octets_of packets.now) ahead.now }
        ensures first { RunsFirst W.may_want result self.old (octets_of packets.now)
            out.old.items self.new out.new.items }
        ensures room { vec_len out.old + length packets.now ≤ vec_capacity out.old
            → result ≡ length packets.now }
        ensures capacity { vec_capacity out.old ≤ vec_capacity out.new }
        ensures size { vec_len out.new ≡ vec_len out.old + result }
    {
        for (done, packet) in packets.iter().enumerate() {
            if out.reserve(1).is_err() {
                return done;
            }
            let answer = self.open_with(packet, ahead_at(ahead, done));
            out.push_reserved(answer);
        }
        packets.len()
    }
}

//! The SA pairs of a table, by their serials.
ghost use Rattle.std.specs.Vec.{vec_capacity};
ghost use Rattle.esp.specs.declared.fault.EspFault.{EspFault};
ghost use Rattle.esp.specs.Laying.{StaysBehind, packet_size};
ghost use Rattle.esp.specs.Precomputed.{IsPrecomputed};
ghost use Rattle.std.specs.Prelude.{◌≢◌, [], length, take, vec_len, ◌≡◌, ◌+◌, ◌<◌, ◌≤◌, ◌^◌, ℕ, List, Some, None, IsOk, OnOk, IfOk, IfErr, IfSome, IfNone, IsSome, IsTrue, ◌↔◌};
ghost use Rattle.std.specs.Option.{option_copied};
ghost use Rattle.std.specs.FinMap as map;
ghost use Rattle.policy.specs.Decisions.{Covers};
ghost use Rattle.replay.specs.Window.{IsSoundWindow};
ghost use Rattle.sadb.specs.declared.pair.Pair as held;
ghost use Rattle.sadb.specs.Database.{BelongsTo, Carries, IsAfter, IsForPair, IsNextOf, IsOutbound, SealRefusalAt};
ghost use Rattle.sadb.specs.Laying.{finished_at, finished_at_behind};
ghost use Rattle.sadb.specs.Storage.{MarksPair, OpensPair, RefusesPair, SealsPair, key_of};

use crate::pair::{Pair, State};
use esp::{EspFault, Opened, Precomputed};
use policy::{Flow, covers};
use slab::Slab;
use std::alloc::{AllocError, Global};
use std::marker::Model;

// The SA pairs, in a slab, with the slab's key of each serial from 1 on.
#[derive(Drop)]
pub(crate) struct Pairs {
    keys: Vec<Option<usize>>,
    slab: Slab<Pair>,
}

impl Model for Pairs {
    ghost use Rattle.std.specs.Prelude.{◌+◌, ◌-◌, length, min, vec_capacity};
    ghost use Rattle.slab.specs.Slab.{slab_len};
    ghost use Rattle.sadb.specs.Storage.{PairsBySerial, by_serial_code, IsIndexed, shown_pairs};

    ghost Value = { PairsBySerial };

    ghost coded = { by_serial_code };

    ghost view = { λ a. record {
      next = length a.keys.items + 1;
      pairs = shown_pairs a.keys.items a.slab;
      room = min (vec_capacity a.keys - length a.keys.items) (a.slab.capacity - slab_len a.slab);
    } };

    ghost invariant = { λ a. IsIndexed a.keys.items a.slab };
}

// The slab's key of a serial.
fn key(keys: &[Option<usize>], serial: u32) -> Option<usize>
    ensures { result ≡ key_of keys.now serial }
{
    *keys.get((serial as usize).checked_sub(1)?)?
}

// Whether an SA pair carries a flow outward.
fn carries(pair: &Pair, flow: &Flow) -> bool
    ensures { IsTrue result ↔
        ((pair.now.state ≡ State.Live) × Covers pair.now.local pair.now.remote flow.now) }
{
    pair.state == State::Live && covers(pair.local.as_slice(), pair.remote.as_slice(), flow)
}

impl Pairs {
    /// None yet. Takes no memory.
    pub fn new(alloc: Global) -> Pairs
        ensures { result ≡ record { next = 1; pairs = map.empty; room = 0 } }
    {
        Pairs {
            keys: Vec::new(alloc),
            slab: Slab::new(alloc),
        }
    }

    /// What holds of all SA pairs. Does nothing.
    pub fn invariants_hold(&self)
        ensures first { 1 ≤ self.now.next }
        ensures serial { (serial : ℕ) (pair : held.Pair) → map.get self.now.pairs serial ≡ Some pair
            → pair.serial ≡ serial }
        ensures windows { (serial : ℕ) (pair : held.Pair) → map.get self.now.pairs serial ≡ Some pair
            → IsSoundWindow pair.inbound.window }
        ensures given { (serial : ℕ) → IsSome (map.get self.now.pairs serial)
            → (1 ≤ serial) × (serial < self.now.next) }
    {
        // Opens the model, so that its invariant is known here.
        let _ = &self.keys;
    }

    /// How many there are.
    pub fn len(&self) -> usize
        ensures { result ≡ map.len self.now.pairs }
    {
        self.slab.len()
    }

    /// Makes room for so many more, where there isn't.
    pub fn make_room(&mut self, more: usize) -> Result<(), AllocError>
        ensures content { self.new ≡ record self.old { room = self.new.room } }
        ensures room { self.old.room ≤ self.new.room }
        ensures ok { OnOk result (more ≤ self.new.room) }
        ensures succeeds { more ≤ self.old.room → IsOk result }
    {
        self.keys.reserve(more)?;
        // With `more` = 0 too the slab's `reserve` is not refused: what it holds fits its capacity.
        prove!(self.slab.len() <= self.slab.capacity());
        self.slab.reserve(more)
    }

    /// Adds an SA pair, for which there is room, and answers the serial that it has from now on.
    pub fn add(&mut self, mut pair: Pair) -> u32
        requires room { 1 ≤ self.old.room }
        requires fits { self.old.next < 2 ^ 32 }
        ensures next { result ≡ self.old.next }
        ensures new_serial { map.get self.old.pairs result ≡ None }
        ensures content { self.new ≡ record {
          next = self.old.next + 1;
          pairs = map.insert self.old.pairs result (record pair { serial = result });
          room = self.new.room;
        } }
        ensures room { self.old.room ≤ self.new.room + 1 }
        ensures no_more { self.new.room ≤ self.old.room }
    {
        let serial = self.keys.len() as u32 + 1;
        pair.serial = serial;
        // The invariant wants each SA pair's window sound.
        pair.inbound.window_is_sound();
        let key = self.slab.insert_reserved(pair);
        self.keys.push_reserved(Some(key));
        serial
    }

    /// Takes an SA pair out.
    pub fn remove(&mut self, serial: u32) -> Pair
        requires { IsSome (map.get self.old.pairs serial) }
        ensures there { map.get self.old.pairs serial ≡ Some result }
        ensures content { self.new
            ≡ record self.old { pairs = map.remove self.old.pairs serial; room = self.new.room } }
        ensures room { self.old.room ≤ self.new.room }
        ensures no_more { self.new.room ≤ self.old.room + 1 }
    {
        let key = key(&self.keys, serial).unwrap();
        self.keys[serial as usize - 1] = None;
        self.slab.remove(key)
    }

    /// The SA pair with a serial.
    pub fn get(&self, serial: u32) -> Option<&Pair>
        ensures value { option_copied result ≡ map.get self.now.pairs serial }
        ensures own_serial { IfSome result (λ p. p.now.serial ≡ serial) }
    {
        self.slab.get(key(&self.keys, serial)?)
    }

    /// Ends an SA pair's traffic outward.
    pub fn mark(&mut self, serial: u32)
        requires { IsSome (map.get self.old.pairs serial) }
        ensures marked { MarksPair self.old.pairs serial self.new.pairs }
        ensures rest { self.new ≡ record self.old { pairs = self.new.pairs } }
    {
        let key = key(&self.keys, serial).unwrap();
        self.slab[key].state = State::Deleting;
    }

    /// Opens a packet by an SA pair's inbound SA, with its ICV where that was computed before.
    pub fn open<'a>(
        &mut self,
        serial: u32,
        packet: &'a [u8],
        ahead: Option<Precomputed>,
    ) -> Result<Opened<'a>, EspFault>
        requires asked { IsForPair self.old.pairs serial packet.now }
        requires ahead { IfSome ahead (IsPrecomputed packet.now) }
        ensures up { IfOk result
            (λ o. OpensPair self.old.pairs serial packet.now o.number o.next o.payload.now self.new.pairs) }
        ensures refused { IfErr result
            (λ fault. RefusesPair self.old.pairs serial packet.now fault self.new.pairs) }
        ensures rest { self.new ≡ record self.old { pairs = self.new.pairs } }
    {
        let key = key(&self.keys, serial).unwrap();
        let inbound = &mut self.slab[key].inbound;
        let opened = inbound.open_ahead(packet, ahead);
        // The invariant wants each SA pair's window sound.
        inbound.window_is_sound();
        opened
    }

    /// Lays a packet by an SA pair's outbound SA.
    pub fn lay(
        &mut self,
        serial: u32,
        next: u8,
        payload: &[u8],
        out: &mut Vec<u8>,
    ) -> Result<u64, EspFault>
        requires { IsSome (map.get self.old.pairs serial) }
        ensures sealed { IfOk result (λ number.
            SealsPair self.old.pairs serial next payload.now out.old.items number self.new.pairs
            (finished_at_behind (length out.old.items) self.new.pairs serial number out.new.items)) }
        ensures refused { IfErr result (λ fault. SealRefusalAt self.old.pairs serial payload.now fault
            × (self.new ≡ self.old) × (out.new.items ≡ out.old.items)) }
        ensures rest { self.new ≡ record self.old { pairs = self.new.pairs } }
        ensures space { vec_len out.old + (length payload.now + 29) ≤ vec_capacity out.old
            → IfErr result (λ fault. fault ≢ EspFault.Memory) }
        ensures behind { length out.old.items ≤ length out.new.items }
    {
        let key = key(&self.keys, serial).unwrap();
        self.slab[key].outbound.lay(next, payload, out)
    }

    /// Lays a packet by an SA pair's outbound SA, at the beginning of a room.
    pub fn lay_in(
        &mut self,
        serial: u32,
        next: u8,
        payload: &[u8],
        room: &mut [u8],
    ) -> Result<u64, EspFault>
        requires there { IsSome (map.get self.old.pairs serial) }
        requires fits { length payload.now + 29 ≤ length room.old }
        ensures sealed { IfOk result (λ number.
            SealsPair self.old.pairs serial next payload.now [] number self.new.pairs
            (finished_at self.new.pairs serial number (take (packet_size (length payload.now)) room.new))) }
        ensures behind { OnOk result (StaysBehind (packet_size (length payload.now)) room.old room.new) }
        ensures refused { IfErr result (λ fault. SealRefusalAt self.old.pairs serial payload.now fault
            × (self.new ≡ self.old) × (room.new ≡ room.old)) }
        ensures memory { IfErr result (λ fault. fault ≢ EspFault.Memory) }
        ensures rest { self.new ≡ record self.old { pairs = self.new.pairs } }
    {
        let key = key(&self.keys, serial).unwrap();
        self.slab[key].outbound.lay_in(next, payload, room)
    }

    /// The next SA pair by serial.
    pub fn after(&self, serial: u32) -> Option<&Pair>
        ensures some { IfSome result (λ pair. IsAfter self.now.pairs serial pair.now) }
        ensures none { IfNone result ((other : ℕ) → serial < other → map.get self.now.pairs other ≡ None) }
    {
        let mut first: Option<u32> = None;
        for (_, pair) in self.slab.iter() {
            if serial < pair.serial {
                first = Some(first.unwrap_or(pair.serial).min(pair.serial));
            }
        }
        self.get(first?)
    }

    /// The serial of the next SA pair.
    pub fn next(&self) -> u32
        requires { self.now.next < 2 ^ 32 }
        ensures { result ≡ self.now.next }
    {
        self.keys.len() as u32 + 1
    }

    /// Whether a serial is that of an SA pair of an IKE SA.
    pub fn belongs_to(&self, serial: u32, ike: u32) -> bool
        ensures { IsTrue result ↔ BelongsTo self.now.pairs ike serial }
    {
        match self.get(serial) {
            Some(pair) => pair.ike == ike,
            None => false,
        }
    }

    /// The serial of the next SA pair of an IKE SA.
    pub fn next_of(&self, ike: u32, serial: u32) -> Option<u32>
        requires { self.now.next < 2 ^ 32 }
        ensures some { IfSome result (IsNextOf self.now.pairs ike serial) }
        ensures none { IfNone result ((other : ℕ) → serial < other → ¬ BelongsTo self.now.pairs ike other) }
    {
        self.invariants_hold();
        for other in serial.saturating_add(1)..self.next() {
            if self.belongs_to(other, ike) {
                return Some(other);
            }
        }
        None
    }

    /// Of the SA pairs that carry a flow outward, the one of the greatest serial: the first that is met from
    /// the greatest serial down.
    pub fn outbound(&self, flow: &Flow) -> Option<u32>
        requires { self.now.next < 2 ^ 32 }
        ensures some { IfSome result (IsOutbound self.now.pairs flow.now) }
        ensures none { IfNone result ((serial : ℕ) → ¬ Carries self.now.pairs flow.now serial) }
    {
        self.invariants_hold();
        for serial in (1..self.next()).rev() {
            if self.carries_by(serial, flow) {
                return Some(serial);
            }
        }
        None
    }

    // Whether the SA pair with a serial, if there is one, carries a flow outward.
    fn carries_by(&self, serial: u32, flow: &Flow) -> bool
        ensures { IsTrue result ↔ Carries self.now.pairs flow.now serial }
    {
        match self.get(serial) {
            Some(pair) => carries(pair, flow),
            None => false,
        }
    }
}

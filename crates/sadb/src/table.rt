//! The SA table.
ghost use Rattle.std.specs.Prelude.{◌≡◌, ◌≢◌, ◌+◌, [], take, ◌<◌, ◌≤◌, ℕ, List, Some, None, OnOk, IfOk, IfErr, IfSome, IfNone, IsOk, length, vec_len};
ghost use Rattle.sadb.specs.Database.{IsStart, empty_table, IsFull, IsSpent, IsTableRefusal, IsAsBefore, Reserves, IsReserved, Releases, Installs};
ghost use Rattle.sadb.specs.Database.{pair_at, IsThere, Removes, IsLive, Marks, HasInbound, IsInbound, IsSoundTable, IsAfter, Carries, IsOutbound};
ghost use Rattle.sadb.specs.Database.{BelongsTo, IsForPair, IsNextOf, OpensAt, RefusesAt, RemovesAllOf, SealsAt, SealRefusalAt};
ghost use Rattle.std.specs.Option.{option_copied};
ghost use Rattle.std.specs.Vec.{vec_capacity};
ghost use Rattle.sadb.specs.Laying.{finished_at, finished_at_behind};
ghost use Rattle.sadb.specs.Storage.{RemovesIfOf};
ghost use Rattle.esp.specs.declared.fault.EspFault.{EspFault};
ghost use Rattle.esp.specs.Laying.{StaysBehind, packet_size};
ghost use Rattle.esp.specs.Precomputed.{IsPrecomputed, IsQuestion};

use crate::pairs::Pairs;
use crate::places::Places;
use crate::{Pair, Spi, TableFault};
use esp::{EspFault, Opened, Precomputed, Question};
use policy::Flow;
use std::alloc::Global;
use std::marker::Model;

// The most SA pairs and reserved SPIs together, a limit of this implementation.
const HELD_LIMIT: usize = 1024;

// The most SPIs that are ever given, a limit of this implementation.
const GIVEN_LIMIT: usize = 65_536;

/// The security association database of one end (RFC 4301 section 4.4.2): SA pairs by their serials, and the
/// inbound SPIs that were given for them. No SPI is given twice.
///
/// A pair comes in two steps, so that nothing is lost where memory runs out: [`reserve`](Table::reserve)
/// gives an SPI and makes room for its pair, and [`install`](Table::install) uses that room. Where other
/// memory has to be asked for between the two, or no SPI may be given in vain, [`prepare`](Table::prepare)
/// makes room first, and tells the SPI.
///
/// Finding a pair by its inbound SPI, opening and sealing cost the same however many pairs there are.
#[derive(Drop)]
pub struct Table {
    places: Places,
    pairs: Pairs,
}

impl Model for Table {
    ghost use Rattle.std.specs.Prelude.{◌-◌, min};
    ghost use Rattle.std.specs.FinSet as set;
    ghost use Rattle.sadb.specs.Database.{Database, database_code};
    ghost use Rattle.sadb.specs.Storage.{IsTable};

    ghost Value = { Database };

    ghost coded = { database_code };

    ghost view = { λ a. record {
      start = a.places.start;
      given = a.places.given;
      reserved = a.places.reserved;
      next = a.pairs.next;
      pairs = a.pairs.pairs;
      room = min a.places.room (a.pairs.room - set.len a.places.reserved);
    } };

    ghost invariant = { λ a. IsTable a.places a.pairs };
}

impl Table {
    /// An empty table whose first inbound SPI is `start`, from 256 to 2^32 - 65,536. Takes no memory.
    pub fn new(alloc: Global, start: u32) -> Table
        requires { IsStart start }
        ensures { result ≡ empty_table start }
    {
        Table {
            places: Places::new(alloc, start),
            pairs: Pairs::new(alloc),
        }
    }

    /// What holds of every table. Does nothing.
    pub fn invariants_hold(&self)
        ensures { IsSoundTable self.now }
    {
        self.places.invariants_hold();
        self.pairs.invariants_hold();
    }

    /// Makes room for one more SA pair, and tells the SPI that the next [`reserve`](Table::reserve) gives.
    /// Nothing else is changed. Where there is room already, as right after another `prepare`, it takes no
    /// memory.
    ///
    /// Refused, in this order: [`TableFault::Full`] where pairs and reserved SPIs together are 1024,
    /// [`TableFault::Spent`] where 65,536 SPIs were given, [`TableFault::Memory`] where there was no memory
    /// for the room.
    pub fn prepare(&mut self) -> Result<u32, TableFault>
        ensures content { IsAsBefore self.old self.new }
        ensures ok { IfOk result (λ spi. (spi ≡ self.old.start + self.old.given) × (1 ≤ self.new.room)
            × (¬ IsFull self.old) × (¬ IsSpent self.old)) }
        ensures refused { IfErr result (IsTableRefusal self.old) }
        ensures succeeds { 1 ≤ self.old.room → ¬ IsFull self.old → ¬ IsSpent self.old → IsOk result }
    {
        if self.pairs.len() + self.places.reserved() >= HELD_LIMIT {
            return Err(TableFault::Full);
        }
        if self.places.given() >= GIVEN_LIMIT {
            return Err(TableFault::Spent);
        }
        if self.places.make_room().is_err() {
            return Err(TableFault::Memory);
        }
        if self.pairs.make_room(self.places.reserved() + 1).is_err() {
            return Err(TableFault::Memory);
        }
        Ok(self.places.next())
    }

    /// Gives the next inbound SPI and makes room for its SA pair. Right after a [`prepare`](Table::prepare)
    /// that answered Ok it takes no memory and is not refused.
    ///
    /// Refused as [`prepare`](Table::prepare) is, with nothing changed.
    pub fn reserve(&mut self) -> Result<Spi, TableFault>
        ensures ok { IfOk result
            (λ spi. Reserves self.old spi self.new × (¬ IsFull self.old) × (¬ IsSpent self.old)) }
        ensures reserved { IfOk result (IsReserved self.new) }
        ensures refused { IfErr result
            (λ fault. IsTableRefusal self.old fault × IsAsBefore self.old self.new) }
        ensures succeeds { 1 ≤ self.old.room → ¬ IsFull self.old → ¬ IsSpent self.old → IsOk result }
    {
        self.prepare()?;
        Ok(Spi::new(self.places.reserve()))
    }

    /// Gives a reserved SPI up; it is not given again. The caller asks only for an SPI that is reserved.
    /// Takes no memory.
    pub fn release(&mut self, spi: Spi)
        requires { IsReserved self.old spi }
        ensures { Releases self.old spi self.new }
    {
        self.places.release(spi.number());
    }

    /// Adds the SA pair for which an SPI was reserved, and answers the serial that it has from now on. The
    /// caller asks only for an SPI that is reserved, with a pair of that inbound SPI. Takes no memory: room
    /// was made with the SPI.
    pub fn install(&mut self, spi: Spi, pair: Pair) -> u32
        requires reserved { IsReserved self.old spi }
        requires its_own { pair.inbound.association.spi ≡ spi }
        ensures { Installs self.old spi pair result self.new }
    {
        let serial = self.pairs.add(pair);
        self.places.hold(spi.number(), serial);
        serial
    }

    /// Takes an SA pair out for good; its inbound SPI is not given again. The caller asks only for one that
    /// is there. Takes no memory.
    pub fn remove(&mut self, serial: u32)
        requires { IsThere self.old.pairs serial }
        ensures { Removes self.old serial self.new }
    {
        let pair = self.pairs.remove(serial);
        self.places.retire(pair.inbound.spi());
    }

    /// The SA pair with an inbound SPI, Live or Deleting. Takes no memory, and costs the same however many
    /// pairs there are.
    pub fn inbound(&self, spi: u32) -> Option<&Pair>
        ensures some { IfSome result (λ pair. IsInbound self.now.pairs spi pair.now) }
        ensures none { IfNone result ((serial : ℕ) → ¬ HasInbound self.now.pairs spi serial) }
    {
        self.pairs.get(self.places.serial(spi)?)
    }

    /// Ends a Live SA pair's traffic outward: it is Deleting from now on, so [`outbound`](Table::outbound)
    /// passes it over. The caller asks only for one that is Live. Takes no memory.
    pub fn mark(&mut self, serial: u32)
        requires { IsLive self.old.pairs serial }
        ensures { Marks self.old serial self.new }
    {
        self.pairs.mark(serial);
    }

    /// The serial of the SA pair that carries a flow outward: of the Live pairs whose local selectors hold
    /// its source and whose remote ones hold its target, the one that was made last. The walk goes from the
    /// last serial given down, and ends at the first pair that fits. Takes no memory.
    pub fn outbound(&self, flow: &Flow) -> Option<u32>
        ensures some { IfSome result (IsOutbound self.now.pairs flow.now) }
        ensures none { IfNone result ((serial : ℕ) → ¬ Carries self.now.pairs flow.now serial) }
    {
        self.pairs.outbound(flow)
    }

    /// The SA pair with this serial. Takes no memory.
    pub fn get(&self, serial: u32) -> Option<&Pair>
        ensures { option_copied result ≡ pair_at self.now.pairs serial }
    {
        self.pairs.get(serial)
    }

    /// The next SA pair by serial; from 0 on, one after the other, all are found. Takes no memory.
    pub fn after(&self, serial: u32) -> Option<&Pair>
        ensures some { IfSome result (λ pair. IsAfter self.now.pairs serial pair.now) }
        ensures none { IfNone result ((other : ℕ) → serial < other → pair_at self.now.pairs other ≡ None) }
    {
        self.pairs.after(serial)
    }

    /// The serial of the next SA pair of an IKE SA, Live or Deleting: the least above the given one. From 0
    /// on, one after the other, all are found, in one walk over the serials given so far. Takes no memory.
    pub fn next_of(&self, ike: u32, serial: u32) -> Option<u32>
        ensures some { IfSome result (IsNextOf self.now.pairs ike serial) }
        ensures none { IfNone result ((other : ℕ) → serial < other → ¬ BelongsTo self.now.pairs ike other) }
    {
        self.pairs.next_of(ike, serial)
    }

    /// Takes all SA pairs of an IKE SA out for good, in one walk over the serials given so far. Takes no
    /// memory.
    pub fn remove_all_of(&mut self, ike: u32)
        ensures { RemovesAllOf self.old ike self.new }
    {
        self.invariants_hold();
        for serial in 0..self.pairs.next() {
            self.remove_if_of(serial, ike);
        }
    }

    // Takes an SA pair out, if it is there and belongs to an IKE SA.
    fn remove_if_of(&mut self, serial: u32, ike: u32)
        ensures { RemovesIfOf self.old ike serial self.new }
    {
        if self.pairs.belongs_to(serial, ike) {
            self.remove(serial);
        }
    }

    /// Opens a packet by the inbound SA of an SA pair, as [`esp::Inbound::open`] does, with its refusals but
    /// for an allocation failure, which never comes. The caller asks only for a pair that is there, with a
    /// packet that begins with its inbound SPI or is shorter than one. Takes no memory.
    pub fn open<'a>(&mut self, serial: u32, packet: &'a [u8]) -> Result<Opened<'a>, EspFault>
        requires { IsForPair self.old.pairs serial packet.now }
        ensures up { IfOk result
            (λ o. OpensAt self.old serial packet.now o.number o.next o.payload.now self.new) }
        ensures refused { IfErr result (λ fault. RefusesAt self.old serial packet.now fault self.new) }
        ensures unchanged { IfErr result (λ fault. fault ≢ EspFault.BadPadding → self.new ≡ self.old) }
    {
        self.open_ahead(serial, packet, None)
    }

    /// Opens a packet as [`open`](Table::open) does, with its ICV where that was computed before: it is used
    /// where it was computed with the SA pair's key and for the sequence number that the packet has now
    /// ([`esp::Inbound::open_ahead`]).
    pub fn open_ahead<'a>(
        &mut self,
        serial: u32,
        packet: &'a [u8],
        ahead: Option<Precomputed>,
    ) -> Result<Opened<'a>, EspFault>
        requires asked { IsForPair self.old.pairs serial packet.now }
        requires ahead { IfSome ahead (IsPrecomputed packet.now) }
        ensures up { IfOk result
            (λ o. OpensAt self.old serial packet.now o.number o.next o.payload.now self.new) }
        ensures refused { IfErr result (λ fault. RefusesAt self.old serial packet.now fault self.new) }
        ensures unchanged { IfErr result (λ fault. fault ≢ EspFault.BadPadding → self.new ≡ self.old) }
    {
        self.pairs.open(serial, packet, ahead)
    }

    /// Seals a payload by the outbound SA of an SA pair, as [`esp::Outbound::seal`] does: the packet is
    /// appended to `out`, which may take memory. Refused, with nothing changed, in this order:
    /// [`EspFault::Exhausted`], [`EspFault::PayloadSize`], [`EspFault::Memory`]. The caller asks only for a
    /// pair that is there, Live or Deleting.
    pub fn seal(
        &mut self,
        serial: u32,
        next: u8,
        payload: &[u8],
        out: &mut Vec<u8>,
    ) -> Result<u64, EspFault>
        requires { IsThere self.old.pairs serial }
        ensures sealed { IfOk result (λ number.
            SealsAt self.old serial next payload.now out.old.items number self.new out.new.items) }
        ensures refused { IfErr result (λ fault. SealRefusalAt self.old.pairs serial payload.now fault
            × (self.new ≡ self.old) × (out.new.items ≡ out.old.items)) }
        // A packet is its payload and 26 to 29 octets more.
        ensures room { vec_len out.old + (length payload.now + 29) ≤ vec_capacity out.old
            → IfErr result (λ fault. fault ≢ EspFault.Memory) }
    {
        let start = out.len();
        let number = self.lay(serial, next, payload, out)?;
        self.finish(serial, number, &mut out[start..], None);
        Ok(number)
    }

    /// Appends a packet as [`seal`](Table::seal) does, but with zeros in the place of its ICV, and
    /// answers its sequence number. Refused as that is. [`finish`](Table::finish) writes the ICV.
    pub fn lay(
        &mut self,
        serial: u32,
        next: u8,
        payload: &[u8],
        out: &mut Vec<u8>,
    ) -> Result<u64, EspFault>
        requires { IsThere self.old.pairs serial }
        ensures sealed { IfOk result (λ number.
            SealsAt self.old serial next payload.now out.old.items number self.new
            (finished_at_behind (length out.old.items) self.new.pairs serial number out.new.items)) }
        ensures refused { IfErr result (λ fault. SealRefusalAt self.old.pairs serial payload.now fault
            × (self.new ≡ self.old) × (out.new.items ≡ out.old.items)) }
        ensures room { vec_len out.old + (length payload.now + 29) ≤ vec_capacity out.old
            → IfErr result (λ fault. fault ≢ EspFault.Memory) }
        ensures behind { length out.old.items ≤ length out.new.items }
    {
        self.pairs.lay(serial, next, payload, out)
    }

    /// Lays a packet as [`lay`](Table::lay) does, but at the beginning of a room of the caller's
    /// ([`esp::Outbound::lay_in`]), which has 29 octets more than the payload. Refused as that is, but never
    /// for memory.
    pub fn lay_in(
        &mut self,
        serial: u32,
        next: u8,
        payload: &[u8],
        room: &mut [u8],
    ) -> Result<u64, EspFault>
        requires there { IsThere self.old.pairs serial }
        requires fits { length payload.now + 29 ≤ length room.old }
        ensures sealed { IfOk result (λ number.
            SealsAt self.old serial next payload.now [] number self.new
            (finished_at self.new.pairs serial number (take (packet_size (length payload.now)) room.new))) }
        ensures behind { OnOk result (StaysBehind (packet_size (length payload.now)) room.old room.new) }
        ensures refused { IfErr result (λ fault. SealRefusalAt self.old.pairs serial payload.now fault
            × (self.new ≡ self.old) × (room.new ≡ room.old)) }
        ensures memory { IfErr result (λ fault. fault ≢ EspFault.Memory) }
    {
        self.pairs.lay_in(serial, next, payload, room)
    }

    /// Writes the ICV into a packet that the SA pair with this serial laid under this sequence number, as
    /// [`esp::Outbound::finish`] does. No call but [`remove`](Table::remove) and
    /// [`remove_all_of`](Table::remove_all_of) changes what is written; where the pair is there no more,
    /// nothing is.
    pub fn finish(&self, serial: u32, number: u64, packet: &mut [u8], ahead: Option<Precomputed>)
        requires { IfSome ahead (IsPrecomputed packet.old) }
        ensures { packet.new ≡ finished_at self.now.pairs serial number packet.old }
    {
        if let Some(pair) = self.get(serial) {
            pair.outbound.finish(number, packet, ahead);
        }
    }

    /// What the ICV of a packet is computed from that the SA pair with this serial laid under this sequence
    /// number. For [`esp::precompute`].
    pub fn question<'a>(
        &'a self,
        serial: u32,
        number: u64,
        packet: &'a [u8],
    ) -> Option<Question<'a>>
        ensures { IfSome result (IsQuestion packet.now) }
    {
        match self.get(serial) {
            Some(pair) => pair.outbound.question(number, packet),
            None => None,
        }
    }
}

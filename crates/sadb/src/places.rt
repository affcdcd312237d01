//! The inbound SPIs given so far, each with what came of it.
ghost use Rattle.std.specs.Prelude.{◌≡◌, ◌+◌, ◌<◌, ◌≤◌, ℕ, true, false, Some, None, IsOk, OnOk, IsSome};
ghost use Rattle.std.specs.FinMap as map;
ghost use Rattle.std.specs.FinSet as set;
ghost use Rattle.sadb.specs.Database.{IsStart};
ghost use Rattle.sadb.specs.Storage.{place_at, serial_at};

use std::alloc::{AllocError, Global};
use std::marker::Model;

// What came of an SPI.
#[derive(Clone, Copy, Debug, PartialEq, Eq)]
pub(crate) enum Place {
    // Its SA pair is still to come.
    Reserved,
    // The SA pair with this serial has it.
    Held(u32),
    // Its SA pair was removed, or never came.
    Gone,
}

// The SPIs from `start` on, in the order in which they were given.
#[derive(Drop)]
pub(crate) struct Places {
    start: u32,
    places: Vec<Place>,
    reserved: usize,
}

impl Model for Places {
    ghost use Rattle.std.specs.Prelude.{◌-◌, length, vec_capacity};
    ghost use Rattle.sadb.specs.Storage.{GivenSpis, given_spis_code, AreGiven, shown_reserved, shown_serials};

    ghost Value = { GivenSpis };

    ghost coded = { given_spis_code };

    ghost view = { λ a. record {
      start = a.start;
      given = length a.places.items;
      reserved = shown_reserved a.start a.places.items;
      serials = shown_serials a.start a.places.items;
      room = vec_capacity a.places - length a.places.items;
    } };

    ghost invariant = { λ a. AreGiven a.start a.places.items a.reserved };
}

impl Places {
    /// None given yet. Takes no memory.
    pub fn new(alloc: Global, start: u32) -> Places
        requires { IsStart start }
        ensures { result
            ≡ record { start = start; given = 0; reserved = set.empty; serials = map.empty; room = 0 } }
    {
        Places {
            start,
            places: Vec::new(alloc),
            reserved: 0,
        }
    }

    /// What holds of the SPIs given, always. Does nothing.
    pub fn invariants_hold(&self)
        ensures start { IsStart self.now.start }
        ensures reserved { (spi : ℕ) → set.contains self.now.reserved spi ≡ true
            → (self.now.start ≤ spi) × (spi < self.now.start + self.now.given)
            × (map.get self.now.serials spi ≡ None) }
        ensures held { (spi : ℕ) → IsSome (map.get self.now.serials spi)
            → (self.now.start ≤ spi) × (spi < self.now.start + self.now.given) }
    {
        // Opens the model, so that its invariant is known here.
        let _ = &self.start;
    }

    /// How many SPIs were given.
    pub fn given(&self) -> usize
        ensures { result ≡ self.now.given }
    {
        self.places.len()
    }

    /// How many of them are reserved.
    pub fn reserved(&self) -> usize
        ensures { result ≡ set.len self.now.reserved }
    {
        self.reserved
    }

    /// The SPI that is given next.
    pub fn next(&self) -> u32
        requires { self.now.given < 65536 }
        ensures { result ≡ self.now.start + self.now.given }
    {
        self.start + self.places.len() as u32
    }

    /// Makes room for one more, where there is none.
    pub fn make_room(&mut self) -> Result<(), AllocError>
        ensures content { self.new ≡ record self.old { room = self.new.room } }
        ensures room { self.old.room ≤ self.new.room }
        ensures ok { OnOk result (1 ≤ self.new.room) }
        ensures succeeds { 1 ≤ self.old.room → IsOk result }
    {
        self.places.reserve(1)
    }

    /// Gives the next SPI, which is reserved from now on.
    pub fn reserve(&mut self) -> u32
        requires room { 1 ≤ self.old.room }
        requires unspent { self.old.given < 65536 }
        ensures next { result ≡ self.old.start + self.old.given }
        ensures new_spi { set.contains self.old.reserved result ≡ false }
        ensures content { self.new ≡ record self.old {
          given = self.old.given + 1;
          reserved = set.insert self.old.reserved result;
          room = self.new.room;
        } }
        ensures room { self.old.room ≤ self.new.room + 1 }
    {
        let spi = self.next();
        self.places.push_reserved(Place::Reserved);
        self.reserved += 1;
        spi
    }

    /// Gives a reserved SPI up.
    pub fn release(&mut self, spi: u32)
        requires { set.contains self.old.reserved spi ≡ true }
        ensures { self.new ≡ record self.old { reserved = set.remove self.old.reserved spi } }
    {
        let place = (spi - self.start) as usize;
        self.places[place] = Place::Gone;
        self.reserved -= 1;
    }

    /// Notes the serial of the SA pair for which an SPI was reserved.
    pub fn hold(&mut self, spi: u32, serial: u32)
        requires { set.contains self.old.reserved spi ≡ true }
        ensures content { self.new ≡ record self.old {
          reserved = set.remove self.old.reserved spi;
          serials = map.insert self.old.serials spi serial;
        } }
        ensures new_serial { map.get self.old.serials spi ≡ None }
    {
        let place = (spi - self.start) as usize;
        self.places[place] = Place::Held(serial);
        self.reserved -= 1;
    }

    /// Gives up the SPI of an SA pair; none comes with it again.
    pub fn retire(&mut self, spi: u32)
        requires { IsSome (map.get self.old.serials spi) }
        ensures { self.new ≡ record self.old { serials = map.remove self.old.serials spi } }
    {
        let held = (spi - self.start) as usize;
        self.places[held] = Place::Gone;
    }

    /// The serial of the SA pair that has an SPI.
    pub fn serial(&self, spi: u32) -> Option<u32>
        ensures { result ≡ map.get self.now.serials spi }
    {
        if spi < self.start {
            return None;
        }
        serial_at(&self.places, (spi - self.start) as usize)
    }
}

// The serial that is noted at a place.
fn serial_at(places: &[Place], place: usize) -> Option<u32>
    ensures { result ≡ serial_at (place_at places.now place) }
{
    match places.get(place) {
        Some(Place::Held(serial)) => Some(*serial),
        Some(Place::Reserved | Place::Gone) | None => None,
    }
}

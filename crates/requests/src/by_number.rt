//! Items by number.
ghost use Rattle.std.specs.Prelude.{◌≡◌, ◌+◌, ◌≤◌, ◌==◌, Some, None, IsOk, OnOk, OnErr, IfSome, IfNone, IsSome, nat_le};
ghost use Rattle.std.specs.Option.{option_copied};
ghost use Rattle.std.specs.List.{position};
ghost use Rattle.std.specs.Fn.{FnReturnsAt};
ghost use Rattle.std.specs.FinMap as map;
ghost use Rattle.std.specs.Bool.{MatchBool};
ghost use Rattle.requests.specs.Outgoing.{SomeOutstanding, NoneOutstanding, is_above};
ghost use Rattle.requests.specs.Storage.{ChangesItem, IsNextItem, HasNoneAbove, next_above};

use std::alloc::{AllocError, Global};
use std::marker::Model;

// A few items, each under a number of its own.
#[derive(Drop)]
pub(crate) struct ByNumber<T> {
    entries: Vec<(u32, T)>,
}

impl<T> Model for ByNumber<T> {
    ghost use Rattle.std.specs.Prelude.{◌-◌, length, vec_capacity};
    ghost use Rattle.std.specs.FinMap as map;
    ghost use Rattle.requests.specs.Storage.{Held, held_code, StandOnce};

    ghost Value = { Held T };

    ghost coded = { held_code T.code };

    ghost view = { λ a. record {
      items = map.from_entries a.entries.items;
      room = vec_capacity a.entries - length a.entries.items;
    } };

    ghost invariant = { λ a. StandOnce a.entries.items };
}

// The place of the entry under a number.
fn place<T>(entries: &[(u32, T)], number: u32) -> Option<usize>
    ensures { result ≡ position (λ entry. entry.0 == number) entries.now }
{
    entries.iter().position(|entry| entry.0 == number)
}

// Whether a number lies above another one, or above none.
fn is_above(low: Option<u32>, number: u32) -> bool
    ensures { result ≡ is_above low number }
{
    match low {
        None => true,
        Some(low) => low < number,
    }
}

// The least number above another one, or of all.
fn next_number<T>(entries: &[(u32, T)], low: Option<u32>) -> Option<u32>
    ensures { result ≡ next_above low None entries.now }
{
    let mut first: Option<u32> = None;
    for entry in entries {
        if is_above(low, entry.0) {
            first = Some(first.unwrap_or(entry.0).min(entry.0));
        }
    }
    first
}

impl<T> ByNumber<T> {
    /// None yet. Takes no memory.
    pub fn new(alloc: Global) -> Self
        ensures { result ≡ record { items = map.empty; room = 0 } }
    {
        ByNumber {
            entries: Vec::new(alloc),
        }
    }

    /// The item under a number.
    pub fn get(&self, number: u32) -> Option<&T>
        ensures { option_copied result ≡ map.get self.now.items number }
    {
        let place = place(&self.entries, number)?;
        Some(&self.entries[place].1)
    }

    /// Makes room for one more item, where there is none.
    pub fn make_room(&mut self) -> Result<(), AllocError>
        ensures content { self.new ≡ record self.old { room = self.new.room } }
        ensures room { self.old.room ≤ self.new.room }
        ensures ok { OnOk result (1 ≤ self.new.room) }
        ensures refused { OnErr result (self.new ≡ self.old) }
        ensures succeeds { 1 ≤ self.old.room → IsOk result }
    {
        self.entries.reserve(1)
    }

    /// Adds an item under a new number.
    pub fn add(&mut self, number: u32, item: T)
        requires room { 1 ≤ self.old.room }
        requires new_number { map.get self.old.items number ≡ None }
        ensures content { self.new ≡ record {
          items = map.insert self.old.items number item;
          room = self.new.room;
        } }
        ensures room { self.old.room ≡ self.new.room + 1 }
        ensures len { map.len self.new.items ≡ map.len self.old.items + 1 }
    {
        self.entries.push_reserved((number, item));
    }

    /// Takes an item out.
    pub fn remove(&mut self, number: u32) -> T
        requires { IsSome (map.get self.old.items number) }
        ensures there { map.get self.old.items number ≡ Some result }
        ensures content { self.new ≡ record {
          items = map.remove self.old.items number;
          room = self.old.room + 1;
        } }
    {
        let place = place(&self.entries, number).unwrap();
        self.entries.remove(place).1
    }

    /// Puts an item in the place of another one, which it answers.
    pub fn replace(&mut self, number: u32, item: T) -> T
        requires { IsSome (map.get self.old.items number) }
        ensures there { map.get self.old.items number ≡ Some result }
        ensures content { self.new ≡ record self.old { items = map.insert self.old.items number item } }
    {
        let was = self.remove(number);
        self.add(number, item);
        was
    }

    /// Changes the item under a number.
    pub fn update<F: FnOnce(T) -> T>(&mut self, number: u32, change: F)
        requires there { IsSome (map.get self.old.items number) }
        requires callable { F.IsAlwaysCallable change }
        ensures { ChangesItem (F.post change) self.old number self.new }
    {
        let item = self.remove(number);
        self.add(number, change(item));
    }

    /// How many items there are.
    pub fn len(&self) -> usize
        ensures { result ≡ map.len self.now.items }
    {
        self.entries.len()
    }

    /// The item of the least number above another one, or of all.
    pub fn after(&self, number: Option<u32>) -> Option<(u32, &T)>
        ensures some { IfSome result (λ next. IsNextItem self.now.items number next.0 next.1.now) }
        ensures none { IfNone result (HasNoneAbove self.now.items number) }
    {
        let next = next_number(&self.entries, number)?;
        Some((next, self.get(next)?))
    }

    /// Whether a test is true of some item.
    pub fn any<F: Fn(&T) -> bool>(&self, test: F) -> bool
        requires { F.IsAlwaysCallable test }
        ensures { MatchBool result (SomeOutstanding self.now.items (FnReturnsAt F.Fn test))
            (NoneOutstanding self.now.items (FnReturnsAt F.Fn test)) }
    {
        for entry in &self.entries {
            if test(&entry.1) {
                return true;
            }
        }
        false
    }
}

impl<T: Drop> ByNumber<T> {
    /// Keeps the items from a number on alone.
    pub fn keep_from(&mut self, first: u64)
        ensures content { self.new ≡ record {
          items = map.retain_keys self.old.items (λ number. nat_le first number);
          room = self.new.room;
        } }
        ensures room { self.new.room + map.len self.new.items ≡ self.old.room + map.len self.old.items }
    {
        self.entries.retain(|entry| first <= u64::from(entry.0));
    }
}

//! Lists with room that contracts see. A list that stands in an event or a value is seen as its members
//! alone, so what asks for room before and must not be refused later fills one of these instead.
ghost use Rattle.std.specs.Prelude.{◌≡◌, ◌+◌, ◌-◌, ◌<◌, ◌≤◌, ◌^◌, [], ◌∷◌, ◌++◌, length, slice_get, IsOk, IfErr, OnOk, OnErr, vec_len, vec_capacity};
ghost use Rattle.std.specs.Option.{option_copied};
ghost use Rattle.flow_item.specs.Rooms.{roomy, free_places};
ghost use Rattle.flow_item.specs.Values.{fitted};

use crate::item::{Id, Ids, Msg, NoMemory, Outs};
use crate::items::Items;
use crate::val::Val;
use std::alloc::Global;
use std::marker::Model;

/// The most members of a list.
const MOST: usize = (1 << 62) - 1;

/// A list and the number of pushes that need no memory.
#[derive(Debug, Drop)]
pub struct Roomy<T> {
    items: Vec<T>,
}

impl<T> Model for Roomy<T> {
    ghost use Rattle.std.specs.Prelude.{vec_len, vec_capacity};
    ghost use Rattle.flow_item.specs.Rooms.{Roomy, roomy, roomy_code, free_places};

    ghost Value = { Roomy T };

    ghost coded = { roomy_code T.code };

    ghost view = { λ r. roomy r.items.items (free_places (vec_capacity r.items) (vec_len r.items)) };
}

fn places_left<T>(items: &Vec<T>) -> usize
    ensures { result ≡ free_places (vec_capacity items.now) (vec_len items.now) }
{
    items.capacity().min(MOST).saturating_sub(items.len())
}

/// Makes `n` places free, and changes nothing where it can't.
fn reserve_places<T>(items: &mut Vec<T>, n: usize) -> Result<(), NoMemory>
    ensures items { items.new.items ≡ items.old.items }
    ensures len { vec_len items.new ≡ vec_len items.old }
    ensures ok { OnOk result (n ≤ free_places (vec_capacity items.new) (vec_len items.new)) }
    ensures kept { vec_capacity items.old ≤ vec_capacity items.new }
    ensures err { OnErr result ((vec_capacity items.new ≡ vec_capacity items.old)
        × (free_places (vec_capacity items.old) (vec_len items.old) < n)) }
{
    if n <= places_left(items) {
        return Ok(());
    }
    let len = items.len();
    if len > MOST || n > MOST - len {
        return Err(NoMemory);
    }
    match items.reserve(n) {
        Ok(()) => Ok(()),
        Err(_) => Err(NoMemory),
    }
}

impl<T> Roomy<T> {
    /// The empty list. Takes no memory.
    pub fn new(alloc: Global) -> Roomy<T>
        ensures { result.items ≡ [] }
    {
        Roomy {
            items: Vec::new(alloc),
        }
    }

    /// The same list with its room. Takes no memory.
    pub fn from_vec(items: Vec<T>) -> Roomy<T>
        ensures { result.items ≡ items.items }
    {
        Roomy { items }
    }

    /// The same list. Takes no memory.
    pub fn into_vec(self) -> Vec<T>
        ensures { result.items ≡ self.items }
    {
        self.items
    }

    pub fn len(&self) -> usize
        ensures { result ≡ length self.now.items }
    {
        self.items.len()
    }

    /// How many more members can be pushed without asking for memory.
    pub fn spare(&self) -> usize
        ensures { result ≡ self.now.spare }
    {
        places_left(&self.items)
    }

    /// The member at place `k`, none exactly past the end.
    pub fn get(&self, k: usize) -> Option<&T>
        ensures { option_copied result ≡ slice_get self.now.items k }
    {
        self.items.get(k)
    }

    /// Makes room for so many members more.
    pub fn reserve(&mut self, n: usize) -> Result<(), NoMemory>
        ensures ok { OnOk result (n ≤ self.new.spare) }
        ensures same { self.new ≡ roomy self.old.items self.new.spare }
        ensures kept { self.old.spare ≤ self.new.spare }
        ensures err { OnErr result ((self.new ≡ self.old) × (self.old.spare < n)) }
    {
        reserve_places(&mut self.items, n)
    }
}

impl<T: Drop> Roomy<T> {
    /// Adds a member at the end, for which there is room.
    pub fn push_reserved(&mut self, item: T)
        requires { 1 ≤ self.old.spare }
        ensures { self.new ≡ roomy (self.old.items ++ item ∷ []) (self.old.spare - 1) }
    {
        self.items.push_reserved(item);
    }

    /// Adds a member at the end. Without room it asks for memory, and hands the member back where there is none.
    pub fn push(&mut self, item: T) -> Result<(), T>
        ensures ok { OnOk result (self.new ≡ roomy (self.old.items ++ item ∷ []) self.new.spare) }
        ensures roomy { 1 ≤ self.old.spare → IsOk result × (self.new.spare ≡ self.old.spare - 1) }
        ensures err { OnErr result (self.new ≡ self.old) }
        ensures back { IfErr result (λ x. x ≡ item) }
    {
        if self.spare() == 0 && self.reserve(1).is_err() {
            return Err(item);
        }
        self.push_reserved(item);
        Ok(())
    }
}

impl<T> Items<T> {
    /// The same list with its room. Takes no memory.
    pub fn into_roomy(self) -> Roomy<T>
        ensures { result.items ≡ self }
    {
        Roomy::from_vec(self.into_vec())
    }
}

impl<T> Roomy<T> {
    /// The same list. Takes no memory.
    pub fn into_items(self) -> Items<T>
        ensures { result ≡ self.items }
    {
        Items::from_vec(self.items)
    }
}

impl Ids {
    /// The same list with its room. Takes no memory.
    pub fn into_roomy(self) -> Roomy<Id>
        ensures { result.items ≡ self }
    {
        Roomy::from_vec(self.into_vec())
    }
}

impl Roomy<Id> {
    /// The same list. Takes no memory.
    pub fn into_ids(self) -> Ids
        ensures { result ≡ self.items }
    {
        Ids::from_vec(self.items)
    }
}

/// The messages of a body, and the number of those that can still be pushed without asking for memory for a place.
#[derive(Debug, Drop)]
pub struct RoomyOuts {
    items: Vec<Msg>,
}

impl Model for RoomyOuts {
    ghost use Rattle.std.specs.Prelude.{◌<◌, ◌^◌, length, vec_len, vec_capacity};
    ghost use Rattle.flow_item.specs.Rooms.{Roomy, roomy, roomy_code, free_places};
    ghost use Rattle.flow_item.specs.declared.item.Msg.{Msg};
    ghost use Rattle.flow_item.specs.contracts.item.Msg.{the_row};

    ghost Value = { Roomy Msg };

    ghost coded = { roomy_code the_row.coded };

    ghost view = { λ r. roomy r.items.items (free_places (vec_capacity r.items) (vec_len r.items)) };

    ghost invariant = { λ r. length r.items.items < 2 ^ 62 };
}

impl RoomyOuts {
    /// The empty list. Takes no memory.
    pub fn new(alloc: Global) -> RoomyOuts
        ensures { result.items ≡ [] }
    {
        RoomyOuts {
            items: Vec::new(alloc),
        }
    }

    pub fn len(&self) -> usize
        ensures value { result ≡ length self.now.items }
        ensures bound { result < 2 ^ 62 }
    {
        self.items.len()
    }

    /// How many more messages can be pushed without asking for memory for a place.
    pub fn spare(&self) -> usize
        ensures { result ≡ self.now.spare }
    {
        places_left(&self.items)
    }

    /// The message at place `k`, none exactly past the end.
    pub fn get(&self, k: usize) -> Option<&Msg>
        ensures { option_copied result ≡ slice_get self.now.items k }
    {
        self.items.get(k)
    }

    /// Makes room for so many messages more.
    pub fn reserve(&mut self, n: usize) -> Result<(), NoMemory>
        ensures ok { OnOk result (n ≤ self.new.spare) }
        ensures same { self.new ≡ roomy self.old.items self.new.spare }
        ensures kept { self.old.spare ≤ self.new.spare }
        ensures err { OnErr result ((self.new ≡ self.old) × (self.old.spare < n)) }
    {
        reserve_places(&mut self.items, n)
    }

    /// Adds a message, for which there is room. Its value is the empty list where the given one doesn't fit.
    pub fn push_reserved(&mut self, alloc: Global, port: u32, tag: u64, val: Val)
        requires { 1 ≤ self.old.spare }
        ensures { self.new
            ≡ roomy (self.old.items ++ record { port = port; tag = tag; val = fitted val } ∷ []) (self.old.spare - 1) }
    {
        let val = val.fitted(alloc);
        self.items.push_reserved(Msg { port, tag, val });
    }

    /// The same messages. Takes no memory.
    pub fn into_outs(self) -> Outs
        ensures { result ≡ self.items }
    {
        Outs::from_vec(self.items)
    }
}

impl Outs {
    /// The same messages with their room. Takes no memory.
    pub fn into_roomy(self) -> RoomyOuts
        ensures { result.items ≡ self }
    {
        RoomyOuts {
            items: self.into_vec(),
        }
    }
}

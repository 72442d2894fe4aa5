ghost use Rattle.std.specs.Prelude.{◌≡◌, [], None, slice_get};
ghost use Rattle.std.specs.Option.{option_copied};

use crate::places::remove_claim;
use crate::store::{Store, Way};
use flow_item::{Cause, Item, Land, NoMemory};
use flow_machine::Claim;
use std::alloc::Global;
use std::marker::Model;

/// One value that is kept as it is given, for overwriting or for writing once, and the edges that hold it.
///
/// Each call takes constant time, but `take` and `free`, which look for the hold from the oldest on.
#[derive(Drop)]
pub struct OneStore {
    once: bool,
    value: Option<Item>,
    holds: Vec<Claim>,
}

impl Model for OneStore {
    ghost use Rattle.std.specs.Prelude.{◌-◌, vec_len, vec_capacity};
    ghost use Rattle.std.specs.Coded.{codes};
    ghost use Rattle.flow_item.specs.contracts.val.Val as val;
    ghost use Rattle.flow_store.specs.Stores.{RoomyKeeper};

    ghost Value = { RoomyKeeper };

    ghost coded = { Prim.hlevel (codes, val.the_row.coded) };

    ghost view = { λ s. record {
      once = s.once;
      value = s.value;
      holds = s.holds.items;
      spare = vec_capacity s.holds - vec_len s.holds;
    } };
}

impl OneStore {
    /// No value yet, for writing once where `once`. Takes no memory.
    pub fn new(alloc: Global, once: bool) -> OneStore
        ensures { result
            ≡ record { once = once; value = None; holds = []; spare = result.spare } }
    {
        OneStore {
            once,
            value: None,
            holds: Vec::new(alloc),
        }
    }

    /// Whether it is for writing once.
    pub fn once(&self) -> bool
        ensures { result ≡ self.now.once }
    {
        self.once
    }

    /// The value.
    pub fn value(&self) -> Option<&Item>
        ensures { option_copied result ≡ self.now.value }
    {
        self.value.as_ref()
    }

    /// A hold, the oldest first.
    pub fn holds(&self, k: usize) -> Option<&Claim>
        ensures { option_copied result ≡ slice_get self.now.holds k }
    {
        self.holds.get(k)
    }
}

impl Store for OneStore {
    ghost use Rattle.std.specs.Prelude.{if◌then◌else◌};
    ghost use Rattle.flow_shape.specs.declared.Kind.TheVariants as K;
    ghost use Rattle.flow_machine.specs.State.{keeper_part};
    ghost use Rattle.flow_store.specs.Stores.{keeper_of};

    ghost kind = { λ v. if v.once then K.WriteOnce else K.Overwrite };

    ghost part = { λ v. keeper_part (keeper_of v) };

    ghost spare = { λ v. v.spare };

    ghost use Rattle.flow_store.specs.LawsHold.{keeper-puts, keeper-gives, keeper-holds};

    ghost puts_one = { λ s. keeper-puts s };

    ghost gives_one = { λ s. keeper-gives (if s.once then K.WriteOnce else K.Overwrite) (keeper_of s) };

    ghost holds_one = { λ s. keeper-holds (if s.once then K.WriteOnce else K.Overwrite) (keeper_of s) };

    fn reserve(&mut self, n: usize) -> Result<(), NoMemory> {
        match self.holds.reserve(n) {
            Ok(()) => Ok(()),
            Err(_) => Err(NoMemory),
        }
    }

    fn room(&self, _tag: u64, _way: Way) -> Result<Land, Cause> {
        match self.value {
            None => Ok(Land::Kept),
            Some(_) if self.once => Err(Cause::Set),
            Some(_) => Ok(Land::Over),
        }
    }

    fn put(&mut self, item: Item, way: Way) -> Result<Land, (Item, Cause)> {
        match self.room(item.tag, way) {
            Ok(land) => {
                self.value = Some(item);
                Ok(land)
            }
            Err(cause) => Err((item, cause)),
        }
    }

    fn front(&self) -> Option<&Item> {
        self.value.as_ref()
    }

    fn give(&mut self, _edge: u32, _no: u64) {}

    fn hold(&mut self, edge: u32, no: u64) {
        self.holds.push_reserved(Claim { edge, item: no });
    }

    fn take(&mut self, edge: u32, no: u64) {
        remove_claim(&mut self.holds, edge, no);
    }

    fn free(&mut self, edge: u32, no: u64) {
        remove_claim(&mut self.holds, edge, no);
    }

    fn len(&self) -> usize {
        if self.value.is_some() { 1 } else { 0 }
    }

    fn items(&self, k: usize) -> Option<&Item> {
        if k == 0 { self.value.as_ref() } else { None }
    }

    fn at(&self, k: usize) -> Option<&Item> {
        if k == 0 { self.value.as_ref() } else { None }
    }

    fn arrange(&mut self) -> Result<(), NoMemory> {
        Ok(())
    }
}

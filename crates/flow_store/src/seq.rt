ghost use Rattle.std.specs.Prelude.{◌≡◌, ℕ, ◌+◌, ◌<◌, ◌≤◌, ◌||◌, true, false, Some, None, [], ◌∷◌, ◌++◌, nat_eq, nat_lt, IsSome};
ghost use Rattle.std.specs.List.{list_any};
ghost use Rattle.flow_item.specs.declared.item.Item.{Item};
ghost use Rattle.std.specs.List.Sorted.{IsPermutation};
ghost use Rattle.indexmap.specs.IndexMap.{spare, get};

use crate::orders::{Order, Row, nth};
use crate::store::{Store, Way};
use flow_item::{Cause, Item, Land, NoMemory};
use flow_machine::Claim;
use indexmap::IndexMap;
use std::alloc::Global;
use std::marker::Model;

/// The items of a sequencer under their tags, and the tag that it waits for.
///
/// Each call takes constant time as hash tables do, but `items`, which costs the square of the number of items, and so does `at` unless the store was arranged since the last item came or went. An arranged store answers it in constant time.
#[derive(Drop)]
pub struct SeqStore {
    items: IndexMap<u64, Item>,
    next: u64,
    lock: Option<Claim>,
    /// Whether the items lie in the order of their tags.
    sorted: bool,
}

impl Model for SeqStore {
    ghost use Rattle.indexmap.specs.IndexMap.{spare};
    ghost use Rattle.std.specs.Coded.{codes};
    ghost use Rattle.flow_item.specs.contracts.val.Val as val;
    ghost use Rattle.flow_store.specs.Stores.{RoomyTags};
    ghost use Rattle.flow_store.specs.Tags.{tag_state, KeepsTags};

    ghost Value = { RoomyTags };

    ghost coded = { Prim.hlevel (codes, val.the_row.coded) };

    ghost view = { λ s. record {
      state = tag_state s.items.entries s.lock s.next;
      spare = spare s.items;
    } };

    ghost invariant = { λ s. KeepsTags s.items.entries s.lock s.next s.sorted };
}

impl Row for IndexMap<u64, Item> {
    ghost use Rattle.flow_store.specs.Tags.{tagged_items};

    ghost members = { λ m. tagged_items m.entries };

    fn count(&self) -> usize {
        self.len()
    }

    fn member(&self, place: usize) -> &Item {
        match self.get_index(place) {
            Some((_, item)) => item,
            None => unreachable!(),
        }
    }
}

/// Adds an item under its tag, which is new, and for which there is room.
fn insert_tagged(items: &mut IndexMap<u64, Item>, item: Item)
    requires room { 0 < spare items.old }
    requires new { get nat_eq items.old item.tag ≡ None }
    ensures items { items.new.entries ≡ items.old.entries ++ (item.tag, item) ∷ [] }
    ensures spare { spare items.old ≤ spare items.new + 1 }
{
    match items.insert(item.tag, item) {
        Ok(_) => {}
        Err(_) => unreachable!(),
    }
}

/// Drops the item under a tag that is there.
fn remove_tagged(items: &mut IndexMap<u64, Item>, tag: u64)
    requires { IsSome (get nat_eq items.old tag) }
    ensures items { (e : ℕ × Item) × (get nat_eq items.old tag ≡ Some e.1) × IsPermutation items.old.entries (e ∷ items.new.entries) }
    ensures spare { spare items.old ≤ spare items.new }
{
    if let Some(place) = items.get_index_of(&tag) {
        items.swap_remove_index(place);
    }
}

impl SeqStore {
    /// A sequencer with no items, which waits for tag 0. Takes no memory.
    pub fn new(alloc: Global) -> SeqStore
        ensures { result ≡ record { state = record { items = []; lock = None; next = 0 }; spare = result.spare } }
    {
        SeqStore {
            items: IndexMap::new(alloc),
            next: 0,
            lock: None,
            sorted: false,
        }
    }

    /// The item that is locked, and the edge that it is locked for.
    pub fn lock(&self) -> Option<Claim>
        ensures { result ≡ self.now.state.lock }
    {
        self.lock
    }

    /// The tag that it gives next.
    pub fn next(&self) -> u64
        ensures { result ≡ self.now.state.next }
    {
        self.next
    }

    /// Whether an item with this tag has gone or is there.
    fn has_come(&self, tag: u64) -> bool
        ensures value { result ≡ (nat_lt tag self.now.state.next || list_any (λ (i : Item). nat_eq i.tag tag) self.now.state.items) }
    {
        tag < self.next || self.items.contains_key(&tag)
    }
}

impl Store for SeqStore {
    ghost use Rattle.flow_shape.specs.declared.Kind.TheVariants as K;
    ghost use Rattle.flow_machine.specs.State.{store_part};

    ghost kind = { λ v. K.Sequencer };

    ghost part = { λ v. store_part v.state };

    ghost spare = { λ v. v.spare };

    ghost use Rattle.flow_store.specs.LawsHold.{sequencer-puts, store-gives, store-holds};

    ghost puts_one = { λ s. sequencer-puts s.state };

    ghost gives_one = { λ s. store-gives K.Sequencer s.state };

    ghost holds_one = { λ s. store-holds K.Sequencer s.state };

    fn reserve(&mut self, n: usize) -> Result<(), NoMemory> {
        match self.items.reserve(n) {
            Ok(()) => Ok(()),
            Err(_) => Err(NoMemory),
        }
    }

    fn room(&self, tag: u64, way: Way) -> Result<Land, Cause> {
        if self.has_come(tag) {
            match way {
                Way::Caller => Err(Cause::Duplicate),
                Way::Edge => Ok(Land::Lost),
            }
        } else {
            Ok(Land::Kept)
        }
    }

    fn put(&mut self, item: Item, way: Way) -> Result<Land, (Item, Cause)> {
        match self.room(item.tag, way) {
            Ok(Land::Kept) => {
                self.sorted = false;
                insert_tagged(&mut self.items, item);
                Ok(Land::Kept)
            }
            Ok(land) => Ok(land),
            Err(cause) => Err((item, cause)),
        }
    }

    fn front(&self) -> Option<&Item> {
        match self.lock {
            Some(_) => None,
            None => self.items.get(&self.next),
        }
    }

    fn give(&mut self, _edge: u32, _no: u64) {
        self.sorted = false;
        remove_tagged(&mut self.items, self.next);
        self.next += 1;
    }

    fn hold(&mut self, edge: u32, no: u64) {
        self.lock = Some(Claim { edge, item: no });
    }

    fn take(&mut self, _edge: u32, _no: u64) {
        self.lock = None;
        self.sorted = false;
        remove_tagged(&mut self.items, self.next);
        self.next += 1;
    }

    fn free(&mut self, _edge: u32, _no: u64) {
        self.lock = None;
    }

    fn len(&self) -> usize {
        self.items.len()
    }

    fn items(&self, k: usize) -> Option<&Item> {
        nth(&self.items, Order::Age, k)
    }

    fn at(&self, k: usize) -> Option<&Item> {
        if self.sorted {
            match self.items.get_index(k) {
                Some((_, item)) => Some(item),
                None => None,
            }
        } else {
            nth(&self.items, Order::Tag, k)
        }
    }

    fn arrange(&mut self) -> Result<(), NoMemory> {
        if self.sorted {
            return Ok(());
        }
        match self.items.sort_unstable_keys() {
            Ok(()) => {
                self.sorted = true;
                Ok(())
            }
            Err(_) => Err(NoMemory),
        }
    }
}

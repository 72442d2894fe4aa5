ghost use Rattle.std.specs.Prelude.{◌≡◌, ◌+◌, ◌<◌, ◌≤◌, Some, None, [], ◌∷◌, ◌++◌, map, length, OnOk};
ghost use Rattle.std.specs.List.Sorted.{IsPermutation};
ghost use Rattle.std.specs.BinaryHeap.{heap_items, heap_len, heap_capacity, IsHeap, IsUpperBound};
ghost use Rattle.flow_store.specs.Orders.{Once, number_of};
ghost use Rattle.flow_store.specs.Ranks.{ranked_item, all_items};
ghost use Rattle.flow_store.specs.RankOrder.{ranked_cmp};
ghost use Rattle.flow_store.specs.Marks.{marks_from, TellsRanks};

use crate::orders::{Order, Row, nth};
use crate::ranked::{Locked, Mark, Ranked};
use crate::store::{Store, Way};
use flow_item::{Cause, Item, Land, NoMemory};
use flow_machine::Claim;
use std::alloc::Global;
use std::collections::BinaryHeap;
use std::marker::Model;

/// The items in a heap, and the one that is locked.
#[derive(Drop)]
struct Ranks {
    heap: BinaryHeap<Ranked>,
    locked: Option<Locked>,
}

/// The items of a priority node in a binary heap, those of equal ranks by their numbers.
///
/// With n items, `put`, `give`, `hold` and `free` cost at most log n, and `take` and `front` constant time. `items` costs the square of n, and so does `at` unless the store was arranged since the last item came, went, was held or was freed. An arranged store answers it in constant time. To arrange it costs n log n, and memory for n places.
#[derive(Drop)]
pub struct RankStore {
    ranks: Ranks,
    /// The places of the items, if sorted in the order of their ranks.
    marks: Vec<Mark>,
    /// Whether the marks are of the items that are there.
    sorted: bool,
}

impl Model for RankStore {
    ghost use Rattle.std.specs.Prelude.{◌-◌, ◌+◌};
    ghost use Rattle.std.specs.BinaryHeap.{heap_items, heap_len, heap_capacity};
    ghost use Rattle.std.specs.Coded.{codes};
    ghost use Rattle.flow_item.specs.contracts.val.Val as val;
    ghost use Rattle.std.specs.Option.{option_map};
    ghost use Rattle.flow_store.specs.Orders.{by_age};
    ghost use Rattle.flow_store.specs.Stores.{RoomyRanks};
    ghost use Rattle.flow_store.specs.Ranks.{all_items, claim_of, locked_count, KeepsRanks};

    ghost Value = { RoomyRanks };

    ghost coded = { Prim.hlevel (codes, val.the_row.coded) };

    ghost view = { λ s. record {
      items = by_age (all_items (heap_items s.ranks.heap) s.ranks.locked);
      lock = option_map claim_of s.ranks.locked;
      spare = heap_capacity s.ranks.heap - (heap_len s.ranks.heap + locked_count s.ranks.locked);
    } };

    ghost invariant = { λ s. KeepsRanks (heap_items s.ranks.heap) s.ranks.locked (heap_len s.ranks.heap) (heap_capacity s.ranks.heap) s.marks.items s.sorted };
}

/// Adds an item, for which there is room.
fn push_ranked(heap: &mut BinaryHeap<Ranked>, item: Item)
    requires room { heap_len heap.old < heap_capacity heap.old }
    requires ordered { IsHeap ranked_cmp (heap_items heap.old) }
    ensures items { IsPermutation (item ∷ map ranked_item (heap_items heap.old)) (map ranked_item (heap_items heap.new)) }
    ensures ordered { IsHeap ranked_cmp (heap_items heap.new) }
    ensures len { heap_len heap.new ≡ heap_len heap.old + 1 }
    ensures capacity { heap_capacity heap.old ≤ heap_capacity heap.new }
{
    match heap.push(Ranked { item }) {
        Ok(()) => {}
        Err(_) => unreachable!(),
    }
}

/// Takes out the item that goes first.
fn pop_ranked(heap: &mut BinaryHeap<Ranked>) -> Item
    requires some { 0 < heap_len heap.old }
    requires ordered { IsHeap ranked_cmp (heap_items heap.old) }
    ensures items { IsPermutation (map ranked_item (heap_items heap.old)) (result ∷ map ranked_item (heap_items heap.new)) }
    ensures ordered { IsHeap ranked_cmp (heap_items heap.new) }
    ensures first { IsUpperBound ranked_cmp (record { item = result }) (heap_items heap.old) }
    ensures len { heap_len heap.new + 1 ≡ heap_len heap.old }
    ensures capacity { heap_capacity heap.new ≡ heap_capacity heap.old }
{
    match heap.pop() {
        Some(top) => top.item,
        None => unreachable!(),
    }
}

impl Row for Ranks {
    ghost use Rattle.std.specs.BinaryHeap.{heap_items};
    ghost use Rattle.flow_store.specs.Ranks.{all_items};

    ghost members = { λ r. all_items (heap_items r.heap) r.locked };

    fn count(&self) -> usize {
        let held = if self.locked.is_some() { 1 } else { 0 };
        self.heap.len() + held
    }

    fn member(&self, place: usize) -> &Item {
        if place < self.heap.len() {
            let items = self.heap.as_slice();
            &items[place].item
        } else {
            match &self.locked {
                Some(locked) => &locked.item,
                None => unreachable!(),
            }
        }
    }
}

/// Makes the marks those of a row of items.
fn fill_marks(ranks: &Ranks, marks: &mut Vec<Mark>) -> Result<(), NoMemory>
    ensures { OnOk result (marks.new.items ≡ marks_from 0 (all_items (heap_items ranks.now.heap) ranks.now.locked)) }
{
    let count = ranks.count();
    marks.clear();
    match marks.reserve(count) {
        Ok(()) => {}
        Err(_) => return Err(NoMemory),
    }
    'fill: for place in 0..count {
        marks.push_reserved(Mark::of(ranks.member(place), place));
    }
    Ok(())
}

/// Makes the marks tell the order of the ranks, at a cost of n log n for n items.
fn mark_ranks(ranks: &Ranks, marks: &mut Vec<Mark>) -> Result<(), NoMemory>
    requires { Once number_of (all_items (heap_items ranks.now.heap) ranks.now.locked) }
    ensures { OnOk result (TellsRanks marks.new.items (all_items (heap_items ranks.now.heap) ranks.now.locked)) }
{
    fill_marks(ranks, marks)?;
    marks.sort_unstable();
    Ok(())
}

impl RankStore {
    /// A priority node with no items. Takes no memory.
    pub fn new(alloc: Global) -> RankStore
        ensures { result ≡ record { items = []; lock = None; spare = result.spare } }
    {
        RankStore {
            ranks: Ranks {
                heap: BinaryHeap::new(alloc),
                locked: None,
            },
            marks: Vec::new(alloc),
            sorted: false,
        }
    }

    /// The item that is locked, and the edge that it is locked for.
    pub fn lock(&self) -> Option<Claim>
        ensures { result ≡ self.now.lock }
    {
        match &self.ranks.locked {
            Some(locked) => Some(Claim {
                edge: locked.edge,
                item: locked.item.id.no,
            }),
            None => None,
        }
    }
}

impl Store for RankStore {
    ghost use Rattle.flow_shape.specs.declared.Kind.TheVariants as K;
    ghost use Rattle.flow_machine.specs.State.{store_part};
    ghost use Rattle.flow_store.specs.Stores.{ranks_of};

    ghost kind = { λ v. K.Priority };

    ghost part = { λ v. store_part (ranks_of v) };

    ghost spare = { λ v. v.spare };

    ghost use Rattle.flow_store.specs.LawsHold.{priority-puts, store-gives, store-holds};

    ghost puts_one = { λ s. priority-puts (ranks_of s) };

    ghost gives_one = { λ s. store-gives K.Priority (ranks_of s) };

    ghost holds_one = { λ s. store-holds K.Priority (ranks_of s) };

    fn reserve(&mut self, n: usize) -> Result<(), NoMemory> {
        let held = if self.ranks.locked.is_some() { 1 } else { 0 };
        if n > usize::MAX - held {
            return Err(NoMemory);
        }
        match self.ranks.heap.reserve(n + held) {
            Ok(()) => Ok(()),
            Err(_) => Err(NoMemory),
        }
    }

    fn room(&self, _tag: u64, _way: Way) -> Result<Land, Cause> {
        Ok(Land::Kept)
    }

    fn put(&mut self, item: Item, _way: Way) -> Result<Land, (Item, Cause)> {
        self.sorted = false;
        push_ranked(&mut self.ranks.heap, item);
        Ok(Land::Kept)
    }

    fn front(&self) -> Option<&Item> {
        match &self.ranks.locked {
            Some(_) => None,
            None => match self.ranks.heap.peek() {
                Some(top) => Some(&top.item),
                None => None,
            },
        }
    }

    fn give(&mut self, _edge: u32, _no: u64) {
        self.sorted = false;
        pop_ranked(&mut self.ranks.heap);
    }

    fn hold(&mut self, edge: u32, _no: u64) {
        self.sorted = false;
        let item = pop_ranked(&mut self.ranks.heap);
        self.ranks.locked = Some(Locked { edge, item });
    }

    fn take(&mut self, _edge: u32, _no: u64) {
        self.sorted = false;
        self.ranks.locked = None;
    }

    fn free(&mut self, _edge: u32, _no: u64) {
        self.sorted = false;
        match self.ranks.locked.take() {
            Some(locked) => push_ranked(&mut self.ranks.heap, locked.item),
            None => unreachable!(),
        }
    }

    fn len(&self) -> usize {
        self.ranks.count()
    }

    fn items(&self, k: usize) -> Option<&Item> {
        nth(&self.ranks, Order::Age, k)
    }

    fn at(&self, k: usize) -> Option<&Item> {
        if self.sorted {
            match self.marks.get(k) {
                Some(mark) => Some(self.ranks.member(mark.place)),
                None => None,
            }
        } else {
            nth(&self.ranks, Order::Rank, k)
        }
    }

    fn arrange(&mut self) -> Result<(), NoMemory> {
        if self.sorted {
            return Ok(());
        }
        mark_ranks(&self.ranks, &mut self.marks)?;
        self.sorted = true;
        Ok(())
    }
}

ghost use Rattle.std.specs.Prelude.{◌≡◌, [], None, slice_get};

use crate::rooms::room_under;
use crate::store::{Store, Way};
use flow_item::{Cause, Item, Land, NoMemory};
use flow_machine::Claim;
use std::alloc::Global;
use std::collections::VecDeque;
use std::marker::Model;

/// The items of a queue in a ring, the oldest first. Each call takes constant time.
#[derive(Drop)]
pub struct FifoStore {
    capacity: Option<u32>,
    items: VecDeque<Item>,
    lock: Option<Claim>,
}

impl Model for FifoStore {
    ghost use Rattle.std.specs.Prelude.{◌≡◌, ◌-◌, true};
    ghost use Rattle.std.specs.VecDeque.{deque_capacity, deque_len};
    ghost use Rattle.std.specs.Coded.{codes};
    ghost use Rattle.flow_item.specs.contracts.val.Val as val;
    ghost use Rattle.flow_store.specs.Stores.{RoomyQueue, locks_first};

    ghost Value = { RoomyQueue };

    ghost coded = { Prim.hlevel (codes, val.the_row.coded) };

    ghost view = { λ s. record {
      capacity = s.capacity;
      items = s.items.items;
      lock = s.lock;
      spare = deque_capacity s.items - deque_len s.items;
    } };

    ghost invariant = { λ s. locks_first s.lock s.items.items ≡ true };
}

impl FifoStore {
    /// A queue with no items, which takes at most so many at once. Takes no memory.
    pub fn new(alloc: Global, capacity: Option<u32>) -> FifoStore
        ensures { result
            ≡ record { capacity = capacity; items = []; lock = None; spare = result.spare } }
    {
        FifoStore {
            capacity,
            items: VecDeque::new(alloc),
            lock: None,
        }
    }

    /// The most items at once.
    pub fn capacity(&self) -> Option<u32>
        ensures { result ≡ self.now.capacity }
    {
        self.capacity
    }

    /// The item that is locked, and the edge that it is locked for.
    pub fn lock(&self) -> Option<Claim>
        ensures { result ≡ self.now.lock }
    {
        self.lock
    }
}

impl Store for FifoStore {
    ghost use Rattle.flow_shape.specs.declared.Kind.TheVariants as K;
    ghost use Rattle.flow_machine.specs.State.{store_part};
    ghost use Rattle.flow_store.specs.Stores.{queue_of};

    ghost kind = { λ v. K.Queue v.capacity };

    ghost part = { λ v. store_part (queue_of v) };

    ghost spare = { λ v. v.spare };

    ghost use Rattle.flow_store.specs.LawsHold.{queue-puts, store-gives, store-holds};

    ghost puts_one = { λ s. queue-puts s.capacity (queue_of s) };

    ghost gives_one = { λ s. store-gives (K.Queue s.capacity) (queue_of s) };

    ghost holds_one = { λ s. store-holds (K.Queue s.capacity) (queue_of s) };

    fn reserve(&mut self, n: usize) -> Result<(), NoMemory> {
        match self.items.reserve(n) {
            Ok(()) => Ok(()),
            Err(_) => Err(NoMemory),
        }
    }

    fn room(&self, _tag: u64, _way: Way) -> Result<Land, Cause> {
        room_under(self.items.len(), self.capacity)
    }

    fn put(&mut self, item: Item, _way: Way) -> Result<Land, (Item, Cause)> {
        match room_under(self.items.len(), self.capacity) {
            Ok(land) => {
                self.items.push_back_reserved(item);
                Ok(land)
            }
            Err(cause) => Err((item, cause)),
        }
    }

    fn front(&self) -> Option<&Item> {
        match self.lock {
            None => self.items.front(),
            Some(_) => None,
        }
    }

    fn give(&mut self, _edge: u32, _no: u64) {
        self.items.pop_front();
    }

    fn hold(&mut self, edge: u32, no: u64) {
        self.lock = Some(Claim { edge, item: no });
    }

    fn take(&mut self, _edge: u32, _no: u64) {
        self.lock = None;
        self.items.pop_front();
    }

    fn free(&mut self, _edge: u32, _no: u64) {
        self.lock = None;
    }

    fn len(&self) -> usize {
        self.items.len()
    }

    fn items(&self, k: usize) -> Option<&Item> {
        self.items.get(k)
    }

    fn at(&self, k: usize) -> Option<&Item> {
        self.items.get(k)
    }

    fn arrange(&mut self) -> Result<(), NoMemory> {
        Ok(())
    }
}

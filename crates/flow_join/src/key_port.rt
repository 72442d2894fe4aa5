ghost use Rattle.std.specs.Prelude.{◌≡◌, true, None, Some, [], ◌∷◌, ◌++◌, slice_get, OnOk};
ghost use Rattle.std.specs.List.{list_any, find};
ghost use Rattle.std.specs.Option.{option_copied};
ghost use Rattle.flow_item.specs.Lists.{first, drop_first};
ghost use Rattle.flow_machine.specs.Offers.{with_tag};
ghost use Rattle.flow_machine.specs.After.{has_tag};
ghost use Rattle.flow_machine.specs.Enabled.{is_numbered};

use crate::tags::{Places, pop_place, push_place, reserve_place};
use flow_item::{Item, NoMemory};
use indexmap::IndexMap;
use std::alloc::Global;
use std::collections::VecDeque;
use std::marker::Model;

/// The items that wait at a port of a key-matching join.
///
/// An item comes and goes in constant time on average.
#[derive(Drop)]
pub(crate) struct KeyPort {
    /// The items in the order in which they came. One that left leaves a hole until all before it have left.
    slots: VecDeque<Option<Item>>,
    /// The place of the first slot; no place is used twice.
    base: u64,
    /// The places of each tag that waits.
    by_tag: IndexMap<u64, Places>,
    /// The tag of which one more item may come without memory.
    ready: Option<u64>,
}

impl Model for KeyPort {
    ghost use Rattle.std.specs.Coded.{codes};
    ghost use Rattle.flow_item.specs.contracts.val.Val as val;
    ghost use Rattle.flow_join.specs.Tags.{RoomyPort, filled, KeepsPort};

    ghost Value = { RoomyPort };

    ghost coded = { Prim.hlevel (codes, val.the_row.coded) };

    ghost view = { λ p. record { items = filled p.slots.items; ready = p.ready } };

    ghost invariant = { λ p. KeepsPort p.slots p.base p.by_tag p.ready };
}

impl KeyPort {
    /// A port at which nothing waits.
    pub(crate) fn new(alloc: Global) -> KeyPort
        ensures { result ≡ record { items = []; ready = None } }
    {
        KeyPort {
            slots: VecDeque::new(alloc),
            base: 0,
            by_tag: IndexMap::new(alloc),
            ready: None,
        }
    }

    /// Makes room for one more item of a tag. It also fails after 2^64 - 2 items.
    pub(crate) fn reserve(&mut self, tag: u64) -> Result<(), NoMemory>
        ensures ok { OnOk result (self.new.ready ≡ Some tag) }
        ensures same { self.new ≡ record self.old { ready = self.new.ready } }
    {
        self.ready = None;
        if self.base + self.slots.len() as u64 == u64::MAX || self.slots.reserve(1).is_err() {
            return Err(NoMemory);
        }
        reserve_place(&mut self.by_tag, tag)?;
        self.ready = Some(tag);
        Ok(())
    }

    /// An item comes, and is the last.
    pub(crate) fn accept(&mut self, item: Item)
        requires { self.old.ready ≡ Some item.tag }
        ensures { self.new ≡ record { items = self.old.items ++ item ∷ []; ready = None } }
    {
        let place = self.base + self.slots.len() as u64;
        push_place(&mut self.by_tag, item.tag, place);
        self.slots.push_back_reserved(Some(item));
        self.ready = None;
    }

    /// Whether an item of a tag waits.
    pub(crate) fn has(&self, tag: u64) -> bool
        ensures { result ≡ list_any (has_tag tag) self.now.items }
    {
        self.by_tag.contains_key(&tag)
    }

    /// The oldest item of a tag.
    pub(crate) fn part(&self, tag: u64) -> Option<&Item>
        ensures { option_copied result ≡ first (with_tag tag self.now.items) }
    {
        match self.by_tag.get(&tag) {
            Some(places) => self.slots[(places.first - self.base) as usize].as_ref(),
            None => None,
        }
    }

    /// The oldest item of a tag leaves.
    pub(crate) fn take(&mut self, tag: u64) -> Item
        requires { list_any (has_tag tag) self.old.items ≡ true }
        ensures item { first (with_tag tag self.old.items) ≡ Some result }
        ensures port { self.new ≡ record { items = drop_first (has_tag tag) self.old.items; ready = None } }
    {
        let place = pop_place(&mut self.by_tag, tag);
        let item = take_slot(&mut self.slots, (place - self.base) as usize);
        self.base = drop_holes(&mut self.slots, self.base);
        self.ready = None;
        item
    }

    /// An item that waits, the oldest first. Takes time with `k` and the holes before it.
    pub(crate) fn at(&self, k: usize) -> Option<&Item>
        ensures { option_copied result ≡ slice_get self.now.items k }
    {
        item_at(&self.slots, k)
    }

    /// The first item of this number. Linear in the items and the holes among them.
    pub(crate) fn item(&self, no: u64) -> Option<&Item>
        ensures { option_copied result ≡ find (is_numbered no) self.now.items }
    {
        item_numbered(&self.slots, no)
    }
}

ghost use Rattle.std.specs.Prelude.{ℕ, ◌+◌, ◌<◌, ◌^◌, slice_set};
ghost use Rattle.std.specs.VecDeque.{deque_len};
ghost use Rattle.flow_item.specs.Lists.{places};
ghost use Rattle.flow_join.specs.Tags.{filled, holds_tag, is_hole, is_item};

/// Drops the holes before the first item; answers the place of the first slot, which was `base`.
fn drop_holes(slots: &mut VecDeque<Option<Item>>, base: u64) -> u64
    requires { base + deque_len slots.old < 2 ^ 64 }
    ensures items { filled slots.new.items ≡ filled slots.old.items }
    ensures places { (tag : ℕ) → places (holds_tag tag) result slots.new.items ≡ places (holds_tag tag) base slots.old.items }
    ensures fits { result + deque_len slots.new ≡ base + deque_len slots.old }
{
    let mut base = base;
    'holes: while starts_with_hole(slots) {
        slots.pop_front();
        base += 1;
    }
    base
}

/// Whether the first slot is a hole.
fn starts_with_hole(slots: &VecDeque<Option<Item>>) -> bool
    ensures { result ≡ is_hole (first slots.now.items) }
{
    match slots.front() {
        Some(slot) => slot.is_none(),
        None => false,
    }
}

/// Takes the item out of a slot.
fn take_slot(slots: &mut VecDeque<Option<Item>>, at: usize) -> Item
    requires { is_item (slice_get slots.old.items at) ≡ true }
    ensures item { slice_get slots.old.items at ≡ Some (Some result) }
    ensures slots { slots.new.items ≡ slice_set slots.old.items at None }
    ensures len { deque_len slots.new ≡ deque_len slots.old }
{
    let slot = &mut slots[at];
    slot.take().unwrap()
}

/// The item at place `k` of the items in the slots.
fn item_at(slots: &VecDeque<Option<Item>>, k: usize) -> Option<&Item>
    ensures { option_copied result ≡ slice_get (filled slots.now.items) k }
{
    let mut left = k;
    for slot in 0..slots.len() {
        if let Some(item) = &slots[slot] {
            if left == 0 {
                return Some(item);
            }
            left -= 1;
        }
    }
    None
}

/// The first item of this number in the slots.
fn item_numbered(slots: &VecDeque<Option<Item>>, no: u64) -> Option<&Item>
    ensures { option_copied result ≡ find (is_numbered no) (filled slots.now.items) }
{
    for slot in 0..slots.len() {
        if let Some(item) = &slots[slot] {
            if item.id.no == no {
                return Some(item);
            }
        }
    }
    None
}

ghost use Rattle.std.specs.Prelude.{◌≡◌, ◌+◌, ◌-◌, ◌≤◌, ◌<◌, ℕ, List, Some, true, [], ◌∷◌, ◌++◌, map, length, replicate, is_some, slice_get, OnOk, IfOk};
ghost use Rattle.std.specs.List.{find};
ghost use Rattle.std.specs.Option.{option_copied};
ghost use Rattle.flow_item.specs.declared.item.Item.{Item};
ghost use Rattle.flow_item.specs.Lists.{change_at};
ghost use Rattle.flow_item.specs.Rooms.{roomy};
ghost use Rattle.flow_machine.specs.Offers.{tag_of};
ghost use Rattle.flow_machine.specs.Enabled.{is_numbered};
ghost use Rattle.flow_machine.specs.After.{ports_after_form};
ghost use Rattle.flow_machine.specs.WishEvents.{where_some, id_of};

use crate::parts::push_part;
use flow_item::{Id, Item, NoMemory, Roomy, Val};
use std::alloc::{AllocError, Global};
use std::collections::VecDeque;
use std::marker::Model;

/// A queueing join: at each port a ring of the items that wait there.
///
/// An item comes in constant time, and a tuple is formed in the time of its parts.
#[derive(Drop)]
pub struct QueueJoin {
    ports: Vec<VecDeque<Item>>,
    /// How many more items each ring has room for, at least.
    spare: usize,
}

impl Model for QueueJoin {
    ghost use Rattle.std.specs.Prelude.{map};
    ghost use Rattle.std.specs.Coded.{codes};
    ghost use Rattle.flow_item.specs.contracts.val.Val as val;
    ghost use Rattle.flow_join.specs.Queues.{RoomyQueueJoin, ring_items, KeepsRings};

    ghost Value = { RoomyQueueJoin };

    ghost coded = { Prim.hlevel (codes, val.the_row.coded) };

    ghost view = { λ j. record { ports = map ring_items j.ports.items; spare = j.spare } };

    ghost invariant = { λ j. KeepsRings j.ports.items j.spare };
}

impl QueueJoin {
    ghost use Rattle.flow_join.specs.Queues.{kind_of, next_parts, taken};

    /// A join with so many empty ports.
    pub fn new(alloc: Global, ports: u32) -> Result<QueueJoin, NoMemory>
        requires some { 1 ≤ ports }
        requires few { ports ≤ 8 }
        ensures { IfOk result (λ j. j ≡ record { ports = replicate ports []; spare = j.spare }) }
    {
        match rings(alloc, ports) {
            Ok(ports) => Ok(QueueJoin { ports, spare: 0 }),
            Err(_) => Err(NoMemory),
        }
    }

    /// Makes room for so many items more, at whichever ports they come.
    pub fn reserve(&mut self, n: usize) -> Result<(), NoMemory>
        ensures ok { OnOk result (n ≤ self.new.spare) }
        ensures same { self.new ≡ record self.old { spare = self.new.spare } }
        ensures kept { self.old.spare ≤ self.new.spare }
    {
        if n <= self.spare {
            return Ok(());
        }
        match reserve_each(&mut self.ports, n) {
            Ok(()) => {
                self.spare = n;
                Ok(())
            }
            Err(_) => Err(NoMemory),
        }
    }

    /// The number of ports.
    pub fn ports(&self) -> u32
        ensures count { result ≡ length self.now.ports }
        ensures some { 1 ≤ result }
        ensures few { result ≤ 8 }
    {
        self.ports.len() as u32
    }

    /// How many items wait at a port.
    pub fn len(&self, port: u32) -> usize
        requires { port < length self.now.ports }
        ensures { (items : List Item) → slice_get self.now.ports port ≡ Some items → result ≡ length items }
    {
        self.ports[port as usize].len()
    }

    /// An item that waits at a port, the oldest first.
    pub fn at(&self, port: u32, k: usize) -> Option<&Item>
        requires { port < length self.now.ports }
        ensures { option_copied result ≡ where_some (slice_get self.now.ports port) (λ items. slice_get items k) }
    {
        self.ports[port as usize].get(k)
    }

    /// The first item of this number that waits at a port. Linear in the items there.
    pub fn item(&self, port: u32, no: u64) -> Option<&Item>
        requires { port < length self.now.ports }
        ensures { option_copied result ≡ where_some (slice_get self.now.ports port) (find (is_numbered no)) }
    {
        item_in(&self.ports[port as usize], no)
    }

    /// An item comes to a port, where it is the last.
    pub fn accept(&mut self, port: u32, item: Item)
        requires port { port < length self.old.ports }
        requires spare { 1 ≤ self.old.spare }
        ensures { self.new
            ≡ record self.old { ports = change_at (λ items. items ++ item ∷ []) port self.old.ports; spare = self.old.spare - 1 } }
    {
        self.ports[port as usize].push_back_reserved(item);
        self.spare -= 1;
    }

    /// Whether each port has an item, so that a tuple can be formed.
    pub fn ready(&self) -> bool
        ensures { result ≡ is_some (next_parts self.now) }
    {
        are_filled(&self.ports)
    }

    /// The part of the next tuple at a port.
    pub fn part(&self, port: u32) -> Option<&Item>
        requires { port < length self.now.ports }
        ensures { option_copied result ≡ where_some (next_parts self.now) (λ parts. slice_get parts port) }
    {
        if self.ready() {
            front_of(&self.ports[port as usize])
        } else {
            None
        }
    }

    /// The parts of the next tuple leave, and stand last in the lists in port order; answers the tuple's tag.
    pub fn form(&mut self, ids: &mut Roomy<Id>, vals: &mut Roomy<Val>) -> u64
        requires ready { is_some (next_parts self.old) ≡ true }
        requires ids { length self.old.ports ≤ ids.old.spare }
        requires vals { length self.old.ports ≤ vals.old.spare }
        ensures join { self.new
            ≡ record self.old { ports = ports_after_form (kind_of self.old) (tag_of (taken self.old)) self.old.ports } }
        ensures ids { ids.new
            ≡ roomy (ids.old.items ++ map id_of (taken self.old)) (ids.old.spare - length self.old.ports) }
        ensures vals { vals.new
            ≡ roomy (vals.old.items ++ map (λ (i : Item). i.val) (taken self.old)) (vals.old.spare - length self.old.ports) }
        ensures tag { result ≡ tag_of (taken self.old) }
    {
        let tag = front_tag(&self.ports[0]);
        take_fronts(&mut self.ports, ids, vals);
        tag
    }
}

ghost use Rattle.std.specs.List.{All, list_all};
ghost use Rattle.std.specs.VecDeque.{deque_len, deque_capacity};
ghost use Rattle.flow_item.specs.Lists.{first, rest};
ghost use Rattle.flow_machine.specs.State.{option_list};
ghost use Rattle.flow_machine.specs.Offers.{fronts};
ghost use Rattle.std.specs.Option.{unwrap_or};
ghost use Rattle.flow_join.specs.Queues.{ring_items, is_filled, HasRoom};

/// Whether each ring has an item.
fn are_filled(rings: &[VecDeque<Item>]) -> bool
    ensures { result ≡ list_all is_filled rings.now }
{
    rings.iter().all(|ring| !ring.is_empty())
}

/// So many empty rings.
fn rings(alloc: Global, ports: u32) -> Result<Vec<VecDeque<Item>>, AllocError>
    ensures { IfOk result (λ rings. map ring_items rings.items ≡ replicate ports []) }
{
    let mut rings = Vec::with_capacity(alloc, ports as usize)?;
    for _ in 0..ports {
        rings.push(VecDeque::new(alloc))?;
    }
    Ok(rings)
}

/// Makes room for so many items more in each ring.
fn reserve_each(rings: &mut Vec<VecDeque<Item>>, n: usize) -> Result<(), AllocError>
    ensures items { map ring_items rings.new.items ≡ map ring_items rings.old.items }
    ensures ok { OnOk result (All (HasRoom n) rings.new.items) }
    ensures kept { (m : ℕ) → All (HasRoom m) rings.old.items → All (HasRoom m) rings.new.items }
{
    for port in 0..rings.len() {
        rings[port].reserve(n)?;
    }
    Ok(())
}

/// The first item of a ring.
fn front_of(ring: &VecDeque<Item>) -> Option<&Item>
    ensures { option_copied result ≡ first ring.now.items }
{
    ring.front()
}

/// The first item of this number in a ring.
fn item_in(ring: &VecDeque<Item>, no: u64) -> Option<&Item>
    ensures { option_copied result ≡ find (is_numbered no) ring.now.items }
{
    ring.iter().find(|item| item.id.no == no)
}

/// The tag of the first item of a ring.
fn front_tag(ring: &VecDeque<Item>) -> u64
    requires { 0 < deque_len ring.now }
    ensures { tag_of ring.now.items ≡ result }
{
    ring.front().unwrap().tag
}

/// The first item of each ring leaves, and stands last in the lists.
fn take_fronts(rings: &mut Vec<VecDeque<Item>>, ids: &mut Roomy<Id>, vals: &mut Roomy<Val>)
    requires ready { is_some (fronts (map ring_items rings.old.items)) ≡ true }
    requires ids { length rings.old.items ≤ ids.old.spare }
    requires vals { length rings.old.items ≤ vals.old.spare }
    ensures rings { map ring_items rings.new.items ≡ map rest (map ring_items rings.old.items) }
    ensures ids { ids.new
        ≡ roomy (ids.old.items ++ map id_of (unwrap_or (fronts (map ring_items rings.old.items)) [])) (ids.old.spare - length rings.old.items) }
    ensures vals { vals.new
        ≡ roomy (vals.old.items ++ map (λ (i : Item). i.val) (unwrap_or (fronts (map ring_items rings.old.items)) [])) (vals.old.spare - length rings.old.items) }
    ensures room { (m : ℕ) → All (HasRoom m) rings.old.items → All (HasRoom m) rings.new.items }
{
    for port in 0..rings.len() {
        take_front(&mut rings[port], ids, vals);
    }
}

/// The first item of a ring leaves, and stands last in the lists.
fn take_front(ring: &mut VecDeque<Item>, ids: &mut Roomy<Id>, vals: &mut Roomy<Val>)
    requires some { 0 < deque_len ring.old }
    requires ids { 1 ≤ ids.old.spare }
    requires vals { 1 ≤ vals.old.spare }
    ensures ring { ring.new.items ≡ rest ring.old.items }
    ensures ids { ids.new
        ≡ roomy (ids.old.items ++ map id_of (option_list (first ring.old.items))) (ids.old.spare - 1) }
    ensures vals { vals.new
        ≡ roomy (vals.old.items ++ map (λ (i : Item). i.val) (option_list (first ring.old.items))) (vals.old.spare - 1) }
    ensures len { deque_len ring.new ≤ deque_len ring.old }
    ensures capacity { deque_capacity ring.new ≡ deque_capacity ring.old }
{
    let part = ring.pop_front().unwrap();
    push_part(part, ids, vals);
}

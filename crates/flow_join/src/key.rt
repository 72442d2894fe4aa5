ghost use Rattle.std.specs.Prelude.{◌≡◌, ◌-◌, ◌≤◌, ◌<◌, Some, None, true, [], ◌∷◌, ◌++◌, map, length, replicate, is_some, slice_get, OnOk, IfOk};
ghost use Rattle.std.specs.List.{find};
ghost use Rattle.std.specs.Option.{option_copied};
ghost use Rattle.flow_item.specs.declared.item.Item.{Item};
ghost use Rattle.flow_item.specs.Lists.{change_at};
ghost use Rattle.flow_item.specs.Rooms.{roomy};
ghost use Rattle.flow_machine.specs.Offers.{tag_of};
ghost use Rattle.flow_machine.specs.Enabled.{is_numbered};
ghost use Rattle.flow_machine.specs.After.{ports_after_form};
ghost use Rattle.flow_machine.specs.WishEvents.{where_some, id_of};

use crate::key_port::KeyPort;
use crate::parts::push_part;
use flow_item::{Id, Item, NoMemory, Roomy, Val};
use std::alloc::{AllocError, Global};
use std::cmp::Reverse;
use std::collections::BinaryHeap;
use std::marker::Model;

/// A key-matching join: at each port a map from each tag to the items that wait there, the oldest first.
///
/// With n tags waiting, `accept` and `form` cost at most log n for each port on average, and `part` constant time.
#[derive(Drop)]
pub struct KeyJoin {
    ports: Vec<KeyPort>,
    /// The tags that are at each port, the least on top.
    complete: BinaryHeap<Reverse<u64>>,
    /// The port and the tag of the last `reserve`.
    ready_for: Option<(u32, u64)>,
}

impl Model for KeyJoin {
    ghost use Rattle.std.specs.Prelude.{map};
    ghost use Rattle.std.specs.Coded.{codes};
    ghost use Rattle.flow_item.specs.contracts.val.Val as val;
    ghost use Rattle.flow_join.specs.Keys.{RoomyKeyJoin, port_items, KeepsKeys};

    ghost Value = { RoomyKeyJoin };

    ghost coded = { Prim.hlevel (codes, val.the_row.coded) };

    ghost view = { λ j. record { ports = map port_items j.ports.items; ready_for = j.ready_for } };

    ghost invariant = { λ j. KeepsKeys j.ports.items j.complete j.ready_for };
}

impl KeyJoin {
    ghost use Rattle.flow_join.specs.Keys.{key_kind_of, next_key_parts, key_taken};

    /// A join with so many empty ports.
    pub fn new(alloc: Global, ports: u32) -> Result<KeyJoin, NoMemory>
        requires some { 1 ≤ ports }
        requires few { ports ≤ 8 }
        ensures { IfOk result (λ j. j ≡ record { ports = replicate ports []; ready_for = None }) }
    {
        match key_ports(alloc, ports) {
            Ok(ports) => Ok(KeyJoin {
                ports,
                complete: BinaryHeap::new(alloc),
                ready_for: None,
            }),
            Err(_) => Err(NoMemory),
        }
    }

    /// Makes room for one more item of a tag at a port. It also fails after 2^64 - 2 items at a port.
    pub fn reserve(&mut self, port: u32, tag: u64) -> Result<(), NoMemory>
        requires { port < length self.old.ports }
        ensures ok { OnOk result (self.new.ready_for ≡ Some (port, tag)) }
        ensures same { self.new ≡ record self.old { ready_for = self.new.ready_for } }
    {
        self.ready_for = None;
        reserve_tag(&mut self.complete)?;
        let at = &mut self.ports[port as usize];
        at.reserve(tag)?;
        self.ready_for = Some((port, tag));
        Ok(())
    }

    /// The number of ports.
    pub fn ports(&self) -> u32
        ensures count { result ≡ length self.now.ports }
        ensures some { 1 ≤ result }
        ensures few { result ≤ 8 }
    {
        self.ports.len() as u32
    }

    /// An item that waits at a port, the oldest first. Takes time with the items before it.
    pub fn at(&self, port: u32, k: usize) -> Option<&Item>
        requires { port < length self.now.ports }
        ensures { option_copied result ≡ where_some (slice_get self.now.ports port) (λ items. slice_get items k) }
    {
        let at = &self.ports[port as usize];
        at.at(k)
    }

    /// The first item of this number that waits at a port. Linear in the items there.
    pub fn item(&self, port: u32, no: u64) -> Option<&Item>
        requires { port < length self.now.ports }
        ensures { option_copied result ≡ where_some (slice_get self.now.ports port) (find (is_numbered no)) }
    {
        let at = &self.ports[port as usize];
        at.item(no)
    }

    /// An item comes to a port, where it is the last.
    pub fn accept(&mut self, port: u32, item: Item)
        requires port { port < length self.old.ports }
        requires ready { self.old.ready_for ≡ Some (port, item.tag) }
        ensures { self.new
            ≡ record { ports = change_at (λ items. items ++ item ∷ []) port self.old.ports; ready_for = None } }
    {
        let tag = item.tag;
        let was = at_each(&self.ports, tag);
        let at = &mut self.ports[port as usize];
        at.accept(item);
        let now = at_each(&self.ports, tag);
        add_tag(&mut self.complete, tag, was, now);
        self.ready_for = None;
    }

    /// Whether some tag is at each port, so that a tuple can be formed.
    pub fn ready(&self) -> bool
        ensures { result ≡ is_some (next_key_parts self.now) }
    {
        least_tag(&self.complete).is_some()
    }

    /// The part of the next tuple at a port: its oldest item of the least tag that is at each port.
    pub fn part(&self, port: u32) -> Option<&Item>
        requires { port < length self.now.ports }
        ensures { option_copied result ≡ where_some (next_key_parts self.now) (λ parts. slice_get parts port) }
    {
        match least_tag(&self.complete) {
            Some(tag) => {
                let at = &self.ports[port as usize];
                at.part(tag)
            }
            None => None,
        }
    }

    /// The parts of the next tuple leave, and stand last in the lists in port order; answers the tuple's tag.
    pub fn form(&mut self, ids: &mut Roomy<Id>, vals: &mut Roomy<Val>) -> u64
        requires ready { is_some (next_key_parts self.old) ≡ true }
        requires ids { length self.old.ports ≤ ids.old.spare }
        requires vals { length self.old.ports ≤ vals.old.spare }
        ensures join { self.new
            ≡ record { ports = ports_after_form (key_kind_of self.old) (tag_of (key_taken self.old)) self.old.ports; ready_for = None } }
        ensures ids { ids.new
            ≡ roomy (ids.old.items ++ map id_of (key_taken self.old)) (ids.old.spare - length self.old.ports) }
        ensures vals { vals.new
            ≡ roomy (vals.old.items ++ map (λ (i : Item). i.val) (key_taken self.old)) (vals.old.spare - length self.old.ports) }
        ensures tag { result ≡ tag_of (key_taken self.old) }
    {
        let tag = pop_tag(&mut self.complete);
        take_parts(&mut self.ports, tag, ids, vals);
        let now = at_each(&self.ports, tag);
        add_tag(&mut self.complete, tag, false, now);
        self.ready_for = None;
        tag
    }
}

ghost use Rattle.std.specs.Prelude.{ℕ, ◌+◌, nat_eq, not, ◌&&◌, if◌then◌else◌};
ghost use Rattle.std.specs.BinaryHeap.{heap_items, heap_len, heap_capacity, IsHeap};
ghost use Rattle.std.specs.declared.cmp.Reverse.{Reverse};
ghost use Rattle.std.specs.List.{list_all};
ghost use Rattle.flow_item.specs.Lists.{first, drop_first};
ghost use Rattle.flow_machine.specs.Offers.{with_tag, fronts};
ghost use Rattle.flow_machine.specs.After.{has_tag};
ghost use Rattle.std.specs.Option.{unwrap_or};
ghost use Rattle.flow_join.specs.Tags.{RoomyPort};
ghost use Rattle.flow_join.specs.Keys.{port_items, at_each, least_first, count_tag, IsLeastTag};

/// So many ports at which nothing waits.
fn key_ports(alloc: Global, ports: u32) -> Result<Vec<KeyPort>, AllocError>
    ensures { IfOk result (λ ps. ps.items ≡ replicate ports (record { items = []; ready = None })) }
{
    let mut all = Vec::with_capacity(alloc, ports as usize)?;
    for _ in 0..ports {
        all.push(KeyPort::new(alloc))?;
    }
    Ok(all)
}

/// Whether an item of a tag waits at each port.
fn at_each(ports: &[KeyPort], tag: u64) -> bool
    ensures { result ≡ at_each tag ports.now }
{
    ports.iter().all(|port| port.has(tag))
}

/// Makes room for one more tag.
fn reserve_tag(heap: &mut BinaryHeap<Reverse<u64>>) -> Result<(), NoMemory>
    ensures ok { OnOk result (heap_len heap.new < heap_capacity heap.new) }
    ensures same { heap_items heap.new ≡ heap_items heap.old }
{
    match heap.reserve(1) {
        Ok(()) => Ok(()),
        Err(_) => Err(NoMemory),
    }
}

/// Adds a tag, for which there is room.
fn push_tag(heap: &mut BinaryHeap<Reverse<u64>>, tag: u64)
    requires room { heap_len heap.old < heap_capacity heap.old }
    requires ordered { IsHeap least_first (heap_items heap.old) }
    ensures ordered { IsHeap least_first (heap_items heap.new) }
    ensures tags { (t : ℕ) → count_tag t (heap_items heap.new) ≡ (if nat_eq tag t then 1 else 0) + count_tag t (heap_items heap.old) }
{
    match heap.push(Reverse(tag)) {
        Ok(()) => {}
        Err(_) => unreachable!(),
    }
}

/// Adds a tag that is at each port now and was not before, for which there is room.
fn add_tag(heap: &mut BinaryHeap<Reverse<u64>>, tag: u64, was: bool, now: bool)
    requires room { heap_len heap.old < heap_capacity heap.old }
    requires ordered { IsHeap least_first (heap_items heap.old) }
    ensures ordered { IsHeap least_first (heap_items heap.new) }
    ensures tags { (t : ℕ) → count_tag t (heap_items heap.new)
        ≡ (if not was && now then (if nat_eq tag t then 1 else 0) else 0) + count_tag t (heap_items heap.old) }
{
    if was {
        return;
    }
    if now {
        push_tag(heap, tag);
    }
}

/// The least tag.
fn least_tag(heap: &BinaryHeap<Reverse<u64>>) -> Option<u64>
    requires { IsHeap least_first (heap_items heap.now) }
    ensures { IsLeastTag (heap_items heap.now) result }
{
    match heap.peek() {
        Some(Reverse(tag)) => Some(*tag),
        None => None,
    }
}

/// Takes out the least tag.
fn pop_tag(heap: &mut BinaryHeap<Reverse<u64>>) -> u64
    requires some { 0 < heap_len heap.old }
    requires ordered { IsHeap least_first (heap_items heap.old) }
    ensures ordered { IsHeap least_first (heap_items heap.new) }
    ensures tags { (t : ℕ) → count_tag t (heap_items heap.old) ≡ (if nat_eq result t then 1 else 0) + count_tag t (heap_items heap.new) }
    ensures least { (t : ℕ) → 0 < count_tag t (heap_items heap.old) → result ≤ t }
    ensures room { heap_len heap.new < heap_capacity heap.new }
{
    match heap.pop() {
        Some(Reverse(tag)) => tag,
        None => unreachable!(),
    }
}

/// The oldest item of a tag leaves each port, and stands last in the lists.
fn take_parts(ports: &mut Vec<KeyPort>, tag: u64, ids: &mut Roomy<Id>, vals: &mut Roomy<Val>)
    requires each { at_each tag ports.old.items ≡ true }
    requires ids { length ports.old.items ≤ ids.old.spare }
    requires vals { length ports.old.items ≤ vals.old.spare }
    ensures ports { map port_items ports.new.items ≡ map (drop_first (has_tag tag)) (map port_items ports.old.items) }
    ensures ids { ids.new
        ≡ roomy (ids.old.items ++ map id_of (unwrap_or (fronts (map (with_tag tag) (map port_items ports.old.items))) [])) (ids.old.spare - length ports.old.items) }
    ensures vals { vals.new
        ≡ roomy (vals.old.items ++ map (λ (i : Item). i.val) (unwrap_or (fronts (map (with_tag tag) (map port_items ports.old.items))) [])) (vals.old.spare - length ports.old.items) }
{
    for port in 0..ports.len() {
        let at = &mut ports[port];
        let part = at.take(tag);
        push_part(part, ids, vals);
    }
}

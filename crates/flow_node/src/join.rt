//! The part of a queueing or key-matching join.

ghost use Rattle.std.specs.Prelude.{◌≡◌, ◌≤◌, ◌<◌, ◌&&◌, ◌++◌, ◌∷◌, [], true, false, None, not, length, map, is_some, nat_eq, slice_get, OnOk, IfOk};
ghost use Rattle.std.specs.List.{find};
ghost use Rattle.std.specs.Option.{option_copied, option_map};
ghost use Rattle.flow_item.specs.Lists.{is_empty, first, change_at};
ghost use Rattle.flow_machine.specs.State.{offer, start_part};
ghost use Rattle.flow_machine.specs.Offers.{candidates, offer_end, all_in, is_met, tag_of};
ghost use Rattle.flow_machine.specs.After.{part_after_form, ports_after_form};
ghost use Rattle.flow_machine.specs.Enabled.{is_numbered};
ghost use Rattle.flow_machine.specs.Ledger.{flattened};
ghost use Rattle.flow_machine.specs.Wishes.{offer_wish, shut_wish};
ghost use Rattle.flow_machine.specs.WishEvents.{id_of, where_some};
ghost use Rattle.flow_node.specs.Kept.{place_with, state_with};
ghost use Rattle.flow_node.specs.Readied.{suits};
ghost use Rattle.flow_node.specs.NodeViews.{present_items};
ghost use Rattle.flow_node.specs.Joins.{JoinView, ports_of, rule_of, parts_of, ready_parts, tuple_in, slot_items, inputs_spare, inputs_ready_for, join_kind, join_part_of, has_tuple_room, is_slot_roomy, tuple_cast};
ghost use Rattle.flow_node.specs.Parts.{given_over};
ghost use Rattle.flow_item.specs.declared.item.Item.{Item};

use crate::base::Base;
use crate::function::{count_over, may_meet};
use flow_cast::{Cast, CastRoom};
use flow_item::{Ended, Id, Ids, Item, NoMemory, Roomy, Val};
use flow_join::{KeyJoin, QueueJoin};
use flow_machine::Wish;
use flow_shape::Kind;
use std::alloc::Global;
use std::marker::Model;
use std::mem;

/// What waits at the input ports of a join, by its rule.
#[derive(Drop)]
pub(crate) enum Inputs {
    Queue(QueueJoin),
    Key(KeyJoin),
}

impl Inputs {
    /// The number of ports.
    fn ports(&self) -> u32
        ensures count { result ≡ length (ports_of self.now) }
        ensures few { result ≤ 8 }
    {
        match self {
            Inputs::Queue(join) => join.ports(),
            Inputs::Key(join) => join.ports(),
        }
    }

    /// Whether a tuple can be formed.
    fn ready(&self) -> bool
        ensures { result ≡ is_some (parts_of self.now) }
    {
        match self {
            Inputs::Queue(join) => join.ready(),
            Inputs::Key(join) => join.ready(),
        }
    }

    /// The part of the next tuple at a port.
    fn part(&self, port: u32) -> Option<&Item>
        requires { port < length (ports_of self.now) }
        ensures { option_copied result
            ≡ where_some (parts_of self.now) (λ parts. slice_get parts port) }
    {
        match self {
            Inputs::Queue(join) => join.part(port),
            Inputs::Key(join) => join.part(port),
        }
    }

    /// The ids of the parts of the next tuple, in port order.
    fn ids(&self, alloc: Global) -> Result<Ids, NoMemory>
        requires { is_some (parts_of self.now) ≡ true }
        ensures { IfOk result (λ ids. ids ≡ map id_of (ready_parts self.now)) }
    {
        let mut ids = Ids::new(alloc);
        for port in 0..self.ports() {
            match self.part(port) {
                Some(part) => ids.push(part.id)?,
                None => unreachable!(),
            }
        }
        Ok(ids)
    }

    /// The first item of this number that waits at a port. Linear in the items there.
    fn item(&self, port: u32, no: u64) -> Option<&Item>
        requires { port < length (ports_of self.now) }
        ensures { option_copied result
            ≡ where_some (slice_get (ports_of self.now) port) (find (is_numbered no)) }
    {
        match self {
            Inputs::Queue(join) => join.item(port, no),
            Inputs::Key(join) => join.item(port, no),
        }
    }

    /// Makes room for one more item of a tag at a port. At a key-matching join it also fails at a port that there isn't.
    fn reserve(&mut self, port: u32, tag: u64) -> Result<(), NoMemory>
        ensures ok { OnOk result (1 ≤ inputs_spare self.new) }
        ensures suits { OnOk result (suits (inputs_ready_for self.new) port tag ≡ true) }
        ensures ports { ports_of self.new ≡ ports_of self.old }
        ensures rule { rule_of self.new ≡ rule_of self.old }
    {
        let ports = self.ports();
        match self {
            Inputs::Queue(join) => join.reserve(1),
            Inputs::Key(join) => {
                if port < ports {
                    join.reserve(port, tag)
                } else {
                    Err(NoMemory)
                }
            }
        }
    }

    /// An item comes to a port, where it is the last.
    fn accept(&mut self, port: u32, item: Item)
        requires spare { 1 ≤ inputs_spare self.old }
        requires suits { suits (inputs_ready_for self.old) port item.tag ≡ true }
        ensures ports { ports_of self.new ≡ change_at (λ q. q ++ item ∷ []) port (ports_of self.old) }
        ensures rule { rule_of self.new ≡ rule_of self.old }
    {
        if port >= self.ports() {
            drop(item);
            return;
        }
        match self {
            Inputs::Queue(join) => join.accept(port, item),
            Inputs::Key(join) => join.accept(port, item),
        }
    }

    /// The parts of the next tuple leave, and stand last in the lists in port order; answers the tuple's tag.
    fn form(&mut self, ids: &mut Roomy<Id>, vals: &mut Roomy<Val>) -> u64
        requires ready { is_some (parts_of self.old) ≡ true }
        requires ids { length (ports_of self.old) ≤ ids.old.spare }
        requires vals { length (ports_of self.old) ≤ vals.old.spare }
        ensures ports { ports_of self.new
            ≡ ports_after_form (rule_of self.old) (tag_of (ready_parts self.old)) (ports_of self.old) }
        ensures rule { rule_of self.new ≡ rule_of self.old }
        ensures vals { vals.new.items
            ≡ vals.old.items ++ map (λ (i : Item). i.val) (ready_parts self.old) }
        ensures tag { result ≡ tag_of (ready_parts self.old) }
    {
        match self {
            Inputs::Queue(join) => join.form(ids, vals),
            Inputs::Key(join) => join.form(ids, vals),
        }
    }
}

/// What the next tuple is made in: room for the values of its parts, and for its cast.
#[derive(Drop)]
pub(crate) struct TupleRoom {
    vals: Roomy<Val>,
    cast: CastRoom,
}

/// The items that wait at the ports, and the tuple on offer.
#[derive(Drop)]
pub(crate) struct JoinPart {
    inputs: Inputs,
    slot: Option<Cast>,
    /// What the next tuple is made in, once the node is prepared for one.
    room: Option<TupleRoom>,
    /// An empty list for the ids of the parts, which the event of a tuple has.
    ids: Roomy<Id>,
    alloc: Global,
}

impl Model for JoinPart {
    ghost use Rattle.std.specs.Prelude.{◌≤◌, ◌≡◌, [], length};
    ghost use Rattle.std.specs.Option.{option_map};
    ghost use Rattle.std.specs.Coded.{codes};
    ghost use Rattle.flow_item.specs.contracts.val.Val as val;
    ghost use Rattle.flow_node.specs.Joins.{JoinView, KeepsRoom, room_edges};

    ghost Value = { JoinView };

    ghost coded = { Prim.hlevel (codes, val.the_row.coded) };

    ghost view = { λ j. record { inputs = j.inputs; slot = j.slot; room = option_map room_edges j.room } };

    ghost invariant = { λ j. KeepsRoom j.inputs j.room j.ids };
}

/// Whether the cast met all edges in push, and none holds it.
fn has_met_push(push: &[u32], cast: &Cast) -> bool
    ensures { result ≡ is_met push.now cast.now.cast }
{
    !cast.is_held() && has_met_each(push, cast)
}

/// Whether the cast met all edges in push.
fn has_met_each(push: &[u32], cast: &Cast) -> bool
    ensures { result ≡ all_in push.now cast.now.cast.met }
{
    for k in 0..push.len() {
        if cast.offer(push[k]) {
            return false;
        }
    }
    true
}

/// Whether a tuple on offer is over: some successor has it, and no edge in push is left to meet.
fn is_over(push: &[u32], cast: &Cast) -> bool
    ensures { result ≡ (is_met push.now cast.now.cast && not (nat_eq cast.now.cast.got 0)) }
{
    has_met_push(push, cast) && cast.got() > 0
}

/// The item, where it has this number.
fn if_numbered(item: &Item, no: u64) -> Option<&Item>
    ensures { option_copied result ≡ find (is_numbered no) (item.now ∷ []) }
{
    if item.id.no == no { Some(item) } else { None }
}

/// Room for the next tuple: its parts, and the edges that it may go over.
fn tuple_room(alloc: Global, ports: usize, edges: usize) -> Result<TupleRoom, NoMemory>
    ensures vals { IfOk result (λ r. (r.vals.items ≡ []) × (ports ≤ r.vals.spare)) }
    ensures cast { IfOk result (λ r. r.cast ≡ edges) }
{
    let mut vals = Roomy::new(alloc);
    vals.reserve(ports)?;
    let cast = CastRoom::new(alloc, edges)?;
    Ok(TupleRoom { vals, cast })
}

/// Takes the members out of the list, and keeps their room.
fn empty(ids: &mut Roomy<Id>, alloc: Global)
    ensures { ids.new.items ≡ [] }
{
    let mut full = mem::replace(ids, Roomy::new(alloc)).into_vec();
    full.clear();
    drop(mem::replace(ids, Roomy::from_vec(full)));
}

impl JoinPart {
    /// A join at whose ports nothing waits.
    fn of(alloc: Global, inputs: Inputs) -> JoinPart
        ensures { result ≡ record { inputs = inputs; slot = None; room = None } }
    {
        JoinPart {
            inputs,
            slot: None,
            room: None,
            ids: Roomy::new(alloc),
            alloc,
        }
    }

    /// A queueing join with so many empty ports.
    pub(crate) fn queueing(alloc: Global, ports: u32) -> Result<JoinPart, NoMemory>
        requires some { 1 ≤ ports }
        requires few { ports ≤ 8 }
        ensures kind { IfOk result (λ j. join_kind j ≡ Kind.QueueJoin ports) }
        ensures part { IfOk result (λ j. join_part_of j ≡ start_part (Kind.QueueJoin ports)) }
        ensures slot { IfOk result (λ j. (j.slot ≡ None) × (j.room ≡ None)) }
    {
        Ok(JoinPart::of(alloc, Inputs::Queue(QueueJoin::new(alloc, ports)?)))
    }

    /// A key-matching join with so many empty ports.
    pub(crate) fn matching(alloc: Global, ports: u32) -> Result<JoinPart, NoMemory>
        requires some { 1 ≤ ports }
        requires few { ports ≤ 8 }
        ensures kind { IfOk result (λ j. join_kind j ≡ Kind.KeyJoin ports) }
        ensures part { IfOk result (λ j. join_part_of j ≡ start_part (Kind.KeyJoin ports)) }
        ensures slot { IfOk result (λ j. (j.slot ≡ None) × (j.room ≡ None)) }
    {
        Ok(JoinPart::of(alloc, Inputs::Key(KeyJoin::new(alloc, ports)?)))
    }

    /// The tuple on offer, where it may go over the edge. Linear in the edges of the node.
    pub(crate) fn candidate(&self, base: &Base, edge: u32) -> Option<&Item>
        ensures { option_copied result
            ≡ first (candidates (place_with base.now (join_kind self.now)) (state_with base.now (join_part_of self.now)) edge) }
    {
        match &self.slot {
            Some(cast) if may_meet(&base.outs, cast, edge) => Some(cast.item()),
            _ => None,
        }
    }

    /// The tuple of this number, where it may go over the edge.
    pub(crate) fn offered(&self, base: &Base, edge: u32, no: u64) -> Option<&Item>
        ensures { option_copied result
            ≡ find (is_numbered no) (candidates (place_with base.now (join_kind self.now)) (state_with base.now (join_part_of self.now)) edge) }
    {
        match self.candidate(base, edge) {
            Some(item) if item.id.no == no => Some(item),
            _ => None,
        }
    }

    /// The first item of this number among those that wait at the ports, and the tuple on offer. Linear in the items.
    pub(crate) fn item(&self, no: u64) -> Option<&Item>
        ensures { option_copied result
            ≡ find (is_numbered no) (present_items (join_part_of self.now)) }
    {
        match self.waiting(no) {
            Some(item) => Some(item),
            None => self.slot_item(no),
        }
    }

    /// The tuple on offer, where it has this number.
    fn slot_item(&self, no: u64) -> Option<&Item>
        ensures { option_copied result
            ≡ find (is_numbered no) (slot_items self.now.slot) }
    {
        match &self.slot {
            Some(cast) => if_numbered(cast.item(), no),
            None => None,
        }
    }

    /// The first item of this number among those that wait at the ports.
    fn waiting(&self, no: u64) -> Option<&Item>
        ensures { option_copied result
            ≡ find (is_numbered no) (flattened (ports_of self.now.inputs)) }
    {
        for port in 0..self.inputs.ports() {
            if let Some(item) = self.inputs.item(port, no) {
                return Some(item);
            }
        }
        None
    }

    /// The first offer over an edge in push.
    pub(crate) fn offer_wish(&self, base: &Base) -> Option<Wish>
        ensures { result
            ≡ offer_wish (place_with base.now (join_kind self.now)) (state_with base.now (join_part_of self.now)) base.now.push.items }
    {
        for k in 0..base.push.len() {
            let edge = base.push[k];
            if let Some(item) = self.candidate(base, edge) {
                return Some(Wish::Offer {
                    edge,
                    item: item.id.no,
                });
            }
        }
        None
    }

    /// The end of the tuple on offer, once a successor has it and no edge in push is left to meet.
    pub(crate) fn shut_wish(&self, base: &Base) -> Option<Wish>
        ensures { result
            ≡ shut_wish (offer (join_part_of self.now)) (offer_end (place_with base.now (join_kind self.now)) (state_with base.now (join_part_of self.now))) }
    {
        match &self.slot {
            Some(cast) if is_over(&base.push, cast) => Some(Wish::Shut {
                item: cast.item().id.no,
                ended: Ended::Out,
            }),
            _ => None,
        }
    }

    /// Whether a tuple can be formed: none is on offer, and its parts are there.
    pub(crate) fn forms(&self) -> bool
        ensures { result ≡ is_some (tuple_in self.now) }
    {
        self.slot.is_none() && self.inputs.ready()
    }

    /// The ids of the parts of the tuple that can be formed, in port order.
    pub(crate) fn parts(&self) -> Result<Option<Ids>, NoMemory>
        ensures { IfOk result (λ ids. ids ≡ option_map (map id_of) (tuple_in self.now)) }
    {
        if self.forms() {
            Ok(Some(self.inputs.ids(self.alloc)?))
        } else {
            Ok(None)
        }
    }
}

impl JoinPart {
    /// Makes room for one more item of a tag at a port. At a key-matching join it also fails at a port that there isn't.
    pub(crate) fn reserve(&mut self, port: u32, tag: u64) -> Result<(), NoMemory>
        ensures ok { OnOk result (1 ≤ inputs_spare self.new.inputs) }
        ensures suits { OnOk result (suits (inputs_ready_for self.new.inputs) port tag ≡ true) }
        ensures ports { ports_of self.new.inputs ≡ ports_of self.old.inputs }
        ensures rule { rule_of self.new.inputs ≡ rule_of self.old.inputs }
        ensures same { self.new ≡ record self.old { inputs = self.new.inputs } }
    {
        self.inputs.reserve(port, tag)
    }

    /// Makes what the next tuple is made in.
    pub(crate) fn expect_tuple(&mut self, base: &Base) -> Result<(), NoMemory>
        ensures ok { OnOk result (is_some self.new.room ≡ true) }
        ensures same { self.new ≡ record self.old { room = self.new.room } }
        ensures room { has_tuple_room base.now.outs.items self.new.room ≡ true }
    {
        let ports = self.inputs.ports() as usize;
        drop(self.room.take());
        self.ids.reserve(ports)?;
        let room = tuple_room(self.alloc, ports, count_over(&base.outs, 0))?;
        drop(self.room.replace(room));
        Ok(())
    }

    /// An item comes to a port, where it is the last.
    pub(crate) fn arrive(&mut self, port: u32, item: Item)
        requires spare { 1 ≤ inputs_spare self.old.inputs }
        requires suits { suits (inputs_ready_for self.old.inputs) port item.tag ≡ true }
        ensures ports { ports_of self.new.inputs
            ≡ change_at (λ q. q ++ item ∷ []) port (ports_of self.old.inputs) }
        ensures rule { rule_of self.new.inputs ≡ rule_of self.old.inputs }
        ensures same { self.new ≡ record self.old { inputs = self.new.inputs } }
    {
        self.inputs.accept(port, item);
    }

    /// The tuple is formed, and on offer with this number.
    pub(crate) fn form(&mut self, base: &Base, no: u64)
        requires ready { is_some (parts_of self.old.inputs) ≡ true }
        requires room { is_some self.old.room ≡ true }
        ensures ports { ports_of self.new.inputs
            ≡ ports_after_form (rule_of self.old.inputs) (tag_of (ready_parts self.old.inputs)) (ports_of self.old.inputs) }
        ensures rule { rule_of self.new.inputs ≡ rule_of self.old.inputs }
        ensures slot { self.new.slot ≡ option_map (tuple_cast base.now.node no (ready_parts self.old.inputs)) self.old.room }
        ensures room { self.new.room ≡ None }
    {
        let room = self.room.take();
        match room {
            Some(TupleRoom { mut vals, cast }) => {
                let tag = self.inputs.form(&mut self.ids, &mut vals);
                empty(&mut self.ids, self.alloc);
                let item = Item {
                    id: Id {
                        node: base.node,
                        no,
                    },
                    tag,
                    val: Val::list(self.alloc, vals.into_items()),
                };
                drop(self.slot.replace(Cast::in_room(item, 0, cast)));
            }
            None => unreachable!(),
        }
    }

    /// The tuple on offer went over the edge.
    pub(crate) fn give(&mut self, base: &Base, edge: u32)
        requires roomy { is_slot_roomy base.now.outs.items self.old.slot ≡ true }
        requires open { is_empty (candidates (place_with base.now (join_kind self.old)) (state_with base.now (join_part_of self.old)) edge) ≡ false }
        ensures { self.new ≡ record self.old { slot = option_map (given_over edge) self.old.slot } }
    {
        let _ = base;
        if let Some(cast) = &mut self.slot {
            cast.give(edge);
        }
    }

    /// The tuple on offer is over.
    pub(crate) fn shut(&mut self)
        ensures { self.new ≡ record self.old { slot = None } }
    {
        drop(self.slot.take());
    }
}

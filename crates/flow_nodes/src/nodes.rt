ghost use Rattle.std.specs.Prelude.{◌≡◌, ◌<◌, true, false, List, length, map, slice_get, slice_set, OnOk, OnErr, IsSome, Some, None};
ghost use Rattle.std.specs.Option.{option_copied};
ghost use Rattle.flow_machine.specs.WishEvents.{where_some};
ghost use Rattle.flow_item.specs.Events.{parties_of, both};
ghost use Rattle.flow_machine.specs.After.{link_of};
ghost use Rattle.flow_node.specs.Readied.{Readied, given_value, is_from, is_waiting};
ghost use Rattle.flow_nodes.specs.DueSets.{least_of};
ghost use Rattle.flow_nodes.specs.Stepping.{node_of, ChangesAt, IsPreparedAt, MayStepAt, same_node, after_event, CanApply, all_stepped, is_node};

use crate::due::DueSet;
use flow_item::{Event, NoMemory, Parties, Party, Val};
use flow_node::NodeState;
use std::marker::Model;

/// The nodes of a run, in the order of their numbers.
#[derive(Drop)]
pub struct Nodes {
    nodes: Vec<NodeState>,
    due: DueSet,
}

impl Model for Nodes {
    ghost use Rattle.std.specs.Prelude.{◌≡◌, List, map};
    ghost use Rattle.std.specs.Coded.{codes, coded_list};
    ghost use Rattle.flow_item.specs.contracts.val.Val as val;
    ghost use Rattle.flow_node.specs.Readied.{Readied, is_waiting};
    ghost use Rattle.flow_nodes.specs.Stepping.{node_of};

    ghost Value = { List Readied };

    ghost coded = { Prim.hlevel (codes, val.the_row.coded) };

    ghost view = { λ a. a.nodes.items };

    ghost invariant = { λ a. a.due ≡ map is_waiting (map node_of a.nodes.items) };
}

/// Notes whether a node is due or has a ready body.
fn mark(due: &mut DueSet, at: usize, node: &NodeState)
    requires { at < length due.old }
    ensures { due.new ≡ slice_set due.old at (is_waiting node.now.node) }
{
    due.set(at, node.is_waiting());
}

impl Nodes {
    /// The nodes, with the set of those that wait.
    pub fn from_parts(nodes: Vec<NodeState>, due: DueSet) -> Nodes
        requires { due ≡ map is_waiting (map node_of nodes.items) }
        ensures { result ≡ nodes.items }
    {
        Nodes { nodes, due }
    }

    /// The least node that is due or has a ready body.
    pub fn first_waiting(&self) -> Option<usize>
        ensures { result ≡ least_of 0 (map is_waiting (map node_of self.now)) }
    {
        let _ = &self.nodes;
        self.due.least()
    }

    /// The node of this number.
    pub fn node(&self, at: usize) -> &NodeState
        requires { at < length self.now }
        ensures { slice_get self.now at ≡ Some result.now }
    {
        &self.nodes[at]
    }

    /// The node of this number, where there is one.
    pub fn find(&self, at: Option<u32>) -> Option<&NodeState>
        ensures { option_copied result ≡ where_some at (slice_get self.now) }
    {
        match at {
            Some(at) => self.nodes.get(at as usize),
            None => None,
        }
    }

    /// Brings the items of each node in print order where `NodeState::at` finds them sooner. Takes the time of sorting the items of sequencers.
    pub fn arrange(&mut self) -> Result<(), NoMemory>
        ensures { map node_of self.new ≡ map node_of self.old }
    {
        for at in 0..self.nodes.len() {
            self.arrange_at(at)?;
        }
        Ok(())
    }

    fn arrange_at(&mut self, at: usize) -> Result<(), NoMemory>
        requires { at < length self.old }
        ensures { ChangesAt self.old self.new at same_node }
    {
        let node = &mut self.nodes[at];
        node.arrange()
    }

    /// Prepares the event at a node.
    fn prepare(&mut self, at: usize, e: &Event) -> Result<(), NoMemory>
        requires { at < length self.old }
        ensures same { ChangesAt self.old self.new at same_node }
        ensures ok { OnOk result (IsPreparedAt self.new at e.now) }
    {
        let node = &mut self.nodes[at];
        node.prepare(e)
    }

    /// A node after a prepared event of which it is the only node.
    fn step_one(&mut self, at: usize, e: &Event)
        requires within { at < length self.old }
        requires may { MayStepAt self.old at e.now }
        requires prepared { IsPreparedAt self.old at e.now }
        requires alone { link_of e.now ≡ None }
        ensures { ChangesAt self.old self.new at (after_event e.now) }
    {
        let node = &mut self.nodes[at];
        node.apply_one(e);
        mark(&mut self.due, at, node);
    }

    /// The from-node after a prepared event over its edge, and the value that it gives.
    fn step_from(&mut self, at: usize, e: &Event) -> Option<Val>
        requires within { at < length self.old }
        requires may { MayStepAt self.old at e.now }
        requires prepared { IsPreparedAt self.old at e.now }
        requires from { is_from at e.now ≡ true }
        ensures node { ChangesAt self.old self.new at (after_event e.now) }
        ensures given { result ≡ given_value e.now }
    {
        let node = &mut self.nodes[at];
        let given = node.apply_from(e);
        mark(&mut self.due, at, node);
        given
    }

    /// The to-node after a prepared event over an edge, of which it is handed what the from-node gave.
    fn step_to(&mut self, at: usize, e: &Event, given: Option<Val>)
        requires within { at < length self.old }
        requires may { MayStepAt self.old at e.now }
        requires prepared { IsPreparedAt self.old at e.now }
        requires over { IsSome (link_of e.now) }
        requires to { is_from at e.now ≡ false }
        requires given { given ≡ given_value e.now }
        ensures { ChangesAt self.old self.new at (after_event e.now) }
    {
        let node = &mut self.nodes[at];
        node.apply_to(e, given);
        mark(&mut self.due, at, node);
    }

    /// The nodes after an event between two of them.
    fn apply_two(&mut self, a: u32, b: u32, e: &Event) -> Result<(), NoMemory>
        requires parties { parties_of e.now ≡ both (Party.Node a) (Party.Node b) }
        requires can { CanApply self.old e.now }
        ensures ok { OnOk result (map node_of self.new ≡ all_stepped e.now (map node_of self.old)) }
        ensures err { OnErr result (map node_of self.new ≡ map node_of self.old) }
    {
        if let Err(refused) = self.prepare(a as usize, e) {
            return Err(refused);
        }
        if let Err(refused) = self.prepare(b as usize, e) {
            return Err(refused);
        }
        let given = self.step_from(a as usize, e);
        self.step_to(b as usize, e, given);
        Ok(())
    }

    /// The nodes after an event of one of them.
    fn apply_one(&mut self, a: u32, e: &Event) -> Result<(), NoMemory>
        requires first { (parties_of e.now).first ≡ Party.Node a }
        requires second { is_node (parties_of e.now).second ≡ false }
        requires can { CanApply self.old e.now }
        ensures ok { OnOk result (map node_of self.new ≡ all_stepped e.now (map node_of self.old)) }
        ensures err { OnErr result (map node_of self.new ≡ map node_of self.old) }
    {
        if let Err(refused) = self.prepare(a as usize, e) {
            return Err(refused);
        }
        self.step_one(a as usize, e);
        Ok(())
    }

    /// The nodes after an event. After a refusal they are as before. Constant time beside what `NodeState` takes for the event.
    pub fn apply(&mut self, e: &Event) -> Result<(), NoMemory>
        requires can { CanApply self.old e.now }
        ensures ok { OnOk result (map node_of self.new ≡ all_stepped e.now (map node_of self.old)) }
        ensures err { OnErr result (map node_of self.new ≡ map node_of self.old) }
    {
        let Parties { first, second } = e.parties();
        match (first, second) {
            (Party::Node(a), Some(Party::Node(b))) => self.apply_two(a, b, e),
            (Party::Node(a), _) => self.apply_one(a, e),
            (Party::Caller(_), _) => Ok(()),
            (Party::Worker(_), _) => Ok(()),
        }
    }
}

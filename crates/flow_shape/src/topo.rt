//! An order of the nodes in which each edge goes forwards.

ghost use Rattle.std.specs.Prelude.{◌≡◌, ℕ, ◌^◌, ◌≤◌, ◌<◌, ◌+◌, ◌++◌, ◌∷◌, [], true, false, length, take, get_or, slice_set, nat_eq, nat_lt, OnOk, IfOk, IfSome, IfNone};
ghost use Rattle.std.specs.List.{list_all};
ghost use Rattle.flow_item.specs.Lists.{places};
ghost use Rattle.flow_shape.specs.Rules.{IsValid, joins_nodes};
ghost use Rattle.flow_shape.specs.Orders.{Sorts};
ghost use Rattle.flow_shape.specs.Sorting.{AreTargets, AreWaits, Sorting, followed};

use crate::{Edge, Order, Shape};
use flow_item::NoMemory;
use std::alloc::Global;

/// Adds a to-node to the list of a node.
fn add_target(lists: &mut Vec<Order>, edge: &Edge) -> Result<(), NoMemory>
    requires { edge.now.from < length lists.old.items }
    ensures { OnOk result (lists.new.items
        ≡ slice_set lists.old.items edge.now.from (get_or lists.old.items edge.now.from [] ++ edge.now.to ∷ [])) }
{
    match lists[edge.from as usize].push(edge.to) {
        Ok(()) => Ok(()),
        Err(_) => Err(NoMemory),
    }
}

/// So many empty lists.
fn empty_lists(alloc: Global, count: usize) -> Result<Vec<Order>, NoMemory>
    ensures len { IfOk result (λ v. length v.items ≡ count) }
    ensures empty { IfOk result (λ v. (n : ℕ) → get_or v.items n [] ≡ []) }
{
    let mut lists = Vec::new(alloc);
    for _made in 0..count {
        lists.push(Order::new(alloc))?;
    }
    Ok(lists)
}

/// The nodes that wait for none.
fn free_nodes(alloc: Global, counts: &[u32]) -> Result<Vec<u32>, NoMemory>
    requires { length counts.now < 2 ^ 32 }
    ensures { IfOk result (λ v. v.items ≡ places (λ k. nat_eq k 0) 0 counts.now) }
{
    let mut order = Vec::with_capacity(alloc, counts.len())?;
    for node in 0..counts.len() {
        if counts[node] == 0 {
            order.push(node as u32)?;
        }
    }
    Ok(order)
}

/// A node that waits for another.
fn waiting_node(counts: &[u32]) -> Option<usize>
    ensures some { IfSome result (λ m. (m < length counts.now) × (nat_eq (get_or counts.now m 0) 0 ≡ false)) }
    ensures none { IfNone result ((m : ℕ) → m < length counts.now → get_or counts.now m 0 ≡ 0) }
{
    for node in 0..counts.len() {
        if counts[node] != 0 {
            return Some(node);
        }
    }
    None
}

/// Follows one edge to each of these nodes.
fn follow(targets: &[u32], counts: &mut [u32], order: &mut Vec<u32>) -> Result<(), NoMemory>
    requires { list_all (λ n. nat_lt n (length counts.old)) targets.now ≡ true }
    ensures { OnOk result ((counts.new, order.new.items) ≡ followed targets.now (counts.old, order.old.items)) }
{
    for target in targets {
        let left = counts[*target as usize].saturating_sub(1);
        counts[*target as usize] = left;
        if left == 0 {
            order.push(*target)?;
        }
    }
    Ok(())
}

impl Shape {
    /// The to-nodes of the edges out of each node.
    fn targets(&self, alloc: Global) -> Result<Vec<Order>, NoMemory>
        requires { list_all (joins_nodes self.now) self.now.edges ≡ true }
        ensures { IfOk result (λ v. AreTargets self.now v.items) }
    {
        let mut lists = empty_lists(alloc, self.nodes.len())?;
        for edge in self.edges.as_slice() {
            add_target(&mut lists, edge)?;
        }
        Ok(lists)
    }

    /// The number of edges into each node.
    fn waits(&self, alloc: Global) -> Result<Vec<u32>, NoMemory>
        requires joined { list_all (joins_nodes self.now) self.now.edges ≡ true }
        requires few { length self.now.edges ≤ 4096 }
        ensures { IfOk result (λ v. AreWaits self.now v.items) }
    {
        let mut counts = vec![in alloc; 0; self.nodes.len()]?;
        for edge in self.edges.as_slice() {
            counts[edge.to as usize] += 1;
        }
        Ok(counts)
    }

    /// Follows the edges out of the node at a place of the order, where one stands there.
    fn follow_at(
        &self,
        lists: &[Order],
        at: usize,
        counts: &mut [u32],
        order: &mut Vec<u32>,
    ) -> Result<(), NoMemory>
        requires joined { list_all (joins_nodes self.now) self.now.edges ≡ true }
        requires lists { AreTargets self.now lists.now }
        requires start { Sorting self.now (take at order.old.items) [] counts.old order.old.items }
        ensures { OnOk result (Sorting self.now (take (at + 1) order.new.items) [] counts.new order.new.items) }
    {
        if at >= order.len() {
            return Ok(());
        }
        let node = order[at] as usize;
        follow(lists[node].as_slice(), counts, order)
    }

    /// Follows the edges out of each node once it waits for none.
    fn follow_all(
        &self,
        lists: &[Order],
        counts: &mut [u32],
        order: &mut Vec<u32>,
    ) -> Result<(), NoMemory>
        requires joined { list_all (joins_nodes self.now) self.now.edges ≡ true }
        requires lists { AreTargets self.now lists.now }
        requires start { Sorting self.now [] [] counts.old order.old.items }
        ensures { OnOk result (Sorting self.now order.new.items [] counts.new order.new.items) }
    {
        for at in 0..self.nodes.len() {
            self.follow_at(lists, at, counts, order)?;
        }
        Ok(())
    }

    /// All nodes in an order in which each edge goes forwards; none exactly where the graph has a cycle.
    ///
    /// Takes time and memory linear in the nodes and edges.
    pub fn topo(&self, alloc: Global) -> Result<Option<Order>, NoMemory>
        requires { IsValid self.now }
        ensures { IfOk result (Sorts self.now) }
    {
        let lists = self.targets(alloc)?;
        let mut counts = self.waits(alloc)?;
        let mut order = free_nodes(alloc, counts.as_slice())?;
        self.follow_all(lists.as_slice(), counts.as_mut_slice(), &mut order)?;
        match waiting_node(counts.as_slice()) {
            Some(_) => Ok(None),
            None => Ok(Some(Order::from_vec(order))),
        }
    }
}

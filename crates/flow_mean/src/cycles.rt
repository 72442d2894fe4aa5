//! Nodes from which a way leads back to them.

ghost use Rattle.std.specs.Prelude.{◌≡◌, ◌<◌, true, [], length, get_or, nat_lt, IfOk, OnOk, IfSome};
ghost use Rattle.std.specs.List.{list_all};
ghost use Rattle.flow_shape.specs.Rules.{joins_nodes, IsValid};
ghost use Rattle.flow_shape.specs.Orders.{HasCycle};
ghost use Rattle.flow_shape.specs.Sorting.{AreTargets};
ghost use Rattle.flow_mean.specs.Determinate.{is_on_cycle};
ghost use Rattle.flow_mean.specs.Judging.{least_of};
ghost use Rattle.flow_mean.specs.Searching.{met};

use crate::ports::{add_node, empty_orders};
use flow_item::NoMemory;
use flow_shape::{Order, Shape};
use std::alloc::Global;

/// The to-nodes of the edges out of each node.
fn targets_of(alloc: Global, shape: &Shape) -> Result<Vec<Order>, NoMemory>
    requires { list_all (joins_nodes shape.now) shape.now.edges ≡ true }
    ensures { IfOk result (λ v. AreTargets shape.now v.items) }
{
    let mut lists = empty_orders(alloc, shape.nodes.len())?;
    for edge in shape.edges.as_slice() {
        add_node(&mut lists, edge.from as usize, edge.to)?;
    }
    Ok(lists)
}

/// Marks these nodes, and adds those to the order that weren't marked.
fn meet(nodes: &[u32], marks: &mut Vec<bool>, order: &mut Vec<u32>) -> Result<(), NoMemory>
    requires { list_all (λ n. nat_lt n (length marks.old.items)) nodes.now ≡ true }
    ensures { OnOk result ((marks.new.items, order.new.items) ≡ met nodes.now (marks.old.items, order.old.items)) }
{
    for node in nodes {
        if !marks[*node as usize] {
            marks[*node as usize] = true;
            order.push(*node)?;
        }
    }
    Ok(())
}

/// Whether a way leads from the node back to it.
///
/// In time linear in the nodes, and the edges out of those that are reached.
fn is_on_cycle(alloc: Global, shape: &Shape, lists: &[Order], node: usize) -> Result<bool, NoMemory>
    requires joined { list_all (joins_nodes shape.now) shape.now.edges ≡ true }
    requires lists { AreTargets shape.now lists.now }
    requires within { node < length shape.now.nodes }
    ensures { IfOk result (λ b. b ≡ is_on_cycle shape.now node) }
{
    let mut marks = vec![in alloc; false; shape.nodes.len()]?;
    let mut order = Vec::new(alloc);
    meet(lists[node].as_slice(), &mut marks, &mut order)?;
    let mut at = 0;
    while at < order.len() {
        let next = order[at] as usize;
        meet(lists[next].as_slice(), &mut marks, &mut order)?;
        at += 1;
    }
    Ok(marks[node])
}

/// The least node on a cycle, looked for from each node.
fn first_on_cycle(alloc: Global, shape: &Shape) -> Result<Option<usize>, NoMemory>
    requires { list_all (joins_nodes shape.now) shape.now.edges ≡ true }
    ensures first { IfOk result (λ o. o ≡ least_of shape.now (λ n k. is_on_cycle shape.now n)) }
    ensures within { IfOk result (λ o. IfSome o (λ n. n < length shape.now.nodes)) }
{
    let lists = targets_of(alloc, shape)?;
    for (node, _kind) in shape.nodes.as_slice().iter().enumerate() {
        if is_on_cycle(alloc, shape, lists.as_slice(), node)? {
            return Ok(Some(node));
        }
    }
    Ok(None)
}

/// No node, where there is no cycle.
fn none_on_cycle(shape: &Shape) -> Option<usize>
    requires { HasCycle shape.now → ⊥ }
    ensures first { result ≡ least_of shape.now (λ n k. is_on_cycle shape.now n) }
    ensures within { IfSome result (λ n. n < length shape.now.nodes) }
{
    None
}

/// The least node on a cycle.
///
/// Linear in the nodes and edges where there is none, else in their product with that node's number at most.
pub fn cyclic(alloc: Global, shape: &Shape) -> Result<Option<usize>, NoMemory>
    requires { IsValid shape.now }
    ensures first { IfOk result (λ o. o ≡ least_of shape.now (λ n k. is_on_cycle shape.now n)) }
    ensures within { IfOk result (λ o. IfSome o (λ n. n < length shape.now.nodes)) }
{
    match shape.topo(alloc)? {
        Some(_) => Ok(none_on_cycle(shape)),
        None => first_on_cycle(alloc, shape),
    }
}

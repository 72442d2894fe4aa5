//! Tables by node that the rules read.

ghost use Rattle.std.specs.Prelude.{◌≡◌, ◌<◌, ◌≤◌, ◌||◌, ◌&&◌, ℕ, true, false, nat_eq, length, get_or, IfOk};
ghost use Rattle.std.specs.List.{list_any, list_all};
ghost use Rattle.flow_item.specs.Lists.{has};
ghost use Rattle.flow_shape.specs.Rules.{joins_nodes};
ghost use Rattle.flow_shape.specs.Wiring.{at_node};
ghost use Rattle.flow_mean.specs.Determinate.{is_function, is_key_join, is_cancel, puts_to, is_put_to, comes_unasked};
ghost use Rattle.flow_mean.specs.Judging.{AreOuts, AreCounts, AreMarks, comes_unasked_to};

use crate::kinds::{is_cancel, is_function, is_key_join};
use flow_doc::{Doc, Script};
use flow_item::NoMemory;
use flow_shape::{Edge, Shape, Step};
use std::alloc::Global;

/// Marks a place, where the table has it.
fn mark(marks: &mut [bool], place: usize)
    ensures { (n : ℕ) → n < length marks.new → get_or marks.new n false ≡ (get_or marks.old n false || nat_eq place n) }
{
    if place < marks.len() {
        marks[place] = true;
    }
}

/// How many edges leave each node, counted edge by edge.
fn counts_of(alloc: Global, shape: &Shape) -> Result<Vec<u32>, NoMemory>
    requires joined { list_all (joins_nodes shape.now) shape.now.edges ≡ true }
    requires few { length shape.now.edges ≤ 4096 }
    ensures { IfOk result (λ v. AreCounts shape.now v.items) }
{
    let mut outs = vec![in alloc; 0; shape.nodes.len()]?;
    for edge in shape.edges.as_slice() {
        outs[edge.from as usize] += 1;
    }
    Ok(outs)
}

/// How many edges leave each node.
pub fn outs_of(alloc: Global, shape: &Shape) -> Result<Vec<u32>, NoMemory>
    requires joined { list_all (joins_nodes shape.now) shape.now.edges ≡ true }
    requires few { length shape.now.edges ≤ 4096 }
    ensures { IfOk result (λ v. AreOuts shape.now v.items) }
{
    let outs = counts_of(alloc, shape)?;
    Ok(outs)
}

/// Marks the node that a step puts to.
fn mark_step(marks: &mut [bool], step: &Step)
    ensures { (n : ℕ) → n < length marks.new → get_or marks.new n false ≡ (get_or marks.old n false || puts_to n step.now) }
{
    if let Step::Put { node, .. } = step {
        mark(marks, *node as usize);
    }
}

/// Marks the nodes that a script puts to.
fn mark_script(marks: &mut [bool], script: &Script)
    ensures { (n : ℕ) → n < length marks.new → get_or marks.new n false ≡ (get_or marks.old n false || list_any (puts_to n) script.now) }
{
    for step in script.as_slice() {
        mark_step(marks, step);
    }
}

/// Which nodes a caller puts to.
pub fn put_marks(alloc: Global, doc: &Doc) -> Result<Vec<bool>, NoMemory>
    ensures { IfOk result (λ v. AreMarks (length doc.now.shape.nodes) (is_put_to doc.now) v.items) }
{
    let mut marks = vec![in alloc; false; doc.shape.nodes.len()]?;
    for script in doc.scripts.as_slice() {
        mark_script(marks.as_mut_slice(), script);
    }
    Ok(marks)
}

/// Whether the edge brings items without being asked for them.
fn comes_unasked(doc: &Doc, outs: &[u32], edge: &Edge) -> bool
    requires outs { AreOuts doc.now.shape outs.now }
    ensures { result ≡ comes_unasked doc.now edge.now }
{
    match doc.shape.nodes.get(edge.from as usize) {
        Some(kind) => is_function(kind) || (is_key_join(kind) && outs[edge.from as usize] > 1),
        None => false,
    }
}

/// Marks the node that an edge brings items to unasked.
fn mark_edge(doc: &Doc, outs: &[u32], marks: &mut [bool], edge: &Edge)
    requires outs { AreOuts doc.now.shape outs.now }
    ensures { (n : ℕ) → n < length marks.new → get_or marks.new n false ≡ (get_or marks.old n false || (nat_eq edge.now.to n && comes_unasked doc.now edge.now)) }
{
    if comes_unasked(doc, outs, edge) {
        mark(marks, edge.to as usize);
    }
}

/// To which nodes an edge brings items unasked.
pub fn unasked_marks(alloc: Global, doc: &Doc, outs: &[u32]) -> Result<Vec<bool>, NoMemory>
    requires outs { AreOuts doc.now.shape outs.now }
    ensures { IfOk result (λ v. AreMarks (length doc.now.shape.nodes) (comes_unasked_to doc.now) v.items) }
{
    let mut marks = vec![in alloc; false; doc.shape.nodes.len()]?;
    for edge in doc.shape.edges.as_slice() {
        mark_edge(doc, outs, marks.as_mut_slice(), edge);
    }
    Ok(marks)
}

/// Which nodes are sinks.
pub fn sink_marks(alloc: Global, doc: &Doc) -> Result<Vec<bool>, NoMemory>
    ensures { IfOk result (λ v. AreMarks (length doc.now.shape.nodes) (has doc.now.sinks) v.items) }
{
    let mut marks = vec![in alloc; false; doc.shape.nodes.len()]?;
    for sink in doc.sinks.as_slice() {
        mark(marks.as_mut_slice(), *sink as usize);
    }
    Ok(marks)
}

/// Whether a caller cancels.
fn cancels(script: &Script) -> bool
    ensures { result ≡ list_any is_cancel script.now }
{
    script.as_slice().iter().any(|step| is_cancel(step))
}

/// Whether one of the callers cancels.
pub fn has_cancel(doc: &Doc) -> bool
    ensures { result ≡ list_any (list_any is_cancel) doc.now.scripts }
{
    for script in doc.scripts.as_slice() {
        if cancels(script) {
            return true;
        }
    }
    false
}

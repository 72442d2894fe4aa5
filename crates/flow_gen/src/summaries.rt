// The summary of the run of a generated document.
ghost use Rattle.std.specs.Prelude.{◌≡◌, ◌<◌, ◌≤◌, ◌^◌, Some, IfOk, length, slice_get, string_bytes};
ghost use Rattle.std.specs.Int.{w64, int_wrapping_add};
ghost use Rattle.std.specs.Option.{option_copied};
ghost use Rattle.flow_item.specs.Events.{births};
ghost use Rattle.flow_machine.specs.PrintOrder.{items_in_order};
ghost use Rattle.flow_print.specs.Replayed.{AreStates, pairs_in};
ghost use Rattle.flow_gen.specs.Generated.{whole_sum, pairs_sum, summary};
ghost use Rattle.flow_gen.specs.Sums.{values_sum, items_sum, first_pairs, summary_lines};

use flow_doc::Doc;
use flow_item::{Item, Journal, NoMemory, Val, Vals};
use flow_node::NodeState;
use flow_nodes::Nodes;
use flow_print::{Status, last_line};
use std::alloc::Global;

fn plus(a: i64, b: i64) -> i64
    ensures { result ≡ int_wrapping_add w64 a b }
{
    a.wrapping_add(b)
}

// The wrapping sum of the whole numbers in a value.
#[cycle(sums)]
#[tactic(auto, using(crate::proofs::Sums::sum_of_list))]
fn whole_sum(val: &Val) -> i64
    ensures { result ≡ whole_sum val.now }
{
    match val {
        Val::Int(number) => *number,
        Val::Text(_) => 0,
        Val::List(parts) => values_sum(parts),
    }
}

#[cycle(sums)]
fn values_sum(parts: &Vals) -> i64
    ensures { result ≡ values_sum parts.now }
{
    let mut sum: i64 = 0;
    for part in parts.as_slice() {
        sum = plus(sum, whole_sum(part));
    }
    sum
}

fn item_at(node: &NodeState, at: usize) -> &Item
    requires { at < length (items_in_order node.now.node.place.kind node.now.node.state.part) }
    ensures { slice_get (items_in_order node.now.node.place.kind node.now.node.state.part) at ≡ Some result.now }
{
    match node.at(at) {
        Some(item) => item,
        None => unreachable!(),
    }
}

// The wrapping sum of the whole numbers in a node's items.
fn node_sum(node: &NodeState) -> i64
    ensures { result ≡ items_sum (items_in_order node.now.node.place.kind node.now.node.state.part) }
{
    let mut sum: i64 = 0;
    for at in 0..node.item_count() {
        sum = plus(sum, whole_sum(&item_at(node, at).val));
    }
    sum
}

// The node of the document's first sink.
fn first_sink<'a>(doc: &Doc, nodes: &'a Nodes) -> Option<&'a NodeState>
    ensures { pairs_in (option_copied result) ≡ first_pairs doc.now.sinks nodes.now }
{
    match doc.sinks.get(0) {
        Some(number) => nodes.find(Some(*number)),
        None => None,
    }
}

// How many items the document's first sink has.
fn sink_count(doc: &Doc, nodes: &Nodes) -> usize
    ensures { result ≡ length (first_pairs doc.now.sinks nodes.now) }
{
    match first_sink(doc, nodes) {
        Some(node) => node.item_count(),
        None => 0,
    }
}

// The wrapping sum of the whole numbers in them.
fn sink_sum(doc: &Doc, nodes: &Nodes) -> i64
    ensures { result ≡ pairs_sum (first_pairs doc.now.sinks nodes.now) }
{
    match first_sink(doc, nodes) {
        Some(node) => node_sum(node),
        None => 0,
    }
}

fn summary_text(
    alloc: Global,
    count: u32,
    lines: usize,
    sum: i64,
    last: &str,
) -> Result<String, NoMemory>
    ensures { IfOk result (λ s. string_bytes s ≡ summary_lines count lines sum last.now) }
{
    Ok(format!(in alloc; "gen {count}\nlines {lines}\nsum {sum}\n{last}\n")?)
}

/// The summary of the run of a number's document: the number of items of its first sink, the wrapping sum of all whole
/// numbers in them, and the last line of the report. The nodes are those after the journal. Linear in the journal and
/// in the sink's items.
pub fn summary(
    alloc: Global,
    count: u32,
    doc: &Doc,
    journal: &Journal,
    nodes: &Nodes,
    status: Status,
) -> Result<String, NoMemory>
    requires few { births journal.now ≤ 2 ^ 63 }
    requires states { AreStates (Some doc.now) journal.now nodes.now }
    ensures { IfOk result (λ s. string_bytes s ≡ summary count doc.now journal.now status) }
{
    let lines = sink_count(doc, nodes);
    let sum = sink_sum(doc, nodes);
    let last = last_line(alloc, journal, status)?;
    let text = summary_text(alloc, count, lines, sum, last.as_str())?;
    Ok(text)
}

//! What comes to the ports of nodes.

ghost use Rattle.std.specs.Prelude.{◌≡◌, ◌<◌, ◌+◌, ◌*◌, ◌++◌, ◌∷◌, ℕ, [], true, length, get_or, slice_set, nat_lt, IfOk, OnOk};
ghost use Rattle.std.specs.List.{list_all, flat_map};
ghost use Rattle.flow_mean.specs.Maps.{map_of, has_repeat};
ghost use Rattle.flow_mean.specs.Meaning.{put_to};
ghost use Rattle.flow_mean.specs.Passing.{ArePuts, AreSources, HasSources, source_of};

use crate::tag_map::{Pairs, sorted};
use flow_doc::{Doc, Script};
use flow_item::{NoMemory, Val};
use flow_shape::{Edge, Order, Shape, Step};
use std::alloc::Global;

/// So many empty lists.
pub fn empty_pairs(alloc: Global, count: usize) -> Result<Vec<Pairs>, NoMemory>
    ensures len { IfOk result (λ v. length v.items ≡ count) }
    ensures empty { IfOk result (λ v. (n : ℕ) → get_or v.items n [] ≡ []) }
{
    let mut lists = Vec::with_capacity(alloc, count)?;
    for _made in 0..count {
        lists.push(Pairs::new(alloc))?;
    }
    Ok(lists)
}

/// Adds a pair to the list at a place.
fn add_pair(lists: &mut Vec<Pairs>, place: usize, tag: u64, val: Val) -> Result<(), NoMemory>
    requires { place < length lists.old.items }
    ensures { OnOk result (lists.new.items
        ≡ slice_set lists.old.items place (get_or lists.old.items place [] ++ (tag, val) ∷ [])) }
{
    match lists[place].push((tag, val)) {
        Ok(()) => Ok(()),
        Err(_) => Err(NoMemory),
    }
}

/// Adds what a step puts, at the place of its port.
fn add_step(alloc: Global, lists: &mut Vec<Pairs>, step: &Step) -> Result<(), NoMemory>
    ensures len { OnOk result (length lists.new.items ≡ length lists.old.items) }
    ensures put { OnOk result ((n port : ℕ) → n * 8 + port < length lists.old.items → port < 8
        → get_or lists.new.items (n * 8 + port) [] ≡ get_or lists.old.items (n * 8 + port) [] ++ put_to n port step.now) }
{
    match step {
        Step::Put {
            node,
            port,
            tag,
            val,
        } => {
            let place = *node as usize * 8 + *port as usize;
            if *port >= 8 || place >= lists.len() {
                return Ok(());
            }
            let val = val.copy(alloc)?;
            add_pair(lists, place, *tag, val)
        }
        _ => Ok(()),
    }
}

/// Adds what a script puts.
fn add_script(alloc: Global, lists: &mut Vec<Pairs>, script: &Script) -> Result<(), NoMemory>
    ensures len { OnOk result (length lists.new.items ≡ length lists.old.items) }
    ensures put { OnOk result ((n port : ℕ) → n * 8 + port < length lists.old.items → port < 8
        → get_or lists.new.items (n * 8 + port) [] ≡ get_or lists.old.items (n * 8 + port) [] ++ flat_map (put_to n port) script.now) }
{
    for step in script.as_slice() {
        add_step(alloc, lists, step)?;
    }
    Ok(())
}

/// What callers put to each port, each value copied once.
pub fn puts_of(alloc: Global, doc: &Doc) -> Result<Vec<Pairs>, NoMemory>
    requires { length doc.now.shape.nodes < 4096 }
    ensures { IfOk result (λ v. ArePuts doc.now v.items) }
{
    let mut lists = empty_pairs(alloc, doc.shape.nodes.len() * 8)?;
    for script in doc.scripts.as_slice() {
        add_script(alloc, &mut lists, script)?;
    }
    Ok(lists)
}

/// So many empty lists.
pub fn empty_orders(alloc: Global, count: usize) -> Result<Vec<Order>, NoMemory>
    ensures len { IfOk result (λ v. length v.items ≡ count) }
    ensures empty { IfOk result (λ v. (n : ℕ) → get_or v.items n [] ≡ []) }
{
    let mut lists = Vec::with_capacity(alloc, count)?;
    for _made in 0..count {
        lists.push(Order::new(alloc))?;
    }
    Ok(lists)
}

/// Adds a node to the list at a place.
pub fn add_node(lists: &mut Vec<Order>, place: usize, node: u32) -> Result<(), NoMemory>
    requires { place < length lists.old.items }
    ensures { OnOk result (lists.new.items
        ≡ slice_set lists.old.items place (get_or lists.old.items place [] ++ node ∷ [])) }
{
    match lists[place].push(node) {
        Ok(()) => Ok(()),
        Err(_) => Err(NoMemory),
    }
}

/// Adds the from-node of an edge, at the place of its port.
fn add_source(lists: &mut Vec<Order>, edge: &Edge) -> Result<(), NoMemory>
    ensures len { OnOk result (length lists.new.items ≡ length lists.old.items) }
    ensures added { OnOk result ((n port : ℕ) → n * 8 + port < length lists.old.items → port < 8
        → get_or lists.new.items (n * 8 + port) [] ≡ get_or lists.old.items (n * 8 + port) [] ++ source_of n port edge.now) }
{
    let place = edge.to as usize * 8 + edge.port as usize;
    if edge.port >= 8 || place >= lists.len() {
        return Ok(());
    }
    add_node(lists, place, edge.from)
}

/// The from-nodes of the edges into each port, edge by edge.
fn sources_along(alloc: Global, shape: &Shape) -> Result<Vec<Order>, NoMemory>
    requires { length shape.now.nodes < 4096 }
    ensures { IfOk result (λ v. HasSources shape.now v.items) }
{
    let mut lists = empty_orders(alloc, shape.nodes.len() * 8)?;
    for edge in shape.edges.as_slice() {
        add_source(&mut lists, edge)?;
    }
    Ok(lists)
}

/// The from-nodes of the edges into each port.
pub fn sources_of(alloc: Global, shape: &Shape) -> Result<Vec<Order>, NoMemory>
    requires { length shape.now.nodes < 4096 }
    ensures { IfOk result (λ v. AreSources shape.now v.items) }
{
    let sources = sources_along(alloc, shape)?;
    Ok(sources)
}

/// Adds copies of these pairs.
fn append(alloc: Global, all: &mut Vec<(u64, Val)>, pairs: &Pairs) -> Result<(), NoMemory>
    ensures { OnOk result (all.new.items ≡ all.old.items ++ pairs.now) }
{
    for pair in pairs.as_slice() {
        all.push((pair.0, pair.1.copy(alloc)?))?;
    }
    Ok(())
}

/// The pairs that were put, and then copies of those that these nodes pass.
pub fn gather(
    alloc: Global,
    put: Pairs,
    sources: &[u32],
    passed: &[Pairs],
) -> Result<Pairs, NoMemory>
    requires { list_all (λ s. nat_lt s (length passed.now)) sources.now ≡ true }
    ensures { IfOk result (λ v. v ≡ put ++ flat_map (λ s. get_or passed.now s []) sources.now) }
{
    let mut all = put.into_vec();
    for source in sources {
        append(alloc, &mut all, &passed[*source as usize])?;
    }
    Ok(Pairs::from_vec(all))
}

/// What comes to a port.
#[derive(Drop)]
pub struct Arrived {
    pub map: Pairs,
    /// A tag comes twice.
    pub repeats: bool,
}

/// The map of the pairs that come to a port, and whether a tag comes twice.
#[tactic(auto, using(crate::proofs::Sorted::repeat_shorter))]
pub fn arrive(pairs: Pairs) -> Result<Arrived, NoMemory>
    ensures map { IfOk result (λ a. a.map ≡ map_of pairs) }
    ensures repeats { IfOk result (λ a. a.repeats ≡ has_repeat pairs) }
{
    let count = pairs.len();
    let map = sorted(pairs)?;
    let repeats = map.len() < count;
    Ok(Arrived { map, repeats })
}

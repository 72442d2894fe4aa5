//! The meaning, node by node along an order in which each edge goes forwards.

ghost use Rattle.std.specs.Prelude.{if◌then◌else◌, ◌||◌, ◌≡◌, ◌≤◌, ◌<◌, ◌*◌, ◌+◌, ◌++◌, ◌∷◌, ℕ, List, [], true, false, length, get_or, slice_set, nat_lt, IfOk, OnOk};
ghost use Rattle.std.specs.List.{list_all};
ghost use Rattle.flow_item.specs.Lists.{has};
ghost use Rattle.flow_shape.specs.Rules.{IsValid};
ghost use Rattle.flow_shape.specs.Orders.{HasCycle, is_order};
ghost use Rattle.flow_doc.specs.Fits.{kind_fits};
ghost use Rattle.flow_body.specs.Shelves.{meanings_of_shelf};
ghost use Rattle.flow_mean.specs.Judging.{AreOuts};
ghost use Rattle.flow_mean.specs.Maps.{map_of, has_repeat};
ghost use Rattle.flow_mean.specs.Whole.{IsWhole};
ghost use Rattle.flow_mean.specs.Passing.{ArePuts, AreSources, brought, brought_to, maps_at, repeats_at, HasSizes, Passes, Knows, IsFound, Awaits, IsTidy};

use crate::passes::{Passing, pass_on};
use crate::ports::{Arrived, arrive, empty_pairs, gather, puts_of, sources_of};
use crate::tables::outs_of;
use crate::tag_map::Pairs;
use flow_body::Shelf;
use flow_doc::Doc;
use flow_item::NoMemory;
use flow_shape::{Order, Shape};
use std::alloc::Global;
use std::mem::replace;

/// What comes to the ports of a node.
#[derive(Drop)]
struct Ports {
    maps: Vec<Pairs>,
    /// At one of them a tag comes twice.
    repeats: bool,
}

/// What comes to the port at a place. What was put there is moved out.
fn port_of(
    alloc: Global,
    place: usize,
    puts: &mut [Pairs],
    sources: &[Order],
    passed: &[Pairs],
) -> Result<Arrived, NoMemory>
    requires puts { place < length puts.old }
    requires sources { place < length sources.now }
    requires within { list_all (λ s. nat_lt s (length passed.now)) (get_or sources.now place []) ≡ true }
    ensures map { IfOk result (λ a. a.map ≡ map_of (brought puts.old sources.now passed.now place)) }
    ensures repeats { IfOk result (λ a. a.repeats ≡ has_repeat (brought puts.old sources.now passed.now place)) }
    ensures others { (other : ℕ) → (other ≡ place → ⊥) → get_or puts.new other [] ≡ get_or puts.old other [] }
{
    let put = replace(&mut puts[place], Pairs::new(alloc));
    let all = gather(alloc, put, sources[place].as_slice(), passed)?;
    let arrived = arrive(all)?;
    Ok(arrived)
}

fn is_either(first: bool, later: bool) -> bool
    ensures { result ≡ (first || later) }
{
    first || later
}

/// What comes to so many ports of a node. What was put there is moved out.
fn ports_of(
    alloc: Global,
    node: usize,
    ports: u32,
    puts: &mut [Pairs],
    sources: &[Order],
    passed: &[Pairs],
) -> Result<Ports, NoMemory>
    requires ports { ports ≤ 8 }
    requires puts { node * 8 + 8 ≤ length puts.old }
    requires sources { node * 8 + 8 ≤ length sources.now }
    requires within { (port : ℕ) → port < 8 → list_all (λ s. nat_lt s (length passed.now)) (get_or sources.now (node * 8 + port) []) ≡ true }
    ensures maps { IfOk result (λ p. p.maps.items ≡ maps_at (brought_to puts.old sources.now passed.now node) ports) }
    ensures repeats { IfOk result (λ p. p.repeats ≡ repeats_at (brought_to puts.old sources.now passed.now node) ports) }
    ensures others { (m port : ℕ) → (m ≡ node → ⊥) → port < 8 → get_or puts.new (m * 8 + port) [] ≡ get_or puts.old (m * 8 + port) [] }
{
    let mut maps = Vec::with_capacity(alloc, ports as usize)?;
    let mut repeats = false;
    for port in 0..ports {
        let arrived = port_of(alloc, node * 8 + port as usize, puts, sources, passed)?;
        maps.push(arrived.map)?;
        repeats = is_either(repeats, arrived.repeats);
    }
    Ok(Ports { maps, repeats })
}

/// What is found of a node.
#[derive(Drop)]
struct NodeFound {
    passing: Passing,
    repeats: bool,
}

/// What a node passes and keeps, and whether a tag comes twice to a port. What was put to it is moved out.
fn find(
    alloc: Global,
    doc: &Doc,
    shelf: &Shelf,
    outs: &[u32],
    sources: &[Order],
    puts: &mut [Pairs],
    passed: &[Pairs],
    node: usize,
) -> Result<NodeFound, NoMemory>
    requires valid { IsValid doc.now.shape }
    requires kinds { list_all (kind_fits (length shelf.now.bodies.items)) doc.now.shape.nodes ≡ true }
    requires tidy { IsTidy (meanings_of_shelf (λ n. pure (n.body.vtable, n.body.value)) (λ n. single (n.body.vtable, n.body.value)) (λ n. out (n.body.vtable, n.body.value)) shelf.now.bodies.items) doc.now }
    requires outs { AreOuts doc.now.shape outs.now }
    requires sources { AreSources doc.now.shape sources.now }
    requires within { node < length doc.now.shape.nodes }
    requires puts { length puts.old ≡ length doc.now.shape.nodes * 8 }
    requires passed { length passed.now ≡ length doc.now.shape.nodes }
    ensures found { (done : List ℕ) → has done node ≡ false → Awaits doc.now.shape done node → Knows (meanings_of_shelf (λ n. pure (n.body.vtable, n.body.value)) (λ n. single (n.body.vtable, n.body.value)) (λ n. out (n.body.vtable, n.body.value)) shelf.now.bodies.items) doc.now done passed.now puts.old
        → IfOk result (λ f. IsFound (meanings_of_shelf (λ n. pure (n.body.vtable, n.body.value)) (λ n. single (n.body.vtable, n.body.value)) (λ n. out (n.body.vtable, n.body.value)) shelf.now.bodies.items) doc.now node f.passing.passed f.passing.kept f.repeats) }
    ensures others { (m port : ℕ) → (m ≡ node → ⊥) → port < 8 → get_or puts.new (m * 8 + port) [] ≡ get_or puts.old (m * 8 + port) [] }
{
    let kind = &doc.shape.nodes.as_slice()[node];
    let ports = ports_of(alloc, node, kind.inputs(), puts, sources, passed)?;
    let repeats = ports.repeats;
    let passing = pass_on(alloc, shelf, kind, outs[node] == 0, ports.maps)?;
    Ok(NodeFound { passing, repeats })
}

/// What each node passes and keeps, and at which of them a tag comes twice to a port.
#[derive(Drop)]
pub struct Flow {
    pub passed: Vec<Pairs>,
    pub kept: Vec<Pairs>,
    pub repeats: Vec<bool>,
    /// What callers put to the ports of the nodes that weren't looked at.
    puts: Vec<Pairs>,
}

impl Flow {
    /// Notes what is found of a node.
    fn note(&mut self, node: usize, found: NodeFound)
        requires passed { node < length self.old.passed.items }
        requires kept { node < length self.old.kept.items }
        requires repeats { node < length self.old.repeats.items }
        ensures passed { self.new.passed.items ≡ slice_set self.old.passed.items node found.passing.passed }
        ensures kept { self.new.kept.items ≡ slice_set self.old.kept.items node found.passing.kept }
        ensures repeats { self.new.repeats.items ≡ slice_set self.old.repeats.items node found.repeats }
        ensures puts { self.new.puts.items ≡ self.old.puts.items }
    {
        self.passed[node] = found.passing.passed;
        self.kept[node] = found.passing.kept;
        self.repeats[node] = found.repeats;
    }

    /// Finds what a node passes, once that is known of each node from which an edge leads there.
    fn visit(
        &mut self,
        alloc: Global,
        doc: &Doc,
        shelf: &Shelf,
        outs: &[u32],
        sources: &[Order],
        node: usize,
    ) -> Result<(), NoMemory>
        requires valid { IsValid doc.now.shape }
        requires kinds { list_all (kind_fits (length shelf.now.bodies.items)) doc.now.shape.nodes ≡ true }
        requires tidy { IsTidy (meanings_of_shelf (λ n. pure (n.body.vtable, n.body.value)) (λ n. single (n.body.vtable, n.body.value)) (λ n. out (n.body.vtable, n.body.value)) shelf.now.bodies.items) doc.now }
        requires outs { AreOuts doc.now.shape outs.now }
        requires sources { AreSources doc.now.shape sources.now }
        requires within { node < length doc.now.shape.nodes }
        requires sizes { HasSizes doc.now self.old.passed.items self.old.kept.items self.old.puts.items self.old.repeats.items }
        ensures visited { (done : List ℕ) → has done node ≡ false → Awaits doc.now.shape done node
            → Passes (meanings_of_shelf (λ n. pure (n.body.vtable, n.body.value)) (λ n. single (n.body.vtable, n.body.value)) (λ n. out (n.body.vtable, n.body.value)) shelf.now.bodies.items) doc.now done self.old.passed.items self.old.kept.items self.old.puts.items self.old.repeats.items
            → OnOk result (Passes (meanings_of_shelf (λ n. pure (n.body.vtable, n.body.value)) (λ n. single (n.body.vtable, n.body.value)) (λ n. out (n.body.vtable, n.body.value)) shelf.now.bodies.items) doc.now (done ++ node ∷ []) self.new.passed.items self.new.kept.items self.new.puts.items self.new.repeats.items) }
        ensures sizes { OnOk result (HasSizes doc.now self.new.passed.items self.new.kept.items self.new.puts.items self.new.repeats.items) }
    {
        let found = find(
            alloc,
            doc,
            shelf,
            outs,
            sources,
            self.puts.as_mut_slice(),
            self.passed.as_slice(),
            node,
        )?;
        self.note(node, found);
        Ok(())
    }

    /// What a node keeps, or what it passes, moved out.
    pub fn take_pairs(&mut self, alloc: Global, node: usize, kept: bool) -> Pairs
        requires passed { node < length self.old.passed.items }
        requires kept { node < length self.old.kept.items }
        ensures { result ≡ (if kept then get_or self.old.kept.items node [] else get_or self.old.passed.items node []) }
    {
        if kept {
            return replace(&mut self.kept[node], Pairs::new(alloc));
        }
        replace(&mut self.passed[node], Pairs::new(alloc))
    }
}

/// An order of the nodes in which each edge goes forwards.
fn order_of(alloc: Global, shape: &Shape) -> Result<Order, NoMemory>
    requires valid { IsValid shape.now }
    requires acyclic { HasCycle shape.now → ⊥ }
    ensures { IfOk result (λ order. is_order shape.now order ≡ true) }
{
    match shape.topo(alloc)? {
        Some(order) => Ok(order),
        None => unreachable!(),
    }
}

/// The flow before a node was looked at.
fn begun(alloc: Global, doc: &Doc) -> Result<Flow, NoMemory>
    requires { length doc.now.shape.nodes < 4096 }
    ensures sizes { IfOk result (λ f. HasSizes doc.now f.passed.items f.kept.items f.puts.items f.repeats.items) }
    ensures puts { IfOk result (λ f. ArePuts doc.now f.puts.items) }
{
    let count = doc.shape.nodes.len();
    let passed = empty_pairs(alloc, count)?;
    let kept = empty_pairs(alloc, count)?;
    let repeats = vec![in alloc; false; count]?;
    let puts = puts_of(alloc, doc)?;
    Ok(Flow {
        passed,
        kept,
        repeats,
        puts,
    })
}

/// Looks at each node, along an order in which each edge goes forwards.
fn walk(
    alloc: Global,
    doc: &Doc,
    shelf: &Shelf,
    outs: &[u32],
    sources: &[Order],
    order: &[u32],
    flow: &mut Flow,
) -> Result<(), NoMemory>
    requires valid { IsValid doc.now.shape }
    requires kinds { list_all (kind_fits (length shelf.now.bodies.items)) doc.now.shape.nodes ≡ true }
    requires tidy { IsTidy (meanings_of_shelf (λ n. pure (n.body.vtable, n.body.value)) (λ n. single (n.body.vtable, n.body.value)) (λ n. out (n.body.vtable, n.body.value)) shelf.now.bodies.items) doc.now }
    requires outs { AreOuts doc.now.shape outs.now }
    requires sources { AreSources doc.now.shape sources.now }
    requires order { is_order doc.now.shape order.now ≡ true }
    requires sizes { HasSizes doc.now flow.old.passed.items flow.old.kept.items flow.old.puts.items flow.old.repeats.items }
    requires puts { ArePuts doc.now flow.old.puts.items }
    ensures { OnOk result (IsWhole (meanings_of_shelf (λ n. pure (n.body.vtable, n.body.value)) (λ n. single (n.body.vtable, n.body.value)) (λ n. out (n.body.vtable, n.body.value)) shelf.now.bodies.items) doc.now flow.new) }
{
    for node in order {
        flow.visit(alloc, doc, shelf, outs, sources, *node as usize)?;
    }
    Ok(())
}

/// What all nodes pass and keep.
///
/// In n log n time in the nodes, edges, puts and messages. A value that a caller puts is copied once for its port, and
/// a value that is passed once for each edge.
pub fn flow_of(alloc: Global, doc: &Doc, shelf: &Shelf) -> Result<Flow, NoMemory>
    requires valid { IsValid doc.now.shape }
    requires kinds { list_all (kind_fits (length shelf.now.bodies.items)) doc.now.shape.nodes ≡ true }
    requires tidy { IsTidy (meanings_of_shelf (λ n. pure (n.body.vtable, n.body.value)) (λ n. single (n.body.vtable, n.body.value)) (λ n. out (n.body.vtable, n.body.value)) shelf.now.bodies.items) doc.now }
    ensures { IfOk result (IsWhole (meanings_of_shelf (λ n. pure (n.body.vtable, n.body.value)) (λ n. single (n.body.vtable, n.body.value)) (λ n. out (n.body.vtable, n.body.value)) shelf.now.bodies.items) doc.now) }
{
    let order = order_of(alloc, &doc.shape)?;
    let outs = outs_of(alloc, &doc.shape)?;
    let sources = sources_of(alloc, &doc.shape)?;
    let mut flow = begun(alloc, doc)?;
    walk(
        alloc,
        doc,
        shelf,
        outs.as_slice(),
        sources.as_slice(),
        order.as_slice(),
        &mut flow,
    )?;
    Ok(flow)
}

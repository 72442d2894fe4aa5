//! What a node of any kind has.

ghost use Rattle.std.specs.Prelude.{◌≡◌, ◌<◌, ◌≤◌, [], ◌∷◌, ◌++◌, true, false, Some, None, nat_eq, slice_get, map, length, OnOk, OnErr, IfOk};
ghost use Rattle.std.specs.Option.{option_copied};
ghost use Rattle.flow_item.specs.Lists.{without, with_number};
ghost use Rattle.flow_shape.specs.Wiring.{is_some_and};
ghost use Rattle.flow_shape.specs.Places.{wire_in, edge_number};
ghost use Rattle.flow_node.specs.Numbers.{IsPlaceFor};
ghost use Rattle.flow_node.specs.Kept.{has_edge_room};

use flow_item::NoMemory;
use flow_shape::Wire;
use std::alloc::Global;

/// What a node of any kind has: its place in the graph, and its own numbers.
#[derive(Drop)]
pub(crate) struct Base {
    pub(crate) node: u32,
    pub(crate) outs: Vec<Wire>,
    pub(crate) ins: Vec<Wire>,
    /// The next number of an item.
    pub(crate) made: u64,
    /// The out edges in push, rising.
    pub(crate) push: Vec<u32>,
    pub(crate) due: bool,
}

/// The numbers of edges.
pub(crate) fn numbers(alloc: Global, wires: &[Wire]) -> Result<Vec<u32>, NoMemory>
    ensures { IfOk result (λ v. v.items ≡ map edge_number wires.now) }
{
    match wires
        .iter()
        .map(|wire| wire.edge)
        .collect::<Vec<u32>>(alloc)
    {
        Ok(numbers) => Ok(numbers),
        Err(_) => Err(NoMemory),
    }
}

/// The first place of a rising list with no number below this one.
fn place_for(numbers: &[u32], number: u32) -> usize
    ensures { IsPlaceFor numbers.now number result }
{
    for at in 0..numbers.len() {
        if number <= numbers[at] {
            return at;
        }
    }
    numbers.len()
}

/// Whether the number stands at this place.
fn is_at(numbers: &[u32], at: usize, number: u32) -> bool
    ensures { result ≡ is_some_and (λ other. nat_eq other number) (slice_get numbers.now at) }
{
    match numbers.get(at) {
        Some(other) => *other == number,
        None => false,
    }
}

/// The first edge of this number.
fn wire_of(wires: &[Wire], edge: u32) -> Option<Wire>
    ensures { result ≡ wire_in wires.now edge }
{
    for k in 0..wires.len() {
        let wire = wires[k];
        if wire.edge == edge {
            return Some(wire);
        }
    }
    None
}

impl Base {
    /// The out edge of this number.
    pub(crate) fn wire_out(&self, edge: u32) -> Option<Wire>
        ensures { result ≡ wire_in self.now.outs.items edge }
    {
        wire_of(&self.outs, edge)
    }

    /// The in edge of this number.
    pub(crate) fn wire_in(&self, edge: u32) -> Option<Wire>
        ensures { result ≡ wire_in self.now.ins.items edge }
    {
        wire_of(&self.ins, edge)
    }

    /// Makes room for one more edge in push.
    pub(crate) fn reserve_edge(&mut self) -> Result<(), NoMemory>
        ensures items { self.new.push.items ≡ self.old.push.items }
        ensures same { self.new ≡ record self.old { push = self.new.push } }
        ensures ok { OnOk result (has_edge_room self.new ≡ true) }
    {
        match self.push.reserve(1) {
            Ok(()) => Ok(()),
            Err(_) => Err(NoMemory),
        }
    }

    /// Turns an out edge to pull. Linear in the edges in push.
    pub(crate) fn turn_to_pull(&mut self, edge: u32)
        ensures items { self.new.push.items ≡ without edge self.old.push.items }
        ensures same { self.new ≡ record self.old { push = self.new.push } }
    {
        self.push.retain(|other| *other != edge);
    }

    /// Turns an out edge to push. Linear in the edges in push.
    pub(crate) fn turn_to_push(&mut self, edge: u32)
        requires { has_edge_room self.old ≡ true }
        ensures items { self.new.push.items ≡ with_number edge self.old.push.items }
        ensures same { self.new ≡ record self.old { push = self.new.push } }
    {
        let at = place_for(&self.push, edge);
        if is_at(&self.push, at, edge) {
            return;
        }
        if let Err(_) = self.push.insert(at, edge) {
            unreachable!()
        }
    }
}

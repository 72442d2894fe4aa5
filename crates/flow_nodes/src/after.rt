// The nodes of a graph after a journal.
ghost use Rattle.std.specs.Prelude.{◌≡◌, ◌<◌, true, length, map, slice_get, IfOk, Some};
ghost use Rattle.std.specs.List.{list_all};
ghost use Rattle.flow_shape.specs.Rules.{IsValid};
ghost use Rattle.flow_machine.specs.Machine.{is_legal};
ghost use Rattle.flow_node.specs.Built.{is_built};
ghost use Rattle.flow_nodes.specs.Rows.{nodes_of};
ghost use Rattle.flow_nodes.specs.Stepping.{node_of};

use crate::build::start;
use crate::nodes::Nodes;
use flow_item::{Event, Journal, NoMemory};
use flow_shape::Shape;
use std::alloc::Global;

fn event_at(journal: &Journal, at: usize) -> &Event
    requires { at < length journal.now }
    ensures { slice_get journal.now at ≡ Some result.now }
{
    match journal.get(at) {
        Some(event) => event,
        None => unreachable!(),
    }
}

/// The nodes after a legal journal. Takes the time of its events, and copies each value that comes to a node.
pub fn replay(alloc: Global, shape: &Shape, journal: &Journal) -> Result<Nodes, NoMemory>
    requires valid { IsValid shape.now }
    requires built { list_all is_built shape.now.nodes ≡ true }
    requires legal { is_legal shape.now journal.now ≡ true }
    ensures { IfOk result (λ nodes. map node_of nodes ≡ nodes_of shape.now journal.now) }
{
    let mut nodes = start(alloc, shape)?;
    for at in 0..journal.len() {
        let e = event_at(journal, at);
        nodes.apply(e)?;
    }
    Ok(nodes)
}

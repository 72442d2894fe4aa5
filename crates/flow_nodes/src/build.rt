ghost use Rattle.std.specs.Prelude.{◌≡◌, ◌+◌, ◌<◌, ◌≤◌, ◌^◌, nat_eq, if◌then◌else◌, true, false, length, map, [], ◌∷◌, ◌++◌, OnOk, IfOk, slice_get, Some, None};
ghost use Rattle.std.specs.List.{list_all};
ghost use Rattle.flow_shape.specs.Kinds.{is_keeping, is_limiter, is_discarding};
ghost use Rattle.flow_shape.specs.Rules.{IsValid};
ghost use Rattle.flow_shape.specs.Wiring.{at_node};
ghost use Rattle.flow_shape.specs.Places.{wire_at, wires};
ghost use Rattle.flow_node.specs.Built.{is_built};
ghost use Rattle.flow_nodes.specs.Stepping.{node_of};
ghost use Rattle.flow_nodes.specs.Rows.{node_at, nodes_of};

use crate::due::DueSet;
use crate::nodes::Nodes;
use flow_item::NoMemory;
use flow_node::NodeState;
use flow_shape::Shape;
use std::alloc::Global;

/// All nodes at their start.
fn nodes_at_start(alloc: Global, shape: &Shape) -> Result<Vec<NodeState>, NoMemory>
    requires valid { IsValid shape.now }
    requires few { length shape.now.nodes < 2 ^ 32 }
    requires edges { length shape.now.edges < 2 ^ 32 }
    requires built { list_all is_built shape.now.nodes ≡ true }
    ensures { IfOk result (λ v. map node_of v.items ≡ nodes_of shape.now []) }
{
    let mut nodes = Vec::new(alloc);
    for n in 0..shape.nodes.len() {
        nodes.push(NodeState::new(alloc, n as u32, shape)?)?;
    }
    Ok(nodes)
}

/// The nodes of a run at their start.
pub fn start(alloc: Global, shape: &Shape) -> Result<Nodes, NoMemory>
    requires valid { IsValid shape.now }
    requires built { list_all is_built shape.now.nodes ≡ true }
    ensures { IfOk result (λ nodes. map node_of nodes ≡ nodes_of shape.now []) }
{
    let nodes = nodes_at_start(alloc, shape)?;
    let due = DueSet::new(alloc, nodes.len())?;
    Ok(Nodes::from_parts(nodes, due))
}

// What nodes have to print.
ghost use Rattle.std.specs.Prelude.{◌≡◌, ◌≤◌, ℕ, List, Some, length, slice_get, MatchOption};
ghost use Rattle.std.specs.Option.{option_copied};
ghost use Rattle.flow_item.specs.Pairs.{Pair};
ghost use Rattle.flow_print.specs.Replayed.{pairs_of};

use flow_item::Val;
use flow_node::NodeState;
use flow_nodes::Nodes;

/// What each node has to print, by its number: pairs of a tag and a value, in print order.
pub trait Holdings {
    ghost pairs: { Self → ℕ → List Pair };

    /// How many pairs the node has.
    fn count(&self, node: u32) -> usize
        ensures { result ≡ length (pairs self.now node) };

    /// The pair at a place, none exactly past the last.
    fn pair(&self, node: u32, at: usize) -> Option<(u64, &Val)>
        ensures { MatchOption
            result
            (length (pairs self.now node) ≤ at)
            (λ p. slice_get (pairs self.now node) at ≡ Some (p.0, p.1.now)) };
}

// The node of this number, where there is one.
fn node_at(nodes: &Nodes, number: u32) -> Option<&NodeState>
    ensures { option_copied result ≡ slice_get nodes.now number }
{
    nodes.find(Some(number))
}

impl Holdings for Nodes {
    ghost pairs = { λ s. pairs_of s };

    fn count(&self, node: u32) -> usize {
        match node_at(self, node) {
            Some(state) => state.item_count(),
            None => 0,
        }
    }

    fn pair(&self, node: u32, at: usize) -> Option<(u64, &Val)> {
        match node_at(self, node) {
            Some(state) => match state.at(at) {
                Some(item) => Some((item.tag, &item.val)),
                None => None,
            },
            None => None,
        }
    }
}

//! What bars items from a node.

use flow_item::Cause;

/// Why an item can't come to a port.
#[derive(Clone, Copy, Debug)]
pub enum Bar {
    /// The node has no room for it.
    Cause(Cause),
    /// Items come to the port by holds alone, or it has no room for one more.
    Held,
}

//! What the outside is asked.
use flow_item::{Item, Val};

/// A ticket that is to be answered: its node, its number, the node's argument and the ticket's item.
#[derive(Debug, Drop)]
pub struct Ask {
    pub node: u32,
    pub ticket: u64,
    pub arg: Val,
    pub item: Item,
}

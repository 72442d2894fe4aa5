//! What an event changes at its nodes.

ghost use Rattle.std.specs.Prelude.{◌≡◌};
ghost use Rattle.flow_node.specs.Changes.{change_of};

use flow_item::{Ended, Event, Land, PutAnswer};

/// What an event changes at its nodes, without the values that it carries: a node that is prepared for the event needs no more.
#[derive(Clone, Copy, Debug)]
pub enum Change {
    /// A value comes to a port, by a put that is accepted.
    Put {
        port: u32,
        tag: u64,
        land: Land,
    },
    /// A put is refused.
    Refused,
    Cancel,
    /// The item of this number goes over an edge, and comes to the edge's port.
    Give {
        edge: u32,
        port: u32,
        item: u64,
        tag: u64,
        land: Land,
    },
    Refuse {
        edge: u32,
    },
    None {
        edge: u32,
    },
    /// The first ready body starts.
    Start,
    /// The body of this item ends.
    End {
        item: u64,
    },
    /// A tuple is formed with this number.
    Form {
        no: u64,
    },
    /// The cast on offer ends.
    Shut {
        ended: Ended,
    },
    Idle,
    /// An event in which no kind that there is code for takes part.
    Other,
}

impl Change {
    /// What the event changes. Constant time.
    pub fn of(e: &Event) -> Change
        ensures { result ≡ change_of e.now }
    {
        match e {
            Event::Put {
                port,
                tag,
                answer,
                ..
            } => match answer {
                PutAnswer::Accepted { land, .. } => Change::Put {
                    port: *port,
                    tag: *tag,
                    land: *land,
                },
                PutAnswer::Refused(_) => Change::Refused,
            },
            Event::Cancel { .. } => Change::Cancel,
            Event::Give {
                link,
                item,
                land,
                ..
            } => Change::Give {
                edge: link.edge,
                port: link.port,
                item: item.id.no,
                tag: item.tag,
                land: *land,
            },
            Event::Refuse { link, .. } => Change::Refuse { edge: link.edge },
            Event::None { link } => Change::None { edge: link.edge },
            Event::Start { .. } => Change::Start,
            Event::End { item, .. } => Change::End { item: *item },
            Event::Form { no, .. } => Change::Form { no: *no },
            Event::Shut { ended, .. } => Change::Shut { ended: *ended },
            Event::Idle { .. } => Change::Idle,
            Event::Act { .. }
            | Event::Leave { .. }
            | Event::Hold { .. }
            | Event::Take { .. }
            | Event::Free { .. }
            | Event::Back { .. }
            | Event::Split { .. } => Change::Other,
        }
    }
}

//! What a worker runs for a node.
ghost use Rattle.std.specs.Prelude.{◌≡◌, ◌≢◌, ◌<◌, ◌^◌, [], true, false, is_none, if◌then◌else◌, Some, None, IfOk};
ghost use Rattle.flow_shape.specs.Kinds.{is_body};
ghost use Rattle.flow_node.specs.NodeViews.{first_ready};
ghost use Rattle.flow_book.specs.declared.job.JobBody.TheVariants as J;
ghost use Rattle.flow_book.specs.Jobs.{body_of, turn_item, has_turns, outs_in};

use flow_item::{Event, Id, Item, NoMemory, Outs, Stop, Val};
use flow_node::NodeState;
use flow_shape::Kind;
use std::alloc::Global;

/// A body that a worker has started: its node, the item that it runs on, and what is to be run.
#[derive(Debug, Drop)]
pub struct Job {
    /// The number of the node.
    pub node: u32,
    /// A copy of the item.
    pub item: Item,
    /// The body, or what is to be submitted.
    pub body: JobBody,
}

/// What is to be run for a job, with the node's argument.
#[derive(Debug, Drop)]
pub enum JobBody {
    /// The body of this number on the shelf.
    Run { body: u32, arg: Val },
    /// The item is to be submitted to the outside.
    Submit { arg: Val },
}

/// A job that couldn't be ended, and its messages.
#[derive(Debug, Drop)]
pub struct Unfinished {
    /// The job that still runs.
    pub job: Job,
    /// All messages with which it was to end, or none where the chair keeps them.
    pub outs: Outs,
    /// Why it couldn't be ended.
    pub stop: Stop,
}

/// What became of an answer from outside.
#[derive(Clone, Copy, Debug)]
pub enum Took {
    /// Its messages were sent.
    Took,
    /// There is no such ticket.
    Stranger,
}

// What runs at a node of this kind.
pub(crate) fn body_of(alloc: Global, kind: &Kind) -> Result<JobBody, NoMemory>
    requires { is_body kind.now ≡ true }
    ensures { IfOk result (λ b. body_of kind.now ≡ Some b) }
{
    match kind {
        Kind::Function { body, arg, .. } => run_body(alloc, *body, arg),
        Kind::Multi { body, arg, .. } => run_body(alloc, *body, arg),
        Kind::Input { body, arg } => run_body(alloc, *body, arg),
        Kind::Continue { body, arg } => run_body(alloc, *body, arg),
        Kind::Async { arg, .. } => Ok(JobBody::Submit {
            arg: arg.copy(alloc)?,
        }),
        _ => unreachable!(),
    }
}

fn run_body(alloc: Global, body: u32, arg: &Val) -> Result<JobBody, NoMemory>
    ensures { IfOk result (λ b. b ≡ J.Run body arg.now) }
{
    Ok(JobBody::Run {
        body,
        arg: arg.copy(alloc)?,
    })
}

// The item of a turn.
fn turn_item(node: u32, turn: u64) -> Item
    requires { turn < 2 ^ 63 }
    ensures { result ≡ turn_item node turn }
{
    Item {
        id: Id { node, no: turn },
        tag: turn,
        val: Val::Int(turn as i64),
    }
}

// The item on which the next body of the kind runs: that of a turn of this number, or the first that is ready. Constant
// time beside the copy.
pub(crate) fn job_item(
    alloc: Global,
    kind: &Kind,
    node: &NodeState,
    number: u32,
    item: u64,
) -> Result<Item, NoMemory>
    requires turn { has_turns kind.now ≡ true → item < 2 ^ 63 }
    requires there { has_turns kind.now ≡ false → first_ready node.now.node.state.part ≢ None }
    ensures { IfOk result (λ i. (if has_turns kind.now then Some (turn_item number item) else first_ready node.now.node.state.part) ≡ Some i) }
{
    match kind {
        Kind::Input { .. } | Kind::Continue { .. } => Ok(turn_item(number, item)),
        _ => match node.first_ready() {
            Some(found) => found.copy(alloc),
            None => unreachable!(),
        },
    }
}

// The messages of an event that comes back.
pub(crate) fn outs_in(alloc: Global, event: Option<Event>) -> Outs
    ensures { result ≡ outs_in event }
{
    match event {
        Some(Event::End { outs, .. }) => outs,
        Some(Event::Back { outs, .. }) => outs,
        event => {
            drop(event);
            Outs::new(alloc)
        }
    }
}

// These messages, where the event comes back that has a part of them.
pub(crate) fn outs_unless_kept(alloc: Global, event: Option<Event>, outs: Outs) -> Outs
    ensures { result ≡ if is_none event then [] else outs }
{
    match event {
        Some(event) => {
            drop(event);
            outs
        }
        None => {
            drop(outs);
            Outs::new(alloc)
        }
    }
}

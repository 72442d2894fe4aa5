//! The end of a run.
ghost use Rattle.std.specs.Prelude.{◌≡◌, ◌<◌, ◌++◌, [], ◌∷◌, true, length, map, vec_len, All, Some, None, OnOk, OnErr, IfOk, IfSome};
ghost use Rattle.flow_item.specs.Events.{parties_of};
ghost use Rattle.flow_machine.specs.Machine.{is_run, open_after};
ghost use Rattle.flow_machine.specs.Settled.{IsSettled};
ghost use Rattle.flow_laws.specs.Moments.{IsWithinLimits, AtEachStart, EdgesAgree, HoldsAgree, NodesWithinLimits, LedgerAddsUp};
ghost use Rattle.flow_fates.specs.Facts.{ItemsHaveOneFate, ItemsHaveLineages, HoldsReserve, NothingIsHeld, ParentsWereBorn};
ghost use Rattle.flow_line.specs.Values.{IsPart};
ghost use Rattle.flow_line.specs.Kept.{first_kept, without_first_kept};
ghost use Rattle.flow_node.specs.Readied.{is_waiting};
ghost use Rattle.flow_nodes.specs.Rows.{nodes_of};
ghost use Rattle.flow_nodes.specs.Stepping.{node_of};
ghost use Rattle.flow_book.specs.Answers.{about_of};
ghost use Rattle.flow_book.specs.Handed.{AreTaken, IsOneMore};

use crate::book::Book;
use crate::machine::GraphMachine;
use crate::post::Post;
use crate::seats::Seats;
use flow_item::{Event, Journal, NoMemory};
use flow_line::{Chair, Chairs, Naming};
use flow_node::NodeState;
use flow_nodes::{DueSet, Nodes};
use std::alloc::Global;
use std::sync::Mutex;

// Takes out the event of the first chair that keeps one, callers before workers.
fn take_first_kept<B: Naming>(
    callers: &mut Chairs<GraphMachine, B>,
    workers: &mut Chairs<GraphMachine, B>,
) -> Option<Event>
    ensures value { result ≡ first_kept (callers.old.items ++ workers.old.items) }
    ensures rest { callers.new.items ++ workers.new.items ≡ without_first_kept (callers.old.items ++ workers.old.items) }
{
    match callers.take_first_kept() {
        Some(event) => Some(event),
        None => workers.take_first_kept(),
    }
}

// Which nodes wait.
fn waiting(alloc: Global, nodes: &[NodeState]) -> Result<DueSet, NoMemory>
    ensures { IfOk result (λ due. due ≡ map is_waiting (map node_of nodes.now)) }
{
    let mut due = DueSet::new(alloc, nodes.len())?;
    for at in 0..nodes.len() {
        due.set(at, nodes[at].is_waiting());
    }
    Ok(due)
}

// The chair goes behind these, where there is memory for it.
fn put_chair<B: Naming>(
    workers: &mut Chairs<GraphMachine, B>,
    chair: Chair<GraphMachine, B>,
) -> Result<(), NoMemory>
    ensures ok { OnOk result (workers.new.items ≡ workers.old.items ++ chair ∷ []) }
    ensures err { OnErr result (workers.new.items ≡ workers.old.items) }
{
    match workers.push(chair) {
        Ok(()) => Ok(()),
        Err(chair) => {
            drop(chair);
            Err(NoMemory)
        }
    }
}

// A node from behind its lock, where there is memory for it and its number is the next. Its chair goes behind these.
fn take_node<B: Naming>(
    post: Mutex<Post<B>>,
    nodes: &mut Vec<NodeState>,
    workers: &mut Chairs<GraphMachine, B>,
) -> Result<(), NoMemory>
    ensures taken { OnOk result (IsOneMore nodes.old.items nodes.new.items workers.old.items workers.new.items) }
    ensures same { OnErr result (workers.new.items ≡ workers.old.items) }
{
    let post = post.into_inner();
    if post.number() as usize != nodes.len() {
        drop(post);
        return Err(NoMemory);
    }
    let (node, chair) = post.into_parts();
    match nodes.push(node) {
        Ok(()) => put_chair(workers, chair),
        Err(refused) => {
            drop(refused);
            drop(chair);
            Err(NoMemory)
        }
    }
}

// All nodes from behind their locks, as far as there is memory for them. Their chairs go behind these.
fn take_posts<B: Naming>(
    mut posts: Vec<Mutex<Post<B>>>,
    nodes: &mut Vec<NodeState>,
    workers: &mut Chairs<GraphMachine, B>,
) -> Result<(), NoMemory>
    requires none { nodes.old.items ≡ [] }
    ensures taken { OnOk result (AreTaken (vec_len posts) workers.old.items workers.new.items (Some nodes.new.items)) }
    ensures chairs { OnErr result (AreTaken (vec_len posts) workers.old.items workers.new.items None) }
{
    // The last post is that of node 0.
    while let Some(post) = posts.pop() {
        take_node(post, nodes, workers)?;
    }
    Ok(())
}

// The nodes with the set of those that wait, where there is memory for it.
fn with_waiting(alloc: Global, nodes: Vec<NodeState>) -> Option<Nodes>
    ensures { IfSome result (λ all. all ≡ nodes.items) }
{
    match waiting(alloc, &nodes) {
        Ok(due) => Some(Nodes::from_parts(nodes, due)),
        Err(_) => None,
    }
}

// The nodes from behind their locks, where there is memory for them. Their chairs go behind those of the workers.
fn take_nodes<B: Naming>(
    alloc: Global,
    posts: Vec<Mutex<Post<B>>>,
    workers: &mut Chairs<GraphMachine, B>,
) -> Option<Nodes>
    ensures { AreTaken (vec_len posts) workers.old.items workers.new.items result }
{
    let mut nodes = Vec::new(alloc);
    match take_posts(posts, &mut nodes, workers) {
        Ok(()) => with_waiting(alloc, nodes),
        Err(_) => None,
    }
}

impl<B: Naming> Book<B> {
    /// Ends the run: the whole journal, and the event of the first chair that keeps one, callers before workers. The
    /// seats are those of the run. Takes no memory, and time by the number of seats.
    pub fn close(self, seats: Seats<B>) -> (Journal, Option<Event>)
        requires of { All (λ c. c.about ≡ about_of self.run self.items self.events) (seats.callers.items ++ seats.workers.items) }
        requires some { 0 < length (seats.callers.items ++ seats.workers.items) }
        ensures run { is_run self.run.shape self.run.callers self.run.workers result.0 ≡ true }
        ensures parts { All (IsPart parties_of (about_of self.run self.items self.events) result.0) (seats.callers.items ++ seats.workers.items) }
        ensures kept { result.1 ≡ first_kept (seats.callers.items ++ seats.workers.items) }
        ensures limits { IsWithinLimits self.items self.events result.0 }
        ensures edges { AtEachStart (EdgesAgree self.run.shape) result.0 }
        ensures holds { AtEachStart (HoldsAgree self.run.shape) result.0 }
        ensures node_limits { AtEachStart (NodesWithinLimits self.run.shape) result.0 }
        ensures ledger { AtEachStart (LedgerAddsUp self.run.shape) result.0 }
        ensures fates { AtEachStart (ItemsHaveOneFate self.run.shape) result.0 }
        ensures lineages { AtEachStart (ItemsHaveLineages self.run.shape) result.0 }
        ensures reservations { HoldsReserve self.run.shape result.0 }
        ensures settled { open_after self.run.shape result.0 ≡ 0 → IsSettled self.run.shape result.0 }
        ensures released { open_after self.run.shape result.0 ≡ 0 → NothingIsHeld self.run.shape result.0 }
        ensures parents { open_after self.run.shape result.0 ≡ 0 → ParentsWereBorn self.run.shape result.0 }
    {
        let Book { line, .. } = self;
        let Seats {
            mut callers,
            mut workers,
        } = seats;
        let kept = take_first_kept(&mut callers, &mut workers);
        let journal = line.close2(callers, workers);
        (Journal::of(journal), kept)
    }

    /// As `close`, and hands on the nodes after the journal, without a replay of it. Only for want of memory there are
    /// none.
    pub fn close_with_nodes(
        self,
        alloc: Global,
        seats: Seats<B>,
    ) -> (Journal, Option<Event>, Option<Nodes>)
        requires of { All (λ c. c.about ≡ about_of self.run self.items self.events) (seats.callers.items ++ seats.workers.items) }
        requires some { 0 < length (seats.callers.items ++ seats.workers.items) }
        ensures run { is_run self.run.shape self.run.callers self.run.workers result.0 ≡ true }
        ensures parts { All (IsPart parties_of (about_of self.run self.items self.events) result.0) (seats.callers.items ++ seats.workers.items) }
        ensures kept { result.1 ≡ first_kept (seats.callers.items ++ seats.workers.items) }
        ensures limits { IsWithinLimits self.items self.events result.0 }
        ensures edges { AtEachStart (EdgesAgree self.run.shape) result.0 }
        ensures holds { AtEachStart (HoldsAgree self.run.shape) result.0 }
        ensures node_limits { AtEachStart (NodesWithinLimits self.run.shape) result.0 }
        ensures ledger { AtEachStart (LedgerAddsUp self.run.shape) result.0 }
        ensures fates { AtEachStart (ItemsHaveOneFate self.run.shape) result.0 }
        ensures lineages { AtEachStart (ItemsHaveLineages self.run.shape) result.0 }
        ensures reservations { HoldsReserve self.run.shape result.0 }
        ensures settled { open_after self.run.shape result.0 ≡ 0 → IsSettled self.run.shape result.0 }
        ensures released { open_after self.run.shape result.0 ≡ 0 → NothingIsHeld self.run.shape result.0 }
        ensures parents { open_after self.run.shape result.0 ≡ 0 → ParentsWereBorn self.run.shape result.0 }
        ensures nodes { IfSome result.2 (λ nodes. map node_of nodes ≡ nodes_of self.run.shape result.0) }
    {
        let Book { line, posts, .. } = self;
        let Seats {
            mut callers,
            mut workers,
        } = seats;
        let kept = take_first_kept(&mut callers, &mut workers);
        let nodes = take_nodes(alloc, posts, &mut workers);
        let journal = line.close2(callers, workers);
        (Journal::of(journal), kept, nodes)
    }
}

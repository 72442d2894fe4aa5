//! A graph with those who work on it.
ghost use Rattle.std.specs.Prelude.{◌≡◌, ◌+◌, ◌<◌, ◌≤◌, ◌++◌, [], true, length, map, reverse, All, IfSome};
ghost use Rattle.flow_item.specs.Events.{parties_of};
ghost use Rattle.flow_machine.specs.Machine.{is_run, open_after};
ghost use Rattle.flow_machine.specs.Settled.{IsSettled};
ghost use Rattle.flow_laws.specs.Moments.{IsWithinLimits, AtEachStart, EdgesAgree, HoldsAgree, NodesWithinLimits, LedgerAddsUp};
ghost use Rattle.flow_fates.specs.Facts.{ItemsHaveOneFate, ItemsHaveLineages, HoldsReserve, NothingIsHeld, ParentsWereBorn};
ghost use Rattle.flow_line.specs.Values.{IsPart};
ghost use Rattle.flow_line.specs.Kept.{first_kept};
ghost use Rattle.flow_nodes.specs.Rows.{nodes_of};
ghost use Rattle.flow_nodes.specs.Stepping.{node_of};
ghost use Rattle.flow_book.specs.Answers.{about_of};

use crate::bodies::Bodies;
use crate::caller::Caller;
use crate::graph::Graph;
use crate::worker::Worker;
use flow_book::{Book, Gate, Seats};
use flow_item::{Event, Journal};
use flow_line::Naming;
use flow_nodes::Nodes;
use std::alloc::Global;

/// A graph, its callers by their numbers, and its workers by theirs.
#[derive(Drop)]
pub struct Parts<'a, S: Bodies, G: Gate, B: Naming> {
    /// What they share.
    pub graph: Graph<'a, S, G, B>,
    /// One for each script of the document.
    pub callers: Vec<Caller<B>>,
    /// Those that work from start to end.
    pub workers: Vec<Worker<B>>,
    /// Empty lists with room for all chairs.
    pub seats: Seats<B>,
}

// Turns a list round.
pub(crate) fn turn<T>(list: &mut Vec<T>)
    ensures { list.new.items ≡ reverse list.old.items }
{
    list.as_mut_slice().reverse();
}

// Puts the chairs of the workers back into their list, the last worker of the list first.
fn seat_workers<B: Naming>(mut workers: Vec<Worker<B>>, seats: &mut Seats<B>)
    requires { length workers.items ≤ seats.old.workers.spare }
    ensures workers { seats.new.workers.items ≡ seats.old.workers.items ++ reverse (map (λ w. w.chair) workers.items) }
    ensures spare { seats.new.workers.spare + length workers.items ≡ seats.old.workers.spare }
    ensures callers { seats.new.callers ≡ seats.old.callers }
{
    while let Some(worker) = workers.pop() {
        seats.workers.push_reserved(worker.chair);
    }
}

// Puts both chairs of each caller back into their lists, those of the last caller of the list first.
fn seat_callers<B: Naming>(mut callers: Vec<Caller<B>>, seats: &mut Seats<B>)
    requires { (length callers.items ≤ seats.old.callers.spare) × (length callers.items ≤ seats.old.workers.spare) }
    ensures callers { seats.new.callers.items ≡ seats.old.callers.items ++ reverse (map (λ c. c.chair) callers.items) }
    ensures workers { seats.new.workers.items ≡ seats.old.workers.items ++ reverse (map (λ c. c.worker.chair) callers.items) }
{
    while let Some(caller) = callers.pop() {
        let Caller { chair, worker } = caller;
        seats.callers.push_reserved(chair);
        seats.workers.push_reserved(worker.chair);
    }
}

impl<'a, S: Bodies, G: Gate, B: Naming> Parts<'a, S, G, B> {
    // The nodes behind their locks, and the seats with all chairs back in them.
    fn into_seats(self) -> (Book<B>, Seats<B>)
        requires empty { (self.seats.callers.items ≡ []) × (self.seats.workers.items ≡ []) }
        requires room { (length self.callers.items ≤ self.seats.callers.spare) × (length self.workers.items + length self.callers.items ≤ self.seats.workers.spare) }
        ensures book { result.0 ≡ self.entry.graph.book }
        ensures callers { result.1.callers.items ≡ map (λ c. c.chair) self.entry.callers.items }
        ensures workers { result.1.workers.items ≡ map (λ w. w.chair) self.entry.workers.items ++ map (λ c. c.worker.chair) self.entry.callers.items }
    {
        let Parts {
            graph,
            mut callers,
            mut workers,
            mut seats,
        } = self;
        turn(&mut callers);
        turn(&mut workers);
        seat_workers(workers, &mut seats);
        seat_callers(callers, &mut seats);
        let Graph { book, .. } = graph;
        (book, seats)
    }

    /// Ends the run: the whole journal, and the event of the first chair that keeps one, callers first and their own
    /// workers last. Takes no memory, and time by the number of chairs.
    pub fn close(self) -> (Journal, Option<Event>)
        requires empty { (self.seats.callers.items ≡ []) × (self.seats.workers.items ≡ []) }
        requires room { (length self.callers.items ≤ self.seats.callers.spare) × (length self.workers.items + length self.callers.items ≤ self.seats.workers.spare) }
        requires some { 0 < length self.workers.items + length self.callers.items }
        requires callers { All (λ c. (c.chair.about ≡ about_of self.graph.book.run self.graph.book.items self.graph.book.events) × (c.worker.chair.about ≡ about_of self.graph.book.run self.graph.book.items self.graph.book.events)) self.callers.items }
        requires workers { All (λ w. w.chair.about ≡ about_of self.graph.book.run self.graph.book.items self.graph.book.events) self.workers.items }
        ensures run { is_run self.entry.graph.book.run.shape self.entry.graph.book.run.callers self.entry.graph.book.run.workers result.0 ≡ true }
        ensures parts { All (IsPart parties_of (about_of self.entry.graph.book.run self.entry.graph.book.items self.entry.graph.book.events) result.0) (map (λ c. c.chair) self.entry.callers.items ++ (map (λ w. w.chair) self.entry.workers.items ++ map (λ c. c.worker.chair) self.entry.callers.items)) }
        ensures kept { result.1 ≡ first_kept (map (λ c. c.chair) self.entry.callers.items ++ (map (λ w. w.chair) self.entry.workers.items ++ map (λ c. c.worker.chair) self.entry.callers.items)) }
        ensures limits { IsWithinLimits self.entry.graph.book.items self.entry.graph.book.events result.0 }
        ensures edges { AtEachStart (EdgesAgree self.entry.graph.book.run.shape) result.0 }
        ensures holds { AtEachStart (HoldsAgree self.entry.graph.book.run.shape) result.0 }
        ensures node_limits { AtEachStart (NodesWithinLimits self.entry.graph.book.run.shape) result.0 }
        ensures ledger { AtEachStart (LedgerAddsUp self.entry.graph.book.run.shape) result.0 }
        ensures fates { AtEachStart (ItemsHaveOneFate self.entry.graph.book.run.shape) result.0 }
        ensures lineages { AtEachStart (ItemsHaveLineages self.entry.graph.book.run.shape) result.0 }
        ensures reservations { HoldsReserve self.entry.graph.book.run.shape result.0 }
        ensures settled { open_after self.entry.graph.book.run.shape result.0 ≡ 0 → IsSettled self.entry.graph.book.run.shape result.0 }
        ensures released { open_after self.entry.graph.book.run.shape result.0 ≡ 0 → NothingIsHeld self.entry.graph.book.run.shape result.0 }
        ensures parents { open_after self.entry.graph.book.run.shape result.0 ≡ 0 → ParentsWereBorn self.entry.graph.book.run.shape result.0 }
    {
        let (book, seats) = self.into_seats();
        book.close(seats)
    }

    /// As `close`, and hands on the nodes after the journal, without a replay of it. Only for want of memory there are
    /// none.
    pub fn close_with_nodes(self, alloc: Global) -> (Journal, Option<Event>, Option<Nodes>)
        requires empty { (self.seats.callers.items ≡ []) × (self.seats.workers.items ≡ []) }
        requires room { (length self.callers.items ≤ self.seats.callers.spare) × (length self.workers.items + length self.callers.items ≤ self.seats.workers.spare) }
        requires some { 0 < length self.workers.items + length self.callers.items }
        requires callers { All (λ c. (c.chair.about ≡ about_of self.graph.book.run self.graph.book.items self.graph.book.events) × (c.worker.chair.about ≡ about_of self.graph.book.run self.graph.book.items self.graph.book.events)) self.callers.items }
        requires workers { All (λ w. w.chair.about ≡ about_of self.graph.book.run self.graph.book.items self.graph.book.events) self.workers.items }
        ensures run { is_run self.entry.graph.book.run.shape self.entry.graph.book.run.callers self.entry.graph.book.run.workers result.0 ≡ true }
        ensures parts { All (IsPart parties_of (about_of self.entry.graph.book.run self.entry.graph.book.items self.entry.graph.book.events) result.0) (map (λ c. c.chair) self.entry.callers.items ++ (map (λ w. w.chair) self.entry.workers.items ++ map (λ c. c.worker.chair) self.entry.callers.items)) }
        ensures kept { result.1 ≡ first_kept (map (λ c. c.chair) self.entry.callers.items ++ (map (λ w. w.chair) self.entry.workers.items ++ map (λ c. c.worker.chair) self.entry.callers.items)) }
        ensures limits { IsWithinLimits self.entry.graph.book.items self.entry.graph.book.events result.0 }
        ensures edges { AtEachStart (EdgesAgree self.entry.graph.book.run.shape) result.0 }
        ensures holds { AtEachStart (HoldsAgree self.entry.graph.book.run.shape) result.0 }
        ensures node_limits { AtEachStart (NodesWithinLimits self.entry.graph.book.run.shape) result.0 }
        ensures ledger { AtEachStart (LedgerAddsUp self.entry.graph.book.run.shape) result.0 }
        ensures fates { AtEachStart (ItemsHaveOneFate self.entry.graph.book.run.shape) result.0 }
        ensures lineages { AtEachStart (ItemsHaveLineages self.entry.graph.book.run.shape) result.0 }
        ensures reservations { HoldsReserve self.entry.graph.book.run.shape result.0 }
        ensures settled { open_after self.entry.graph.book.run.shape result.0 ≡ 0 → IsSettled self.entry.graph.book.run.shape result.0 }
        ensures released { open_after self.entry.graph.book.run.shape result.0 ≡ 0 → NothingIsHeld self.entry.graph.book.run.shape result.0 }
        ensures parents { open_after self.entry.graph.book.run.shape result.0 ≡ 0 → ParentsWereBorn self.entry.graph.book.run.shape result.0 }
        ensures nodes { IfSome result.2 (λ nodes. map node_of nodes ≡ nodes_of self.entry.graph.book.run.shape result.0) }
    {
        let (book, seats) = self.into_seats();
        book.close_with_nodes(alloc, seats)
    }
}

//! A caller of a graph.
ghost use Rattle.std.specs.Prelude.{◌≡◌, true, is_some, IfSome, IfOk, IfErr, OnOk};
ghost use Rattle.flow_item.specs.declared.event.PutAnswer.{PutAnswer};
ghost use Rattle.flow_item.specs.declared.event.Event.TheVariants as E;
ghost use Rattle.flow_item.specs.declared.event.Party.TheVariants.{Caller as of_caller};
ghost use Rattle.flow_item.specs.Events.{parties_of};
ghost use Rattle.flow_item.specs.Legal.{projection};
ghost use Rattle.flow_pool.specs.Posts.{IsPostOf};
ghost use Rattle.flow_book.specs.Answers.{IsDone, IsHalted, IsSame, Was};
ghost use Rattle.flow_book.specs.Callers.{number_of, may_call, takes_puts, takes_acts};
ghost use Rattle.flow_crew.specs.Crew.{HasTurned, HasWorked, IsCaller, IsFree, IsWaited, IsWorker};

use crate::bodies::Bodies;
use crate::graph::Graph;
use crate::waited::Waited;
use crate::worker::{Turn, Worker};
use flow_book::{Gate, GraphMachine};
use flow_item::{Party, PutAnswer, Stop, Val};
use flow_line::{Chair, Naming};
use std::alloc::Global;
use std::sync::Wait;

/// Who puts values into a graph, starts its inputs, and leaves. While it waits it works under a worker's chair of its own.
#[derive(Drop)]
pub struct Caller<B: Naming> {
    pub(crate) chair: Chair<GraphMachine, B>,
    pub(crate) worker: Worker<B>,
}

impl<B: Naming> Caller<B> {
    /// Its number. Its own events are all of its party in what it has seen.
    pub fn number<S: Bodies, G: Gate>(&self, graph: &Graph<S, G, B>) -> u32
        requires { IsCaller (S.meanings graph.now.bench.bodies.now) graph.now.book.run graph.now.book.items graph.now.book.events self.now.chair }
        ensures number { self.now.chair.party ≡ of_caller result }
        ensures own { self.now.chair.own ≡ projection parties_of self.now.chair.party self.now.chair.seen }
    {
        let _ = graph;
        let _ = self.chair.own_len();
        match self.chair.party() {
            Party::Caller(number) => number,
            _ => unreachable!(),
        }
    }

    /// Puts a value to a node, and the node where all look for work. Answers what the machine answers then: the item's
    /// number and where it landed, or why the node didn't take it. It waits for the lock of this node alone, and costs
    /// copies of the value and what the node needs for an item. It is refused at a limit, of which the chair keeps
    /// the event unless it keeps one, and for want of memory. A refusal calls on all who wait for work.
    pub fn put<R: Wait, S: Bodies, G: Gate>(
        &mut self,
        rt: &R,
        alloc: Global,
        graph: &Graph<S, G, B>,
        node: u32,
        port: u32,
        tag: u64,
        val: &Val,
    ) -> Result<PutAnswer, Stop>
        requires of { IsCaller (S.meanings graph.now.bench.bodies.now) graph.now.book.run graph.now.book.items graph.now.book.events self.old.chair }
        requires post { IsPostOf graph.now.pool self.old.worker.post }
        requires caller { may_call graph.now.book.run self.old.chair ≡ true }
        requires port { takes_puts graph.now.book.run.shape node port ≡ true }
        ensures of { IsCaller (S.meanings graph.now.bench.bodies.now) graph.now.book.run graph.now.book.items graph.now.book.events self.new.chair }
        ensures post { IsPostOf graph.now.pool self.new.worker.post }
        ensures worker { (self.new.worker.chair ≡ self.old.worker.chair) × (self.new.worker.busy ≡ self.old.worker.busy) }
        ensures stays { may_call graph.now.book.run self.new.chair ≡ true }
        ensures made { IfOk result (λ a. IsDone self.old.chair (E.Put (number_of self.old.chair.party) node port tag val.now a) self.new.chair) }
        ensures stopped { IfErr result (λ s. IsHalted self.old.chair (λ e. (a : PutAnswer) × (e ≡ E.Put (number_of self.old.chair.party) node port tag val.now a)) self.new.chair s) }
    {
        match graph.book.put(rt, alloc, &mut self.chair, node, port, tag, val, graph.gate) {
            Ok(answer) => {
                graph.inject(rt, &mut self.worker.post, node);
                Ok(answer)
            }
            Err(stop) => {
                graph.bell.call();
                Err(stop)
            }
        }
    }

    /// Starts an input node; one that is started stays as it is. It costs and is refused as a put without its value.
    pub fn activate<R: Wait, S: Bodies, G: Gate>(
        &mut self,
        rt: &R,
        graph: &Graph<S, G, B>,
        node: u32,
    ) -> Result<(), Stop>
        requires of { IsCaller (S.meanings graph.now.bench.bodies.now) graph.now.book.run graph.now.book.items graph.now.book.events self.old.chair }
        requires post { IsPostOf graph.now.pool self.old.worker.post }
        requires caller { may_call graph.now.book.run self.old.chair ≡ true }
        requires input { takes_acts graph.now.book.run.shape node ≡ true }
        ensures of { IsCaller (S.meanings graph.now.bench.bodies.now) graph.now.book.run graph.now.book.items graph.now.book.events self.new.chair }
        ensures post { IsPostOf graph.now.pool self.new.worker.post }
        ensures worker { (self.new.worker.chair ≡ self.old.worker.chair) × (self.new.worker.busy ≡ self.old.worker.busy) }
        ensures stays { may_call graph.now.book.run self.new.chair ≡ true }
        ensures made { OnOk result (IsDone self.old.chair (E.Act (number_of self.old.chair.party) node) self.new.chair) }
        ensures stopped { IfErr result (λ s. IsHalted self.old.chair (Was (E.Act (number_of self.old.chair.party) node)) self.new.chair s) }
    {
        match graph.book.activate(rt, &mut self.chair, node, graph.gate) {
            Ok(()) => {
                graph.inject(rt, &mut self.worker.post, node);
                Ok(())
            }
            Err(stop) => {
                graph.bell.call();
                Err(stop)
            }
        }
    }

    /// Leaves, and puts and starts nothing from then on. The caller that leaves last calls on the workers, which end
    /// once nothing is open. It waits for no node's lock, costs the same however large the graph is, and is refused as
    /// a put is.
    pub fn leave<R: Wait, S: Bodies, G: Gate>(
        &mut self,
        rt: &R,
        graph: &Graph<S, G, B>,
    ) -> Result<(), Stop>
        requires of { IsCaller (S.meanings graph.now.bench.bodies.now) graph.now.book.run graph.now.book.items graph.now.book.events self.old.chair }
        requires caller { may_call graph.now.book.run self.old.chair ≡ true }
        ensures of { IsCaller (S.meanings graph.now.bench.bodies.now) graph.now.book.run graph.now.book.items graph.now.book.events self.new.chair }
        ensures worker { self.new.worker ≡ self.old.worker }
        ensures made { OnOk result (IsDone self.old.chair (E.Leave (number_of self.old.chair.party)) self.new.chair) }
        ensures stopped { IfErr result (λ s. IsHalted self.old.chair (Was (E.Leave (number_of self.old.chair.party))) self.new.chair s) }
    {
        match graph.book.leave(rt, &mut self.chair, graph.gate) {
            Ok(()) => {
                graph.bell.leave_last(graph.callers);
                Ok(())
            }
            Err(stop) => {
                graph.bell.call();
                Err(stop)
            }
        }
    }

    // Whether the wait has ended, and how.
    fn ended<R: Wait, S: Bodies, G: Gate>(
        &mut self,
        rt: &R,
        graph: &Graph<S, G, B>,
    ) -> Option<Waited>
        requires of { IsCaller (S.meanings graph.now.bench.bodies.now) graph.now.book.run graph.now.book.items graph.now.book.events self.old.chair }
        ensures of { IsCaller (S.meanings graph.now.bench.bodies.now) graph.now.book.run graph.now.book.items graph.now.book.events self.new.chair }
        ensures same { IsSame self.old.chair self.new.chair }
        ensures worker { (self.new.worker.chair ≡ self.old.worker.chair) × (self.new.worker.busy ≡ self.old.worker.busy) × (self.new.worker.post ≡ self.old.worker.post) }
        ensures ended { IfSome result (λ w. IsWaited graph.now.book.run self.old.chair w self.new.chair) }
    {
        match graph.book.stopped(rt, &mut self.chair) {
            Some(stop) => Some(Waited::Halted(stop)),
            None => self.quiet(rt, graph),
        }
    }

    // Whether nothing is open.
    fn quiet<R: Wait, S: Bodies, G: Gate>(
        &mut self,
        rt: &R,
        graph: &Graph<S, G, B>,
    ) -> Option<Waited>
        requires { IsCaller (S.meanings graph.now.bench.bodies.now) graph.now.book.run graph.now.book.items graph.now.book.events self.old.chair }
        ensures same { IsSame self.old.chair self.new.chair }
        ensures worker { (self.new.worker.chair ≡ self.old.worker.chair) × (self.new.worker.busy ≡ self.old.worker.busy) × (self.new.worker.post ≡ self.old.worker.post) }
        ensures ended { IfSome result (λ w. IsWaited graph.now.book.run self.old.chair w self.new.chair) }
    {
        let open = graph.book.unrest(rt, &mut self.chair);
        if open != 0 {
            return None;
        }
        Some(Waited::Quiet)
    }

    // Whether the wait has ended, and how. Nobody asks who wasn't called on.
    fn asks<R: Wait, S: Bodies, G: Gate>(
        &mut self,
        rt: &R,
        graph: &Graph<S, G, B>,
    ) -> Option<Waited>
        requires of { IsCaller (S.meanings graph.now.bench.bodies.now) graph.now.book.run graph.now.book.items graph.now.book.events self.old.chair }
        ensures of { IsCaller (S.meanings graph.now.bench.bodies.now) graph.now.book.run graph.now.book.items graph.now.book.events self.new.chair }
        ensures same { IsSame self.old.chair self.new.chair }
        ensures worker { (self.new.worker.chair ≡ self.old.worker.chair) × (self.new.worker.busy ≡ self.old.worker.busy) × (self.new.worker.post ≡ self.old.worker.post) }
        ensures ended { IfSome result (λ w. IsWaited graph.now.book.run self.old.chair w self.new.chair) }
    {
        if !graph.bell.is_called(graph.callers, &mut self.worker.heard) {
            return None;
        }
        self.ended(rt, graph)
    }

    // One round of the wait.
    fn round<R: Wait, S: Bodies, G: Gate>(
        &mut self,
        rt: &R,
        alloc: Global,
        graph: &Graph<S, G, B>,
    ) -> Option<Waited>
        requires of { IsCaller (S.meanings graph.now.bench.bodies.now) graph.now.book.run graph.now.book.items graph.now.book.events self.old.chair }
        requires free { IsFree (S.meanings graph.now.bench.bodies.now) graph.now.book.run graph.now.book.items graph.now.book.events graph.now.pool self.old.worker.chair self.old.worker.post self.old.worker.busy }
        ensures of { IsCaller (S.meanings graph.now.bench.bodies.now) graph.now.book.run graph.now.book.items graph.now.book.events self.new.chair }
        ensures turned { HasTurned (S.meanings graph.now.bench.bodies.now) graph.now.book.run graph.now.book.items graph.now.book.events graph.now.pool self.old.worker.chair self.new.worker.chair self.new.worker.post self.new.worker.busy (is_some result) }
        ensures same { IsSame self.old.chair self.new.chair }
        ensures ended { IfSome result (λ w. IsWaited graph.now.book.run self.old.chair w self.new.chair) }
    {
        match self.worker.turn(rt, alloc, graph) {
            Turn::Served => None,
            Turn::Refused => {
                graph.bell.go();
                Some(Waited::Halted(graph.refusal(rt, &mut self.chair)))
            }
            Turn::Idle(last) => match self.asks(rt, graph) {
                Some(waited) => {
                    graph.bell.quit(true);
                    Some(waited)
                }
                None => {
                    self.worker.sleep(rt, graph, last);
                    None
                }
            },
        }
    }

    /// Works under its worker's chair until nothing is open, or a call is refused. Answers `Quiet` where it saw the
    /// whole journal in this call and nothing was open then, which other callers may have changed since, and else the
    /// first refusal of all calls. It sleeps while it finds no node. To ask what is open it takes the locks of all
    /// nodes: once, and then whenever it is called on. A caller whose worker couldn't end a body is halted at once.
    pub fn wait_for_all<R: Wait, S: Bodies, G: Gate>(
        &mut self,
        rt: &R,
        alloc: Global,
        graph: &Graph<S, G, B>,
    ) -> Waited
        requires of { IsCaller (S.meanings graph.now.bench.bodies.now) graph.now.book.run graph.now.book.items graph.now.book.events self.old.chair }
        requires worker { IsWorker (S.meanings graph.now.bench.bodies.now) graph.now.book.run graph.now.book.items graph.now.book.events self.old.worker.chair self.old.worker.busy }
        requires post { IsPostOf graph.now.pool self.old.worker.post }
        ensures of { IsCaller (S.meanings graph.now.bench.bodies.now) graph.now.book.run graph.now.book.items graph.now.book.events self.new.chair }
        ensures worker { IsWorker (S.meanings graph.now.bench.bodies.now) graph.now.book.run graph.now.book.items graph.now.book.events self.new.worker.chair self.new.worker.busy }
        ensures post { IsPostOf graph.now.pool self.new.worker.post }
        ensures worked { HasWorked self.old.worker.chair self.new.worker.chair }
        ensures same { IsSame self.old.chair self.new.chair }
        ensures ended { IsWaited graph.now.book.run self.old.chair result self.new.chair }
    {
        if self.worker.busy {
            return Waited::Halted(graph.refusal(rt, &mut self.chair));
        }
        self.worker.come(graph);
        for _ in rt.forever() {
            if let Some(waited) = self.round(rt, alloc, graph) {
                return waited;
            }
        }
        unreachable!()
    }
}

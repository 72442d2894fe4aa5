//! A worker of a graph.
ghost use Rattle.std.specs.Prelude.{◌≡◌, ◌<◌, true, false, not, is_some, length, IfSome};
ghost use Rattle.flow_item.specs.declared.event.Party.TheVariants.{Worker as of_worker};
ghost use Rattle.flow_item.specs.Events.{parties_of};
ghost use Rattle.flow_item.specs.Legal.{projection};
ghost use Rattle.flow_pool.specs.Posts.{IsPostOf};
ghost use Rattle.flow_book.specs.Answers.{IsSame};
ghost use Rattle.flow_book.specs.Jobs.{RunsJob, is_submit};
ghost use Rattle.flow_crew.specs.Bodies.{answers_job};
ghost use Rattle.flow_crew.specs.Crew.{HasBegun, HasTurned, HasWorked, IsEnded, IsFree, IsGiven, IsWorker, is_halting, is_refused, is_started};

use crate::bodies::Bodies;
use crate::graph::Graph;
use crate::waited::Waited;
use flow_book::{Did, Gate, GraphMachine, Job};
use flow_item::{Outs, Party};
use flow_line::{Chair, Naming};
use flow_pool::Post;
use std::alloc::Global;
use std::hint::spin_loop;
use std::sync::Wait;

/// Who serves the nodes of a graph and runs their bodies.
#[derive(Drop)]
pub struct Worker<B: Naming> {
    pub(crate) chair: Chair<GraphMachine, B>,
    pub(crate) post: Post,
    // A body of it couldn't be ended, and runs for ever.
    pub(crate) busy: bool,
    // It has no node, and hunts for one.
    pub(crate) hunts: bool,
    // After so many calls of the bell it asked what is open.
    pub(crate) heard: u64,
    // It is that of a caller, and works while the caller waits.
    pub(crate) waits: bool,
}

// How often a worker that has no node looks for one before it listens.
const LOOKS: u32 = 64;

// What became of one turn of a worker.
#[derive(Clone, Copy, Debug)]
pub(crate) enum Turn {
    // A node was served, or another serves it.
    Served,
    // Something was refused.
    Refused,
    // No node was found. It listens since before it looked last, and this was then the bell's last ring.
    Idle(u32),
}

// What became of a look at a node.
#[derive(Clone, Copy, Debug)]
pub(crate) enum Step {
    // An event of it was made, and it may have more to do.
    Made,
    // It had nothing to do.
    Rests,
    // A body of it was run, and another tends it since.
    Left,
    // Something was refused.
    Refused,
}

// Whether all went well.
fn step_of(well: bool) -> Step
    ensures { is_halting result ≡ not well }
{
    if well { Step::Made } else { Step::Refused }
}

impl<B: Naming> Worker<B> {
    /// Its number. Its own events are all of its party in what it has seen.
    pub fn number<S: Bodies, G: Gate>(&self, graph: &Graph<S, G, B>) -> u32
        requires { IsWorker (S.meanings graph.now.bench.bodies.now) graph.now.book.run graph.now.book.items graph.now.book.events self.now.chair self.now.busy }
        ensures number { self.now.chair.party ≡ of_worker result }
        ensures own { self.now.chair.own ≡ projection parties_of self.now.chair.party self.now.chair.seen }
    {
        let _ = graph;
        let _ = self.chair.own_len();
        match self.chair.party() {
            Party::Worker(number) => number,
            _ => unreachable!(),
        }
    }

    // Serves a node of the pool.
    pub(crate) fn turn<R: Wait, S: Bodies, G: Gate>(
        &mut self,
        rt: &R,
        alloc: Global,
        graph: &Graph<S, G, B>,
    ) -> Turn
        requires free { IsFree (S.meanings graph.now.bench.bodies.now) graph.now.book.run graph.now.book.items graph.now.book.events graph.now.pool self.old.chair self.old.post self.old.busy }
        ensures { HasTurned (S.meanings graph.now.bench.bodies.now) graph.now.book.run graph.now.book.items graph.now.book.events graph.now.pool self.old.chair self.new.chair self.new.post self.new.busy (is_refused result) }
    {
        if self.hunts {
            return self.hunt(rt, alloc, graph);
        }
        match graph.pool.take(rt, &mut self.post) {
            Some(node) => self.try_tend(rt, alloc, graph, node),
            None => {
                graph.bell.hunt();
                self.hunts = true;
                self.hunt(rt, alloc, graph)
            }
        }
    }

    // Looks for a node for a while.
    fn hunt<R: Wait, S: Bodies, G: Gate>(
        &mut self,
        rt: &R,
        alloc: Global,
        graph: &Graph<S, G, B>,
    ) -> Turn
        requires free { IsFree (S.meanings graph.now.bench.bodies.now) graph.now.book.run graph.now.book.items graph.now.book.events graph.now.pool self.old.chair self.old.post self.old.busy }
        ensures { HasTurned (S.meanings graph.now.bench.bodies.now) graph.now.book.run graph.now.book.items graph.now.book.events graph.now.pool self.old.chair self.new.chair self.new.post self.new.busy (is_refused result) }
    {
        match Self::seek(rt, graph, &mut self.post) {
            Some(node) => {
                self.hunts = false;
                graph.bell.find();
                self.try_tend(rt, alloc, graph, node)
            }
            None => self.turn_again(rt, alloc, graph),
        }
    }

    // Takes a node out of the pool, where one is found in so many looks.
    fn seek<R: Wait, S: Bodies, G: Gate>(
        rt: &R,
        graph: &Graph<S, G, B>,
        post: &mut Post,
    ) -> Option<u32>
        requires { IsPostOf graph.now.pool post.old }
        ensures post { IsPostOf graph.now.pool post.new }
        ensures node { IfSome result (λ n. n < length graph.now.book.run.shape.nodes) }
    {
        for _ in 0..LOOKS {
            if let Some(node) = graph.pool.take(rt, post) {
                return Some(node);
            }
            spin_loop();
        }
        None
    }

    // Listens, and looks once more.
    fn turn_again<R: Wait, S: Bodies, G: Gate>(
        &mut self,
        rt: &R,
        alloc: Global,
        graph: &Graph<S, G, B>,
    ) -> Turn
        requires free { IsFree (S.meanings graph.now.bench.bodies.now) graph.now.book.run graph.now.book.items graph.now.book.events graph.now.pool self.old.chair self.old.post self.old.busy }
        ensures { HasTurned (S.meanings graph.now.bench.bodies.now) graph.now.book.run graph.now.book.items graph.now.book.events graph.now.pool self.old.chair self.new.chair self.new.post self.new.busy (is_refused result) }
    {
        self.hunts = false;
        let last = graph.bell.listen(self.waits);
        match graph.pool.take(rt, &mut self.post) {
            Some(node) => {
                graph.bell.leave(self.waits);
                self.try_tend(rt, alloc, graph, node)
            }
            None => Turn::Idle(last),
        }
    }

    // Sleeps until a ring after that one, and then hunts.
    pub(crate) fn sleep<R: Wait, S: Bodies, G: Gate>(
        &mut self,
        rt: &R,
        graph: &Graph<S, G, B>,
        last: u32,
    )
        ensures { (self.new.chair ≡ self.old.chair) × (self.new.busy ≡ self.old.busy) × (self.new.post ≡ self.old.post) }
    {
        graph.bell.sleep(rt, self.waits, last);
        self.hunts = true;
    }

    // Tends a node that it took out of the pool, unless another does.
    fn try_tend<R: Wait, S: Bodies, G: Gate>(
        &mut self,
        rt: &R,
        alloc: Global,
        graph: &Graph<S, G, B>,
        node: u32,
    ) -> Turn
        requires free { IsFree (S.meanings graph.now.bench.bodies.now) graph.now.book.run graph.now.book.items graph.now.book.events graph.now.pool self.old.chair self.old.post self.old.busy }
        requires node { node < length graph.now.book.run.shape.nodes }
        ensures { HasTurned (S.meanings graph.now.bench.bodies.now) graph.now.book.run graph.now.book.items graph.now.book.events graph.now.pool self.old.chair self.new.chair self.new.post self.new.busy (is_refused result) }
    {
        if !graph.mark(node).take(rt) {
            return Turn::Served;
        }
        self.tend(rt, alloc, graph, node)
    }

    // Serves a node until it rests, or another tends it.
    fn tend<R: Wait, S: Bodies, G: Gate>(
        &mut self,
        rt: &R,
        alloc: Global,
        graph: &Graph<S, G, B>,
        node: u32,
    ) -> Turn
        requires free { IsFree (S.meanings graph.now.bench.bodies.now) graph.now.book.run graph.now.book.items graph.now.book.events graph.now.pool self.old.chair self.old.post self.old.busy }
        requires node { node < length graph.now.book.run.shape.nodes }
        ensures { HasTurned (S.meanings graph.now.bench.bodies.now) graph.now.book.run graph.now.book.items graph.now.book.events graph.now.pool self.old.chair self.new.chair self.new.post self.new.busy (is_refused result) }
    {
        for _ in rt.forever() {
            match self.serve(rt, alloc, graph, node) {
                Step::Made => {}
                Step::Rests => {
                    if graph.mark(node).rest() {
                        return Turn::Served;
                    }
                }
                Step::Left => return Turn::Served,
                Step::Refused => return Turn::Refused,
            }
        }
        unreachable!()
    }

    // Makes the event of a node's wish.
    fn serve<R: Wait, S: Bodies, G: Gate>(
        &mut self,
        rt: &R,
        alloc: Global,
        graph: &Graph<S, G, B>,
        node: u32,
    ) -> Step
        requires free { IsFree (S.meanings graph.now.bench.bodies.now) graph.now.book.run graph.now.book.items graph.now.book.events graph.now.pool self.old.chair self.old.post self.old.busy }
        requires node { node < length graph.now.book.run.shape.nodes }
        ensures { HasTurned (S.meanings graph.now.bench.bodies.now) graph.now.book.run graph.now.book.items graph.now.book.events graph.now.pool self.old.chair self.new.chair self.new.post self.new.busy (is_halting result) }
    {
        match graph
            .book
            .serve(rt, alloc, &mut self.chair, node, graph.gate)
        {
            Ok(did) => {
                let _ = self.chair.len();
                let _ = self.chair.own_len();
                self.follow(rt, alloc, graph, did)
            }
            Err(_) => Step::Refused,
        }
    }

    // Does what follows from what was done at a node.
    fn follow<R: Wait, S: Bodies, G: Gate>(
        &mut self,
        rt: &R,
        alloc: Global,
        graph: &Graph<S, G, B>,
        did: Did,
    ) -> Step
        requires of { IsWorker (S.meanings graph.now.bench.bodies.now) graph.now.book.run graph.now.book.items graph.now.book.events self.old.chair (is_started did) }
        requires post { IsPostOf graph.now.pool self.old.post }
        requires idle { self.old.busy ≡ false }
        requires given { IsGiven graph.now.book.run self.old.chair did }
        ensures { HasTurned (S.meanings graph.now.bench.bodies.now) graph.now.book.run graph.now.book.items graph.now.book.events graph.now.pool self.old.chair self.new.chair self.new.post self.new.busy (is_halting result) }
    {
        match did {
            Did::Rest => Step::Rests,
            Did::Event { second, .. } => {
                graph.bell.tell();
                step_of(graph.tell_other(rt, &mut self.post, second))
            }
            Did::Start(job) => self.work(rt, alloc, graph, job),
        }
    }

    // Runs a job that the worker has started, while no lock is held, and ends it.
    fn work<R: Wait, S: Bodies, G: Gate>(
        &mut self,
        rt: &R,
        alloc: Global,
        graph: &Graph<S, G, B>,
        job: Job,
    ) -> Step
        requires of { IsWorker (S.meanings graph.now.bench.bodies.now) graph.now.book.run graph.now.book.items graph.now.book.events self.old.chair true }
        requires post { IsPostOf graph.now.pool self.old.post }
        requires runs { RunsJob graph.now.book.run self.old.chair job }
        requires begun { HasBegun self.old.chair job }
        requires node { job.node < length graph.now.book.run.shape.nodes }
        ensures { HasTurned (S.meanings graph.now.bench.bodies.now) graph.now.book.run graph.now.book.items graph.now.book.events graph.now.pool self.old.chair self.new.chair self.new.post self.new.busy (is_halting result) }
    {
        self.busy = true;
        graph.bell.tell();
        if !graph.leave(rt, &mut self.post, job.node) {
            return Step::Refused;
        }
        match graph.run_job(rt, alloc, &job) {
            Some(outs) => self.finish(rt, alloc, graph, job, outs),
            None => Step::Refused,
        }
    }

    // Ends a job with these messages, and tends its node again unless another does.
    fn finish<R: Wait, S: Bodies, G: Gate>(
        &mut self,
        rt: &R,
        alloc: Global,
        graph: &Graph<S, G, B>,
        job: Job,
        outs: Outs,
    ) -> Step
        requires of { IsWorker (S.meanings graph.now.bench.bodies.now) graph.now.book.run graph.now.book.items graph.now.book.events self.old.chair true }
        requires post { IsPostOf graph.now.pool self.old.post }
        requires runs { RunsJob graph.now.book.run self.old.chair job }
        requires begun { HasBegun self.old.chair job }
        requires body { is_submit job.body ≡ false }
        requires answers { answers_job (S.meanings graph.now.bench.bodies.now) job.body job.item outs ≡ true }
        requires node { job.node < length graph.now.book.run.shape.nodes }
        ensures { HasTurned (S.meanings graph.now.bench.bodies.now) graph.now.book.run graph.now.book.items graph.now.book.events graph.now.pool self.old.chair self.new.chair self.new.post self.new.busy (is_halting result) }
    {
        let node = job.node;
        if !self.end(rt, alloc, graph, job, outs) {
            return Step::Refused;
        }
        if graph.mark(node).resume(rt) {
            Step::Made
        } else {
            Step::Left
        }
    }

    // Ends a job with these messages. Answers whether it could: else the job still runs.
    fn end<R: Wait, S: Bodies, G: Gate>(
        &mut self,
        rt: &R,
        alloc: Global,
        graph: &Graph<S, G, B>,
        job: Job,
        outs: Outs,
    ) -> bool
        requires of { IsWorker (S.meanings graph.now.bench.bodies.now) graph.now.book.run graph.now.book.items graph.now.book.events self.old.chair true }
        requires runs { RunsJob graph.now.book.run self.old.chair job }
        requires begun { HasBegun self.old.chair job }
        requires body { is_submit job.body ≡ false }
        requires answers { answers_job (S.meanings graph.now.bench.bodies.now) job.body job.item outs ≡ true }
        ensures of { IsWorker (S.meanings graph.now.bench.bodies.now) graph.now.book.run graph.now.book.items graph.now.book.events self.new.chair self.new.busy }
        ensures busy { self.new.busy ≡ not result }
        ensures post { self.new.post ≡ self.old.post }
        ensures worked { HasWorked self.old.chair self.new.chair }
    {
        let ended = graph
            .book
            .finish(rt, alloc, &mut self.chair, job, outs, graph.gate)
            .is_ok();
        let _ = self.chair.len();
        let _ = self.chair.own_len();
        self.busy = !ended;
        ended
    }

    // Comes to work. It is to ask what is open where it finds no node.
    pub(crate) fn come<S: Bodies, G: Gate>(&mut self, graph: &Graph<S, G, B>)
        ensures { (self.new.chair ≡ self.old.chair) × (self.new.busy ≡ self.old.busy) × (self.new.post ≡ self.old.post) }
    {
        graph.bell.come();
        self.heard = u64::MAX;
    }

    /// Whether the work has ended, and how. It makes no event.
    pub fn ended<R: Wait, S: Bodies, G: Gate>(
        &mut self,
        rt: &R,
        graph: &Graph<S, G, B>,
    ) -> Option<Waited>
        requires of { IsWorker (S.meanings graph.now.bench.bodies.now) graph.now.book.run graph.now.book.items graph.now.book.events self.old.chair self.old.busy }
        requires post { IsPostOf graph.now.pool self.old.post }
        ensures of { IsWorker (S.meanings graph.now.bench.bodies.now) graph.now.book.run graph.now.book.items graph.now.book.events self.new.chair self.new.busy }
        ensures post { IsPostOf graph.now.pool self.new.post }
        ensures worked { HasWorked self.old.chair self.new.chair }
        ensures same { IsSame self.old.chair self.new.chair }
        ensures busy { self.new.busy ≡ self.old.busy }
        ensures ended { IfSome result (λ w. IsEnded graph.now.book.run self.old.chair w self.new.chair) }
    {
        match graph.book.stopped(rt, &mut self.chair) {
            Some(stop) => Some(Waited::Halted(stop)),
            None => self.quiet(rt, graph),
        }
    }

    // Whether all callers have left and nothing is open.
    fn quiet<R: Wait, S: Bodies, G: Gate>(
        &mut self,
        rt: &R,
        graph: &Graph<S, G, B>,
    ) -> Option<Waited>
        requires of { IsWorker (S.meanings graph.now.bench.bodies.now) graph.now.book.run graph.now.book.items graph.now.book.events self.old.chair self.old.busy }
        ensures of { IsWorker (S.meanings graph.now.bench.bodies.now) graph.now.book.run graph.now.book.items graph.now.book.events self.new.chair self.new.busy }
        ensures same { (self.new.busy ≡ self.old.busy) × (self.new.post ≡ self.old.post) }
        ensures worked { IsSame self.old.chair self.new.chair }
        ensures ended { IfSome result (λ w. IsEnded graph.now.book.run self.old.chair w self.new.chair) }
    {
        let left = graph.book.left(rt, &mut self.chair);
        if left != graph.callers {
            return None;
        }
        let open = graph.book.unrest(rt, &mut self.chair);
        let _ = self.chair.len();
        if open != 0 {
            return None;
        }
        Some(Waited::Quiet)
    }

    // Whether the work has ended, and how. Nobody asks who wasn't called on.
    fn asks<R: Wait, S: Bodies, G: Gate>(
        &mut self,
        rt: &R,
        graph: &Graph<S, G, B>,
    ) -> Option<Waited>
        requires of { IsWorker (S.meanings graph.now.bench.bodies.now) graph.now.book.run graph.now.book.items graph.now.book.events self.old.chair self.old.busy }
        requires post { IsPostOf graph.now.pool self.old.post }
        ensures of { IsWorker (S.meanings graph.now.bench.bodies.now) graph.now.book.run graph.now.book.items graph.now.book.events self.new.chair self.new.busy }
        ensures post { IsPostOf graph.now.pool self.new.post }
        ensures worked { HasWorked self.old.chair self.new.chair }
        ensures busy { self.new.busy ≡ self.old.busy }
        ensures ended { IfSome result (λ w. IsEnded graph.now.book.run self.old.chair w self.new.chair) }
    {
        if !graph.bell.is_called(graph.callers, &mut self.heard) {
            return None;
        }
        self.ended(rt, graph)
    }

    // One round of the work.
    fn round<R: Wait, S: Bodies, G: Gate>(
        &mut self,
        rt: &R,
        alloc: Global,
        graph: &Graph<S, G, B>,
    ) -> Option<Waited>
        requires free { IsFree (S.meanings graph.now.bench.bodies.now) graph.now.book.run graph.now.book.items graph.now.book.events graph.now.pool self.old.chair self.old.post self.old.busy }
        ensures turned { HasTurned (S.meanings graph.now.bench.bodies.now) graph.now.book.run graph.now.book.items graph.now.book.events graph.now.pool self.old.chair self.new.chair self.new.post self.new.busy (is_some result) }
        ensures ended { IfSome result (λ w. IsEnded graph.now.book.run self.old.chair w self.new.chair) }
    {
        match self.turn(rt, alloc, graph) {
            Turn::Served => None,
            Turn::Refused => {
                graph.bell.go();
                Some(Waited::Halted(graph.refusal(rt, &mut self.chair)))
            }
            Turn::Idle(last) => match self.asks(rt, graph) {
                Some(waited) => {
                    graph.bell.quit(false);
                    Some(waited)
                }
                None => {
                    self.sleep(rt, graph, last);
                    None
                }
            },
        }
    }

    /// Works until all callers have left and nothing is open, or a call is refused.
    pub fn run<R: Wait, S: Bodies, G: Gate>(
        &mut self,
        rt: &R,
        alloc: Global,
        graph: &Graph<S, G, B>,
    ) -> Waited
        requires of { IsWorker (S.meanings graph.now.bench.bodies.now) graph.now.book.run graph.now.book.items graph.now.book.events self.old.chair self.old.busy }
        requires post { IsPostOf graph.now.pool self.old.post }
        ensures of { IsWorker (S.meanings graph.now.bench.bodies.now) graph.now.book.run graph.now.book.items graph.now.book.events self.new.chair self.new.busy }
        ensures post { IsPostOf graph.now.pool self.new.post }
        ensures worked { HasWorked self.old.chair self.new.chair }
        ensures ended { IsEnded graph.now.book.run self.old.chair result self.new.chair }
    {
        if self.busy {
            return Waited::Halted(graph.refusal(rt, &mut self.chair));
        }
        self.come(graph);
        for _ in rt.forever() {
            if let Some(waited) = self.round(rt, alloc, graph) {
                return waited;
            }
        }
        unreachable!()
    }
}

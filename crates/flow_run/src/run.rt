//! A whole run of a document on threads.
ghost use Rattle.std.specs.Prelude.{◌≡◌, ◌+◌, ◌<◌, ◌≤◌, ◌^◌, ◌++◌, [], true, None, Some, is_ok, is_some, length, map, All, OnOk, IfOk, IfSome};
ghost use Rattle.std.specs.List.{list_all, count_by};
ghost use denote.Param.Send.{IsSync, IsSend};
ghost use Rattle.flow_item.specs.Events.{births};
ghost use Rattle.flow_machine.specs.Machine.{is_leave, is_run, open_after};
ghost use Rattle.flow_machine.specs.Settled.{IsSettled};
ghost use Rattle.flow_doc.specs.Fits.{doc_fits};
ghost use Rattle.flow_node.specs.Built.{is_built};
ghost use Rattle.flow_pool.specs.Posts.{IsPostOf};
ghost use Rattle.flow_laws.specs.Moments.{IsWithinLimits, AtEachStart, EdgesAgree, HoldsAgree, NodesWithinLimits, LedgerAddsUp};
ghost use Rattle.flow_book.specs.Callers.{may_call};
ghost use Rattle.flow_book.specs.Opening.{callers_of, workers_of};
ghost use Rattle.flow_shape.specs.Rules.{IsValid};
ghost use Rattle.flow_work.specs.Plain.{AreNodesAfter};
ghost use Rattle.flow_work.specs.Promises.{FollowsScripts, CompletesScripts, HeedsWaits, KeepsBodies, ItemsHaveOneFate, ItemsHaveLineages, HoldsReserve, NothingIsHeld, ParentsWereBorn, IsFresh, SameDocument, is_limit};
ghost use Rattle.flow_work.specs.Results.{KeepsMeaning};
ghost use Rattle.flow_work.specs.Runs.{is_good_step};
ghost use Rattle.flow_crew.specs.Bodies.{AnswersOnce};
ghost use Rattle.flow_crew.specs.Crew.{IsCaller, IsWorker};
ghost use Rattle.flow_run.specs.Following.{FollowsOwn, IsNew};
ghost use Rattle.flow_run.specs.Refusals.{IsRefusedWithin};
ghost use Rattle.flow_run.specs.Runs.{IsRunOf, SawTheEnd};

use crate::births::tell_few;
use crate::follow::follow;
use flow_book::GraphMachine;
use flow_crew::{Bodies, Caller, Gate, Graph, Parts, Waited, Worker};
use flow_doc::{Doc, Kept};
use flow_item::{Event, Journal, NoMemory, Stop};
use flow_line::{Naming, Opened};
use flow_nodes::Nodes;
use std::alloc::Global;
use std::marker::Brand;
use std::sync::Wait;
use std::thread;
use std::thread::Threads;

// What those who take part in a run share.
#[derive(Drop)]
struct Site<'a, R: Wait, S: Bodies, G: Gate, B: Naming> {
    alloc: Global,
    rt: &'a R,
    doc: &'a Doc,
    graph: &'a Graph<'a, S, G, B>,
}

// All callers follow their scripts, each in a thread of its own where one can be made.
fn follow_all<B: Naming + Send + Sync, R: Threads + Wait + Sync, S: Bodies, G: Gate>(
    site: &Site<R, S, G, B>,
    callers: &mut [Caller<B>],
)
    requires scripts { (site.now.graph.now.book.run.callers ≡ length site.now.doc.now.scripts) × (list_all (list_all (is_good_step site.now.graph.now.book.run.shape)) site.now.doc.now.scripts ≡ true) }
    requires ready { All (λ c. IsCaller (S.meanings site.now.graph.now.bench.bodies.now) site.now.graph.now.book.run site.now.graph.now.book.items site.now.graph.now.book.events c.chair × IsWorker (S.meanings site.now.graph.now.bench.bodies.now) site.now.graph.now.book.run site.now.graph.now.book.items site.now.graph.now.book.events c.worker.chair c.worker.busy × IsPostOf site.now.graph.now.pool c.worker.post × (may_call site.now.graph.now.book.run c.chair ≡ true) × IsNew c.chair) callers.old }
    ensures followed { All (λ c. IsCaller (S.meanings site.now.graph.now.bench.bodies.now) site.now.graph.now.book.run site.now.graph.now.book.items site.now.graph.now.book.events c.chair × IsWorker (S.meanings site.now.graph.now.bench.bodies.now) site.now.graph.now.book.run site.now.graph.now.book.items site.now.graph.now.book.events c.worker.chair c.worker.busy × FollowsOwn site.now.graph.now.book.run.shape site.now.doc.now.scripts c.chair) callers.new }
    ensures parties { map (λ c. c.chair.party) callers.new ≡ map (λ c. c.chair.party) callers.old }
    ensures waiters { map (λ c. c.worker.chair.party) callers.new ≡ map (λ c. c.worker.chair.party) callers.old }
{
    thread::for_each_mut(
        site.rt,
        callers,
        64,
        &|_, caller: &mut Caller<B>|
            requires ready { IsCaller (S.meanings site.now.graph.now.bench.bodies.now) site.now.graph.now.book.run site.now.graph.now.book.items site.now.graph.now.book.events caller.old.chair × IsWorker (S.meanings site.now.graph.now.bench.bodies.now) site.now.graph.now.book.run site.now.graph.now.book.items site.now.graph.now.book.events caller.old.worker.chair caller.old.worker.busy × IsPostOf site.now.graph.now.pool caller.old.worker.post × (may_call site.now.graph.now.book.run caller.old.chair ≡ true) × IsNew caller.old.chair }
            requires scripts { (site.now.graph.now.book.run.callers ≡ length site.now.doc.now.scripts) × (list_all (list_all (is_good_step site.now.graph.now.book.run.shape)) site.now.doc.now.scripts ≡ true) }
            ensures followed { IsCaller (S.meanings site.entry.now.graph.now.bench.bodies.now) site.entry.now.graph.now.book.run site.entry.now.graph.now.book.items site.entry.now.graph.now.book.events caller.new.chair × IsWorker (S.meanings site.entry.now.graph.now.bench.bodies.now) site.entry.now.graph.now.book.run site.entry.now.graph.now.book.items site.entry.now.graph.now.book.events caller.new.worker.chair caller.new.worker.busy × FollowsOwn site.entry.now.graph.now.book.run.shape site.entry.now.doc.now.scripts caller.new.chair }
            ensures party { (caller.new.chair.party ≡ caller.old.chair.party) × (caller.new.worker.chair.party ≡ caller.old.worker.chair.party) }
        { follow(site.rt, site.alloc, site.graph, caller, site.doc) },
    );
}

// A worker works until all have left and nothing is open, or something is refused.
fn work<B: Naming, R: Wait, S: Bodies, G: Gate>(
    rt: &R,
    alloc: Global,
    graph: &Graph<S, G, B>,
    worker: &mut Worker<B>,
)
    requires of { IsWorker (S.meanings graph.now.bench.bodies.now) graph.now.book.run graph.now.book.items graph.now.book.events worker.old.chair worker.old.busy }
    requires post { IsPostOf graph.now.pool worker.old.post }
    ensures of { IsWorker (S.meanings graph.now.bench.bodies.now) graph.now.book.run graph.now.book.items graph.now.book.events worker.new.chair worker.new.busy }
    ensures post { IsPostOf graph.now.pool worker.new.post }
    ensures party { worker.new.chair.party ≡ worker.old.chair.party }
{
    let _ = worker.run(rt, alloc, graph);
}

// All workers work, each in a thread of its own where one can be made.
fn work_all<B: Naming + Send + Sync, R: Threads + Wait + Sync, S: Bodies, G: Gate>(
    site: &Site<R, S, G, B>,
    workers: &mut [Worker<B>],
)
    requires { All (λ w. IsWorker (S.meanings site.now.graph.now.bench.bodies.now) site.now.graph.now.book.run site.now.graph.now.book.items site.now.graph.now.book.events w.chair w.busy × IsPostOf site.now.graph.now.pool w.post) workers.old }
    ensures worked { All (λ w. IsWorker (S.meanings site.now.graph.now.bench.bodies.now) site.now.graph.now.book.run site.now.graph.now.book.items site.now.graph.now.book.events w.chair w.busy × IsPostOf site.now.graph.now.pool w.post) workers.new }
    ensures parties { map (λ w. w.chair.party) workers.new ≡ map (λ w. w.chair.party) workers.old }
{
    thread::for_each_mut(
        site.rt,
        workers,
        64,
        &|_, worker: &mut Worker<B>|
            requires { IsWorker (S.meanings site.now.graph.now.bench.bodies.now) site.now.graph.now.book.run site.now.graph.now.book.items site.now.graph.now.book.events worker.old.chair worker.old.busy × IsPostOf site.now.graph.now.pool worker.old.post }
            ensures worked { IsWorker (S.meanings site.entry.now.graph.now.bench.bodies.now) site.entry.now.graph.now.book.run site.entry.now.graph.now.book.items site.entry.now.graph.now.book.events worker.new.chair worker.new.busy × IsPostOf site.entry.now.graph.now.pool worker.new.post }
            ensures party { worker.new.chair.party ≡ worker.old.chair.party }
        { work(site.rt, site.alloc, site.graph, worker) },
    );
}

// All callers and workers together. Where no thread can be made, callers come first, who need no worker.
fn join_parts<B: Naming + Send + Sync, R: Threads + Wait + Sync, S: Bodies, G: Gate>(
    site: &Site<R, S, G, B>,
    callers: &mut [Caller<B>],
    workers: &mut [Worker<B>],
)
    requires scripts { (site.now.graph.now.book.run.callers ≡ length site.now.doc.now.scripts) × (list_all (list_all (is_good_step site.now.graph.now.book.run.shape)) site.now.doc.now.scripts ≡ true) }
    requires ready { All (λ c. IsCaller (S.meanings site.now.graph.now.bench.bodies.now) site.now.graph.now.book.run site.now.graph.now.book.items site.now.graph.now.book.events c.chair × IsWorker (S.meanings site.now.graph.now.bench.bodies.now) site.now.graph.now.book.run site.now.graph.now.book.items site.now.graph.now.book.events c.worker.chair c.worker.busy × IsPostOf site.now.graph.now.pool c.worker.post × (may_call site.now.graph.now.book.run c.chair ≡ true) × IsNew c.chair) callers.old }
    requires hired { All (λ w. IsWorker (S.meanings site.now.graph.now.bench.bodies.now) site.now.graph.now.book.run site.now.graph.now.book.items site.now.graph.now.book.events w.chair w.busy × IsPostOf site.now.graph.now.pool w.post) workers.old }
    ensures followed { All (λ c. IsCaller (S.meanings site.now.graph.now.bench.bodies.now) site.now.graph.now.book.run site.now.graph.now.book.items site.now.graph.now.book.events c.chair × IsWorker (S.meanings site.now.graph.now.bench.bodies.now) site.now.graph.now.book.run site.now.graph.now.book.items site.now.graph.now.book.events c.worker.chair c.worker.busy × FollowsOwn site.now.graph.now.book.run.shape site.now.doc.now.scripts c.chair) callers.new }
    ensures parties { map (λ c. c.chair.party) callers.new ≡ map (λ c. c.chair.party) callers.old }
    ensures waiters { map (λ c. c.worker.chair.party) callers.new ≡ map (λ c. c.worker.chair.party) callers.old }
    ensures worked { All (λ w. IsWorker (S.meanings site.now.graph.now.bench.bodies.now) site.now.graph.now.book.run site.now.graph.now.book.items site.now.graph.now.book.events w.chair w.busy × IsPostOf site.now.graph.now.pool w.post) workers.new }
    ensures worker_parties { map (λ w. w.chair.party) workers.new ≡ map (λ w. w.chair.party) workers.old }
{
    let mut follow = ||
        requires { IsSync R.row × (site.now.graph.now.book.run.callers ≡ length site.now.doc.now.scripts) × (list_all (list_all (is_good_step site.now.graph.now.book.run.shape)) site.now.doc.now.scripts ≡ true) × All (λ c. IsCaller (S.meanings site.now.graph.now.bench.bodies.now) site.now.graph.now.book.run site.now.graph.now.book.items site.now.graph.now.book.events c.chair × IsWorker (S.meanings site.now.graph.now.bench.bodies.now) site.now.graph.now.book.run site.now.graph.now.book.items site.now.graph.now.book.events c.worker.chair c.worker.busy × IsPostOf site.now.graph.now.pool c.worker.post × (may_call site.now.graph.now.book.run c.chair ≡ true) × IsNew c.chair) callers.now }
        ensures followed { All (λ c. IsCaller (S.meanings site.entry.now.graph.now.bench.bodies.now) site.entry.now.graph.now.book.run site.entry.now.graph.now.book.items site.entry.now.graph.now.book.events c.chair × IsWorker (S.meanings site.entry.now.graph.now.bench.bodies.now) site.entry.now.graph.now.book.run site.entry.now.graph.now.book.items site.entry.now.graph.now.book.events c.worker.chair c.worker.busy × FollowsOwn site.entry.now.graph.now.book.run.shape site.entry.now.doc.now.scripts c.chair) callers.exit.now }
        ensures parties { map (λ c. c.chair.party) callers.exit.now ≡ map (λ c. c.chair.party) callers.entry.now }
        ensures waiters { map (λ c. c.worker.chair.party) callers.exit.now ≡ map (λ c. c.worker.chair.party) callers.entry.now }
    { follow_all(site, callers) };
    let mut work = ||
        requires { IsSync R.row × All (λ w. IsWorker (S.meanings site.now.graph.now.bench.bodies.now) site.now.graph.now.book.run site.now.graph.now.book.items site.now.graph.now.book.events w.chair w.busy × IsPostOf site.now.graph.now.pool w.post) workers.now }
        ensures worked { All (λ w. IsWorker (S.meanings site.entry.now.graph.now.bench.bodies.now) site.entry.now.graph.now.book.run site.entry.now.graph.now.book.items site.entry.now.graph.now.book.events w.chair w.busy × IsPostOf site.entry.now.graph.now.pool w.post) workers.exit.now }
        ensures parties { map (λ w. w.chair.party) workers.exit.now ≡ map (λ w. w.chair.party) workers.entry.now }
    { work_all(site, workers) };
    thread::join_mut(site.rt, &mut work, &mut follow);
}

// The same, of what is shared.
fn run_parts<B: Naming + Send + Sync, R: Threads + Wait + Sync, S: Bodies, G: Gate>(
    rt: &R,
    alloc: Global,
    doc: &Doc,
    graph: &Graph<S, G, B>,
    callers: &mut [Caller<B>],
    workers: &mut [Worker<B>],
)
    requires scripts { (graph.now.book.run.callers ≡ length doc.now.scripts) × (list_all (list_all (is_good_step graph.now.book.run.shape)) doc.now.scripts ≡ true) }
    requires ready { All (λ c. IsCaller (S.meanings graph.now.bench.bodies.now) graph.now.book.run graph.now.book.items graph.now.book.events c.chair × IsWorker (S.meanings graph.now.bench.bodies.now) graph.now.book.run graph.now.book.items graph.now.book.events c.worker.chair c.worker.busy × IsPostOf graph.now.pool c.worker.post × (may_call graph.now.book.run c.chair ≡ true) × IsNew c.chair) callers.old }
    requires hired { All (λ w. IsWorker (S.meanings graph.now.bench.bodies.now) graph.now.book.run graph.now.book.items graph.now.book.events w.chair w.busy × IsPostOf graph.now.pool w.post) workers.old }
    ensures followed { All (λ c. IsCaller (S.meanings graph.now.bench.bodies.now) graph.now.book.run graph.now.book.items graph.now.book.events c.chair × IsWorker (S.meanings graph.now.bench.bodies.now) graph.now.book.run graph.now.book.items graph.now.book.events c.worker.chair c.worker.busy × FollowsOwn graph.now.book.run.shape doc.now.scripts c.chair) callers.new }
    ensures parties { map (λ c. c.chair.party) callers.new ≡ map (λ c. c.chair.party) callers.old }
    ensures waiters { map (λ c. c.worker.chair.party) callers.new ≡ map (λ c. c.worker.chair.party) callers.old }
    ensures worked { All (λ w. IsWorker (S.meanings graph.now.bench.bodies.now) graph.now.book.run graph.now.book.items graph.now.book.events w.chair w.busy × IsPostOf graph.now.pool w.post) workers.new }
    ensures worker_parties { map (λ w. w.chair.party) workers.new ≡ map (λ w. w.chair.party) workers.old }
{
    let site = Site {
        rt,
        alloc,
        doc,
        graph,
    };
    join_parts(&site, callers, workers);
}

// Whether a worker's look found that its work is done.
fn is_quiet(ended: &Option<Waited>) -> bool
    ensures { result ≡ true → ended.now ≡ Some Waited.Quiet }
{
    matches!(ended, Some(Waited::Quiet))
}

// Whether all have left and nothing is open, and nothing was refused. A worker looks once more, when nobody else is at work
// any more: what each answered in its thread can't be brought back without memory.
fn is_done<B: Naming, R: Wait, S: Bodies, G: Gate>(
    rt: &R,
    graph: &Graph<S, G, B>,
    workers: &mut Vec<Worker<B>>,
) -> bool
    requires some { 0 < length workers.old.items }
    requires hired { All (λ w. IsWorker (S.meanings graph.now.bench.bodies.now) graph.now.book.run graph.now.book.items graph.now.book.events w.chair w.busy × IsPostOf graph.now.pool w.post) workers.old.items }
    ensures worked { All (λ w. IsWorker (S.meanings graph.now.bench.bodies.now) graph.now.book.run graph.now.book.items graph.now.book.events w.chair w.busy × IsPostOf graph.now.pool w.post) workers.new.items }
    ensures parties { map (λ w. w.chair.party) workers.new.items ≡ map (λ w. w.chair.party) workers.old.items }
    ensures done { result ≡ true → SawTheEnd graph.now.book.run (map (λ w. w.chair) workers.new.items) }
{
    match workers.pop() {
        Some(mut worker) => {
            let ended = worker.ended(rt, graph);
            workers.push_reserved(worker);
            is_quiet(&ended)
        }
        None => unreachable!(),
    }
}

// What a run leaves.
#[derive(Drop)]
struct Ran {
    journal: Journal,
    refused: Option<Event>,
    // Whether all did their share, and nothing was refused.
    done: bool,
    // The nodes after the journal, where there was memory for them.
    nodes: Option<Nodes>,
}

// Runs a graph to its end and closes it.
fn run_to_end<B: Naming + Send + Sync, R: Threads + Wait + Sync, S: Bodies, G: Gate>(
    rt: &R,
    alloc: Global,
    doc: &Doc,
    parts: Parts<S, G, B>,
) -> Ran
    requires valid { IsValid parts.graph.book.run.shape }
    requires small { parts.graph.book.items < 2 ^ 62 }
    requires scripts { (parts.graph.book.run.callers ≡ length doc.now.scripts) × (list_all (list_all (is_good_step parts.graph.book.run.shape)) doc.now.scripts ≡ true) }
    requires some { 0 < length parts.workers.items }
    requires callers { map (λ c. c.chair.party) parts.callers.items ≡ callers_of parts.graph.book.run }
    requires workers { map (λ w. w.chair.party) parts.workers.items ++ map (λ c. c.worker.chair.party) parts.callers.items ≡ workers_of parts.graph.book.run }
    requires ready { All (λ c. IsCaller (S.meanings parts.graph.bench.bodies.now) parts.graph.book.run parts.graph.book.items parts.graph.book.events c.chair × IsWorker (S.meanings parts.graph.bench.bodies.now) parts.graph.book.run parts.graph.book.items parts.graph.book.events c.worker.chair c.worker.busy × IsPostOf parts.graph.pool c.worker.post × (may_call parts.graph.book.run c.chair ≡ true) × IsNew c.chair) parts.callers.items }
    requires hired { All (λ w. IsWorker (S.meanings parts.graph.bench.bodies.now) parts.graph.book.run parts.graph.book.items parts.graph.book.events w.chair w.busy × IsPostOf parts.graph.pool w.post) parts.workers.items }
    requires empty { (parts.seats.callers.items ≡ []) × (parts.seats.workers.items ≡ []) }
    requires room { (length parts.callers.items ≤ parts.seats.callers.spare) × (length parts.workers.items + length parts.callers.items ≤ parts.seats.workers.spare) }
    ensures run { IsRunOf (S.meanings parts.entry.graph.bench.bodies.now) parts.entry.graph.book.run.shape doc.now.scripts parts.entry.graph.book.run.workers parts.entry.graph.book.items parts.entry.graph.book.events result.journal result.refused result.done }
    ensures nodes { IfSome
        result.nodes
        (AreNodesAfter parts.entry.graph.book.run.shape result.journal) }
{
    let Parts {
        graph,
        mut callers,
        mut workers,
        seats,
    } = parts;
    run_parts(
        rt,
        alloc,
        doc,
        &graph,
        callers.as_mut_slice(),
        workers.as_mut_slice(),
    );
    let done = is_done(rt, &graph, &mut workers);
    let parts = Parts {
        graph,
        callers,
        workers,
        seats,
    };
    let (journal, refused, nodes) = parts.close_with_nodes(alloc);
    Ran {
        journal,
        refused,
        done,
        nodes,
    }
}

// Runs a document under a name of its own.
fn run_named<B: Naming + Send + Sync, R: Threads + Wait + Sync, S: Bodies, G: Gate>(
    rt: &R,
    alloc: Global,
    doc: &Doc,
    bodies: &S,
    gate: &G,
    workers: u32,
    items: u64,
    events: u64,
    opened: Opened<GraphMachine>,
) -> Result<Ran, NoMemory>
    requires name { opened ≡ B.table }
    requires fits { doc_fits (S.count bodies.now) doc.now ≡ true }
    requires built { list_all is_built doc.now.shape.nodes ≡ true }
    requires version { doc.now.version < 3 }
    requires workers { (0 < workers) × (workers ≤ 64) }
    requires limits { (items < 2 ^ 62) × (events < 2 ^ 62) }
    ensures run { IfOk result (λ r. IsRunOf (S.meanings bodies.now) doc.now.shape doc.now.scripts (workers + length doc.now.scripts) items events r.journal r.refused r.done) }
    ensures nodes { IfOk
        result
        (λ r. IfSome r.nodes (AreNodesAfter doc.now.shape r.journal)) }
{
    let parts = Graph::<S, G, B>::new(alloc, doc, bodies, gate, workers, items, events, opened)?;
    let ran = run_to_end(rt, alloc, doc, parts);
    Ok(ran)
}

// What the run answers.
fn answer_of(refused: &Option<Event>, done: bool) -> Result<(), Stop>
    ensures limit { is_some refused.now ≡ is_limit result }
    ensures done { OnOk result ((refused.now ≡ None) × (done ≡ true)) }
{
    match refused {
        Some(_) => Err(Stop::Limit),
        None => { if done { Ok(()) } else { Err(Stop::Memory) } }
    }
}

// Runs a document, and keeps the journal and the event that was refused. The nodes are handed on.
fn run_kept<R: Threads + Wait + Sync, S: Bodies, G: Gate>(
    rt: &R,
    alloc: Global,
    doc: &Doc,
    bodies: &S,
    gate: &G,
    workers: u32,
    items: u64,
    events: u64,
    kept: &mut Kept,
) -> (Result<(), Stop>, Option<Nodes>)
    requires fits { doc_fits (S.count bodies.now) doc.now ≡ true }
    requires built { list_all is_built doc.now.shape.nodes ≡ true }
    requires version { doc.now.version < 3 }
    requires workers { (0 < workers) × (workers ≤ 64) }
    requires limits { (items < 2 ^ 62) × (events < 2 ^ 62) }
    requires fresh { IsFresh kept.old }
    ensures document { SameDocument kept.old kept.new }
    ensures run { IsRunOf (S.meanings bodies.now) doc.now.shape doc.now.scripts (workers + length doc.now.scripts) items events kept.new.journal kept.new.refused (is_ok result.0) }
    ensures births { births kept.new.journal ≤ 2 ^ 63 }
    ensures limit { is_some kept.new.refused ≡ is_limit result.0 }
    ensures nodes { IfSome result.1 (AreNodesAfter doc.now.shape kept.new.journal) }
{
    let Ok(opened) = Opened::<GraphMachine>::new(alloc) else {
        return (Err(Stop::Memory), None);
    };
    match run_named::<Brand, R, S, G>(
        rt, alloc, doc, bodies, gate, workers, items, events, opened,
    ) {
        Ok(ran) => {
            let Ran {
                journal,
                refused,
                done,
                nodes,
            } = ran;
            tell_few(&journal, items, events);
            kept.journal = journal;
            kept.refused = refused;
            (answer_of(&kept.refused, done), nodes)
        }
        Err(_) => (Err(Stop::Memory), None),
    }
}

/// As `run_all`, and hands on the nodes as the run leaves them, so that what they keep is read without a replay. Only for
/// want of memory there are none.
pub fn run_all_with_nodes<R: Threads + Wait + Sync, S: Bodies, G: Gate>(
    rt: &R,
    alloc: Global,
    doc: &Doc,
    bodies: &S,
    gate: &G,
    workers: u32,
    items: u64,
    events: u64,
    kept: &mut Kept,
) -> (Result<(), Stop>, Option<Nodes>)
    requires fits { doc_fits (S.count bodies.now) doc.now ≡ true }
    requires built { list_all is_built doc.now.shape.nodes ≡ true }
    requires version { doc.now.version < 3 }
    requires workers { (0 < workers) × (workers ≤ 64) }
    requires limits { (items < 2 ^ 62) × (events < 2 ^ 62) }
    requires fresh { IsFresh kept.old }
    ensures document { SameDocument kept.old kept.new }
    ensures legal_run { is_run doc.now.shape (length doc.now.scripts) (workers + length doc.now.scripts) kept.new.journal ≡ true }
    ensures scripts { FollowsScripts doc.now.shape doc.now.scripts kept.new.journal }
    ensures complete { OnOk
        result.0
        (CompletesScripts doc.now.shape doc.now.scripts kept.new.journal) }
    ensures waits { HeedsWaits doc.now.shape doc.now.scripts kept.new.journal }
    ensures bodies { KeepsBodies (S.meanings bodies.now) doc.now.shape kept.new.journal }
    ensures limits { IsWithinLimits items events kept.new.journal }
    ensures births { births kept.new.journal ≤ 2 ^ 63 }
    ensures edges { AtEachStart (EdgesAgree doc.now.shape) kept.new.journal }
    ensures holds { AtEachStart (HoldsAgree doc.now.shape) kept.new.journal }
    ensures node_limits { AtEachStart (NodesWithinLimits doc.now.shape) kept.new.journal }
    ensures ledger { AtEachStart (LedgerAddsUp doc.now.shape) kept.new.journal }
    ensures fates { AtEachStart (ItemsHaveOneFate doc.now.shape) kept.new.journal }
    ensures lineages { AtEachStart (ItemsHaveLineages doc.now.shape) kept.new.journal }
    ensures reservations { HoldsReserve doc.now.shape kept.new.journal }
    ensures closed { OnOk result.0 (open_after doc.now.shape kept.new.journal ≡ 0) }
    ensures at_rest { open_after doc.now.shape kept.new.journal ≡ 0
        → IsSettled doc.now.shape kept.new.journal × NothingIsHeld doc.now.shape kept.new.journal × ParentsWereBorn doc.now.shape kept.new.journal }
    ensures settled { OnOk result.0 (IsSettled doc.now.shape kept.new.journal) }
    ensures released { OnOk result.0 (NothingIsHeld doc.now.shape kept.new.journal) }
    ensures parents { OnOk result.0 (ParentsWereBorn doc.now.shape kept.new.journal) }
    ensures meaning { OnOk result.0 (KeepsMeaning (S.meanings bodies.now) doc.now kept.new.journal) }
    ensures refused { IfSome
        kept.new.refused
        (IsRefusedWithin (S.meanings bodies.now) doc.now.shape doc.now.scripts (workers + length doc.now.scripts) items events kept.new.journal) }
    ensures limit { is_some kept.new.refused ≡ is_limit result.0 }
    ensures nodes { IfSome result.1 (AreNodesAfter doc.now.shape kept.new.journal) }
{
    answer_once(bodies);
    run_kept(rt, alloc, doc, bodies, gate, workers, items, events, kept)
}

// A body that is pure and single answers one message.
fn answer_once<S: Bodies>(bodies: &S)
    ensures { AnswersOnce (S.meanings bodies.now) }
{
    let _ = bodies;
}

/// Runs a document on threads, to the end, to a limit or to want of memory: its callers follow their scripts, and so many
/// workers serve the nodes. A caller that waits serves too, as a worker of its own. Each has a thread where one can be made. After want of
/// memory the journal so far is kept, and all that is said of it holds.
pub fn run_all<R: Threads + Wait + Sync, S: Bodies, G: Gate>(
    rt: &R,
    alloc: Global,
    doc: &Doc,
    bodies: &S,
    gate: &G,
    workers: u32,
    items: u64,
    events: u64,
    kept: &mut Kept,
) -> Result<(), Stop>
    requires fits { doc_fits (S.count bodies.now) doc.now ≡ true }
    requires built { list_all is_built doc.now.shape.nodes ≡ true }
    requires version { doc.now.version < 3 }
    requires workers { (0 < workers) × (workers ≤ 64) }
    requires limits { (items < 2 ^ 62) × (events < 2 ^ 62) }
    requires fresh { IsFresh kept.old }
    ensures document { SameDocument kept.old kept.new }
    ensures legal_run { is_run doc.now.shape (length doc.now.scripts) (workers + length doc.now.scripts) kept.new.journal ≡ true }
    ensures scripts { FollowsScripts doc.now.shape doc.now.scripts kept.new.journal }
    ensures complete { OnOk
        result
        (CompletesScripts doc.now.shape doc.now.scripts kept.new.journal) }
    ensures waits { HeedsWaits doc.now.shape doc.now.scripts kept.new.journal }
    ensures bodies { KeepsBodies (S.meanings bodies.now) doc.now.shape kept.new.journal }
    ensures limits { IsWithinLimits items events kept.new.journal }
    ensures births { births kept.new.journal ≤ 2 ^ 63 }
    ensures edges { AtEachStart (EdgesAgree doc.now.shape) kept.new.journal }
    ensures holds { AtEachStart (HoldsAgree doc.now.shape) kept.new.journal }
    ensures node_limits { AtEachStart (NodesWithinLimits doc.now.shape) kept.new.journal }
    ensures ledger { AtEachStart (LedgerAddsUp doc.now.shape) kept.new.journal }
    ensures fates { AtEachStart (ItemsHaveOneFate doc.now.shape) kept.new.journal }
    ensures lineages { AtEachStart (ItemsHaveLineages doc.now.shape) kept.new.journal }
    ensures reservations { HoldsReserve doc.now.shape kept.new.journal }
    ensures closed { OnOk result (open_after doc.now.shape kept.new.journal ≡ 0) }
    ensures at_rest { open_after doc.now.shape kept.new.journal ≡ 0
        → IsSettled doc.now.shape kept.new.journal × NothingIsHeld doc.now.shape kept.new.journal × ParentsWereBorn doc.now.shape kept.new.journal }
    ensures settled { OnOk result (IsSettled doc.now.shape kept.new.journal) }
    ensures released { OnOk result (NothingIsHeld doc.now.shape kept.new.journal) }
    ensures parents { OnOk result (ParentsWereBorn doc.now.shape kept.new.journal) }
    ensures meaning { OnOk result (KeepsMeaning (S.meanings bodies.now) doc.now kept.new.journal) }
    ensures refused { IfSome
        kept.new.refused
        (IsRefusedWithin (S.meanings bodies.now) doc.now.shape doc.now.scripts (workers + length doc.now.scripts) items events kept.new.journal) }
    ensures limit { is_some kept.new.refused ≡ is_limit result }
{
    let (ended, _nodes) = run_all_with_nodes(
        rt, alloc, doc, bodies, gate, workers, items, events, kept,
    );
    ended
}

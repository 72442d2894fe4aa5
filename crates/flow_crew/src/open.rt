//! A graph at its start.
ghost use Rattle.std.specs.Prelude.{◌≡◌, ◌≢◌, ◌+◌, ◌<◌, ◌≤◌, ◌^◌, ◌++◌, [], ◌∷◌, true, false, length, map, OnOk, IfOk, All};
ghost use Rattle.std.specs.List.{list_all};
ghost use Rattle.flow_doc.specs.Fits.{doc_fits};
ghost use Rattle.flow_node.specs.Built.{is_built};
ghost use Rattle.flow_pool.specs.Posts.{IsPostOf};
ghost use Rattle.flow_book.specs.Callers.{may_call};
ghost use Rattle.flow_book.specs.Opening.{callers_of, workers_of, fresh_chairs};
ghost use Rattle.flow_crew.specs.Crew.{IsCaller, IsWorker};

use crate::bell::Bell;
use crate::bodies::{Bench, Bodies};
use crate::caller::Caller;
use crate::graph::Graph;
use crate::mark::Mark;
use crate::parts::{Parts, turn};
use crate::worker::Worker;
use flow_book::{Book, Gate, GraphMachine};
use flow_doc::Doc;
use flow_item::NoMemory;
use flow_line::{Chair, Chairs, Naming, Opened};
use flow_pool::{Pool, Post};
use std::alloc::Global;

// The last chair.
fn last_chair<B: Naming>(chairs: &mut Chairs<GraphMachine, B>) -> Chair<GraphMachine, B>
    requires { chairs.old.items ≢ [] }
    ensures chair { chairs.old.items ≡ chairs.new.items ++ result ∷ [] }
    ensures spare { chairs.new.spare ≡ chairs.old.spare + 1 }
{
    match chairs.pop() {
        Some(chair) => chair,
        None => unreachable!(),
    }
}

// The last post.
fn last_post(pool: &Pool, posts: &mut Vec<Post>) -> Post
    requires some { 0 < length posts.old.items }
    requires all { All (IsPostOf pool.now) posts.old.items }
    ensures fewer { length posts.old.items ≡ length posts.new.items + 1 }
    ensures post { IsPostOf pool.now result }
    ensures all { All (IsPostOf pool.now) posts.new.items }
{
    match posts.pop() {
        Some(post) => post,
        None => unreachable!(),
    }
}

// A worker that did nothing so far.
fn last_worker<B: Naming>(
    pool: &Pool,
    chairs: &mut Chairs<GraphMachine, B>,
    posts: &mut Vec<Post>,
    waits: bool,
) -> Worker<B>
    requires chairs { chairs.old.items ≢ [] }
    requires some { 0 < length posts.old.items }
    requires all { All (IsPostOf pool.now) posts.old.items }
    ensures chair { chairs.old.items ≡ chairs.new.items ++ result.chair ∷ [] }
    ensures spare { chairs.new.spare ≡ chairs.old.spare + 1 }
    ensures fewer { length posts.old.items ≡ length posts.new.items + 1 }
    ensures post { IsPostOf pool.now result.post }
    ensures idle { result.busy ≡ false }
    ensures all { All (IsPostOf pool.now) posts.new.items }
{
    Worker {
        chair: last_chair(chairs),
        post: last_post(pool, posts),
        busy: false,
        hunts: false,
        heard: u64::MAX,
        waits,
    }
}

// So many callers, each with the chair of a worker.
fn hire_callers<B: Naming>(
    alloc: Global,
    pool: &Pool,
    chairs: &mut Chairs<GraphMachine, B>,
    workers: &mut Chairs<GraphMachine, B>,
    posts: &mut Vec<Post>,
    count: u32,
) -> Result<Vec<Caller<B>>, NoMemory>
    requires chairs { count ≤ length chairs.old.items }
    requires workers { count ≤ length workers.old.items }
    requires some { count ≤ length posts.old.items }
    requires all { All (IsPostOf pool.now) posts.old.items }
    ensures chairs { IfOk result (λ v. chairs.old.items ≡ chairs.new.items ++ map (λ c. c.chair) v.items) }
    ensures workers { IfOk result (λ v. workers.old.items ≡ workers.new.items ++ map (λ c. c.worker.chair) v.items) }
    ensures spare { OnOk result ((chairs.new.spare ≡ chairs.old.spare + count) × (workers.new.spare ≡ workers.old.spare + count)) }
    ensures count { IfOk result (λ v. length v.items ≡ count) }
    ensures fewer { OnOk result (length posts.old.items ≡ length posts.new.items + count) }
    ensures new { IfOk result (λ v. All (λ c. IsPostOf pool.now c.worker.post × (c.worker.busy ≡ false)) v.items) }
    ensures all { OnOk result (All (IsPostOf pool.now) posts.new.items) }
{
    let mut callers = Vec::new(alloc);
    'hire: while callers.len() < count as usize {
        let chair = last_chair(chairs);
        let worker = last_worker(pool, workers, posts, true);
        callers.push(Caller { chair, worker })?;
    }
    turn(&mut callers);
    Ok(callers)
}

// So many workers.
fn hire_workers<B: Naming>(
    alloc: Global,
    pool: &Pool,
    chairs: &mut Chairs<GraphMachine, B>,
    posts: &mut Vec<Post>,
    count: u32,
) -> Result<Vec<Worker<B>>, NoMemory>
    requires chairs { count ≤ length chairs.old.items }
    requires some { count ≤ length posts.old.items }
    requires all { All (IsPostOf pool.now) posts.old.items }
    ensures chairs { IfOk result (λ v. chairs.old.items ≡ chairs.new.items ++ map (λ w. w.chair) v.items) }
    ensures spare { OnOk result (chairs.new.spare ≡ chairs.old.spare + count) }
    ensures count { IfOk result (λ v. length v.items ≡ count) }
    ensures new { IfOk result (λ v. All (λ w. IsPostOf pool.now w.post × (w.busy ≡ false)) v.items) }
{
    let mut workers = Vec::new(alloc);
    'hire: while workers.len() < count as usize {
        workers.push(last_worker(pool, chairs, posts, false))?;
    }
    turn(&mut workers);
    Ok(workers)
}

// A mark for each of so many nodes.
fn fresh_marks(alloc: Global, nodes: u32) -> Result<Vec<Mark>, NoMemory>
    ensures { IfOk result (λ v. length v.items ≡ nodes) }
{
    let mut marks = Vec::with_capacity(alloc, nodes as usize)?;
    for _ in 0..nodes {
        marks.push(Mark::new())?;
    }
    Ok(marks)
}

impl<'a, S: Bodies, G: Gate, B: Naming> Graph<'a, S, G, B> {
    /// A document's graph at its start, with a caller for each script and so many workers. Each caller is a worker too
    /// while it waits, with a number above those of the workers. The steps of the scripts are left to those who call.
    /// Want of memory is the one error. It costs time by the size of the graph and by the number of callers and
    /// workers.
    pub fn new(
        alloc: Global,
        doc: &'a Doc,
        bodies: &'a S,
        gate: &'a G,
        workers: u32,
        items: u64,
        events: u64,
        opened: Opened<GraphMachine>,
    ) -> Result<Parts<'a, S, G, B>, NoMemory>
        requires name { opened ≡ B.table }
        requires fits { doc_fits (S.count bodies.now) doc.now ≡ true }
        requires built { list_all is_built doc.now.shape.nodes ≡ true }
        requires some { 0 < workers }
        requires few { workers + length doc.now.scripts + 1 < 2 ^ 32 }
        requires limits { (items < 2 ^ 62) × (events < 2 ^ 62) }
        ensures run { IfOk result (λ r. r.graph.book.run ≡ record { shape = doc.now.shape; callers = length doc.now.scripts; workers = workers + length doc.now.scripts }) }
        ensures bodies { IfOk result (λ r. S.meanings r.graph.bench.bodies.now ≡ S.meanings bodies.now) }
        ensures limits { IfOk result (λ r. (r.graph.book.items ≡ items) × (r.graph.book.events ≡ events)) }
        ensures callers { IfOk result (λ r. map (λ c. c.chair) r.callers.items ≡ fresh_chairs r.graph.book.run items events (callers_of r.graph.book.run)) }
        ensures workers { IfOk result (λ r. map (λ w. w.chair) r.workers.items ++ map (λ c. c.worker.chair) r.callers.items ≡ fresh_chairs r.graph.book.run items events (workers_of r.graph.book.run)) }
        ensures counts { IfOk result (λ r. (length r.callers.items ≡ length doc.now.scripts) × (length r.workers.items ≡ workers)) }
        ensures ready { IfOk result (λ r. All (λ c. IsCaller (S.meanings r.graph.bench.bodies.now) r.graph.book.run items events c.chair × (may_call r.graph.book.run c.chair ≡ true)) r.callers.items) }
        ensures waiters { IfOk result (λ r. All (λ c. IsWorker (S.meanings r.graph.bench.bodies.now) r.graph.book.run items events c.worker.chair c.worker.busy × IsPostOf r.graph.pool c.worker.post) r.callers.items) }
        ensures hired { IfOk result (λ r. All (λ w. IsWorker (S.meanings r.graph.bench.bodies.now) r.graph.book.run items events w.chair w.busy × IsPostOf r.graph.pool w.post) r.workers.items) }
        ensures empty { IfOk result (λ r. (r.seats.callers.items ≡ []) × (r.seats.workers.items ≡ [])) }
        ensures room { IfOk result (λ r. (length r.callers.items ≤ r.seats.callers.spare) × (length r.workers.items + length r.callers.items ≤ r.seats.workers.spare)) }
    {
        let shape = doc.shape.copy(alloc)?;
        let nodes = doc.shape.nodes.len() as u32;
        let count = doc.scripts.len() as u32;
        let (book, mut seats) = Book::new(
            alloc,
            shape,
            count,
            workers + count,
            items,
            events,
            opened,
        )?;
        let (pool, mut posts) = Pool::new(alloc, workers + count, nodes)?;
        let marks = fresh_marks(alloc, nodes)?;
        let callers = hire_callers(
            alloc,
            &pool,
            &mut seats.callers,
            &mut seats.workers,
            &mut posts,
            count,
        )?;
        let workers = hire_workers(alloc, &pool, &mut seats.workers, &mut posts, workers)?;
        let graph = Graph {
            doc,
            book,
            pool,
            bench: Bench::of(bodies),
            gate,
            bell: Bell::new(),
            marks,
            callers: count,
        };
        Ok(Parts {
            graph,
            callers,
            workers,
            seats,
        })
    }
}

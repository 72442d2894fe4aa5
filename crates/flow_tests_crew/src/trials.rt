//! Graphs that are tried: their documents, a caller, a worker, and what they do.
ghost use Rattle.std.specs.Prelude.{◌≡◌, ◌+◌, ◌<◌, ◌≤◌, ◌^◌, [], ◌∷◌, true, length, All};
ghost use Rattle.std.specs.List.{list_all};
ghost use Rattle.flow_doc.specs.Fits.{doc_fits};
ghost use Rattle.flow_node.specs.Built.{is_built};
ghost use Rattle.flow_book.specs.Answers.{about_of};
ghost use Rattle.flow_book.specs.Callers.{takes_puts};
ghost use Rattle.flow_tests_crew.specs.Tried.{MayCall, MayWork, is_tried};

use flow_book::{GraphMachine, Seats};
use flow_crew::{Bodies, Caller, Gate, Graph, Parts, Waited, Worker};
use flow_doc::{Doc, Names, Nodes, Scripts};
use flow_item::{Event, Items, Journal, PutAnswer, Stop, Text, Val};
use flow_line::{Naming, Opened};
use flow_shape::{Edges, Kind, Kinds, Shape};
use std::alloc::Global;
use std::process::Abort;
use std::sync::Wait;

/// A script of no steps, for one caller.
pub(crate) fn one_script(rt: &impl Abort, alloc: Global) -> Scripts
    ensures { result ≡ [] ∷ [] }
{
    Scripts::from_vec(vec![in alloc; Items::new(alloc)].ok().expect(rt, "memory"))
}

/// A script of no steps for each of four callers.
pub(crate) fn four_scripts(rt: &impl Abort, alloc: Global) -> Scripts
    ensures { result ≡ [] ∷ [] ∷ [] ∷ [] ∷ [] }
{
    let scripts = vec![in alloc;
        Items::new(alloc),
        Items::new(alloc),
        Items::new(alloc),
        Items::new(alloc),
    ];
    Scripts::from_vec(scripts.ok().expect(rt, "memory"))
}

// One name, of no letters.
fn one_name(rt: &impl Abort, alloc: Global) -> Names
    ensures { result ≡ [] ∷ [] }
{
    let name = Text::from_string(String::new(alloc));
    Names::from_vec(vec![in alloc; name].ok().expect(rt, "memory"))
}

// One node.
fn one_kind(rt: &impl Abort, alloc: Global, kind: Kind) -> Kinds
    ensures { result ≡ kind ∷ [] }
{
    Kinds::from_vec(vec![in alloc; kind].ok().expect(rt, "memory"))
}

/// A document of this node alone and these scripts.
pub(crate) fn alone(rt: &impl Abort, alloc: Global, kind: Kind, scripts: Scripts) -> Doc
    requires { is_tried kind scripts ≡ true }
    ensures fits { doc_fits 10 result ≡ true }
    ensures built { list_all is_built result.shape.nodes ≡ true }
    ensures puts { takes_puts result.shape 0 0 ≡ true }
    ensures scripts { result.scripts ≡ scripts }
{
    Doc {
        version: 1,
        names: one_name(rt, alloc),
        shape: Shape {
            nodes: one_kind(rt, alloc, kind),
            edges: Edges::new(alloc),
        },
        scripts,
        sinks: Nodes::new(alloc),
    }
}

/// A graph at its start.
pub(crate) fn opened_parts<'a, B: Naming, R: Abort, S: Bodies, G: Gate>(
    rt: &R,
    alloc: Global,
    doc: &'a Doc,
    bodies: &'a S,
    gate: &'a G,
    workers: u32,
    items: u64,
    events: u64,
    opened: Opened<GraphMachine>,
) -> Parts<'a, S, G, B>
    requires name { opened ≡ B.table }
    requires fits { doc_fits (S.count bodies.now) doc.now ≡ true }
    requires built { list_all is_built doc.now.shape.nodes ≡ true }
    requires puts { takes_puts doc.now.shape 0 0 ≡ true }
    requires workers { (0 < workers) × (workers ≤ 64) }
    requires callers { length doc.now.scripts ≤ 64 }
    requires limits { (items < 2 ^ 62) × (events < 2 ^ 62) }
    ensures ready { All (λ c. MayCall (S.meanings result.graph.bench.bodies.now) result.graph.book.run result.graph.book.items result.graph.book.events result.graph.pool c.chair c.worker.chair c.worker.busy c.worker.post) result.callers.items }
    ensures hired { All (λ w. MayWork (S.meanings result.graph.bench.bodies.now) result.graph.book.run result.graph.book.items result.graph.book.events result.graph.pool w.chair w.busy w.post) result.workers.items }
    ensures puts { takes_puts result.graph.book.run.shape 0 0 ≡ true }
    ensures counts { (length result.callers.items ≡ length doc.now.scripts) × (length result.workers.items ≡ workers) }
    ensures empty { (result.seats.callers.items ≡ []) × (result.seats.workers.items ≡ []) }
    ensures room { (length doc.now.scripts ≤ result.seats.callers.spare) × (workers + length doc.now.scripts ≤ result.seats.workers.spare) }
{
    match Graph::new(alloc, doc, bodies, gate, workers, items, events, opened) {
        Ok(parts) => parts,
        Err(_) => panic!(rt; "no memory for a graph"),
    }
}

/// A graph, its one caller, its one worker, and empty lists for their chairs.
#[derive(Drop)]
pub(crate) struct Pair<'a, S: Bodies, G: Gate, B: Naming> {
    pub(crate) graph: Graph<'a, S, G, B>,
    pub(crate) caller: Caller<B>,
    pub(crate) worker: Worker<B>,
    pub(crate) seats: Seats<B>,
}

/// A graph of one caller and one worker, at its start.
pub(crate) fn opened_pair<'a, B: Naming, R: Abort, S: Bodies, G: Gate>(
    rt: &R,
    alloc: Global,
    doc: &'a Doc,
    bodies: &'a S,
    gate: &'a G,
    items: u64,
    events: u64,
    opened: Opened<GraphMachine>,
) -> Pair<'a, S, G, B>
    requires name { opened ≡ B.table }
    requires fits { doc_fits (S.count bodies.now) doc.now ≡ true }
    requires built { list_all is_built doc.now.shape.nodes ≡ true }
    requires puts { takes_puts doc.now.shape 0 0 ≡ true }
    requires one { length doc.now.scripts ≡ 1 }
    requires limits { (items < 2 ^ 62) × (events < 2 ^ 62) }
    ensures calls { MayCall (S.meanings result.graph.bench.bodies.now) result.graph.book.run result.graph.book.items result.graph.book.events result.graph.pool result.caller.chair result.caller.worker.chair result.caller.worker.busy result.caller.worker.post }
    ensures works { MayWork (S.meanings result.graph.bench.bodies.now) result.graph.book.run result.graph.book.items result.graph.book.events result.graph.pool result.worker.chair result.worker.busy result.worker.post }
    ensures puts { takes_puts result.graph.book.run.shape 0 0 ≡ true }
    ensures empty { (result.seats.callers.items ≡ []) × (result.seats.workers.items ≡ []) }
    ensures room { (1 ≤ result.seats.callers.spare) × (2 ≤ result.seats.workers.spare) }
{
    let Parts {
        graph,
        mut callers,
        mut workers,
        seats,
    } = opened_parts(rt, alloc, doc, bodies, gate, 1, items, events, opened);
    let Some(caller) = callers.pop() else {
        panic!(rt; "no caller")
    };
    let Some(worker) = workers.pop() else {
        panic!(rt; "no worker")
    };
    Pair {
        graph,
        caller,
        worker,
        seats,
    }
}

/// A caller puts 5 to the first node.
pub(crate) fn put<B: Naming, R: Wait, S: Bodies, G: Gate>(
    rt: &R,
    alloc: Global,
    graph: &Graph<S, G, B>,
    caller: &mut Caller<B>,
    tag: u64,
) -> Result<PutAnswer, Stop>
    requires calls { MayCall (S.meanings graph.now.bench.bodies.now) graph.now.book.run graph.now.book.items graph.now.book.events graph.now.pool caller.old.chair caller.old.worker.chair caller.old.worker.busy caller.old.worker.post }
    requires puts { takes_puts graph.now.book.run.shape 0 0 ≡ true }
    ensures { MayCall (S.meanings graph.now.bench.bodies.now) graph.now.book.run graph.now.book.items graph.now.book.events graph.now.pool caller.new.chair caller.new.worker.chair caller.new.worker.busy caller.new.worker.post }
{
    let answer = caller.put(rt, alloc, graph, 0, 0, tag, &Val::Int(5));
    answer
}

// The letter of a wait's end.
fn letter(waited: Waited) -> u8 {
    match waited {
        Waited::Quiet => b'q',
        Waited::Halted(Stop::Limit) => b'l',
        Waited::Halted(Stop::Memory) => b'm',
    }
}

/// A caller waits until nothing is open. The letter of the wait's end.
pub(crate) fn wait<B: Naming, R: Wait, S: Bodies, G: Gate>(
    rt: &R,
    alloc: Global,
    graph: &Graph<S, G, B>,
    caller: &mut Caller<B>,
) -> u8
    requires { MayCall (S.meanings graph.now.bench.bodies.now) graph.now.book.run graph.now.book.items graph.now.book.events graph.now.pool caller.old.chair caller.old.worker.chair caller.old.worker.busy caller.old.worker.post }
    ensures { MayCall (S.meanings graph.now.bench.bodies.now) graph.now.book.run graph.now.book.items graph.now.book.events graph.now.pool caller.new.chair caller.new.worker.chair caller.new.worker.busy caller.new.worker.post }
{
    letter(caller.wait_for_all(rt, alloc, graph))
}

/// A caller leaves. Whether it could.
pub(crate) fn leave<B: Naming, R: Wait, S: Bodies, G: Gate>(
    rt: &R,
    graph: &Graph<S, G, B>,
    caller: &mut Caller<B>,
) -> bool
    requires { MayCall (S.meanings graph.now.bench.bodies.now) graph.now.book.run graph.now.book.items graph.now.book.events graph.now.pool caller.old.chair caller.old.worker.chair caller.old.worker.busy caller.old.worker.post }
    ensures { (caller.new.chair.about ≡ about_of graph.now.book.run graph.now.book.items graph.now.book.events) × (caller.new.worker.chair.about ≡ about_of graph.now.book.run graph.now.book.items graph.now.book.events) }
{
    caller.leave(rt, graph).is_ok()
}

/// A worker works until all have left and nothing is open, or something is refused. The letter of its work's end.
pub(crate) fn work<B: Naming, R: Wait, S: Bodies, G: Gate>(
    rt: &R,
    alloc: Global,
    graph: &Graph<S, G, B>,
    worker: &mut Worker<B>,
) -> u8
    requires { MayWork (S.meanings graph.now.bench.bodies.now) graph.now.book.run graph.now.book.items graph.now.book.events graph.now.pool worker.old.chair worker.old.busy worker.old.post }
    ensures { MayWork (S.meanings graph.now.bench.bodies.now) graph.now.book.run graph.now.book.items graph.now.book.events graph.now.pool worker.new.chair worker.new.busy worker.new.post }
{
    letter(worker.run(rt, alloc, graph))
}

// The letter of the end of a worker's work, if it has ended.
fn letter_of(ended: Option<Waited>) -> u8 {
    match ended {
        Some(waited) => letter(waited),
        None => b'-',
    }
}

/// A worker asks whether all has ended. The letter of its work's end.
pub(crate) fn ask<B: Naming, R: Wait, S: Bodies, G: Gate>(
    rt: &R,
    graph: &Graph<S, G, B>,
    worker: &mut Worker<B>,
) -> u8
    requires { MayWork (S.meanings graph.now.bench.bodies.now) graph.now.book.run graph.now.book.items graph.now.book.events graph.now.pool worker.old.chair worker.old.busy worker.old.post }
    ensures { MayWork (S.meanings graph.now.bench.bodies.now) graph.now.book.run graph.now.book.items graph.now.book.events graph.now.pool worker.new.chair worker.new.busy worker.new.post }
{
    letter_of(worker.ended(rt, graph))
}

/// Closes a graph of one caller and one worker.
pub(crate) fn close<B: Naming, R: Abort, S: Bodies, G: Gate>(
    rt: &R,
    alloc: Global,
    pair: Pair<S, G, B>,
) -> (Journal, Option<Event>)
    requires caller { (pair.caller.chair.about ≡ about_of pair.graph.book.run pair.graph.book.items pair.graph.book.events) × (pair.caller.worker.chair.about ≡ about_of pair.graph.book.run pair.graph.book.items pair.graph.book.events) }
    requires worker { pair.worker.chair.about ≡ about_of pair.graph.book.run pair.graph.book.items pair.graph.book.events }
    requires empty { (pair.seats.callers.items ≡ []) × (pair.seats.workers.items ≡ []) }
    requires room { (1 ≤ pair.seats.callers.spare) × (2 ≤ pair.seats.workers.spare) }
{
    let Pair {
        graph,
        caller,
        worker,
        seats,
    } = pair;
    let callers = vec![in alloc; caller].ok().expect(rt, "memory");
    let workers = vec![in alloc; worker].ok().expect(rt, "memory");
    let parts = Parts {
        graph,
        callers,
        workers,
        seats,
    };
    parts.close()
}

/// The letter of an event: put, start, end, closed cast, idle and leave.
pub(crate) fn event_letter(event: &Event) -> u8 {
    match event {
        Event::Put { .. } => b'p',
        Event::Start { .. } => b's',
        Event::End { .. } => b'e',
        Event::Shut { .. } => b'c',
        Event::Idle { .. } => b'i',
        Event::Leave { .. } => b'l',
        _ => b'?',
    }
}

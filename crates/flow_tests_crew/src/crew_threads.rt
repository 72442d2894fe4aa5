//! Callers and workers of a graph of one node, in several threads.
ghost use Rattle.std.specs.Prelude.{◌≡◌, ◌<◌, ◌≤◌, ◌^◌, [], true, length, All};
ghost use Rattle.std.specs.List.{list_all};
ghost use Rattle.flow_doc.specs.Fits.{doc_fits};
ghost use Rattle.flow_node.specs.Built.{is_built};
ghost use Rattle.flow_book.specs.Answers.{about_of};
ghost use Rattle.flow_book.specs.Callers.{takes_puts};
ghost use Rattle.flow_tests_crew.specs.Tried.{MayCall, MayWork};

use crate::trials::{alone, event_letter, four_scripts, leave, opened_parts, put, wait, work};
use flow_book::GraphMachine;
use flow_crew::{Bodies, Builtin, Caller, Gate, Graph, NoGate, Parts, Worker};
use flow_doc::Doc;
use flow_item::{Event, Journal, Val};
use flow_line::{Naming, Opened};
use flow_shape::Kind;
use std::alloc::Global;
use std::marker::Brand;
use std::process::Abort;
use std::sync::Wait;
use std::test::*;
use std::thread;
use std::thread::Threads;

// What those who take part share.
#[derive(Drop)]
struct Site<'a, R: Wait + Abort, S: Bodies, G: Gate, B: Naming> {
    alloc: Global,
    rt: &'a R,
    graph: &'a Graph<'a, S, G, B>,
    // Whether callers wait before they leave.
    waits: bool,
}

// Whether it is so.
fn holds(rt: &impl Abort, is: bool) {
    assert!(rt; is);
}

// A caller puts so many values. How many were accepted or refused by the node.
fn put_all<B: Naming, R: Wait, S: Bodies, G: Gate>(
    rt: &R,
    alloc: Global,
    graph: &Graph<S, G, B>,
    caller: &mut Caller<B>,
    count: u64,
) -> u64
    requires calls { MayCall (S.meanings graph.now.bench.bodies.now) graph.now.book.run graph.now.book.items graph.now.book.events graph.now.pool caller.old.chair caller.old.worker.chair caller.old.worker.busy caller.old.worker.post }
    requires puts { takes_puts graph.now.book.run.shape 0 0 ≡ true }
    ensures { MayCall (S.meanings graph.now.bench.bodies.now) graph.now.book.run graph.now.book.items graph.now.book.events graph.now.pool caller.new.chair caller.new.worker.chair caller.new.worker.busy caller.new.worker.post }
{
    for tag in 0..count {
        if put(rt, alloc, graph, caller, tag).is_err() {
            return tag;
        }
    }
    count
}

// A caller waits, where it is to. Whether nothing was open in the end.
fn wait_where<B: Naming, R: Wait, S: Bodies, G: Gate>(
    rt: &R,
    alloc: Global,
    graph: &Graph<S, G, B>,
    caller: &mut Caller<B>,
    waits: bool,
) -> bool
    requires { MayCall (S.meanings graph.now.bench.bodies.now) graph.now.book.run graph.now.book.items graph.now.book.events graph.now.pool caller.old.chair caller.old.worker.chair caller.old.worker.busy caller.old.worker.post }
    ensures { MayCall (S.meanings graph.now.bench.bodies.now) graph.now.book.run graph.now.book.items graph.now.book.events graph.now.pool caller.new.chair caller.new.worker.chair caller.new.worker.busy caller.new.worker.post }
{
    if waits {
        wait(rt, alloc, graph, caller) == b'q'
    } else {
        true
    }
}

// A caller puts 25 values, waits where it is to, and leaves.
fn call<B: Naming, R: Wait + Abort, S: Bodies, G: Gate>(
    rt: &R,
    alloc: Global,
    graph: &Graph<S, G, B>,
    caller: &mut Caller<B>,
    waits: bool,
)
    requires calls { MayCall (S.meanings graph.now.bench.bodies.now) graph.now.book.run graph.now.book.items graph.now.book.events graph.now.pool caller.old.chair caller.old.worker.chair caller.old.worker.busy caller.old.worker.post }
    requires puts { takes_puts graph.now.book.run.shape 0 0 ≡ true }
    ensures { (caller.new.chair.about ≡ about_of graph.now.book.run graph.now.book.items graph.now.book.events) × (caller.new.worker.chair.about ≡ about_of graph.now.book.run graph.now.book.items graph.now.book.events) }
{
    holds(rt, put_all(rt, alloc, graph, caller, 25) == 25);
    holds(rt, wait_where(rt, alloc, graph, caller, waits));
    holds(rt, leave(rt, graph, caller));
}

// A worker works until all have left and nothing is open.
fn serve<B: Naming, R: Wait + Abort, S: Bodies, G: Gate>(
    rt: &R,
    alloc: Global,
    graph: &Graph<S, G, B>,
    worker: &mut Worker<B>,
)
    requires { MayWork (S.meanings graph.now.bench.bodies.now) graph.now.book.run graph.now.book.items graph.now.book.events graph.now.pool worker.old.chair worker.old.busy worker.old.post }
    ensures { worker.new.chair.about ≡ about_of graph.now.book.run graph.now.book.items graph.now.book.events }
{
    holds(rt, work(rt, alloc, graph, worker) == b'q');
}

// All callers call, each in a thread of its own.
fn call_all<B: Naming + Send + Sync, R: Threads + Wait + Abort + Sync, S: Bodies, G: Gate>(
    site: &Site<R, S, G, B>,
    callers: &mut [Caller<B>],
)
    requires calls { All (λ c. MayCall (S.meanings site.now.graph.now.bench.bodies.now) site.now.graph.now.book.run site.now.graph.now.book.items site.now.graph.now.book.events site.now.graph.now.pool c.chair c.worker.chair c.worker.busy c.worker.post) callers.old }
    requires puts { takes_puts site.now.graph.now.book.run.shape 0 0 ≡ true }
    ensures { All (λ c. (c.chair.about ≡ about_of site.now.graph.now.book.run site.now.graph.now.book.items site.now.graph.now.book.events) × (c.worker.chair.about ≡ about_of site.now.graph.now.book.run site.now.graph.now.book.items site.now.graph.now.book.events)) callers.new }
{
    thread::for_each_mut(
        site.rt,
        callers,
        64,
        &|_, caller: &mut Caller<B>|
            requires calls { MayCall (S.meanings site.now.graph.now.bench.bodies.now) site.now.graph.now.book.run site.now.graph.now.book.items site.now.graph.now.book.events site.now.graph.now.pool caller.old.chair caller.old.worker.chair caller.old.worker.busy caller.old.worker.post }
            requires puts { takes_puts site.now.graph.now.book.run.shape 0 0 ≡ true }
            ensures { (caller.new.chair.about ≡ about_of site.entry.now.graph.now.book.run site.entry.now.graph.now.book.items site.entry.now.graph.now.book.events) × (caller.new.worker.chair.about ≡ about_of site.entry.now.graph.now.book.run site.entry.now.graph.now.book.items site.entry.now.graph.now.book.events) }
        { call(site.rt, site.alloc, site.graph, caller, site.waits) },
    );
}

// All workers work, each in a thread of its own.
fn serve_all<B: Naming + Send + Sync, R: Threads + Wait + Abort + Sync, S: Bodies, G: Gate>(
    site: &Site<R, S, G, B>,
    workers: &mut [Worker<B>],
)
    requires { All (λ w. MayWork (S.meanings site.now.graph.now.bench.bodies.now) site.now.graph.now.book.run site.now.graph.now.book.items site.now.graph.now.book.events site.now.graph.now.pool w.chair w.busy w.post) workers.old }
    ensures { All (λ w. w.chair.about ≡ about_of site.now.graph.now.book.run site.now.graph.now.book.items site.now.graph.now.book.events) workers.new }
{
    thread::for_each_mut(
        site.rt,
        workers,
        64,
        &|_, worker: &mut Worker<B>|
            requires { MayWork (S.meanings site.now.graph.now.bench.bodies.now) site.now.graph.now.book.run site.now.graph.now.book.items site.now.graph.now.book.events site.now.graph.now.pool worker.old.chair worker.old.busy worker.old.post }
            ensures { worker.new.chair.about ≡ about_of site.entry.now.graph.now.book.run site.entry.now.graph.now.book.items site.entry.now.graph.now.book.events }
        { serve(site.rt, site.alloc, site.graph, worker) },
    );
}

// All callers call, and then all workers work.
fn run_parts<B: Naming + Send + Sync, R: Threads + Wait + Abort + Sync, S: Bodies, G: Gate>(
    rt: &R,
    alloc: Global,
    graph: &Graph<S, G, B>,
    callers: &mut [Caller<B>],
    workers: &mut [Worker<B>],
    waits: bool,
)
    requires calls { All (λ c. MayCall (S.meanings graph.now.bench.bodies.now) graph.now.book.run graph.now.book.items graph.now.book.events graph.now.pool c.chair c.worker.chair c.worker.busy c.worker.post) callers.old }
    requires puts { takes_puts graph.now.book.run.shape 0 0 ≡ true }
    requires works { All (λ w. MayWork (S.meanings graph.now.bench.bodies.now) graph.now.book.run graph.now.book.items graph.now.book.events graph.now.pool w.chair w.busy w.post) workers.old }
    ensures called { All (λ c. (c.chair.about ≡ about_of graph.now.book.run graph.now.book.items graph.now.book.events) × (c.worker.chair.about ≡ about_of graph.now.book.run graph.now.book.items graph.now.book.events)) callers.new }
    ensures worked { All (λ w. w.chair.about ≡ about_of graph.now.book.run graph.now.book.items graph.now.book.events) workers.new }
    ensures counts { (length callers.new ≡ length callers.old) × (length workers.new ≡ length workers.old) }
{
    let site = Site {
        alloc,
        rt,
        graph,
        waits,
    };
    call_all(&site, callers);
    serve_all(&site, workers);
}

// Four callers and four workers. The journal, and the event that was refused.
fn ran_named<B: Naming + Send + Sync, R: Threads + Wait + Abort + Sync>(
    rt: &R,
    alloc: Global,
    doc: &Doc,
    waits: bool,
    opened: Opened<GraphMachine>,
) -> (Journal, Option<Event>)
    requires name { opened ≡ B.table }
    requires fits { doc_fits 10 doc.now ≡ true }
    requires built { list_all is_built doc.now.shape.nodes ≡ true }
    requires puts { takes_puts doc.now.shape 0 0 ≡ true }
    requires four { length doc.now.scripts ≡ 4 }
{
    let Parts {
        graph,
        mut callers,
        mut workers,
        seats,
    } = opened_parts::<B, _, _, _>(rt, alloc, doc, &Builtin, &NoGate, 4, 1000, 10000, opened);
    run_parts(
        rt,
        alloc,
        &graph,
        callers.as_mut_slice(),
        workers.as_mut_slice(),
        waits,
    );
    let parts = Parts {
        graph,
        callers,
        workers,
        seats,
    };
    parts.close()
}

// How many events of the journal have this letter.
fn count(journal: &[Event], letter: u8) -> u32 {
    let mut count = 0_u32;
    for event in journal {
        if event_letter(event) == letter {
            count = count.saturating_add(1);
        }
    }
    count
}

// Whether there are 100 puts, starts, ends and closed casts each, and four callers left.
fn is_whole(journal: &[Event]) -> bool {
    let each = [
        count(journal, b'p'),
        count(journal, b's'),
        count(journal, b'e'),
        count(journal, b'c'),
    ];
    each == [100; 4] && count(journal, b'l') == 4
}

// Four callers put 25 values each to a function, and either wait and leave, or leave at once; then four workers work. All
// ends by itself, each body runs once, and nothing is left.
fn all_ends<R: Threads + Wait + Abort + Sync>(rt: &R, alloc: Global, waits: bool) {
    let function = Kind::Function {
        reject: false,
        limit: None,
        body: 0,
        arg: Val::Int(1),
    };
    let doc = alone(rt, alloc, function, four_scripts(rt, alloc));
    let opened = Opened::<GraphMachine>::new(alloc).ok().expect(rt, "a line");
    let (journal, kept) = ran_named::<Brand, R>(rt, alloc, &doc, waits, opened);
    whole(rt, &journal, &kept);
}

// Nothing was refused, and the journal is whole.
fn whole(rt: &impl Abort, journal: &Journal, kept: &Option<Event>) {
    assert!(rt; is_whole(journal.as_slice()) && kept.is_none());
}

#[test]
fn callers_that_wait_end(rt: HostRuntime) {
    all_ends(&rt, rt.alloc(), true);
}

#[test]
fn workers_end(rt: HostRuntime) {
    all_ends(&rt, rt.alloc(), false);
}

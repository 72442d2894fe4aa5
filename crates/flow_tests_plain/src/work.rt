ghost use Rattle.std.specs.Prelude.{◌≡◌, ◌<◌, true, [], ◌∷◌, pos, length};
ghost use Rattle.std.specs.List.{list_all};
ghost use Rattle.flow_shape.specs.declared.Step.TheVariants as T;
ghost use Rattle.flow_item.specs.declared.val.Val.TheVariants as V;
ghost use Rattle.flow_doc.specs.Fits.{doc_fits};
ghost use Rattle.flow_node.specs.Built.{is_built};
ghost use Rattle.flow_work.specs.Promises.{IsFresh};

use crate::told::{is, number, same, text};
use flow_body::{Add, Body, FailMemory, Named, Shelf};
use flow_doc::{Doc, Kept, Lives, Names, Nodes, Scripts};
use flow_item::{Event, Items, Journal, Stop, Val};
use flow_print::event_line;
use flow_shape::{Edge, Edges, Kind, Kinds, Shape, Step};
use flow_work::{Ending, run_plain, run_plain_with_nodes};
use std::alloc::Global;
use std::process::Abort;

// A caller that puts 5 to the first node.
fn scripts(rt: &(impl Abort + AllocGlobal)) -> Scripts
    ensures { result ≡ (T.Put 0 0 0 (V.Int (pos 5)) ∷ []) ∷ [] }
{
    let put = Step::Put {
        node: 0,
        port: 0,
        tag: 0,
        val: Val::Int(5),
    };
    let steps = vec![in rt.alloc(); put].expect(rt, "memory");
    let scripts = vec![in rt.alloc(); Items::from_vec(steps)].expect(rt, "memory");
    Scripts::from_vec(scripts)
}

// One queue.
fn one_queue(rt: &(impl Abort + AllocGlobal)) -> Doc
    ensures fits { doc_fits 2 result ≡ true }
    ensures built { list_all is_built result.shape.nodes ≡ true }
    ensures version { result.version < 3 }
{
    let alloc = rt.alloc();
    let names = vec![in alloc; text(rt, "q")].expect(rt, "memory");
    let nodes = vec![in alloc; Kind::Queue { capacity: None }].expect(rt, "memory");
    let scripts = scripts(rt);
    Doc {
        version: 1,
        names: Names::from_vec(names),
        shape: Shape {
            nodes: Kinds::from_vec(nodes),
            edges: Edges::new(alloc),
        },
        scripts,
        sinks: Nodes::new(alloc),
    }
}

// Two queues in a row.
fn two_queues(rt: &(impl Abort + AllocGlobal)) -> Doc
    ensures fits { doc_fits 2 result ≡ true }
    ensures built { list_all is_built result.shape.nodes ≡ true }
    ensures version { result.version < 3 }
{
    let alloc = rt.alloc();
    let names = vec![in alloc; text(rt, "a"), text(rt, "b")].expect(rt, "memory");
    let nodes = vec![in alloc;
        Kind::Queue { capacity: None },
        Kind::Queue { capacity: None },
    ]
    .expect(rt, "memory");
    let over = Edge {
        from: 0,
        out: 0,
        to: 1,
        port: 0,
    };
    let edges = vec![in alloc; over].expect(rt, "memory");
    let scripts = scripts(rt);
    Doc {
        version: 1,
        names: Names::from_vec(names),
        shape: Shape {
            nodes: Kinds::from_vec(nodes),
            edges: Edges::from_vec(edges),
        },
        scripts,
        sinks: Nodes::new(alloc),
    }
}

// A function that adds 1, before a queue.
fn function_into_queue(rt: &(impl Abort + AllocGlobal)) -> Doc
    ensures fits { doc_fits 2 result ≡ true }
    ensures built { list_all is_built result.shape.nodes ≡ true }
    ensures version { result.version < 3 }
{
    let alloc = rt.alloc();
    let names = vec![in alloc; text(rt, "f"), text(rt, "q")].expect(rt, "memory");
    let nodes = vec![in alloc;
        Kind::Function {
            reject: false,
            limit: Some(1),
            body: 0,
            arg: Val::Int(1)
        },
        Kind::Queue { capacity: None },
    ]
    .expect(rt, "memory");
    let over = Edge {
        from: 0,
        out: 0,
        to: 1,
        port: 0,
    };
    let edges = vec![in alloc; over].expect(rt, "memory");
    let scripts = scripts(rt);
    Doc {
        version: 1,
        names: Names::from_vec(names),
        shape: Shape {
            nodes: Kinds::from_vec(nodes),
            edges: Edges::from_vec(edges),
        },
        scripts,
        sinks: Nodes::new(alloc),
    }
}

// The same with an edge back from the queue.
fn function_in_cycle(rt: &(impl Abort + AllocGlobal)) -> Doc
    ensures fits { doc_fits 2 result ≡ true }
    ensures built { list_all is_built result.shape.nodes ≡ true }
    ensures version { result.version < 3 }
{
    let alloc = rt.alloc();
    let names = vec![in alloc; text(rt, "f"), text(rt, "q")].expect(rt, "memory");
    let nodes = vec![in alloc;
        Kind::Function {
            reject: false,
            limit: Some(1),
            body: 0,
            arg: Val::Int(1)
        },
        Kind::Queue { capacity: None },
    ]
    .expect(rt, "memory");
    let over = Edge {
        from: 0,
        out: 0,
        to: 1,
        port: 0,
    };
    let back = Edge {
        from: 1,
        out: 0,
        to: 0,
        port: 0,
    };
    let edges = vec![in alloc; over, back].expect(rt, "memory");
    let scripts = scripts(rt);
    Doc {
        version: 1,
        names: Names::from_vec(names),
        shape: Shape {
            nodes: Kinds::from_vec(nodes),
            edges: Edges::from_vec(edges),
        },
        scripts,
        sinks: Nodes::new(alloc),
    }
}

// A function whose body finds no memory.
fn function_without_memory(rt: &(impl Abort + AllocGlobal)) -> Doc
    ensures fits { doc_fits 2 result ≡ true }
    ensures built { list_all is_built result.shape.nodes ≡ true }
    ensures version { result.version < 3 }
{
    let alloc = rt.alloc();
    let names = vec![in alloc; text(rt, "f")].expect(rt, "memory");
    let nodes = vec![in alloc;
        Kind::Function {
            reject: false,
            limit: Some(1),
            body: 1,
            arg: Val::Int(1)
        },
    ]
    .expect(rt, "memory");
    let scripts = scripts(rt);
    Doc {
        version: 1,
        names: Names::from_vec(names),
        shape: Shape {
            nodes: Kinds::from_vec(nodes),
            edges: Edges::new(alloc),
        },
        scripts,
        sinks: Nodes::new(alloc),
    }
}

// A shelf of these two bodies.
fn shelf_of(
    rt: &(impl Abort + AllocGlobal),
    add: Box<dyn Body + Send + Sync>,
    fail: Box<dyn Body + Send + Sync>,
) -> Shelf
    ensures { length result.bodies.items ≡ 2 }
{
    let add = Named {
        name: text(rt, "add"),
        body: add,
    };
    let fail = Named {
        name: text(rt, "fail_memory"),
        body: fail,
    };
    let bodies = vec![in rt.alloc(); add, fail].expect(rt, "memory");
    Shelf::new(rt.alloc(), bodies).ok().expect(rt, "memory")
}

fn nothing_kept(alloc: Global) -> Kept
    ensures { IsFresh result }
{
    Kept {
        doc: None,
        journal: Journal::new(alloc),
        refused: None,
        live: Lives::new(alloc),
    }
}

// How a run ended, and what it leaves.
#[derive(Drop)]
struct Ran {
    answer: Result<(), Stop>,
    kept: Kept,
}

// Runs the document with this shelf.
fn run_with(alloc: Global, doc: &Doc, shelf: &Shelf, items: u64, events: u64) -> Ran
    requires fits { doc_fits (length shelf.now.bodies.items) doc.now ≡ true }
    requires built { list_all is_built doc.now.shape.nodes ≡ true }
    requires version { doc.now.version < 3 }
{
    let mut kept = nothing_kept(alloc);
    let answer = run_plain(alloc, doc, shelf, items, events, &mut kept);
    Ran { answer, kept }
}

// Runs the document with the two bodies.
fn run(rt: &(impl Abort + AllocGlobal), doc: &Doc, items: u64, events: u64) -> Ran
    requires fits { doc_fits 2 doc.now ≡ true }
    requires built { list_all is_built doc.now.shape.nodes ≡ true }
    requires version { doc.now.version < 3 }
{
    let add = Box::new(rt.alloc(), Add).expect(rt, "memory");
    let fail = Box::new(rt.alloc(), FailMemory).expect(rt, "memory");
    let shelf = shelf_of(rt, add, fail);
    run_with(rt.alloc(), doc, &shelf, items, events)
}

// How a run ended, with its nodes, and what it leaves.
#[derive(Drop)]
struct RanToNodes {
    ending: Ending,
    kept: Kept,
}

// Runs the document with this shelf, and hands on the nodes.
fn run_to_nodes_with(alloc: Global, doc: &Doc, shelf: &Shelf, items: u64, events: u64) -> RanToNodes
    requires fits { doc_fits (length shelf.now.bodies.items) doc.now ≡ true }
    requires built { list_all is_built doc.now.shape.nodes ≡ true }
    requires version { doc.now.version < 3 }
{
    let mut kept = nothing_kept(alloc);
    let ending = run_plain_with_nodes(alloc, doc, shelf, items, events, &mut kept);
    RanToNodes { ending, kept }
}

// Runs the document with the two bodies, and hands on the nodes.
fn run_to_nodes(rt: &(impl Abort + AllocGlobal), doc: &Doc, items: u64, events: u64) -> RanToNodes
    requires fits { doc_fits 2 doc.now ≡ true }
    requires built { list_all is_built doc.now.shape.nodes ≡ true }
    requires version { doc.now.version < 3 }
{
    let add = Box::new(rt.alloc(), Add).expect(rt, "memory");
    let fail = Box::new(rt.alloc(), FailMemory).expect(rt, "memory");
    let shelf = shelf_of(rt, add, fail);
    run_to_nodes_with(rt.alloc(), doc, &shelf, items, events)
}

const PUT: &str = "put 0 0 0 0 accepted 0 kept 5";

const LEAVE: &str = "leave 0";

const START: &str = "start 0 0 0";

// An event's line, which has each of its fields but for the node where a given item was born.
fn shows(rt: &(impl Abort + AllocGlobal), e: Option<&Event>, line: &str) {
    let e = e.expect(rt, "an event");
    let shown = event_line(rt.alloc(), e).ok().expect(rt, "memory");
    same(rt, shown.as_str(), line);
}

// Whether the event gives an item that was born at the first node.
fn gives_of_first(e: Option<&Event>) -> bool {
    match e {
        Some(Event::Give { item, .. }) => item.id.node == 0,
        _ => false,
    }
}

fn made(rt: &impl Abort, ran: &Ran, events: u64) {
    number(rt, ran.kept.journal.len() as u64, events);
}

fn has(rt: &(impl Abort + AllocGlobal), ran: &Ran, place: usize, line: &str) {
    shows(rt, ran.kept.journal.get(place), line);
}

fn refused(rt: &(impl Abort + AllocGlobal), ran: &Ran, line: &str) {
    shows(rt, ran.kept.refused.as_ref(), line);
}

// How a run ended.
fn ended(answer: Result<(), Stop>) -> &'static str {
    match answer {
        Ok(()) => "settled",
        Err(Stop::Limit) => "limit",
        Err(Stop::Memory) => "memory",
    }
}

fn ends(rt: &impl Abort, ran: &Ran, want: &str) {
    same(rt, ended(ran.answer), want);
}

fn refused_none(rt: &impl Abort, kept: &Kept) {
    is(rt, kept.refused.is_none());
}

#[test]
fn no_item_may_be_born(rt: HostRuntime) {
    let ran = run(&rt, &one_queue(&rt), 0, 100);
    ends(&rt, &ran, "limit");
    made(&rt, &ran, 0);
    refused(&rt, &ran, PUT);
}

#[test]
fn one_item_may_be_born(rt: HostRuntime) {
    let ran = run(&rt, &two_queues(&rt), 1, 100);
    ends(&rt, &ran, "limit");
    made(&rt, &ran, 2);
    has(&rt, &ran, 0, PUT);
    has(&rt, &ran, 1, LEAVE);
    refused(&rt, &ran, "give 0 0 1 0 0 0 kept 0 5");
    is(&rt, gives_of_first(ran.kept.refused.as_ref()));
}

#[test]
fn three_events_may_be_made(rt: HostRuntime) {
    let ran = run(&rt, &two_queues(&rt), 100, 3);
    ends(&rt, &ran, "limit");
    made(&rt, &ran, 3);
    refused(&rt, &ran, "idle 0");
}

// How many items the node made, of nodes that settled.
fn made_at(rt: &impl Abort, ending: &Ending, node: u32) -> u64 {
    match ending {
        Ending::Settled(nodes) => nodes.find(Some(node)).expect(rt, "a node").made(),
        _ => rt.abort(),
    }
}

// Whether the nodes settled, and none has this number.
fn lacks(ending: &Ending, node: u32) -> bool {
    match ending {
        Ending::Settled(nodes) => nodes.find(Some(node)).is_none(),
        _ => false,
    }
}

#[test]
fn nodes_are_handed_on(rt: HostRuntime) {
    let ran = run_to_nodes(&rt, &two_queues(&rt), 2, 5);
    number(&rt, ran.kept.journal.len() as u64, 5);
    refused_none(&rt, &ran.kept);
    number(&rt, made_at(&rt, &ran.ending, 1), 1);
    is(&rt, lacks(&ran.ending, 2));
}

#[test]
fn a_body_runs(rt: HostRuntime) {
    let ran = run(&rt, &function_into_queue(&rt), 100, 100);
    ends(&rt, &ran, "settled");
    made(&rt, &ran, 8);
    has(&rt, &ran, 0, PUT);
    has(&rt, &ran, 1, LEAVE);
    has(&rt, &ran, 2, START);
    has(&rt, &ran, 3, "end 0 0 0 1 [[0,0,6]]");
    refused_none(&rt, &ran.kept);
}

#[test]
fn a_limit_refuses_the_end(rt: HostRuntime) {
    let ran = run(&rt, &function_into_queue(&rt), 1, 100);
    ends(&rt, &ran, "limit");
    made(&rt, &ran, 3);
    has(&rt, &ran, 2, START);
    refused(&rt, &ran, "end 0 0 0 1 [[0,0,6]]");
}

#[test]
fn a_body_finds_no_memory(rt: HostRuntime) {
    let ran = run(&rt, &function_without_memory(&rt), 100, 100);
    ends(&rt, &ran, "memory");
    made(&rt, &ran, 3);
    has(&rt, &ran, 2, START);
    refused_none(&rt, &ran.kept);
}

#[test]
fn a_cycle_meets_the_limit(rt: HostRuntime) {
    let ran = run(&rt, &function_in_cycle(&rt), 10, 1000);
    ends(&rt, &ran, "limit");
    made(&rt, &ran, 21);
    refused(&rt, &ran, "end 0 0 6 7 [[0,0,9]]");
}

//! Small documents, run on threads.
ghost use Rattle.std.specs.Prelude.{◌≡◌, ◌<◌, ◌≤◌, ◌^◌, ◌∷◌, [], true, false, Some, None, pos, length};
ghost use Rattle.flow_shape.specs.declared.Kind.TheVariants as K;
ghost use Rattle.std.specs.List.{list_all};
ghost use Rattle.flow_item.specs.declared.val.Val.TheVariants as V;
ghost use Rattle.flow_shape.specs.declared.Step.TheVariants as T;
ghost use Rattle.flow_doc.specs.Fits.{doc_fits};
ghost use Rattle.flow_node.specs.Built.{is_built};

use flow_doc::{Doc, Kept, Names, Nodes, Scripts};
use flow_item::{Event, Items, Journal, Stop, Text, Val};
use flow_nodes::Nodes as Left;
use flow_run::{Builtin, NoGate, run_all, run_all_with_nodes};
use flow_shape::{Edge, Edges, Kind, Kinds, Shape, Step};
use std::alloc::Global;
use std::process::Abort;
use std::sync::Wait;
use std::test::*;
use std::thread::Threads;

fn name(rt: &impl Abort, alloc: Global, text: &str) -> Text {
    Text::of(alloc, text).ok().expect(rt, "memory")
}

// The step that puts 5 to the first node.
fn step(tag: u64) -> Step
    ensures { result ≡ T.Put 0 0 tag (V.Int (pos 5)) }
{
    Step::Put {
        node: 0,
        port: 0,
        tag,
        val: Val::Int(5),
    }
}

// A caller that puts 5 to the first node, waits, and puts 5 once more.
fn scripts(rt: &impl Abort, alloc: Global) -> Scripts
    ensures { result ≡ (T.Put 0 0 0 (V.Int (pos 5)) ∷ T.Wait ∷ T.Put 0 0 1 (V.Int (pos 5)) ∷ []) ∷ [] }
{
    let steps = vec![in alloc; step(0), Step::Wait, step(1)]
        .ok()
        .expect(rt, "memory");
    let scripts = vec![in alloc; Items::from_vec(steps)]
        .ok()
        .expect(rt, "memory");
    Scripts::from_vec(scripts)
}

// The names of two nodes.
fn names(rt: &impl Abort, alloc: Global) -> Names
    ensures { length result ≡ 2 }
{
    let names = vec![in alloc; name(rt, alloc, "f"), name(rt, alloc, "q")];
    Names::from_vec(names.ok().expect(rt, "memory"))
}

// A function that adds 1.
fn function() -> Kind
    ensures { result ≡ K.Function false (Some 1) 0 (V.Int (pos 1)) }
{
    Kind::Function {
        reject: false,
        limit: Some(1),
        body: 0,
        arg: Val::Int(1),
    }
}

// A function that adds 1, and a queue.
fn kinds(rt: &impl Abort, alloc: Global) -> Kinds
    ensures { result ≡ K.Function false (Some 1) 0 (V.Int (pos 1)) ∷ K.Queue None ∷ [] }
{
    let nodes = vec![in alloc; function(), Kind::Queue { capacity: None }];
    Kinds::from_vec(nodes.ok().expect(rt, "memory"))
}

// The edge from the function to the queue.
fn edges(rt: &impl Abort, alloc: Global) -> Edges
    ensures { result ≡ record { from = 0; out = 0; to = 1; port = 0 } ∷ [] }
{
    let edge = Edge {
        from: 0,
        out: 0,
        to: 1,
        port: 0,
    };
    Edges::from_vec(vec![in alloc; edge].ok().expect(rt, "memory"))
}

// A function that adds 1, before a queue.
fn function_into_queue(rt: &impl Abort, alloc: Global) -> Doc
    ensures fits { doc_fits 10 result ≡ true }
    ensures built { list_all is_built result.shape.nodes ≡ true }
    ensures version { result.version < 3 }
{
    Doc {
        version: 1,
        names: names(rt, alloc),
        shape: Shape {
            nodes: kinds(rt, alloc),
            edges: edges(rt, alloc),
        },
        scripts: scripts(rt, alloc),
        sinks: Nodes::new(alloc),
    }
}

// How many events there are of each of these forms, and how many items they bear.
#[derive(Clone, Copy, Debug, PartialEq)]
struct Counts {
    puts: u64,
    starts: u64,
    ends: u64,
    gives: u64,
    leaves: u64,
    items: u64,
}

// With one event more.
fn counted(counts: Counts, event: &Event) -> Counts {
    let items = counts.items.saturating_add(event.births());
    match event {
        Event::Put { .. } => Counts {
            puts: counts.puts.saturating_add(1),
            items,
            ..counts
        },
        Event::Start { .. } => Counts {
            starts: counts.starts.saturating_add(1),
            items,
            ..counts
        },
        Event::End { .. } => Counts {
            ends: counts.ends.saturating_add(1),
            items,
            ..counts
        },
        Event::Give { .. } => Counts {
            gives: counts.gives.saturating_add(1),
            items,
            ..counts
        },
        Event::Leave { .. } => Counts {
            leaves: counts.leaves.saturating_add(1),
            items,
            ..counts
        },
        _ => Counts { items, ..counts },
    }
}

// Those of a journal.
fn counts_of(journal: &Journal) -> Counts {
    let mut counts = Counts {
        puts: 0,
        starts: 0,
        ends: 0,
        gives: 0,
        leaves: 0,
        items: 0,
    };
    for event in journal.as_slice() {
        counts = counted(counts, event);
    }
    counts
}

// The journal has so many events of each form, and bears so many items.
fn counted_so(rt: &impl Abort, kept: &Kept, want: Counts) {
    assert!(rt; counts_of(&kept.journal) == want);
}

// All is done, and no event was refused.
fn done(rt: &impl Abort, ran: &Result<(), Stop>, kept: &Kept) {
    assert!(rt; ran.is_ok());
    assert!(rt; kept.refused.is_none());
}

// A limit was met, and an end of node 0 is refused.
fn limited(rt: &impl Abort, ran: &Result<(), Stop>, kept: &Kept) {
    assert!(rt; matches!(ran, Err(Stop::Limit)));
    assert!(rt; matches!(kept.refused, Some(Event::End { node: 0, .. })));
}

// Runs the document with so many workers, under these limits.
fn run<R: Threads + Wait + Abort + Sync>(
    rt: &R,
    alloc: Global,
    workers: u32,
    items: u64,
) -> (Result<(), Stop>, Kept)
    requires workers { (0 < workers) × (workers ≤ 64) }
    requires items { items < 2 ^ 62 }
{
    let doc = function_into_queue(rt, alloc);
    let mut kept = Kept::new(alloc);
    let ran = run_all(
        rt, alloc, &doc, &Builtin, &NoGate, workers, items, 1000, &mut kept,
    );
    (ran, kept)
}

// Runs it with two workers, and hands on the nodes.
fn nodes<R: Threads + Wait + Abort + Sync>(rt: &R, alloc: Global) -> Left {
    let doc = function_into_queue(rt, alloc);
    let mut kept = Kept::new(alloc);
    let (ran, nodes) = run_all_with_nodes(
        rt, alloc, &doc, &Builtin, &NoGate, 2, 100, 1000, &mut kept,
    );
    assert!(rt; ran.is_ok());
    nodes.expect(rt, "nodes")
}

// Two puts, each with a start, an end and a give, and a leave. Each put, end and give bears an item.
#[test]
fn a_caller_that_waits(rt: HostRuntime) {
    let (ran, kept) = run(&rt, rt.alloc(), 4, 100);
    done(&rt, &ran, &kept);
    let all = Counts {
        puts: 2,
        starts: 2,
        ends: 2,
        gives: 2,
        leaves: 1,
        items: 6,
    };
    counted_so(&rt, &kept, all);
}

// The put bears the one item, and its body's end is refused.
#[test]
fn a_limit_of_one_item(rt: HostRuntime) {
    let (ran, kept) = run(&rt, rt.alloc(), 2, 1);
    limited(&rt, &ran, &kept);
    let all = Counts {
        puts: 1,
        starts: 1,
        ends: 0,
        gives: 0,
        leaves: 0,
        items: 1,
    };
    counted_so(&rt, &kept, all);
}

// The second node has made two items, and there is no third one.
fn queue_of_two(rt: &impl Abort, nodes: &Left) {
    assert!(rt; nodes.find(Some(1)).map(|node| node.made()) == Some(2));
    assert!(rt; nodes.find(Some(2)).is_none());
}

// The queue of two items is handed on as the run leaves it.
#[test]
fn the_nodes_as_a_run_leaves_them(rt: HostRuntime) {
    let nodes = nodes(&rt, rt.alloc());
    queue_of_two(&rt, &nodes);
}

//! A caller and a worker of a graph of one node, one after the other.
ghost use Rattle.std.specs.Prelude.{◌≡◌, ◌<◌, ◌≤◌, ◌^◌, [], ◌∷◌, true, false, pos, length};
ghost use Rattle.flow_item.specs.declared.val.Val.TheVariants as V;
ghost use Rattle.flow_shape.specs.declared.Kind.TheVariants as K;
ghost use Rattle.flow_doc.specs.Fits.{doc_fits};
ghost use Rattle.flow_node.specs.Built.{is_built};
ghost use Rattle.std.specs.List.{list_all};
ghost use Rattle.flow_book.specs.Answers.{about_of};
ghost use Rattle.flow_book.specs.Callers.{takes_puts};
ghost use Rattle.flow_tests_crew.specs.Tried.{MayCall, MayWork, is_tried};

use crate::trials::{
    alone, ask, close, event_letter, leave, one_script, opened_pair, put, wait, work,
};
use flow_book::GraphMachine;
use flow_crew::{Bodies, Builtin, Caller, Gate, Graph, NoGate, Worker};
use flow_doc::Doc;
use flow_item::{Event, Journal, Land, Msg, PutAnswer, Stop, Val};
use flow_line::{Naming, Opened};
use flow_shape::Kind;
use std::alloc::Global;
use std::marker::Brand;
use std::process::Abort;
use std::sync::Wait;
use std::test::*;

// What a caller and a worker were told.
#[derive(Clone, Copy)]
struct Heard {
    // The answer to the caller's put, where it put a value.
    answer: Option<Result<PutAnswer, Stop>>,
    // How three waits ended, each by a letter.
    ends: [u8; 3],
    // Whether the caller could leave.
    left: bool,
}

// What came of a caller and a worker.
#[derive(Drop)]
struct Ran {
    told: Heard,
    journal: Journal,
    // The event that was refused.
    kept: Option<Event>,
}

// A caller puts 5, or nothing.
fn put_where<B: Naming, R: Wait, S: Bodies, G: Gate>(
    rt: &R,
    alloc: Global,
    graph: &Graph<S, G, B>,
    caller: &mut Caller<B>,
    puts: bool,
) -> Option<Result<PutAnswer, Stop>>
    requires calls { MayCall (S.meanings graph.now.bench.bodies.now) graph.now.book.run graph.now.book.items graph.now.book.events graph.now.pool caller.old.chair caller.old.worker.chair caller.old.worker.busy caller.old.worker.post }
    requires puts { takes_puts graph.now.book.run.shape 0 0 ≡ true }
    ensures { MayCall (S.meanings graph.now.bench.bodies.now) graph.now.book.run graph.now.book.items graph.now.book.events graph.now.pool caller.new.chair caller.new.worker.chair caller.new.worker.busy caller.new.worker.post }
{
    if puts {
        Some(put(rt, alloc, graph, caller, 0))
    } else {
        None
    }
}

// The caller waits, waits again and leaves; then the worker works.
fn waited<B: Naming, R: Wait, S: Bodies, G: Gate>(
    rt: &R,
    alloc: Global,
    graph: &Graph<S, G, B>,
    caller: &mut Caller<B>,
    worker: &mut Worker<B>,
    puts: bool,
) -> Heard
    requires calls { MayCall (S.meanings graph.now.bench.bodies.now) graph.now.book.run graph.now.book.items graph.now.book.events graph.now.pool caller.old.chair caller.old.worker.chair caller.old.worker.busy caller.old.worker.post }
    requires works { MayWork (S.meanings graph.now.bench.bodies.now) graph.now.book.run graph.now.book.items graph.now.book.events graph.now.pool worker.old.chair worker.old.busy worker.old.post }
    requires puts { takes_puts graph.now.book.run.shape 0 0 ≡ true }
    ensures caller { (caller.new.chair.about ≡ about_of graph.now.book.run graph.now.book.items graph.now.book.events) × (caller.new.worker.chair.about ≡ about_of graph.now.book.run graph.now.book.items graph.now.book.events) }
    ensures worker { worker.new.chair.about ≡ about_of graph.now.book.run graph.now.book.items graph.now.book.events }
{
    let answer = put_where(rt, alloc, graph, caller, puts);
    let first = wait(rt, alloc, graph, caller);
    let second = wait(rt, alloc, graph, caller);
    let left = leave(rt, graph, caller);
    let third = work(rt, alloc, graph, worker);
    Heard {
        answer,
        ends: [first, second, third],
        left,
    }
}

// The caller leaves at once; then the worker works, and asks before and after whether all has ended.
fn left<B: Naming, R: Wait, S: Bodies, G: Gate>(
    rt: &R,
    alloc: Global,
    graph: &Graph<S, G, B>,
    caller: &mut Caller<B>,
    worker: &mut Worker<B>,
    puts: bool,
) -> Heard
    requires calls { MayCall (S.meanings graph.now.bench.bodies.now) graph.now.book.run graph.now.book.items graph.now.book.events graph.now.pool caller.old.chair caller.old.worker.chair caller.old.worker.busy caller.old.worker.post }
    requires works { MayWork (S.meanings graph.now.bench.bodies.now) graph.now.book.run graph.now.book.items graph.now.book.events graph.now.pool worker.old.chair worker.old.busy worker.old.post }
    requires puts { takes_puts graph.now.book.run.shape 0 0 ≡ true }
    ensures caller { (caller.new.chair.about ≡ about_of graph.now.book.run graph.now.book.items graph.now.book.events) × (caller.new.worker.chair.about ≡ about_of graph.now.book.run graph.now.book.items graph.now.book.events) }
    ensures worker { worker.new.chair.about ≡ about_of graph.now.book.run graph.now.book.items graph.now.book.events }
{
    let answer = put_where(rt, alloc, graph, caller, puts);
    let first = ask(rt, graph, worker);
    let left = leave(rt, graph, caller);
    let second = work(rt, alloc, graph, worker);
    let third = ask(rt, graph, worker);
    Heard {
        answer,
        ends: [first, second, third],
        left,
    }
}

// Whether the caller waits before it leaves, and whether it puts 5 before.
#[derive(Clone, Copy)]
struct Plan {
    waits: bool,
    puts: bool,
}

// The caller and the worker do as is planned.
fn told<B: Naming, R: Wait, S: Bodies, G: Gate>(
    rt: &R,
    alloc: Global,
    graph: &Graph<S, G, B>,
    caller: &mut Caller<B>,
    worker: &mut Worker<B>,
    plan: Plan,
) -> Heard
    requires calls { MayCall (S.meanings graph.now.bench.bodies.now) graph.now.book.run graph.now.book.items graph.now.book.events graph.now.pool caller.old.chair caller.old.worker.chair caller.old.worker.busy caller.old.worker.post }
    requires works { MayWork (S.meanings graph.now.bench.bodies.now) graph.now.book.run graph.now.book.items graph.now.book.events graph.now.pool worker.old.chair worker.old.busy worker.old.post }
    requires puts { takes_puts graph.now.book.run.shape 0 0 ≡ true }
    ensures caller { (caller.new.chair.about ≡ about_of graph.now.book.run graph.now.book.items graph.now.book.events) × (caller.new.worker.chair.about ≡ about_of graph.now.book.run graph.now.book.items graph.now.book.events) }
    ensures worker { worker.new.chair.about ≡ about_of graph.now.book.run graph.now.book.items graph.now.book.events }
{
    if plan.waits {
        waited(rt, alloc, graph, caller, worker, plan.puts)
    } else {
        left(rt, alloc, graph, caller, worker, plan.puts)
    }
}

fn tried_named<B: Naming, R: Wait + Abort>(
    rt: &R,
    alloc: Global,
    doc: &Doc,
    plan: Plan,
    items: u64,
    events: u64,
    opened: Opened<GraphMachine>,
) -> Ran
    requires name { opened ≡ B.table }
    requires fits { doc_fits 10 doc.now ≡ true }
    requires built { list_all is_built doc.now.shape.nodes ≡ true }
    requires puts { takes_puts doc.now.shape 0 0 ≡ true }
    requires one { length doc.now.scripts ≡ 1 }
    requires limits { (items < 2 ^ 62) × (events < 2 ^ 62) }
{
    let mut pair = opened_pair::<B, _, _, _>(
        rt, alloc, doc, &Builtin, &NoGate, items, events, opened,
    );
    let lent = &mut pair;
    let told = told(
        rt,
        alloc,
        &lent.graph,
        &mut lent.caller,
        &mut lent.worker,
        plan,
    );
    let (journal, kept) = close(rt, alloc, pair);
    Ran {
        told,
        journal,
        kept,
    }
}

// A caller and a worker of this node alone.
fn tried<R: Wait + Abort>(
    rt: &R,
    alloc: Global,
    kind: Kind,
    plan: Plan,
    items: u64,
    events: u64,
) -> Ran
    requires kind { is_tried kind ([] ∷ []) ≡ true }
    requires limits { (items < 2 ^ 62) × (events < 2 ^ 62) }
{
    let doc = alone(rt, alloc, kind, one_script(rt, alloc));
    let opened = Opened::<GraphMachine>::new(alloc).ok().expect(rt, "a line");
    tried_named::<Brand, R>(rt, alloc, &doc, plan, items, events, opened)
}

const QUEUE: Kind = Kind::Queue { capacity: None };

// A function of one body at a time, with the argument 1.
fn function(body: u32) -> Kind
    ensures { result ≡ K.Function false (Some 1) body (V.Int (pos 1)) }
{
    Kind::Function {
        reject: false,
        limit: Some(1),
        body,
        arg: Val::Int(1),
    }
}

const WAITS: Plan = Plan {
    waits: true,
    puts: false,
};

const PUTS_AND_WAITS: Plan = Plan {
    waits: true,
    puts: true,
};

const LEAVES: Plan = Plan {
    waits: false,
    puts: false,
};

const PUTS_AND_LEAVES: Plan = Plan {
    waits: false,
    puts: true,
};

// What is to come of a caller and a worker.
#[derive(Clone, Copy)]
struct Want<'a> {
    // The letter of the put's answer.
    answer: u8,
    // How the three waits end.
    ends: &'a [u8; 3],
    // Whether the caller can leave.
    left: bool,
    // The journal's events: puts, starts, ends, closed casts, idles and leaves.
    journal: &'a [u8],
    // The letter of the event that is refused.
    kept: u8,
}

// Whether the journal has these events.
fn reads(journal: &[Event], letters: &[u8]) -> bool {
    let mut at = 0_usize;
    for event in journal {
        match letters.get(at) {
            Some(next) if event_letter(event) == *next => {}
            _ => return false,
        }
        at = at.saturating_add(1);
    }
    at == letters.len()
}

// The letter of a put's answer: nothing was put, it was accepted as item 0, it was refused at a limit, or another.
fn answer_letter(answer: Option<Result<PutAnswer, Stop>>) -> u8 {
    match answer {
        None => b'-',
        Some(
            Ok(
                PutAnswer::Accepted {
                    no: 0,
                    land: Land::Kept,
                },
            ),
        ) => b'a',
        Some(Err(Stop::Limit)) => b'l',
        _ => b'?',
    }
}

// The letter of the event that was refused: none, the put of 5, the end that brings 6, or another.
fn kept_letter(kept: Option<&Event>) -> u8 {
    match kept {
        None => b'-',
        Some(
            Event::Put {
                caller: 0,
                node: 0,
                val: Val::Int(5),
                ..
            },
        ) => b'p',
        event => { if brings_six(event) { b'6' } else { b'?' } }
    }
}

// Whether the event is the first end of node 0, and brings 6.
fn brings_six(event: Option<&Event>) -> bool {
    let Some(
        Event::End {
            node: 0,
            item: 0,
            first: 1,
            outs,
            ..
        },
    ) = event
    else {
        return false;
    };
    outs.len() == 1
        && matches!(
            outs.get(0),
            Some(Msg {
                port: 0,
                tag: 0,
                val: Val::Int(6),
            })
        )
}

// The put was answered so, the waits ended so, and the caller could leave or couldn't.
fn told_so(rt: &impl Abort, told: Heard, want: Want) {
    assert!(rt; answer_letter(told.answer) == want.answer);
    assert!(rt; told.ends == *want.ends && told.left == want.left);
}

// The journal has these events, and this one was refused.
fn journal_so(rt: &impl Abort, ran: &Ran, want: Want) {
    assert!(rt; reads(ran.journal.as_slice(), want.journal));
    assert!(rt; kept_letter(ran.kept.as_ref()) == want.kept);
}

// This comes of a caller and a worker of this node alone.
fn comes<R: Wait + Abort>(
    rt: &R,
    alloc: Global,
    kind: Kind,
    plan: Plan,
    items: u64,
    events: u64,
    want: Want,
)
    requires kind { is_tried kind ([] ∷ []) ≡ true }
    requires limits { (items < 2 ^ 62) × (events < 2 ^ 62) }
{
    let ran = tried(rt, alloc, kind, plan, items, events);
    told_so(rt, ran.told, want);
    journal_so(rt, &ran, want);
}

// Row: nothing was put.
#[test]
fn nothing_to_wait_for(rt: HostRuntime) {
    let want = Want {
        answer: b'-',
        ends: b"qqq",
        left: true,
        journal: b"l",
        kept: b'-',
    };
    comes(&rt, rt.alloc(), QUEUE, WAITS, 9, 99, want);
}

#[test]
fn a_caller_that_waits_serves(rt: HostRuntime) {
    let want = Want {
        answer: b'a',
        ends: b"qqq",
        left: true,
        journal: b"pil",
        kept: b'-',
    };
    comes(&rt, rt.alloc(), QUEUE, PUTS_AND_WAITS, 9, 99, want);
}

#[test]
fn a_worker_whose_callers_left(rt: HostRuntime) {
    let want = Want {
        answer: b'-',
        ends: b"-qq",
        left: true,
        journal: b"l",
        kept: b'-',
    };
    comes(&rt, rt.alloc(), QUEUE, LEAVES, 9, 99, want);
}

#[test]
fn a_worker_serves(rt: HostRuntime) {
    let want = Want {
        answer: b'a',
        ends: b"-qq",
        left: true,
        journal: b"plseci",
        kept: b'-',
    };
    comes(&rt, rt.alloc(), function(0), PUTS_AND_LEAVES, 9, 99, want);
}

// The journal's third event is the first end of node 0, and brings 6.
fn third_brings_six(rt: &impl Abort, ran: &Ran) {
    assert!(rt; brings_six(ran.journal.get(2)));
}

// So ends a run of a body that brings 6.
const BODY_RAN: Want = Want {
    answer: b'a',
    ends: b"qqq",
    left: true,
    journal: b"psecil",
    kept: b'-',
};

#[test]
fn a_body_runs(rt: HostRuntime) {
    let ran = tried(&rt, rt.alloc(), function(0), PUTS_AND_WAITS, 9, 99);
    told_so(&rt, ran.told, BODY_RAN);
    journal_so(&rt, &ran, BODY_RAN);
    third_brings_six(&rt, &ran);
}

// No item may be born, so the put is refused: all waits tell the limit, and the caller can leave.
#[test]
fn no_item_is_left(rt: HostRuntime) {
    let want = Want {
        answer: b'l',
        ends: b"lll",
        left: true,
        journal: b"l",
        kept: b'p',
    };
    comes(&rt, rt.alloc(), QUEUE, PUTS_AND_WAITS, 0, 9, want);
}

// No event may be made: the caller can't leave either.
#[test]
fn no_event_is_left(rt: HostRuntime) {
    let want = Want {
        answer: b'l',
        ends: b"lll",
        left: false,
        journal: b"",
        kept: b'p',
    };
    comes(&rt, rt.alloc(), QUEUE, PUTS_AND_LEAVES, 9, 0, want);
}

// A body ran, and its end is refused: the caller that waited runs it still, and waits no more.
#[test]
fn an_end_is_refused(rt: HostRuntime) {
    let want = Want {
        answer: b'a',
        ends: b"lll",
        left: true,
        journal: b"psli",
        kept: b'6',
    };
    comes(&rt, rt.alloc(), function(0), PUTS_AND_WAITS, 1, 99, want);
}

// A body found no memory.
#[test]
fn a_body_without_memory(rt: HostRuntime) {
    let want = Want {
        answer: b'a',
        ends: b"mmm",
        left: true,
        journal: b"psli",
        kept: b'-',
    };
    comes(&rt, rt.alloc(), function(9), PUTS_AND_WAITS, 9, 99, want);
}

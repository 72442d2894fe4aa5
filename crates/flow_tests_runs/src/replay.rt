// A report of what was kept, by a replay of the journal.
ghost use Rattle.std.specs.Prelude.{◌≡◌, None, true, [], ◌∷◌};
ghost use Rattle.flow_print.specs.Report.{MayBePrinted};
ghost use Rattle.flow_print.specs.Replayed.{IsBuilt};

use crate::called::{expect, same, sink};
use flow_doc::{Doc, Kept, Lives, Names, Nodes, Scripts};
use flow_item::{Event, Id, Item, Journal, Land, Link, PutAnswer, Text, Val};
use flow_print::{Status, print_report};
use flow_shape::{Edge, Edges, Kind, Kinds, Shape};
use std::process::Abort;
use std::test::*;

fn name(rt: &(impl Abort + AllocGlobal), text: &str) -> Text {
    Text::of(rt.alloc(), text).ok().expect(rt, "memory")
}

fn names(rt: &(impl Abort + AllocGlobal)) -> Names {
    let names = vec![in rt.alloc(); name(rt, "a"), name(rt, "b")].expect(rt, "memory");
    Names::from_vec(names)
}

// A queue that gives its item to a second one, which is shown.
fn two_queues(rt: &(impl Abort + AllocGlobal)) -> Doc
    ensures { result.shape ≡ record { nodes = Kind.Queue None ∷ Kind.Queue None ∷ []; edges = record { from = 0; out = 0; to = 1; port = 0 } ∷ [] } }
{
    let alloc = rt.alloc();
    let queue = Kind::Queue { capacity: None };
    let other = Kind::Queue { capacity: None };
    let nodes = vec![in alloc; queue, other].expect(rt, "memory");
    let edge = Edge {
        from: 0,
        out: 0,
        to: 1,
        port: 0,
    };
    let edges = vec![in alloc; edge].expect(rt, "memory");
    let sinks = vec![in alloc; 1].expect(rt, "memory");
    Doc {
        version: 1,
        names: names(rt),
        shape: Shape {
            nodes: Kinds::from_vec(nodes),
            edges: Edges::from_vec(edges),
        },
        scripts: Scripts::new(alloc),
        sinks: Nodes::from_vec(sinks),
    }
}

// What is kept of a run in which one item is put and given.
fn one_item_given(rt: &(impl Abort + AllocGlobal)) -> Kept
    ensures kept { MayBePrinted result.doc result.journal }
    ensures built { IsBuilt result.doc }
{
    let alloc = rt.alloc();
    let doc = two_queues(rt);
    let put = Event::Put {
        caller: 0,
        node: 0,
        port: 0,
        tag: 0,
        val: Val::Int(5),
        answer: PutAnswer::Accepted {
            no: 0,
            land: Land::Kept,
        },
    };
    let give = Event::Give {
        link: Link {
            edge: 0,
            from: 0,
            to: 1,
            port: 0,
        },
        item: Item {
            id: Id { node: 0, no: 0 },
            tag: 0,
            val: Val::Int(5),
        },
        no: 0,
        land: Land::Kept,
    };
    let leave = Event::Leave { caller: 0 };
    let first = Event::Idle { node: 0 };
    let second = Event::Idle { node: 1 };
    let events = vec![in alloc; put, leave, give, first, second].expect(rt, "memory");
    Kept {
        doc: Some(doc),
        journal: Journal::of(events),
        refused: None,
        live: Lives::new(alloc),
    }
}

// The report of it, by a replay of its journal.
fn report(rt: &(impl Abort + AllocGlobal)) -> String {
    let alloc = rt.alloc();
    let kept = one_item_given(rt);
    let mut sink = sink(rt);
    let answer = print_report(alloc, &kept, Status::Done, true, &mut sink);
    assert!(rt; answer.is_ok());
    String::from_utf8(sink.bytes).ok().expect(rt, "a text")
}

const ONE_ITEM: &str = r#"sinks 1
b 1
0 5
tally 2
a in 1 out 1 eaten 0 lost 0 over 0 kept 0
b in 1 out 0 eaten 0 lost 0 over 0 kept 1
journal 5
put 0 0 0 0 accepted 0 kept 5
leave 0
give 0 0 1 0 0 0 kept 0 5
idle 0
idle 1
events 5 items 2 refused 0 status 0
"#;

const TWO_QUEUES: &str =
    r#"{"version":1,"nodes":[{"name":"a","kind":"queue"},{"name":"b","kind":"queue"}],"edges":[{"from":"a","to":"b"}],"callers":[[{"put":"a","val":5}]],"sinks":["b"]}"#;

// The report by a replay of the journal is that by the nodes that a run hands on.
#[test]
fn reports_by_replay(rt: HostRuntime) {
    let text = report(&rt);
    same(&rt, text.as_str(), ONE_ITEM);
    expect(
        &rt,
        "plain --journal",
        TWO_QUEUES,
        0,
        ONE_ITEM,
        "two queues",
    );
}

ghost use Rattle.std.specs.Prelude.{◌≡◌, ◌<◌, true, length};
ghost use Rattle.flow_doc.specs.Fits.{doc_fits};

use crate::told::{number, parted, same};
use crate::values::{text, value};
use flow_body::{Add, Body, Named, Shelf};
use flow_doc::{Doc, Names, Nodes, Scripts};
use flow_item::{Items, Val};
use flow_mean::{TagMap, determinate, meaning};
use flow_shape::{Edge, Edges, Kind, Kinds, Shape, Step};
use std::process::Abort;

// A sequencer before a queue, with a gap at tag 2.
fn gap(rt: &(impl Abort + AllocGlobal)) -> Doc
    ensures fits { doc_fits 1 result ≡ true }
    ensures nodes { length result.shape.nodes ≡ 2 }
{
    let alloc = rt.alloc();
    let names = vec![in alloc; text(rt, "s"), text(rt, "q")].expect(rt, "memory");
    let nodes = vec![in alloc; Kind::Sequencer, Kind::Queue { capacity: None }].expect(
        rt, "memory",
    );
    let edge = Edge {
        from: 0,
        out: 0,
        to: 1,
        port: 0,
    };
    let edges = vec![in alloc; edge].expect(rt, "memory");
    let first = Step::Put {
        node: 0,
        port: 0,
        tag: 1,
        val: Val::Int(7),
    };
    let second = Step::Put {
        node: 0,
        port: 0,
        tag: 0,
        val: Val::Int(5),
    };
    let third = Step::Put {
        node: 0,
        port: 0,
        tag: 3,
        val: Val::Int(9),
    };
    let steps = vec![in alloc; first, second, third].expect(rt, "memory");
    let scripts = vec![in alloc; Items::from_vec(steps)].expect(rt, "memory");
    Doc {
        version: 1,
        names: Names::from_vec(names),
        shape: Shape {
            nodes: Kinds::from_vec(nodes),
            edges: Edges::from_vec(edges),
        },
        scripts: Scripts::from_vec(scripts),
        sinks: Nodes::new(alloc),
    }
}

// A join by tag before a sequencer that is shown; only tag 1 comes to both ports.
fn pairs(rt: &(impl Abort + AllocGlobal)) -> Doc
    ensures fits { doc_fits 1 result ≡ true }
    ensures nodes { length result.shape.nodes ≡ 2 }
{
    let alloc = rt.alloc();
    let names = vec![in alloc; text(rt, "j"), text(rt, "s")].expect(rt, "memory");
    let nodes = vec![in alloc; Kind::KeyJoin { ports: 2 }, Kind::Sequencer].expect(rt, "memory");
    let edge = Edge {
        from: 0,
        out: 0,
        to: 1,
        port: 0,
    };
    let edges = vec![in alloc; edge].expect(rt, "memory");
    let first = Step::Put {
        node: 0,
        port: 0,
        tag: 0,
        val: Val::Int(1),
    };
    let second = Step::Put {
        node: 0,
        port: 1,
        tag: 1,
        val: Val::Int(3),
    };
    let third = Step::Put {
        node: 0,
        port: 0,
        tag: 1,
        val: Val::Int(2),
    };
    let steps = vec![in alloc; first, second, third].expect(rt, "memory");
    let scripts = vec![in alloc; Items::from_vec(steps)].expect(rt, "memory");
    let sinks = vec![in alloc; 1u32].expect(rt, "memory");
    Doc {
        version: 1,
        names: Names::from_vec(names),
        shape: Shape {
            nodes: Kinds::from_vec(nodes),
            edges: Edges::from_vec(edges),
        },
        scripts: Scripts::from_vec(scripts),
        sinks: Nodes::from_vec(sinks),
    }
}

// A function that adds 1, before a queue.
fn sums(rt: &(impl Abort + AllocGlobal)) -> Doc
    ensures fits { doc_fits 1 result ≡ true }
    ensures nodes { length result.shape.nodes ≡ 2 }
{
    let alloc = rt.alloc();
    let names = vec![in alloc; text(rt, "f"), text(rt, "q")].expect(rt, "memory");
    let nodes = vec![in alloc;
        Kind::Function {
            reject: false,
            limit: Some(1),
            body: 0,
            arg: Val::Int(1)
        },
        Kind::Queue { capacity: None },
    ]
    .expect(rt, "memory");
    let edge = Edge {
        from: 0,
        out: 0,
        to: 1,
        port: 0,
    };
    let edges = vec![in alloc; edge].expect(rt, "memory");
    let first = Step::Put {
        node: 0,
        port: 0,
        tag: 4,
        val: Val::Int(5),
    };
    let second = Step::Put {
        node: 0,
        port: 0,
        tag: 2,
        val: Val::Int(1),
    };
    let steps = vec![in alloc; first, second].expect(rt, "memory");
    let scripts = vec![in alloc; Items::from_vec(steps)].expect(rt, "memory");
    Doc {
        version: 1,
        names: Names::from_vec(names),
        shape: Shape {
            nodes: Kinds::from_vec(nodes),
            edges: Edges::from_vec(edges),
        },
        scripts: Scripts::from_vec(scripts),
        sinks: Nodes::new(alloc),
    }
}

// A shelf of this body.
fn shelf_of(rt: &(impl Abort + AllocGlobal), add: Box<dyn Body + Send + Sync>) -> Shelf
    ensures { length result.bodies.items ≡ 1 }
{
    let add = Named {
        name: text(rt, "add"),
        body: add,
    };
    let bodies = vec![in rt.alloc(); add].expect(rt, "memory");
    Shelf::new(rt.alloc(), bodies).ok().expect(rt, "memory")
}

// What a node of a determinate document means.
fn meant(rt: &(impl Abort + AllocGlobal), doc: &Doc, node: u32) -> TagMap
    requires fits { doc_fits 1 doc.now ≡ true }
    requires within { node < length doc.now.shape.nodes }
{
    let shelf = shelf_of(rt, Box::new(rt.alloc(), Add).expect(rt, "memory"));
    determinate(rt.alloc(), doc, &shelf)
        .ok()
        .expect(rt, "a determinate document");
    meaning(rt.alloc(), doc, &shelf, node)
        .ok()
        .expect(rt, "memory")
}

// Each tag with its value, by rising tag.
fn told(rt: &(impl Abort + AllocGlobal), map: &TagMap) -> String {
    let mut all = String::new(rt.alloc());
    for k in 0..map.len() {
        let (tag, val) = map.get(k).expect(rt, "a pair");
        let pair = format!(in rt.alloc(); "{tag} {val:?};").expect(rt, "memory");
        all.push_str(pair.as_str()).expect(rt, "memory");
    }
    all
}

// The same of lines of a tag and the words of a value.
fn expected(rt: &(impl Abort + AllocGlobal), lines: &str) -> String {
    let mut all = String::new(rt.alloc());
    for line in lines.split('\n') {
        let (tag, words) = parted(rt, line, " ");
        let val = value(rt, words);
        let pair = format!(in rt.alloc(); "{tag} {val:?};").expect(rt, "memory");
        all.push_str(pair.as_str()).expect(rt, "memory");
    }
    all
}

fn means(rt: &(impl Abort + AllocGlobal), map: &TagMap, lines: &str) {
    let pairs = told(rt, map);
    let expected = expected(rt, lines);
    same(rt, pairs.as_str(), expected.as_str());
}

#[test]
fn a_sequencer_stops_at_a_gap(rt: HostRuntime) {
    let doc = gap(&rt);
    means(&rt, &meant(&rt, &doc, 0), "0 5\n1 7");
    number(&rt, meant(&rt, &doc, 1).len() as u64, 0);
}

#[test]
fn a_tuple_has_a_tag_of_all_ports(rt: HostRuntime) {
    let doc = pairs(&rt);
    means(&rt, &meant(&rt, &doc, 0), "1 [] 2 + 3 +");
    means(&rt, &meant(&rt, &doc, 1), "1 [] 2 + 3 +");
}

#[test]
fn a_function_passes_by_rising_tag(rt: HostRuntime) {
    let doc = sums(&rt);
    means(&rt, &meant(&rt, &doc, 0), "2 2\n4 6");
}

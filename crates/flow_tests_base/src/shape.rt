//! Shapes, the rules that they break, and their orders.
use crate::checks::{holds, text};
use flow_item::Val;
use flow_shape::{CheckFault, Edge, Edges, Kind, Kinds, Order, Shape, ShapeFault};
use std::process::Abort;

fn edge(from: u32, out: u32, to: u32, port: u32) -> Edge {
    Edge {
        from,
        out,
        to,
        port,
    }
}

/// Such nodes with edges from port 0 to port 0.
fn joined(rt: &(impl Abort + AllocGlobal), nodes: Vec<Kind>, ends: &[(u32, u32)]) -> Shape {
    let mut edges = Vec::new(rt.alloc());
    for (from, to) in ends {
        edges.push(edge(*from, 0, *to, 0)).expect(rt, "memory");
    }
    Shape {
        nodes: Kinds::from_vec(nodes),
        edges: Edges::from_vec(edges),
    }
}

/// So many queues with edges from port 0 to port 0.
pub fn queues(rt: &(impl Abort + AllocGlobal), count: u32, ends: &[(u32, u32)]) -> Shape {
    let mut nodes = Vec::new(rt.alloc());
    for _node in 0..count {
        nodes
            .push(Kind::Queue { capacity: None })
            .expect(rt, "memory");
    }
    joined(rt, nodes, ends)
}

/// Two queues with this edge.
fn linked(rt: &(impl Abort + AllocGlobal), edge: Edge) -> Shape {
    let mut shape = queues(rt, 2, &[]);
    assert!(rt; shape.edges.push(edge).is_ok());
    shape
}

fn one(rt: &(impl Abort + AllocGlobal), kind: Kind) -> Shape {
    let nodes = vec![in rt.alloc(); kind].expect(rt, "memory");
    joined(rt, nodes, &[])
}

fn two(rt: &(impl Abort + AllocGlobal), from: Kind, to: Kind) -> Shape {
    let nodes = vec![in rt.alloc(); from, to].expect(rt, "memory");
    joined(rt, nodes, &[(0, 1)])
}

fn limiter(threshold: u32) -> Kind {
    Kind::Limiter {
        threshold,
        by_value: false,
    }
}

fn function(limit: u32) -> Kind {
    Kind::Function {
        reject: false,
        limit: Some(limit),
        body: 0,
        arg: Val::Int(1),
    }
}

fn word(rt: &(impl Abort + AllocGlobal), text: &str) -> String {
    String::from_str(rt.alloc(), text).expect(rt, "memory")
}

fn fault_text(rt: &(impl Abort + AllocGlobal), fault: ShapeFault) -> String {
    format!(in rt.alloc(); "{:?} {}", fault.rule, fault.at).expect(rt, "memory")
}

fn verdict(rt: &(impl Abort + AllocGlobal), shape: &Shape) -> String {
    match shape.check(rt.alloc()) {
        Ok(()) => word(rt, "valid"),
        Err(CheckFault::Shape(fault)) => fault_text(rt, fault),
        Err(CheckFault::Memory) => panic!(rt; "memory"),
    }
}

/// The shape and its copy are judged so.
fn judged(rt: &(impl Abort + AllocGlobal), shape: Shape, want: &str) {
    text(rt, verdict(rt, &shape).as_str(), want);
    let copy = shape.copy(rt.alloc()).expect(rt, "memory");
    text(rt, verdict(rt, &copy).as_str(), want);
}

#[test]
fn each_rule_is_judged(rt: HostRuntime) {
    judged(&rt, queues(&rt, 0, &[]), "valid");
    judged(&rt, queues(&rt, 512, &[(0, 511)]), "valid");
    judged(&rt, queues(&rt, 513, &[]), "G1 513");
    judged(&rt, one(&rt, Kind::KeyJoin { ports: 9 }), "G3 0");
    judged(&rt, one(&rt, Kind::Split { outs: 0 }), "G3 0");
    judged(&rt, one(&rt, function(0)), "G4 0");
    judged(&rt, one(&rt, function(1_000_000)), "valid");
    judged(&rt, one(&rt, limiter(1_000_001)), "G5 0");
    judged(&rt, queues(&rt, 2, &[(0, 1), (1, 2)]), "G6 1");
    judged(&rt, linked(&rt, edge(0, 1, 1, 0)), "G7 0");
    judged(&rt, linked(&rt, edge(0, 0, 1, 1)), "G8 0");
    judged(&rt, queues(&rt, 1, &[(0, 0)]), "G9 0");
    let hands = two(&rt, limiter(1), Kind::HoldJoin { ports: 2 });
    judged(&rt, hands, "G10 0");
    judged(&rt, two(&rt, limiter(1), limiter(1)), "G11 0");
    let kept = two(&rt, Kind::Overwrite, Kind::HoldJoin { ports: 1 });
    judged(&rt, kept, "G12 1");
    let passed = two(&rt, Kind::Priority, Kind::HoldJoin { ports: 1 });
    judged(&rt, passed, "valid");
    judged(&rt, one(&rt, Kind::Buffer { capacity: Some(0) }), "G13 0");
}

/// The order of the nodes, where there is one.
fn order(rt: &(impl Abort + AllocGlobal), shape: &Shape) -> Option<Order> {
    assert!(rt; shape.check(rt.alloc()).is_ok());
    shape.topo(rt.alloc()).expect(rt, "memory")
}

/// The order of the nodes as a text.
fn sorted(rt: &(impl Abort + AllocGlobal), shape: &Shape) -> String {
    match order(rt, shape) {
        Some(order) => format!(in rt.alloc(); "{:?}", order.as_slice()).expect(rt, "memory"),
        None => word(rt, "none"),
    }
}

/// So many queues with such edges are sorted so.
fn sorts(rt: &(impl Abort + AllocGlobal), count: u32, ends: &[(u32, u32)], want: &str) {
    let shape = queues(rt, count, ends);
    text(rt, sorted(rt, &shape).as_str(), want);
}

#[test]
fn nodes_are_sorted(rt: HostRuntime) {
    sorts(&rt, 0, &[], "[]");
    sorts(&rt, 2, &[(0, 1)], "[0, 1]");
    sorts(&rt, 2, &[(1, 0)], "[1, 0]");
    sorts(&rt, 2, &[(0, 1), (1, 0)], "none");
    sorts(&rt, 4, &[(3, 2), (2, 1), (1, 0), (3, 0)], "[3, 2, 1, 0]");
    sorts(&rt, 3, &[(0, 1), (0, 1), (1, 2)], "[0, 1, 2]");
    sorts(&rt, 4, &[(0, 1), (1, 2), (2, 3), (3, 1)], "none");
}

/// An edge from a copy of such a node to a priority node.
fn above(rt: &(impl Abort + AllocGlobal), kind: &Kind) -> Shape {
    let from = kind.copy(rt.alloc()).expect(rt, "memory");
    two(rt, from, Kind::Priority)
}

/// Whether the only edge switches.
fn has_switching_edge(rt: &impl Abort, shape: &Shape) -> bool {
    assert!(rt; shape.edges.len() == 1);
    shape.switching(0)
}

fn switches(rt: &(impl Abort + AllocGlobal), kind: &Kind) -> bool {
    has_switching_edge(rt, &above(rt, kind))
}

#[test]
fn kinds_switch(rt: HostRuntime) {
    holds(&rt, switches(&rt, &Kind::Queue { capacity: Some(3) }));
    holds(&rt, switches(&rt, &limiter(1)));
    holds(&rt, switches(&rt, &Kind::KeyJoin { ports: 1 }));
    holds(&rt, !switches(&rt, &function(1)));
    holds(&rt, !switches(&rt, &Kind::Broadcast));
}

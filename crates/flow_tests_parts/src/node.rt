ghost use Rattle.std.specs.Prelude.{◌≡◌, ℕ, Some, None, true, false, [], ◌∷◌, not, nat_eq, IfSome};
ghost use Rattle.flow_shape.specs.Kinds.{is_for_callers, is_async};
ghost use Rattle.flow_shape.specs.Places.{Place, place_at, is_wired};
ghost use Rattle.flow_machine.specs.WishEvents.{event_of};
ghost use Rattle.flow_machine.specs.declared.Wish.TheVariants as W;
ghost use Rattle.flow_node.specs.Built.{is_built, is_within_limits};
ghost use Rattle.flow_node.specs.NodeViews.{found_other};
ghost use Rattle.flow_shape.specs.declared.Shape.{Shape};

use crate::checks::{is, none, number, some};
use flow_item::{Ended, Event, Ids, Item, Land, Link, Outs, Val};
use flow_machine::Wish;
use flow_node::NodeState;
use flow_shape::{Edge, Edges, Kind, Kinds, Shape};
use std::process::Abort;
use std::test::*;

/// An edge from port 0 of node 0 to port 0 of this node.
fn edge(to: u32) -> Edge
    ensures { result ≡ record { from = 0; out = 0; to = to; port = 0 } }
{
    Edge {
        from: 0,
        out: 0,
        to,
        port: 0,
    }
}

/// Edge x, which goes from node 0 to node x + 1.
fn link(x: u32, to: u32) -> Link
    ensures { result ≡ record { edge = x; from = 0; to = to; port = 0 } }
{
    Link {
        edge: x,
        from: 0,
        to,
        port: 0,
    }
}

/// Two edges out of node 0.
fn two_edges(rt: &(impl Abort + AllocGlobal)) -> Edges
    ensures { result
        ≡ record { from = 0; out = 0; to = 1; port = 0 } ∷ record { from = 0; out = 0; to = 2; port = 0 } ∷ [] }
{
    let mut edges = Vec::new(rt.alloc());
    edges.push(edge(1)).ok().expect(rt, "memory");
    edges.push(edge(2)).ok().expect(rt, "memory");
    Edges::from_vec(edges)
}

/// A node of this kind, and two queues.
fn kinds(rt: &(impl Abort + AllocGlobal), kind: Kind) -> Kinds
    ensures { result ≡ kind ∷ Kind.Queue None ∷ Kind.Queue None ∷ [] }
{
    let mut nodes = Vec::new(rt.alloc());
    nodes.push(kind).ok().expect(rt, "memory");
    nodes
        .push(Kind::Queue { capacity: None })
        .ok()
        .expect(rt, "memory");
    nodes
        .push(Kind::Queue { capacity: None })
        .ok()
        .expect(rt, "memory");
    Kinds::from_vec(nodes)
}

/// Node 0 of this kind, with edges to the queues 1 and 2.
fn fork(rt: &(impl Abort + AllocGlobal), kind: Kind) -> Shape
    ensures { result
        ≡ record { nodes = kind ∷ Kind.Queue None ∷ Kind.Queue None ∷ []; edges = record { from = 0; out = 0; to = 1; port = 0 } ∷ record { from = 0; out = 0; to = 2; port = 0 } ∷ [] } }
{
    let nodes = kinds(rt, kind);
    let edges = two_edges(rt);
    Shape { nodes, edges }
}

/// Node 0 of a shape with two edges out of it, at its start.
fn first_node(rt: &(impl Abort + AllocGlobal), kind: Kind) -> NodeState
    requires built { is_built kind ≡ true }
    requires limited { is_within_limits kind ≡ true }
    ensures number { result.node.place.node ≡ 0 }
    ensures kind { result.node.place.kind ≡ kind }
    ensures first { is_wired result.node.place record { edge = 0; from = 0; to = 1; port = 0 } ≡ true }
    ensures second { is_wired result.node.place record { edge = 1; from = 0; to = 2; port = 0 } ≡ true }
{
    let shape = fork(rt, kind);
    NodeState::new(rt.alloc(), 0, &shape)
        .ok()
        .expect(rt, "memory")
}

/// A caller puts a number to a port of node 0.
fn put(rt: &impl Abort, node: &mut NodeState, port: u32, tag: u64, val: i64)
    requires number { node.old.node.place.node ≡ 0 }
    requires callers { is_for_callers node.old.node.place.kind port ≡ true }
    ensures { node.new.node.place ≡ node.old.node.place }
{
    let answer = node.put_answer(port, tag);
    let e = Event::Put {
        caller: 0,
        node: 0,
        port,
        tag,
        val: Val::Int(val),
        answer,
    };
    node.prepare(&e).ok().expect(rt, "memory");
    node.apply_one(&e);
}

fn copied(rt: &(impl Abort + AllocGlobal), item: &Item) -> Item
    ensures { result ≡ item.now }
{
    item.copy(rt.alloc()).ok().expect(rt, "memory")
}

/// The value of the item that goes over an edge, where one may go.
fn give(rt: &(impl Abort + AllocGlobal), node: &mut NodeState, link: Link) -> Option<Val>
    requires number { node.old.node.place.node ≡ 0 }
    requires wired { is_wired node.old.node.place link ≡ true }
    requires from { link.from ≡ 0 }
    requires apart { nat_eq link.from link.to ≡ false }
    ensures { node.new.node.place ≡ node.old.node.place }
{
    let item = match node.candidate_item(link.edge) {
        Some(item) => copied(rt, item),
        None => return None,
    };
    let e = Event::Give {
        link,
        item,
        no: 0,
        land: Land::Kept,
    };
    node.prepare(&e).ok().expect(rt, "memory");
    node.apply_from(&e)
}

/// Whether node 0 is idle from then on.
fn idle(rt: &impl Abort, node: &mut NodeState) -> bool
    requires number { node.old.node.place.node ≡ 0 }
    ensures { node.new.node.place ≡ node.old.node.place }
{
    if !node.due() || !node.at_rest() {
        return false;
    }
    let e = Event::Idle { node: 0 };
    node.prepare(&e).ok().expect(rt, "memory");
    node.apply_one(&e);
    true
}

/// The item whose body starts at node 0.
fn start(rt: &impl Abort, node: &mut NodeState) -> Option<u64>
    requires number { node.old.node.place.node ≡ 0 }
    ensures { node.new.node.place ≡ node.old.node.place }
{
    let item = match node.first_ready() {
        Some(item) => item.id.no,
        None => return None,
    };
    let e = Event::Start {
        worker: 0,
        node: 0,
        item,
    };
    node.prepare(&e).ok().expect(rt, "memory");
    node.apply_one(&e);
    Some(item)
}

/// Whether the body of the item ran at node 0, and ended with these messages.
fn end(rt: &impl Abort, node: &mut NodeState, item: u64, outs: Outs) -> bool
    requires number { node.old.node.place.node ≡ 0 }
    requires plain { is_async node.old.node.place.kind ≡ false }
    ensures { node.new.node.place ≡ node.old.node.place }
{
    if node.running(item).is_none() {
        return false;
    }
    let e = Event::End {
        worker: 0,
        node: 0,
        item,
        first: node.made(),
        outs,
    };
    node.prepare(&e).ok().expect(rt, "memory");
    node.apply_one(&e);
    true
}

/// How the cast on offer at node 0 ended, where that is its wish.
fn shut(rt: &impl Abort, node: &mut NodeState) -> Option<(u64, bool)>
    requires number { node.old.node.place.node ≡ 0 }
    ensures { node.new.node.place ≡ node.old.node.place }
{
    let (item, ended) = match node.wish() {
        Wish::Shut { item, ended } => (item, ended),
        _ => return None,
    };
    let e = Event::Shut {
        node: 0,
        item,
        ended,
    };
    node.prepare(&e).ok().expect(rt, "memory");
    node.apply_one(&e);
    Some((item, matches!(ended, Ended::Out)))
}

/// The number and the parts of a tuple, where the event forms one.
fn parts_of(event: Option<Event>) -> Option<(u64, Ids)>
    ensures { IfSome result (λ r. (n : ℕ) × (event ≡ Some (Event.Form n r.0 r.1))) }
{
    match event {
        Some(Event::Form { no, parts, .. }) => Some((no, parts)),
        _ => None,
    }
}

/// The event by which the node forms its next tuple.
fn wished_tuple(rt: &impl Abort, node: &NodeState) -> Option<Event>
    ensures { result ≡ event_of node.now.node (found_other None) 0 W.Form }
{
    node.event(None, 0, Wish::Form).ok().expect(rt, "memory")
}

/// The number of the tuple that node 0 forms, where it can form one.
fn form(rt: &impl Abort, node: &mut NodeState) -> Option<u64>
    requires number { node.old.node.place.node ≡ 0 }
    ensures { node.new.node.place ≡ node.old.node.place }
{
    let (no, parts) = parts_of(wished_tuple(rt, node))?;
    let e = Event::Form { node: 0, no, parts };
    node.prepare(&e).ok().expect(rt, "memory");
    node.apply_one(&e);
    Some(no)
}

/// The node wishes to offer this item over this edge.
fn offers(rt: &impl Abort, node: &NodeState, edge: u32, item: u64) {
    match node.wish() {
        Wish::Offer { edge: e, item: i } => assert!(rt; e == edge && i == item),
        _ => assert!(rt; false, "no offer of {item}"),
    }
}

/// The cast of this item has ended, and some edge took it (`out`) or none did.
fn ends(rt: &impl Abort, got: Option<(u64, bool)>, item: u64, out: bool) {
    match got {
        Some((i, o)) => assert!(rt; i == item && o == out),
        None => assert!(rt; false, "no end of {item}"),
    }
}

/// No value went.
fn nothing(rt: &impl Abort, val: Option<Val>) {
    is(rt, val.is_none());
}

/// The value that went is this number.
fn int(rt: &impl Abort, val: Option<Val>, want: i64) {
    match val {
        Some(Val::Int(got)) => assert!(rt; got == want, "{got} and not {want}"),
        _ => assert!(rt; false, "not {want}"),
    }
}

/// The value that went is a list of which these are the first two.
fn pair(rt: &impl Abort, val: Option<Val>, first: i64, second: i64) {
    match val {
        Some(Val::List(parts)) => {
            part(rt, parts.get(0), first);
            part(rt, parts.get(1), second);
        }
        _ => assert!(rt; false, "no pair"),
    }
}

/// The value is this number.
fn part(rt: &impl Abort, val: Option<&Val>, want: i64) {
    match val {
        Some(Val::Int(got)) => assert!(rt; *got == want, "{got} and not {want}"),
        _ => assert!(rt; false, "not {want}"),
    }
}

/// The tag of an item, where there is one.
fn tag(item: Option<&Item>) -> Option<u64> {
    match item {
        Some(item) => Some(item.tag),
        None => None,
    }
}

/// The numbers of the node: the next of an item, the items to print, and the open parts.
fn counts(rt: &impl Abort, node: &NodeState, made: u64, items: u64, open: u64) {
    number(rt, node.made(), made);
    number(rt, node.item_count() as u64, items);
    number(rt, node.open_parts(), open);
}

/// The node wishes nothing.
fn wishes_nothing(rt: &impl Abort, node: &NodeState) {
    match node.wish() {
        Wish::Nothing => {}
        _ => assert!(rt; false, "a wish"),
    }
}

/// The node wishes to form a tuple.
fn wishes_form(rt: &impl Abort, node: &NodeState) {
    match node.wish() {
        Wish::Form => {}
        _ => assert!(rt; false, "no tuple"),
    }
}

/// The item whose body the node wishes to start.
fn wished_start(node: &NodeState) -> Option<u64> {
    match node.wish() {
        Wish::Start { item } => Some(item),
        _ => None,
    }
}

#[test]
fn a_queue_passes_its_items_on(rt: HostRuntime) {
    let mut node = first_node(&rt, Kind::Queue { capacity: None });
    is(&rt, !node.due());
    wishes_nothing(&rt, &node);
    put(&rt, &mut node, 0, 9, 5);
    put(&rt, &mut node, 0, 8, 6);
    counts(&rt, &node, 2, 2, 1);
    some(&rt, tag(node.at(1)), 8);
    some(&rt, tag(node.item(0)), 9);
    offers(&rt, &node, 0, 0);
    int(&rt, give(&rt, &mut node, link(1, 2)), 5);
    is(&rt, !idle(&rt, &mut node));
    int(&rt, give(&rt, &mut node, link(0, 1)), 6);
    is(&rt, idle(&rt, &mut node));
    is(&rt, !node.due());
    counts(&rt, &node, 2, 0, 0);
}

/// A message of this number leaves by port `out`.
fn send(rt: &(impl Abort + AllocGlobal), outs: &mut Outs, out: u32, tag: u64, val: i64) {
    outs.push(rt.alloc(), out, tag, Val::Int(val))
        .ok()
        .expect(rt, "memory");
}

/// Two messages, at port 0 and at port 3, out of which no edge goes.
fn two_messages(rt: &(impl Abort + AllocGlobal)) -> Outs {
    let mut outs = Outs::new(rt.alloc());
    send(rt, &mut outs, 0, 4, 1);
    send(rt, &mut outs, 3, 7, 2);
    outs
}

#[test]
fn a_function_runs_its_bodies(rt: HostRuntime) {
    let kind = Kind::Function {
        reject: false,
        limit: Some(1),
        body: 0,
        arg: Val::Int(3),
    };
    let mut node = first_node(&rt, kind);
    put(&rt, &mut node, 0, 9, 5);
    put(&rt, &mut node, 0, 8, 6);
    counts(&rt, &node, 2, 0, 2);
    some(&rt, wished_start(&node), 0);
    is(&rt, node.at_rest());
    some(&rt, start(&rt, &mut node), 0);
    none(&rt, start(&rt, &mut node));
    is(&rt, !end(&rt, &mut node, 1, Outs::new(rt.alloc())));
    is(&rt, end(&rt, &mut node, 0, two_messages(&rt)));
    number(&rt, node.made(), 4);
    some(&rt, tag(node.first_ready()), 8);
    some(&rt, tag(node.item(3)), 7);
    offers(&rt, &node, 0, 2);
    int(&rt, give(&rt, &mut node, link(0, 1)), 1);
    none(&rt, node.candidate(0));
    offers(&rt, &node, 1, 2);
    is(&rt, shut(&rt, &mut node).is_none());
    int(&rt, give(&rt, &mut node, link(1, 2)), 1);
    ends(&rt, shut(&rt, &mut node), 2, true);
    ends(&rt, shut(&rt, &mut node), 3, false);
    some(&rt, start(&rt, &mut node), 1);
    is(&rt, end(&rt, &mut node, 1, Outs::new(rt.alloc())));
    is(&rt, idle(&rt, &mut node));
    number(&rt, node.open_parts(), 0);
    is(&rt, node.item(1).is_none());
}

/// Four puts to node 0 of this kind.
fn filled(rt: &(impl Abort + AllocGlobal), kind: Kind) -> NodeState
    requires built { is_built kind ≡ true }
    requires limited { is_within_limits kind ≡ true }
    requires callers { is_for_callers kind 0 ≡ true }
    ensures number { result.node.place.node ≡ 0 }
    ensures first { is_wired result.node.place record { edge = 0; from = 0; to = 1; port = 0 } ≡ true }
{
    let mut node = first_node(rt, kind);
    put(rt, &mut node, 0, 1, 5);
    put(rt, &mut node, 0, 3, 9);
    put(rt, &mut node, 0, 0, 7);
    put(rt, &mut node, 0, 1, 8);
    node
}

/// The value of the item that goes over edge 0 of node 0.
fn goes(rt: &(impl Abort + AllocGlobal), node: &mut NodeState, want: i64)
    requires number { node.old.node.place.node ≡ 0 }
    requires first { is_wired node.old.node.place record { edge = 0; from = 0; to = 1; port = 0 } ≡ true }
    ensures { node.new.node.place ≡ node.old.node.place }
{
    int(rt, give(rt, node, link(0, 1)), want);
}

#[test]
fn a_buffer_passes_its_items_on(rt: HostRuntime) {
    let mut node = filled(&rt, Kind::Buffer { capacity: None });
    goes(&rt, &mut node, 5);
    goes(&rt, &mut node, 9);
    goes(&rt, &mut node, 7);
    number(&rt, node.item_count() as u64, 1);
}

#[test]
fn a_priority_node_passes_its_items_on(rt: HostRuntime) {
    let mut node = filled(&rt, Kind::Priority);
    goes(&rt, &mut node, 9);
    goes(&rt, &mut node, 8);
    goes(&rt, &mut node, 7);
    number(&rt, node.item_count() as u64, 1);
}

#[test]
fn a_sequencer_passes_its_items_on(rt: HostRuntime) {
    let mut node = filled(&rt, Kind::Sequencer);
    goes(&rt, &mut node, 7);
    goes(&rt, &mut node, 5);
    nothing(&rt, give(&rt, &mut node, link(0, 1)));
    number(&rt, node.item_count() as u64, 1);
}

#[test]
fn a_queueing_join_offers_its_tuple_until_all_have_it(rt: HostRuntime) {
    let mut node = first_node(&rt, Kind::QueueJoin { ports: 2 });
    put(&rt, &mut node, 1, 7, 10);
    none(&rt, form(&rt, &mut node));
    put(&rt, &mut node, 0, 8, 20);
    put(&rt, &mut node, 0, 9, 30);
    put(&rt, &mut node, 1, 9, 40);
    wishes_form(&rt, &node);
    is(&rt, !node.at_rest());
    some(&rt, form(&rt, &mut node), 4);
    none(&rt, form(&rt, &mut node));
    some(&rt, tag(node.item(4)), 8);
    offers(&rt, &node, 0, 4);
    is(&rt, shut(&rt, &mut node).is_none());
    pair(&rt, give(&rt, &mut node, link(0, 1)), 20, 10);
    offers(&rt, &node, 1, 4);
    is(&rt, shut(&rt, &mut node).is_none());
    pair(&rt, give(&rt, &mut node, link(1, 2)), 20, 10);
    ends(&rt, shut(&rt, &mut node), 4, true);
    some(&rt, form(&rt, &mut node), 5);
    counts(&rt, &node, 6, 0, 1);
}

/// The next tuple of node 0, which goes over both edges.
fn tuple(rt: &(impl Abort + AllocGlobal), node: &mut NodeState) -> Option<Val>
    requires number { node.old.node.place.node ≡ 0 }
    requires first { is_wired node.old.node.place record { edge = 0; from = 0; to = 1; port = 0 } ≡ true }
    requires second { is_wired node.old.node.place record { edge = 1; from = 0; to = 2; port = 0 } ≡ true }
    ensures { node.new.node.place ≡ node.old.node.place }
{
    form(rt, node);
    let given = give(rt, node, link(1, 2));
    give(rt, node, link(0, 1));
    shut(rt, node);
    given
}

#[test]
fn a_key_join_matches_its_least_tag(rt: HostRuntime) {
    let mut node = first_node(&rt, Kind::KeyJoin { ports: 2 });
    put(&rt, &mut node, 1, 7, 10);
    put(&rt, &mut node, 0, 9, 20);
    put(&rt, &mut node, 0, 5, 30);
    put(&rt, &mut node, 1, 9, 40);
    put(&rt, &mut node, 1, 5, 50);
    pair(&rt, tuple(&rt, &mut node), 30, 50);
    pair(&rt, tuple(&rt, &mut node), 20, 40);
    nothing(&rt, tuple(&rt, &mut node));
}

ghost use Rattle.std.specs.Prelude.{◌≡◌, ◌-◌, ◌≤◌, length};

use crate::checks::{is, none, number, some};
use flow_item::{Id, Item, Roomy, Val};
use flow_join::{KeyJoin, QueueJoin};
use std::process::Abort;
use std::test::*;

fn item(no: u64, tag: u64) -> Item {
    Item {
        id: Id { node: 3, no },
        tag,
        val: Val::Int(7),
    }
}

/// A list of ids with room for eight.
fn ids(rt: &(impl Abort + AllocGlobal)) -> Roomy<Id>
    ensures { 8 ≤ result.spare }
{
    let mut ids = Roomy::new(rt.alloc());
    ids.reserve(8).ok().expect(rt, "memory");
    ids
}

/// A list of values with room for eight.
fn vals(rt: &(impl Abort + AllocGlobal)) -> Roomy<Val>
    ensures { 8 ≤ result.spare }
{
    let mut vals = Roomy::new(rt.alloc());
    vals.reserve(8).ok().expect(rt, "memory");
    vals
}

/// The number of an item, where there is one.
fn no_of(item: Option<&Item>) -> Option<u64> {
    match item {
        Some(item) => Some(item.id.no),
        None => None,
    }
}

/// The number of the id at a place of a list.
fn no_at(ids: &Roomy<Id>, k: usize) -> Option<u64> {
    match ids.get(k) {
        Some(id) => Some(id.no),
        None => None,
    }
}

fn queue_join(rt: &(impl Abort + AllocGlobal), ports: u32) -> QueueJoin
    requires some { 1 ≤ ports }
    requires few { ports ≤ 8 }
{
    QueueJoin::new(rt.alloc(), ports).ok().expect(rt, "a join")
}

/// Makes room for so many items.
fn room(rt: &impl Abort, join: &mut QueueJoin, count: usize)
    ensures { count ≤ join.new.spare }
{
    join.reserve(count).ok().expect(rt, "memory");
}

/// An item comes to a port, for which there is room.
fn comes(rt: &impl Abort, join: &mut QueueJoin, port: u32, item: Item)
    requires { 1 ≤ join.old.spare }
    ensures { join.new.spare ≡ join.old.spare - 1 }
{
    assert!(rt; port < join.ports());
    join.accept(port, item);
}

/// The number of the part of the next tuple at a port.
fn part(rt: &impl Abort, join: &QueueJoin, port: u32) -> Option<u64> {
    assert!(rt; port < join.ports());
    no_of(join.part(port))
}

/// The number of the item at a place of a port.
fn at(rt: &impl Abort, join: &QueueJoin, port: u32, k: usize) -> Option<u64> {
    assert!(rt; port < join.ports());
    no_of(join.at(port, k))
}

/// How many items wait at a port.
fn len(rt: &impl Abort, join: &QueueJoin, port: u32) -> u64 {
    assert!(rt; port < join.ports());
    join.len(port) as u64
}

/// The tag of the tuple that is formed.
fn form(rt: &impl Abort, join: &mut QueueJoin, ids: &mut Roomy<Id>, vals: &mut Roomy<Val>) -> u64
    requires ids { 8 ≤ ids.old.spare }
    requires vals { 8 ≤ vals.old.spare }
{
    assert!(rt; join.ready() && join.ports() <= 8);
    join.form(ids, vals)
}

#[test]
fn fronts_of_two_ports_go(rt: HostRuntime) {
    let mut join = queue_join(&rt, 2);
    room(&rt, &mut join, 3);
    comes(&rt, &mut join, 1, item(0, 5));
    comes(&rt, &mut join, 1, item(1, 6));
    is(&rt, !join.ready());
    none(&rt, part(&rt, &join, 1));
    comes(&rt, &mut join, 0, item(2, u64::MAX));
    is(&rt, join.ready());
    some(&rt, part(&rt, &join, 1), 0);
    some(&rt, at(&rt, &join, 1, 1), 1);
    none(&rt, at(&rt, &join, 1, 2));
    let mut ids = ids(&rt);
    let mut vals = vals(&rt);
    number(&rt, form(&rt, &mut join, &mut ids, &mut vals), u64::MAX);
    some(&rt, no_at(&ids, 0), 2);
    some(&rt, no_at(&ids, 1), 0);
    number(&rt, ids.len() as u64, 2);
    number(&rt, vals.len() as u64, 2);
    number(&rt, join.ports() as u64, 2);
    number(&rt, len(&rt, &join, 0), 0);
    number(&rt, len(&rt, &join, 1), 1);
    is(&rt, !join.ready());
}

#[test]
fn one_port_gives_each_item(rt: HostRuntime) {
    let mut join = queue_join(&rt, 1);
    room(&rt, &mut join, 1);
    is(&rt, !join.ready());
    comes(&rt, &mut join, 0, item(4, 9));
    let mut ids = ids(&rt);
    let mut vals = vals(&rt);
    is(&rt, join.ready());
    number(&rt, form(&rt, &mut join, &mut ids, &mut vals), 9);
    number(&rt, ids.len() as u64, 1);
    number(&rt, len(&rt, &join, 0), 0);
}

fn key_join(rt: &(impl Abort + AllocGlobal)) -> KeyJoin {
    KeyJoin::new(rt.alloc(), 2).ok().expect(rt, "a join")
}

/// A tuple of this tag is formed, of these items.
fn forms(rt: &(impl Abort + AllocGlobal), join: &mut KeyJoin, tag: u64, first: u64, second: u64) {
    let mut ids = ids(rt);
    let mut vals = vals(rt);
    assert!(rt; join.ready() && join.ports() <= 2);
    number(rt, join.form(&mut ids, &mut vals), tag);
    some(rt, no_at(&ids, 0), first);
    some(rt, no_at(&ids, 1), second);
}

fn arrives(rt: &impl Abort, join: &mut KeyJoin, port: u32, no: u64, tag: u64) {
    assert!(rt; port < join.ports());
    let item = item(no, tag);
    join.reserve(port, item.tag).ok().expect(rt, "room");
    join.accept(port, item);
}

fn waits(join: &KeyJoin, port: u32, k: usize) -> Option<u64> {
    if port >= join.ports() {
        return None;
    }
    no_of(join.at(port, k))
}

fn goes_next(join: &KeyJoin, port: u32) -> Option<u64> {
    if port >= join.ports() {
        return None;
    }
    no_of(join.part(port))
}

#[test]
fn least_tags_of_two_ports_match(rt: HostRuntime) {
    let mut join = key_join(&rt);
    arrives(&rt, &mut join, 0, 0, u64::MAX);
    arrives(&rt, &mut join, 0, 1, 5);
    arrives(&rt, &mut join, 1, 2, 9);
    arrives(&rt, &mut join, 1, 3, u64::MAX);
    arrives(&rt, &mut join, 0, 4, 5);
    arrives(&rt, &mut join, 1, 5, 5);
    arrives(&rt, &mut join, 1, 6, 5);
    some(&rt, goes_next(&join, 1), 5);
    some(&rt, waits(&join, 0, 2), 4);
    forms(&rt, &mut join, 5, 1, 5);
    some(&rt, waits(&join, 0, 1), 4);
    forms(&rt, &mut join, 5, 4, 6);
    forms(&rt, &mut join, u64::MAX, 0, 3);
    is(&rt, !join.ready());
    none(&rt, goes_next(&join, 0));
    some(&rt, waits(&join, 1, 0), 2);
    none(&rt, waits(&join, 1, 1));
}

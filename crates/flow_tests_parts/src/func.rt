ghost use Rattle.std.specs.Prelude.{◌≡◌, ◌≤◌};

use crate::checks::{is, none, number, some};
use flow_cast::Cast;
use flow_func::{Func, Input};
use flow_item::{Id, Item, Val};
use std::process::Abort;
use std::test::*;

fn item(no: u64) -> Item {
    Item {
        id: Id { node: 0, no },
        tag: 0,
        val: Val::Int(5),
    }
}

/// Makes room for so many items.
fn room(rt: &impl Abort, func: &mut Func, count: usize)
    ensures room { count ≤ func.new.spare }
    ensures same { func.new ≡ record func.old { spare = func.new.spare } }
{
    func.reserve(count).ok().expect(rt, "memory");
}

/// The limit that bars an item.
fn barred(func: &Func) -> Option<u64> {
    match func.room() {
        Ok(()) => None,
        Err(limit) => Some(limit as u64),
    }
}

/// Whether the body of this item ran, and has ended.
fn end(func: &mut Func, no: u64) -> bool {
    if func.running_item(no).is_none() {
        return false;
    }
    func.end(no);
    true
}

/// Whether the body of this item ran, and has ended with a ticket.
fn submitted(func: &mut Func, no: u64) -> bool {
    if func.running_item(no).is_none() {
        return false;
    }
    func.submitted(no);
    true
}

#[test]
fn items_go_through_their_stages(rt: HostRuntime) {
    let mut func = Func::new(rt.alloc(), true, Some(1));
    room(&rt, &mut func, 3);
    func.accept(item(4));
    some(&rt, barred(&func), 1);
    func.accept(item(5));
    func.accept(item(6));
    some(&rt, func.start(), 4);
    none(&rt, func.start());
    is(&rt, submitted(&mut func, 4));
    some(&rt, func.start(), 5);
    is(&rt, end(&mut func, 5));
    number(&rt, func.open_bodies(), 2);
    is(&rt, func.back(4));
    is(&rt, !func.back(4));
    number(&rt, func.cancel(), 1);
    none(&rt, func.start());
    none(&rt, barred(&func));
    is(&rt, func.cancelled());
    is(&rt, func.rejects());
}

/// The cast of an item that one edge is to meet.
fn cast(rt: &(impl Abort + AllocGlobal)) -> Cast {
    Cast::new(rt.alloc(), item(0), 0, 1)
        .ok()
        .expect(rt, "a cast")
}

/// How many edges took what is on offer, lent for writing.
fn got_written(input: &mut Input) -> u64 {
    match input.slot_mut() {
        Some(cast) => cast.got(),
        None => u64::MAX,
    }
}

/// Whether the body ran, and has ended with this cast.
fn end_turn(input: &mut Input, first: Option<Cast>) -> bool {
    if !input.running() || input.turn() == u64::MAX {
        return false;
    }
    input.end(first);
    true
}

#[test]
fn an_input_takes_its_turns(rt: HostRuntime) {
    let mut input = Input::new();
    none(&rt, input.is_ready());
    input.act();
    some(&rt, input.start(), 0);
    is(&rt, end_turn(&mut input, Some(cast(&rt))));
    none(&rt, input.is_ready());
    number(&rt, input.turn(), 1);
    number(&rt, got_written(&mut input), 0);
    is(&rt, input.take_slot().is_some());
    some(&rt, input.start(), 1);
    is(&rt, end_turn(&mut input, None));
    is(&rt, input.ended());
    is(&rt, input.active());
    is(&rt, !input.running());
    is(&rt, input.slot().is_none());
    input.cancel();
    is(&rt, input.cancelled());
}

//! A line of the graph machine alone, with a caller and a queue: commits with no book.
ghost use Rattle.std.specs.Prelude.{◌≡◌, ◌<◌, ◌^◌};
ghost use Rattle.flow_tests_book.specs.Lines.{IsSeat, the_caller, the_queue};

use crate::checks::{holds, named, number};
use crate::letters::reads;
use crate::node::{alone, one_chair};
use flow_book::{GraphMachine, Run};
use flow_item::{Event, Land, Party, PutAnswer, Val};
use flow_line::{Chair, Line, Naming, NotMade, Opened};
use flow_shape::Kind;
use std::alloc::Global;
use std::marker::Brand;
use std::process::Abort;
use std::sync::Wait;

// A line of one caller and one queue, and their chairs.
fn opened_line<B: Naming, R: Abort>(
    rt: &R,
    alloc: Global,
    items: u64,
    events: u64,
    opened: Opened<GraphMachine>,
) -> (
    Line<GraphMachine, B>,
    Chair<GraphMachine, B>,
    Chair<GraphMachine, B>,
)
    requires name { opened ≡ B.table }
    requires limits { (items < 2 ^ 62) × (events < 2 ^ 62) }
    ensures caller { IsSeat the_caller items events result.1 }
    ensures node { IsSeat the_queue items events result.2 }
{
    let Ok(shape) = alone(alloc, Kind::Queue { capacity: None }) else {
        panic!(rt; "no memory for a node")
    };
    let run = Run {
        shape,
        callers: 1,
        workers: 1,
    };
    let parties = [Party::Caller(0), Party::Node(0)];
    let Ok((line, mut chairs)) = Line::new(alloc, &run, &parties, items, events, opened) else {
        panic!(rt; "no memory for a line")
    };
    let Some(node) = chairs.pop() else {
        panic!(rt; "no chair of the queue")
    };
    let Some(caller) = chairs.pop() else {
        panic!(rt; "no chair of the caller")
    };
    (line, caller, node)
}

// The first event, which bears nothing and comes back of a limit.
fn returned<R: Abort>(rt: &R, answer: Result<(), NotMade<Event>>) -> Event {
    let Err(NotMade::Limit { births, len, event }) = answer else {
        panic!(rt; "made past the limit")
    };
    number(rt, births, 0);
    number(rt, len, 0);
    event
}

// Whether it is the caller's leave.
fn is_leave(event: &Event) -> bool {
    matches!(event, Event::Leave { caller: 0 })
}

// No event may be made: the caller's leave bears nothing, and comes back.
fn leave_refused<B: Naming, R: Wait + Abort>(rt: &R, alloc: Global, opened: Opened<GraphMachine>)
    requires { opened ≡ B.table }
{
    let (line, mut caller, _node) = opened_line::<B, _>(rt, alloc, 9, 0, opened);
    let refused = line.commit1(rt, &mut caller, Event::Leave { caller: 0 });
    let event = returned(rt, refused);
    holds(rt, is_leave(&event));
    number(rt, caller.own_len(), 0);
}

#[test]
fn a_leave_past_the_events_comes_back(rt: HostRuntime) {
    let opened = named(&rt);
    leave_refused::<Brand, _>(&rt, rt.alloc(), opened);
}

// One item may be born: the caller's put of 5 is an event of both.
fn put_made<B: Naming, R: Wait + Abort>(rt: &R, alloc: Global, opened: Opened<GraphMachine>)
    requires { opened ≡ B.table }
{
    let (line, mut caller, mut node) = opened_line::<B, _>(rt, alloc, 1, 9, opened);
    let put = Event::Put {
        caller: 0,
        node: 0,
        port: 0,
        tag: 0,
        val: Val::Int(5),
        answer: PutAnswer::Accepted {
            no: 0,
            land: Land::Kept,
        },
    };
    holds(rt, line.commit2(rt, &mut caller, &mut node, put).is_ok());
    number(rt, caller.own_len(), 1);
    number(rt, node.own_len(), 1);
    let journal = line.close2(one_chair(rt, alloc, caller), one_chair(rt, alloc, node));
    holds(rt, reads(journal.as_slice(), b"p"));
}

#[test]
fn a_put_is_of_both(rt: HostRuntime) {
    let opened = named(&rt);
    put_made::<Brand, _>(&rt, rt.alloc(), opened);
}

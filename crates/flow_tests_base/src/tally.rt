//! What each event adds to a node's ledger.
ghost use Rattle.std.specs.Prelude.{◌≡◌, true, length, slice_get, Some, ℕ};
ghost use Rattle.flow_item.specs.declared.event.Party.TheVariants.{Node};
ghost use Rattle.flow_item.specs.Events.{parties_of};
ghost use Rattle.flow_item.specs.Legal.{takes_part};
ghost use Rattle.flow_shape.specs.declared.Kind.{Kind};
ghost use Rattle.flow_machine.specs.Ledger.{tally_add};
ghost use Rattle.flow_tally.specs.declared.tallies.Tally.{Tally};
ghost use Rattle.flow_tally.specs.Tallies.{IsSmall, without_kept};
ghost use Rattle.flow_tests_base.specs.Loads.{load, IsLow};

use crate::checks::{holds, number};
use crate::shape::queues;
use flow_item::{Cause, Ended, Event, Id, Ids, Item, Land, Link, Outs, PutAnswer, Val};
use flow_shape::{Kind, Shape};
use flow_tally::{Tallies, Tally};
use std::process::Abort;

/// The most that an event adds to a number of a ledger, beside one.
fn load(e: &Event) -> u64
    ensures { result ≡ load e.now }
{
    match e {
        Event::End { outs, .. } | Event::Back { outs, .. } | Event::Split { outs, .. } => {
            outs.len() as u64
        }
        Event::Form { parts, .. } => parts.len() as u64,
        Event::Cancel { dropped, .. } => *dropped,
        _ => 0,
    }
}

/// Whether each number of the ledger is small.
fn is_low(tally: &Tally) -> bool
    ensures { result ≡ true → IsLow tally.now }
{
    tally.came < 1000
        && tally.out < 1000
        && tally.eaten < 1000
        && tally.lost < 1000
        && tally.over < 1000
}

/// Whether the event and each number of the ledger are small, so that they fit their type together.
#[tactic(auto, using(crate::proofs::Small::stays_small))]
fn is_small(tally: &Tally, node: u32, kind: &Kind, e: &Event) -> bool
    ensures { result ≡ true → IsSmall (tally_add node kind.now (without_kept tally.now) e.now) }
{
    is_low(tally) && load(e) < 1000
}

/// The ledger's numbers, in the order in which they are printed.
fn numbers(tally: &Tally) -> [u64; 6] {
    [
        tally.came,
        tally.out,
        tally.eaten,
        tally.lost,
        tally.over,
        tally.kept,
    ]
}

/// The node of each row.
const NODE: u32 = 1;

/// The ledger of the node before each row.
const BEFORE: Tally = Tally {
    came: 9,
    out: 1,
    eaten: 1,
    lost: 1,
    over: 1,
    kept: 5,
};

/// The numbers where an event adds nothing.
const SAME: [u64; 6] = [9, 1, 1, 1, 1, 5];

/// An edge into the node.
const INTO: Link = Link {
    edge: 0,
    from: 0,
    to: NODE,
    port: 0,
};

/// An edge out of the node.
const OUT_OF: Link = Link {
    edge: 1,
    from: NODE,
    to: 2,
    port: 0,
};

const QUEUE: Kind = Kind::Queue { capacity: None };

fn function() -> Kind {
    Kind::Function {
        reject: true,
        limit: Some(1),
        body: 0,
        arg: Val::Int(1),
    }
}

fn input() -> Kind {
    Kind::Input {
        body: 0,
        arg: Val::Int(0),
    }
}

fn activity() -> Kind {
    Kind::Async {
        reject: false,
        limit: None,
        arg: Val::Int(0),
    }
}

fn put(answer: PutAnswer) -> Event {
    Event::Put {
        caller: 0,
        node: NODE,
        port: 0,
        tag: 0,
        val: Val::Int(5),
        answer,
    }
}

fn accepted(land: Land) -> Event {
    put(PutAnswer::Accepted { no: 0, land })
}

fn item() -> Item {
    Item {
        id: Id { node: 0, no: 0 },
        tag: 0,
        val: Val::Int(5),
    }
}

fn give(link: Link, land: Land) -> Event {
    Event::Give {
        link,
        item: item(),
        no: 0,
        land,
    }
}

fn add_message(rt: &(impl Abort + AllocGlobal), outs: &mut Outs, tag: u64) {
    assert!(rt; outs.push(rt.alloc(), 0, tag, Val::Int(5)).is_ok());
}

fn outs(rt: &(impl Abort + AllocGlobal), count: u64) -> Outs {
    let mut outs = Outs::new(rt.alloc());
    for tag in 0..count {
        add_message(rt, &mut outs, tag);
    }
    outs
}

fn end(rt: &(impl Abort + AllocGlobal), count: u64) -> Event {
    Event::End {
        worker: 0,
        node: NODE,
        item: 0,
        first: 1,
        outs: outs(rt, count),
    }
}

fn back(rt: &(impl Abort + AllocGlobal), count: u64) -> Event {
    Event::Back {
        worker: 0,
        node: NODE,
        item: 0,
        first: 1,
        outs: outs(rt, count),
    }
}

fn split(rt: &(impl Abort + AllocGlobal), count: u64) -> Event {
    Event::Split {
        node: NODE,
        item: 0,
        first: 1,
        outs: outs(rt, count),
    }
}

/// A tuple of two parts.
fn form(rt: &(impl Abort + AllocGlobal)) -> Event {
    let mut parts = Ids::new(rt.alloc());
    for no in 0..2 {
        assert!(rt; parts.push(Id { node: NODE, no }).is_ok());
    }
    Event::Form {
        node: NODE,
        no: 2,
        parts,
    }
}

fn shut(ended: Ended) -> Event {
    Event::Shut {
        node: NODE,
        item: 0,
        ended,
    }
}

/// A row: the ledger of a node of this kind after the event.
fn adds(rt: &impl Abort, rows: &mut u64, kind: Kind, event: Event, after: [u64; 6]) {
    let mut tally = BEFORE;
    assert!(rt; is_small(&tally, NODE, &kind, &event));
    tally.add(NODE, &kind, &event);
    *rows = rows.saturating_add(1);
    assert!(rt; numbers(&tally) == after, "row {rows}");
}

/// Events of callers.
fn rows_of_callers(rt: &impl Abort, rows: &mut u64) {
    let limiter = Kind::Limiter {
        threshold: 1,
        by_value: false,
    };
    adds(rt, rows, QUEUE, accepted(Land::Kept), [10, 1, 1, 1, 1, 6]);
    adds(
        rt,
        rows,
        limiter,
        accepted(Land::Eaten),
        [10, 1, 2, 1, 1, 5],
    );
    adds(
        rt,
        rows,
        Kind::Broadcast,
        accepted(Land::Lost),
        [10, 1, 1, 2, 1, 5],
    );
    adds(
        rt,
        rows,
        Kind::Overwrite,
        accepted(Land::Over),
        [10, 1, 1, 1, 2, 5],
    );
    let refused = put(PutAnswer::Refused(Cause::Busy(1)));
    adds(rt, rows, function(), refused, SAME);
    let act = Event::Act {
        caller: 0,
        node: NODE,
    };
    adds(rt, rows, input(), act, SAME);
    let cancel = Event::Cancel {
        caller: 0,
        node: NODE,
        dropped: 3,
    };
    adds(rt, rows, function(), cancel, [9, 1, 1, 4, 1, 2]);
    adds(rt, rows, QUEUE, Event::Leave { caller: 0 }, SAME);
}

fn take() -> Event {
    Event::Take {
        link: OUT_OF,
        item: 0,
    }
}

/// Events of edges.
fn rows_of_edges(rt: &impl Abort, rows: &mut u64) {
    adds(rt, rows, QUEUE, give(INTO, Land::Kept), [10, 1, 1, 1, 1, 6]);
    adds(
        rt,
        rows,
        Kind::Sequencer,
        give(INTO, Land::Lost),
        [10, 1, 1, 2, 1, 5],
    );
    adds(
        rt,
        rows,
        QUEUE,
        give(OUT_OF, Land::Lost),
        [9, 2, 1, 1, 1, 4],
    );
    adds(rt, rows, Kind::Overwrite, give(OUT_OF, Land::Eaten), SAME);
    adds(rt, rows, Kind::Priority, take(), [9, 2, 1, 1, 1, 4]);
    adds(rt, rows, Kind::WriteOnce, take(), SAME);
    let hold = Event::Hold {
        link: OUT_OF,
        item: item(),
        no: 0,
    };
    adds(rt, rows, QUEUE, hold, SAME);
    let free = Event::Free {
        link: OUT_OF,
        item: 0,
    };
    adds(rt, rows, QUEUE, free, SAME);
    let refuse = Event::Refuse {
        link: OUT_OF,
        item: 0,
    };
    adds(rt, rows, QUEUE, refuse, SAME);
    adds(rt, rows, QUEUE, Event::None { link: OUT_OF }, SAME);
    adds(rt, rows, QUEUE, Event::Idle { node: NODE }, SAME);
}

/// Events of bodies.
fn rows_of_bodies(rt: &(impl Abort + AllocGlobal), rows: &mut u64) {
    let start = Event::Start {
        worker: 0,
        node: NODE,
        item: 0,
    };
    adds(rt, rows, function(), start, SAME);
    adds(rt, rows, function(), end(rt, 2), [11, 1, 2, 1, 1, 6]);
    adds(rt, rows, input(), end(rt, 1), [10, 1, 1, 1, 1, 6]);
    adds(rt, rows, activity(), end(rt, 0), SAME);
    let continues = Kind::Continue {
        body: 0,
        arg: Val::Int(0),
    };
    adds(rt, rows, continues, end(rt, 1), [10, 1, 1, 1, 1, 6]);
    adds(rt, rows, activity(), back(rt, 1), [10, 1, 2, 1, 1, 5]);
}

/// Events of tuples and casts.
fn rows_of_casts(rt: &(impl Abort + AllocGlobal), rows: &mut u64) {
    let tuples = Kind::KeyJoin { ports: 2 };
    adds(rt, rows, tuples, form(rt), [10, 1, 3, 1, 1, 4]);
    let holds = Kind::HoldJoin { ports: 2 };
    adds(rt, rows, holds, form(rt), SAME);
    let splits = Kind::Split { outs: 2 };
    adds(rt, rows, splits, split(rt, 2), [11, 1, 2, 1, 1, 6]);
    adds(rt, rows, function(), shut(Ended::Out), [9, 2, 1, 1, 1, 4]);
    adds(rt, rows, function(), shut(Ended::Lost), [9, 1, 1, 2, 1, 4]);
    adds(rt, rows, function(), shut(Ended::Won), [10, 2, 1, 1, 1, 5]);
    adds(rt, rows, function(), shut(Ended::Failed), SAME);
}

#[test]
fn adds_each_event(rt: HostRuntime) {
    let mut rows = 0;
    rows_of_callers(&rt, &mut rows);
    rows_of_edges(&rt, &mut rows);
    rows_of_bodies(&rt, &mut rows);
    rows_of_casts(&rt, &mut rows);
    number(&rt, rows, 32);
}

/// Whether each number of two ledgers with the event fits its type.
#[tactic(auto, using(crate::proofs::Two::two_places))]
fn two_are_small(tallies: &Tallies, shape: &Shape, e: &Event) -> bool
    ensures count { result ≡ true → length tallies.now ≡ length shape.now.nodes }
    ensures fits { result ≡ true → (n : ℕ) (k : Kind) (t : Tally) → slice_get shape.now.nodes n ≡ Some k
        → slice_get tallies.now n ≡ Some t → takes_part (parties_of e.now) (Node n) ≡ true
        → IsSmall (tally_add n k (without_kept t) e.now) }
{
    if tallies.len() != 2 || shape.nodes.len() != 2 {
        return false;
    }
    let Some(kind) = shape.nodes.get(0) else {
        return false;
    };
    let Some(tally) = tallies.get(0) else {
        return false;
    };
    let Some(next_kind) = shape.nodes.get(1) else {
        return false;
    };
    let Some(next) = tallies.get(1) else {
        return false;
    };
    is_small(tally, 0, kind, e) && is_small(next, 1, next_kind, e)
}

/// Adds the event where each number of the two ledgers with it fits its type, and tells whether.
fn is_added(tallies: &mut Tallies, shape: &Shape, e: &Event) -> bool {
    let small = two_are_small(tallies, shape, e);
    if small {
        tallies.add(shape, e);
    }
    small
}

/// The put into the first queue.
fn put_first() -> Event {
    Event::Put {
        caller: 0,
        node: 0,
        port: 0,
        tag: 0,
        val: Val::Int(5),
        answer: PutAnswer::Accepted {
            no: 0,
            land: Land::Kept,
        },
    }
}

/// The gift of the first queue to the second.
fn given() -> Event {
    let link = Link {
        edge: 0,
        from: 0,
        to: 1,
        port: 0,
    };
    give(link, Land::Kept)
}

/// The ledger of the node has these numbers.
fn shows(rt: &impl Abort, tallies: &Tallies, node: usize, want: [u64; 6]) {
    let tally = tallies.get(node).expect(rt, "a ledger");
    assert!(rt; numbers(tally) == want, "node {node}");
}

#[test]
fn adds_a_run_of_two_queues(rt: HostRuntime) {
    let shape = queues(&rt, 2, &[(0, 1)]);
    let mut tallies = Tallies::new(rt.alloc(), 2).expect(&rt, "memory");
    holds(&rt, is_added(&mut tallies, &shape, &put_first()));
    let leave = Event::Leave { caller: 0 };
    holds(&rt, is_added(&mut tallies, &shape, &leave));
    holds(&rt, is_added(&mut tallies, &shape, &given()));
    let idle = Event::Idle { node: 0 };
    holds(&rt, is_added(&mut tallies, &shape, &idle));
    let idle_too = Event::Idle { node: 1 };
    holds(&rt, is_added(&mut tallies, &shape, &idle_too));
    shows(&rt, &tallies, 0, [1, 1, 0, 0, 0, 0]);
    shows(&rt, &tallies, 1, [1, 0, 0, 0, 0, 1]);
    holds(&rt, tallies.get(2).is_none());
}

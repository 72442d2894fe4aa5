//! A book's calls, one after another, over a graph of one node.
ghost use Rattle.std.specs.Prelude.{◌≡◌, ◌<◌, ◌^◌, [], ◌∷◌, true, false, IfOk};
ghost use Rattle.flow_book.specs.Jobs.{is_submit};
ghost use Rattle.flow_tests_book.specs.Nodes.{one_node, is_one, IsOf, Calls, Works, RunsOn};

use crate::checks::{holds, named, number};
use crate::letters::reads;
use flow_book::{Ask, Book, Did, GraphMachine, Job, JobBody, NoGate, Seats, Took};
use flow_item::{Event, Id, Item, Journal, Land, NoMemory, Outs, PutAnswer, Stop, Val};
use flow_line::{Chair, Chairs, Naming, Opened};
use flow_row::{add_chair, take_last};
use flow_shape::{Edges, Kind, Kinds, Shape};
use std::alloc::Global;
use std::marker::Brand;
use std::process::Abort;
use std::sync::Wait;

// A graph of this node alone.
pub fn alone(alloc: Global, kind: Kind) -> Result<Shape, NoMemory>
    ensures { IfOk result (λ s. s ≡ one_node kind) }
{
    let mut nodes = Vec::new(alloc);
    nodes.push(kind)?;
    Ok(Shape {
        nodes: Kinds::from_vec(nodes),
        edges: Edges::from_vec(Vec::new(alloc)),
    })
}

// A book over this node, and the chairs of its caller and its worker.
fn opened_node<B: Naming, R: Abort>(
    rt: &R,
    alloc: Global,
    kind: Kind,
    items: u64,
    events: u64,
    opened: Opened<GraphMachine>,
) -> (Book<B>, Chair<GraphMachine, B>, Chair<GraphMachine, B>)
    requires name { opened ≡ B.table }
    requires kind { is_one (one_node kind) ≡ true }
    requires limits { (items < 2 ^ 62) × (events < 2 ^ 62) }
    ensures node { is_one result.0.run.shape ≡ true }
    ensures caller { Calls result.0.run result.0.items result.0.events result.1 }
    ensures worker { Works result.0.run result.0.items result.0.events result.2 }
{
    let Ok(shape) = alone(alloc, kind) else {
        panic!(rt; "no memory for a node")
    };
    let Ok((book, mut seats)) = Book::new(alloc, shape, 1, 1, items, events, opened) else {
        panic!(rt; "no memory for a book")
    };
    let caller = take_last(&mut seats.callers);
    let worker = take_last(&mut seats.workers);
    match (caller, worker) {
        (Some(caller), Some(worker)) => (book, caller, worker),
        _ => panic!(rt; "no seats"),
    }
}

// A caller puts 5.
fn put<B: Naming, R: Wait>(
    rt: &R,
    alloc: Global,
    book: &Book<B>,
    c: &mut Chair<GraphMachine, B>,
) -> Result<PutAnswer, Stop>
    requires node { is_one book.now.run.shape ≡ true }
    requires caller { Calls book.now.run book.now.items book.now.events c.old }
    ensures { Calls book.now.run book.now.items book.now.events c.new }
{
    match book.put(rt, alloc, c, 0, 0, 0, &Val::Int(5), &NoGate) {
        Ok(answer) => Ok(answer),
        Err(stop) => Err(stop),
    }
}

// The first refusal.
fn stopped<B: Naming, R: Wait>(
    rt: &R,
    book: &Book<B>,
    c: &mut Chair<GraphMachine, B>,
) -> Option<Stop>
    requires { Calls book.now.run book.now.items book.now.events c.old }
    ensures { Calls book.now.run book.now.items book.now.events c.new }
{
    book.stopped(rt, c)
}

// A caller leaves.
fn leave<B: Naming, R: Wait>(
    rt: &R,
    book: &Book<B>,
    c: &mut Chair<GraphMachine, B>,
) -> Result<(), Stop>
    requires { Calls book.now.run book.now.items book.now.events c.old }
    ensures { IsOf book.now.run book.now.items book.now.events c.new }
{
    match book.leave(rt, c, &NoGate) {
        Ok(()) => Ok(()),
        Err(stop) => Err(stop),
    }
}

// Serves the node until it rests. How many events it made.
fn serve_to_rest<B: Naming, R: Wait + Abort>(
    rt: &R,
    alloc: Global,
    book: &Book<B>,
    w: &mut Chair<GraphMachine, B>,
) -> u64
    requires node { is_one book.now.run.shape ≡ true }
    requires worker { Works book.now.run book.now.items book.now.events w.old }
    ensures { Works book.now.run book.now.items book.now.events w.new }
{
    for made in 0..9 {
        if !serve(rt, alloc, book, w) {
            return made;
        }
    }
    panic!(rt; "the node doesn't rest")
}

// Whether these are the nodes of an event of node 0 alone.
fn is_alone(first: u32, second: Option<u32>) -> bool {
    first == 0 && second.is_none()
}

// Serves the node. Whether there was an event of it alone.
fn serve<B: Naming, R: Wait + Abort>(
    rt: &R,
    alloc: Global,
    book: &Book<B>,
    w: &mut Chair<GraphMachine, B>,
) -> bool
    requires node { is_one book.now.run.shape ≡ true }
    requires worker { Works book.now.run book.now.items book.now.events w.old }
    ensures { Works book.now.run book.now.items book.now.events w.new }
{
    let Ok(did) = book.serve(rt, alloc, w, 0, &NoGate) else {
        panic!(rt; "an event was stopped")
    };
    match did {
        Did::Event { first, second } => is_alone(first, second),
        Did::Rest => false,
        Did::Start(_) => panic!(rt; "a body began"),
    }
}

// Starts the body of the node.
fn start<B: Naming, R: Wait + Abort>(
    rt: &R,
    alloc: Global,
    book: &Book<B>,
    w: &mut Chair<GraphMachine, B>,
) -> Job
    requires node { is_one book.now.run.shape ≡ true }
    requires worker { Works book.now.run book.now.items book.now.events w.old }
    ensures { RunsOn book.now.run book.now.items book.now.events w.new result }
{
    let Ok(did) = book.serve(rt, alloc, w, 0, &NoGate) else {
        panic!(rt; "an event was stopped")
    };
    match did {
        Did::Start(job) => job,
        _ => panic!(rt; "no body began"),
    }
}

// Whether the job is to run body 0 with 1 on the first item, which is 5.
fn is_of_five(job: &Job) -> bool
    ensures { result ≡ true → is_submit job.now.body ≡ false }
{
    match &job.body {
        JobBody::Run {
            body: 0,
            arg: Val::Int(1),
        } => { is_five(&job.item) }
        _ => false,
    }
}

fn is_five(item: &Item) -> bool {
    matches!(
        item,
        Item {
            id: Id { node: 0, no: 0 },
            tag: 0,
            val: Val::Int(5),
        }
    )
}

// Ends the body with 6.
fn finish<B: Naming, R: Wait + Abort>(
    rt: &R,
    alloc: Global,
    book: &Book<B>,
    w: &mut Chair<GraphMachine, B>,
    job: Job,
)
    requires { RunsOn book.now.run book.now.items book.now.events w.old job }
    ensures { Works book.now.run book.now.items book.now.events w.new }
{
    if !is_of_five(&job) {
        panic!(rt; "another job")
    }
    let mut outs = Outs::new(alloc);
    holds(rt, outs.push(alloc, 0, 0, Val::Int(6)).is_ok());
    match book.finish(rt, alloc, w, job, outs, &NoGate) {
        Ok(()) => {}
        Err(_) => panic!(rt; "an end was stopped"),
    }
}

// No ticket 5 is open at this node.
fn bring_back<B: Naming, R: Wait + Abort>(
    rt: &R,
    alloc: Global,
    book: &Book<B>,
    w: &mut Chair<GraphMachine, B>,
    node: u32,
)
    requires { Works book.now.run book.now.items book.now.events w.old }
    ensures { Works book.now.run book.now.items book.now.events w.new }
{
    let ask = Ask {
        node,
        ticket: 5,
        arg: Val::Int(1),
        item: Item {
            id: Id { node, no: 5 },
            tag: 0,
            val: Val::Int(5),
        },
    };
    let Ok(took) = book.back(rt, alloc, w, &ask, Outs::new(alloc), &NoGate) else {
        panic!(rt; "an answer was stopped")
    };
    match took {
        Took::Stranger => {}
        Took::Took => panic!(rt; "an answer was taken"),
    }
}

// A list of this chair.
pub fn one_chair<B: Naming, R: Abort>(
    rt: &R,
    alloc: Global,
    chair: Chair<GraphMachine, B>,
) -> Chairs<GraphMachine, B>
    ensures { result.items ≡ chair ∷ [] }
{
    let mut chairs = Chairs::new(alloc);
    match add_chair(&mut chairs, chair) {
        Ok(()) => chairs,
        Err(_) => panic!(rt; "no memory for a chair"),
    }
}

// Closes the book with these two chairs, the only ones.
fn close<B: Naming, R: Abort>(
    rt: &R,
    alloc: Global,
    book: Book<B>,
    c: Chair<GraphMachine, B>,
    w: Chair<GraphMachine, B>,
) -> (Journal, Option<Event>)
    requires caller { IsOf book.run book.items book.events c }
    requires worker { IsOf book.run book.items book.events w }
{
    let callers = one_chair(rt, alloc, c);
    let workers = one_chair(rt, alloc, w);
    book.close(Seats { callers, workers })
}

// The book closes with these events and chairs, and no limit has refused any.
fn closes<B: Naming, R: Abort>(
    rt: &R,
    alloc: Global,
    book: Book<B>,
    c: Chair<GraphMachine, B>,
    w: Chair<GraphMachine, B>,
    letters: &[u8],
)
    requires caller { IsOf book.run book.items book.events c }
    requires worker { IsOf book.run book.items book.events w }
{
    let (journal, kept) = close(rt, alloc, book, c, w);
    holds(rt, reads(journal.as_slice(), letters));
    holds(rt, kept.is_none());
}

// Whether memory was refused.
fn is_memory(stop: Option<Stop>) -> bool {
    matches!(stop, Some(Stop::Memory))
}

// Whether a limit was met.
fn is_limit(stop: Option<Stop>) -> bool {
    matches!(stop, Some(Stop::Limit))
}

// A queue with one item: what each call answers, and the three events. A halt is told, and stops nobody.
fn one_item<B: Naming, R: Wait + Abort>(rt: &R, alloc: Global, opened: Opened<GraphMachine>)
    requires { opened ≡ B.table }
{
    let queue = Kind::Queue { capacity: None };
    let (book, mut c, mut w) = opened_node::<B, _>(rt, alloc, queue, 9, 99, opened);
    bring_back(rt, alloc, &book, &mut w, 0);
    bring_back(rt, alloc, &book, &mut w, 1);
    book.halt(rt);
    holds(rt, is_memory(stopped(rt, &book, &mut c)));
    holds(rt, is_first(put(rt, alloc, &book, &mut c)));
    number(rt, serve_to_rest(rt, alloc, &book, &mut w), 1);
    holds(rt, leave(rt, &book, &mut c).is_ok());
    closes(rt, alloc, book, c, w, b"pil");
}

// Whether the put was accepted, and is item 0.
fn is_first(answer: Result<PutAnswer, Stop>) -> bool {
    matches!(
        answer,
        Ok(PutAnswer::Accepted {
            no: 0,
            land: Land::Kept,
        })
    )
}

#[test]
fn a_queue_has_one_item(rt: HostRuntime) {
    let opened = named(&rt);
    one_item::<Brand, _>(&rt, rt.alloc(), opened);
}

// A body runs on an item: what each call answers, and what is open.
fn one_body<B: Naming, R: Wait + Abort>(rt: &R, alloc: Global, opened: Opened<GraphMachine>)
    requires { opened ≡ B.table }
{
    let function = Kind::Function {
        reject: false,
        limit: Some(1),
        body: 0,
        arg: Val::Int(1),
    };
    let (book, mut c, mut w) = opened_node::<B, _>(rt, alloc, function, 9, 99, opened);
    holds(rt, is_first(put(rt, alloc, &book, &mut c)));
    let job = start(rt, alloc, &book, &mut w);
    finish(rt, alloc, &book, &mut w, job);
    bring_back(rt, alloc, &book, &mut w, 0);
    number(rt, serve_to_rest(rt, alloc, &book, &mut w), 2);
    closes(rt, alloc, book, c, w, b"pseci");
}

#[test]
fn a_body_runs(rt: HostRuntime) {
    let opened = named(&rt);
    one_body::<Brand, _>(&rt, rt.alloc(), opened);
}

// No item may be born, or no event made: a put is refused, stays the first refusal, and is handed out at the end.
fn none_left<B: Naming, R: Wait + Abort>(
    rt: &R,
    alloc: Global,
    items: u64,
    events: u64,
    opened: Opened<GraphMachine>,
)
    requires name { opened ≡ B.table }
    requires limits { (items < 2 ^ 62) × (events < 2 ^ 62) }
{
    let queue = Kind::Queue { capacity: None };
    let (book, mut c, w) = opened_node::<B, _>(rt, alloc, queue, items, events, opened);
    holds(rt, stopped(rt, &book, &mut c).is_none());
    holds(rt, is_limit(put(rt, alloc, &book, &mut c).err()));
    book.halt(rt);
    holds(rt, is_limit(stopped(rt, &book, &mut c)));
    holds(rt, leave(rt, &book, &mut c).is_ok() == (events > 0));
    let (_, kept) = close(rt, alloc, book, c, w);
    holds(rt, is_put_of_five(kept));
}

// Whether the event is the put of 5, which would be item 0.
fn is_put_of_five(event: Option<Event>) -> bool {
    let Some(
        Event::Put {
            val: Val::Int(5),
            answer,
            ..
        },
    ) = event
    else {
        return false;
    };
    is_first(Ok(answer))
}

#[test]
fn no_item_is_left(rt: HostRuntime) {
    let opened = named(&rt);
    none_left::<Brand, _>(&rt, rt.alloc(), 0, 9, opened);
}

#[test]
fn no_event_is_left(rt: HostRuntime) {
    let opened = named(&rt);
    none_left::<Brand, _>(&rt, rt.alloc(), 9, 0, opened);
}

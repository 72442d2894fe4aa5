//! A book over two queues in a row.
ghost use Rattle.std.specs.Prelude.{◌≡◌, ◌<◌, true, length, All, IfOk, OnOk};
ghost use Rattle.flow_book.specs.Callers.{may_call, is_idle_worker};
ghost use Rattle.flow_row.specs.Rows.{row_shape, row_run, row_about, IsOfRow, IsCaller, IsWorker, run_prop, about_prop};

use crate::seats::{add_chair, take_last};
use flow_book::{Book, Did, GraphMachine, NoGate, Seats};
use flow_item::{Event, Journal, NoMemory, Val};
use flow_line::{Chair, Naming, Opened};
use flow_shape::{Edge, Edges, Kind, Kinds, Shape};
use std::alloc::Global;
use std::sync::Wait;
use std::thread;
use std::thread::Threads;

// Items and events that the row may have.
const MOST: u64 = 1000000000;

/// A book over the row.
#[derive(Drop)]
pub struct Row<B: Naming> {
    book: Book<B>,
    ghost run: { book.run ≡ row_run } by { run_prop book.run },
    ghost limits: { (book.items ≡ 1000000000) × (book.events ≡ 1000000000) },
}

/// A caller that hasn't left, and an idle worker.
#[derive(Drop)]
pub struct Pair<B: Naming> {
    caller: Chair<GraphMachine, B>,
    worker: Chair<GraphMachine, B>,
    ghost caller_of: { caller.about ≡ row_about } by { about_prop caller.about },
    ghost calls: { may_call row_run caller ≡ true },
    ghost worker_of: { worker.about ≡ row_about } by { about_prop worker.about },
    ghost idle: { is_idle_worker worker ≡ true },
}

/// What is left of a run.
#[derive(Drop)]
pub struct Ran {
    pub journal: Journal,
    /// The event that a limit refused.
    pub kept: Option<Event>,
    /// How many parts were open in the end.
    pub open: u64,
    /// How many callers had left by then.
    pub left: u32,
}

impl<B: Naming> Pair<B> {
    // Puts 5 to the first queue. Whether it was accepted or refused by the queue.
    fn put<R: Wait>(&mut self, rt: &R, alloc: Global, row: &Row<B>, tag: u64) -> bool {
        match row.book.put(
            rt,
            alloc,
            &mut self.caller,
            0,
            0,
            tag,
            &Val::Int(5),
            &NoGate,
        ) {
            Ok(_) => true,
            Err(_) => false,
        }
    }

    // Serves a queue. Whether there was an event.
    fn serve<R: Wait>(&mut self, rt: &R, alloc: Global, row: &Row<B>, node: u32) -> bool
        requires { node < 2 }
    {
        serve(rt, alloc, row, &mut self.worker, node)
    }

    // Serves both queues. Whether there was an event.
    fn serve_both<R: Wait>(&mut self, rt: &R, alloc: Global, row: &Row<B>) -> bool {
        let first = self.serve(rt, alloc, row, 0);
        let second = self.serve(rt, alloc, row, 1);
        first || second
    }

    // Puts so often, and serves the first queue after each put; then serves until both rest.
    fn work<R: Wait>(&mut self, rt: &R, alloc: Global, row: &Row<B>, puts: u64) {
        for tag in 0..puts {
            if !self.put(rt, alloc, row, tag) {
                return;
            }
            self.serve(rt, alloc, row, 0);
        }
        self.serve_to_rest(rt, alloc, row);
    }

    // Serves until both queues rest.
    fn serve_to_rest<R: Wait>(&mut self, rt: &R, alloc: Global, row: &Row<B>) {
        for _ in 0..MOST {
            if !self.serve_both(rt, alloc, row) {
                return;
            }
        }
    }

    // How many parts are open.
    fn unrest<R: Wait>(&mut self, rt: &R, row: &Row<B>) -> u64 {
        row.book.unrest(rt, &mut self.worker)
    }

    // How many callers have left.
    fn left<R: Wait>(&mut self, rt: &R, row: &Row<B>) -> u32 {
        row.book.left(rt, &mut self.worker)
    }
}

// Serves a queue. Whether there was an event.
fn serve<B: Naming, R: Wait>(
    rt: &R,
    alloc: Global,
    row: &Row<B>,
    w: &mut Chair<GraphMachine, B>,
    node: u32,
) -> bool
    requires worker { IsWorker w.old }
    requires node { node < 2 }
    ensures { IsWorker w.new }
{
    match row.book.serve(rt, alloc, w, node, &NoGate) {
        Ok(did) => {
            match did {
                Did::Event { .. } => true,
                Did::Rest => false,
                Did::Start(_) => unreachable!(),
            }
        }
        Err(_) => false,
    }
}

// Two queues in a row.
fn two_queues(alloc: Global) -> Result<Shape, NoMemory>
    ensures { IfOk result (λ s. s ≡ row_shape) }
{
    let mut nodes = Vec::new(alloc);
    nodes.push(Kind::Queue { capacity: None })?;
    nodes.push(Kind::Queue { capacity: None })?;
    let mut edges = Vec::new(alloc);
    edges.push(Edge {
        from: 0,
        out: 0,
        to: 1,
        port: 0,
    })?;
    Ok(Shape {
        nodes: Kinds::from_vec(nodes),
        edges: Edges::from_vec(edges),
    })
}

// The row and its seats.
fn opened_row<B: Naming>(
    alloc: Global,
    opened: Opened<GraphMachine>,
) -> Result<(Row<B>, Seats<B>), NoMemory>
    requires { opened ≡ B.table }
    ensures callers { IfOk result (λ r. All IsCaller r.1.callers.items) }
    ensures workers { IfOk result (λ r. All IsWorker r.1.workers.items) }
{
    let Ok(shape) = two_queues(alloc) else {
        return Err(NoMemory);
    };
    match Book::new(alloc, shape, 5, 5, MOST, MOST, opened) {
        Ok((book, seats)) => Ok((Row { book }, seats)),
        Err(_) => Err(NoMemory),
    }
}

// The last caller and the last worker.
fn last_pair<B: Naming>(seats: &mut Seats<B>) -> Option<Pair<B>>
    requires callers { All IsCaller seats.old.callers.items }
    requires workers { All IsWorker seats.old.workers.items }
    ensures callers { All IsCaller seats.new.callers.items }
    ensures workers { All IsWorker seats.new.workers.items }
{
    let caller = take_last(&mut seats.callers);
    let worker = take_last(&mut seats.workers);
    match (caller, worker) {
        (Some(caller), Some(worker)) => Some(Pair { caller, worker }),
        _ => None,
    }
}

// So many pairs, as long as there are seats.
fn pairs_of<B: Naming>(
    alloc: Global,
    seats: &mut Seats<B>,
    count: u64,
) -> Result<Vec<Pair<B>>, NoMemory>
    requires callers { All IsCaller seats.old.callers.items }
    requires workers { All IsWorker seats.old.workers.items }
    ensures callers { All IsCaller seats.new.callers.items }
    ensures workers { All IsWorker seats.new.workers.items }
{
    let mut pairs = Vec::new(alloc);
    for _ in 0..count {
        match last_pair(seats) {
            Some(pair) => {
                if pairs.push(pair).is_err() {
                    return Err(NoMemory);
                }
            }
            None => return Ok(pairs),
        }
    }
    Ok(pairs)
}

// A caller leaves.
fn leave<B: Naming, R: Wait>(rt: &R, row: &Row<B>, c: &mut Chair<GraphMachine, B>)
    requires { IsCaller c.old }
    ensures { IsOfRow c.new }
{
    match row.book.leave(rt, c, &NoGate) {
        Ok(()) => {}
        Err(_) => {}
    }
}

// The caller leaves, and both chairs go back to the seats.
fn put_back<B: Naming, R: Wait>(
    rt: &R,
    row: &Row<B>,
    seats: &mut Seats<B>,
    pair: Pair<B>,
) -> Result<(), NoMemory>
    requires callers { All IsOfRow seats.old.callers.items }
    requires workers { All IsOfRow seats.old.workers.items }
    ensures callers { OnOk result (All IsOfRow seats.new.callers.items) }
    ensures workers { OnOk result (All IsOfRow seats.new.workers.items) }
    ensures some { OnOk result (0 < length seats.new.workers.items) }
{
    let Pair { mut caller, worker } = pair;
    leave(rt, row, &mut caller);
    match add_chair(&mut seats.callers, caller) {
        Ok(()) => add_worker(seats, worker),
        Err(refused) => Err(refused),
    }
}

// A worker's chair goes back to the seats.
fn add_worker<B: Naming>(
    seats: &mut Seats<B>,
    worker: Chair<GraphMachine, B>,
) -> Result<(), NoMemory>
    requires callers { All IsOfRow seats.old.callers.items }
    requires workers { All IsOfRow seats.old.workers.items }
    requires worker { IsOfRow worker }
    ensures callers { OnOk result (All IsOfRow seats.new.callers.items) }
    ensures workers { OnOk result (All IsOfRow seats.new.workers.items) }
    ensures some { OnOk result (0 < length seats.new.workers.items) }
{
    match add_chair(&mut seats.workers, worker) {
        Ok(()) => Ok(()),
        Err(refused) => Err(refused),
    }
}

// All callers leave, and all chairs go back to the seats.
fn put_all_back<B: Naming, R: Wait>(
    rt: &R,
    row: &Row<B>,
    seats: &mut Seats<B>,
    pairs: Vec<Pair<B>>,
) -> Result<(), NoMemory>
    requires callers { All IsOfRow seats.old.callers.items }
    requires workers { All IsOfRow seats.old.workers.items }
    ensures callers { OnOk result (All IsOfRow seats.new.callers.items) }
    ensures workers { OnOk result (All IsOfRow seats.new.workers.items) }
{
    for pair in pairs {
        put_back(rt, row, seats, pair)?;
    }
    Ok(())
}

// Makes sure that both queues rest, and closes the book.
fn end<B: Naming, R: Wait>(
    rt: &R,
    alloc: Global,
    row: Row<B>,
    mut seats: Seats<B>,
    mut last: Pair<B>,
) -> Result<Ran, NoMemory>
    requires callers { All IsOfRow seats.callers.items }
    requires workers { All IsOfRow seats.workers.items }
{
    last.serve_to_rest(rt, alloc, &row);
    let open = last.unrest(rt, &row);
    let left = last.left(rt, &row);
    match put_back(rt, &row, &mut seats, last) {
        Ok(()) => {
            let (journal, kept) = close(row, seats);
            Ok(Ran {
                journal,
                kept,
                open,
                left,
            })
        }
        Err(refused) => Err(refused),
    }
}

// Closes the book.
fn close<B: Naming>(row: Row<B>, seats: Seats<B>) -> (Journal, Option<Event>)
    requires callers { All IsOfRow seats.callers.items }
    requires workers { All IsOfRow seats.workers.items }
    requires some { 0 < length seats.workers.items }
{
    let Row { book } = row;
    book.close(seats)
}

/// So many threads, at most four, put and serve by turns, and then serve until both queues rest.
pub fn run<B: Naming + Send + Sync, R: Threads + Wait + Sync>(
    rt: &R,
    alloc: Global,
    threads: u64,
    puts: u64,
    opened: Opened<GraphMachine>,
) -> Result<Ran, NoMemory>
    requires { opened ≡ B.table }
{
    let (row, mut seats) = opened_row::<B>(alloc, opened)?;
    let Some(last) = last_pair(&mut seats) else {
        return Err(NoMemory);
    };
    let mut pairs = pairs_of(alloc, &mut seats, threads)?;
    thread::for_each_mut(
        rt,
        pairs.as_mut_slice(),
        4,
        &|_, pair: &mut Pair<B>| { pair.work(rt, alloc, &row, puts) },
    );
    put_all_back(rt, &row, &mut seats, pairs)?;
    end(rt, alloc, row, seats, last)
}

//! Times the shared journal and the book. `flow_bench line THREADS COMMITS PARTIES` makes so many commits of one party or
//! of two from so many threads, at most four. `flow_bench row THREADS PUTS` has so many threads, at most four, put so
//! often each into two queues in a row and serve after each put. Each prints how many events the closed journal has. A
//! second measure may follow the first.
#![tactic(auto)]

mod line;
mod turns;

use crate::line::Load;
use crate::turns::Turns;
use flow_book::GraphMachine;
use flow_item::NoMemory;
use flow_line::Opened;
use std::alloc::Global;
use std::env;
use std::env::Args;
use std::io::Error;
use std::marker::Brand;
use std::sync::Wait;
use std::thread::Threads;

/// What is asked for.
#[derive(Drop)]
enum Measure {
    Line(Load),
    Row { threads: u64, puts: u64 },
}

/// The number that a word spells, or 1.
fn number(word: Option<String>) -> u64 {
    match word {
        Some(word) => word.parse::<u64>().unwrap_or(1),
        None => 1,
    }
}

/// The load that the next words ask for.
fn load(args: &mut Args) -> Load {
    let threads = number(args.next());
    let commits = number(args.next());
    let parties = number(args.next());
    Load {
        threads: if threads < 4 { threads as usize } else { 4 },
        commits,
        parties,
    }
}

/// The measure that the next words ask for.
fn asked(args: &mut Args) -> Option<Measure> {
    match args.next()?.as_str() {
        "line" => Some(Measure::Line(load(args))),
        "row" => {
            let threads = number(args.next());
            let puts = number(args.next());
            Some(Measure::Row { threads, puts })
        }
        _ => None,
    }
}

/// The number of events that a line has after the commits.
fn committed<R: Threads + Wait + Sync>(
    rt: &R,
    alloc: Global,
    load: &Load,
) -> Result<usize, NoMemory> {
    let opened = Opened::<Turns>::new(alloc)?;
    line::run::<Brand, _>(rt, alloc, load, opened)
}

/// The number of events that a book has after the puts.
fn put<R: Threads + Wait + Sync>(
    rt: &R,
    alloc: Global,
    threads: u64,
    puts: u64,
) -> Result<usize, NoMemory> {
    let opened = Opened::<GraphMachine>::new(alloc)?;
    let ran = flow_row::run::<Brand, _>(rt, alloc, threads, puts, opened)?;
    Ok(ran.journal.len())
}

/// The number of events that are made.
fn measured<R: Threads + Wait + Sync>(
    rt: &R,
    alloc: Global,
    measure: Measure,
) -> Result<usize, NoMemory> {
    match measure {
        Measure::Line(load) => committed(rt, alloc, &load),
        Measure::Row { threads, puts } => put(rt, alloc, threads, puts),
    }
}

fn main(rt: HostRuntime) -> Result<(), Error> {
    let mut args = env::args(&rt)?;
    let _ = args.next();
    for _ in 0..2 {
        if let Some(measure) = asked(&mut args) {
            match measured(&rt, rt.alloc(), measure) {
                Ok(len) => println!(rt; "{len}")?,
                Err(NoMemory) => println!(rt; "no memory")?,
            }
        }
    }
    Ok(())
}

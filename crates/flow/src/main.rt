//! Runs message graphs: `flow plain < DOCUMENT` prints the report of the document's run on one thread, `flow run < DOCUMENT`
//! that of its run on several. `flow check < DOCUMENT` prints what every run of the document comes to, or why that isn't
//! settled, and `flow gen N` the summary of the run of a document of N numbers.
#![tactic(auto)]

ghost use Rattle.std.specs.Prelude.{◌≡◌, true, length, map};
ghost use Rattle.flow_gen.specs.Generated.{has_bodies};

use flow_body::{
    Add, Builtins, CountTo, Echo, FailMemory, Len, Mul, Neg, Pair, Part, Shelf, SplitEven,
    builtin_shelf,
};
use flow_cli::{flow_top, plain_top, tell_no_memory};
use flow_doc::Kept;
use flow_io::{Sink, Source, StdSink, StdSource};
use flow_item::NoMemory;
use flow_print::Status;
use flow_run::{Builtin, NoGate};
use std::alloc::Global;
use std::env;
use std::io::ErrorKind;
use std::process::ExitCode;
use std::sync::Wait;
use std::thread::Threads;

/// The words after the program's name. Arguments that are no text are no words of any command.
fn words(rt: &HostRuntime) -> Result<Vec<String>, NoMemory> {
    match env::args(rt) {
        Ok(mut args) => {
            let _ = args.next();
            Ok(args.collect(rt.alloc())?)
        }
        Err(error) => match error.kind() {
            ErrorKind::OutOfMemory => Err(NoMemory),
            _ => Ok(Vec::new(rt.alloc())),
        },
    }
}

/// Whether the first word is `run`.
fn names_run(words: &[String]) -> bool {
    match words.first() {
        Some(word) => word.as_str() == "run",
        None => false,
    }
}

/// Serves the command that waits with the built-in bodies.
fn serve_run<R: Threads + Wait + Sync, S: Source, K: Sink>(
    rt: &R,
    alloc: Global,
    words: &[String],
    source: &mut S,
    sink: &mut K,
    shelf: &Shelf,
) -> Status
    requires count { 10 ≡ length shelf.now.bodies.items }
{
    let mut kept = Kept::new(alloc);
    flow_top(
        rt, alloc, words, source, sink, shelf, &Builtin, &NoGate, &mut kept,
    )
}

/// Serves the other commands with the built-in bodies.
fn serve_plain<S: Source, K: Sink>(
    alloc: Global,
    words: &[String],
    source: &mut S,
    sink: &mut K,
    shelf: &Shelf,
) -> Status
    requires generated { has_bodies (map (λ b. b.name) shelf.now.bodies.items) ≡ true }
{
    let mut kept = Kept::new(alloc);
    plain_top(alloc, words, source, sink, shelf, &mut kept)
}

/// Serves the words with these bodies.
fn serve_with<R: Threads + Wait + Sync, S: Source, K: Sink>(
    rt: &R,
    alloc: Global,
    words: &[String],
    source: &mut S,
    sink: &mut K,
    bodies: Builtins,
) -> Result<Status, NoMemory> {
    let shelf = builtin_shelf(alloc, bodies)?;
    if names_run(words) {
        Ok(serve_run(rt, alloc, words, source, sink, &shelf))
    } else {
        Ok(serve_plain(alloc, words, source, sink, &shelf))
    }
}

/// Serves the words with the built-in bodies.
fn serve<R: Threads + Wait + Sync, S: Source, K: Sink>(
    rt: &R,
    alloc: Global,
    words: &[String],
    source: &mut S,
    sink: &mut K,
) -> Result<Status, NoMemory> {
    let bodies = Builtins {
        add: Box::new(alloc, Add)?,
        mul: Box::new(alloc, Mul)?,
        neg: Box::new(alloc, Neg)?,
        len: Box::new(alloc, Len)?,
        part: Box::new(alloc, Part)?,
        pair: Box::new(alloc, Pair)?,
        echo: Box::new(alloc, Echo)?,
        split_even: Box::new(alloc, SplitEven)?,
        count_to: Box::new(alloc, CountTo)?,
        fail_memory: Box::new(alloc, FailMemory)?,
    };
    serve_with(rt, alloc, words, source, sink, bodies)
}

fn main(rt: HostRuntime) -> ExitCode {
    let alloc = rt.alloc();
    let mut source = StdSource {
        inner: rt.stdin(),
        faults: 0,
    };
    let mut sink = StdSink {
        inner: rt.stdout(),
        faults: 0,
        sent: true,
    };
    let served = match words(&rt) {
        Ok(words) => serve(&rt, alloc, words.as_slice(), &mut source, &mut sink),
        Err(NoMemory) => Err(NoMemory),
    };
    let status = match served {
        Ok(status) => status,
        Err(NoMemory) => tell_no_memory(&mut sink),
    };
    ExitCode::from(status.code())
}

// The top call of the command that waits.
ghost use Rattle.std.specs.Prelude.{◌≡◌, ◌⊎◌, ◌<◌, ◌≤◌, None, Some, true, length, map, string_bytes};
ghost use Rattle.flow_io.specs.Streams.{Rose};
ghost use Rattle.flow_work.specs.Promises.{IsFresh};
ghost use Rattle.flow_cli.specs.Checked.{HasMeaning};
ghost use Rattle.flow_cli.specs.Plain.{KeepsDocument, FollowsCallers, HeedsCallers, AgreesThroughout, IsPrinted, IsCaused, IsDue};
ghost use Rattle.flow_cli.specs.RunWords.{run_asked, run_options};
ghost use Rattle.flow_cli.specs.Threads.{IsThreadedAnswer, IsThreadedRun, IsRefusedThen, OfThreads};

use crate::input::read_input;
use crate::lines::{refuse, say, tell_no_memory};
use crate::threads::run_threaded;
use crate::threads_words::{Threaded, run_words};
use flow_body::Shelf;
use flow_doc::Kept;
use flow_io::{Sink, Source};
use flow_print::{Status, words_text};
use flow_run::{Bodies, Gate};
use std::alloc::Global;
use std::sync::Wait;
use std::thread::Threads;

// A line of `run`: reads, runs and writes.
fn threaded_line<R: Threads + Wait + Sync, S: Source, K: Sink, B: Bodies, G: Gate>(
    rt: &R,
    alloc: Global,
    asked: Threaded,
    source: &mut S,
    sink: &mut K,
    shelf: &Shelf,
    bodies: &B,
    gate: &G,
    kept: &mut Kept,
) -> Status
    requires workers { (0 < asked.workers) × (asked.workers ≤ 64) }
    requires items { asked.options.items ≤ 2000000 }
    requires bodies { B.count bodies.now ≡ length shelf.now.bodies.items }
    requires none { kept.old.doc ≡ None }
    requires fresh { IsFresh kept.old }
    ensures answer { IsThreadedAnswer (map (λ b. b.name) shelf.now.bodies.items) (B.meanings bodies.now) (Some asked) (S.left source.old) (S.left source.new) kept.new result (K.written sink.old) (K.written sink.new) }
    ensures sent { (result ≡ Status.Write → ⊥) → K.is_sent sink.new ≡ true }
    ensures read { result ≡ Status.Read → Rose (S.faults source.old) (S.faults source.new) (S.is_full source.new) }
    ensures write { result ≡ Status.Write → Rose (K.faults sink.old) (K.faults sink.new) (K.is_full sink.new) }
    ensures meaning { result ≡ Status.Done → HasMeaning (B.meanings bodies.now) kept.new }
{
    match read_input(alloc, source, shelf) {
        Ok(doc) => run_threaded(rt, alloc, asked, doc, sink, bodies, gate, kept),
        Err(fault) => refuse(alloc, &fault, sink),
    }
}

/// Serves the command `run`, and refuses all other words. It reads the source, runs the document on threads, keeps what
/// came of it and writes the report, or the line of the first thing that was wrong. The document's callers follow their
/// scripts, and so many workers as the words ask for serve the nodes; a caller that waits serves too, as a worker of its
/// own. The shelf has the names of the bodies, in the order of their numbers. The gate is passed at each point of the run.
/// It may wait.
pub fn flow_top<R: Threads + Wait + Sync, S: Source, K: Sink, B: Bodies, G: Gate>(
    rt: &R,
    alloc: Global,
    words: &[String],
    source: &mut S,
    sink: &mut K,
    shelf: &Shelf,
    bodies: &B,
    gate: &G,
    kept: &mut Kept,
) -> Status
    requires bodies { B.count bodies.now ≡ length shelf.now.bodies.items }
    requires none { kept.old.doc ≡ None }
    requires fresh { IsFresh kept.old }
    ensures document { KeepsDocument (map (λ b. b.name) shelf.now.bodies.items) (run_options (map string_bytes words.now)) (S.left source.old) (S.left source.new) kept.new }
    ensures legal_run { OfThreads (run_asked (map string_bytes words.now)) kept.new (IsThreadedRun (B.meanings bodies.now)) }
    ensures refused { OfThreads (run_asked (map string_bytes words.now)) kept.new (IsRefusedThen (B.meanings bodies.now) kept.new.refused) }
    ensures scripts { OfThreads (run_asked (map string_bytes words.now)) kept.new (λ asked. FollowsCallers asked.options) }
    ensures waits { OfThreads (run_asked (map string_bytes words.now)) kept.new (λ asked. HeedsCallers asked.options) }
    ensures throughout { OfThreads (run_asked (map string_bytes words.now)) kept.new (λ asked. AgreesThroughout asked.options) }
    ensures printed { IsPrinted (map (λ b. b.name) shelf.now.bodies.items) (run_options (map string_bytes words.now)) (S.left source.old) (S.left source.new) kept.new result (K.written sink.old) (K.written sink.new) }
    ensures sent { (result ≡ Status.Write → ⊥) → K.is_sent sink.new ≡ true }
    ensures cause { IsCaused (map (λ b. b.name) shelf.now.bodies.items) result (run_options (map string_bytes words.now)) (S.left source.old) (S.left source.new) kept.new }
    ensures read { result ≡ Status.Read → Rose (S.faults source.old) (S.faults source.new) (S.is_full source.new) }
    ensures write { result ≡ Status.Write → Rose (K.faults sink.old) (K.faults sink.new) (K.is_full sink.new) }
    ensures complete { (Rose (S.faults source.old) (S.faults source.new) (S.is_full source.new) → ⊥) → (Rose (K.faults sink.old) (K.faults sink.new) (K.is_full sink.new) → ⊥)
        → (result ≡ Status.Memory) ⊎ IsDue (map (λ b. b.name) shelf.now.bodies.items) (run_options (map string_bytes words.now)) (S.left source.old) result }
    ensures meaning { result ≡ Status.Done → HasMeaning (B.meanings bodies.now) kept.new }
{
    match run_words(alloc, words) {
        Ok(Some(asked)) => threaded_line(rt, alloc, asked, source, sink, shelf, bodies, gate, kept),
        Ok(None) => say(sink, words_text(), Status::Words),
        Err(_) => tell_no_memory(sink),
    }
}

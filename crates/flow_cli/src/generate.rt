// The command `gen`.
ghost use Rattle.std.specs.Prelude.{◌≡◌, ◌<◌, ◌≤◌, ◌^◌, ℕ, List, true, None, Some, [], map, length, string_bytes, IfOk, OnOk};
ghost use Rattle.std.specs.List.{list_all};
ghost use Rattle.flow_body.specs.Shelves.{meanings_of_shelf};
ghost use Rattle.flow_doc.specs.Fits.{doc_fits};
ghost use Rattle.flow_gen.specs.Generated.{has_bodies};
ghost use Rattle.flow_io.specs.Streams.{Rose};
ghost use Rattle.flow_item.specs.Events.{births};
ghost use Rattle.flow_node.specs.Built.{is_built};
ghost use Rattle.flow_print.specs.Replayed.{AreStates};
ghost use Rattle.flow_work.specs.Promises.{IsFresh};
ghost use Rattle.flow_cli.specs.Words.{gen_options};
ghost use Rattle.flow_cli.specs.Plain.{IsDone};
ghost use Rattle.flow_cli.specs.Gen.{HasRun, IsGeneratedRun, IsGenAnswer, KeepsNumber, summary_ending, text_ending};
ghost use Rattle.flow_cli.specs.Steps.{IsEnded};

use crate::lines::{say, tell_no_memory};
use crate::words::{Generating, gen_words};
use flow_body::Shelf;
use flow_doc::{Doc, Kept};
use flow_gen::{generated, generated_text, summary};
use flow_io::Sink;
use flow_item::NoMemory;
use flow_nodes::Nodes;
use flow_print::{Status, words_text};
use flow_work::{Ending, run_plain_with_nodes};
use std::alloc::Global;

/// The most events of a list, which no run of a generated document reaches. To reach them counts as want of memory.
const UNLIMITED: u64 = (1 << 62) - 1;

// Runs a document to its end, and keeps it with what it came to.
fn run_whole(alloc: Global, doc: Doc, shelf: &Shelf, kept: &mut Kept) -> Result<Nodes, NoMemory>
    requires fits { doc_fits (length shelf.now.bodies.items) doc ≡ true }
    requires built { list_all is_built doc.shape.nodes ≡ true }
    requires version { doc.version < 3 }
    requires fresh { IsFresh kept.old }
    ensures document { kept.new.doc ≡ Some doc }
    ensures live { kept.new.live ≡ [] }
    ensures none { kept.new.refused ≡ None }
    ensures run { IsGeneratedRun (meanings_of_shelf (λ n. pure (n.body.vtable, n.body.value)) (λ n. single (n.body.vtable, n.body.value)) (λ n. out (n.body.vtable, n.body.value)) shelf.now.bodies.items) doc kept.new.journal }
    ensures done { OnOk result (IsDone doc kept.new.journal) }
    ensures few { births kept.new.journal ≤ 2 ^ 63 }
    ensures nodes { IfOk result (λ nodes. AreStates kept.new.doc kept.new.journal nodes) }
{
    let ending = run_plain_with_nodes(alloc, &doc, shelf, UNLIMITED, UNLIMITED, kept);
    kept.doc = Some(doc);
    match ending {
        Ending::Settled(nodes) => Ok(nodes),
        Ending::Limit(_) => {
            kept.refused = None;
            Err(NoMemory)
        }
        Ending::Memory => Err(NoMemory),
    }
}

// Runs the document of a number, and keeps it with what it came to.
fn run_generated(
    alloc: Global,
    count: u32,
    shelf: &Shelf,
    kept: &mut Kept,
) -> Result<Nodes, NoMemory>
    requires bodies { has_bodies (map (λ b. b.name) shelf.now.bodies.items) ≡ true }
    requires none { kept.old.doc ≡ None }
    requires fresh { IsFresh kept.old }
    ensures kept { KeepsNumber (map (λ b. b.name) shelf.now.bodies.items) (meanings_of_shelf (λ n. pure (n.body.vtable, n.body.value)) (λ n. single (n.body.vtable, n.body.value)) (λ n. out (n.body.vtable, n.body.value)) shelf.now.bodies.items) count kept.new }
    ensures done { OnOk result (HasRun kept.new) }
    ensures few { births kept.new.journal ≤ 2 ^ 63 }
    ensures nodes { IfOk result (λ nodes. AreStates kept.new.doc kept.new.journal nodes) }
{
    match generated(alloc, shelf, count) {
        Ok(Some(doc)) => run_whole(alloc, doc, shelf, kept),
        Ok(None) => unreachable!(),
        Err(_) => Err(NoMemory),
    }
}

// Writes the summary of the run that is kept.
fn print_summary<K: Sink>(
    alloc: Global,
    count: u32,
    kept: &Kept,
    nodes: &Nodes,
    sink: &mut K,
) -> Status
    requires whole { HasRun kept.now }
    requires few { births kept.now.journal ≤ 2 ^ 63 }
    requires states { AreStates kept.now.doc kept.now.journal nodes.now }
    ensures ended { IsEnded (summary_ending count kept.now.doc kept.now.journal) result (K.written sink.old) (K.written sink.new) }
    ensures sent { (result ≡ Status.Write → ⊥) → K.is_sent sink.new ≡ true }
    ensures cause { result ≡ Status.Write → Rose (K.faults sink.old) (K.faults sink.new) (K.is_full sink.new) }
{
    let Some(doc) = &kept.doc else {
        unreachable!();
    };
    match summary(alloc, count, doc, &kept.journal, nodes, Status::Done) {
        Ok(text) => say(sink, text.as_str(), Status::Done),
        Err(_) => tell_no_memory(sink),
    }
}

// Writes the summary, with the items of the nodes brought in print order first, since a sequencer whose items lie in no
// order looks at all of them for each of them.
fn print_arranged<K: Sink>(
    alloc: Global,
    count: u32,
    kept: &Kept,
    mut nodes: Nodes,
    sink: &mut K,
) -> Status
    requires whole { HasRun kept.now }
    requires few { births kept.now.journal ≤ 2 ^ 63 }
    requires states { AreStates kept.now.doc kept.now.journal nodes }
    ensures ended { IsEnded (summary_ending count kept.now.doc kept.now.journal) result (K.written sink.old) (K.written sink.new) }
    ensures sent { (result ≡ Status.Write → ⊥) → K.is_sent sink.new ≡ true }
    ensures cause { result ≡ Status.Write → Rose (K.faults sink.old) (K.faults sink.new) (K.is_full sink.new) }
{
    match nodes.arrange() {
        Ok(()) => print_summary(alloc, count, kept, &nodes, sink),
        Err(_) => tell_no_memory(sink),
    }
}

// Runs the document of a number and writes the summary.
fn print_run<K: Sink>(
    alloc: Global,
    count: u32,
    sink: &mut K,
    shelf: &Shelf,
    kept: &mut Kept,
) -> Status
    requires bodies { has_bodies (map (λ b. b.name) shelf.now.bodies.items) ≡ true }
    requires none { kept.old.doc ≡ None }
    requires fresh { IsFresh kept.old }
    ensures kept { KeepsNumber (map (λ b. b.name) shelf.now.bodies.items) (meanings_of_shelf (λ n. pure (n.body.vtable, n.body.value)) (λ n. single (n.body.vtable, n.body.value)) (λ n. out (n.body.vtable, n.body.value)) shelf.now.bodies.items) count kept.new }
    ensures done { result ≡ Status.Done → HasRun kept.new }
    ensures ended { IsEnded (summary_ending count kept.new.doc kept.new.journal) result (K.written sink.old) (K.written sink.new) }
    ensures sent { (result ≡ Status.Write → ⊥) → K.is_sent sink.new ≡ true }
    ensures cause { result ≡ Status.Write → Rose (K.faults sink.old) (K.faults sink.new) (K.is_full sink.new) }
{
    match run_generated(alloc, count, shelf, kept) {
        Ok(nodes) => print_arranged(alloc, count, kept, nodes, sink),
        Err(_) => tell_no_memory(sink),
    }
}

// Writes the text of the document of a number.
fn print_text<K: Sink>(alloc: Global, count: u32, sink: &mut K) -> Status
    ensures ended { (shelf : List (List ℕ)) → has_bodies shelf ≡ true → IsEnded (text_ending shelf count) result (K.written sink.old) (K.written sink.new) }
    ensures sent { (result ≡ Status.Write → ⊥) → K.is_sent sink.new ≡ true }
    ensures cause { result ≡ Status.Write → Rose (K.faults sink.old) (K.faults sink.new) (K.is_full sink.new) }
{
    match generated_text(alloc, count) {
        Ok(text) => say(sink, text.as_str(), Status::Done),
        Err(_) => tell_no_memory(sink),
    }
}

// A line of `gen`.
fn serve_asked<K: Sink>(
    alloc: Global,
    asked: Generating,
    sink: &mut K,
    shelf: &Shelf,
    kept: &mut Kept,
) -> Status
    requires bodies { has_bodies (map (λ b. b.name) shelf.now.bodies.items) ≡ true }
    requires none { kept.old.doc ≡ None }
    requires fresh { IsFresh kept.old }
    ensures answer { IsGenAnswer (map (λ b. b.name) shelf.now.bodies.items) (meanings_of_shelf (λ n. pure (n.body.vtable, n.body.value)) (λ n. single (n.body.vtable, n.body.value)) (λ n. out (n.body.vtable, n.body.value)) shelf.now.bodies.items) (Some asked) kept.new result (K.written sink.old) (K.written sink.new) }
    ensures sent { (result ≡ Status.Write → ⊥) → K.is_sent sink.new ≡ true }
    ensures cause { result ≡ Status.Write → Rose (K.faults sink.old) (K.faults sink.new) (K.is_full sink.new) }
{
    if asked.text {
        print_text(alloc, asked.count, sink)
    } else {
        print_run(alloc, asked.count, sink, shelf, kept)
    }
}

/// Serves the command `gen`: generates the document of a number, and writes its text, or runs it on one thread, keeps
/// what came of it and writes the summary.
pub(crate) fn gen_line<K: Sink>(
    alloc: Global,
    words: &[String],
    sink: &mut K,
    shelf: &Shelf,
    kept: &mut Kept,
) -> Status
    requires bodies { has_bodies (map (λ b. b.name) shelf.now.bodies.items) ≡ true }
    requires none { kept.old.doc ≡ None }
    requires fresh { IsFresh kept.old }
    ensures answer { IsGenAnswer (map (λ b. b.name) shelf.now.bodies.items) (meanings_of_shelf (λ n. pure (n.body.vtable, n.body.value)) (λ n. single (n.body.vtable, n.body.value)) (λ n. out (n.body.vtable, n.body.value)) shelf.now.bodies.items) (gen_options (map string_bytes words.now)) kept.new result (K.written sink.old) (K.written sink.new) }
    ensures sent { (result ≡ Status.Write → ⊥) → K.is_sent sink.new ≡ true }
    ensures cause { result ≡ Status.Write → Rose (K.faults sink.old) (K.faults sink.new) (K.is_full sink.new) }
{
    match gen_words(alloc, words) {
        Ok(Some(asked)) => serve_asked(alloc, asked, sink, shelf, kept),
        Ok(None) => say(sink, words_text(), Status::Words),
        Err(_) => tell_no_memory(sink),
    }
}

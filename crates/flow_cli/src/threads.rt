// The run of a document on threads, and its report.
ghost use Rattle.std.specs.Prelude.{◌≡◌, ◌<◌, ◌≤◌, ◌^◌, true, is_some, IfOk, IfSome, OnOk};
ghost use Rattle.std.specs.List.{list_all};
ghost use Rattle.flow_doc.specs.Fits.{doc_fits};
ghost use Rattle.flow_io.specs.Streams.{Rose};
ghost use Rattle.flow_item.specs.Events.{births};
ghost use Rattle.flow_node.specs.Built.{is_built};
ghost use Rattle.flow_print.specs.Replayed.{AreStates, IsBuilt};
ghost use Rattle.flow_print.specs.Report.{MayBePrinted};
ghost use Rattle.flow_work.specs.Plain.{AreNodesAfter};
ghost use Rattle.flow_work.specs.Promises.{IsFresh, is_limit};
ghost use Rattle.flow_work.specs.Results.{KeepsMeaning};
ghost use Rattle.flow_cli.specs.Steps.{IsEnded, IsWhole, report_ending};
ghost use Rattle.flow_cli.specs.Threads.{IsThreaded};

use crate::lines::tell_no_memory;
use crate::run::{MOST_EVENTS, print_arranged};
use crate::threads_words::Threaded;
use crate::words::Options;
use flow_doc::{Doc, Kept};
use flow_io::Sink;
use flow_item::{NoMemory, Stop};
use flow_nodes::{Nodes, replay};
use flow_print::Status;
use flow_run::{Bodies, Gate, run_all_with_nodes};
use std::alloc::Global;
use std::sync::Wait;
use std::thread::Threads;

// Runs a document on threads, and keeps it with what it came to. The nodes are handed on.
fn run_kept<R: Threads + Wait + Sync, B: Bodies, G: Gate>(
    rt: &R,
    alloc: Global,
    asked: Threaded,
    doc: Doc,
    bodies: &B,
    gate: &G,
    kept: &mut Kept,
) -> (Result<(), Stop>, Option<Nodes>)
    requires workers { (0 < asked.workers) × (asked.workers ≤ 64) }
    requires items { asked.options.items ≤ 2000000 }
    requires fits { doc_fits (B.count bodies.now) doc ≡ true }
    requires built { list_all is_built doc.shape.nodes ≡ true }
    requires version { doc.version < 3 }
    requires fresh { IsFresh kept.old }
    ensures run { IsThreaded (B.meanings bodies.now) asked doc kept.new }
    ensures whole { OnOk result.0 (IsWhole doc kept.new) }
    ensures meaning { OnOk result.0 (KeepsMeaning (B.meanings bodies.now) doc kept.new.journal) }
    ensures few { births kept.new.journal ≤ 2 ^ 63 }
    ensures limit { is_some kept.new.refused ≡ is_limit result.0 }
    ensures nodes { IfSome result.1 (AreNodesAfter doc.shape kept.new.journal) }
{
    let items = asked.options.items;
    let ran = run_all_with_nodes(
        rt,
        alloc,
        &doc,
        bodies,
        gate,
        asked.workers,
        items,
        MOST_EVENTS,
        kept,
    );
    kept.doc = Some(doc);
    ran
}

// The nodes after the journal that is kept.
fn replay_kept(alloc: Global, kept: &Kept) -> Result<Nodes, NoMemory>
    requires kept { MayBePrinted kept.now.doc kept.now.journal }
    requires built { IsBuilt kept.now.doc }
    ensures { IfOk result (λ nodes. AreStates kept.now.doc kept.now.journal nodes) }
{
    let Some(doc) = &kept.doc else {
        unreachable!();
    };
    replay(alloc, &doc.shape, &kept.journal)
}

// Writes the report of what is kept, with the nodes after a replay of the journal, or where memory runs out before
// anything was written, the line that says so.
fn print_replayed<K: Sink>(alloc: Global, kept: &Kept, options: Options, sink: &mut K) -> Status
    requires kept { MayBePrinted kept.now.doc kept.now.journal }
    requires built { IsBuilt kept.now.doc }
    ensures ended { IsEnded (report_ending options kept.now) result (K.written sink.old) (K.written sink.new) }
    ensures sent { (result ≡ Status.Write → ⊥) → K.is_sent sink.new ≡ true }
    ensures cause { result ≡ Status.Write → Rose (K.faults sink.old) (K.faults sink.new) (K.is_full sink.new) }
{
    match replay_kept(alloc, kept) {
        Ok(nodes) => print_arranged(alloc, kept, nodes, options, sink),
        Err(_) => tell_no_memory(sink),
    }
}

// Writes the report of what is kept, with the nodes that the run handed on, or where it handed on none, with those after
// a replay.
fn print_run<K: Sink>(
    alloc: Global,
    kept: &Kept,
    nodes: Option<Nodes>,
    options: Options,
    sink: &mut K,
) -> Status
    requires kept { MayBePrinted kept.now.doc kept.now.journal }
    requires built { IsBuilt kept.now.doc }
    requires states { IfSome nodes (AreStates kept.now.doc kept.now.journal) }
    ensures ended { IsEnded (report_ending options kept.now) result (K.written sink.old) (K.written sink.new) }
    ensures sent { (result ≡ Status.Write → ⊥) → K.is_sent sink.new ≡ true }
    ensures cause { result ≡ Status.Write → Rose (K.faults sink.old) (K.faults sink.new) (K.is_full sink.new) }
{
    match nodes {
        Some(nodes) => print_arranged(alloc, kept, nodes, options, sink),
        None => print_replayed(alloc, kept, options, sink),
    }
}

/// Runs a document on threads and writes the report.
pub(crate) fn run_threaded<R: Threads + Wait + Sync, K: Sink, B: Bodies, G: Gate>(
    rt: &R,
    alloc: Global,
    asked: Threaded,
    doc: Doc,
    sink: &mut K,
    bodies: &B,
    gate: &G,
    kept: &mut Kept,
) -> Status
    requires workers { (0 < asked.workers) × (asked.workers ≤ 64) }
    requires items { asked.options.items ≤ 2000000 }
    requires fits { doc_fits (B.count bodies.now) doc ≡ true }
    requires built { list_all is_built doc.shape.nodes ≡ true }
    requires version { doc.version < 3 }
    requires fresh { IsFresh kept.old }
    ensures run { IsThreaded (B.meanings bodies.now) asked doc kept.new }
    ensures ended { IsEnded (report_ending asked.options kept.new) result (K.written sink.old) (K.written sink.new) }
    ensures sent { (result ≡ Status.Write → ⊥) → K.is_sent sink.new ≡ true }
    ensures whole { result ≡ Status.Done → IsWhole doc kept.new }
    ensures meaning { result ≡ Status.Done → KeepsMeaning (B.meanings bodies.now) doc kept.new.journal }
    ensures cause { result ≡ Status.Write → Rose (K.faults sink.old) (K.faults sink.new) (K.is_full sink.new) }
{
    let (ended, nodes) = run_kept(rt, alloc, asked, doc, bodies, gate, kept);
    match ended {
        Ok(()) => print_run(alloc, kept, nodes, asked.options, sink),
        Err(Stop::Limit) => print_run(alloc, kept, nodes, asked.options, sink),
        Err(Stop::Memory) => tell_no_memory(sink),
    }
}

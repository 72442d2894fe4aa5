// The run of a document, and its report.
ghost use Rattle.std.specs.Prelude.{◌≡◌, ◌<◌, ◌≤◌, ◌^◌, true, is_some, length, OnOk};
ghost use Rattle.std.specs.List.{list_all};
ghost use Rattle.flow_body.specs.Shelves.{meanings_of_shelf};
ghost use Rattle.flow_doc.specs.Fits.{doc_fits};
ghost use Rattle.flow_io.specs.Streams.{Rose};
ghost use Rattle.flow_item.specs.Events.{births};
ghost use Rattle.flow_node.specs.Built.{is_built};
ghost use Rattle.flow_print.specs.Replayed.{AreStates};
ghost use Rattle.flow_print.specs.Report.{run_status, MayBePrinted};
ghost use Rattle.flow_work.specs.Plain.{outcome_of, HandsOn};
ghost use Rattle.flow_work.specs.Promises.{IsFresh, is_limit};
ghost use Rattle.flow_cli.specs.Steps.{IsEnded, IsRun, IsWhole, report_ending};

use crate::lines::{send_cut, tell_no_memory};
use crate::words::Options;
use flow_body::Shelf;
use flow_doc::{Doc, Kept};
use flow_io::Sink;
use flow_item::Event;
use flow_nodes::Nodes;
use flow_print::{PrintFault, Status, print_report_of};
use flow_work::{Ending, run_plain_with_nodes};
use std::alloc::Global;

/// The most events of a run.
pub(crate) const MOST_EVENTS: u64 = 32_000_000;

// Runs a document, and keeps it with what it came to.
fn run_kept(alloc: Global, options: Options, doc: Doc, shelf: &Shelf, kept: &mut Kept) -> Ending
    requires fits { doc_fits (length shelf.now.bodies.items) doc ≡ true }
    requires built { list_all is_built doc.shape.nodes ≡ true }
    requires version { doc.version < 3 }
    requires fresh { IsFresh kept.old }
    ensures run { IsRun (meanings_of_shelf (λ n. pure (n.body.vtable, n.body.value)) (λ n. single (n.body.vtable, n.body.value)) (λ n. out (n.body.vtable, n.body.value)) shelf.now.bodies.items) options doc kept.new }
    ensures whole { OnOk (outcome_of result) (IsWhole doc kept.new) }
    ensures few { births kept.new.journal ≤ 2 ^ 63 }
    ensures limit { is_some kept.new.refused ≡ is_limit (outcome_of result) }
    ensures nodes { HandsOn doc.shape kept.new.journal result }
{
    let ending = run_plain_with_nodes(alloc, &doc, shelf, options.items, MOST_EVENTS, kept);
    kept.doc = Some(doc);
    ending
}

fn run_status(refused: &Option<Event>) -> Status
    ensures { result ≡ run_status refused.now }
{
    match refused {
        None => Status::Done,
        Some(_) => Status::Limit,
    }
}

// Writes the report of what is kept, or where memory runs out before anything was written, the line that says so.
fn print_kept<K: Sink>(
    alloc: Global,
    kept: &Kept,
    nodes: &Nodes,
    options: Options,
    sink: &mut K,
) -> Status
    requires kept { MayBePrinted kept.now.doc kept.now.journal }
    requires states { AreStates kept.now.doc kept.now.journal nodes.now }
    ensures ended { IsEnded (report_ending options kept.now) result (K.written sink.old) (K.written sink.new) }
    ensures sent { (result ≡ Status.Write → ⊥) → K.is_sent sink.new ≡ true }
    ensures cause { result ≡ Status.Write → Rose (K.faults sink.old) (K.faults sink.new) (K.is_full sink.new) }
{
    let status = run_status(&kept.refused);
    match print_report_of(alloc, kept, nodes, status, options.journal, sink) {
        Ok(()) => status,
        Err(PrintFault::Write) => Status::Write,
        Err(PrintFault::Cut) => send_cut(sink),
        Err(PrintFault::Memory) => tell_no_memory(sink),
    }
}

/// Writes the report of what is kept, with the items of the nodes brought in print order first.
pub(crate) fn print_arranged<K: Sink>(
    alloc: Global,
    kept: &Kept,
    mut nodes: Nodes,
    options: Options,
    sink: &mut K,
) -> Status
    requires kept { MayBePrinted kept.now.doc kept.now.journal }
    requires states { AreStates kept.now.doc kept.now.journal nodes }
    ensures ended { IsEnded (report_ending options kept.now) result (K.written sink.old) (K.written sink.new) }
    ensures sent { (result ≡ Status.Write → ⊥) → K.is_sent sink.new ≡ true }
    ensures cause { result ≡ Status.Write → Rose (K.faults sink.old) (K.faults sink.new) (K.is_full sink.new) }
{
    match nodes.arrange() {
        Ok(()) => print_kept(alloc, kept, &nodes, options, sink),
        Err(_) => tell_no_memory(sink),
    }
}

/// Runs a document and writes the report.
pub(crate) fn run_document<K: Sink>(
    alloc: Global,
    options: Options,
    doc: Doc,
    sink: &mut K,
    shelf: &Shelf,
    kept: &mut Kept,
) -> Status
    requires fits { doc_fits (length shelf.now.bodies.items) doc ≡ true }
    requires built { list_all is_built doc.shape.nodes ≡ true }
    requires version { doc.version < 3 }
    requires fresh { IsFresh kept.old }
    ensures run { IsRun (meanings_of_shelf (λ n. pure (n.body.vtable, n.body.value)) (λ n. single (n.body.vtable, n.body.value)) (λ n. out (n.body.vtable, n.body.value)) shelf.now.bodies.items) options doc kept.new }
    ensures ended { IsEnded (report_ending options kept.new) result (K.written sink.old) (K.written sink.new) }
    ensures sent { (result ≡ Status.Write → ⊥) → K.is_sent sink.new ≡ true }
    ensures whole { result ≡ Status.Done → IsWhole doc kept.new }
    ensures cause { result ≡ Status.Write → Rose (K.faults sink.old) (K.faults sink.new) (K.is_full sink.new) }
{
    match run_kept(alloc, options, doc, shelf, kept) {
        Ending::Settled(nodes) => print_arranged(alloc, kept, nodes, options, sink),
        Ending::Limit(nodes) => print_arranged(alloc, kept, nodes, options, sink),
        Ending::Memory => tell_no_memory(sink),
    }
}

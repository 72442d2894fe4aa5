// The command `check`.
ghost use Rattle.std.specs.Prelude.{◌≡◌, ℕ, List, true, None, Some, map, length, string_bytes, IfOk};
ghost use Rattle.std.specs.List.{list_all};
ghost use Rattle.flow_item.specs.Pairs.{Pair};
ghost use Rattle.flow_body.specs.Shelves.{meanings_of_shelf};
ghost use Rattle.flow_doc.specs.Fits.{doc_fits};
ghost use Rattle.flow_io.specs.Streams.{Rose};
ghost use Rattle.flow_mean.specs.Determinate.{IsDeterminate};
ghost use Rattle.flow_mean.specs.Whole.{IsWhole, meant_at};
ghost use Rattle.flow_node.specs.Built.{is_built};
ghost use Rattle.flow_print.specs.Outputs.{output};
ghost use Rattle.flow_report.specs.Words.{with_newline};
ghost use Rattle.flow_work.specs.Promises.{IsFresh};
ghost use Rattle.flow_cli.specs.Words.{check_asked};
ghost use Rattle.flow_cli.specs.Check.{check_text, loose_line, loose_word};
ghost use Rattle.flow_cli.specs.Checked.{IsCheckAnswer};
ghost use Rattle.flow_cli.specs.Steps.{IsEnded};

use crate::input::read_input;
use crate::lines::{refuse, say, send_cut, tell_no_memory};
use crate::words::check_words;
use flow_body::Shelf;
use flow_doc::{Doc, Kept};
use flow_io::{Sink, Source};
use flow_item::{NoMemory, Val};
use flow_mean::{Loose, LooseRule, MeanFault, Meant, judged};
use flow_print::{Holdings, PrintFault, Status, print_sinks_of, words_text};
use std::alloc::Global;

// The word of a rule.
fn rule_word(rule: LooseRule) -> &'static str
    ensures { result.now ≡ loose_word rule }
{
    match rule {
        LooseRule::N1 => "N1",
        LooseRule::N2 => "N2",
        LooseRule::N3 => "N3",
        LooseRule::N4 => "N4",
        LooseRule::N5 => "N5",
        LooseRule::N6 => "N6",
        LooseRule::N7 => "N7",
        LooseRule::N8 => "N8",
    }
}

// The line of a rule that fails.
fn loose_text(alloc: Global, loose: Loose) -> Result<String, NoMemory>
    ensures { IfOk result (λ s. string_bytes s ≡ with_newline (loose_line loose)) }
{
    let word = rule_word(loose.rule);
    Ok(format!(in alloc; "loose {word} node {}\n", loose.at)?)
}

// What the nodes of a determinate document mean, as what they have to print.
#[derive(Clone, Copy)]
struct Meaning<'a> {
    doc: &'a Doc,
    meant: &'a Meant,
}

impl Holdings for Meaning<'_> {
    ghost pairs = { λ s. meant_at s.doc.now s.meant.now };

    fn count(&self, node: u32) -> usize {
        self.meant.at(self.doc, node).len()
    }

    fn pair(&self, node: u32, at: usize) -> Option<(u64, &Val)> {
        match self.meant.at(self.doc, node).get(at) {
            Some(pair) => Some((pair.0, &pair.1)),
            None => None,
        }
    }
}

// Writes what a determinate document means.
fn print_meaning<K: Sink>(
    alloc: Global,
    doc: &Doc,
    meant: &Meant,
    sink: &mut K,
    shelf: &Shelf,
) -> Status
    requires fits { doc_fits (length shelf.now.bodies.items) doc.now ≡ true }
    requires determinate { IsDeterminate (meanings_of_shelf (λ n. pure (n.body.vtable, n.body.value)) (λ n. single (n.body.vtable, n.body.value)) (λ n. out (n.body.vtable, n.body.value)) shelf.now.bodies.items) doc.now }
    requires whole { IsWhole (meanings_of_shelf (λ n. pure (n.body.vtable, n.body.value)) (λ n. single (n.body.vtable, n.body.value)) (λ n. out (n.body.vtable, n.body.value)) shelf.now.bodies.items) doc.now meant.now.flow }
    ensures ended { IsEnded (output Status.Done (check_text (meanings_of_shelf (λ n. pure (n.body.vtable, n.body.value)) (λ n. single (n.body.vtable, n.body.value)) (λ n. out (n.body.vtable, n.body.value)) shelf.now.bodies.items) doc.now)) result (K.written sink.old) (K.written sink.new) }
    ensures sent { (result ≡ Status.Write → ⊥) → K.is_sent sink.new ≡ true }
    ensures cause { result ≡ Status.Write → Rose (K.faults sink.old) (K.faults sink.new) (K.is_full sink.new) }
{
    let meaning = Meaning { doc, meant };
    match print_sinks_of(alloc, "determinate", &doc.names, &meaning, &doc.sinks, sink) {
        Ok(()) => Status::Done,
        Err(PrintFault::Write) => Status::Write,
        Err(PrintFault::Cut) => send_cut(sink),
        Err(PrintFault::Memory) => tell_no_memory(sink),
    }
}

// Writes the line of the first rule that fails.
fn print_loose<K: Sink>(alloc: Global, loose: Loose, sink: &mut K) -> Status
    ensures ended { IsEnded (output Status.Done (with_newline (loose_line loose))) result (K.written sink.old) (K.written sink.new) }
    ensures sent { (result ≡ Status.Write → ⊥) → K.is_sent sink.new ≡ true }
    ensures cause { result ≡ Status.Write → Rose (K.faults sink.old) (K.faults sink.new) (K.is_full sink.new) }
{
    match loose_text(alloc, loose) {
        Ok(text) => say(sink, text.as_str(), Status::Done),
        Err(_) => tell_no_memory(sink),
    }
}

// Writes what the command has to say of a document.
fn check_document<K: Sink>(alloc: Global, doc: &Doc, sink: &mut K, shelf: &Shelf) -> Status
    requires fits { doc_fits (length shelf.now.bodies.items) doc.now ≡ true }
    requires built { list_all is_built doc.now.shape.nodes ≡ true }
    ensures ended { IsEnded (output Status.Done (check_text (meanings_of_shelf (λ n. pure (n.body.vtable, n.body.value)) (λ n. single (n.body.vtable, n.body.value)) (λ n. out (n.body.vtable, n.body.value)) shelf.now.bodies.items) doc.now)) result (K.written sink.old) (K.written sink.new) }
    ensures sent { (result ≡ Status.Write → ⊥) → K.is_sent sink.new ≡ true }
    ensures cause { result ≡ Status.Write → Rose (K.faults sink.old) (K.faults sink.new) (K.is_full sink.new) }
{
    match judged(alloc, doc, shelf) {
        Ok(meant) => print_meaning(alloc, doc, &meant, sink, shelf),
        Err(MeanFault::Loose(loose)) => print_loose(alloc, loose, sink),
        Err(MeanFault::Memory) => tell_no_memory(sink),
    }
}

// Checks a document, and keeps it.
fn check_kept<K: Sink>(
    alloc: Global,
    doc: Doc,
    sink: &mut K,
    shelf: &Shelf,
    kept: &mut Kept,
) -> Status
    requires fits { doc_fits (length shelf.now.bodies.items) doc ≡ true }
    requires built { list_all is_built doc.shape.nodes ≡ true }
    requires fresh { IsFresh kept.old }
    ensures kept { kept.new.doc ≡ Some doc }
    ensures fresh { IsFresh kept.new }
    ensures ended { IsEnded (output Status.Done (check_text (meanings_of_shelf (λ n. pure (n.body.vtable, n.body.value)) (λ n. single (n.body.vtable, n.body.value)) (λ n. out (n.body.vtable, n.body.value)) shelf.now.bodies.items) doc)) result (K.written sink.old) (K.written sink.new) }
    ensures sent { (result ≡ Status.Write → ⊥) → K.is_sent sink.new ≡ true }
    ensures cause { result ≡ Status.Write → Rose (K.faults sink.old) (K.faults sink.new) (K.is_full sink.new) }
{
    let status = check_document(alloc, &doc, sink, shelf);
    kept.doc = Some(doc);
    status
}

// A line of `check`: reads and checks.
fn check_input<S: Source, K: Sink>(
    alloc: Global,
    source: &mut S,
    sink: &mut K,
    shelf: &Shelf,
    kept: &mut Kept,
) -> Status
    requires none { kept.old.doc ≡ None }
    requires fresh { IsFresh kept.old }
    ensures answer { IsCheckAnswer (map (λ b. b.name) shelf.now.bodies.items) (meanings_of_shelf (λ n. pure (n.body.vtable, n.body.value)) (λ n. single (n.body.vtable, n.body.value)) (λ n. out (n.body.vtable, n.body.value)) shelf.now.bodies.items) (Some tt) (S.left source.old) (S.left source.new) kept.new result (K.written sink.old) (K.written sink.new) }
    ensures sent { (result ≡ Status.Write → ⊥) → K.is_sent sink.new ≡ true }
    ensures read { result ≡ Status.Read → Rose (S.faults source.old) (S.faults source.new) (S.is_full source.new) }
    ensures write { result ≡ Status.Write → Rose (K.faults sink.old) (K.faults sink.new) (K.is_full sink.new) }
{
    match read_input(alloc, source, shelf) {
        Ok(doc) => check_kept(alloc, doc, sink, shelf, kept),
        Err(fault) => refuse(alloc, &fault, sink),
    }
}

/// Serves the command `check`: reads the source, keeps the document, and writes what it means, or the first rule of
/// determinate documents that it fails.
pub(crate) fn check_line<S: Source, K: Sink>(
    alloc: Global,
    words: &[String],
    source: &mut S,
    sink: &mut K,
    shelf: &Shelf,
    kept: &mut Kept,
) -> Status
    requires none { kept.old.doc ≡ None }
    requires fresh { IsFresh kept.old }
    ensures answer { IsCheckAnswer (map (λ b. b.name) shelf.now.bodies.items) (meanings_of_shelf (λ n. pure (n.body.vtable, n.body.value)) (λ n. single (n.body.vtable, n.body.value)) (λ n. out (n.body.vtable, n.body.value)) shelf.now.bodies.items) (check_asked (map string_bytes words.now)) (S.left source.old) (S.left source.new) kept.new result (K.written sink.old) (K.written sink.new) }
    ensures sent { (result ≡ Status.Write → ⊥) → K.is_sent sink.new ≡ true }
    ensures read { result ≡ Status.Read → Rose (S.faults source.old) (S.faults source.new) (S.is_full source.new) }
    ensures write { result ≡ Status.Write → Rose (K.faults sink.old) (K.faults sink.new) (K.is_full sink.new) }
{
    match check_words(alloc, words) {
        Ok(Some(_)) => check_input(alloc, source, sink, shelf, kept),
        Ok(None) => say(sink, words_text(), Status::Words),
        Err(_) => tell_no_memory(sink),
    }
}

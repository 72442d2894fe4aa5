// The top call.
ghost use Rattle.std.specs.Prelude.{◌≡◌, ◌⊎◌, None, Some, true, map, string_bytes};
ghost use Rattle.flow_body.specs.Shelves.{meanings_of_shelf};
ghost use Rattle.flow_io.specs.Streams.{Rose};
ghost use Rattle.flow_work.specs.Promises.{IsFresh};
ghost use Rattle.flow_gen.specs.Generated.{has_bodies};
ghost use Rattle.flow_cli.specs.Words.{check_asked, command_of, gen_options, plain_options};
ghost use Rattle.flow_cli.specs.Checked.{HasMeaning, IsCheckAnswer, ShowsMeaning};
ghost use Rattle.flow_cli.specs.Gen.{IsGenAnswer};
ghost use Rattle.flow_cli.specs.Plain.{KeepsDocument, OfRun, IsLegalRun, IsRefusedLast, FollowsCallers, HeedsCallers, AgreesThroughout, IsPrinted, IsCaused, IsDue};
ghost use Rattle.flow_cli.specs.Steps.{IsAnswer};

use crate::check::check_line;
use crate::generate::gen_line;
use crate::input::read_input;
use crate::lines::{refuse, say, tell_no_memory};
use crate::run::run_document;
use crate::words::{Command, Options, named_command, plain_words};
use flow_body::Shelf;
use flow_determinacy::shelf_answers_once;
use flow_doc::Kept;
use flow_io::{Sink, Source};
use flow_print::{Status, words_text};
use std::alloc::Global;

// A line of `plain`: reads, runs and writes.
fn run_line<S: Source, K: Sink>(
    alloc: Global,
    options: Options,
    source: &mut S,
    sink: &mut K,
    shelf: &Shelf,
    kept: &mut Kept,
) -> Status
    requires none { kept.old.doc ≡ None }
    requires fresh { IsFresh kept.old }
    ensures answer { IsAnswer (map (λ b. b.name) shelf.now.bodies.items) (meanings_of_shelf (λ n. pure (n.body.vtable, n.body.value)) (λ n. single (n.body.vtable, n.body.value)) (λ n. out (n.body.vtable, n.body.value)) shelf.now.bodies.items) (Some options) (S.left source.old) (S.left source.new) kept.new result (K.written sink.old) (K.written sink.new) }
    ensures sent { (result ≡ Status.Write → ⊥) → K.is_sent sink.new ≡ true }
    ensures read { result ≡ Status.Read → Rose (S.faults source.old) (S.faults source.new) (S.is_full source.new) }
    ensures write { result ≡ Status.Write → Rose (K.faults sink.old) (K.faults sink.new) (K.is_full sink.new) }
{
    match read_input(alloc, source, shelf) {
        Ok(doc) => run_document(alloc, options, doc, sink, shelf, kept),
        Err(fault) => refuse(alloc, &fault, sink),
    }
}

// Serves the command `plain`, and refuses all other words.
fn plain_line<S: Source, K: Sink>(
    alloc: Global,
    words: &[String],
    source: &mut S,
    sink: &mut K,
    shelf: &Shelf,
    kept: &mut Kept,
) -> Status
    requires none { kept.old.doc ≡ None }
    requires fresh { IsFresh kept.old }
    ensures document { KeepsDocument (map (λ b. b.name) shelf.now.bodies.items) (plain_options (map string_bytes words.now)) (S.left source.old) (S.left source.new) kept.new }
    ensures legal_run { OfRun (plain_options (map string_bytes words.now)) kept.new (IsLegalRun (meanings_of_shelf (λ n. pure (n.body.vtable, n.body.value)) (λ n. single (n.body.vtable, n.body.value)) (λ n. out (n.body.vtable, n.body.value)) shelf.now.bodies.items)) }
    ensures refused { OfRun (plain_options (map string_bytes words.now)) kept.new (IsRefusedLast (meanings_of_shelf (λ n. pure (n.body.vtable, n.body.value)) (λ n. single (n.body.vtable, n.body.value)) (λ n. out (n.body.vtable, n.body.value)) shelf.now.bodies.items) kept.new.refused) }
    ensures scripts { OfRun (plain_options (map string_bytes words.now)) kept.new FollowsCallers }
    ensures waits { OfRun (plain_options (map string_bytes words.now)) kept.new HeedsCallers }
    ensures throughout { OfRun (plain_options (map string_bytes words.now)) kept.new AgreesThroughout }
    ensures printed { IsPrinted (map (λ b. b.name) shelf.now.bodies.items) (plain_options (map string_bytes words.now)) (S.left source.old) (S.left source.new) kept.new result (K.written sink.old) (K.written sink.new) }
    ensures sent { (result ≡ Status.Write → ⊥) → K.is_sent sink.new ≡ true }
    ensures cause { IsCaused (map (λ b. b.name) shelf.now.bodies.items) result (plain_options (map string_bytes words.now)) (S.left source.old) (S.left source.new) kept.new }
    ensures read { result ≡ Status.Read → Rose (S.faults source.old) (S.faults source.new) (S.is_full source.new) }
    ensures write { result ≡ Status.Write → Rose (K.faults sink.old) (K.faults sink.new) (K.is_full sink.new) }
    ensures complete { (Rose (S.faults source.old) (S.faults source.new) (S.is_full source.new) → ⊥) → (Rose (K.faults sink.old) (K.faults sink.new) (K.is_full sink.new) → ⊥)
        → (result ≡ Status.Memory) ⊎ IsDue (map (λ b. b.name) shelf.now.bodies.items) (plain_options (map string_bytes words.now)) (S.left source.old) result }
    ensures meaning { result ≡ Status.Done → ShowsMeaning (meanings_of_shelf (λ n. pure (n.body.vtable, n.body.value)) (λ n. single (n.body.vtable, n.body.value)) (λ n. out (n.body.vtable, n.body.value)) shelf.now.bodies.items) kept.new }
{
    match plain_words(alloc, words) {
        Ok(Some(options)) => run_line(alloc, options, source, sink, shelf, kept),
        Ok(None) => say(sink, words_text(), Status::Words),
        Err(_) => tell_no_memory(sink),
    }
}

/// Serves the commands `plain`, `gen` and `check`. `plain` reads the source, runs the document on one thread, keeps what
/// came of it and writes the report, or the line of the first thing that was wrong. `gen` generates the document of a
/// number, and writes its text, or runs it on one thread, keeps what came of it and writes the summary; it reads
/// nothing, and its bodies have to be on the shelf. `check` reads the source, keeps the document and writes what it
/// means, or the first rule of determinate documents that it fails, and runs nothing but pure bodies. Bodies are those
/// of the shelf, by their names. It always returns, where each body does.
pub fn plain_top<S: Source, K: Sink>(
    alloc: Global,
    words: &[String],
    source: &mut S,
    sink: &mut K,
    shelf: &Shelf,
    kept: &mut Kept,
) -> Status
    requires bodies { command_of (map string_bytes words.now) ≡ Command.Gen → has_bodies (map (λ b. b.name) shelf.now.bodies.items) ≡ true }
    requires none { kept.old.doc ≡ None }
    requires fresh { IsFresh kept.old }
    ensures document { command_of (map string_bytes words.now) ≡ Command.Plain → KeepsDocument (map (λ b. b.name) shelf.now.bodies.items) (plain_options (map string_bytes words.now)) (S.left source.old) (S.left source.new) kept.new }
    ensures legal_run { command_of (map string_bytes words.now) ≡ Command.Plain → OfRun (plain_options (map string_bytes words.now)) kept.new (IsLegalRun (meanings_of_shelf (λ n. pure (n.body.vtable, n.body.value)) (λ n. single (n.body.vtable, n.body.value)) (λ n. out (n.body.vtable, n.body.value)) shelf.now.bodies.items)) }
    ensures refused { command_of (map string_bytes words.now) ≡ Command.Plain → OfRun (plain_options (map string_bytes words.now)) kept.new (IsRefusedLast (meanings_of_shelf (λ n. pure (n.body.vtable, n.body.value)) (λ n. single (n.body.vtable, n.body.value)) (λ n. out (n.body.vtable, n.body.value)) shelf.now.bodies.items) kept.new.refused) }
    ensures scripts { command_of (map string_bytes words.now) ≡ Command.Plain → OfRun (plain_options (map string_bytes words.now)) kept.new FollowsCallers }
    ensures waits { command_of (map string_bytes words.now) ≡ Command.Plain → OfRun (plain_options (map string_bytes words.now)) kept.new HeedsCallers }
    ensures throughout { command_of (map string_bytes words.now) ≡ Command.Plain → OfRun (plain_options (map string_bytes words.now)) kept.new AgreesThroughout }
    ensures printed { command_of (map string_bytes words.now) ≡ Command.Plain → IsPrinted (map (λ b. b.name) shelf.now.bodies.items) (plain_options (map string_bytes words.now)) (S.left source.old) (S.left source.new) kept.new result (K.written sink.old) (K.written sink.new) }
    ensures sent { (result ≡ Status.Write → ⊥) → K.is_sent sink.new ≡ true }
    ensures cause { command_of (map string_bytes words.now) ≡ Command.Plain → IsCaused (map (λ b. b.name) shelf.now.bodies.items) result (plain_options (map string_bytes words.now)) (S.left source.old) (S.left source.new) kept.new }
    ensures read { result ≡ Status.Read → Rose (S.faults source.old) (S.faults source.new) (S.is_full source.new) }
    ensures write { result ≡ Status.Write → Rose (K.faults sink.old) (K.faults sink.new) (K.is_full sink.new) }
    ensures complete { command_of (map string_bytes words.now) ≡ Command.Plain → (Rose (S.faults source.old) (S.faults source.new) (S.is_full source.new) → ⊥) → (Rose (K.faults sink.old) (K.faults sink.new) (K.is_full sink.new) → ⊥)
        → (result ≡ Status.Memory) ⊎ IsDue (map (λ b. b.name) shelf.now.bodies.items) (plain_options (map string_bytes words.now)) (S.left source.old) result }
    ensures generated { command_of (map string_bytes words.now) ≡ Command.Gen → IsGenAnswer (map (λ b. b.name) shelf.now.bodies.items) (meanings_of_shelf (λ n. pure (n.body.vtable, n.body.value)) (λ n. single (n.body.vtable, n.body.value)) (λ n. out (n.body.vtable, n.body.value)) shelf.now.bodies.items) (gen_options (map string_bytes words.now)) kept.new result (K.written sink.old) (K.written sink.new) }
    ensures meaning { (command_of (map string_bytes words.now) ≡ Command.Check → ⊥) → result ≡ Status.Done → HasMeaning (meanings_of_shelf (λ n. pure (n.body.vtable, n.body.value)) (λ n. single (n.body.vtable, n.body.value)) (λ n. out (n.body.vtable, n.body.value)) shelf.now.bodies.items) kept.new }
    ensures checked { command_of (map string_bytes words.now) ≡ Command.Check → IsCheckAnswer (map (λ b. b.name) shelf.now.bodies.items) (meanings_of_shelf (λ n. pure (n.body.vtable, n.body.value)) (λ n. single (n.body.vtable, n.body.value)) (λ n. out (n.body.vtable, n.body.value)) shelf.now.bodies.items) (check_asked (map string_bytes words.now)) (S.left source.old) (S.left source.new) kept.new result (K.written sink.old) (K.written sink.new) }
    ensures unread { command_of (map string_bytes words.now) ≡ Command.Gen → source.new ≡ source.old }
{
    shelf_answers_once(shelf);
    match named_command(words) {
        Command::Gen => gen_line(alloc, words, sink, shelf, kept),
        Command::Check => check_line(alloc, words, source, sink, shelf, kept),
        Command::Plain => plain_line(alloc, words, source, sink, shelf, kept),
    }
}

// The lines of faults, written.
ghost use Rattle.std.specs.Prelude.{◌≡◌, ◌⊎◌, true};
ghost use Rattle.flow_io.specs.Streams.{Rose};
ghost use Rattle.flow_print.specs.Faults.{fault_status, memory_text};
ghost use Rattle.flow_print.specs.Outputs.{bad_document};
ghost use Rattle.flow_cli.specs.Steps.{IsSaid, IsEnded, fault_ending};

use crate::input::InputFault;
use flow_doc::DocFault;
use flow_io::{Sink, write_all};
use flow_print::{Status, fault_text, memory_text, read_text};
use std::alloc::Global;

/// Writes a text and finishes the sink. The status is the text's, unless writing fails.
pub(crate) fn say<K: Sink>(sink: &mut K, text: &str, status: Status) -> Status
    ensures said { IsSaid text.now status result (K.written sink.old) (K.written sink.new) }
    ensures sent { (result ≡ Status.Write → ⊥) → K.is_sent sink.new ≡ true }
    ensures cause { (status ≡ Status.Write → ⊥) → result ≡ Status.Write → Rose (K.faults sink.old) (K.faults sink.new) (K.is_full sink.new) }
{
    match write_all(sink, text.as_bytes()) {
        Ok(()) => match sink.finish() {
            Ok(()) => status,
            Err(_) => Status::Write,
        },
        Err(_) => Status::Write,
    }
}

/// Writes the line where memory ran out before anything else was written. The status is that of a failed write where
/// writing fails.
pub fn tell_no_memory<K: Sink>(sink: &mut K) -> Status
    ensures said { IsSaid memory_text Status.Memory result (K.written sink.old) (K.written sink.new) }
    ensures sent { (result ≡ Status.Write → ⊥) → K.is_sent sink.new ≡ true }
    ensures cause { result ≡ Status.Write → Rose (K.faults sink.old) (K.faults sink.new) (K.is_full sink.new) }
{
    say(sink, memory_text(), Status::Memory)
}

/// Finishes the sink after a report that was cut for want of memory.
pub(crate) fn send_cut<K: Sink>(sink: &mut K) -> Status
    ensures same { K.written sink.new ≡ K.written sink.old }
    ensures status { (result ≡ Status.Memory) ⊎ (result ≡ Status.Write) }
    ensures sent { (result ≡ Status.Write → ⊥) → K.is_sent sink.new ≡ true }
    ensures cause { result ≡ Status.Write → Rose (K.faults sink.old) (K.faults sink.new) (K.is_full sink.new) }
{
    match sink.finish() {
        Ok(()) => Status::Memory,
        Err(_) => Status::Write,
    }
}

fn fault_status(fault: &DocFault) -> Status
    ensures { result ≡ fault_status fault.now }
{
    match fault {
        DocFault::TooLong => Status::Long,
        DocFault::Syntax => Status::Syntax,
        DocFault::Place { .. } => Status::Document,
        DocFault::Shape(_) => Status::Shape,
        DocFault::Memory => Status::Memory,
    }
}

fn refuse_document<K: Sink>(alloc: Global, fault: &DocFault, sink: &mut K) -> Status
    ensures ended { IsEnded (bad_document fault.now) result (K.written sink.old) (K.written sink.new) }
    ensures sent { (result ≡ Status.Write → ⊥) → K.is_sent sink.new ≡ true }
    ensures cause { result ≡ Status.Write → Rose (K.faults sink.old) (K.faults sink.new) (K.is_full sink.new) }
{
    match fault_text(alloc, fault) {
        Ok(text) => say(sink, text.as_str(), fault_status(fault)),
        Err(_) => tell_no_memory(sink),
    }
}

/// Writes the line of what was wrong with the input.
pub(crate) fn refuse<K: Sink>(alloc: Global, fault: &InputFault, sink: &mut K) -> Status
    ensures ended { IsEnded (fault_ending fault.now) result (K.written sink.old) (K.written sink.new) }
    ensures sent { (result ≡ Status.Write → ⊥) → K.is_sent sink.new ≡ true }
    ensures cause { result ≡ Status.Write → Rose (K.faults sink.old) (K.faults sink.new) (K.is_full sink.new) }
{
    match fault {
        InputFault::Unread => say(sink, read_text(), Status::Read),
        InputFault::Bad(fault) => refuse_document(alloc, fault, sink),
    }
}

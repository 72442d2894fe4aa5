// A sinks section by itself, under a line of its own.
ghost use Rattle.std.specs.Prelude.{◌≡◌, true, ◌∷◌, OnOk, OnErr, IsErrOf};
ghost use Rattle.flow_io.specs.Streams.{Grows, GrowsByPart};
ghost use Rattle.flow_report.specs.Words.{lines};
ghost use Rattle.flow_print.specs.Begun.{GrowsByStart};
ghost use Rattle.flow_print.specs.Pages.{Moves, Stops, HasReason};
ghost use Rattle.flow_report.specs.Sinks.{sinks_section};

use crate::holdings::Holdings;
use crate::pages::add_head;
use crate::sinks::print_sinks;
use crate::status::PrintFault;
use crate::whole::{send_all, write_first};
use flow_doc::{Names, Nodes};
use flow_io::Sink;
use std::alloc::Global;

// Prints the number of sinks, and their lines.
fn print_section<K: Sink, H: Holdings>(
    alloc: Global,
    sink: &mut K,
    pending: &mut Vec<u8>,
    names: &Names,
    holdings: &H,
    sinks: &Nodes,
) -> Result<(), PrintFault>
    ensures ok { OnOk result (Moves (K.written sink.old) pending.old.items (lines (sinks_section names.now (H.pairs holdings.now) sinks.now)) (K.written sink.new) pending.new.items) }
    ensures err { OnErr result (Stops (K.written sink.old) pending.old.items (lines (sinks_section names.now (H.pairs holdings.now) sinks.now)) (K.written sink.new)) }
    ensures reason { HasReason (K.faults sink.old) (K.faults sink.new) (K.is_full sink.new) result }
{
    add_head(alloc, pending, "sinks", sinks.len())?;
    print_sinks(alloc, sink, pending, names, holdings, sinks)
}

// Writes the section and finishes the sink. Want of memory is told as `Cut`.
fn write_section<K: Sink, H: Holdings>(
    alloc: Global,
    sink: &mut K,
    names: &Names,
    holdings: &H,
    sinks: &Nodes,
) -> Result<(), PrintFault>
    ensures ok { OnOk result (Grows (K.written sink.old) (lines (sinks_section names.now (H.pairs holdings.now) sinks.now)) (K.written sink.new)) }
    ensures part { GrowsByPart (K.written sink.old) (lines (sinks_section names.now (H.pairs holdings.now) sinks.now)) (K.written sink.new) }
    ensures begun { IsErrOf result PrintFault.Memory → ⊥ }
    ensures sent { OnOk result (K.is_sent sink.new ≡ true) }
    ensures reason { HasReason (K.faults sink.old) (K.faults sink.new) (K.is_full sink.new) result }
{
    let mut pending = Vec::new(alloc);
    match print_section(alloc, sink, &mut pending, names, holdings, sinks) {
        Ok(()) => send_all(sink, &mut pending),
        Err(PrintFault::Write) => Err(PrintFault::Write),
        Err(PrintFault::Memory) => Err(PrintFault::Cut),
        Err(PrintFault::Cut) => Err(PrintFault::Cut),
    }
}

/// Writes a line, and under it the sinks section of what nodes have, and finishes the sink. `Write` comes only where
/// the sink's faults rose. For want of memory `Memory` comes where nothing was written, and `Cut` where a beginning
/// was. After each a first part is written. `Ok` comes only after the sink was finished.
pub fn print_sinks_of<K: Sink, H: Holdings>(
    alloc: Global,
    head: &str,
    names: &Names,
    holdings: &H,
    sinks: &Nodes,
    sink: &mut K,
) -> Result<(), PrintFault>
    ensures ok { OnOk result (Grows (K.written sink.old) (lines (head.now ∷ sinks_section names.now (H.pairs holdings.now) sinks.now)) (K.written sink.new)) }
    ensures part { GrowsByPart (K.written sink.old) (lines (head.now ∷ sinks_section names.now (H.pairs holdings.now) sinks.now)) (K.written sink.new) }
    ensures sent { OnOk result (K.is_sent sink.new ≡ true) }
    ensures unbegun { IsErrOf result PrintFault.Memory → K.written sink.new ≡ K.written sink.old }
    ensures begun { IsErrOf result PrintFault.Cut → GrowsByStart (K.written sink.old) (lines (head.now ∷ sinks_section names.now (H.pairs holdings.now) sinks.now)) (K.written sink.new) }
    ensures reason { HasReason (K.faults sink.old) (K.faults sink.new) (K.is_full sink.new) result }
{
    let text = String::from_str(alloc, head)?;
    match write_first(sink, text) {
        Ok(()) => write_section(alloc, sink, names, holdings, sinks),
        Err(fault) => Err(fault),
    }
}

// The document that a source gives.
ghost use Rattle.std.specs.Prelude.{◌≡◌, map, IsErrOf};
ghost use Rattle.flow_io.specs.Streams.{Rose};
ghost use Rattle.flow_cli.specs.Steps.{Reads};

use flow_body::Shelf;
use flow_doc::{Doc, DocFault, Offered, STORES};
use flow_io::{ReadFault, Source, read_all};
use flow_read::read_doc;
use std::alloc::Global;

/// The words that documents may use so far: those of the kinds that there is code for.
pub const OFFERED: Offered = STORES;

/// Why a source gives no document.
#[derive(Debug, Drop)]
pub(crate) enum InputFault {
    /// It failed.
    Unread,
    /// Its bytes are no document, or memory ran out.
    Bad(DocFault),
}

/// Reads all bytes of a source, and the document that they are with the names of the shelf.
pub(crate) fn read_input<S: Source>(
    alloc: Global,
    source: &mut S,
    shelf: &Shelf,
) -> Result<Doc, InputFault>
    ensures reads { Reads (map (λ b. b.name) shelf.now.bodies.items) (S.left source.old) (S.left source.new) result }
    ensures cause { IsErrOf result InputFault.Unread → Rose (S.faults source.old) (S.faults source.new) (S.is_full source.new) }
{
    let bytes = match read_all(alloc, source) {
        Ok(bytes) => bytes,
        Err(ReadFault::Read) => return Err(InputFault::Unread),
        Err(ReadFault::Long) => return Err(InputFault::Bad(DocFault::TooLong)),
        Err(ReadFault::Memory) => return Err(InputFault::Bad(DocFault::Memory)),
    };
    match read_doc(alloc, bytes.as_slice(), shelf, OFFERED) {
        Ok(doc) => Ok(doc),
        Err(fault) => Err(InputFault::Bad(fault)),
    }
}

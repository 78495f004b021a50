//! The listing of a layout, put into a sink or written.

ghost use Rattle.std.specs.Prelude.{◌+◌, ◌*◌, ◌^◌, ◌≤◌, length, IfErr, IfOk};
ghost use Rattle.oas_num.specs.Writing.{Writes};
ghost use Rattle.oas_num.specs.Written.{IsWritten, IsCutOff};
ghost use Rattle.oas_elements.specs.Contents.{meaning_of};
ghost use Rattle.oas_listing.specs.Listing.{listing};

use crate::cells::{put_cells, put_unit};
use oas_layout::Layout;
use oas_num::{Content, Device, Refusal, Sink, SinkFault, write_content};

/// Puts the listing of a layout into a sink. After a fault a prefix of it was put. It allocates nothing.
pub fn put_listing<K: Sink>(layout: &Layout, sink: &mut K) -> Result<(), SinkFault>
    ensures writes { Writes K.given K.failures sink.old (listing (meaning_of layout.now)) result sink.new }
    ensures short { length (listing (meaning_of layout.now)) ≤ 136 + 512 * 2 ^ 30 }
{
    let cells = layout.cells();
    put_unit(sink, layout.unit())?;
    put_cells(sink, cells)
}

/// The listing of a layout, as content.
#[derive(Drop)]
struct Listing<'a> {
    layout: &'a Layout,
}

impl Content for Listing<'_> {
    ghost use Rattle.oas_elements.specs.Contents.{meaning_of};
    ghost use Rattle.oas_listing.specs.Listing.{listing};

    ghost bytes = { λ content. listing (meaning_of content.layout.now) };

    fn put_into<K: Sink>(&self, sink: &mut K) -> Result<(), SinkFault> {
        put_listing(self.layout, sink)
    }
}

/// Writes the listing of a layout, and returns how many bytes it has. It allocates nothing.
///
/// A fault of the writer is `Why::Write`. Its place is the number of bytes that the writer took: the first ones of the
/// listing. Where it is the number of all of them, the flush failed.
pub fn write_listing<W: Device>(layout: &Layout, writer: &mut W) -> Result<u64, Refusal>
    ensures written { IfOk result (IsWritten W.calls writer.old (listing (meaning_of layout.now)) writer.new) }
    ensures refused { IfErr result (IsCutOff W.calls writer.old (listing (meaning_of layout.now)) writer.new) }
{
    write_content(&Listing { layout }, writer)
}

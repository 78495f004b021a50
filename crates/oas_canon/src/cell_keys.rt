//! The keys of a layout and of its cells.
ghost use Rattle.std.specs.Prelude.{◌≡◌, ◌*◌, ◌^◌, ◌≤◌, length, IfErr, IfOk};
ghost use Rattle.oas_num.specs.Writing.{Writes};
ghost use Rattle.oas_num.specs.Written.{IsWritten, IsCutOff};
ghost use Rattle.oas_elements.specs.Bag.{items};
ghost use Rattle.oas_elements.specs.Contents.{meaning_of};
ghost use Rattle.sha2.specs.Sha256.{sha256};
ghost use Rattle.oas_judge.specs.Bytes.{canonical_bytes};
ghost use Rattle.oas_canon.specs.CellKeys.{cell_key, cell_key_line, cell_key_lines};

use crate::hashing::Hasher;
use crate::named_keys::put_named_key;
use oas_judge::{Elements, Layout, put_canonical, put_cell_alone};
use oas_num::{Content, Device, Fraction, Refusal, Sink, SinkFault, write_content};

/// The key of a layout: the SHA-256 of its canonical file. That isn't held or written anywhere, and it takes no memory.
pub fn layout_key(layout: &Layout) -> [u8; 32]
    ensures { result ≡ sha256 (canonical_bytes (meaning_of layout.now)) }
{
    let mut hasher = Hasher::new();
    let _ = put_canonical(layout, &mut hasher);
    hasher.finish()
}

/// The key of a cell, by its name and its elements: the SHA-256 of the canonical file that has this unit and this cell alone.
pub fn cell_key(unit: Fraction, name: &[u8], elements: Elements<'_>) -> [u8; 32]
    ensures { result ≡ cell_key unit (name.now, items elements.entry) }
{
    let mut hasher = Hasher::new();
    let _ = put_cell_alone(unit, name, elements, &mut hasher);
    hasher.finish()
}

/// Puts the line of a cell's key.
fn put_line<K: Sink>(
    sink: &mut K,
    unit: Fraction,
    name: &[u8],
    elements: Elements<'_>,
) -> Result<(), SinkFault>
    ensures { Writes K.given K.failures sink.old (cell_key_line unit (name.now, items elements.entry)) result sink.new }
{
    put_named_key(sink, &cell_key(unit, name, elements), name)
}

/// Puts a line `HEX  CELL` for each cell of a layout into a sink, as [`write_cell_keys`] writes it.
pub fn put_cell_keys<K: Sink>(layout: &Layout, sink: &mut K) -> Result<(), SinkFault>
    ensures writes { Writes K.given K.failures sink.old (cell_key_lines (meaning_of layout.now)) result sink.new }
    ensures short { length (cell_key_lines (meaning_of layout.now)) ≤ 67 * 2 ^ 30 }
{
    let unit = layout.unit();
    for (name, elements) in layout.cells() {
        put_line(sink, unit, name.as_bytes(), elements)?;
    }
    Ok(())
}

/// These lines, as content.
#[derive(Drop)]
struct CellKeys<'a> {
    layout: &'a Layout,
}

impl Content for CellKeys<'_> {
    ghost use Rattle.oas_elements.specs.Contents.{meaning_of};
    ghost use Rattle.oas_canon.specs.CellKeys.{cell_key_lines};

    ghost bytes = { λ content. cell_key_lines (meaning_of content.layout.now) };

    fn put_into<K: Sink>(&self, sink: &mut K) -> Result<(), SinkFault> {
        put_cell_keys(self.layout, sink)
    }
}

/// Writes a line `HEX  CELL` for each cell of a layout, by ascending names, and returns how many bytes that is. HEX is the
/// cell's key ([`cell_key`]) in lower-case hex digits. It allocates nothing.
///
/// A fault of the writer is `Why::Write`. Its place is the number of bytes that the writer took: the first ones of the lines.
/// Where it is the number of all of them, the flush failed.
pub fn write_cell_keys<W: Device>(layout: &Layout, writer: &mut W) -> Result<u64, Refusal>
    ensures written { IfOk result (IsWritten W.calls writer.old (cell_key_lines (meaning_of layout.now)) writer.new) }
    ensures refused { IfErr result (IsCutOff W.calls writer.old (cell_key_lines (meaning_of layout.now)) writer.new) }
{
    write_content(&CellKeys { layout }, writer)
}

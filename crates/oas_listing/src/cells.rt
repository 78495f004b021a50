//! The lines of the unit and of cells.

ghost use Rattle.std.specs.Prelude.{[], ◌∷◌, codes, flat_map, replicate};
ghost use Rattle.oas_num.specs.Writing.{Writes};
ghost use Rattle.oas_elements.specs.Bag.{items};
ghost use Rattle.oas_elements.specs.Contents.{expanded};
ghost use Rattle.oas_listing.specs.Lines.{line};
ghost use Rattle.oas_listing.specs.Listing.{fraction, element_line, cell_lines};

use crate::elements::put_element;
use crate::fields::put_field;
use itoa::Buffer;
use oas_layout::{Cells, Elements, KeyedElement, show};
use oas_num::{Fraction, Sink, SinkFault};

/// Puts the line of the unit, with its end.
pub fn put_unit<K: Sink>(sink: &mut K, unit: Fraction) -> Result<(), SinkFault>
    ensures { Writes K.given K.failures sink.old (line (codes "unit" ∷ fraction unit ∷ [])) result sink.new }
{
    sink.put_all(b"unit")?;
    put_field(sink, Buffer::new().format(unit.num()).as_bytes())?;
    sink.put(b'/')?;
    sink.put_all(Buffer::new().format(unit.den()).as_bytes())?;
    sink.put(b'\n')
}

/// Puts the line of a cell's name, with its end.
pub fn put_name<K: Sink>(sink: &mut K, name: &[u8]) -> Result<(), SinkFault>
    ensures { Writes K.given K.failures sink.old (line (codes "cell" ∷ name.now ∷ [])) result sink.new }
{
    sink.put_all(b"cell")?;
    put_field(sink, name)?;
    sink.put(b'\n')
}

/// Puts the line of an element this many times.
fn put_copies<K: Sink>(
    sink: &mut K,
    element: &KeyedElement<'_>,
    times: u64,
) -> Result<(), SinkFault>
    ensures { Writes K.given K.failures sink.old (flat_map element_line (replicate times element.now)) result sink.new }
{
    for _ in 0..times {
        put_element(sink, show(element))?;
    }
    Ok(())
}

/// Puts the lines of elements, each as often as it is there.
fn put_elements<K: Sink>(sink: &mut K, elements: Elements<'_>) -> Result<(), SinkFault>
    ensures { Writes K.given K.failures sink.old (flat_map element_line (items elements.entry)) result sink.new }
{
    for (element, times) in elements {
        put_copies(sink, &element, times)?;
    }
    Ok(())
}

/// Puts the lines of a cell.
fn put_cell<K: Sink>(sink: &mut K, name: &[u8], elements: Elements<'_>) -> Result<(), SinkFault>
    ensures { Writes K.given K.failures sink.old (cell_lines (name.now, items elements.entry)) result sink.new }
{
    put_name(sink, name)?;
    put_elements(sink, elements)
}

/// Puts the lines of cells, one after another.
pub(crate) fn put_cells<K: Sink>(sink: &mut K, cells: Cells<'_>) -> Result<(), SinkFault>
    ensures { Writes K.given K.failures sink.old (flat_map cell_lines (expanded cells.entry)) result sink.new }
{
    for (name, elements) in cells {
        put_cell(sink, name.as_bytes(), elements)?;
    }
    Ok(())
}

//! Categories and items.

ghost use Rattle.std.specs.Prelude.{◌≡◌, ◌++◌, ◌∷◌, [], codes};
ghost use Rattle.oas_num.specs.Writing.{Writes};
ghost use Rattle.oas_difference.specs.Shown.{element_of};
ghost use Rattle.oas_difference.specs.Choice.{layer_of};
ghost use Rattle.oas_markers.specs.Shapes.{shape, layer_value};
ghost use Rattle.oas_markers.specs.declared.items.Way.TheVariants.{Removed, Added};
ghost use Rattle.oas_markers.specs.Markers.{way_name, way_file, category, about, note, head, cell_entry, item, change_item, cell_item};

use crate::numbers::put_number;
use crate::shapes::{put_layer, put_shape};
use crate::texts::put_escaped;
use oas_difference::{Change, ShownElement, kind_name, layer_of, show};
use oas_num::{Fraction, Name, Sink, SinkFault};

/// Which of two layouts has something more often.
#[derive(Clone, Copy)]
pub(crate) enum Way {
    /// The one before.
    Removed,
    /// The one after.
    Added,
}

/// The category's name and its description, up to the unit of the layout that has more.
fn category_front(way: Way) -> &'static [u8]
    ensures { result.now ≡ codes "  <category><name>" ++ (way_name way ++ (codes "</name><description>more often in " ++ (way_file way ++ codes ", by "))) }
{
    match way {
        Way::Removed => b"  <category><name>removed</name><description>more often in A, by ",
        Way::Added => b"  <category><name>added</name><description>more often in B, by ",
    }
}

/// The start of an item, up to the kind in its category.
fn item_front(way: Way) -> &'static [u8]
    ensures { result.now ≡ codes "  <item><category>" ++ (way_name way ++ (46 ∷ [])) }
{
    match way {
        Way::Removed => b"  <item><category>removed.",
        Way::Added => b"  <item><category>added.",
    }
}

/// The categories of the kinds, after a unit.
const KINDS: &[u8] =
    b" grid steps in a micron</description><categories><category><name>cell</name></category><category><name>placement</name></category><category><name>text</name></category><category><name>rectangle</name></category><category><name>polygon</name></category><category><name>path</name></category><category><name>circle</name></category></categories></category>\n";

/// Puts the category of all that one layout has more often.
fn put_category<K: Sink>(sink: &mut K, unit: Fraction, way: Way) -> Result<(), SinkFault>
    ensures { Writes K.given K.failures sink.old (category unit way) result sink.new }
{
    sink.put_all(category_front(way))?;
    put_number(sink, unit.num())?;
    sink.put(b'/')?;
    put_number(sink, unit.den())?;
    sink.put_all(KINDS)
}

/// Puts the description of the database.
fn put_about<K: Sink>(sink: &mut K, same: bool) -> Result<(), SinkFault>
    ensures { Writes K.given K.failures sink.old (about same) result sink.new }
{
    if same {
        sink.put_all(b"The difference of A and B")
    } else {
        sink.put_all(
            b"The difference of A and B, whose units differ: each marker is in microns by the unit of its own layout",
        )
    }
}

/// Puts how many markers there are, and how many of them are here, where these aren't all.
fn put_note<K: Sink>(sink: &mut K, most: u64, count: u64) -> Result<(), SinkFault>
    ensures { Writes K.given K.failures sink.old (note most count) result sink.new }
{
    if most < count {
        sink.put_all(b" (the first ")?;
        put_number(sink, most)?;
        sink.put_all(b" of ")?;
        put_number(sink, count)?;
        sink.put_all(b" markers)")
    } else {
        Ok(())
    }
}

/// Puts the categories of both layouts, and what comes between them and the cells.
fn put_categories<K: Sink>(sink: &mut K, before: Fraction, after: Fraction) -> Result<(), SinkFault>
    ensures { Writes K.given K.failures sink.old (category before Removed ++ (category after Added ++ codes " </categories>\n <cells>\n")) result sink.new }
{
    put_category(sink, before, Way::Removed)?;
    put_category(sink, after, Way::Added)?;
    sink.put_all(b" </categories>\n <cells>\n")
}

/// Puts what comes above the cells.
pub(crate) fn put_head<K: Sink>(
    sink: &mut K,
    before: Fraction,
    after: Fraction,
    most: u64,
    count: u64,
) -> Result<(), SinkFault>
    ensures { Writes K.given K.failures sink.old (head before after most count) result sink.new }
{
    sink.put_all(b"<?xml version=\"1.0\" encoding=\"utf-8\"?>\n<report-database>\n <description>")?;
    put_about(sink, before == after)?;
    put_note(sink, most, count)?;
    sink.put_all(b"</description>\n <categories>\n")?;
    put_categories(sink, before, after)
}

/// Puts the entry of a cell.
pub(crate) fn put_cell_entry<K: Sink>(sink: &mut K, name: &Name) -> Result<(), SinkFault>
    ensures { Writes K.given K.failures sink.old (cell_entry name.now) result sink.new }
{
    sink.put_all(b"  <cell><name>")?;
    put_escaped(sink, name.as_bytes())?;
    sink.put_all(b"</name></cell>\n")
}

/// Puts the values of an element, and the end of its item.
fn put_values<K: Sink>(
    sink: &mut K,
    unit: Fraction,
    element: ShownElement<'_>,
) -> Result<(), SinkFault>
    ensures { Writes K.given K.failures sink.old (shape unit (element_of element.entry) ++ (codes "</value>" ++ (layer_value (layer_of (element_of element.entry)) ++ codes "</values></item>\n"))) result sink.new }
{
    let layer = layer_of(&element);
    put_shape(sink, unit, element)?;
    sink.put_all(b"</value>")?;
    put_layer(sink, layer)?;
    sink.put_all(b"</values></item>\n")
}

/// Puts the item of an element that is there this many more times.
fn put_item<K: Sink>(
    sink: &mut K,
    unit: Fraction,
    way: Way,
    name: &Name,
    count: u64,
    element: ShownElement<'_>,
) -> Result<(), SinkFault>
    ensures { Writes K.given K.failures sink.old (item unit way name.now count (element_of element.entry)) result sink.new }
{
    sink.put_all(item_front(way))?;
    sink.put_all(kind_name(&element))?;
    sink.put_all(b"</category><cell>")?;
    put_escaped(sink, name.as_bytes())?;
    sink.put_all(b"</cell><multiplicity>")?;
    put_number(sink, count)?;
    sink.put_all(b"</multiplicity><values><value>")?;
    put_values(sink, unit, element)
}

/// Puts the item of a change.
pub(crate) fn put_change<K: Sink>(
    sink: &mut K,
    before: Fraction,
    after: Fraction,
    name: &Name,
    found: Change<'_>,
) -> Result<(), SinkFault>
    ensures { Writes K.given K.failures sink.old (change_item before after name.now (found.entry.element, (found.entry.before, found.entry.after))) result sink.new }
{
    let element = show(&found.element);
    if found.after < found.before {
        put_item(
            sink,
            before,
            Way::Removed,
            name,
            found.before - found.after,
            element,
        )
    } else {
        put_item(
            sink,
            after,
            Way::Added,
            name,
            found.after - found.before,
            element,
        )
    }
}

/// Puts the item of a cell that only one layout has.
pub(crate) fn put_cell_item<K: Sink>(sink: &mut K, way: Way, name: &Name) -> Result<(), SinkFault>
    ensures { Writes K.given K.failures sink.old (cell_item way name.now) result sink.new }
{
    sink.put_all(item_front(way))?;
    sink.put_all(b"cell</category><cell>")?;
    put_escaped(sink, name.as_bytes())?;
    sink.put_all(
        b"</cell><multiplicity>1</multiplicity><values><value>text: 'cell'</value></values></item>\n",
    )
}

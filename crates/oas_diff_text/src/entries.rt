//! The entries of a difference: what is written of a unit, of a cell and of an element.

ghost use Rattle.std.specs.Prelude.{◌∷◌, ◌++◌, [], codes, decimal, None, Some};
ghost use Rattle.oas_num.specs.Writing.{Writes};
ghost use Rattle.oas_listing.specs.Shown.{element_of};
ghost use Rattle.oas_diff_text.specs.Entries.{signed, object_line, line_in, unit_entry, cell_entry, cell_line, unit_line, place_line, place_entry, element_entry};
ghost use Rattle.oas_diff_text.specs.Fields.{quoted, field_texts};
ghost use Rattle.oas_diff_options.specs.declared.format.Syntax.TheVariants.{Json};

use crate::fields::{Value, put_fields, put_number};
use crate::json::put_quoted;
use crate::kinds::{kind_name, put_element_fields};
use oas_diff_options::Syntax;
use oas_listing::{ShownElement, put_element, put_name, put_unit};
use oas_num::{Fraction, Name, Sink, SinkFault};

/// Puts a sign and a count, with a space after each.
fn put_sign<K: Sink>(sink: &mut K, sign: u8, count: u64) -> Result<(), SinkFault>
    ensures { Writes K.given K.failures sink.old (sign ∷ 32 ∷ (decimal count ++ 32 ∷ [])) result sink.new }
{
    sink.put(sign)?;
    sink.put(b' ')?;
    put_number(sink, count)?;
    sink.put(b' ')
}

/// Puts what an object begins with: its kind.
fn put_kind<K: Sink>(sink: &mut K, kind: &[u8]) -> Result<(), SinkFault>
    ensures { Writes K.given K.failures sink.old (codes "{\"kind\":" ++ quoted kind.now) result sink.new }
{
    sink.put_all(b"{\"kind\":")?;
    put_quoted(sink, kind)
}

/// Puts an object of this kind, with these members.
pub(crate) fn put_object<K: Sink>(
    sink: &mut K,
    kind: &[u8],
    members: &[(&str, Value<'_>)],
) -> Result<(), SinkFault>
    ensures { Writes K.given K.failures sink.old (object_line kind.now (field_texts Json None members.now)) result sink.new }
{
    put_kind(sink, kind)?;
    put_fields(sink, Syntax::Json, &None, members)?;
    sink.put_all(b"}\n")
}

/// Puts the line of a unit that one layout has.
fn put_unit_line<K: Sink>(sink: &mut K, sign: u8, unit: Fraction) -> Result<(), SinkFault>
    ensures { Writes K.given K.failures sink.old (signed sign 1 (unit_line unit)) result sink.new }
{
    put_sign(sink, sign, 1)?;
    put_unit(sink, unit)
}

/// Puts the object of a unit that one layout has.
fn put_unit_object<K: Sink>(sink: &mut K, sign: u8, unit: Fraction) -> Result<(), SinkFault>
    ensures { Writes K.given K.failures sink.old (unit_entry Json sign unit) result sink.new }
{
    let members = [
        ("sign", Value::Sign(sign)),
        ("count", Value::Number(1)),
        ("num", Value::Number(unit.num())),
        ("den", Value::Number(unit.den())),
    ];
    put_object(sink, b"unit", &members)
}

/// Puts the entry of a unit that one layout has.
pub fn put_unit_entry<K: Sink>(
    sink: &mut K,
    syntax: Syntax,
    sign: u8,
    unit: Fraction,
) -> Result<(), SinkFault>
    ensures { Writes K.given K.failures sink.old (unit_entry syntax sign unit) result sink.new }
{
    match syntax {
        Syntax::Lines => put_unit_line(sink, sign, unit),
        Syntax::Json => put_unit_object(sink, sign, unit),
    }
}

/// Puts the line of a cell that only one layout has.
fn put_cell_line<K: Sink>(sink: &mut K, sign: u8, name: &Name) -> Result<(), SinkFault>
    ensures { Writes K.given K.failures sink.old (signed sign 1 (cell_line name.now)) result sink.new }
{
    put_sign(sink, sign, 1)?;
    put_name(sink, name.as_bytes())
}

/// Puts the object of a cell that only one layout has.
fn put_cell_object<K: Sink>(sink: &mut K, sign: u8, name: &Name) -> Result<(), SinkFault>
    ensures { Writes K.given K.failures sink.old (cell_entry Json sign name.now) result sink.new }
{
    let members = [
        ("sign", Value::Sign(sign)),
        ("count", Value::Number(1)),
        ("cell", Value::Bytes(name.as_bytes())),
    ];
    put_object(sink, b"cell", &members)
}

/// Puts the entry of a cell that only one layout has.
pub fn put_cell_entry<K: Sink>(
    sink: &mut K,
    syntax: Syntax,
    sign: u8,
    name: &Name,
) -> Result<(), SinkFault>
    ensures { Writes K.given K.failures sink.old (cell_entry syntax sign name.now) result sink.new }
{
    match syntax {
        Syntax::Lines => put_cell_line(sink, sign, name),
        Syntax::Json => put_cell_object(sink, sign, name),
    }
}

/// Puts the line above the changes of a cell that both layouts have.
fn put_place_line<K: Sink>(sink: &mut K, name: &Name) -> Result<(), SinkFault>
    ensures { Writes K.given K.failures sink.old (place_line name.now) result sink.new }
{
    sink.put_all(b"@ ")?;
    put_name(sink, name.as_bytes())
}

/// Puts what is above the changes of a cell that both layouts have.
pub fn put_place_entry<K: Sink>(sink: &mut K, syntax: Syntax, name: &Name) -> Result<(), SinkFault>
    ensures { Writes K.given K.failures sink.old (place_entry syntax name.now) result sink.new }
{
    match syntax {
        Syntax::Lines => put_place_line(sink, name),
        Syntax::Json => Ok(()),
    }
}

/// Puts the line of an element in microns.
fn put_line_in<K: Sink>(
    sink: &mut K,
    unit: Fraction,
    element: ShownElement<'_>,
) -> Result<(), SinkFault>
    ensures { Writes K.given K.failures sink.old (line_in (Some unit) (element_of element.entry)) result sink.new }
{
    sink.put_all(kind_name(&element))?;
    put_element_fields(sink, Syntax::Lines, &Some(unit), element)?;
    sink.put(b'\n')
}

/// Puts the line of an element.
fn put_line<K: Sink>(
    sink: &mut K,
    scale: &Option<Fraction>,
    element: ShownElement<'_>,
) -> Result<(), SinkFault>
    ensures { Writes K.given K.failures sink.old (line_in scale.now (element_of element.entry)) result sink.new }
{
    match scale {
        None => put_element(sink, element),
        Some(unit) => put_line_in(sink, *unit, element),
    }
}

/// Puts the line of an element that is there this many more times.
fn put_signed<K: Sink>(
    sink: &mut K,
    scale: &Option<Fraction>,
    sign: u8,
    count: u64,
    element: ShownElement<'_>,
) -> Result<(), SinkFault>
    ensures { Writes K.given K.failures sink.old (signed sign count (line_in scale.now (element_of element.entry))) result sink.new }
{
    put_sign(sink, sign, count)?;
    put_line(sink, scale, element)
}

/// Puts the object of an element that is there this many more times.
fn put_element_object<K: Sink>(
    sink: &mut K,
    scale: &Option<Fraction>,
    name: &Name,
    sign: u8,
    count: u64,
    element: ShownElement<'_>,
) -> Result<(), SinkFault>
    ensures { Writes K.given K.failures sink.old (element_entry Json scale.now name.now sign count (element_of element.entry)) result sink.new }
{
    let place = [
        ("sign", Value::Sign(sign)),
        ("count", Value::Number(count)),
        ("cell", Value::Bytes(name.as_bytes())),
    ];
    put_kind(sink, kind_name(&element))?;
    put_fields(sink, Syntax::Json, &None, &place)?;
    put_element_fields(sink, Syntax::Json, scale, element)?;
    sink.put_all(b"}\n")
}

/// Puts the entry of an element of that cell, which is there this many more times.
pub fn put_element_entry<K: Sink>(
    sink: &mut K,
    syntax: Syntax,
    scale: &Option<Fraction>,
    name: &Name,
    sign: u8,
    count: u64,
    element: ShownElement<'_>,
) -> Result<(), SinkFault>
    ensures { Writes K.given K.failures sink.old (element_entry syntax scale.now name.now sign count (element_of element.entry)) result sink.new }
{
    match syntax {
        Syntax::Lines => put_signed(sink, scale, sign, count, element),
        Syntax::Json => put_element_object(sink, scale, name, sign, count, element),
    }
}

//! The values of an item: the element as a shape of KLayout's, and its layer.

ghost use Rattle.std.specs.Prelude.{◌≡◌, Some};
ghost use Rattle.oas_num.specs.Writing.{Writes};
ghost use Rattle.oas_difference.specs.Shown.{element_of};
ghost use Rattle.oas_markers.specs.Shapes.{label, box, polygon, path, circle, shape, layer_value, turn_code};

use crate::numbers::{
    put_coordinate, put_double, put_far, put_number, put_place, put_places, put_steps,
};
use crate::texts::put_quoted;
use oas_difference::{ShownElement, ShownPoints};
use oas_elements::Turns;
use oas_num::{Fraction, Sink, SinkFault};

/// How KLayout names a flip and turns.
fn turn_code(turns: Turns, flip: bool) -> &'static [u8]
    ensures { result.now ≡ turn_code turns flip }
{
    match (flip, turns) {
        (false, Turns::T0) => b"r0",
        (false, Turns::T1) => b"r90",
        (false, Turns::T2) => b"r180",
        (false, Turns::T3) => b"r270",
        (true, Turns::T0) => b"m0",
        (true, Turns::T1) => b"m45",
        (true, Turns::T2) => b"m90",
        (true, Turns::T3) => b"m135",
    }
}

/// Puts a label at a point.
fn put_label<K: Sink>(
    sink: &mut K,
    unit: Fraction,
    string: &[u8],
    turn: &[u8],
    x: i64,
    y: i64,
) -> Result<(), SinkFault>
    ensures { Writes K.given K.failures sink.old (label unit string.now turn.now x y) result sink.new }
{
    sink.put_all(b"label: ('")?;
    put_quoted(sink, string)?;
    sink.put_all(b"',")?;
    sink.put_all(turn)?;
    sink.put(b' ')?;
    put_place(sink, unit, x, y)?;
    sink.put(b')')
}

/// Puts a box by its lower left corner and its sides.
fn put_box<K: Sink>(
    sink: &mut K,
    unit: Fraction,
    x: i64,
    y: i64,
    width: u64,
    height: u64,
) -> Result<(), SinkFault>
    ensures { Writes K.given K.failures sink.old (box unit x y width height) result sink.new }
{
    sink.put_all(b"box: (")?;
    put_place(sink, unit, x, y)?;
    sink.put(b';')?;
    put_far(sink, unit, x, width)?;
    sink.put(b',')?;
    put_far(sink, unit, y, height)?;
    sink.put(b')')
}

/// Puts a polygon.
fn put_polygon<K: Sink>(
    sink: &mut K,
    unit: Fraction,
    points: ShownPoints<'_>,
) -> Result<(), SinkFault>
    ensures { Writes K.given K.failures sink.old (polygon unit points.entry) result sink.new }
{
    sink.put_all(b"polygon: (")?;
    put_places(sink, unit, points)?;
    sink.put(b')')
}

/// Puts a path with its extensions.
fn put_path<K: Sink>(
    sink: &mut K,
    unit: Fraction,
    half_width: u64,
    start: i64,
    end: i64,
    points: ShownPoints<'_>,
) -> Result<(), SinkFault>
    ensures { Writes K.given K.failures sink.old (path unit half_width start end points.entry) result sink.new }
{
    sink.put_all(b"path: (")?;
    put_places(sink, unit, points)?;
    sink.put_all(b") w=")?;
    put_double(sink, unit, half_width)?;
    sink.put_all(b" bx=")?;
    put_coordinate(sink, unit, start)?;
    sink.put_all(b" ex=")?;
    put_coordinate(sink, unit, end)?;
    sink.put_all(b" r=false")
}

/// Puts a circle.
fn put_circle<K: Sink>(
    sink: &mut K,
    unit: Fraction,
    radius: u64,
    x: i64,
    y: i64,
) -> Result<(), SinkFault>
    ensures { Writes K.given K.failures sink.old (circle unit radius x y) result sink.new }
{
    sink.put_all(b"path: (")?;
    put_place(sink, unit, x, y)?;
    sink.put_all(b") w=")?;
    put_double(sink, unit, radius)?;
    sink.put_all(b" bx=")?;
    put_steps(sink, unit, radius)?;
    sink.put_all(b" ex=")?;
    put_steps(sink, unit, radius)?;
    sink.put_all(b" r=true")
}

/// Puts an element as a shape.
pub(crate) fn put_shape<K: Sink>(
    sink: &mut K,
    unit: Fraction,
    element: ShownElement<'_>,
) -> Result<(), SinkFault>
    ensures { Writes K.given K.failures sink.old (shape unit (element_of element.entry)) result sink.new }
{
    match element {
        ShownElement::Placement {
            cell,
            x,
            y,
            turns,
            flip,
        } => put_label(sink, unit, cell, turn_code(turns, flip), x, y),
        ShownElement::Text { string, x, y, .. } => put_label(sink, unit, string, b"r0", x, y),
        ShownElement::Rectangle {
            width,
            height,
            x,
            y,
            ..
        } => put_box(sink, unit, x, y, width, height),
        ShownElement::Polygon { points, .. } => put_polygon(sink, unit, points),
        ShownElement::Path {
            half_width,
            start,
            end,
            points,
            ..
        } => put_path(sink, unit, half_width, start, end, points),
        ShownElement::Circle { radius, x, y, .. } => put_circle(sink, unit, radius, x, y),
    }
}

/// Puts the value that names a layer and a datatype.
fn put_layer_value<K: Sink>(sink: &mut K, layer: u64, datatype: u64) -> Result<(), SinkFault>
    ensures { Writes K.given K.failures sink.old (layer_value (Some (layer, datatype))) result sink.new }
{
    sink.put_all(b"<value>text: 'layer ")?;
    put_number(sink, layer)?;
    sink.put(b'/')?;
    put_number(sink, datatype)?;
    sink.put_all(b"'</value>")
}

/// Puts the value that says on which layer an element is, if it is on one.
pub(crate) fn put_layer<K: Sink>(sink: &mut K, found: Option<(u64, u64)>) -> Result<(), SinkFault>
    ensures { Writes K.given K.failures sink.old (layer_value found) result sink.new }
{
    match found {
        Some((layer, datatype)) => put_layer_value(sink, layer, datatype),
        None => Ok(()),
    }
}

//! The kinds of elements, and the fields of each.

ghost use Rattle.std.specs.Prelude.{◌≡◌};
ghost use Rattle.oas_num.specs.Writing.{Writes};
ghost use Rattle.oas_elements.specs.Element.{turn_count};
ghost use Rattle.oas_elements.specs.declared.element.Element.TheVariants.{Placement, Text, Rectangle, Polygon, Path, Circle};
ghost use Rattle.oas_listing.specs.Shown.{element_of};
ghost use Rattle.oas_diff_options.specs.Choice.{layer_of};
ghost use Rattle.oas_diff_text.specs.Entries.{kind_name, element_fields};
ghost use Rattle.oas_diff_text.specs.Fields.{fields};

use crate::fields::{Value, put_fields, put_points};
use oas_diff_options::Syntax;
use oas_elements::Turns;
use oas_listing::{ShownElement, ShownPoints};
use oas_num::{Fraction, Sink, SinkFault};

/// The word for an element's kind.
pub fn kind_name(element: &ShownElement<'_>) -> &'static [u8]
    ensures { result.now ≡ kind_name (element_of element.now) }
{
    match element {
        ShownElement::Placement { .. } => b"placement",
        ShownElement::Text { .. } => b"text",
        ShownElement::Rectangle { .. } => b"rectangle",
        ShownElement::Polygon { .. } => b"polygon",
        ShownElement::Path { .. } => b"path",
        ShownElement::Circle { .. } => b"circle",
    }
}

/// The layer and the datatype of an element, which a placement does not have.
pub fn layer_of(element: &ShownElement<'_>) -> Option<(u64, u64)>
    ensures { result ≡ layer_of (element_of element.now) }
{
    match element {
        ShownElement::Placement { .. } => None,
        ShownElement::Text {
            textlayer,
            texttype,
            ..
        } => Some((*textlayer, *texttype)),
        ShownElement::Rectangle {
            layer,
            datatype,
            ..
        }
        | ShownElement::Polygon {
            layer,
            datatype,
            ..
        }
        | ShownElement::Path {
            layer,
            datatype,
            ..
        }
        | ShownElement::Circle {
            layer,
            datatype,
            ..
        } => Some((*layer, *datatype)),
    }
}

/// How many quarter turns.
fn turn_number(turns: Turns) -> u64
    ensures { result ≡ turn_count turns }
{
    match turns {
        Turns::T0 => 0,
        Turns::T1 => 1,
        Turns::T2 => 2,
        Turns::T3 => 3,
    }
}

/// Puts the fields of a placement.
fn put_placement<K: Sink>(
    sink: &mut K,
    syntax: Syntax,
    scale: &Option<Fraction>,
    cell: &[u8],
    x: i64,
    y: i64,
    turns: Turns,
    flip: bool,
) -> Result<(), SinkFault>
    ensures { Writes K.given K.failures sink.old (fields syntax (element_fields syntax scale.now (Placement cell.now x y turns flip))) result sink.new }
{
    let values = [
        ("placed", Value::Bytes(cell)),
        ("x", Value::Coordinate(x)),
        ("y", Value::Coordinate(y)),
        ("turns", Value::Number(turn_number(turns))),
        ("flip", Value::Number(u64::from(flip))),
    ];
    put_fields(sink, syntax, scale, &values)
}

/// Puts the fields of a text.
fn put_text<K: Sink>(
    sink: &mut K,
    syntax: Syntax,
    scale: &Option<Fraction>,
    string: &[u8],
    textlayer: u64,
    texttype: u64,
    x: i64,
    y: i64,
) -> Result<(), SinkFault>
    ensures { Writes K.given K.failures sink.old (fields syntax (element_fields syntax scale.now (Text string.now textlayer texttype x y))) result sink.new }
{
    let values = [
        ("textlayer", Value::Number(textlayer)),
        ("texttype", Value::Number(texttype)),
        ("x", Value::Coordinate(x)),
        ("y", Value::Coordinate(y)),
        ("string", Value::Bytes(string)),
    ];
    put_fields(sink, syntax, scale, &values)
}

/// Puts the fields of a rectangle.
fn put_rectangle<K: Sink>(
    sink: &mut K,
    syntax: Syntax,
    scale: &Option<Fraction>,
    layer: u64,
    datatype: u64,
    width: u64,
    height: u64,
    x: i64,
    y: i64,
) -> Result<(), SinkFault>
    ensures { Writes K.given K.failures sink.old (fields syntax (element_fields syntax scale.now (Rectangle layer datatype width height x y))) result sink.new }
{
    let values = [
        ("layer", Value::Number(layer)),
        ("datatype", Value::Number(datatype)),
        ("width", Value::Length(width)),
        ("height", Value::Length(height)),
        ("x", Value::Coordinate(x)),
        ("y", Value::Coordinate(y)),
    ];
    put_fields(sink, syntax, scale, &values)
}

/// Puts the fields of a polygon.
fn put_polygon<K: Sink>(
    sink: &mut K,
    syntax: Syntax,
    scale: &Option<Fraction>,
    layer: u64,
    datatype: u64,
    points: ShownPoints<'_>,
) -> Result<(), SinkFault>
    ensures { Writes K.given K.failures sink.old (fields syntax (element_fields syntax scale.now (Polygon layer datatype points.entry))) result sink.new }
{
    let values = [
        ("layer", Value::Number(layer)),
        ("datatype", Value::Number(datatype)),
    ];
    put_fields(sink, syntax, scale, &values)?;
    put_points(sink, syntax, scale, points)
}

/// Puts the fields of a path.
fn put_path<K: Sink>(
    sink: &mut K,
    syntax: Syntax,
    scale: &Option<Fraction>,
    layer: u64,
    datatype: u64,
    half_width: u64,
    start: i64,
    end: i64,
    points: ShownPoints<'_>,
) -> Result<(), SinkFault>
    ensures { Writes K.given K.failures sink.old (fields syntax (element_fields syntax scale.now (Path layer datatype half_width start end points.entry))) result sink.new }
{
    let values = [
        ("layer", Value::Number(layer)),
        ("datatype", Value::Number(datatype)),
        ("half_width", Value::Length(half_width)),
        ("start", Value::Coordinate(start)),
        ("end", Value::Coordinate(end)),
    ];
    put_fields(sink, syntax, scale, &values)?;
    put_points(sink, syntax, scale, points)
}

/// Puts the fields of a circle.
fn put_circle<K: Sink>(
    sink: &mut K,
    syntax: Syntax,
    scale: &Option<Fraction>,
    layer: u64,
    datatype: u64,
    radius: u64,
    x: i64,
    y: i64,
) -> Result<(), SinkFault>
    ensures { Writes K.given K.failures sink.old (fields syntax (element_fields syntax scale.now (Circle layer datatype radius x y))) result sink.new }
{
    let values = [
        ("layer", Value::Number(layer)),
        ("datatype", Value::Number(datatype)),
        ("radius", Value::Length(radius)),
        ("x", Value::Coordinate(x)),
        ("y", Value::Coordinate(y)),
    ];
    put_fields(sink, syntax, scale, &values)
}

/// Puts the fields of an element.
pub(crate) fn put_element_fields<K: Sink>(
    sink: &mut K,
    syntax: Syntax,
    scale: &Option<Fraction>,
    element: ShownElement<'_>,
) -> Result<(), SinkFault>
    ensures { Writes K.given K.failures sink.old (fields syntax (element_fields syntax scale.now (element_of element.entry))) result sink.new }
{
    match element {
        ShownElement::Placement {
            cell,
            x,
            y,
            turns,
            flip,
        } => put_placement(sink, syntax, scale, cell, x, y, turns, flip),
        ShownElement::Text {
            string,
            textlayer,
            texttype,
            x,
            y,
        } => put_text(sink, syntax, scale, string, textlayer, texttype, x, y),
        ShownElement::Rectangle {
            layer,
            datatype,
            width,
            height,
            x,
            y,
        } => put_rectangle(sink, syntax, scale, layer, datatype, width, height, x, y),
        ShownElement::Polygon {
            layer,
            datatype,
            points,
        } => put_polygon(sink, syntax, scale, layer, datatype, points),
        ShownElement::Path {
            layer,
            datatype,
            half_width,
            start,
            end,
            points,
        } => put_path(
            sink, syntax, scale, layer, datatype, half_width, start, end, points,
        ),
        ShownElement::Circle {
            layer,
            datatype,
            radius,
            x,
            y,
        } => put_circle(sink, syntax, scale, layer, datatype, radius, x, y),
    }
}

//! The lines of elements.

ghost use Rattle.std.specs.Prelude.{◌≡◌};
ghost use Rattle.oas_num.specs.Writing.{Writes};
ghost use Rattle.oas_elements.specs.Element.{turn_count};
ghost use Rattle.oas_elements.specs.declared.element.Element.TheVariants.{Placement, Text, Polygon, Path};
ghost use Rattle.oas_layout.specs.Shown.{element_of};
ghost use Rattle.oas_listing.specs.Lines.{spaced};
ghost use Rattle.oas_listing.specs.Listing.{flip_count, element_fields, element_line};

use crate::fields::{put_field, put_points, put_start};
use crate::numbers::Numbers;
use oas_elements::Turns;
use oas_layout::{ShownElement, ShownPoints};
use oas_num::{Sink, SinkFault};

/// How many quarter turns.
fn turn_number(turns: Turns) -> u64
    ensures { result ≡ turn_count turns }
{
    match turns {
        Turns::T0 => 0,
        Turns::T1 => 1,
        Turns::T2 => 2,
        Turns::T3 => 3,
    }
}

/// 1 for a flip, or else 0.
fn flip_number(flip: bool) -> u64
    ensures { result ≡ flip_count flip }
{
    u64::from(flip)
}

/// Puts the kind of a placement, and its fields.
fn put_placement<K: Sink>(
    sink: &mut K,
    cell: &[u8],
    x: i64,
    y: i64,
    turns: Turns,
    flip: bool,
) -> Result<(), SinkFault>
    ensures { Writes K.given K.failures sink.old
        (spaced (element_fields (Placement cell.now x y turns flip))) result sink.new }
{
    let mut numbers = Numbers::new();
    numbers.prepend_numbers(&[turn_number(turns), flip_number(flip)]);
    numbers.prepend_signed_numbers(&[x, y]);
    sink.put_all(b"placement")?;
    put_field(sink, cell)?;
    sink.put_all(numbers.as_slice())
}

/// Puts the kind of a text, and its fields.
fn put_text<K: Sink>(
    sink: &mut K,
    string: &[u8],
    textlayer: u64,
    texttype: u64,
    x: i64,
    y: i64,
) -> Result<(), SinkFault>
    ensures { Writes K.given K.failures sink.old
        (spaced (element_fields (Text string.now textlayer texttype x y))) result sink.new }
{
    put_start(sink, b"text", &[textlayer, texttype], &[x, y])?;
    put_field(sink, string)
}

/// Puts the fields of a polygon.
fn put_polygon<K: Sink>(
    sink: &mut K,
    layer: u64,
    datatype: u64,
    points: ShownPoints<'_>,
) -> Result<(), SinkFault>
    ensures { Writes K.given K.failures sink.old
        (spaced (element_fields (Polygon layer datatype points.entry))) result sink.new }
{
    put_start(sink, b"polygon", &[layer, datatype], &[])?;
    put_points(sink, points)
}

/// Puts the fields of a path.
fn put_path<K: Sink>(
    sink: &mut K,
    layer: u64,
    datatype: u64,
    half_width: u64,
    start: i64,
    end: i64,
    points: ShownPoints<'_>,
) -> Result<(), SinkFault>
    ensures { Writes K.given K.failures sink.old
        (spaced (element_fields (Path layer datatype half_width start end points.entry))) result sink.new }
{
    put_start(sink, b"path", &[layer, datatype, half_width], &[start, end])?;
    put_points(sink, points)
}

/// Puts the kind of an element, and its fields.
fn put_fields<K: Sink>(sink: &mut K, element: ShownElement<'_>) -> Result<(), SinkFault>
    ensures { Writes K.given K.failures sink.old (spaced (element_fields (element_of element.entry))) result sink.new }
{
    match element {
        ShownElement::Placement {
            cell,
            x,
            y,
            turns,
            flip,
        } => put_placement(sink, cell, x, y, turns, flip),
        ShownElement::Text {
            string,
            textlayer,
            texttype,
            x,
            y,
        } => put_text(sink, string, textlayer, texttype, x, y),
        ShownElement::Rectangle {
            layer,
            datatype,
            width,
            height,
            x,
            y,
        } => put_start(
            sink,
            b"rectangle",
            &[layer, datatype, width, height],
            &[x, y],
        ),
        ShownElement::Polygon {
            layer,
            datatype,
            points,
        } => put_polygon(sink, layer, datatype, points),
        ShownElement::Path {
            layer,
            datatype,
            half_width,
            start,
            end,
            points,
        } => put_path(sink, layer, datatype, half_width, start, end, points),
        ShownElement::Circle {
            layer,
            datatype,
            radius,
            x,
            y,
        } => put_start(sink, b"circle", &[layer, datatype, radius], &[x, y]),
    }
}

/// Puts the line of an element, with its end.
pub fn put_element<K: Sink>(sink: &mut K, element: ShownElement<'_>) -> Result<(), SinkFault>
    ensures { Writes K.given K.failures sink.old (element_line (element_of element.entry)) result sink.new }
{
    put_fields(sink, element)?;
    sink.put(b'\n')
}

//! Elements, each as the record of its kind that gives all fields.

ghost use Rattle.std.specs.Prelude.{◌≡◌, ◌<◌, ◌≤◌, ◌^◌, length, true};
ghost use Rattle.std.specs.List.{list_all};
ghost use Rattle.oas_elements.specs.declared.element.Element.TheVariants.{Polygon, Path};
ghost use Rattle.oas_elements.specs.Grid.{is_coordinate, is_grid_point};
ghost use Rattle.oas_elements.specs.Weight.{weight_of};
ghost use Rattle.oas_listing.specs.Bytes.{element_bytes};
ghost use Rattle.oas_listing.specs.Putting.{Counts};

use crate::points::put_points;
use oas_listing::{
    KeyedElement, ShownElement, ShownPoints, put_bytes, put_circle, put_coordinate, put_number,
    put_placement, put_rectangle, put_text, show,
};
use oas_num::{Sink, SinkFault};

/// The id of POLYGON, and the info byte for all fields.
const POLYGON: [u8; 2] = [21, 0x3B];

/// The same for PATH.
const PATH: [u8; 2] = [22, 0xFB];

/// The extension-scheme of a path whose extensions are both numbers.
const EXPLICIT: [u8; 1] = [0x0F];

/// Puts a POLYGON record.
fn put_polygon<K: Sink>(
    sink: &mut K,
    layer: u64,
    datatype: u64,
    points: ShownPoints<'_>,
) -> Result<u64, SinkFault>
    requires some { 0 < length points }
    requires few { length points ≤ 2 ^ 30 }
    requires inside { list_all is_grid_point points ≡ true }
    ensures { Counts K.given K.failures sink.old (element_bytes (Polygon layer datatype points.entry)) result sink.new }
{
    let front = put_bytes(sink, &POLYGON)?;
    let first = put_number(sink, layer)?;
    let second = put_number(sink, datatype)?;
    let ring = put_points(sink, points)?;
    Ok(front + first + second + ring)
}

/// Puts a PATH record.
fn put_path<K: Sink>(
    sink: &mut K,
    layer: u64,
    datatype: u64,
    half_width: u64,
    start: i64,
    end: i64,
    points: ShownPoints<'_>,
) -> Result<u64, SinkFault>
    requires some { 0 < length points }
    requires few { length points ≤ 2 ^ 30 }
    requires start { is_coordinate start ≡ true }
    requires end { is_coordinate end ≡ true }
    requires inside { list_all is_grid_point points ≡ true }
    ensures { Counts K.given K.failures sink.old (element_bytes (Path layer datatype half_width start end points.entry)) result sink.new }
{
    let front = put_bytes(sink, &PATH)?;
    let first = put_number(sink, layer)?;
    let second = put_number(sink, datatype)?;
    let wide = put_number(sink, half_width)?;
    let scheme = put_bytes(sink, &EXPLICIT)?;
    let before = put_coordinate(sink, start)?;
    let after = put_coordinate(sink, end)?;
    let line = put_points(sink, points)?;
    Ok(front + first + second + wide + scheme + before + after + line)
}

/// Puts the record of an element, and returns its length.
pub(crate) fn put_element<K: Sink>(
    sink: &mut K,
    element: &KeyedElement<'_>,
) -> Result<u64, SinkFault>
    requires light { weight_of element.now ≤ 2 ^ 30 }
    ensures { Counts K.given K.failures sink.old (element_bytes element.now) result sink.new }
{
    match show(element) {
        ShownElement::Placement {
            cell,
            x,
            y,
            turns,
            flip,
        } => put_placement(sink, cell, x, y, turns, flip),
        ShownElement::Text {
            string,
            textlayer,
            texttype,
            x,
            y,
        } => put_text(sink, string, textlayer, texttype, x, y),
        ShownElement::Rectangle {
            layer,
            datatype,
            width,
            height,
            x,
            y,
        } => put_rectangle(sink, layer, datatype, width, height, x, y),
        ShownElement::Polygon {
            layer,
            datatype,
            points,
        } => put_polygon(sink, layer, datatype, points),
        ShownElement::Path {
            layer,
            datatype,
            half_width,
            start,
            end,
            points,
        } => put_path(sink, layer, datatype, half_width, start, end, points),
        ShownElement::Circle {
            layer,
            datatype,
            radius,
            x,
            y,
        } => put_circle(sink, layer, datatype, radius, x, y),
    }
}

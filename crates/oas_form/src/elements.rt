//! Elements, each as the record of its kind that gives all fields.

ghost use Rattle.std.specs.Prelude.{◌≡◌, ◌<◌, ◌≤◌, ◌^◌, length, true};
ghost use Rattle.std.specs.List.{list_all};
ghost use Rattle.oas_elements.specs.declared.element.Element.TheVariants.{Placement, Text, Rectangle, Polygon, Path, Circle};
ghost use Rattle.oas_elements.specs.Element.{turn_count};
ghost use Rattle.oas_elements.specs.Grid.{is_coordinate, is_grid_point};
ghost use Rattle.oas_elements.specs.Weight.{weight_of};
ghost use Rattle.oas_elements.specs.Sound.{IsSound};
ghost use Rattle.oas_form.specs.Bytes.{placement_info, element_bytes};
ghost use Rattle.oas_form.specs.Putting.{Counts};

use crate::parts::{put_bytes, put_coordinate, put_number, put_place, put_string};
use crate::point_lists::put_points;
use oas_elements::{Element, Turns};
use oas_num::{Sink, SinkFault};
use oas_ring::Point;

/// The id of PLACEMENT.
const PLACEMENT: u8 = 17;

/// The info byte of a placement: the cell's name, x and y are given. The turns and the flip are added.
const PLACEMENT_GIVEN: u8 = 0xB0;

/// The id of TEXT, and the info byte for all fields.
const TEXT: [u8; 2] = [19, 0x5B];

/// The same for RECTANGLE.
const RECTANGLE: [u8; 2] = [20, 0x7B];

/// The same for POLYGON.
const POLYGON: [u8; 2] = [21, 0x3B];

/// The same for PATH.
const PATH: [u8; 2] = [22, 0xFB];

/// The extension-scheme of a path whose extensions are both numbers.
const EXPLICIT: [u8; 1] = [0x0F];

/// The id and the info byte of CIRCLE.
const CIRCLE: [u8; 2] = [27, 0x3B];

/// How many quarter turns.
fn quarters(turns: Turns) -> u8
    ensures { result ≡ turn_count turns }
{
    match turns {
        Turns::T0 => 0,
        Turns::T1 => 1,
        Turns::T2 => 2,
        Turns::T3 => 3,
    }
}

/// The info byte of a placement.
fn placement_info(turns: Turns, flip: bool) -> u8
    ensures { result ≡ placement_info (turn_count turns) flip }
{
    PLACEMENT_GIVEN + 2 * quarters(turns) + flip as u8
}

/// Puts a PLACEMENT record.
pub fn put_placement<K: Sink>(
    sink: &mut K,
    cell: &[u8],
    x: i64,
    y: i64,
    turns: Turns,
    flip: bool,
) -> Result<u64, SinkFault>
    requires few { length cell.now ≤ 2 ^ 30 }
    requires x { is_coordinate x ≡ true }
    requires y { is_coordinate y ≡ true }
    ensures { Counts K.given K.failures sink.old (element_bytes (Placement cell.now x y turns flip)) result sink.new }
{
    let front = put_bytes(sink, &[PLACEMENT, placement_info(turns, flip)])?;
    let name = put_string(sink, cell)?;
    let place = put_place(sink, x, y)?;
    Ok(front + name + place)
}

/// Puts a TEXT record.
pub fn put_text<K: Sink>(
    sink: &mut K,
    string: &[u8],
    textlayer: u64,
    texttype: u64,
    x: i64,
    y: i64,
) -> Result<u64, SinkFault>
    requires few { length string.now ≤ 2 ^ 30 }
    requires x { is_coordinate x ≡ true }
    requires y { is_coordinate y ≡ true }
    ensures { Counts K.given K.failures sink.old (element_bytes (Text string.now textlayer texttype x y)) result sink.new }
{
    let front = put_bytes(sink, &TEXT)?;
    let label = put_string(sink, string)?;
    let layer = put_number(sink, textlayer)?;
    let kind = put_number(sink, texttype)?;
    let place = put_place(sink, x, y)?;
    Ok(front + label + layer + kind + place)
}

/// Puts a RECTANGLE record.
pub fn put_rectangle<K: Sink>(
    sink: &mut K,
    layer: u64,
    datatype: u64,
    width: u64,
    height: u64,
    x: i64,
    y: i64,
) -> Result<u64, SinkFault>
    requires x { is_coordinate x ≡ true }
    requires y { is_coordinate y ≡ true }
    ensures { Counts K.given K.failures sink.old (element_bytes (Rectangle layer datatype width height x y)) result sink.new }
{
    let front = put_bytes(sink, &RECTANGLE)?;
    let first = put_number(sink, layer)?;
    let second = put_number(sink, datatype)?;
    let across = put_number(sink, width)?;
    let up = put_number(sink, height)?;
    let place = put_place(sink, x, y)?;
    Ok(front + first + second + across + up + place)
}

/// Puts a POLYGON record.
fn put_polygon<K: Sink>(
    sink: &mut K,
    layer: u64,
    datatype: u64,
    points: &[Point],
) -> Result<u64, SinkFault>
    requires some { 0 < length points.now }
    requires few { length points.now ≤ 2 ^ 30 }
    requires inside { list_all is_grid_point points.now ≡ true }
    ensures { Counts K.given K.failures sink.old (element_bytes (Polygon layer datatype points.now)) result sink.new }
{
    let front = put_bytes(sink, &POLYGON)?;
    let first = put_number(sink, layer)?;
    let second = put_number(sink, datatype)?;
    let ring = put_points(sink, points)?;
    Ok(front + first + second + ring)
}

/// Puts a PATH record.
fn put_path<K: Sink>(
    sink: &mut K,
    layer: u64,
    datatype: u64,
    half_width: u64,
    start: i64,
    end: i64,
    points: &[Point],
) -> Result<u64, SinkFault>
    requires some { 0 < length points.now }
    requires few { length points.now ≤ 2 ^ 30 }
    requires start { is_coordinate start ≡ true }
    requires end { is_coordinate end ≡ true }
    requires inside { list_all is_grid_point points.now ≡ true }
    ensures { Counts K.given K.failures sink.old (element_bytes (Path layer datatype half_width start end points.now)) result sink.new }
{
    let front = put_bytes(sink, &PATH)?;
    let first = put_number(sink, layer)?;
    let second = put_number(sink, datatype)?;
    let wide = put_number(sink, half_width)?;
    let scheme = put_bytes(sink, &EXPLICIT)?;
    let before = put_coordinate(sink, start)?;
    let after = put_coordinate(sink, end)?;
    let line = put_points(sink, points)?;
    Ok(front + first + second + wide + scheme + before + after + line)
}

/// Puts a CIRCLE record.
pub fn put_circle<K: Sink>(
    sink: &mut K,
    layer: u64,
    datatype: u64,
    radius: u64,
    x: i64,
    y: i64,
) -> Result<u64, SinkFault>
    requires x { is_coordinate x ≡ true }
    requires y { is_coordinate y ≡ true }
    ensures { Counts K.given K.failures sink.old (element_bytes (Circle layer datatype radius x y)) result sink.new }
{
    let front = put_bytes(sink, &CIRCLE)?;
    let first = put_number(sink, layer)?;
    let second = put_number(sink, datatype)?;
    let round = put_number(sink, radius)?;
    let place = put_place(sink, x, y)?;
    Ok(front + first + second + round + place)
}

/// Puts the record of an element, and returns its length.
pub(crate) fn put_element<K: Sink>(sink: &mut K, element: &Element) -> Result<u64, SinkFault>
    requires sound { IsSound element.now }
    requires light { weight_of element.now ≤ 2 ^ 30 }
    ensures { Counts K.given K.failures sink.old (element_bytes element.now) result sink.new }
{
    match element {
        Element::Placement {
            cell,
            x,
            y,
            turns,
            flip,
        } => put_placement(sink, cell.as_bytes(), *x, *y, *turns, *flip),
        Element::Text {
            string,
            textlayer,
            texttype,
            x,
            y,
        } => put_text(sink, string.as_bytes(), *textlayer, *texttype, *x, *y),
        Element::Rectangle {
            layer,
            datatype,
            width,
            height,
            x,
            y,
        } => put_rectangle(sink, *layer, *datatype, *width, *height, *x, *y),
        Element::Polygon {
            layer,
            datatype,
            points,
        } => put_polygon(sink, *layer, *datatype, points.as_slice()),
        Element::Path {
            layer,
            datatype,
            half_width,
            start,
            end,
            points,
        } => put_path(
            sink,
            *layer,
            *datatype,
            *half_width,
            *start,
            *end,
            points.as_slice(),
        ),
        Element::Circle {
            layer,
            datatype,
            radius,
            x,
            y,
        } => put_circle(sink, *layer, *datatype, *radius, *x, *y),
    }
}

//! An element as it is shown from its key.

ghost use Rattle.std.specs.Prelude.{◌≡◌};
ghost use Rattle.oas_elements.specs.declared.element.Element.{Element as OneElement};
ghost use Rattle.oas_elements.specs.Sound.{IsSound};
ghost use Rattle.oas_cells.specs.Keys.{key_of};

use crate::points::ShownPoints;
use oas_elements::Turns;

/// An element whose name, string and points are those of a key.
#[derive(Debug, Drop)]
pub enum ShownElement<'a> {
    /// Another cell, placed.
    Placement {
        cell: &'a [u8],
        x: i64,
        y: i64,
        turns: Turns,
        flip: bool,
    },
    /// A text.
    Text {
        string: &'a [u8],
        textlayer: u64,
        texttype: u64,
        x: i64,
        y: i64,
    },
    /// A rectangle; x and y is the lower left corner.
    Rectangle {
        layer: u64,
        datatype: u64,
        width: u64,
        height: u64,
        x: i64,
        y: i64,
    },
    /// A polygon.
    Polygon {
        layer: u64,
        datatype: u64,
        points: ShownPoints<'a>,
    },
    /// A path.
    Path {
        layer: u64,
        datatype: u64,
        half_width: u64,
        start: i64,
        end: i64,
        points: ShownPoints<'a>,
    },
    /// A circle; x and y is the centre.
    Circle {
        layer: u64,
        datatype: u64,
        radius: u64,
        x: i64,
        y: i64,
    },
}

//! An element as its key spells it.

use crate::points::SpelledPoints;
use oas_elements::Turns;

/// An element as its key spells it: names and strings are those bytes of the key, and points are read from it one by one, so
/// nothing is allocated. Lengths and places are in grid steps.
#[derive(Debug, Drop)]
pub enum SpelledElement<'a> {
    /// Another cell, placed.
    Placement {
        cell: &'a [u8],
        x: i64,
        y: i64,
        turns: Turns,
        flip: bool,
    },
    /// A text.
    Text {
        string: &'a [u8],
        textlayer: u64,
        texttype: u64,
        x: i64,
        y: i64,
    },
    /// A rectangle; x and y is the lower left corner.
    Rectangle {
        layer: u64,
        datatype: u64,
        width: u64,
        height: u64,
        x: i64,
        y: i64,
    },
    /// A polygon.
    Polygon {
        layer: u64,
        datatype: u64,
        points: SpelledPoints<'a>,
    },
    /// A path.
    Path {
        layer: u64,
        datatype: u64,
        half_width: u64,
        start: i64,
        end: i64,
        points: SpelledPoints<'a>,
    },
    /// A circle; x and y is the centre.
    Circle {
        layer: u64,
        datatype: u64,
        radius: u64,
        x: i64,
        y: i64,
    },
}

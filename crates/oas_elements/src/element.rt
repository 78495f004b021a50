//! The elements of cells.

ghost use Rattle.std.specs.Prelude.{◌≡◌};
ghost use Rattle.oas_elements.specs.Weight.{weight_of, lacks_points};

use oas_num::{Label, Name};
use oas_ring::Points;

/// Quarter turns counterclockwise (SEMI P39, PLACEMENT record).
#[derive(Clone, Copy, Debug, PartialEq, Eq, PartialOrd, Ord)]
pub enum Turns {
    /// No turn.
    T0,
    /// 90 degrees.
    T1,
    /// 180 degrees.
    T2,
    /// 270 degrees.
    T3,
}

/// An element of a cell, with all its fields: lengths and places in steps of the grid.
///
/// Elements are ordered by kind and then by their fields, both in the order of this declaration (own rule): numbers by value,
/// strings by their bytes, lists of points point by point, a proper prefix first. The definition is `element_cmp`
/// (specs/Element.antt), and no two elements tie.
#[derive(Debug, PartialEq, Eq, PartialOrd, Ord, Drop)]
pub enum Element {
    /// Another cell, placed (SEMI P39, PLACEMENT record). A flip about the x axis comes before the turns.
    Placement {
        /// The name of the placed cell. It need not be defined.
        cell: Name,
        x: i64,
        y: i64,
        turns: Turns,
        flip: bool,
    },
    /// A text (SEMI P39, TEXT record).
    Text {
        string: Label,
        textlayer: u64,
        texttype: u64,
        x: i64,
        y: i64,
    },
    /// A rectangle (SEMI P39, RECTANGLE record); x and y is the lower left corner.
    Rectangle {
        layer: u64,
        datatype: u64,
        width: u64,
        height: u64,
        x: i64,
        y: i64,
    },
    /// A polygon (SEMI P39, POLYGON record): a ring of at least three points, closed by an edge from the last to the
    /// first.
    Polygon {
        layer: u64,
        datatype: u64,
        points: Points,
    },
    /// A path (SEMI P39, PATH record) of at least one point, with its extensions at the start and the end as numbers.
    Path {
        layer: u64,
        datatype: u64,
        half_width: u64,
        start: i64,
        end: i64,
        points: Points,
    },
    /// A circle (SEMI P39, CIRCLE record); x and y is the centre.
    Circle {
        layer: u64,
        datatype: u64,
        radius: u64,
        x: i64,
        y: i64,
    },
}

impl Element {
    /// Its weight (own rule): one, plus the points of a polygon or a path, and the bytes of a placed cell's name or of a
    /// text's string.
    pub fn weight(&self) -> u64
        ensures { result ≡ weight_of self.now }
    {
        match self {
            Element::Placement { cell, .. } => 1 + cell.as_bytes().len() as u64,
            Element::Text { string, .. } => 1 + string.as_bytes().len() as u64,
            Element::Polygon { points, .. } | Element::Path { points, .. } => {
                1 + points.as_slice().len() as u64
            }
            Element::Rectangle { .. } | Element::Circle { .. } => 1,
        }
    }

    /// Whether it has fewer points than its kind needs: a polygon three, a path one.
    pub fn lacks_points(&self) -> bool
        ensures { result ≡ lacks_points self.now }
    {
        match self {
            Element::Polygon { points, .. } => points.as_slice().len() < 3,
            Element::Path { points, .. } => points.as_slice().is_empty(),
            _ => false,
        }
    }
}

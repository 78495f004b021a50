//! Elements by the names of their fields.
//!
//! The definitions write the fields of a kind one after the other, without names. These contracts say which field is where,
//! so the prover refuses a declaration in which two fields of one type have changed places.

ghost use Rattle.std.specs.Prelude.{◌≡◌};
ghost use Rattle.oas_elements.specs.declared.element.Element.TheVariants.{Placement, Text, Rectangle, Polygon, Path, Circle};

use crate::element::{Element, Turns};
use oas_num::{Label, Name};
use oas_ring::{Point, Points};

/// What a shape is drawn on: a layer and a datatype; of a text its textlayer and its texttype.
#[derive(Clone, Copy, Debug, PartialEq, Eq)]
pub struct Layer {
    pub layer: u64,
    pub datatype: u64,
}

/// How far a path goes on beyond its first and its last point, in grid steps.
#[derive(Clone, Copy, Debug, PartialEq, Eq)]
pub struct Extensions {
    pub start: i64,
    pub end: i64,
}

impl Element {
    /// A placement of the cell with that name, at a point of the grid.
    pub fn placement(cell: Name, at: Point, turns: Turns, flip: bool) -> Element
        ensures { result ≡ Placement cell at.x at.y turns flip }
    {
        Element::Placement {
            cell,
            x: at.x,
            y: at.y,
            turns,
            flip,
        }
    }

    /// A text, at a point of the grid.
    pub fn text(string: Label, layer: Layer, at: Point) -> Element
        ensures { result ≡ Text string layer.layer layer.datatype at.x at.y }
    {
        Element::Text {
            string,
            textlayer: layer.layer,
            texttype: layer.datatype,
            x: at.x,
            y: at.y,
        }
    }

    /// A rectangle with that width and height in grid steps, with its lower left corner there.
    pub fn rectangle(layer: Layer, width: u64, height: u64, at: Point) -> Element
        ensures { result ≡ Rectangle layer.layer layer.datatype width height at.x at.y }
    {
        Element::Rectangle {
            layer: layer.layer,
            datatype: layer.datatype,
            width,
            height,
            x: at.x,
            y: at.y,
        }
    }

    /// A polygon round these points.
    pub fn polygon(layer: Layer, points: Points) -> Element
        ensures { result ≡ Polygon layer.layer layer.datatype points }
    {
        Element::Polygon {
            layer: layer.layer,
            datatype: layer.datatype,
            points,
        }
    }

    /// A path along these points, with its half-width in grid steps.
    pub fn path(layer: Layer, half_width: u64, extensions: Extensions, points: Points) -> Element
        ensures { result ≡ Path layer.layer layer.datatype half_width extensions.start extensions.end points }
    {
        Element::Path {
            layer: layer.layer,
            datatype: layer.datatype,
            half_width,
            start: extensions.start,
            end: extensions.end,
            points,
        }
    }

    /// A circle with that radius in grid steps, with its centre there.
    pub fn circle(layer: Layer, radius: u64, at: Point) -> Element
        ensures { result ≡ Circle layer.layer layer.datatype radius at.x at.y }
    {
        Element::Circle {
            layer: layer.layer,
            datatype: layer.datatype,
            radius,
            x: at.x,
            y: at.y,
        }
    }
}

//! Elements by plain values, as the rows of tests give them.

use oas_canon::Draft;
use oas_elements::{Element, Extensions, Layer, Turns};
use oas_num::{Label, Name};
use oas_ring::{Point, Points};
use std::alloc::Global;

/// An element. A name and a string are given by their bytes.
#[derive(Clone, Copy)]
pub(crate) enum Plain {
    /// A placement of the cell with this name there, with these turns, and whether it is flipped.
    Placement(&'static [u8], (i64, i64), Turns, bool),
    /// A text with this string, this textlayer and texttype, there.
    Text(&'static [u8], (u64, u64), (i64, i64)),
    /// A rectangle of this layer, 10 wide and 20 high.
    Rectangle(u64),
    /// A polygon of layer 1 with these vertices.
    Polygon(&'static [(i64, i64)]),
    /// A path of layer 1 and half-width 5 with this extension at each end and these points.
    Path(i64, &'static [(i64, i64)]),
    /// A circle of layer 1 and radius 5.
    Circle,
}

/// The name of these bytes.
pub(crate) fn name(alloc: Global, bytes: &[u8]) -> Option<Name> {
    Name::new(alloc, bytes).ok()
}

/// The string of these bytes.
pub(crate) fn label(alloc: Global, bytes: &[u8]) -> Option<Label> {
    Label::new(alloc, bytes).ok()
}

fn points(alloc: Global, list: &[(i64, i64)]) -> Option<Points> {
    let mut points = Vec::new(alloc);
    for (x, y) in list {
        points.push(Point { x: *x, y: *y }).ok()?;
    }
    Some(Points::new(points))
}

/// The placement of the cell of the name of these bytes.
fn placement(
    alloc: Global,
    bytes: &[u8],
    at: (i64, i64),
    turns: Turns,
    flip: bool,
) -> Option<Element> {
    let name = name(alloc, bytes)?;
    Some(Element::placement(name, Point { x: at.0, y: at.1 }, turns, flip))
}

/// The text of the string of these bytes.
fn text(alloc: Global, bytes: &[u8], layers: (u64, u64), at: (i64, i64)) -> Option<Element> {
    let label = label(alloc, bytes)?;
    Some(Element::text(
        label,
        Layer {
            layer: layers.0,
            datatype: layers.1,
        },
        Point { x: at.0, y: at.1 },
    ))
}

fn polygon(alloc: Global, list: &[(i64, i64)]) -> Option<Element> {
    let points = points(alloc, list)?;
    Some(Element::polygon(
        Layer {
            layer: 1,
            datatype: 0,
        },
        points,
    ))
}

fn path(alloc: Global, ends: i64, list: &[(i64, i64)]) -> Option<Element> {
    let points = points(alloc, list)?;
    Some(Element::path(
        Layer {
            layer: 1,
            datatype: 0,
        },
        5,
        Extensions {
            start: ends,
            end: ends,
        },
        points,
    ))
}

impl Plain {
    /// The element; `None` where the bytes are no name or no string, or if out of memory.
    pub(crate) fn element(self, alloc: Global) -> Option<Element> {
        match self {
            Plain::Placement(bytes, at, turns, flip) => { placement(alloc, bytes, at, turns, flip) }
            Plain::Text(bytes, layers, at) => text(alloc, bytes, layers, at),
            Plain::Rectangle(layer) => Some(Element::rectangle(
                Layer { layer, datatype: 0 },
                10,
                20,
                Point { x: 0, y: 0 },
            )),
            Plain::Polygon(list) => polygon(alloc, list),
            Plain::Path(ends, list) => path(alloc, ends, list),
            Plain::Circle => Some(Element::circle(
                Layer {
                    layer: 1,
                    datatype: 0,
                },
                5,
                Point { x: 0, y: 0 },
            )),
        }
    }
}

/// Adds the cell `A` with these elements, each this many times.
pub(crate) fn add_cell(alloc: Global, draft: &mut Draft, elements: &[(Plain, u64)]) -> Option<()> {
    let name = name(alloc, b"A")?;
    draft.add_cell(name).ok()?;
    for (element, times) in elements {
        add(alloc, draft, *element, *times)?;
    }
    Some(())
}

/// Adds an element this many times to the only cell.
fn add(alloc: Global, draft: &mut Draft, element: Plain, times: u64) -> Option<()> {
    let element = element.element(alloc)?;
    if times == 0 || draft.cell_count() != 1 {
        return None;
    }
    draft.add_many(0, element, times).ok()
}

//! Layouts that differ.

use crate::reports::parts::{add_cell, draft, label, name, put, ring, sealed};
use oas_canon::{Draft, Layout};
use oas_elements::{Element, Extensions, Layer, Profile, Turns};
use oas_ring::Point;
use std::alloc::Global;
use std::test::Fail;

/// How many steps are in a micron, as a fraction, and how many equal rectangles are in the cell `A`.
pub type Sketch = (u64, u64, u64);

/// Adds a cell, A, with this many rectangles.
fn add_rectangles(draft: &mut Draft, alloc: Global, times: u64) -> Result<(), Fail> {
    add_cell(draft, alloc, "A")?;
    put(
        draft,
        0,
        Element::rectangle(
            Layer {
                layer: 1,
                datatype: 0,
            },
            10,
            25,
            Point { x: -1, y: -1000 },
        ),
        times,
    )
}

/// The layout of a sketch.
pub fn rectangles(alloc: Global, sketch: Sketch) -> Result<Layout, Fail> {
    let (num, den, times) = sketch;
    let mut draft = draft(alloc, num, den, Profile::Two)?;
    let filled = add_rectangles(&mut draft, alloc, times);
    sealed(draft, filled)
}

/// A flipped placement.
fn flipped(alloc: Global) -> Result<Element, Fail> {
    let cell = name(alloc, "A'\\")?;
    Ok(Element::placement(cell, Point { x: -7, y: 12 }, Turns::T3, true))
}

/// A text of characters that are escaped.
fn text(alloc: Global) -> Result<Element, Fail> {
    let string = label(alloc, " <'&\\> ")?;
    Ok(Element::text(
        string,
        Layer {
            layer: 3,
            datatype: 4,
        },
        Point { x: 0, y: 6 },
    ))
}

/// Adds a polygon and a path.
fn add_points(draft: &mut Draft, alloc: Global) -> Result<(), Fail> {
    let triangle = ring(alloc, &[(4, -1), (0, 9), (-5, 0)])?;
    put(
        draft,
        0,
        Element::polygon(
            Layer {
                layer: 1,
                datatype: 2,
            },
            triangle,
        ),
        1,
    )?;
    let bent = ring(alloc, &[(0, 0), (1000, 0), (1000, 1 << 60)])?;
    put(
        draft,
        0,
        Element::path(
            Layer {
                layer: 6,
                datatype: 7,
            },
            8,
            Extensions { start: -9, end: 10 },
            bent,
        ),
        1,
    )
}

/// Adds a cell with an element of each kind except a rectangle, and with two of one kind.
fn add_kinds(draft: &mut Draft, alloc: Global) -> Result<(), Fail> {
    add_cell(draft, alloc, "<&'>")?;
    put(draft, 0, flipped(alloc)?, 2)?;
    put(draft, 0, text(alloc)?, 1)?;
    add_points(draft, alloc)?;
    put(
        draft,
        0,
        Element::circle(
            Layer {
                layer: 5,
                datatype: 6,
            },
            7,
            Point { x: -8, y: 9 },
        ),
        1,
    )
}

/// With 1000 steps in a micron, that cell.
pub fn kinds(alloc: Global) -> Result<Layout, Fail> {
    let mut draft = draft(alloc, 1000, 1, Profile::Two)?;
    let filled = add_kinds(&mut draft, alloc);
    sealed(draft, filled)
}

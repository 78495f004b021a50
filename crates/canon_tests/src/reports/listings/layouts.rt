//! Layouts to list.

use crate::reports::parts::{add_cell, draft, label, name, put, ring, sealed};
use oas_canon::{Draft, Layout};
use oas_elements::{Element, Extensions, Layer, Profile, Turns};
use oas_ring::Point;
use std::alloc::Global;
use std::test::Fail;

/// Unit 1000 and no cell.
pub fn empty(alloc: Global) -> Result<Layout, Fail> {
    Ok(draft(alloc, 2000, 2, Profile::One)?.seal()?)
}

/// Adds a cell, A, with a rectangle this many times.
fn add_rectangles(draft: &mut Draft, alloc: Global, times: u64) -> Result<(), Fail> {
    add_cell(draft, alloc, "A")?;
    put(
        draft,
        0,
        Element::rectangle(
            Layer {
                layer: 1,
                datatype: 0,
            },
            10,
            20,
            Point { x: 0, y: 0 },
        ),
        times,
    )
}

/// Unit 1000 and a cell, A, with a rectangle this many times.
pub fn rectangles(alloc: Global, times: u64) -> Result<Layout, Fail> {
    let mut draft = draft(alloc, 1000, 1, Profile::One)?;
    let filled = add_rectangles(&mut draft, alloc, times);
    sealed(draft, filled)
}

/// Adds a cell, A, with a polygon that is a rectangle, its points backwards.
fn add_backwards(draft: &mut Draft, alloc: Global) -> Result<(), Fail> {
    add_cell(draft, alloc, "A")?;
    let points = ring(alloc, &[(10, 20), (0, 20), (0, 0), (10, 0)])?;
    put(
        draft,
        0,
        Element::polygon(
            Layer {
                layer: 1,
                datatype: 0,
            },
            points,
        ),
        1,
    )
}

/// Unit 1000 and a cell, A, with that polygon.
pub fn backwards(alloc: Global, profile: Profile) -> Result<Layout, Fail> {
    let mut draft = draft(alloc, 1000, 1, profile)?;
    let filled = add_backwards(&mut draft, alloc);
    sealed(draft, filled)
}

/// Adds a text.
fn put_text(draft: &mut Draft, alloc: Global, text: &str, (x, y): (i64, i64)) -> Result<(), Fail> {
    let string = label(alloc, text)?;
    put(
        draft,
        0,
        Element::text(
            string,
            Layer {
                layer: 3,
                datatype: 4,
            },
            Point { x, y },
        ),
        1,
    )
}

/// Adds placements and texts, the last of the listing first.
fn add_named(draft: &mut Draft, alloc: Global) -> Result<(), Fail> {
    put_text(draft, alloc, "two words ", (5, 6))?;
    put_text(draft, alloc, "", (-1, -2))?;
    let plain = Element::placement(name(alloc, "Z")?, Point { x: 0, y: 0 }, Turns::T0, false);
    put(draft, 0, plain, 1)?;
    let flipped = Element::placement(name(alloc, "AB")?, Point { x: -7, y: 12 }, Turns::T3, true);
    put(draft, 0, flipped, 1)
}

/// Adds rectangles and a circle, the last of the listing first.
fn add_plain(draft: &mut Draft) -> Result<(), Fail> {
    put(
        draft,
        0,
        Element::circle(
            Layer {
                layer: 5,
                datatype: 6,
            },
            7,
            Point { x: -8, y: 9 },
        ),
        1,
    )?;
    put(
        draft,
        0,
        Element::rectangle(
            Layer {
                layer: u64::MAX,
                datatype: 0,
            },
            0,
            0,
            Point { x: 0, y: 0 },
        ),
        1,
    )?;
    put(
        draft,
        0,
        Element::rectangle(
            Layer {
                layer: 1,
                datatype: 0,
            },
            10,
            20,
            Point { x: -30, y: -40 },
        ),
        2,
    )
}

/// Adds paths and a polygon.
fn add_points(draft: &mut Draft, alloc: Global) -> Result<(), Fail> {
    let far = ring(alloc, &[(1, -1), (1, -1), (-(1 << 60), 1 << 60)])?;
    put(
        draft,
        0,
        Element::path(
            Layer {
                layer: 6,
                datatype: 7,
            },
            8,
            Extensions { start: 0, end: 0 },
            far,
        ),
        1,
    )?;
    let alone = ring(alloc, &[(1, -1)])?;
    put(
        draft,
        0,
        Element::path(
            Layer {
                layer: 6,
                datatype: 7,
            },
            8,
            Extensions { start: -9, end: 10 },
            alone,
        ),
        1,
    )?;
    let triangle = ring(alloc, &[(4, -1), (0, 9), (-5, 0)])?;
    put(
        draft,
        0,
        Element::polygon(
            Layer {
                layer: 1,
                datatype: 2,
            },
            triangle,
        ),
        1,
    )
}

/// Adds a cell with elements of each kind, and one with none.
fn add_kinds(draft: &mut Draft, alloc: Global) -> Result<(), Fail> {
    add_cell(draft, alloc, "TOP")?;
    add_points(draft, alloc)?;
    add_plain(draft)?;
    add_named(draft, alloc)?;
    add_cell(draft, alloc, "!")
}

/// Unit 3/2, and those cells.
pub fn kinds(alloc: Global) -> Result<Layout, Fail> {
    let mut draft = draft(alloc, 3, 2, Profile::Two)?;
    let filled = add_kinds(&mut draft, alloc);
    sealed(draft, filled)
}

//! Layouts that differ.

use crate::reports::parts::{draft, put, sealed};
use oas_canon::{Draft, Layout};
use oas_elements::{Element, Layer, Profile};
use oas_num::Name;
use oas_ring::Point;
use std::alloc::Global;
use std::test::Fail;

/// A layout in short: how many grid steps a micron has, the names of the cells, of one letter each, and the rectangles: for
/// each the place of its cell, a layer, and its count.
pub type Sketch<'a> = (u64, &'a str, &'a [(usize, u64, u64)]);

/// Adds a cell of each letter.
fn add_letters(draft: &mut Draft, alloc: Global, names: &str) -> Result<(), Fail> {
    for letter in names.as_bytes() {
        let name = [*letter];
        draft.add_cell(Name::new(alloc, &name)?)?;
    }
    Ok(())
}

/// Adds the rectangles to the cells at their places.
fn add_rectangles(draft: &mut Draft, rectangles: &[(usize, u64, u64)]) -> Result<(), Fail> {
    for (cell, layer, times) in rectangles {
        put(
            draft,
            *cell,
            Element::rectangle(
                Layer {
                    layer: *layer,
                    datatype: 0,
                },
                10,
                20,
                Point { x: 0, y: 0 },
            ),
            *times,
        )?;
    }
    Ok(())
}

/// Adds the cells and their rectangles.
fn fill(
    draft: &mut Draft,
    alloc: Global,
    names: &str,
    rectangles: &[(usize, u64, u64)],
) -> Result<(), Fail> {
    add_letters(draft, alloc, names)?;
    add_rectangles(draft, rectangles)
}

/// The layout of a sketch, by profile two.
pub fn layout(alloc: Global, sketch: Sketch<'_>) -> Result<Layout, Fail> {
    let (steps, names, rectangles) = sketch;
    let mut draft = draft(alloc, steps, 1, Profile::Two)?;
    let filled = fill(&mut draft, alloc, names, rectangles);
    sealed(draft, filled)
}

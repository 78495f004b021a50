//! The parts of the layouts of these tests.

use oas_canon::{Draft, Layout};
use oas_elements::{Element, Limits, Profile};
use oas_num::{Fraction, Label, Name};
use oas_ring::{Point, Points};
use std::alloc::{AllocError, Global};
use std::test::Fail;

/// The name of this text.
pub fn name(alloc: Global, text: &str) -> Result<Name, Fail> {
    Ok(Name::new(alloc, text.as_bytes())?)
}

/// The label of this text.
pub fn label(alloc: Global, text: &str) -> Result<Label, Fail> {
    Ok(Label::new(alloc, text.as_bytes())?)
}

/// The list of these points.
pub fn ring(alloc: Global, places: &[(i64, i64)]) -> Result<Points, AllocError> {
    let mut points = Vec::new(alloc);
    for (x, y) in places {
        points.push(Point { x: *x, y: *y })?;
    }
    Ok(Points::new(points))
}

/// A draft with this many grid steps in a micron, within the largest limits, and without cells.
pub fn draft(alloc: Global, num: u64, den: u64, profile: Profile) -> Result<Draft, Fail> {
    let unit = Fraction::reduced(num, den).ok_or("no unit")?;
    Ok(Draft::new(alloc, unit, Limits::large(), profile)?)
}

/// The layout of a draft, or why it wasn't filled. A function that ends with this call has no other path on which it drops
/// the draft.
pub fn sealed(draft: Draft, filled: Result<(), Fail>) -> Result<Layout, Fail> {
    filled?;
    Ok(draft.seal()?)
}

/// Adds an empty cell with that name.
pub fn add_cell(draft: &mut Draft, alloc: Global, text: &str) -> Result<(), Fail> {
    draft.add_cell(name(alloc, text)?)?;
    Ok(())
}

/// Adds the element to the cell this many times.
pub fn put(draft: &mut Draft, cell: usize, element: Element, times: u64) -> Result<(), Fail> {
    if cell < draft.cell_count() && times > 0 {
        draft.add_many(cell, element, times)?;
    }
    Ok(())
}

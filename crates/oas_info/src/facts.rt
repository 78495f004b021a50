//! The facts of a layout.

ghost use Rattle.std.specs.Prelude.{IfOk};
ghost use Rattle.oas_elements.specs.Contents.{meaning_of};
ghost use Rattle.oas_info.specs.Facts.{AreFacts};

use crate::counting::totals_of;
use crate::group::Group;
use crate::names::unmatched_names;
use oas_num::{Fraction, Name};
use oas_writing::Layout;
use std::alloc::{AllocError, Global};
use std::collections::BTreeMap;

/// The facts of a layout, in a few lines.
#[derive(Drop)]
pub struct Facts {
    /// The grid steps per micron.
    pub unit: Fraction,
    /// How many cells are defined.
    pub cells: u64,
    /// How many elements there are, equal ones each counted.
    pub elements: u64,
    /// The weight of the layout.
    pub weight: u64,
    /// How many elements are in each group that has some, ascending.
    pub groups: BTreeMap<Group, u64>,
    /// The names that are placed but that no cell has, ascending.
    pub undefined: Vec<Name>,
    /// The names of cells that nothing places, ascending.
    pub unplaced: Vec<Name>,
}

/// The facts of a layout. It goes over the distinct elements once and over the placements again, and allocates for groups
/// and names.
pub fn facts_of(alloc: Global, layout: &Layout) -> Result<Facts, AllocError>
    ensures { IfOk result (λ facts. AreFacts (meaning_of layout.now) facts) }
{
    let totals = totals_of(alloc, layout)?;
    let names = unmatched_names(alloc, layout)?;
    Ok(Facts {
        unit: layout.unit(),
        cells: layout.cell_count() as u64,
        elements: totals.elements,
        weight: totals.weight,
        groups: totals.groups,
        undefined: names.undefined,
        unplaced: names.unplaced,
    })
}

//! From a draft to its layout.

ghost use Rattle.std.specs.Prelude.{IfOk};
ghost use Rattle.oas_elements.specs.Contents.{IsSealed};
ghost use Rattle.oas_layout.specs.Sealing.{AreInOrder, AreByName};

use crate::draft::Draft;
use crate::draft_cell::DraftCell;
use crate::layout::Layout;
use crate::sorting::sort_by_name;
use indexmap::IndexMap;
use oas_elements::unit_fits;
use oas_num::Name;
use oas_runs::Run;
use std::alloc::{AllocError, Global};

/// The runs of all cells, in their order.
fn close_all(
    alloc: Global,
    cells: IndexMap<Name, DraftCell>,
) -> Result<Vec<(Name, Run)>, AllocError>
    ensures { IfOk result (λ runs. AreInOrder cells.entries runs.items) }
{
    let mut runs = Vec::with_capacity(alloc, cells.len())?;
    for (name, cell) in cells {
        let run = cell.close()?;
        runs.push((name, run))?;
    }
    Ok(runs)
}

/// The same by ascending names.
fn close_by_name(
    alloc: Global,
    cells: IndexMap<Name, DraftCell>,
) -> Result<Vec<(Name, Run)>, AllocError>
    ensures { IfOk result (λ runs. AreByName cells.entries runs.items) }
{
    let mut runs = close_all(alloc, cells)?;
    sort_by_name(alloc, &mut runs);
    Ok(runs)
}

impl Draft {
    /// The layout of what is held, its cells by ascending names. If out of memory the draft is dropped.
    pub fn seal(self) -> Result<Layout, AllocError>
        ensures { IfOk result (λ l. IsSealed self l) }
    {
        let Draft {
            unit,
            limits,
            profile,
            cells,
            alloc,
            ..
        } = self;
        let runs = close_by_name(alloc, cells)?;
        unit_fits(unit);
        Ok(Layout::of(unit, limits, profile, runs))
    }
}

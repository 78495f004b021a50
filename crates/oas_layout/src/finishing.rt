//! From cells that are held as keys to the layout of their runs.

ghost use Rattle.std.specs.Prelude.{◌≡◌, ◌≤◌, ◌⊎◌, false, None, Some, List, OnOk, IfOk, IfErr};
ghost use Rattle.std.specs.List.{AllByRecursion};
ghost use Rattle.std.specs.Map.{keys_of};
ghost use Rattle.oas_num.specs.declared.refusals.Why.TheVariants.{Memory};
ghost use Rattle.oas_record.specs.declared.records.Record.{Record as OneRecord};
ghost use Rattle.oas_form.specs.Meaning.{DrawnCell, cells_by_name, has_twice, end_reason, meaning_by};
ghost use Rattle.oas_form.specs.Stands.{Represents, records_mean, end_refusal};
ghost use Rattle.oas_form.specs.Stores.{HoldCells, total_count};
ghost use Rattle.oas_cells.specs.Compact.{IsCompact, compact_store};
ghost use Rattle.oas_layout.specs.Finishing.{PutsRun, AreRuns, AreRunsOf};
ghost use Rattle.oas_layout.specs.LayoutOf.{IsLayoutOf};

use crate::layout::Layout;
use crate::sorting::sort_by_name;
use oas_cells::{CompactCell, KeptBy, Ranks, ranks_for};
use oas_elements::unit_fits;
use oas_form::{CellStore, NameTable, Reader, Taken, accept_cells, cell_meant};
use oas_num::{Label, Name, Refusal, Why};
use oas_runs::Run;
use std::alloc::Global;

/// Puts the run of a cell behind the others, with its name, where it has one.
fn put_run<P: KeptBy>(
    alloc: Global,
    cell: CompactCell<P>,
    names: &NameTable<Name>,
    strings: &NameTable<Label>,
    ranks: Option<&Ranks>,
    runs: &mut Vec<(Name, Run)>,
) -> Result<(), Why>
    requires { IsCompact P.profile cell }
    ensures ok { OnOk result (PutsRun P.profile names.now.named strings.now.named cell runs.old.items runs.new.items) }
    ensures err { IfErr result (λ why. why ≡ Memory) }
{
    let Some(meant) = cell_meant(names, cell.cell()) else {
        return Ok(());
    };
    let Ok(name) = meant.try_clone(alloc) else {
        return Err(Why::Memory);
    };
    // The proof takes from this call that the bytes are a name's.
    let _bytes = name.as_bytes();
    let run = cell.into_run(names, strings, ranks)?;
    runs.push((name, run))?;
    Ok(())
}

/// When one in this many of the cells that there is room for is freed, that room is given back.
const PART: usize = 16;

/// Gives back the room of the freed cells, once it is a part of all.
fn fit<P: KeptBy>(cells: &mut Vec<CompactCell<P>>)
    ensures { cells.new.items ≡ cells.old.items }
{
    let part = cells.capacity() / PART;
    if cells.len().saturating_add(part) < cells.capacity() {
        cells.shrink_to_fit();
    }
}

/// The runs of all cells, from the last cell on.
fn runs_of<P: KeptBy>(
    alloc: Global,
    cells: Vec<CompactCell<P>>,
    names: &NameTable<Name>,
    strings: &NameTable<Label>,
) -> Result<Vec<(Name, Run)>, Why>
    requires { AllByRecursion (IsCompact P.profile) cells.items }
    ensures ok { IfOk result (λ runs. AreRuns P.profile names.now.named strings.now.named cells.items runs.items) }
    ensures err { IfErr result (λ why. why ≡ Memory) }
{
    let ranks = ranks_for(alloc, &cells, names, strings)?;
    let mut runs = Vec::with_capacity(alloc, cells.len())?;
    let mut left = cells;
    while let Some(cell) = left.pop() {
        put_run(alloc, cell, names, strings, ranks.as_ref(), &mut runs)?;
        fit(&mut left);
    }
    Ok(runs)
}

/// The runs of all cells, by ascending names, where no two cells have one name.
fn runs_by_name<P: KeptBy>(
    alloc: Global,
    cells: Vec<CompactCell<P>>,
    names: &NameTable<Name>,
    strings: &NameTable<Label>,
) -> Result<Vec<(Name, Run)>, Why>
    requires sound { AllByRecursion (IsCompact P.profile) cells.items }
    requires once { (ds : List DrawnCell) → HoldCells (compact_store P.profile) cells.items ds → has_twice (keys_of (cells_by_name names.now.named strings.now.named ds)) ≡ false }
    ensures ok { IfOk result (λ runs. AreRunsOf P.profile names.now.named strings.now.named cells.items runs.items) }
    ensures err { IfErr result (λ why. why ≡ Memory) }
{
    let mut runs = runs_of(alloc, cells, names, strings)?;
    sort_by_name(alloc, &mut runs);
    Ok(runs)
}

/// The layout of what a reader took, or why END refuses it: with the first of the reasons that there are, at byte `at`, where
/// END starts; or it fails with `Memory`.
pub fn finish_layout<P: KeptBy>(
    alloc: Global,
    reader: Reader<CompactCell<P>>,
    at: u64,
) -> Result<Layout, Refusal>
    ensures accepted { (rs : List OneRecord) → Represents (compact_store P.profile) reader rs → OnOk result (end_refusal reader.limits rs ≡ None) }
    ensures refused { (rs : List OneRecord) → Represents (compact_store P.profile) reader rs → IfErr result (λ e. (e.at ≡ at) × ((e.why ≡ Memory) ⊎ (end_refusal reader.limits rs ≡ Some e.why))) }
    ensures layout { (rs : List OneRecord) → Represents (compact_store P.profile) reader rs → IfOk result (λ l. IsLayoutOf P.profile reader.limits (records_mean reader.unit rs) l) }
{
    let taken = reader.hand_over(at)?;
    match layout_of(alloc, taken) {
        Ok(layout) => Ok(layout),
        Err(why) => Err(Refusal { at, why }),
    }
}

/// The layout of what was taken, where END doesn't refuse it.
fn layout_of<P: KeptBy>(alloc: Global, taken: Taken<CompactCell<P>>) -> Result<Layout, Why>
    requires sound { AllByRecursion (IsCompact P.profile) taken.cells.items }
    requires few { total_count (compact_store P.profile) taken.cells.items ≤ taken.limits.elements }
    ensures accepted { (ds : List DrawnCell) → HoldCells (compact_store P.profile) taken.cells.items ds → OnOk result (end_reason taken.names.named taken.strings.named taken.limits ds ≡ None) }
    ensures refused { (ds : List DrawnCell) → HoldCells (compact_store P.profile) taken.cells.items ds →
        IfErr result (λ why. (why ≡ Memory) ⊎ (end_reason taken.names.named taken.strings.named taken.limits ds ≡ Some why)) }
    ensures layout { (ds : List DrawnCell) → HoldCells (compact_store P.profile) taken.cells.items ds →
        IfOk result (λ l. IsLayoutOf P.profile taken.limits (meaning_by taken.names.named taken.strings.named taken.unit ds) l) }
{
    let Taken {
        unit,
        limits,
        names,
        strings,
        cells,
        ..
    } = taken;
    accept_cells(alloc, limits, &cells, &names, &strings)?;
    let cells = runs_by_name(alloc, cells, &names, &strings)?;
    unit_fits(unit);
    Ok(Layout::of(unit, limits, P::profile(), cells))
}

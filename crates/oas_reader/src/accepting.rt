//! What END refuses of the cells that were drawn, by the tables of the whole file.

ghost use Rattle.std.specs.Prelude.{◌≡◌, ◌⊎◌, ℕ, List, true, false, None, Some, OnOk, IfOk, IfErr, map};
ghost use Rattle.std.specs.Cmp.Lexicographic.{slice_cmp};
ghost use Rattle.std.specs.declared.cmp.Ordering.TheVariants.{Less};
ghost use Rattle.std.specs.Ordering.{nat_cmp, is_lt};
ghost use Rattle.std.specs.Option.{option_copied};
ghost use Rattle.std.specs.List.{AllByRecursion, IsAllAdjacentAnswer};
ghost use Rattle.oas_num.specs.declared.refusals.Why.TheVariants.{Memory};
ghost use Rattle.oas_reader.specs.Meaning.{DrawnCell, end_reason, has_twice, names_meant};
ghost use Rattle.oas_reader.specs.Stores.{HoldCells};
ghost use Rattle.oas_reader.specs.Weights.{all_weight};
ghost use Rattle.oas_reader.specs.Counted.{counted_store};
ghost use Rattle.oas_reader.specs.Parts.{Sound, cells};

use crate::counted::CountedCell;
use crate::fronts::fronted_names;
use crate::meant::cell_meant;
use crate::names::NameTable;
use crate::parts::{Parts, all_cells};
use crate::stores::{CellStore, Weighed};
use oas_elements::Limits;
use oas_num::{Label, Name, Why};
use std::alloc::Global;

/// Accepts what is counted: exactly what END doesn't refuse.
pub(crate) fn accept_end(parts: Parts<CountedCell>) -> Result<(), Why>
    requires { Sound counted_store parts }
    ensures ok { (ds : List DrawnCell) → HoldCells counted_store (cells parts) ds → OnOk result (end_reason parts.names.named parts.strings.named parts.limits ds ≡ None) }
    ensures err { (ds : List DrawnCell) → HoldCells counted_store (cells parts) ds →
        IfErr result (λ why. (why ≡ Memory) ⊎ (end_reason parts.names.named parts.strings.named parts.limits ds ≡ Some why)) }
{
    let Parts {
        alloc,
        limits,
        names,
        strings,
        done,
        cell,
        ..
    } = parts;
    let Ok(cells) = all_cells(done, cell) else {
        return Err(Why::Memory);
    };
    accept_cells(alloc, limits, &cells, &names, &strings)
}

/// Accepts cells by the tables of the whole file, or refuses them as END does: with `UnknownReference` where a number has no
/// name, else with `DuplicateCell` where two cells have one name, else with `TooHeavy` where they weigh more with all names
/// than the limits allow; or it fails with `Memory`.
pub fn accept_cells<S: Weighed>(
    alloc: Global,
    limits: Limits,
    cells: &[S],
    names: &NameTable<Name>,
    strings: &NameTable<Label>,
) -> Result<(), Why>
    requires { AllByRecursion S.store.IsSound cells.now }
    ensures ok { (ds : List DrawnCell) → HoldCells S.store cells.now ds → OnOk result (end_reason names.now.named strings.now.named limits ds ≡ None) }
    ensures err { (ds : List DrawnCell) → HoldCells S.store cells.now ds →
        IfErr result (λ why. (why ≡ Memory) ⊎ (end_reason names.now.named strings.now.named limits ds ≡ Some why)) }
{
    let twice = names_twice(alloc, cells, names)?;
    let Some(weight) = all_weight(cells, names, strings) else {
        return Err(Why::UnknownReference);
    };
    if twice {
        return Err(Why::DuplicateCell);
    }
    if weight > limits.weight() {
        return Err(Why::TooHeavy);
    }
    Ok(())
}

/// The weight of all cells with all names, capped to 64 bits; None where a number has no name.
fn all_weight<S: Weighed>(
    cells: &[S],
    names: &NameTable<Name>,
    strings: &NameTable<Label>,
) -> Option<u64>
    requires { AllByRecursion S.store.IsSound cells.now }
    ensures { (ds : List DrawnCell) → HoldCells S.store cells.now ds → result ≡ all_weight names.now.named strings.now.named ds }
{
    let mut weight = 0u64;
    for cell in cells {
        weight = weight.saturating_add(cell.weight_with(names, strings)?);
    }
    Some(weight)
}

/// Whether a name is above the one before it, if there is one.
#[inline]
fn is_above(before: Option<&Name>, name: &Name) -> bool
    ensures { (last : List ℕ) → result ≡ true → option_copied before.entry ≡ Some last → slice_cmp nat_cmp last name.now ≡ Less }
{
    match before {
        Some(before) => before < name,
        None => true,
    }
}

/// Whether the names of the cells ascend, as in a canonical file. So no name is there twice.
fn names_ascend<S: CellStore>(cells: &[S], names: &NameTable<Name>) -> bool
    ensures { result ≡ true → has_twice (names_meant names.now.named (map S.store.cell cells.now)) ≡ false }
{
    let mut last = None;
    for cell in cells {
        if let Some(name) = cell_meant(names, cell.cell()) {
            if !is_above(last, name) {
                return false;
            }
            last = Some(name);
        }
    }
    true
}

/// Whether two cells have one name.
fn names_twice<S: CellStore>(
    alloc: Global,
    cells: &[S],
    names: &NameTable<Name>,
) -> Result<bool, Why>
    ensures twice { IfOk result (λ b. b ≡ has_twice (names_meant names.now.named (map S.store.cell cells.now))) }
    ensures err { IfErr result (λ why. why ≡ Memory) }
{
    if names_ascend(cells, names) {
        return Ok(false);
    }
    name_again(alloc, cells, names)
}

/// Whether two cells have one name, by all names in order: no choice of names makes that slow.
fn name_again<S: CellStore>(
    alloc: Global,
    cells: &[S],
    names: &NameTable<Name>,
) -> Result<bool, Why>
    ensures twice { IfOk result (λ b. b ≡ has_twice (names_meant names.now.named (map S.store.cell cells.now))) }
    ensures err { IfErr result (λ why. why ≡ Memory) }
{
    let mut all = fronted_names(alloc, cells, names)?;
    // Nothing is promised of fronts, so that a proof takes the order from the second sort alone. There is nothing left for it
    // to do, and it isn't needed where no name is there twice.
    all.sort_unstable();
    if ascend(&all) {
        return Ok(false);
    }
    all.sort_unstable_by(|one, other| one.1.cmp(other.1));
    Ok(!ascend(&all))
}

/// Whether each name is above the one before it.
fn ascend(names: &[(u64, &Name)]) -> bool
    ensures { IsAllAdjacentAnswer (λ x y b. b ≡ is_lt (slice_cmp nat_cmp x.1.now y.1.now)) names.now result }
{
    names.is_sorted_by(|one, other| one.1 < other.1)
}

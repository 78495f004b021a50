//! How many items there are.

ghost use Rattle.std.specs.Prelude.{◌≡◌, ℕ, List, length, IfSome};
ghost use Rattle.std.specs.Ordering.{nat_cmp};
ghost use Rattle.std.specs.Cmp.Lexicographic.{slice_cmp};
ghost use Rattle.std.specs.List.Sorted.{IsStrictlySortedBy};
ghost use Rattle.std.specs.Map.{keys_of};
ghost use Rattle.oas_num.specs.Ratio.{Ratio};
ghost use Rattle.oas_elements.specs.Bag.{IsTally};
ghost use Rattle.oas_elements.specs.Element.{element_cmp};
ghost use Rattle.oas_difference.specs.Held.{held_changed};
ghost use Rattle.oas_markers.specs.Markers.{alone};
ghost use Rattle.oas_difference.specs.Microns.{counted_to};
ghost use Rattle.oas_markers.specs.Held.{held_item, held_items};

use oas_difference::{CellPair, ChosenCells, ChosenLayer, Side, next_cell, next_change};

/// How many elements are not as often on both sides; the count stops at `u64::MAX`.
fn count_changes<'a>(mut before: Side<'a>, mut after: Side<'a>) -> u64
    requires before { IsStrictlySortedBy element_cmp (keys_of before) }
    requires after { IsStrictlySortedBy element_cmp (keys_of after) }
    ensures { result ≡ counted_to (length (held_changed before.entry after.entry)) }
{
    let mut count = 0u64;
    while let Some(change) = next_change(&mut before, &mut after) {
        let _ = change;
        count = count.saturating_add(1);
    }
    count
}

/// How many items a cell has because only one layout has it.
fn count_alone(is_before: bool, is_after: bool) -> u64
    ensures { (name : List ℕ) → result ≡ length (alone is_before is_after name) }
{
    match (is_before, is_after) {
        (true, false) | (false, true) => 1,
        (true, true) | (false, false) => 0,
    }
}

/// How many items a cell has; the count stops at `u64::MAX`.
fn count_cell<'a>(pair: CellPair<'a>) -> u64
    requires before { IfSome pair.before IsTally }
    requires after { IfSome pair.after IsTally }
    ensures { (u v : Ratio) → result ≡ counted_to (length (held_item u v (pair.entry.name.now, (pair.entry.before, pair.entry.after)))) }
{
    let alone = count_alone(pair.before.is_some(), pair.after.is_some());
    count_changes(Side::new(pair.before), Side::new(pair.after)).saturating_add(alone)
}

/// How many items all cells have; the count stops at `u64::MAX`.
pub(crate) fn count_items<'a>(
    mut before: ChosenCells<'a>,
    mut after: ChosenCells<'a>,
    layers: Option<&[ChosenLayer]>,
) -> u64
    requires before { IsStrictlySortedBy (slice_cmp nat_cmp) (keys_of before) }
    requires after { IsStrictlySortedBy (slice_cmp nat_cmp) (keys_of after) }
    ensures { (u v : Ratio) → result ≡ counted_to (length (held_items layers.entry u v before.entry after.entry)) }
{
    let mut count = 0u64;
    while let Some(pair) = next_cell(&mut before, &mut after, layers) {
        count = count.saturating_add(count_cell(pair));
    }
    count
}

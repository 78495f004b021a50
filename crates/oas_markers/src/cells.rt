//! The entries and the items of cells.

ghost use Rattle.std.specs.Prelude.{◌≡◌, ◌-◌, ◌∷◌, [], length, is_some, IfSome, OnOk};
ghost use Rattle.std.specs.Ordering.{nat_cmp};
ghost use Rattle.std.specs.Cmp.Lexicographic.{slice_cmp};
ghost use Rattle.std.specs.List.Sorted.{IsStrictlySortedBy};
ghost use Rattle.std.specs.Map.{keys_of};
ghost use Rattle.oas_num.specs.Writing.{Writes};
ghost use Rattle.oas_elements.specs.Bag.{IsTally};
ghost use Rattle.oas_elements.specs.Element.{element_cmp};
ghost use Rattle.oas_markers.specs.Markers.{alone, cell_item, change_item, first_items};
ghost use Rattle.oas_markers.specs.Held.{held_entries, change_items, held_item, held_items};

use crate::items::{Way, put_cell_entry, put_cell_item, put_change};
use oas_difference::{CellPair, Change, ChosenCells, ChosenLayer, Side, next_cell, next_change};
use oas_num::{Fraction, Name, Sink, SinkFault};

/// Puts the entries of all cells.
pub(crate) fn put_entries<'a, K: Sink>(
    sink: &mut K,
    mut before: ChosenCells<'a>,
    mut after: ChosenCells<'a>,
    layers: Option<&[ChosenLayer]>,
) -> Result<(), SinkFault>
    requires before { IsStrictlySortedBy (slice_cmp nat_cmp) (keys_of before) }
    requires after { IsStrictlySortedBy (slice_cmp nat_cmp) (keys_of after) }
    ensures { Writes K.given K.failures sink.old (held_entries layers.entry before.entry after.entry) result sink.new }
{
    while let Some(pair) = next_cell(&mut before, &mut after, layers) {
        put_cell_entry(sink, pair.name)?;
    }
    Ok(())
}

/// Puts the item of a cell that only one layout has, if one is left to be put.
fn put_cell_alone<K: Sink>(
    sink: &mut K,
    way: Way,
    name: &Name,
    left: &mut u64,
) -> Result<(), SinkFault>
    ensures writes { Writes K.given K.failures sink.old (first_items left.old (cell_item way name.now ∷ [])) result sink.new }
    ensures left { OnOk result (left.new ≡ left.old - 1) }
{
    if *left == 0 {
        return Ok(());
    }
    *left -= 1;
    put_cell_item(sink, way, name)
}

/// Puts the item of a cell, if only one layout has it.
fn put_alone<K: Sink>(
    sink: &mut K,
    is_before: bool,
    is_after: bool,
    name: &Name,
    left: &mut u64,
) -> Result<(), SinkFault>
    ensures writes { Writes K.given K.failures sink.old (first_items left.old (alone is_before is_after name.now)) result sink.new }
    ensures left { OnOk result (left.new ≡ left.old - length (alone is_before is_after name.now)) }
{
    match (is_before, is_after) {
        (true, false) => put_cell_alone(sink, Way::Removed, name, left),
        (false, true) => put_cell_alone(sink, Way::Added, name, left),
        (true, true) | (false, false) => Ok(()),
    }
}

/// Puts the item of a change, if one is left to be put.
fn put_first_change<K: Sink>(
    sink: &mut K,
    gone: Fraction,
    come: Fraction,
    name: &Name,
    change: Change<'_>,
    left: &mut u64,
) -> Result<(), SinkFault>
    ensures writes { Writes K.given K.failures sink.old (first_items left.old (change_item gone come name.now (change.entry.element, (change.entry.before, change.entry.after)) ∷ [])) result sink.new }
    ensures left { OnOk result (left.new ≡ left.old - 1) }
{
    if *left == 0 {
        return Ok(());
    }
    *left -= 1;
    put_change(sink, gone, come, name, change)
}

/// Puts the items of what has changed in a cell, by the units of what is gone and of what is new, as long as one is left to be
/// put.
fn put_changes<'a, K: Sink>(
    sink: &mut K,
    gone: Fraction,
    come: Fraction,
    name: &Name,
    mut before: Side<'a>,
    mut after: Side<'a>,
    left: &mut u64,
) -> Result<(), SinkFault>
    requires before { IsStrictlySortedBy element_cmp (keys_of before) }
    requires after { IsStrictlySortedBy element_cmp (keys_of after) }
    ensures writes { Writes K.given K.failures sink.old (first_items left.old (change_items gone come name.now before.entry after.entry)) result sink.new }
    ensures left { OnOk result (left.new ≡ left.old - length (change_items gone come name.now before.entry after.entry)) }
{
    while let Some(change) = next_change(&mut before, &mut after) {
        put_first_change(sink, gone, come, name, change, left)?;
    }
    Ok(())
}

/// Puts the items of a cell, as long as one is left to be put.
fn put_cell<'a, K: Sink>(
    sink: &mut K,
    gone: Fraction,
    come: Fraction,
    pair: CellPair<'a>,
    left: &mut u64,
) -> Result<(), SinkFault>
    requires before { IfSome pair.before IsTally }
    requires after { IfSome pair.after IsTally }
    ensures writes { Writes K.given K.failures sink.old (first_items left.old (held_item gone come (pair.entry.name.now, (pair.entry.before, pair.entry.after)))) result sink.new }
    ensures left { OnOk result (left.new ≡ left.old - length (held_item gone come (pair.entry.name.now, (pair.entry.before, pair.entry.after)))) }
{
    let (is_before, is_after) = (pair.before.is_some(), pair.after.is_some());
    let before = Side::new(pair.before);
    let after = Side::new(pair.after);
    put_alone(sink, is_before, is_after, pair.name, left)?;
    put_changes(sink, gone, come, pair.name, before, after, left)
}

/// Puts the items of all cells, at most this many.
pub(crate) fn put_items<'a, K: Sink>(
    sink: &mut K,
    gone: Fraction,
    come: Fraction,
    mut before: ChosenCells<'a>,
    mut after: ChosenCells<'a>,
    layers: Option<&[ChosenLayer]>,
    most: u64,
) -> Result<(), SinkFault>
    requires before { IsStrictlySortedBy (slice_cmp nat_cmp) (keys_of before) }
    requires after { IsStrictlySortedBy (slice_cmp nat_cmp) (keys_of after) }
    ensures { Writes K.given K.failures sink.old (first_items most (held_items layers.entry gone come before.entry after.entry)) result sink.new }
{
    let mut left = most;
    while let Some(pair) = next_cell(&mut before, &mut after, layers) {
        put_cell(sink, gone, come, pair, &mut left)?;
    }
    Ok(())
}

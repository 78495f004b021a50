//! What has changed in each cell.

ghost use Rattle.std.specs.Prelude.{◌≡◌, ◌+◌, ◌<◌, ◌∷◌, [], length, true, IfSome, MatchOption};
ghost use Rattle.std.specs.Ordering.{nat_cmp};
ghost use Rattle.std.specs.Cmp.Lexicographic.{slice_cmp};
ghost use Rattle.std.specs.List.Sorted.{IsStrictlySortedBy};
ghost use Rattle.std.specs.Map.{keys_of};
ghost use Rattle.std.specs.Map.Iter.{TakesFirst};
ghost use Rattle.oas_num.specs.Writing.{Writes};
ghost use Rattle.oas_elements.specs.Bag.{IsTally};
ghost use Rattle.oas_elements.specs.Contents.{IsLayout};
ghost use Rattle.oas_elements.specs.Element.{element_cmp};
ghost use Rattle.oas_diff_text.specs.Held.{name_and_elements};
ghost use Rattle.oas_difference.specs.Difference.{below_name};
ghost use Rattle.oas_difference.specs.Pairs.{first_order, side_by_side};
ghost use Rattle.oas_difference.specs.Held.{cell_pairs, held_by, held_cell, held_changes, held_lines, cells_chosen};

use crate::brief::put_brief_cell;
use crate::changes::{next_change, put_change, put_changes};
use crate::elements::{ChosenElements, or_empty};
use crate::notation::Notation;
use crate::side::Side;
use oas_diff_options::{Choice, ChosenLayer, Detail, is_named};
use oas_diff_text::{Cells, Layout, put_cell_entry, put_place_entry};
use oas_num::{Name, Sink, SinkFault};
use std::cmp::Ordering;
use std::marker::Model;
use std::mem;

/// The cells of a layout that are compared, with the first of them at hand; contracts see the list of them.
#[derive(Drop)]
pub struct ChosenCells<'a> {
    first: Option<(&'a Name, ChosenElements<'a>)>,
    rest: Cells<'a>,
    choice: Choice<'a>,
}

impl<'a> Model for ChosenCells<'a> {
    ghost use Rattle.std.specs.Prelude.{List};
    ghost use Rattle.oas_elements.specs.Contents.{Cell};
    ghost use Rattle.oas_difference.specs.Held.{AreInHand, in_hand, cells_chosen};
    ghost use Rattle.oas_diff_text.specs.Held.{name_and_elements};

    ghost Value = { List Cell };

    ghost view = { λ c. in_hand name_and_elements c.first (cells_chosen c.choice c.rest) };

    ghost invariant = { λ c. AreInHand c.first (cells_chosen c.choice c.rest) };
}

impl<'a> ChosenCells<'a> {
    /// All of them.
    pub fn new(layout: &'a Layout, choice: Choice<'a>) -> ChosenCells<'a>
        ensures cells { result ≡ cells_chosen choice.entry layout.now.cells }
        ensures layout { IsLayout layout.now }
    {
        let mut rest = layout.cells();
        let first = first_chosen(&mut rest, choice);
        ChosenCells {
            first,
            rest,
            choice,
        }
    }

    /// How the names of the first cell here and of the first one there are ordered, where there is one; where no cell is left,
    /// all others come first.
    fn order(&self, other: &ChosenCells<'_>) -> Option<Ordering>
        ensures { result ≡ first_order (slice_cmp nat_cmp) self.now other.now }
    {
        match (&self.first, &other.first) {
            (None, None) => None,
            (Some(_), None) => Some(Ordering::Less),
            (None, Some(_)) => Some(Ordering::Greater),
            (Some((here, _)), Some((there, _))) => Some(here.as_bytes().cmp(there.as_bytes())),
        }
    }

    /// The first of them, which is removed.
    fn take_first(&mut self) -> Option<(&'a Name, ChosenElements<'a>)>
        ensures first { TakesFirst name_and_elements self.old result self.new }
        ensures tally { IfSome result (λ c. IsTally c.1) }
    {
        let next = first_chosen(&mut self.rest, self.choice);
        mem::replace(&mut self.first, next)
    }
}

/// The first of the cells that is compared, removed with those before it.
fn first_chosen<'a>(
    cells: &mut Cells<'a>,
    choice: Choice<'a>,
) -> Option<(&'a Name, ChosenElements<'a>)>
    ensures { TakesFirst name_and_elements (cells_chosen choice.entry cells.old) result (cells_chosen choice.entry cells.new) }
{
    while let Some((name, elements)) = cells.next() {
        if is_named(choice, name.as_bytes()) {
            return Some((name, ChosenElements::new(elements, choice.layers)));
        }
    }
    None
}

/// A cell of one of two layouts, or of both: its name, and its elements where it is there.
#[derive(Drop)]
pub struct CellPair<'a> {
    pub name: &'a Name,
    pub before: Option<ChosenElements<'a>>,
    pub after: Option<ChosenElements<'a>>,
}

/// Removes the cell with the least name from both sides, if there is one, with its elements where it is there.
fn take_least<'a>(before: &mut ChosenCells<'a>, after: &mut ChosenCells<'a>) -> Option<CellPair<'a>>
    requires before { IsStrictlySortedBy (slice_cmp nat_cmp) (keys_of before.old) }
    requires after { IsStrictlySortedBy (slice_cmp nat_cmp) (keys_of after.old) }
    ensures pair { MatchOption result (side_by_side (slice_cmp nat_cmp) before.old after.old ≡ [])
        (λ p. side_by_side (slice_cmp nat_cmp) before.old after.old ≡ (p.name.now, (p.before, p.after)) ∷ side_by_side (slice_cmp nat_cmp) before.new after.new) }
    ensures tally { IfSome result (λ p. IfSome p.before IsTally × IfSome p.after IsTally) }
    ensures fewer { IfSome result (λ _. length before.new + length after.new < length before.old + length after.old) }
    ensures before { IsStrictlySortedBy (slice_cmp nat_cmp) (keys_of before.new) }
    ensures after { IsStrictlySortedBy (slice_cmp nat_cmp) (keys_of after.new) }
{
    let first = before.order(after)?;
    match first {
        Ordering::Less => {
            let (name, elements) = before.take_first()?;
            Some(CellPair {
                name,
                before: Some(elements),
                after: None,
            })
        }
        Ordering::Equal => {
            let (name, elements) = before.take_first()?;
            let (_, elements_after) = after.take_first()?;
            Some(CellPair {
                name,
                before: Some(elements),
                after: Some(elements_after),
            })
        }
        Ordering::Greater => {
            let (name, elements) = after.take_first()?;
            Some(CellPair {
                name,
                before: None,
                after: Some(elements),
            })
        }
    }
}

/// Removes the cell with the least name from both sides, if there is one. Where layers are named, a cell that is not there has
/// no elements.
pub fn next_cell<'a>(
    before: &mut ChosenCells<'a>,
    after: &mut ChosenCells<'a>,
    layers: Option<&[ChosenLayer]>,
) -> Option<CellPair<'a>>
    requires before { IsStrictlySortedBy (slice_cmp nat_cmp) (keys_of before.old) }
    requires after { IsStrictlySortedBy (slice_cmp nat_cmp) (keys_of after.old) }
    ensures pair { MatchOption result (cell_pairs layers.entry before.old after.old ≡ [])
        (λ p. cell_pairs layers.entry before.old after.old ≡ (p.name.now, (p.before, p.after)) ∷ cell_pairs layers.entry before.new after.new) }
    ensures tally { IfSome result (λ p. IfSome p.before IsTally × IfSome p.after IsTally) }
    ensures fewer { IfSome result (λ _. length before.new + length after.new < length before.old + length after.old) }
    ensures before { IsStrictlySortedBy (slice_cmp nat_cmp) (keys_of before.new) }
    ensures after { IsStrictlySortedBy (slice_cmp nat_cmp) (keys_of after.new) }
{
    let pair = take_least(before, after)?;
    Some(CellPair {
        name: pair.name,
        before: or_empty(layers, pair.before),
        after: or_empty(layers, pair.after),
    })
}

/// Puts what has changed in a cell that both layouts have, below its name if that is anything.
fn put_both<'a, K: Sink>(
    sink: &mut K,
    notation: &Notation,
    name: &Name,
    mut before: Side<'a>,
    mut after: Side<'a>,
) -> Result<(), SinkFault>
    requires before { IsStrictlySortedBy element_cmp (keys_of before) }
    requires after { IsStrictlySortedBy element_cmp (keys_of after) }
    ensures { Writes K.given K.failures sink.old (below_name notation.now.syntax true true name.now (held_changes notation.now name.now before.entry after.entry)) result sink.new }
{
    let Some(first) = next_change(&mut before, &mut after) else {
        return Ok(());
    };
    put_place_entry(sink, notation.syntax, name)?;
    put_change(sink, notation, name, first)?;
    put_changes(sink, notation, name, before, after)
}

/// Puts what has changed in a cell; its elements are given where it is there.
fn put_cell<'a, K: Sink>(
    sink: &mut K,
    notation: &Notation,
    name: &Name,
    before: Option<ChosenElements<'a>>,
    after: Option<ChosenElements<'a>>,
) -> Result<(), SinkFault>
    requires before { IfSome before IsTally }
    requires after { IfSome after IsTally }
    ensures { Writes K.given K.failures sink.old (held_cell notation.now (name.now, (before.entry, after.entry))) result sink.new }
{
    let there = (before.is_some(), after.is_some());
    let before = Side::new(before);
    let after = Side::new(after);
    match there {
        (true, true) => put_both(sink, notation, name, before, after),
        (true, false) => {
            put_cell_entry(sink, notation.syntax, b'-', name)?;
            put_changes(sink, notation, name, before, after)
        }
        (false, true) => {
            put_cell_entry(sink, notation.syntax, b'+', name)?;
            put_changes(sink, notation, name, before, after)
        }
        (false, false) => Ok(()),
    }
}

/// Puts what has changed in a cell, in that detail.
fn put_cell_by<'a, K: Sink>(
    sink: &mut K,
    name: &Name,
    before: Option<ChosenElements<'a>>,
    after: Option<ChosenElements<'a>>,
    detail: Detail,
    notation: &Notation,
) -> Result<(), SinkFault>
    requires before { IfSome before IsTally }
    requires after { IfSome after IsTally }
    ensures { Writes K.given K.failures sink.old (held_by detail notation.now (name.now, (before.entry, after.entry))) result sink.new }
{
    match detail {
        Detail::Elements => put_cell(sink, notation, name, before, after),
        Detail::Counts => put_brief_cell(sink, notation.syntax, name, before, after),
    }
}

/// Puts what has changed in each cell.
pub(crate) fn put_cells<'a, K: Sink>(
    sink: &mut K,
    mut before: ChosenCells<'a>,
    mut after: ChosenCells<'a>,
    layers: Option<&[ChosenLayer]>,
    detail: Detail,
    notation: &Notation,
) -> Result<(), SinkFault>
    requires before { IsStrictlySortedBy (slice_cmp nat_cmp) (keys_of before) }
    requires after { IsStrictlySortedBy (slice_cmp nat_cmp) (keys_of after) }
    ensures { Writes K.given K.failures sink.old (held_lines layers.entry detail notation.now before.entry after.entry) result sink.new }
{
    while let Some(pair) = next_cell(&mut before, &mut after, layers) {
        put_cell_by(sink, pair.name, pair.before, pair.after, detail, notation)?;
    }
    Ok(())
}

//! The names of cells: those that are placed, those that are defined, and the differences.

ghost use Rattle.std.specs.Prelude.{◌≡◌, ◌&&◌, ◌<◌, true, not, None, Some, length, MatchOption, OnOk, IfOk};
ghost use Rattle.oas_num.specs.Texts.{IsName};
ghost use Rattle.oas_elements.specs.Bag.{items, IsTally};
ghost use Rattle.oas_elements.specs.Contents.{meaning_of};
ghost use Rattle.oas_info.specs.Names.{has_name, is_named, placed_by, is_placed_in, is_placed, is_defined, is_undefined, is_unplaced, Adds, HasNames, AreNames};

use oas_num::Name;
use oas_writing::{Elements, KeyedElement, Layout, ShownElement, show};
use std::alloc::{AllocError, Global};
use std::collections::BTreeSet;

/// Adds a name.
fn add_name(alloc: Global, names: &mut BTreeSet<Name>, name: &[u8]) -> Result<(), AllocError>
    requires { IsName name.now }
    ensures { OnOk result (Adds (is_named name.now) names.old.keys names.new.keys) }
{
    names.insert(Name::of(alloc, name)?)?;
    Ok(())
}

/// Adds a name, if it isn't that before it, which is there already.
fn add_next(
    alloc: Global,
    names: &mut BTreeSet<Name>,
    before: &[u8],
    name: &[u8],
) -> Result<(), AllocError>
    requires name { IsName name.now }
    requires before { 0 < length before.now → has_name names.old.keys before.now ≡ true }
    ensures { OnOk result (Adds (is_named name.now) names.old.keys names.new.keys) }
{
    if name == before {
        return Ok(());
    }
    add_name(alloc, names, name)
}

/// The name of the cell that an element places, if it places one, in the element's key.
fn placed<'a>(element: &KeyedElement<'a>) -> Option<&'a [u8]>
    ensures { MatchOption result (placed_by element.now ≡ None) (λ cell. (placed_by element.now ≡ Some cell.now) × IsName cell.now) }
{
    match show(element) {
        ShownElement::Placement { cell, .. } => Some(cell),
        _ => None,
    }
}

/// Adds the names that elements place. Placements are the first of them, and those of a cell follow one another.
fn add_placed(
    alloc: Global,
    names: &mut BTreeSet<Name>,
    elements: Elements<'_>,
) -> Result<(), AllocError>
    requires { IsTally elements }
    ensures { OnOk result (Adds (is_placed_in (items elements.entry)) names.old.keys names.new.keys) }
{
    let mut before: &[u8] = &[];
    for (element, _) in elements {
        let Some(cell) = placed(&element) else {
            return Ok(());
        };
        add_next(alloc, names, before, cell)?;
        before = cell;
    }
    Ok(())
}

/// The names that the elements of a layout place.
fn placed_names(alloc: Global, layout: &Layout) -> Result<BTreeSet<Name>, AllocError>
    ensures { IfOk result (λ names. HasNames (is_placed (meaning_of layout.now)) names.keys) }
{
    let mut names = BTreeSet::new(alloc);
    for (_, elements) in layout.cells() {
        add_placed(alloc, &mut names, elements)?;
    }
    Ok(names)
}

/// The names of a layout's cells.
fn defined_names(alloc: Global, layout: &Layout) -> Result<BTreeSet<Name>, AllocError>
    ensures { IfOk result (λ names. HasNames (is_defined (meaning_of layout.now)) names.keys) }
{
    let mut names = BTreeSet::new(alloc);
    for (name, _) in layout.cells() {
        add_name(alloc, &mut names, name.as_bytes())?;
    }
    Ok(names)
}

/// The names, ascending, that aren't among others.
fn missing(
    alloc: Global,
    names: &BTreeSet<Name>,
    others: &BTreeSet<Name>,
) -> Result<Vec<Name>, AllocError>
    ensures { IfOk result (λ list. AreNames (λ name. has_name names.now.keys name && not (has_name others.now.keys name)) list.items) }
{
    let mut list = Vec::new(alloc);
    for name in names.difference(others) {
        list.push(name.try_clone(alloc)?)?;
    }
    Ok(list)
}

/// The names of cells that one side has and the other lacks, ascending.
#[derive(Drop)]
pub(crate) struct Unmatched {
    /// Those that are placed, and not defined.
    pub(crate) undefined: Vec<Name>,
    /// Those that are defined, and not placed.
    pub(crate) unplaced: Vec<Name>,
}

/// The names that are placed and not defined, and those that are defined and not placed. It goes over the distinct
/// placements once, and allocates for the names.
pub(crate) fn unmatched_names(alloc: Global, layout: &Layout) -> Result<Unmatched, AllocError>
    ensures undefined { IfOk result (λ names. AreNames (is_undefined (meaning_of layout.now)) names.undefined.items) }
    ensures unplaced { IfOk result (λ names. AreNames (is_unplaced (meaning_of layout.now)) names.unplaced.items) }
{
    let placed = placed_names(alloc, layout)?;
    let defined = defined_names(alloc, layout)?;
    Ok(Unmatched {
        undefined: missing(alloc, &placed, &defined)?,
        unplaced: missing(alloc, &defined, &placed)?,
    })
}

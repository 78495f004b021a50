//! What a record may be in a canonical file, from the record alone.
ghost use Rattle.std.specs.Prelude.{◌≡◌, ◌↔◌, true, IsTrue, IfOk};
ghost use Rattle.oas_record.specs.declared.records.Record.TheVariants.{Cell as OneCell};
ghost use Rattle.oas_elements.specs.declared.profile.Profile.{Profile as OneProfile};
ghost use Rattle.oas_elements.specs.Grid.{points_fit};
ghost use Rattle.oas_judge.specs.Candidates.{IsCandidate, IsFitting, IsKeptFit, IsDrawable, IsShort};

use crate::own::own_element;
use oas_elements::{Element, Profile};
use oas_num::Name;
use oas_record::{CellRef, Record};
use std::alloc::{AllocError, Global};

/// The largest weight of an element, and length of a name, that any limits allow.
pub(crate) const HEAVIEST: u64 = 1 << 30;

/// What a record may be in a canonical file.
#[derive(Drop)]
pub(crate) enum Candidate {
    /// A CELL by its name.
    Cell(Name),
    /// A record that draws an element; this is the form in which the profile keeps it.
    Element(Element),
    /// No canonical file has such a record.
    Other,
}

/// Whether any limits allow a name this long.
fn is_short(name: &Name) -> bool
    ensures { IsTrue result ↔ IsShort name.now }
{
    name.as_bytes().len() as u64 <= HEAVIEST
}

/// Whether an element has its points, is within the grid, and weighs no more than any limits allow.
#[inline(always)]
pub(crate) fn is_drawable(element: &Element) -> bool
    ensures { IsTrue result ↔ IsDrawable element.now }
{
    !element.lacks_points() && element.fits_grid() && element.weight() <= HEAVIEST
}

/// The same where its points are known to be within the grid.
#[inline(always)]
pub(crate) fn is_drawable_figure(element: &Element) -> bool
    requires { points_fit element.now ≡ true }
    ensures { IsTrue result ↔ IsDrawable element.now }
{
    !element.lacks_points() && element.fits_beside_points() && element.weight() <= HEAVIEST
}

/// A CELL, where it is by a name.
fn cell_candidate(alloc: Global, cell: &CellRef) -> Result<Candidate, AllocError>
    ensures is { IfOk result (λ candidate. (profile : OneProfile) → IsCandidate profile candidate (OneCell cell.now)) }
    ensures fit { IfOk result IsFitting }
{
    let CellRef::Name(name) = cell else {
        return Ok(Candidate::Other);
    };
    if !is_short(name) {
        return Ok(Candidate::Other);
    }
    let name = name.try_clone(alloc)?;
    Ok(Candidate::Cell(name))
}

/// The form in which the profile keeps an element, where an accepted file may have it.
fn kept_candidate(
    alloc: Global,
    profile: Profile,
    own: Element,
) -> Result<Option<Element>, AllocError>
    ensures { IfOk result (λ kept. IsKeptFit profile own kept) }
{
    if own.lacks_points() {
        return Ok(None);
    }
    let kept = match own.kept_form(alloc, profile)? {
        Some(kept) => kept,
        None => own,
    };
    if is_drawable(&kept) {
        Ok(Some(kept))
    } else {
        Ok(None)
    }
}

/// What a record may be in a file that is canonical by a profile.
pub(crate) fn candidate_of(
    alloc: Global,
    profile: Profile,
    next: &Record,
) -> Result<Candidate, AllocError>
    ensures is { IfOk result (λ candidate. IsCandidate profile candidate next.now) }
    ensures fit { IfOk result IsFitting }
{
    if let Record::Cell(cell) = next {
        return cell_candidate(alloc, cell);
    }
    let Some(own) = own_element(alloc, next)? else {
        return Ok(Candidate::Other);
    };
    match kept_candidate(alloc, profile, own)? {
        Some(kept) => Ok(Candidate::Element(kept)),
        None => Ok(Candidate::Other),
    }
}

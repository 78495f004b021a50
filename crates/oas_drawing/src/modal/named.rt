//! A placement or a text without a repetition at hand, by the modal variables.
ghost use Rattle.std.specs.Prelude.{◌≡◌, ◌≤◌, ◌<◌, ◌+◌, nat_lt, not, [], ◌∷◌, true, false, None, Some, IfSome, IfErr, OnOk};
ghost use Rattle.std.specs.Option.{option_or};
ghost use Rattle.oas_shape.specs.Steps.{still};
ghost use Rattle.oas_num.specs.declared.refusals.Why.TheVariants.{TooManyElements, TooHeavy, CoordinateRange};
ghost use Rattle.oas_peek.specs.Named.{HasValidName, HasValidCell, HasValidString, cell_given, string_given, named_record};
ghost use Rattle.oas_drawing.specs.Positions.{IsNear};
ghost use Rattle.oas_drawing.specs.Modal.{stepped};
ghost use Rattle.oas_drawing.specs.Drawing.{drawn_by, place_of};
ghost use Rattle.oas_drawing.specs.Reasons.{fault_of, first_of, is_on_grid, kind_reason, reason_if};
ghost use Rattle.oas_drawing.specs.Named.{named_by, named_kind, drawn_once, cell_weight, string_weight};

use super::drawing::coordinate;
use super::{ModalVariables, set};
use crate::once::DrawnOnce;
use crate::positions::Position;
use crate::turning::turned;
use oas_elements::Limits;
use oas_num::{Label, Name, Why};
use oas_peek::{Given, NamedOnce};
use oas_record::{CellRef, TextRef, Turn};
use std::alloc::{AllocError, Global};

/// The weight of a placement with the cell that it gives, or else the modal one; None where there is neither.
#[inline(always)]
fn weight_placed(given: &Given<'_>, modal: &Option<CellRef>) -> Option<u64>
    ensures { result ≡ cell_weight (option_or (cell_given given.now) modal.now) }
{
    match given {
        Given::Bytes(name) => Some(1 + name.len() as u64),
        Given::Number(_) => Some(1),
        Given::Modal => match modal.as_ref()? {
            CellRef::Number(_) => Some(1),
            CellRef::Name(name) => Some(1 + name.as_bytes().len() as u64),
        },
    }
}

/// The weight of a text with the string that it gives, or else the modal one; None where there is neither.
#[inline(always)]
fn weight_written(given: &Given<'_>, modal: &Option<TextRef>) -> Option<u64>
    ensures { result ≡ string_weight (option_or (string_given given.now) modal.now) }
{
    match given {
        Given::Bytes(string) => Some(1 + string.len() as u64),
        Given::Number(_) => Some(1),
        Given::Modal => match modal.as_ref()? {
            TextRef::Number(_) => Some(1),
            TextRef::Label(label) => Some(1 + label.as_bytes().len() as u64),
        },
    }
}

/// Refuses one more element with this weight and position, with `TooManyElements`, `TooHeavy` and `CoordinateRange`, in this
/// order. Before it there are `count` elements with weight `weight`.
#[inline(always)]
fn check_once(one: u64, at: Position, limits: Limits, count: u64, weight: u64) -> Result<(), Why>
    requires few { count ≤ limits.elements }
    requires light { weight ≤ limits.weight }
    ensures ok { OnOk result ((count < limits.elements) × (weight + one ≤ limits.weight) × (is_on_grid at ≡ true)) }
    ensures err { IfErr result (λ why. first_of ((nat_lt limits.elements (count + 1), TooManyElements) ∷ (nat_lt limits.weight (weight + one), TooHeavy) ∷ (not (is_on_grid at), CoordinateRange) ∷ []) ≡ Some why) }
{
    if limits.elements() - count < 1 {
        return Err(Why::TooManyElements);
    }
    if limits.weight() - weight < one {
        return Err(Why::TooHeavy);
    }
    if coordinate(at.x).is_none() || coordinate(at.y).is_none() {
        return Err(Why::CoordinateRange);
    }
    Ok(())
}

impl ModalVariables {
    /// What a placement or a text sets, except its name.
    #[inline(always)]
    pub fn set_fields(&mut self, next: &NamedOnce<'_>)
        requires placement { IsNear self.old.placement }
        requires text { IsNear self.old.text }
        ensures { named_by self.new next.now ≡ stepped self.old (named_record next.now) }
    {
        match next {
            NamedOnce::Placement { x, y, .. } => {
                self.placement = self.placement.moved_to(self.relative, *x, *y);
            }
            NamedOnce::Text {
                textlayer,
                texttype,
                x,
                y,
                ..
            } => {
                set(&mut self.textlayer, *textlayer);
                set(&mut self.texttype, *texttype);
                self.text = self.text.moved_to(self.relative, *x, *y);
            }
        }
    }

    /// Refuses a placement or a text whose other fields are set, with `ModalUndefined`, `TooManyElements`, `TooHeavy` and
    /// `CoordinateRange`, in this order. Before it there are `count` elements with weight `weight`.
    #[inline(always)]
    pub fn check_named(
        &self,
        next: &NamedOnce<'_>,
        limits: Limits,
        count: u64,
        weight: u64,
    ) -> Result<(), Why>
        requires few { count ≤ limits.elements }
        requires light { weight ≤ limits.weight }
        ensures reason { OnOk result (kind_reason limits count weight (named_by self.now next.now) (named_kind next.now) false ≡ None) }
        ensures fits { OnOk result (fault_of (drawn_by (named_by self.now next.now) (named_kind next.now) still) ≡ None) }
        ensures err { IfErr result (λ why. reason_if limits count weight (named_by self.now next.now) (Some (named_kind next.now)) false ≡ Some why) }
    {
        match next {
            NamedOnce::Placement { cell, .. } => {
                let Some(one) = weight_placed(cell, &self.cell) else {
                    return Err(Why::ModalUndefined);
                };
                check_once(one, self.placement, limits, count, weight)
            }
            NamedOnce::Text { string, .. } => {
                let (Some(one), Some(_), Some(_)) = (
                    weight_written(string, &self.string),
                    self.textlayer,
                    self.texttype,
                ) else {
                    return Err(Why::ModalUndefined);
                };
                check_once(one, self.text, limits, count, weight)
            }
        }
    }

    /// Makes the name that a placement or a text gives the modal one, in the memory of that one where it is enough.
    #[inline(always)]
    pub fn set_name(&mut self, alloc: Global, next: &NamedOnce<'_>) -> Result<(), AllocError>
        requires { HasValidName next.now }
        ensures { OnOk result (self.new ≡ named_by self.old next.now) }
    {
        match next {
            NamedOnce::Placement { cell, .. } => set_cell(alloc, &mut self.cell, cell),
            NamedOnce::Text { string, .. } => set_string(alloc, &mut self.string, string),
        }
    }

    /// What such a record draws, by the modal variables after it; None only where one that it needs is undefined, or it is
    /// outside the grid.
    #[inline(always)]
    pub fn one_named(&self, next: &NamedOnce<'_>) -> Option<DrawnOnce<'_>>
        ensures some { IfSome result (λ d. drawn_by self.now (named_kind next.now) still ≡ Some (drawn_once d)) }
        ensures near { IfSome result (λ _. IsNear (place_of self.now (named_kind next.now))) }
        ensures none { result ≡ None → fault_of (drawn_by self.now (named_kind next.now) still) ≡ None → ⊥ }
    {
        match next {
            NamedOnce::Placement { quarters, flip, .. } => Some(DrawnOnce::Placement {
                cell: self.cell.as_ref()?,
                x: coordinate(self.placement.x)?,
                y: coordinate(self.placement.y)?,
                turns: turned(Turn::Quarters(*quarters)),
                flip: *flip,
            }),
            NamedOnce::Text { .. } => Some(DrawnOnce::Text {
                string: self.string.as_ref()?,
                textlayer: self.textlayer?,
                texttype: self.texttype?,
                x: coordinate(self.text.x)?,
                y: coordinate(self.text.y)?,
            }),
        }
    }
}

/// Makes the cell that is given, if one is, the modal one.
#[inline(always)]
fn set_cell(alloc: Global, modal: &mut Option<CellRef>, given: &Given<'_>) -> Result<(), AllocError>
    requires { HasValidCell given.now }
    ensures { OnOk result (modal.new ≡ option_or (cell_given given.now) modal.old) }
{
    match given {
        Given::Modal => {}
        Given::Number(number) => *modal = Some(CellRef::Number(*number)),
        Given::Bytes(bytes) => match modal {
            Some(CellRef::Name(name)) => name.assign(bytes)?,
            _ => *modal = Some(CellRef::Name(Name::of(alloc, bytes)?)),
        },
    }
    Ok(())
}

/// Makes the string that is given, if one is, the modal one.
#[inline(always)]
fn set_string(
    alloc: Global,
    modal: &mut Option<TextRef>,
    given: &Given<'_>,
) -> Result<(), AllocError>
    requires { HasValidString given.now }
    ensures { OnOk result (modal.new ≡ option_or (string_given given.now) modal.old) }
{
    match given {
        Given::Modal => {}
        Given::Number(number) => *modal = Some(TextRef::Number(*number)),
        Given::Bytes(bytes) => match modal {
            Some(TextRef::Label(label)) => label.assign(bytes)?,
            _ => *modal = Some(TextRef::Label(Label::of(alloc, bytes)?)),
        },
    }
    Ok(())
}

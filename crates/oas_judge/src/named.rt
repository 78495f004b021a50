//! A placement or a text that is at hand, in the cell that is judged.
ghost use Rattle.std.specs.Prelude.{◌≡◌, true, false, List, ℕ, Some, IfSome};
ghost use Rattle.oas_num.specs.Texts.{IsName, IsLabel};
ghost use Rattle.oas_peek.specs.Named.{HasValidName};
ghost use Rattle.oas_elements.specs.Element.{turn_count};
ghost use Rattle.oas_elements.specs.Grid.{is_coordinate};
ghost use Rattle.oas_elements.specs.declared.element.Element.{Element as OneElement};
ghost use Rattle.oas_elements.specs.declared.element.Element.TheVariants.{Placement, Text};
ghost use Rattle.oas_writing.specs.Bytes.{element_bytes};
ghost use Rattle.oas_writing.specs.Judging.{GoesOnDrawing};
ghost use Rattle.oas_judge.specs.Peeked.{IsNamedBy};

use crate::candidates::HEAVIEST;
use crate::own::FURTHEST;
use oas_elements::{Element, Turns};
use oas_num::{Label, Name};
use oas_peek::{Given, NamedOnce};
use oas_writing::FormJudge;
use std::alloc::Global;

/// This many quarter turns, below four.
#[inline(always)]
fn turns_by(quarters: u8) -> Option<Turns>
    ensures { IfSome result (λ turns. turn_count turns ≡ quarters) }
{
    match quarters {
        0 => Some(Turns::T0),
        1 => Some(Turns::T1),
        2 => Some(Turns::T2),
        3 => Some(Turns::T3),
        _ => None,
    }
}

/// A place that is given, where it is within the grid.
#[inline(always)]
fn place_given(x: Option<i64>, y: Option<i64>) -> Option<(i64, i64)>
    ensures { IfSome result (λ at. (x ≡ Some at.0) × (y ≡ Some at.1) × (is_coordinate at.0 ≡ true) × (is_coordinate at.1 ≡ true)) }
{
    let (x, y) = (x?, y?);
    if x < -FURTHEST || x > FURTHEST || y < -FURTHEST || y > FURTHEST {
        return None;
    }
    Some((x, y))
}

/// Judges a placement of the cell with this name, where its canonical bytes were read. Returns false, and does nothing, if out
/// of memory.
///
/// It is for the first one of a cell, and is not inlined: the others use the memory of the one before.
#[inline(never)]
fn place_first(
    alloc: Global,
    form: &mut FormJudge,
    name: &[u8],
    at: (i64, i64),
    turns: Turns,
    flip: bool,
) -> bool
    requires { IsName name.now }
    ensures no { result ≡ false → form.new ≡ form.old }
    ensures yes { result ≡ true → (bytes : List ℕ) → element_bytes (Placement name.now at.0 at.1 turns flip) ≡ bytes → GoesOnDrawing form.old (Placement name.now at.0 at.1 turns flip) bytes form.new }
{
    let Ok(cell) = Name::of(alloc, name) else {
        return false;
    };
    form.draw_spelled(Element::Placement {
        cell,
        x: at.0,
        y: at.1,
        turns,
        flip,
    });
    true
}

/// The same of a text with this string.
#[inline(never)]
fn write_first(
    alloc: Global,
    form: &mut FormJudge,
    string: &[u8],
    layers: (u64, u64),
    at: (i64, i64),
) -> bool
    requires { IsLabel string.now }
    ensures no { result ≡ false → form.new ≡ form.old }
    ensures yes { result ≡ true → (bytes : List ℕ) → element_bytes (Text string.now layers.0 layers.1 at.0 at.1) ≡ bytes → GoesOnDrawing form.old (Text string.now layers.0 layers.1 at.0 at.1) bytes form.new }
{
    let Ok(label) = Label::of(alloc, string) else {
        return false;
    };
    form.draw_spelled(Element::Text {
        string: label,
        textlayer: layers.0,
        texttype: layers.1,
        x: at.0,
        y: at.1,
    });
    true
}

/// The same of any placement.
#[inline(always)]
fn place(
    alloc: Global,
    form: &mut FormJudge,
    name: &[u8],
    at: (i64, i64),
    turns: Turns,
    flip: bool,
) -> bool
    requires { IsName name.now }
    ensures no { result ≡ false → form.new ≡ form.old }
    ensures yes { result ≡ true → (bytes : List ℕ) → element_bytes (Placement name.now at.0 at.1 turns flip) ≡ bytes → GoesOnDrawing form.old (Placement name.now at.0 at.1 turns flip) bytes form.new }
{
    if form.place_next(name, at, turns, flip) {
        return true;
    }
    place_first(alloc, form, name, at, turns, flip)
}

/// The same of any text.
#[inline(always)]
fn write(
    alloc: Global,
    form: &mut FormJudge,
    string: &[u8],
    layers: (u64, u64),
    at: (i64, i64),
) -> bool
    requires { IsLabel string.now }
    ensures no { result ≡ false → form.new ≡ form.old }
    ensures yes { result ≡ true → (bytes : List ℕ) → element_bytes (Text string.now layers.0 layers.1 at.0 at.1) ≡ bytes → GoesOnDrawing form.old (Text string.now layers.0 layers.1 at.0 at.1) bytes form.new }
{
    if form.write_next(string, layers, at) {
        return true;
    }
    write_first(alloc, form, string, layers, at)
}

/// Judges the element that such a record gives by its own fields, where its canonical bytes were read. Returns false, and
/// does nothing, where the record gives no such element, or if out of memory.
#[inline(always)]
pub(crate) fn draw_named(alloc: Global, form: &mut FormJudge, next: &NamedOnce<'_>) -> bool
    requires { HasValidName next.now }
    ensures no { result ≡ false → form.new ≡ form.old }
    ensures yes { result ≡ true → (e : OneElement) × IsNamedBy next.now e × ((bytes : List ℕ) → element_bytes e ≡ bytes → GoesOnDrawing form.old e bytes form.new) }
{
    match next {
        NamedOnce::Placement {
            cell: Given::Bytes(name),
            quarters,
            flip,
            x,
            y,
        } => {
            let (Some(turns), Some(at)) = (turns_by(*quarters), place_given(*x, *y)) else {
                return false;
            };
            (name.len() as u64) < HEAVIEST && place(alloc, form, name, at, turns, *flip)
        }
        NamedOnce::Text {
            string: Given::Bytes(string),
            textlayer: Some(textlayer),
            texttype: Some(texttype),
            x,
            y,
        } => {
            let Some(at) = place_given(*x, *y) else {
                return false;
            };
            (string.len() as u64) < HEAVIEST
                && write(alloc, form, string, (*textlayer, *texttype), at)
        }
        _ => false,
    }
}

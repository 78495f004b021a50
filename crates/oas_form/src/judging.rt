//! Judges a file record by record, without keeping a layout.
ghost use Rattle.std.specs.Prelude.{◌≡◌, List, ℕ, ◌≤◌, ◌^◌, length, true, false, [], IsTrue, ◌↔◌};
ghost use Rattle.std.specs.Ordering.{is_gt};
ghost use Rattle.oas_record.specs.declared.records.Record.TheVariants.{Cell};
ghost use Rattle.oas_record.specs.declared.references.CellRef.TheVariants.{Name as ByName};
ghost use Rattle.oas_num.specs.Texts.{IsName, IsLabel};
ghost use Rattle.oas_elements.specs.declared.element.Element.TheVariants.{Placement, Text};
ghost use Rattle.oas_elements.specs.declared.profile.Profile.{Profile};
ghost use Rattle.oas_elements.specs.Sound.{IsSound};
ghost use Rattle.oas_elements.specs.Grid.{fits_grid};
ghost use Rattle.oas_elements.specs.Weight.{weight_of, lacks_points};
ghost use Rattle.oas_form.specs.Bytes.{opening_bytes, element_bytes, head_bytes, end_bytes};
ghost use Rattle.oas_form.specs.Judging.{IsAbove, IsNotBelow, Stands, GoesOn, GoesOnDrawing, GoesOnRefusing};

use crate::comparing::Comparer;
use crate::elements::put_element;
use crate::following::{element_order, place_over, placement_order, text_order, write_over};
use crate::frames::{put_end, put_head, put_opening};
use oas_elements::{Element, Turns};
use oas_num::{Fraction, Name};
use std::cmp::Ordering;

/// Whether a name is above that of the cell before it.
fn is_above(before: &Option<Name>, name: &Name) -> bool
    ensures { IsTrue result ↔ IsAbove before.now name.now }
{
    match before {
        None => true,
        Some(before) => before < name,
    }
}

/// Whether an element isn't below the one before it.
#[inline(always)]
fn is_not_below(before: &Option<Element>, element: &Element) -> bool
    ensures { IsTrue result ↔ IsNotBelow before.now element.now }
{
    match before {
        None => true,
        Some(before) => !element_order(before, element).is_gt(),
    }
}

/// Whether these are the canonical bytes of an element.
fn is_spelled(element: &Element, bytes: &[u8]) -> bool
    requires sound { IsSound element.now }
    requires light { weight_of element.now ≤ 2 ^ 30 }
    ensures { IsTrue result ↔ (element_bytes element.now ≡ bytes.now) }
{
    let mut comparer = Comparer::new(bytes);
    let _ = put_element(&mut comparer, element);
    comparer.is_done()
}

/// Whether these are the canonical bytes of a CELL.
fn is_opening(name: &Name, bytes: &[u8]) -> bool
    requires { length name.now ≤ 2 ^ 30 }
    ensures { IsTrue result ↔ (opening_bytes name.now ≡ bytes.now) }
{
    let mut comparer = Comparer::new(bytes);
    let _ = put_opening(&mut comparer, name.as_bytes());
    comparer.is_done()
}

/// Whether these are the canonical bytes of the magic and START.
pub fn is_head(unit: Fraction, bytes: &[u8]) -> bool
    ensures { IsTrue result ↔ (head_bytes unit ≡ bytes.now) }
{
    let mut comparer = Comparer::new(bytes);
    let _ = put_head(&mut comparer, unit.num(), unit.den());
    comparer.is_done()
}

/// Whether these are the canonical bytes of END.
pub fn is_end(bytes: &[u8]) -> bool
    ensures { IsTrue result ↔ (end_bytes ≡ bytes.now) }
{
    let mut comparer = Comparer::new(bytes);
    let _ = put_end(&mut comparer);
    comparer.is_done()
}

/// What is kept of a file while it is judged: whether it can be canonical so far, the name of the open cell, and the latest
/// element in it.
#[derive(Drop)]
pub struct FormJudge {
    holds: bool,
    name: Option<Name>,
    element: Option<Element>,
}

impl FormJudge {
    /// A judge of no records.
    pub fn new() -> FormJudge
        ensures { (profile : Profile) → Stands profile result [] }
    {
        FormJudge {
            holds: true,
            name: None,
            element: None,
        }
    }

    /// Whether all records so far were as in a canonical file.
    pub fn holds(&self) -> bool
        ensures { result ≡ self.now.holds }
    {
        self.holds
    }

    /// Judges a CELL by its name; these are the bytes that were read.
    pub fn open(&mut self, name: Name, bytes: &[u8])
        requires { length name ≤ 2 ^ 30 }
        ensures { GoesOn self.old (Cell (ByName name), bytes.now) self.new }
    {
        self.holds = self.may_open(&name, bytes);
        self.name = Some(name);
        self.element = None;
    }

    /// Judges a record that draws one element, from its kept form and the bytes that were read.
    pub fn draw(&mut self, element: Element, bytes: &[u8])
        requires points { lacks_points element ≡ false }
        requires inside { fits_grid element ≡ true }
        requires light { weight_of element ≤ 2 ^ 30 }
        ensures { GoesOnDrawing self.old element bytes.now self.new }
    {
        element.fits();
        self.holds = self.may_draw(&element, bytes);
        self.element = Some(element);
    }

    /// Judges a record that draws one element, from its kept form, where its canonical bytes were read.
    #[inline(always)]
    pub fn draw_spelled(&mut self, element: Element)
        ensures { (bytes : List ℕ) → element_bytes element ≡ bytes → GoesOnDrawing self.old element bytes self.new }
    {
        self.holds = self.may_follow(&element);
        self.element = Some(element);
    }

    /// Judges a placement of the cell with this name, if the bytes of its record are the canonical ones. It returns false,
    /// and does nothing, where the latest element is no placement, or if out of memory.
    #[inline(always)]
    pub fn place_next(&mut self, name: &[u8], at: (i64, i64), turns: Turns, flip: bool) -> bool
        requires { IsName name.now }
        ensures no { result ≡ false → self.new ≡ self.old }
        ensures yes { result ≡ true → (bytes : List ℕ) → element_bytes (Placement name.now at.0 at.1 turns flip) ≡ bytes → GoesOnDrawing self.old (Placement name.now at.0 at.1 turns flip) bytes self.new }
    {
        let Some(last) = &self.element else {
            return false;
        };
        let Some(order) = placement_order(last, name, at, turns, flip) else {
            return false;
        };
        let Some(last) = self.element.take() else {
            return false;
        };
        let (next, made) = place_over(last, name, at, turns, flip);
        self.element = Some(next);
        if made {
            self.holds = self.may_go_on(order);
        }
        made
    }

    /// Judges a text with this string, if the bytes of its record are the canonical ones. It returns false, and does nothing,
    /// where the latest element is no text, or if out of memory.
    #[inline(always)]
    pub fn write_next(&mut self, string: &[u8], layers: (u64, u64), at: (i64, i64)) -> bool
        requires { IsLabel string.now }
        ensures no { result ≡ false → self.new ≡ self.old }
        ensures yes { result ≡ true → (bytes : List ℕ) → element_bytes (Text string.now layers.0 layers.1 at.0 at.1) ≡ bytes → GoesOnDrawing self.old (Text string.now layers.0 layers.1 at.0 at.1) bytes self.new }
    {
        let Some(last) = &self.element else {
            return false;
        };
        let Some(order) = text_order(last, string, layers, at) else {
            return false;
        };
        let Some(last) = self.element.take() else {
            return false;
        };
        let (next, made) = write_over(last, string, layers, at);
        self.element = Some(next);
        if made {
            self.holds = self.may_go_on(order);
        }
        made
    }

    /// Judges a record that no canonical file has there.
    pub fn refuse(&mut self)
        ensures { GoesOnRefusing self.old self.new }
    {
        self.holds = false;
    }

    /// Whether a canonical file may have this CELL next, with these bytes.
    fn may_open(&self, name: &Name, bytes: &[u8]) -> bool
        requires { length name.now ≤ 2 ^ 30 }
        ensures { IsTrue result ↔ (IsTrue self.now.holds × (opening_bytes name.now ≡ bytes.now) × IsAbove self.now.name name.now) }
    {
        self.holds && is_opening(name, bytes) && is_above(&self.name, name)
    }

    /// Whether a canonical file may have an element next, given how it compares with the latest one, if it is spelled
    /// canonically.
    #[inline(always)]
    fn may_go_on(&self, order: Ordering) -> bool
        ensures { IsTrue result ↔ (IsTrue self.now.holds × (is_gt order ≡ false)) }
    {
        self.holds && !order.is_gt()
    }

    /// Whether a canonical file may have this element next, if it is spelled canonically.
    #[inline(always)]
    fn may_follow(&self, element: &Element) -> bool
        ensures { IsTrue result ↔ (IsTrue self.now.holds × IsNotBelow self.now.element element.now) }
    {
        self.holds && is_not_below(&self.element, element)
    }

    /// Whether a canonical file may have this element next, with these bytes.
    fn may_draw(&self, element: &Element, bytes: &[u8]) -> bool
        requires sound { IsSound element.now }
        requires light { weight_of element.now ≤ 2 ^ 30 }
        ensures { IsTrue result ↔ (IsTrue self.now.holds × (element_bytes element.now ≡ bytes.now) × IsNotBelow self.now.element element.now) }
    {
        self.holds && is_spelled(element, bytes) && is_not_below(&self.element, element)
    }
}

//! A layout under construction.

ghost use Rattle.std.specs.Prelude.{◌≡◌, ◌+◌, ◌*◌, ◌≤◌, ◌<◌, ◌⊎◌, length, None, Some, OnOk, OnErr, IfErr, IfOk};
ghost use Rattle.std.specs.Option.{SomeIff};
ghost use Rattle.oas_num.specs.declared.refusals.Why.TheVariants.{Memory};
ghost use Rattle.oas_elements.specs.Weight.{weight_of};
ghost use Rattle.oas_elements.specs.Contents.{nothing, with_cell, added, cell_refusal, refusal};

use crate::draft_cell::DraftCell;
use crate::refused::Refused;
use indexmap::IndexMap;
use oas_elements::{Element, Limits, Profile};
use oas_num::{Fraction, Name, Why};
use std::alloc::{AllocError, Global};
use std::marker::Model;

/// A layout under construction: a unit, limits and a profile, and cells in order of definition.
#[derive(Drop)]
pub struct Draft {
    pub(crate) unit: Fraction,
    pub(crate) limits: Limits,
    pub(crate) profile: Profile,
    pub(crate) cells: IndexMap<Name, DraftCell>,
    /// How many elements are held, equal ones each counted.
    pub(crate) count: u64,
    /// The weight of what was given: at least that of what is held.
    pub(crate) spelled: u64,
    pub(crate) alloc: Global,
}

impl Model for Draft {
    ghost use Rattle.oas_elements.specs.Contents.{Contents, IsCounted};

    ghost Value = { Contents };

    ghost view = { λ a. record { unit = a.unit; limits = a.limits; profile = a.profile; cells = a.cells.entries; spelled = a.spelled } };

    ghost invariant = { λ a. IsCounted a.limits a.profile a.cells.entries a.count a.spelled };
}

impl Draft {
    /// A draft without cells, with room for one; or out of memory.
    pub fn new(
        alloc: Global,
        unit: Fraction,
        limits: Limits,
        profile: Profile,
    ) -> Result<Draft, AllocError>
        ensures { IfOk result (λ d. d ≡ nothing unit limits profile) }
    {
        let cells = IndexMap::with_capacity(alloc, 1)?;
        Ok(Draft {
            unit,
            limits,
            profile,
            cells,
            count: 0,
            spelled: 0,
            alloc,
        })
    }

    /// How many cells there are.
    pub fn cell_count(&self) -> usize
        ensures { result ≡ length self.now.cells }
    {
        self.cells.len()
    }

    /// Adds a cell without elements, and returns how many cells come before it. `add` takes this number.
    ///
    /// It hands the name back, and the draft is unchanged, for the first of these that holds: there is a cell with that name
    /// (`DuplicateCell`), more weight than the limit (`TooHeavy`), out of memory (`Memory`).
    pub fn add_cell(&mut self, name: Name) -> Result<usize, Refused<Name>>
        ensures ok { IfOk result (λ i. (cell_refusal self.old name ≡ None) × (i ≡ length self.old.cells) × (self.new ≡ with_cell self.old name)) }
        ensures place { IfOk result (λ i. length self.new.cells ≡ i + 1) }
        ensures why { IfErr result (λ e. ((e.why ≡ Memory) × (cell_refusal self.old name ≡ None)) ⊎ (cell_refusal self.old name ≡ Some e.why)) }
        ensures back { IfErr result (λ e. e.value ≡ name) }
        ensures err { OnErr result (self.new ≡ self.old) }
    {
        if self.cells.contains_key(&name) {
            return Err(Refused {
                why: Why::DuplicateCell,
                value: name,
            });
        }
        let weight = name.as_bytes().len() as u64;
        if weight >= self.limits.weight() - self.spelled {
            return Err(Refused {
                why: Why::TooHeavy,
                value: name,
            });
        }
        let before = self.cell_count();
        let empty = DraftCell::new(self.alloc);
        if let Err(e) = self.cells.insert(name, empty) {
            return Err(Refused {
                why: Why::Memory,
                value: e.value.0,
            });
        }
        self.spelled += 1 + weight;
        Ok(before)
    }

    /// Adds an element to the cell at that place, or hands it back, as `add_many` does.
    pub fn add(&mut self, cell: usize, element: Element) -> Result<(), Refused<Element>>
        requires { cell < length self.old.cells }
        ensures ok { OnOk result ((refusal self.old element 1 ≡ None) × (self.new ≡ added self.old cell element 1)) }
        ensures cells { length self.new.cells ≡ length self.old.cells }
        ensures why { IfErr result (λ e. ((e.why ≡ Memory) × (refusal self.old element 1 ≡ None)) ⊎ (refusal self.old element 1 ≡ Some e.why)) }
        ensures back { IfErr result (λ e. e.value ≡ element) }
        ensures err { OnErr result (self.new ≡ self.old) }
    {
        self.add_many(cell, element, 1)
    }

    /// Adds this many equal elements to the cell at that place.
    ///
    /// It hands the element back, and the draft is unchanged, for the first of these that holds: too few points
    /// (`PointCount`), more elements or weight than the limits allow (`TooManyElements`, `TooHeavy`), a part outside the grid
    /// (`CoordinateRange`), out of memory (`Memory`).
    pub fn add_many(
        &mut self,
        cell: usize,
        element: Element,
        times: u64,
    ) -> Result<(), Refused<Element>>
        requires cell { cell < length self.old.cells }
        requires some { 0 < times }
        ensures ok { OnOk result ((refusal self.old element times ≡ None) × (self.new ≡ added self.old cell element times)) }
        ensures cells { length self.new.cells ≡ length self.old.cells }
        ensures why { IfErr result (λ e. ((e.why ≡ Memory) × (refusal self.old element times ≡ None)) ⊎ (refusal self.old element times ≡ Some e.why)) }
        ensures back { IfErr result (λ e. e.value ≡ element) }
        ensures err { OnErr result (self.new ≡ self.old) }
    {
        let spelled = match self.weigh(&element, times) {
            Ok(spelled) => spelled,
            Err(why) => {
                return Err(Refused {
                    why,
                    value: element,
                });
            }
        };
        if let Err(AllocError) = self.hold(cell, &element, times, spelled) {
            return Err(Refused {
                why: Why::Memory,
                value: element,
            });
        }
        Ok(())
    }

    /// The weight of this many equal elements as they are given, or why they are refused.
    fn weigh(&self, element: &Element, times: u64) -> Result<u64, Why>
        ensures ok { IfOk result (λ spelled. (refusal self.now element.now times ≡ None) × (spelled ≡ times * weight_of element.now)) }
        ensures why { IfErr result (λ why. refusal self.now element.now times ≡ Some why) }
    {
        if element.lacks_points() {
            return Err(Why::PointCount);
        }
        if times > self.limits.elements() - self.count {
            return Err(Why::TooManyElements);
        }
        let room = self.limits.weight() - self.spelled;
        let Some(spelled) = product_within(element.weight(), times, room) else {
            return Err(Why::TooHeavy);
        };
        if !element.fits_grid() {
            return Err(Why::CoordinateRange);
        }
        Ok(spelled)
    }

    /// Adds this many equal elements, which aren't refused and have this weight as they are given; or, if out of memory, none.
    fn hold(
        &mut self,
        cell: usize,
        element: &Element,
        times: u64,
        spelled: u64,
    ) -> Result<(), AllocError>
        requires cell { cell < length self.old.cells }
        requires some { 0 < times }
        requires taken { refusal self.old element.now times ≡ None }
        requires weight { spelled ≡ times * weight_of element.now }
        ensures ok { OnOk result (self.new ≡ added self.old cell element.now times) }
        ensures err { OnErr result (self.new ≡ self.old) }
    {
        self.cells[cell].add(self.profile, element, times)?;
        self.count += times;
        self.spelled += spelled;
        Ok(())
    }
}

/// The product, where it is at most the limit.
fn product_within(a: u64, b: u64, limit: u64) -> Option<u64>
    ensures { SomeIff result (a * b ≤ limit) (a * b) }
{
    let product = a.checked_mul(b)?;
    if product <= limit {
        Some(product)
    } else {
        None
    }
}

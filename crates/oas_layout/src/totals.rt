//! How many elements a layout has, and what it weighs.

ghost use Rattle.std.specs.Prelude.{◌≡◌, ◌<◌, ◌≤◌, ◌^◌, ◌-◌, min, length, sum_by};
ghost use Rattle.oas_elements.specs.Bag.{items};
ghost use Rattle.oas_elements.specs.Contents.{expanded};
ghost use Rattle.oas_elements.specs.Meaning.{element_count, cells_weight};
ghost use Rattle.oas_elements.specs.Weight.{weight_of};
ghost use Rattle.oas_layout.specs.Shown.{element_of};

use crate::cells::Cells;
use crate::elements::Elements;
use crate::layout::Layout;
use crate::showing::show;
use crate::shown::ShownElement;

impl Layout {
    /// How many elements there are, equal ones each counted. It goes through all distinct ones.
    pub fn count(&self) -> u64
        ensures count { result ≡ element_count (expanded self.now.cells) }
        ensures few { result ≤ self.now.limits.elements }
    {
        cells_count(self.cells())
    }

    /// The weight of the layout (own rule): one for each cell, the bytes of its name, and the weights of its elements
    /// ([`Element::weight`](oas_elements::Element::weight)). It goes through all distinct elements.
    pub fn weight(&self) -> u64
        ensures weight { result ≡ cells_weight (expanded self.now.cells) }
        ensures as_spelled { result ≡ self.now.spelled }
        ensures light { result ≤ self.now.limits.weight }
    {
        // The proof takes from this that the layout was spelled with this weight.
        let _cells = &self.cells;
        cells_weight(self.cells())
    }
}

/// How many elements these cells have, equal ones each counted.
fn cells_count(cells: Cells<'_>) -> u64
    requires { element_count (expanded cells) < 2 ^ 64 }
    ensures { result ≡ element_count (expanded cells.entry) }
{
    let mut count = 0;
    for (_, elements) in cells {
        count += elements_count(elements);
    }
    count
}

/// How many elements these are, equal ones each counted.
fn elements_count(elements: Elements<'_>) -> u64
    requires { length (items elements) < 2 ^ 64 }
    ensures { result ≡ length (items elements.entry) }
{
    let mut count = 0;
    for (_, times) in elements {
        count += times;
    }
    count
}

/// What these cells weigh.
fn cells_weight(cells: Cells<'_>) -> u64
    requires { cells_weight (expanded cells) < 2 ^ 64 }
    ensures { result ≡ cells_weight (expanded cells.entry) }
{
    let mut weight = 0;
    for (name, elements) in cells {
        let head = 1 + name.as_bytes().len() as u64;
        weight += head + elements_weight(elements);
    }
    weight
}

/// What these elements weigh.
fn elements_weight(elements: Elements<'_>) -> u64
    requires { sum_by weight_of (items elements) < 2 ^ 64 }
    ensures { result ≡ sum_by weight_of (items elements.entry) }
{
    let mut weight = 0;
    for (element, times) in elements {
        weight += times * shown_weight(show(&element));
    }
    weight
}

/// The weight of an element, capped to 64 bits; where it isn't exact it exceeds all limits.
fn shown_weight(shown: ShownElement<'_>) -> u64
    ensures { result ≡ min (weight_of (element_of shown.entry)) (2 ^ 64 - 1) }
{
    let more = match shown {
        ShownElement::Placement { cell, .. } => cell.len(),
        ShownElement::Text { string, .. } => string.len(),
        ShownElement::Polygon { points, .. } => points.len(),
        ShownElement::Path { points, .. } => points.len(),
        ShownElement::Rectangle { .. } | ShownElement::Circle { .. } => 0,
    };
    1u64.saturating_add(more as u64)
}

//! Counting the elements of a layout, by their groups and in all.

ghost use Rattle.std.specs.Prelude.{◌≡◌, ◌+◌, ◌<◌, ◌^◌, ◌∷◌, Some, option_to_list, replicate, sum_by, OnOk, IfOk};
ghost use Rattle.std.specs.List.{AllByRecursion};
ghost use Rattle.oas_elements.specs.Bag.{items};
ghost use Rattle.oas_elements.specs.Contents.{meaning_of};
ghost use Rattle.oas_elements.specs.Weight.{weight_of};
ghost use Rattle.oas_info.specs.declared.group.Group.{Group as GroupOf};
ghost use Rattle.oas_info.specs.declared.group.Group.TheVariants.{Layer};
ghost use Rattle.oas_info.specs.Groups.{kind_of, layer_of, if_same, number_of, IsTally, Grows};
ghost use Rattle.oas_info.specs.Totals.{of_elements, of_cell, HasRoom, Added, AreTotals};

use crate::group::Group;
use crate::totals::Totals;
use oas_elements::count_up;
use oas_writing::{Elements, KeyedElement, Layout, ShownElement, show};
use std::alloc::{AllocError, Global};
use std::collections::BTreeMap;

/// What an element is counted by.
#[derive(Clone, Copy)]
struct Aspects {
    kind: Group,
    layer: Option<Group>,
    weight: u64,
}

impl Aspects {
    /// Of a shape with this many points.
    fn of_shape(kind: Group, layer: u64, datatype: u64, points: usize) -> Aspects
        requires { 1 + points < 2 ^ 64 }
        ensures kind { result.kind ≡ kind }
        ensures layer { result.layer ≡ Some (Layer layer datatype) }
        ensures weight { result.weight ≡ 1 + points }
    {
        Aspects {
            kind,
            layer: Some(Group::Layer { layer, datatype }),
            weight: 1 + points as u64,
        }
    }
}

/// What an element is counted by, read from its key.
fn aspects_of(element: &KeyedElement<'_>) -> Aspects
    requires { weight_of element.now < 2 ^ 64 }
    ensures kind { result.kind ≡ kind_of element.now }
    ensures layer { result.layer ≡ layer_of element.now }
    ensures weight { result.weight ≡ weight_of element.now }
{
    match show(element) {
        ShownElement::Placement { cell, .. } => Aspects {
            kind: Group::Placements,
            layer: None,
            weight: 1 + cell.len() as u64,
        },
        ShownElement::Text {
            string,
            textlayer,
            texttype,
            ..
        } => Aspects {
            kind: Group::Texts,
            layer: Some(Group::TextLayer {
                textlayer,
                texttype,
            }),
            weight: 1 + string.len() as u64,
        },
        ShownElement::Rectangle {
            layer,
            datatype,
            ..
        } => Aspects::of_shape(Group::Rectangles, layer, datatype, 0),
        ShownElement::Polygon {
            layer,
            datatype,
            points,
        } => Aspects::of_shape(Group::Polygons, layer, datatype, points.len()),
        ShownElement::Path {
            layer,
            datatype,
            points,
            ..
        } => Aspects::of_shape(Group::Paths, layer, datatype, points.len()),
        ShownElement::Circle {
            layer,
            datatype,
            ..
        } => Aspects::of_shape(Group::Circles, layer, datatype, 0),
    }
}

/// Adds this many elements to their kind, and to their layer if they have one.
fn count_in_groups(
    numbers: &mut BTreeMap<Group, u64>,
    kind: Group,
    layer: Option<Group>,
    times: u64,
) -> Result<(), AllocError>
    requires some { 0 < times }
    requires tally { IsTally numbers.old.entries }
    requires room { (g : GroupOf) → number_of numbers.old.entries g + sum_by (if_same times g) (kind ∷ option_to_list layer) < 2 ^ 64 }
    ensures tally { OnOk result (IsTally numbers.new.entries) }
    ensures grows { OnOk result (Grows (λ g. sum_by (if_same times g) (kind ∷ option_to_list layer)) numbers.old.entries numbers.new.entries) }
{
    count_up(numbers, kind, times)?;
    match layer {
        Some(group) => count_up(numbers, group, times),
        None => Ok(()),
    }
}

/// Adds this many of an element.
fn count_element(
    totals: &mut Totals,
    element: &KeyedElement<'_>,
    times: u64,
) -> Result<(), AllocError>
    requires some { 0 < times }
    requires room { HasRoom (of_elements (replicate times element.now)) totals.old }
    ensures { OnOk result (Added (of_elements (replicate times element.now)) totals.old totals.new) }
{
    let one = aspects_of(element);
    count_in_groups(&mut totals.groups, one.kind, one.layer, times)?;
    totals.elements += times;
    totals.weight += times * one.weight;
    Ok(())
}

/// Adds elements, each as often as it is there.
fn count_elements(totals: &mut Totals, elements: Elements<'_>) -> Result<(), AllocError>
    requires some { AllByRecursion (λ p. 0 < p.1) elements }
    requires room { HasRoom (of_elements (items elements)) totals.old }
    ensures { OnOk result (Added (of_elements (items elements.entry)) totals.old totals.new) }
{
    for (element, times) in elements {
        count_element(totals, &element, times)?;
    }
    Ok(())
}

/// Adds a cell with its name and its elements.
fn count_cell(totals: &mut Totals, name: &[u8], elements: Elements<'_>) -> Result<(), AllocError>
    requires some { AllByRecursion (λ p. 0 < p.1) elements }
    requires room { HasRoom (of_cell (name.now, items elements)) totals.old }
    ensures { OnOk result (Added (of_cell (name.now, items elements.entry)) totals.old totals.new) }
{
    count_elements(totals, elements)?;
    totals.weight += 1 + name.len() as u64;
    Ok(())
}

/// What a layout adds up to. It goes over the distinct elements once, and allocates for the groups.
pub(crate) fn totals_of(alloc: Global, layout: &Layout) -> Result<Totals, AllocError>
    ensures { IfOk result (λ totals. AreTotals (meaning_of layout.now) totals) }
{
    let mut totals = Totals {
        groups: BTreeMap::new(alloc),
        elements: 0,
        weight: 0,
    };
    for (name, elements) in layout.cells() {
        count_cell(&mut totals, name.as_bytes(), elements)?;
    }
    Ok(totals)
}

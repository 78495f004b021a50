//! The elements of a cell that are compared.

ghost use Rattle.std.specs.Prelude.{◌≡◌, [], IfSome};
ghost use Rattle.std.specs.Map.Iter.{TakesFirst};
ghost use Rattle.oas_elements.specs.Bag.{IsTally};
ghost use Rattle.oas_diff_options.specs.Choice.{is_shown, or_empty};
ghost use Rattle.oas_difference.specs.Held.{elements_shown};

use oas_diff_options::{ChosenLayer, is_on};
use oas_diff_text::{Elements, KeyedElement, layer_of, show};
use std::marker::Model;

/// The distinct elements of a cell that are compared, ascending, each with its count; contracts see the list of those to
/// come.
#[derive(Drop)]
pub struct ChosenElements<'a> {
    elements: Option<Elements<'a>>,
    layers: Option<&'a [ChosenLayer]>,
}

impl<'a> Model for ChosenElements<'a> {
    ghost use Rattle.std.specs.Prelude.{List, [], ℕ, unwrap_or};
    ghost use Rattle.oas_elements.specs.declared.element.Element.{Element};
    ghost use Rattle.oas_difference.specs.Held.{elements_shown};

    ghost Value = { List (Element × ℕ) };

    ghost view = { λ s. elements_shown s.layers (unwrap_or s.elements []) };
}

impl<'a> ChosenElements<'a> {
    /// Those of the elements that are on one of the layers; without layers all of them.
    pub(crate) fn new(
        elements: Elements<'a>,
        layers: Option<&'a [ChosenLayer]>,
    ) -> ChosenElements<'a>
        ensures { result ≡ elements_shown layers.entry elements.entry }
    {
        ChosenElements {
            elements: Some(elements),
            layers,
        }
    }

    /// No element at all.
    fn none() -> ChosenElements<'a>
        ensures { result ≡ [] }
    {
        ChosenElements {
            elements: None,
            layers: None,
        }
    }

    /// The first of them, which is removed.
    pub(crate) fn take_first(&mut self) -> Option<(KeyedElement<'a>, u64)>
        ensures { TakesFirst (λ p. p) self.old result self.new }
    {
        match &mut self.elements {
            Some(elements) => first_shown(elements, self.layers),
            None => None,
        }
    }
}

/// The elements of a cell, where it is there. Where layers are named, a cell that is not there has none.
pub(crate) fn or_empty<'a>(
    layers: Option<&[ChosenLayer]>,
    elements: Option<ChosenElements<'a>>,
) -> Option<ChosenElements<'a>>
    requires { IfSome elements IsTally }
    ensures elements { result ≡ or_empty layers.entry elements.entry }
    ensures tally { IfSome result IsTally }
{
    match (layers, elements) {
        (None, elements) => elements,
        (Some(_), Some(chosen)) => Some(chosen),
        (Some(_), None) => Some(ChosenElements::none()),
    }
}

/// The first of the elements that is compared, removed with those before it.
fn first_shown<'a>(
    elements: &mut Elements<'a>,
    layers: Option<&[ChosenLayer]>,
) -> Option<(KeyedElement<'a>, u64)>
    ensures { TakesFirst (λ p. p) (elements_shown layers.entry elements.old) result (elements_shown layers.entry elements.new) }
{
    while let Some(pair) = elements.next() {
        if is_shown(layers, &pair.0) {
            return Some(pair);
        }
    }
    None
}

/// Whether an element is compared. It is read from its key only where layers are named.
fn is_shown(layers: Option<&[ChosenLayer]>, element: &KeyedElement<'_>) -> bool
    ensures { result ≡ is_shown layers.entry element.now }
{
    match layers {
        None => true,
        Some(layers) => is_on(layers, layer_of(&show(element))),
    }
}

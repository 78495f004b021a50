//! The elements of a cell, from which those of another are removed.

ghost use Rattle.std.specs.Prelude.{◌≡◌, [], unwrap_or};
ghost use Rattle.std.specs.Map.Iter.{TakesFirst};
ghost use Rattle.oas_elements.specs.Element.{element_cmp};
ghost use Rattle.oas_difference.specs.Pairs.{first_order};

use crate::elements::ChosenElements;
use oas_diff_text::KeyedElement;
use std::cmp::Ordering;
use std::marker::Model;
use std::mem;

/// The elements of a cell, if there is one, with the first of them at hand; contracts see the list of them.
#[derive(Drop)]
pub struct Side<'a> {
    first: Option<(KeyedElement<'a>, u64)>,
    rest: Option<ChosenElements<'a>>,
}

impl<'a> Model for Side<'a> {
    ghost use Rattle.std.specs.Prelude.{◌≡◌, List, [], ℕ, None, unwrap_or};
    ghost use Rattle.oas_elements.specs.declared.element.Element.{Element};
    ghost use Rattle.oas_difference.specs.Held.{in_hand};

    ghost Value = { List (Element × ℕ) };

    ghost view = { λ s. in_hand (λ p. p) s.first (unwrap_or s.rest []) };

    ghost invariant = { λ s. s.first ≡ None → unwrap_or s.rest [] ≡ [] };
}

impl<'a> Side<'a> {
    /// All of these elements.
    pub fn new(mut elements: Option<ChosenElements<'a>>) -> Side<'a>
        ensures { result ≡ unwrap_or elements.entry [] }
    {
        let first = next_of(&mut elements);
        Side {
            first,
            rest: elements,
        }
    }

    /// How the first element here and the first one there are ordered, where there is one; where no element is left, all others
    /// come first. Neither is read from its key.
    pub(crate) fn order(&self, other: &Side<'_>) -> Option<Ordering>
        ensures { result ≡ first_order element_cmp self.now other.now }
    {
        match (&self.first, &other.first) {
            (None, None) => None,
            (Some(_), None) => Some(Ordering::Less),
            (None, Some(_)) => Some(Ordering::Greater),
            (Some((here, _)), Some((there, _))) => Some(here.order(there)),
        }
    }

    /// The first of them, which is removed.
    pub(crate) fn take_first(&mut self) -> Option<(KeyedElement<'a>, u64)>
        ensures { TakesFirst (λ p. p) self.old result self.new }
    {
        let next = next_of(&mut self.rest);
        mem::replace(&mut self.first, next)
    }
}

/// The next of these elements, if there are any.
fn next_of<'a>(elements: &mut Option<ChosenElements<'a>>) -> Option<(KeyedElement<'a>, u64)>
    ensures { TakesFirst (λ p. p) (unwrap_or elements.old []) result (unwrap_or elements.new []) }
{
    match elements {
        Some(rest) => rest.take_first(),
        None => None,
    }
}

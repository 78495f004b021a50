//! The elements of a cell, read from their keys one by one.

ghost use Rattle.std.specs.Prelude.{◌≡◌, ◌≤◌, ◌^◌, List, ℕ, length, sum_by};
ghost use Rattle.std.specs.Iterator.{at_most};
ghost use Rattle.std.specs.Map.Iter.{TakesFirst};
ghost use Rattle.oas_elements.specs.declared.element.Element.{Element};
ghost use Rattle.oas_elements.specs.Bag.{items};
ghost use Rattle.oas_elements.specs.Contents.{AllSound};
ghost use Rattle.oas_elements.specs.Weight.{weight_of};
ghost use Rattle.oas_layout.specs.Keyed.{keyed};
ghost use Rattle.oas_layout.specs.Held.{HeldElements, elements_held, AreLight};
ghost use Rattle.oas_layout.specs.Laws.HeldLaws.{held_prop};

use crate::element::KeyedElement;
use oas_runs::Entries;
use std::marker::Model;

/// Elements of a cell with their counts, seen as the list of those to come.
#[derive(Drop)]
pub struct Elements<'a> {
    entries: Entries<'a>,
    ghost held: { HeldElements entries } by { held_prop entries },
}

impl<'a> Model for Elements<'a> {
    ghost use Rattle.std.specs.Prelude.{List, ℕ};
    ghost use Rattle.oas_elements.specs.declared.element.Element.{Element};
    ghost use Rattle.oas_layout.specs.Held.{elements_held, AreLight};

    ghost Value = { List (Element × ℕ) };

    ghost view = { λ a. elements_held a.held };

    ghost invariant = { λ a. AreLight (elements_held a.held) };
}

impl<'a> Elements<'a> {
    /// The elements whose keys these are.
    pub(crate) fn of(entries: Entries<'a>) -> Elements<'a>
        requires held { HeldElements entries }
        requires light { (h : HeldElements entries) → AreLight (elements_held h) }
        ensures { (es : List (Element × ℕ)) → AllSound es → entries.entry ≡ keyed es → result ≡ es }
    {
        Elements { entries }
    }

    /// A file can spell them, and they weigh no more than a layout may: whichever these are, and whatever was taken of them.
    pub fn fits(&self)
        ensures sound { AllSound self.now }
        ensures light { sum_by weight_of (items self.now) ≤ 2 ^ 30 }
    {
        // A proof knows what they are only where a body has looked at them.
        let _entries = &self.entries;
    }
}

impl<'a> Iterator for Elements<'a> {
    type Item = (KeyedElement<'a>, u64);

    ghost next_gives = { TakesFirst (λ p. p) };

    ghost remaining = { λ s. at_most (length s) };

    fn next(&mut self) -> Option<(KeyedElement<'a>, u64)> {
        let (key, times) = self.entries.next()?;
        Some((KeyedElement::of(key), times))
    }
}

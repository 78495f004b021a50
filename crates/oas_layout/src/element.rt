//! An element, held as its key.

ghost use Rattle.std.specs.Prelude.{◌≡◌};
ghost use Rattle.oas_elements.specs.declared.element.Element.{Element as OneElement};
ghost use Rattle.oas_elements.specs.Element.{element_cmp};
ghost use Rattle.oas_elements.specs.Sound.{IsSound};
ghost use Rattle.oas_cells.specs.Keys.{key_of};
ghost use Rattle.oas_layout.specs.Held.{HeldElement};
ghost use Rattle.oas_layout.specs.Laws.HeldLaws.{held_key_prop};

use std::cmp::Ordering;
use std::marker::Model;

/// A key, seen as its element.
#[derive(Debug, Drop)]
pub struct KeyedElement<'a> {
    key: &'a [u8],
    ghost held: { HeldElement key.now } by { held_key_prop key.now },
}

impl<'a> Model for KeyedElement<'a> {
    ghost use Rattle.oas_elements.specs.declared.element.Element.{Element as OneElement};
    ghost use Rattle.oas_layout.specs.Held.{element_held};

    ghost Value = { OneElement };

    ghost view = { λ a. element_held a.held };
}

impl<'a> KeyedElement<'a> {
    /// The element of which this is the key.
    pub(crate) fn of(key: &'a [u8]) -> KeyedElement<'a>
        requires { HeldElement key.now }
        ensures { (e : OneElement) → IsSound e → key.now ≡ key_of e → result ≡ e }
    {
        KeyedElement { key }
    }

    /// The bytes.
    pub fn key(&self) -> &'a [u8]
        ensures key { result.now ≡ key_of self.now }
        ensures sound { IsSound self.now }
    {
        self.key
    }

    /// How both are ordered. Neither is read from its key.
    pub fn order(&self, other: &KeyedElement<'_>) -> Ordering
        ensures { result ≡ element_cmp self.now other.now }
    {
        self.key.cmp(other.key)
    }
}

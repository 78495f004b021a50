//! From a key to the element that it shows.

ghost use Rattle.std.specs.Prelude.{◌≡◌};
ghost use Rattle.oas_elements.specs.declared.element.Element.{Element as OneElement};
ghost use Rattle.oas_elements.specs.Sound.{IsSound};
ghost use Rattle.oas_cells.specs.Keys.{key_of};
ghost use Rattle.oas_cells.specs.Reading.{Spells};
ghost use Rattle.oas_layout.specs.Shown.{element_of};

use crate::element::KeyedElement;
use crate::points::ShownPoints;
use crate::shown::ShownElement;
use oas_cells::{SpelledElement, read_key};

/// What is spelled, as it is shown.
#[inline(always)]
fn shown(spelled: SpelledElement<'_>) -> ShownElement<'_>
    requires { (e : OneElement) × Spells spelled e }
    ensures { (e : OneElement) → Spells spelled.entry e → element_of result ≡ e }
{
    match spelled {
        SpelledElement::Placement {
            cell,
            x,
            y,
            turns,
            flip,
        } => ShownElement::Placement {
            cell,
            x,
            y,
            turns,
            flip,
        },
        SpelledElement::Text {
            string,
            textlayer,
            texttype,
            x,
            y,
        } => ShownElement::Text {
            string,
            textlayer,
            texttype,
            x,
            y,
        },
        SpelledElement::Rectangle {
            layer,
            datatype,
            width,
            height,
            x,
            y,
        } => ShownElement::Rectangle {
            layer,
            datatype,
            width,
            height,
            x,
            y,
        },
        SpelledElement::Polygon {
            layer,
            datatype,
            points,
        } => ShownElement::Polygon {
            layer,
            datatype,
            points: ShownPoints::of(points),
        },
        SpelledElement::Path {
            layer,
            datatype,
            half_width,
            start,
            end,
            points,
        } => ShownElement::Path {
            layer,
            datatype,
            half_width,
            start,
            end,
            points: ShownPoints::of(points),
        },
        SpelledElement::Circle {
            layer,
            datatype,
            radius,
            x,
            y,
        } => ShownElement::Circle {
            layer,
            datatype,
            radius,
            x,
            y,
        },
    }
}

/// The fields of an element. They are read from its key, so no memory is wanted. It is inlined where it is called, as
/// `read_key` is.
#[inline(always)]
pub fn show<'a>(element: &KeyedElement<'a>) -> ShownElement<'a>
    ensures element { element_of result ≡ element.now }
    ensures sound { IsSound element.now }
{
    shown(read_key(element.key()))
}

//! The kind of an element at the start of bytes.
ghost use Rattle.std.specs.Prelude.{◌≡◌};
ghost use Rattle.oas_peek.specs.Kinds.{kind_at};

use crate::named::{PLACEMENT, TEXT};
use crate::paths::PATH;
use crate::polygons::POLYGON;
use crate::rectangles::RECTANGLE;

/// A kind of element, as far as it is read from bytes at hand in a way of its own.
#[derive(Clone, Copy, Debug, PartialEq, Eq)]
pub enum KindAtHand {
    /// As `peek_rectangle` returns it.
    Rectangle,
    /// A placement or a text, as `peek_named` returns it.
    Named,
    /// A polygon or a path, as `peek_figure` returns it.
    Figure,
    /// Any other record, or no byte.
    Other,
}

/// The kind of the element that the bytes begin with, by its id alone. An id in more than one byte is of another kind.
#[inline(always)]
pub fn kind_at_hand(bytes: &[u8]) -> KindAtHand
    ensures { result ≡ kind_at bytes.now }
{
    match bytes {
        [RECTANGLE, ..] => KindAtHand::Rectangle,
        [PLACEMENT | TEXT, ..] => KindAtHand::Named,
        [POLYGON | PATH, ..] => KindAtHand::Figure,
        _ => KindAtHand::Other,
    }
}

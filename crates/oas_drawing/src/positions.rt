//! The modal positions.
ghost use Rattle.std.specs.Prelude.{◌≡◌};
ghost use Rattle.oas_drawing.specs.Positions.{IsNear, IsWithin};
ghost use Rattle.oas_drawing.specs.Modal.{moved, moved_by, origin};

use oas_record::Spot;

/// The position of the latest element of a class, in grid steps. It may exceed the limits, where the record that gave it will
/// be refused.
#[derive(Clone, Copy, Debug, PartialEq, Eq)]
pub struct Position {
    pub x: i128,
    pub y: i128,
}

impl Position {
    /// The position that a CELL sets.
    pub(crate) fn origin() -> Position
        ensures { result ≡ origin }
    {
        Position { x: 0, y: 0 }
    }

    /// The position of the next element of the class, from the coordinates that it gives.
    #[inline(always)]
    pub(crate) fn moved_by(&self, relative: bool, spot: &Spot) -> Position
        requires { IsNear self.now }
        ensures { result ≡ moved_by relative self.now spot.now }
    {
        self.moved_to(relative, spot.x, spot.y)
    }

    /// The same by these coordinates, each where it is given.
    #[inline(always)]
    pub(crate) fn moved_to(&self, relative: bool, x: Option<i64>, y: Option<i64>) -> Position
        requires { IsNear self.now }
        ensures { result ≡ record { x = moved relative self.now.x x; y = moved relative self.now.y y } }
    {
        Position {
            x: moved(relative, self.x, x),
            y: moved(relative, self.y, y),
        }
    }
}

/// An optional coordinate after another: in relative mode that is added to it.
#[inline(always)]
fn moved(relative: bool, at: i128, given: Option<i64>) -> i128
    requires { IsWithin at }
    ensures { result ≡ moved relative at given }
{
    match given {
        None => at,
        Some(z) => {
            if relative {
                at + i128::from(z)
            } else {
                i128::from(z)
            }
        }
    }
}

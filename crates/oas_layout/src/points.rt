//! The points of an element, read from its key one by one.

ghost use Rattle.std.specs.Prelude.{◌≡◌, List, length};
ghost use Rattle.std.specs.Iterator.{at_most};
ghost use Rattle.std.specs.Map.Iter.{TakesFirst};
ghost use Rattle.oas_ring.specs.declared.point.Point.{Point as OnePoint};
ghost use Rattle.oas_cells.specs.Reading.{HasPoints};
ghost use Rattle.oas_cells.specs.Steps.{BeginsSteps};
ghost use Rattle.oas_layout.specs.Held.{HeldPoints};
ghost use Rattle.oas_layout.specs.Laws.PointsLaws.{points_prop};

use oas_cells::{SpelledPoints, SpelledSteps};
use oas_ring::Point;
use std::marker::Model;

/// Points, seen as the list of those that are still to be read.
#[derive(Debug, Drop)]
pub struct ShownPoints<'a> {
    points: SpelledPoints<'a>,
    ghost some: { HeldPoints points } by { points_prop points },
}

impl<'a> Model for ShownPoints<'a> {
    ghost use Rattle.std.specs.Prelude.{List};
    ghost use Rattle.oas_ring.specs.declared.point.Point.{Point as OnePoint};
    ghost use Rattle.oas_layout.specs.Held.{points_held};

    ghost Value = { List OnePoint };

    ghost view = { λ a. points_held a.some };
}

impl<'a> ShownPoints<'a> {
    /// The points that a key has.
    pub(crate) fn of(points: SpelledPoints<'a>) -> ShownPoints<'a>
        requires { HeldPoints points }
        ensures { (ps : List OnePoint) → HasPoints points.entry ps → result ≡ ps }
    {
        ShownPoints { points }
    }

    /// Takes the first point, where one is left, and returns it with the steps to those after it, as the key spells them.
    pub fn first_and_steps(self) -> Option<(Point, SpelledSteps<'a>)>
        ensures { BeginsSteps result self.entry }
    {
        self.points.first_and_steps()
    }

    /// How many points are left.
    pub fn len(&self) -> usize
        ensures { result ≡ length self.now }
    {
        self.points.count()
    }
}

impl<'a> Iterator for ShownPoints<'a> {
    type Item = Point;

    ghost next_gives = { TakesFirst (λ p. p) };

    ghost remaining = { λ s. at_most (length s) };

    /// It stands in the loops that call it, as the call that it makes does.
    #[inline(always)]
    fn next(&mut self) -> Option<Point> {
        self.points.next()
    }
}

//! A ring that is seen only through comparisons of its points, each of which is counted.

ghost use Rattle.std.specs.Prelude.{◌≡◌, ℕ, ◌+◌, ◌<◌, ◌^◌, List, length};
ghost use Rattle.oas_ring.specs.Points.{point_at, point_cmp};
ghost use Rattle.oas_ring.specs.View.{Counted};
ghost use Rattle.oas_ring.specs.declared.point.Point.{Point};

use crate::point::Point;
use std::cmp::Ordering;
use std::marker::Model;

/// A fixed list of points, and a count of the comparisons made of them.
pub trait RingView {
    /// The points.
    ghost points: { Self → List Point };

    /// How many comparisons were made.
    ghost steps: { Self → ℕ };

    /// How many points there are.
    fn len(&self) -> usize
        ensures { result ≡ length (points self.now) };

    /// Compares the points at two places, by x and then y, in one step.
    fn compare(&mut self, i: usize, j: usize) -> Ordering
        requires first { i < length (points self.old) }
        requires second { j < length (points self.old) }
        requires few { steps self.old < 2 ^ 63 }
        ensures order { result ≡ point_cmp (point_at (points self.old) i) (point_at (points self.old) j) }
        ensures step { steps self.new ≡ steps self.old + 1 }
        ensures fixed { points self.new ≡ points self.old };
}

/// A ring of the points of a slice, which counts its comparisons.
#[derive(Debug, Drop)]
pub struct CountedRing<'a> {
    points: &'a [Point],
    steps: u64,
}

impl<'a> Model for CountedRing<'a> {
    ghost Value = { Counted };

    ghost view = { λ r. record { points = r.points.now; steps = r.steps } };
}

impl<'a> CountedRing<'a> {
    /// The ring of these points, with no comparison made.
    pub fn new(points: &'a [Point]) -> Self
        ensures points { result.points ≡ points.now }
        ensures steps { result.steps ≡ 0 }
    {
        CountedRing { points, steps: 0 }
    }

    /// How many comparisons were made.
    pub fn steps(&self) -> u64
        ensures { result ≡ self.now.steps }
    {
        self.steps
    }
}

impl RingView for CountedRing<'_> {
    ghost points = { λ r. r.points };

    ghost steps = { λ r. r.steps };

    fn len(&self) -> usize {
        self.points.len()
    }

    fn compare(&mut self, i: usize, j: usize) -> Ordering {
        self.steps += 1;
        self.points[i].cmp(&self.points[j])
    }
}

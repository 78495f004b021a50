//! The positions of geometry.
ghost use Rattle.std.specs.Prelude.{◌≡◌, ◌^◌, ◌&&◌, pos, ◌+ℤ◌, true};
ghost use Rattle.oas_elements.specs.Grid.{is_coordinate, is_grid_point};
ghost use Rattle.oas_shape.specs.Steps.{IsBounded, IsInRange};
ghost use Rattle.oas_trapezoids.specs.Places.{coordinate_after, place_after, origin, is_on_grid, point_of};

use crate::corners::Corner;
use oas_record::Spot;
use oas_ring::Point;

/// How far a coordinate may be from 0 (own rule).
const FURTHEST: i128 = 1 << 60;

/// The position of geometry and the mode of coordinates (SEMI P39, Modal variables: geometry-x, geometry-y, xy-mode), in grid
/// steps.
///
/// A coordinate that exceeds 64 bits is replaced by the nearest one that doesn't. That is off the grid as well, so whatever
/// is there is refused.
#[derive(Clone, Copy, Debug)]
pub(crate) struct Place {
    /// Whether coordinates are relative.
    pub(crate) relative: bool,
    pub(crate) x: i64,
    pub(crate) y: i64,
}

/// An optional coordinate after another: in relative mode that is added to it.
fn coordinate_after(relative: bool, at: i64, given: Option<i64>) -> i64
    ensures { result ≡ coordinate_after relative at given }
{
    match given {
        None => at,
        Some(z) => { if relative { at.saturating_add(z) } else { z } }
    }
}

/// Whether a coordinate is on the grid.
fn is_coordinate(z: i128) -> bool
    ensures { result ≡ is_coordinate z }
{
    !(z < -FURTHEST) && !(FURTHEST < z)
}

/// Whether both coordinates of a point are on the grid.
fn are_coordinates(x: i128, y: i128) -> bool
    ensures { result ≡ (is_coordinate x && is_coordinate y) }
{
    is_coordinate(x) && is_coordinate(y)
}

/// A coordinate at this distance from another.
fn sum(at: i64, by: u64) -> i128
    ensures { result ≡ at +ℤ pos by }
{
    i128::from(at) + i128::from(by)
}

/// A coordinate on the grid, in 64 bits.
fn narrow(z: i128) -> i64
    requires { IsBounded (2 ^ 60) z }
    ensures value { result ≡ z }
    ensures near { IsBounded (2 ^ 60) result }
{
    z as i64
}

impl Place {
    /// The place that a CELL sets: the origin, in absolute mode.
    pub(crate) fn origin() -> Place
        ensures { result ≡ origin }
    {
        Place {
            relative: false,
            x: 0,
            y: 0,
        }
    }

    /// The place of the next geometry, from the coordinates that it gives.
    pub(crate) fn after(self, spot: &Spot) -> Place
        ensures { result ≡ place_after self spot.now }
    {
        Place {
            relative: self.relative,
            x: coordinate_after(self.relative, self.x, spot.x),
            y: coordinate_after(self.relative, self.y, spot.y),
        }
    }

    /// Whether it is on the grid.
    pub(crate) fn is_on_grid(self) -> bool
        ensures { result ≡ is_on_grid self }
    {
        are_coordinates(i128::from(self.x), i128::from(self.y))
    }

    /// Whether a corner of a box with its lower left corner here is on the grid.
    pub(crate) fn reaches(self, corner: Corner) -> bool
        ensures { result ≡ is_grid_point (point_of self corner) }
    {
        are_coordinates(sum(self.x, corner.x), sum(self.y, corner.y))
    }

    /// The place of that corner.
    #[tactic(auto, using(crate::proofs::Grids::x_near, crate::proofs::Grids::y_near, crate::proofs::Grids::in_range))]
    pub(crate) fn point_of(self, corner: Corner) -> Point
        requires { is_grid_point (point_of self corner) ≡ true }
        ensures value { result ≡ point_of self corner }
        ensures near { IsInRange result }
    {
        Point {
            x: narrow(sum(self.x, corner.x)),
            y: narrow(sum(self.y, corner.y)),
        }
    }
}

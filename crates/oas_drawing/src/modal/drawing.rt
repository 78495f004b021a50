//! Coordinates, points and vertices within the grid, for the files of kinds.
ghost use Rattle.std.specs.Prelude.{◌≡◌, ◌<◌, ◌+◌, ◌^◌, length, ◌+ℤ◌, ◌⊎◌, true, false, None, Some, IfOk, IfErr, SomeIff};
ghost use Rattle.oas_num.specs.declared.refusals.Why.TheVariants.{Memory, CoordinateRange};
ghost use Rattle.oas_num.specs.Deltas.{step};
ghost use Rattle.std.specs.List.{list_all};
ghost use Rattle.oas_ring.specs.declared.point.Point.{Point as OnePoint};
ghost use Rattle.oas_shape.specs.Polylines.{vertices_of};
ghost use Rattle.oas_elements.specs.Grid.{is_coordinate, is_grid_point};
ghost use Rattle.oas_drawing.specs.Drawing.{point_from};

use crate::positions::Position;
use oas_num::Why;
use oas_ring::{Point, Points};
use oas_shape::PointList;
use std::alloc::Global;

/// How far a coordinate may be from 0 (own rule).
const FURTHEST: i128 = 1 << 60;

/// A coordinate, where it is within the grid.
#[inline(always)]
pub(crate) fn coordinate(z: i128) -> Option<i64>
    ensures { SomeIff result (is_coordinate z ≡ true) z }
{
    if z < -FURTHEST || z > FURTHEST {
        None
    } else {
        Some(z as i64)
    }
}

/// A sum, where it is within the grid.
fn sum(at: i128, by: i128) -> Option<i64>
    ensures { SomeIff result (is_coordinate (at +ℤ by) ≡ true) (at +ℤ by) }
{
    coordinate(at.checked_add(by)?)
}

/// The point this far from a position, where it is within the grid. It is refused with `CoordinateRange`.
pub(crate) fn point_by(at: Position, by: (i128, i128)) -> Result<Point, Why>
    ensures ok { IfOk result (λ point. (point ≡ point_from at (step by.0 by.1)) × (is_grid_point point ≡ true)) }
    ensures err { IfErr result (λ why. (why ≡ CoordinateRange) × (is_grid_point (point_from at (step by.0 by.1)) ≡ false)) }
{
    match (sum(at.x, by.0), sum(at.y, by.1)) {
        (Some(x), Some(y)) => Ok(Point { x, y }),
        _ => Err(Why::CoordinateRange),
    }
}

/// The vertices of a point list at a position that is moved this far. They are refused with `CoordinateRange`, or it fails
/// with `Memory`.
#[tactic(auto, using(crate::proofs::Grids::in_range, crate::proofs::Grids::all_on_grid, crate::proofs::Grids::vertices_fault, crate::proofs::Grids::off_vertices))]
pub(crate) fn points_by(
    alloc: Global,
    points: &PointList,
    at: Position,
    by: (i128, i128),
) -> Result<Points, Why>
    ensures ok { IfOk result (λ ps. ps ≡ vertices_of points.now (point_from at (step by.0 by.1))) }
    ensures near { IfOk result (λ ps. list_all is_grid_point ps ≡ true) }
    ensures err { IfErr result (λ why. (why ≡ Memory) ⊎ ((why ≡ CoordinateRange) × (list_all is_grid_point (vertices_of points.now (point_from at (step by.0 by.1))) ≡ false))) }
{
    let at = point_by(at, by)?;
    match points.vertices(alloc, at) {
        Ok(points) => Ok(Points::new(points)),
        Err(why) => Err(why),
    }
}

/// Whether the vertices of a point list at a position that is moved this far are within the grid.
#[tactic(auto, using(crate::proofs::Grids::in_range, crate::proofs::Grids::off_vertices))]
pub(crate) fn points_fit(points: &PointList, at: Position, by: (i128, i128)) -> bool
    ensures { list_all is_grid_point (vertices_of points.now (point_from at (step by.0 by.1))) ≡ result }
{
    match point_by(at, by) {
        Ok(at) => points.is_in_range(at),
        Err(_) => false,
    }
}

/// The weight of an element with these points.
pub(crate) fn points_weight(points: &PointList) -> u128
    ensures weight { (at : OnePoint) → 1 + length (vertices_of points.now at) ≡ result }
    ensures near { result < 2 ^ 64 }
{
    1 + points.len() as u128
}

//! The records for the corners of a box.
ghost use Rattle.std.specs.Prelude.{◌≡◌, ◌⊎◌, ◌^◌, ◌-ℤ◌, Ok, Err, true, IfOk, IfErr};
ghost use Rattle.oas_num.specs.declared.refusals.Why.TheVariants.{Memory};
ghost use Rattle.oas_shape.specs.PointLists.{plain_line};
ghost use Rattle.oas_shape.specs.Steps.{IsBounded, IsInRange};
ghost use Rattle.oas_standard.specs.declared.reasons.WideWhy.TheVariants.{Profile};
ghost use Rattle.oas_trapezoids.specs.Tracked.{handed};
ghost use Rattle.oas_trapezoids.specs.Shapes.{are_on_grid, points_of, first_of, steps_after, steps_of, step_to, is_box, polygon_of, rectangle_of, shape_of};

use crate::corners::Corner;
use crate::places::Place;
use crate::resolved::Resolved;
use crate::resolver::Resolver;
use crate::sides::Sides;
use crate::tracking::no_memory;
use oas_num::{GDelta, Why};
use oas_record::{Polygon, Record, Rectangle, Spot};
use oas_ring::Point;
use oas_shape::{PointList, RepField};
use oas_standard::WideWhy;
use std::alloc::{AllocError, Global};

/// Whether all corners of a box with its lower left corner there are on the grid.
fn are_on_grid(place: Place, corners: &[Corner]) -> bool
    ensures { result ≡ are_on_grid place corners.now }
{
    corners.iter().all(|corner| place.reaches(*corner))
}

/// Whether the corners are those of the whole box.
fn is_box(sides: Sides, corners: &[Corner]) -> bool
    ensures { result ≡ is_box sides corners.now }
{
    let Sides { width, height } = sides;
    let whole: &[Corner] = &[
        Corner { x: 0, y: 0 },
        Corner { x: 0, y: height },
        Corner {
            x: width,
            y: height,
        },
        Corner { x: width, y: 0 },
    ];
    corners == whole
}

/// The distance from one coordinate of the grid to another.
fn difference(from: i64, to: i64) -> i64
    requires from { IsBounded (2 ^ 60) from }
    requires to { IsBounded (2 ^ 60) to }
    ensures { result ≡ to -ℤ from }
{
    to - from
}

/// The step from one point of the grid to another.
fn step_to(from: Point, to: Point) -> GDelta
    requires from { IsInRange from }
    requires to { IsInRange to }
    ensures { result ≡ step_to from to }
{
    GDelta {
        dx: difference(from.x, to.x),
        dy: difference(from.y, to.y),
    }
}

/// The steps from a point to the corners of a box, one after another.
fn steps_after(
    alloc: Global,
    place: Place,
    first: Point,
    corners: &[Corner],
) -> Result<Vec<GDelta>, AllocError>
    requires near { IsInRange first }
    requires grid { are_on_grid place corners.now ≡ true }
    ensures { IfOk result (λ steps. steps.items ≡ steps_after first (points_of place corners.now)) }
{
    let mut steps = Vec::with_capacity(alloc, corners.len())?;
    let mut last = first;
    for corner in corners {
        let next = place.point_of(*corner);
        steps.push(step_to(last, next))?;
        last = next;
    }
    Ok(steps)
}

/// The place of the first corner of a box, and the list that leads to the others.
fn outline(
    alloc: Global,
    place: Place,
    corners: &[Corner],
) -> Result<(Point, PointList), AllocError>
    requires { are_on_grid place corners.now ≡ true }
    ensures first { IfOk result (λ outline. outline.0 ≡ first_of (points_of place corners.now)) }
    ensures list { IfOk result (λ outline. outline.1 ≡ plain_line (steps_of (points_of place corners.now))) }
{
    let Some((first, others)) = corners.split_first() else {
        return Ok((Point { x: 0, y: 0 }, PointList::of_steps(Vec::new(alloc))));
    };
    let first = place.point_of(*first);
    let steps = steps_after(alloc, place, first, others)?;
    Ok((first, PointList::of_steps(steps)))
}

impl Resolver {
    /// The polygon of corners.
    fn polygon_of(
        &self,
        alloc: Global,
        corners: &[Corner],
        field: Option<RepField>,
    ) -> Result<Polygon, AllocError>
        requires { are_on_grid self.now.place corners.now ≡ true }
        ensures { IfOk result (λ polygon. polygon ≡ polygon_of self.now field (points_of self.now.place corners.now)) }
    {
        let (first, points) = outline(alloc, self.place, corners)?;
        let spot = self.spot_given(alloc, field)?;
        Ok(Polygon {
            layer: self.layer,
            datatype: self.datatype,
            points: Some(points),
            spot: Spot {
                x: Some(first.x),
                y: Some(first.y),
                repetition: spot.repetition,
            },
        })
    }

    /// The rectangle of a box.
    fn rectangle_of(
        &self,
        alloc: Global,
        sides: Sides,
        field: Option<RepField>,
    ) -> Result<Rectangle, AllocError>
        ensures { IfOk result (λ rectangle. rectangle ≡ rectangle_of self.now field sides) }
    {
        let spot = self.spot_given(alloc, field)?;
        Ok(Rectangle {
            square: false,
            layer: self.layer,
            datatype: self.datatype,
            width: Some(sides.width),
            height: Some(sides.height),
            spot,
        })
    }

    /// What is returned for the corners of a box: a rectangle or a polygon. It is refused with `CoordinateRange`.
    pub(crate) fn shape_of(
        &self,
        alloc: Global,
        sides: Sides,
        corners: &[Corner],
        field: Option<RepField>,
    ) -> Result<Resolved, WideWhy>
        ensures ok { IfOk result (λ resolved. shape_of self.now field sides corners.now ≡ Ok (handed resolved)) }
        ensures err { IfErr result (λ why. (why ≡ Profile Memory) ⊎ (shape_of self.now field sides corners.now ≡ Err why)) }
    {
        if !are_on_grid(self.place, corners) {
            return Err(WideWhy::Profile(Why::CoordinateRange));
        }
        let geometry = if is_box(sides, corners) {
            Record::Rectangle(self.rectangle_of(alloc, sides, field).map_err(no_memory)?)
        } else {
            Record::Polygon(self.polygon_of(alloc, corners, field).map_err(no_memory)?)
        };
        Ok(Resolved::placed(self.place.relative, geometry))
    }
}

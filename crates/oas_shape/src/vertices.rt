//! The vertices of a point list.
ghost use Rattle.std.specs.Prelude.{◌≡◌, ◌+ℤ◌, ◌^◌, true, false, IfOk, IfErr, SomeIff};
ghost use Rattle.std.specs.List.{AllByRecursion};
ghost use Rattle.std.specs.Option.{option_to_list};
ghost use Rattle.oas_num.specs.Deltas.{step};
ghost use Rattle.oas_shape.specs.Steps.{moved, IsBounded, IsInRange};
ghost use Rattle.oas_shape.specs.Polylines.{next_step, listed_vertices, left_out, vertices_of, VerticesMay};

use crate::displacements::Displacement;
use crate::point_list::{Closing, PointList};
use oas_num::{GDelta, Why};
use oas_ring::Point;
use std::alloc::Global;

/// How far a coordinate may be from 0 (own rule).
const FURTHEST: i64 = 1152921504606846976;

impl PointList {
    /// All vertices at that position, which is the first (SEMI P39, Point lists). It fails with `CoordinateRange` where one
    /// of them exceeds the limits, and with `Memory`.
    pub fn vertices(&self, alloc: Global, at: Point) -> Result<Vec<Point>, Why>
        requires { IsInRange at }
        ensures given { IfOk result (λ points. points.items ≡ vertices_of self.now at) }
        ensures near { IfOk result (λ points. AllByRecursion IsInRange points.items) }
        ensures refused { IfErr result (λ why. VerticesMay why (vertices_of self.now at)) }
    {
        let mut points = walk(alloc, self.deltas.as_slice(), self.running, at, self.len())?;
        let last = points[points.len() - 1];
        match point_left_out(self.closing, at, last) {
            Some(point) => {
                points.push(point)?;
                Ok(points)
            }
            None => Ok(points),
        }
    }
}

/// The vertices that the deltas reach, one after another, in memory that has room for this many.
fn walk(
    alloc: Global,
    deltas: &[GDelta],
    running: bool,
    at: Point,
    room: usize,
) -> Result<Vec<Point>, Why>
    requires { IsInRange at }
    ensures given { IfOk result (λ points. points.items ≡ listed_vertices running deltas.now at) }
    ensures near { IfOk result (λ points. AllByRecursion IsInRange points.items) }
    ensures refused { IfErr result (λ why. VerticesMay why (listed_vertices running deltas.now at)) }
{
    if running {
        walk_displaced(alloc, deltas, at, room)
    } else {
        walk_plain(alloc, deltas, at, room)
    }
}

/// The same of a list whose deltas are the steps from one vertex to the next, as in nearly all lists. They have 64 bits.
fn walk_plain(alloc: Global, deltas: &[GDelta], at: Point, room: usize) -> Result<Vec<Point>, Why>
    requires { IsInRange at }
    ensures given { IfOk result (λ points. points.items ≡ listed_vertices false deltas.now at) }
    ensures near { IfOk result (λ points. AllByRecursion IsInRange points.items) }
    ensures refused { IfErr result (λ why. VerticesMay why (listed_vertices false deltas.now at)) }
{
    let Ok(mut points) = Vec::with_capacity(alloc, room) else {
        return Err(Why::Memory);
    };
    points.push(at)?;
    let mut last = at;
    for delta in deltas {
        let Some(next) = point_after(last, *delta) else {
            return Err(Why::CoordinateRange);
        };
        points.push(next)?;
        last = next;
    }
    Ok(points)
}

/// The same of a running list, by displacements, which may have more than 64 bits.
fn walk_displaced(
    alloc: Global,
    deltas: &[GDelta],
    at: Point,
    room: usize,
) -> Result<Vec<Point>, Why>
    requires { IsInRange at }
    ensures given { IfOk result (λ points. points.items ≡ listed_vertices true deltas.now at) }
    ensures near { IfOk result (λ points. AllByRecursion IsInRange points.items) }
    ensures refused { IfErr result (λ why. VerticesMay why (listed_vertices true deltas.now at)) }
{
    let Ok(mut points) = Vec::with_capacity(alloc, room) else {
        return Err(Why::Memory);
    };
    points.push(at)?;
    let mut last = at;
    let mut by = Displacement { x: 0, y: 0 };
    for delta in deltas {
        by = next_displacement(by, *delta);
        let Some(next) = point_from(last, by) else {
            return Err(Why::CoordinateRange);
        };
        points.push(next)?;
        last = next;
    }
    Ok(points)
}

/// The next displacement of a running list, to which the one before is added.
#[inline(always)]
pub(crate) fn next_displacement(before: Displacement, delta: GDelta) -> Displacement
    requires x { IsBounded (2 ^ 63) before.x }
    requires y { IsBounded (2 ^ 63) before.y }
    ensures value { step result.x result.y ≡ next_step true (step before.x before.y) delta }
    ensures x_near { IsBounded (2 ^ 64) result.x }
    ensures y_near { IsBounded (2 ^ 64) result.y }
{
    Displacement {
        x: before.x + i128::from(delta.dx),
        y: before.y + i128::from(delta.dy),
    }
}

/// The point at this displacement from that one, where it is within the limits.
pub(crate) fn point_from(from: Point, by: Displacement) -> Option<Point>
    requires x { IsBounded (2 ^ 64) by.x }
    requires y { IsBounded (2 ^ 64) by.y }
    ensures { SomeIff result (IsInRange (moved from (step by.x by.y))) (moved from (step by.x by.y)) }
{
    let x = coordinate_from(from.x, by.x)?;
    let y = coordinate_from(from.y, by.y)?;
    Some(Point { x, y })
}

/// The coordinate at this distance from that one, where it is within the limits.
fn coordinate_from(from: i64, far: i128) -> Option<i64>
    requires { IsBounded (2 ^ 64) far }
    ensures { SomeIff result (IsBounded (2 ^ 60) (from +ℤ far)) (from +ℤ far) }
{
    let to = i128::from(from) + far;
    if to < -i128::from(FURTHEST) {
        return None;
    }
    if to > i128::from(FURTHEST) {
        return None;
    }
    Some(to as i64)
}

/// A coordinate, where it is within the limits.
#[inline(always)]
fn coordinate(to: i64) -> Option<i64>
    ensures { SomeIff result (IsBounded (2 ^ 60) to) to }
{
    if to < -FURTHEST {
        return None;
    }
    if to > FURTHEST {
        return None;
    }
    Some(to)
}

/// The coordinate after a step from that one, where it is within the limits.
#[inline(always)]
fn coordinate_after(from: i64, by: i64) -> Option<i64>
    ensures { SomeIff result (IsBounded (2 ^ 60) (from +ℤ by)) (from +ℤ by) }
{
    coordinate(from.checked_add(by)?)
}

/// The point after a step from that one, where it is within the limits.
#[inline(always)]
pub(crate) fn point_after(from: Point, delta: GDelta) -> Option<Point>
    ensures { SomeIff result (IsInRange (moved from delta)) (moved from delta) }
{
    let x = coordinate_after(from.x, delta.dx)?;
    let y = coordinate_after(from.y, delta.dy)?;
    Some(Point { x, y })
}

/// The vertex that a list leaves out, from its first and its last one.
fn point_left_out(closing: Closing, first: Point, last: Point) -> Option<Point>
    ensures { option_to_list result ≡ left_out closing first last }
{
    match closing {
        Closing::Listed => None,
        Closing::FirstX => Some(Point {
            x: first.x,
            y: last.y,
        }),
        Closing::FirstY => Some(Point {
            x: last.x,
            y: first.y,
        }),
    }
}

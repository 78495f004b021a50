//! Readings of a ring, and the lists that they read.

ghost use Rattle.std.specs.Prelude.{◌≡◌, ◌+◌, ◌-◌, ◌<◌, List, length, IfOk};
ghost use Rattle.oas_ring.specs.Points.{point_at};
ghost use Rattle.oas_ring.specs.Readings.{reading_of};
ghost use Rattle.oas_ring.specs.declared.point.Point.{Point};

use crate::point::Point;
use std::alloc::{AllocError, Global};

/// Where a ring is read from, and in which direction.
#[derive(Clone, Copy, Debug, PartialEq, Eq)]
pub struct Reading {
    /// The place in the list of the first point.
    pub start: usize,
    /// Whether the points are read against the order of the list.
    pub backwards: bool,
}

/// The place in a ring of `count` points of the point at place `k` of a reading.
pub(crate) fn place(count: usize, reading: Reading, k: usize) -> usize
    requires start { reading.start < count }
    requires place { k < count }
    ensures within { result < count }
    ensures point { (p : List Point) → length p ≡ count → point_at (reading_of p reading) k ≡ point_at p result }
{
    if reading.backwards {
        if k <= reading.start {
            reading.start - k
        } else {
            count - (k - reading.start)
        }
    } else if k < count - reading.start {
        reading.start + k
    } else {
        k - (count - reading.start)
    }
}

/// The points of a reading: from the one at `start` on, round the list in its order or against it.
pub fn apply(alloc: Global, points: &[Point], reading: Reading) -> Result<Vec<Point>, AllocError>
    requires { reading.start < length points.now }
    ensures { IfOk result (λ read. read.items ≡ reading_of points.now reading) }
{
    let count = points.len();
    let mut read = Vec::with_capacity(alloc, count)?;
    for k in 0..count {
        let i = place(count, reading, k);
        read.push(points[i])?;
    }
    Ok(read)
}

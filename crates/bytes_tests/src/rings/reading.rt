//! Readings of a ring.

ghost use Rattle.std.specs.Prelude.{◌<◌, length};

use oas_ring::{CountedRing, Point, Reading, apply, least_reading, least_reading_over};
use std::alloc::{AllocError, Global};

pub(crate) fn at(x: i64, y: i64) -> Point {
    Point { x, y }
}

/// Whether this reading of the ring is this list. No reading begins past the end.
pub(crate) fn is_read_as(
    alloc: Global,
    ring: &[Point],
    reading: Reading,
    list: &[Point],
) -> Result<bool, AllocError> {
    if reading.start >= ring.len() {
        return Ok(false);
    }
    let read = apply(alloc, ring, reading)?;
    Ok(read.as_slice() == list)
}

/// The least reading of a ring by its view, and whether it is found in at most seven steps a point.
fn counted_reading(ring: &[Point]) -> (Reading, bool)
    requires { 0 < length ring.now }
{
    let mut counted = CountedRing::new(ring);
    let reading = least_reading_over(&mut counted);
    (reading, counted.steps() <= 7 * ring.len() as u64)
}

/// Whether the least reading of the ring is this list, by its points and by its view, and whether the second is found in at
/// most seven steps a point.
pub(crate) fn reads(
    alloc: Global,
    ring: &[Point],
    least: &[Point],
) -> Result<[bool; 3], AllocError> {
    if ring.is_empty() {
        return Ok([false; 3]);
    }
    let (counted, soon) = counted_reading(ring);
    let by_points = is_read_as(alloc, ring, least_reading(ring), least)?;
    let by_view = is_read_as(alloc, ring, counted, least)?;
    Ok([by_points, by_view, soon])
}

/// Like `reads`, for the ring of this reading.
pub(crate) fn turned_reads(
    alloc: Global,
    ring: &[Point],
    reading: Reading,
    least: &[Point],
) -> Result<[bool; 3], AllocError> {
    if reading.start >= ring.len() {
        return Ok([false; 3]);
    }
    let turned = apply(alloc, ring, reading)?;
    reads(alloc, &turned, least)
}

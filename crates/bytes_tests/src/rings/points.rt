//! Lists of points that are held, and allocations that fail.

use super::reading::{at, is_read_as};
use oas_ring::{Point, Points, least_reading};
use std::alloc::{AllocError, Global};
use std::test::Fail;
use test_tools::Hoard;

/// A list of points that is held.
fn held(alloc: Global, points: &[Point]) -> Result<Points, AllocError> {
    Ok(Points::new(points.to_vec(alloc)?))
}

/// Whether a list is below another.
fn is_below(alloc: Global, low: &[Point], high: &[Point]) -> Result<bool, AllocError> {
    let low = held(alloc, low)?;
    let high = held(alloc, high)?;
    Ok(low < high)
}

/// Whether a copy of the list is equal to it, and how many points it has.
fn copied(alloc: Global, points: &Points) -> Result<(bool, usize), AllocError> {
    let copy = points.try_clone(alloc)?;
    Ok((copy == *points, copy.as_slice().len()))
}

#[test]
fn points_are_ordered_as_lists(rt: HostRuntime) {
    let short = [at(1, 5)];
    let long = [at(1, 5), at(0, 0)];
    let later = [at(1, 6)];
    let long_is_above = is_below(rt.alloc(), &short, &long);
    let long_is_below = is_below(rt.alloc(), &long, &later);
    let found = [long_is_above, long_is_below];
    assert!(rt; found == [Ok(true); 2]);
}

#[test]
fn points_are_copied(rt: HostRuntime) -> Result<(), Fail> {
    let points = held(rt.alloc(), &[at(1, 5), at(0, 0)])?;
    let found = copied(rt.alloc(), &points);
    assert!(rt; found == Ok((true, 2)));
    Ok(())
}

/// How many results were out of memory, and how many were wrong.
#[derive(Clone, Copy)]
struct Tally {
    refused: u32,
    wrong: u32,
}

impl Tally {
    fn count(&mut self, answer: Result<bool, AllocError>) {
        match answer {
            Ok(true) => {}
            Ok(false) => self.wrong = self.wrong.saturating_add(1),
            Err(AllocError) => self.refused = self.refused.saturating_add(1),
        }
    }
}

/// A rectangle.
fn rectangle() -> [Point; 4] {
    [at(0, 0), at(10, 0), at(10, 20), at(0, 20)]
}

/// Whether its least reading is as expected.
fn rectangle_reads(alloc: Global) -> Result<bool, AllocError> {
    let ring = rectangle();
    let least = [at(0, 0), at(0, 20), at(10, 20), at(10, 0)];
    is_read_as(alloc, &ring, least_reading(&ring), &least)
}

/// Whether a copy of the list is equal to it.
fn is_copied(alloc: Global, points: &Points) -> Result<bool, AllocError> {
    Ok(points.try_clone(alloc)? == *points)
}

/// The results of `rectangle_reads` and of `is_copied`, as memory comes back by one small piece after each.
fn tallies(alloc: Global, hoard: &mut Hoard, points: &Points) -> [Tally; 2] {
    let mut readings = Tally {
        refused: 0,
        wrong: 0,
    };
    let mut copies = readings;
    for _ in 0..hoard.pieces() {
        readings.count(rectangle_reads(alloc));
        copies.count(is_copied(alloc, points));
        hoard.give_back();
    }
    [readings, copies]
}

/// Which of both fail as memory comes back, how many results are wrong, and whether the heap was filled.
fn answers_in_want(
    alloc: Global,
    points: &Points,
) -> Result<([bool; 2], [u32; 2], bool), AllocError> {
    let mut hoard = Hoard::new(alloc)?;
    let [readings, copies] = tallies(alloc, &mut hoard, points);
    let refused = [readings.refused > 0, copies.refused > 0];
    Ok((refused, [readings.wrong, copies.wrong], hoard.is_full()))
}

/// Each allocation of `apply` and `try_clone` fails in turn, with a memory budget that grows by one small piece, until both
/// succeed. Where the heap cannot be filled, as under an address checker, neither fails.
#[test]
fn growths_are_refused(rt: HostRuntime) -> Result<(), Fail> {
    let points = held(rt.alloc(), &rectangle())?;
    let (refused, wrong, is_full) = answers_in_want(rt.alloc(), &points)?;
    let later = [rectangle_reads(rt.alloc()), is_copied(rt.alloc(), &points)];
    let answers = (refused, wrong, later);
    assert!(rt; answers == ([is_full; 2], [0; 2], [Ok(true); 2]));
    Ok(())
}

//! Rings whose least readings are known from outside, and rings that go round a rectangle or do not.

use super::reading::{at, reads, turned_reads};
use oas_ring::{Corners, Point, Reading, as_box, same_ring};
use std::alloc::{AllocError, Global};

/// Like `reads`: whether all of it holds.
fn reads_well(alloc: Global, ring: &[Point], least: &[Point]) -> bool {
    reads(alloc, ring, least) == Ok([true; 3])
}

#[test]
fn known_least_readings(rt: HostRuntime) {
    let twice_through_its_least = [at(0, 0), at(2, 1), at(1, 2), at(0, 0), at(1, 3), at(3, 1)];
    let least = [at(0, 0), at(1, 2), at(2, 1), at(0, 0), at(3, 1), at(1, 3)];
    assert!(rt; reads_well(rt.alloc(), &twice_through_its_least, &least));
    let its_own_reverse = [at(2, 0), at(1, 0), at(0, 0), at(1, 0)];
    let least = [at(0, 0), at(1, 0), at(2, 0), at(1, 0)];
    assert!(rt; reads_well(rt.alloc(), &its_own_reverse, &least));
    assert!(rt; reads_well(rt.alloc(), &[at(3, 4)], &[at(3, 4)]));
    assert!(rt; reads_well(rt.alloc(), &[at(5, 5); 4], &[at(5, 5); 4]));
}

/// How many readings of the ring, two from each place, do not have the ring itself as their least reading.
fn misread(alloc: Global, ring: &[Point]) -> Result<u32, AllocError> {
    let mut misread = 0u32;
    for start in 0..ring.len() {
        for backwards in [false, true] {
            let reading = Reading { start, backwards };
            if turned_reads(alloc, ring, reading, ring)? != [true; 3] {
                misread = misread.saturating_add(1);
            }
        }
    }
    Ok(misread)
}

/// Whether each reading of the ring has the ring itself as its least reading.
fn is_least(alloc: Global, ring: &[Point]) -> bool {
    misread(alloc, ring) == Ok(0)
}

#[test]
fn one_point_below_all_others(rt: HostRuntime) {
    let second_decides = [at(0, 9), at(1, 1), at(2, 5), at(3, 0), at(1, 4)];
    assert!(rt; is_least(rt.alloc(), &second_decides));
    let third_decides = [
        at(-1, 0),
        at(0, 0),
        at(0, -2),
        at(5, 5),
        at(0, -1),
        at(0, 0),
    ];
    assert!(rt; is_least(rt.alloc(), &third_decides));
    let least_by_its_y = [at(2, -7), at(2, -6), at(2, 0), at(3, -9)];
    assert!(rt; is_least(rt.alloc(), &least_by_its_y));
    let alike_in_both_directions = [at(0, 0), at(1, 0), at(2, 0), at(1, 0)];
    assert!(rt; is_least(rt.alloc(), &alike_in_both_directions));
    let far_apart = [at(i64::MIN, i64::MAX), at(0, 0), at(i64::MAX, i64::MIN)];
    assert!(rt; is_least(rt.alloc(), &far_apart));
    assert!(rt; is_least(rt.alloc(), &[at(1, 2), at(1, 3)]));
}

#[test]
fn least_points_that_tie(rt: HostRuntime) {
    let side_by_side = [at(0, 0), at(0, 0), at(1, 2), at(3, 3), at(1, 3)];
    assert!(rt; is_least(rt.alloc(), &side_by_side));
    let apart = [at(0, 0), at(1, 1), at(0, 0), at(1, 2), at(2, 2)];
    assert!(rt; is_least(rt.alloc(), &apart));
    let thrice = [at(0, 0), at(1, 1), at(0, 0), at(1, 2), at(0, 0), at(1, 3)];
    assert!(rt; is_least(rt.alloc(), &thrice));
    let others_tie = [at(0, 5), at(1, 1), at(1, 1), at(2, 2), at(2, 2)];
    assert!(rt; is_least(rt.alloc(), &others_tie));
    assert!(rt; is_least(rt.alloc(), &[at(1, 2), at(1, 2)]));
}

#[test]
fn three_readings_of_one_rectangle(rt: HostRuntime) {
    let x_first = [at(0, 0), at(10, 0), at(10, 20), at(0, 20)];
    let y_first = [at(0, 0), at(0, 20), at(10, 20), at(10, 0)];
    let backwards = [at(10, 20), at(10, 0), at(0, 0), at(0, 20)];
    let corners = Corners {
        low: at(0, 0),
        high: at(10, 20),
    };
    for ring in [&x_first, &y_first, &backwards] {
        let same = [same_ring(ring, &x_first), same_ring(ring, &backwards)];
        let answers = (reads(rt.alloc(), ring, &y_first), same, as_box(ring));
        assert!(rt; answers == (Ok([true; 3]), [true; 2], Some(corners)));
    }
}

#[test]
fn rings_that_are_no_box(rt: HostRuntime) {
    let crossing = [at(0, 0), at(0, 20), at(10, 0), at(10, 20)];
    let its_own_reverse = [at(2, 0), at(1, 0), at(0, 0), at(1, 0)];
    let flat = [at(0, 0), at(10, 0), at(10, 0), at(0, 0)];
    let boxes = [as_box(&crossing), as_box(&its_own_reverse), as_box(&flat)];
    assert!(rt; boxes == [None; 3]);
}

#[test]
fn unlike_lengths(rt: HostRuntime) {
    let none: [Point; 0] = [];
    let both_empty = same_ring(&none, &none);
    let one_empty = same_ring(&none, &[at(0, 0)]);
    let one_and_two = same_ring(&[at(0, 0)], &[at(0, 0); 2]);
    let found = [both_empty, one_empty, one_and_two];
    assert!(rt; found == [true, false, false]);
}

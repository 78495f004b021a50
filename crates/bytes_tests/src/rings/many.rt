//! The plain reference on many small rings, and large rings.

use super::plain::plain_least;
use super::reading::{at, reads};
use oas_ring::{Point, Reading, apply, least_reading, same_ring};
use std::alloc::{AllocError, Global};
use std::test::Fail;

#[test]
fn thousand_points(rt: HostRuntime) {
    let equal = [at(0, 0); 1000];
    let mut all_but_one = equal;
    all_but_one[999] = at(0, 1);
    let of_equal = reads(rt.alloc(), &equal, &equal);
    let of_others = reads(rt.alloc(), &all_but_one, &all_but_one);
    let found = [of_equal, of_others];
    assert!(rt; found == [Ok([true; 3]); 2]);
}

/// The ring whose points are the digits of `code` to the base 3, each of which is a letter.
fn spelled(alloc: Global, code: u32, count: usize) -> Result<Vec<Point>, AllocError> {
    let letters = [at(0, 1), at(1, -1), at(1, 0)];
    let mut ring = Vec::with_capacity(alloc, count)?;
    let mut rest = code;
    for _ in 0..count {
        ring.push(letters[(rest % 3) as usize])?;
        rest /= 3;
    }
    Ok(ring)
}

/// Like `reads`, for a spelled ring and the reference.
fn spelled_reads(alloc: Global, code: u32, count: usize) -> Result<[bool; 3], AllocError> {
    let ring = spelled(alloc, code, count)?;
    let least = plain_least(alloc, &ring)?;
    reads(alloc, &ring, &least)
}

#[test]
fn all_rings_of_few_points(rt: HostRuntime) {
    for (count, codes) in [(1, 3), (2, 9), (3, 27), (4, 81), (5, 243), (6, 729)] {
        for code in 0..codes {
            let answer = spelled_reads(rt.alloc(), code, count);
            assert!(rt; answer == Ok([true; 3]), "{code} of {count}");
        }
    }
}

/// Whether two rings are the same, and whether the reference says so.
fn sameness(alloc: Global, ring: &[Point], other: &[Point]) -> Result<[bool; 2], AllocError> {
    let least = plain_least(alloc, ring)?;
    let is_least = plain_least(alloc, other)? == least;
    Ok([same_ring(ring, other), is_least])
}

/// Like `sameness`, for two spelled rings.
fn spelled_sameness(
    alloc: Global,
    code: u32,
    other: u32,
    count: usize,
) -> Result<[bool; 2], AllocError> {
    let ring = spelled(alloc, code, count)?;
    let other = spelled(alloc, other, count)?;
    sameness(alloc, &ring, &other)
}

/// How many of the spelled rings with this many points are the same as this one by the crate or by the reference, but not by
/// both.
fn unlike_answers(alloc: Global, code: u32, codes: u32, count: usize) -> Result<u32, AllocError> {
    let mut unlike = 0u32;
    for other in 0..codes {
        let [same, by_reference] = spelled_sameness(alloc, code, other, count)?;
        if same != by_reference {
            unlike = unlike.saturating_add(1);
        }
    }
    Ok(unlike)
}

#[test]
fn all_pairs_of_rings_of_few_points(rt: HostRuntime) {
    for (count, codes) in [(1, 3), (2, 9), (3, 27), (4, 81)] {
        for code in 0..codes {
            let unlike = unlike_answers(rt.alloc(), code, codes, count);
            assert!(rt; unlike == Ok(0), "{code} of {count}");
        }
    }
}

/// A ring of many points.
fn large_ring(alloc: Global) -> Result<Vec<Point>, AllocError> {
    let mut ring = Vec::with_capacity(alloc, 65536)?;
    for i in 0..65536i64 {
        ring.push(at(i % 3, i % 256))?;
    }
    Ok(ring)
}

/// Whether a ring is the same as another, and whether the other reads as its least reading.
fn are_alike(
    alloc: Global,
    ring: &[Point],
    other: &[Point],
) -> Result<(bool, [bool; 3]), AllocError> {
    if ring.is_empty() {
        return Ok((false, [false; 3]));
    }
    let least = apply(alloc, ring, least_reading(ring))?;
    Ok((same_ring(ring, other), reads(alloc, other, &least)?))
}

/// Like `are_alike`, for a ring and one of its readings; and whether they still are when a point of the first was changed.
fn changed_reading(
    alloc: Global,
    ring: &mut [Point],
    reading: Reading,
    changed: usize,
) -> Result<(bool, [bool; 3], bool), AllocError> {
    if reading.start >= ring.len() || changed >= ring.len() {
        return Ok((false, [false; 3], true));
    }
    let other = apply(alloc, ring, reading)?;
    let (same, least) = are_alike(alloc, ring, &other)?;
    ring[changed] = at(0, 300);
    Ok((same, least, same_ring(ring, &other)))
}

#[test]
fn two_readings_of_a_large_ring(rt: HostRuntime) -> Result<(), Fail> {
    let mut ring = large_ring(rt.alloc())?;
    let reading = Reading {
        start: 40000,
        backwards: true,
    };
    let answers = changed_reading(rt.alloc(), &mut ring, reading, 30000);
    assert!(rt; answers == Ok((true, [true; 3], false)));
    Ok(())
}

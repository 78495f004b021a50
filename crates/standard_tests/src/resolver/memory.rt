//! Allocations that fail: a record fails out of memory, or is translated correctly.
//!
//! The heap is filled up, and given back a small piece after each run, so that what keeps a polygon's points and what makes
//! those of a trapezoid fails before it succeeds. Where the heap cannot be filled, as under an address checker, no call
//! fails, and the results are the same.

use super::{discard, in_a_cell, next};
use oas_num::{SliceSource, Why};
use oas_record::Record;
use oas_standard::WideWhy;
use oas_trapezoids::{Resolved, Resolver};
use std::alloc::{AllocError, Global};
use std::test::Fail;
use test_tools::Hoard;

/// A polygon with all its fields, a CTRAPEZOID of kind 22 with all its fields, and a polygon without points.
const RECORDS: &[u8] = &[
    0x15, 0x3b, 1, 2, 4, 2, 0x40, 0x62, 2, 4, 0x1a, 0xdb, 1, 2, 22, 9, 2, 4, 0x15, 0,
];

/// Whether it is one polygon with points, or why it is refused.
fn is_polygon(answer: &Result<Resolved, WideWhy>) -> Result<bool, WideWhy> {
    match answer {
        Ok(Resolved::One(Record::Polygon(drawn))) => Ok(drawn.points.is_some()),
        Ok(_) => Ok(false),
        Err(why) => Err(*why),
    }
}

/// Resolves the next record, and returns whether it is one polygon with points.
fn resolves_next(
    alloc: Global,
    source: &mut SliceSource<'_>,
    resolver: &mut Resolver,
) -> Result<bool, WideWhy> {
    let answer = next(alloc, source, resolver);
    let is_polygon = is_polygon(&answer);
    discard(answer);
    is_polygon
}

/// Resolves the records after a CELL, and returns whether each is one polygon with points.
fn resolves_all(alloc: Global) -> Result<bool, WideWhy> {
    let mut source = SliceSource::new(RECORDS, 100);
    let mut resolver = in_a_cell(alloc);
    let mut all = true;
    for _ in 0..3u8 {
        all = resolves_next(alloc, &mut source, &mut resolver)? && all;
    }
    Ok(all)
}

/// Runs once. Whether all was `resolved`, or failed out of memory (`refused`); `wrong` where it was neither.
fn run(alloc: Global) -> &'static str {
    match resolves_all(alloc) {
        Ok(true) => "resolved",
        Err(WideWhy::Profile(Why::Memory)) => "refused",
        _ => "wrong",
    }
}

/// Runs until it succeeds, and gives back a piece of memory after each failure. How the last run ended, and how many failed.
fn insist(alloc: Global, hoard: &mut Hoard) -> (&'static str, u32) {
    for refused in 0..4000u32 {
        let end = run(alloc);
        if end != "refused" {
            return (end, refused);
        }
        hoard.give_back();
    }
    ("refused", 4000)
}

/// How the last run ended, and whether more than one failed, where the heap could be filled.
fn ends(alloc: Global) -> Result<(&'static str, bool), AllocError> {
    let mut hoard = Hoard::new(alloc)?;
    let (end, refused) = insist(alloc, &mut hoard);
    Ok((end, !hoard.is_full() || refused > 1))
}

#[test]
fn resolver_without_memory(rt: HostRuntime) -> Result<(), Fail> {
    let (end, is_refused_enough) = ends(rt.alloc())?;
    assert!(rt; end == "resolved" && is_refused_enough, "{end}");
    Ok(())
}

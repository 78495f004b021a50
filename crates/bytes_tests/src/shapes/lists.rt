//! Point lists, by their bytes.

use super::rows::{bytes_of, point, row_parts};
use oas_num::{SliceSource, Why};
use oas_ring::Point;
use oas_shape::{ListUse, PointList};
use std::alloc::{AllocError, Global};
use std::process::Abort;

fn use_of(word: &str) -> ListUse {
    if word == "path" {
        ListUse::Path
    } else {
        ListUse::Polygon
    }
}

/// Whether these are the points of the words.
fn are(points: &[Point], wanted: &str) -> bool {
    let mut words = wanted.split_whitespace();
    let mut all = true;
    for held in points {
        all &= (held.x, held.y) == point(words.next().unwrap_or(""));
    }
    all && words.next().is_none()
}

fn small(word: &str) -> i8 {
    word.parse().unwrap_or(0)
}

/// A place of two small numbers.
fn place(text: &str) -> (i8, i8) {
    let (x, y) = text.split_once(" ").unwrap_or(("", ""));
    (small(x), small(y))
}

/// Whether the list's vertices from a place on are these.
fn gives(alloc: Global, list: &PointList, (x, y): (i8, i8), wanted: &str) -> bool {
    let at = Point {
        x: i64::from(x),
        y: i64::from(y),
    };
    match list.vertices(alloc, at) {
        Ok(points) => points.len() == list.len() && are(&points, wanted),
        Err(_) => false,
    }
}

/// Whether those of a copy are.
fn copy_gives(alloc: Global, list: &PointList, at: (i8, i8), wanted: &str) -> bool {
    match list.try_clone(alloc) {
        Ok(copy) => gives(alloc, &copy, at, wanted),
        Err(AllocError) => false,
    }
}

/// Reads a list.
fn read(alloc: Global, list_use: ListUse, bytes: &str) -> Result<PointList, Why> {
    let bytes = bytes_of(alloc, bytes)?;
    PointList::read(alloc, &mut SliceSource::new(&bytes, 1000), list_use)
}

/// The use of a list, its bytes, where it begins, and its vertices. The last vertex of a polygon of type 0 or 1 follows from
/// the others; types 4 and 5 spell one list by deltas and by running displacements; the last two paths go round by each
/// 3-delta and by each g-delta of form 1.
const LISTS: &str = "polygon|0 2 20 40|0 0|0,0 10,0 10,20 0,20
polygon|1 2 40 20|0 0|0,0 0,20 10,20 10,0
polygon|0 4 4 6 4 8|1 2|1,2 3,2 3,5 5,5 5,9 1,9
polygon|2 3 6 6 4|2 0|2,0 1,0 0,0 1,0
polygon|4 3 198 2 164 1 194 2|10 20|10,20 10,0 0,0 0,20
polygon|4 5 9 2 7 2 7 5 5 6 9 5|0 0|0,0 2,1 1,2 0,0 1,3 3,1
polygon|5 3 160 1 0 170 1|0 0|0,0 10,0 20,0 20,10
polygon|4 3 160 1 160 1 162 1|0 0|0,0 10,0 20,0 20,10
path|4 0|3 4|3,4
path|3 2 84 11|0 0|0,0 10,10 10,9
path|0 3 4 6 5|0 0|0,0 2,0 2,3 0,3
path|1 2 40 20|0 0|0,0 0,20 10,20
path|3 8 8 9 10 11 12 13 14 15|0 0|0,0 1,0 1,1 0,1 0,0 1,1 0,2 -1,1 0,0
path|4 8 16 18 20 22 24 26 28 30|0 0|0,0 1,0 1,1 0,1 0,0 1,1 0,2 -1,1 0,0";

/// Whether the list of a row gives its vertices, and whether a copy does.
fn both_give(alloc: Global, row: &str) -> Result<[bool; 2], Why> {
    let [list_use, bytes, at, wanted] = row_parts(row);
    let list = read(alloc, use_of(list_use), bytes)?;
    let at = place(at);
    Ok([
        gives(alloc, &list, at, wanted),
        copy_gives(alloc, &list, at, wanted),
    ])
}

#[test]
fn vertices(rt: HostRuntime) {
    for row in LISTS.lines() {
        assert!(rt; both_give(rt.alloc(), row) == Ok([true; 2]), "at {row}");
    }
}

/// The number of the reason for which a list is refused; 0 where it isn't.
fn refusal(alloc: Global, list_use: ListUse, bytes: &str) -> u8 {
    match read(alloc, list_use, bytes) {
        Ok(_list) => 0,
        Err(why) => why.number(),
    }
}

/// The use of a list, its bytes, and the number of the reason. The last three have a count of 2^64 - 1, followed by nothing
/// or by some deltas.
const REFUSED: &str = "polygon|6|15
polygon|0 3|16
polygon|4 1|16
polygon|1 0|16
polygon|4 255 255 255 255 255 255 255 255 255 1|2
path|4 255 255 255 255 255 255 255 255 255 1|2
path|4 255 255 255 255 255 255 255 255 255 1 0 2 4|2";

#[test]
fn lists_refused(rt: HostRuntime) {
    for row in REFUSED.lines() {
        let [list_use, bytes, wanted, _] = row_parts(row);
        let found = refusal(rt.alloc(), use_of(list_use), bytes);
        assert!(rt; found == wanted.parse().unwrap_or(255), "at {row}: {found}");
    }
}

/// The number of the reason for which vertices from the origin on are refused; 0 where they aren't.
fn walk_refusal(alloc: Global, bytes: &str) -> Result<u8, Why> {
    let list = read(alloc, ListUse::Path, bytes)?;
    match list.vertices(alloc, Point { x: 0, y: 0 }) {
        Ok(_points) => Ok(0),
        Err(why) => Ok(why.number()),
    }
}

/// One step of 2^60 east is within the limits, and one more isn't; neither is a running one of 2^60 - 1 twice.
const WALKS: &str = "4 2 129 128 128 128 128 128 128 128 64 0 5 0|23
4 1 129 128 128 128 128 128 128 128 64 0 5 0|0
5 2 129 128 128 128 128 128 128 128 64 0 1 0|23";

#[test]
fn vertices_refused(rt: HostRuntime) {
    for row in WALKS.lines() {
        let [bytes, wanted, _, _] = row_parts(row);
        let wanted = wanted.parse().unwrap_or(255);
        assert!(rt; walk_refusal(rt.alloc(), bytes) == Ok(wanted), "at {row}");
    }
}

//! Polygons without a repetition.

use super::shown::{Kind, assert_nothing_where_cut, assert_shown, is_shown};
use oas_peek::peek_polygon;
use oas_record::Polygon;
use std::alloc::{AllocError, Global};
use std::test::Fail;

/// A polygon of layer 1, datatype 0 at (-1, 64), with the steps (10, 0), (0, 20) and (-10, 0).
const WHOLE: [u8; 15] = [
    0x15, 0x3B, 0x01, 0x00, 0x04, 0x03, 0x29, 0x00, 0x01, 0x28, 0x2B, 0x00, 0x03, 0x80, 0x01,
];

/// How many points the list has that it gives, or none.
fn points_of(polygon: &Polygon) -> usize {
    match &polygon.points {
        Some(points) => points.len(),
        None => 0,
    }
}

/// Whether it has the fields of the whole one.
fn is_whole(polygon: &Polygon) -> bool {
    let spot = &polygon.spot;
    (polygon.layer, polygon.datatype) == (Some(1), Some(0))
        && (spot.x, spot.y) == (Some(-1), Some(64))
        && spot.repetition.is_none()
        && points_of(polygon) == 4
}

/// Whether the whole one is found.
fn finds_whole(alloc: Global) -> bool {
    match peek_polygon(alloc, &WHOLE) {
        Some(ahead) => is_whole(&ahead.polygon),
        None => false,
    }
}

/// The whole one, followed by a byte.
const ALL_FIELDS: &str = "15 3b 01 00 04 03 2900 0128 2b00 03 8001 22: 15 true";

#[test]
fn all_fields(rt: HostRuntime) -> Result<(), Fail> {
    assert!(rt; finds_whole(rt.alloc()));
    assert_shown(&rt, rt.alloc(), Kind::Polygon, ALL_FIELDS)
}

/// No point list, no field, only a point list, and all except one field.
const SOME_FIELDS: &str = "\
15 1b 01 00 03 02: 6 false\n\
15 00: 2 false\n\
15 20 04 02 2900 0128: 8 false\n\
15 3a 01 04 02 2900 0128 02 04: 11 false\n\
15 33 01 02 04 02 2900 0128 02: 11 false\n\
15 2b 01 02 04 02 2900 0128 02: 11 false";

#[test]
fn some_fields(rt: HostRuntime) -> Result<(), Fail> {
    assert_shown(&rt, rt.alloc(), Kind::Polygon, SOME_FIELDS)
}

/// In each of the eight directions; one such step among others; and two of no length.
const STEPS_OF_ONE_NUMBER: &str = "\
15 3b 01 00 04 08 10 22 34 46 58 6a 7c 8e01 02 04: 17 false\n\
15 3b 01 00 04 03 2900 42 2b00 02 04: 13 false\n\
15 3b 01 00 04 02 00 0e 02 04: 10 false";

#[test]
fn steps_of_one_number(rt: HostRuntime) -> Result<(), Fail> {
    assert_shown(&rt, rt.alloc(), Kind::Polygon, STEPS_OF_ONE_NUMBER)
}

/// A step of (0, 0), and one with nine bytes for each number. Minus zero to the east and to the north; the type, the count,
/// either number of a step and x in one byte too many.
const STYLES: &str = "\
15 3b 01 00 04 02 0100 2900 02 04: 12 true\n\
15 3b 01 00 04 02 ff*8 7f ff*8 7f 2900 02 04: 28 true\n\
15 3b 01 00 04 02 0300 2900 02 04: 12 false\n\
15 3b 01 00 04 02 0101 2900 02 04: 12 false\n\
15 3b 01 00 8400 02 0128 2900 02 04: 13 false\n\
15 3b 01 00 04 8200 0128 2900 02 04: 13 false\n\
15 3b 01 00 04 02 810028 2900 02 04: 13 false\n\
15 3b 01 00 04 02 01a800 2900 02 04: 13 false\n\
15 3b 01 00 04 02 0128 2900 8200 04: 13 false";

#[test]
fn only_the_shortest_is_it(rt: HostRuntime) -> Result<(), Fail> {
    assert_shown(&rt, rt.alloc(), Kind::Polygon, STYLES)
}

/// A polygon with this many steps, not all in the shortest style.
fn of_steps(alloc: Global, count: u8) -> Result<Vec<u8>, AllocError> {
    let mut bytes = [0x15, 0x3B, 0x01, 0x00, 0x04, count].to_vec(alloc)?;
    for step in 0..count {
        bytes.extend_from_slice(&[step | 1, step])?;
    }
    bytes.extend_from_slice(&[0x02, 0x04])?;
    Ok(bytes)
}

/// Whether it is found with its points.
fn finds_points(alloc: Global, bytes: &[u8], count: usize) -> bool {
    match peek_polygon(alloc, bytes) {
        Some(ahead) => points_of(&ahead.polygon) == count,
        None => false,
    }
}

/// Whether it is found, with its points, as a reader returns it.
fn finds_steps(alloc: Global, count: u8) -> Result<bool, Fail> {
    let bytes = of_steps(alloc, count)?;
    let wanted = format!(in alloc; "{} false", bytes.len())?;
    Ok(
        is_shown(alloc, Kind::Polygon, &bytes, &wanted)?
            && finds_points(alloc, &bytes, usize::from(count) + 1),
    )
}

#[test]
fn more_steps_than_there_is_room_for_at_first(rt: HostRuntime) -> Result<(), Fail> {
    for count in [31u8, 32, 33, 100] {
        assert!(rt; finds_steps(rt.alloc(), count)?, "{count}");
    }
    Ok(())
}

#[test]
fn nothing_where_they_are_cut(rt: HostRuntime) -> Result<(), Fail> {
    assert_nothing_where_cut(&rt, rt.alloc(), Kind::Polygon, &WHOLE)
}

/// Lists of each other type, of four steps too, with one in nine bytes, and one of a type that does not exist.
const OF_OTHER_TYPES: &str = "\
15 20 00 02 29 02: 6 false\n\
15 20 01 02 29 02: 6 false\n\
15 20 02 02 29 02: 6 false\n\
15 20 03 02 29 02: 6 false\n\
15 20 05 02 2902 2902: 8 false\n\
15 3b 01 00 00 04 28 0a 03 ff*8 7f 02 04: 20 false\n\
15 3b 01 00 01 04 28 0a 03 ff*8 7f 02 04: 20 false\n\
15 3b 01 00 02 04 28 29 2a ff*8 7f 02 04: 20 false\n\
15 3b 01 00 03 08 28 29 2a 2b 2c 2d 2e ff*8 7f 02 04: 24 false\n\
15 3b 01 00 05 04 2900 42 2b00 2928 02 04: 15 false\n\
15 20 06 02 29 02";

#[test]
fn lists_of_the_other_types(rt: HostRuntime) -> Result<(), Fail> {
    assert_shown(&rt, rt.alloc(), Kind::Polygon, OF_OTHER_TYPES)
}

/// None, one, an odd number where it must be even, and more than there are.
const COUNTS: &str = "\
15 20 00 03 29 02 29\n\
15 20 01 03 29 02 29\n\
15 20 02 01 29\n\
15 20 04 00 2900 2900\n\
15 20 04 01 2900 2900\n\
15 20 04 03 2900 2900\n\
15 20 04 ff*8 7f 2900 2900";

#[test]
fn nothing_where_the_count_does_not_fit(rt: HostRuntime) -> Result<(), Fail> {
    assert_shown(&rt, rt.alloc(), Kind::Polygon, COUNTS)
}

/// A repetition; a count and two kinds of steps of ten bytes; an id of two bytes; an info byte that no polygon has, and other ids.
const OTHERS: &str = "\
15 04 00: left\n\
15 24 04 02 2900 0128 02 00 08: left\n\
15 20 04 82 80*8 00 2900 2900: left\n\
15 20 04 02 a9 80*8 00 00 2900: left\n\
15 20 02 02 a9 80*8 00 29: left\n\
9500 00: left\n\
15 40 00\n\
15 80 00\n\
14 00\n\
16 00";

#[test]
fn nothing_else(rt: HostRuntime) -> Result<(), Fail> {
    assert_shown(&rt, rt.alloc(), Kind::Polygon, OTHERS)
}

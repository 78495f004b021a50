//! Paths without a repetition.

use super::shown::{Kind, assert_nothing_where_cut, assert_shown};
use oas_peek::peek_path;
use oas_record::{Extension, Extensions, Path};
use std::alloc::Global;
use std::test::Fail;

/// A path of layer 1, datatype 0, half-width 5 at (-1, 64), with the extensions -2 and 7 and the steps (10, 0) and (0, 20).
const WHOLE: [u8; 17] = [
    0x16, 0xFB, 0x01, 0x00, 0x05, 0x0F, 0x05, 0x0E, 0x04, 0x02, 0x29, 0x00, 0x01, 0x28, 0x03, 0x80,
    0x01,
];

/// Whether it has three points.
fn has_three_points(path: &Path) -> bool {
    match &path.points {
        Some(points) => points.len() == 3,
        None => false,
    }
}

/// Whether it has the fields of the whole one.
fn is_whole(path: &Path) -> bool {
    let spot = &path.spot;
    let extensions = Extensions {
        start: Extension::Explicit(-2),
        end: Extension::Explicit(7),
    };
    (path.layer, path.datatype, path.half_width) == (Some(1), Some(0), Some(5))
        && path.extensions == Some(extensions)
        && (spot.x, spot.y) == (Some(-1), Some(64))
        && spot.repetition.is_none()
        && has_three_points(path)
}

/// Whether the whole one is found.
fn finds_whole(alloc: Global) -> bool {
    match peek_path(alloc, &WHOLE) {
        Some(ahead) => is_whole(&ahead.path),
        None => false,
    }
}

/// The whole one, followed by a byte.
const ALL_FIELDS: &str = "16 fb 01 00 05 0f 05 0e 04 02 2900 0128 03 8001 22: 17 true";

#[test]
fn all_fields(rt: HostRuntime) -> Result<(), Fail> {
    assert!(rt; finds_whole(rt.alloc()));
    assert_shown(&rt, rt.alloc(), Kind::Path, ALL_FIELDS)
}

/// No field, each alone, and all except the layer.
const SOME_FIELDS: &str = "\
16 00: 2 false\n\
16 01 07: 3 false\n\
16 02 07: 3 false\n\
16 40 07: 3 false\n\
16 80 0f 05 0e: 5 false\n\
16 20 04 01 2900: 6 false\n\
16 10 03: 3 false\n\
16 08 03: 3 false\n\
16 fa 01 05 0f 05 0e 04 01 2900 03 02: 13 false";

#[test]
fn some_fields(rt: HostRuntime) -> Result<(), Fail> {
    assert_shown(&rt, rt.alloc(), Kind::Path, SOME_FIELDS)
}

/// None, one, two, three, 32 and 33.
const STEPS: &str = "\
16 fb 01 00 05 0f 05 0e 04 00 02 04: 12 true\n\
16 fb 01 00 05 0f 05 0e 04 01 2928 02 04: 14 true\n\
16 fb 01 00 05 0f 05 0e 04 02 2928*2 02 04: 16 true\n\
16 fb 01 00 05 0f 05 0e 04 03 2928*3 02 04: 18 true\n\
16 fb 01 00 05 0f 05 0e 04 20 2928*32 02 04: 76 true\n\
16 fb 01 00 05 0f 05 0e 04 21 2928*33 02 04: 78 true";

#[test]
fn any_number_of_steps(rt: HostRuntime) -> Result<(), Fail> {
    assert_shown(&rt, rt.alloc(), Kind::Path, STEPS)
}

/// The half-width, the scheme, either extension and the type in one byte too many; an extension of minus zero; a step in one
/// number.
const LONGER: &str = "\
16 fb 01 00 8500 0f 05 0e 04 01 2900 02 04: 15 false\n\
16 fb 01 00 05 8f00 05 0e 04 01 2900 02 04: 15 false\n\
16 fb 01 00 05 0f 8500 0e 04 01 2900 02 04: 15 false\n\
16 fb 01 00 05 0f 05 8e00 04 01 2900 02 04: 15 false\n\
16 fb 01 00 05 0f 05 0e 8400 01 2900 02 04: 15 false\n\
16 fb 01 00 05 0f 05 01 04 01 2900 02 04: 14 false\n\
16 fb 01 00 05 0f 05 0e 04 01 10 02 04: 13 false";

#[test]
fn only_the_shortest_is_it(rt: HostRuntime) -> Result<(), Fail> {
    assert_shown(&rt, rt.alloc(), Kind::Path, LONGER)
}

#[test]
fn nothing_where_they_are_cut(rt: HostRuntime) -> Result<(), Fail> {
    assert_nothing_where_cut(&rt, rt.alloc(), Kind::Path, &WHOLE)
}

/// Each except the last of the sixteen, and two that do not exist.
const OTHER_SCHEMES: &str = "\
16 80 00 05 0e: 3 false\n\
16 80 01 05 0e: 3 false\n\
16 80 02 05 0e: 3 false\n\
16 80 03 05 0e: 4 false\n\
16 80 04 05 0e: 3 false\n\
16 80 05 05 0e: 3 false\n\
16 80 06 05 0e: 3 false\n\
16 80 07 05 0e: 4 false\n\
16 80 08 05 0e: 3 false\n\
16 80 09 05 0e: 3 false\n\
16 80 0a 05 0e: 3 false\n\
16 80 0b 05 0e: 4 false\n\
16 80 0c 05 0e: 4 false\n\
16 80 0d 05 0e: 4 false\n\
16 80 0e 05 0e: 4 false\n\
16 80 10 05 0e\n\
16 80 1f 05 0e";

#[test]
fn other_schemes(rt: HostRuntime) -> Result<(), Fail> {
    assert_shown(&rt, rt.alloc(), Kind::Path, OTHER_SCHEMES)
}

/// Lists of each other type, and one of a type that does not exist.
const OF_OTHER_TYPES: &str = "\
16 20 00 01 29: 5 false\n\
16 20 00 03 28 0a 03: 7 false\n\
16 20 01 03 28 0a 03: 7 false\n\
16 20 02 01 29: 5 false\n\
16 20 03 01 29: 5 false\n\
16 20 05 01 2902: 6 false\n\
16 20 06 01 29";

#[test]
fn lists_of_the_other_types(rt: HostRuntime) -> Result<(), Fail> {
    assert_shown(&rt, rt.alloc(), Kind::Path, OF_OTHER_TYPES)
}

/// A repetition; an extension of ten bytes; an id of two; other ids.
const OTHERS: &str = "\
16 04 00: left\n\
16 80 0f 85 80*8 00 0e: left\n\
9600 00: left\n\
15 00\n\
17 00";

#[test]
fn nothing_else(rt: HostRuntime) -> Result<(), Fail> {
    assert_shown(&rt, rt.alloc(), Kind::Path, OTHERS)
}

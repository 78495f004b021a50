//! Cells by name and by number, and what END refuses. The results are those of the plain program in tests/reference.

use super::{answer, expect};
use crate::parts::limits_of;
use oas_elements::Profile;
use std::process::Abort;

/// Two names in hex, 0 for `A` and 1 for `BB`, and CELL records after them; a limit on the weight; and the result.
const ROWS: &[(&str, u64, &str)] = &[
    (
        "030141 03024242 0E0141 0E024242",
        5,
        "unit 1000/1;cell A;cell BB;",
    ),
    (
        "030141 03024242 0D00 0D01",
        5,
        "unit 1000/1;cell A;cell BB;",
    ),
    (
        "030141 03024242 0D01 0E0141",
        5,
        "unit 1000/1;cell A;cell BB;",
    ),
    ("030141 03024242 0E0141 0D02", 2, "26@12"),
    ("030141 03024242 0D00 0D02", 1, "26@11"),
    ("030141 03024242 0D02 0D02", 1, "26@11"),
    ("030141 03024242 0E0141 0D00", 2, "27@12"),
    ("030141 03024242 0D00 0D00", 1, "27@11"),
    ("030141 03024242 0D01 0E024242", 5, "27@13"),
    ("030141 03024242 0E0141 0E024242", 4, "25@10"),
    ("030141 03024242 0D00 0D01", 4, "25@11"),
    ("030141 03024242 0E0141 0D01", 4, "25@12"),
];

#[test]
fn cells_at_the_end(rt: HostRuntime) {
    for &(bytes, weight, wanted) in ROWS {
        let limits = limits_of(0, weight, 1000);
        let found = answer(rt.alloc(), bytes, limits, Profile::One);
        expect(&rt, bytes, found, wanted);
    }
}

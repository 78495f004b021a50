//! `rekey`: its results, to memory and to writers that fail, and limits that apply to a box.

use super::memory::expect_growths;
use super::rows::{WHOLE_FILE, expect_rows};
use super::runs::{expect_faults, expect_runs};
use std::test::Fail;

/// The rows, as in `runs`.
const REKEYED: &str = "\
a-box | rekey | HEAD CELL 153B010004030128290001290000 TAIL | 0 | HEAD CELL RECT TAIL
a-box-after-a-higher-rectangle | rekey | HEAD CELL 147B02000A140000 153B010004030128290001290000 TAIL | 0 | HEAD CELL RECT 147B02000A140000 TAIL
a-box-after-polygons | rekey | HEAD CELL 153B0000 040201282900 0000 153B010004030128292901280000 153B010004030128290001290000 TAIL | 0 | HEAD CELL RECT 153B0000 040201282900 0000 153B010004030128292901280000 TAIL
no-box | rekey | HEAD CELL RECT TAIL | 0 | HEAD CELL RECT TAIL
corners-in-crossing-order | rekey | HEAD CELL 153B010004030128292901280000 TAIL | 0 | HEAD CELL 153B010004030128292901280000 TAIL
name-by-number | rekey | HEAD 0D00 RECT 030141 TAIL | 3 | ! first: not profile 1 canonical;
a-box-in-another-reading | rekey | HEAD CELL 153B01000403290001282B000000 TAIL | 3 | ! first: not profile 1 canonical;
a-box-in-a-point-list-of-type-0 | rekey | HEAD CELL 153B0100000214280000 TAIL | 3 | ! first: not profile 1 canonical;
record-left-out | rekey | HEAD CELL 22 TAIL | 1 | ! first: refused 11 at 37;
byte-more | rekey | HEAD CELL RECT TAIL 00 | 1 | ! first: refused 30 at 301;
";

#[test]
fn each_rekeying(rt: HostRuntime) -> Result<(), Fail> {
    expect_runs(&rt, rt.alloc(), REKEYED)
}

/// The first of the rows alone.
fn first_row() -> &'static str {
    REKEYED.lines().next().unwrap_or("")
}

#[test]
fn writers_that_fail(rt: HostRuntime) -> Result<(), Fail> {
    expect_faults(&rt, rt.alloc(), first_row())
}

#[test]
fn each_growth(rt: HostRuntime) -> Result<(), Fail> {
    expect_growths(&rt, rt.alloc(), first_row())
}

/// Rows of `canon` on a box, as in `rows`. A cell `A` weighs 2, and a box 5 until it is held.
const WEIGHED: &str = "\
box-of-the-largest-weight | 1 7 768 | HEAD CELL 153B010004030128290001290000 TAIL | HEAD CELL RECT TAIL
box-past-the-largest-weight | 1 6 704 | HEAD CELL 153B010004030128290001290000 TAIL | 25@37
";

#[test]
fn box_under_limits(rt: HostRuntime) -> Result<(), Fail> {
    expect_rows(&rt, rt.alloc(), WHOLE_FILE, WEIGHED, 2)
}

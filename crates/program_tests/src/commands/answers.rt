//! The commands whose output is text, and that text: each through memory, to writers that fail, and with its file refused.

use super::runs::{expect_faults, expect_runs};
use std::test::Fail;

/// The rows, as in `runs`. Keys are what `sha256sum` prints for the canonical files.
pub const ANSWERS: &str = "\
canonical | check | HEAD CELL RECT TAIL | 0 | canonical;
spelled-by-a-number | check | HEAD 0D00 RECT 030141 TAIL | 3 | not canonical;
key-of-a-canonical-file | key | HEAD CELL RECT TAIL | 0 | faa9cb7d21110cae5bde5660c1b56c7b0b00a54880eacf1bfeba45a6cc348d77;
key-of-another-spelling | key | HEAD 0D00 RECT 030141 TAIL | 0 | faa9cb7d21110cae5bde5660c1b56c7b0b00a54880eacf1bfeba45a6cc348d77;
keys-of-two-cells | keys | HEAD 0E0142 CELL RECT TAIL | 0 | faa9cb7d21110cae5bde5660c1b56c7b0b00a54880eacf1bfeba45a6cc348d77  A;e548ccba0286fed19248bc56d784a0083342adba183e389cec47947966846bf6  B;
listing | show | HEAD CELL RECT TAIL | 0 | unit 1000/1;cell A;rectangle 1 0 10 20 0 0;
listing-of-no-cell | show | HEAD TAIL | 0 | unit 1000/1;
two-strings | same | HEAD CELL 135B02486903000000 TAIL & HEAD CELL 135B02486F03000000 TAIL | 3 | different;
a-circle-once-and-twice | same | HEAD CELL 1B3B0100050000 TAIL & HEAD CELL 1B3B0100050000 1B3B0100050000 TAIL | 3 | different;
two-spellings | same | HEAD CELL RECT TAIL & HEAD 0D00 RECT 030141 TAIL | 0 | same;
a-box-is-not-canonical | check | HEAD CELL 153B010004030128290001290000 TAIL | 3 | not canonical;
key-of-a-box | key | HEAD CELL 153B010004030128290001290000 TAIL | 0 | faa9cb7d21110cae5bde5660c1b56c7b0b00a54880eacf1bfeba45a6cc348d77;
listing-of-a-box | show | HEAD CELL 153B010004030128290001290000 TAIL | 0 | unit 1000/1;cell A;rectangle 1 0 10 20 0 0;
a-box-and-its-rectangle | same | HEAD CELL 153B0100000214280000 TAIL & HEAD CELL RECT TAIL | 0 | same;
keys-of-a-box | keys | HEAD CELL 153B010004030128290001290000 TAIL | 0 | faa9cb7d21110cae5bde5660c1b56c7b0b00a54880eacf1bfeba45a6cc348d77  A;
facts-of-a-box | info | HEAD CELL 153B010004030128290001290000 TAIL | 0 | unit 1000/1;cells 1;undefined 0;unplaced 1 A;elements 1;rectangles 1;layer 1 0 1;weight 3;size 301;
facts-of-a-box-as-json | info --json | HEAD CELL 153B010004030128290001290000 TAIL | 0 | {\"cells\":1,\"elements\":1,\"kinds\":{\"circles\":0,\"paths\":0,\"placements\":0,\"polygons\":0,\"rectangles\":1,\"texts\":0},\"layers\":[{\"datatype\":0,\"elements\":1,\"layer\":1}],\"size\":301,\"textlayers\":[],\"undefined\":[],\"unit\":{\"den\":1,\"num\":1000},\"unplaced\":[\"A\"],\"weight\":3};
a-box-and-two-rectangles | diff | HEAD CELL 153B0100000214280000 TAIL & HEAD CELL RECT RECT TAIL | 3 | @ cell A;+ 1 rectangle 1 0 10 20 0 0;
";

/// The same for outputs with their file's name.
pub const NAMED: &str = "\
named-canonical | named check | HEAD CELL RECT TAIL | 0 | first: canonical;
named-spelled-by-a-number | named check | HEAD 0D00 RECT 030141 TAIL | 3 | first: not canonical;
named-key | named key | HEAD 0D00 RECT 030141 TAIL | 0 | faa9cb7d21110cae5bde5660c1b56c7b0b00a54880eacf1bfeba45a6cc348d77  first;
escaped-key | escaped key | HEAD CELL RECT TAIL | 0 | \\faa9cb7d21110cae5bde5660c1b56c7b0b00a54880eacf1bfeba45a6cc348d77  first;
";

/// The same for files that are refused.
const REFUSED: &str = "\
not-checked | check | HEAD CELL 22 TAIL | 1 | ! first: refused 11 at 37;
no-key | key | HEAD CELL 22 TAIL | 1 | ! first: refused 11 at 37;
no-keys | keys | HEAD CELL 22 TAIL | 1 | ! first: refused 11 at 37;
no-listing | show | HEAD CELL 22 TAIL | 1 | ! first: refused 11 at 37;
no-facts | info | HEAD CELL 22 TAIL | 1 | ! first: refused 11 at 37;
no-difference | diff | HEAD CELL 22 TAIL & HEAD 23 TAIL | 1 | ! first: refused 11 at 37;
no-difference-to-the-second | diff | HEAD CELL RECT TAIL & HEAD 23 TAIL | 1 | ! second: refused 12 at 34;
the-first-of-two | same | HEAD CELL 22 TAIL & HEAD 23 TAIL | 1 | ! first: refused 11 at 37;
the-second-of-two | same | HEAD CELL RECT TAIL & HEAD 23 TAIL | 1 | ! second: refused 12 at 34;
";

/// The same where the output would have its file's name.
const NAMED_REFUSED: &str = "\
not-checked-by-name | named check | HEAD CELL 22 TAIL | 1 | ! first: refused 11 at 37;
no-key-by-name | named key | HEAD CELL 22 TAIL | 1 | ! first: refused 11 at 37;
";

#[test]
fn each_answer(rt: HostRuntime) -> Result<(), Fail> {
    expect_runs(&rt, rt.alloc(), ANSWERS)
}

#[test]
fn each_answer_by_name(rt: HostRuntime) -> Result<(), Fail> {
    expect_runs(&rt, rt.alloc(), NAMED)
}

#[test]
fn each_refusal(rt: HostRuntime) -> Result<(), Fail> {
    expect_runs(&rt, rt.alloc(), REFUSED)?;
    expect_runs(&rt, rt.alloc(), NAMED_REFUSED)
}

#[test]
fn writers_that_fail(rt: HostRuntime) -> Result<(), Fail> {
    expect_faults(&rt, rt.alloc(), ANSWERS)
}

#[test]
fn writers_that_fail_by_name(rt: HostRuntime) -> Result<(), Fail> {
    expect_faults(&rt, rt.alloc(), NAMED)
}

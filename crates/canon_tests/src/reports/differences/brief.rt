//! Differences in brief.

use super::{WHOLE, differ_by};
use oas_markers::{Detail, Options, PLAIN};
use std::test::Fail;

const BRIEF: Options<'static> = Options {
    choice: WHOLE,
    detail: Detail::Counts,
    format: PLAIN,
    limit: None,
};

#[test]
fn a_cell_that_differs_has_its_counts(rt: HostRuntime) -> Result<(), Fail> {
    let before = [(0, 1, 2), (0, 3, 1), (0, 5, 5), (1, 1, 1), (2, 1, 4)];
    let after = [(0, 2, 1), (0, 3, 1), (0, 5, 4), (0, 6, 3), (1, 1, 1)];
    let text = "- 1 unit 1000/1
+ 1 unit 2000/1
@ cell A - 3 + 4
- cell C - 4 + 0
+ cell D - 0 + 0
";
    assert!(rt;
        differ_by(
            &rt,
            (1000, "ABC", &before),
            (2000, "ABD", &after),
            BRIEF,
            text
        )?
    );
    Ok(())
}

#[test]
fn the_same_have_no_line(rt: HostRuntime) -> Result<(), Fail> {
    let same = (1000, "AB", [(0, 1, 2)].as_slice());
    assert!(rt; differ_by(&rt, same, same, BRIEF, "")?);
    Ok(())
}

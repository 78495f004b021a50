//! The first lines of a difference.

use super::{WHOLE, differ_by};
use oas_markers::{Detail, Options, PLAIN};
use std::test::Fail;

/// How many lines there may be, and what is then written.
const ROWS: &[(u64, &str)] = &[
    (0, "...\n"),
    (1, "@ cell A\n...\n"),
    (2, "@ cell A\n- 2 rectangle 1 0 10 20 0 0\n...\n"),
    (3, ALL),
    (u64::MAX, ALL),
];

/// All the lines.
const ALL: &str = "@ cell A\n- 2 rectangle 1 0 10 20 0 0\n+ 3 rectangle 3 0 10 20 0 0\n";

/// The first lines, this many, of the elements that differ.
fn first(lines: u64) -> Options<'static> {
    Options {
        choice: WHOLE,
        detail: Detail::Elements,
        format: PLAIN,
        limit: Some(lines),
    }
}

/// Whether this many lines of the difference are this text.
fn begins(rt: &HostRuntime, lines: u64, text: &str) -> Result<bool, Fail> {
    let before = [(0, 1, 2), (0, 3, 1)];
    let after = [(0, 3, 4)];
    differ_by(
        rt,
        (1000, "A", &before),
        (1000, "A", &after),
        first(lines),
        text,
    )
}

#[test]
fn a_last_line_says_that_there_are_more(rt: HostRuntime) -> Result<(), Fail> {
    for &(lines, text) in ROWS {
        assert!(rt; begins(&rt, lines, text)?, "{lines} lines");
    }
    Ok(())
}

#[test]
fn the_same_have_no_last_line(rt: HostRuntime) -> Result<(), Fail> {
    let same = (1000, "A", [(0, 1, 2), (0, 3, 1)].as_slice());
    assert!(rt; differ_by(&rt, same, same, first(0), "")?);
    Ok(())
}

#[test]
fn lines_of_counts_are_counted_too(rt: HostRuntime) -> Result<(), Fail> {
    let options = Options {
        choice: WHOLE,
        detail: Detail::Counts,
        format: PLAIN,
        limit: Some(1),
    };
    let text = "- cell A - 2 + 0\n...\n";
    assert!(rt;
        differ_by(
            &rt,
            (1000, "AB", &[(0, 1, 2)]),
            (1000, "", &[]),
            options,
            text
        )?
    );
    Ok(())
}

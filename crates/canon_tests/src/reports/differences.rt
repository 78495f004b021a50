//! Differences with texts from outside.

mod brief;
mod chosen;
mod faults;
mod formats;
mod layouts;
mod limited;

use layouts::{Sketch, layout};
use oas_canon::Layout;
use oas_markers::{Choice, Detail, Options, PLAIN, write_difference};
use oas_num::NotedWriter;
use std::test::Fail;

/// All cells, with all their elements.
const WHOLE: Choice<'static> = Choice {
    cells: None,
    layers: None,
};

/// All that differs.
const ALL: Options<'static> = Options {
    choice: WHOLE,
    detail: Detail::Elements,
    format: PLAIN,
    limit: None,
};

/// Whether the difference of the layouts is this text, and its length is returned.
fn is_written(
    rt: &HostRuntime,
    before: &Layout,
    after: &Layout,
    options: Options<'_>,
    text: &str,
) -> bool {
    if before.profile() != after.profile() {
        return false;
    }
    let mut written = Vec::new(rt.alloc());
    let count = write_difference(before, after, options, &mut NotedWriter::new(&mut written));
    count == Ok(text.len() as u64) && written.as_slice() == text.as_bytes()
}

/// Whether the difference of the sketches' layouts is written as this text.
fn differ_by(
    rt: &HostRuntime,
    before: Sketch<'_>,
    after: Sketch<'_>,
    options: Options<'_>,
    text: &str,
) -> Result<bool, Fail> {
    let before = layout(rt.alloc(), before)?;
    differ_from(rt, &before, after, options, text)
}

/// Like `differ_by`, for a layout and a sketch.
fn differ_from(
    rt: &HostRuntime,
    before: &Layout,
    after: Sketch<'_>,
    options: Options<'_>,
    text: &str,
) -> Result<bool, Fail> {
    let after = layout(rt.alloc(), after)?;
    Ok(is_written(rt, before, &after, options, text))
}

/// Like `differ_by`, for all that differs.
fn differ(
    rt: &HostRuntime,
    before: Sketch<'_>,
    after: Sketch<'_>,
    text: &str,
) -> Result<bool, Fail> {
    differ_by(rt, before, after, ALL, text)
}

#[test]
fn the_same_have_no_line(rt: HostRuntime) -> Result<(), Fail> {
    let a = (1000, "BA", [(1, 1, 2), (1, 3, 1)].as_slice());
    let b = (1000, "AB", [(0, 3, 1), (0, 1, 1), (0, 1, 1)].as_slice());
    assert!(rt; differ(&rt, a, b, "")?);
    assert!(rt; differ(&rt, a, a, "")?);
    Ok(())
}

#[test]
fn other_units_are_two_lines(rt: HostRuntime) -> Result<(), Fail> {
    let rectangle = [(0, 1, 1)];
    let text = "- 1 unit 1000/1\n+ 1 unit 2000/1\n";
    assert!(rt; differ(&rt, (1000, "A", &rectangle), (2000, "A", &rectangle), text)?);
    Ok(())
}

#[test]
fn a_cell_of_one_layout_stands_above_its_elements(rt: HostRuntime) -> Result<(), Fail> {
    let before = [(1, 2, 1), (1, 1, 3)];
    let after = [(2, 7, 1)];
    let text = "+ 1 cell B
- 1 cell C
- 3 rectangle 1 0 10 20 0 0
- 1 rectangle 2 0 10 20 0 0
+ 1 cell D
+ 1 rectangle 7 0 10 20 0 0
";
    assert!(rt; differ(&rt, (1000, "AC", &before), (1000, "ABD", &after), text)?);
    Ok(())
}

#[test]
fn only_what_has_changed_in_a_cell_is_listed(rt: HostRuntime) -> Result<(), Fail> {
    let before = [
        (0, 1, 2),
        (0, 3, 1),
        (0, 5, 5),
        (0, 6, 1),
        (0, 8, 1),
        (1, 1, 1),
    ];
    let after = [
        (0, 2, 1),
        (0, 3, 1),
        (0, 5, 4),
        (0, 6, 3),
        (0, 9, 1),
        (1, 1, 1),
    ];
    let text = "@ cell A
- 2 rectangle 1 0 10 20 0 0
+ 1 rectangle 2 0 10 20 0 0
- 1 rectangle 5 0 10 20 0 0
+ 2 rectangle 6 0 10 20 0 0
- 1 rectangle 8 0 10 20 0 0
+ 1 rectangle 9 0 10 20 0 0
";
    assert!(rt; differ(&rt, (1000, "AB", &before), (1000, "AB", &after), text)?);
    Ok(())
}

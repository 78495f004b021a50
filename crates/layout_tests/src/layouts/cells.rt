//! The cells of drafts and layouts.

use super::drafts::same;
use super::{add_cell, add_cells, draft_of, draft_of_a, give_all, name, put_all, sealed};
use crate::parts::{discard, limits_of};
use oas_elements::{Limits, Profile};
use oas_layout::{Draft, Elements, Layout, Refused};
use oas_num::{Name, Why};
use std::alloc::Global;
use std::process::Abort;
use std::test::Fail;

/// Cells in order of definition, each a name and lines of elements; and as they are returned.
const CELLS: &[(&str, &str)] = &[
    (
        "TOP",
        "1 text 3 0 0 0 Hi\n1 placement A 50 50 0 0\n1 placement A 50 0 0 0\n1 placement A 0 50 0 0\n1 placement A 0 0 0 0",
    ),
    ("a", "1 circle 1 0 5 0 0"),
    ("A", "1 rectangle 1 0 10 10 20 0\n1 rectangle 1 0 10 10 0 0"),
    ("B", "1 circle 1 0 5 0 0\n1 circle 1 0 5 0 0"),
    (
        "AB",
        "1 circle 1 0 5 0 0\n1 circle 1 0 6 0 0\n1 circle 1 0 5 0 0",
    ),
];

const ASCENDING_CELLS: &[(&str, &str)] = &[
    ("A", "1 rectangle 1 0 10 10 0 0\n1 rectangle 1 0 10 10 20 0"),
    ("AB", "2 circle 1 0 5 0 0\n1 circle 1 0 6 0 0"),
    ("B", "2 circle 1 0 5 0 0"),
    (
        "TOP",
        "1 placement A 0 0 0 0\n1 placement A 0 50 0 0\n1 placement A 50 0 0 0\n1 placement A 50 50 0 0\n1 text 3 0 0 0 Hi",
    ),
    ("a", "1 circle 1 0 5 0 0"),
];

/// Seven elements, which are added in reverse order.
const SEVEN: &[(&str, &str)] = &[
    (
        "TOP",
        "1 placement A 0 0 0 0\n1 placement A 0 50 0 0\n1 placement A 50 0 0 0\n1 placement A 50 50 0 0\n1 text 3 0 0 0 Hi",
    ),
    ("A", "1 rectangle 1 0 10 10 0 0\n1 rectangle 1 0 10 10 20 0"),
];

const ASCENDING_SEVEN: &[(&str, &str)] = &[
    ("A", "1 rectangle 1 0 10 10 0 0\n1 rectangle 1 0 10 10 20 0"),
    (
        "TOP",
        "1 placement A 0 0 0 0\n1 placement A 0 50 0 0\n1 placement A 50 0 0 0\n1 placement A 50 50 0 0\n1 text 3 0 0 0 Hi",
    ),
];

/// Adds the cells with their elements.
fn put_cells(draft: &mut Draft, alloc: Global, cells: &[(&str, &str)]) -> Result<(), Why> {
    for &(text, lines) in cells {
        let cell = add_cell(draft, alloc, text)?;
        put_all(draft, alloc, cell, lines)?;
    }
    Ok(())
}

/// The layout of the cells, which are defined in their order.
fn layout_of(alloc: Global, profile: Profile, cells: &[(&str, &str)]) -> Result<Layout, Why> {
    let mut draft = draft_of(alloc, (2000, 2), Limits::standard(), profile)?;
    let added = put_cells(&mut draft, alloc, cells);
    sealed(draft, added)
}

/// Whether there is a next cell, with this name and exactly the pairs of the lines.
fn is_cell(alloc: Global, next: Option<(&Name, Elements<'_>)>, text: &str, lines: &str) -> bool {
    match next {
        Some((name, mut elements)) => {
            name.as_bytes() == text.as_bytes() && give_all(alloc, &mut elements, lines)
        }
        None => false,
    }
}

/// How many of these cells the layout has, each at its place.
fn cells_as(alloc: Global, layout: &Layout, cells: &[(&str, &str)]) -> usize {
    let mut left = layout.cells();
    let mut same = 0usize;
    for &(text, lines) in cells {
        same = same.saturating_add(usize::from(is_cell(alloc, left.next(), text, lines)));
    }
    same
}

/// For the layout of the first cells: how many cells it has, how many of the second ones, its profile, the number of its
/// unit, how many elements it has, and their weight.
fn seen(
    alloc: Global,
    profile: Profile,
    given: &[(&str, &str)],
    ascending: &[(&str, &str)],
) -> Result<([usize; 2], Profile, [u64; 3]), Why> {
    let layout = layout_of(alloc, profile, given)?;
    let cells = [layout.cell_count(), cells_as(alloc, &layout, ascending)];
    let numbers = [layout.unit().num(), layout.count(), layout.weight()];
    let profile = layout.profile();
    discard(layout);
    Ok((cells, profile, numbers))
}

#[test]
fn cells_and_elements_in_their_order(rt: HostRuntime) {
    for profile in [Profile::One, Profile::Two] {
        assert!(rt;
            [
                seen(rt.alloc(), profile, CELLS, ASCENDING_CELLS),
                seen(rt.alloc(), profile, SEVEN, ASCENDING_SEVEN),
            ] == [
                Ok(([5, 5], profile, [1000, 13, 32])),
                Ok(([2, 2], profile, [1000, 7, 19]))
            ]
        );
    }
}

/// The layout of these empty cells.
fn empty_cells(alloc: Global, unit: (u64, u64), names: &str) -> Result<Layout, Why> {
    let mut draft = draft_of(alloc, unit, Limits::standard(), Profile::One)?;
    let added = add_cells(&mut draft, alloc, names);
    sealed(draft, added)
}

/// Whether the layout of these cells is the same as another.
fn is_same(alloc: Global, a: &Layout, unit: (u64, u64), names: &str) -> Result<bool, Why> {
    let b = empty_cells(alloc, unit, names)?;
    let is_same = same(a, &b);
    discard(b);
    Ok(is_same)
}

/// Whether it is the same as that of the unit 1000/1 and the cells A and B.
fn is_same_as_both(alloc: Global, unit: (u64, u64), names: &str) -> Result<bool, Why> {
    let a = empty_cells(alloc, (1000, 1), "A B")?;
    let is_same = is_same(alloc, &a, unit, names);
    discard(a);
    is_same
}

#[test]
fn units_and_cells_tell_layouts_apart(rt: HostRuntime) {
    for (unit, names, wanted) in [
        ((2000, 2), "B A", true),
        ((1001, 1), "A B", false),
        ((1000, 1), "A C", false),
        ((1000, 1), "A", false),
    ] {
        assert!(rt;
            is_same_as_both(rt.alloc(), unit, names) == Ok(wanted),
            "at {unit:?} {names}"
        );
    }
}

/// Why the draft hands back a cell with this name, if it does.
fn refusal(draft: &mut Draft, alloc: Global, text: &str) -> Option<Why> {
    match draft.add_cell(name(alloc, text).ok()?) {
        Ok(_) => None,
        Err(Refused { why, value: back }) => {
            if back.as_bytes() == text.as_bytes() {
                Some(why)
            } else {
                None
            }
        }
    }
}

/// Whether it is the layout of the cell A, which is empty.
fn is_of_a(alloc: Global, layout: &Layout) -> bool {
    layout.cell_count() == 1
        && layout.count() == 0
        && layout.weight() == 2
        && is_cell(alloc, layout.cells().next(), "A", "")
}

/// Why a draft of the cell A that has no room for another hands back a cell with this name, if it does, and whether its
/// layout is then that of the cell A.
fn refused(alloc: Global, text: &str) -> Result<(Option<Why>, bool), Why> {
    let limits = limits_of(1, 2, 448)?;
    let mut draft = draft_of_a(alloc, limits, Profile::Two)?;
    let why = refusal(&mut draft, alloc, text);
    let layout = sealed(draft, Ok(()))?;
    let is_left = is_of_a(alloc, &layout);
    discard(layout);
    Ok((why, is_left))
}

#[test]
fn cells_that_are_refused(rt: HostRuntime) {
    for (text, why) in [("A", Why::DuplicateCell), ("B", Why::TooHeavy)] {
        assert!(rt; refused(rt.alloc(), text) == Ok((Some(why), true)));
    }
}

#[test]
fn refused_in_a_line(rt: HostRuntime) -> Result<(), Fail> {
    let refused = Refused {
        why: Why::TooHeavy,
        value: 5u8,
    };
    let line = format!(in rt.alloc(); "{refused}")?;
    let found = (line.as_str() == "refused 25: TooHeavy", Why::from(refused));
    assert!(rt; found == (true, Why::TooHeavy));
    Ok(())
}

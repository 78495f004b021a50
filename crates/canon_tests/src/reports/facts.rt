//! A layout with elements of each kind, with numbers that were counted by hand.

use crate::reports::parts::{add_cell, draft, label, name, put, ring, sealed};
use oas_canon::{Draft, Layout};
use oas_elements::{Element, Extensions, Layer, Profile, Turns};
use oas_info::{Facts, Group, facts_of};
use oas_num::{Fraction, Name};
use oas_ring::Point;
use std::alloc::Global;
use std::collections::BTreeMap;
use std::test::Fail;

/// Adds cells of these names.
fn add_cells(draft: &mut Draft, alloc: Global, names: &[&str]) -> Result<(), Fail> {
    for text in names {
        add_cell(draft, alloc, text)?;
    }
    Ok(())
}

/// Five placements of A.
fn put_placements(draft: &mut Draft, alloc: Global) -> Result<(), Fail> {
    let cell = name(alloc, "A")?;
    put(
        draft,
        1,
        Element::placement(cell, Point { x: 0, y: 0 }, Turns::T0, false),
        5,
    )
}

/// Two texts.
fn put_texts(draft: &mut Draft, alloc: Global) -> Result<(), Fail> {
    let string = label(alloc, "hi")?;
    put(
        draft,
        1,
        Element::text(
            string,
            Layer {
                layer: 1,
                datatype: 7,
            },
            Point { x: 0, y: 0 },
        ),
        2,
    )
}

/// A polygon, or a path.
fn put_points(draft: &mut Draft, alloc: Global, is_path: bool) -> Result<(), Fail> {
    let points = ring(alloc, &[(0, 0), (9, 0), (0, 9)])?;
    let element = if is_path {
        Element::path(
            Layer {
                layer: 1,
                datatype: 9,
            },
            3,
            Extensions { start: 0, end: 0 },
            points,
        )
    } else {
        Element::polygon(
            Layer {
                layer: 1,
                datatype: 0,
            },
            points,
        )
    };
    put(draft, 1, element, 1)
}

/// Rectangles and a circle in both cells: their places, and how many there are.
fn put_plain(draft: &mut Draft) -> Result<(), Fail> {
    for (cell, place, times) in [(1, 0, 3), (1, 5, 4), (0, 0, 1)] {
        put(
            draft,
            cell,
            Element::rectangle(
                Layer {
                    layer: 1,
                    datatype: 0,
                },
                10,
                20,
                Point { x: place, y: place },
            ),
            times,
        )?;
    }
    put(
        draft,
        0,
        Element::circle(
            Layer {
                layer: 2,
                datatype: 0,
            },
            5,
            Point { x: 0, y: 0 },
        ),
        1,
    )
}

/// Two cells, and all of them.
fn put_each_kind(draft: &mut Draft, alloc: Global) -> Result<(), Fail> {
    add_cells(draft, alloc, &["A", "TOP"])?;
    put_placements(draft, alloc)?;
    put_texts(draft, alloc)?;
    put_points(draft, alloc, false)?;
    put_points(draft, alloc, true)?;
    put_plain(draft)
}

/// A placement, texts, a polygon and paths in one cell, and rectangles and a circle in two.
fn each_kind(alloc: Global) -> Result<Layout, Fail> {
    let mut draft = draft(alloc, 1000, 1, Profile::Two)?;
    let filled = put_each_kind(&mut draft, alloc);
    sealed(draft, filled)
}

/// The layer of shapes with these numbers.
fn layer(layer: u64, datatype: u64) -> Group {
    Group::Layer { layer, datatype }
}

/// Whether the groups are just these, with these numbers.
fn are_counted(numbers: &BTreeMap<Group, u64>, expected: &[(Group, u64)]) -> bool {
    for (group, number) in expected {
        if numbers.get(group) != Some(number) {
            return false;
        }
    }
    numbers.len() == expected.len()
}

/// Whether each group has its number.
fn are_of_each_kind(numbers: &BTreeMap<Group, u64>) -> bool {
    let texts = Group::TextLayer {
        textlayer: 1,
        texttype: 7,
    };
    let expected = [
        (Group::Placements, 5),
        (Group::Texts, 2),
        (Group::Rectangles, 8),
        (Group::Polygons, 1),
        (Group::Paths, 1),
        (Group::Circles, 1),
        (layer(1, 0), 9),
        (layer(1, 9), 1),
        (layer(2, 0), 1),
        (texts, 2),
    ];
    are_counted(numbers, &expected)
}

/// The facts of a layout.
fn found(alloc: Global, layout: &Layout) -> Result<Facts, Fail> {
    Ok(facts_of(alloc, layout)?)
}

#[test]
fn each_group(rt: HostRuntime) -> Result<(), Fail> {
    let layout = each_kind(rt.alloc())?;
    let facts = found(rt.alloc(), &layout)?;
    assert!(rt; are_of_each_kind(&facts.groups));
    Ok(())
}

/// Whether the list has just these names, in order.
fn are(names: &[Name], expected: &[&[u8]]) -> bool {
    if names.len() != expected.len() {
        return false;
    }
    for (name, bytes) in names.iter().zip(expected) {
        if name.as_bytes() != *bytes {
            return false;
        }
    }
    true
}

/// Puts two by three placements of the cell with this name.
fn place(alloc: Global, draft: &mut Draft, cell: usize, text: &str) -> Result<(), Fail> {
    for x in [0, 1] {
        let placed = name(alloc, text)?;
        put(
            draft,
            cell,
            Element::placement(placed, Point { x, y: 0 }, Turns::T0, false),
            3,
        )?;
    }
    Ok(())
}

/// Puts placements of cells that are there and of others, in TOP and in A.
fn place_names(draft: &mut Draft, alloc: Global) -> Result<(), Fail> {
    add_cells(draft, alloc, &["TOP", "A", "B"])?;
    for (cell, text) in [(0, "A"), (0, "Z"), (1, "ZZ"), (1, "Z"), (1, "C")] {
        place(alloc, draft, cell, text)?;
    }
    Ok(())
}

/// A layout with unit 1000/1 and those placements.
fn placed_names(alloc: Global) -> Result<Layout, Fail> {
    let mut draft = draft(alloc, 1000, 1, Profile::Two)?;
    let filled = place_names(&mut draft, alloc);
    sealed(draft, filled)
}

/// The result for it.
fn placed_facts(alloc: Global) -> Result<Facts, Fail> {
    let layout = placed_names(alloc)?;
    found(alloc, &layout)
}

/// Whether the numbers are those of that layout.
fn are_numbers(facts: &Facts) -> bool {
    Fraction::reduced(1000, 1) == Some(facts.unit)
        && facts.cells == 3
        && facts.elements == 30
        && facts.weight == (1 + 3) + (1 + 1) + (1 + 1) + 6 * (4 * 2 + 3)
}

#[test]
fn names_that_are_placed_and_not_defined(rt: HostRuntime) -> Result<(), Fail> {
    let facts = placed_facts(rt.alloc())?;
    let numbers = are_numbers(&facts);
    let undefined = are(&facts.undefined, &[b"C".as_slice(), b"Z", b"ZZ"]);
    let unplaced = are(&facts.unplaced, &[b"B".as_slice(), b"TOP"]);
    assert_eq!(rt; (numbers, undefined, unplaced), (true, true, true));
    Ok(())
}

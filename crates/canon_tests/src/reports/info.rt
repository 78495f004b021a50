//! The texts of a layout, compared with those that were written by hand. Its canonical form has 35 bytes of head, 52 of the
//! cell A, 19 of TOP, and 256 of END.

use crate::reports::parts::{add_cell, draft, label, name, put, sealed};
use oas_canon::{Draft, Layout};
use oas_elements::{Element, Layer, Profile, Turns};
use oas_info::{Info, info_of, json_of, text_of};
use oas_ring::Point;
use std::alloc::Global;
use std::test::Fail;

/// The cell NO, which isn't there.
fn placement(alloc: Global) -> Result<Element, Fail> {
    let cell = name(alloc, "NO")?;
    Ok(Element::placement(cell, Point { x: 0, y: 0 }, Turns::T0, false))
}

/// The text `hi`.
fn text_element(alloc: Global) -> Result<Element, Fail> {
    let string = label(alloc, "hi")?;
    Ok(Element::text(
        string,
        Layer {
            layer: 1,
            datatype: 7,
        },
        Point { x: 0, y: 0 },
    ))
}

/// Adds the cells and their elements.
fn fill(draft: &mut Draft, alloc: Global) -> Result<(), Fail> {
    add_cell(draft, alloc, "TOP")?;
    add_cell(draft, alloc, "A")?;
    put(draft, 0, placement(alloc)?, 2)?;
    put(draft, 1, text_element(alloc)?, 1)?;
    put(
        draft,
        1,
        Element::rectangle(
            Layer {
                layer: 30,
                datatype: 4,
            },
            10,
            20,
            Point { x: 0, y: 0 },
        ),
        5,
    )
}

/// Two cells, one of which places a third that isn't there.
fn two_cells(alloc: Global) -> Result<Layout, Fail> {
    let mut draft = draft(alloc, 2000, 3, Profile::Two)?;
    let filled = fill(&mut draft, alloc);
    sealed(draft, filled)
}

/// What is reported about them.
fn told(alloc: Global) -> Result<Info, Fail> {
    let layout = two_cells(alloc)?;
    Ok(info_of(alloc, &layout)?)
}

#[test]
fn text_of_two_cells(rt: HostRuntime) -> Result<(), Fail> {
    let alloc = rt.alloc();
    let text = text_of(alloc, &told(alloc)?)?;
    let expected = b"unit 2000/3
cells 2
undefined 1 NO
unplaced 2 A TOP
elements 8
placements 2
texts 1
rectangles 5
layer 30 4 5
textlayer 1 7 1
weight 20
size 362";
    assert_eq!(rt; text.as_slice(), expected.as_slice());
    Ok(())
}

#[test]
fn json_of_two_cells(rt: HostRuntime) -> Result<(), Fail> {
    let alloc = rt.alloc();
    let text = json_of(alloc, &told(alloc)?)?;
    let expected = "{\"cells\":2,\"elements\":8,\
        \"kinds\":{\"circles\":0,\"paths\":0,\"placements\":2,\"polygons\":0,\"rectangles\":5,\"texts\":1},\
        \"layers\":[{\"datatype\":4,\"elements\":5,\"layer\":30}],\"size\":362,\
        \"textlayers\":[{\"elements\":1,\"textlayer\":1,\"texttype\":7}],\
        \"undefined\":[\"NO\"],\"unit\":{\"den\":3,\"num\":2000},\"unplaced\":[\"A\",\"TOP\"],\"weight\":20}";
    assert_eq!(rt; text.as_slice(), expected.as_bytes());
    Ok(())
}

//! Each allocation fails in turn: a failed call returns out of memory, hands back what it was given and changes nothing.

use super::elements::{name, twice};
use super::want::Want;
use super::{holds, put_many, sealed};
use crate::parts::discard;
use oas_elements::{Element, Limits, Profile};
use oas_layout::{Draft, Refused};
use oas_num::{Fraction, Name, Why};
use std::alloc::{AllocError, Global};
use std::process::Abort;

/// A draft, once there is memory for it.
fn insist_on_draft(unit: Fraction, want: &mut Want) -> Option<Draft> {
    for _ in 0..4000u32 {
        match Draft::new(want.alloc, unit, Limits::standard(), Profile::Two) {
            Ok(draft) => return Some(draft),
            Err(AllocError) => want.give_back(),
        }
    }
    None
}

/// Adds a cell with a name of one byte, and gives back a piece of memory after each failure. Whether it is added at last, and
/// was handed back before only out of memory, with nothing changed.
fn insist_on_cell(draft: &mut Draft, mut name: Name, want: &mut Want) -> bool {
    let before = draft.cell_count();
    let mut is_right = true;
    for _ in 0..4000u32 {
        match draft.add_cell(name) {
            Ok(place) => return is_right && place == before,
            Err(Refused { why, value: back }) => {
                is_right &= why == Why::Memory
                    && back.as_bytes().len() == 1
                    && draft.cell_count() == before;
                name = back;
            }
        }
        want.give_back();
    }
    false
}

/// Adds cells with these names, the last name first. Whether all are added, and how many of them failed at first.
fn insist_on_cells(draft: &mut Draft, names: &mut Vec<Name>, want: &mut Want) -> (bool, usize) {
    let mut all = true;
    let mut refused = 0usize;
    for _ in 0..names.len() {
        if let Some(name) = names.pop() {
            all &= insist_on_cell(draft, name, want);
        }
        refused = refused.saturating_add(usize::from(want.fill_again()));
    }
    (all, refused)
}

/// Adds the element this many times, and gives back a piece of memory after each failure. Whether it is added at last, and
/// was handed back before only out of memory.
fn insist_on_element(
    draft: &mut Draft,
    mut element: Element,
    wanted: &Element,
    times: u64,
    want: &mut Want,
) -> bool {
    let mut is_right = true;
    for _ in 0..4000u32 {
        match put_many(draft, 0, element, times) {
            Ok(()) => return is_right,
            Err(Refused { why, value: back }) => {
                is_right &= why == Why::Memory && back == *wanted;
                element = back;
            }
        }
        want.give_back();
    }
    false
}

/// Elements in an order that isn't theirs, among them a polygon that is kept in another reading. They are added from the last
/// on: one with a short key, and two with keys so long that there is no room for them in what the first was given.
const LINES: &str = "circle 1 0 1 0 0
circle 1 0 2 0 0
circle 1 0 3 0 0
circle 1 0 4 0 0
circle 1 0 5 0 0
circle 1 0 6 0 0
circle 1 0 7 0 0
circle 1 0 8 0 0
circle 1 0 9 0 0
circle 1 0 10 0 0
circle 1 0 11 0 0
circle 1 0 12 0 0
circle 1 0 13 0 0
circle 1 0 14 0 0
circle 1 0 15 0 0
circle 1 0 16 0 0
circle 1 0 17 0 0
circle 1 0 18 0 0
circle 1 0 19 0 0
circle 1 0 20 0 0
rectangle 1 0 10 20 0 0
polygon 1 0 10,20 10,0 5,5 0,0 0,20
polygon 1 0 0,0 10,0 10,20 0,20
rectangle 1 0 10 20 0 0
text 3 0 0 0 b*600
text 3 0 0 0 a*600
text 3 0 0 0 Hi";

/// What the cell then holds, in its order.
const HELD: &str = "1 text 3 0 0 0 Hi
2 text 3 0 0 0 a*600
3 text 3 0 0 0 b*600
16 rectangle 1 0 10 20 0 0
6 polygon 1 0 0,0 0,20 10,20 10,0 5,5
27 circle 1 0 1 0 0
26 circle 1 0 2 0 0
25 circle 1 0 3 0 0
24 circle 1 0 4 0 0
23 circle 1 0 5 0 0
22 circle 1 0 6 0 0
21 circle 1 0 7 0 0
20 circle 1 0 8 0 0
19 circle 1 0 9 0 0
18 circle 1 0 10 0 0
17 circle 1 0 11 0 0
16 circle 1 0 12 0 0
15 circle 1 0 13 0 0
14 circle 1 0 14 0 0
13 circle 1 0 15 0 0
12 circle 1 0 16 0 0
11 circle 1 0 17 0 0
10 circle 1 0 18 0 0
9 circle 1 0 19 0 0
8 circle 1 0 20 0 0";

/// Each element twice: one to be added, and one that a failure hands back.
fn elements(alloc: Global) -> Result<Vec<(Element, Element)>, Why> {
    let mut list = Vec::new(alloc);
    for line in LINES.lines() {
        list.push(twice(alloc, line)?)?;
    }
    Ok(list)
}

/// The names of the cells, the last name first.
fn names(alloc: Global) -> Result<Vec<Name>, Why> {
    let mut list = Vec::new(alloc);
    for text in "L K J I H G F E D C B A".split_whitespace() {
        list.push(name(alloc, text)?)?;
    }
    Ok(list)
}

/// Adds the elements, the last once, the one before it twice, and so on. Whether all are added, and how many of them failed
/// at first.
fn insist_on_elements(
    draft: &mut Draft,
    elements: &mut Vec<(Element, Element)>,
    want: &mut Want,
) -> (bool, usize) {
    let mut times = 1;
    let mut all = true;
    let mut refused = 0usize;
    for _ in 0..elements.len() {
        if let Some((element, wanted)) = elements.pop() {
            all &= insist_on_element(draft, element, &wanted, times, want);
        }
        refused = refused.saturating_add(usize::from(want.fill_again()));
        times = u64::min(times, 100) + 1;
    }
    (all, refused)
}

/// A draft of the names' cells, the first of them with the elements; whether all are added; and whether, where the heap was
/// full, enough failed at first: the draft, a cell for which the draft had no room, the cell's first element, one with a longer key
/// than memory was reserved for, and one for which its store had no room.
fn insist_on_all(
    unit: Fraction,
    names: &mut Vec<Name>,
    elements: &mut Vec<(Element, Element)>,
    want: &mut Want,
) -> Option<(Draft, [bool; 2])> {
    let mut draft = insist_on_draft(unit, want)?;
    let drafts = want.fill_again();
    let (all_cells, cells) = insist_on_cells(&mut draft, names, want);
    let (all_elements, elements) = insist_on_elements(&mut draft, elements, want);
    let are_refused = drafts && cells > 0 && elements >= 3;
    let enough = are_refused || !want.hoard.is_full();
    Some((draft, [all_cells && all_elements, enough]))
}

/// The same where all memory is taken at first.
fn draft_in_want(
    alloc: Global,
    names: &mut Vec<Name>,
    elements: &mut Vec<(Element, Element)>,
) -> Option<(Draft, [bool; 2])> {
    let unit = Fraction::reduced(1000, 1)?;
    match Want::new(alloc) {
        Ok(mut want) => insist_on_all(unit, names, elements, &mut want),
        Err(AllocError) => None,
    }
}

/// What is seen of that draft, how many cells and elements its layout has, and whether the first cell's pairs are those held.
fn filled_in_want(alloc: Global) -> Result<([bool; 2], (usize, u64), bool), Why> {
    let mut names = names(alloc)?;
    let mut elements = elements(alloc)?;
    let (draft, seen) = draft_in_want(alloc, &mut names, &mut elements).ok_or(Why::Memory)?;
    let layout = sealed(draft, Ok(()))?;
    let counts = (layout.cell_count(), layout.count());
    let is_held = holds(alloc, &layout, HELD);
    discard(layout);
    Ok((seen, counts, is_held))
}

#[test]
fn drafts_without_memory(rt: HostRuntime) {
    assert!(rt; filled_in_want(rt.alloc()) == Ok(([true, true], (12, 378), true)));
}

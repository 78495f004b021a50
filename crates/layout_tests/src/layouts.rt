//! Drafts and layouts with results that are known from outside. Elements are written as in a listing, and rows as one text.

mod cells;
mod drafts;
mod elements;
mod limits;
mod memory;
mod order;
mod seals;
mod want;

use self::elements::{element, name};
use oas_elements::{Element, Limits, Profile};
use oas_layout::{Draft, Elements, KeyedElement, Layout, Refused};
use oas_num::{Fraction, Why};
use std::alloc::Global;

/// Adds a cell of this name.
fn add_cell(draft: &mut Draft, alloc: Global, text: &str) -> Result<usize, Why> {
    let cell = draft.add_cell(name(alloc, text)?)?;
    Ok(cell)
}

/// Adds cells of these names.
fn add_cells(draft: &mut Draft, alloc: Global, names: &str) -> Result<(), Why> {
    for text in names.split_whitespace() {
        add_cell(draft, alloc, text)?;
    }
    Ok(())
}

/// A draft with this unit and without cells.
fn draft_of(
    alloc: Global,
    (num, den): (u64, u64),
    limits: Limits,
    profile: Profile,
) -> Result<Draft, Why> {
    let unit = Fraction::reduced(num, den).ok_or(Why::Unit)?;
    let draft = Draft::new(alloc, unit, limits, profile)?;
    Ok(draft)
}

/// The draft, if all was added to it.
fn whole(draft: Draft, added: Result<(), Why>) -> Result<Draft, Why> {
    match added {
        Ok(()) => Ok(draft),
        Err(why) => Err(why),
    }
}

/// A draft with unit 1000/1 and one cell, A.
fn draft_of_a(alloc: Global, limits: Limits, profile: Profile) -> Result<Draft, Why> {
    let mut draft = draft_of(alloc, (1000, 1), limits, profile)?;
    let added = add_cells(&mut draft, alloc, "A");
    whole(draft, added)
}

/// Adds the element this many times, if there is such a cell, or hands it back.
fn put_many(
    draft: &mut Draft,
    cell: usize,
    element: Element,
    times: u64,
) -> Result<(), Refused<Element>> {
    if cell < draft.cell_count() && times > 0 {
        draft.add_many(cell, element, times)
    } else {
        Ok(())
    }
}

/// Adds the element this many times, or returns why not.
fn add(draft: &mut Draft, cell: usize, element: Element, times: u64) -> Result<(), Why> {
    put_many(draft, cell, element, times)?;
    Ok(())
}

/// How many of an element a line gives, and the line of the element.
fn counted(line: &str) -> (u64, &str) {
    let (count, rest) = line.split_once(" ").unwrap_or(("", ""));
    (count.parse().unwrap_or(0), rest)
}

/// Adds the element of a line to a cell, as often as the line says.
fn put(draft: &mut Draft, alloc: Global, cell: usize, line: &str) -> Result<(), Why> {
    let (times, line) = counted(line);
    add(draft, cell, element(alloc, line)?, times)
}

/// Adds the elements of the lines, the last line's first.
fn put_all(draft: &mut Draft, alloc: Global, cell: usize, lines: &str) -> Result<(), Why> {
    for line in lines.lines().rev() {
        put(draft, alloc, cell, line)?;
    }
    Ok(())
}

/// The layout of the draft, if all was added to it.
fn sealed(draft: Draft, added: Result<(), Why>) -> Result<Layout, Why> {
    let layout = whole(draft, added)?.seal()?;
    Ok(layout)
}

/// The layout of one cell, A, with the elements of the lines.
fn layout_of_a(alloc: Global, profile: Profile, lines: &str) -> Result<Layout, Why> {
    let mut draft = draft_of_a(alloc, Limits::standard(), profile)?;
    let added = put_all(&mut draft, alloc, 0, lines);
    sealed(draft, added)
}

/// Whether it is this element.
fn is_held(alloc: Global, held: &KeyedElement<'_>, wanted: &Element) -> bool {
    match held.to_element(alloc) {
        Ok(held) => held == *wanted,
        Err(_) => false,
    }
}

/// Whether it is the element of the line.
fn is_element(alloc: Global, held: &KeyedElement<'_>, line: &str) -> bool {
    match element(alloc, line) {
        Ok(wanted) => is_held(alloc, held, &wanted),
        Err(_) => false,
    }
}

/// Whether the next pair is that of the line.
fn gives(alloc: Global, pair: Option<(KeyedElement<'_>, u64)>, line: &str) -> bool {
    let (times, line) = counted(line);
    match pair {
        Some((held, count)) => count == times && is_element(alloc, &held, line),
        None => false,
    }
}

/// Whether the next pairs are those of the lines, and there are no more.
fn give_all(alloc: Global, pairs: &mut Elements<'_>, lines: &str) -> bool {
    let mut all = true;
    for line in lines.lines() {
        all &= gives(alloc, pairs.next(), line);
    }
    all && pairs.next().is_none()
}

/// The elements of the first cell.
fn first_elements(layout: &Layout) -> Option<Elements<'_>> {
    let (_, elements) = layout.cells().next()?;
    Some(elements)
}

/// Whether the first cell has exactly the pairs of the lines, in their order.
fn holds(alloc: Global, layout: &Layout, lines: &str) -> bool {
    match first_elements(layout) {
        Some(mut elements) => give_all(alloc, &mut elements, lines),
        None => false,
    }
}

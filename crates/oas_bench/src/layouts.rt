//! Adding very many elements to a draft, and reading them in order. `bench/layouts` has the same beside plain Rust.

use crate::generator::Numbers;
use crate::shapes::{polygon, rectangle};
use oas_elements::{Element, Limits, Profile};
use oas_layout::{Draft, Elements, Layout};
use oas_num::{Fraction, Name};
use std::alloc::{AllocError, Global};
use std::io;
use std::time::Instant;

/// Elements to be added: which, in which order, and how many.
#[derive(Clone, Copy)]
pub(crate) struct Row {
    pub(crate) polygons: bool,
    pub(crate) random: bool,
    pub(crate) count: u64,
}

/// Says how long it took to add the elements, and then to read them as well.
pub(crate) fn measure(rt: &HostRuntime, row: Row) -> io::Result<()> {
    let start = Instant::now(rt)?;
    match layout(rt.alloc(), row) {
        Some(layout) => report(rt, &layout, start),
        None => Err(io::ErrorKind::OutOfMemory.into()),
    }
}

/// A few elements of each shape, in each order.
pub(crate) fn measure_few(rt: &HostRuntime) -> io::Result<()> {
    for (polygons, random, count) in [
        (false, true, 1000),
        (false, false, 1000),
        (true, true, 300),
        (true, false, 300),
    ] {
        let row = Row {
            polygons,
            random,
            count,
        };
        measure(rt, row)?;
    }
    Ok(())
}

/// The layout that was begun at this time.
fn report(rt: &HostRuntime, layout: &Layout, start: Instant) -> io::Result<()> {
    let built = start.elapsed(rt)?;
    let distinct = distinct(layout);
    let read = start.elapsed(rt)?;
    println!(rt;
        "{} elements, {distinct} distinct, weight {}",
        layout.count(),
        layout.weight()
    )?;
    eprintln!(rt; "{} {}", built.as_micros(), read.as_micros())
}

/// A draft of one cell.
fn draft(alloc: Global) -> Option<Draft> {
    let unit = Fraction::reduced(1000, 1)?;
    let mut draft = Draft::new(alloc, unit, Limits::large(), Profile::Two).ok()?;
    draft.add_cell(Name::new(alloc, b"A").ok()?).ok()?;
    Some(draft)
}

/// The layout of this many elements of one shape.
fn layout(alloc: Global, row: Row) -> Option<Layout> {
    let mut draft = draft(alloc)?;
    let mut numbers = Numbers::new();
    for k in 0..row.count {
        let place = if row.random { numbers.next() } else { k };
        let element = element(alloc, row.polygons, place).ok()?;
        if draft.cell_count() > 0 {
            draft.add(0, element).ok()?;
        }
    }
    draft.seal().ok()
}

/// The element at a place, of which only the lowest 40 bits count.
fn element(alloc: Global, is_polygon: bool, place: u64) -> Result<Element, AllocError> {
    let x = (place % (1 << 40)) as i64;
    if is_polygon {
        polygon(alloc, x)
    } else {
        Ok(rectangle(x))
    }
}

/// How many distinct elements the first cell has.
fn distinct(layout: &Layout) -> u64 {
    match layout.cells().next() {
        Some((_, elements)) => length(elements),
        None => 0,
    }
}

/// How many elements these are, each counted once.
fn length(elements: Elements<'_>) -> u64 {
    let mut found = 0;
    for _element in elements {
        found = u64::min(found, 1 << 40) + 1;
    }
    found
}

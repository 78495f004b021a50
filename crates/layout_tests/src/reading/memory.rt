//! Allocations that fail: a failed call returns out of memory, at the place that it was given.
//!
//! The heap is filled up, and given back a small piece after each run. So the name and the second cell, with which the first
//! one goes into a list, each fail before they succeed, and so does the finish of a reader that has taken its records before. The
//! first cell is empty: the memory in which a cell was filled is given back with it, and would be enough for the list.
//! Where the heap cannot be filled, as under an address checker, no call fails, and the results are the same.

use super::{KeepingOne, Refused, is_met, refuses_on, unit};
use crate::parts::discard;
use oas_elements::{Limits, Profile};
use oas_layout::{Layout, Reader, finish_layout};
use oas_num::{Fraction, Name, Refusal, SliceSource, Spelled, Why};
use oas_record::{CellRef, Record, Rectangle, Spot};
use std::alloc::{AllocError, Global};
use std::process::Abort;
use test_tools::Hoard;

/// Where END starts.
const END: u64 = 24;

fn name(alloc: Global, spelled: &[u8]) -> Result<Name, Why> {
    Name::read(alloc, &mut SliceSource::new(spelled, 100))
}

/// A rectangle with all its fields.
fn rectangle() -> Record {
    Record::Rectangle(Rectangle {
        square: false,
        layer: Some(1),
        datatype: Some(0),
        width: Some(10),
        height: Some(20),
        spot: Spot {
            x: Some(0),
            y: Some(0),
            repetition: None,
        },
    })
}

/// Returned where no name is left: no reader returns this refusal.
const NO_NAME: Refusal = Refusal {
    at: u64::MAX,
    why: Why::Memory,
};

/// Gives the reader an empty cell and one with a rectangle, which is named by the last of the names.
fn take_cells(reader: &mut KeepingOne, names: &mut Vec<Name>) -> Result<(), Refusal> {
    reader.take(3, Record::Cell(CellRef::Number(0)))?;
    let name = names.pop().ok_or(NO_NAME)?;
    reader.take(13, Record::Cell(CellRef::Name(name)))?;
    reader.take(16, rectangle())
}

/// Gives the reader the last of the names as that of a cell, and two cells.
fn take_all(reader: &mut KeepingOne, names: &mut Vec<Name>) -> Result<(), Refusal> {
    let name = names.pop().ok_or(NO_NAME)?;
    reader.take(0, Record::CellName { name, number: None })?;
    take_cells(reader, names)
}

/// Gives them to the reader. Whether, if it was refused, it refuses one more record.
fn is_kept(reader: &mut KeepingOne, names: &mut Vec<Name>) -> bool {
    match take_all(reader, names) {
        Ok(()) => true,
        Err(refusal) => refuses_on(reader, END, refusal),
    }
}

/// Whether the layout is of two cells with a rectangle in all.
fn is_right(layout: &Layout) -> bool {
    layout.cell_count() == 2 && layout.count() == 1
}

/// Finishes the reader. Where it is refused, or else whether the layout is right.
fn finished(alloc: Global, reader: KeepingOne) -> Result<bool, Refusal> {
    match finish_layout(alloc, reader, END) {
        Ok(layout) => Ok(is_right(&layout)),
        Err(refusal) => Err(refusal),
    }
}

/// Gives them to a new reader, and finishes it. Where it is refused, or else whether all is right.
fn run(alloc: Global, unit: Fraction, names: &mut Vec<Name>) -> Result<bool, Refusal> {
    let mut reader = Reader::new(alloc, unit, Limits::standard(), Profile::One);
    let is_kept = is_kept(&mut reader, names);
    match finished(alloc, reader) {
        Ok(is_right) => Ok(is_kept && is_right),
        Err(refusal) if is_kept => Err(refusal),
        Err(_) => Ok(false),
    }
}

/// Runs until the layout is made, and gives back a piece of memory after each failure. Whether all is right then, and whether
/// the name and the second cell each failed.
fn insist(
    alloc: Global,
    unit: Fraction,
    names: &mut Vec<Name>,
    hoard: &mut Hoard,
) -> (bool, [bool; 2]) {
    let mut refused = [false; 2];
    let mut all = true;
    for _ in 0..2000u32 {
        match run(alloc, unit, names) {
            Ok(is_right) => return (is_right && all, refused),
            Err(Refusal { at, why }) => {
                all &= why == Why::Memory;
                refused = [refused[0] || at == 0, refused[1] || at == 13];
            }
        }
        hoard.give_back();
    }
    (false, refused)
}

/// This many names, A and B in turn.
pub(super) fn many_names(alloc: Global, count: u32) -> Result<Vec<Name>, Why> {
    let mut names = Vec::new(alloc);
    for number in 0..count {
        let spelled = if number % 2 == 0 { b"\x01A" } else { b"\x01B" };
        names.push(name(alloc, spelled)?)?;
    }
    Ok(names)
}

/// Whether all is right where there is no memory at first, and whether, where the heap can be filled, the name and the second
/// cell each fail.
fn in_want(alloc: Global, unit: Fraction, names: &mut Vec<Name>) -> (bool, [bool; 2]) {
    match Hoard::new(alloc) {
        Ok(mut hoard) => {
            let is_full = hoard.is_full();
            let (is_right, refused) = insist(alloc, unit, names, &mut hoard);
            (is_right, [refused[0] || !is_full, refused[1] || !is_full])
        }
        Err(AllocError) => (false, [false; 2]),
    }
}

/// The same with two names for each run.
fn reader_in_want(alloc: Global) -> Result<(bool, [bool; 2]), Why> {
    let unit = unit()?;
    let mut names = many_names(alloc, 4000)?;
    Ok(in_want(alloc, unit, &mut names))
}

#[test]
fn reader_without_memory(rt: HostRuntime) {
    assert!(rt; reader_in_want(rt.alloc()) == Ok((true, [true; 2])));
}

/// Gives the reader a name of a cell, and two cells.
fn make_ready(reader: &mut KeepingOne, alloc: Global) -> Result<(), Why> {
    let mut names = many_names(alloc, 2)?;
    match take_all(reader, &mut names) {
        Ok(()) => Ok(()),
        Err(refusal) => Err(refusal.why),
    }
}

/// A reader that has taken them.
fn ready(alloc: Global, unit: Fraction) -> Result<KeepingOne, Why> {
    let mut reader = Reader::new(alloc, unit, Limits::standard(), Profile::One);
    match make_ready(&mut reader, alloc) {
        Ok(()) => Ok(reader),
        Err(why) => {
            discard(reader);
            Err(why)
        }
    }
}

/// 200 of them.
fn all_ready(alloc: Global, unit: Fraction) -> Result<Vec<KeepingOne>, Why> {
    let mut readers = Vec::new(alloc);
    for _ in 0..200u32 {
        readers.push(ready(alloc, unit)?)?;
    }
    Ok(readers)
}

/// Finishes one after another until a layout is made, and gives back a piece of memory after each failure. How many failed;
/// none where no layout is made, or one is wrong, or anything other than out of memory is returned.
fn insist_on_finish(
    alloc: Global,
    readers: &mut Vec<KeepingOne>,
    hoard: &mut Hoard,
) -> Option<u32> {
    let refusal = Refusal {
        at: END,
        why: Why::Memory,
    };
    let mut refused = 0u32;
    for _ in 0..readers.len() {
        let answer = finished(alloc, readers.pop()?);
        if answer == Ok(true) {
            return Some(refused);
        }
        if answer != Err(refusal) {
            return None;
        }
        refused = refused.saturating_add(1);
        hoard.give_back();
    }
    None
}

/// Whether the heap can be filled, and how many readers then fail.
fn finish_in_want(alloc: Global, readers: &mut Vec<KeepingOne>) -> Refused {
    match Hoard::new(alloc) {
        Ok(mut hoard) => Ok((
            hoard.is_full(),
            insist_on_finish(alloc, readers, &mut hoard),
        )),
        Err(AllocError) => Err(Why::Memory),
    }
}

/// The same for those readers.
fn finish_refused(alloc: Global) -> Refused {
    let mut readers = all_ready(alloc, unit()?)?;
    finish_in_want(alloc, &mut readers)
}

#[test]
fn finish_without_memory(rt: HostRuntime) {
    let refused = finish_refused(rt.alloc());
    assert!(rt; is_met(refused), "{refused:?}");
}

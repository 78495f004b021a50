//! Files that are canonical, and files that differ from one in one thing.

mod table;

use self::table::ROWS;
use oas_elements::{Limits, Profile};
use oas_judge::{Layout, is_canonical, read_judged};
use oas_num::{INPUT_MAX, Refusal, SliceSource};
use std::alloc::Global;
use test_tools::bytes_of;

/// Whether a file is canonical, or its refusal as the number of its reason and its place.
type Answer = Result<bool, (u8, u64)>;

/// The result for a file by a profile.
fn answer(alloc: Global, file: &[u8], profile: Profile) -> Answer {
    let mut source = SliceSource::new(file, INPUT_MAX);
    match is_canonical(alloc, &mut source, Limits::standard(), profile) {
        Ok(yes) => Ok(yes),
        Err(Refusal { at, why }) => Err((why.number(), at)),
    }
}

/// The result for a file by profile one and by profile two.
fn answers(alloc: Global, pieces: &str) -> Option<[Answer; 2]> {
    let file = bytes_of(alloc, pieces).ok()?;
    let by_one = answer(alloc, file.as_slice(), Profile::One);
    let by_two = answer(alloc, file.as_slice(), Profile::Two);
    Some([by_one, by_two])
}

/// The result that a row gives as `canonical`, `other` or NUMBER@OFFSET.
fn answer_of(text: &str) -> Option<Answer> {
    match text {
        "canonical" => Some(Ok(true)),
        "other" => Some(Ok(false)),
        _ => {
            let (number, at) = text.split_once('@')?;
            Some(Err((number.parse().ok()?, at.parse().ok()?)))
        }
    }
}

/// The file of a row, and the result that it gives; `None` for a heading.
fn parts(row: &str) -> Option<(&str, &str)> {
    let (_, rest) = row.split_once(" | ")?;
    rest.split_once(" | ")
}

/// The result of a row: one for both profiles, or one for each.
fn wanted(row: &str) -> Option<[Answer; 2]> {
    let (_, wanted) = parts(row)?;
    let (by_one, by_two) = wanted.split_once(" | ").unwrap_or((wanted, wanted));
    Some([answer_of(by_one)?, answer_of(by_two)?])
}

/// The result for the file of a row.
fn found(alloc: Global, row: &str) -> Option<[Answer; 2]> {
    let (file, _) = parts(row)?;
    answers(alloc, file)
}

#[test]
fn each_row(rt: HostRuntime) {
    let mut count = 0u64;
    for row in ROWS.lines() {
        let wanted = wanted(row);
        assert!(rt; found(rt.alloc(), row) == wanted, "{row}");
        if wanted.is_some() {
            count = count.saturating_add(1);
        }
    }
    assert!(rt; count == 54);
}

/// The layout of a file, kept by profile two, and whether the file is canonical by profile one, if at most this many bytes
/// are read.
fn judged(alloc: Global, file: &[u8], limit: u64) -> Result<(Layout, bool), Refusal> {
    let mut source = SliceSource::new(file, limit);
    read_judged(
        alloc,
        &mut source,
        Limits::standard(),
        Profile::One,
        Profile::Two,
    )
}

/// Drops a value in a step of its own, since that is expensive to prove beside other values.
fn discard<T: Drop>(_value: T) {}

/// The same for a file that is given in pieces.
fn pieces_judged(alloc: Global, pieces: &str) -> Option<(Layout, bool)> {
    let file = bytes_of(alloc, pieces).ok()?;
    judged(alloc, file.as_slice(), INPUT_MAX).ok()
}

/// Whether a file is canonical, and whether it has this layout.
fn compared_with(alloc: Global, layout: &Layout, pieces: &str) -> Option<[bool; 2]> {
    let (other, is_canonical) = pieces_judged(alloc, pieces)?;
    let is_same = layout.same(&other);
    discard(other);
    Some([is_canonical, is_same])
}

/// Whether a file is canonical, and whether another is, and has the same layout.
fn compared(alloc: Global, one: &str, other: &str) -> Option<(bool, [bool; 2])> {
    let (layout, is_canonical) = pieces_judged(alloc, one)?;
    let other = compared_with(alloc, &layout, other);
    discard(layout);
    Some((is_canonical, other?))
}

#[test]
fn a_box_is_its_rectangle(rt: HostRuntime) {
    let found = compared(
        rt.alloc(),
        "HEAD CELL BOX BOX TAIL",
        "HEAD CELL RECT RECT TAIL",
    );
    assert!(rt; found == Some((true, [true, true])));
}

#[test]
fn one_box_is_not_two(rt: HostRuntime) {
    let found = compared(
        rt.alloc(),
        "HEAD CELL BOX 00 TAIL",
        "HEAD CELL BOX BOX TAIL",
    );
    assert!(rt; found == Some((false, [true, false])));
}

/// The number of the reason for which a file is refused where this many bytes may be read.
fn refused_within(alloc: Global, pieces: &str, limit: u64) -> Option<u8> {
    let file = bytes_of(alloc, pieces).ok()?;
    match judged(alloc, file.as_slice(), limit) {
        Ok((layout, _)) => {
            discard(layout);
            None
        }
        Err(refusal) => Some(refusal.why.number()),
    }
}

#[test]
fn a_file_past_the_limit(rt: HostRuntime) {
    let found = refused_within(rt.alloc(), "HEAD CELL BOX TAIL", 100);
    assert!(rt; found == Some(31));
}

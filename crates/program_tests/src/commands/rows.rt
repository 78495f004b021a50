//! The worked rows through `canon`, over a slice.

use super::runs::{Outcome, refusal_of, run_work};
use super::table::ROWS;
use oas_explain::{Limits, Work};
use oas_num::{INPUT_MAX, SliceSource, Source};
use std::alloc::Global;
use std::process::Abort;
use std::test::Fail;
use test_tools::{bytes_of, put_pieces};

/// A file of one cell with one rectangle, of 301 bytes, which is canonical.
pub const RECTANGLE: &str = "HEAD CELL RECT TAIL";

/// The same, followed by a byte.
const LONGER: &str = "HEAD CELL RECT TAIL 00";

/// The name of each input.
pub const INPUT: &str = "standard input";

/// The pieces before and after those of a row.
pub type Frame = [&'static str; 2];

/// The frame of a row of whole files.
pub const WHOLE_FILE: Frame = ["", ""];

/// The frame of a row of what is between the beginning of a file and its END.
pub const BODY: Frame = ["HEAD", "TAIL"];

/// The bytes of a file that is given in pieces, within a frame.
fn bytes_within(alloc: Global, frame: Frame, pieces: &str) -> Result<Vec<u8>, Fail> {
    let [before, behind] = frame;
    let mut bytes = Vec::new(alloc);
    put_pieces(alloc, &mut bytes, before)?;
    put_pieces(alloc, &mut bytes, pieces)?;
    put_pieces(alloc, &mut bytes, behind)?;
    Ok(bytes)
}

/// What a run puts that ends with this status: all of these bytes, or nothing.
fn put_by<'a>(status: u8, bytes: &'a [u8]) -> &'a [u8] {
    if status == 0 { bytes } else { b"" }
}

/// Runs `canon` on a source, under limits. Returns the result, where this is the canonical file of what is accepted.
pub fn outcome(alloc: Global, limits: Limits, from: &mut impl Source, canonical: &[u8]) -> Outcome {
    let (mut out, mut err): (Vec<u8>, Vec<u8>) = (Vec::new(alloc), Vec::new(alloc));
    let work = Work::Canon;
    let status = run_work(alloc, work, INPUT, from, &mut out, &mut err, limits);
    let is_put = out.as_slice() == put_by(status, canonical);
    (status, is_put, refusal_of(&err, INPUT))
}

/// The limits of three numbers.
fn limits_of(numbers: &str) -> Option<Limits> {
    let (elements, rest) = numbers.split_once(' ')?;
    let (weight, input) = rest.split_once(' ')?;
    Limits::new(
        elements.parse().ok()?,
        weight.parse().ok()?,
        input.parse().ok()?,
    )
}

/// The limits of a row, which are the standard ones where it has none, its file, and the expected result.
fn parts_of(row: &str) -> Option<(Limits, &str, &str)> {
    let (_, rest) = row.split_once(" | ")?;
    let (first, rest) = rest.split_once(" | ")?;
    match rest.split_once(" | ") {
        Some((file, answer)) => Some((limits_of(first)?, file, answer)),
        None => Some((Limits::standard(), first, rest)),
    }
}

/// The number and the offset of a refusal, where a row gives one.
fn refused(answer: &str) -> Option<(u8, usize)> {
    let (number, at) = answer.split_once('@')?;
    Some((number.parse().ok()?, at.parse().ok()?))
}

/// The expected result for a file with this in its row, and its canonical file, which is itself where the row has no other.
fn wanted<'a>(file: &'a str, answer: &'a str) -> (Outcome, &'a str) {
    match (refused(answer), answer) {
        (Some(refusal), _) => ((1, true, Some(refusal)), file),
        (None, "same") => ((0, true, None), file),
        (None, _) => ((0, true, None), answer),
    }
}

/// The result for a file, and for its canonical file, which is unchanged.
fn outcomes(
    alloc: Global,
    frame: Frame,
    limits: Limits,
    file: &str,
    canonical: &str,
) -> Result<[Outcome; 2], Fail> {
    let file = bytes_within(alloc, frame, file)?;
    let canonical = bytes_within(alloc, frame, canonical)?;
    let (mut first, mut then) = (whole(&file), whole(&canonical));
    Ok([
        outcome(alloc, limits, &mut first, &canonical),
        outcome(alloc, limits, &mut then, &canonical),
    ])
}

/// A source that is read to its end.
fn whole<'a>(input: &'a [u8]) -> SliceSource<'a> {
    SliceSource::new(input, INPUT_MAX)
}

/// The same for the file of a row, and the expected result of each.
fn outcomes_of_row(
    alloc: Global,
    frame: Frame,
    row: &str,
) -> Result<([Outcome; 2], Outcome), Fail> {
    let (limits, file, answer) = parts_of(row).ok_or("a row has a file and an answer")?;
    let (wanted, canonical) = wanted(file, answer);
    Ok((outcomes(alloc, frame, limits, file, canonical)?, wanted))
}

/// Asserts what each row of a table says, and how many there are.
pub fn expect_rows(
    rt: &impl Abort,
    alloc: Global,
    frame: Frame,
    table: &str,
    count: usize,
) -> Result<(), Fail> {
    let mut met = 0usize;
    for row in table.lines() {
        if !row.starts_with('#') {
            let (found, wanted) = outcomes_of_row(alloc, frame, row)?;
            assert!(rt; found == [wanted; 2], "at {row}");
            met = met.saturating_add(1);
        }
    }
    assert!(rt; met == count);
    Ok(())
}

#[test]
fn each_row(rt: HostRuntime) -> Result<(), Fail> {
    expect_rows(&rt, rt.alloc(), WHOLE_FILE, ROWS, 199)
}

/// The first offset of the record at an offset of the rectangle file, which is where a file that ends there is refused.
pub fn record_at(offset: usize) -> usize {
    match offset {
        0..=12 => 0,
        13..=33 => 13,
        34..=36 => 34,
        37..=44 => 37,
        45..=300 => 45,
        _ => 301,
    }
}

/// The first bytes of a file that is given in pieces.
pub fn front_of(alloc: Global, pieces: &str, len: usize) -> Result<Vec<u8>, Fail> {
    let mut bytes = bytes_of(alloc, pieces)?;
    bytes.truncate(len);
    Ok(bytes)
}

/// The result for the first bytes of a file whose source gives no more than a limit, and how many there are. The canonical
/// file is the rectangle's.
fn within(alloc: Global, pieces: &str, len: usize, limit: u64) -> Result<(usize, Outcome), Fail> {
    let front = front_of(alloc, pieces, len)?;
    let canonical = bytes_of(alloc, RECTANGLE)?;
    let mut from = SliceSource::new(&front, limit);
    let found = outcome(alloc, Limits::standard(), &mut from, &canonical);
    Ok((front.len(), found))
}

#[test]
fn each_prefix(rt: HostRuntime) -> Result<(), Fail> {
    for len in 0..301usize {
        let wanted = (1, true, Some((2, record_at(len))));
        assert!(rt; within(rt.alloc(), RECTANGLE, len, INPUT_MAX)? == (len, wanted));
    }
    Ok(())
}

#[test]
fn each_limit(rt: HostRuntime) -> Result<(), Fail> {
    for limit in 0..301usize {
        let wanted = (1, true, Some((31, record_at(limit))));
        let found = within(rt.alloc(), RECTANGLE, 301, limit as u64)?;
        assert!(rt; found == (301, wanted), "at {limit}");
    }
    Ok(())
}

#[test]
fn limits_at_the_end(rt: HostRuntime) -> Result<(), Fail> {
    for (pieces, len, limit, wanted) in [
        (RECTANGLE, 301usize, 301u64, (0u8, true, None)),
        (LONGER, 302, 301, (1, true, Some((31u8, 301usize)))),
        (LONGER, 302, 302, (1, true, Some((30, 301)))),
    ] {
        let found = within(rt.alloc(), pieces, usize::MAX, limit)?;
        assert!(rt; found == (len, wanted), "at {limit} of {pieces}");
    }
    Ok(())
}

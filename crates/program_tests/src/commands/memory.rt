//! Each memory allocation fails in turn: the result is 34, with nothing written, or the file's own.
//!
//! The process's heap is filled with pieces, down to the smallest, and then emptied a piece at a time, so that each run has a
//! little more memory than the one before. (Under `rt try` the heap can't be filled, and nothing fails.)

use super::answers::{ANSWERS, NAMED};
use super::devices::Writer;
use super::runs::Run;
use std::alloc::{AllocError, Global};
use std::process::Abort;
use std::test::Fail;
use test_tools::Hoard;

/// Rows of `canon`, as in `runs`.
const CANON: &str = "\
rectangle | canon | HEAD CELL RECT TAIL | 0 | HEAD CELL RECT TAIL
sorted | canon | HEAD 0E0142 RECT 147B02000A140000 RECT 147B00000A140000 RECT CELL RECT 0E0143 TAIL | 0 | HEAD CELL RECT 0E0142 147B00000A140000 RECT RECT RECT 147B02000A140000 0E0143 TAIL
";

/// A writer that takes all, with the memory for it.
fn writer(alloc: Global) -> Result<Writer, AllocError> {
    Ok(Writer::new(Vec::with_capacity(alloc, 1024)?))
}

/// Runs a command once. Returns whether it reported out of memory and put nothing, or printed what it should: `None` where it
/// did neither.
fn is_refused(alloc: Global, run: &Run<'_>, out: &mut Writer, err: &mut Writer) -> Option<bool> {
    out.taken.clear();
    err.taken.clear();
    let status = run.run(alloc, out, err);
    if err.taken.is_empty() {
        let is_met = status == run.status && out.taken.as_slice() == run.answer.as_slice();
        return is_met.then_some(false);
    }
    let line = str::from_utf8(&err.taken).unwrap_or("");
    let is_met = status == 1 && out.taken.is_empty() && line.contains(": refused 34 at ");
    is_met.then_some(true)
}

/// Runs a command with a little more memory each time. Returns how often it succeeded, was out of memory, and did neither.
fn growths(
    alloc: Global,
    run: &Run<'_>,
    hoard: &mut Hoard,
    out: &mut Writer,
    err: &mut Writer,
) -> [usize; 3] {
    let [mut answered, mut refused, mut others] = [0usize; 3];
    for _ in 0..hoard.pieces() {
        match is_refused(alloc, run, out, err) {
            Some(false) => answered = answered.saturating_add(1),
            Some(true) => refused = refused.saturating_add(1),
            None => others = others.saturating_add(1),
        }
        hoard.give_back();
    }
    [answered, refused, others]
}

/// The same for the command of a row, and whether all memory could be taken before.
fn growths_of_row(alloc: Global, row: &str) -> Result<(bool, [usize; 3]), Fail> {
    let run = Run::of_row(alloc, row)?;
    let (mut out, mut err) = (writer(alloc)?, writer(alloc)?);
    let mut hoard = Hoard::new(alloc)?;
    let is_full = hoard.is_full();
    let counts = growths(alloc, &run, &mut hoard, &mut out, &mut err);
    Ok((is_full, counts))
}

/// Makes each allocation of the command of each of these rows fail. For one that takes little memory none may fail: it can
/// use what earlier runs gave back.
pub fn expect_growths(rt: &impl Abort, alloc: Global, rows: &str) -> Result<(), Fail> {
    let mut all_refused = 0usize;
    let mut is_each_full = true;
    for row in rows.lines() {
        let (is_full, [answered, refused, others]) = growths_of_row(alloc, row)?;
        let is_met = others == 0 && (!is_full || answered > 0);
        assert!(rt;
            is_met,
            "{answered} answered, {refused} refused, {others} neither at {row}"
        );
        all_refused = all_refused.saturating_add(refused);
        is_each_full = is_each_full && is_full;
    }
    assert!(rt; !is_each_full || all_refused > 0, "nothing was refused");
    Ok(())
}

#[test]
fn each_growth_of_canon(rt: HostRuntime) -> Result<(), Fail> {
    expect_growths(&rt, rt.alloc(), CANON)
}

#[test]
fn each_growth_of_an_answer(rt: HostRuntime) -> Result<(), Fail> {
    expect_growths(&rt, rt.alloc(), ANSWERS)
}

#[test]
fn each_growth_of_a_named_answer(rt: HostRuntime) -> Result<(), Fail> {
    expect_growths(&rt, rt.alloc(), NAMED)
}

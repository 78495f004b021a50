//! Readers that cut, fail or never end, and writers that cut, fail or take nothing.

use super::devices::{After, Full, Reader, Writer};
use super::rows::{RECTANGLE, front_of, outcome, record_at};
use super::runs::{Outcome, run_work, unrefused};
use oas_explain::{Limits, Work};
use oas_num::{INPUT_MAX, ReaderSource, SliceSource};
use std::alloc::Global;
use std::test::Fail;
use test_tools::bytes_of;

/// A writer that takes all, this many bytes a call.
fn taker(alloc: Global, most: usize) -> Writer {
    let mut taker = Writer::new(Vec::new(alloc));
    taker.most = most;
    taker
}

/// Runs `canon` from a reader, to writers, that give and take this many bytes a call. Returns its status, whether the
/// canonical file was put, and whether nothing was said.
fn cut(alloc: Global, most: usize) -> Result<(u8, [bool; 2]), Fail> {
    let file = bytes_of(alloc, "HEAD 00 0E0142 147B02008A00140300 RECT CELL TAIL")?;
    let canonical = bytes_of(alloc, "HEAD CELL 0E0142 RECT 147B02000A140300 TAIL")?;
    let reader = Reader::new(&file, most, After::End);
    let mut from = ReaderSource::new(alloc, reader, INPUT_MAX)?;
    let (mut out, mut err) = (taker(alloc, most), taker(alloc, most));
    let limits = Limits::standard();
    let work = Work::Canon;
    let status = run_work(alloc, work, "cut", &mut from, &mut out, &mut err, limits);
    Ok((status, [out.taken == canonical, err.taken.is_empty()]))
}

#[test]
fn readers_that_cut(rt: HostRuntime) -> Result<(), Fail> {
    for most in [1usize, 2, 3, 7, 324] {
        assert!(rt; cut(rt.alloc(), most)? == (0, [true; 2]), "at {most}");
    }
    Ok(())
}

/// Runs `canon` up to a limit from a reader that gives the first `len` bytes of a file, `most` a call. Returns the result,
/// which should be a refusal.
fn outcome_of(
    alloc: Global,
    pieces: &str,
    [len, most]: [usize; 2],
    after: After,
    limit: u64,
) -> Result<Outcome, Fail> {
    let front = front_of(alloc, pieces, len)?;
    let mut from = ReaderSource::new(alloc, Reader::new(&front, most, after), limit)?;
    Ok(outcome(alloc, Limits::standard(), &mut from, b""))
}

#[test]
fn readers_that_fail(rt: HostRuntime) -> Result<(), Fail> {
    for len in 0..302usize {
        let found = outcome_of(rt.alloc(), RECTANGLE, [len, 7], After::Fault, INPUT_MAX)?;
        assert!(rt;
            found == (1, true, Some((32, record_at(len)))),
            "after {len}"
        );
    }
    Ok(())
}

#[test]
fn readers_that_fail_or_never_end(rt: HostRuntime) -> Result<(), Fail> {
    for (pieces, counts, after, limit, refusal) in [
        (
            RECTANGLE,
            [10usize, 10],
            After::Interruption,
            INPUT_MAX,
            (32u8, 0usize),
        ),
        (RECTANGLE, [301, 301], After::Fault, 301, (32, 301)),
        ("HEAD", [34, 34], After::Zeros, 100, (31, 100)),
        ("HEAD 02 FF*4 0F", [40, 40], After::Zeros, 1000, (31, 34)),
        (RECTANGLE, [301, 301], After::Zeros, 301, (31, 301)),
        (RECTANGLE, [301, 301], After::Zeros, 302, (30, 301)),
    ] {
        let found = outcome_of(rt.alloc(), pieces, counts, after, limit)?;
        assert!(rt;
            found == (1, true, Some(refusal)),
            "of {pieces} up to {limit}"
        );
    }
    Ok(())
}

#[test]
fn writers_that_fail(rt: HostRuntime) -> Result<(), Fail> {
    let row = "a-rectangle | canon | HEAD CELL RECT TAIL | 0 | HEAD CELL RECT TAIL";
    for (most, full, name) in [
        (64usize, Full::Fault, "fails"),
        (64, Full::Interruption, "is interrupted"),
        (64, Full::Nothing, "takes nothing"),
        (usize::MAX, Full::Fault, "takes all at once"),
    ] {
        assert_eq!(rt;
            unrefused(rt.alloc(), row, most, full)?,
            None,
            "where it {name}"
        );
    }
    Ok(())
}

/// Runs `canon` on a file that is refused, to an error output that takes this many bytes. Returns its status, and whether
/// nothing was put.
fn refused_within(alloc: Global, room: usize) -> Result<(u8, bool), Fail> {
    let file = bytes_of(alloc, "HEAD CELL 22 TAIL")?;
    let mut from = SliceSource::new(&file, INPUT_MAX);
    let (mut out, mut err) = (taker(alloc, 1), taker(alloc, 1));
    err.room = room;
    let limits = Limits::standard();
    let work = Work::Canon;
    let status = run_work(alloc, work, "first", &mut from, &mut out, &mut err, limits);
    Ok((status, out.taken.is_empty()))
}

#[test]
fn error_outputs_that_fail(rt: HostRuntime) -> Result<(), Fail> {
    for room in 0..40usize {
        assert!(rt; refused_within(rt.alloc(), room)? == (1, true), "at {room}");
    }
    Ok(())
}

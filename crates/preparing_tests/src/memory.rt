//! Each memory allocation fails in turn: the result is 34, with nothing written, until there is enough of it.
//!
//! The heap is filled up, and given back a small piece, or some, after each run. Where the heap can't be filled, as under `rt try`,
//! nothing fails.

use crate::devices::Narrow;
use crate::rows::dropping_of;
use oas_num::{INPUT_MAX, NotedWriter, Outlet, SliceSource};
use oas_preparing::{End, Label, Limits, check_telling, key_telling, prepare_telling};
use std::alloc::Global;
use std::process::Abort;
use std::test::Fail;
use test_tools::{Hoard, bytes_of};

/// A writer that has its memory.
fn roomy(alloc: Global) -> Result<Narrow, Fail> {
    Ok(Narrow {
        taken: Vec::with_capacity(alloc, 1024)?,
        room: usize::MAX,
    })
}

/// Whether this reports out of memory.
fn is_refusal(line: &[u8]) -> bool {
    str::from_utf8(line).is_ok_and(|line| line.starts_with("chip.oas: refused 34 at "))
}

/// What is asked of a file.
#[derive(Clone, Copy)]
enum Asked {
    Prepare,
    Key,
    Check,
}

impl Asked {
    /// How many pieces are given back after each failure. Bytes that are kept grow by doubling, and an allocator may keep freed
    /// memory apart by its size: given back piece by piece, it would have nothing left but pieces of all these sizes.
    fn pieces(self) -> u32 {
        match self {
            Asked::Prepare | Asked::Key => 1,
            Asked::Check => 32,
        }
    }
}

/// Gives back this many pieces.
fn give_back(hoard: &mut Hoard, pieces: u32) {
    for _ in 0..pieces {
        hoard.give_back();
    }
}

/// The name of the file.
const NAME: &str = "chip.oas";

/// What it is prepared to.
const CANONICAL: &str = "HEAD CELL RECT TAIL";

/// How the line of an answer names it.
const LABEL: Label<'static> = Label {
    name: NAME,
    is_escaped: false,
    end: End::Newline,
};

/// The status of a run; None where it was out of memory for the file.
fn status(
    alloc: Global,
    asked: Asked,
    file: &[u8],
    out: &mut Narrow,
    err: &mut Narrow,
) -> Option<u8> {
    let from = &mut SliceSource::new(file, INPUT_MAX);
    let (limits, dropping) = (Limits::standard(), dropping_of("all"));
    let mut err = NotedWriter::new(err);
    let mut told = Outlet::new(&mut err);
    let out = &mut NotedWriter::new(out);
    let status = match asked {
        Asked::Prepare => prepare_telling(alloc, NAME, from, out, &mut told, limits, dropping),
        Asked::Key => key_telling(alloc, NAME, LABEL, from, out, &mut told, limits, dropping),
        Asked::Check => Some(check_telling(
            alloc, NAME, LABEL, from, out, &mut told, limits, dropping,
        )),
    };
    let _ = told.close();
    status
}

/// Runs once. Whether this was written (`done`), or the run failed out of memory (`refused`) with nothing written; `wrong`
/// where it was neither.
fn run(
    alloc: Global,
    asked: Asked,
    file: &[u8],
    wanted: &[u8],
    out: &mut Narrow,
    err: &mut Narrow,
) -> &'static str {
    out.taken.clear();
    err.taken.clear();
    let status = status(alloc, asked, file, out, err);
    match status {
        Some(0) if out.taken.as_slice() == wanted => "done",
        Some(1) if out.taken.is_empty() && is_refusal(&err.taken) => "refused",
        None if out.taken.is_empty() && err.taken.is_empty() => "refused",
        _ => "wrong",
    }
}

/// Runs until it succeeds, and gives back some memory after each failure. How the last run ended, and how many failed.
fn insist(
    alloc: Global,
    asked: Asked,
    file: &[u8],
    wanted: &[u8],
    hoard: &mut Hoard,
    out: &mut Narrow,
    err: &mut Narrow,
) -> (&'static str, u32) {
    for refused in 0..4000u32 {
        let end = run(alloc, asked, file, wanted, out, err);
        if end != "refused" {
            return (end, refused);
        }
        give_back(hoard, asked.pieces());
    }
    ("refused", 4000)
}

/// How the last run on a file ended, and whether one failed out of memory before, where the heap could be filled.
fn ends(
    alloc: Global,
    asked: Asked,
    file: &[u8],
    wanted: &[u8],
) -> Result<(&'static str, bool), Fail> {
    let (mut out, mut err) = (roomy(alloc)?, roomy(alloc)?);
    let mut hoard = Hoard::new(alloc)?;
    let (end, refused) = insist(alloc, asked, file, wanted, &mut hoard, &mut out, &mut err);
    Ok((end, !hoard.is_full() || refused > 0))
}

/// The same for a file from which each kind of record is left out.
fn ends_of_each_kind(
    alloc: Global,
    asked: Asked,
    wanted: &[u8],
) -> Result<(&'static str, bool), Fail> {
    let pieces = "HEAD 070150 0B014C0000 CELL RECT 1C1401500805 20000159 TAIL";
    let file = bytes_of(alloc, pieces)?;
    ends(alloc, asked, &file, wanted)
}

/// The same where it is prepared.
fn ends_of_preparing(alloc: Global) -> Result<(&'static str, bool), Fail> {
    let prepared = bytes_of(alloc, CANONICAL)?;
    ends_of_each_kind(alloc, Asked::Prepare, &prepared)
}

#[test]
fn without_memory(rt: HostRuntime) -> Result<(), Fail> {
    assert!(rt; ends_of_preparing(rt.alloc())? == ("done", true));
    Ok(())
}

/// The line of the key, which `sha256sum` gives.
const KEY: &[u8] = b"faa9cb7d21110cae5bde5660c1b56c7b0b00a54880eacf1bfeba45a6cc348d77  chip.oas\n";

#[test]
fn key_without_memory(rt: HostRuntime) -> Result<(), Fail> {
    let found = ends_of_each_kind(rt.alloc(), Asked::Key, KEY)?;
    assert!(rt; found == ("done", true));
    Ok(())
}

/// The line of a file that is canonical.
const YES: &[u8] = b"chip.oas: canonical\n";

/// How the last run on that ended, and whether one failed before, where the heap could be filled.
fn ends_of_checking(alloc: Global) -> Result<(&'static str, bool), Fail> {
    let file = bytes_of(alloc, CANONICAL)?;
    ends(alloc, Asked::Check, &file, YES)
}

#[test]
fn check_without_memory(rt: HostRuntime) -> Result<(), Fail> {
    assert!(rt; ends_of_checking(rt.alloc())? == ("done", true));
    Ok(())
}

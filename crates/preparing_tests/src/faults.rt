//! Readers and writers that fail at each byte.

use crate::devices::{Narrow, Torn};
use crate::rows::{Answer, NAME, answer, dropping_of};
use oas_num::{INPUT_MAX, NotedWriter, ReaderSource, SliceSource};
use oas_preparing::{Limits, run_prepare};
use std::alloc::Global;
use std::process::Abort;
use std::test::Fail;
use test_tools::bytes_of;

/// A file of 304 bytes, from which a name of properties is left out.
pub const FILE: &str = "HEAD 070150 CELL RECT TAIL";

/// Its result, in 301 bytes.
const PREPARED: &str = "HEAD CELL RECT TAIL";

/// The first offset of the record at an offset of the file, which is where a reader that fails there is refused.
pub fn record_at(offset: usize) -> usize {
    match offset {
        0..=12 => 0,
        13..=33 => 13,
        34..=36 => 34,
        37..=39 => 37,
        40..=47 => 40,
        48..=303 => 48,
        _ => 304,
    }
}

/// How many bytes the file has, and its result.
fn lengths(alloc: Global) -> Result<(usize, usize), Fail> {
    Ok((
        bytes_of(alloc, FILE)?.len(),
        bytes_of(alloc, PREPARED)?.len(),
    ))
}

#[test]
fn lengths_of_the_files(rt: HostRuntime) -> Result<(), Fail> {
    assert!(rt; lengths(rt.alloc())? == (304, 301));
    Ok(())
}

/// The result for a reader that fails at an offset of the file.
fn answer_of_reader(alloc: Global, offset: usize) -> Result<Answer, Fail> {
    let line = format!(in alloc; "{NAME}: refused 32 at {}\n", record_at(offset))?;
    let file = bytes_of(alloc, FILE)?;
    let rest = file.get(..offset).unwrap_or(&[]);
    let mut from = ReaderSource::new(alloc, Torn { rest }, INPUT_MAX)?;
    let dropping = dropping_of("properties");
    Ok(answer(alloc, &mut from, dropping, &[], &line))
}

#[test]
fn readers_that_fail(rt: HostRuntime) -> Result<(), Fail> {
    for offset in 0..305usize {
        let found = answer_of_reader(rt.alloc(), offset)?;
        assert!(rt; found == (1, true, true), "at {offset}");
    }
    Ok(())
}

/// The result for the file at an output and an error output with this much room, apart from what they take.
fn answer_of_writers(
    alloc: Global,
    out_room: usize,
    err_room: usize,
    output: &[u8],
    line: &[u8],
) -> Result<Answer, Fail> {
    let file = bytes_of(alloc, FILE)?;
    let from = &mut SliceSource::new(&file, INPUT_MAX);
    let (mut out, mut err) = (Narrow::new(alloc, out_room), Narrow::new(alloc, err_room));
    let (limits, dropping) = (Limits::standard(), dropping_of("properties"));
    let status = run_prepare(
        alloc,
        NAME,
        from,
        &mut NotedWriter::new(&mut out),
        &mut NotedWriter::new(&mut err),
        limits,
        dropping,
    );
    Ok((
        status.unwrap_or(9),
        out.taken.as_slice() == output,
        err.taken.as_slice() == line,
    ))
}

/// The result for an output with this much room, which takes a prefix of what is prepared.
fn answer_of_output(alloc: Global, room: usize) -> Result<Answer, Fail> {
    let prepared = bytes_of(alloc, PREPARED)?;
    let front = prepared.get(..room).unwrap_or(&[]);
    let line = format!(in alloc; "{NAME}: refused 33 at {room}\n")?;
    answer_of_writers(alloc, room, usize::MAX, front, line.as_bytes())
}

#[test]
fn writers_that_fail(rt: HostRuntime) -> Result<(), Fail> {
    for room in 0..301usize {
        let found = answer_of_output(rt.alloc(), room)?;
        assert!(rt; found == (1, true, true), "at {room}");
    }
    Ok(())
}

/// The result for an error output with this much room, which takes a prefix of the line.
fn answer_of_error_output(alloc: Global, room: usize) -> Result<Answer, Fail> {
    let prepared = bytes_of(alloc, PREPARED)?;
    let line = b"chip.oas: left out 1 property name\n";
    let front = line.get(..room).unwrap_or(line);
    answer_of_writers(alloc, usize::MAX, room, &prepared, front)
}

#[test]
fn error_outputs_that_fail(rt: HostRuntime) -> Result<(), Fail> {
    for room in 0..36usize {
        let found = answer_of_error_output(rt.alloc(), room)?;
        assert!(rt; found == (0, true, true), "at {room}");
    }
    Ok(())
}

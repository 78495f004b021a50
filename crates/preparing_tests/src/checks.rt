//! Whether files are what they are prepared to.

use crate::devices::{Narrow, Torn};
use crate::faults::{FILE, record_at};
use crate::rows::{Answer, NAME, ROWS, dropping_of, fields_of, line_of};
use oas_num::{INPUT_MAX, NotedWriter, Outlet, ReaderSource, SliceSource, Source};
use oas_preparing::{Dropping, End, Label, Limits, check_telling};
use std::alloc::Global;
use std::process::Abort;
use std::test::Fail;
use test_tools::bytes_of;

/// What each file of the rows is prepared to that isn't refused.
const PREPARED: &str = "HEAD CELL RECT TAIL";

/// More rows: spelled another way in each part of a file, all with one layout.
const SPELLED: &str = "\
a-pad-in-front | - | HEAD 00 CELL RECT TAIL | HEAD CELL RECT TAIL | -
a-longer-rectangle | - | HEAD CELL 147B0100 8A00 140000 TAIL | HEAD CELL RECT TAIL | -
a-pad-before-the-end | - | HEAD CELL RECT 00 TAIL | HEAD CELL RECT TAIL | -
";

/// How a line names a file.
const LABEL: Label<'static> = Label {
    name: "a\\nb",
    is_escaped: true,
    end: End::Newline,
};

/// The lines of both results.
const YES: &[u8] = b"a\\nb: canonical\n";

const NO: &[u8] = b"a\\nb: not canonical\n";

/// The result for a source at an output with this much room, apart from what it takes and a line.
fn answer(
    alloc: Global,
    from: &mut impl Source,
    dropping: Dropping,
    room: usize,
    output: &[u8],
    line: &[u8],
) -> Answer {
    let (mut out, mut err) = (Narrow::new(alloc, room), Narrow::new(alloc, usize::MAX));
    let mut noted = NotedWriter::new(&mut err);
    let mut told = Outlet::new(&mut noted);
    let limits = Limits::standard();
    let status = check_telling(
        alloc,
        NAME,
        LABEL,
        from,
        &mut NotedWriter::new(&mut out),
        &mut told,
        limits,
        dropping,
    );
    let _ = told.close();
    (
        status,
        out.taken.as_slice() == output,
        err.taken.as_slice() == line,
    )
}

/// The status and the output that a file has to have which is prepared to that output, or refused.
fn wanted(alloc: Global, file: &[u8], output: &str) -> Result<(u8, &'static [u8]), Fail> {
    if output != PREPARED {
        return Ok((1, b""));
    }
    let prepared = bytes_of(alloc, output)?;
    Ok(if file == prepared.as_slice() {
        (0, YES)
    } else {
        (3, NO)
    })
}

/// The status that a row has to have, and the result for its file.
fn answer_of_row(alloc: Global, row: &str) -> Result<(u8, Answer), Fail> {
    let [word, file, output, said] = fields_of(row);
    let line = line_of(alloc, output, said)?;
    let file = bytes_of(alloc, file)?;
    let (status, text) = wanted(alloc, &file, output)?;
    let from = &mut SliceSource::new(&file, INPUT_MAX);
    let dropping = dropping_of(word);
    let found = answer(alloc, from, dropping, usize::MAX, text, line.as_bytes());
    Ok((status, found))
}

#[test]
fn each_row(rt: HostRuntime) -> Result<(), Fail> {
    for row in ROWS.lines().chain(SPELLED.lines()) {
        let (status, answer) = answer_of_row(rt.alloc(), row)?;
        assert!(rt; answer == (status, true, true), "{row}");
    }
    Ok(())
}

/// The result for an output with this much room, which takes a prefix of the line.
fn answer_of_output(alloc: Global, room: usize) -> Result<Answer, Fail> {
    let file = bytes_of(alloc, FILE)?;
    let from = &mut SliceSource::new(&file, INPUT_MAX);
    let front = NO.get(..room).unwrap_or(NO);
    let line = format!(in alloc; "{NAME}: refused 33 at {room}\n")?;
    let dropping = dropping_of("properties");
    Ok(answer(alloc, from, dropping, room, front, line.as_bytes()))
}

#[test]
fn writers_that_fail(rt: HostRuntime) -> Result<(), Fail> {
    for room in 0..NO.len() {
        let found = answer_of_output(rt.alloc(), room)?;
        assert!(rt; found == (1, true, true), "at {room}");
    }
    Ok(())
}

/// The result for a reader that fails at an offset of the file.
fn answer_of_reader(alloc: Global, offset: usize) -> Result<Answer, Fail> {
    let line = format!(in alloc; "{NAME}: refused 32 at {}\n", record_at(offset))?;
    let file = bytes_of(alloc, FILE)?;
    let rest = file.get(..offset).unwrap_or(&[]);
    let mut from = ReaderSource::new(alloc, Torn { rest }, INPUT_MAX)?;
    let dropping = dropping_of("properties");
    Ok(answer(alloc, &mut from, dropping, usize::MAX, &[], line.as_bytes()))
}

#[test]
fn readers_that_fail(rt: HostRuntime) -> Result<(), Fail> {
    for offset in 0..305usize {
        let found = answer_of_reader(rt.alloc(), offset)?;
        assert!(rt; found == (1, true, true), "at {offset}");
    }
    Ok(())
}

//! Keys of what files are prepared to.

use crate::devices::Narrow;
use crate::rows::{Answer, NAME, ROWS, dropping_of, fields_of, line_of};
use oas_num::{INPUT_MAX, NotedWriter, Outlet, SliceSource};
use oas_preparing::{Dropping, End, Label, Limits, key_telling};
use std::alloc::Global;
use std::process::Abort;
use std::test::Fail;
use test_tools::bytes_of;

/// What each file of the rows is prepared to that isn't refused.
const PREPARED: &str = "HEAD CELL RECT TAIL";

/// The line of its key, which `sha256sum` gives, with an escaped name.
const LINE: &[u8] = b"\\faa9cb7d21110cae5bde5660c1b56c7b0b00a54880eacf1bfeba45a6cc348d77  a\\nb\n";

/// That name.
const LABEL: Label<'static> = Label {
    name: "a\\nb",
    is_escaped: true,
    end: End::Newline,
};

/// The result for a file at an output with this much room, apart from what it takes and a line.
fn answer(
    alloc: Global,
    file: &[u8],
    dropping: Dropping,
    room: usize,
    output: &[u8],
    line: &[u8],
) -> Answer {
    let from = &mut SliceSource::new(file, INPUT_MAX);
    let (mut out, mut err) = (Narrow::new(alloc, room), Narrow::new(alloc, usize::MAX));
    let mut noted = NotedWriter::new(&mut err);
    let mut told = Outlet::new(&mut noted);
    let limits = Limits::standard();
    let status = key_telling(
        alloc,
        NAME,
        LABEL,
        from,
        &mut NotedWriter::new(&mut out),
        &mut told,
        limits,
        dropping,
    );
    let _ = told.close();
    (
        status.unwrap_or(9),
        out.taken.as_slice() == output,
        err.taken.as_slice() == line,
    )
}

/// The status of a row, and the result for its file. One that is refused has no key.
fn answer_of_row(alloc: Global, row: &str) -> Result<(u8, Answer), Fail> {
    let [word, file, output, said] = fields_of(row);
    let line = line_of(alloc, output, said)?;
    let (status, key) = if output == PREPARED {
        (0, LINE)
    } else {
        (1, b"".as_slice())
    };
    let file = bytes_of(alloc, file)?;
    let answer = answer(
        alloc,
        &file,
        dropping_of(word),
        usize::MAX,
        key,
        line.as_bytes(),
    );
    Ok((status, answer))
}

#[test]
fn each_row(rt: HostRuntime) -> Result<(), Fail> {
    for row in ROWS.lines() {
        let (status, answer) = answer_of_row(rt.alloc(), row)?;
        assert!(rt; answer == (status, true, true), "{row}");
    }
    Ok(())
}

/// The result for an output with this much room, which takes a prefix of the key's line.
fn answer_of_output(alloc: Global, room: usize) -> Result<Answer, Fail> {
    let file = bytes_of(alloc, "HEAD CELL RECT 1C1401500805 TAIL")?;
    let front = LINE.get(..room).unwrap_or(LINE);
    let line = format!(in alloc; "{NAME}: refused 33 at {room}\n")?;
    let dropping = dropping_of("properties");
    Ok(answer(alloc, &file, dropping, room, front, line.as_bytes()))
}

#[test]
fn writers_that_fail(rt: HostRuntime) -> Result<(), Fail> {
    for room in 0..LINE.len() {
        let found = answer_of_output(rt.alloc(), room)?;
        assert!(rt; found == (1, true, true), "at {room}");
    }
    Ok(())
}

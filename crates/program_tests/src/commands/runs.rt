//! Runs of the commands that are given in rows: the output of each to memory, and to writers that fail.
//!
//! A row is a name, a command, its file, or two files with `&` between them, the status, and the output, with `;` for the end
//! of a line; for `canon` and `rekey` it is a file in pieces (see `rows`). After `! ` comes the line on the error output
//! instead, and the output is empty.

use super::devices::{Full, Writer};
use oas_explain::{
    Choice, Detail, End, Form, Label, Limits, Options, PLAIN as AS_LINES, PairWork, Work,
    pair_work_telling, work_telling,
};
use oas_num::{INPUT_MAX, NotedWriter, Outlet, SliceSource, Source};
use std::alloc::Global;
use std::io::Write;
use std::process::Abort;
use std::test::Fail;
use test_tools::bytes_of;

/// The name of the first file in the line of a result.
const PLAIN: Label<'static> = Label {
    name: "first",
    is_escaped: false,
    end: End::Newline,
};

/// The same where it was escaped.
const ESCAPED: Label<'static> = Label {
    name: "first",
    is_escaped: true,
    end: End::Newline,
};

/// The result of a run: its status, whether its output took what it should, and the refusal that was said, as `refusal_of`
/// returns it.
pub type Outcome = (u8, bool, Option<(u8, usize)>);

/// A command, and the files that it is run on; all except `same` and `diff` read only the first. Its output is put, or
/// `is_said` on the error output, and the other output takes nothing.
#[derive(Drop)]
pub struct Run<'a> {
    command: &'a str,
    first: Vec<u8>,
    second: Vec<u8>,
    pub status: u8,
    pub answer: Vec<u8>,
    is_said: bool,
}

/// All lines of a difference.
const ALL_LINES: Options<'static> = Options {
    choice: Choice {
        cells: None,
        layers: None,
    },
    detail: Detail::Elements,
    format: AS_LINES,
    limit: None,
};

/// The bytes of a text, with `;` for the end of a line.
fn lines_of(alloc: Global, text: &str) -> Result<Vec<u8>, Fail> {
    let mut lines = Vec::new(alloc);
    for byte in text.as_bytes() {
        lines.push(if *byte == b';' { b'\n' } else { *byte })?;
    }
    Ok(lines)
}

/// The bytes that a row's last part denotes.
fn answer_of(alloc: Global, command: &str, text: &str) -> Result<Vec<u8>, Fail> {
    match (text.strip_prefix("! "), command) {
        (Some(said), _) => lines_of(alloc, said),
        (None, "canon" | "rekey") => Ok(bytes_of(alloc, text)?),
        (None, _) => lines_of(alloc, text),
    }
}

/// The command of a row, its two files, its status, and its output.
fn parts_of(row: &str) -> Option<(&str, &str, &str, &str, &str)> {
    let (_, rest) = row.split_once(" | ")?;
    let (command, rest) = rest.split_once(" | ")?;
    let (files, rest) = rest.split_once(" | ")?;
    let (status, answer) = rest.split_once(" | ")?;
    let (first, second) = files.split_once('&').unwrap_or((files, ""));
    Some((command, first, second, status, answer))
}

/// Does the work on a source with this name, and returns the status of the command. What it has to say is put on an error
/// output.
pub fn run_work<S: Source, W: Write, E: Write>(
    alloc: Global,
    work: Work<'_>,
    name: &str,
    from: &mut S,
    out: &mut W,
    err: &mut E,
    limits: Limits,
) -> u8 {
    let mut err = NotedWriter::new(err);
    let mut told = Outlet::new(&mut err);
    let status = work_telling(
        alloc,
        work,
        name,
        from,
        &mut NotedWriter::new(out),
        &mut told,
        limits,
    );
    let _ = told.close();
    status
}

/// Does the work on two slices.
fn run_pair(
    alloc: Global,
    work: PairWork<'_>,
    first: &[u8],
    second: &[u8],
    out: &mut Writer,
    err: &mut Writer,
) -> u8 {
    let limits = Limits::standard();
    let mut a = SliceSource::new(first, INPUT_MAX);
    let mut b = SliceSource::new(second, INPUT_MAX);
    let mut err = NotedWriter::new(err);
    let mut told = Outlet::new(&mut err);
    let status = pair_work_telling(
        alloc,
        work,
        "first",
        &mut a,
        "second",
        &mut b,
        &mut NotedWriter::new(out),
        &mut told,
        limits,
    );
    let _ = told.close();
    status
}

/// What a command does with one file.
fn work_of(command: &str) -> Option<Work<'static>> {
    match command {
        "canon" => Some(Work::Canon),
        "check" => Some(Work::Check),
        "key" => Some(Work::Key),
        "named check" => Some(Work::NamedCheck(PLAIN)),
        "named key" => Some(Work::NamedKey(PLAIN)),
        "escaped key" => Some(Work::NamedKey(ESCAPED)),
        "keys" => Some(Work::CellKeys),
        "show" => Some(Work::Show),
        "rekey" => Some(Work::Rekey),
        "info" => Some(Work::Info(Form::Text)),
        "info --json" => Some(Work::Info(Form::Json)),
        _ => None,
    }
}

/// What any other command does with two files.
fn pair_work_of(command: &str) -> PairWork<'static> {
    match command {
        "diff" => PairWork::Diff(ALL_LINES),
        _ => PairWork::Same,
    }
}

impl<'a> Run<'a> {
    /// The run of a row.
    pub fn of_row(alloc: Global, row: &'a str) -> Result<Run<'a>, Fail> {
        let parts = parts_of(row).ok_or("a row has a command, files, a status and an answer")?;
        let (command, first, second, status, answer) = parts;
        Ok(Run {
            command,
            first: bytes_of(alloc, first)?,
            second: bytes_of(alloc, second)?,
            status: status.parse::<u8>().unwrap_or(9),
            answer: answer_of(alloc, command, answer)?,
            is_said: answer.starts_with("! "),
        })
    }

    /// Runs the command, and returns its status.
    pub fn run(&self, alloc: Global, out: &mut Writer, err: &mut Writer) -> u8 {
        let (first, second) = (self.first.as_slice(), self.second.as_slice());
        let Some(work) = work_of(self.command) else {
            return run_pair(alloc, pair_work_of(self.command), first, second, out, err);
        };
        let mut from = SliceSource::new(first, INPUT_MAX);
        run_work(
            alloc,
            work,
            "first",
            &mut from,
            out,
            err,
            Limits::standard(),
        )
    }

    /// Whether an output and an error output that took these bytes took what they should.
    fn took(&self, out: &[u8], err: &[u8]) -> [bool; 2] {
        let (took, nothing) = if self.is_said { (err, out) } else { (out, err) };
        [took == self.answer.as_slice(), nothing.is_empty()]
    }

    /// The result of the run to an output that fails after `room` bytes, where it should take the text up to there.
    fn fault(&self, alloc: Global, room: usize, most: usize, full: Full) -> Outcome {
        let mut out = Writer::new(Vec::new(alloc));
        out.most = most;
        out.room = room;
        out.full = full;
        out.flush_fails = room == self.answer.len();
        let mut err = Writer::new(Vec::new(alloc));
        let status = self.run(alloc, &mut out, &mut err);
        let is_front = self.answer.starts_with(&out.taken) && out.taken.len() == room;
        (status, is_front, refusal_of(&err.taken, "first"))
    }
}

/// The number and the place of a refusal, where this is the line of one for a file with this name.
fn refusal_in(line: &[u8], name: &str) -> Option<(u8, usize)> {
    let line = str::from_utf8(line).ok()?;
    let refused = line.strip_prefix(name)?.strip_prefix(": refused ")?;
    let (number, at) = refused.strip_suffix('\n')?.split_once(" at ")?;
    Some((number.parse().ok()?, at.parse().ok()?))
}

/// The same, and for any other line 0 at 0: there is none only where nothing was said.
pub fn refusal_of(said: &[u8], name: &str) -> Option<(u8, usize)> {
    if said.is_empty() {
        return None;
    }
    Some(refusal_in(said, name).unwrap_or((0, 0)))
}

/// Runs the command of a row. Returns its status, with the expected one, and whether the two outputs took what they should.
fn outcome(alloc: Global, row: &str) -> Result<([u8; 2], [bool; 2]), Fail> {
    let run = Run::of_row(alloc, row)?;
    let (mut out, mut err) = (Writer::new(Vec::new(alloc)), Writer::new(Vec::new(alloc)));
    let status = run.run(alloc, &mut out, &mut err);
    Ok(([status, run.status], run.took(&out.taken, &err.taken)))
}

/// Asserts what the run of each of these rows does.
pub fn expect_runs(rt: &impl Abort, alloc: Global, rows: &str) -> Result<(), Fail> {
    for row in rows.lines() {
        let ([status, wanted], took) = outcome(alloc, row)?;
        assert!(rt; (status, took) == (wanted, [true; 2]), "at {row}");
    }
    Ok(())
}

/// Runs a command to outputs that take `most` bytes a call and fail after each number of bytes, the last of them at the
/// flush. Returns after which of them it first did anything but refuse at the place that was reached, and what it did.
fn first_unrefused(
    run: &Run<'_>,
    alloc: Global,
    most: usize,
    full: Full,
) -> Option<(usize, Outcome)> {
    for room in 0..=run.answer.len() {
        let found = run.fault(alloc, room, most, full);
        if found != (1, true, Some((33, room))) {
            return Some((room, found));
        }
    }
    None
}

/// The same for the command of a row.
pub fn unrefused(
    alloc: Global,
    row: &str,
    most: usize,
    full: Full,
) -> Result<Option<(usize, Outcome)>, Fail> {
    let run = Run::of_row(alloc, row)?;
    Ok(first_unrefused(&run, alloc, most, full))
}

/// Asserts that the command of each of these rows refuses where its output fails.
pub fn expect_faults(rt: &impl Abort, alloc: Global, rows: &str) -> Result<(), Fail> {
    for row in rows.lines() {
        assert_eq!(rt;
            unrefused(alloc, row, usize::MAX, Full::Fault)?,
            None,
            "at {row}"
        );
    }
    Ok(())
}

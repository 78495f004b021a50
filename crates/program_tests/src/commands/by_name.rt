//! Runs over files by name: what is under an output's name once a run has ended.

use super::rows::RECTANGLE;
use super::runs::run_work;
use oas_explain::{Input, Limits, Output, Work};
use oas_num::{INPUT_MAX, ReaderSource, SliceSource};
use std::fs;
use std::test::Fail;
use test_tools::bytes_of;

/// The rectangle as a polygon, which was canonical by profile one.
const BOX: &str = "HEAD CELL 153B010004030128290001290000 TAIL";

/// The rectangle's cell with its name by number, which is accepted, and canonical by no profile.
const NUMBERED: &str = "HEAD 0D00 RECT 030141 TAIL";

/// A record that is refused.
const LEFT_OUT: &str = "HEAD CELL 22 TAIL";

/// Another spelling of the rectangle.
const RESPELLED: &str = "HEAD 0000 CELL 147B01008A00140000 TAIL";

/// A file whose second record is refused.
const LONGER: &str = "HEAD CELL RECT 147B01000A14000022 TAIL";

/// Makes a file with this name.
fn make(rt: &HostRuntime, path: &str, pieces: &str) -> Result<(), Fail> {
    let bytes = bytes_of(rt.alloc(), pieces)?;
    Ok(fs::write(rt, path, bytes.as_slice())?)
}

/// Whether the file with this name has these bytes.
fn has(rt: &HostRuntime, path: &str, pieces: &str) -> Result<bool, Fail> {
    let bytes = bytes_of(rt.alloc(), pieces)?;
    Ok(match fs::read(rt, path) {
        Ok(found) => found == bytes,
        Err(_) => false,
    })
}

/// Runs `canon` over bytes to a file with this name. Returns its status and whether it said this line.
fn canon_to(rt: &HostRuntime, pieces: &str, path: &str, line: &str) -> Result<(u8, bool), Fail> {
    let alloc = rt.alloc();
    let file = bytes_of(alloc, pieces)?;
    let mut from = SliceSource::new(&file, INPUT_MAX);
    let mut out = Output::new(rt, Some(path));
    let mut err: Vec<u8> = Vec::new(alloc);
    let limits = Limits::standard();
    let work = Work::Canon;
    let status = run_work(alloc, work, "a", &mut from, &mut out, &mut err, limits);
    Ok((status, err.as_slice() == line.as_bytes()))
}

#[test]
fn canonical_file_that_cannot_be_created(rt: HostRuntime) -> Result<(), Fail> {
    let ran = canon_to(&rt, RECTANGLE, "nowhere/new", "a: refused 33 at 0\n")?;
    assert!(rt; ran == (1, true));
    Ok(())
}

#[test]
fn canonical_file_that_replaces_another(rt: HostRuntime) -> Result<(), Fail> {
    make(&rt, "replaced", LONGER)?;
    let refused = canon_to(&rt, LONGER, "replaced", "a: refused 11 at 53\n")?;
    let is_left = has(&rt, "replaced", LONGER)?;
    let ran = canon_to(&rt, RECTANGLE, "replaced", "")?;
    let is_replaced = has(&rt, "replaced", RECTANGLE)?;
    fs::remove_file(&rt, "replaced")?;
    assert!(rt; (refused, is_left, ran, is_replaced) == ((1, true), true, (0, true), true));
    Ok(())
}

/// Does the work on a file by name into itself. Returns its status and whether it said nothing.
fn run_in_place(rt: &HostRuntime, path: &str, work: Work<'_>) -> Result<(u8, bool), Fail> {
    let alloc = rt.alloc();
    let mut from = ReaderSource::new(alloc, Input::open(rt, Some(path))?, INPUT_MAX)?;
    let mut out = Output::new(rt, Some(path));
    let mut err: Vec<u8> = Vec::new(alloc);
    let limits = Limits::standard();
    let status = run_work(alloc, work, path, &mut from, &mut out, &mut err, limits);
    Ok((status, err.is_empty()))
}

/// The same for a file that is made for it, and whether it then has these bytes.
fn in_place(
    rt: &HostRuntime,
    work: Work<'_>,
    old: &str,
    new: &str,
) -> Result<((u8, bool), bool), Fail> {
    make(rt, "both", old)?;
    let ran = run_in_place(rt, "both", work)?;
    let is_new = has(rt, "both", new)?;
    fs::remove_file(rt, "both")?;
    Ok((ran, is_new))
}

#[test]
fn file_that_is_input_and_output(rt: HostRuntime) -> Result<(), Fail> {
    for (work, old, ran, new) in [
        (Work::Canon, RESPELLED, (0u8, true), RECTANGLE),
        (Work::Rekey, BOX, (0, true), RECTANGLE),
        (Work::Rekey, NUMBERED, (3, false), NUMBERED),
        (Work::Rekey, LEFT_OUT, (1, false), LEFT_OUT),
    ] {
        assert!(rt; in_place(&rt, work, old, new)? == (ran, true), "of {old}");
    }
    Ok(())
}

/// Runs `rekey` over bytes to a file with this name. Returns its status, and whether there is then such a file.
fn rekey_to(rt: &HostRuntime, pieces: &str, path: &str) -> Result<(u8, bool), Fail> {
    let alloc = rt.alloc();
    let file = bytes_of(alloc, pieces)?;
    let mut from = SliceSource::new(&file, INPUT_MAX);
    let mut out = Output::new(rt, Some(path));
    let mut err: Vec<u8> = Vec::new(alloc);
    let limits = Limits::standard();
    let work = Work::Rekey;
    let status = run_work(alloc, work, "a", &mut from, &mut out, &mut err, limits);
    Ok((status, fs::exists(rt, path)?))
}

#[test]
fn file_that_is_not_created(rt: HostRuntime) -> Result<(), Fail> {
    for (file, status) in [(NUMBERED, 3u8), (LEFT_OUT, 1)] {
        assert!(rt;
            rekey_to(&rt, file, "uncreated")? == (status, false),
            "of {file}"
        );
    }
    Ok(())
}

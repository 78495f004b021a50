//! The difference with its markers, to writers that take all or fail.

use super::devices::Writer;
use super::runs::refusal_of;
use oas_explain::{Choice, Detail, Limits, Options, PLAIN, marking_telling};
use oas_num::{INPUT_MAX, NotedWriter, Outlet, SliceSource};
use std::alloc::Global;
use std::test::Fail;
use test_tools::bytes_of;

/// What `diff` prints for a cell with a rectangle and one without.
const LINES: &str = "@ cell A\n- 1 rectangle 1 0 10 20 0 0\n";

/// Room for all.
const ALL: usize = usize::MAX;

/// A writer that takes this many bytes.
fn taker(alloc: Global, room: usize) -> Writer {
    let mut taker = Writer::new(Vec::new(alloc));
    taker.room = room;
    taker
}

/// Runs `diff` on a cell with a rectangle and on one without, and returns its status.
fn run(
    alloc: Global,
    out: &mut Writer,
    markers: &mut Writer,
    said: &mut Vec<u8>,
) -> Result<u8, Fail> {
    let options = Options {
        choice: Choice::all(),
        detail: Detail::Elements,
        format: PLAIN,
        limit: None,
    };
    let a = bytes_of(alloc, "HEAD CELL RECT TAIL")?;
    let b = bytes_of(alloc, "HEAD CELL TAIL")?;
    let mut first = SliceSource::new(&a, INPUT_MAX);
    let mut second = SliceSource::new(&b, INPUT_MAX);
    let mut err = NotedWriter::new(said);
    let mut told = Outlet::new(&mut err);
    let status = marking_telling(
        alloc,
        "first",
        &mut first,
        "second",
        &mut second,
        options,
        &mut NotedWriter::new(out),
        "marks",
        &mut NotedWriter::new(markers),
        u64::MAX,
        &mut told,
        Limits::standard(),
    );
    let _ = told.close();
    Ok(status)
}

/// The markers, where they are taken whole.
fn whole(alloc: Global) -> Result<Vec<u8>, Fail> {
    let (mut out, mut markers) = (taker(alloc, ALL), taker(alloc, ALL));
    let mut said: Vec<u8> = Vec::new(alloc);
    let _ = run(alloc, &mut out, &mut markers, &mut said)?;
    Ok(markers.taken)
}

/// Runs `diff` to writers that take this many bytes of its lines and of its markers. Returns the status, how many bytes of
/// each were taken, whether they are prefixes of the lines and of the markers, and the refusal of the output with this name.
fn cut(
    alloc: Global,
    rooms: [usize; 2],
    name: &str,
) -> Result<(u8, [usize; 2], [bool; 2], Option<(u8, usize)>), Fail> {
    let all = whole(alloc)?;
    let (mut out, mut markers) = (taker(alloc, rooms[0]), taker(alloc, rooms[1]));
    let mut said: Vec<u8> = Vec::new(alloc);
    let status = run(alloc, &mut out, &mut markers, &mut said)?;
    let taken = [out.taken.len(), markers.taken.len()];
    let are_front = [
        LINES.as_bytes().starts_with(&out.taken),
        all.starts_with(&markers.taken),
    ];
    Ok((status, taken, are_front, refusal_of(&said, name)))
}

#[test]
fn writers_that_fail(rt: HostRuntime) -> Result<(), Fail> {
    let (lines, markers) = (LINES.len(), whole(rt.alloc())?.len());
    let last = markers.saturating_sub(1);
    for (rooms, name, status, taken, refusal) in [
        ([ALL, ALL], "first", 3u8, [lines, markers], None),
        ([ALL, 0], "marks", 1, [lines, 0], Some((33u8, 0usize))),
        ([ALL, 1], "marks", 1, [lines, 1], Some((33, 1))),
        ([ALL, 700], "marks", 1, [lines, 700], Some((33, 700))),
        ([ALL, last], "marks", 1, [lines, last], Some((33, last))),
        ([5, ALL], "first", 1, [5, 0], Some((33, 5))),
    ] {
        let wanted = (status, taken, [true; 2], refusal);
        assert!(rt; cut(rt.alloc(), rooms, name)? == wanted, "within {rooms:?}");
    }
    Ok(())
}

//! Writers that fail.

use super::ALL;
use super::layouts::{Sketch, layout};
use crate::narrow::Narrow;
use oas_canon::Layout;
use oas_markers::write_difference;
use oas_num::{NotedWriter, Refusal, Why};
use std::alloc::Global;
use std::test::Fail;

/// The difference of `before` and `after`.
const CHANGED: &str = "- 1 unit 1000/1
+ 1 unit 500/1
@ cell A
- 2 rectangle 1 0 10 20 0 0
+ 1 cell B
+ 1 rectangle 1 0 10 20 0 0
";

/// The layouts of that difference.
const BEFORE: Sketch<'static> = (1000, "A", &[(0, 1, 2)]);

const AFTER: Sketch<'static> = (500, "AB", &[(1, 1, 1)]);

/// Whether the difference fails where the writer's room ends, or at its own end, with what comes before that place written.
fn is_cut_off(before: &Layout, after: &Layout, mut writer: Narrow) -> bool {
    if before.profile() != after.profile() {
        return false;
    }
    let place = writer.room.min(CHANGED.len());
    let refusal = Refusal {
        at: place as u64,
        why: Why::Write,
    };
    write_difference(before, after, ALL, &mut NotedWriter::new(&mut writer)) == Err(refusal)
        && writer.took.len() == place
        && CHANGED.as_bytes().starts_with(writer.took.as_slice())
}

/// The first room, if any, in which a writer of this many bytes a call doesn't fail as it should.
fn first_wrong(alloc: Global, before: &Layout, after: &Layout, most: usize) -> Option<usize> {
    for room in 0..CHANGED.len() {
        if !is_cut_off(before, after, Narrow::new(alloc, most, room)) {
            return Some(room);
        }
    }
    None
}

/// Like `first_wrong`, for writers that take one byte a call, seven, and all that they are given.
fn first_wrongs(alloc: Global) -> Result<[Option<usize>; 3], Fail> {
    let before = layout(alloc, BEFORE)?;
    first_wrongs_from(alloc, &before)
}

/// The same, for a first layout and the one of `AFTER`.
fn first_wrongs_from(alloc: Global, before: &Layout) -> Result<[Option<usize>; 3], Fail> {
    let after = layout(alloc, AFTER)?;
    Ok([
        first_wrong(alloc, before, &after, 1),
        first_wrong(alloc, before, &after, 7),
        first_wrong(alloc, before, &after, usize::MAX),
    ])
}

#[test]
fn a_fault_comes_with_what_was_taken(rt: HostRuntime) -> Result<(), Fail> {
    let wrong = first_wrongs(rt.alloc())?;
    assert_eq!(rt; wrong, [None; 3]);
    Ok(())
}

/// Whether a writer that takes all, and whose flush fails, fails at the end.
fn is_refused_at_the_end(alloc: Global) -> Result<bool, Fail> {
    let before = layout(alloc, BEFORE)?;
    is_refused_from(alloc, &before)
}

/// The same, for a first layout and the one of `AFTER`.
fn is_refused_from(alloc: Global, before: &Layout) -> Result<bool, Fail> {
    let after = layout(alloc, AFTER)?;
    let mut writer = Narrow::new(alloc, 100, usize::MAX);
    writer.flushes = false;
    Ok(is_cut_off(before, &after, writer))
}

#[test]
fn a_failed_flush_is_a_fault_at_the_end(rt: HostRuntime) -> Result<(), Fail> {
    assert!(rt; is_refused_at_the_end(rt.alloc())?);
    Ok(())
}

//! Writers that fail.

use super::KINDS;
use super::layouts::kinds;
use crate::narrow::Narrow;
use oas_canon::{Layout, write_listing};
use oas_num::{NotedWriter, Refusal, Why};
use std::alloc::Global;
use std::test::Fail;

/// Whether the listing of `kinds` fails where the writer's room ends, or at its own end, with what comes before that place
/// written.
fn is_cut_off(layout: &Layout, writer: &mut Narrow) -> bool {
    let place = writer.room.min(KINDS.len());
    let refusal = Refusal {
        at: place as u64,
        why: Why::Write,
    };
    write_listing(layout, &mut NotedWriter::new(&mut *writer)) == Err(refusal)
        && writer.took.len() == place
        && KINDS.as_bytes().starts_with(writer.took.as_slice())
}

/// Like `is_cut_off`, for a writer of this room that takes at most this many bytes a call.
fn is_cut_off_by(alloc: Global, layout: &Layout, most: usize, room: usize) -> bool {
    is_cut_off(layout, &mut Narrow::new(alloc, most, room))
}

/// The first room, if any, in which a writer of this many bytes a call doesn't fail as it should.
fn first_wrong(alloc: Global, layout: &Layout, most: usize) -> Option<usize> {
    for room in 0..KINDS.len() {
        if !is_cut_off_by(alloc, layout, most, room) {
            return Some(room);
        }
    }
    None
}

/// Like `first_wrong`, for writers that take one byte a call, seven, and all that they are given.
fn first_wrongs(alloc: Global) -> Result<[Option<usize>; 3], Fail> {
    let layout = kinds(alloc)?;
    Ok([
        first_wrong(alloc, &layout, 1),
        first_wrong(alloc, &layout, 7),
        first_wrong(alloc, &layout, usize::MAX),
    ])
}

#[test]
fn a_fault_comes_with_what_was_taken(rt: HostRuntime) -> Result<(), Fail> {
    let wrong = first_wrongs(rt.alloc())?;
    assert_eq!(rt; wrong, [None; 3]);
    Ok(())
}

/// Whether a writer that takes all, and whose flush fails, fails at the end, and takes all where its flush succeeds.
fn flushed_again(alloc: Global) -> Result<[bool; 2], Fail> {
    let layout = kinds(alloc)?;
    let mut writer = Narrow::new(alloc, 100, usize::MAX);
    writer.flushes = false;
    let refused = is_cut_off(&layout, &mut writer);
    writer.flushes = true;
    let again = write_listing(&layout, &mut NotedWriter::new(&mut writer));
    Ok([refused, again == Ok(KINDS.len() as u64)])
}

#[test]
fn a_failed_flush_is_a_fault_at_the_end(rt: HostRuntime) -> Result<(), Fail> {
    assert!(rt; flushed_again(rt.alloc())? == [true; 2]);
    Ok(())
}

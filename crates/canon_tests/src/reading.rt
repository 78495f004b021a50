//! Allocations that fail: the result is out of memory, at a record that was read or at END, until there is enough of it.
//!
//! The heap is filled up, and given back a small piece after each run. Where the heap cannot be filled, as under an address
//! checker, nothing fails, and the result is the same.

use oas_canon::{Layout, read_layout};
use oas_elements::{Limits, Profile};
use oas_num::{INPUT_MAX, Refusal, SliceSource, Why};
use std::alloc::Global;
use test_tools::{Hoard, bytes_of};

/// A file that calls its cells and its text by numbers that are named after them, with the table-offsets in END.
const COMPACT: &str =
    "MAGIC START 00E807 01 0D01 14DB01000A0000 141028 0D00 11F80100000100003232 137B0003000000 0403544F5000 04014101 0602486900 02 00*12 F001 00*240 00";

/// Drops a layout, in a step of its own.
pub(crate) fn discard(_layout: Layout) {}

/// Reads the file once, and returns whether its layout is the right one.
fn is_right(alloc: Global, file: &[u8]) -> Result<bool, Refusal> {
    let mut source = SliceSource::new(file, INPUT_MAX);
    let layout = read_layout(alloc, &mut source, Limits::standard(), Profile::One)?;
    let counts = (layout.cell_count(), layout.count());
    discard(layout);
    Ok(counts == (2, 7))
}

/// Reads the file until that succeeds, and gives back a piece of memory after each failure. Whether its layout is right then,
/// and whether memory was the only reason of the failures; and whether there was one at 24, and at 68.
fn insist(alloc: Global, file: &[u8], hoard: &mut Hoard) -> ([bool; 2], [bool; 2]) {
    let mut is_memory = true;
    let mut were = [false; 2];
    for _ in 0..4000u32 {
        match is_right(alloc, file) {
            Ok(is_right) => return ([is_right, is_memory], were),
            Err(refusal) => {
                is_memory &= refusal.why == Why::Memory && refusal.why.number() == 34;
                were = with_place(were, refusal.at);
            }
        }
        hoard.give_back();
    }
    ([false, is_memory], were)
}

/// These with one more failure, at this place.
fn with_place(were: [bool; 2], at: u64) -> [bool; 2] {
    let [at_24, at_68] = were;
    [at_24 || at == 24, at_68 || at == 68]
}

/// The same for the compact file with all memory taken. Where the heap can't be filled nothing fails anywhere.
fn insist_without_memory(alloc: Global) -> Option<([bool; 2], [bool; 2])> {
    let file = bytes_of(alloc, COMPACT).ok()?;
    let mut hoard = Hoard::new(alloc).ok()?;
    let is_full = hoard.is_full();
    let (ended, were) = insist(alloc, file.as_slice(), &mut hoard);
    Some((ended, if is_full { were } else { [true; 2] }))
}

#[test]
fn without_memory(rt: HostRuntime) {
    let found = insist_without_memory(rt.alloc());
    let (ended, were) = found.unwrap_or(([false; 2], [false; 2]));
    assert!(rt; (ended, were) == ([true; 2], [true; 2]));
}

//! Each allocation fails in turn: a read returns out of memory, or what is there.

use super::read_one;
use oas_num::{INPUT_MAX, SliceSource, Why};
use std::alloc::{AllocError, Global};
use test_tools::Hoard;

/// A name, a string, and a path with a list and a repetition that grow.
const RECORDS: [&[u8]; 3] = [
    b"\x03\x14abcdefghijklmnopqrst",
    b"\x13\x40\x14abcdefghijklmnopqrst",
    b"\x16\x24\x00\x09\x02\x02\x02\x02\x02\x02\x02\x02\x02\x04\x08\x01\x01\x01\x01\x01\x01\x01\x01\x01",
];

/// Reads the records. Whether one fails, and whether each that fails does so at its beginning and out of memory.
fn read_all(alloc: Global) -> (bool, bool) {
    let mut refused = false;
    let mut all = true;
    for bytes in RECORDS {
        let mut source = SliceSource::new(bytes, INPUT_MAX);
        let read = read_one(alloc, &mut source, false);
        if read.number > 0 {
            refused = true;
            all &= read.number == Why::Memory.number() && read.at == 0;
        }
    }
    (refused, all)
}

/// The same again and again while memory comes back.
fn insist(alloc: Global, hoard: &mut Hoard) -> (bool, bool) {
    let mut seen = (false, true);
    for _ in 0..hoard.pieces() {
        let (refused, all) = read_all(alloc);
        seen = (seen.0 || refused, seen.1 && all);
        hoard.give_back();
    }
    seen
}

/// Whether the heap can be filled, and then the result for the records.
fn in_want(alloc: Global) -> Result<(bool, (bool, bool)), AllocError> {
    let mut hoard = Hoard::new(alloc)?;
    let seen = insist(alloc, &mut hoard);
    Ok((hoard.is_full(), seen))
}

/// Each allocation fails in turn, with a memory budget that grows by one small piece, until all succeed.
#[test]
fn growths_are_refused(rt: HostRuntime) -> Result<(), AllocError> {
    let (is_full, in_want) = in_want(rt.alloc())?;
    let with_memory = read_all(rt.alloc());
    assert!(rt; (in_want, with_memory) == ((is_full, true), (false, true)));
    Ok(())
}

//! Each memory allocation fails in turn: the result is `Why::Memory`, or the right one.
//!
//! The process's heap is filled with pieces, down to the smallest, and then emptied a piece at a time, so that each run has a
//! little more memory than the one before. (Under `rt try` the heap can't be filled, and nothing fails.)

use super::{AGAIN, file_of};
use oas_canon::{Limits, Refusal, SliceSource, Why, is_canonical, key, same_files};
use std::alloc::Global;
use test_tools::Hoard;

/// A call under test.
#[derive(Clone, Copy, Debug)]
enum Call {
    IsCanonical,
    Key,
    SameFiles,
}

/// Whether two files of these bytes are the same.
fn is_same(alloc: Global, file: &[u8]) -> Result<bool, Refusal> {
    let mut from = SliceSource::new(file, 10000);
    let mut other = SliceSource::new(file, 10000);
    match same_files(alloc, &mut from, &mut other, Limits::standard()) {
        Ok(same) => Ok(same),
        Err((_, refusal)) => Err(refusal),
    }
}

/// Makes the call once, and returns whether its result is right.
fn is_right(alloc: Global, call: Call, file: &[u8], digest: &[u8; 32]) -> Result<bool, Refusal> {
    let limits = Limits::standard();
    let mut from = SliceSource::new(file, 10000);
    match call {
        Call::IsCanonical => is_canonical(alloc, &mut from, limits),
        Call::Key => Ok(key(alloc, &mut from, limits)? == *digest),
        Call::SameFiles => is_same(alloc, file),
    }
}

/// Makes the call with a little more memory each time: how often it fails out of memory, how often it returns the right
/// result, and how often anything else.
fn counts(
    alloc: Global,
    call: Call,
    file: &[u8],
    digest: &[u8; 32],
    hoard: &mut Hoard,
) -> [u64; 3] {
    let mut refused = 0u64;
    let mut done = 0u64;
    let mut wrong = 0u64;
    for _ in 0..hoard.pieces() {
        match is_right(alloc, call, file, digest) {
            Ok(true) => done = done.saturating_add(1),
            Err(
                Refusal {
                    why: Why::Memory,
                    ..
                },
            ) => refused = refused.saturating_add(1),
            _ => wrong = wrong.saturating_add(1),
        }
        hoard.give_back();
    }
    [refused, done, wrong]
}

/// A file with more elements than there is room for at first.
fn long_file(alloc: Global) -> Option<Vec<u8>> {
    let mut rectangles: Vec<u8> = Vec::new(alloc);
    for _ in 0..150u32 {
        rectangles.extend_from_slice(&AGAIN).ok()?;
    }
    file_of(alloc, &rectangles)
}

/// The result of the call with all memory taken and given back little by little: whether no result is wrong, and, where the
/// heap can be filled, whether some fail out of memory and some are right.
fn at_each_growth(alloc: Global, call: Call) -> Option<[bool; 3]> {
    let file = long_file(alloc)?;
    let digest = key(
        alloc,
        &mut SliceSource::new(&file, 10000),
        Limits::standard(),
    )
    .ok()?;
    let mut hoard = Hoard::new(alloc).ok()?;
    let is_full = hoard.is_full();
    let [refused, done, wrong] = counts(alloc, call, &file, &digest, &mut hoard);
    Some([wrong == 0, !is_full || refused > 0, !is_full || done > 0])
}

#[test]
fn each_growth(rt: HostRuntime) {
    for call in [Call::IsCanonical, Call::Key, Call::SameFiles] {
        assert!(rt;
            at_each_growth(rt.alloc(), call) == Some([true; 3]),
            "{call:?}"
        );
    }
}

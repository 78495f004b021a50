//! What no contract says: each call succeeds where memory is there; its results for small files; a device that fails; and
//! each allocation that fails. The worked rows are the command's.

mod cell_keys;
mod memory;

use oas_canon::{
    Limits, NotedWriter, ReaderSource, Refusal, SliceSource, Source, Which, Why, canonicalize,
    is_canonical, key, same_files,
};
use std::alloc::Global;
use std::io;
use std::io::{ErrorKind, Read};

/// The magic, START with unit 1000, and one cell `A` with one rectangle.
const FRONT: [u8; 45] = [
    0x25, 0x53, 0x45, 0x4D, 0x49, 0x2D, 0x4F, 0x41, 0x53, 0x49, 0x53, 0x0D, 0x0A, 0x01, 0x03, 0x31,
    0x2E, 0x30, 0x00, 0xE8, 0x07, 0, 0, 0, 0, 0, 0, 0, 0, 0, 0, 0, 0, 0, 0x0E, 0x01, 0x41, 0x14,
    0x7B, 0x01, 0x00, 0x0A, 0x14, 0x00, 0x00,
];

/// Its rectangle again.
const AGAIN: [u8; 8] = [0x14, 0x7B, 0x01, 0x00, 0x0A, 0x14, 0x00, 0x00];

/// What `sha256sum` prints for the file with only that head.
const KEY: [u8; 32] = [
    0xFA, 0xA9, 0xCB, 0x7D, 0x21, 0x11, 0x0C, 0xAE, 0x5B, 0xDE, 0x56, 0x60, 0xC1, 0xB5, 0x6C, 0x7B,
    0x0B, 0x00, 0xA5, 0x48, 0x80, 0xEA, 0xCF, 0x1B, 0xFE, 0xBA, 0x45, 0xA6, 0xCC, 0x34, 0x8D, 0x77,
];

/// A PAD record.
const PAD: [u8; 1] = [0x00];

/// The id of a RECTANGLE and an info-byte that no rectangle has, and the result of them after the head.
const BAD: [u8; 2] = [0x14, 0xFC];

const REFUSAL: Refusal = Refusal {
    at: 45,
    why: Why::InfoByte,
};

/// A file of that head, these bytes, and the canonical END.
fn file_of(alloc: Global, more: &[u8]) -> Option<Vec<u8>> {
    let mut file = Vec::from_slice(alloc, &FRONT).ok()?;
    file.extend_from_slice(more).ok()?;
    file.extend_from_slice(&[0x02, 0xFC, 0x01]).ok()?;
    file.extend_from_slice(&[0; 253]).ok()?;
    Some(file)
}

/// Returns its bytes, and then fails.
#[derive(Drop)]
struct Failing<'a> {
    rest: &'a [u8],
}

impl Read for Failing<'_> {
    fn read(&mut self, buf: &mut [u8]) -> io::Result<usize> {
        if self.rest.is_empty() {
            return Err(io::Error::from(ErrorKind::Other));
        }
        let count = self.rest.len().min(buf.len());
        let (now, later) = self.rest.split_at(count);
        buf[..count].copy_from_slice(now);
        self.rest = later;
        Ok(count)
    }
}

/// The result of canonicalizing the file with only the head, and whether it is that file again.
fn written(alloc: Global) -> Option<(Result<u64, Refusal>, bool)> {
    let file = file_of(alloc, &[])?;
    let mut out: Vec<u8> = Vec::new(alloc);
    let mut from = SliceSource::new(&file, 301);
    let count = canonicalize(
        alloc,
        &mut from,
        &mut NotedWriter::new(&mut out),
        Limits::standard(),
    );
    Some((count, out.as_slice() == file.as_slice()))
}

/// Whether the file of the head and these bytes is canonical, where this many bytes may be read.
fn judged(alloc: Global, more: &[u8], limit: u64) -> Option<Result<bool, Refusal>> {
    let file = file_of(alloc, more)?;
    let mut from = SliceSource::new(&file, limit);
    Some(is_canonical(alloc, &mut from, Limits::standard()))
}

/// The key of that file.
fn keyed(alloc: Global, more: &[u8], limit: u64) -> Option<Result<[u8; 32], Refusal>> {
    let file = file_of(alloc, more)?;
    let mut from = SliceSource::new(&file, limit);
    Some(key(alloc, &mut from, Limits::standard()))
}

#[test]
fn a_canonical_file_is_written_as_it_is(rt: HostRuntime) {
    assert!(rt; written(rt.alloc()) == Some((Ok(301), true)));
}

#[test]
fn each_file_is_judged(rt: HostRuntime) {
    let alloc = rt.alloc();
    let found = [
        judged(alloc, &[], 301),
        judged(alloc, &PAD, 1000),
        judged(alloc, &AGAIN, 1000),
        judged(alloc, &BAD, 1000),
    ];
    let wanted = [
        Some(Ok(true)),
        Some(Ok(false)),
        Some(Ok(true)),
        Some(Err(REFUSAL)),
    ];
    assert!(rt; found == wanted);
}

#[test]
fn each_file_has_its_key(rt: HostRuntime) {
    let alloc = rt.alloc();
    let found = [
        keyed(alloc, &[], 301),
        keyed(alloc, &PAD, 1000),
        keyed(alloc, &BAD, 1000),
    ];
    assert!(rt; found == [Some(Ok(KEY)), Some(Ok(KEY)), Some(Err(REFUSAL))]);
}

/// The result for two files, each of the head and such bytes, and how many bytes were read of each.
fn compared(
    alloc: Global,
    more: &[u8],
    other: &[u8],
) -> Option<(Result<bool, (Which, Refusal)>, [u64; 2])> {
    let file = file_of(alloc, more)?;
    let other = file_of(alloc, other)?;
    let mut a = SliceSource::new(&file, 1000);
    let mut b = SliceSource::new(&other, 1000);
    let same = same_files(alloc, &mut a, &mut b, Limits::standard());
    Some((same, [a.at(), b.at()]))
}

#[test]
fn files_are_the_same_however_they_are_spelled(rt: HostRuntime) {
    let alloc = rt.alloc();
    let found = [compared(alloc, &[], &PAD), compared(alloc, &[], &AGAIN)];
    assert!(rt; found == [Some((Ok(true), [301, 302])), Some((Ok(false), [301, 309]))]);
}

#[test]
fn a_refused_file_is_told(rt: HostRuntime) {
    let alloc = rt.alloc();
    let found = [compared(alloc, &BAD, &BAD), compared(alloc, &[], &BAD)];
    let first = Some((Err((Which::First, REFUSAL)), [47, 0]));
    let second = Some((Err((Which::Second, REFUSAL)), [301, 47]));
    assert!(rt; found == [first, second]);
}

/// The reason of a refusal.
fn why_of(refusal: Option<Refusal>) -> Option<Why> {
    Some(refusal?.why)
}

/// Why it isn't known whether the first bytes of the file of the head are canonical where a device fails after them, and how
/// many bytes were read.
fn judged_failing(alloc: Global, length: usize) -> Option<(Option<Why>, u64)> {
    let file = file_of(alloc, &[])?;
    let rest = file.as_slice().get(..length)?;
    let mut from = ReaderSource::new(alloc, Failing { rest }, 1000).ok()?;
    let judged = is_canonical(alloc, &mut from, Limits::standard());
    Some((why_of(judged.err()), from.at()))
}

#[test]
fn a_device_that_fails(rt: HostRuntime) {
    for length in 0..301usize {
        let found = judged_failing(rt.alloc(), length);
        assert!(rt; found == Some((Some(Why::Read), length as u64)));
    }
}

/// Why there is no key of that file where a device fails after it.
fn keyed_failing(alloc: Global) -> Option<Why> {
    let file = file_of(alloc, &[])?;
    let mut from = ReaderSource::new(alloc, Failing { rest: &file }, 1000).ok()?;
    why_of(key(alloc, &mut from, Limits::standard()).err())
}

/// Which of two files isn't read, and why.
fn blamed(same: Result<bool, (Which, Refusal)>) -> Option<(Which, Why)> {
    let (which, refusal) = same.err()?;
    Some((which, refusal.why))
}

/// Which of two isn't read, and why: that file where a device fails after it, or the same file.
fn compared_failing(alloc: Global) -> Option<(Which, Why)> {
    let file = file_of(alloc, &[])?;
    let mut a = ReaderSource::new(alloc, Failing { rest: &file }, 1000).ok()?;
    let mut b = SliceSource::new(&file, 1000);
    blamed(same_files(alloc, &mut a, &mut b, Limits::standard()))
}

#[test]
fn a_device_that_fails_behind_the_file(rt: HostRuntime) {
    let found = (keyed_failing(rt.alloc()), compared_failing(rt.alloc()));
    assert!(rt; found == (Some(Why::Read), Some((Which::First, Why::Read))));
}

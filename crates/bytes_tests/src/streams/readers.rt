//! Readers below a source that give a few bytes a call, or fail.

use oas_bytes::{ReaderSource, SliceSource, Source, SourceFault};
use std::alloc::AllocError;
use std::io;
use std::io::Read;

/// What a reader does after its bytes.
#[derive(Clone, Copy, PartialEq, Eq)]
enum Then {
    Ends,
    Fails,
    GivesSevens,
}

/// A reader that gives at most this many bytes a call.
#[derive(Drop)]
struct Cut<'a> {
    bytes: &'a [u8],
    most: usize,
    then: Then,
}

impl<'a> Read for Cut<'a> {
    fn read(&mut self, buf: &mut [u8]) -> io::Result<usize> {
        if self.bytes.is_empty() {
            if self.then == Then::Fails {
                return Err(io::Error::from(io::ErrorKind::Interrupted));
            }
            if self.then == Then::GivesSevens && !buf.is_empty() {
                buf[0] = 7;
                return Ok(1);
            }
            return Ok(0);
        }
        let count = self.most.min(buf.len()).min(self.bytes.len());
        buf[..count].copy_from_slice(&self.bytes[..count]);
        self.bytes = &self.bytes[count..];
        Ok(count)
    }
}

/// What a source returns after its bytes.
type End = Result<Option<u8>, SourceFault>;

/// Whether a source gives these bytes, and then returns this at each call.
fn gives<S: Source>(source: &mut S, bytes: &[u8], last: End) -> bool {
    for byte in bytes {
        if source.next() != Ok(Some(*byte)) {
            return false;
        }
    }
    source.next() == last && source.next() == last && source.at() == bytes.len() as u64
}

/// Whether a source gives these bytes, where those at hand are taken at once and each other one by itself.
fn gives_at_once<S: Source>(source: &mut S, bytes: &[u8]) -> bool {
    let mut left = bytes;
    for _ in bytes {
        let ahead = source.ahead();
        let count = ahead.len();
        if count > left.len() || &left[..count] != ahead {
            return false;
        }
        source.skip(count);
        left = &left[count..];
        if let Some((byte, rest)) = left.split_first() {
            if source.next() != Ok(Some(*byte)) {
                return false;
            }
            left = rest;
        }
    }
    left.is_empty() && source.ahead().is_empty() && source.at() == bytes.len() as u64
}

/// What the readers and slices have.
const BYTES: [u8; 11] = [3, 72, 105, 33, 3, 200, 1, 0, 9, 130, 4];

/// What a source may give of them, how many those are, and what comes after them.
const LIMITS: [(u64, usize, End); 3] = [
    (100, 11, Ok(None)),
    (11, 11, Ok(None)),
    (10, 10, Err(SourceFault::TooLong)),
];

/// Whether a source of a slice gives these bytes and then returns this, one by one and at once.
fn slice_gives(limit: u64, given: &[u8], last: End) -> bool {
    let by_one = gives(&mut SliceSource::new(&BYTES, limit), given, last);
    let at_once = gives_at_once(&mut SliceSource::new(&BYTES, limit), given);
    [by_one, at_once] == [true; 2]
}

/// Whether a source of a reader gives these bytes, and then returns this.
fn reader_gives(
    rt: &HostRuntime,
    reader: Cut,
    limit: u64,
    given: &[u8],
    last: End,
) -> Result<bool, AllocError> {
    let mut source = ReaderSource::new(rt.alloc(), reader, limit)?;
    Ok(gives(&mut source, given, last))
}

/// Whether a source of a reader gives these bytes, where those at hand are taken at once.
fn reader_gives_at_once(
    rt: &HostRuntime,
    reader: Cut,
    limit: u64,
    given: &[u8],
) -> Result<bool, AllocError> {
    let mut source = ReaderSource::new(rt.alloc(), reader, limit)?;
    Ok(gives_at_once(&mut source, given))
}

/// Whether a source of a reader that gives at most this many bytes a call gives these bytes and then returns this, one by one
/// and at once.
fn cut_gives(rt: &HostRuntime, most: usize, limit: u64, given: &[u8], last: End) -> bool {
    let bytes = &BYTES;
    let then = Then::Ends;
    let by_one = reader_gives(rt, Cut { bytes, most, then }, limit, given, last);
    let at_once = reader_gives_at_once(rt, Cut { bytes, most, then }, limit, given);
    [by_one, at_once] == [Ok(true); 2]
}

#[test]
fn a_slice_gives_its_bytes_up_to_the_limit(rt: HostRuntime) {
    for (limit, count, end) in LIMITS {
        assert!(rt; slice_gives(limit, &BYTES[..count], end), "{limit}");
    }
}

#[test]
fn a_reader_gives_what_a_slice_gives_however_it_is_cut(rt: HostRuntime) {
    for (limit, count, end) in LIMITS {
        for most in [1, 2, 3, 7, 11] {
            let given = &BYTES[..count];
            assert!(rt;
                cut_gives(&rt, most, limit, given, end),
                "{limit} by {most}"
            );
        }
    }
}

#[test]
fn a_fault_comes_after_the_bytes_and_stays(rt: HostRuntime) {
    for most in [1, 2, 3, 7, 11] {
        let reader = Cut {
            bytes: &BYTES,
            most,
            then: Then::Fails,
        };
        let gives = reader_gives(&rt, reader, 100, &BYTES, Err(SourceFault::Device));
        assert!(rt; gives == Ok(true), "by {most}");
    }
}

#[test]
fn a_reader_without_end_is_too_long(rt: HostRuntime) {
    for most in [1, 2, 3] {
        let reader = Cut {
            bytes: &[3, 72, 105],
            most,
            then: Then::GivesSevens,
        };
        let gives = reader_gives(
            &rt,
            reader,
            5,
            &[3, 72, 105, 7, 7],
            Err(SourceFault::TooLong),
        );
        assert!(rt; gives == Ok(true), "by {most}");
    }
}

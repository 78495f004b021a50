//! Writing and reading integers. `bench/run` has the same beside plain Rust.

use crate::generator::Numbers;
use oas_num::{
    NotedWriter, Outlet, ReaderSource, Sink, SinkFault, SliceSource, Source, Why, put_unsigned,
    read_unsigned,
};
use std::alloc::{AllocError, Global};
use std::io;
use std::io::Write;
use std::time::{Duration, Instant};

/// How many numbers are made.
const MADE: u64 = 65536;

/// Puts and reads the numbers this many times, and says how long each part took.
pub(crate) fn measure(rt: &HostRuntime, times: u64) -> io::Result<()> {
    let numbers = made(rt.alloc())?;
    let mut bytes = Vec::new(rt.alloc());
    put(numbers.as_slice(), times, &mut bytes)?;
    measure_over(rt, numbers.as_slice(), bytes.as_slice(), times)
}

/// The same over numbers that were made, and over the bytes that spell them, this many times.
fn measure_over(rt: &HostRuntime, numbers: &[u64], bytes: &[u8], times: u64) -> io::Result<()> {
    let count = MADE.saturating_mul(times);
    time_writing(rt, numbers, times)?;
    time_slice(rt, bytes, count)?;
    time_reader(rt, bytes, count)
}

/// Numbers of all lengths, from 1 to 64 bits.
fn made(alloc: Global) -> Result<Vec<u64>, AllocError> {
    let mut source = Numbers::new();
    let mut numbers = Vec::new(alloc);
    for _ in 0..MADE {
        let bits = source.next();
        let shift = source.next() % 64;
        numbers.push(bits >> shift)?;
    }
    Ok(numbers)
}

/// Writes the numbers by an outlet.
fn time_writing(rt: &HostRuntime, numbers: &[u64], times: u64) -> io::Result<()> {
    let start = Instant::now(rt)?;
    let mut tally = Tally {
        count: 0,
        digest: 0,
    };
    put(numbers, times, &mut tally)?;
    tell(rt, "put", tally.count, tally.digest, start.elapsed(rt)?)
}

/// Reads this many numbers from bytes in memory.
fn time_slice(rt: &HostRuntime, bytes: &[u8], count: u64) -> io::Result<()> {
    let start = Instant::now(rt)?;
    let mut source = SliceSource::new(bytes, u64::MAX);
    let total = sum(&mut source, count).unwrap_or(0);
    tell(rt, "slice", count, total, start.elapsed(rt)?)
}

/// Reads this many numbers through a reader's window.
fn time_reader(rt: &HostRuntime, bytes: &[u8], count: u64) -> io::Result<()> {
    let start = Instant::now(rt)?;
    let total = sum_by_reader(rt.alloc(), bytes, count)?;
    tell(rt, "reader", count, total, start.elapsed(rt)?)
}

/// The sum of this many numbers.
fn sum_by_reader(alloc: Global, bytes: &[u8], count: u64) -> Result<u64, AllocError> {
    let mut source = ReaderSource::new(alloc, bytes, u64::MAX)?;
    Ok(sum(&mut source, count).unwrap_or(0))
}

/// Says how many bytes or numbers a part had, a digest of them, and how long it took.
fn tell(rt: &HostRuntime, part: &str, count: u64, digest: u64, taken: Duration) -> io::Result<()> {
    println!(rt; "{part} {count} {digest}")?;
    eprintln!(rt; "{part} {}", taken.as_micros())
}

/// A writer that keeps the count of its bytes, and a digest of a few of them.
#[derive(Drop)]
struct Tally {
    count: u64,
    digest: u64,
}

impl Write for Tally {
    fn write(&mut self, piece: &[u8]) -> io::Result<usize> {
        if let [first, .., last] = piece {
            self.digest = self.digest.wrapping_mul(31).wrapping_add(u64::from(*first));
            self.digest = self.digest.wrapping_mul(31).wrapping_add(u64::from(*last));
        }
        self.count = self.count.saturating_add(piece.len() as u64);
        Ok(piece.len())
    }

    fn flush(&mut self) -> io::Result<()> {
        Ok(())
    }
}

/// Puts the numbers through an outlet.
fn put<W: Write>(numbers: &[u64], times: u64, writer: &mut W) -> io::Result<()> {
    let mut noted = NotedWriter::new(writer);
    let mut outlet = Outlet::new(&mut noted);
    if put_numbers(numbers, times, &mut outlet).is_err() || outlet.close().is_err() {
        return Err(io::Error::from(io::ErrorKind::Other));
    }
    Ok(())
}

/// Puts the numbers, `times` times over.
#[inline(never)]
fn put_numbers<K: Sink>(numbers: &[u64], times: u64, sink: &mut K) -> Result<(), SinkFault> {
    for _ in 0..times {
        for number in numbers {
            put_unsigned(sink, *number)?;
        }
    }
    Ok(())
}

/// Reads this many numbers, and adds them up.
#[inline(never)]
fn sum<S: Source>(source: &mut S, count: u64) -> Result<u64, Why> {
    let mut total = 0u64;
    for _ in 0..count {
        total = total.wrapping_add(read_unsigned(source)?);
    }
    Ok(total)
}

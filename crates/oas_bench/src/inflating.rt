//! Inflating packets. `tests/inflate` and `bench/inflate` do the same by zlib.

use oas_inflate::{Bits, Fault, Inflated, InflatedSource, inflate};
use oas_num::{SliceSource, Source};
use std::alloc::Global;
use std::io::{self, Read};
use std::time::{Duration, Instant};

/// How many bytes a packet may encode: 2^28.
const LIMIT: usize = 268_435_456;

/// Inflates the packets of standard input, each after its length in four bytes, the lowest first, and says how long all of it
/// took.
pub(crate) fn measure(rt: &HostRuntime, times: u64) -> io::Result<()> {
    let mut input = Vec::new(rt.alloc());
    rt.stdin().read_to_end(&mut input)?;
    let taken = time_packets(rt, input.as_slice(), times)?;
    eprintln!(rt; "{}", taken.as_micros())
}

fn time_packets(rt: &HostRuntime, bytes: &[u8], times: u64) -> io::Result<Duration> {
    let mut rest = bytes;
    let mut taken = Duration::ZERO;
    // Each turn takes at least the four bytes of a length.
    for _ in 0..bytes.len() {
        if rest.len() < 4 {
            break;
        }
        let length = length_of(rest[0], rest[1], rest[2], rest[3]);
        let (packet, others) = packet_of(&rest[4..], length);
        taken = taken.saturating_add(time_packet(rt, packet, times)?);
        rest = others;
    }
    Ok(taken)
}

/// How long one packet takes. A line says how many bytes it encodes, and a digest of them, or why it is refused.
fn time_packet(rt: &HostRuntime, packet: &[u8], times: u64) -> io::Result<Duration> {
    let start = Instant::now(rt)?;
    let mut found = inflate_packet(rt.alloc(), packet);
    for _ in 1..times {
        found = inflate_packet(rt.alloc(), packet);
    }
    let taken = start.elapsed(rt)?;
    match found {
        Ok(bytes) => {
            let count = bytes.len();
            let digest = digest(&bytes);
            println!(rt; "{count} {digest}")?;
        }
        Err(fault) => println!(rt; "refused: {fault}")?,
    }
    Ok(taken)
}

/// The bytes that a packet encodes.
fn inflate_packet(alloc: Global, packet: &[u8]) -> Result<Inflated, Fault> {
    let mut bits = Bits::new(SliceSource::new(packet, u64::MAX));
    inflate(alloc, &mut bits, LIMIT).map_err(|stopped| stopped.fault)
}

/// A digest of bytes: each times a prime, and the next one added, modulo 2^64.
fn digest(inflated: &Inflated) -> u64 {
    let mut source = InflatedSource::new(inflated);
    let mut sum: u64 = 0;
    for _ in 0..inflated.len() {
        if let Ok(Some(byte)) = source.next() {
            sum = sum
                .wrapping_mul(1_099_511_628_211)
                .wrapping_add(u64::from(byte));
        }
    }
    sum
}

/// A length in four bytes, the lowest first.
fn length_of(first: u8, second: u8, third: u8, fourth: u8) -> usize {
    let low = usize::from(first) + 256 * usize::from(second);
    let high = usize::from(third) + 256 * usize::from(fourth);
    low + 65_536 * high
}

/// A packet of this length, or of as many bytes as there are, and what follows it.
fn packet_of(bytes: &[u8], length: usize) -> (&[u8], &[u8]) {
    bytes.split_at(length.min(bytes.len()))
}

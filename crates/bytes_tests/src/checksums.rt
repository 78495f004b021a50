//! Checksums that are known from outside.

mod sums;

use oas_checksum::{Crc32, Sum32};
use std::test::Fail;

/// Texts, their CRC-32 as zlib gives it, and the sum of their bytes.
const ROWS: &[(&str, u32, u32)] = &[
    ("", 0, 0),
    ("a", 0xE8B7_BE43, 97),
    ("abc", 0x3524_41C2, 294),
    ("123456789", 0xCBF4_3926, 477),
    (
        "The quick brown fox jumps over the lazy dog",
        0x414F_A339,
        4057,
    ),
];

/// In two pieces, the first of which has this many bytes, with one byte before them.
fn both(bytes: &[u8], first: usize) -> (u32, u32) {
    let mut crc = Crc32::new();
    let mut sum = Sum32::new();
    let (front, rest) = bytes.split_at(first.min(bytes.len()));
    crc.update(front);
    sum.update(front);
    for byte in rest {
        crc.push(*byte);
        sum.push(*byte);
    }
    (crc.value(), sum.value())
}

#[test]
fn texts(rt: HostRuntime) -> Result<(), Fail> {
    for &(text, crc, sum) in ROWS {
        for first in [0, 1, 7, 1000] {
            assert_eq!(rt; both(text.as_bytes(), first), (crc, sum), "{text}");
        }
    }
    Ok(())
}

#[test]
fn bytes(rt: HostRuntime) -> Result<(), Fail> {
    let mut all = [0u8; 256];
    for i in 0..=255u8 {
        all[usize::from(i)] = i;
    }
    assert!(rt; both(&all, 256) == (0x2905_8C73, 32640));
    assert!(rt; both(&[0; 1000], 500) == (0x060B_1780, 0));
    assert!(rt; both(&[255; 1000], 500) == (0xE053_3230, 255_000));
    Ok(())
}

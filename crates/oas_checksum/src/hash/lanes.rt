//! Four words of the schedule side by side (FIPS 180-4, 6.2.2).
ghost use Rattle.std.specs.Prelude.{◌≡◌, ℕ, [], ◌∷◌, ◌+◌, ◌*◌, ◌/◌, ◌%◌, ◌^◌, ◌≤◌, List, length, map, slice_index};
ghost use Rattle.sha2.specs.Sha256.{schedule, small_sigma0, small_sigma1, word_at};
ghost use Rattle.oas_checksum.specs.Schedule.{HasSums, known_part, with_high, with_low, words};

use crate::hash::constants::ROUND_CONSTANTS;
use std::simd::{u8x16, u32x4, u64x2};

/// Four words of a block, from this byte on.
#[inline(always)]
pub(crate) fn load(block: &[u8], at: usize) -> u32x4
    requires { at + 16 ≤ length block.now }
    ensures { result ≡ word_at block.now at ∷ word_at block.now (at + 4) ∷ word_at block.now (at + 8) ∷ word_at block.now (at + 12) ∷ [] }
{
    let bytes = u8x16::from_slice(&block[at..at + 16]);
    u32x4::from_le_bytes(bytes.swizzle([3, 2, 1, 0, 7, 6, 5, 4, 11, 10, 9, 8, 15, 14, 13, 12]))
}

/// `small_sigma0` of each word.
#[inline(always)]
fn small_sigma0(x: u32x4) -> u32x4
    ensures { result ≡ map small_sigma0 x }
{
    let by_7 = (x >> u32x4::splat(7)) | (x << u32x4::splat(25));
    let by_18 = (x >> u32x4::splat(18)) | (x << u32x4::splat(14));
    by_7 ^ by_18 ^ (x >> u32x4::splat(3))
}

/// Two words next to each other as one number, the second on top.
#[inline(always)]
fn paired(x: u32x4) -> u64x2
    ensures { result ≡ (slice_index x 0 + 2 ^ 32 * slice_index x 1) ∷ (slice_index x 2 + 2 ^ 32 * slice_index x 3) ∷ [] }
{
    u64x2::from_le_bytes(x.to_le_bytes())
}

/// The other way.
#[inline(always)]
fn parted(y: u64x2) -> u32x4
    ensures { result ≡ slice_index y 0 % 2 ^ 32 ∷ slice_index y 0 / 2 ^ 32 ∷ slice_index y 1 % 2 ^ 32 ∷ slice_index y 1 / 2 ^ 32 ∷ [] }
{
    u32x4::from_le_bytes(y.to_le_bytes())
}

/// `small_sigma1` of two words that are given twice each. The lanes between them are not said.
#[inline(always)]
fn small_sigma1(x: u32x4) -> u32x4
    ensures lanes { length result ≡ 4 }
    ensures words { (a b : ℕ) → x ≡ a ∷ a ∷ b ∷ b ∷ []
        → (slice_index result 0 ≡ small_sigma1 a) × (slice_index result 2 ≡ small_sigma1 b) }
{
    let y = paired(x);
    let rotated = (y >> u64x2::splat(17)) ^ (y >> u64x2::splat(19));
    parted(rotated) ^ (x >> u32x4::splat(10))
}

/// Of four new words, the terms that are known from words before them.
#[inline(always)]
pub(crate) fn known_part(a: u32x4, b: u32x4, c: u32x4, d: u32x4) -> u32x4
    ensures { result ≡ known_part a b c d }
{
    let later = c.shuffle(d, [1, 2, 3, 4]);
    a + later + small_sigma0(a.shuffle(b, [1, 2, 3, 4]))
}

/// The first two of the new words whole.
#[inline(always)]
pub(crate) fn with_low(known: u32x4, d: u32x4) -> u32x4
    ensures { result ≡ with_low known d }
{
    let sigma = small_sigma1(d.swizzle([2, 2, 3, 3]));
    known + sigma.shuffle(u32x4::splat(0), [0, 2, 4, 5])
}

/// All four new words whole.
#[inline(always)]
pub(crate) fn with_high(low: u32x4) -> u32x4
    ensures { result ≡ with_high low }
{
    let sigma = small_sigma1(low.swizzle([0, 0, 1, 1]));
    low + sigma.shuffle(u32x4::splat(0), [4, 5, 0, 2])
}

/// Keeps four words of the schedule, each with its round's constant added.
#[inline(always)]
pub(crate) fn keep(sums: &mut [u32; 64], at: usize, x: u32x4)
    requires { at + 4 ≤ 64 }
    ensures { (b : List ℕ) → HasSums b sums.old at → x ≡ words (schedule b 48) at → HasSums b sums.new (at + 4) }
{
    let constants = u32x4::from_slice(&ROUND_CONSTANTS[at..at + 4]);
    (x + constants).copy_to_slice(&mut sums[at..at + 4]);
}

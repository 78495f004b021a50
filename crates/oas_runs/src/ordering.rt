//! How keys compare.

ghost use Rattle.std.specs.Prelude.{◌≡◌, ◌<◌, ◌≤◌, ℕ, take, length, slice_index};
ghost use Rattle.std.specs.Int.{w64, from_be_bytes};
ghost use Rattle.std.specs.Cmp.Lexicographic.{slice_cmp};
ghost use Rattle.std.specs.Ordering.{nat_cmp};

use crate::entry::after;
use std::cmp::Ordering;

/// How many bytes are compared at once.
pub const AT_ONCE: usize = 8;

/// The first eight bytes as a number, with the first of them highest. Such numbers are ordered as their bytes.
#[inline(always)]
pub fn number_of(bytes: &[u8]) -> u64
    requires { 8 ≤ length bytes.now }
    ensures number { result ≡ from_be_bytes w64 (take 8 bytes.now) }
    ensures bytes { (k : ℕ) → slice_index bytes.now k < 256 }
{
    u64::from_be_bytes([
        bytes[0], bytes[1], bytes[2], bytes[3], bytes[4], bytes[5], bytes[6], bytes[7],
    ])
}

/// How two keys compare, byte by byte. Where one is a proper prefix of the other, the longer is greater.
#[inline(always)]
fn order_of_few(one: &[u8], other: &[u8]) -> Ordering
    ensures { result ≡ slice_cmp nat_cmp one.now other.now }
{
    let near = one.len().min(other.len());
    for i in 0..near {
        if one[i] != other[i] {
            return one[i].cmp(&other[i]);
        }
    }
    one[near..].cmp(&other[near..])
}

/// How two keys compare. Eight bytes are compared at once, as long as both have them.
#[inline(always)]
pub fn order_of(one: &[u8], other: &[u8]) -> Ordering
    ensures { result ≡ slice_cmp nat_cmp one.now other.now }
{
    let mut left = one;
    let mut right = other;
    while left.len() >= AT_ONCE && right.len() >= AT_ONCE {
        let left_front = number_of(left);
        let right_front = number_of(right);
        if left_front != right_front {
            return left_front.cmp(&right_front);
        }
        left = after(left, AT_ONCE);
        right = after(right, AT_ONCE);
    }
    order_of_few(left, right)
}

//! The number in front of bytes, and the bytes behind it. Numbers of one to four bytes, which most are, are read without a
//! search for their class. What reads them is inlined where it is called, so that the bytes that are left need not be in
//! memory.

ghost use Rattle.std.specs.Prelude.{◌≡◌, ◌≤◌, ◌<◌, ◌++◌, ◌^◌, ℕ, ℤ, List, length, take, drop, get_or};
ghost use Rattle.oas_keys.specs.Numbers.{number_in, unsigned_key, signed_key, place, AreClasses, firsts_of, IsStep};
ghost use Rattle.oas_keys.specs.Reading.{joined_digits};

use crate::classes::{Class, SIGNED, START, UNSIGNED};
use crate::firsts::first_found;
use crate::starts::{
    ABOVE_FIVE_BYTE, ABOVE_FOUR_BYTE, ABOVE_THREE_BYTE, ABOVE_TWO_BYTE, BELOW_FOUR_BYTE,
    BELOW_THREE_BYTE, BELOW_TWO_BYTE, FIVE_BYTE, FOUR, FOUR_BYTE, FOUR_EACH, LEAST_ABOVE_FOUR,
    LEAST_ABOVE_THREE, LEAST_ABOVE_TWO, LEAST_FOUR, LEAST_THREE, LEAST_TWO, ONE_BYTE, THREE,
    THREE_BYTE, THREE_EACH, TWO, TWO_BYTE, TWO_EACH, ZERO_BYTE,
};

/// The number of these digits to base 256, the highest first.
fn joined_digits(bytes: &[u8]) -> u64
    requires { length bytes.now ≤ 8 }
    ensures { result ≡ joined_digits 0 bytes.now }
{
    let mut number = 0;
    for byte in bytes {
        number = number * 256 + u64::from(*byte);
    }
    number
}

/// The digit after the first of two bytes, and the bytes behind them.
#[inline(always)]
fn digits_of_two(bytes: &[u8]) -> (u64, &[u8])
    requires { 2 ≤ length bytes.now }
    ensures number { result.0 ≡ joined_digits 0 (take 1 (drop 1 bytes.now)) }
    ensures small { result.0 < 2 ^ 8 }
    ensures behind { result.1.now ≡ drop 2 bytes.now }
{
    (u64::from(bytes[1]), &bytes[2..])
}

/// The number of the digits after the first of three bytes, and the bytes behind them.
#[inline(always)]
fn digits_of_three(bytes: &[u8]) -> (u64, &[u8])
    requires { 3 ≤ length bytes.now }
    ensures number { result.0 ≡ joined_digits 0 (take 2 (drop 1 bytes.now)) }
    ensures small { result.0 < 2 ^ 16 }
    ensures behind { result.1.now ≡ drop 3 bytes.now }
{
    let number = u64::from(bytes[1]) * TWO_EACH + u64::from(bytes[2]);
    (number, &bytes[3..])
}

/// The number of the digits after the first of four bytes, and the bytes behind them.
#[inline(always)]
fn digits_of_four(bytes: &[u8]) -> (u64, &[u8])
    requires { 4 ≤ length bytes.now }
    ensures number { result.0 ≡ joined_digits 0 (take 3 (drop 1 bytes.now)) }
    ensures small { result.0 < 2 ^ 24 }
    ensures behind { result.1.now ≡ drop 4 bytes.now }
{
    let number = u64::from(bytes[1]) * THREE_EACH
        + u64::from(bytes[2]) * TWO_EACH
        + u64::from(bytes[3]);
    (number, &bytes[4..])
}

/// The number in front, by the classes, and the bytes behind it. It is a function of its own, so that numbers of few bytes
/// need no room for what it keeps.
#[inline(never)]
#[cold]
fn long_in_front<'a>(classes: &[Class], bytes: &'a [u8]) -> (u64, &'a [u8])
    requires classes { AreClasses classes.now }
    requires firsts { firsts_of classes.now ≤ 254 }
    requires stands { (n : ℕ) × (rest : List ℕ) × (n < 2 ^ 64) × (bytes.now ≡ number_in classes.now 1 n ++ rest) }
    ensures { (n : ℕ) (rest : List ℕ) → n < 2 ^ 64 → bytes.now ≡ number_in classes.now 1 n ++ rest → (result.0 ≡ n) × (result.1.now ≡ rest) }
{
    let found = first_found(classes, u64::from(bytes[0]));
    let behind = &bytes[1..];
    let more = found.more as usize;
    let number = found.least + joined_digits(&behind[..more]);
    (number, &behind[more..])
}

/// The unsigned number in front, and the bytes behind it.
#[inline(always)]
pub(crate) fn unsigned_in_front(bytes: &[u8]) -> (u64, &[u8])
    requires { (n : ℕ) × (rest : List ℕ) × (n < 2 ^ 64) × (bytes.now ≡ unsigned_key n ++ rest) }
    ensures { (n : ℕ) (rest : List ℕ) → n < 2 ^ 64 → bytes.now ≡ unsigned_key n ++ rest → (result.0 ≡ n) × (result.1.now ≡ rest) }
{
    let first = u64::from(bytes[0]);
    if first < TWO_BYTE {
        return (first - 1, &bytes[1..]);
    }
    if first < THREE_BYTE {
        let (digits, behind) = digits_of_two(bytes);
        return (TWO + (first - TWO_BYTE) * TWO_EACH + digits, behind);
    }
    if first < FOUR_BYTE {
        let (digits, behind) = digits_of_three(bytes);
        return (THREE + (first - THREE_BYTE) * THREE_EACH + digits, behind);
    }
    if first < FIVE_BYTE {
        let (digits, behind) = digits_of_four(bytes);
        return (FOUR + (first - FOUR_BYTE) * FOUR_EACH + digits, behind);
    }
    long_in_front(&UNSIGNED, bytes)
}

/// A signed number of more than four bytes in front, and the bytes behind it.
fn long_signed_in_front(bytes: &[u8]) -> (i64, &[u8])
    requires { (x : ℤ) × (rest : List ℕ) × IsStep x × (bytes.now ≡ signed_key x ++ rest) }
    ensures { (x : ℤ) (rest : List ℕ) → IsStep x → bytes.now ≡ signed_key x ++ rest → (result.0 ≡ x) × (result.1.now ≡ rest) }
{
    let (at, behind) = long_in_front(&SIGNED, bytes);
    (at as i64 - START, behind)
}

/// The signed number in front, which is below those of one byte, by its first byte, and the bytes behind it.
#[inline(always)]
fn below_in_front(bytes: &[u8], first: u64) -> (i64, &[u8])
    requires first { first ≡ get_or bytes.now 0 0 }
    requires below { first < 97 }
    requires stands { (x : ℤ) × (rest : List ℕ) × IsStep x × (bytes.now ≡ signed_key x ++ rest) }
    ensures { (x : ℤ) (rest : List ℕ) → IsStep x → bytes.now ≡ signed_key x ++ rest → (result.0 ≡ x) × (result.1.now ≡ rest) }
{
    if first >= BELOW_TWO_BYTE {
        let (digits, behind) = digits_of_two(bytes);
        let above = (first - BELOW_TWO_BYTE) * TWO_EACH + digits;
        return (LEAST_TWO + above as i64, behind);
    }
    if first >= BELOW_THREE_BYTE {
        let (digits, behind) = digits_of_three(bytes);
        let above = (first - BELOW_THREE_BYTE) * THREE_EACH + digits;
        return (LEAST_THREE + above as i64, behind);
    }
    if first >= BELOW_FOUR_BYTE {
        let (digits, behind) = digits_of_four(bytes);
        let above = (first - BELOW_FOUR_BYTE) * FOUR_EACH + digits;
        return (LEAST_FOUR + above as i64, behind);
    }
    long_signed_in_front(bytes)
}

/// The signed number in front, which is above those of one byte, by its first byte, and the bytes behind it.
#[inline(always)]
fn above_in_front(bytes: &[u8], first: u64) -> (i64, &[u8])
    requires first { first ≡ get_or bytes.now 0 0 }
    requires above { 160 ≤ first }
    requires stands { (x : ℤ) × (rest : List ℕ) × IsStep x × (bytes.now ≡ signed_key x ++ rest) }
    ensures { (x : ℤ) (rest : List ℕ) → IsStep x → bytes.now ≡ signed_key x ++ rest → (result.0 ≡ x) × (result.1.now ≡ rest) }
{
    if first < ABOVE_THREE_BYTE {
        let (digits, behind) = digits_of_two(bytes);
        let above = (first - ABOVE_TWO_BYTE) * TWO_EACH + digits;
        return (LEAST_ABOVE_TWO + above as i64, behind);
    }
    if first < ABOVE_FOUR_BYTE {
        let (digits, behind) = digits_of_three(bytes);
        let above = (first - ABOVE_THREE_BYTE) * THREE_EACH + digits;
        return (LEAST_ABOVE_THREE + above as i64, behind);
    }
    if first < ABOVE_FIVE_BYTE {
        let (digits, behind) = digits_of_four(bytes);
        let above = (first - ABOVE_FOUR_BYTE) * FOUR_EACH + digits;
        return (LEAST_ABOVE_FOUR + above as i64, behind);
    }
    long_signed_in_front(bytes)
}

/// The signed number in front, and the bytes behind it.
#[inline(always)]
pub(crate) fn signed_in_front(bytes: &[u8]) -> (i64, &[u8])
    requires { (x : ℤ) × (rest : List ℕ) × IsStep x × (bytes.now ≡ signed_key x ++ rest) }
    ensures { (x : ℤ) (rest : List ℕ) → IsStep x → bytes.now ≡ signed_key x ++ rest → (result.0 ≡ x) × (result.1.now ≡ rest) }
{
    let first = u64::from(bytes[0]);
    if first < ONE_BYTE {
        return below_in_front(bytes, first);
    }
    if first < ABOVE_TWO_BYTE {
        return (first as i64 - ZERO_BYTE as i64, &bytes[1..]);
    }
    above_in_front(bytes, first)
}

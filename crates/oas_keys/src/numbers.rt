//! Numbers as bytes in their order.

ghost use Rattle.std.specs.Prelude.{◌≡◌, ◌+◌, ◌%◌, ◌/◌, ◌*◌, ◌^◌, ◌<◌, ◌≤◌, ◌++◌, ◌∷◌, ◌<ℤ◌, ◌≤ℤ◌, pos, negsuc, vec_len, vec_capacity};
ghost use Rattle.oas_keys.specs.Numbers.{number_in, digits, unsigned_key, signed_key, signed_classes, place, AreClasses, firsts_of, IsStep};

use crate::classes::{Class, SIGNED, START, UNSIGNED, Written, written_in};
use crate::digits::put_digits;
use crate::starts::{
    ABOVE_FOUR, ABOVE_FOUR_BYTE, ABOVE_THREE, ABOVE_THREE_BYTE, ABOVE_TWO, ABOVE_TWO_BYTE,
    BELOW_FOUR, BELOW_FOUR_BYTE, BELOW_THREE, BELOW_THREE_BYTE, BELOW_TWO, BELOW_TWO_BYTE, FIVE,
    FOUR, FOUR_BYTE, FOUR_EACH, LEAST_ABOVE_FIVE, LEAST_ABOVE_FOUR, LEAST_ABOVE_THREE,
    LEAST_ABOVE_TWO, LEAST_FOUR, LEAST_ONE, LEAST_THREE, LEAST_TWO, THREE, THREE_BYTE, THREE_EACH,
    TWO, TWO_BYTE, TWO_EACH, ZERO_BYTE,
};

/// Puts the first byte and the digits.
fn put_written(written: Written, out: &mut Vec<u8>)
    requires few { written.more ≤ 8 }
    requires room { vec_len out.old + 9 ≤ vec_capacity out.old }
    ensures items { out.new.items ≡ out.old.items ++ written.first ∷ digits written.more (written.digits % 2 ^ (8 * written.more)) }
    ensures len { vec_len out.new ≤ vec_len out.old + 9 }
    ensures capacity { vec_capacity out.new ≡ vec_capacity out.old }
{
    out.push_reserved(written.first);
    put_digits(written.digits, written.more, out);
}

/// Puts a number of two bytes, whose class begins with this byte.
fn put_two(base: u64, number: u64, out: &mut Vec<u8>)
    requires first { base + number / 2 ^ 8 < 256 }
    requires room { vec_len out.old + 9 ≤ vec_capacity out.old }
    ensures items { out.new.items ≡ out.old.items ++ (base + number / 2 ^ 8) ∷ digits 1 (number % 2 ^ 8) }
    ensures len { vec_len out.new ≡ vec_len out.old + 2 }
    ensures capacity { vec_capacity out.new ≡ vec_capacity out.old }
{
    out.push_reserved((base + number / TWO_EACH) as u8);
    out.push_reserved((number % TWO_EACH) as u8);
}

/// Puts a number of three bytes, whose class begins with this byte.
fn put_three(base: u64, number: u64, out: &mut Vec<u8>)
    requires first { base + number / 2 ^ 16 < 256 }
    requires room { vec_len out.old + 9 ≤ vec_capacity out.old }
    ensures items { out.new.items ≡ out.old.items ++ (base + number / 2 ^ 16) ∷ digits 2 (number % 2 ^ 16) }
    ensures len { vec_len out.new ≡ vec_len out.old + 3 }
    ensures capacity { vec_capacity out.new ≡ vec_capacity out.old }
{
    out.push_reserved((base + number / THREE_EACH) as u8);
    out.push_reserved((number / TWO_EACH % TWO_EACH) as u8);
    out.push_reserved((number % TWO_EACH) as u8);
}

/// Puts a number of four bytes, whose class begins with this byte.
fn put_four(base: u64, number: u64, out: &mut Vec<u8>)
    requires first { base + number / 2 ^ 24 < 256 }
    requires room { vec_len out.old + 9 ≤ vec_capacity out.old }
    ensures items { out.new.items ≡ out.old.items ++ (base + number / 2 ^ 24) ∷ digits 3 (number % 2 ^ 24) }
    ensures len { vec_len out.new ≡ vec_len out.old + 4 }
    ensures capacity { vec_capacity out.new ≡ vec_capacity out.old }
{
    out.push_reserved((base + number / FOUR_EACH) as u8);
    out.push_reserved((number / THREE_EACH % TWO_EACH) as u8);
    out.push_reserved((number / TWO_EACH % TWO_EACH) as u8);
    out.push_reserved((number % TWO_EACH) as u8);
}

/// Puts the number at a place in the classes. It is a function of its own, so that numbers of few bytes need no room for what
/// it keeps.
#[inline(never)]
#[cold]
fn put_long(classes: &[Class], place: u64, out: &mut Vec<u8>)
    requires classes { AreClasses classes.now }
    requires firsts { firsts_of classes.now ≤ 254 }
    requires room { vec_len out.old + 9 ≤ vec_capacity out.old }
    ensures items { out.new.items ≡ out.old.items ++ number_in classes.now 1 place }
    ensures len { vec_len out.new ≤ vec_len out.old + 9 }
    ensures capacity { vec_capacity out.new ≡ vec_capacity out.old }
{
    put_written(written_in(classes, place), out);
}

/// Puts an unsigned number. Those of one to four bytes, which most are, are put without a search for their class.
#[tactic(auto, unfolding(crate::specs::Numbers::unsigned_key))]
pub(crate) fn put_unsigned(number: u64, out: &mut Vec<u8>)
    requires { vec_len out.old + 9 ≤ vec_capacity out.old }
    ensures items { out.new.items ≡ out.old.items ++ unsigned_key number }
    ensures len { vec_len out.new ≤ vec_len out.old + 9 }
    ensures capacity { vec_capacity out.new ≡ vec_capacity out.old }
{
    if number < TWO {
        out.push_reserved((number + 1) as u8);
    } else if number < THREE {
        put_two(TWO_BYTE, number - TWO, out);
    } else if number < FOUR {
        put_three(THREE_BYTE, number - THREE, out);
    } else if number < FIVE {
        put_four(FOUR_BYTE, number - FOUR, out);
    } else {
        put_long(&UNSIGNED, number, out);
    }
}

/// The place of a number among those that have a class.
fn place_of(number: i64) -> u64
    requires { IsStep number }
    ensures { result ≡ place number }
{
    (number + START) as u64
}

/// Puts a signed number that is below those of one byte.
fn put_below(number: i64, out: &mut Vec<u8>)
    requires step { IsStep number }
    requires below { number <ℤ negsuc 30 }
    requires room { vec_len out.old + 9 ≤ vec_capacity out.old }
    ensures items { out.new.items ≡ out.old.items ++ number_in signed_classes 1 (place number) }
    ensures len { vec_len out.new ≤ vec_len out.old + 9 }
    ensures capacity { vec_capacity out.new ≡ vec_capacity out.old }
{
    let at = place_of(number);
    if number >= LEAST_TWO {
        put_two(BELOW_TWO_BYTE, at - BELOW_TWO, out);
    } else if number >= LEAST_THREE {
        put_three(BELOW_THREE_BYTE, at - BELOW_THREE, out);
    } else if number >= LEAST_FOUR {
        put_four(BELOW_FOUR_BYTE, at - BELOW_FOUR, out);
    } else {
        put_long(&SIGNED, at, out);
    }
}

/// Puts a signed number that is above those of one byte.
fn put_above(number: i64, out: &mut Vec<u8>)
    requires step { IsStep number }
    requires above { pos 32 ≤ℤ number }
    requires room { vec_len out.old + 9 ≤ vec_capacity out.old }
    ensures items { out.new.items ≡ out.old.items ++ number_in signed_classes 1 (place number) }
    ensures len { vec_len out.new ≤ vec_len out.old + 9 }
    ensures capacity { vec_capacity out.new ≡ vec_capacity out.old }
{
    let at = place_of(number);
    if number < LEAST_ABOVE_THREE {
        put_two(ABOVE_TWO_BYTE, at - ABOVE_TWO, out);
    } else if number < LEAST_ABOVE_FOUR {
        put_three(ABOVE_THREE_BYTE, at - ABOVE_THREE, out);
    } else if number < LEAST_ABOVE_FIVE {
        put_four(ABOVE_FOUR_BYTE, at - ABOVE_FOUR, out);
    } else {
        put_long(&SIGNED, at, out);
    }
}

/// Puts a signed number, which is at most as far from 0 as two coordinates are from each other. Those of one to four bytes
/// are put without a search for their class.
pub(crate) fn put_signed(number: i64, out: &mut Vec<u8>)
    requires step { IsStep number }
    requires room { vec_len out.old + 9 ≤ vec_capacity out.old }
    ensures items { out.new.items ≡ out.old.items ++ signed_key number }
    ensures len { vec_len out.new ≤ vec_len out.old + 9 }
    ensures capacity { vec_capacity out.new ≡ vec_capacity out.old }
{
    if number < LEAST_ONE {
        put_below(number, out);
    } else if number < LEAST_ABOVE_TWO {
        out.push_reserved((number + ZERO_BYTE as i64) as u8);
    } else {
        put_above(number, out);
    }
}

/// Puts two unsigned numbers.
pub(crate) fn put_unsigned_pair(first: u64, second: u64, out: &mut Vec<u8>)
    requires { vec_len out.old + 18 ≤ vec_capacity out.old }
    ensures items { out.new.items ≡ out.old.items ++ (unsigned_key first ++ unsigned_key second) }
    ensures len { vec_len out.new ≤ vec_len out.old + 18 }
    ensures capacity { vec_capacity out.new ≡ vec_capacity out.old }
{
    put_unsigned(first, out);
    put_unsigned(second, out);
}

/// Puts two signed numbers.
pub(crate) fn put_signed_pair(first: i64, second: i64, out: &mut Vec<u8>)
    requires first { IsStep first }
    requires second { IsStep second }
    requires room { vec_len out.old + 18 ≤ vec_capacity out.old }
    ensures items { out.new.items ≡ out.old.items ++ (signed_key first ++ signed_key second) }
    ensures len { vec_len out.new ≤ vec_len out.old + 18 }
    ensures capacity { vec_capacity out.new ≡ vec_capacity out.old }
{
    put_signed(first, out);
    put_signed(second, out);
}

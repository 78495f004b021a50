//! Grid steps as microns.

ghost use Rattle.std.specs.Prelude.{◌<◌};
ghost use Rattle.oas_num.specs.Writing.{Writes};
ghost use Rattle.oas_diff_text.specs.Microns.{quotient, pointed, decimals, length_in, microns};

use itoa::Buffer;
use oas_num::{Fraction, Sink, SinkFault};

/// Puts the digits of a remainder after the point, for a fraction with that denominator: at most 64.
fn put_decimals<K: Sink>(sink: &mut K, den: u64, mut rest: u64) -> Result<(), SinkFault>
    requires { rest < den }
    ensures { Writes K.given K.failures sink.old (decimals den 64 rest) result sink.new }
{
    let mut left = 64u64;
    while left > 0 {
        if rest == 0 {
            return Ok(());
        }
        let tens = 10 * u128::from(rest);
        let digit = (tens / u128::from(den)) as u8;
        sink.put(b'0' + digit)?;
        rest = (tens % u128::from(den)) as u64;
        left -= 1;
    }
    Ok(())
}

/// Puts a point and the digits after it, if there are any.
fn put_pointed<K: Sink>(sink: &mut K, den: u64, rest: u64) -> Result<(), SinkFault>
    requires { rest < den }
    ensures { Writes K.given K.failures sink.old (pointed (decimals den 64 rest)) result sink.new }
{
    if rest == 0 {
        return Ok(());
    }
    sink.put(b'.')?;
    put_decimals(sink, den, rest)
}

/// Puts a fraction as a decimal number.
fn put_quotient<K: Sink>(sink: &mut K, num: u128, den: u64) -> Result<(), SinkFault>
    requires { 0 < den }
    ensures { Writes K.given K.failures sink.old (quotient num den) result sink.new }
{
    let whole = num / u128::from(den);
    let rest = (num % u128::from(den)) as u64;
    sink.put_all(Buffer::new().format(whole).as_bytes())?;
    put_pointed(sink, den, rest)
}

/// Puts a length of this many grid steps, in microns: exactly if it is a finite decimal number, or else with its first 64
/// digits after the point.
pub fn put_length<K: Sink>(sink: &mut K, unit: Fraction, steps: u128) -> Result<(), SinkFault>
    ensures { Writes K.given K.failures sink.old (length_in unit steps) result sink.new }
{
    let counted = steps.min(u128::from(u64::MAX));
    put_quotient(sink, counted * u128::from(unit.den()), unit.num())
}

/// Puts a coordinate of this many grid steps, in microns, as `put_length` does.
pub fn put_microns<K: Sink>(sink: &mut K, unit: Fraction, steps: i128) -> Result<(), SinkFault>
    ensures { Writes K.given K.failures sink.old (microns unit steps) result sink.new }
{
    if steps < 0 {
        sink.put(b'-')?;
        put_length(sink, unit, steps.unsigned_abs())
    } else {
        put_length(sink, unit, steps.unsigned_abs())
    }
}

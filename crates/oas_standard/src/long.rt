//! Integers, and strings with their lengths, in any number of bytes.
ghost use Rattle.std.specs.Prelude.{◌≡◌, ◌<◌, ◌≤◌, ◌+◌, ◌*◌, ◌^◌, IfSome, IsNone};
ghost use Rattle.oas_num.specs.Grammar.{IsByte};
ghost use Rattle.oas_num.specs.Pieces.{CountTook};
ghost use Rattle.oas_num.specs.Reading.{ReadsPiece, ByteMay};
ghost use Rattle.oas_num.specs.Texts.{IsSkipped};
ghost use Rattle.oas_record.specs.Trees.{there};
ghost use Rattle.oas_standard.specs.Long.{IsLong, LongMay, long_number, long_padding};

use oas_num::{Padding, Source, Why, next_byte};

/// A sum: None exactly where it isn't below 2^64.
fn plus(value: u64, part: u64) -> Option<u64>
    ensures some { IfSome result (λ n. (n ≡ value + part) × (n < 2 ^ 64)) }
    ensures none { IsNone result → 2 ^ 64 ≤ value + part }
{
    value.checked_add(part)
}

/// A value with one more group of seven bits, at its place: None exactly where that isn't below 2^64.
fn with_group(value: u64, group: u8, place: u64) -> Option<u64>
    ensures some { IfSome result (λ n. (n ≡ value + group * 128 ^ place) × (n < 2 ^ 64)) }
    ensures none { IsNone result → 2 ^ 64 ≤ value + group * 128 ^ place }
{
    if group == 0 {
        return Some(value);
    }
    if place > 9 {
        return None;
    }
    let weight = 128u64.pow(place as u32);
    match weight.checked_mul(u64::from(group)) {
        Some(part) => plus(value, part),
        None => None,
    }
}

/// Reads an unsigned number, in any number of bytes: after the tenth its groups must be zero. It fails at the byte that
/// decides.
pub(crate) fn read_long<S: Source>(source: &mut S) -> Result<u64, Why>
    ensures { ReadsPiece IsLong LongMay (S.script source.old) result (S.script source.new) }
{
    let start = source.at();
    let mut value: u64 = 0;
    loop {
        let place = source.at() - start;
        let byte = next_byte(source)?;
        value = match with_group(value, byte % 128, place) {
            Some(sum) => sum,
            None => return Err(Why::IntegerRange),
        };
        if byte < 128 {
            return Ok(value);
        }
    }
}

/// The same, where there is one.
pub(crate) fn read_long_if<S: Source>(is_given: bool, source: &mut S) -> Result<Option<u64>, Why>
    ensures { ReadsPiece (there is_given long_number).any (there is_given long_number).took (S.script source.old) result (S.script source.new) }
{
    if is_given {
        Ok(Some(read_long(source)?))
    } else {
        Ok(None)
    }
}

/// Skips this many bytes of any kind.
fn pass_over<S: Source>(count: u64, source: &mut S) -> Result<Padding, Why>
    ensures { ReadsPiece (IsSkipped count) (CountTook IsByte count ByteMay) (S.script source.old) result (S.script source.new) }
{
    for _ in 0..count {
        next_byte(source)?;
    }
    Ok(Padding { length: count })
}

/// A skipped string, with a length in any number of bytes.
pub(crate) fn read_long_padding<S: Source>(source: &mut S) -> Result<Padding, Why>
    ensures { ReadsPiece long_padding.any long_padding.took (S.script source.old) result (S.script source.new) }
{
    let length = read_long(source)?;
    let padding = pass_over(length, source)?;
    Ok(padding)
}

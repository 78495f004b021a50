//! Integers with a sign, and without.
ghost use Rattle.oas_num.specs.Grammar.{IsThere};
ghost use Rattle.oas_num.specs.Integers.{IsUnsigned, IsSigned};
ghost use Rattle.oas_num.specs.Reading.{ReadsPiece, IntegerMay};

use crate::refusals::Why;
use crate::spelling::{Spelled, next_byte};
use oas_bytes::Source;
use std::alloc::Global;

/// A number below 2^64 (SEMI P39, Unsigned integers): groups of seven bits, the least significant first. Longer spellings
/// than needed are accepted, up to ten bytes (own rule).
#[derive(Clone, Copy, Debug, PartialEq, Eq)]
pub struct Unsigned(pub u64);

/// A number with a sign (SEMI P39, Signed integers): bit 0 is the sign, the other bits the magnitude. Minus zero is zero
/// (own rule).
#[derive(Clone, Copy, Debug, PartialEq, Eq)]
pub struct Signed(pub i64);

/// Reads an unsigned number. It fails at the byte that decides.
pub fn read_unsigned<S: Source>(source: &mut S) -> Result<u64, Why>
    ensures { ReadsPiece IsUnsigned IntegerMay (S.script source.old) result (S.script source.new) }
{
    let mut value: u64 = 0;
    let mut weight: u64 = 1;
    for _ in 0..9u8 {
        let byte = next_byte(source)?;
        value += u64::from(byte % 128) * weight;
        if byte < 128 {
            return Ok(value);
        }
        weight *= 128;
    }
    let last = next_byte(source)?;
    if last > 1 {
        return Err(Why::IntegerRange);
    }
    Ok(value + u64::from(last) * weight)
}

/// Reads a signed number.
pub(crate) fn read_signed<S: Source>(source: &mut S) -> Result<i64, Why>
    ensures { ReadsPiece IsSigned IntegerMay (S.script source.old) result (S.script source.new) }
{
    let coded = read_unsigned(source)?;
    let magnitude = (coded / 2) as i64;
    if coded % 2 == 0 {
        Ok(magnitude)
    } else {
        Ok(-magnitude)
    }
}

/// Reads an unsigned number, where there is one.
pub fn read_unsigned_if<S: Source>(there: bool, source: &mut S) -> Result<Option<u64>, Why>
    ensures { ReadsPiece (IsThere there IsUnsigned) IntegerMay (S.script source.old) result (S.script source.new) }
{
    if there {
        Ok(Some(read_unsigned(source)?))
    } else {
        Ok(None)
    }
}

/// Reads a signed number, where there is one.
pub fn read_signed_if<S: Source>(there: bool, source: &mut S) -> Result<Option<i64>, Why>
    ensures { ReadsPiece (IsThere there IsSigned) IntegerMay (S.script source.old) result (S.script source.new) }
{
    if there {
        Ok(Some(read_signed(source)?))
    } else {
        Ok(None)
    }
}

impl Spelled for Unsigned {
    ghost use Rattle.oas_num.specs.Integers.{SpellsUnsigned};
    ghost use Rattle.oas_num.specs.Laws.IntegerLaws.{Unsigned-one_front, Unsigned-some};

    ghost spells = { SpellsUnsigned };

    ghost took = { IntegerMay };

    ghost one_front = { Unsigned-one_front };

    ghost some = { Unsigned-some };

    fn read<S: Source>(_alloc: Global, source: &mut S) -> Result<Unsigned, Why>
        ensures { ReadsPiece SpellsUnsigned IntegerMay (S.script source.old) result (S.script source.new) }
    {
        Ok(Unsigned(read_unsigned(source)?))
    }
}

impl Spelled for Signed {
    ghost use Rattle.oas_num.specs.Integers.{SpellsSigned};
    ghost use Rattle.oas_num.specs.Laws.IntegerLaws.{Signed-one_front, Signed-some};

    ghost spells = { SpellsSigned };

    ghost took = { IntegerMay };

    ghost one_front = { Signed-one_front };

    ghost some = { Signed-some };

    fn read<S: Source>(_alloc: Global, source: &mut S) -> Result<Signed, Why>
        ensures { ReadsPiece SpellsSigned IntegerMay (S.script source.old) result (S.script source.new) }
    {
        Ok(Signed(read_signed(source)?))
    }
}

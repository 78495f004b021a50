//! Reals of types 0 to 5.
ghost use Rattle.std.specs.Prelude.{◌≡◌};
ghost use Rattle.oas_num.specs.Reals.{part_of};

use crate::integers::{read_unsigned, read_unsigned_if};
use crate::refusals::Why;
use crate::spelling::Spelled;
use oas_bytes::Source;
use std::alloc::Global;

/// A fraction as a file spells it (SEMI P39, Reals, types 0 to 5). Zero parts are read; the field that has the real decides
/// on them. Types 6 and 7, floats, are left out (own rule).
#[derive(Clone, Copy, Debug, PartialEq, Eq)]
pub struct Real {
    /// The sign, which is that of the type.
    pub negative: bool,
    /// The numerator, 1 where the type has none.
    pub num: u64,
    /// The denominator, 1 where the type has none.
    pub den: u64,
}

impl Spelled for Real {
    ghost use Rattle.oas_num.specs.Reading.{ReadsPiece};
    ghost use Rattle.oas_num.specs.Reals.{SpellsReal, RealMay, RealTook};
    ghost use Rattle.oas_num.specs.Laws.RealLaws.{PrefixFree-SpellsReal, HasSome-SpellsReal};

    ghost spells = { SpellsReal };

    ghost took = { RealTook };

    ghost one_front = { PrefixFree-SpellsReal };

    ghost some = { HasSome-SpellsReal };

    fn read<S: Source>(_alloc: Global, source: &mut S) -> Result<Real, Why>
        ensures { ReadsPiece SpellsReal RealTook (S.script source.old) result (S.script source.new) }
    {
        let kind = read_unsigned(source)?;
        if kind >= 8 {
            return Err(Why::RealType);
        }
        if kind >= 6 {
            return Err(Why::FloatReal);
        }
        let num = read_unsigned_if(kind / 2 != 1, source)?;
        let den = read_unsigned_if(kind / 2 != 0, source)?;
        Ok(Real {
            negative: kind % 2 == 1,
            num: part_or_one(num),
            den: part_or_one(den),
        })
    }
}

/// A missing part is 1.
fn part_or_one(part: Option<u64>) -> u64
    ensures { result ≡ part_of part }
{
    match part {
        Some(part) => part,
        None => 1,
    }
}

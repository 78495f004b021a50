//! Reals of all eight types.
ghost use Rattle.std.specs.Prelude.{◌≡◌, ◌<◌, ◌≤◌, ◌^◌};
ghost use Rattle.oas_num.specs.Reading.{ReadsPiece};
ghost use Rattle.oas_num.specs.Reals.{part_of};
ghost use Rattle.oas_standard.specs.Reals.{float_of, single, double, fraction, real_after};

use crate::little::{read_eight, read_four};
use crate::long::{read_long, read_long_if};
use oas_num::{Source, Spelled, Why};
use std::alloc::Global;

/// A real as a file spells it (SEMI P39, Reals, types 0 to 7): `num / den`, times two as often as `doubled`, halved as often
/// as `halved` says. Zero parts are read; the field that has the real decides on them.
///
/// A float (IEEE 754) is the fraction of its bits: a whole `num`, with `den` 1, doubled or halved. Infinities and NaNs are
/// refused (own rule). Types 0 to 5 are neither doubled nor halved.
#[derive(Clone, Copy, Debug, PartialEq, Eq)]
pub struct WideReal {
    /// The sign: that of the type, or of the float.
    pub negative: bool,
    /// The numerator, 1 where the type has none.
    pub num: u64,
    /// The denominator, 1 where the type has none.
    pub den: u64,
    /// How often it is doubled.
    pub doubled: u16,
    /// How often it is halved.
    pub halved: u16,
}

/// The float of these bits, with a hidden bit of that weight and that many exponents. `whole` is the exponent at which
/// significands are whole.
fn float_of(hidden: u64, exponents: u64, whole: u16, bits: u64) -> WideReal
    requires hidden { (0 < hidden) × (hidden ≤ 2 ^ 52) }
    requires exponents { (0 < exponents) × (exponents ≤ 2 ^ 11) }
    ensures { result ≡ float_of hidden exponents whole bits }
{
    let exponent = bits / hidden % exponents;
    let rest = bits % hidden;
    let (num, place) = if exponent == 0 {
        (rest, 1)
    } else {
        (hidden + rest, exponent as u16)
    };
    WideReal {
        negative: bits / hidden / exponents == 1,
        num,
        den: 1,
        doubled: place.saturating_sub(whole),
        halved: whole.saturating_sub(place),
    }
}

/// A float of single precision.
fn read_single<S: Source>(source: &mut S) -> Result<WideReal, Why>
    ensures { ReadsPiece single.any single.took (S.script source.old) result (S.script source.new) }
{
    let bits = read_four(source)?;
    let exponent = bits / 0x80_0000 % 256;
    if exponent == 255 {
        return Err(Why::FloatReal);
    }
    Ok(float_of(0x80_0000, 256, 150, u64::from(bits)))
}

/// A float of double precision.
fn read_double<S: Source>(source: &mut S) -> Result<WideReal, Why>
    ensures { ReadsPiece double.any double.took (S.script source.old) result (S.script source.new) }
{
    let bits = read_eight(source)?;
    let exponent = bits / 0x10_0000_0000_0000 % 2048;
    if exponent == 2047 {
        return Err(Why::FloatReal);
    }
    Ok(float_of(0x10_0000_0000_0000, 2048, 1075, bits))
}

/// The parts of a fraction, of a type below 6, each in any number of bytes.
pub(crate) fn read_fraction<S: Source>(kind: u64, source: &mut S) -> Result<WideReal, Why>
    ensures { ReadsPiece (fraction kind).any (fraction kind).took (S.script source.old) result (S.script source.new) }
{
    let num = read_long_if(kind / 2 != 1, source)?;
    let den = read_long_if(kind / 2 != 0, source)?;
    Ok(WideReal {
        negative: kind % 2 == 1,
        num: part_or_one(num),
        den: part_or_one(den),
        doubled: 0,
        halved: 0,
    })
}

/// A missing part is 1.
fn part_or_one(part: Option<u64>) -> u64
    ensures { result ≡ part_of part }
{
    part.unwrap_or(1)
}

/// What follows a type.
fn read_real_after<S: Source>(kind: u64, source: &mut S) -> Result<WideReal, Why>
    ensures { ReadsPiece (real_after kind).any (real_after kind).took (S.script source.old) result (S.script source.new) }
{
    if kind == 6 {
        return read_single(source);
    }
    if kind == 7 {
        return read_double(source);
    }
    read_fraction(kind, source)
}

impl Spelled for WideReal {
    ghost use Rattle.oas_standard.specs.Reals.{wide_real, SpellsWideReal, WideRealTook};

    ghost spells = { SpellsWideReal };

    ghost took = { WideRealTook };

    ghost one_front = { wide_real.found.one };

    ghost some = { wide_real.some };

    fn read<S: Source>(_alloc: Global, source: &mut S) -> Result<WideReal, Why>
        ensures { ReadsPiece SpellsWideReal WideRealTook (S.script source.old) result (S.script source.new) }
    {
        let kind = read_long(source)?;
        if kind >= 8 {
            return Err(Why::RealType);
        }
        let real = read_real_after(kind, source)?;
        Ok(real)
    }
}

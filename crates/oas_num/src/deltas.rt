//! 1-deltas, 2-deltas, 3-deltas and g-deltas.
ghost use Rattle.std.specs.Prelude.{◌≡◌, ◌<◌, ◌^◌};
ghost use Rattle.oas_num.specs.Deltas.{toward, delta2_of, delta3_of, gdelta_from};
ghost use Rattle.oas_num.specs.Integers.{signed_of};
ghost use Rattle.oas_num.specs.Reading.{ReadsPiece, IntegerMay};

use crate::integers::{read_signed, read_unsigned, read_unsigned_if};
use crate::refusals::Why;
use crate::spelling::Spelled;
use oas_bytes::Source;
use std::alloc::Global;

/// A 1-delta (SEMI P39, Deltas): how far along one axis. Its place in the list says which axis.
#[derive(Clone, Copy, Debug, PartialEq, Eq)]
pub struct Delta1(pub i64);

/// A 2-delta (SEMI P39, Deltas): along one of the two axes. East is +x, north is +y.
#[derive(Clone, Copy, Debug, PartialEq, Eq)]
pub struct Delta2 {
    pub dx: i64,
    pub dy: i64,
}

/// A 3-delta (SEMI P39, Deltas): along one axis, or equally far along both.
#[derive(Clone, Copy, Debug, PartialEq, Eq)]
pub struct Delta3 {
    pub dx: i64,
    pub dy: i64,
}

/// A g-delta (SEMI P39, Deltas): any step.
#[derive(Clone, Copy, Debug, PartialEq, Eq)]
pub struct GDelta {
    pub dx: i64,
    pub dy: i64,
}

impl Spelled for Delta1 {
    ghost use Rattle.oas_num.specs.Deltas.{SpellsDelta1};
    ghost use Rattle.oas_num.specs.Laws.DeltaLaws.{Delta1-one_front, Delta1-some};

    ghost spells = { SpellsDelta1 };

    ghost took = { IntegerMay };

    ghost one_front = { Delta1-one_front };

    ghost some = { Delta1-some };

    fn read<S: Source>(_alloc: Global, source: &mut S) -> Result<Delta1, Why>
        ensures { ReadsPiece SpellsDelta1 IntegerMay (S.script source.old) result (S.script source.new) }
    {
        Ok(Delta1(read_signed(source)?))
    }
}

impl Spelled for Delta2 {
    ghost use Rattle.oas_num.specs.Deltas.{SpellsDelta2};
    ghost use Rattle.oas_num.specs.Laws.DeltaLaws.{Delta2-one_front, Delta2-some};

    ghost spells = { SpellsDelta2 };

    ghost took = { IntegerMay };

    ghost one_front = { Delta2-one_front };

    ghost some = { Delta2-some };

    fn read<S: Source>(_alloc: Global, source: &mut S) -> Result<Delta2, Why>
        ensures { ReadsPiece SpellsDelta2 IntegerMay (S.script source.old) result (S.script source.new) }
    {
        let coded = read_unsigned(source)?;
        Ok(Delta2::from_number(coded))
    }
}

impl Spelled for Delta3 {
    ghost use Rattle.oas_num.specs.Deltas.{SpellsDelta3};
    ghost use Rattle.oas_num.specs.Laws.DeltaLaws.{Delta3-one_front, Delta3-some};

    ghost spells = { SpellsDelta3 };

    ghost took = { IntegerMay };

    ghost one_front = { Delta3-one_front };

    ghost some = { Delta3-some };

    fn read<S: Source>(_alloc: Global, source: &mut S) -> Result<Delta3, Why>
        ensures { ReadsPiece SpellsDelta3 IntegerMay (S.script source.old) result (S.script source.new) }
    {
        let coded = read_unsigned(source)?;
        Ok(Delta3::from_number(coded))
    }
}

impl Delta2 {
    /// The step of its number: the low two bits are the direction, the rest is the distance.
    pub fn from_number(coded: u64) -> Delta2
        ensures { result ≡ delta2_of coded }
    {
        let step = step_toward(coded % 4, coded / 4);
        Delta2 {
            dx: step.dx,
            dy: step.dy,
        }
    }
}

impl Delta3 {
    /// The step of its number: the low three bits are the direction, the rest is the distance.
    pub fn from_number(coded: u64) -> Delta3
        ensures { result ≡ delta3_of coded }
    {
        let step = step_toward(coded % 8, coded / 8);
        Delta3 {
            dx: step.dx,
            dy: step.dy,
        }
    }
}

impl GDelta {
    /// The step of its numbers: a direction and a distance, or, where there is a second number, both components.
    pub fn from_numbers(first: u64, second: Option<u64>) -> GDelta
        ensures { result ≡ gdelta_from first second }
    {
        match second {
            None => step_toward(first / 2 % 8, first / 16),
            Some(second) => GDelta {
                dx: component(first / 2),
                dy: component(second),
            },
        }
    }
}

impl Spelled for GDelta {
    ghost use Rattle.oas_num.specs.Deltas.{SpellsGDelta, GDeltaTook};
    ghost use Rattle.oas_num.specs.Laws.DeltaLaws.{GDelta-one_front, GDelta-some};

    ghost spells = { SpellsGDelta };

    ghost took = { GDeltaTook };

    ghost one_front = { GDelta-one_front };

    ghost some = { GDelta-some };

    fn read<S: Source>(_alloc: Global, source: &mut S) -> Result<GDelta, Why>
        ensures { ReadsPiece SpellsGDelta GDeltaTook (S.script source.old) result (S.script source.new) }
    {
        let first = read_unsigned(source)?;
        let second = read_unsigned_if(first % 2 == 1, source)?;
        Ok(GDelta::from_numbers(first, second))
    }
}

/// A distance in one of eight directions: 0 east, 1 north, 2 west, 3 south, 4 north-east, 5 north-west, 6 south-west, 7
/// south-east. A diagonal goes that far along both axes.
fn step_toward(direction: u64, far: u64) -> GDelta
    requires { far < 2 ^ 63 }
    ensures { result ≡ toward direction far }
{
    let far = far as i64;
    match direction {
        0 => GDelta { dx: far, dy: 0 },
        1 => GDelta { dx: 0, dy: far },
        2 => GDelta { dx: -far, dy: 0 },
        3 => GDelta { dx: 0, dy: -far },
        4 => GDelta { dx: far, dy: far },
        5 => GDelta { dx: -far, dy: far },
        6 => GDelta { dx: -far, dy: -far },
        _ => GDelta { dx: far, dy: -far },
    }
}

/// One component of a step: bit 0 is the sign, the other bits the magnitude.
fn component(coded: u64) -> i64
    ensures { result ≡ signed_of coded }
{
    let far = (coded / 2) as i64;
    if coded % 2 == 0 { far } else { -far }
}

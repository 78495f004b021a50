//! The start of a file, with a unit of any type.
ghost use Rattle.std.specs.Prelude.{◌↔◌, IsTrue};
ghost use Rattle.oas_num.specs.Reading.{ReadsPiece};
ghost use Rattle.oas_standard.specs.Heads.{IsPositive, SpellsUnit, UnitTook, SpellsWideStart, WideStartTook};

use crate::long::read_long;
use crate::offsets::pass_offsets_if;
use crate::reals::WideReal;
use crate::versions::read_version;
use oas_num::{Source, Spelled, Why};
use std::alloc::Global;

/// What START gives (SEMI P39, START record), where the unit may be a float.
#[derive(Clone, Copy, Debug, PartialEq, Eq)]
pub struct WideStart {
    /// Grid steps per micron, positive.
    pub unit: WideReal,
    /// Whether the table-offsets are in END, and not in START.
    pub flag_in_end: bool,
}

/// Whether a real may be a unit.
fn is_positive(real: WideReal) -> bool
    ensures { IsTrue result ↔ IsPositive real }
{
    !real.negative && real.num > 0 && real.den > 0
}

/// The unit, a positive real.
fn read_unit<S: Source>(alloc: Global, source: &mut S) -> Result<WideReal, Why>
    ensures { ReadsPiece SpellsUnit UnitTook (S.script source.old) result (S.script source.new) }
{
    let unit = WideReal::read(alloc, source)?;
    if !is_positive(unit) {
        return Err(Why::Unit);
    }
    Ok(unit)
}

impl WideStart {
    /// START: its id, the version, the unit, the offset-flag, and table-offsets where the flag is 0, with integers of any
    /// number of bytes. The magic comes before it ([`oas_record::read_magic`]).
    pub fn read<S: Source>(alloc: Global, source: &mut S) -> Result<WideStart, Why>
        ensures { ReadsPiece SpellsWideStart WideStartTook (S.script source.old) result (S.script source.new) }
    {
        let id = read_long(source)?;
        if id != 1 {
            return Err(Why::OutOfPlace(id));
        }
        read_version(source)?;
        let unit = read_unit(alloc, source)?;
        let flag = read_long(source)?;
        if flag > 1 {
            return Err(Why::OffsetFlag);
        }
        pass_offsets_if(flag == 0, source)?;
        Ok(WideStart {
            unit,
            flag_in_end: flag == 1,
        })
    }
}

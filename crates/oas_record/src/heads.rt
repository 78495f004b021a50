//! The head of a file: its first bytes and START.
ghost use Rattle.oas_num.specs.Reading.{Reads, ReadsPiece};
ghost use Rattle.oas_num.specs.Style.{Any};
ghost use Rattle.oas_record.specs.Heads.{IsMagic, MagicMay, version_in, VersionTook, unit_in, UnitTook, start_in, StartTook, ReadsHead};

use crate::ends::pass_offsets_if;
use crate::passing::pass_label;
use oas_num::{
    Fraction, Real, Refusal, Source, Spelled, TextClass, Why, next_byte, next_within, read_unsigned,
};
use std::alloc::Global;

/// The magic: `%SEMI-OASIS`, CR, LF.
const MAGIC: [u8; 13] = [
    0x25, 0x53, 0x45, 0x4D, 0x49, 0x2D, 0x4F, 0x41, 0x53, 0x49, 0x53, 0x0D, 0x0A,
];

/// The offset of START.
const START_AT: u64 = 13;

/// What the head of a file gives.
#[derive(Clone, Copy, Debug, PartialEq, Eq)]
pub struct Head {
    /// Grid steps per micron.
    pub unit: Fraction,
    /// Whether the table-offsets are in END, and not in START.
    pub flag_in_end: bool,
}

/// The magic.
pub fn read_magic<S: Source>(source: &mut S) -> Result<(), Why>
    ensures { Reads IsMagic MagicMay (S.script source.old) result (S.script source.new) }
{
    for i in 0..13usize {
        let byte = next_byte(source)?;
        if byte != MAGIC[i] {
            return Err(Why::Magic);
        }
    }
    Ok(())
}

/// The version, an a-string that has to be `1.0`. It is compared as it is read, so nothing is allocated.
pub fn read_version<S: Source>(source: &mut S) -> Result<(), Why>
    ensures { ReadsPiece (version_in Any) VersionTook (S.script source.old) result (S.script source.new) }
{
    let length = read_unsigned(source)?;
    if length != 3 {
        pass_label(length, source)?;
        return Err(Why::Version);
    }
    let one = next_within(TextClass::Label, source)?;
    let point = next_within(TextClass::Label, source)?;
    let zero = next_within(TextClass::Label, source)?;
    if one != 0x31 || point != 0x2E || zero != 0x30 {
        return Err(Why::Version);
    }
    Ok(())
}

/// The unit, a positive real, in lowest terms.
fn read_unit<S: Source>(alloc: Global, source: &mut S) -> Result<Fraction, Why>
    ensures { ReadsPiece (unit_in Any) UnitTook (S.script source.old) result (S.script source.new) }
{
    let real = Real::read(alloc, source)?;
    if real.negative {
        return Err(Why::Unit);
    }
    match Fraction::reduced(real.num, real.den) {
        Some(unit) => Ok(unit),
        None => Err(Why::Unit),
    }
}

/// START (SEMI P39, START record): its id, the version, the unit, the offset-flag, and table-offsets where the flag is 0.
fn read_start<S: Source>(alloc: Global, source: &mut S) -> Result<Head, Why>
    ensures { ReadsPiece (start_in Any) StartTook (S.script source.old) result (S.script source.new) }
{
    let id = read_unsigned(source)?;
    if id != 1 {
        return Err(Why::OutOfPlace(id));
    }
    read_version(source)?;
    let unit = read_unit(alloc, source)?;
    let flag = read_unsigned(source)?;
    if flag > 1 {
        return Err(Why::OffsetFlag);
    }
    pass_offsets_if(flag == 0, source)?;
    Ok(Head {
        unit,
        flag_in_end: flag == 1,
    })
}

/// Reads the head of a file: the magic and START. It allocates nothing; `alloc` is passed on.
///
/// It fails at 0 for the magic, and at 13 for START.
pub fn read_head<S: Source>(alloc: Global, source: &mut S) -> Result<Head, Refusal>
    ensures { ReadsHead (S.script source.old) result (S.script source.new) }
{
    if let Err(why) = read_magic(source) {
        return Err(Refusal { at: 0, why });
    }
    match read_start(alloc, source) {
        Ok(head) => Ok(head),
        Err(why) => Err(Refusal { at: START_AT, why }),
    }
}

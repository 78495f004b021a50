//! The PLACEMENT record whose magnification and angle are reals.
ghost use Rattle.oas_num.specs.Grammar.{IsThere};
ghost use Rattle.oas_num.specs.Pieces.{ThereTook};
ghost use Rattle.oas_num.specs.Reading.{ReadsPiece};
ghost use Rattle.oas_num.specs.Style.{Any};
ghost use Rattle.oas_record.specs.References.{cell_in, CellTook};
ghost use Rattle.oas_standard.specs.Placements.{SpellsPlacement, PlacementTook};

use crate::reals::WideReal;
use oas_num::{Name, Source, Spelled, Why, next_byte, read_if, read_unsigned};
use oas_record::{CellRef, Spot, read_spot};
use std::alloc::Global;

/// A placement by reals (SEMI P39, PLACEMENT records), id 18: the info byte `CNXYRMAF`, then the cell, magnification and
/// angle, x, y and repetition, each where its bit is 1. The cell is a number where N is 1; N is ignored where C is 0 (own
/// rule).
#[derive(Debug, Drop)]
pub struct WidePlacement {
    pub cell: Option<CellRef>,
    /// 1 where it isn't given.
    pub magnification: Option<WideReal>,
    /// In degrees, counterclockwise, and 0 where it isn't given.
    pub angle: Option<WideReal>,
    /// Flipped about the x axis, before the turn.
    pub flip: bool,
    pub spot: Spot,
}

/// A cell: a number or a name.
fn read_cell<S: Source>(alloc: Global, is_numbered: bool, source: &mut S) -> Result<CellRef, Why>
    ensures { ReadsPiece (cell_in Any is_numbered) (CellTook is_numbered) (S.script source.old) result (S.script source.new) }
{
    if is_numbered {
        Ok(CellRef::Number(read_unsigned(source)?))
    } else {
        Ok(CellRef::Name(Name::read(alloc, source)?))
    }
}

/// A cell, where one is given.
fn read_cell_if<S: Source>(
    alloc: Global,
    is_given: bool,
    is_numbered: bool,
    source: &mut S,
) -> Result<Option<CellRef>, Why>
    ensures { ReadsPiece (IsThere is_given (cell_in Any is_numbered)) (ThereTook is_given (CellTook is_numbered)) (S.script source.old) result (S.script source.new) }
{
    if is_given {
        Ok(Some(read_cell(alloc, is_numbered, source)?))
    } else {
        Ok(None)
    }
}

impl WidePlacement {
    /// What follows the id.
    pub fn read<S: Source>(alloc: Global, source: &mut S) -> Result<WidePlacement, Why>
        ensures { ReadsPiece SpellsPlacement PlacementTook (S.script source.old) result (S.script source.new) }
    {
        let info = next_byte(source)?;
        let cell = read_cell_if(alloc, info & 128 != 0, info & 64 != 0, source)?;
        let magnification = read_if::<WideReal, S>(alloc, info & 4 != 0, source)?;
        let angle = read_if::<WideReal, S>(alloc, info & 2 != 0, source)?;
        let spot = read_spot(alloc, info & 32 != 0, info & 16 != 0, info & 8 != 0, source)?;
        Ok(WidePlacement {
            cell,
            magnification,
            angle,
            flip: info % 2 == 1,
            spot,
        })
    }
}

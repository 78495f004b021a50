//! The PLACEMENT records.
ghost use Rattle.oas_num.specs.Reading.{ReadsPiece};
ghost use Rattle.oas_num.specs.Style.{Any};
ghost use Rattle.oas_record.specs.Placements.{quarters_in, QuarterTook, degrees_in, DegreeTook};

use crate::references::{CellRef, read_cell_if};
use crate::spots::{Spot, read_spot};
use oas_num::{Real, Source, Why, next_byte, read_if};
use std::alloc::Global;

/// How a placed cell is turned, counterclockwise.
#[derive(Clone, Copy, Debug, PartialEq, Eq)]
pub enum Turn {
    /// Quarter turns, 0 to 3 (record 17).
    Quarters(u8),
    /// A magnification, 1 where it isn't given, and an angle in degrees, 0 where it isn't given (record 18).
    Degrees {
        magnification: Option<Real>,
        angle: Option<Real>,
    },
}

/// A placement (SEMI P39, PLACEMENT records), id 17 with the info byte `CNXYRAAF`, or id 18 with `CNXYRMAF`: the cell, in
/// record 18 magnification and angle, then x, y and repetition, each where its bit is 1. The cell is a number where N is
/// 1; N is ignored where C is 0 (own rule).
#[derive(Debug, Drop)]
pub struct Placement {
    pub cell: Option<CellRef>,
    pub turn: Turn,
    /// Flipped about the x axis, before the turn.
    pub flip: bool,
    pub spot: Spot,
}

impl Placement {
    /// What follows the id 17.
    pub(crate) fn read_quarters<S: Source>(alloc: Global, source: &mut S) -> Result<Placement, Why>
        ensures { ReadsPiece (quarters_in Any) QuarterTook (S.script source.old) result (S.script source.new) }
    {
        let info = next_byte(source)?;
        let cell = read_cell_if(alloc, info & 128 != 0, info & 64 != 0, source)?;
        let spot = read_spot(alloc, info & 32 != 0, info & 16 != 0, info & 8 != 0, source)?;
        Ok(Placement {
            cell,
            turn: Turn::Quarters(info / 2 % 4),
            flip: info % 2 == 1,
            spot,
        })
    }

    /// What follows the id 18.
    pub(crate) fn read_degrees<S: Source>(alloc: Global, source: &mut S) -> Result<Placement, Why>
        ensures { ReadsPiece (degrees_in Any) DegreeTook (S.script source.old) result (S.script source.new) }
    {
        let info = next_byte(source)?;
        let cell = read_cell_if(alloc, info & 128 != 0, info & 64 != 0, source)?;
        let magnification = read_if::<Real, S>(alloc, info & 4 != 0, source)?;
        let angle = read_if::<Real, S>(alloc, info & 2 != 0, source)?;
        let spot = read_spot(alloc, info & 32 != 0, info & 16 != 0, info & 8 != 0, source)?;
        Ok(Placement {
            cell,
            turn: Turn::Degrees {
                magnification,
                angle,
            },
            flip: info % 2 == 1,
            spot,
        })
    }
}

//! The CIRCLE record.
ghost use Rattle.std.specs.Prelude.{◌↔◌, IsTrue};
ghost use Rattle.oas_num.specs.Reading.{ReadsPiece};
ghost use Rattle.oas_num.specs.Style.{Any};
ghost use Rattle.oas_record.specs.Circles.{IsCircleInfo, circle_in, CircleTook};

use crate::spots::{Spot, read_layers, read_spot};
use oas_num::{Source, Why, next_byte, read_unsigned_if};
use std::alloc::Global;

/// A circle (SEMI P39, CIRCLE record), id 27: the info byte `00rXYRDL`, then layer, datatype, radius, x, y and repetition,
/// each where its bit is 1. x and y are those of the centre.
#[derive(Debug, Drop)]
pub struct Circle {
    pub layer: Option<u64>,
    pub datatype: Option<u64>,
    /// In grid steps.
    pub radius: Option<u64>,
    pub spot: Spot,
}

/// Whether a circle has that info byte: bits 7 and 6 are 0.
fn is_circle_info(info: u8) -> bool
    ensures { IsTrue result ↔ IsCircleInfo info }
{
    info < 64
}

impl Circle {
    /// What follows the id.
    pub(crate) fn read<S: Source>(alloc: Global, source: &mut S) -> Result<Circle, Why>
        ensures { ReadsPiece (circle_in Any) CircleTook (S.script source.old) result (S.script source.new) }
    {
        let info = next_byte(source)?;
        if !is_circle_info(info) {
            return Err(Why::InfoByte);
        }
        let layers = read_layers(info, source)?;
        let radius = read_unsigned_if(info & 32 != 0, source)?;
        let spot = read_spot(alloc, info & 16 != 0, info & 8 != 0, info & 4 != 0, source)?;
        Ok(Circle {
            layer: layers.0,
            datatype: layers.1,
            radius,
            spot,
        })
    }
}

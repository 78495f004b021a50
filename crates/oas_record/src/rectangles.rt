//! The RECTANGLE record.
ghost use Rattle.std.specs.Prelude.{◌↔◌, IsTrue};
ghost use Rattle.oas_num.specs.Reading.{ReadsPiece};
ghost use Rattle.oas_num.specs.Style.{Any};
ghost use Rattle.oas_record.specs.Rectangles.{IsRectangleInfo, rectangle_in, RectangleTook};

use crate::spots::{Spot, read_layers, read_spot};
use oas_num::{Source, Why, next_byte, read_unsigned_if};
use std::alloc::Global;

/// A rectangle (SEMI P39, RECTANGLE record), id 20: the info byte `SWHXYRDL`, then layer, datatype, width, height, x, y and
/// repetition, each where its bit is 1. x and y are those of the lower left corner.
#[derive(Debug, Drop)]
pub struct Rectangle {
    /// The height is the width, and isn't given.
    pub square: bool,
    pub layer: Option<u64>,
    pub datatype: Option<u64>,
    /// In grid steps.
    pub width: Option<u64>,
    /// In grid steps.
    pub height: Option<u64>,
    pub spot: Spot,
}

/// Whether a rectangle has that info byte: a square gives no height.
fn is_rectangle_info(info: u8) -> bool
    ensures { IsTrue result ↔ IsRectangleInfo info }
{
    info & 160 != 160
}

impl Rectangle {
    /// What follows the id.
    pub(crate) fn read<S: Source>(alloc: Global, source: &mut S) -> Result<Rectangle, Why>
        ensures { ReadsPiece (rectangle_in Any) RectangleTook (S.script source.old) result (S.script source.new) }
    {
        let info = next_byte(source)?;
        if !is_rectangle_info(info) {
            return Err(Why::InfoByte);
        }
        let layers = read_layers(info, source)?;
        let width = read_unsigned_if(info & 64 != 0, source)?;
        let height = read_unsigned_if(info & 32 != 0, source)?;
        let spot = read_spot(alloc, info & 16 != 0, info & 8 != 0, info & 4 != 0, source)?;
        Ok(Rectangle {
            square: info & 128 != 0,
            layer: layers.0,
            datatype: layers.1,
            width,
            height,
            spot,
        })
    }
}

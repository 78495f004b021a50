//! The XGEOMETRY record.
ghost use Rattle.oas_num.specs.Reading.{ReadsPiece};
ghost use Rattle.oas_standard.specs.Extensions.{SpellsGeometry, GeometryTook};

use crate::long::read_long;
use oas_num::{Padding, Source, Spelled, Why, next_byte};
use oas_record::{Spot, read_layers, read_spot};
use std::alloc::Global;

/// Geometry of an extension (SEMI P39, XGEOMETRY record), id 33: the info byte `000XYRDL`, the attribute, layer and datatype,
/// each where its bit is 1, the string, and x, y and repetition, each where its bit is 1. The string is skipped (own rule).
#[derive(Debug, Drop)]
pub struct ExtensionGeometry {
    pub attribute: u64,
    pub layer: Option<u64>,
    pub datatype: Option<u64>,
    pub string: Padding,
    pub spot: Spot,
}

impl ExtensionGeometry {
    /// What follows the id.
    pub fn read<S: Source>(alloc: Global, source: &mut S) -> Result<ExtensionGeometry, Why>
        ensures { ReadsPiece SpellsGeometry GeometryTook (S.script source.old) result (S.script source.new) }
    {
        let info = next_byte(source)?;
        if info >= 32 {
            return Err(Why::InfoByte);
        }
        let attribute = read_long(source)?;
        let layers = read_layers(info, source)?;
        let string = Padding::read(alloc, source)?;
        let spot = read_spot(alloc, info & 16 != 0, info & 8 != 0, info & 4 != 0, source)?;
        Ok(ExtensionGeometry {
            attribute,
            layer: layers.0,
            datatype: layers.1,
            string,
            spot,
        })
    }
}

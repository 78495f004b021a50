//! The POLYGON record.
ghost use Rattle.std.specs.Prelude.{◌↔◌, IsTrue};
ghost use Rattle.oas_num.specs.Grammar.{IsThere};
ghost use Rattle.oas_num.specs.Reading.{ReadsPiece};
ghost use Rattle.oas_num.specs.Style.{Any};
ghost use Rattle.oas_record.specs.Fields.{PointsTook};
ghost use Rattle.oas_record.specs.Polygons.{IsPolygonInfo, polygon_in, PolygonTook};
ghost use Rattle.oas_shape.specs.PointLists.{point_list_in};

use crate::spots::{Spot, read_layers, read_spot};
use oas_num::{Source, Why, next_byte};
use oas_shape::{ListUse, PointList};
use std::alloc::Global;

/// A polygon (SEMI P39, POLYGON record), id 21: the info byte `00PXYRDL`, then layer, datatype, point list, x, y and
/// repetition, each where its bit is 1. x and y are those of the first vertex.
#[derive(Debug, Drop)]
pub struct Polygon {
    pub layer: Option<u64>,
    pub datatype: Option<u64>,
    pub points: Option<PointList>,
    pub spot: Spot,
}

/// A point list, where there is one.
pub(crate) fn read_points_if<S: Source>(
    alloc: Global,
    there: bool,
    list_use: ListUse,
    source: &mut S,
) -> Result<Option<PointList>, Why>
    ensures { ReadsPiece (IsThere there (point_list_in Any list_use)) (PointsTook there list_use) (S.script source.old) result (S.script source.new) }
{
    if there {
        Ok(Some(PointList::read(alloc, source, list_use)?))
    } else {
        Ok(None)
    }
}

/// Whether a polygon has that info byte: bits 7 and 6 are 0.
fn is_polygon_info(info: u8) -> bool
    ensures { IsTrue result ↔ IsPolygonInfo info }
{
    info < 64
}

impl Polygon {
    /// What follows the id.
    pub(crate) fn read<S: Source>(alloc: Global, source: &mut S) -> Result<Polygon, Why>
        ensures { ReadsPiece (polygon_in Any) PolygonTook (S.script source.old) result (S.script source.new) }
    {
        let info = next_byte(source)?;
        if !is_polygon_info(info) {
            return Err(Why::InfoByte);
        }
        let layers = read_layers(info, source)?;
        let points = read_points_if(alloc, info & 32 != 0, ListUse::Polygon, source)?;
        let spot = read_spot(alloc, info & 16 != 0, info & 8 != 0, info & 4 != 0, source)?;
        Ok(Polygon {
            layer: layers.0,
            datatype: layers.1,
            points,
            spot,
        })
    }
}

//! A polygon at the start of bytes.
ghost use Rattle.std.specs.Prelude.{IfSome};
ghost use Rattle.oas_peek.specs.Polygons.{IsPeekedPolygon, ConsumesPolygon};

use crate::fronts::Front;
use crate::lists::take_list_if;
use crate::rectangles::take_layers;
use oas_record::{Polygon, Spot};
use oas_shape::ListUse;
use std::alloc::Global;

/// The id of a polygon record (SEMI P39, POLYGON record).
pub(crate) const POLYGON: u8 = 21;

/// The info byte of a polygon that gives all its fields, and no repetition.
const ALL_FIELDS: u8 = 0x3B;

/// A polygon without a repetition, at the start of some bytes.
#[derive(Debug, Drop)]
pub struct PeekedPolygon {
    pub polygon: Polygon,
    /// How many bytes spell its record, the id included.
    pub length: usize,
    /// Whether they spell it in the shortest style: all fields are given, the point list has type 4, each step is given by both
    /// components, each number in as few bytes as it needs.
    pub shortest: bool,
}

/// A polygon, after its id.
#[inline(always)]
fn take_polygon(alloc: Global, front: &mut Front<'_>) -> Option<Polygon>
    ensures { IfSome result (λ polygon. ConsumesPolygon polygon front.old front.new) }
{
    let info = front.byte()?;
    if info >= 64 || info & 4 != 0 {
        return None;
    }
    let (layer, datatype) = take_layers(front, info)?;
    let points = take_list_if(alloc, front, ListUse::Polygon, info & 32 != 0)?;
    let x = front.signed_if(info & 16 != 0)?;
    let y = front.signed_if(info & 8 != 0)?;
    front.note(info == ALL_FIELDS);
    Some(Polygon {
        layer,
        datatype,
        points,
        spot: Spot {
            x,
            y,
            repetition: None,
        },
    })
}

/// The polygon that the bytes begin with, where it has no repetition and each of its numbers has at most nine bytes. None also
/// where the bytes end before it does, or begin with anything else, or if out of memory.
#[inline(always)]
pub fn peek_polygon(alloc: Global, bytes: &[u8]) -> Option<PeekedPolygon>
    ensures { IfSome result (λ ahead. IsPeekedPolygon bytes.now ahead) }
{
    let mut front = Front::of(bytes);
    if front.byte()? != POLYGON {
        return None;
    }
    let polygon = take_polygon(alloc, &mut front)?;
    Some(PeekedPolygon {
        polygon,
        length: bytes.len() - front.left().len(),
        shortest: front.is_shortest(),
    })
}

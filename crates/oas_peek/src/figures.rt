//! A figure at the start of bytes: a polygon or a path.
ghost use Rattle.std.specs.Prelude.{IfSome};
ghost use Rattle.oas_peek.specs.Figures.{IsPeekedFigure};

use crate::paths::{PeekedPath, peek_path};
use crate::polygons::{PeekedPolygon, peek_polygon};
use oas_record::Record;
use std::alloc::Global;

/// A polygon or a path without a repetition, at the start of some bytes.
#[derive(Debug, Drop)]
pub struct PeekedFigure {
    pub record: Record,
    /// How many bytes spell its record, the id included.
    pub length: usize,
    /// Whether they spell it in the shortest style.
    pub shortest: bool,
}

/// The polygon or the path that the bytes begin with, where [`peek_polygon`] or [`peek_path`] returns it.
pub fn peek_figure(alloc: Global, bytes: &[u8]) -> Option<PeekedFigure>
    ensures { IfSome result (λ ahead. IsPeekedFigure bytes.now ahead) }
{
    if let Some(
        PeekedPolygon {
            polygon,
            length,
            shortest,
        },
    ) = peek_polygon(alloc, bytes)
    {
        return Some(PeekedFigure {
            record: Record::Polygon(polygon),
            length,
            shortest,
        });
    }
    let PeekedPath {
        path,
        length,
        shortest,
    } = peek_path(alloc, bytes)?;
    Some(PeekedFigure {
        record: Record::Path(path),
        length,
        shortest,
    })
}

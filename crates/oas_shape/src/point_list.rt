//! Point lists as they are read.
ghost use Rattle.std.specs.Prelude.{◌≡◌, ◌≤◌, ◌+◌, ◌^◌, IfOk, length};
ghost use Rattle.oas_num.specs.Reading.{ReadsPiece};
ghost use Rattle.oas_num.specs.Style.{Any};
ghost use Rattle.oas_ring.specs.declared.point.Point.{Point};
ghost use Rattle.oas_shape.specs.PointLists.{point_list_in, PointListTook, closing_of, polyline_of, plain_line};
ghost use Rattle.oas_shape.specs.Polylines.{vertices_of, left_out_count};

use crate::list_use::ListUse;
use crate::steps::read_deltas;
use oas_num::{GDelta, Source, Why, read_unsigned};
use std::alloc::{AllocError, Global};
use std::marker::Model;

/// The last of the six types of point list.
const LAST_KIND: u64 = 5;

/// Which vertex a list leaves out, after those that it gives.
#[derive(Clone, Copy, Debug, PartialEq, Eq)]
pub enum Closing {
    /// None.
    Listed,
    /// One with the x of the first vertex and the y of the last given one.
    FirstX,
    /// One with the y of the first vertex and the x of the last given one.
    FirstY,
}

impl Closing {
    /// Polygons of types 0 and 1 leave their last vertex out.
    fn of(list_use: ListUse, kind: u64) -> Closing
        ensures { result ≡ closing_of list_use kind }
    {
        match (list_use, kind) {
            (ListUse::Polygon, 0) => Closing::FirstX,
            (ListUse::Polygon, 1) => Closing::FirstY,
            _ => Closing::Listed,
        }
    }

    /// How many vertices the list leaves out.
    fn left_out(self) -> usize
        ensures { result ≡ left_out_count self }
    {
        match self {
            Closing::Listed => 0,
            Closing::FirstX => 1,
            Closing::FirstY => 1,
        }
    }
}

/// A point list (SEMI P39, Point lists). Its vertices follow from the position where it is placed.
#[derive(Debug, Drop)]
pub struct PointList {
    pub(crate) deltas: Vec<GDelta>,
    /// Whether each delta changes the displacement before it (type 5).
    pub(crate) running: bool,
    pub(crate) closing: Closing,
}

impl Model for PointList {
    ghost use Rattle.oas_shape.specs.Polylines.{Polyline};

    ghost Value = { Polyline };

    ghost view = { λ list. record { deltas = list.deltas.items; running = list.running; closing = list.closing } };
}

impl PointList {
    /// The list of type 4 with these steps.
    pub fn plain(deltas: Vec<GDelta>) -> PointList
        ensures { result ≡ plain_line deltas.items }
    {
        PointList {
            deltas,
            running: false,
            closing: Closing::Listed,
        }
    }

    /// The list of this type with these deltas, as steps; in type 5 each changes the displacement before it.
    pub fn of_kind(list_use: ListUse, kind: u64, deltas: Vec<GDelta>) -> PointList
        ensures { result ≡ polyline_of list_use (kind, (length deltas.items, deltas.items)) }
    {
        PointList {
            deltas,
            running: kind == 5,
            closing: Closing::of(list_use, kind),
        }
    }

    /// Reads a type, a count and that many deltas.
    ///
    /// It fails with `ListKind` for a type above 5; with `PointCount` where a polygon has too few deltas or, in types 0 and
    /// 1, an odd number; with what the read of a number fails with; and with `Memory`. The count reserves no memory.
    pub fn read<S: Source>(
        alloc: Global,
        source: &mut S,
        list_use: ListUse,
    ) -> Result<PointList, Why>
        ensures { ReadsPiece (point_list_in Any list_use) (PointListTook list_use) (S.script source.old) result (S.script source.new) }
    {
        let kind = read_unsigned(source)?;
        if kind > LAST_KIND {
            return Err(Why::ListKind);
        }
        let count = read_unsigned(source)?;
        if !list_use.fits(kind, count) {
            return Err(Why::PointCount);
        }
        let deltas = read_deltas(alloc, kind, count, source)?;
        Ok(PointList::of_kind(list_use, kind, deltas))
    }

    /// How many vertices it has.
    pub fn len(&self) -> usize
        ensures number { (at : Point) → length (vertices_of self.now at) ≡ result }
        ensures near { result ≤ 2 ^ 63 + 1 }
    {
        let deltas = self.deltas.as_slice();
        deltas.len() + 1 + self.closing.left_out()
    }

    /// An equal list in memory of its own.
    pub fn try_clone(&self, alloc: Global) -> Result<PointList, AllocError>
        ensures { IfOk result (λ copy. copy ≡ self.now) }
    {
        Ok(PointList {
            deltas: self.deltas.as_slice().to_vec(alloc)?,
            running: self.running,
            closing: self.closing,
        })
    }
}

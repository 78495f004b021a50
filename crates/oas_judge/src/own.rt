//! The element that a record gives by its own fields, with no modal variable.

ghost use Rattle.std.specs.Prelude.{◌≡◌, true, Some, IfSome, IfOk};
ghost use Rattle.std.specs.List.{list_all};
ghost use Rattle.oas_shape.specs.Polylines.{vertices_of};
ghost use Rattle.oas_elements.specs.Grid.{is_grid_point, points_fit};
ghost use Rattle.oas_record.specs.declared.records.Record.{Record as OneRecord};
ghost use Rattle.oas_writing.specs.Drawn.TheVariants.{Named};
ghost use Rattle.oas_writing.specs.Records.{element_record};
ghost use Rattle.oas_judge.specs.Own.{AreVertices, ArePair, is_memory, IsOwn, own_drawn, point_given, turn_given, number_given, start_given, end_given};

use oas_elements::{Element, Turns};
use oas_num::Why;
use oas_record::{
    CellRef, Circle, Extension, Extensions, Path, Placement, Polygon, Record, Rectangle, Spot,
    Text, TextRef, Turn,
};
use oas_ring::{Point, Points};
use oas_shape::PointList;
use std::alloc::{AllocError, Global};

/// The largest coordinate, and the smallest with its sign reversed (own rule).
pub(crate) const FURTHEST: i64 = 1 << 60;

/// The place of an element without a repetition, where both coordinates are given.
#[inline(always)]
fn point_given(spot: &Spot) -> Option<Point>
    ensures { result ≡ point_given spot.now }
{
    match (spot.x, spot.y, &spot.repetition) {
        (Some(x), Some(y), None) => Some(Point { x, y }),
        _ => None,
    }
}

/// Quarter turns.
fn turn_given(turn: Turn) -> Option<Turns>
    ensures { result ≡ turn_given turn }
{
    match turn {
        Turn::Degrees { .. } => None,
        Turn::Quarters(quarters) => match quarters % 4 {
            0 => Some(Turns::T0),
            1 => Some(Turns::T1),
            2 => Some(Turns::T2),
            _ => Some(Turns::T3),
        },
    }
}

/// An extension that is given as a number.
fn number_given(extension: Extension) -> Option<i64>
    ensures { result ≡ number_given extension }
{
    match extension {
        Extension::Explicit(number) => Some(number),
        _ => None,
    }
}

/// A placement by the name of its cell.
fn own_placement(alloc: Global, placed: &Placement) -> Result<Option<Element>, AllocError>
    ensures { IfOk result (λ own. IsOwn own (own_drawn (OneRecord.Placement placed.now))) }
{
    let Some(Point { x, y }) = point_given(&placed.spot) else {
        return Ok(None);
    };
    let Some(turns) = turn_given(placed.turn) else {
        return Ok(None);
    };
    let Some(CellRef::Name(name)) = &placed.cell else {
        return Ok(None);
    };
    let cell = name.try_clone(alloc)?;
    Ok(Some(Element::Placement {
        cell,
        x,
        y,
        turns,
        flip: placed.flip,
    }))
}

/// A text by its string.
fn own_text(alloc: Global, written: &Text) -> Result<Option<Element>, AllocError>
    ensures { IfOk result (λ own. IsOwn own (own_drawn (OneRecord.Text written.now))) }
{
    let Some(Point { x, y }) = point_given(&written.spot) else {
        return Ok(None);
    };
    let (Some(textlayer), Some(texttype)) = (written.textlayer, written.texttype) else {
        return Ok(None);
    };
    let Some(TextRef::Label(label)) = &written.string else {
        return Ok(None);
    };
    let string = label.try_clone(alloc)?;
    Ok(Some(Element::Text {
        string,
        textlayer,
        texttype,
        x,
        y,
    }))
}

/// A rectangle that gives both sides.
#[inline(always)]
pub(crate) fn own_rectangle(drawn: &Rectangle) -> Option<Element>
    ensures own { IsOwn result (own_drawn (OneRecord.Rectangle drawn.now)) }
    ensures spelled { IfSome result (λ e. element_record e ≡ OneRecord.Rectangle drawn.now) }
{
    if drawn.square {
        return None;
    }
    let Some(Point { x, y }) = point_given(&drawn.spot) else {
        return None;
    };
    let (Some(layer), Some(datatype)) = (drawn.layer, drawn.datatype) else {
        return None;
    };
    let (Some(width), Some(height)) = (drawn.width, drawn.height) else {
        return None;
    };
    Some(Element::Rectangle {
        layer,
        datatype,
        width,
        height,
        x,
        y,
    })
}

/// A circle.
fn own_circle(drawn: &Circle) -> Option<Element>
    ensures { IsOwn result (own_drawn (OneRecord.Circle drawn.now)) }
{
    let Some(Point { x, y }) = point_given(&drawn.spot) else {
        return None;
    };
    let (Some(layer), Some(datatype), Some(radius)) = (drawn.layer, drawn.datatype, drawn.radius)
    else {
        return None;
    };
    Some(Element::Circle {
        layer,
        datatype,
        radius,
        x,
        y,
    })
}

/// Whether a point is within the grid.
fn is_on_grid(point: Point) -> bool
    ensures { result ≡ is_grid_point point }
{
    -FURTHEST <= point.x && point.x <= FURTHEST && -FURTHEST <= point.y && point.y <= FURTHEST
}

/// Whether the reason is out of memory.
fn is_memory(why: Why) -> bool
    ensures { result ≡ is_memory why }
{
    matches!(why, Why::Memory)
}

/// The vertices of a point list that begins there; None where one of them is outside the grid.
#[tactic(auto, using(crate::proofs::OwnLemmas::off_grid, crate::proofs::OwnLemmas::on_grid))]
#[inline]
fn vertices(alloc: Global, points: &PointList, at: Point) -> Result<Option<Points>, AllocError>
    ensures own { IfOk result (λ own. AreVertices own (vertices_of points.now at)) }
    ensures inside { IfOk result (λ own. IfSome own (λ points. list_all is_grid_point points ≡ true)) }
{
    if !is_on_grid(at) {
        return Ok(None);
    }
    match points.vertices(alloc, at) {
        Ok(points) => Ok(Some(Points::new(points))),
        Err(why) => if is_memory(why) {
            Err(AllocError)
        } else {
            Ok(None)
        },
    }
}

/// A polygon.
#[inline]
fn own_polygon(alloc: Global, drawn: &Polygon) -> Result<Option<Element>, AllocError>
    ensures own { IfOk result (λ own. IsOwn own (own_drawn (OneRecord.Polygon drawn.now))) }
    ensures inside { IfOk result (λ own. IfSome own (λ e. points_fit e ≡ true)) }
{
    let Some(at) = point_given(&drawn.spot) else {
        return Ok(None);
    };
    let (Some(layer), Some(datatype), Some(list)) = (drawn.layer, drawn.datatype, &drawn.points)
    else {
        return Ok(None);
    };
    let Some(points) = vertices(alloc, list, at)? else {
        return Ok(None);
    };
    Ok(Some(Element::Polygon {
        layer,
        datatype,
        points,
    }))
}

/// Both extensions of a path, where both are given as numbers.
fn extensions_given(extensions: Option<Extensions>) -> Option<(i64, i64)>
    ensures { ArePair result (start_given extensions) (end_given extensions) }
{
    let both = extensions?;
    let start = number_given(both.start)?;
    let end = number_given(both.end)?;
    Some((start, end))
}

/// A path that gives both extensions as numbers.
fn own_path(alloc: Global, drawn: &Path) -> Result<Option<Element>, AllocError>
    ensures own { IfOk result (λ own. IsOwn own (own_drawn (OneRecord.Path drawn.now))) }
    ensures inside { IfOk result (λ own. IfSome own (λ e. points_fit e ≡ true)) }
{
    let Some(at) = point_given(&drawn.spot) else {
        return Ok(None);
    };
    let Some((start, end)) = extensions_given(drawn.extensions) else {
        return Ok(None);
    };
    let (Some(layer), Some(datatype), Some(half_width)) = (
        drawn.layer,
        drawn.datatype,
        drawn.half_width,
    ) else {
        return Ok(None);
    };
    let Some(list) = &drawn.points else {
        return Ok(None);
    };
    let Some(points) = vertices(alloc, list, at)? else {
        return Ok(None);
    };
    Ok(Some(Element::Path {
        layer,
        datatype,
        half_width,
        start,
        end,
        points,
    }))
}

/// The element that a record gives by its own fields; None where there is none within the grid.
pub(crate) fn own_element(alloc: Global, next: &Record) -> Result<Option<Element>, AllocError>
    ensures { IfOk result (λ own. IsOwn own (own_drawn next.now)) }
{
    match next {
        Record::Placement(placed) => own_placement(alloc, placed),
        Record::Text(written) => own_text(alloc, written),
        Record::Rectangle(drawn) => Ok(own_rectangle(drawn)),
        Record::Polygon(drawn) => own_polygon(alloc, drawn),
        Record::Path(drawn) => own_path(alloc, drawn),
        Record::Circle(drawn) => Ok(own_circle(drawn)),
        _ => Ok(None),
    }
}

/// The same of a polygon or a path, and its points are within the grid; None for any other record.
#[inline(always)]
pub(crate) fn own_figure(alloc: Global, next: &Record) -> Result<Option<Element>, AllocError>
    ensures own { IfOk result (λ own. IfSome own (λ e. own_drawn next.now ≡ Some (Named e))) }
    ensures inside { IfOk result (λ own. IfSome own (λ e. points_fit e ≡ true)) }
{
    match next {
        Record::Polygon(drawn) => own_polygon(alloc, drawn),
        Record::Path(drawn) => own_path(alloc, drawn),
        _ => Ok(None),
    }
}

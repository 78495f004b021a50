//! Paths, whose point list and extensions are modal variables.

ghost use Rattle.std.specs.Prelude.{◌≡◌};
ghost use Rattle.oas_record.specs.declared.records.Record.{Record as OneRecord};
ghost use Rattle.oas_drawing.specs.Positions.{IsNear};
ghost use Rattle.oas_drawing.specs.Modal.{stepped};

use super::{at, discard, draws, refusal};
use oas_drawing::{Drawn, Kind, ModalVariables};
use oas_elements::{Element, Extensions as Ends, Layer};
use oas_num::{SliceSource, Why};
use oas_record::{Extension, Extensions, Path, Spot};
use oas_ring::{Point, Points};
use oas_shape::{ListUse, PointList};
use std::alloc::{AllocError, Global};
use std::process::Abort;

/// A path of layer 1 with no other fields than these and its half-width.
fn path(
    points: Option<PointList>,
    half_width: u64,
    extensions: Option<Extensions>,
    spot: Spot,
) -> Path
    ensures { result.spot ≡ spot }
{
    Path {
        layer: Some(1),
        datatype: Some(0),
        half_width: Some(half_width),
        extensions,
        points,
        spot,
    }
}

/// Draws the path, which is dropped in a step of its own.
fn draw_path(modal: &mut ModalVariables, mut drawn: Path)
    requires { IsNear modal.old.geometry }
    ensures { modal.new ≡ stepped modal.old (OneRecord.Path drawn) }
{
    modal.draw_path(&mut drawn);
}

/// The list of a path that goes 10 to the east.
fn eastward(alloc: Global) -> Result<PointList, Why> {
    let mut source = SliceSource::new(b"\x04\x01\x29\x00", 10);
    PointList::read(alloc, &mut source, ListUse::Path)
}

/// The path that goes 10 to the east from there.
fn line(
    alloc: Global,
    half_width: u64,
    start: i64,
    end: i64,
    from: Point,
) -> Result<Element, AllocError> {
    let mut points = Vec::new(alloc);
    points.push(from)?;
    points.push(Point {
        x: from.x.saturating_add(10),
        y: from.y,
    })?;
    let points = Points::new(points);
    Ok(Element::path(
        Layer {
            layer: 1,
            datatype: 0,
        },
        half_width,
        Ends { start, end },
        points,
    ))
}

/// Whether the path that was drawn last is this one.
fn gives_line(
    alloc: Global,
    modal: &ModalVariables,
    half_width: u64,
    start: i64,
    end: i64,
    from: Point,
) -> bool {
    match line(alloc, half_width, start, end, from) {
        Ok(wanted) => draws(alloc, modal, Kind::Path, false, &Drawn::Named(wanted)),
        Err(AllocError) => false,
    }
}

/// By half the width before the beginning, and by 3 less than the end.
const BOTH: Extensions = Extensions {
    start: Extension::Half,
    end: Extension::Explicit(-3),
};

/// Whether a path has the extensions of the path before it, by the half-width of that.
fn keeps_extensions(alloc: Global) -> Result<bool, Why> {
    let points = eastward(alloc)?;
    let mut modal = ModalVariables::new();
    draw_path(
        &mut modal,
        path(Some(points), 5, Some(BOTH), at(Some(0), Some(0))),
    );
    draw_path(&mut modal, path(None, 9, None, at(None, Some(20))));
    let is_kept = gives_line(alloc, &modal, 9, 5, -3, Point { x: 0, y: 20 });
    discard(modal);
    Ok(is_kept)
}

#[test]
fn extensions(rt: HostRuntime) {
    assert!(rt; keeps_extensions(rt.alloc()) == Ok(true));
}

/// Why a path is refused in the cell after that of a path.
fn behind_their_cell(alloc: Global) -> Result<Option<Why>, Why> {
    let points = eastward(alloc)?;
    let mut modal = ModalVariables::new();
    draw_path(
        &mut modal,
        path(Some(points), 5, Some(BOTH), at(None, None)),
    );
    modal.begin_cell();
    let refused = refusal(alloc, &modal, Kind::Path, false);
    discard(modal);
    Ok(refused)
}

#[test]
fn paths_end_with_their_cell(rt: HostRuntime) {
    assert!(rt; behind_their_cell(rt.alloc()) == Ok(Some(Why::ModalUndefined)));
}

/// Whether a path has flush ends.
fn is_flush(alloc: Global) -> Result<bool, Why> {
    let flush = Extensions {
        start: Extension::Flush,
        end: Extension::Flush,
    };
    let points = eastward(alloc)?;
    let mut modal = ModalVariables::new();
    draw_path(
        &mut modal,
        path(Some(points), 9, Some(flush), at(None, None)),
    );
    let is_flush = gives_line(alloc, &modal, 9, 0, 0, Point { x: 0, y: 0 });
    discard(modal);
    Ok(is_flush)
}

#[test]
fn flush_extensions(rt: HostRuntime) {
    assert!(rt; is_flush(rt.alloc()) == Ok(true));
}

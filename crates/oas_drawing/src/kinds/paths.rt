//! Paths: what one sets, weighs and draws.
ghost use Rattle.std.specs.Prelude.{◌≡◌, ◌≤◌, ◌^◌, ◌⊎◌, true, Some, IfOk, IfErr, IfSome};
ghost use Rattle.std.specs.Option.{option_map};
ghost use Rattle.oas_num.specs.declared.refusals.Why.TheVariants.{Memory};
ghost use Rattle.oas_num.specs.Deltas.{step};
ghost use Rattle.oas_ring.specs.declared.point.Point.{Point as OnePoint};
ghost use Rattle.oas_record.specs.declared.records.Record.{Record as OneRecord};
ghost use Rattle.oas_drawing.specs.Positions.{IsNear};
ghost use Rattle.oas_drawing.specs.Values.{extension_number, start_number, end_number};
ghost use Rattle.oas_drawing.specs.Modal.{stepped};
ghost use Rattle.oas_drawing.specs.Drawn.{weight_so_far, drawn_points_fit};
ghost use Rattle.oas_drawing.specs.Drawing.{path_at, point_from};
ghost use Rattle.oas_drawing.specs.Reasons.{fault_of, MayRunOut};
ghost use Rattle.oas_drawing.specs.Tallies.{IsTallied};

use crate::drawn::Drawn;
use crate::modal::drawing::{coordinate, points_by, points_fit, points_weight};
use crate::modal::{ModalVariables, set, take_given};
use crate::tally::{Tally, UsedNumber};
use oas_elements::Element;
use oas_num::Why;
use oas_record::{Extension, Extensions, Path};
use std::alloc::Global;

/// The largest half-width (own rule).
const WIDEST: u64 = 1152921504606846976;

/// An extension as a number, by the half-width of its path. The modal one sets nothing.
fn extension_number(half_width: Option<u64>, extension: Extension) -> Option<i128>
    ensures { result ≡ extension_number half_width extension }
{
    match extension {
        Extension::Modal => None,
        Extension::Flush => Some(0),
        Extension::Half => half_width.map(i128::from),
        Extension::Explicit(z) => Some(i128::from(z)),
    }
}

/// Both extensions as numbers, where they are given.
fn extension_numbers(
    half_width: Option<u64>,
    extensions: Option<Extensions>,
) -> (Option<i128>, Option<i128>)
    ensures { result ≡ (start_number half_width extensions, end_number half_width extensions) }
{
    match extensions {
        None => (None, None),
        Some(both) => (
            extension_number(half_width, both.start),
            extension_number(half_width, both.end),
        ),
    }
}

impl ModalVariables {
    /// What a path sets. Its extensions are those of its half-width, which may be the modal one. Its points, where it gives
    /// any, and a repetition are moved out of it.
    pub fn draw_path(&mut self, drawn: &mut Path)
        requires { IsNear self.old.geometry }
        ensures { self.new ≡ stepped self.old (OneRecord.Path drawn.old) }
    {
        self.draw(drawn.layer, drawn.datatype, &mut drawn.spot);
        set(&mut self.half_width, drawn.half_width);
        let (start, end) = extension_numbers(self.half_width, drawn.extensions);
        set(&mut self.start, start);
        set(&mut self.end, end);
        take_given(&mut self.path_points, &mut drawn.points);
    }

    /// The weight of a path.
    pub(crate) fn path_weight(&self) -> Option<u128>
        ensures weight { (at : OnePoint) → option_map weight_so_far (path_at self.now.layer self.now.datatype self.now.half_width self.now.start self.now.end self.now.path_points at) ≡ result }
        ensures near { IfSome result (λ weight. weight ≤ 2 ^ 64) }
    {
        let (Some(_), Some(_), Some(_)) = (self.layer, self.datatype, self.half_width) else {
            return None;
        };
        match (self.start, self.end, &self.path_points) {
            (Some(_), Some(_), Some(points)) => Some(points_weight(points)),
            _ => None,
        }
    }

    /// A path, moved by an offset.
    pub(crate) fn path_by(&self, alloc: Global, by: (i128, i128)) -> Result<Drawn, Why>
        ensures ok { IfOk result (λ d. path_at self.now.layer self.now.datatype self.now.half_width self.now.start self.now.end self.now.path_points (point_from self.now.geometry (step by.0 by.1)) ≡ Some d) }
        ensures err { IfErr result (λ why. ((why ≡ Memory) × MayRunOut (path_at self.now.layer self.now.datatype self.now.half_width self.now.start self.now.end self.now.path_points (point_from self.now.geometry (step by.0 by.1)))) ⊎ (fault_of (path_at self.now.layer self.now.datatype self.now.half_width self.now.start self.now.end self.now.path_points (point_from self.now.geometry (step by.0 by.1))) ≡ Some why)) }
        ensures points { IfOk result (λ d. drawn_points_fit d ≡ true) }
    {
        let (Some(layer), Some(datatype), Some(half_width)) = (
            self.layer,
            self.datatype,
            self.half_width,
        ) else {
            return Err(Why::ModalUndefined);
        };
        let (Some(start), Some(end), Some(points)) = (self.start, self.end, &self.path_points)
        else {
            return Err(Why::ModalUndefined);
        };
        let (Some(start), Some(end)) = (coordinate(start), coordinate(end)) else {
            return Err(Why::CoordinateRange);
        };
        let points = points_by(alloc, points, self.geometry, by)?;
        Ok(Drawn::Named(Element::Path {
            layer,
            datatype,
            half_width,
            start,
            end,
            points,
        }))
    }

    /// What a path, moved by an offset, counts for. Its vertices aren't kept.
    pub(crate) fn path_tally(&self, by: (i128, i128)) -> Result<Tally, Why>
        ensures ok { IfOk result (λ t. IsTallied (path_at self.now.layer self.now.datatype self.now.half_width self.now.start self.now.end self.now.path_points (point_from self.now.geometry (step by.0 by.1))) t) }
        ensures err { IfErr result (λ why. fault_of (path_at self.now.layer self.now.datatype self.now.half_width self.now.start self.now.end self.now.path_points (point_from self.now.geometry (step by.0 by.1))) ≡ Some why) }
    {
        let (Some(_), Some(_), Some(half_width)) = (self.layer, self.datatype, self.half_width)
        else {
            return Err(Why::ModalUndefined);
        };
        let (Some(start), Some(end), Some(points)) = (self.start, self.end, &self.path_points)
        else {
            return Err(Why::ModalUndefined);
        };
        let (Some(_), Some(_)) = (coordinate(start), coordinate(end)) else {
            return Err(Why::CoordinateRange);
        };
        if half_width > WIDEST {
            return Err(Why::CoordinateRange);
        }
        if !points_fit(points, self.geometry, by) {
            return Err(Why::CoordinateRange);
        }
        Ok(Tally {
            weight: points_weight(points) as u64,
            used: UsedNumber::Nothing,
        })
    }
}

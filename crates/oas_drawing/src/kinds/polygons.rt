//! Polygons: what one sets, weighs and draws.
ghost use Rattle.std.specs.Prelude.{◌≡◌, ◌≤◌, ◌^◌, ◌⊎◌, true, Some, IfOk, IfErr, IfSome};
ghost use Rattle.std.specs.Option.{option_map};
ghost use Rattle.oas_num.specs.declared.refusals.Why.TheVariants.{Memory};
ghost use Rattle.oas_num.specs.Deltas.{step};
ghost use Rattle.oas_ring.specs.declared.point.Point.{Point as OnePoint};
ghost use Rattle.oas_record.specs.declared.records.Record.{Record as OneRecord};
ghost use Rattle.oas_drawing.specs.Positions.{IsNear};
ghost use Rattle.oas_drawing.specs.Modal.{stepped};
ghost use Rattle.oas_drawing.specs.Drawn.{weight_so_far, drawn_points_fit};
ghost use Rattle.oas_drawing.specs.Drawing.{polygon_at, point_from};
ghost use Rattle.oas_drawing.specs.Reasons.{fault_of, MayRunOut};
ghost use Rattle.oas_drawing.specs.Tallies.{IsTallied};

use crate::drawn::Drawn;
use crate::modal::drawing::{points_by, points_fit, points_weight};
use crate::modal::{ModalVariables, take_given};
use crate::tally::{Tally, UsedNumber};
use oas_elements::Element;
use oas_num::Why;
use oas_record::Polygon;
use std::alloc::Global;

impl ModalVariables {
    /// What a polygon sets. Its points, where it gives any, and a repetition are moved out of it.
    pub fn draw_polygon(&mut self, drawn: &mut Polygon)
        requires { IsNear self.old.geometry }
        ensures { self.new ≡ stepped self.old (OneRecord.Polygon drawn.old) }
    {
        self.draw(drawn.layer, drawn.datatype, &mut drawn.spot);
        take_given(&mut self.polygon_points, &mut drawn.points);
    }

    /// The weight of a polygon.
    pub(crate) fn polygon_weight(&self) -> Option<u128>
        ensures weight { (at : OnePoint) → option_map weight_so_far (polygon_at self.now.layer self.now.datatype self.now.polygon_points at) ≡ result }
        ensures near { IfSome result (λ weight. weight ≤ 2 ^ 64) }
    {
        match (self.layer, self.datatype, &self.polygon_points) {
            (Some(_), Some(_), Some(points)) => Some(points_weight(points)),
            _ => None,
        }
    }

    /// A polygon, moved by an offset.
    pub(crate) fn polygon_by(&self, alloc: Global, by: (i128, i128)) -> Result<Drawn, Why>
        ensures ok { IfOk result (λ d. polygon_at self.now.layer self.now.datatype self.now.polygon_points (point_from self.now.geometry (step by.0 by.1)) ≡ Some d) }
        ensures err { IfErr result (λ why. ((why ≡ Memory) × MayRunOut (polygon_at self.now.layer self.now.datatype self.now.polygon_points (point_from self.now.geometry (step by.0 by.1)))) ⊎ (fault_of (polygon_at self.now.layer self.now.datatype self.now.polygon_points (point_from self.now.geometry (step by.0 by.1))) ≡ Some why)) }
        ensures points { IfOk result (λ d. drawn_points_fit d ≡ true) }
    {
        let (Some(layer), Some(datatype), Some(points)) = (
            self.layer,
            self.datatype,
            &self.polygon_points,
        ) else {
            return Err(Why::ModalUndefined);
        };
        let points = points_by(alloc, points, self.geometry, by)?;
        Ok(Drawn::Named(Element::Polygon {
            layer,
            datatype,
            points,
        }))
    }

    /// What a polygon, moved by an offset, counts for. Its vertices aren't kept.
    pub(crate) fn polygon_tally(&self, by: (i128, i128)) -> Result<Tally, Why>
        ensures ok { IfOk result (λ t. IsTallied (polygon_at self.now.layer self.now.datatype self.now.polygon_points (point_from self.now.geometry (step by.0 by.1))) t) }
        ensures err { IfErr result (λ why. fault_of (polygon_at self.now.layer self.now.datatype self.now.polygon_points (point_from self.now.geometry (step by.0 by.1))) ≡ Some why) }
    {
        let (Some(_), Some(_), Some(points)) = (self.layer, self.datatype, &self.polygon_points)
        else {
            return Err(Why::ModalUndefined);
        };
        if !points_fit(points, self.geometry, by) {
            return Err(Why::CoordinateRange);
        }
        Ok(Tally {
            weight: points_weight(points) as u64,
            used: UsedNumber::Nothing,
        })
    }
}

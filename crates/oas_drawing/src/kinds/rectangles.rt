//! Rectangles: what one sets, weighs and draws; and, for one without a repetition, `copies` and `copy` together.
ghost use Rattle.std.specs.Prelude.{◌≡◌, ◌≤◌, ◌^◌, false, true, None, Some, IfOk, IfErr, IfSome, OnOk};
ghost use Rattle.std.specs.Option.{option_map};
ghost use Rattle.oas_num.specs.Deltas.{step};
ghost use Rattle.oas_ring.specs.declared.point.Point.{Point as OnePoint};
ghost use Rattle.oas_shape.specs.Steps.{still};
ghost use Rattle.oas_record.specs.declared.records.Record.{Record as OneRecord};
ghost use Rattle.oas_drawing.specs.declared.kinds.Kind.{Kind as OneKind};
ghost use Rattle.oas_drawing.specs.Positions.{IsNear};
ghost use Rattle.oas_drawing.specs.Modal.{stepped};
ghost use Rattle.oas_drawing.specs.Drawn.{weight_so_far, drawn_points_fit};
ghost use Rattle.oas_drawing.specs.Drawing.{drawn_by, rectangle_at, point_from};
ghost use Rattle.oas_drawing.specs.Reasons.{fault_of, kind_reason, reason_if};

use crate::drawn::Drawn;
use crate::modal::drawing::{coordinate, point_by};
use crate::modal::{ModalVariables, set};
use oas_elements::{Element, Limits};
use oas_num::Why;
use oas_record::Rectangle;
use oas_ring::Point;

impl ModalVariables {
    /// What a rectangle sets. A square also sets the height, to its width, which may be the modal one. A repetition is moved
    /// out of it.
    #[inline(always)]
    pub fn draw_rectangle(&mut self, drawn: &mut Rectangle)
        requires { IsNear self.old.geometry }
        ensures { self.new ≡ stepped self.old (OneRecord.Rectangle drawn.old) }
    {
        self.draw(drawn.layer, drawn.datatype, &mut drawn.spot);
        set(&mut self.width, drawn.width);
        let height = if drawn.square {
            self.width
        } else {
            drawn.height
        };
        set(&mut self.height, height);
    }

    /// The weight of a rectangle.
    pub(crate) fn rectangle_weight(&self) -> Option<u128>
        ensures weight { (at : OnePoint) → option_map weight_so_far (rectangle_at self.now.layer self.now.datatype self.now.width self.now.height at) ≡ result }
        ensures near { IfSome result (λ weight. weight ≤ 2 ^ 64) }
    {
        match (self.layer, self.datatype, self.width, self.height) {
            (Some(_), Some(_), Some(_), Some(_)) => Some(1),
            _ => None,
        }
    }

    /// A rectangle, moved by an offset.
    pub(crate) fn rectangle_by(&self, by: (i128, i128)) -> Result<Drawn, Why>
        ensures ok { IfOk result (λ d. rectangle_at self.now.layer self.now.datatype self.now.width self.now.height (point_from self.now.geometry (step by.0 by.1)) ≡ Some d) }
        ensures err { IfErr result (λ why. fault_of (rectangle_at self.now.layer self.now.datatype self.now.width self.now.height (point_from self.now.geometry (step by.0 by.1))) ≡ Some why) }
        ensures points { IfOk result (λ d. drawn_points_fit d ≡ true) }
    {
        let (Some(layer), Some(datatype), Some(width), Some(height)) = (
            self.layer,
            self.datatype,
            self.width,
            self.height,
        ) else {
            return Err(Why::ModalUndefined);
        };
        let Point { x, y } = point_by(self.geometry, by)?;
        Ok(Drawn::Named(Element::Rectangle {
            layer,
            datatype,
            width,
            height,
            x,
            y,
        }))
    }

    /// The rectangle of a record without a repetition, where it isn't refused. Before it there are `count` elements with
    /// weight `weight`.
    ///
    /// It is refused with `ModalUndefined`, `TooManyElements`, `TooHeavy` and `CoordinateRange`, in this order, and is never
    /// out of memory. Its position is then within the limits.
    #[inline(always)]
    pub fn one_rectangle(&self, limits: Limits, count: u64, weight: u64) -> Result<Drawn, Why>
        requires few { count ≤ limits.elements }
        requires light { weight ≤ limits.weight }
        ensures reason { OnOk result (kind_reason limits count weight self.now OneKind.Rectangle false ≡ None) }
        ensures ok { IfOk result (λ d. drawn_by self.now OneKind.Rectangle still ≡ Some d) }
        ensures fits { OnOk result (fault_of (drawn_by self.now OneKind.Rectangle still) ≡ None) }
        ensures near { OnOk result (IsNear self.now.geometry) }
        ensures err { IfErr result (λ why. reason_if limits count weight self.now (Some OneKind.Rectangle) false ≡ Some why) }
    {
        let (Some(layer), Some(datatype), Some(width), Some(height)) = (
            self.layer,
            self.datatype,
            self.width,
            self.height,
        ) else {
            return Err(Why::ModalUndefined);
        };
        if limits.elements() - count < 1 {
            return Err(Why::TooManyElements);
        }
        if limits.weight() - weight < 1 {
            return Err(Why::TooHeavy);
        }
        let (Some(x), Some(y)) = (coordinate(self.geometry.x), coordinate(self.geometry.y)) else {
            return Err(Why::CoordinateRange);
        };
        let element = Element::Rectangle {
            layer,
            datatype,
            width,
            height,
            x,
            y,
        };
        if element.fits_grid() {
            Ok(Drawn::Named(element))
        } else {
            Err(Why::CoordinateRange)
        }
    }
}

//! Circles: what one sets, weighs and draws.
ghost use Rattle.std.specs.Prelude.{◌≡◌, ◌≤◌, ◌^◌, true, Some, IfOk, IfErr, IfSome};
ghost use Rattle.std.specs.Option.{option_map};
ghost use Rattle.oas_num.specs.Deltas.{step};
ghost use Rattle.oas_ring.specs.declared.point.Point.{Point as OnePoint};
ghost use Rattle.oas_record.specs.declared.records.Record.{Record as OneRecord};
ghost use Rattle.oas_drawing.specs.Positions.{IsNear};
ghost use Rattle.oas_drawing.specs.Modal.{stepped};
ghost use Rattle.oas_drawing.specs.Drawn.{weight_so_far, drawn_points_fit};
ghost use Rattle.oas_drawing.specs.Drawing.{circle_at, point_from};
ghost use Rattle.oas_drawing.specs.Reasons.{fault_of};

use crate::drawn::Drawn;
use crate::modal::drawing::point_by;
use crate::modal::{ModalVariables, set};
use oas_elements::Element;
use oas_num::Why;
use oas_record::Circle;
use oas_ring::Point;

impl ModalVariables {
    /// What a circle sets. A repetition is moved out of it.
    pub fn draw_circle(&mut self, drawn: &mut Circle)
        requires { IsNear self.old.geometry }
        ensures { self.new ≡ stepped self.old (OneRecord.Circle drawn.old) }
    {
        self.draw(drawn.layer, drawn.datatype, &mut drawn.spot);
        set(&mut self.radius, drawn.radius);
    }

    /// The weight of a circle.
    pub(crate) fn circle_weight(&self) -> Option<u128>
        ensures weight { (at : OnePoint) → option_map weight_so_far (circle_at self.now.layer self.now.datatype self.now.radius at) ≡ result }
        ensures near { IfSome result (λ weight. weight ≤ 2 ^ 64) }
    {
        match (self.layer, self.datatype, self.radius) {
            (Some(_), Some(_), Some(_)) => Some(1),
            _ => None,
        }
    }

    /// A circle, moved by an offset.
    pub(crate) fn circle_by(&self, by: (i128, i128)) -> Result<Drawn, Why>
        ensures ok { IfOk result (λ d. circle_at self.now.layer self.now.datatype self.now.radius (point_from self.now.geometry (step by.0 by.1)) ≡ Some d) }
        ensures err { IfErr result (λ why. fault_of (circle_at self.now.layer self.now.datatype self.now.radius (point_from self.now.geometry (step by.0 by.1))) ≡ Some why) }
        ensures points { IfOk result (λ d. drawn_points_fit d ≡ true) }
    {
        let (Some(layer), Some(datatype), Some(radius)) = (self.layer, self.datatype, self.radius)
        else {
            return Err(Why::ModalUndefined);
        };
        let Point { x, y } = point_by(self.geometry, by)?;
        Ok(Drawn::Named(Element::Circle {
            layer,
            datatype,
            radius,
            x,
            y,
        }))
    }
}

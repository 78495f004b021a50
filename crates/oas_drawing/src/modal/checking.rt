//! Whether an element record is refused, by the modal variables after it.
ghost use Rattle.std.specs.Prelude.{◌≡◌, ◌≤◌, None, Some, IfOk, IfErr, SomeIff, OnOk, IsTrue};
ghost use Rattle.oas_ring.specs.declared.point.Point.{Point as OnePoint};
ghost use Rattle.oas_drawing.specs.Positions.{IsNear};
ghost use Rattle.oas_drawing.specs.Drawing.{kind_at, place_of, number_if};
ghost use Rattle.oas_drawing.specs.Reasons.{lacks_if, is_on_grid, kind_reason};

use super::ModalVariables;
use super::drawing::coordinate;
use crate::kinds::Kind;
use crate::positions::Position;
use crate::turning::{is_askew, is_magnified};
use oas_elements::Limits;
use oas_num::Why;

/// Whether a position is within the grid.
#[tactic(auto, using(crate::proofs::Grids::on_grid))]
fn is_on_grid(at: Position) -> bool
    ensures value { result ≡ is_on_grid at }
    ensures near { IsTrue result → IsNear at }
{
    coordinate(at.x).is_some() && coordinate(at.y).is_some()
}

impl ModalVariables {
    /// How many copies there are, where there aren't more than this many.
    fn number_within(&self, repeated: bool, most: u64) -> Option<u64>
        ensures { SomeIff result (number_if repeated self.now.repetition ≤ most) (number_if repeated self.now.repetition) }
    {
        let number = match (repeated, &self.repetition) {
            (false, _) => 1,
            (true, None) => 0,
            (true, Some(repetition)) => repetition.count()?,
        };
        if number <= most { Some(number) } else { None }
    }

    /// Whether a polygon has fewer than three points.
    fn lacks_points(&self, kind: &Kind) -> bool
        ensures { (at : OnePoint) → lacks_if (kind_at self.now kind.now at) ≡ result }
    {
        match (kind, self.layer, self.datatype, &self.polygon_points) {
            (Kind::Polygon, Some(_), Some(_), Some(points)) => points.len() < 3,
            _ => false,
        }
    }

    /// The position of the class of a kind.
    fn place_of(&self, kind: &Kind) -> Position
        ensures { result ≡ place_of self.now kind.now }
    {
        match kind {
            Kind::Placement { .. } => self.placement,
            Kind::Text => self.text,
            _ => self.geometry,
        }
    }

    /// How many copies an element record has, where it isn't refused for more than their offsets. Before it there are `count`
    /// elements with weight `weight`.
    ///
    /// It is refused with `ModalUndefined`, `Magnification`, `Angle`, `TooManyElements`, `TooHeavy`, `PointCount` and
    /// `CoordinateRange`, in this order. Its position is then within the limits.
    pub fn copies(
        &self,
        kind: &Kind,
        repeated: bool,
        limits: Limits,
        count: u64,
        weight: u64,
    ) -> Result<u64, Why>
        requires few { count ≤ limits.elements }
        requires light { weight ≤ limits.weight }
        ensures ok { IfOk result (λ number. (kind_reason limits count weight self.now kind.now repeated ≡ None) × (number ≡ number_if repeated self.now.repetition)) }
        ensures near { OnOk result (IsNear (place_of self.now kind.now)) }
        ensures err { IfErr result (λ why. kind_reason limits count weight self.now kind.now repeated ≡ Some why) }
    {
        let Some(one) = self.weight_of_one(kind) else {
            return Err(Why::ModalUndefined);
        };
        if repeated && self.repetition.is_none() {
            return Err(Why::ModalUndefined);
        }
        if is_magnified(kind) {
            return Err(Why::Magnification);
        }
        if is_askew(kind) {
            return Err(Why::Angle);
        }
        let Some(number) = self.number_within(repeated, limits.elements() - count) else {
            return Err(Why::TooManyElements);
        };
        if u128::from(number) * one > u128::from(limits.weight() - weight) {
            return Err(Why::TooHeavy);
        }
        if self.lacks_points(kind) {
            return Err(Why::PointCount);
        }
        if !is_on_grid(self.place_of(kind)) {
            return Err(Why::CoordinateRange);
        }
        Ok(number)
    }
}

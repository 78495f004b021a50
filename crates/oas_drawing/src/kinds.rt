//! Kinds of element records, and each match on them; what is done for a kind stands in its file of src/kinds.
ghost use Rattle.std.specs.Prelude.{◌≡◌, ℕ, Option, ◌≢◌, ◌≤◌, ◌^◌, ◌⊎◌, true, None, Some, IfOk, IfErr, IfSome};
ghost use Rattle.std.specs.Option.{option_map};
ghost use Rattle.oas_num.specs.declared.refusals.Why.TheVariants.{Memory};
ghost use Rattle.oas_num.specs.Deltas.{step};
ghost use Rattle.oas_ring.specs.declared.point.Point.{Point as OnePoint};
ghost use Rattle.oas_drawing.specs.Positions.{IsNear};
ghost use Rattle.oas_drawing.specs.Modal.{stepped};
ghost use Rattle.oas_drawing.specs.Drawn.{weight_so_far, drawn_points_fit};
ghost use Rattle.oas_drawing.specs.Drawing.{kind_of, repeats, is_geometry, kind_at, drawn_by};
ghost use Rattle.oas_drawing.specs.GivenFields.{no_spot, given_fields, with_geometry};
ghost use Rattle.oas_record.specs.declared.spots.Spot.{Spot as OneSpot};
ghost use Rattle.oas_drawing.specs.Reasons.{fault_of, MayRunOut};
ghost use Rattle.oas_drawing.specs.Tallies.{IsTallied};

mod circles;
mod paths;
mod placements;
mod polygons;
mod rectangles;
mod texts;

use crate::drawn::Drawn;
use crate::modal::ModalVariables;
use crate::modal::copying::tally_within;
use crate::tally::Tally;
use crate::turning::turned;
use oas_num::Why;
use oas_record::{Circle, Path, Polygon, Record, Rectangle, Spot, Turn};
use oas_shape::RepField;
use std::alloc::Global;

/// The kind of an element record, with its fields that no modal variable keeps.
#[derive(Clone, Copy, Debug, PartialEq, Eq)]
pub enum Kind {
    Placement {
        turn: Turn,
        /// Flipped about the x axis, before the turn.
        flip: bool,
    },
    Text,
    Rectangle,
    Polygon,
    Path,
    Circle,
}

impl Kind {
    /// The kind of a record; None where it is no element.
    pub fn of(next: &Record) -> Option<Kind>
        ensures { result ≡ kind_of next.now }
    {
        match next {
            Record::Placement(placed) => Some(Kind::Placement {
                turn: placed.turn,
                flip: placed.flip,
            }),
            Record::Text(_) => Some(Kind::Text),
            Record::Rectangle(_) => Some(Kind::Rectangle),
            Record::Polygon(_) => Some(Kind::Polygon),
            Record::Path(_) => Some(Kind::Path),
            Record::Circle(_) => Some(Kind::Circle),
            _ => None,
        }
    }
}

/// Whether a record gives a repetition, even the modal one.
pub fn repeats(next: &Record) -> bool
    ensures { result ≡ repeats next.now }
{
    match next {
        Record::Placement(placed) => placed.spot.repetition.is_some(),
        Record::Text(written) => written.spot.repetition.is_some(),
        Record::Rectangle(drawn) => drawn.spot.repetition.is_some(),
        Record::Polygon(drawn) => drawn.spot.repetition.is_some(),
        Record::Path(drawn) => drawn.spot.repetition.is_some(),
        Record::Circle(drawn) => drawn.spot.repetition.is_some(),
        _ => false,
    }
}

/// Whether a record is geometry: an element, but neither a placement nor a text.
pub fn is_geometry(next: &Record) -> bool
    ensures { result ≡ is_geometry next.now }
{
    match Kind::of(next) {
        None | Some(Kind::Placement { .. }) | Some(Kind::Text) => false,
        Some(_) => true,
    }
}

/// What all geometry gives.
#[derive(Debug, Drop)]
pub struct Geometry<'a> {
    pub layer: Option<u64>,
    pub datatype: Option<u64>,
    pub spot: &'a Spot,
}

impl<'a> Geometry<'a> {
    /// That of a record; None where it isn't geometry.
    pub fn of(next: &'a Record) -> Option<Geometry<'a>>
        ensures layer { IfSome result (λ g. g.layer ≡ (given_fields next.now).layer) }
        ensures datatype { IfSome result (λ g. g.datatype ≡ (given_fields next.now).datatype) }
        ensures spot { IfSome result (λ g. g.spot.now ≡ (given_fields next.now).geometry) }
        ensures none { result ≡ None → ((given_fields next.now).layer ≡ None) × ((given_fields next.now).datatype ≡ None) × ((given_fields next.now).geometry ≡ no_spot) }
    {
        let (layer, datatype, spot) = match next {
            Record::Rectangle(drawn) => (drawn.layer, drawn.datatype, &drawn.spot),
            Record::Polygon(drawn) => (drawn.layer, drawn.datatype, &drawn.spot),
            Record::Path(drawn) => (drawn.layer, drawn.datatype, &drawn.spot),
            Record::Circle(drawn) => (drawn.layer, drawn.datatype, &drawn.spot),
            _ => return None,
        };
        Some(Geometry {
            layer,
            datatype,
            spot,
        })
    }
}

/// Takes the repetition that a record of geometry gives, if it gives one.
pub fn take_repetition(next: &mut Record) -> Option<RepField>
    ensures taken { result ≡ (given_fields next.old).geometry.repetition }
    ensures rest { (layer datatype : Option ℕ) (spot : OneSpot) → with_geometry layer datatype spot next.new ≡ with_geometry layer datatype spot next.old }
{
    match next {
        Record::Rectangle(drawn) => drawn.spot.repetition.take(),
        Record::Polygon(drawn) => drawn.spot.repetition.take(),
        Record::Path(drawn) => drawn.spot.repetition.take(),
        Record::Circle(drawn) => drawn.spot.repetition.take(),
        _ => None,
    }
}

/// A record of geometry, with these in the place of what all geometry gives.
pub fn with_geometry(next: Record, layer: Option<u64>, datatype: Option<u64>, spot: Spot) -> Record
    ensures { result ≡ with_geometry layer datatype spot next }
{
    match next {
        Record::Rectangle(drawn) => Record::Rectangle(Rectangle {
            layer,
            datatype,
            spot,
            ..drawn
        }),
        Record::Polygon(drawn) => Record::Polygon(Polygon {
            layer,
            datatype,
            spot,
            ..drawn
        }),
        Record::Path(drawn) => Record::Path(Path {
            layer,
            datatype,
            spot,
            ..drawn
        }),
        Record::Circle(drawn) => Record::Circle(Circle {
            layer,
            datatype,
            spot,
            ..drawn
        }),
        other => other,
    }
}

impl ModalVariables {
    /// What an element record sets. Memory that the record owns is moved out of it.
    pub fn step(&mut self, next: &mut Record)
        requires element { kind_of next.old ≢ None }
        requires placement { IsNear self.old.placement }
        requires text { IsNear self.old.text }
        requires geometry { IsNear self.old.geometry }
        ensures { self.new ≡ stepped self.old next.old }
    {
        match next {
            Record::Placement(placed) => self.place(placed),
            Record::Text(written) => self.write(written),
            Record::Rectangle(drawn) => self.draw_rectangle(drawn),
            Record::Polygon(drawn) => self.draw_polygon(drawn),
            Record::Path(drawn) => self.draw_path(drawn),
            Record::Circle(drawn) => self.draw_circle(drawn),
            _ => {}
        }
    }

    /// The weight of an element of the kind, as long as numbers have no names. None where a variable that it needs is
    /// undefined.
    pub(crate) fn weight_of_one(&self, kind: &Kind) -> Option<u128>
        ensures weight { (at : OnePoint) → option_map weight_so_far (kind_at self.now kind.now at) ≡ result }
        ensures near { IfSome result (λ weight. weight ≤ 2 ^ 64) }
    {
        match kind {
            Kind::Placement { .. } => self.placement_weight(),
            Kind::Text => self.text_weight(),
            Kind::Rectangle => self.rectangle_weight(),
            Kind::Polygon => self.polygon_weight(),
            Kind::Path => self.path_weight(),
            Kind::Circle => self.circle_weight(),
        }
    }

    /// The element of a kind, moved by an offset, in the grid or not.
    pub(crate) fn drawn_by(
        &self,
        alloc: Global,
        kind: &Kind,
        by: (i128, i128),
    ) -> Result<Drawn, Why>
        ensures ok { IfOk result (λ d. drawn_by self.now kind.now (step by.0 by.1) ≡ Some d) }
        ensures err { IfErr result (λ why. ((why ≡ Memory) × MayRunOut (drawn_by self.now kind.now (step by.0 by.1))) ⊎ (fault_of (drawn_by self.now kind.now (step by.0 by.1)) ≡ Some why)) }
        ensures points { IfOk result (λ d. drawn_points_fit d ≡ true) }
    {
        match kind {
            Kind::Placement { turn, flip } => self.placement_by(alloc, turned(*turn), *flip, by),
            Kind::Text => self.text_by(alloc, by),
            Kind::Rectangle => self.rectangle_by(by),
            Kind::Polygon => self.polygon_by(alloc, by),
            Kind::Path => self.path_by(alloc, by),
            Kind::Circle => self.circle_by(by),
        }
    }

    /// What the element of a kind, moved by an offset, counts for.
    pub(crate) fn tally_by(&self, kind: &Kind, by: (i128, i128)) -> Result<Tally, Why>
        ensures ok { IfOk result (λ t. IsTallied (drawn_by self.now kind.now (step by.0 by.1)) t) }
        ensures err { IfErr result (λ why. fault_of (drawn_by self.now kind.now (step by.0 by.1)) ≡ Some why) }
    {
        match kind {
            Kind::Placement { .. } => self.placement_tally(by),
            Kind::Text => self.text_tally(by),
            Kind::Rectangle => tally_within(&self.rectangle_by(by)?),
            Kind::Polygon => self.polygon_tally(by),
            Kind::Path => self.path_tally(by),
            Kind::Circle => tally_within(&self.circle_by(by)?),
        }
    }
}

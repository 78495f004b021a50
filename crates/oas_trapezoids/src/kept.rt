//! Records of the profile as they are returned.
ghost use Rattle.std.specs.Prelude.{◌≡◌, ◌⊎◌, Ok, Err, IfOk, IfErr};
ghost use Rattle.oas_num.specs.declared.refusals.Why.TheVariants.{Memory};
ghost use Rattle.oas_standard.specs.declared.reasons.WideWhy.TheVariants.{Profile};
ghost use Rattle.oas_drawing.specs.GivenFields.{given_fields, with_geometry};
ghost use Rattle.oas_trapezoids.specs.Tracked.{handed};
ghost use Rattle.oas_trapezoids.specs.Kept.{repetition_given, spot_repeated, spot_given, rectangle_filled, polygon_filled, filled, lacks_points, given};

use crate::resolved::Resolved;
use crate::resolver::Resolver;
use crate::tracking::no_memory;
use oas_drawing::{is_geometry, take_repetition, with_geometry};
use oas_num::Why;
use oas_record::{Placement, Polygon, Record, Rectangle, Spot, Text};
use oas_shape::RepField;
use oas_standard::WideWhy;
use std::alloc::{AllocError, Global};

impl Resolver {
    /// A repetition field, where the modal repetition is given in place of the reference to it. The reference stays where
    /// that repetition is undefined.
    fn repetition_given(
        &self,
        alloc: Global,
        field: Option<RepField>,
    ) -> Result<Option<RepField>, AllocError>
        ensures { IfOk result (λ given. given ≡ repetition_given self.now.repetition field) }
    {
        match (field, &self.repetition) {
            (Some(RepField::Again), Some(repetition)) => {
                let copy = repetition.try_clone(alloc)?;
                Ok(Some(RepField::New(copy)))
            }
            (field, _) => Ok(field),
        }
    }

    /// The position of an element of another class, with its repetition given.
    fn spot_repeated(&self, alloc: Global, spot: Spot) -> Result<Spot, AllocError>
        ensures { IfOk result (λ given. given ≡ spot_repeated self.now spot) }
    {
        let repetition = self.repetition_given(alloc, spot.repetition)?;
        Ok(Spot {
            x: spot.x,
            y: spot.y,
            repetition,
        })
    }

    /// The position of geometry, by absolute coordinates and with its repetition given.
    pub(crate) fn spot_given(
        &self,
        alloc: Global,
        field: Option<RepField>,
    ) -> Result<Spot, AllocError>
        ensures { IfOk result (λ spot. spot ≡ spot_given self.now field) }
    {
        let repetition = self.repetition_given(alloc, field)?;
        Ok(Spot {
            x: Some(self.place.x),
            y: Some(self.place.y),
            repetition,
        })
    }

    /// A rectangle with all its fields. It gives its height even where it is a square.
    fn rectangle_filled(&self, alloc: Global, next: Rectangle) -> Result<Rectangle, AllocError>
        ensures { IfOk result (λ filled. filled ≡ rectangle_filled self.now next) }
    {
        let spot = self.spot_given(alloc, next.spot.repetition)?;
        Ok(Rectangle {
            square: false,
            layer: self.layer,
            datatype: self.datatype,
            width: self.width,
            height: self.height,
            spot,
        })
    }

    /// A polygon with all its fields, where it has points.
    fn polygon_filled(&self, alloc: Global, next: Polygon) -> Result<Polygon, AllocError>
        ensures { IfOk result (λ filled. filled ≡ polygon_filled self.now next) }
    {
        let points = match (next.points, &self.polygon_points) {
            (None, Some(points)) => Some(points.try_clone(alloc)?),
            (points, _) => points,
        };
        let spot = self.spot_given(alloc, next.spot.repetition)?;
        Ok(Polygon {
            layer: self.layer,
            datatype: self.datatype,
            points,
            spot,
        })
    }

    /// Other geometry with all that all geometry gives; each kind has its sizes for itself. Another record stays as it is.
    fn geometry_filled(&self, alloc: Global, next: Record) -> Result<Record, AllocError>
        ensures { IfOk result (λ filled. filled ≡ with_geometry self.now.layer self.now.datatype (spot_given self.now (given_fields next).geometry.repetition) next) }
    {
        let mut next = next;
        let repetition = take_repetition(&mut next);
        let spot = self.spot_given(alloc, repetition)?;
        Ok(with_geometry(next, self.layer, self.datatype, spot))
    }

    /// An element where the values are given that it takes from variables which other kinds of elements set too.
    fn filled(&self, alloc: Global, next: Record) -> Result<Record, AllocError>
        ensures { IfOk result (λ r. r ≡ filled self.now next) }
    {
        Ok(match next {
            Record::Placement(placed) => Record::Placement(Placement {
                cell: placed.cell,
                turn: placed.turn,
                flip: placed.flip,
                spot: self.spot_repeated(alloc, placed.spot)?,
            }),
            Record::Text(written) => Record::Text(Text {
                string: written.string,
                textlayer: written.textlayer,
                texttype: written.texttype,
                spot: self.spot_repeated(alloc, written.spot)?,
            }),
            Record::Rectangle(drawn) => Record::Rectangle(self.rectangle_filled(alloc, drawn)?),
            Record::Polygon(drawn) => Record::Polygon(self.polygon_filled(alloc, drawn)?),
            other => self.geometry_filled(alloc, other)?,
        })
    }

    /// A record of the profile that has set its variables, as it is returned.
    pub(crate) fn hand_out(&self, alloc: Global, next: Record) -> Result<Resolved, WideWhy>
        ensures ok { IfOk result (λ resolved. given self.now next ≡ Ok (handed resolved)) }
        ensures err { IfErr result (λ why. (why ≡ Profile Memory) ⊎ (given self.now next ≡ Err why)) }
    {
        if !self.is_mixed {
            return Ok(Resolved::One(next));
        }
        if lacks_points(&next) && self.polygon_points.is_none() {
            return Err(WideWhy::Profile(Why::ModalUndefined));
        }
        let is_relative = is_geometry(&next) && self.place.relative;
        let filled = self.filled(alloc, next).map_err(no_memory)?;
        Ok(Resolved::placed(is_relative, filled))
    }
}

/// Whether a record is a polygon without points.
fn lacks_points(next: &Record) -> bool
    ensures { result ≡ lacks_points next.now }
{
    match next {
        Record::Polygon(drawn) => drawn.points.is_none(),
        _ => false,
    }
}

//! How records change the modal variables that are tracked.
ghost use Rattle.std.specs.Prelude.{◌≡◌, None, OnOk, IfOk};
ghost use Rattle.std.specs.Option.{option_or};
ghost use Rattle.oas_num.specs.declared.refusals.Why.TheVariants.{Memory};
ghost use Rattle.oas_record.specs.declared.records.Record.{Record as OneRecord};
ghost use Rattle.oas_drawing.specs.GivenFields.{given_fields};
ghost use Rattle.oas_drawing.specs.Values.{new_repetition};
ghost use Rattle.oas_standard.specs.declared.reasons.WideWhy.TheVariants.{Profile};
ghost use Rattle.oas_trapezoids.specs.Tracked.{repeated_by, drawn_by, placed_by, sized_by, tracked};

use crate::resolver::Resolver;
use oas_drawing::Geometry;
use oas_num::Why;
use oas_record::{Polygon, Record, Rectangle, Spot};
use oas_shape::{RepField, Repetition};
use oas_standard::WideWhy;
use std::alloc::{AllocError, Global};

/// The reason if out of memory.
pub(crate) fn no_memory(_failed: AllocError) -> WideWhy
    ensures { result ≡ Profile Memory }
{
    WideWhy::Profile(Why::Memory)
}

/// A field that is given sets its variable.
pub(crate) fn set<T: Drop>(variable: &mut Option<T>, given: Option<T>)
    ensures { variable.new ≡ option_or given variable.old }
{
    if given.is_some() {
        *variable = given;
    }
}

/// A copy of the repetition that a record sets, if it does. Type 0 doesn't.
fn new_repetition(alloc: Global, field: &Option<RepField>) -> Result<Option<Repetition>, AllocError>
    ensures { IfOk result (λ repetition. repetition ≡ new_repetition field.now) }
{
    match field {
        Some(RepField::New(repetition)) => Ok(Some(repetition.try_clone(alloc)?)),
        _ => Ok(None),
    }
}

impl Resolver {
    /// What all elements set.
    pub(crate) fn repeat(
        &mut self,
        alloc: Global,
        field: &Option<RepField>,
    ) -> Result<(), AllocError>
        ensures { OnOk result (self.new ≡ repeated_by self.old field.now) }
    {
        set(&mut self.repetition, new_repetition(alloc, field)?);
        Ok(())
    }

    /// What all kinds of geometry set beside the repetition.
    fn move_by(&mut self, layer: Option<u64>, datatype: Option<u64>, spot: &Spot)
        ensures { self.new ≡ placed_by self.old layer datatype spot.now }
    {
        set(&mut self.layer, layer);
        set(&mut self.datatype, datatype);
        self.place = self.place.after(spot);
    }

    /// What all kinds of geometry set.
    pub(crate) fn draw(
        &mut self,
        alloc: Global,
        layer: Option<u64>,
        datatype: Option<u64>,
        spot: &Spot,
    ) -> Result<(), AllocError>
        ensures { OnOk result (self.new ≡ drawn_by self.old layer datatype spot.now) }
    {
        self.repeat(alloc, &spot.repetition)?;
        self.move_by(layer, datatype, spot);
        Ok(())
    }

    /// The sizes that a rectangle sets. A square also sets the height, to its width, which may be the modal one.
    fn size_by(&mut self, drawn: &Rectangle)
        ensures { self.new ≡ sized_by self.old drawn.now }
    {
        set(&mut self.width, drawn.width);
        let height = if drawn.square {
            self.width
        } else {
            drawn.height
        };
        set(&mut self.height, height);
    }

    /// What a rectangle sets.
    fn draw_rectangle(&mut self, alloc: Global, drawn: &Rectangle) -> Result<(), AllocError>
        ensures { OnOk result (self.new ≡ tracked self.old (OneRecord.Rectangle drawn.now)) }
    {
        self.draw(alloc, drawn.layer, drawn.datatype, &drawn.spot)?;
        self.size_by(drawn);
        Ok(())
    }

    /// What a rectangle sets that gives no repetition, as [`Resolver::track`] does for its record. This needs no memory.
    pub fn track_rectangle(&mut self, drawn: &Rectangle)
        requires { drawn.now.spot.repetition ≡ None }
        ensures { self.new ≡ tracked self.old (OneRecord.Rectangle drawn.now) }
    {
        self.move_by(drawn.layer, drawn.datatype, &drawn.spot);
        self.size_by(drawn);
    }

    /// What a polygon sets.
    fn draw_polygon(&mut self, alloc: Global, drawn: &Polygon) -> Result<(), AllocError>
        ensures { OnOk result (self.new ≡ tracked self.old (OneRecord.Polygon drawn.now)) }
    {
        self.draw(alloc, drawn.layer, drawn.datatype, &drawn.spot)?;
        if let Some(points) = &drawn.points {
            self.polygon_points = Some(points.try_clone(alloc)?);
        }
        Ok(())
    }

    /// What other geometry sets, of which each kind has its sizes for itself. Another record sets nothing so.
    fn draw_other(&mut self, alloc: Global, next: &Record) -> Result<(), AllocError>
        ensures { OnOk result (self.new ≡ drawn_by self.old (given_fields next.now).layer (given_fields next.now).datatype (given_fields next.now).geometry) }
    {
        match Geometry::of(next) {
            Some(other) => self.draw(alloc, other.layer, other.datatype, other.spot),
            None => Ok(()),
        }
    }

    /// What a record of the profile sets: the first half of [`Resolver::resolve`]. The second is to return the record, which is
    /// unchanged as long as [`Resolver::is_mixed`] is false. Where memory runs out nothing is known about what is tracked.
    pub fn track(&mut self, alloc: Global, next: &Record) -> Result<(), AllocError>
        ensures { OnOk result (self.new ≡ tracked self.old next.now) }
    {
        match next {
            Record::Cell(_) => *self = Resolver::new(),
            Record::XyAbsolute => self.place.relative = false,
            Record::XyRelative => self.place.relative = true,
            Record::Placement(placed) => self.repeat(alloc, &placed.spot.repetition)?,
            Record::Text(written) => self.repeat(alloc, &written.spot.repetition)?,
            Record::Rectangle(drawn) => self.draw_rectangle(alloc, drawn)?,
            Record::Polygon(drawn) => self.draw_polygon(alloc, drawn)?,
            _ => self.draw_other(alloc, next)?,
        }
        Ok(())
    }
}

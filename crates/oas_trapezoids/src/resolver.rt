//! The modal variables of what the profile leaves out, and what its records are translated to.
ghost use Rattle.std.specs.Prelude.{◌≡◌, ◌⊎◌, Ok, Err, IfOk, IfErr, OnOk};
ghost use Rattle.oas_num.specs.declared.refusals.Why.TheVariants.{Memory};
ghost use Rattle.oas_standard.specs.declared.reasons.WideWhy.TheVariants.{Profile};
ghost use Rattle.oas_trapezoids.specs.Tracked.{fresh, handed};
ghost use Rattle.oas_trapezoids.specs.Steps.{translated_by, kept_after};

use crate::places::Place;
use crate::resolved::Resolved;
use crate::tracking::no_memory;
use oas_shape::{PointList, Repetition};
use oas_standard::{WideRecord, WideWhy};
use std::alloc::Global;
use std::marker::Model;

/// The modal variables that trapezoids and geometry of extensions share with other elements, and ctrapezoid-type (SEMI P39,
/// Modal variables). Each is None where no record since the CELL gave it. Lengths are in grid steps.
#[derive(Debug, Drop)]
pub struct Resolver {
    /// Whether a trapezoid or geometry of an extension was there since the CELL.
    pub(crate) is_mixed: bool,
    pub(crate) kind: Option<u64>,
    pub(crate) layer: Option<u64>,
    pub(crate) datatype: Option<u64>,
    pub(crate) width: Option<u64>,
    pub(crate) height: Option<u64>,
    pub(crate) polygon_points: Option<PointList>,
    /// One for all kinds of elements.
    pub(crate) repetition: Option<Repetition>,
    pub(crate) place: Place,
}

impl Model for Resolver {
    ghost use Rattle.oas_trapezoids.specs.Tracked.{Tracked};

    ghost Value = { Tracked };

    ghost view = { λ r. record {
      is_mixed = r.is_mixed;
      kind = r.kind;
      layer = r.layer;
      datatype = r.datatype;
      width = r.width;
      height = r.height;
      polygon_points = r.polygon_points;
      repetition = r.repetition;
      place = r.place;
    } };
}

impl Resolver {
    /// As a CELL leaves it.
    pub fn new() -> Resolver
        ensures { result ≡ fresh }
    {
        Resolver {
            is_mixed: false,
            kind: None,
            layer: None,
            datatype: None,
            width: None,
            height: None,
            polygon_points: None,
            repetition: None,
            place: Place::origin(),
        }
    }

    /// Whether a trapezoid or geometry of an extension was there since the CELL. As long as none was, each record of the
    /// profile is translated to itself.
    pub fn is_mixed(&self) -> bool
        ensures { result ≡ self.now.is_mixed }
    {
        self.is_mixed
    }

    /// The records of the profile that the next record is translated to.
    ///
    /// Records that the profile leaves out and that are no elements are translated to none. So are a CBLOCK and END, which
    /// the caller must handle. A placement by reals is handed in as the record of the profile that it is translated to. It is
    /// refused with `ModalUndefined`, `CtrapezoidType`, `InfoByte`, `Trapezoid` and `CoordinateRange`, or fails with
    /// `Memory`. Where it is refused nothing is known about what is tracked.
    pub fn resolve(&mut self, alloc: Global, next: WideRecord) -> Result<Resolved, WideWhy>
        ensures handed { IfOk result (λ r. translated_by self.old next ≡ Ok (handed r)) }
        ensures kept { OnOk result (self.new ≡ kept_after self.old next) }
        ensures refused { IfErr result (λ why. (why ≡ Profile Memory) ⊎ (translated_by self.old next ≡ Err why)) }
    {
        match next {
            WideRecord::Profile(record) => {
                self.track(alloc, &record).map_err(no_memory)?;
                self.hand_out(alloc, record)
            }
            WideRecord::Trapezoid(trapezoid) => self.resolve_trapezoid(alloc, trapezoid),
            WideRecord::NamedTrapezoid(trapezoid) => self.resolve_named(alloc, trapezoid),
            WideRecord::ExtensionGeometry(geometry) => {
                self.pass_over(alloc, geometry)?;
                Ok(Resolved::Nothing)
            }
            WideRecord::End(_)
            | WideRecord::PropertyName { .. }
            | WideRecord::PropertyString { .. }
            | WideRecord::LayerName(_)
            | WideRecord::TextLayerName(_)
            | WideRecord::Property(_)
            | WideRecord::LastProperty
            | WideRecord::ExtensionName { .. }
            | WideRecord::ExtensionElement { .. }
            | WideRecord::Placement(_)
            | WideRecord::Block(_) => Ok(Resolved::Nothing),
        }
    }
}

//! What geometry of an extension sets (SEMI P39, XGEOMETRY record).
ghost use Rattle.std.specs.Prelude.{◌≡◌, ◌⊎◌, [], Ok, Err, OnOk, IfErr};
ghost use Rattle.oas_num.specs.declared.refusals.Why.TheVariants.{Memory};
ghost use Rattle.oas_standard.specs.declared.reasons.WideWhy.TheVariants.{Profile};
ghost use Rattle.oas_trapezoids.specs.Extensions.{geometry_after, geometry_handed};

use crate::resolver::Resolver;
use crate::tracking::no_memory;
use oas_num::Why;
use oas_standard::{ExtensionGeometry, WideWhy};
use std::alloc::Global;

impl Resolver {
    /// Skips geometry of an extension, which sets its layer, datatype and repetition and moves the position of geometry. It
    /// is refused as an element would be: with `ModalUndefined` and `CoordinateRange`.
    pub(crate) fn pass_over(
        &mut self,
        alloc: Global,
        next: ExtensionGeometry,
    ) -> Result<(), WideWhy>
        ensures passed { OnOk result (geometry_handed self.old next ≡ Ok []) }
        ensures kept { OnOk result (self.new ≡ geometry_after self.old next) }
        ensures refused { IfErr result (λ why. (why ≡ Profile Memory) ⊎ (geometry_handed self.old next ≡ Err why)) }
    {
        self.is_mixed = true;
        self.draw(alloc, next.layer, next.datatype, &next.spot)
            .map_err(no_memory)?;
        if self.layer.is_none() || self.datatype.is_none() {
            return Err(WideWhy::Profile(Why::ModalUndefined));
        }
        if next.spot.repetition.is_some() && self.repetition.is_none() {
            return Err(WideWhy::Profile(Why::ModalUndefined));
        }
        if !self.place.is_on_grid() {
            return Err(WideWhy::Profile(Why::CoordinateRange));
        }
        Ok(())
    }
}

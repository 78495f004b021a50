//! What trapezoids are translated to (SEMI P39, TRAPEZOID and CTRAPEZOID records).
ghost use Rattle.std.specs.Prelude.{◌≡◌, ◌⊎◌, Ok, Err, IfOk, IfErr, OnOk, option_map};
ghost use Rattle.oas_trapezoids.specs.Corners.{listed};
ghost use Rattle.oas_num.specs.declared.refusals.Why.TheVariants.{Memory};
ghost use Rattle.oas_standard.specs.declared.reasons.WideWhy.TheVariants.{Profile};
ghost use Rattle.oas_trapezoids.specs.Tracked.{handed};
ghost use Rattle.oas_trapezoids.specs.Trapezoids.{corners_of, modal_box, trapezoid_after, trapezoid_handed, box_if, named_after, named_handed};

use crate::corners::Corners;
use crate::deltas::trapezoid_corners;
use crate::named::named_corners;
use crate::resolved::Resolved;
use crate::resolver::Resolver;
use crate::sides::{Sides, Unsided, sides_of};
use crate::tracking::{no_memory, set};
use oas_num::Why;
use oas_standard::{NamedTrapezoid, Trapezoid, WideWhy};
use std::alloc::{AllocError, Global};

/// How many kinds of CTRAPEZOIDs there are.
const KINDS: u64 = 26;

/// The corners of a TRAPEZOID in its box, where it encloses an area.
fn corners_of(next: &Trapezoid, sides: Sides) -> Option<Corners>
    ensures { option_map listed result ≡ corners_of next.now sides }
{
    let (delta_a, delta_b) = (next.delta_a.unwrap_or(0), next.delta_b.unwrap_or(0));
    trapezoid_corners(next.upright, sides.width, sides.height, delta_a, delta_b)
}

impl Resolver {
    /// What a TRAPEZOID sets.
    fn draw_trapezoid(&mut self, alloc: Global, next: &Trapezoid) -> Result<(), AllocError>
        ensures { OnOk result (self.new ≡ trapezoid_after self.old next.now) }
    {
        self.draw(alloc, next.layer, next.datatype, &next.spot)?;
        self.is_mixed = true;
        set(&mut self.width, next.width);
        set(&mut self.height, next.height);
        Ok(())
    }

    /// The modal box. It is refused with `ModalUndefined`.
    fn modal_box(&self) -> Result<Sides, WideWhy>
        ensures { result ≡ modal_box self.now }
    {
        match (self.width, self.height) {
            (Some(width), Some(height)) => Ok(Sides { width, height }),
            _ => Err(WideWhy::Profile(Why::ModalUndefined)),
        }
    }

    /// What a TRAPEZOID is translated to.
    ///
    /// It is refused with `ModalUndefined` where its width or its height is undefined, and with `Trapezoid` and
    /// `CoordinateRange`.
    pub(crate) fn resolve_trapezoid(
        &mut self,
        alloc: Global,
        next: Trapezoid,
    ) -> Result<Resolved, WideWhy>
        ensures handed { IfOk result (λ r. trapezoid_handed self.old next ≡ Ok (handed r)) }
        ensures kept { OnOk result (self.new ≡ trapezoid_after self.old next) }
        ensures refused { IfErr result (λ why. (why ≡ Profile Memory) ⊎ (trapezoid_handed self.old next ≡ Err why)) }
    {
        self.draw_trapezoid(alloc, &next).map_err(no_memory)?;
        let sides = self.modal_box()?;
        let Some(corners) = corners_of(&next, sides) else {
            return Err(WideWhy::Trapezoid);
        };
        self.shape_of(alloc, sides, corners.as_slice(), next.spot.repetition)
    }

    /// The box of a CTRAPEZOID of a kind, from the sides that it gives and those that are modal. It is refused with
    /// `CtrapezoidType` where there is no such kind, with `ModalUndefined` where a side that the kind needs is undefined,
    /// with `CoordinateRange` where the implied one is 2^64 or more, and with `InfoByte` where it gives another.
    #[tactic(auto, using(crate::proofs::BoxLemmas::no_kind, crate::proofs::BoxLemmas::undefined_side, crate::proofs::BoxLemmas::long_side, crate::proofs::BoxLemmas::other_side, crate::proofs::BoxLemmas::right_sides))]
    fn box_of(&self, kind: u64, next: &NamedTrapezoid) -> Result<Sides, WideWhy>
        ensures ok { IfOk result (λ sides. box_if self.now kind next.now ≡ Ok sides) }
        ensures err { IfErr result (λ why. box_if self.now kind next.now ≡ Err why) }
    {
        if kind >= KINDS {
            return Err(WideWhy::CtrapezoidType);
        }
        let width = next.width.or(self.width);
        let height = next.height.or(self.height);
        let sides = match sides_of(kind, width, height) {
            Ok(sides) => sides,
            Err(Unsided::Undefined) => return Err(WideWhy::Profile(Why::ModalUndefined)),
            Err(Unsided::TooLong) => return Err(WideWhy::Profile(Why::CoordinateRange)),
        };
        if !sides.agree(next.width, next.height) {
            return Err(WideWhy::Profile(Why::InfoByte));
        }
        Ok(sides)
    }

    /// What a CTRAPEZOID is translated to. Its box becomes modal, also the side that its kind implies (own rule).
    ///
    /// It is refused with `ModalUndefined` where its kind is undefined, with what its box is refused with, and with
    /// `Trapezoid` and `CoordinateRange`.
    pub(crate) fn resolve_named(
        &mut self,
        alloc: Global,
        next: NamedTrapezoid,
    ) -> Result<Resolved, WideWhy>
        ensures handed { IfOk result (λ r. named_handed self.old next ≡ Ok (handed r)) }
        ensures kept { OnOk result (self.new ≡ named_after self.old next) }
        ensures refused { IfErr result (λ why. (why ≡ Profile Memory) ⊎ (named_handed self.old next ≡ Err why)) }
    {
        self.is_mixed = true;
        set(&mut self.kind, next.kind);
        let Some(kind) = self.kind else {
            return Err(WideWhy::Profile(Why::ModalUndefined));
        };
        let sides = self.box_of(kind, &next)?;
        self.draw(alloc, next.layer, next.datatype, &next.spot)
            .map_err(no_memory)?;
        self.width = Some(sides.width);
        self.height = Some(sides.height);
        let Some(corners) = named_corners(kind, sides.width, sides.height) else {
            return Err(WideWhy::Trapezoid);
        };
        self.shape_of(alloc, sides, corners.as_slice(), next.spot.repetition)
    }
}

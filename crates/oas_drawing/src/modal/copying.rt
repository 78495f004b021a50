//! The copies of a record, by the modal variables after it: their places, and each of them.
ghost use Rattle.std.specs.Prelude.{◌≡◌, ◌<◌, ◌^◌, ◌⊎◌, true, None, Some, IfOk, IfErr};
ghost use Rattle.oas_num.specs.declared.refusals.Why.TheVariants.{Memory};
ghost use Rattle.oas_num.specs.Deltas.{step};
ghost use Rattle.oas_drawing.specs.Drawn.{drawn_points_fit, drawn_fits};
ghost use Rattle.oas_drawing.specs.Drawing.{number_if, offset_if, places_if, drawn_by};
ghost use Rattle.oas_drawing.specs.Reasons.{fault_of, MayRunOut};
ghost use Rattle.oas_drawing.specs.Tallies.{IsTallied};

use super::ModalVariables;
use super::drawing::coordinate;
use crate::drawn::Drawn;
use crate::kinds::Kind;
use crate::tally::Tally;
use oas_num::Why;
use oas_shape::Places;
use std::alloc::Global;

/// Whether an element is within the grid, whatever its number means. Its points are known to be: they were checked as they
/// were made.
fn fits(drawn: &Drawn) -> bool
    requires { drawn_points_fit drawn.now ≡ true }
    ensures { result ≡ drawn_fits drawn.now }
{
    match drawn {
        Drawn::Named(element) => element.fits_beside_points(),
        Drawn::PlacementBy { x, y, .. } | Drawn::TextBy { x, y, .. } => {
            coordinate(i128::from(*x)).is_some() && coordinate(i128::from(*y)).is_some()
        }
    }
}

/// What an element that is drawn counts for, where it is within the grid. It is refused with `CoordinateRange`.
pub(crate) fn tally_within(drawn: &Drawn) -> Result<Tally, Why>
    requires { drawn_points_fit drawn.now ≡ true }
    ensures ok { IfOk result (λ t. IsTallied (Some drawn.now) t) }
    ensures err { IfErr result (λ why. fault_of (Some drawn.now) ≡ Some why) }
{
    if fits(drawn) {
        Ok(drawn.tally())
    } else {
        Err(Why::CoordinateRange)
    }
}

impl ModalVariables {
    /// The places of a record's copies, with equally many on each. There are fewer than 2^64 copies.
    pub fn places(&self, repeated: bool) -> Places
        requires { number_if repeated self.now.repetition < 2 ^ 64 }
        ensures { result ≡ places_if repeated self.now.repetition }
    {
        match (repeated, &self.repetition) {
            (true, Some(repetition)) => repetition.places(),
            (true, None) => Places {
                number: 0,
                copies: 1,
                stride: 1,
            },
            (false, _) => Places {
                number: 1,
                copies: 1,
                stride: 1,
            },
        }
    }

    /// The offset of copy `i` of a record, counted from 0.
    fn offset(&self, repeated: bool, i: u64) -> (i128, i128)
        requires below { i < number_if repeated self.now.repetition }
        requires small { i < 2 ^ 32 }
        ensures { step result.0 result.1 ≡ offset_if repeated self.now.repetition i }
    {
        match (repeated, &self.repetition) {
            (true, Some(repetition)) => repetition.offset(i),
            _ => (0, 0),
        }
    }

    /// Copy `i` of an element record, counted from 0. It is refused with `ModalUndefined` and `CoordinateRange`, in this
    /// order, or fails with `Memory`: a placement or a text only where it isn't refused otherwise, a polygon or a path as
    /// soon as its variables are defined, since its vertices are checked as they are made.
    #[tactic(auto, using(crate::proofs::Grids::never_memory))]
    pub fn copy(&self, alloc: Global, kind: &Kind, repeated: bool, i: u64) -> Result<Drawn, Why>
        requires below { i < number_if repeated self.now.repetition }
        requires small { i < 2 ^ 32 }
        ensures ok { IfOk result (λ d. drawn_by self.now kind.now (offset_if repeated self.now.repetition i) ≡ Some d) }
        ensures fits { IfOk result (λ d. fault_of (drawn_by self.now kind.now (offset_if repeated self.now.repetition i)) ≡ None) }
        ensures err { IfErr result (λ why. (why ≡ Memory) ⊎ (fault_of (drawn_by self.now kind.now (offset_if repeated self.now.repetition i)) ≡ Some why)) }
        ensures memory { IfErr result (λ why. why ≡ Memory → MayRunOut (drawn_by self.now kind.now (offset_if repeated self.now.repetition i))) }
    {
        let drawn = self.drawn_by(alloc, kind, self.offset(repeated, i))?;
        if fits(&drawn) {
            Ok(drawn)
        } else {
            Err(Why::CoordinateRange)
        }
    }

    /// What copy `i` of an element record, counted from 0, counts for. It isn't drawn: it is refused as
    /// [`ModalVariables::copy`] refuses it, and needs no memory.
    pub fn tally(&self, kind: &Kind, repeated: bool, i: u64) -> Result<Tally, Why>
        requires below { i < number_if repeated self.now.repetition }
        requires small { i < 2 ^ 32 }
        ensures ok { IfOk result (λ t. IsTallied (drawn_by self.now kind.now (offset_if repeated self.now.repetition i)) t) }
        ensures err { IfErr result (λ why. fault_of (drawn_by self.now kind.now (offset_if repeated self.now.repetition i)) ≡ Some why) }
    {
        self.tally_by(kind, self.offset(repeated, i))
    }
}

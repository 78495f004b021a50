//! From a file's canonical bytes by profile one to those by profile two.
ghost use Rattle.std.specs.Prelude.{◌≡◌, ◌⊎◌, IfOk, IfErr};
ghost use Rattle.oas_num.specs.declared.refusals.Why.TheVariants.{Write as NotWritten};
ghost use Rattle.oas_judge.specs.Deciding.{HasNoMemory, IsReasoned};
ghost use Rattle.oas_judge.specs.Reading.{IsRefused, IsPlaced};
ghost use Rattle.oas_canon.specs.declared.rekeying.Rekeyed.TheVariants.{NotProfile1 as IsNotProfile1};
ghost use Rattle.oas_canon.specs.Rekeying.{Rekeys, IsRekeyedInPart, StaysSo};
ghost use Rattle.oas_canon.specs.Run.{Exactly};

use oas_elements::{Limits, Profile};
use oas_judge::{read_judged, write_canonical};
use oas_num::{Device, Refusal, Source};
use std::alloc::Global;

/// The result for an accepted file that should be re-keyed.
#[derive(Clone, Copy, Debug, PartialEq, Eq)]
pub enum Rekeyed {
    /// It was canonical by profile one, and its canonical file by profile two was written, with this many bytes.
    Done(u64),
    /// It isn't canonical by profile one, and nothing was written.
    NotProfile1,
}

/// Writes the canonical file by profile two of a file that is canonical by profile one.
///
/// It is the canonical file by profile two of each file that this one was made from, by
/// [`laws::rekeying`](crate::laws::rekeying). A file that was re-keyed before is written unchanged.
///
/// A file is refused as by [`canonicalize`](crate::canonicalize), except that memory may run out at any byte. Each record is
/// judged as it is read, and nothing is written before the whole file was found to be canonical.
pub fn rekey<S: Source, W: Device>(
    alloc: Global,
    from: &mut S,
    to: &mut W,
    limits: Limits,
) -> Result<Rekeyed, Refusal>
    ensures rekeyed { IfOk result (λ rekeyed. Rekeys limits (S.script from.old) (S.script from.new) (W.calls to.old) (W.calls to.new) rekeyed) }
    ensures again { IfOk result (λ rekeyed. StaysSo limits (S.script from.old).rest (W.calls to.old) (W.calls to.new) rekeyed) }
    ensures unwritten { IfOk result (λ rekeyed. rekeyed ≡ IsNotProfile1 → to.new ≡ to.old) }
    ensures refused { IfErr result (λ refusal. (refusal.why ≡ NotWritten) ⊎ IsRefused limits (S.script from.old) refusal.why (S.script from.new)) }
    ensures placed { IfErr result (λ refusal. (refusal.why ≡ NotWritten) ⊎ IsPlaced limits (S.script from.old) refusal (S.script from.new)) }
    ensures decided { IfErr result (λ refusal. (refusal.why ≡ NotWritten) ⊎ (HasNoMemory limits (S.script from.old) refusal (S.script from.new) ⊎ IsReasoned limits (S.script from.old) refusal (S.script from.new))) }
    ensures nothing { IfErr result (λ refusal. (refusal.why ≡ NotWritten) ⊎ (to.new ≡ to.old)) }
    ensures cut { IfErr result (λ refusal. refusal.why ≡ NotWritten → IsRekeyedInPart limits (S.script from.old) (S.script from.new) (W.calls to.old) (W.calls to.new) refusal.at) }
    ensures exactly { Exactly limits (S.script from.old) result (S.script from.new) }
{
    let (layout, own) = read_judged(alloc, from, limits, Profile::One, Profile::Two)?;
    if !own {
        return Ok(Rekeyed::NotProfile1);
    }
    let count = write_canonical(&layout, to)?;
    Ok(Rekeyed::Done(count))
}

//! From a source to a writer: the canonical file of what was read.
ghost use Rattle.std.specs.Prelude.{◌≡◌, ◌⊎◌, IfOk, IfErr};
ghost use Rattle.oas_num.specs.declared.refusals.Why.TheVariants.{Write as NotWritten};
ghost use Rattle.oas_judge.specs.Deciding.{IsReasoned};
ghost use Rattle.oas_judge.specs.Reading.{IsRefused, IsPlaced};
ghost use Rattle.oas_canon.specs.Run.{IsDone, IsCut, Exactly};

use crate::given::write_given;
use crate::profile::PROFILE;
use oas_elements::Limits;
use oas_judge::read_given;
use oas_num::{Device, Refusal, Source};
use std::alloc::Global;

/// Writes the canonical file of what a source gives, and returns how many bytes it has.
///
/// `canonicalize` refuses exactly the files that the profile doesn't accept; two accepted files mean the same layout exactly if their canonical bytes are equal; the canonical file is accepted and means what its source means, and canonicalising it again changes no byte.
///
/// Nothing is written before the whole file was accepted. After `Why::Write` the writer took the first bytes of the canonical
/// file, as many as the refusal's place says.
pub fn canonicalize<S: Source, W: Device>(
    alloc: Global,
    from: &mut S,
    to: &mut W,
    limits: Limits,
) -> Result<u64, Refusal>
    ensures done { IfOk result (λ n. IsDone limits PROFILE (S.script from.old) (S.script from.new) (W.calls to.old) (W.calls to.new) n) }
    ensures refused { IfErr result (λ refusal. (refusal.why ≡ NotWritten) ⊎ IsRefused limits (S.script from.old) refusal.why (S.script from.new)) }
    ensures placed { IfErr result (λ refusal. (refusal.why ≡ NotWritten) ⊎ IsPlaced limits (S.script from.old) refusal (S.script from.new)) }
    ensures decided { IfErr result (λ refusal. (refusal.why ≡ NotWritten) ⊎ IsReasoned limits (S.script from.old) refusal (S.script from.new)) }
    ensures nothing { IfErr result (λ refusal. (refusal.why ≡ NotWritten) ⊎ (to.new ≡ to.old)) }
    ensures cut { IfErr result (λ refusal. refusal.why ≡ NotWritten → IsCut limits PROFILE (S.script from.old) (S.script from.new) (W.calls to.old) (W.calls to.new) refusal.at) }
    ensures exactly { Exactly limits (S.script from.old) result (S.script from.new) }
{
    let given = read_given(alloc, from, limits, PROFILE)?;
    write_given(&given, to)
}

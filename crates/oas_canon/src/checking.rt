//! Whether a file is canonical.
ghost use Rattle.std.specs.Prelude.{◌⊎◌, IfOk, IfErr};
ghost use Rattle.oas_judge.specs.Deciding.{HasNoMemory, IsReasoned};
ghost use Rattle.oas_judge.specs.Reading.{IsRefused, IsPlaced};
ghost use Rattle.oas_canon.specs.Run.{IsJudged, Exactly};

use crate::profile::PROFILE;
use oas_elements::Limits;
use oas_num::{Refusal, Source};
use std::alloc::Global;

/// Whether what a source gives is the canonical file of its layout.
///
/// Each record is accepted and judged as it is read, so memory is allocated for names, for cells, and for the numbers by
/// which each cell calls others and text strings, and not for elements. A file is refused as by
/// [`canonicalize`](crate::canonicalize), except that there is no writer, and that memory may run out at any byte.
pub fn is_canonical<S: Source>(alloc: Global, from: &mut S, limits: Limits) -> Result<bool, Refusal>
    ensures judged { IfOk result (λ yes. IsJudged limits PROFILE (S.script from.old) (S.script from.new) yes) }
    ensures refused { IfErr result (λ refusal. IsRefused limits (S.script from.old) refusal.why (S.script from.new)) }
    ensures placed { IfErr result (λ refusal. IsPlaced limits (S.script from.old) refusal (S.script from.new)) }
    ensures decided { IfErr result (λ refusal. HasNoMemory limits (S.script from.old) refusal (S.script from.new) ⊎ IsReasoned limits (S.script from.old) refusal (S.script from.new)) }
    ensures exactly { Exactly limits (S.script from.old) result (S.script from.new) }
{
    oas_judge::is_canonical(alloc, from, limits, PROFILE)
}

//! The command `canon`.

ghost use Rattle.std.specs.Prelude.{◌≡◌, ℕ, Result};
ghost use Rattle.oas_num.specs.declared.refusals.Refusal.{Refusal as Refused};
ghost use Rattle.oas_command.specs.Calls.{Canonicalizes};
ghost use Rattle.oas_command.specs.Runs.{status_of, Ends};

use super::ends::{DONE, conclude};
use oas_canon::{Limits, canonicalize};
use oas_num::{Device, Sink, Source};
use std::alloc::Global;

/// Writes the canonical bytes of all that `from` gives within these limits to `out`, and returns the status of the command:
/// 0, or 1 after a refusal, which is named to `told` in a line that begins with `name`. A fault of `told` changes nothing.
pub(crate) fn canon_telling<S: Source, W: Device, K: Sink>(
    alloc: Global,
    name: &str,
    from: &mut S,
    out: &mut W,
    told: &mut K,
    limits: Limits,
) -> u8
    ensures { (answer : Result ℕ Refused) × (result ≡ status_of answer)
        × Canonicalizes W.calls limits (S.script from.old) out.old answer (S.script from.new) out.new
        × Ends K.given K.failures name.now told.old answer told.new }
{
    conclude(name, canonicalize(alloc, from, out, limits), DONE, told)
}

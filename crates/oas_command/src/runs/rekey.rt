//! The command `rekey`.

ghost use Rattle.std.specs.Prelude.{◌≡◌, Result};
ghost use Rattle.oas_num.specs.declared.refusals.Refusal.{Refusal as Refused};
ghost use Rattle.oas_canon.specs.declared.rekeying.Rekeyed.{Rekeyed as WasRekeyed};
ghost use Rattle.oas_num.specs.Writing.{Writes};
ghost use Rattle.oas_command.specs.Calls.{RekeysFile};
ghost use Rattle.oas_command.specs.Lines.{not_profile_1_line};
ghost use Rattle.oas_command.specs.Rekeying.{rekey_status, EndsRekeying};

use super::ends::{DONE, NO, refuse};
use oas_canon::{Limits, Rekeyed, rekey};
use oas_num::{Device, Refusal, Sink, SinkFault, Source};
use std::alloc::Global;

/// Writes the canonical bytes by profile two of all that `from` gives within these limits, which is canonical by profile one,
/// to `out`, and returns the status of the command: 0; or 3 where it isn't canonical by profile one, and 1 after a refusal.
/// Each of these two is said to `told`, in a line that begins with `name`, and neither writes anything to `out` unless `out`
/// itself failed. A fault of `told` changes nothing.
pub(crate) fn rekey_telling<S: Source, W: Device, K: Sink>(
    alloc: Global,
    name: &str,
    from: &mut S,
    out: &mut W,
    told: &mut K,
    limits: Limits,
) -> u8
    ensures { (answer : Result WasRekeyed Refused) × (result ≡ rekey_status answer)
        × RekeysFile W.calls limits (S.script from.old) out.old answer (S.script from.new) out.new
        × EndsRekeying K.given K.failures name.now told.old answer told.new }
{
    conclude_rekeying(name, rekey(alloc, from, out, limits), told)
}

/// Ends a run that should re-key: says so where it didn't, and returns its status.
fn conclude_rekeying<K: Sink>(name: &str, rekeyed: Result<Rekeyed, Refusal>, told: &mut K) -> u8
    ensures answers { result ≡ rekey_status rekeyed }
    ensures ends { EndsRekeying K.given K.failures name.now told.old rekeyed told.new }
{
    match rekeyed {
        Ok(Rekeyed::Done(_)) => DONE,
        Ok(Rekeyed::NotProfile1) => {
            let _ = put_not_profile_1(told, name);
            NO
        }
        Err(refusal) => refuse(name, refusal, told),
    }
}

/// Puts the line of an input that isn't canonical by profile one.
fn put_not_profile_1<K: Sink>(told: &mut K, name: &str) -> Result<(), SinkFault>
    ensures { Writes K.given K.failures told.old (not_profile_1_line name.now) result told.new }
{
    told.put_all(name.as_bytes())?;
    told.put_all(b": not profile 1 canonical\n")
}

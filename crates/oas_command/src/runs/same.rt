//! The command `same`.

ghost use Rattle.std.specs.Prelude.{◌≡◌, Bool, Result, IfOk, IfErr};
ghost use Rattle.oas_num.specs.declared.refusals.Refusal.{Refusal as Refused};
ghost use Rattle.oas_num.specs.Written.{IsWritten, IsCutOff};
ghost use Rattle.oas_canon.specs.declared.sameness.Which.{Which as WhichFile};
ghost use Rattle.oas_command.specs.Calls.{Compares};
ghost use Rattle.oas_command.specs.Lines.{same_text, same_line};
ghost use Rattle.oas_command.specs.Runs.{verdict_status, Delivers, found_in, blamed, Ends};

use super::ends::{conclude, refuse, status_of_verdict};
use crate::lines::write_line;
use oas_canon::{Limits, Which, same_files};
use oas_num::{Device, Refusal, Sink, Source};
use std::alloc::Global;

/// Writes whether all that `a` gives within these limits, and all that `b` gives, mean the same layout, as a line to `out`,
/// `same` or `different`, and returns the status of the command: 0 or 3, or 1 after a refusal, which is named to `told` in a
/// line that begins with the name of the refused file. `a` is read whole before `b` is begun. A fault of `out` is the
/// refusal `Why::Write`, under the name of `a`; a fault of `told` changes nothing.
pub(crate) fn same_telling<S: Source, T: Source, W: Device, K: Sink>(
    alloc: Global,
    name_a: &str,
    a: &mut S,
    name_b: &str,
    b: &mut T,
    out: &mut W,
    told: &mut K,
    limits: Limits,
) -> u8
    ensures { (found : Result Bool (WhichFile × Refused)) × (answer : Result Bool Refused) × (result ≡ verdict_status answer)
        × Compares T.script limits (S.script a.old) (S.script a.new) b.old b.new found
        × Delivers W.calls same_line out.old (found_in found) answer out.new
        × Ends K.given K.failures (blamed name_a.now name_b.now found) told.old answer told.new }
{
    match same_files(alloc, a, b, limits) {
        Ok(same) => {
            let written = write_sameness(out, same);
            conclude(name_a, written, status_of_verdict(same), told)
        }
        Err((Which::First, refusal)) => refuse(name_a, refusal, told),
        Err((Which::Second, refusal)) => refuse(name_b, refusal, told),
    }
}

/// Writes the line of a result, as [`same_telling`] does, and returns how many bytes that is. A fault of the writer is
/// `Why::Write`, after as many bytes of the line as its place says.
pub fn write_sameness<W: Device>(out: &mut W, same: bool) -> Result<u64, Refusal>
    ensures written { IfOk result (IsWritten W.calls out.old (same_line same) out.new) }
    ensures refused { IfErr result (IsCutOff W.calls out.old (same_line same) out.new) }
{
    write_line(out, sameness(same))
}

/// The text of a result.
fn sameness(same: bool) -> &'static [u8]
    ensures { result.now ≡ same_text same }
{
    if same { b"same" } else { b"different" }
}

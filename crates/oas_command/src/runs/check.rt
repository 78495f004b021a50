//! The command `check`.

ghost use Rattle.std.specs.Prelude.{◌≡◌, Bool, Result, IfOk, IfErr};
ghost use Rattle.oas_num.specs.declared.refusals.Refusal.{Refusal as Refused};
ghost use Rattle.oas_num.specs.Written.{IsWritten, IsCutOff};
ghost use Rattle.oas_command.specs.Calls.{Judges};
ghost use Rattle.oas_command.specs.Lines.{check_text, check_line, named_check_line};
ghost use Rattle.oas_command.specs.Runs.{verdict_status, Delivers, Ends};

use super::ends::{conclude, refuse, status_of_verdict};
use crate::lines::{Label, Pieces, write_line};
use oas_canon::{Limits, is_canonical};
use oas_num::{Device, Refusal, Sink, Source, write_content};
use std::alloc::Global;

/// Writes whether all that `from` gives within these limits is canonical, as a line to `out`, `canonical` or `not canonical`,
/// and returns the status of the command: 0 or 3, or 1 after a refusal, which is named to `told` in a line that begins with
/// `name`. A fault of `out` is the refusal `Why::Write`; a fault of `told` changes nothing.
pub(crate) fn check_telling<S: Source, W: Device, K: Sink>(
    alloc: Global,
    name: &str,
    from: &mut S,
    out: &mut W,
    told: &mut K,
    limits: Limits,
) -> u8
    ensures { (found : Result Bool Refused) × (answer : Result Bool Refused) × (result ≡ verdict_status answer)
        × Judges limits (S.script from.old) found (S.script from.new)
        × Delivers W.calls check_line out.old found answer out.new
        × Ends K.given K.failures name.now told.old answer told.new }
{
    match is_canonical(alloc, from, limits) {
        Ok(yes) => {
            let written = write_line(out, verdict(yes));
            conclude(name, written, status_of_verdict(yes), told)
        }
        Err(refusal) => refuse(name, refusal, told),
    }
}

/// Like `check_telling`, except that the line begins with the name of this label: `NAME: canonical`, `NAME: not canonical`.
pub(crate) fn named_check_telling<S: Source, W: Device, K: Sink>(
    alloc: Global,
    name: &str,
    label: Label<'_>,
    from: &mut S,
    out: &mut W,
    told: &mut K,
    limits: Limits,
) -> u8
    ensures { (found : Result Bool Refused) × (answer : Result Bool Refused) × (result ≡ verdict_status answer)
        × Judges limits (S.script from.old) found (S.script from.new)
        × Delivers W.calls (named_check_line label.entry) out.old found answer out.new
        × Ends K.given K.failures name.now told.old answer told.new }
{
    match is_canonical(alloc, from, limits) {
        Ok(yes) => {
            let written = write_named_check(out, label, yes);
            conclude(name, written, status_of_verdict(yes), told)
        }
        Err(refusal) => refuse(name, refusal, told),
    }
}

/// Writes the line of a result after the name of this label, as `Work::NamedCheck` does, and returns how many bytes that is.
/// A fault of the writer is `Why::Write`, after as many bytes of the line as its place says.
pub fn write_named_check<W: Device>(
    out: &mut W,
    label: Label<'_>,
    yes: bool,
) -> Result<u64, Refusal>
    ensures written { IfOk result (IsWritten W.calls out.old (named_check_line label.entry yes) out.new) }
    ensures refused { IfErr result (IsCutOff W.calls out.old (named_check_line label.entry yes) out.new) }
{
    let pieces = Pieces {
        first: label.name.as_bytes(),
        second: b": ",
        third: verdict(yes),
        fourth: b"",
        end: label.end.byte(),
    };
    write_content(&pieces, out)
}

/// The text of a result.
fn verdict(yes: bool) -> &'static [u8]
    ensures { result.now ≡ check_text yes }
{
    if yes { b"canonical" } else { b"not canonical" }
}

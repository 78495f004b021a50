//! The command `info`.

ghost use Rattle.std.specs.Prelude.{◌≡◌, Result, IfOk};
ghost use Rattle.oas_num.specs.declared.refusals.Refusal.{Refusal as Refused};
ghost use Rattle.oas_num.specs.declared.refusals.Why.TheVariants.{Memory as NoMemory};
ghost use Rattle.oas_elements.specs.Contents.{Contents, meaning_of};
ghost use Rattle.oas_canon.specs.Reading.{ReadsLayout};
ghost use Rattle.oas_info.specs.declared.info.Info.{Info as Told};
ghost use Rattle.oas_info.specs.Info.{IsInfo};
ghost use Rattle.oas_info.specs.Form.{form_text};
ghost use Rattle.oas_command.specs.Info.{Informs, info_lines};
ghost use Rattle.oas_command.specs.Runs.{status_of, Delivers, Ends};

use super::ends::{DONE, conclude, refuse};
use crate::lines::write_line;
use oas_canon::{Layout, Limits, PROFILE, read_layout};
use oas_info::{Form, Info, info_of, text_in};
use oas_num::{Device, Refusal, Sink, Source, Why};
use std::alloc::{AllocError, Global};

/// Writes the facts of the layout of all that `from` gives within these limits to `out`, in this format. Returns the status
/// of the command: 0, or 1 after a refusal, which is named to `told` in a line that begins with `name`. Out of memory for the
/// facts or their text is the refusal `Why::Memory`, and nothing is written. A fault of `out` is the refusal `Why::Write`; a
/// fault of `told` changes nothing.
pub(crate) fn info_telling<S: Source, W: Device, K: Sink>(
    alloc: Global,
    name: &str,
    from: &mut S,
    form: Form,
    out: &mut W,
    told: &mut K,
    limits: Limits,
) -> u8
    ensures { (read : Result Contents Refused) × (found : Result Told Refused) × (answer : Result Told Refused) × (result ≡ status_of answer)
        × ReadsLayout limits PROFILE (S.script from.old) read (S.script from.new)
        × Informs (S.script from.new) read found
        × Delivers W.calls (info_lines form) out.old found answer out.new
        × Ends K.given K.failures name.now told.old answer told.new }
{
    match read_layout(alloc, from, limits, PROFILE) {
        Ok(layout) => match facts_and_text(alloc, &layout, form) {
            Ok((_, text)) => {
                let written = write_line(out, text.as_slice());
                conclude(name, written, DONE, told)
            }
            Err(_) => refuse(name, no_memory(from.at()), told),
        },
        Err(refusal) => refuse(name, refusal, told),
    }
}

/// The refusal out of memory, after what was read.
fn no_memory(at: u64) -> Refusal
    ensures why { result.why ≡ NoMemory }
    ensures place { result.at ≡ at }
{
    Refusal {
        at,
        why: Why::Memory,
    }
}

/// The facts of a layout, and their text in this format.
fn facts_and_text(alloc: Global, layout: &Layout, form: Form) -> Result<(Info, Vec<u8>), AllocError>
    ensures facts { IfOk result (λ both. IsInfo (meaning_of layout.now) both.0) }
    ensures text { IfOk result (λ both. both.1.items ≡ form_text form both.0) }
{
    let info = info_of(alloc, layout)?;
    let text = text_in(alloc, form, &info)?;
    Ok((info, text))
}

//! The command `key` with saved keys.

ghost use Rattle.std.specs.Prelude.{◌≡◌, ◌↔◌, ℕ, Bool, List, Result, IfOk, IfErr, IsTrue};
ghost use Rattle.hex.specs.Hex.{encode_lower};
ghost use Rattle.oas_num.specs.declared.refusals.Refusal.{Refusal as Refused};
ghost use Rattle.oas_num.specs.Written.{IsWritten, IsCutOff};
ghost use Rattle.oas_command.specs.Calls.{Keys};
ghost use Rattle.oas_command.specs.Keeping.{Agrees};
ghost use Rattle.oas_command.specs.Lines.{kept_text, kept_line, saved_key_line};
ghost use Rattle.oas_command.specs.Runs.{verdict_status, Delivers, Ends};

use super::ends::{conclude, refuse, status_of_verdict};
use super::key::hex_text;
use crate::lines::{Label, Pieces};
use oas_canon::{Limits, key};
use oas_num::{Device, Refusal, Sink, Source, write_content};
use std::alloc::Global;

/// Writes whether the key of all that `from` gives within these limits is the saved one (lower-case hex digits), as a line to
/// `out`, `NAME: OK` or `NAME: changed` with this label; a quiet run writes only the second. Returns the status of the
/// command: 0 or 3, or 1 after a refusal, which is named to `told` in a line that begins with `name`. A fault of `out` is the
/// refusal `Why::Write`; a fault of `told` changes nothing.
pub fn kept_telling<S: Source, W: Device, K: Sink>(
    alloc: Global,
    name: &str,
    label: Label<'_>,
    kept: &[u8],
    is_quiet: bool,
    from: &mut S,
    out: &mut W,
    told: &mut K,
    limits: Limits,
) -> u8
    ensures { (found : Result (List ℕ) Refused) × (same : Result Bool Refused) × (answer : Result Bool Refused) × (result ≡ verdict_status answer)
        × Keys limits (S.script from.old) found (S.script from.new)
        × Agrees kept.now found same
        × Delivers W.calls (saved_key_line is_quiet label.entry) out.old same answer out.new
        × Ends K.given K.failures name.now told.old answer told.new }
{
    match key(alloc, from, limits) {
        Ok(digest) => {
            let same = is_text_of(kept, &digest);
            let written = write_kept(out, label, is_quiet, same);
            conclude(name, written, status_of_verdict(same), told)
        }
        Err(refusal) => refuse(name, refusal, told),
    }
}

/// Whether these are the hex digits of a digest.
fn is_text_of(kept: &[u8], digest: &[u8; 32]) -> bool
    ensures { IsTrue result ↔ (kept.now ≡ encode_lower digest.now) }
{
    let text = hex_text(digest);
    kept == text.as_slice()
}

/// Writes the line of a result after the name, where it should be written.
fn write_kept<W: Device>(
    out: &mut W,
    label: Label<'_>,
    is_quiet: bool,
    same: bool,
) -> Result<u64, Refusal>
    ensures written { IfOk result (IsWritten W.calls out.old (saved_key_line is_quiet label.entry same) out.new) }
    ensures refused { IfErr result (IsCutOff W.calls out.old (saved_key_line is_quiet label.entry same) out.new) }
{
    if is_quiet && same {
        return Ok(0);
    }
    let pieces = Pieces {
        first: label.name.as_bytes(),
        second: b": ",
        third: verdict(same),
        fourth: b"",
        end: label.end.byte(),
    };
    write_content(&pieces, out)
}

/// The text of a result.
fn verdict(same: bool) -> &'static [u8]
    ensures { result.now ≡ kept_text same }
{
    if same { b"OK" } else { b"changed" }
}

//! The command `key`.

ghost use Rattle.std.specs.Prelude.{◌≡◌, ℕ, List, Result, IfOk, IfErr};
ghost use Rattle.hex.specs.Hex.{encode_lower};
ghost use Rattle.oas_num.specs.declared.refusals.Refusal.{Refusal as Refused};
ghost use Rattle.oas_num.specs.Written.{IsWritten, IsCutOff};
ghost use Rattle.oas_command.specs.Calls.{Keys};
ghost use Rattle.oas_command.specs.Lines.{key_line, escape_mark, named_key_line};
ghost use Rattle.oas_command.specs.Runs.{status_of, Delivers, Ends};

use super::ends::{DONE, conclude, refuse};
use crate::lines::{Label, Pieces, write_line};
use hex::encode_to_slice;
use oas_canon::{Limits, key};
use oas_num::{Device, Refusal, Sink, Source, write_content};
use std::alloc::Global;

/// Writes the key of all that `from` gives within these limits, as a line of 64 lower-case hex digits to `out`, and returns
/// the status of the command: 0, or 1 after a refusal, which is named to `told` in a line that begins with `name`. A fault of
/// `out` is the refusal `Why::Write`; a fault of `told` changes nothing.
pub(crate) fn key_telling<S: Source, W: Device, K: Sink>(
    alloc: Global,
    name: &str,
    from: &mut S,
    out: &mut W,
    told: &mut K,
    limits: Limits,
) -> u8
    ensures { (found : Result (List ℕ) Refused) × (answer : Result (List ℕ) Refused) × (result ≡ status_of answer)
        × Keys limits (S.script from.old) found (S.script from.new)
        × Delivers W.calls key_line out.old found answer out.new
        × Ends K.given K.failures name.now told.old answer told.new }
{
    match key(alloc, from, limits) {
        Ok(digest) => {
            let written = write_line(out, &hex_text(&digest));
            conclude(name, written, DONE, told)
        }
        Err(refusal) => refuse(name, refusal, told),
    }
}

/// Like `key_telling`, except that the line ends with the name of this label, as `sha256sum` prints it: `HEX  NAME`, with a
/// backslash before it where the name was escaped.
pub(crate) fn named_key_telling<S: Source, W: Device, K: Sink>(
    alloc: Global,
    name: &str,
    label: Label<'_>,
    from: &mut S,
    out: &mut W,
    told: &mut K,
    limits: Limits,
) -> u8
    ensures { (found : Result (List ℕ) Refused) × (answer : Result (List ℕ) Refused) × (result ≡ status_of answer)
        × Keys limits (S.script from.old) found (S.script from.new)
        × Delivers W.calls (named_key_line label.entry) out.old found answer out.new
        × Ends K.given K.failures name.now told.old answer told.new }
{
    match key(alloc, from, limits) {
        Ok(digest) => {
            let written = write_named_key(out, label, &digest);
            conclude(name, written, DONE, told)
        }
        Err(refusal) => refuse(name, refusal, told),
    }
}

/// Writes the line of a key with the name of this label after it, as [`named_key_telling`] does, and returns how many bytes that
/// is. A fault of the writer is `Why::Write`, after as many bytes of the line as its place says.
pub fn write_named_key<W: Device>(
    out: &mut W,
    label: Label<'_>,
    digest: &[u8; 32],
) -> Result<u64, Refusal>
    ensures written { IfOk result (IsWritten W.calls out.old (named_key_line label.entry digest.now) out.new) }
    ensures refused { IfErr result (IsCutOff W.calls out.old (named_key_line label.entry digest.now) out.new) }
{
    let text = hex_text(digest);
    let pieces = Pieces {
        first: mark(label.is_escaped),
        second: text.as_slice(),
        third: b"  ",
        fourth: label.name.as_bytes(),
        end: label.end.byte(),
    };
    write_content(&pieces, out)
}

/// What comes before a key.
fn mark(is_escaped: bool) -> &'static [u8]
    ensures { result.now ≡ escape_mark is_escaped }
{
    if is_escaped { b"\\" } else { b"" }
}

/// The hex digits of a digest.
pub(super) fn hex_text(digest: &[u8; 32]) -> [u8; 64]
    ensures { result ≡ encode_lower digest.now }
{
    let mut text = [0; 64];
    let _ = encode_to_slice(digest.as_slice(), &mut text);
    text
}

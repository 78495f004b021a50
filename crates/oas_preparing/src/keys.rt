//! The key of what a file is prepared to.

ghost use Rattle.std.specs.Prelude.{◌≡◌, ℕ, List, Result};
ghost use Rattle.oas_prepare.specs.Report.{Report as LeftOut};
ghost use Rattle.oas_prepare.specs.Rejection.{Rejection as Rejected};
ghost use Rattle.oas_preparing.specs.Answers.{reported, key_text, KeysPrepared, Delivers};
ghost use Rattle.oas_preparing.specs.Judged.{OnAgain};
ghost use Rattle.oas_preparing.specs.Runs.{status_of, Ends};

use crate::ends::{answered, conclude, reject};
use crate::judged::read_judged;
use oas_elements::Limits;
use oas_explain::{Label, write_named_key};
use oas_num::{Device, Sink, Source};
use oas_prepare::{Dropping, Rejection, Report, given_key};
use std::alloc::Global;

/// The key of the canonical file that [`prepare`](oas_prepare::prepare) writes for all that `from` gives, and what was left
/// out of it. That file isn't written anywhere. It stops exactly where `prepare` does before it writes, at the same place and
/// for the same reason.
///
/// A canonical file is hashed as it is. Otherwise the result is that for a source which gives the bytes that `from` gives.
/// Returns None if out of memory for the bytes that begin as a canonical file.
pub fn prepared_key<S: Source>(
    alloc: Global,
    from: &mut S,
    limits: Limits,
    dropping: Dropping,
) -> Option<Result<([u8; 32], Report), Rejection>>
    ensures { OnAgain (S.script from.old) (λ again found last. KeysPrepared limits dropping again found last) result }
{
    let read = read_judged(alloc, from, limits, dropping)?;
    match read {
        Ok((given, report)) => Some(Ok((given_key(&given), report))),
        Err(rejection) => Some(Err(rejection)),
    }
}

/// Writes the key of what all that `from` gives is prepared to, within these limits and without what is named to be left
/// out, as a line `KEY  NAME` with this label to `out`. Returns the status of the command: 0, or 1 after a refusal; None where
/// [`prepared_key`] does. What was left out, or the refusal, is put into `told` in a line that begins with `name`. A fault of
/// `out` is the refusal `Why::Write`; a fault of `told` changes nothing.
pub fn key_telling<S: Source, W: Device, K: Sink>(
    alloc: Global,
    name: &str,
    label: Label<'_>,
    from: &mut S,
    out: &mut W,
    told: &mut K,
    limits: Limits,
    dropping: Dropping,
) -> Option<u8>
    ensures { OnAgain (S.script from.old) (λ again status last. (found : Result (List ℕ × LeftOut) Rejected) × (answer : Result (List ℕ × LeftOut) Rejected) × (status ≡ status_of (reported answer))
        × KeysPrepared limits dropping again found last
        × Delivers W.calls (key_text label.entry) out.old found answer out.new
        × Ends K.given K.failures name.now told.old (reported answer) told.new) result }
{
    let key = prepared_key(alloc, from, limits, dropping)?;
    match key {
        Ok(found) => {
            let digest = found.0;
            let written = write_named_key(out, label, &digest);
            Some(conclude(name, answered(found.1, written), told))
        }
        Err(rejection) => Some(reject(name, rejection, told)),
    }
}

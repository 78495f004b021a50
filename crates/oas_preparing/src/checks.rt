//! Whether a file is what it is prepared to.

ghost use Rattle.std.specs.Prelude.{◌≡◌, Bool, Result, Ok};
ghost use Rattle.oas_num.specs.declared.refusals.Refusal.{Refusal as Refused};
ghost use Rattle.oas_prepare.specs.Report.{Report as LeftOut};
ghost use Rattle.oas_prepare.specs.Rejection.{Rejection as Rejected};
ghost use Rattle.oas_preparing.specs.Answers.{reported, answered, Delivers};
ghost use Rattle.oas_preparing.specs.Checks.{ChecksPrepared, unkept, check_text, check_status};
ghost use Rattle.oas_preparing.specs.Runs.{Ends};

use crate::ends::reject;
use crate::keeping::read_kept;
use crate::lines::put_report;
use oas_elements::Limits;
use oas_explain::{Label, has_canonical_bytes, status_of_verdict, write_named_check};
use oas_num::{Device, Refusal, Sink, Source, Why};
use oas_prepare::{Dropping, Rejection, Report};
use std::alloc::Global;

/// How many bytes END has.
const END_LENGTH: u64 = 256;

/// Whether all that `from` gives is, byte for byte, the canonical file that [`prepare`](oas_prepare::prepare) writes for it,
/// and what was left out of that. It is read once, and its bytes are kept until it is answered. It stops exactly where
/// `prepare` does before it writes, at the same place and for the same reason; out of memory for its bytes it stops at END,
/// where all was read.
pub fn prepared_check<S: Source>(
    alloc: Global,
    from: &mut S,
    limits: Limits,
    dropping: Dropping,
) -> Result<(bool, Report), Rejection>
    ensures { ChecksPrepared limits dropping (S.script from.old) result (S.script from.new) }
{
    let (layout, report, kept) = read_kept(alloc, from, limits, dropping)?;
    match kept {
        Some(bytes) => Ok((has_canonical_bytes(&layout, &bytes), report)),
        None => Err(unkept(from.at())),
    }
}

/// The rejection of a file of this many bytes which could not be kept.
fn unkept(length: u64) -> Rejection
    ensures { result ≡ unkept length }
{
    Rejection::from(Refusal {
        at: length.saturating_sub(END_LENGTH),
        why: Why::Memory,
    })
}

/// Writes whether all that `from` gives is the canonical file that it is prepared to, within these limits and without what is
/// named to be left out, as a line `NAME: canonical` or `NAME: not canonical` with this label to `out`. Returns the status of
/// the command: 0 or 3, or 1 after a refusal. What was left out, or the refusal, is put into `told` in a line that begins with
/// `name`. A fault of `out` is the refusal `Why::Write`; a fault of `told` changes nothing.
pub fn check_telling<S: Source, W: Device, K: Sink>(
    alloc: Global,
    name: &str,
    label: Label<'_>,
    from: &mut S,
    out: &mut W,
    told: &mut K,
    limits: Limits,
    dropping: Dropping,
) -> u8
    ensures { (found : Result (Bool × LeftOut) Rejected) × (answer : Result (Bool × LeftOut) Rejected) × (result ≡ check_status answer)
        × ChecksPrepared limits dropping (S.script from.old) found (S.script from.new)
        × Delivers W.calls (check_text label.entry) out.old found answer out.new
        × Ends K.given K.failures name.now told.old (reported answer) told.new }
{
    match prepared_check(alloc, from, limits, dropping) {
        Ok(found) => {
            let written = write_named_check(out, label, found.0);
            conclude_check(name, found.0, found.1, written, told)
        }
        Err(rejection) => reject(name, rejection, told),
    }
}

/// Ends a run whose result should be written: names what was left out, or why the result was not written, and returns its
/// status.
fn conclude_check<K: Sink>(
    name: &str,
    yes: bool,
    report: Report,
    written: Result<u64, Refusal>,
    told: &mut K,
) -> u8
    ensures answers { result ≡ check_status (answered (yes, report) written) }
    ensures ends { Ends K.given K.failures name.now told.old (answered report written) told.new }
{
    match written {
        Ok(_) => {
            let _ = put_report(told, name, report);
            status_of_verdict(yes)
        }
        Err(refusal) => reject(name, Rejection::from(refusal), told),
    }
}

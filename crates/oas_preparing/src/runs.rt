//! The run of the command.

ghost use Rattle.std.specs.Prelude.{◌≡◌, Result, Ok};
ghost use Rattle.oas_num.specs.Script.{Script};
ghost use Rattle.oas_elements.specs.declared.limits.Limits.{Limits as TheLimits};
ghost use Rattle.oas_prepare.specs.NarrowDropping.{Dropping as ToDrop};
ghost use Rattle.oas_prepare.specs.Report.{Report as LeftOut};
ghost use Rattle.oas_prepare.specs.Rejection.{Rejection as Rejected};
ghost use Rattle.oas_explain.specs.Runs.{Says};
ghost use Rattle.oas_preparing.specs.Judged.{OnAgain, ReadsJudged};
ghost use Rattle.oas_preparing.specs.Runs.{Prepares, status_of, said, Ends};

use crate::ends::{answered, conclude, reject};
use crate::judged::read_judged;
use oas_elements::Limits;
use oas_num::{Device, Outlet, Sink, Source};
use oas_prepare::{Dropping, Given, Report, write_given};
use std::alloc::Global;

/// Writes the canonical bytes of what the records of all that `from` gives are translated to, within these limits and without
/// what is named to be left out, to `out`. Returns the status of the command: 0, or 1 after a refusal. What was left out, or
/// the refusal, is named on `err` in a line that begins with `name`. A fault of `err` changes nothing.
///
/// A canonical file is written as it is. Otherwise the result is that for a source which gives the bytes that `from` gives.
/// Returns None if out of memory for the bytes that begin as a canonical file; then nothing was written.
pub fn run_prepare<S: Source, W: Device, E: Device>(
    alloc: Global,
    name: &str,
    from: &mut S,
    out: &mut W,
    err: &mut E,
    limits: Limits,
    dropping: Dropping,
) -> Option<u8>
    ensures { OnAgain (S.script from.old) (λ again status last. (answer : Result LeftOut Rejected) × (status ≡ status_of answer)
        × Prepares W.calls limits dropping again out.old answer last out.new
        × Says (E.calls err.old) (said name.now answer) (E.calls err.new)) result }
{
    let mut told = Outlet::new(err);
    let status = prepare_telling(alloc, name, from, out, &mut told, limits, dropping);
    let _ = told.close();
    status
}

/// Like `run_prepare`, with a sink for the line.
pub fn prepare_telling<S: Source, W: Device, K: Sink>(
    alloc: Global,
    name: &str,
    from: &mut S,
    out: &mut W,
    told: &mut K,
    limits: Limits,
    dropping: Dropping,
) -> Option<u8>
    ensures { OnAgain (S.script from.old) (λ again status last. (answer : Result LeftOut Rejected) × (status ≡ status_of answer)
        × Prepares W.calls limits dropping again out.old answer last out.new
        × Ends K.given K.failures name.now told.old answer told.new) result }
{
    let read = read_judged(alloc, from, limits, dropping)?;
    match read {
        Ok((given, report)) => Some(write_telling(name, &given, report, out, told)),
        Err(rejection) => Some(reject(name, rejection, told)),
    }
}

/// Writes the canonical file of what was read, and ends the run.
fn write_telling<W: Device, K: Sink>(
    name: &str,
    given: &Given,
    report: Report,
    out: &mut W,
    told: &mut K,
) -> u8
    ensures { (answer : Result LeftOut Rejected) × (result ≡ status_of answer)
        × ((limits : TheLimits) (dropping : ToDrop) (old new : Script) → ReadsJudged limits dropping old (Ok (given.now, report)) new → Prepares W.calls limits dropping old out.old answer new out.new)
        × Ends K.given K.failures name.now told.old answer told.new }
{
    let written = write_given(given, out);
    conclude(name, answered(report, written), told)
}
